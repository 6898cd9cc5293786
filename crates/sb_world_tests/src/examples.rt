//! The examples at the top of the crates of worlds and of scripts.
use crate::world::settings;
use crate::{got, same};
use sb_log::PlainLog;
use sb_script::{Detail, Output, sim_run_uncounted};
use sb_types::{Fault, Key, Name, Settings, Slot, Value};
use sb_world::{Answer, Event, World, run_in_memory};
use std::alloc::Global;

/// What the node `a` answers: to a write, to its entering, and to the question up to where it holds itself.
fn run_three(alloc: Global, settings: Settings) -> Result<Vec<Result<Answer, Fault>>, Fault> {
    let a = Name::read(b"a")?;
    let log = PlainLog::new(alloc, a, settings.cluster(), settings.max_version());
    let mut world = World::new(alloc, settings, vec![in alloc; log]?)?;
    let (key, slot) = (Key::read(b"web/up")?, Slot::Set(Value::flag(true)));
    let events = [
        Event::Commit(a, key, slot),
        Event::Take(a),
        Event::Upto(a, a),
    ];
    run_in_memory(&mut world, &events)
}

/// Whether the three answers are those of a first write.
fn are_of_a_write(answers: &[Result<Answer, Fault>]) -> bool {
    matches!(
        answers,
        [
            Ok(Answer::Committed(1)),
            Ok(Answer::Took(1)),
            Ok(Answer::Number(1)),
        ]
    )
}

#[test]
fn example_of_sb_world(rt: HostRuntime) {
    let answers = got(&rt, run_three(rt.alloc(), settings(&rt)));
    same(&rt, &are_of_a_write(&answers), &true);
}

/// What the script prints: in a world of `a` and `b` the node `a` writes, and reads what it wrote.
fn play_script(alloc: Global) -> Result<Vec<u8>, Fault> {
    let script = "world 1024 breadth 100 a b\nput a w weight 5\nread a a w\n";
    let mut output = Output::new(alloc, Vec::new(alloc))?;
    sim_run_uncounted(alloc, script.as_bytes(), &mut output, 100, Detail::Plain)?;
    Ok(output.into_writer())
}

#[test]
fn example_of_sb_script(rt: HostRuntime) {
    let printed = got(&rt, play_script(rt.alloc()));
    let wanted = b"version 1\na w 1 weight 5\n";
    same(&rt, &printed.as_slice(), &wanted.as_slice());
}
