//! A run of a world over logs in memory.
use crate::{got, key, name, same};
use sb_log::PlainLog;
use sb_testing::SETTINGS;
use sb_types::{Fault, RawSettings, Settings, Slot, Value};
use sb_world::{Answer, Event, World, run_in_memory};
use std::alloc::Global;
use std::process::Abort;

fn weight(rt: &impl Abort, number: u64) -> Slot {
    Slot::Set(got(rt, Value::weight(number)))
}

/// An empty log of the owner.
fn log(rt: &impl Abort, alloc: Global, owner: &[u8]) -> PlainLog {
    PlainLog::new(alloc, name(rt, owner), name(rt, b"sim"), 2)
}

pub(crate) fn settings(rt: &impl Abort) -> Settings {
    let raw = RawSettings {
        cluster: b"sim",
        max_version: 2,
        seats: 1,
        ..SETTINGS
    };
    got(rt, Settings::check(raw))
}

/// A world of a and b.
fn world(rt: &impl Abort, alloc: Global) -> World<PlainLog> {
    let mut logs = Vec::new(alloc);
    got(rt, logs.push(log(rt, alloc, b"a")));
    got(rt, logs.push(log(rt, alloc, b"b")));
    got(rt, World::new(alloc, settings(rt), logs))
}

/// A crash after a write, a restart, a write that is entered, and one for which no version is left.
pub(crate) fn seven_events(rt: &impl Abort) -> [Event; 7] {
    let (a, b) = (name(rt, b"a"), name(rt, b"b"));
    [
        Event::CrashInCommit(a, key(rt, b"x"), weight(rt, 1), true),
        Event::Upto(b, a),
        Event::Restart(a),
        Event::Commit(a, key(rt, b"y"), weight(rt, 2)),
        Event::Take(a),
        Event::Commit(a, key(rt, b"z"), weight(rt, 3)),
        Event::Upto(a, a),
    ]
}

/// A write and its removal, a purge with too high a floor, one that succeeds, one while the node is down, and a
/// restart.
pub(crate) fn purging_events(rt: &impl Abort) -> [Event; 7] {
    let a = name(rt, b"a");
    [
        Event::Commit(a, key(rt, b"x"), weight(rt, 1)),
        Event::Commit(a, key(rt, b"x"), Slot::Removed),
        Event::Purge(a, 3),
        Event::Purge(a, 2),
        Event::Purge(a, 2),
        Event::Restart(a),
        Event::Upto(a, a),
    ]
}

/// A write, and its removal, which is taken only after a trim with its floor. Then that trim again.
pub(crate) fn trimming_events(rt: &impl Abort) -> [Event; 7] {
    let a = name(rt, b"a");
    [
        Event::Commit(a, key(rt, b"x"), weight(rt, 1)),
        Event::Take(a),
        Event::Commit(a, key(rt, b"x"), Slot::Removed),
        Event::Trim(a, 2),
        Event::Take(a),
        Event::Trim(a, 2),
        Event::Upto(a, a),
    ]
}

/// What a test sees of an answer.
#[derive(Clone, Copy, Debug, PartialEq, Eq)]
pub(crate) enum Told {
    Crashed,
    Purged(u64),
    Trimmed(u64),
    Restarted(u64),
    Committed(u64),
    Took(u64),
    Number(u64),
    Failed(Fault),
    Other,
}

/// The answers to the seven events.
pub(crate) const SEVEN_ANSWERS: [Told; 7] = [
    Told::Crashed,
    Told::Number(0),
    Told::Restarted(1),
    Told::Committed(2),
    Told::Took(2),
    Told::Failed(Fault::VersionsSpent),
    Told::Number(2),
];

/// The answers to the events with a purge.
pub(crate) const PURGING_ANSWERS: [Told; 7] = [
    Told::Committed(1),
    Told::Committed(2),
    Told::Failed(Fault::FloorTooHigh),
    Told::Purged(2),
    Told::Failed(Fault::Closed),
    Told::Restarted(2),
    Told::Number(2),
];

/// The answers to the events with a trim.
pub(crate) const TRIMMING_ANSWERS: [Told; 7] = [
    Told::Committed(1),
    Told::Took(1),
    Told::Committed(2),
    Told::Failed(Fault::FloorTooHigh),
    Told::Took(2),
    Told::Trimmed(2),
    Told::Number(2),
];

fn told_by(answer: &Result<Answer, Fault>) -> Told {
    match answer {
        Ok(Answer::Crashed) => Told::Crashed,
        Ok(Answer::Purged(floor)) => Told::Purged(*floor),
        Ok(Answer::Trimmed(floor)) => Told::Trimmed(*floor),
        Ok(Answer::Restarted(version)) => Told::Restarted(*version),
        Ok(Answer::Committed(version)) => Told::Committed(*version),
        Ok(Answer::Took(version)) => Told::Took(*version),
        Ok(Answer::Number(version)) => Told::Number(*version),
        Err(fault) => Told::Failed(*fault),
        _ => Told::Other,
    }
}

/// What a test sees of seven answers. If there are more or fewer, it sees nothing.
pub(crate) fn told_by_seven(answers: &[Result<Answer, Fault>]) -> [Told; 7] {
    match answers {
        [a, b, c, d, e, f, g] => [
            told_by(a),
            told_by(b),
            told_by(c),
            told_by(d),
            told_by(e),
            told_by(f),
            told_by(g),
        ],
        _ => [Told::Other; 7],
    }
}

/// The answers to seven events in a whole run.
fn told_of_run(rt: &impl Abort, alloc: Global, events: &[Event]) -> [Told; 7] {
    let mut world = world(rt, alloc);
    let answers = got(rt, run_in_memory(&mut world, events));
    told_by_seven(&answers)
}

#[test]
fn a_run_answers_each_event(rt: HostRuntime) {
    let found = told_of_run(&rt, rt.alloc(), &seven_events(&rt));
    same(&rt, &found, &SEVEN_ANSWERS);
}

#[test]
fn a_run_answers_each_purge(rt: HostRuntime) {
    let found = told_of_run(&rt, rt.alloc(), &purging_events(&rt));
    same(&rt, &found, &PURGING_ANSWERS);
}

#[test]
fn a_run_answers_each_trim(rt: HostRuntime) {
    let found = told_of_run(&rt, rt.alloc(), &trimming_events(&rt));
    same(&rt, &found, &TRIMMING_ANSWERS);
}
