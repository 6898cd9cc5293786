//! What a desk goes through: plain calls, or first one that may find no memory.
ghost use Rattle.std.specs.Prelude.{◌≡◌};

use crate::desk::{Answer, Call, Case, Desk, play};
use crate::making::{log_of, new_node};
use crate::reached::{Seated, seated_of};
use sb_directory::DirectoryTag;
use sb_holdings::BlockEnd;
use sb_log::PlainLog;
use sb_node::NodeCore;
use sb_types::Fault;
use sb_views::NewHistory;
use std::alloc::Global;
use std::marker::Brand;
use std::process::Abort;
use std::sync::Wait;
use std::sync::ledger::Blank;

/// Nothing happened yet, as far as the reader sees.
const NOTHING: Answer = Answer::Read(0, 0, 0);

pub(crate) const TAKE_OF_B: Call = Call::Delta(b"b", 0, b"y");

pub(crate) const TAKEN: Answer = Answer::Ended(BlockEnd::Taken(1));

/// What the desk of a node goes through that was just opened.
#[derive(Clone, Copy)]
pub(crate) enum Course<'a> {
    /// These calls, which are answered so.
    Calls(&'a [Case]),
    /// A write, during which an allocation may fail, and then these calls.
    LateWrite(&'a [Case]),
    /// A delta, during which an allocation may fail, and which is shown at last.
    LateDelta,
}

/// A write, during which an allocation may fail, and what makes up for it.
fn write_late<S: DirectoryTag, H: Wait + Drop, R: Wait + Abort>(rt: &R, desk: &mut Desk<S, H>) {
    match desk.perform(rt, Call::Take) {
        // Everything is as it was, and the same write is taken then.
        Answer::Refused(Fault::NoMemory) => play(
            rt,
            desk,
            &[(Call::Read, NOTHING), (Call::Take, Answer::Shown)],
        ),
        // It is entered, and the reader sees what it saw.
        Answer::NotShown => play(rt, desk, &[(Call::Read, NOTHING)]),
        _ => play(rt, desk, &[(Call::Read, Answer::Read(1, 1, 0))]),
    }
}

/// A delta, during which an allocation may fail, and what makes up for it. Returns how many events that makes.
fn take_late<S: DirectoryTag, H: Wait + Drop, R: Wait + Abort>(
    rt: &R,
    desk: &mut Desk<S, H>,
) -> u64 {
    match desk.perform(rt, TAKE_OF_B) {
        // Everything is as it was.
        Answer::Refused(Fault::NoMemory) => {
            play(rt, desk, &[(Call::Read, NOTHING), (TAKE_OF_B, TAKEN)]);
            1
        }
        // The block found no memory, which is an event too.
        Answer::Ended(BlockEnd::NoMemory(_)) => {
            play(
                rt,
                desk,
                &[(Call::Read, Answer::Read(1, 0, 0)), (TAKE_OF_B, TAKEN)],
            );
            2
        }
        // It is entered, and the reader sees what it saw.
        Answer::NotShown => {
            play(rt, desk, &[(Call::Read, NOTHING)]);
            1
        }
        _ => 1,
    }
}

/// The desk of a node that did nothing yet is watched, writes, and then answers these calls so.
fn play_late<S: DirectoryTag, H: Wait + Drop, R: Wait + Abort>(
    rt: &R,
    desk: &mut Desk<S, H>,
    cases: &[Case],
) {
    let before = [
        (Call::Watch(b"", 4), Answer::Done),
        (Call::Commit(b"x"), Answer::Done),
    ];
    play(rt, desk, &before);
    write_late(rt, desk);
    play(rt, desk, cases);
}

/// A desk takes a delta, and shows it at last.
fn show_late<S: DirectoryTag, H: Wait + Drop, R: Wait + Abort>(rt: &R, desk: &mut Desk<S, H>) {
    let events = take_late(rt, desk);
    let after = [
        (Call::Refresh, Answer::Shown),
        (Call::Read, Answer::Read(events, 0, 1)),
    ];
    play(rt, desk, &after);
}

/// A course, with the log of the node's owner.
#[derive(Drop)]
pub(crate) struct Run<'a> {
    pub(crate) log: PlainLog,
    pub(crate) course: Course<'a>,
    pub(crate) alloc: Global,
}

fn go<S: DirectoryTag, H: Wait + Drop, R: Wait + Abort>(rt: &R, node: Seated<S, H>, run: Run<'_>) {
    let mut desk = Desk::new(node, run.log, run.alloc);
    match run.course {
        Course::Calls(cases) => play(rt, &mut desk, cases),
        Course::LateWrite(cases) => play_late(rt, &mut desk, cases),
        Course::LateDelta => show_late(rt, &mut desk),
    }
}

fn go_seated<S: DirectoryTag, R: Wait + Abort>(
    rt: &R,
    history: NewHistory,
    blank: Blank,
    core: NodeCore,
    run: Run<'_>,
)
    requires history { history.seen.book ≡ S.history }
    requires opening { S.opening ≡ core.node }
    requires settings { S.settings ≡ core.settings }
    requires name { blank.name ≡ S.name }
    requires parts { blank.parts ≡ S.parts }
    requires all { (1 ≡ S.seats) × (1 ≡ S.parts) }
{
    let node = seated_of::<S, R>(rt, history, blank, core, run.alloc);
    go(rt, node, run);
}

/// This node goes through this, from the one seat of its directory.
pub(crate) fn run_seated<R: Wait + Abort>(rt: &R, core: NodeCore, run: Run<'_>) {
    go_seated::<Brand, _>(rt, NewHistory::new(), Blank::new(1), core, run);
}

/// A course of a node that wrote nothing.
pub(crate) fn new_run<'a>(rt: &impl Abort, alloc: Global, course: Course<'a>) -> Run<'a> {
    Run {
        log: log_of(rt, alloc, b"a"),
        course,
        alloc,
    }
}

/// A new node goes through this, from the one seat of its directory.
pub(crate) fn run_new<R: Wait + Abort>(rt: &R, alloc: Global, course: Course<'_>) {
    let run = new_run(rt, alloc, course);
    run_seated(rt, new_node(rt, alloc), run);
}
