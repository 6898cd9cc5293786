//! The seats of a directory: how many it can have, and how it is closed with them.
ghost use Rattle.std.specs.Prelude.{◌≡◌};

use crate::making::{commit, commit_removal, first_of, log_of, name, new_node};
use crate::{got, same, same_at, there};
use sb_directory::{Closing, Directory, DirectoryTag, ReaderSeat};
use sb_log::Committed;
use sb_node::NodeCore;
use sb_types::Fault;
use sb_views::NewHistory;
use std::alloc::Global;
use std::marker::Brand;
use std::process::Abort;
use std::sync::Wait;
use std::sync::ledger::Blank;

/// How many seats a directory has if it is asked for so many.
fn made<S: DirectoryTag, R: Wait>(
    rt: &R,
    alloc: Global,
    history: NewHistory,
    blank: Blank,
    core: NodeCore,
    seats: usize,
) -> Result<usize, Fault>
    requires history { history.seen.book ≡ S.history }
    requires opening { S.opening ≡ core.node }
    requires settings { S.settings ≡ core.settings }
    requires name { blank.name ≡ S.name }
    requires parts { blank.parts ≡ S.parts }
    requires all { (seats ≡ S.seats) × (seats ≡ S.parts) }
{
    match Directory::<S, &R>::make(rt, alloc, history, blank, core, seats) {
        Ok((_directory, made)) => Ok(made.len()),
        Err(fault) => Err(fault),
    }
}

/// The same for a new node.
fn make_new<R: Wait + Abort>(rt: &R, alloc: Global, seats: usize) -> Result<usize, Fault> {
    let core = new_node(rt, alloc);
    made::<Brand, _>(
        rt,
        alloc,
        NewHistory::new(),
        Blank::new(seats as u64),
        core,
        seats,
    )
}

/// Tests that a directory that is asked for so many seats has so many, or is refused with this fault.
fn makes<R: Wait + Abort>(rt: &R, alloc: Global, seats: usize, wanted: Result<usize, Fault>) {
    let found = make_new(rt, alloc, seats);
    if found == Err(Fault::NoMemory) {
        panic!(rt; "error: NoMemory");
    }
    same_at(rt, &("seats", seats), &found, &wanted);
}

#[test]
fn a_directory_has_1_to_64_seats(rt: HostRuntime) {
    let alloc = rt.alloc();
    makes(&rt, alloc, 0, Err(Fault::BadSetting));
    makes(&rt, alloc, 1, Ok(1));
    makes(&rt, alloc, 64, Ok(64));
    makes(&rt, alloc, 65, Err(Fault::BadSetting));
    same(&rt, &Fault::BadSetting.number(), &5);
}

/// Ends a directory with all of its seats.
pub(crate) fn close<S: DirectoryTag, H: Wait + Drop, R: Wait + Abort>(
    rt: &R,
    directory: Directory<S, H>,
    seats: Vec<ReaderSeat<S>>,
) -> Closing
    requires { S.seats ≡ S.parts }
{
    match directory.close(rt, seats) {
        Ok(closing) => closing,
        Err((fault, _, _)) => panic!(rt; "error: {fault:?}"),
    }
}

/// What comes back if a directory is not closed because these are not all of its seats: the number of the fault, and
/// both.
fn refused<S: DirectoryTag, H: Wait + Drop, R: Wait + Abort>(
    rt: &R,
    directory: Directory<S, H>,
    seats: Vec<ReaderSeat<S>>,
) -> (u8, Directory<S, H>, Vec<ReaderSeat<S>>)
    requires { S.seats ≡ S.parts }
{
    match directory.close(rt, seats) {
        Ok(_) => panic!(rt; "error: closed"),
        Err((fault, directory, back)) => (fault.number(), directory, back),
    }
}

/// The number of the fault if a directory is closed with one of two seats alone, and how many seats came back then.
/// Then how many events there were, and how far the node a is held.
type Closed = (u8, usize, u64, u64);

/// Closes a directory with one of its two seats, and then with both.
fn close_twice<S: DirectoryTag, H: Wait + Drop, R: Wait + Abort>(
    rt: &R,
    directory: Directory<S, H>,
    seats: Vec<ReaderSeat<S>>,
    kept: ReaderSeat<S>,
) -> Closed
    requires { S.seats ≡ S.parts }
{
    let (fault, directory, mut back) = refused(rt, directory, seats);
    let count = back.len();
    got(rt, back.push(kept));
    let closing = close(rt, directory, back);
    (
        fault,
        count,
        closing.events,
        closing.core.upto(&name(rt, b"a")),
    )
}

/// Makes a write of the node's own from a seat that sees it. Returns its version.
fn write<S: DirectoryTag, H: Wait + Drop, R: Wait + Abort>(
    rt: &R,
    alloc: Global,
    directory: &Directory<S, H>,
    seat: &mut ReaderSeat<S>,
) -> u64 {
    let committed = first_of(rt, alloc, b"a", b"x");
    let receipt = got(rt, directory.take_own(rt, seat, &committed));
    all_shown(rt, receipt.shown);
    receipt.version
}

/// Ends the test if a call did not show what it had to, because memory was missing.
pub(crate) fn all_shown(rt: &impl Abort, shown: bool) {
    if !shown {
        panic!(rt; "error: NoMemory");
    }
}

/// Makes a write from one of two seats. Returns its version, how many keys the seat finds then, and how the directory
/// closes: with the other seat alone, and with both.
fn write_and_close<S: DirectoryTag, R: Wait + Abort>(
    rt: &R,
    alloc: Global,
    history: NewHistory,
    blank: Blank,
    core: NodeCore,
) -> (u64, usize, Closed)
    requires history { history.seen.book ≡ S.history }
    requires opening { S.opening ≡ core.node }
    requires settings { S.settings ≡ core.settings }
    requires name { blank.name ≡ S.name }
    requires parts { blank.parts ≡ S.parts }
    requires all { (2 ≡ S.seats) × (2 ≡ S.parts) }
{
    let made = Directory::<S, &R>::make(rt, alloc, history, blank, core, 2);
    let (directory, mut seats) = got(rt, made);
    let mut kept = there(rt, seats.pop());
    let version = write(rt, alloc, &directory, &mut kept);
    let keys = directory.key_count(rt, &mut kept);
    (version, keys, close_twice(rt, directory, seats, kept))
}

#[test]
fn a_directory_is_closed_with_all_seats(rt: HostRuntime) {
    let alloc = rt.alloc();
    let core = new_node(&rt, alloc);
    let closed = write_and_close::<Brand, _>(&rt, alloc, NewHistory::new(), Blank::new(2), core);
    same(&rt, &closed, &(1, 1, (5, 1, 1, 1)));
}

/// Enters a write of the node's own from a seat that sees it.
fn enter<S: DirectoryTag, H: Wait + Drop, R: Wait + Abort>(
    rt: &R,
    directory: &Directory<S, H>,
    seat: &mut ReaderSeat<S>,
    committed: &Committed,
) {
    let receipt = got(rt, directory.take_own(rt, seat, committed));
    all_shown(rt, receipt.shown);
}

/// Purges the node's table from a seat that sees it, if one key is removed. Returns the new floor.
fn purge<S: DirectoryTag, H: Wait + Drop, R: Wait + Abort>(
    rt: &R,
    directory: &Directory<S, H>,
    seat: &mut ReaderSeat<S>,
) -> Option<u64> {
    let purge = got(rt, directory.purge(rt, seat, 1))?;
    all_shown(rt, purge.shown);
    Some(purge.floor)
}

/// Sets and removes a key from one of two seats, and purges twice from the other one. Returns the new floors and how
/// many keys are left. Then how the directory closes: with one seat alone, and with both.
fn purge_and_close<S: DirectoryTag, R: Wait + Abort>(
    rt: &R,
    alloc: Global,
    history: NewHistory,
    blank: Blank,
    core: NodeCore,
) -> ([Option<u64>; 2], usize, Closed)
    requires history { history.seen.book ≡ S.history }
    requires opening { S.opening ≡ core.node }
    requires settings { S.settings ≡ core.settings }
    requires name { blank.name ≡ S.name }
    requires parts { blank.parts ≡ S.parts }
    requires all { (2 ≡ S.seats) × (2 ≡ S.parts) }
{
    let made = Directory::<S, &R>::make(rt, alloc, history, blank, core, 2);
    let (directory, mut seats) = got(rt, made);
    let mut kept = there(rt, seats.pop());
    let mut other = there(rt, seats.pop());
    let mut log = log_of(rt, alloc, b"a");
    let set = commit(rt, &mut log, b"x");
    enter(rt, &directory, &mut kept, &set);
    let removed = commit_removal(rt, &mut log, b"x");
    enter(rt, &directory, &mut kept, &removed);
    let first = purge(rt, &directory, &mut other);
    let floors = [first, purge(rt, &directory, &mut other)];
    let keys = directory.key_count(rt, &mut kept);
    got(rt, seats.push(other));
    (floors, keys, close_twice(rt, directory, seats, kept))
}

/// A purge is an event of the seat that makes it. If it is not due, nothing is counted.
#[test]
fn a_purge_is_counted(rt: HostRuntime) {
    let alloc = rt.alloc();
    let core = new_node(&rt, alloc);
    let found = purge_and_close::<Brand, _>(&rt, alloc, NewHistory::new(), Blank::new(2), core);
    same(&rt, &found, &([Some(2), None], 0, (5, 1, 3, 2)));
}
