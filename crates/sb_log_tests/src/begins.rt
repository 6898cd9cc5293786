//! An empty log that begins after a version: what it holds, what is refused, and what is there when it is opened again.
//! This is also tested on disks that fail a call.
use crate::disks::{Calls, ENDLESS, new_disks, whole_copy};
use crate::visits::{
    LogVisit, Looking, OWN, Opening, Reaching, log_in_memory, log_on_disks, numbers_on_disks,
    rows_on_disks,
};
use crate::writes::{Answer, Reach, reach, remove, set, settled};
use crate::{got, same, same_at};
use sb_log::WriteLog;
use sb_types::{Fault, VERSION_MOST};
use sqlite::Files;
use sqlite_disk::{Crash, Memory};
use std::alloc::Global;
use std::process::Abort;

const SPENT: Answer = Err(Fault::VersionsSpent);

const NOTHING: Answer = Err(Fault::NothingThere);

/// What a log holds that begins after 7.
const BEHIND: Reach = (0, 7, 7);

fn behind(version: u64) -> Opening<'static> {
    Opening {
        begin: Some(version),
        ..OWN
    }
}

/// A log that began after 7, and gives versions up to 9.
#[derive(Drop)]
struct GoingOn;

impl LogVisit for GoingOn {
    type Outcome = ();

    fn visit<L: WriteLog + Drop>(self, rt: &impl Abort, alloc: Global, mut log: L) {
        same(rt, &reach(rt, alloc, &mut log), &BEHIND);
        let answers = [
            remove(rt, &mut log, b"x"),
            set(rt, &mut log, b"x", 5),
            remove(rt, &mut log, b"x"),
            set(rt, &mut log, b"y", 6),
        ];
        same(rt, &settled(rt, answers), &[NOTHING, Ok(8), Ok(9), SPENT]);
        same(rt, &reach(rt, alloc, &mut log), &(1, 9, 7));
        same(rt, &log.purge(9), &Ok(()));
        same(rt, &reach(rt, alloc, &mut log), &(0, 9, 9));
    }
}

/// What such a log holds when it is opened like this, or the fault if it does not open or begin.
fn reached(
    rt: &impl Abort,
    alloc: Global,
    disks: &mut Files<Memory>,
    opening: Opening<'_>,
) -> Result<Reach, Fault> {
    log_on_disks(rt, alloc, disks, ENDLESS, opening, Reaching)
}

#[test]
fn a_log_in_memory_begins_behind_a_version(rt: HostRuntime) {
    got(&rt, log_in_memory(&rt, rt.alloc(), behind(7), GoingOn));
}

// No write has a row, and the row of meta has the version twice. So it is opened again, and goes on.
#[test]
fn a_log_in_files_begins_behind_a_version(rt: HostRuntime) {
    let alloc = rt.alloc();
    let mut disks = new_disks(alloc);
    same(
        &rt,
        &reached(&rt, alloc, &mut disks, behind(7)),
        &Ok(BEHIND),
    );
    same(&rt, &rows_on_disks(&rt, alloc, &mut disks), &0);
    same(&rt, &numbers_on_disks(&rt, alloc, &mut disks), &(7, 7));
    let opened = log_on_disks(&rt, alloc, &mut disks, ENDLESS, OWN, GoingOn);
    same(&rt, &opened, &Ok(()));
    same(&rt, &reached(&rt, alloc, &mut disks, OWN), &Ok((0, 9, 9)));
}

// It begins once, and reports the version of its next write.
#[test]
fn a_log_begins_once(rt: HostRuntime) {
    let alloc = rt.alloc();
    let mut disks = new_disks(alloc);
    let begun = log_on_disks(&rt, alloc, &mut disks, ENDLESS, behind(7), Looking);
    same(&rt, &begun, &Ok(()));
    for version in [1, 7, 8, VERSION_MOST] {
        let again = reached(&rt, alloc, &mut disks, behind(version));
        same_at(&rt, &version, &again, &Err(Fault::OutOfTurn(8)));
    }
    same(&rt, &reached(&rt, alloc, &mut disks, OWN), &Ok(BEHIND));
}

/// Sets x, and removes it.
#[derive(Drop)]
struct Writing;

impl LogVisit for Writing {
    type Outcome = ();

    fn visit<L: WriteLog + Drop>(self, rt: &impl Abort, _: Global, mut log: L) {
        let answers = [set(rt, &mut log, b"x", 5), remove(rt, &mut log, b"x")];
        same(rt, &settled(rt, answers), &[Ok(1), Ok(2)]);
    }
}

// A log that has writes does not begin, even if no key of it has a value.
#[test]
fn a_log_with_writes_does_not_begin(rt: HostRuntime) {
    let alloc = rt.alloc();
    let mut disks = new_disks(alloc);
    let wrote = log_on_disks(&rt, alloc, &mut disks, ENDLESS, OWN, Writing);
    same(&rt, &wrote, &Ok(()));
    let refused = reached(&rt, alloc, &mut disks, behind(7));
    same(&rt, &refused, &Err(Fault::OutOfTurn(3)));
    same(&rt, &reached(&rt, alloc, &mut disks, OWN), &Ok((1, 2, 0)));
}

#[test]
fn a_log_begins_within_the_limits(rt: HostRuntime) {
    let alloc = rt.alloc();
    let mut disks = new_disks(alloc);
    for version in [0, VERSION_MOST + 1, u64::MAX] {
        let refused = reached(&rt, alloc, &mut disks, behind(version));
        same_at(&rt, &version, &refused, &Err(Fault::BadSetting));
    }
    same(&rt, &reached(&rt, alloc, &mut disks, OWN), &Ok((0, 0, 0)));
    let last = reached(&rt, alloc, &mut disks, behind(VERSION_MOST));
    same(&rt, &last, &Ok((0, VERSION_MOST, VERSION_MOST)));
}

/// Tests a log that is opened again: it holds nothing, or nothing up to 7. After an acknowledged beginning it holds
/// nothing up to 7.
fn recovers(rt: &impl Abort, alloc: Global, disks: &mut Files<Memory>, at: u64, is_done: bool) {
    let found = got(rt, reached(rt, alloc, disks, OWN));
    let is_kept = found == BEHIND || (found == (0, 0, 0) && !is_done);
    same_at(rt, &(at, found), &is_kept, &true);
}

/// Begins a log while a call can fail. Then what was not synced stays once, and is lost once. Returns whether the
/// beginning was acknowledged.
fn stop(rt: &impl Abort, alloc: Global, calls: Calls) -> bool {
    let mut disks = new_disks(alloc);
    let begun = log_on_disks(rt, alloc, &mut disks, calls, behind(7), Looking);
    let is_done = begun == Ok(());
    let mut whole = whole_copy(rt, alloc, &disks);
    recovers(rt, alloc, &mut whole, calls.log, is_done);
    disks.log.crash();
    disks.db.crash();
    recovers(rt, alloc, &mut disks, calls.log, is_done);
    is_done
}

/// More calls of the log file than an opening and a beginning make.
const MORE: u64 = 400;

/// Makes each call fail, from the first of the opening to the last of the beginning. Returns how many there were.
fn miss_each(rt: &impl Abort, alloc: Global) -> u64 {
    for log in 0..MORE {
        if stop(rt, alloc, Calls { log, ..ENDLESS }) {
            return log;
        }
    }
    MORE
}

#[test]
fn a_beginning_on_a_disk_that_stops_loses_nothing(rt: HostRuntime) {
    let calls = miss_each(&rt, rt.alloc());
    same(&rt, &(10..MORE).contains(&calls), &true);
}
