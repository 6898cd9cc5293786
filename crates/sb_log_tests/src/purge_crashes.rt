//! What a purge leaves of a log in files, on disks that fail one call, or that one and each after it.
use crate::disks::{Calls, ENDLESS, new_disks, whole_copy};
use crate::faulty::After;
use crate::visits::{LogVisit, OWN, log_on_disks, rows_on_disks};
use crate::writes::{Reach, reach, remove, set, settled};
use crate::{got, same, same_at};
use sb_log::WriteLog;
use sb_types::Fault;
use sqlite::Files;
use sqlite_disk::{Crash, Memory};
use std::alloc::Global;
use std::process::Abort;

/// What a log holds before its floor is raised to 3, and after.
const BEFORE: Reach = (2, 3, 0);

const AFTER: Reach = (1, 3, 3);

/// Sets x and y, and removes x.
#[derive(Drop)]
struct Writing;

impl LogVisit for Writing {
    type Outcome = ();

    fn visit<L: WriteLog + Drop>(self, rt: &impl Abort, _: Global, mut log: L) {
        let answers = [
            set(rt, &mut log, b"x", 5),
            set(rt, &mut log, b"y", 6),
            remove(rt, &mut log, b"x"),
        ];
        same(rt, &settled(rt, answers), &[Ok(1), Ok(2), Ok(3)]);
    }
}

fn written(rt: &impl Abort, alloc: Global) -> Files<Memory> {
    let mut disks = new_disks(alloc);
    got(
        rt,
        log_on_disks(rt, alloc, &mut disks, ENDLESS, OWN, Writing),
    );
    disks
}

/// Raises the floor to 3. If the store fails, the log takes no other call, whatever the disk does.
#[derive(Drop)]
struct Purging;

impl LogVisit for Purging {
    type Outcome = Result<(), Fault>;

    fn visit<L: WriteLog + Drop>(
        self,
        rt: &impl Abort,
        _: Global,
        mut log: L,
    ) -> Result<(), Fault> {
        let purged = log.purge(3);
        if purged == Err(Fault::StoreFailed) {
            same(rt, &log.purge(3), &Err(Fault::Closed));
            same(rt, &set(rt, &mut log, b"z", 1), &Err(Fault::Closed));
        }
        purged
    }
}

/// What a log holds, and the version of its next write.
#[derive(Drop)]
struct Reopening;

impl LogVisit for Reopening {
    type Outcome = (Reach, Result<u64, Fault>);

    fn visit<L: WriteLog + Drop>(
        self,
        rt: &impl Abort,
        alloc: Global,
        mut log: L,
    ) -> (Reach, Result<u64, Fault>) {
        let found = reach(rt, alloc, &mut log);
        (found, set(rt, &mut log, b"z", 1))
    }
}

/// Tests a log that is opened again: it holds what it held before the purge or after it. After an acknowledged purge it
/// holds what it held after it. Each of its keys has a row, and there is no other row.
fn recovers(rt: &impl Abort, alloc: Global, disks: &mut Files<Memory>, at: u64, is_done: bool) {
    let (found, next) = got(rt, log_on_disks(rt, alloc, disks, ENDLESS, OWN, Reopening));
    let is_kept = found == AFTER || (found == BEFORE && !is_done);
    same_at(rt, &(at, found), &(is_kept, next), &(true, Ok(4)));
    let rows = rows_on_disks(rt, alloc, disks);
    let wanted: i64 = if found == AFTER { 2 } else { 3 };
    same_at(rt, &at, &rows, &wanted);
}

/// Purges while a call can fail. Then what was not synced stays once, and is lost once. Returns whether the purge was
/// acknowledged.
fn stop(rt: &impl Abort, alloc: Global, files: &Files<Memory>, calls: Calls) -> bool {
    let mut disks = whole_copy(rt, alloc, files);
    let purged = log_on_disks(rt, alloc, &mut disks, calls, OWN, Purging);
    let is_done = purged == Ok(Ok(()));
    recovers(
        rt,
        alloc,
        &mut whole_copy(rt, alloc, &disks),
        calls.log,
        is_done,
    );
    disks.log.crash();
    disks.db.crash();
    recovers(rt, alloc, &mut disks, calls.log, is_done);
    is_done
}

/// The calls of the log file that an opening makes, and those that an opening and a purge make.
const OPENED: u64 = 97;

const PURGED: u64 = 108;

fn miss_each(rt: &impl Abort, alloc: Global, after: After) {
    let files = written(rt, alloc);
    for log in OPENED..PURGED {
        let calls = Calls {
            log,
            after,
            ..ENDLESS
        };
        same_at(rt, &log, &stop(rt, alloc, &files, calls), &false);
    }
}

// Each call of the purge fails in one of the tests below. With one call more it is done.
#[test]
fn no_call_of_a_purge_is_left_out(rt: HostRuntime) {
    let alloc = rt.alloc();
    let files = written(&rt, alloc);
    let calls = Calls {
        log: PURGED,
        ..ENDLESS
    };
    same(&rt, &stop(&rt, alloc, &files, calls), &true);
}

#[test]
fn a_purge_that_fails_loses_nothing(rt: HostRuntime) {
    miss_each(&rt, rt.alloc(), After::Answering);
}

#[test]
fn a_purge_on_a_disk_that_stops_loses_nothing(rt: HostRuntime) {
    miss_each(&rt, rt.alloc(), After::Failing);
}
