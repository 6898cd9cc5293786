//! What a crash leaves of a log in files, on disks that fail one call, or that one and each after it.
use crate::disks::{Calls, ENDLESS, new_disks, whole_copy};
use crate::faulty::After;
use crate::visits::{LogVisit, OWN, log_on_disks};
use crate::writes::{key, remove, set};
use crate::{got, same, same_at};
use sb_log::WriteLog;
use sb_table::Table;
use sb_types::{Fault, Key, Slot};
use sqlite::Files;
use sqlite_disk::{Crash, Memory};
use std::alloc::Global;
use std::process::Abort;

/// How many keys a log holds, its last version, and the weight of x.
type Content = (usize, u64, Option<u64>);

/// What a log holds after so many of the writes of `put_three`.
const CONTENTS: [Content; 4] = [(0, 0, None), (1, 1, Some(5)), (1, 2, None), (1, 3, Some(7))];

/// How many writes were acknowledged, and how many were begun.
#[derive(Clone, Copy, PartialEq, Eq, Debug)]
struct Progress {
    acknowledged: usize,
    begun: usize,
}

const NOTHING: Progress = Progress {
    acknowledged: 0,
    begun: 0,
};

const ALL: Progress = Progress {
    acknowledged: 3,
    begun: 3,
};

/// The progress after a write failed that came after so many acknowledged ones. If the store failed, the log takes no
/// other write, whatever the disk does.
fn failed_after<L: WriteLog>(
    rt: &impl Abort,
    log: &mut L,
    acknowledged: usize,
    fault: Fault,
) -> Progress {
    if fault == Fault::StoreFailed {
        same(rt, &set(rt, log, b"z", 1), &Err(Fault::Closed));
    }
    Progress {
        acknowledged,
        begun: acknowledged.saturating_add(1),
    }
}

/// Writes until a write fails. The second write removes what the first set.
fn put_three<L: WriteLog>(rt: &impl Abort, log: &mut L) -> Progress {
    if let Err(fault) = set(rt, log, b"x", 5) {
        return failed_after(rt, log, 0, fault);
    }
    if let Err(fault) = remove(rt, log, b"x") {
        return failed_after(rt, log, 1, fault);
    }
    if let Err(fault) = set(rt, log, b"x", 7) {
        return failed_after(rt, log, 2, fault);
    }
    ALL
}

/// Writes to a log whose disks fail.
#[derive(Drop)]
struct Writing;

impl LogVisit for Writing {
    type Outcome = Progress;

    fn visit<L: WriteLog + Drop>(self, rt: &impl Abort, _: Global, mut log: L) -> Progress {
        put_three(rt, &mut log)
    }
}

fn content_of(table: &Table, x: &Key) -> Content {
    let weight = match table.get(x) {
        Some((_, Slot::Set(value))) => value.as_weight(),
        _ => None,
    };
    (table.len(), table.upto(), weight)
}

fn held<L: WriteLog>(rt: &impl Abort, alloc: Global, log: &mut L) -> Content {
    content_of(&got(rt, log.load(alloc)), &key(rt, b"x"))
}

/// What a log holds, and the version of its next write.
#[derive(Drop)]
struct Reopening;

impl LogVisit for Reopening {
    type Outcome = (Content, u64);

    fn visit<L: WriteLog + Drop>(
        self,
        rt: &impl Abort,
        alloc: Global,
        mut log: L,
    ) -> (Content, u64) {
        let content = held(rt, alloc, &mut log);
        (content, got(rt, set(rt, &mut log, b"z", 1)))
    }
}

/// Whether what a log holds is what was acknowledged, or what was begun.
fn is_kept(content: Content, progress: Progress) -> bool {
    CONTENTS.get(progress.acknowledged) == Some(&content)
        || CONTENTS.get(progress.begun) == Some(&content)
}

/// Tests that a log that is opened again holds what was acknowledged, or what was begun, and that the next write has
/// the next version.
fn recovers(rt: &impl Abort, alloc: Global, disks: &mut Files<Memory>, progress: Progress) {
    let found = got(rt, log_on_disks(rt, alloc, disks, ENDLESS, OWN, Reopening));
    let (content, next) = found;
    let is_next = next == content.1.saturating_add(1);
    same_at(
        rt,
        &(found, progress),
        &(is_kept(content, progress), is_next),
        &(true, true),
    );
}

/// The same if only the process ended, and its disks lose nothing.
fn recovers_whole(rt: &impl Abort, alloc: Global, disks: &Files<Memory>, progress: Progress) {
    recovers(rt, alloc, &mut whole_copy(rt, alloc, disks), progress);
}

/// Makes calls of the disks fail. Then what was not synced stays once, and is lost once.
fn stop(rt: &impl Abort, alloc: Global, calls: Calls) -> Progress {
    let mut disks = new_disks(alloc);
    let progress = log_on_disks(rt, alloc, &mut disks, calls, OWN, Writing).unwrap_or(NOTHING);
    recovers_whole(rt, alloc, &disks, progress);
    disks.log.crash();
    disks.db.crash();
    recovers(rt, alloc, &mut disks, progress);
    progress
}

fn stop_log(rt: &impl Abort, alloc: Global, from: u64, to: u64) {
    for log in from..to {
        stop(rt, alloc, Calls { log, ..ENDLESS });
    }
}

fn stop_db(rt: &impl Abort, alloc: Global, from: u64, to: u64) {
    for db in from..to {
        stop(rt, alloc, Calls { db, ..ENDLESS });
    }
}

// The log file answers 50 calls, and the database file 14, until the third write is acknowledged. The tests stop at
// each of them.
#[test]
fn no_call_is_left_out(rt: HostRuntime) {
    let calls = Calls {
        log: 50,
        db: 14,
        ..ENDLESS
    };
    let progress = stop(&rt, rt.alloc(), calls);
    same(&rt, &progress, &ALL);
}

// With one call less of the log file the third write fails. With one less of the database file the log does not open.
#[test]
fn no_call_is_one_too_many(rt: HostRuntime) {
    let log = stop(&rt, rt.alloc(), Calls { log: 49, ..ENDLESS });
    same(&rt, &log.acknowledged, &2);
    let db = stop(&rt, rt.alloc(), Calls { db: 13, ..ENDLESS });
    same(&rt, &db, &NOTHING);
}

#[test]
fn the_log_file_stops_at_calls_1_to_5(rt: HostRuntime) {
    stop_log(&rt, rt.alloc(), 0, 5);
}

#[test]
fn the_log_file_stops_at_calls_6_to_10(rt: HostRuntime) {
    stop_log(&rt, rt.alloc(), 5, 10);
}

#[test]
fn the_log_file_stops_at_calls_11_to_15(rt: HostRuntime) {
    stop_log(&rt, rt.alloc(), 10, 15);
}

#[test]
fn the_log_file_stops_at_calls_16_to_20(rt: HostRuntime) {
    stop_log(&rt, rt.alloc(), 15, 20);
}

#[test]
fn the_log_file_stops_at_calls_21_to_25(rt: HostRuntime) {
    stop_log(&rt, rt.alloc(), 20, 25);
}

#[test]
fn the_log_file_stops_at_calls_26_to_30(rt: HostRuntime) {
    stop_log(&rt, rt.alloc(), 25, 30);
}

#[test]
fn the_log_file_stops_at_calls_31_to_35(rt: HostRuntime) {
    stop_log(&rt, rt.alloc(), 30, 35);
}

#[test]
fn the_log_file_stops_at_calls_36_to_40(rt: HostRuntime) {
    stop_log(&rt, rt.alloc(), 35, 40);
}

#[test]
fn the_log_file_stops_at_calls_41_to_45(rt: HostRuntime) {
    stop_log(&rt, rt.alloc(), 40, 45);
}

#[test]
fn the_log_file_stops_at_calls_46_to_50(rt: HostRuntime) {
    stop_log(&rt, rt.alloc(), 45, 50);
}

#[test]
fn the_database_file_stops_at_calls_1_to_5(rt: HostRuntime) {
    stop_db(&rt, rt.alloc(), 0, 5);
}

#[test]
fn the_database_file_stops_at_calls_6_to_10(rt: HostRuntime) {
    stop_db(&rt, rt.alloc(), 5, 10);
}

#[test]
fn the_database_file_stops_at_calls_11_to_14(rt: HostRuntime) {
    stop_db(&rt, rt.alloc(), 10, 14);
}

/// Makes one call of the log file fail, each from `from` to `to` in its turn. All others are answered.
fn miss_log(rt: &impl Abort, alloc: Global, from: u64, to: u64) {
    for log in from..to {
        let after = After::Answering;
        stop(
            rt,
            alloc,
            Calls {
                log,
                after,
                ..ENDLESS
            },
        );
    }
}

#[test]
fn one_of_calls_1_to_25_of_the_log_file_fails(rt: HostRuntime) {
    miss_log(&rt, rt.alloc(), 0, 25);
}

#[test]
fn one_of_calls_26_to_50_of_the_log_file_fails(rt: HostRuntime) {
    miss_log(&rt, rt.alloc(), 25, 50);
}

#[test]
fn one_call_of_the_database_file_fails(rt: HostRuntime) {
    for db in 0..14 {
        let after = After::Answering;
        stop(
            &rt,
            rt.alloc(),
            Calls {
                db,
                after,
                ..ENDLESS
            },
        );
    }
}
