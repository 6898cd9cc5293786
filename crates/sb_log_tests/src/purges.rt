//! A log whose floor is raised, wherever it keeps its writes: what goes, what is refused, and what is there when it is
//! opened again.
use crate::database::{META, OWN_META_ROW, WRITES};
use crate::disks::{ENDLESS, new_disks};
use crate::visits::{
    LogVisit, OWN, Opening, Reaching, log_in_memory, log_on_disks, numbers_on_disks, rows_on_disks,
    run_on_disks,
};
use crate::writes::{Answer, CLUSTER, OWNER, fill, key, name, reach, remove, set, settled};
use crate::{got, same};
use sb_log::{PlainLog, WriteLog};
use sb_types::{Fault, KEYS_MOST};
use std::alloc::Global;
use std::process::Abort;

const NOTHING: Answer = Err(Fault::NothingThere);

const FULL: Answer = Err(Fault::TableFull);

const TOO_HIGH: Result<(), Fault> = Err(Fault::FloorTooHigh);

/// Sets x and y, and removes x.
fn three_writes<L: WriteLog>(rt: &impl Abort, log: &mut L) {
    let answers = [
        set(rt, log, b"x", 5),
        set(rt, log, b"y", 6),
        remove(rt, log, b"x"),
    ];
    same(rt, &settled(rt, answers), &[Ok(1), Ok(2), Ok(3)]);
}

/// Raises the floor of a log of those writes, once below the removal and once to it.
fn raised_twice<L: WriteLog>(rt: &impl Abort, alloc: Global, log: &mut L) {
    same(rt, &log.purge(4), &TOO_HIGH);
    same(rt, &reach(rt, alloc, log), &(2, 3, 0));
    same(rt, &log.purge(2), &Ok(()));
    same(rt, &reach(rt, alloc, log), &(2, 3, 2));
    same(rt, &log.purge(3), &Ok(()));
    same(rt, &reach(rt, alloc, log), &(1, 3, 3));
}

/// Tests that a floor that is not above the present one changes nothing.
fn stays_raised<L: WriteLog>(rt: &impl Abort, alloc: Global, log: &mut L) {
    same(rt, &log.purge(3), &Ok(()));
    same(rt, &log.purge(1), &Ok(()));
    same(rt, &log.purge(4), &TOO_HIGH);
    same(rt, &reach(rt, alloc, log), &(1, 3, 3));
}

/// Tests that the next write has the version after the last, and that what was removed is not there.
fn goes_on<L: WriteLog>(rt: &impl Abort, alloc: Global, log: &mut L) {
    let answers = [
        remove(rt, log, b"x"),
        set(rt, log, b"x", 7),
        remove(rt, log, b"y"),
    ];
    same(rt, &settled(rt, answers), &[NOTHING, Ok(4), Ok(5)]);
    same(rt, &reach(rt, alloc, log), &(2, 5, 3));
}

/// Tests that an empty log has floor 0, and that its floor cannot be raised.
fn is_empty<L: WriteLog>(rt: &impl Abort, alloc: Global, log: &mut L) {
    same(rt, &log.purge(0), &Ok(()));
    same(rt, &log.purge(1), &TOO_HIGH);
    same(rt, &reach(rt, alloc, log), &(0, 0, 0));
}

fn is_purged<L: WriteLog>(rt: &impl Abort, alloc: Global, log: &mut L) {
    is_empty(rt, alloc, log);
    three_writes(rt, log);
    raised_twice(rt, alloc, log);
    stays_raised(rt, alloc, log);
    goes_on(rt, alloc, log);
}

#[derive(Drop)]
struct Purging;

impl LogVisit for Purging {
    type Outcome = ();

    fn visit<L: WriteLog + Drop>(self, rt: &impl Abort, alloc: Global, mut log: L) {
        is_purged(rt, alloc, &mut log);
    }
}

#[test]
fn a_plain_log_is_purged(rt: HostRuntime) {
    let alloc = rt.alloc();
    let mut log = PlainLog::new(alloc, name(&rt, OWNER), name(&rt, CLUSTER), 9);
    is_purged(&rt, alloc, &mut log);
}

#[test]
fn a_log_in_memory_is_purged(rt: HostRuntime) {
    got(&rt, log_in_memory(&rt, rt.alloc(), OWN, Purging));
}

// The row of the removal is gone. The row of meta has the last version and the floor, which stay as writes come.
#[test]
fn a_log_in_files_is_purged(rt: HostRuntime) {
    let alloc = rt.alloc();
    let mut disks = new_disks(alloc);
    got(
        &rt,
        log_on_disks(&rt, alloc, &mut disks, ENDLESS, OWN, Purging),
    );
    same(&rt, &rows_on_disks(&rt, alloc, &mut disks), &2);
    same(&rt, &numbers_on_disks(&rt, alloc, &mut disks), &(3, 3));
    let opened = log_on_disks(&rt, alloc, &mut disks, ENDLESS, OWN, Reaching);
    same(&rt, &got(&rt, opened), &(2, 5, 3));
}

/// Sets x and y, and removes x, in files.
#[derive(Drop)]
struct Writing;

impl LogVisit for Writing {
    type Outcome = ();

    fn visit<L: WriteLog + Drop>(self, rt: &impl Abort, _: Global, mut log: L) {
        three_writes(rt, &mut log);
    }
}

// A crash after the first of the two statements: the removal still has a row, which does not belong to the content. The
// opening drops it.
#[test]
fn a_crash_between_the_statements_leaves_the_floor(rt: HostRuntime) {
    let alloc = rt.alloc();
    let mut disks = new_disks(alloc);
    got(
        &rt,
        log_on_disks(&rt, alloc, &mut disks, ENDLESS, OWN, Writing),
    );
    run_on_disks(
        &rt,
        alloc,
        &mut disks,
        "UPDATE meta SET last = 3, floor = 3",
    );
    same(&rt, &rows_on_disks(&rt, alloc, &mut disks), &2);
    let opened = log_on_disks(&rt, alloc, &mut disks, ENDLESS, OWN, Reaching);
    same(&rt, &got(&rt, opened), &(1, 3, 3));
    same(&rt, &rows_on_disks(&rt, alloc, &mut disks), &1);
    same(&rt, &numbers_on_disks(&rt, alloc, &mut disks), &(3, 3));
}

/// Removes one key of a log that has as many as there can be, and whose last version is 4,096. Tests that no other key
/// has room until the floor reaches that removal.
fn is_freed<L: WriteLog>(rt: &impl Abort, alloc: Global, log: &mut L, full: &[u8]) {
    let answers = [remove(rt, log, full), set(rt, log, b"new", 1)];
    same(rt, &settled(rt, answers), &[Ok(4097), FULL]);
    same(rt, &log.purge(4096), &Ok(()));
    same(rt, &set(rt, log, b"new", 1), &FULL);
    same(rt, &log.purge(4097), &Ok(()));
    same(rt, &set(rt, log, b"new", 1), &Ok(4098));
    same(rt, &set(rt, log, b"newer", 1), &FULL);
    same(rt, &reach(rt, alloc, log), &(KEYS_MOST, 4098, 4097));
}

#[derive(Drop)]
struct Freeing;

impl LogVisit for Freeing {
    type Outcome = ();

    fn visit<L: WriteLog + Drop>(self, rt: &impl Abort, alloc: Global, mut log: L) {
        is_freed(rt, alloc, &mut log, b"x012");
    }
}

#[test]
fn a_purge_frees_a_key_of_a_plain_log(rt: HostRuntime) {
    let alloc = rt.alloc();
    let mut log = PlainLog::new(alloc, name(&rt, OWNER), name(&rt, CLUSTER), 9_999);
    same(&rt, &fill(&rt, alloc, &mut log), &(KEYS_MOST as u64));
    is_freed(&rt, alloc, &mut log, b"k4096");
}

/// Makes a log of 4,096 rows: one row, and then twelve times as many again.
const FILLED: [&str; 16] = [
    META,
    WRITES,
    OWN_META_ROW,
    "INSERT INTO writes VALUES ('x', 1, 2, 1, NULL)",
    "INSERT INTO writes SELECT k || '0', version + 1, 2, 1, NULL FROM writes",
    "INSERT INTO writes SELECT k || '1', version + 2, 2, 1, NULL FROM writes",
    "INSERT INTO writes SELECT k || '2', version + 4, 2, 1, NULL FROM writes",
    "INSERT INTO writes SELECT k || '3', version + 8, 2, 1, NULL FROM writes",
    "INSERT INTO writes SELECT k || '4', version + 16, 2, 1, NULL FROM writes",
    "INSERT INTO writes SELECT k || '5', version + 32, 2, 1, NULL FROM writes",
    "INSERT INTO writes SELECT k || '6', version + 64, 2, 1, NULL FROM writes",
    "INSERT INTO writes SELECT k || '7', version + 128, 2, 1, NULL FROM writes",
    "INSERT INTO writes SELECT k || '8', version + 256, 2, 1, NULL FROM writes",
    "INSERT INTO writes SELECT k || '9', version + 512, 2, 1, NULL FROM writes",
    "INSERT INTO writes SELECT k || 'a', version + 1024, 2, 1, NULL FROM writes",
    "INSERT INTO writes SELECT k || 'b', version + 2048, 2, 1, NULL FROM writes",
];

#[test]
fn a_purge_frees_a_key_in_a_database(rt: HostRuntime) {
    let opening = Opening {
        max_version: 9_999,
        statements: &FILLED,
        ..OWN
    };
    got(&rt, log_in_memory(&rt, rt.alloc(), opening, Freeing));
}

/// A purge that can find no memory. It raises the floor, or the log is closed.
#[derive(Drop)]
struct Ending;

impl LogVisit for Ending {
    type Outcome = ();

    fn visit<L: WriteLog + Drop>(self, rt: &impl Abort, alloc: Global, mut log: L) {
        let _ = settled(rt, [set(rt, &mut log, b"x", 1), remove(rt, &mut log, b"x")]);
        match log.purge(2) {
            Ok(()) => same(rt, &reach(rt, alloc, &mut log), &(0, 2, 2)),
            Err(Fault::FloorTooHigh) => same(rt, &reach(rt, alloc, &mut log).2, &0),
            Err(fault) => is_closed(rt, alloc, &mut log, fault),
        }
    }
}

fn is_closed<L: WriteLog>(rt: &impl Abort, alloc: Global, log: &mut L, fault: Fault) {
    same(
        rt,
        &matches!(fault, Fault::StoreFailed | Fault::Closed),
        &true,
    );
    same(rt, &log.purge(2), &Err(Fault::Closed));
    same(rt, &log.purge(9), &Err(Fault::Closed));
    same(rt, &log.load(alloc).is_err(), &true);
    same(
        rt,
        &log.put(&key(rt, b"y"), &sb_types::Slot::Removed).is_err(),
        &true,
    );
}

#[test]
fn a_purge_without_memory_closes_the_log(rt: HostRuntime) {
    got(&rt, log_in_memory(&rt, rt.alloc(), OWN, Ending));
}
