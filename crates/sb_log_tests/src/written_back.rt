//! Rows that are written back into a log, wherever it keeps its writes: which versions they get, and what is refused.
use crate::disks::{ENDLESS, new_disks};
use crate::visits::{
    LogVisit, OWN, Opening, Reaching, log_in_memory, log_on_disks, numbers_on_disks, rows_on_disks,
};
use crate::writes::{
    CLUSTER, OWNER, Reach, SlotParts, fill, key, name, reach, set, settled, slot_parts,
};
use crate::{got, same};
use sb_codec::Row;
use sb_lines::write_back;
use sb_log::{PlainLog, WriteLog};
use sb_types::{Fault, KEYS_MOST, VERSION_MOST, Value};
use std::alloc::Global;
use std::process::Abort;

/// A row of the log's owner: its key, and its weight, which is its version too.
fn row(rt: &impl Abort, at: &[u8], weight: u64) -> Row {
    let value = got(rt, Value::weight(weight));
    got(rt, Row::new(name(rt, OWNER), key(rt, at), weight, value))
}

/// Rows of x and y.
fn two_rows(rt: &impl Abort, alloc: Global) -> Vec<Row> {
    got(rt, vec![in alloc; row(rt, b"x", 5), row(rt, b"y", 3)])
}

/// The version of a key in a log, and what it has.
fn found<L: WriteLog>(rt: &impl Abort, alloc: Global, log: &mut L, at: &[u8]) -> (u64, SlotParts) {
    let table = got(rt, log.load(alloc));
    match table.get(&key(rt, at)) {
        Some((version, slot)) => (version, slot_parts(slot)),
        None => (0, (false, None, None)),
    }
}

/// What a log holds that begins after 7, with two rows.
const RESTORED: Reach = (2, 9, 9);

/// Writes the two rows back, and goes on.
fn is_written<L: WriteLog>(rt: &impl Abort, alloc: Global, log: &mut L, last: u64) {
    let rows = two_rows(rt, alloc);
    same(rt, &got(rt, write_back(alloc, log, &rows)), &last);
    same(rt, &reach(rt, alloc, log), &(2, last, last));
    let (x, y) = (found(rt, alloc, log, b"x"), found(rt, alloc, log, b"y"));
    same(rt, &x, &(last.saturating_sub(1), (true, Some(5), None)));
    same(rt, &y, &(last, (true, Some(3), None)));
}

#[derive(Drop)]
struct WritingBack;

impl LogVisit for WritingBack {
    type Outcome = ();

    fn visit<L: WriteLog + Drop>(self, rt: &impl Abort, alloc: Global, mut log: L) {
        is_written(rt, alloc, &mut log, 9);
        same(rt, &set(rt, &mut log, b"x", 1), &Err(Fault::VersionsSpent));
    }
}

const BEHIND: Opening<'static> = Opening {
    begin: Some(7),
    ..OWN
};

#[test]
fn rows_are_written_back_in_memory(rt: HostRuntime) {
    got(&rt, log_in_memory(&rt, rt.alloc(), BEHIND, WritingBack));
}

#[test]
fn rows_are_written_back_in_files(rt: HostRuntime) {
    let alloc = rt.alloc();
    let mut disks = new_disks(alloc);
    let written = log_on_disks(&rt, alloc, &mut disks, ENDLESS, BEHIND, WritingBack);
    same(&rt, &written, &Ok(()));
    same(&rt, &rows_on_disks(&rt, alloc, &mut disks), &2);
    same(&rt, &numbers_on_disks(&rt, alloc, &mut disks), &(9, 9));
    let opened = log_on_disks(&rt, alloc, &mut disks, ENDLESS, OWN, Reaching);
    same(&rt, &opened, &Ok(RESTORED));
}

fn plain(rt: &impl Abort, alloc: Global, max_version: u64) -> PlainLog {
    PlainLog::new(alloc, name(rt, OWNER), name(rt, CLUSTER), max_version)
}

// A row of a key that the log has replaces its write. Without rows the floor rises alone.
#[test]
fn rows_come_after_what_is_there(rt: HostRuntime) {
    let alloc = rt.alloc();
    let mut log = plain(&rt, alloc, VERSION_MOST);
    same(&rt, &got(&rt, write_back(alloc, &mut log, &[])), &0);
    same(&rt, &set(&rt, &mut log, b"y", 1), &Ok(1));
    is_written(&rt, alloc, &mut log, 3);
    same(&rt, &got(&rt, write_back(alloc, &mut log, &[])), &3);
    same(&rt, &reach(&rt, alloc, &mut log), &(2, 3, 3));
}

// The first row has the last version that is left.
#[test]
fn rows_beyond_the_last_version_are_refused(rt: HostRuntime) {
    let alloc = rt.alloc();
    let mut log = plain(&rt, alloc, 1);
    let rows = two_rows(&rt, alloc);
    let refused = write_back(alloc, &mut log, &rows);
    let spent = [Err(Fault::VersionsSpent)];
    same(&rt, &settled(&rt, [refused]), &spent);
    same(&rt, &reach(&rt, alloc, &mut log), &(1, 1, 0));
}

#[test]
fn rows_beyond_the_keys_are_refused(rt: HostRuntime) {
    let alloc = rt.alloc();
    let mut log = plain(&rt, alloc, VERSION_MOST);
    same(&rt, &fill(&rt, alloc, &mut log), &(KEYS_MOST as u64));
    let rows = two_rows(&rt, alloc);
    let refused = write_back(alloc, &mut log, &rows);
    same(&rt, &settled(&rt, [refused]), &[Err(Fault::TableFull)]);
}
