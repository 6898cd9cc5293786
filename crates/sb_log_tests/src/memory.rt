//! A log in memory: what it keeps, and what it refuses.
use crate::writes::{
    Answer, CLUSTER, OWNER, fill, held, is_entry, many, name, put, remove, set, settled,
};
use crate::{got, same};
use sb_log::{PlainLog, WriteLog};
use sb_table::Table;
use sb_types::{Fault, Slot, Value};
use std::alloc::Global;
use std::process::Abort;

fn plain_log(rt: &impl Abort, alloc: Global, max_version: u64) -> PlainLog {
    PlainLog::new(alloc, name(rt, OWNER), name(rt, CLUSTER), max_version)
}

// Whether the two entries are x, removed at 2, and y, a flag at 3.
fn are_the_last(table: &Table) -> bool {
    let mut entries = table.after(0);
    match (entries.next(), entries.next()) {
        (Some(first), Some(second)) => {
            is_entry(first, b"x", 2, (false, None, None))
                && is_entry(second, b"y", 3, (true, None, Some(true)))
        }
        _ => false,
    }
}

// Sets x to weight 5 and removes it, and sets y to a flag. Returns the answers.
fn three_writes<L: WriteLog>(rt: &impl Abort, log: &mut L) -> [Answer; 3] {
    [
        set(rt, log, b"x", 5),
        remove(rt, log, b"x"),
        put(rt, log, b"y", Slot::Set(Value::flag(true))),
    ]
}

// Whether the log holds the last of those writes for each key.
fn holds_the_last<L: WriteLog>(rt: &impl Abort, alloc: Global, log: &mut L) -> bool {
    are_the_last(&got(rt, log.load(alloc)))
}

// Removals of what is there, and of what is not.
fn removals<L: WriteLog>(rt: &impl Abort, log: &mut L) -> [Answer; 6] {
    [
        remove(rt, log, b"x"),
        set(rt, log, b"x", 1),
        remove(rt, log, b"x"),
        remove(rt, log, b"x"),
        remove(rt, log, b"z"),
        set(rt, log, b"x", 7),
    ]
}

// With versions up to 2, the third write is refused, and an idle removal for its own reason.
fn past_the_greatest<L: WriteLog>(rt: &impl Abort, log: &mut L) -> [Answer; 5] {
    [
        set(rt, log, b"x", 1),
        set(rt, log, b"x", 2),
        set(rt, log, b"x", 3),
        remove(rt, log, b"x"),
        remove(rt, log, b"z"),
    ]
}

// After those, with versions up to 4,097: an old key still has room, and a new one does not. Then the versions are
// spent.
fn a_key_too_many<L: WriteLog>(rt: &impl Abort, log: &mut L) -> [Answer; 5] {
    [
        set(rt, log, b"new", 1),
        remove(rt, log, b"new"),
        remove(rt, log, b"k7"),
        set(rt, log, b"new", 1),
        set(rt, log, b"k7", 1),
    ]
}

const SPENT: Answer = Err(Fault::VersionsSpent);

const FULL: Answer = Err(Fault::TableFull);

const NOTHING: Answer = Err(Fault::NothingThere);

#[test]
fn a_plain_log_keeps_writes(rt: HostRuntime) {
    let alloc = rt.alloc();
    let mut log = plain_log(&rt, alloc, 9);
    same(&rt, &log.owner().bytes(), &OWNER);
    same(&rt, &log.cluster().bytes(), &CLUSTER);
    same(&rt, &held(&rt, alloc, &mut log), &(0, 0));
    let answers = settled(&rt, three_writes(&rt, &mut log));
    same(&rt, &answers, &[Ok(1), Ok(2), Ok(3)]);
    same(&rt, &holds_the_last(&rt, alloc, &mut log), &true);
    same(&rt, &held(&rt, alloc, &mut log), &(2, 3));
    same(&rt, &log.close(), &Ok(()));
}

fn refuses_removals(rt: &impl Abort, alloc: Global) {
    let mut log = plain_log(rt, alloc, 9);
    let answers = settled(rt, removals(rt, &mut log));
    let wanted = [NOTHING, Ok(1), Ok(2), NOTHING, NOTHING, Ok(3)];
    same(rt, &answers, &wanted);
    same(rt, &held(rt, alloc, &mut log), &(1, 3));
}

fn refuses_past_the_greatest(rt: &impl Abort, alloc: Global) {
    let mut log = plain_log(rt, alloc, 2);
    let answers = settled(rt, past_the_greatest(rt, &mut log));
    same(rt, &answers, &[Ok(1), Ok(2), SPENT, SPENT, NOTHING]);
    same(rt, &held(rt, alloc, &mut log), &(1, 2));
}

// What is refused spends no version and changes nothing.
#[test]
fn a_plain_log_refuses(rt: HostRuntime) {
    refuses_removals(&rt, rt.alloc());
    refuses_past_the_greatest(&rt, rt.alloc());
}

#[test]
fn a_plain_log_is_filled(rt: HostRuntime) {
    let alloc = rt.alloc();
    let mut log = plain_log(&rt, alloc, 4097);
    same(&rt, &fill(&rt, alloc, &mut log), &4096);
    let refused = settled(&rt, a_key_too_many(&rt, &mut log));
    same(&rt, &refused, &[FULL, NOTHING, Ok(4097), FULL, SPENT]);
    same(&rt, &held(&rt, alloc, &mut log), &(4096, 4097));
}

// How many entries a log holds after a version.
fn count_after<L: WriteLog>(rt: &impl Abort, alloc: Global, log: &mut L, version: u64) -> usize {
    got(rt, log.load(alloc)).after(version).count()
}

// 10,000 writes over ten keys leave ten entries, the last ten.
#[test]
fn a_plain_log_keeps_ten_of_many(rt: HostRuntime) {
    let alloc = rt.alloc();
    let mut log = plain_log(&rt, alloc, 10_000);
    same(&rt, &many(&rt, &mut log, 1000), &10_000);
    same(&rt, &held(&rt, alloc, &mut log), &(10, 10_000));
    same(&rt, &count_after(&rt, alloc, &mut log, 9990), &10);
}
