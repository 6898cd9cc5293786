//! Two logs of one name: a log and its old copy that went on, purged logs, and a log that is behind.

use crate::making::{Findings, block_above, findings, log_of, purge, same_at};
use sb_audit::{Reason, find_foreign, find_missing};
use sb_table::Table;
use sb_types::Block;
use std::alloc::Global;
use std::process::Abort;

/// Asserts what a node of this table finds in the other table, above a version.
fn assert_found(
    rt: &impl Abort,
    alloc: Global,
    own: &Table,
    other: &Table,
    after: u64,
    wanted: Findings,
) {
    let block = block_above(rt, alloc, other, after);
    same_at(rt, &block.upto(), &findings(own, &block), &wanted);
}

/// A log was restored from its copy up to 3, and gave the versions 4 to 8 a second time.
#[test]
fn versions_that_were_given_twice(rt: HostRuntime) {
    let alloc = rt.alloc();
    let own = log_of(&rt, alloc, b"abcpqrst", 0);
    let other = log_of(&rt, alloc, b"abcuvwxy", 0);
    let key = (Some((4, Reason::OtherKey)), Some(4));
    assert_found(&rt, alloc, &own, &other, 0, key);
    assert_found(&rt, alloc, &other, &own, 3, key);
    let slots = log_of(&rt, alloc, b"abcpqrst", 10);
    let slot = (Some((1, Reason::OtherSlot)), Some(1));
    assert_found(&rt, alloc, &own, &slots, 0, slot);
    let slot_above = (Some((4, Reason::OtherSlot)), Some(4));
    assert_found(&rt, alloc, &own, &slots, 3, slot_above);
}

/// A log that gave the same writes a second time, and a log that has not come so far.
#[test]
fn the_same_writes_again(rt: HostRuntime) {
    let alloc = rt.alloc();
    let own = log_of(&rt, alloc, b"abcabAdc", 0);
    let same = log_of(&rt, alloc, b"abcabAdc", 0);
    assert_found(&rt, alloc, &own, &same, 0, (None, None));
    let older = log_of(&rt, alloc, b"abcabA", 0);
    assert_found(&rt, alloc, &own, &older, 0, (None, None));
    let ahead = (Some((7, Reason::AheadOfLog)), Some(3));
    assert_found(&rt, alloc, &older, &own, 0, ahead);
}

/// The old copy wrote one key again and again. Its last write under that key could be an own one.
#[test]
fn own_writes_that_the_other_log_never_gave(rt: HostRuntime) {
    let alloc = rt.alloc();
    let own = log_of(&rt, alloc, b"abcxyhhhh", 0);
    let other = log_of(&rt, alloc, b"abchhhhh", 0);
    assert_found(&rt, alloc, &own, &other, 0, (None, Some(4)));
    let unknown = (Some((4, Reason::UnknownKey)), Some(8));
    assert_found(&rt, alloc, &other, &own_up_to_8(&rt, alloc), 0, unknown);
}

/// The log of the last test when it had not given its last write.
fn own_up_to_8(rt: &impl Abort, alloc: Global) -> Table {
    log_of(rt, alloc, b"abcxyhhz", 0)
}

/// A log that was purged, and peers that hold what it gave before.
#[test]
fn purged_logs(rt: HostRuntime) {
    let alloc = rt.alloc();
    let mut own = log_of(&rt, alloc, b"kKbcC", 0);
    purge(&mut own, 2);
    let set = log_of(&rt, alloc, b"k", 0);
    assert_found(&rt, alloc, &own, &set, 0, (None, None));
    let removed = log_of(&rt, alloc, b"kKb", 0);
    assert_found(&rt, alloc, &own, &removed, 0, (None, None));
    let mut purged = log_of(&rt, alloc, b"kKbcC", 0);
    purge(&mut purged, 5);
    assert_found(&rt, alloc, &own, &purged, 0, (None, None));
    assert_found(&rt, alloc, &purged, &own, 0, (None, None));
    let kept = log_of(&rt, alloc, b"kzb", 0);
    let unknown = (Some((1, Reason::UnknownKey)), None);
    assert_found(&rt, alloc, &own, &kept, 0, unknown);
}

/// The versions of the first foreign entry of a block, and of the first own entry that the block lacks.
fn compare(table: &Table, block: &Block) -> (Option<u64>, Option<u64>) {
    let foreign = find_foreign(table, block).map(|found| found.entry.version());
    let missing = find_missing(table, block).map(|own| own.version());
    (foreign, missing)
}

#[test]
fn example_of_sb_audit(rt: HostRuntime) {
    let alloc = rt.alloc();
    let own = log_of(&rt, alloc, b"abx", 0);
    let block = block_above(&rt, alloc, &log_of(&rt, alloc, b"aby", 0), 0);
    same_at(&rt, &"twin", &compare(&own, &block), &(Some(3), Some(3)));
    let block = block_above(&rt, alloc, &log_of(&rt, alloc, b"ab", 0), 0);
    same_at(&rt, &"own", &compare(&own, &block), &(None, None));
}
