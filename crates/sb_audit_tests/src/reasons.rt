//! Each reason for which an entry is foreign, and each own entry that a block may lack, one at a time.

use crate::making::{add, got, removing, same_at, setting};
use sb_audit::{Reason, find_foreign, find_missing};
use sb_table::Table;
use sb_types::{Block, Entry, Name, SharedEntry};
use std::alloc::Global;
use std::process::Abort;

/// The table of a log that gave eight writes, purged up to 2. The writes 1 and 2 set and removed another key. The writes
/// 4 and 7 were of keys that were written again.
fn own_table(rt: &impl Abort, alloc: Global) -> Table {
    let mut entries = Vec::new(alloc);
    add(rt, &mut entries, setting(rt, b"b", 3, 3));
    add(rt, &mut entries, removing(rt, b"c", 5));
    add(rt, &mut entries, setting(rt, b"a", 6, 6));
    add(rt, &mut entries, setting(rt, b"d", 8, 8));
    got(rt, Table::restored(alloc, 8, 2, entries))
}

/// A floor, the version after which a block begins, and the one up to which it reaches.
type Bounds = (u64, u64, u64);

fn block_of(rt: &impl Abort, entries: Vec<SharedEntry>, bounds: Bounds) -> Block {
    let (floor, after, upto) = bounds;
    let name = got(rt, Name::read(b"a"));
    got(rt, Block::new(name, floor, after, upto, entries))
}

/// Asserts that one entry is foreign for this reason, in a block that reaches up to `upto`.
fn assert_reason(rt: &impl Abort, alloc: Global, entry: Entry, upto: u64, wanted: Option<Reason>) {
    let version = entry.version();
    let mut entries = Vec::new(alloc);
    add(rt, &mut entries, entry);
    let block = block_of(rt, entries, (0, 0, upto));
    let table = own_table(rt, alloc);
    let reason = match find_foreign(&table, &block) {
        Some(found) => Some(found.reason),
        None => None,
    };
    same_at(rt, &(version, upto), &reason, &wanted);
}

#[test]
fn own_writes_are_not_foreign(rt: HostRuntime) {
    let alloc = rt.alloc();
    assert_reason(&rt, alloc, setting(&rt, b"b", 3, 3), 8, None);
    assert_reason(&rt, alloc, removing(&rt, b"c", 5), 8, None);
    assert_reason(&rt, alloc, setting(&rt, b"a", 6, 6), 8, None);
    assert_reason(&rt, alloc, setting(&rt, b"d", 8, 8), 8, None);
}

#[test]
fn writes_that_the_own_table_no_longer_has(rt: HostRuntime) {
    let alloc = rt.alloc();
    assert_reason(&rt, alloc, setting(&rt, b"a", 4, 4), 5, None);
    assert_reason(&rt, alloc, removing(&rt, b"d", 7), 7, None);
    assert_reason(&rt, alloc, setting(&rt, b"x", 1, 1), 1, None);
    assert_reason(&rt, alloc, removing(&rt, b"x", 2), 2, None);
    assert_reason(&rt, alloc, removing(&rt, b"x", 2), 8, None);
}

#[test]
fn versions_that_the_own_table_has(rt: HostRuntime) {
    let alloc = rt.alloc();
    let slot = Some(Reason::OtherSlot);
    assert_reason(&rt, alloc, setting(&rt, b"a", 6, 7), 8, slot);
    assert_reason(&rt, alloc, removing(&rt, b"a", 6), 8, slot);
    assert_reason(&rt, alloc, setting(&rt, b"c", 5, 5), 8, slot);
    let key = Some(Reason::OtherKey);
    assert_reason(&rt, alloc, setting(&rt, b"x", 6, 6), 8, key);
    assert_reason(&rt, alloc, setting(&rt, b"a", 8, 8), 8, key);
}

#[test]
fn versions_above_the_own_ones(rt: HostRuntime) {
    let alloc = rt.alloc();
    let ahead = Some(Reason::AheadOfLog);
    assert_reason(&rt, alloc, setting(&rt, b"a", 9, 6), 9, ahead);
    assert_reason(&rt, alloc, removing(&rt, b"x", 10), 12, ahead);
}

#[test]
fn versions_that_it_does_not_have(rt: HostRuntime) {
    let alloc = rt.alloc();
    let later = Some(Reason::LaterWrite);
    assert_reason(&rt, alloc, setting(&rt, b"b", 4, 3), 4, later);
    let earlier = Some(Reason::EarlierWrite);
    assert_reason(&rt, alloc, setting(&rt, b"a", 4, 4), 6, earlier);
    assert_reason(&rt, alloc, setting(&rt, b"c", 4, 4), 5, earlier);
    let unknown = Some(Reason::UnknownKey);
    assert_reason(&rt, alloc, setting(&rt, b"x", 4, 4), 4, unknown);
    assert_reason(&rt, alloc, removing(&rt, b"x", 7), 7, unknown);
    assert_reason(&rt, alloc, setting(&rt, b"x", 1, 1), 2, unknown);
}

/// Asserts which own entry a block lacks that has b of this weight, a of 6, and one more entry.
fn assert_missing(
    rt: &impl Abort,
    alloc: Global,
    weight: u64,
    more: Entry,
    bounds: Bounds,
    wanted: Option<u64>,
) {
    let is_between = more.version() < 6;
    let a = setting(rt, b"a", 6, 6);
    let mut entries = Vec::new(alloc);
    add(rt, &mut entries, setting(rt, b"b", 3, weight));
    let (first, second) = if is_between { (more, a) } else { (a, more) };
    add(rt, &mut entries, first);
    add(rt, &mut entries, second);
    let block = block_of(rt, entries, bounds);
    let table = own_table(rt, alloc);
    let missing = match find_missing(&table, &block) {
        Some(own) => Some(own.version()),
        None => None,
    };
    same_at(rt, &bounds, &missing, &wanted);
}

#[test]
fn own_writes_that_a_block_lacks(rt: HostRuntime) {
    let alloc = rt.alloc();
    assert_missing(&rt, alloc, 3, removing(&rt, b"c", 5), (0, 0, 7), None);
    assert_missing(&rt, alloc, 3, removing(&rt, b"c", 5), (0, 0, 8), Some(8));
    assert_missing(&rt, alloc, 4, removing(&rt, b"c", 5), (0, 0, 7), Some(3));
    assert_missing(&rt, alloc, 4, removing(&rt, b"c", 5), (8, 2, 7), Some(3));
}

/// The block has d, and lacks c, which was removed.
#[test]
fn own_removals_that_a_block_lacks(rt: HostRuntime) {
    let alloc = rt.alloc();
    let first = setting(&rt, b"d", 8, 8);
    assert_missing(&rt, alloc, 3, first, (5, 0, 8), None);
    let second = setting(&rt, b"d", 8, 8);
    assert_missing(&rt, alloc, 3, second, (4, 0, 8), Some(5));
}

/// A block that begins above the own entries lacks none of them.
#[test]
fn own_writes_below_a_block(rt: HostRuntime) {
    let alloc = rt.alloc();
    let table = own_table(&rt, alloc);
    let above = block_of(&rt, Vec::new(alloc), (0, 8, 9));
    same_at(
        &rt,
        &"above",
        &find_missing(&table, &above).is_none(),
        &true,
    );
    let at = block_of(&rt, Vec::new(alloc), (0, 7, 9));
    same_at(&rt, &"at", &find_missing(&table, &at).is_none(), &false);
}
