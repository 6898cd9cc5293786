//! A table that a peer needs whole is offered as if it were purged as far as the sender holds it.
ghost use Rattle.std.specs.Prelude.{◌≤◌, ◌<◌, ◌+◌};

use crate::making::apply;
use crate::{got, key, name, push, push_entry, same, there};
use sb_breadth::Breadth;
use sb_budget::{DeltaOrder, available};
use sb_depth::Depth;
use sb_digest::{Digest, Pair, build};
use sb_holdings::{BlockEnd, Holdings};
use sb_table::Table;
use sb_types::{BUDGET_LEAST, BUDGET_MOST, Block, Entry, Key, SharedEntry, Slot, Value};
use std::alloc::Global;
use std::process::Abort;

/// Texts of 200 bytes under these letters, in these versions. A frame of 1,024 bytes has room for four of them.
fn texts(rt: &impl Abort, alloc: Global, writes: &[(u8, u64)]) -> Vec<SharedEntry> {
    let mut entries = Vec::new(alloc);
    for (letter, version) in writes {
        let slot = Slot::Set(got(rt, Value::text(alloc, &[b'p'; 200])));
        let entry = Entry::new(key(rt, &[*letter]), (*version).max(1), slot);
        push_entry(rt, &mut entries, entry);
    }
    entries
}

/// The node a, which holds its own table of these entries.
fn owner(
    rt: &impl Abort,
    alloc: Global,
    upto: u64,
    floor: u64,
    entries: Vec<SharedEntry>,
) -> Holdings {
    let table = got(rt, Table::restored(alloc, upto, floor, entries));
    got(rt, Holdings::new(alloc, name(rt, b"a"), table))
}

/// Versions 1 to 11 of a: the letters a to j, and then b again. It is purged up to a floor.
fn eleven(rt: &impl Abort, alloc: Global, floor: u64) -> Holdings {
    let writes = [
        (b'a', 1),
        (b'c', 3),
        (b'd', 4),
        (b'e', 5),
        (b'f', 6),
        (b'g', 7),
        (b'h', 8),
        (b'i', 9),
        (b'j', 10),
        (b'b', 11),
    ];
    owner(rt, alloc, 11, floor, texts(rt, alloc, &writes))
}

/// The same once c was removed in version 12, and all was purged.
fn twelve(rt: &impl Abort, alloc: Global) -> Holdings {
    let writes = [
        (b'a', 1),
        (b'd', 4),
        (b'e', 5),
        (b'f', 6),
        (b'g', 7),
        (b'h', 8),
        (b'i', 9),
        (b'j', 10),
        (b'b', 11),
    ];
    owner(rt, alloc, 12, 12, texts(rt, alloc, &writes))
}

/// A node that took one block of a, which begins after 0.
fn holder(
    rt: &impl Abort,
    alloc: Global,
    me: &[u8],
    floor: u64,
    upto: u64,
    writes: &[(u8, u64)],
) -> Holdings {
    let node = Holdings::new(alloc, name(rt, me), Table::new(alloc));
    let mut node = got(rt, node);
    let entries = texts(rt, alloc, writes);
    let block = got(rt, Block::new(name(rt, b"a"), floor, 0, upto, entries));
    apply(rt, &mut node, &block);
    node
}

/// The node b, which holds a up to 2.
fn behind(rt: &impl Abort, alloc: Global) -> Holdings {
    holder(rt, alloc, b"b", 0, 2, &[(b'a', 1), (b'b', 2)])
}

/// A block as it was sent: its floor, and the two versions between which its entries are. Then how it ended, and the
/// version up to which the receiver then holds a.
type Sent = ([u64; 3], BlockEnd, u64);

/// One node answers another's digest by a frame of this size, and the other takes the block of a.
fn exchange(rt: &impl Abort, alloc: Global, from: &Holdings, to: &mut Holdings, budget: u64) -> Sent
    requires least { BUDGET_LEAST ≤ budget }
    requires most { budget ≤ BUDGET_MOST }
{
    let digest = got(rt, build(alloc, to, None, true, budget));
    let delta = got(rt, Breadth.delta(alloc, from, &digest, budget));
    let block = there(rt, delta.blocks().first());
    let parts = [block.floor(), block.after(), block.upto()];
    let end = apply(rt, to, block);
    (parts, end, to.upto(&name(rt, b"a")))
}

/// The version of the key b that a node shows of a.
fn shown(rt: &impl Abort, node: &Holdings) -> Option<u64> {
    let table = there(rt, node.table(&name(rt, b"a")));
    let (version, _) = table.get(&key(rt, b"b"))?;
    Some(version)
}

/// A peer that has to take the whole table shows its old one until it has all that the sender held at the first frame. So
/// a key that was written again never goes away.
#[test]
fn a_stage_comes_whole(rt: HostRuntime) {
    let alloc = rt.alloc();
    let (a, mut b) = (eleven(&rt, alloc, 8), behind(&rt, alloc));
    let first = exchange(&rt, alloc, &a, &mut b, 1_024);
    same(&rt, &first, &([11, 0, 5], BlockEnd::Taken(4), 2));
    same(&rt, &shown(&rt, &b), &Some(2));
    let second = exchange(&rt, alloc, &a, &mut b, 1_024);
    same(&rt, &second, &([11, 5, 9], BlockEnd::Taken(4), 2));
    same(&rt, &shown(&rt, &b), &Some(2));
    let third = exchange(&rt, alloc, &a, &mut b, 1_024);
    same(&rt, &third, &([11, 9, 11], BlockEnd::Taken(2), 11));
    same(&rt, &shown(&rt, &b), &Some(11));
}

/// A purge of the sender after the first frame does not end the stage, if its floor is at or below the stage's.
#[test]
fn a_stage_outlives_a_purge(rt: HostRuntime) {
    let alloc = rt.alloc();
    let (a, mut b) = (eleven(&rt, alloc, 8), behind(&rt, alloc));
    exchange(&rt, alloc, &a, &mut b, 1_024);
    let a = eleven(&rt, alloc, 10);
    let second = exchange(&rt, alloc, &a, &mut b, 1_024);
    same(&rt, &second, &([11, 5, 9], BlockEnd::Taken(4), 2));
    let third = exchange(&rt, alloc, &a, &mut b, 1_024);
    same(&rt, &third, &([11, 9, 11], BlockEnd::Taken(2), 11));
}

/// After a purge above the stage's floor, the stage begins again.
#[test]
fn a_purge_beyond_the_stage_begins_anew(rt: HostRuntime) {
    let alloc = rt.alloc();
    let (a, mut b) = (eleven(&rt, alloc, 8), behind(&rt, alloc));
    exchange(&rt, alloc, &a, &mut b, 1_024);
    let a = twelve(&rt, alloc);
    let second = exchange(&rt, alloc, &a, &mut b, 1_024);
    same(&rt, &second, &([12, 0, 6], BlockEnd::Taken(4), 2));
    same(&rt, &b.staged(&name(&rt, b"a")), &Some((12, 6)));
}

/// A sender that does not hold as far as the stage's floor cannot continue the stage, and leaves it as it is.
#[test]
fn a_sender_behind_the_stage_is_a_gap(rt: HostRuntime) {
    let alloc = rt.alloc();
    let (a, mut b) = (eleven(&rt, alloc, 8), behind(&rt, alloc));
    exchange(&rt, alloc, &a, &mut b, 1_024);
    let writes = [
        (b'a', 1),
        (b'b', 2),
        (b'c', 3),
        (b'd', 4),
        (b'e', 5),
        (b'f', 6),
        (b'g', 7),
        (b'h', 8),
        (b'i', 9),
    ];
    let c = holder(&rt, alloc, b"c", 8, 9, &writes);
    let sent = exchange(&rt, alloc, &c, &mut b, 1_024);
    same(&rt, &sent, &([9, 0, 4], BlockEnd::Gap, 2));
    same(&rt, &b.staged(&name(&rt, b"a")), &Some((11, 5)));
}

/// The key of a number.
fn numbered(rt: &impl Abort, number: u64) -> Key {
    let digits = [
        b'0' + (number / 1_000 % 10) as u8,
        b'0' + (number / 100 % 10) as u8,
        b'0' + (number / 10 % 10) as u8,
        b'0' + (number % 10) as u8,
    ];
    key(rt, &digits)
}

/// Adds a flag, or a removal, under each of so many keys from a number on, in versions from `version` on.
fn add(
    rt: &impl Abort,
    entries: &mut Vec<SharedEntry>,
    from: u64,
    count: u64,
    version: u64,
    set: bool,
)
    requires keys { from + count < 10_000 }
    requires first { 1 ≤ version }
    requires last { version < 10_000 }
{
    for at in 0..count {
        let slot = if set {
            Slot::Set(Value::flag(true))
        } else {
            Slot::Removed
        };
        let entry = Entry::new(numbered(rt, from + at), version + at, slot);
        push_entry(rt, entries, entry);
    }
}

/// A node that wrote 4,096 keys and removed the first 1,000 of them.
fn full(rt: &impl Abort, alloc: Global) -> Holdings {
    let mut entries = Vec::new(alloc);
    add(rt, &mut entries, 1_000, 3_096, 1_001, true);
    add(rt, &mut entries, 0, 1_000, 4_097, false);
    owner(rt, alloc, 5_096, 1, entries)
}

/// The same once the older half of the removals was purged, and 500 new keys were written.
fn full_again(rt: &impl Abort, alloc: Global) -> Holdings {
    let mut entries = Vec::new(alloc);
    add(rt, &mut entries, 1_000, 3_096, 1_001, true);
    add(rt, &mut entries, 500, 500, 4_597, false);
    add(rt, &mut entries, 5_000, 500, 5_097, true);
    owner(rt, alloc, 5_596, 4_596, entries)
}

/// Tombstones up to the floor of an offered table are left out. So a stage has room for the keys that come later.
#[test]
fn a_stage_has_room_for_later_keys(rt: HostRuntime) {
    let alloc = rt.alloc();
    let b = Holdings::new(alloc, name(&rt, b"b"), Table::new(alloc));
    let (a, mut b) = (full(&rt, alloc), got(&rt, b));
    let first = exchange(&rt, alloc, &a, &mut b, 32_768);
    same(&rt, &(first.0[0], first.0[1], first.2), &(5_096, 0, 0));
    let a = full_again(&rt, alloc);
    let second = exchange(&rt, alloc, &a, &mut b, 32_768);
    same(&rt, &(second.0[0], second.0[1]), &(5_096, first.0[2]));
    same(&rt, &second.2, &5_596);
}

/// The digest of a peer that holds a up to a version, with no stage.
fn held_to(rt: &impl Abort, alloc: Global, upto: u64) -> Digest {
    let mut pairs = Vec::new(alloc);
    push(rt, &mut pairs, Pair::new(name(rt, b"a"), upto, None));
    got(rt, Digest::new(true, None, None, pairs))
}

/// The node a, which wrote x, y and z, removed y and z, and purged up to the removal of y.
fn half_purged(rt: &impl Abort, alloc: Global) -> Holdings {
    let mut entries = texts(rt, alloc, &[(b'x', 1)]);
    let removal = Entry::new(key(rt, b"z"), 5, Slot::Removed);
    push_entry(rt, &mut entries, removal);
    owner(rt, alloc, 5, 4, entries)
}

/// How many items a peer that holds a up to a version is offered, and how many entries its delta has in both orders.
fn offers(rt: &impl Abort, alloc: Global, node: &Holdings, upto: u64) -> [usize; 3] {
    let digest = held_to(rt, alloc, upto);
    let offered = got(rt, available(alloc, node, &digest));
    let wide = got(rt, Breadth.delta(alloc, node, &digest, BUDGET_LEAST));
    let deep = got(rt, Depth.delta(alloc, node, &digest, BUDGET_LEAST));
    let (wide, deep) = (
        there(rt, wide.blocks().first()),
        there(rt, deep.blocks().first()),
    );
    [offered.len(), wide.entries().len(), deep.entries().len()]
}

/// Tombstones above the sender's floor are left out for a peer that takes the whole table, and sent to all others.
#[test]
fn tombstones_are_left_out_of_whole_tables(rt: HostRuntime) {
    let alloc = rt.alloc();
    let a = half_purged(&rt, alloc);
    same(&rt, &offers(&rt, alloc, &a, 0), &[1, 1, 1]);
    same(&rt, &offers(&rt, alloc, &a, 3), &[1, 1, 1]);
    same(&rt, &offers(&rt, alloc, &a, 4), &[1, 1, 1]);
}
