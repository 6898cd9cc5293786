//! News: what a peer lacks of the owners in its backlog.
use crate::making::{apply, block_of, longest, tells};
use crate::node::{applied, node};
use crate::{got, key, name, push, push_entry, same, same_at};
use sb_budget::{Backlog, cursors_since};
use sb_digest::{Digest, Pair};
use sb_holdings::{BlockEnd, Holdings};
use sb_node::NodeCore;
use sb_table::Table;
use sb_testing::delta_of_block;
use sb_types::{Block, Delta, Entry, Fault, Key, Name, Order, Slot, Value};
use std::alloc::Global;
use std::process::Abort;

/// The backlog of a peer that has these owners up to these versions.
fn backlog_of(rt: &impl Abort, alloc: Global, owners: &[(Name, u64)]) -> Backlog {
    let mut backlog = Backlog::new(alloc);
    for (owner, version) in owners {
        got(rt, backlog.add(*owner, *version));
    }
    backlog
}

/// Takes a block, and returns how it ends.
fn take(rt: &impl Abort, alloc: Global, core: &mut NodeCore, block: Block) -> Option<BlockEnd> {
    let delta = got(rt, delta_of_block(alloc, block));
    applied(rt, core, &delta).ends().first().copied()
}

/// A node n that holds three writes of a and two of b.
fn of_a_and_b(rt: &impl Abort, alloc: Global, [a, b]: [Name; 2]) -> NodeCore {
    let mut core = node(rt, alloc, name(rt, b"n"), 1_024, Order::Breadth);
    let first = take(rt, alloc, &mut core, block_of(rt, alloc, a, b"xyz"));
    let second = take(rt, alloc, &mut core, block_of(rt, alloc, b, b"xy"));
    let wanted = [Some(BlockEnd::Taken(3)), Some(BlockEnd::Taken(2))];
    same(rt, &[first, second], &wanted);
    core
}

/// Tests that a peer with this backlog lacks just these writes, and how many blocks have them.
fn lacks(
    rt: &impl Abort,
    alloc: Global,
    core: &NodeCore,
    owners: &[(Name, u64)],
    wanted: (&[(Name, u64)], usize),
) {
    let delta = got(rt, core.news(&backlog_of(rt, alloc, owners)));
    let (_, is_all) = tells(&delta, wanted.0);
    same_at(
        rt,
        &owners,
        &(is_all, delta.blocks().len()),
        &(true, wanted.1),
    );
}

#[test]
fn a_peer_lacks_what_is_above_its_versions(rt: HostRuntime) {
    let alloc = rt.alloc();
    let [a, b] = [name(&rt, b"a"), name(&rt, b"b")];
    let core = of_a_and_b(&rt, alloc, [a, b]);
    lacks(&rt, alloc, &core, &[(a, 1)], (&[(a, 2), (a, 3)], 1));
    let both = [(a, 2), (a, 3), (b, 1), (b, 2)];
    lacks(&rt, alloc, &core, &[(b, 0), (a, 1)], (&both, 2));
    lacks(&rt, alloc, &core, &[(a, 2), (b, 2)], (&[(a, 3)], 1));
}

/// Nothing is offered of an owner that is not in the backlog, is not held, or is not held above its version.
#[test]
fn a_peer_lacks_nothing(rt: HostRuntime) {
    let alloc = rt.alloc();
    let [a, b] = [name(&rt, b"a"), name(&rt, b"b")];
    let core = of_a_and_b(&rt, alloc, [a, b]);
    let [c, n] = [name(&rt, b"c"), name(&rt, b"n")];
    lacks(&rt, alloc, &core, &[], (&[], 0));
    lacks(&rt, alloc, &core, &[(c, 0)], (&[], 0));
    lacks(&rt, alloc, &core, &[(a, 3), (b, 9)], (&[], 0));
    lacks(&rt, alloc, &core, &[(n, 0)], (&[], 0));
}

/// The first block of a delta: its version before the first, and the last.
fn bounds(delta: &Delta) -> Option<(u64, u64)> {
    match delta.blocks().first() {
        Some(block) => Some((block.after(), block.upto())),
        None => None,
    }
}

/// Of an owner that is in the backlog, the block is that of `deltas` for the same version.
#[test]
fn the_block_is_that_of_a_digest(rt: HostRuntime) {
    let alloc = rt.alloc();
    let [a, b] = [name(&rt, b"a"), name(&rt, b"b")];
    let core = of_a_and_b(&rt, alloc, [a, b]);
    let mut pairs = Vec::new(alloc);
    push(&rt, &mut pairs, Pair::new(a, 1, None));
    push(&rt, &mut pairs, Pair::new(b, 2, None));
    let digest = got(&rt, Digest::new(false, None, None, pairs));
    let asked = got(&rt, core.deltas(&digest));
    let unasked = got(&rt, core.news(&backlog_of(&rt, alloc, &[(a, 1)])));
    same(&rt, &bounds(&unasked), &Some((1, 3)));
    same(&rt, &bounds(&asked), &bounds(&unasked));
    let lengths = (asked.encoded_length(), unasked.encoded_length());
    same(&rt, &lengths.0, &lengths.1);
}

/// A peer takes news that begins where it holds, and not what begins above that.
#[test]
fn news_is_taken(rt: HostRuntime) {
    let alloc = rt.alloc();
    let [a, b] = [name(&rt, b"a"), name(&rt, b"b")];
    let core = of_a_and_b(&rt, alloc, [a, b]);
    let mut peer = node(&rt, alloc, name(&rt, b"m"), 1_024, Order::Breadth);
    let delta = got(&rt, core.news(&backlog_of(&rt, alloc, &[(a, 1), (b, 0)])));
    let found = applied(&rt, &mut peer, &delta);
    same(
        &rt,
        &found.ends(),
        &[BlockEnd::Gap, BlockEnd::Taken(2)].as_slice(),
    );
    let found = applied(&rt, &mut peer, &delta);
    same(
        &rt,
        &found.ends(),
        &[BlockEnd::Gap, BlockEnd::Stale].as_slice(),
    );
    same(&rt, &[peer.upto(&a), peer.upto(&b)], &[0, 2]);
}

/// The owner's first writes: a text of 512 bytes under each of these letters.
fn long_block(rt: &impl Abort, alloc: Global, owner: Name, letters: &[u8]) -> Block {
    let mut entries = Vec::new(alloc);
    for (index, letter) in letters.iter().enumerate() {
        let slot = longest(rt, alloc);
        let entry = Entry::new(key(rt, &[*letter]), index as u64 + 1, slot);
        push_entry(rt, &mut entries, entry);
    }
    got(rt, Block::new(owner, 0, 0, letters.len() as u64, entries))
}

/// Tests that a node of this order, which holds a long write of a and two of b, tells first of this one.
fn first_is(rt: &impl Abort, alloc: Global, order: Order, [a, b]: [Name; 2], wanted: Name) {
    let mut core = node(rt, alloc, name(rt, b"n"), 1_024, order);
    let first = take(rt, alloc, &mut core, long_block(rt, alloc, a, b"x"));
    let second = take(rt, alloc, &mut core, long_block(rt, alloc, b, b"xy"));
    let taken = [Some(BlockEnd::Taken(1)), Some(BlockEnd::Taken(2))];
    same(rt, &[first, second], &taken);
    lacks(rt, alloc, &core, &[(a, 0), (b, 0)], (&[(wanted, 1)], 1));
}

/// One of the long writes fits the budget: by breadth that of a, by depth the first of b.
#[test]
fn news_goes_in_the_order_of_the_settings(rt: HostRuntime) {
    let alloc = rt.alloc();
    let [a, b] = [name(&rt, b"a"), name(&rt, b"b")];
    first_is(&rt, alloc, Order::Breadth, [a, b], a);
    first_is(&rt, alloc, Order::Depth, [a, b], b);
}

/// A block of a above version 3: the write under w.
fn fourth(rt: &impl Abort, alloc: Global, owner: Name) -> Block {
    let mut entries = Vec::new(alloc);
    let slot = Slot::Set(Value::flag(true));
    push_entry(rt, &mut entries, Entry::new(key(rt, b"w"), 4, slot));
    got(rt, Block::new(owner, 3, 3, 4, entries))
}

/// A block of a with the floor 3 and nothing else, up to that.
fn purged(rt: &impl Abort, alloc: Global, owner: Name) -> Block {
    got(rt, Block::new(owner, 3, 0, 3, Vec::new(alloc)))
}

/// An owner whose floor is above its version in the backlog is left out.
#[test]
fn a_floor_is_left_to_digests(rt: HostRuntime) {
    let alloc = rt.alloc();
    let a = name(&rt, b"a");
    let mut core = node(&rt, alloc, name(&rt, b"n"), 1_024, Order::Breadth);
    let first = take(&rt, alloc, &mut core, purged(&rt, alloc, a));
    let second = take(&rt, alloc, &mut core, fourth(&rt, alloc, a));
    same(
        &rt,
        &[first, second],
        &[Some(BlockEnd::Taken(0)), Some(BlockEnd::Taken(1))],
    );
    lacks(&rt, alloc, &core, &[(a, 0)], (&[], 0));
    lacks(&rt, alloc, &core, &[(a, 2)], (&[], 0));
    lacks(&rt, alloc, &core, &[(a, 3)], (&[(a, 4)], 1));
    lacks(&rt, alloc, &core, &[(a, 4)], (&[], 0));
}

#[test]
fn example_of_backlog(rt: HostRuntime) {
    let a = name(&rt, b"a");
    let mut backlog = Backlog::new(rt.alloc());
    got(&rt, backlog.add(a, 4));
    got(&rt, backlog.add(a, 7));
    for (owner, version) in backlog.owners() {
        same(&rt, &(*owner, *version), &(a, 4));
    }
    same(&rt, &count(&backlog), &1);
    backlog.clear();
    same(&rt, &count(&backlog), &0);
}

/// How many owners are in a backlog.
fn count(backlog: &Backlog) -> usize {
    let mut count: usize = 0;
    for _ in backlog.owners() {
        count = count.saturating_add(1);
    }
    count
}

/// Owners are kept in ascending order, whatever the order in which they come.
#[test]
fn owners_of_a_backlog_ascend(rt: HostRuntime) {
    let [a, b, c] = [name(&rt, b"a"), name(&rt, b"b"), name(&rt, b"c")];
    let backlog = backlog_of(&rt, rt.alloc(), &[(b, 2), (c, 3), (a, 1)]);
    let mut wanted = [(a, 1), (b, 2), (c, 3)].into_iter();
    for (owner, version) in backlog.owners() {
        same(&rt, &Some((*owner, *version)), &wanted.next());
    }
    same(&rt, &wanted.next(), &None);
}

/// The holdings of a, which made one write.
fn one_write(alloc: Global) -> Result<Holdings, Fault> {
    let mut table = Table::new(alloc);
    let key = Key::read(b"up")?;
    table.push(Entry::new(key, 1, Slot::Set(Value::flag(true))))?;
    Holdings::new(alloc, Name::read(b"a")?, table)
}

/// How many cursors there are for a peer that has a up to this version.
fn cursors_at(rt: &impl Abort, alloc: Global, version: u64) -> usize {
    let mut holdings = got(rt, one_write(alloc));
    // Another owner, which is not in the backlog.
    let end = apply(
        rt,
        &mut holdings,
        &block_of(rt, alloc, name(rt, b"b"), b"x"),
    );
    same(rt, &end, &BlockEnd::Taken(1));
    let backlog = backlog_of(rt, alloc, &[(name(rt, b"a"), version)]);
    got(rt, cursors_since(alloc, &holdings, &backlog)).len()
}

#[test]
fn example_of_cursors_since(rt: HostRuntime) {
    same(&rt, &cursors_at(&rt, rt.alloc(), 0), &1);
    same(&rt, &cursors_at(&rt, rt.alloc(), 1), &0);
}
