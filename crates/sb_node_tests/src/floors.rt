//! What is offered of a table with a purge floor, also if it is held further than its last entry.
ghost use Rattle.std.specs.Prelude.{◌≡◌, ◌<◌};

use crate::making::{apply, block_of};
use crate::{got, key, name, push, same, same_at, there};
use sb_breadth::Breadth;
use sb_budget::{DeltaOrder, Offered, available, cursors};
use sb_depth::Depth;
use sb_digest::{Digest, Pair};
use sb_holdings::{BlockEnd, Holdings};
use sb_table::Table;
use sb_types::{BUDGET_LEAST, Delta, Entry, Fault, HEADER_LENGTH, Name, Slot, Value};
use std::alloc::Global;
use std::process::Abort;

/// Enters a write of a later version than any before.
fn enter(rt: &impl Abort, table: &mut Table, text: &[u8], version: u64, slot: Slot)
    requires { table.old.held < version }
    ensures version { table.new.held ≡ version }
    ensures floor { table.new.floor ≡ table.old.floor }
{
    match table.push(Entry::new(key(rt, text), version, slot)) {
        Ok(()) => {}
        Err(fault) => panic!(rt; "error: {fault:?}"),
    }
}

/// The node a, which wrote x and y, removed y, and purged up to 3. It holds up to 5, and has only the entry of x.
fn purged(rt: &impl Abort, alloc: Global) -> Holdings {
    let mut table = Table::new(alloc);
    enter(rt, &mut table, b"x", 1, Slot::Set(Value::flag(true)));
    enter(rt, &mut table, b"y", 2, Slot::Set(Value::flag(true)));
    enter(rt, &mut table, b"y", 3, Slot::Removed);
    table.raise(5, 3);
    got(rt, Holdings::new(alloc, name(rt, b"a"), table))
}

/// The digest, for all names, of a peer that holds a up to a version.
fn held_to(rt: &impl Abort, alloc: Global, upto: u64) -> Digest {
    let mut pairs = Vec::new(alloc);
    push(rt, &mut pairs, Pair::new(name(rt, b"a"), upto, None));
    got(rt, Digest::new(true, None, None, pairs))
}

/// An item: its floor, what it is offered after and up to, its rank and count, its version, and whether it has an
/// entry.
type Item = ([u64; 3], [u64; 2], u64, bool);

fn item(offered: &Offered) -> Item {
    (
        [offered.floor, offered.after, offered.upto],
        [offered.rank, offered.count],
        offered.version(),
        offered.entry.is_some(),
    )
}

/// Ends the test unless just these items are what a peer lacks that holds a up to a version.
fn lacks(rt: &impl Abort, alloc: Global, holdings: &Holdings, upto: u64, wanted: &[Item]) {
    let offered = got(rt, available(alloc, holdings, &held_to(rt, alloc, upto)));
    let mut are_equal = offered.len() == wanted.len();
    for (found, wanted) in offered.iter().zip(wanted) {
        are_equal &= item(found) == *wanted;
    }
    same_at(rt, &upto, &are_equal, &true);
}

/// A peer below the floor is offered all again, as if it were purged as far as is held. A peer at or above it is offered
/// what is above its held version, or only the news.
#[test]
fn what_a_floor_leaves(rt: HostRuntime) {
    let alloc = rt.alloc();
    let holdings = purged(&rt, alloc);
    let all = [([5, 0, 5], [0, 1], 1, true)];
    lacks(&rt, alloc, &holdings, 0, &all);
    lacks(&rt, alloc, &holdings, 2, &all);
    lacks(&rt, alloc, &holdings, 3, &[([3, 3, 5], [0, 1], 5, false)]);
    lacks(&rt, alloc, &holdings, 4, &[([3, 4, 5], [0, 1], 5, false)]);
    lacks(&rt, alloc, &holdings, 5, &[]);
}

/// An own write above the floor is the only item for a peer that has reached the floor.
#[test]
fn what_is_written_above_a_floor(rt: HostRuntime) {
    let alloc = rt.alloc();
    let mut holdings = purged(&rt, alloc);
    let slot = Slot::Set(Value::flag(false));
    got(&rt, holdings.push_own(Entry::new(key(&rt, b"z"), 6, slot)));
    lacks(&rt, alloc, &holdings, 3, &[([3, 3, 6], [0, 1], 6, true)]);
    let all = [([6, 0, 6], [0, 2], 1, true), ([6, 0, 6], [1, 2], 6, true)];
    lacks(&rt, alloc, &holdings, 2, &all);
}

/// A cursor's count of items, its head's floor, `after` and `upto`, whether the next item has an entry, and whether
/// more follow.
type Walked = (u64, [u64; 3], bool, bool);

fn walked(rt: &impl Abort, alloc: Global, holdings: &Holdings, upto: u64) -> Walked {
    let mut owners = got(rt, cursors(alloc, holdings, &held_to(rt, alloc, upto)));
    let cursor = there(rt, owners.pop());
    let (count, head) = (cursor.count(), cursor.head());
    let (entry, later) = cursor.split_first();
    let reach = [head.floor, head.after, head.upto];
    (count, reach, entry.is_some(), later.is_some())
}

/// A cursor passes an item without an entry as it passes one with an entry.
#[test]
fn a_cursor_tells_news_alone(rt: HostRuntime) {
    let alloc = rt.alloc();
    let holdings = purged(&rt, alloc);
    let news = walked(&rt, alloc, &holdings, 3);
    same(&rt, &news, &(1, [3, 3, 5], false, false));
    let all = walked(&rt, alloc, &holdings, 2);
    same(&rt, &all, &(1, [5, 0, 5], true, false));
}

/// The owner and the version of each item that a peer lacks, in an order.
fn versions_by<O: DeltaOrder>(
    alloc: Global,
    holdings: &Holdings,
    digest: &Digest,
    order: &O,
) -> Result<Vec<(Name, u64)>, Fault> {
    let offered = available(alloc, holdings, digest)?;
    let mut versions = Vec::new(alloc);
    for item in order.arrange(alloc, offered)?.iter() {
        versions.push((item.owner, item.version()))?;
    }
    Ok(versions)
}

/// The same node a, which also holds two writes of b.
fn purged_beside_two(rt: &impl Abort, alloc: Global) -> Holdings {
    let mut holdings = purged(rt, alloc);
    let block = block_of(rt, alloc, name(rt, b"b"), b"xy");
    apply(rt, &mut holdings, &block);
    holdings
}

/// In both orders, news without an entry is its owner's only item.
#[test]
fn news_alone_come_in_their_order(rt: HostRuntime) {
    let alloc = rt.alloc();
    let (a, b) = (name(&rt, b"a"), name(&rt, b"b"));
    let holdings = purged_beside_two(&rt, alloc);
    let digest = held_to(&rt, alloc, 3);
    let wide = got(&rt, versions_by(alloc, &holdings, &digest, &Breadth));
    same(&rt, &wide.as_slice(), &[(a, 5), (b, 1), (b, 2)].as_slice());
    let deep = got(&rt, versions_by(alloc, &holdings, &digest, &Depth));
    same(&rt, &deep.as_slice(), &[(b, 1), (b, 2), (a, 5)].as_slice());
}

/// The delta for an empty peer from a node that wrote x, removed it, and purged up to the removal.
fn emptied(rt: &impl Abort, alloc: Global) -> Delta {
    let mut table = Table::new(alloc);
    enter(rt, &mut table, b"x", 1, Slot::Set(Value::flag(true)));
    enter(rt, &mut table, b"x", 2, Slot::Removed);
    table.raise(2, 2);
    let holdings = got(rt, Holdings::new(alloc, name(rt, b"a"), table));
    let digest = held_to(rt, alloc, 0);
    got(rt, Breadth.delta(alloc, &holdings, &digest, BUDGET_LEAST))
}

/// A table without entries is sent in a block without entries, in a frame of 37 bytes, and the peer then holds it.
#[test]
fn a_block_without_entries_is_told(rt: HostRuntime) {
    let alloc = rt.alloc();
    let delta = emptied(&rt, alloc);
    same(&rt, &(delta.encoded_length() + HEADER_LENGTH), &37);
    let block = there(&rt, delta.blocks().first());
    let told = (block.floor(), block.after(), block.upto());
    same(&rt, &(told, block.entries().len()), &((2, 0, 2), 0));
    let peer = Holdings::new(alloc, name(&rt, b"b"), Table::new(alloc));
    let mut peer = got(&rt, peer);
    same(&rt, &apply(&rt, &mut peer, block), &BlockEnd::Taken(0));
    let a = name(&rt, b"a");
    same(&rt, &(peer.upto(&a), peer.floor(&a)), &(2, 2));
}
