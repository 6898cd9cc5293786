//! The examples at the top of the crates of cuts, orders and the node.
use crate::making::block_of;
use crate::node::{log_of, node};
use crate::{got, key, name, same};
use sb_breadth::Breadth;
use sb_budget::{DeltaOrder, available, cut};
use sb_depth::Depth;
use sb_digest::Digest;
use sb_holdings::{BlockEnd, Holdings, Report};
use sb_log::WriteLog;
use sb_node::NodeCore;
use sb_table::Table;
use sb_types::{BUDGET_LEAST, Delta, Entry, Fault, Key, Name, Order, Slot, Value};
use std::alloc::Global;
use std::process::Abort;

/// The holdings of the node `a`, which made one write.
fn one_write(alloc: Global) -> Result<Holdings, Fault> {
    let mut table = Table::new(alloc);
    let key = Key::read(b"web/up")?;
    table.push(Entry::new(key, 1, Slot::Set(Value::flag(true))))?;
    Holdings::new(alloc, Name::read(b"a")?, table)
}

/// The delta for an empty peer, within the least budget.
fn first_delta(alloc: Global, holdings: &Holdings) -> Result<Delta, Fault> {
    let nothing = Digest::new(false, None, None, Vec::new(alloc))?;
    let offered = available(alloc, holdings, &nothing)?;
    cut(alloc, offered, BUDGET_LEAST)
}

#[test]
fn example_of_sb_budget(rt: HostRuntime) {
    let holdings = got(&rt, one_write(rt.alloc()));
    let delta = got(&rt, first_delta(rt.alloc(), &holdings));
    // 3 bytes, the block's 28, and the entry's 17.
    let found = (delta.blocks().len(), delta.encoded_length());
    same(&rt, &found, &(1, 48));
}

/// The owner and the version of each entry that an empty peer lacks, in the order of breadth.
fn ordered_by_breadth(alloc: Global, holdings: &Holdings) -> Result<Vec<(Name, u64)>, Fault> {
    let nothing = Digest::new(false, None, None, Vec::new(alloc))?;
    let offered = available(alloc, holdings, &nothing)?;
    let mut versions = Vec::new(alloc);
    for item in Breadth.arrange(alloc, offered)?.iter() {
        versions.push((item.owner, item.version()))?;
    }
    Ok(versions)
}

/// What the node n holds of a, which wrote twice, and of b, which wrote three times.
fn of_a_and_b(rt: &impl Abort, alloc: Global, [a, b]: [Name; 2]) -> Holdings {
    let mut holdings = got(rt, Holdings::new(alloc, name(rt, b"n"), Table::new(alloc)));
    let first = holdings.apply_block(&block_of(rt, alloc, a, b"xy"));
    let second = holdings.apply_block(&block_of(rt, alloc, b, b"xyz"));
    let wanted = [BlockEnd::Taken(2), BlockEnd::Taken(3)];
    same(rt, &[first, second], &wanted);
    holdings
}

#[test]
fn example_of_sb_breadth(rt: HostRuntime) {
    let [a, b] = [name(&rt, b"a"), name(&rt, b"b")];
    let holdings = of_a_and_b(&rt, rt.alloc(), [a, b]);
    let ordered = got(&rt, ordered_by_breadth(rt.alloc(), &holdings));
    let wanted = [(a, 1), (b, 1), (a, 2), (b, 2), (b, 3)];
    same(&rt, &ordered.as_slice(), &wanted.as_slice());
}

/// The owner and the version of each entry that an empty peer lacks, in the order of depth.
fn ordered_by_depth(alloc: Global, holdings: &Holdings) -> Result<Vec<(Name, u64)>, Fault> {
    let nothing = Digest::new(false, None, None, Vec::new(alloc))?;
    let offered = available(alloc, holdings, &nothing)?;
    let mut versions = Vec::new(alloc);
    for item in Depth.arrange(alloc, offered)?.iter() {
        versions.push((item.owner, item.version()))?;
    }
    Ok(versions)
}

#[test]
fn example_of_sb_depth(rt: HostRuntime) {
    let [a, b] = [name(&rt, b"a"), name(&rt, b"b")];
    let holdings = of_a_and_b(&rt, rt.alloc(), [a, b]);
    let ordered = got(&rt, ordered_by_depth(rt.alloc(), &holdings));
    let wanted = [(b, 1), (b, 2), (b, 3), (a, 1), (a, 2)];
    same(&rt, &ordered.as_slice(), &wanted.as_slice());
}

/// Makes an own write: it stands in the log before the node enters it.
fn write<L: WriteLog>(
    node: &mut NodeCore,
    log: &mut L,
    key: &Key,
    slot: &Slot,
) -> Result<(), Fault> {
    let committed = log.put(key, slot)?;
    node.take_own(&committed)
}

/// Tells a peer what it lacks.
fn tell(node: &NodeCore, peer: &mut NodeCore) -> Result<Report, Fault> {
    let digest = peer.digest(None, true)?;
    let delta = node.deltas(&digest)?;
    peer.apply(&delta)
}

#[test]
fn example_of_sb_node(rt: HostRuntime) {
    let alloc = rt.alloc();
    let [a, b] = [name(&rt, b"a"), name(&rt, b"b")];
    let mut first = node(&rt, alloc, a, 1_024, Order::Breadth);
    let mut second = node(&rt, alloc, b, 1_024, Order::Breadth);
    let mut log = log_of(&rt, alloc, a);
    let slot = Slot::Set(Value::flag(true));
    got(
        &rt,
        write(&mut first, &mut log, &key(&rt, b"web/up"), &slot),
    );
    let report = got(&rt, tell(&first, &mut second));
    same(&rt, &report.ends(), &[BlockEnd::Taken(1)].as_slice());
    same(&rt, &second.upto(&a), &1);
}
