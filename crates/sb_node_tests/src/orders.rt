//! The order in which items come and are cut, by breadth and by depth, also for 1,000 owners.
ghost use Rattle.std.specs.Prelude.{◌≤◌};
ghost use Rattle.sb_budget.specs.Cut.{CanCut};

use crate::making::{apply, arranged, block_of, entries_in, items, longest, nothing, tells};
use crate::{got, key, name, push_entry, same, same_at};
use sb_breadth::Breadth;
use sb_budget::{DeltaOrder, Offered, cut};
use sb_depth::Depth;
use sb_holdings::Holdings;
use sb_table::Table;
use sb_testing::letters_of;
use sb_types::{BUDGET_LEAST, BUDGET_MOST, Block, Delta, Entry, HEADER_LENGTH, Name, Order};
use std::alloc::Global;
use std::process::Abort;

/// The block of an owner's first writes: texts of 512 bytes under keys of 64 of these letters. Each entry has 588
/// bytes.
fn long_block(rt: &impl Abort, alloc: Global, owner: Name, letters: &[u8]) -> Block {
    let mut entries = Vec::new(alloc);
    for (index, letter) in letters.iter().enumerate() {
        let key = key(rt, &[*letter; 64]);
        let entry = Entry::new(key, index as u64 + 1, longest(rt, alloc));
        push_entry(rt, &mut entries, entry);
    }
    got(rt, Block::new(owner, 0, 0, letters.len() as u64, entries))
}

/// Enters such a block.
fn enter(rt: &impl Abort, alloc: Global, holdings: &mut Holdings, owner: Name, letters: &[u8]) {
    apply(rt, holdings, &long_block(rt, alloc, owner, letters));
}

/// The holdings of n, which has written nothing.
fn empty(rt: &impl Abort, alloc: Global) -> Holdings {
    got(rt, Holdings::new(alloc, name(rt, b"n"), Table::new(alloc)))
}

/// An owner that wrote three keys, and others that wrote one each.
fn one_and_others(rt: &impl Abort, alloc: Global, first: Name, others: &[Name]) -> Holdings {
    let mut holdings = empty(rt, alloc);
    enter(rt, alloc, &mut holdings, first, b"xyz");
    for owner in others {
        enter(rt, alloc, &mut holdings, *owner, b"x");
    }
    holdings
}

/// 1,000 owners with names of four letters, each with two writes of 12 bytes.
fn thousand_owners(rt: &impl Abort, alloc: Global) -> Holdings {
    let mut holdings = empty(rt, alloc);
    for number in 0..1_000_u64 {
        let owner = name(rt, &letters_of(number));
        apply(rt, &mut holdings, &block_of(rt, alloc, owner, b"xy"));
    }
    holdings
}

/// All that is held, in an order.
fn arranged_by(rt: &impl Abort, alloc: Global, holdings: &Holdings, order: Order) -> Vec<Offered>
    ensures { CanCut result.items }
{
    let digest = nothing(rt, alloc, false);
    match order {
        Order::Breadth => items(rt, arranged(alloc, holdings, &digest, &Breadth)),
        Order::Depth => items(rt, arranged(alloc, holdings, &digest, &Depth)),
    }
}

fn cut_by(rt: &impl Abort, alloc: Global, holdings: &Holdings, order: Order, budget: u64) -> Delta
    requires least { BUDGET_LEAST ≤ budget }
    requires most { budget ≤ BUDGET_MOST }
{
    got(
        rt,
        cut(alloc, arranged_by(rt, alloc, holdings, order), budget),
    )
}

/// What a peer that holds nothing lacks, made without a list of what does not fit.
fn delta_by(rt: &impl Abort, alloc: Global, holdings: &Holdings, order: Order, budget: u64) -> Delta
    requires least { BUDGET_LEAST ≤ budget }
    requires most { budget ≤ BUDGET_MOST }
{
    let digest = nothing(rt, alloc, false);
    let delta = match order {
        Order::Breadth => Breadth.delta(alloc, holdings, &digest, budget),
        Order::Depth => Depth.delta(alloc, holdings, &digest, budget),
    };
    got(rt, delta)
}

/// Ends the test unless an owner with three writes and others with one come in this order.
fn come(
    rt: &impl Abort,
    alloc: Global,
    order: Order,
    first: Name,
    others: &[Name],
    wanted: &[(Name, u64)],
) {
    let holdings = one_and_others(rt, alloc, first, others);
    let ordered = arranged_by(rt, alloc, &holdings, order);
    let mut are_equal = ordered.len() == wanted.len();
    for (item, place) in ordered.iter().zip(wanted) {
        are_equal &= (item.owner, item.version()) == *place;
    }
    same_at(rt, &order, &are_equal, &true);
}

#[test]
fn items_come_in_their_order(rt: HostRuntime) {
    let alloc = rt.alloc();
    let (a, b, c) = (name(&rt, b"a"), name(&rt, b"b"), name(&rt, b"c"));
    let wide_of_two = [(a, 1), (b, 1), (a, 2), (a, 3)];
    let wide_of_three = [(a, 1), (b, 1), (c, 1), (b, 2), (b, 3)];
    let deep_of_two = [(a, 1), (a, 2), (a, 3), (b, 1)];
    let deep_of_three = [(b, 1), (b, 2), (b, 3), (a, 1), (c, 1)];
    come(&rt, alloc, Order::Breadth, a, &[b], &wide_of_two);
    come(&rt, alloc, Order::Breadth, b, &[c, a], &wide_of_three);
    come(&rt, alloc, Order::Depth, a, &[b], &deep_of_two);
    come(&rt, alloc, Order::Depth, b, &[c, a], &deep_of_three);
}

/// Ends the test unless two deltas contain just these writes, in a frame of this length. One is cut from a list, and
/// the other is made without it.
fn tell(
    rt: &impl Abort,
    alloc: Global,
    holdings: &Holdings,
    order: Order,
    budget: u64,
    length: u64,
    wanted: &[(Name, u64)],
)
    requires least { BUDGET_LEAST ≤ budget }
    requires most { budget ≤ BUDGET_MOST }
{
    let listed = tells(&cut_by(rt, alloc, holdings, order, budget), wanted);
    let walked = tells(&delta_by(rt, alloc, holdings, order, budget), wanted);
    same_at(
        rt,
        &budget,
        &[listed, walked],
        &[(length, true), (length, true)],
    );
}

#[test]
fn what_fits_is_told_of(rt: HostRuntime) {
    let alloc = rt.alloc();
    let (a, b) = (name(&rt, b"a"), name(&rt, b"b"));
    let holdings = one_and_others(&rt, alloc, a, &[b]);
    let deep = [(a, 1), (a, 2)];
    tell(
        &rt,
        alloc,
        &holdings,
        Order::Breadth,
        1_241,
        1_241,
        &[(a, 1), (b, 1)],
    );
    tell(&rt, alloc, &holdings, Order::Breadth, 1_240, 625, &[(a, 1)]);
    tell(&rt, alloc, &holdings, Order::Depth, 1_241, 1_213, &deep);
    tell(&rt, alloc, &holdings, Order::Depth, 1_240, 1_213, &deep);
}

/// How many blocks and entries a delta has, and how long its frame is.
type Extent = (usize, usize, u64);

fn extent(delta: &Delta) -> Extent {
    let length = delta.encoded_length() + HEADER_LENGTH;
    (delta.blocks().len(), entries_in(delta), length)
}

/// Ends the test unless two deltas have this extent. One is cut from a list, and the other is made without it.
fn extend(
    rt: &impl Abort,
    alloc: Global,
    holdings: &Holdings,
    order: Order,
    budget: u64,
    wanted: Extent,
)
    requires least { BUDGET_LEAST ≤ budget }
    requires most { budget ≤ BUDGET_MOST }
{
    let listed = extent(&cut_by(rt, alloc, holdings, order, budget));
    let walked = extent(&delta_by(rt, alloc, holdings, order, budget));
    same_at(rt, &budget, &[listed, walked], &[wanted, wanted]);
}

#[test]
fn a_thousand_owners_are_cut(rt: HostRuntime) {
    let alloc = rt.alloc();
    let (wide, deep) = (Order::Breadth, Order::Depth);
    let holdings = thousand_owners(&rt, alloc);
    extend(&rt, alloc, &holdings, wide, 65_536, (1_000, 2_000, 55_009));
    extend(&rt, alloc, &holdings, wide, 46_000, (1_000, 1_249, 45_997));
    extend(&rt, alloc, &holdings, wide, 1_024, (23, 23, 998));
    extend(&rt, alloc, &holdings, deep, 65_536, (1_000, 2_000, 55_009));
    extend(&rt, alloc, &holdings, deep, 29_984, (545, 1_090, 29_984));
    extend(&rt, alloc, &holdings, deep, 29_983, (545, 1_089, 29_972));
    extend(&rt, alloc, &holdings, deep, 1_024, (18, 36, 999));
}

/// What a wrote under x and y, and b under x.
fn two_and_one(rt: &impl Abort, alloc: Global) -> Holdings {
    let mut holdings = empty(rt, alloc);
    enter(rt, alloc, &mut holdings, name(rt, b"a"), b"xy");
    enter(rt, alloc, &mut holdings, name(rt, b"b"), b"x");
    holdings
}

/// Returns whether what a and b wrote comes with these versions, in an order.
fn come_by<O: DeltaOrder>(rt: &impl Abort, alloc: Global, order: &O, wanted: &[u64]) -> bool {
    let holdings = two_and_one(rt, alloc);
    let digest = nothing(rt, alloc, true);
    let ordered = got(rt, arranged(alloc, &holdings, &digest, order));
    let mut are_equal = ordered.len() == wanted.len();
    for (item, version) in ordered.iter().zip(wanted) {
        are_equal &= item.version() == *version;
    }
    are_equal
}

/// Runs the example of `Breadth`.
#[test]
fn example_of_breadth(rt: HostRuntime) {
    let are_right = come_by(&rt, rt.alloc(), &Breadth, &[1, 1, 2]);
    same(&rt, &are_right, &true);
}

/// Runs the example of `Depth`.
#[test]
fn example_of_depth(rt: HostRuntime) {
    let are_right = come_by(&rt, rt.alloc(), &Depth, &[1, 2, 1]);
    same(&rt, &are_right, &true);
}
