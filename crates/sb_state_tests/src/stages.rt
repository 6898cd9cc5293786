//! Holdings: what the shown table and a stage take of blocks with a purge floor.
use crate::table::{Listed, all_listed, shown};
use crate::{got, name, same, same_at};
use sb_holdings::{BlockEnd, Holdings};
use sb_table::Table;
use sb_types::{Block, Name};
use std::alloc::Global;
use std::process::Abort;

/// The floor of a block, `after`, and `upto`.
type Range = (u64, u64, u64);

/// Returns how a block of a's writes ends. Ends the test if there is no memory.
fn applied(
    rt: &impl Abort,
    alloc: Global,
    holdings: &mut Holdings,
    range: Range,
    writes: &[Listed],
) -> BlockEnd {
    let (floor, after, upto) = range;
    let entries = all_listed(rt, alloc, writes);
    let block = got(rt, Block::new(name(rt, b"a"), floor, after, upto, entries));
    match holdings.apply_block(&block) {
        BlockEnd::NoMemory(_) => panic!(rt; "error: NoMemory"),
        end => end,
    }
}

/// How far a is held, its floor, and the floor and the progress of its stage.
type Places = (u64, u64, Option<(u64, u64)>);

fn places(rt: &impl Abort, holdings: &Holdings) -> Places {
    let owner = name(rt, b"a");
    let (upto, floor) = (holdings.upto(&owner), holdings.floor(&owner));
    (upto, floor, holdings.staged(&owner))
}

/// Asserts how a block of a's writes ends, and the places at which it leaves a.
fn assert_takes(
    rt: &impl Abort,
    alloc: Global,
    holdings: &mut Holdings,
    block: (Range, &[Listed]),
    wanted: (BlockEnd, Places),
) {
    let (range, writes) = block;
    let end = applied(rt, alloc, holdings, range, writes);
    let found = (end, places(rt, holdings));
    same_at(rt, &range, &found, &wanted);
}

/// Returns the version under a letter of a, and whether it sets the key.
fn at(rt: &impl Abort, holdings: &Holdings, letter: u8) -> Option<(u64, bool)> {
    let table = holdings.table(&name(rt, b"a"))?;
    let (version, number) = shown(table, &[letter])?;
    Some((version, number.is_some()))
}

/// What is under v, w, x, y and z.
type Found = [Option<(u64, bool)>; 5];

fn assert_shows(rt: &impl Abort, holdings: &Holdings, wanted: Found) {
    let [v, w] = [at(rt, holdings, b'v'), at(rt, holdings, b'w')];
    let [x, y] = [at(rt, holdings, b'x'), at(rt, holdings, b'y')];
    same(rt, &[v, w, x, y, at(rt, holdings, b'z')], &wanted);
}

fn set(version: u64) -> Option<(u64, bool)> {
    Some((version, true))
}

fn none_held(rt: &impl Abort, alloc: Global) -> Holdings {
    got(rt, Holdings::new(alloc, name(rt, b"b"), Table::new(alloc)))
}

const X_1: Listed = (b'x', 1, Some(1));

const Y_2: Listed = (b'y', 2, Some(2));

const Y_GONE: Listed = (b'y', 2, None);

const Z_3: Listed = (b'z', 3, Some(3));

const W_4: Listed = (b'w', 4, Some(4));

/// b holds a up to 2, with x and y.
fn two_held(rt: &impl Abort, alloc: Global) -> Holdings {
    let mut held = none_held(rt, alloc);
    let taken = (BlockEnd::Taken(2), (2, 0, None));
    assert_takes(rt, alloc, &mut held, ((0, 0, 2), &[X_1, Y_2]), taken);
    held
}

/// The first block of floor 5 goes to a stage.
fn assert_begins(rt: &impl Abort, alloc: Global, held: &mut Holdings) {
    let taken = (BlockEnd::Taken(2), (2, 0, Some((5, 3))));
    assert_takes(rt, alloc, held, ((5, 0, 3), &[Y_2, Z_3]), taken);
    assert_shows(rt, held, [None, None, set(1), set(2), None]);
}

/// What joins neither the table nor the stage changes nothing.
fn assert_gaps(rt: &impl Abort, alloc: Global, held: &mut Holdings) {
    let gap = (BlockEnd::Gap, (2, 0, Some((5, 3))));
    assert_takes(rt, alloc, held, ((5, 4, 5), &[]), gap);
    assert_takes(rt, alloc, held, ((5, 0, 3), &[Y_2, Z_3]), gap);
    assert_takes(rt, alloc, held, ((4, 0, 5), &[Y_2]), gap);
    assert_takes(rt, alloc, held, ((0, 3, 4), &[W_4]), gap);
}

/// The last block of floor 5 brings the stage to its floor.
fn assert_ends(rt: &impl Abort, alloc: Global, held: &mut Holdings) {
    let taken = (BlockEnd::Taken(1), (5, 5, None));
    assert_takes(rt, alloc, held, ((5, 3, 5), &[W_4]), taken);
    assert_shows(rt, held, [None, set(4), None, set(2), set(3)]);
    let stale = (BlockEnd::Stale, (5, 5, None));
    assert_takes(rt, alloc, held, ((0, 0, 2), &[X_1, Y_2]), stale);
    assert_takes(rt, alloc, held, ((5, 0, 3), &[Y_2, Z_3]), stale);
}

#[test]
fn a_stage_is_shown_once_it_has_come_to_its_floor(rt: HostRuntime) {
    let mut held = two_held(&rt, rt.alloc());
    assert_begins(&rt, rt.alloc(), &mut held);
    assert_gaps(&rt, rt.alloc(), &mut held);
    assert_ends(&rt, rt.alloc(), &mut held);
}

/// The stage has no key of what was held. It has v at 1, and the swap does not bring that in.
#[test]
fn a_swap_brings_in_nothing_up_to_what_was_held(rt: HostRuntime) {
    let mut held = none_held(&rt, rt.alloc());
    let two = (BlockEnd::Taken(1), (2, 0, None));
    assert_takes(&rt, rt.alloc(), &mut held, ((0, 0, 2), &[Y_2]), two);
    let first = (b'v', 1, Some(1));
    let taken = (BlockEnd::Taken(2), (3, 3, None));
    assert_takes(
        &rt,
        rt.alloc(),
        &mut held,
        ((3, 0, 3), &[first, Z_3]),
        taken,
    );
    assert_shows(&rt, &held, [None, None, None, None, set(3)]);
}

/// Returns whether an owner has no key, if it is held.
fn is_empty(holdings: &Holdings, owner: &Name) -> Option<bool> {
    match holdings.table(owner) {
        Some(table) => Some(table.is_empty()),
        None => None,
    }
}

/// What a block without entries changes: for a new owner, and for one that is held.
#[test]
fn a_block_may_tell_of_a_floor_alone(rt: HostRuntime) {
    let mut held = none_held(&rt, rt.alloc());
    let taken = (BlockEnd::Taken(0), (2, 2, None));
    assert_takes(&rt, rt.alloc(), &mut held, ((2, 0, 2), &[]), taken);
    let owner = name(&rt, b"a");
    same(&rt, &is_empty(&held, &owner), &Some(true));
    let further = (BlockEnd::Taken(0), (4, 2, None));
    assert_takes(&rt, rt.alloc(), &mut held, ((0, 2, 4), &[]), further);
}

#[test]
fn a_floor_up_to_what_is_held_lets_removals_go(rt: HostRuntime) {
    let mut held = none_held(&rt, rt.alloc());
    let three = (BlockEnd::Taken(3), (3, 0, None));
    assert_takes(
        &rt,
        rt.alloc(),
        &mut held,
        ((0, 0, 3), &[X_1, Y_GONE, Z_3]),
        three,
    );
    assert_shows(&rt, &held, [None, None, set(1), Some((2, false)), set(3)]);
    let raised = (BlockEnd::Taken(1), (4, 2, None));
    assert_takes(&rt, rt.alloc(), &mut held, ((2, 3, 4), &[W_4]), raised);
    assert_shows(&rt, &held, [None, set(4), set(1), None, set(3)]);
}

/// A stage of a higher floor replaces one of a lower floor. It goes once the shown table has reached its floor.
#[test]
fn a_stage_is_dropped_for_a_higher_floor_or_a_table_as_far(rt: HostRuntime) {
    let mut held = two_held(&rt, rt.alloc());
    assert_begins(&rt, rt.alloc(), &mut held);
    let anew = (BlockEnd::Taken(1), (2, 0, Some((7, 2))));
    assert_takes(&rt, rt.alloc(), &mut held, ((7, 0, 2), &[Y_2]), anew);
    let short = (BlockEnd::Taken(1), (6, 0, Some((7, 2))));
    assert_takes(&rt, rt.alloc(), &mut held, ((0, 2, 6), &[Z_3]), short);
    let as_far = (BlockEnd::Taken(0), (7, 0, None));
    assert_takes(&rt, rt.alloc(), &mut held, ((0, 6, 7), &[]), as_far);
}
