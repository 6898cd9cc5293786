//! Stages of 4,096 keys that take the place of a table of 4,096 keys: as many entries together as there can be.
use crate::table::{share_staged, shown, swapped};
use crate::{got, name, push, same, same_at, shared, weighing};
use sb_holdings::{BlockEnd, Holdings};
use sb_table::{Stage, Table};
use sb_testing::letters_of;
use sb_types::{Block, SharedEntry};
use std::alloc::Global;
use std::process::Abort;

/// The keys of the numbers from the first to the last. Each is written at the version of its number and so many more,
/// which is its weight too.
type Numbers = (u64, u64, u64);

/// All keys that are held at first, at the versions from 1 to 4,096.
const HELD: Numbers = (1, 4_096, 0);

fn entries(rt: &impl Abort, alloc: Global, numbers: Numbers) -> Vec<SharedEntry> {
    let (first, last, later) = numbers;
    let mut entries = Vec::new(alloc);
    for number in first..=last {
        let version = number.saturating_add(later).max(1);
        let entry = weighing(rt, &letters_of(number), version, version);
        push(rt, &mut entries, shared(rt, alloc, entry));
    }
    entries
}

/// What is under the key of a number, if these are all keys.
fn wanted_under(number: u64, numbers: Numbers) -> Option<(u64, Option<u64>)> {
    let (first, last, later) = numbers;
    if number < first || last < number {
        return None;
    }
    let version = number.saturating_add(later);
    Some((version, Some(version)))
}

/// Asserts that a table has just these keys, of all that occur here.
fn assert_has(rt: &impl Abort, table: &Table, numbers: Numbers) {
    same(rt, &table.len(), &4_096);
    same(rt, &table.after(0).count(), &4_096);
    for number in 1..=8_192 {
        let found = shown(table, &letters_of(number));
        same_at(rt, &number, &found, &wanted_under(number, numbers));
    }
}

/// A stage of these keys. Its floor is 5,000, and its progress is the version of the last.
fn staged(rt: &impl Abort, alloc: Global, numbers: Numbers) -> Stage {
    let mut stage = Stage::new(alloc, 5_000);
    for entry in entries(rt, alloc, numbers) {
        got(rt, share_staged(&mut stage, &entry));
    }
    stage
}

/// Asserts that a stage of these keys, which has come to this version, leaves just them of a table of 4,096. The table and
/// the stage stay as they are.
fn assert_swaps(rt: &impl Abort, alloc: Global, numbers: Numbers, progress: u64) {
    let table = got(
        rt,
        Table::restored(alloc, 4_096, 0, entries(rt, alloc, HELD)),
    );
    let stage = staged(rt, alloc, numbers);
    let new = got(rt, swapped(alloc, &table, &stage));
    same(rt, &(new.upto(), new.floor()), &(progress, 5_000));
    assert_has(rt, &new, numbers);
    assert_has(rt, &table, HELD);
    same(rt, &stage.progress(), &progress);
}

#[test]
fn a_stage_brings_2048_keys_and_keeps_2048(rt: HostRuntime) {
    assert_swaps(&rt, rt.alloc(), (2_049, 6_144, 0), 6_144);
}

#[test]
fn a_stage_writes_4096_keys_again(rt: HostRuntime) {
    assert_swaps(&rt, rt.alloc(), (1, 4_096, 4_096), 8_192);
}

#[test]
fn a_stage_brings_4096_other_keys(rt: HostRuntime) {
    assert_swaps(&rt, rt.alloc(), (4_097, 8_192, 0), 8_192);
}

/// The floor of a block, `after`, and `upto`.
type Range = (u64, u64, u64);

/// How a block ends, how far a is then held, its floor, and the floor and the progress of its stage.
type Ending = (BlockEnd, u64, u64, Option<(u64, u64)>);

/// Asserts how a block of these keys of a ends, and that just the kept ones are shown then.
fn assert_takes(
    rt: &impl Abort,
    alloc: Global,
    holdings: &mut Holdings,
    block: (Range, Numbers),
    wanted: (Ending, Numbers),
) {
    let ((floor, after, upto), numbers) = block;
    let owner = name(rt, b"a");
    let entries = entries(rt, alloc, numbers);
    let block = got(rt, Block::new(owner, floor, after, upto, entries));
    let end = holdings.apply_block(&block);
    if let BlockEnd::NoMemory(_) = end {
        panic!(rt; "error: NoMemory");
    }
    let (upto, floor) = (holdings.upto(&owner), holdings.floor(&owner));
    let ending = (end, upto, floor, holdings.staged(&owner));
    let (wanted_ending, shown) = wanted;
    same(rt, &ending, &wanted_ending);
    let table = holdings.table(&owner).expect(rt, "error: no table");
    assert_has(rt, table, shown);
}

/// A block of 4,096 keys replaces the table at once: half of them were held, and the others are new. Then all are
/// written again, and come in two blocks. After the first of them the old table is shown.
#[test]
fn blocks_of_4096_keys_take_the_place_of_4096(rt: HostRuntime) {
    let alloc = rt.alloc();
    let mut held = got(
        &rt,
        Holdings::new(alloc, name(&rt, b"b"), Table::new(alloc)),
    );
    let all = (BlockEnd::Taken(4_096), 4_096, 0, None);
    assert_takes(&rt, alloc, &mut held, ((0, 0, 4_096), HELD), (all, HELD));
    let half = (2_049, 6_144, 0);
    let swapped = (BlockEnd::Taken(4_096), 6_144, 6_144, None);
    assert_takes(
        &rt,
        alloc,
        &mut held,
        ((6_144, 0, 6_144), half),
        (swapped, half),
    );
    let first = ((10_240, 0, 8_192), (2_049, 4_096, 4_096));
    let staged = (BlockEnd::Taken(2_048), 6_144, 6_144, Some((10_240, 8_192)));
    assert_takes(&rt, alloc, &mut held, first, (staged, half));
    let second = ((10_240, 8_192, 10_240), (4_097, 6_144, 4_096));
    let whole = (BlockEnd::Taken(2_048), 10_240, 10_240, None);
    let again = (2_049, 6_144, 4_096);
    assert_takes(&rt, alloc, &mut held, second, (whole, again));
}
