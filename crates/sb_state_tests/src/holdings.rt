//! Holdings: what they take of blocks and of own writes, case by case, also at the greatest sizes.
ghost use Rattle.std.specs.Prelude.{◌≤◌};

use crate::{entry, got, holds, key, name, one, push, same, same_at, settled, shared, weighing};
use sb_holdings::{BlockEnd, Holdings, Report};
use sb_table::Table;
use sb_testing::letters_of;
use sb_types::{Block, Entry, Fault, Name, SharedEntry, Slot, Value};
use std::alloc::Global;
use std::process::Abort;

/// A write of at least version 1. It sets its version as a weight, or removes the key.
fn write(rt: &impl Abort, text: &[u8], version: u64, is_set: bool) -> Entry {
    let at_least_1 = version.max(1);
    if is_set {
        weighing(rt, text, at_least_1, version)
    } else {
        entry(rt, text, at_least_1, Slot::Removed)
    }
}

/// The version and the weight under a key.
type FoundWeight = Option<(u64, Option<u64>)>;

fn weight_at(holdings: &Holdings, owner: &Name, key: &[u8]) -> FoundWeight {
    crate::table::shown(holdings.table(owner)?, key)
}

/// A write of a version under the key of a number.
fn numbered(rt: &impl Abort, version: u64, key: u64) -> Entry {
    write(rt, &letters_of(key), version, true)
}

/// A run of a block: `after`, its first version, how many versions it has, and the number of its first key. All keys
/// differ.
type Run = (u64, u32, u32, u32);

fn entries(rt: &impl Abort, alloc: Global, run: Run) -> Vec<SharedEntry> {
    let (_, first, count, key) = run;
    let mut entries = Vec::new(alloc);
    for index in 0..count {
        let place = u64::from(index);
        let entry = numbered(rt, u64::from(first) + place, u64::from(key) + place);
        push(rt, &mut entries, shared(rt, alloc, entry));
    }
    entries
}

fn block_of(rt: &impl Abort, alloc: Global, owner: Name, run: Run) -> Block {
    let (after, first, count, _) = run;
    let upto = (u64::from(first) + u64::from(count)).saturating_sub(1);
    got(
        rt,
        Block::new(owner, 0, after, upto, entries(rt, alloc, run)),
    )
}

/// Returns how a block ends. Ends the test if there is no memory.
fn applied(rt: &impl Abort, holdings: &mut Holdings, block: &Block) -> BlockEnd {
    match holdings.apply_block(block) {
        BlockEnd::NoMemory(_) => panic!(rt; "error: NoMemory"),
        end => end,
    }
}

fn holdings_of(rt: &impl Abort, alloc: Global, me: &[u8]) -> Holdings {
    got(rt, Holdings::new(alloc, name(rt, me), Table::new(alloc)))
}

/// Returns how many keys an owner has, if it is known.
fn key_count(holdings: &Holdings, owner: &Name) -> Option<usize> {
    match holdings.table(owner) {
        Some(table) => Some(table.len()),
        None => None,
    }
}

/// How a block ends, how far its owner is then held, and how many keys the owner has, if it is known.
type Ending = (BlockEnd, u64, Option<usize>);

fn take(rt: &impl Abort, holdings: &mut Holdings, block: &Block) -> Ending {
    let end = applied(rt, holdings, block);
    let owner = *block.owner();
    (end, holdings.upto(&owner), key_count(holdings, &owner))
}

/// Asserts how a block of an owner ends.
fn assert_takes(
    rt: &impl Abort,
    alloc: Global,
    holdings: &mut Holdings,
    owner: &[u8],
    run: Run,
    wanted: Ending,
) {
    let block = block_of(rt, alloc, name(rt, owner), run);
    same_at(rt, &run, &take(rt, holdings, &block), &wanted);
}

/// A block of a's first write, a flag.
fn first_flag(rt: &impl Abort, alloc: Global) -> Block {
    let flag = entry(rt, b"up", 1, Slot::Set(Value::flag(true)));
    let flag = shared(rt, alloc, flag);
    got(
        rt,
        Block::new(name(rt, b"a"), 0, 0, 1, one(rt, alloc, flag)),
    )
}

/// Returns how a block ends, how it ends the second time, and how far its owner is then held.
fn ends_of(holdings: &mut Holdings, block: &Block) -> (BlockEnd, BlockEnd, u64) {
    let end = holdings.apply_block(block);
    let again = holdings.apply_block(block);
    (end, again, holdings.upto(block.owner()))
}

/// Runs the example of `Holdings`.
#[test]
fn example_of_holdings(rt: HostRuntime) {
    let block = first_flag(&rt, rt.alloc());
    let mut holdings = holdings_of(&rt, rt.alloc(), b"b");
    let found = ends_of(&mut holdings, &block);
    same(&rt, &found, &(BlockEnd::Taken(1), BlockEnd::Stale, 1));
}

/// Asserts what b holds after each of five blocks of a.
fn assert_joins(rt: &impl Abort, alloc: Global, held: &mut Holdings) {
    let (gap, stale) = ((BlockEnd::Gap, 0, None), (BlockEnd::Stale, 3, Some(3)));
    let [two, third] = [
        (BlockEnd::Taken(2), 2, Some(2)),
        (BlockEnd::Taken(1), 3, Some(3)),
    ];
    let fourth = (BlockEnd::Taken(1), 4, Some(4));
    assert_takes(rt, alloc, held, b"a", (2, 3, 1, 3), gap);
    assert_takes(rt, alloc, held, b"a", (0, 1, 2, 1), two);
    assert_takes(rt, alloc, held, b"a", (2, 3, 1, 3), third);
    assert_takes(rt, alloc, held, b"a", (2, 3, 1, 3), stale);
    assert_takes(rt, alloc, held, b"a", (0, 1, 4, 1), fourth);
}

#[test]
fn blocks_join_on_or_change_nothing(rt: HostRuntime) {
    let mut holdings = holdings_of(&rt, rt.alloc(), b"b");
    assert_joins(&rt, rt.alloc(), &mut holdings);
}

/// Returns how the block of one write ends, and what is then shown of its owner under x and y.
fn take_entry(
    rt: &impl Abort,
    holdings: &mut Holdings,
    block: &Block,
) -> (BlockEnd, FoundWeight, FoundWeight) {
    let end = applied(rt, holdings, block);
    let owner = *block.owner();
    let x = weight_at(holdings, &owner, b"x");
    (end, x, weight_at(holdings, &owner, b"y"))
}

/// Asserts how an owner's write is taken. It has version 2 if it comes after 0, and else version 3.
fn assert_shown(
    rt: &impl Abort,
    alloc: Global,
    holdings: &mut Holdings,
    write: (&[u8], &[u8], u64, bool),
    wanted: (BlockEnd, FoundWeight, FoundWeight),
) {
    let (owner, key, after, is_set) = write;
    let version = if after == 0 { 2 } else { 3 };
    let entry = shared(rt, alloc, self::write(rt, key, version, is_set));
    let entries = one(rt, alloc, entry);
    let block = got(rt, Block::new(name(rt, owner), 0, after, version, entries));
    same(rt, &take_entry(rt, holdings, &block), &wanted);
}

/// Asserts what n holds as writes of a and b come in turn.
fn assert_all_shown(rt: &impl Abort, alloc: Global, held: &mut Holdings) {
    let taken = BlockEnd::Taken(1);
    let (second, third, gone) = (Some((2, Some(2))), Some((3, Some(3))), Some((3, None)));
    let [a, b, x, y] = [b"a".as_slice(), b"b", b"x", b"y"];
    assert_shown(
        rt,
        alloc,
        held,
        (a, y, 1, true),
        (BlockEnd::Gap, None, None),
    );
    assert_shown(rt, alloc, held, (a, y, 0, true), (taken, None, second));
    assert_shown(rt, alloc, held, (a, x, 2, true), (taken, third, second));
    assert_shown(rt, alloc, held, (b, x, 0, true), (taken, second, None));
    assert_shown(rt, alloc, held, (b, x, 2, false), (taken, gone, None));
    assert_shown(
        rt,
        alloc,
        held,
        (b, x, 0, true),
        (BlockEnd::Stale, gone, None),
    );
}

/// Superseded versions may be missing, and a removed key keeps a tombstone (the marker of the removal).
#[test]
fn keys_show_their_last_write(rt: HostRuntime) {
    let mut holdings = holdings_of(&rt, rt.alloc(), b"n");
    assert_all_shown(&rt, rt.alloc(), &mut holdings);
}

/// Asserts the answer to an own write, and what it leaves of its key.
fn assert_own(
    rt: &impl Abort,
    holdings: &mut Holdings,
    write: (&[u8], u64, bool),
    answer: Result<(), Fault>,
    shown: FoundWeight,
) {
    let (key, version, is_set) = write;
    let entry = self::write(rt, key, version, is_set);
    let found = settled(rt, holdings.push_own(entry));
    let me = *holdings.me();
    let held = (found, weight_at(holdings, &me, key));
    same_at(rt, &version, &held, &(answer, shown));
}

/// Returns the own name, how far it is held, and how many keys it has.
fn own(holdings: &Holdings) -> (Name, u64, Option<usize>) {
    let me = *holdings.me();
    (me, holdings.upto(&me), key_count(holdings, &me))
}

/// Asserts what m holds as its own writes and blocks of its name come in turn.
fn assert_in_turn(rt: &impl Abort, alloc: Global, held: &mut Holdings) {
    same(rt, &own(held), &(name(rt, b"m"), 0, Some(0)));
    let first = Some((1, Some(1)));
    assert_own(rt, held, (b"w", 2, true), Err(Fault::OutOfTurn(1)), None);
    assert_own(rt, held, (b"w", 1, true), Ok(()), first);
    assert_own(rt, held, (b"w", 1, true), Err(Fault::OutOfTurn(2)), first);
    let ahead = (BlockEnd::OwnAhead(2), 1, Some(1));
    assert_takes(
        rt,
        alloc,
        held,
        b"m",
        (0, 1, 1, 1),
        (BlockEnd::Own, 1, Some(1)),
    );
    assert_takes(rt, alloc, held, b"m", (1, 2, 1, 2), ahead);
}

#[test]
fn own_writes_come_in_turn(rt: HostRuntime) {
    let mut holdings = holdings_of(&rt, rt.alloc(), b"m");
    assert_in_turn(&rt, rt.alloc(), &mut holdings);
}

/// Enters own writes of these versions, each under another key.
fn write_own(rt: &impl Abort, holdings: &mut Holdings, count: u64) {
    for version in 1..=count {
        got(rt, holdings.push_own(numbered(rt, version, version)));
    }
}

#[test]
fn own_keys_have_a_limit(rt: HostRuntime) {
    let mut holdings = holdings_of(&rt, rt.alloc(), b"m");
    write_own(&rt, &mut holdings, 4_096);
    let full = Err(Fault::TableFull);
    assert_own(&rt, &mut holdings, (b"w", 4_097, true), full, None);
    let (first, gone) = (letters_of(1), Some((4_097, None)));
    assert_own(&rt, &mut holdings, (&first, 4_097, false), Ok(()), gone);
}

/// Takes the first write of each owner whose number is below this one.
fn fill_owners(rt: &impl Abort, alloc: Global, holdings: &mut Holdings, count: u64) {
    let first = (BlockEnd::Taken(1), 1, Some(1));
    for number in 1..count {
        assert_takes(
            rt,
            alloc,
            holdings,
            &letters_of(number),
            (0, 1, 1, 1),
            first,
        );
    }
}

/// Asserts what is then refused of another owner, and taken of the first.
fn assert_no_room(rt: &impl Abort, alloc: Global, held: &mut Holdings) {
    let (full, gap) = ((BlockEnd::OwnersFull, 0, None), (BlockEnd::Gap, 0, None));
    let second = (BlockEnd::Taken(1), 2, Some(2));
    assert_takes(rt, alloc, held, b"zz", (0, 1, 1, 1), full);
    assert_takes(rt, alloc, held, b"zz", (2, 3, 1, 3), gap);
    same(rt, &held.owners().count(), &1_024);
    assert_takes(rt, alloc, held, &letters_of(1), (1, 2, 1, 2), second);
}

#[test]
fn owners_have_a_limit(rt: HostRuntime) {
    let mut holdings = holdings_of(&rt, rt.alloc(), b"m");
    fill_owners(&rt, rt.alloc(), &mut holdings, 1_024);
    assert_no_room(&rt, rt.alloc(), &mut holdings);
}

/// Asserts what b holds after all keys of a came, and after they came again.
fn assert_filled(rt: &impl Abort, alloc: Global, held: &mut Holdings) {
    let all = Some(4_096);
    let most = (BlockEnd::Taken(4_094), 4_094, Some(4_094));
    let [two_more, none_more] = [
        (BlockEnd::TooManyKeys(2), 4_096, all),
        (BlockEnd::TooManyKeys(0), 4_096, all),
    ];
    let whole = BlockEnd::Taken(4_096);
    assert_takes(rt, alloc, held, b"a", (0, 1, 4_094, 1), most);
    assert_takes(rt, alloc, held, b"a", (4_092, 4_093, 7, 4_093), two_more);
    assert_takes(rt, alloc, held, b"a", (4_092, 4_093, 7, 4_093), none_more);
    let two_again = (BlockEnd::Taken(2), 4_098, all);
    assert_takes(rt, alloc, held, b"a", (4_096, 4_097, 2, 1), two_again);
    assert_takes(
        rt,
        alloc,
        held,
        b"a",
        (4_098, 4_099, 4_096, 1),
        (whole, 8_194, all),
    );
    assert_takes(
        rt,
        alloc,
        held,
        b"a",
        (8_194, 8_195, 4_096, 1),
        (whole, 12_290, all),
    );
}

/// Asserts that the key of a number shows this version.
fn assert_version(rt: &impl Abort, holdings: &Holdings, number: u64, version: u64) {
    let shown = weight_at(holdings, &name(rt, b"a"), &letters_of(number));
    same_at(rt, &number, &shown, &Some((version, Some(version))));
}

/// All 4,096 keys of one owner are written again, up to versions above 10,000.
#[test]
fn keys_have_a_limit(rt: HostRuntime) {
    let mut holdings = holdings_of(&rt, rt.alloc(), b"b");
    assert_filled(&rt, rt.alloc(), &mut holdings);
    assert_version(&rt, &holdings, 1, 8_195);
    assert_version(&rt, &holdings, 2, 8_196);
    assert_version(&rt, &holdings, 4_096, 12_290);
}

/// A block may have 65,535 entries. Of new keys, 4,096 are taken.
#[test]
fn the_greatest_block_is_taken(rt: HostRuntime) {
    let mut holdings = holdings_of(&rt, rt.alloc(), b"b");
    let greatest = (BlockEnd::TooManyKeys(4_096), 4_096, Some(4_096));
    assert_takes(
        &rt,
        rt.alloc(),
        &mut holdings,
        b"a",
        (0, 1, 65_535, 1),
        greatest,
    );
}

/// Returns whether these are all owners.
fn owners_are(holdings: &Holdings, owners: &[&[u8]]) -> bool {
    let mut are_owners = true;
    let mut wanted = owners.iter().copied();
    for owner in holdings.owners() {
        are_owners &= Some(owner.bytes()) == wanted.next();
    }
    are_owners && wanted.next().is_none()
}

/// Returns whether these are the owners from a name on, with how far each is held.
fn later_are(holdings: &Holdings, first: &Name, later: &[(&[u8], u64)]) -> bool {
    let mut are_later = true;
    let mut wanted = later.iter().copied();
    for (owner, table) in holdings.tables_from(Some(first)) {
        are_later &= Some((owner.bytes(), table.upto())) == wanted.next();
    }
    are_later && wanted.next().is_none()
}

/// Returns how many owners there are from the first on.
fn owner_count(holdings: &Holdings) -> u64 {
    let mut count = 0_u64;
    for _ in holdings.tables_from(None) {
        count = count.wrapping_add(1);
    }
    count
}

/// Takes the first two writes of each.
fn take_three(rt: &impl Abort, alloc: Global, holdings: &mut Holdings) {
    let two = (BlockEnd::Taken(2), 2, Some(2));
    for owner in [b"z".as_slice(), b"a", b"ma"] {
        assert_takes(rt, alloc, holdings, owner, (0, 1, 2, 1), two);
    }
}

#[test]
fn owners_come_in_the_order_of_their_names(rt: HostRuntime) {
    let mut holdings = holdings_of(&rt, rt.alloc(), b"m");
    take_three(&rt, rt.alloc(), &mut holdings);
    let are_owners = owners_are(&holdings, &[b"a", b"m", b"ma", b"z"]);
    let are_later = later_are(&holdings, &name(&rt, b"ma"), &[(b"ma", 2), (b"z", 2)]);
    let found = (are_owners, are_later, owner_count(&holdings));
    same(&rt, &found, &(true, true, 4));
}

fn address(rt: &impl Abort, alloc: Global, text: &[u8], version: u64) -> Result<Entry, Fault>
    requires { 1 ≤ version }
{
    let slot = Slot::Set(Value::addr(alloc, b"10.0.0.1")?);
    Ok(Entry::new(key(rt, text), version, slot))
}

/// Nine entries of a new owner, unless there is no memory. So many that the lists of a table grow on the way.
fn nine_addresses(rt: &impl Abort, alloc: Global) -> Result<Vec<SharedEntry>, Fault> {
    let mut entries = Vec::new(alloc);
    for number in 1..10 {
        let entry = address(rt, alloc, &letters_of(number), number)?;
        entries.push(SharedEntry::new(alloc, entry)?)?;
    }
    Ok(entries)
}

fn nine_writes(rt: &impl Abort, alloc: Global) -> Result<Block, Fault> {
    Block::new(name(rt, b"a"), 0, 0, 9, nine_addresses(rt, alloc)?)
}

/// Returns how a block ends and how far its owner is then held, and the same for the second time.
fn taken_twice(holdings: &mut Holdings, block: &Block) -> (BlockEnd, u64, BlockEnd, u64) {
    let end = holdings.apply_block(block);
    let held = holdings.upto(block.owner());
    let again = holdings.apply_block(block);
    (end, held, again, holdings.upto(block.owner()))
}

/// Returns the same for nine entries of a new owner, unless there is no memory before they come.
fn nine_taken(rt: &impl Abort, alloc: Global) -> Result<(BlockEnd, u64, BlockEnd, u64), Fault> {
    let mut holdings = Holdings::new(alloc, name(rt, b"b"), Table::new(alloc))?;
    Ok(taken_twice(&mut holdings, &nine_writes(rt, alloc)?))
}

/// Whichever allocation is refused, the first entries are kept, and the rest is taken the next time.
#[test]
fn a_front_stays_where_memory_runs_out(rt: HostRuntime) {
    match nine_taken(&rt, rt.alloc()) {
        Ok((end, held, again, upto)) => {
            let rest = 9_u64.saturating_sub(held);
            let ends = if rest == 0 {
                (BlockEnd::Taken(9), BlockEnd::Stale)
            } else {
                (BlockEnd::NoMemory(held), BlockEnd::Taken(rest))
            };
            same(&rt, &(end, again, upto), &(ends.0, ends.1, 9));
        }
        Err(fault) => same(&rt, &fault, &Fault::NoMemory),
    }
}

/// Returns whether an own write is entered, or leaves what was held because there was no memory.
fn is_pushed_or_left(rt: &impl Abort, holdings: &mut Holdings, key: &[u8]) -> bool {
    let me = *holdings.me();
    let before = holdings.upto(&me);
    let next = before.saturating_add(1);
    let answer = holdings.push_own(write(rt, key, next, true));
    let found = (holdings.upto(&me), weight_at(holdings, &me, key));
    match answer {
        Ok(()) => found.0 == next,
        Err(fault) => fault == Fault::NoMemory && found == (before, None),
    }
}

/// Returns whether each of nine own writes is entered, or leaves what was held because there was no memory.
fn are_pushed_or_left(rt: &impl Abort, holdings: &mut Holdings) -> bool {
    let mut are_right = true;
    for number in 1..10 {
        are_right &= is_pushed_or_left(rt, holdings, &letters_of(number));
    }
    are_right
}

/// This holds whichever allocation is refused.
#[test]
fn own_writes_without_memory_change_nothing(rt: HostRuntime) {
    let alloc = rt.alloc();
    match Holdings::new(alloc, name(&rt, b"m"), Table::new(alloc)) {
        Ok(mut holdings) => {
            let are_right = are_pushed_or_left(&rt, &mut holdings);
            holds(&rt, "each is entered or left", are_right);
        }
        Err(fault) => same(&rt, &fault, &Fault::NoMemory),
    }
}

#[test]
fn reports_list_the_ends(rt: HostRuntime) {
    let ends = [BlockEnd::Taken(2), BlockEnd::Gap];
    let report = Report::new(got(&rt, Vec::from_array(rt.alloc(), ends)));
    let read = (report.len(), report.is_empty(), report.ends());
    same(&rt, &read, &(2, false, ends.as_slice()));
}
