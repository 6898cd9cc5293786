//! Tables: what no clause states, and the greatest number of keys.
ghost use Rattle.std.specs.Prelude.{◌≡◌, IfOk, map};
ghost use Rattle.sb_types.specs.Runs.{newer_entries};
ghost use Rattle.sb_table.specs.Order.{by_key, entries_with_prefix};

use crate::{entry, got, key, push, refusal, same, same_at, settled, shared, weighing, weight};
use sb_table::{Stage, Table};
use sb_types::{Entry, Fault, KEYS_MOST, Key, Prefix, SharedEntry, Slot};
use std::alloc::{AllocError, Global};
use std::process::Abort;

/// Enters a write of a later version than all that the table has. Refuses all others as `OutOfTurn`.
fn enter(table: &mut Table, entry: Entry) -> Result<(), Fault> {
    let version = entry.version();
    if version <= table.upto() {
        return Err(Fault::OutOfTurn(version));
    }
    table.push(entry)
}

/// Enters a write of at least version 1 that sets the key to a weight.
fn set(rt: &impl Abort, table: &mut Table, key: &[u8], version: u64, number: u64) {
    let entry = weighing(rt, key, version.max(1), number);
    got(rt, enter(table, entry));
}

/// Enters a write of at least version 1 that removes the key.
fn remove(rt: &impl Abort, table: &mut Table, key: &[u8], version: u64) {
    got(
        rt,
        enter(table, entry(rt, key, version.max(1), Slot::Removed)),
    );
}

/// The version and the weight under a key.
type Found = Option<(u64, Option<u64>)>;

pub fn shown(table: &Table, key: &[u8]) -> Option<(u64, Option<u64>)> {
    match table.get(&Key::read(key).ok()?) {
        Some((version, Slot::Set(value))) => Some((version, value.as_weight())),
        Some((version, Slot::Removed)) => Some((version, None)),
        None => None,
    }
}

/// Returns how many keys there are, the last version, and what is shown under each of these keys.
fn shown_under(table: &Table, keys: [&[u8]; 3]) -> (usize, u64, [Found; 3]) {
    let [first, second, third] = keys;
    let found = [
        shown(table, first),
        shown(table, second),
        shown(table, third),
    ];
    (table.len(), table.upto(), found)
}

// What the iterators state reaches their callers.
fn versions_after(alloc: Global, table: &Table, version: u64) -> Result<Vec<u64>, AllocError>
    ensures { IfOk result (λ v. v.items ≡ map (λ e. e.version) (newer_entries version table.now.entries)) }
{
    table
        .after(version)
        .map(|entry| entry.version())
        .collect(alloc)
}

fn versions_under(alloc: Global, table: &Table, prefix: &Prefix) -> Result<Vec<u64>, AllocError>
    ensures { IfOk result (λ v. v.items ≡ map (λ e. e.version) (by_key (entries_with_prefix prefix.now table.now.entries))) }
{
    table
        .prefix(prefix)
        .map(|entry| entry.version())
        .collect(alloc)
}

/// Asserts that just these versions are above one.
fn assert_above(rt: &impl Abort, alloc: Global, table: &Table, version: u64, wanted: &[u64]) {
    let versions = got(rt, versions_after(alloc, table, version));
    same_at(rt, &version, &versions.as_slice(), &wanted);
}

fn under_text(rt: &impl Abort, alloc: Global, table: &Table, text: &[u8]) -> Vec<u64> {
    let prefix = got(rt, Prefix::read(text));
    got(rt, versions_under(alloc, table, &prefix))
}

/// Asserts that just these versions are under a prefix.
fn assert_under(rt: &impl Abort, alloc: Global, table: &Table, text: &[u8], wanted: &[u64]) {
    let versions = under_text(rt, alloc, table, text);
    same_at(rt, &text, &versions.as_slice(), &wanted);
}

#[test]
fn a_new_table_is_empty(rt: HostRuntime) {
    let none = Table::new(rt.alloc());
    same(&rt, &(none.is_empty(), none.upto()), &(true, 0));
}

fn rewritten(rt: &impl Abort, alloc: Global) -> Table {
    let mut table = Table::new(alloc);
    set(rt, &mut table, b"a", 1, 7);
    remove(rt, &mut table, b"b", 2);
    set(rt, &mut table, b"a", 4, 9);
    table
}

fn assert_rewritten(rt: &impl Abort, alloc: Global, table: &Table) {
    let found = shown_under(table, [b"a", b"b", b"c"]);
    let wanted = [Some((4, Some(9))), Some((2, None)), None];
    same(rt, &found, &(2, 4, wanted));
    assert_above(rt, alloc, table, 0, &[2, 4]);
    assert_above(rt, alloc, table, 1, &[2, 4]);
    assert_above(rt, alloc, table, 2, &[4]);
    assert_above(rt, alloc, table, 3, &[4]);
    assert_above(rt, alloc, table, 4, &[]);
}

#[test]
fn later_writes_take_the_place_of_earlier(rt: HostRuntime) {
    let table = rewritten(&rt, rt.alloc());
    assert_rewritten(&rt, rt.alloc(), &table);
}

fn paths(rt: &impl Abort, alloc: Global) -> Table {
    let mut table = Table::new(alloc);
    set(rt, &mut table, b"net/b", 1, 1);
    set(rt, &mut table, b"net/a", 2, 2);
    set(rt, &mut table, b"w", 3, 3);
    remove(rt, &mut table, b"net", 4);
    remove(rt, &mut table, b"net/a/1", 5);
    table
}

fn assert_paths(rt: &impl Abort, alloc: Global, table: &Table) {
    assert_under(rt, alloc, table, b"", &[4, 2, 5, 1, 3]);
    assert_under(rt, alloc, table, b"net", &[4, 2, 5, 1]);
    assert_under(rt, alloc, table, b"net/", &[2, 5, 1]);
    assert_under(rt, alloc, table, b"net/b", &[1]);
    assert_under(rt, alloc, table, b"x", &[]);
}

#[test]
fn a_prefix_gives_its_keys_in_order(rt: HostRuntime) {
    let table = paths(&rt, rt.alloc());
    assert_paths(&rt, rt.alloc(), &table);
}

/// Returns how many keys a table has, its last version, and whether the write of that version removed the key.
fn ends_removed(table: &Table, key: &Key) -> (usize, u64, bool) {
    let is_removed = matches!(table.get(key), Some((2, Slot::Removed)));
    (table.len(), table.upto(), is_removed)
}

/// Runs the example of `Table`.
#[test]
fn example_of_a_table(rt: HostRuntime) {
    let mut table = Table::new(rt.alloc());
    set(&rt, &mut table, b"port", 1, 80);
    remove(&rt, &mut table, b"port", 2);
    let port = key(&rt, b"port");
    same(&rt, &ends_removed(&table, &port), &(1, 2, true));
    got(&rt, raise(&mut table, 3, 2));
    let counts = (table.len(), table.upto(), table.floor());
    same(&rt, &counts, &(0, 3, 2));
    same(&rt, &table.get(&port).is_none(), &true);
}

/// Enters a write of a version under the key of a number. Its weight is the version.
fn set_numbered(rt: &impl Abort, alloc: Global, table: &mut Table, number: u64, version: u64) {
    let key = got(rt, format!(in alloc; "k{number:04}"));
    set(rt, table, key.as_bytes(), version, version);
}

/// 4,096 keys, each written three times: from k4096 at the versions 1, 4,097 and 8,193 down to k0001 at 4,096, 8,192
/// and 12,288.
fn full_table(rt: &impl Abort, alloc: Global) -> Table {
    let mut table = Table::new(alloc);
    for place in 0..3 * KEYS_MOST as u64 {
        set_numbered(rt, alloc, &mut table, 4096 - place % 4096, place + 1);
    }
    table
}

/// The answer to a write of the weight 1. Then the number of keys, the last version, and what is under the key.
type Answered = (Result<(), Fault>, usize, u64, Found);

fn write_one(rt: &impl Abort, table: &mut Table, key: &[u8], version: u64) -> Answered {
    let entry = weighing(rt, key, version.max(1), 1);
    let answer = settled(rt, enter(table, entry));
    (answer, table.len(), table.upto(), shown(table, key))
}

/// Asserts the answer to the write, and that it leaves the first key as it was.
fn assert_answered(
    rt: &impl Abort,
    table: &mut Table,
    key: &[u8],
    version: u64,
    answered: Answered,
) {
    let found = write_one(rt, table, key, version);
    let kept = shown(table, b"k4096");
    let wanted = (answered, Some((8193, Some(8193))));
    same_at(rt, &version, &(found, kept), &wanted);
}

fn assert_full(rt: &impl Abort, table: &mut Table) {
    let full = Err(Fault::TableFull);
    let (refused, later) = ((full, 4096, 12_288, None), (full, 4096, 12_290, None));
    let entered = (Ok(()), 4096, 12_290, Some((12_290, Some(1))));
    assert_answered(rt, table, b"new", 12_289, refused);
    assert_answered(rt, table, b"new", 12_290, refused);
    assert_answered(rt, table, b"k0007", 12_290, entered);
    assert_answered(rt, table, b"new", 12_291, later);
}

#[test]
fn a_full_table_takes_no_new_key(rt: HostRuntime) {
    let mut table = full_table(&rt, rt.alloc());
    assert_full(&rt, &mut table);
}

/// The first and the last of some versions, and how many there are.
type Ends = (Option<u64>, Option<u64>, usize);

fn ends(versions: &[u64]) -> Ends {
    (
        versions.first().copied(),
        versions.last().copied(),
        versions.len(),
    )
}

fn ends_above(rt: &impl Abort, alloc: Global, table: &Table, version: u64) -> Ends {
    ends(&got(rt, versions_after(alloc, table, version)))
}

fn ends_under(rt: &impl Abort, alloc: Global, table: &Table, text: &[u8]) -> Ends {
    ends(&under_text(rt, alloc, table, text))
}

fn assert_ends_above(rt: &impl Abort, alloc: Global, table: &Table) {
    let all = (Some(8193), Some(12_288), 4096);
    let later = (Some(10_001), Some(12_288), 2288);
    let last = (Some(12_288), Some(12_288), 1);
    same(rt, &ends_above(rt, alloc, table, 0), &all);
    same(rt, &ends_above(rt, alloc, table, 10_000), &later);
    same(rt, &ends_above(rt, alloc, table, 12_287), &last);
    same(rt, &ends_above(rt, alloc, table, 12_288), &(None, None, 0));
}

fn assert_ends_under(rt: &impl Abort, alloc: Global, table: &Table) {
    let all = (Some(12_288), Some(8193), 4096);
    let hundred = (Some(10_289), Some(10_190), 100);
    let first = (Some(8193), Some(8193), 1);
    same(rt, &ends_under(rt, alloc, table, b""), &all);
    same(rt, &ends_under(rt, alloc, table, b"k"), &all);
    same(rt, &ends_under(rt, alloc, table, b"k20"), &hundred);
    same(rt, &ends_under(rt, alloc, table, b"k4096"), &first);
    same(
        rt,
        &ends_under(rt, alloc, table, b"k4097"),
        &(None, None, 0),
    );
}

#[test]
fn a_full_table_gives_all_that_it_has(rt: HostRuntime) {
    let table = full_table(&rt, rt.alloc());
    assert_ends_above(&rt, rt.alloc(), &table);
    assert_ends_under(&rt, rt.alloc(), &table);
}

/// Returns the last version, what is shown under a, and how many entries are above the last version but one, and above
/// the last.
fn last_two(table: &Table) -> (u64, Found, (usize, usize)) {
    let upto = table.upto();
    let last = table.after(upto.saturating_sub(1)).count();
    (upto, shown(table, b"a"), (last, table.after(upto).count()))
}

#[test]
fn the_greatest_version_is_entered(rt: HostRuntime) {
    let greatest = 18_446_744_073_709_551_615;
    let mut table = Table::new(rt.alloc());
    set(&rt, &mut table, b"a", greatest - 1, 1);
    set(&rt, &mut table, b"a", greatest, 2);
    let wanted = (greatest, Some((greatest, Some(2))), (1, 0));
    same(&rt, &last_two(&table), &wanted);
}

// The letters as keys, at the versions from 1 on.
const LETTERS: &[u8; 26] = b"qwertyuiopasdfghjklzxcvbnm";

/// Sets keys of k and each letter.
fn set_letters(rt: &impl Abort, table: &mut Table) {
    for (version, letter) in (1..).zip(LETTERS.iter()) {
        set(rt, table, &[b'k', *letter], version, 1);
    }
}

/// Keys of k and each letter, then other keys, one written again and one removed: 28 keys, 30 versions.
fn many_keys(rt: &impl Abort, alloc: Global) -> Table {
    let mut table = Table::new(alloc);
    set_letters(rt, &mut table);
    set(rt, &mut table, b"j", 27, 1);
    set(rt, &mut table, b"l", 28, 1);
    set(rt, &mut table, b"kh", 29, 1);
    remove(rt, &mut table, b"kq", 30);
    table
}

const ABOVE_0: &[u64] = &[
    2, 3, 4, 5, 6, 7, 8, 9, 10, 11, 12, 13, 14, 15, 17, 18, 19, 20, 21, 22, 23, 24, 25, 26, 27, 28,
    29, 30,
];

const UNDER_K: &[u64] = &[
    11, 24, 22, 13, 3, 14, 15, 29, 8, 17, 18, 19, 26, 25, 9, 10, 30, 4, 12, 5, 7, 23, 2, 21, 6, 20,
];

fn assert_order(rt: &impl Abort, alloc: Global, table: &Table) {
    assert_above(rt, alloc, table, 0, ABOVE_0);
    assert_above(rt, alloc, table, 25, &[26, 27, 28, 29, 30]);
    assert_under(rt, alloc, table, b"k", UNDER_K);
    assert_under(rt, alloc, table, b"kq", &[30]);
    assert_under(rt, alloc, table, b"kqa", &[]);
    assert_under(rt, alloc, table, b"j", &[27]);
    assert_under(rt, alloc, table, b"m", &[]);
}

#[test]
fn many_keys_come_in_order(rt: HostRuntime) {
    let table = many_keys(&rt, rt.alloc());
    assert_order(&rt, rt.alloc(), &table);
}

#[test]
fn many_keys_are_found(rt: HostRuntime) {
    let table = many_keys(&rt, rt.alloc());
    let found = shown_under(&table, [b"kz", b"kq", b"k"]);
    let wanted = [Some((20, Some(1))), Some((30, None)), None];
    same(&rt, &found, &(28, 30, wanted));
}

/// How many entries there are, by version and by key, the last version, and what is under a key.
type Held = (usize, usize, usize, u64, Found);

fn held(table: &Table, key: &[u8]) -> Held {
    let mut by_key: usize = 0;
    if let Ok(prefix) = Prefix::read(b"") {
        for _ in table.prefix(&prefix) {
            by_key = by_key.saturating_add(1);
        }
    }
    let counts = (table.len(), table.after(0).count(), by_key);
    (
        counts.0,
        counts.1,
        counts.2,
        table.upto(),
        shown(table, key),
    )
}

/// Returns whether a write is entered, or leaves everything as it was because there was no memory.
fn is_written_or_left(rt: &impl Abort, table: &mut Table, key: &[u8], version: u64) -> bool {
    let before = held(table, key);
    let answer = enter(table, weighing(rt, key, version.max(1), version));
    let after = held(table, key);
    let is_right = match answer {
        Ok(()) => (after.3, after.4) == (version, Some((version, Some(version)))),
        Err(fault) => fault == Fault::NoMemory && after == before,
    };
    is_right && (after.1, after.2) == (after.0, after.0)
}

/// Writes each letter as a key, and then each of the first half again.
fn assert_left(rt: &impl Abort, table: &mut Table) {
    for place in 0..LETTERS.len() {
        let version = place as u64 * 2 + 1;
        let [key, again] = [[LETTERS[place]], [LETTERS[place / 2]]];
        let answers = [
            is_written_or_left(rt, table, &key, version),
            is_written_or_left(rt, table, &again, version + 1),
        ];
        same_at(rt, &place, &answers, &[true, true]);
    }
}

/// Passes also if an allocation fails.
#[test]
fn a_write_without_memory_leaves_the_table(rt: HostRuntime) {
    let mut table = Table::new(rt.alloc());
    assert_left(&rt, &mut table);
}

/// A write of at least version 1: the letter that is its key, its version, and its weight, or `None` for a removal.
pub type Listed = (u8, u64, Option<u64>);

fn listed(rt: &impl Abort, write: Listed) -> Entry {
    let (letter, version, number) = write;
    let slot = match number {
        Some(number) => Slot::Set(weight(rt, number)),
        None => Slot::Removed,
    };
    entry(rt, &[letter], version.max(1), slot)
}

pub fn all_listed(rt: &impl Abort, alloc: Global, writes: &[Listed]) -> Vec<SharedEntry> {
    let mut entries = Vec::new(alloc);
    for write in writes {
        push(rt, &mut entries, shared(rt, alloc, listed(rt, *write)));
    }
    entries
}

fn listed_of(entry: &Entry) -> Listed {
    let letter = entry.key().bytes().first().copied().unwrap_or(0);
    let number = match entry.slot() {
        Slot::Set(value) => value.as_weight(),
        Slot::Removed => None,
    };
    (letter, entry.version(), number)
}

fn listing(rt: &impl Abort, alloc: Global, shown: &Table) -> Vec<Listed> {
    let mut writes = Vec::new(alloc);
    for entry in shown.after(0) {
        push(rt, &mut writes, listed_of(entry));
    }
    writes
}

/// Returns how many entries the table has by key.
fn count_by_key(rt: &impl Abort, shown: &Table) -> usize {
    let mut count = 0_usize;
    for _ in shown.prefix(&got(rt, Prefix::read(b""))) {
        count = count.saturating_add(1);
    }
    count
}

/// Asserts that it holds up to this version, has this floor, and just these entries, also by key.
fn assert_holds(
    rt: &impl Abort,
    alloc: Global,
    shown: &Table,
    upto: u64,
    floor: u64,
    writes: &[Listed],
) {
    let counts = (shown.len(), count_by_key(rt, shown));
    let wanted = (upto, floor, (writes.len(), writes.len()));
    same(rt, &(shown.upto(), shown.floor(), counts), &wanted);
    let found = listing(rt, alloc, shown);
    same_at(rt, &(upto, floor), &found.as_slice(), &writes);
}

fn restored(rt: &impl Abort, alloc: Global, upto: u64, floor: u64, writes: &[Listed]) -> Table {
    got(
        rt,
        Table::restored(alloc, upto, floor, all_listed(rt, alloc, writes)),
    )
}

/// Raises the held version and the floor, if neither falls and the floor is within what is held. Refuses all else.
fn raise(shown: &mut Table, upto: u64, floor: u64) -> Result<(), Fault> {
    if upto < shown.upto() || floor < shown.floor() || upto < floor {
        return Err(Fault::FloorTooHigh);
    }
    shown.raise(upto, floor);
    Ok(())
}

const FIVE: &[Listed] = &[
    (b'a', 1, Some(7)),
    (b'b', 2, None),
    (b'c', 3, Some(9)),
    (b'd', 4, None),
    (b'e', 5, None),
];

const FLOOR_4: &[Listed] = &[(b'a', 1, Some(7)), (b'c', 3, Some(9)), (b'e', 5, None)];

const FLOOR_5: &[Listed] = &[(b'a', 1, Some(7)), (b'c', 3, Some(9))];

const WRITTEN_AGAIN: &[Listed] = &[(b'c', 3, Some(9)), (b'b', 9, Some(1)), (b'a', 10, None)];

fn assert_raised(rt: &impl Abort, alloc: Global, shown: &mut Table) {
    got(rt, raise(shown, 7, 4));
    assert_holds(rt, alloc, shown, 7, 4, FLOOR_4);
    got(rt, raise(shown, 8, 4));
    assert_holds(rt, alloc, shown, 8, 4, FLOOR_4);
    got(rt, raise(shown, 8, 5));
    assert_holds(rt, alloc, shown, 8, 5, FLOOR_5);
}

fn assert_written_again(rt: &impl Abort, alloc: Global, shown: &mut Table) {
    got(rt, enter(shown, listed(rt, (b'b', 9, Some(1)))));
    got(rt, enter(shown, listed(rt, (b'a', 10, None))));
    assert_holds(rt, alloc, shown, 10, 5, WRITTEN_AGAIN);
    let copy = got(rt, shown.copy(alloc));
    assert_holds(rt, alloc, &copy, 10, 5, WRITTEN_AGAIN);
}

#[test]
fn removals_up_to_the_floor_go(rt: HostRuntime) {
    let mut shown = restored(&rt, rt.alloc(), 5, 0, FIVE);
    assert_holds(&rt, rt.alloc(), &shown, 5, 0, FIVE);
    assert_raised(&rt, rt.alloc(), &mut shown);
    assert_written_again(&rt, rt.alloc(), &mut shown);
}

fn fault_of(
    rt: &impl Abort,
    alloc: Global,
    upto: u64,
    floor: u64,
    writes: &[Listed],
) -> Option<Fault> {
    let entries = all_listed(rt, alloc, writes);
    refusal(rt, Table::restored(alloc, upto, floor, entries))
}

fn assert_damaged(rt: &impl Abort, alloc: Global, upto: u64, floor: u64, writes: &[Listed]) {
    let found = fault_of(rt, alloc, upto, floor, writes);
    same_at(rt, &(upto, floor), &found, &Some(Fault::LogDamaged));
}

fn assert_restored(rt: &impl Abort, alloc: Global, upto: u64, floor: u64, writes: &[Listed]) {
    let shown = restored(rt, alloc, upto, floor, writes);
    assert_holds(rt, alloc, &shown, upto, floor, writes);
}

#[test]
fn what_is_no_table_is_not_restored(rt: HostRuntime) {
    let alloc = rt.alloc();
    let twice = [(b'a', 1, Some(1)), (b'b', 2, None), (b'a', 3, None)];
    assert_restored(&rt, alloc, 5, 4, FLOOR_4);
    assert_restored(&rt, alloc, 7, 0, FIVE);
    assert_restored(&rt, alloc, 9, 9, &[]);
    assert_damaged(&rt, alloc, 4, 4, FLOOR_4);
    assert_damaged(&rt, alloc, 5, 5, FLOOR_4);
    assert_damaged(&rt, alloc, 8, 9, &[]);
    assert_damaged(&rt, alloc, 9, 0, &[(b'a', 2, None), (b'b', 1, None)]);
    assert_damaged(&rt, alloc, 9, 0, &[(b'a', 2, None), (b'b', 2, None)]);
    assert_damaged(&rt, alloc, 9, 0, &twice);
}

/// A write of a version under the key of a number. Its weight is the version.
fn numbered(rt: &impl Abort, alloc: Global, number: u64, version: u64) -> Entry {
    let key = got(rt, format!(in alloc; "k{number:04}"));
    weighing(rt, key.as_bytes(), version.max(1), version)
}

/// The keys from k0001 on, each at the version of its number.
fn many_numbered(rt: &impl Abort, alloc: Global, count: u64) -> Vec<SharedEntry> {
    let mut entries = Vec::new(alloc);
    for place in 0..count {
        let number = place.saturating_add(1);
        let entry = numbered(rt, alloc, number, number);
        push(rt, &mut entries, shared(rt, alloc, entry));
    }
    entries
}

/// Returns how many keys are restored from these entries, up to version 9,999, or the fault.
fn restored_count(
    rt: &impl Abort,
    alloc: Global,
    entries: Vec<SharedEntry>,
) -> Result<usize, Fault> {
    match Table::restored(alloc, 9_999, 0, entries) {
        Ok(shown) => Ok(shown.len()),
        Err(Fault::NoMemory) => panic!(rt; "error: NoMemory"),
        Err(fault) => Err(fault),
    }
}

#[test]
fn more_than_4096_keys_are_not_restored(rt: HostRuntime) {
    let alloc = rt.alloc();
    let mut twice = many_numbered(&rt, alloc, 4096);
    let again = shared(&rt, alloc, numbered(&rt, alloc, 1, 4097));
    push(&rt, &mut twice, again);
    let found = [
        restored_count(&rt, alloc, many_numbered(&rt, alloc, 4096)),
        restored_count(&rt, alloc, many_numbered(&rt, alloc, 4097)),
        restored_count(&rt, alloc, twice),
    ];
    let wanted = [Ok(4096), Err(Fault::TableFull), Err(Fault::LogDamaged)];
    same(&rt, &found, &wanted);
}

/// Enters a shared write of a later version than all that the table has. Refuses all others as `OutOfTurn`.
fn share(table: &mut Table, entry: &SharedEntry) -> Result<(), Fault> {
    let version = entry.version();
    if version <= table.upto() {
        return Err(Fault::OutOfTurn(version));
    }
    table.push_shared(entry)
}

/// The table of these writes, all of them shared.
fn shared_table(rt: &impl Abort, alloc: Global, writes: &[Listed]) -> Table {
    let mut table = Table::new(alloc);
    for entry in all_listed(rt, alloc, writes) {
        got(rt, share(&mut table, &entry));
    }
    table
}

#[test]
fn shared_writes_are_entered(rt: HostRuntime) {
    let alloc = rt.alloc();
    let again = [(b'a', 1, Some(1)), (b'b', 2, None), (b'a', 3, Some(2))];
    let table = shared_table(&rt, alloc, &again);
    let left = [(b'b', 2, None), (b'a', 3, Some(2))];
    assert_holds(&rt, alloc, &table, 3, 0, &left);
}

/// Returns how many of these shared writes a table takes until one is refused, and how that is refused.
fn shared_until(rt: &impl Abort, alloc: Global, count: u64) -> (usize, Result<(), Fault>) {
    let mut table = Table::new(alloc);
    for entry in many_numbered(rt, alloc, count) {
        let answer = settled(rt, share(&mut table, &entry));
        if answer.is_err() {
            return (table.len(), answer);
        }
    }
    (table.len(), Ok(()))
}

#[test]
fn a_table_shares_4096_keys(rt: HostRuntime) {
    let found = shared_until(&rt, rt.alloc(), 4097);
    same(&rt, &found, &(4096, Err(Fault::TableFull)));
}

/// Returns how a write of a new key at 4,098 is answered, and how many keys there are then, up to which version.
fn with_new(rt: &impl Abort, shown: &mut Table) -> (Result<(), Fault>, usize, u64) {
    let answer = settled(rt, enter(shown, listed(rt, (b'n', 4098, Some(1)))));
    (answer, shown.len(), shown.upto())
}

#[test]
fn a_floor_makes_room(rt: HostRuntime) {
    let entries = many_numbered(&rt, rt.alloc(), 4096);
    let mut shown = got(&rt, Table::restored(rt.alloc(), 4096, 0, entries));
    let removal = entry(&rt, b"k0007", 4097, Slot::Removed);
    got(&rt, enter(&mut shown, removal));
    let refused = (Err(Fault::TableFull), 4096, 4097);
    same(&rt, &with_new(&rt, &mut shown), &refused);
    got(&rt, raise(&mut shown, 4097, 4097));
    same(&rt, &with_new(&rt, &mut shown), &(Ok(()), 4096, 4098));
}

/// Enters a write of a later version than the progress. Refuses all others as `OutOfTurn`.
fn enter_staged(stage: &mut Stage, entry: Entry) -> Result<(), Fault> {
    let version = entry.version();
    if version <= stage.progress() {
        return Err(Fault::OutOfTurn(version));
    }
    stage.push(entry)
}

/// Enters a shared write of a later version than the progress. Refuses all others as `OutOfTurn`.
pub fn share_staged(stage: &mut Stage, entry: &SharedEntry) -> Result<(), Fault> {
    let version = entry.version();
    if version <= stage.progress() {
        return Err(Fault::OutOfTurn(version));
    }
    stage.push_shared(entry)
}

/// A stage of these entries. Its progress is this version, or that of the last entry.
fn staged(rt: &impl Abort, alloc: Global, floor: u64, progress: u64, writes: &[Listed]) -> Stage {
    let mut stage = Stage::new(alloc, floor);
    for write in writes {
        got(rt, enter_staged(&mut stage, listed(rt, *write)));
    }
    let least = stage.progress();
    stage.raise(progress.max(least));
    stage
}

/// Returns what is shown after the stage was swapped in, if it has reached its floor and what is held.
pub fn swapped(alloc: Global, shown: &Table, stage: &Stage) -> Result<Table, Fault> {
    if stage.progress() < stage.floor() || stage.progress() < shown.upto() {
        return Err(Fault::FloorTooHigh);
    }
    shown.swapped(alloc, stage)
}

const HELD: &[Listed] = &[
    (b'a', 1, Some(1)),
    (b'b', 2, Some(2)),
    (b'c', 3, None),
    (b'h', 4, Some(4)),
    (b'd', 5, Some(5)),
];

// Of what is held it has a, h at an older version, and c. k is below what is held, and new.
const COMING: &[Listed] = &[
    (b'a', 1, Some(99)),
    (b'h', 2, Some(2)),
    (b'c', 3, None),
    (b'k', 5, Some(5)),
    (b'f', 7, Some(7)),
    (b'd', 8, None),
    (b'e', 9, Some(9)),
    (b'g', 10, None),
];

const SWAPPED: &[Listed] = &[
    (b'a', 1, Some(1)),
    (b'h', 4, Some(4)),
    (b'f', 7, Some(7)),
    (b'e', 9, Some(9)),
    (b'g', 10, None),
];

fn assert_swapped(rt: &impl Abort, alloc: Global, shown: &Table) {
    let whole = staged(rt, alloc, 8, 11, COMING);
    let new = got(rt, swapped(alloc, shown, &whole));
    assert_holds(rt, alloc, &new, 11, 8, SWAPPED);
    let none = staged(rt, alloc, 9, 9, &[]);
    let new = got(rt, swapped(alloc, shown, &none));
    assert_holds(rt, alloc, &new, 9, 9, &[]);
}

fn assert_swapped_low(rt: &impl Abort, alloc: Global, shown: &Table) {
    let low = staged(rt, alloc, 2, 0, &[(b'c', 3, Some(3)), (b'a', 6, Some(6))]);
    let new = got(rt, swapped(alloc, shown, &low));
    let wanted = [(b'c', 3, None), (b'a', 6, Some(6))];
    assert_holds(rt, alloc, &new, 6, 2, &wanted);
}

#[test]
fn a_stage_takes_the_place_of_what_is_shown(rt: HostRuntime) {
    let shown = restored(&rt, rt.alloc(), 5, 0, HELD);
    assert_swapped(&rt, rt.alloc(), &shown);
    assert_swapped_low(&rt, rt.alloc(), &shown);
    assert_holds(&rt, rt.alloc(), &shown, 5, 0, HELD);
}

/// Returns the floor and the progress, and whether there is no room for a new key and for k0001.
fn stage_ends(rt: &impl Abort, stage: &Stage) -> (u64, u64, bool, bool) {
    let (new, first) = (key(rt, b"new"), key(rt, b"k0001"));
    let full = (stage.is_full_for(&new), stage.is_full_for(&first));
    (stage.floor(), stage.progress(), full.0, full.1)
}

fn fill_stage(rt: &impl Abort, alloc: Global, stage: &mut Stage) {
    for place in 0..4096u64 {
        let number = place.saturating_add(1);
        let entry = numbered(rt, alloc, number, number);
        got(rt, enter_staged(stage, entry));
    }
}

#[test]
fn a_stage_takes_4096_keys(rt: HostRuntime) {
    let mut stage = Stage::new(rt.alloc(), 5000);
    same(&rt, &stage_ends(&rt, &stage), &(5000, 0, false, false));
    fill_stage(&rt, rt.alloc(), &mut stage);
    let new = listed(&rt, (b'n', 4097, Some(1)));
    let answer = settled(&rt, enter_staged(&mut stage, new));
    same(&rt, &answer, &Err(Fault::TableFull));
    same(&rt, &stage_ends(&rt, &stage), &(5000, 4096, true, false));
    let again = numbered(&rt, rt.alloc(), 1, 4098);
    got(&rt, enter_staged(&mut stage, again));
    same(&rt, &stage_ends(&rt, &stage), &(5000, 4098, true, false));
}
