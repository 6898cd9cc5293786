//! Values, blocks, deltas and settings: what no clause states, and each limit at its full size.
ghost use Rattle.std.specs.Prelude.{◌≤◌};

use crate::{
    entry, got, holds, key, name, one, push, refusal, same, same_at, settled, shared, weighing,
};
use sb_testing::{LONGEST_KEY, LONGEST_NAME, delta_of_block};
use sb_types::{
    Block, Delta, Entry, Fault, Key, Name, Order, Prefix, RawSettings, Settings, SharedEntry, Slot,
    Value, ValueRef,
};
use std::alloc::Global;
use std::process::Abort;

fn is_read_as_name(text: &[u8]) -> Result<bool, Fault> {
    Ok(Name::read(text)?.bytes() == text)
}

fn is_read_as_key(text: &[u8]) -> Result<bool, Fault> {
    Ok(Key::read(text)?.bytes() == text)
}

fn is_read_as_prefix(text: &[u8]) -> Result<bool, Fault> {
    Ok(Prefix::read(text)?.bytes() == text)
}

/// Returns whether a text is read with its bytes: as a name, as a key and as a prefix.
fn read_text(text: &[u8]) -> [Result<bool, Fault>; 3] {
    [
        is_read_as_name(text),
        is_read_as_key(text),
        is_read_as_prefix(text),
    ]
}

type Reads = [Result<bool, Fault>; 3];

const ALL: Reads = [Ok(true), Ok(true), Ok(true)];

const NO_NAME: Reads = [Err(Fault::BadName), Ok(true), Ok(true)];

const A_PREFIX: Reads = [Err(Fault::BadName), Err(Fault::BadKey), Ok(true)];

const NONE: Reads = [Err(Fault::BadName), Err(Fault::BadKey), Err(Fault::BadKey)];

fn assert_read(rt: &impl Abort, text: &[u8], wanted: Reads) {
    same_at(rt, &text, &read_text(text), &wanted);
}

#[test]
fn texts_within_their_limits(rt: HostRuntime) {
    assert_read(&rt, b"a", ALL);
    assert_read(&rt, LONGEST_NAME, ALL);
    assert_read(&rt, LONGEST_KEY, NO_NAME);
    assert_read(&rt, b"", A_PREFIX);
    assert_read(&rt, b"abcdefghijklmnopqrstuvwxyz-012345", NO_NAME);
    assert_read(&rt, b"a.b", NO_NAME);
    assert_read(&rt, &[b'k'; 65], NONE);
    assert_read(&rt, b"A", NONE);
    assert_read(&rt, b"a b", NONE);
    assert_read(&rt, b"a:b", NONE);
    assert_read(&rt, b"\xc3\xa4", NONE);
}

/// Asserts that the first is below the second: as a name, and as a key.
fn assert_ascending(rt: &impl Abort, first: &[u8], second: &[u8]) {
    let names = name(rt, first) < name(rt, second);
    let keys = key(rt, first) < key(rt, second);
    same_at(rt, &first, &(names, keys), &(true, true));
}

#[test]
fn texts_have_an_order(rt: HostRuntime) {
    assert_ascending(&rt, b"a", b"a-");
    assert_ascending(&rt, b"a9", b"b");
    assert_ascending(&rt, b"net", b"net-a");
    let is_below = key(&rt, b"net") < key(&rt, b"net/a");
    holds(&rt, "net is below net/a", is_below);
}

/// Returns whether the value is this one, in each way to read it.
fn is_seen(value: &Value, wanted: ValueRef<'_>) -> bool {
    let (addr, weight, flag, text) = match wanted {
        ValueRef::Addr(text) => (Some(text), None, None, None),
        ValueRef::Weight(weight) => (None, Some(weight), None, None),
        ValueRef::Flag(flag) => (None, None, Some(flag), None),
        ValueRef::Text(text) => (None, None, None, Some(text)),
    };
    let is_number = value.as_weight() == weight && value.as_flag() == flag;
    let is_read = is_number && value.as_addr() == addr && value.as_text() == text;
    is_read && value.view() == wanted
}

/// Returns whether an address is read with its bytes, and its length.
fn address(alloc: Global, text: &[u8]) -> Result<(bool, u64), Fault> {
    let value = Value::addr(alloc, text)?;
    Ok((
        is_seen(&value, ValueRef::Addr(text)),
        value.encoded_length(),
    ))
}

fn assert_address(rt: &impl Abort, alloc: Global, text: &[u8], wanted: Result<(bool, u64), Fault>) {
    let found = settled(rt, address(alloc, text));
    same_at(rt, &text, &found, &wanted);
}

#[test]
fn addresses_within_their_limits(rt: HostRuntime) {
    let alloc = rt.alloc();
    let no_value = Err(Fault::BadValue);
    assert_address(&rt, alloc, &[b'p'; 128], Ok((true, 129)));
    assert_address(&rt, alloc, b"", no_value);
    assert_address(&rt, alloc, &[b'p'; 129], no_value);
    assert_address(&rt, alloc, b"a b", no_value);
    assert_address(&rt, alloc, b"\x7f", no_value);
    assert_address(&rt, alloc, b"\x20", no_value);
}

/// Returns whether a text is read with its bytes, and its length.
fn note(alloc: Global, text: &[u8]) -> Result<(bool, u64), Fault> {
    let value = Value::text(alloc, text)?;
    Ok((
        is_seen(&value, ValueRef::Text(text)),
        value.encoded_length(),
    ))
}

fn assert_note(rt: &impl Abort, alloc: Global, text: &[u8], wanted: Result<(bool, u64), Fault>) {
    let found = settled(rt, note(alloc, text));
    same_at(rt, &text, &found, &wanted);
}

#[test]
fn texts_of_values_within_their_limits(rt: HostRuntime) {
    let alloc = rt.alloc();
    assert_note(&rt, alloc, b"x", Ok((true, 3)));
    assert_note(&rt, alloc, &[b'x'; 512], Ok((true, 514)));
    assert_note(&rt, alloc, b"h\xc3\xa9", Ok((true, 5)));
    assert_note(&rt, alloc, b" \x00\n\x7f\\ ", Ok((true, 8)));
    assert_note(&rt, alloc, b"\xf4\x8f\xbf\xbf", Ok((true, 6)));
}

/// Lengths outside 1 to 512. Then a byte that begins nothing, a longer spelling than needed, half of a pair, and a
/// number beyond the last.
#[test]
fn bytes_that_are_no_text(rt: HostRuntime) {
    let (alloc, no_value) = (rt.alloc(), Err(Fault::BadValue));
    assert_note(&rt, alloc, b"", no_value);
    assert_note(&rt, alloc, &[b'x'; 513], no_value);
    assert_note(&rt, alloc, b"h\xff\xa9", no_value);
    assert_note(&rt, alloc, b"\xc0\x80", no_value);
    assert_note(&rt, alloc, b"\xed\xa0\x80", no_value);
    assert_note(&rt, alloc, b"\xf4\x90\x80\x80", no_value);
}

/// Returns what a weight is read as.
fn read_weight(weight: u64) -> Result<Option<u64>, Fault> {
    match Value::weight(weight) {
        Ok(value) => Ok(value.as_weight()),
        Err(fault) => Err(fault),
    }
}

#[test]
fn weights_and_flags_within_their_limits(rt: HostRuntime) {
    let greatest = 9_223_372_036_854_775_807;
    let weights = [read_weight(greatest), read_weight(greatest + 1)];
    same(&rt, &weights, &[Ok(Some(greatest)), Err(Fault::BadValue)]);
    same(&rt, &Value::flag(true).as_flag(), &Some(true));
}

/// Asserts that the value prints this line.
fn assert_line(rt: &impl Abort, alloc: Global, value: &Value, line: &str) {
    let printed = got(rt, value.to_string(alloc));
    same(rt, &printed.as_str(), &line);
}

/// Asserts that the value's copy is this one too.
fn assert_copied(rt: &impl Abort, alloc: Global, value: &Value, seen: ValueRef<'_>, line: &str) {
    let copy = got(rt, value.copy(alloc));
    holds(rt, line, is_seen(&copy, seen));
}

/// Asserts that the line's words are this value, which prints the line, and that its copy is the same.
fn assert_value(
    rt: &impl Abort,
    alloc: Global,
    kind: &str,
    word: &str,
    seen: ValueRef<'_>,
    line: &str,
) {
    let value = got(
        rt,
        Value::from_words(alloc, kind.as_bytes(), word.as_bytes()),
    );
    holds(rt, line, is_seen(&value, seen));
    assert_copied(rt, alloc, &value, seen, line);
    assert_line(rt, alloc, &value, line);
}

fn assert_addr(rt: &impl Abort, alloc: Global, word: &str, line: &str) {
    assert_value(
        rt,
        alloc,
        "addr",
        word,
        ValueRef::Addr(word.as_bytes()),
        line,
    );
}

fn assert_weight(rt: &impl Abort, alloc: Global, word: &str, weight: u64, line: &str) {
    assert_value(rt, alloc, "weight", word, ValueRef::Weight(weight), line);
}

fn assert_flag(rt: &impl Abort, alloc: Global, word: &str, flag: bool, line: &str) {
    assert_value(rt, alloc, "flag", word, ValueRef::Flag(flag), line);
}

/// Asserts that the word is the text of these bytes.
fn assert_text(rt: &impl Abort, alloc: Global, word: &str, text: &[u8], line: &str) {
    assert_value(rt, alloc, "text", word, ValueRef::Text(text), line);
}

#[test]
fn texts_from_words(rt: HostRuntime) {
    let alloc = rt.alloc();
    assert_text(&rt, alloc, "zone-b", b"zone-b", "text zone-b");
    assert_text(
        &rt,
        alloc,
        " two  words ",
        b" two  words ",
        "text  two  words ",
    );
    assert_text(&rt, alloc, "a\\5cb\\0a", b"a\\b\n", "text a\\5cb\\0a");
    assert_text(
        &rt,
        alloc,
        "\\00\\1f\\7f",
        b"\x00\x1f\x7f",
        "text \\00\\1f\\7f",
    );
    assert_text(&rt, alloc, "h\u{e9}~", b"h\xc3\xa9~", "text h\u{e9}~");
}

/// An escape of a byte that stands for itself, upper case, a digit too few, no digits, and a byte that has to be
/// escaped. Then bytes that are not UTF-8, and no bytes.
#[test]
fn words_that_spell_no_text(rt: HostRuntime) {
    let alloc = rt.alloc();
    assert_no_value(&rt, alloc, b"text", b"a\\41");
    assert_no_value(&rt, alloc, b"text", b"\\5C");
    assert_no_value(&rt, alloc, b"text", b"\\5");
    assert_no_value(&rt, alloc, b"text", b"a\\");
    assert_no_value(&rt, alloc, b"text", b"a\nb");
    assert_no_value(&rt, alloc, b"text", b"\x7f");
    assert_no_value(&rt, alloc, b"text", b"h\xff");
    assert_no_value(&rt, alloc, b"text", b"");
    assert_no_value(&rt, alloc, b"text", &[b'x'; 513]);
}

#[test]
fn values_from_words(rt: HostRuntime) {
    let alloc = rt.alloc();
    assert_addr(&rt, alloc, "host:80", "addr host:80");
    assert_addr(&rt, alloc, "~!", "addr ~!");
    assert_addr(
        &rt,
        alloc,
        "host.host.host.host.host.host.host.host.host.host.host.host.host.host.host.host.host.host.host.host.host.host.host.host.host.:80",
        "addr host.host.host.host.host.host.host.host.host.host.host.host.host.host.host.host.host.host.host.host.host.host.host.host.host.:80",
    );
    assert_weight(&rt, alloc, "0", 0, "weight 0");
    assert_weight(&rt, alloc, "5", 5, "weight 5");
    let (greatest, line) = ("9223372036854775807", "weight 9223372036854775807");
    assert_weight(&rt, alloc, greatest, 9_223_372_036_854_775_807, line);
    assert_flag(&rt, alloc, "true", true, "flag true");
    assert_flag(&rt, alloc, "false", false, "flag false");
}

/// Runs the example of `Value`.
#[test]
fn example_of_values(rt: HostRuntime) {
    let value = got(&rt, Value::from_words(rt.alloc(), b"weight", b"7"));
    same(&rt, &value.view(), &ValueRef::Weight(7));
    assert_line(&rt, rt.alloc(), &value, "weight 7");
}

/// Runs the example of `Name`.
#[test]
fn example_of_names(rt: HostRuntime) {
    let name = name(&rt, b"node-7");
    same(&rt, &name.bytes(), &b"node-7".as_slice());
    same(&rt, &Name::read(b"Node 7").err(), &Some(Fault::BadName));
}

fn assert_no_value(rt: &impl Abort, alloc: Global, kind: &[u8], word: &[u8]) {
    let found = Value::from_words(alloc, kind, word).err();
    same_at(rt, &(kind, word), &found, &Some(Fault::BadValue));
}

#[test]
fn words_that_are_no_value(rt: HostRuntime) {
    let alloc = rt.alloc();
    assert_no_value(&rt, alloc, b"weight", b"");
    assert_no_value(&rt, alloc, b"weight", b"+1");
    assert_no_value(&rt, alloc, b"weight", b"-1");
    assert_no_value(&rt, alloc, b"weight", b"01");
    assert_no_value(&rt, alloc, b"weight", b"9223372036854775808");
    assert_no_value(&rt, alloc, b"weight", b"18446744073709551616");
    assert_no_value(&rt, alloc, b"weight", b"\xff");
    assert_no_value(&rt, alloc, b"flag", b"True");
    assert_no_value(&rt, alloc, b"flag", b"1");
    assert_no_value(&rt, alloc, b"addr", b"");
    assert_no_value(&rt, alloc, b"note", b"x");
    assert_no_value(&rt, alloc, b"removed", b"");
}

/// A copy of an entry of an address.
fn copied(rt: &impl Abort, alloc: Global) -> Entry {
    let value = got(rt, Value::addr(alloc, b"host:1"));
    let whole = entry(rt, b"net/a", 7, Slot::Set(value));
    got(rt, whole.copy(alloc))
}

/// Returns the parts of an entry, and whether it has that address.
fn entry_parts(entry: &Entry) -> (Key, u64, bool, u64) {
    let is_address = match entry.slot() {
        Slot::Set(value) => value.as_addr() == Some(b"host:1".as_slice()),
        Slot::Removed => false,
    };
    let length = entry.encoded_length();
    (*entry.key(), entry.version(), is_address, length)
}

#[test]
fn copies_are_equal(rt: HostRuntime) {
    let parts = entry_parts(&copied(&rt, rt.alloc()));
    same(&rt, &parts, &(key(&rt, b"net/a"), 7, true, 10 + 5 + 7));
    let removal = got(&rt, Slot::Removed.copy(rt.alloc()));
    holds(&rt, "a removal is copied", matches!(removal, Slot::Removed));
}

/// Returns the parts that a shared entry has of its own accord, and whether it is a removal.
fn shared_parts(shared: &SharedEntry) -> (Key, u64, bool, u64) {
    let is_removal = matches!(shared.slot(), Slot::Removed);
    (
        *shared.key(),
        shared.version(),
        is_removal,
        shared.encoded_length(),
    )
}

#[test]
fn shared_entries_are_equal(rt: HostRuntime) {
    let whole = shared(&rt, rt.alloc(), copied(&rt, rt.alloc()));
    let again = got(&rt, whole.share());
    drop(whole);
    let wanted = (key(&rt, b"net/a"), 7, true, 10 + 5 + 7);
    same(&rt, &entry_parts(again.entry()), &wanted);
    let wanted = (key(&rt, b"net/a"), 7, false, 10 + 5 + 7);
    same(&rt, &shared_parts(&again), &wanted);
}

/// Weights of 5 under these keys, at these versions.
fn entries(rt: &impl Abort, alloc: Global, writes: &[(&str, u64)]) -> Vec<SharedEntry> {
    let mut entries = Vec::new(alloc);
    for (key, version) in writes {
        let entry = weighing(rt, key.as_bytes(), (*version).max(1), 5);
        push(rt, &mut entries, shared(rt, alloc, entry));
    }
    entries
}

/// The floor of a block, `after`, and `upto`.
type Range = (u64, u64, u64);

/// Whether a block's owner is a, its range, how many entries it has, and its length.
type Parts = (bool, Range, usize, u64);

fn parts_of(block: &Block) -> Parts {
    let is_a = block.owner().bytes() == b"a".as_slice();
    let range = (block.floor(), block.after(), block.upto());
    let count = block.entries().len();
    (is_a, range, count, block.encoded_length())
}

/// Returns the parts of a block, or why there is none. Ends the test if there was no memory.
fn made(rt: &impl Abort, block: Result<Block, Fault>) -> Result<Parts, Fault> {
    match block {
        Ok(block) => Ok(parts_of(&block)),
        Err(fault) => settled(rt, Err(fault)),
    }
}

fn made_of(
    rt: &impl Abort,
    alloc: Global,
    range: Range,
    writes: &[(&str, u64)],
) -> Result<Parts, Fault> {
    let (owner, entries) = (name(rt, b"a"), entries(rt, alloc, writes));
    let (floor, after, upto) = range;
    made(rt, Block::new(owner, floor, after, upto, entries))
}

/// Asserts that these make a block of this length.
fn assert_block(rt: &impl Abort, alloc: Global, range: Range, writes: &[(&str, u64)], length: u64) {
    let wanted = (true, range, writes.len(), length);
    same_at(rt, &range, &made_of(rt, alloc, range, writes), &Ok(wanted));
}

/// Asserts that these make no block.
fn assert_no_block(rt: &impl Abort, alloc: Global, range: Range, writes: &[(&str, u64)]) {
    let found = made_of(rt, alloc, range, writes);
    same_at(rt, &range, &found, &Err(Fault::Malformed(3)));
}

/// Each block takes 28 bytes of head, and 19 for each entry.
#[test]
fn blocks_within_their_limits(rt: HostRuntime) {
    let alloc = rt.alloc();
    let (most, last) = (u64::MAX, 18_446_744_073_709_551_615);
    assert_block(&rt, alloc, (0, 0, 3), &[("x", 1), ("y", 3)], 66);
    assert_block(&rt, alloc, (0, most - 1, most), &[("x", last)], 47);
    // It reaches further than its last entry. Its floor is at that entry, and then above all that it reaches.
    assert_block(&rt, alloc, (0, 0, 7), &[("x", 1), ("y", 3)], 66);
    assert_block(&rt, alloc, (3, 0, 3), &[("y", 2)], 47);
    assert_block(&rt, alloc, (5, 0, 3), &[("y", 2), ("z", 3)], 66);
    // It has no entries.
    assert_block(&rt, alloc, (2, 0, 2), &[], 28);
    assert_block(&rt, alloc, (most, most - 1, most), &[], 28);
}

#[test]
fn parts_that_make_no_block(rt: HostRuntime) {
    let alloc = rt.alloc();
    assert_no_block(&rt, alloc, (0, 0, 2), &[("x", 2), ("y", 1)]);
    assert_no_block(&rt, alloc, (0, 0, 2), &[("x", 2), ("y", 2)]);
    assert_no_block(&rt, alloc, (0, 1, 2), &[("x", 1)]);
    let x_twice = &[("x", 1), ("y", 2), ("x", 3)];
    assert_no_block(&rt, alloc, (0, 0, 3), x_twice);
    assert_no_block(&rt, alloc, (0, 0, 2), &[("x", 1), ("y", 3)]);
    // Its `upto` is its `after`, or less.
    assert_no_block(&rt, alloc, (0, 3, 3), &[]);
    assert_no_block(&rt, alloc, (0, 4, 3), &[]);
    assert_no_block(&rt, alloc, (5, 0, 0), &[]);
}

/// An entry of 23 bytes. Its key is its version in hexadecimal.
fn hexadecimal(rt: &impl Abort, alloc: Global, version: u64) -> Entry
    requires { 1 ≤ version }
{
    let key = got(rt, format!(in alloc; "{version:05x}"));
    weighing(rt, key.as_bytes(), version, 5)
}

fn long_entries(rt: &impl Abort, alloc: Global, count: u32) -> Vec<SharedEntry> {
    let mut entries = Vec::new(alloc);
    for place in 0..count {
        let entry = hexadecimal(rt, alloc, u64::from(place) + 1);
        push(rt, &mut entries, shared(rt, alloc, entry));
    }
    entries
}

/// A block of this many entries of 23 bytes.
fn long_block(rt: &impl Abort, alloc: Global, count: u32) -> Result<Parts, Fault> {
    let entries = long_entries(rt, alloc, count);
    let upto = u64::from(count);
    made(rt, Block::new(name(rt, b"a"), 0, 0, upto, entries))
}

#[test]
fn the_longest_block(rt: HostRuntime) {
    let alloc = rt.alloc();
    let longest = (true, (0, 0, 65_535), 65_535, 28 + 65_535 * 23);
    same(&rt, &long_block(&rt, alloc, 65_535), &Ok(longest));
    let too_long = Err(Fault::Malformed(3));
    same(&rt, &long_block(&rt, alloc, 65_536), &too_long);
}

/// The weight 5 under w, the first write of this owner.
fn first_block(rt: &impl Abort, alloc: Global, owner: &str) -> Block {
    let entry = shared(rt, alloc, weighing(rt, b"w", 1, 5));
    let entries = one(rt, alloc, entry);
    got(rt, Block::new(name(rt, owner.as_bytes()), 0, 0, 1, entries))
}

fn first_blocks(rt: &impl Abort, alloc: Global, owners: &[&str]) -> Vec<Block> {
    let mut blocks = Vec::new(alloc);
    for owner in owners {
        push(rt, &mut blocks, first_block(rt, alloc, owner));
    }
    blocks
}

/// Returns whether the delta lends a block of each of these owners.
fn lends(delta: &Delta, owners: &[&str]) -> bool {
    let mut is_lent = delta.blocks().len() == owners.len();
    for (block, owner) in delta.blocks().iter().zip(owners) {
        is_lent &= block.owner().bytes() == owner.as_bytes();
    }
    is_lent
}

/// Returns the length of a delta of one block for each of these owners, and whether it lends them. Each block takes 46
/// bytes and the owner's name.
fn delta_of(rt: &impl Abort, alloc: Global, owners: &[&str]) -> Result<(u64, bool), Fault> {
    match Delta::new(first_blocks(rt, alloc, owners)) {
        Ok(delta) => Ok((delta.encoded_length(), lends(&delta, owners))),
        Err(fault) => settled(rt, Err(fault)),
    }
}

#[test]
fn deltas_within_their_limits(rt: HostRuntime) {
    let alloc = rt.alloc();
    let no_delta = Err(Fault::Malformed(3));
    let three = Ok((3 + 47 + 48 + 47, true));
    same(&rt, &delta_of(&rt, alloc, &[]), &Ok((3, true)));
    same(&rt, &delta_of(&rt, alloc, &["a", "a-", "b"]), &three);
    same(&rt, &delta_of(&rt, alloc, &["b", "a"]), &no_delta);
    same(&rt, &delta_of(&rt, alloc, &["a", "a"]), &no_delta);
}

/// An entry of an address of this length, under a key of the version's four hexadecimal digits.
fn addressed(rt: &impl Abort, alloc: Global, version: u16, length: usize) -> Entry
    requires { 1 ≤ version }
{
    let key = got(rt, format!(in alloc; "{version:04x}"));
    let text = [b'p'; 128];
    let address = text.get(..length).unwrap_or(&[]);
    let slot = Slot::Set(got(rt, Value::addr(alloc, address)));
    entry(rt, key.as_bytes(), u64::from(version), slot)
}

/// 1,000 entries of 65 bytes, three of 143, and one of 15 and the last length.
fn addresses(rt: &impl Abort, alloc: Global, last: usize) -> Vec<SharedEntry> {
    let mut entries = Vec::new(alloc);
    for version in 1..1_005u16 {
        let length = match version {
            ..=1_000 => 50,
            1_004 => last,
            _ => 128,
        };
        let entry = addressed(rt, alloc, version, length);
        push(rt, &mut entries, shared(rt, alloc, entry));
    }
    entries
}

/// A delta of 31 bytes of heads and those entries.
fn long_delta(rt: &impl Abort, alloc: Global, last: usize) -> Result<Delta, Fault> {
    let entries = addresses(rt, alloc, last);
    let block = got(rt, Block::new(name(rt, b"a"), 0, 0, 1_004, entries));
    delta_of_block(alloc, block)
}

#[test]
fn the_longest_delta(rt: HostRuntime) {
    let longest = got(&rt, long_delta(&rt, rt.alloc(), 55));
    same(&rt, &longest.encoded_length(), &65_530);
    let too_long = refusal(&rt, long_delta(&rt, rt.alloc(), 56));
    same(&rt, &too_long, &Some(Fault::Malformed(3)));
}

/// Settings with the least or the greatest number that is allowed, for each number.
const OUTERMOST: RawSettings = RawSettings {
    cluster: b"c1",
    budget: 1_024,
    order: Order::Depth,
    max_version: 1_099_511_627_775,
    seats: 64,
    workers: 62,
};

#[test]
fn settings_within_their_limits(rt: HostRuntime) {
    let settings = got(&rt, Settings::check(OUTERMOST));
    let read = (
        settings.cluster(),
        settings.budget(),
        settings.order(),
        settings.max_version(),
        settings.seats(),
        settings.workers(),
    );
    let c1 = name(&rt, b"c1");
    let wanted = (c1, 1_024, Order::Depth, 1_099_511_627_775, 64, 62);
    same(&rt, &read, &wanted);
    let other_ends = RawSettings {
        budget: 65_536,
        max_version: 1,
        seats: 1,
        workers: 1,
        ..OUTERMOST
    };
    got(&rt, Settings::check(other_ends));
}

fn assert_refused(rt: &impl Abort, raw: RawSettings<'_>) {
    let found = Settings::check(raw).err();
    same_at(rt, &raw, &found, &Some(Fault::BadSetting));
}

fn assert_cluster(rt: &impl Abort, cluster: &[u8]) {
    assert_refused(
        rt,
        RawSettings {
            cluster,
            ..OUTERMOST
        },
    );
}

fn assert_budget(rt: &impl Abort, budget: u64) {
    assert_refused(
        rt,
        RawSettings {
            budget,
            ..OUTERMOST
        },
    );
}

fn assert_max_version(rt: &impl Abort, max_version: u64) {
    assert_refused(
        rt,
        RawSettings {
            max_version,
            ..OUTERMOST
        },
    );
}

fn assert_seats(rt: &impl Abort, seats: u64) {
    assert_refused(rt, RawSettings { seats, ..OUTERMOST });
}

fn assert_workers(rt: &impl Abort, workers: u64) {
    assert_refused(
        rt,
        RawSettings {
            workers,
            ..OUTERMOST
        },
    );
}

#[test]
fn settings_past_their_limits(rt: HostRuntime) {
    assert_cluster(&rt, b"");
    assert_cluster(&rt, b"C");
    assert_budget(&rt, 1_023);
    assert_budget(&rt, 65_537);
    assert_max_version(&rt, 0);
    assert_max_version(&rt, 1_099_511_627_776);
    assert_seats(&rt, 0);
    assert_seats(&rt, 65);
    assert_workers(&rt, 0);
    assert_workers(&rt, 63);
}
