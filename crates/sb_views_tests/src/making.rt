//! Names, entries and holdings for the tests, and how a printing ends.
use crate::{got, same};
use sb_codec::Row;
use sb_frames::LastWrite;
use sb_holdings::{BlockEnd, Holdings};
use sb_table::Table;
use sb_types::{Block, Entry, Fault, Key, Name, Prefix, Slot, Value};
use std::alloc::Global;
use std::process::Abort;

pub(crate) fn name(rt: &impl Abort, text: &[u8]) -> Name {
    got(rt, Name::read(text))
}

pub(crate) fn key(rt: &impl Abort, text: &[u8]) -> Key {
    got(rt, Key::read(text))
}

pub(crate) fn prefix(rt: &impl Abort, text: &[u8]) -> Prefix {
    got(rt, Prefix::read(text))
}

pub(crate) fn weight(rt: &impl Abort, number: u64) -> Value {
    got(rt, Value::weight(number))
}

/// The owner to ask about. `None`, for all owners, if the text is empty.
pub(crate) fn owner_of(rt: &impl Abort, text: &[u8]) -> Option<Name> {
    if text.is_empty() {
        return None;
    }
    Some(name(rt, text))
}

/// A write of a key, or its removal if there is no value.
pub(crate) fn entry(rt: &impl Abort, text: &[u8], version: u64, value: Option<Value>) -> Entry {
    if version == 0 {
        panic!(rt; "error: version 0");
    }
    let slot = match value {
        Some(value) => Slot::Set(value),
        None => Slot::Removed,
    };
    Entry::new(key(rt, text), version, slot)
}

// The two words of a value.
pub(crate) type Words = (&'static [u8], &'static [u8]);

// An owner, a key, a version, and a value.
pub(crate) type RowParts = (&'static [u8], &'static [u8], u64, Words);

/// The value of these words.
pub(crate) fn value_of(rt: &impl Abort, alloc: Global, words: Words) -> Value {
    got(rt, Value::from_words(alloc, words.0, words.1))
}

fn row_of(rt: &impl Abort, alloc: Global, parts: RowParts) -> Row {
    let (owner, text, version, words) = parts;
    let (owner, key) = (name(rt, owner), key(rt, text));
    got(
        rt,
        Row::new(owner, key, version, value_of(rt, alloc, words)),
    )
}

pub(crate) fn rows_of(rt: &impl Abort, alloc: Global, parts: &[RowParts]) -> Vec<Row> {
    let mut rows = Vec::new(alloc);
    for one in parts {
        got(rt, rows.push(row_of(rt, alloc, *one)));
    }
    rows
}

/// What a node a holds before it has written anything.
pub(crate) fn holdings_of_a(rt: &impl Abort, alloc: Global) -> Holdings {
    got(rt, Holdings::new(alloc, name(rt, b"a"), Table::new(alloc)))
}

/// The node takes a block. If memory was missing for it, the test ends.
pub(crate) fn apply(rt: &impl Abort, holdings: &mut Holdings, block: &Block) {
    if let BlockEnd::NoMemory(_) = holdings.apply_block(block) {
        panic!(rt; "error: NoMemory");
    }
}

/// How a printing ended, and whether its last write failed.
pub(crate) type Ended = (Result<(), Fault>, bool);

/// The end of a printing, unless memory ran out.
pub(crate) fn settled(rt: &impl Abort, printed: (Result<(), Fault>, LastWrite)) -> Ended {
    let (ended, last) = printed;
    if ended == Err(Fault::NoMemory) {
        panic!(rt; "error: NoMemory");
    }
    (ended, last.has_failed())
}

/// How printing these lines ended. It is a fault too if the last write is reported as failed.
fn whole(printed: (Result<(), Fault>, LastWrite), lines: &[u8]) -> Result<(), Fault> {
    let (ended, last) = printed;
    match (ended, last.has_failed()) {
        (Ok(()), true) => Err(Fault::WriteFailed(lines.len() as u64)),
        (ended, _) => ended,
    }
}

/// Tests that a printing has exactly these lines, and that no write of them is reported as failed.
pub(crate) fn has_lines(
    rt: &impl Abort,
    printed: (Result<(), Fault>, LastWrite),
    lines: &[u8],
    wanted: &[u8],
) {
    got(rt, whole(printed, lines));
    same(rt, &lines, &wanted);
}

/// Tests that a printing ended at a write that failed after so many bytes.
pub(crate) fn failed_behind(rt: &impl Abort, ended: Ended, left: usize) {
    same(rt, &ended, &(Err(Fault::WriteFailed(left as u64)), true));
}
