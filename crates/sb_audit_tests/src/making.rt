//! Tables, blocks and answers for the tests.

use sb_audit::{Reason, find_foreign, find_missing};
use sb_table::Table;
use sb_types::{Block, Entry, Fault, Key, Name, SharedEntry, Slot, Value};
use std::alloc::Global;
use std::fmt::Debug;
use std::process::Abort;

/// Returns the answer. If it is a fault, ends the test and names the fault.
pub(crate) fn got<T, E: Debug + Drop>(rt: &impl Abort, answer: Result<T, E>) -> T {
    answer.expect(rt, "error")
}

/// Ends the test if the two differ, and names the case.
pub(crate) fn same_at<N: Debug, T: PartialEq + Debug>(
    rt: &impl Abort,
    at: &N,
    found: &T,
    wanted: &T,
) {
    assert_eq!(rt; found, wanted, "{at:?}");
}

/// A write of at least version 1 that sets the key to a weight.
pub(crate) fn setting(rt: &impl Abort, key: &[u8], version: u64, weight: u64) -> Entry {
    let key = got(rt, Key::read(key));
    let value = got(rt, Value::weight(weight));
    Entry::new(key, version.max(1), Slot::Set(value))
}

/// A write of at least version 1 that removes the key.
pub(crate) fn removing(rt: &impl Abort, key: &[u8], version: u64) -> Entry {
    let key = got(rt, Key::read(key));
    Entry::new(key, version.max(1), Slot::Removed)
}

/// Puts an entry at the end of a list, for a block or a table.
pub(crate) fn add(rt: &impl Abort, entries: &mut Vec<SharedEntry>, entry: Entry) {
    let alloc = *entries.allocator();
    let shared = got(rt, SharedEntry::new(alloc, entry));
    got(rt, entries.push(shared));
}

/// Enters a write of a later version than all that the table has. Refuses all others as `OutOfTurn`.
fn enter(table: &mut Table, entry: Entry) -> Result<(), Fault> {
    let version = entry.version();
    if version <= table.upto() {
        return Err(Fault::OutOfTurn(version));
    }
    table.push(entry)
}

/// The write of a letter. A small letter sets the key of this letter to a weight. A capital one removes the key.
fn lettered(rt: &impl Abort, letter: u8, version: u64, weight: u64) -> Entry {
    let key = [letter.to_ascii_lowercase()];
    if letter.is_ascii_uppercase() {
        removing(rt, &key, version)
    } else {
        setting(rt, &key, version, weight)
    }
}

/// The table of a log that gave these writes, one for each letter. Each weight is the version of its write plus `more`.
pub(crate) fn log_of(rt: &impl Abort, alloc: Global, letters: &[u8], more: u64) -> Table {
    let mut table = Table::new(alloc);
    for letter in letters {
        let version = table.upto().saturating_add(1);
        let entry = lettered(rt, *letter, version, version.saturating_add(more));
        got(rt, enter(&mut table, entry));
    }
    table
}

/// Purges the table up to a version, if that is from its floor to its held version.
pub(crate) fn purge(table: &mut Table, floor: u64) {
    let upto = table.upto();
    if table.floor() <= floor && floor <= upto {
        table.raise(upto, floor);
    }
}

/// The block of the entries above a version, as whoever holds the table sends it.
pub(crate) fn block_above(rt: &impl Abort, alloc: Global, table: &Table, after: u64) -> Block {
    let mut entries = Vec::new(alloc);
    for entry in table.shared_after(after) {
        let same = got(rt, entry.share());
        got(rt, entries.push(same));
    }
    let name = got(rt, Name::read(b"a"));
    got(
        rt,
        Block::new(name, table.floor(), after, table.upto(), entries),
    )
}

/// The version of the first foreign entry of a block, with the reason, and the version of the first missing one.
pub(crate) type Findings = (Option<(u64, Reason)>, Option<u64>);

pub(crate) fn findings(table: &Table, block: &Block) -> Findings {
    let foreign = match find_foreign(table, block) {
        Some(found) => Some((found.entry.version(), found.reason)),
        None => None,
    };
    let missing = match find_missing(table, block) {
        Some(own) => Some(own.version()),
        None => None,
    };
    (foreign, missing)
}
