//! Whether slots are equal, and the entry of a version.

ghost use Rattle.std.specs.Prelude.{◌≡◌, ◌≤◌, true};
ghost use Rattle.std.specs.Option.{option_copied};
ghost use Rattle.sb_types.specs.Runs.{are_ascending, entry_at};
ghost use Rattle.sb_audit.specs.Search.{entry_of, is_same_slot};

use sb_table::{Table, entries_above};
use sb_types::{Entry, Key, SharedEntry, Slot};

/// Returns whether two slots are equal.
pub(crate) fn is_same_slot(slot: &Slot, other: &Slot) -> bool
    ensures { result ≡ is_same_slot slot.now other.now }
{
    match (slot, other) {
        (Slot::Set(value), Slot::Set(it)) => value.is_same(it),
        (Slot::Removed, Slot::Removed) => true,
        (_, _) => false,
    }
}

/// Returns the entry of a version in a table, by one look-up. The version has to be at least 1.
#[tactic(auto, using(crate::proofs::Versions::entry_above, crate::proofs::Versions::front_none, crate::proofs::Versions::front_same, crate::proofs::Versions::front_apart))]
pub(crate) fn entry_of(table: &Table, version: u64) -> Option<&Entry>
    requires { 1 ≤ version }
    ensures { option_copied result ≡ entry_of version table.now.entries }
{
    match table.after(version - 1).next() {
        Some(entry) if entry.version() == version => Some(entry),
        _ => None,
    }
}

/// Returns the entry of a version in a list, by a search of the half in which it is. The versions have to ascend, and
/// the version has to be at least 1.
#[tactic(auto, using(crate::proofs::Versions::entry_above, crate::proofs::Versions::front_none, crate::proofs::Versions::front_same, crate::proofs::Versions::front_apart))]
pub(crate) fn entry_among(entries: &[SharedEntry], version: u64) -> Option<&SharedEntry>
    requires version { 1 ≤ version }
    requires ascending { are_ascending 0 entries.now ≡ true }
    ensures { option_copied result ≡ entry_of version entries.now }
{
    match entries_above(entries, version - 1).first() {
        Some(entry) if entry.version() == version => Some(entry),
        _ => None,
    }
}

/// Returns the entry of a key in a table, by two look-ups.
#[tactic(auto, using(crate::proofs::Versions::kept_version, crate::proofs::Versions::kept_entry, crate::proofs::Versions::none_kept))]
pub(crate) fn entry_at<'a>(table: &'a Table, key: &Key) -> Option<&'a Entry>
    ensures { option_copied result ≡ entry_at key.now table.now.entries }
{
    let (version, _) = table.get(key)?;
    entry_of(table, version)
}
