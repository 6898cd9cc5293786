//! At which places of a list of shared entries a key, a version or a prefix is.

ghost use Rattle.std.specs.Prelude.{◌≡◌, ◌≤◌, nat_le, nat_lt, true, false, length, take, drop};
ghost use Rattle.std.specs.List.{AllWithin};
ghost use Rattle.std.specs.List.Sorted.{IsBinarySearchResult, IsSearchInRange};
ghost use Rattle.std.specs.Ordering.{nat_cmp};
ghost use Rattle.std.specs.Cmp.Lexicographic.{slice_cmp};
ghost use Rattle.sb_types.specs.Limits.{text_lt};
ghost use Rattle.sb_types.specs.Runs.{newer_entries, live_entries, are_ascending, last_version};
ghost use Rattle.sb_table.specs.Order.{IsRising, entries_with_prefix};

use crate::entries::is_dead;
use sb_types::{Key, Prefix, SharedEntry};

/// Returns the place of a key in a list of entries that is sorted by key. If the list does not have the key, it returns
/// the place at which the key would be inserted, as an `Err`.
pub fn place_of(keys: &[SharedEntry], key: &Key) -> Result<usize, usize>
    ensures bound { IsSearchInRange result (length keys.now) }
    ensures place { IsBinarySearchResult (λ e. slice_cmp nat_cmp e.key key.now) keys.now result }
{
    keys.binary_search_by(|shared| shared.entry().key().cmp(key))
}

/// Returns at which place the entries above a version begin. It looks first at the place where they begin if no later
/// write replaced another.
pub(crate) fn first_above_in(entries: &[SharedEntry], version: u64) -> usize
    requires { are_ascending 0 entries.now ≡ true }
    ensures place { result ≤ length entries.now }
    ensures entries { drop result entries.now ≡ newer_entries version entries.now }
{
    let least = least_above(entries, version);
    if least == entries.len() || entries[least].entry().version() > version {
        return least;
    }
    entries.partition_point(|shared| shared.entry().version() <= version)
}

/// Returns a place before which no entry is above a version. From there on the table has as many entries as there are
/// versions above that one, or all its entries.
fn least_above(entries: &[SharedEntry], version: u64) -> usize
    requires { are_ascending 0 entries.now ≡ true }
    ensures place { result ≤ length entries.now }
    ensures upto { AllWithin (λ e. nat_le e.version version ≡ true) entries.now 0 result }
{
    let later = last_version_of(entries).saturating_sub(version);
    (entries.len() as u64).saturating_sub(later) as usize
}

/// Returns at which place the entries begin whose versions are not below this one.
pub(crate) fn first_from_version(entries: &[SharedEntry], version: u64) -> usize
    requires { are_ascending 0 entries.now ≡ true }
    ensures place { result ≤ length entries.now }
    ensures below { AllWithin (λ e. nat_lt e.version version ≡ true) entries.now 0 result }
    ensures from { AllWithin (λ e. nat_lt e.version version ≡ false) entries.now result (length entries.now) }
{
    entries.partition_point(|shared| shared.entry().version() < version)
}

/// Returns the version of the last entry, or 0 if there is none.
pub(crate) fn last_version_of(entries: &[SharedEntry]) -> u64
    ensures { result ≡ last_version 0 entries.now }
{
    match entries {
        [.., last] => last.entry().version(),
        [] => 0,
    }
}

/// Removes the tombstones at or below a version. A tombstone is the marker of a removed key.
pub(crate) fn keep_live(entries: &mut Vec<SharedEntry>, floor: u64)
    ensures { entries.new.items ≡ live_entries floor entries.old.items }
{
    entries.retain(|shared| !is_dead(shared.entry(), floor));
}

/// Returns the entries whose keys begin with the prefix.
pub(crate) fn under<'a>(keys: &'a [SharedEntry], prefix: &Prefix) -> &'a [SharedEntry]
    requires { IsRising keys.now }
    ensures { result.now ≡ entries_with_prefix prefix.now keys.now }
{
    let from_start = &keys[first_from(keys, prefix)..];
    &from_start[..count_under(from_start, prefix)]
}

/// Returns at which place the keys begin that are not before the prefix.
fn first_from(keys: &[SharedEntry], prefix: &Prefix) -> usize
    requires { IsRising keys.now }
    ensures place { result ≤ length keys.now }
    ensures before { AllWithin (λ e. text_lt e.key prefix.now ≡ true) keys.now 0 result }
    ensures from { AllWithin (λ e. text_lt e.key prefix.now ≡ false) keys.now result (length keys.now) }
{
    keys.partition_point(|shared| shared.entry().key().bytes().cmp(prefix.bytes()).is_lt())
}

/// Returns how many keys begin with the prefix, all of which come first.
fn count_under(keys: &[SharedEntry], prefix: &Prefix) -> usize
    requires rising { IsRising keys.now }
    requires from { AllWithin (λ e. text_lt e.key prefix.now ≡ false) keys.now 0 (length keys.now) }
    ensures place { result ≤ length keys.now }
    ensures under { take result keys.now ≡ entries_with_prefix prefix.now keys.now }
{
    keys.partition_point(|shared| shared.entry().key().bytes().starts_with(prefix.bytes()))
}
