//! When a node purges its own table, and up to which version.
ghost use Rattle.std.specs.Prelude.{◌≡◌, slice_get};
ghost use Rattle.std.specs.Option.{option_map};
ghost use Rattle.sb_node.specs.Purging.{removals, removals_in, is_purge_due, due_floor};

use sb_table::Table;
use sb_types::{KEYS_MOST, Slot};

/// How many removed keys a full table has at least before it is purged.
const FULL_REMOVALS: usize = 64;

/// Returns how many removed keys a table has.
fn count_removals(table: &Table) -> usize
    ensures { result ≡ removals_in table.now.entries }
{
    let mut count = 0;
    for entry in table.after(0) {
        if matches!(entry.slot(), Slot::Removed) {
            count += 1;
        }
    }
    count
}

/// Returns the version of a removal, by how many removals are older.
#[tactic(auto, using(crate::proofs::Removals::first_removal, crate::proofs::Removals::first_value))]
fn removal_at(table: &Table, older: usize) -> Option<u64>
    ensures { result ≡ option_map (λ e. e.version) (slice_get (removals table.now.entries) older) }
{
    let mut left = older;
    for entry in table.after(0) {
        if matches!(entry.slot(), Slot::Removed) {
            if left == 0 {
                return Some(entry.version());
            }
            left -= 1;
        }
    }
    None
}

/// Returns whether a table of so many keys is purged, if so many of them are removed.
fn is_due(least: u64, keys: usize, removed: usize) -> bool
    ensures { result ≡ is_purge_due least keys removed }
{
    let is_full = keys >= KEYS_MOST && removed >= FULL_REMOVALS;
    least > 0 && (removed as u64 >= least || is_full)
}

/// Returns the version of the middle one of a table's removals, if there are `least` of them, or 64 in a full table. If
/// `least` is 0, it returns `None`. It takes one step for each key.
#[tactic(auto, using(crate::proofs::Removals::few_removals, crate::proofs::Removals::due_some))]
pub(crate) fn due_floor(table: &Table, least: u64) -> Option<u64>
    ensures { result ≡ due_floor least table.now }
{
    let removed = count_removals(table);
    if is_due(least, table.len(), removed) {
        removal_at(table, (removed + 1) / 2 - 1)
    } else {
        None
    }
}
