//! A test for equal keys among entries.

ghost use Rattle.std.specs.Prelude.{◌≡◌, true};
ghost use Rattle.sb_types.specs.Runs.{are_ascending, are_distinct};

use crate::shared::SharedEntry;

/// Returns whether all entries have different keys. The entries have to be in ascending version, and are so again
/// afterwards. It takes no memory: it sorts the entries by key, compares neighbours, and sorts them back.
pub fn are_keys_distinct(entries: &mut [SharedEntry]) -> bool
    requires { are_ascending 0 entries.old ≡ true }
    ensures value { result ≡ are_distinct entries.old }
    ensures same { entries.new ≡ entries.old }
{
    entries.sort_unstable_by(|entry, other| entry.key().cmp(other.key()));
    let distinct = entries.is_sorted_by(|entry, next| entry.key() < next.key());
    entries.sort_unstable_by_key(|entry| entry.version());
    distinct
}
