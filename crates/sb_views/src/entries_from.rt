//! The entries of a list from a start on.
ghost use Rattle.std.specs.Prelude.{◌≡◌, ◌≤◌, not, filter, drop, length};
ghost use Rattle.std.specs.Ordering.{nat_cmp};
ghost use Rattle.std.specs.Cmp.Lexicographic.{slice_cmp};
ghost use Rattle.std.specs.BTreeMap.Range.{is_from_start};
ghost use Rattle.sb_table.specs.Order.{IsRising};

use sb_types::{Key, SharedEntry};
use std::ops::Bound;

/// Returns the entries from a start on. They have to be sorted by key.
pub(crate) fn from_start(entries: &[SharedEntry], start: Bound<Key>) -> &[SharedEntry]
    requires { IsRising entries.now }
    ensures { result.now ≡ filter (λ e. is_from_start (slice_cmp nat_cmp) start e.key) entries.now }
{
    &entries[count_before(entries, start)..]
}

/// Returns how many entries are before a start.
fn count_before(entries: &[SharedEntry], start: Bound<Key>) -> usize
    requires { IsRising entries.now }
    ensures count { result ≤ length entries.now }
    ensures others { drop result entries.now ≡ filter (λ e. is_from_start (slice_cmp nat_cmp) start e.key) entries.now }
{
    entries.partition_point(|shared| is_before(&start, shared.entry().key()))
}

/// Returns whether a key is before a start.
fn is_before(start: &Bound<Key>, key: &Key) -> bool
    ensures { result ≡ not (is_from_start (slice_cmp nat_cmp) start.now key.now) }
{
    match start {
        Bound::Included(first) => key.cmp(first).is_lt(),
        Bound::Excluded(last) => key.cmp(last).is_le(),
        Bound::Unbounded => false,
    }
}
