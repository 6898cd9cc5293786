//! How an entry is entered in place of its key's old one.

ghost use Rattle.std.specs.Prelude.{◌≡◌, ◌≤◌, ◌<◌, ◌∷◌, ◌++◌, [], length, slice_set, OnOk, OnErr, IfErr};
ghost use Rattle.std.specs.List.{HoldsAt, insert};
ghost use Rattle.sb_types.specs.Runs.{Stands, entries_after};
ghost use Rattle.sb_table.specs.Plain.{IsPlainTable, plain_table};
ghost use Rattle.sb_table.specs.Order.{by_key};

use crate::places::{first_from_version, place_of};
use sb_types::{Fault, SharedEntry};

/// Enters an entry after all others, and removes the entry that its key had. `keys` has the same entries, sorted by
/// key. The only fault is `NoMemory`, which leaves the entries as they were.
pub(crate) fn enter(
    entries: &mut Vec<SharedEntry>,
    keys: &mut Vec<SharedEntry>,
    entry: SharedEntry,
) -> Result<(), Fault>
    requires table { IsPlainTable (plain_table entries.old.items) }
    requires keys { keys.old.items ≡ by_key entries.old.items }
    ensures ok { OnOk result (entries.new.items ≡ entries_after entries.old.items (entry ∷ [])) }
    ensures err { OnErr result (entries.new.items ≡ entries.old.items) }
    ensures keys { keys.new.items ≡ by_key entries.new.items }
    ensures fault { IfErr result (λ fault. fault ≡ Fault.NoMemory) }
{
    match place_of(keys, entry.entry().key()) {
        Ok(place) => replace(entries, keys, place, entry),
        Err(place) => add(entries, keys, place, entry),
    }
}

/// Enters an entry of a new key, which belongs at this place among the keys. The only fault is `NoMemory`, which leaves
/// the entries as they were.
fn add(
    entries: &mut Vec<SharedEntry>,
    keys: &mut Vec<SharedEntry>,
    place: usize,
    entry: SharedEntry,
) -> Result<(), Fault>
    requires { place ≤ length keys.old.items }
    ensures ok { OnOk result ((entries.new.items ≡ entries.old.items ++ entry ∷ []) × (keys.new.items ≡ insert keys.old.items place entry)) }
    ensures err { OnErr result ((entries.new.items ≡ entries.old.items) × (keys.new.items ≡ keys.old.items)) }
    ensures fault { IfErr result (λ fault. fault ≡ Fault.NoMemory) }
{
    entries.reserve(1)?;
    let same = entry.share()?;
    keys.insert(place, same)?;
    entries.push_reserved(entry);
    Ok(())
}

/// Enters an entry in place of the one that is at this place among the keys. The only fault is `NoMemory`, which leaves
/// the entries as they were.
fn replace(
    entries: &mut Vec<SharedEntry>,
    keys: &mut Vec<SharedEntry>,
    place: usize,
    entry: SharedEntry,
) -> Result<(), Fault>
    requires table { IsPlainTable (plain_table entries.old.items) }
    requires place { place < length keys.old.items }
    requires stands { HoldsAt (λ x. Stands entries.old.items x × (x.key ≡ entry.key)) keys.old.items place }
    ensures ok { OnOk result ((entries.new.items ≡ entries_after entries.old.items (entry ∷ [])) × (keys.new.items ≡ slice_set keys.old.items place entry)) }
    ensures err { OnErr result ((entries.new.items ≡ entries.old.items) × (keys.new.items ≡ keys.old.items)) }
    ensures fault { IfErr result (λ fault. fault ≡ Fault.NoMemory) }
{
    // Proof only: after the call the list is known to be no longer than its room.
    entries.reserve(0)?;
    let same = entry.share()?;
    let at = first_from_version(entries, keys[place].entry().version());
    keys[place] = same;
    entries.remove(at);
    entries.push_reserved(entry);
    Ok(())
}
