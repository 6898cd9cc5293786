//! What a swap takes from the shown table and from the stage.

ghost use Rattle.std.specs.Prelude.{◌≡◌, ◌<◌, false, ◌++◌, OnOk, IfErr};
ghost use Rattle.sb_types.specs.Runs.{newer_entries, entries_up_to, entries_with_keys, live_entries};
ghost use Rattle.sb_table.specs.Plain.{IsPlainTable, plain_table, with_entry, is_full_for};

use crate::entries::{Entries, is_dead};
use sb_types::{Fault, SharedEntry};

/// Enters a later entry that another table has, for which there is room. The only fault is `NoMemory`.
fn push_copy(into: &mut Entries, entry: &SharedEntry) -> Result<(), Fault>
    requires later { into.old.held < entry.now.version }
    requires room { is_full_for entry.now.key into.old.entries ≡ false }
    ensures ok { OnOk result (into.new ≡ with_entry into.old entry.now) }
    ensures fault { IfErr result (λ fault. fault ≡ Fault.NoMemory) }
{
    into.push_shared(entry)
}

/// Takes the shown entries of the keys that the stage has at or below a version. It leaves out tombstones (the markers
/// of removed keys) up to the floor. The only fault is `NoMemory`, after which some may be taken.
pub(crate) fn keep_shown(
    into: &mut Entries,
    shown: &Entries,
    staged: &Entries,
    upto: u64,
    floor: u64,
) -> Result<(), Fault>
    requires whole { IsPlainTable (plain_table (into.old.entries ++ live_entries floor (entries_with_keys (entries_up_to upto staged.now.entries) shown.now.entries))) }
    requires into { IsPlainTable into.old }
    ensures ok { OnOk result (into.new ≡ plain_table (into.old.entries ++ live_entries floor (entries_with_keys (entries_up_to upto staged.now.entries) shown.now.entries))) }
    ensures fault { IfErr result (λ fault. fault ≡ Fault.NoMemory) }
{
    for entry in shown.shared_after(0) {
        if staged.has_up_to(entry.entry().key(), upto) && !is_dead(entry.entry(), floor) {
            push_copy(into, entry)?;
        }
    }
    Ok(())
}

/// Takes the stage's entries above a version, without tombstones up to the floor. The only fault is `NoMemory`, after
/// which some may be copied.
pub(crate) fn add_staged(
    into: &mut Entries,
    staged: &Entries,
    upto: u64,
    floor: u64,
) -> Result<(), Fault>
    requires whole { IsPlainTable (plain_table (into.old.entries ++ live_entries floor (newer_entries upto staged.now.entries))) }
    requires into { IsPlainTable into.old }
    ensures ok { OnOk result (into.new ≡ plain_table (into.old.entries ++ live_entries floor (newer_entries upto staged.now.entries))) }
    ensures fault { IfErr result (λ fault. fault ≡ Fault.NoMemory) }
{
    for entry in staged.shared_after(upto) {
        if !is_dead(entry.entry(), floor) {
            push_copy(into, entry)?;
        }
    }
    Ok(())
}
