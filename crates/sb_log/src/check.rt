//! Which writes a log refuses, before anything is kept.
ghost use Rattle.std.specs.Prelude.{◌≡◌, ◌≤◌, true, None, Some, Err, IfOk, IfErr, OnOk, OnErr};
ghost use Rattle.sb_types.specs.Limits.{is_entry};
ghost use Rattle.sb_table.specs.Plain.{with_entry};
ghost use Rattle.sb_table.specs.Contents.{IsContent};
ghost use Rattle.sb_log.specs.Puts as spec;

use sb_table::Table;
use sb_types::{Entry, Fault, Key, Slot};
use std::alloc::Global;

/// Enters a write into a table under the next version, and returns its entry. The reason of `refusal`; then `NoMemory`. Both leave
/// the table as it was.
pub(crate) fn accept(
    table: &mut Table,
    alloc: Global,
    max_version: u64,
    key: &Key,
    slot: &Slot,
) -> Result<Entry, Fault>
    ensures fits { OnOk result (spec.refusal max_version table.old key.now slot.now ≡ None) }
    ensures entry { IfOk result (λ e. e ≡ spec.next_entry table.old key.now slot.now) }
    ensures entered { IfOk result (λ e. table.new ≡ with_entry table.old e) }
    ensures table { IsContent table.old → IsContent table.new }
    ensures limits { IfOk result (λ e. is_entry e ≡ true) }
    ensures version { IfOk result (λ e. e.version ≤ max_version) }
    ensures err { OnErr result (table.new ≡ table.old) }
    ensures refused { (fault : Fault) → spec.refusal max_version table.old key.now slot.now ≡ Some fault → result ≡ Err fault }
    ensures memory { spec.refusal max_version table.old key.now slot.now ≡ None → IfErr result (λ fault. fault ≡ Fault.NoMemory) }
{
    if let Some(fault) = refusal(table, max_version, key, slot) {
        return Err(fault);
    }
    let version = table.upto() + 1;
    let entry = Entry::new(*key, version, slot.copy(alloc)?);
    // Does nothing: the call tells the prover that the entry keeps its limits.
    let _ = entry.version();
    let kept = entry.copy(alloc)?;
    table.push(kept)?;
    Ok(entry)
}

/// Why a log of these entries refuses a write: the first reason that holds.
pub(crate) fn refusal(table: &Table, max_version: u64, key: &Key, slot: &Slot) -> Option<Fault>
    ensures { result ≡ spec.refusal max_version table.now key.now slot.now }
{
    if is_idle(table, key, slot) {
        return Some(Fault::NothingThere);
    }
    if table.is_full_for(key) {
        return Some(Fault::TableFull);
    }
    if table.upto() >= max_version {
        return Some(Fault::VersionsSpent);
    }
    None
}

/// Whether it is a removal of a key that has no value.
fn is_idle(table: &Table, key: &Key, slot: &Slot) -> bool
    ensures { result ≡ spec.is_idle table.now key.now slot.now }
{
    match slot {
        Slot::Set(_) => false,
        Slot::Removed => !matches!(table.get(key), Some((_, Slot::Set(_)))),
    }
}
