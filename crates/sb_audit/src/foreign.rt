//! The entries of a block that its owner's log never gave.

ghost use Rattle.std.specs.Prelude.{◌≡◌, None, IfSome, IfNone};
ghost use Rattle.std.specs.Option.{option_copied, option_map};
ghost use Rattle.sb_types.specs.Records as records;
ghost use Rattle.sb_types.specs.Runs.{Stands, entry_at};
ghost use Rattle.sb_table.specs.Floors.{IsKeptTable};
ghost use Rattle.sb_audit.specs.Foreign.{IsForeign, IsReason, IsFirst};
ghost use Rattle.sb_audit.specs.Search.{own_beside, reason_beside, reason_by_key, reason_of, first_foreign};

use crate::same::{entry_at, entry_of, is_same_slot};
use sb_table::Table;
use sb_types::{Block, Entry, SharedEntry, Slot};

/// Why the log of a node never gave an entry that a block of the node's own name has. The node's own table shows it. If
/// several reasons fit, it is the first of them.
#[derive(Clone, Copy, Debug, PartialEq, Eq)]
pub enum Reason {
    /// The version is above the table's held version: the log has not come so far.
    AheadOfLog,
    /// The table has the key with this version, and another slot.
    OtherSlot,
    /// The table has another key with this version.
    OtherKey,
    /// The table has the key with an earlier version. So the log never wrote the key again.
    LaterWrite,
    /// The table has the key with a later version, and the block reaches up to that. So it would have that entry.
    EarlierWrite,
    /// The table does not have the key, and its purge floor does not explain that. A removal at or below the floor may
    /// be gone. So may an entry below the floor, if the block does not reach up to the floor: its removal may be gone.
    UnknownKey,
}

/// An entry of a block that the log of the block's owner never gave, and why not.
#[derive(Clone, Copy, Debug)]
pub struct Foreign<'a> {
    pub entry: &'a Entry,
    pub reason: Reason,
}

/// Returns the first foreign entry of a block, and the first reason that fits. Returns `None` if no entry is foreign. The
/// block has to be of the node's own name, and the table the node's own, of a moment after the block was made. An older
/// table would lack the latest writes. Each entry takes a look-up by version and one by key. It takes no memory.
pub fn find_foreign<'a>(table: &Table, block: &'a Block) -> Option<Foreign<'a>>
    ensures found { IfSome result (λ foreign. IsFirst (IsForeign table.now block.now.upto) block.now.entries foreign.entry.now) }
    ensures reason { IfSome result (λ foreign. IsReason table.now block.now.upto foreign.entry.now foreign.reason) }
    ensures none { IfNone result ((e : records.Entry) → Stands block.now.entries e → IsForeign table.now block.now.upto e → ⊥) }
{
    first_foreign(table, block.upto(), block.entries())
}

/// Returns the own entry that an entry differs from: that of the same version, or else that of the same key. Returns
/// `None` if the table has neither. It takes at most three look-ups, and no memory.
pub fn find_own<'a>(table: &'a Table, entry: &Entry) -> Option<&'a Entry>
    ensures { option_copied result ≡ own_beside table.now entry.now }
{
    match entry_of(table, entry.version()) {
        Some(own) => Some(own),
        None => entry_at(table, entry.key()),
    }
}

/// Returns the first of these entries that has a reason, with that reason.
fn first_foreign<'a>(table: &Table, upto: u64, entries: &'a [SharedEntry]) -> Option<Foreign<'a>>
    ensures first { option_map (λ foreign. (foreign.entry.now, foreign.reason)) result ≡ first_foreign table.now upto entries.now }
    ensures table { IsKeptTable table.now }
{
    // Proof only: the call shows that the table keeps its limits.
    let _ = table.upto();
    for entry in entries {
        if let Some(reason) = reason_of(table, upto, entry) {
            let entry = entry.entry();
            return Some(Foreign { entry, reason });
        }
    }
    None
}

/// Returns why the log never gave an entry of a block that reaches up to `upto`.
fn reason_of(table: &Table, upto: u64, entry: &SharedEntry) -> Option<Reason>
    ensures { result ≡ reason_of table.now upto entry.now }
{
    if entry.version() > table.upto() {
        return Some(Reason::AheadOfLog);
    }
    match entry_of(table, entry.version()) {
        Some(own) => reason_beside(own, entry),
        None => reason_by_key(table, upto, entry),
    }
}

/// Returns the reason, if the table has the first entry of the same version.
fn reason_beside(own: &Entry, entry: &SharedEntry) -> Option<Reason>
    ensures { result ≡ reason_beside own.now entry.now }
{
    if own.key() != entry.key() {
        Some(Reason::OtherKey)
    } else if is_same_slot(own.slot(), entry.slot()) {
        None
    } else {
        Some(Reason::OtherSlot)
    }
}

/// Returns the reason, if the table has no entry of the same version.
fn reason_by_key(table: &Table, upto: u64, entry: &SharedEntry) -> Option<Reason>
    ensures { result ≡ reason_by_key table.now.floor upto entry.now (entry_at entry.now.key table.now.entries) }
{
    let Some((last, _)) = table.get(entry.key()) else {
        return reason_without_key(table.floor(), upto, entry);
    };
    if last < entry.version() {
        Some(Reason::LaterWrite)
    } else if last <= upto {
        Some(Reason::EarlierWrite)
    } else {
        None
    }
}

/// Returns the reason, if the table of this floor does not have the key.
fn reason_without_key(floor: u64, upto: u64, entry: &SharedEntry) -> Option<Reason>
    ensures { result ≡ reason_by_key floor upto entry.now None }
{
    if entry.version() > floor || matches!(entry.slot(), Slot::Set(_)) && floor <= upto {
        Some(Reason::UnknownKey)
    } else {
        None
    }
}
