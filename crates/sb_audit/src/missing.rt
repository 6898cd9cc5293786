//! The entries of a node's own table that a block lacks.

ghost use Rattle.std.specs.Prelude.{◌≡◌, true, IfSome, IfNone};
ghost use Rattle.std.specs.Option.{option_copied};
ghost use Rattle.sb_types.specs.Records as records;
ghost use Rattle.sb_types.specs.Limits.{is_delta_block};
ghost use Rattle.sb_types.specs.Runs.{Stands, newer_entries};
ghost use Rattle.sb_table.specs.Floors.{IsKeptTable, is_dead};
ghost use Rattle.sb_audit.specs.Foreign.{IsFirst};
ghost use Rattle.sb_audit.specs.Missing.{IsMissing};
ghost use Rattle.sb_audit.specs.Search.{entry_of, is_entry, is_lacking, first_lacking};

use crate::same::{entry_among, is_same_slot};
use sb_table::Table;
use sb_types::{Block, Entry, Slot};

/// Returns the first entry of the own table that a block of the node's own name lacks. Such a block reaches from below
/// the entry's version up to it, and does not have the entry. A tombstone at or below the block's floor may be gone.
/// Returns `None` if the block lacks none. Each entry in the block's range takes a look-up in the block. It takes no
/// memory.
pub fn find_missing<'a>(table: &'a Table, block: &Block) -> Option<&'a Entry>
    ensures missing { IfSome result (λ own. IsFirst (IsMissing block.now) table.now.entries own.now) }
    ensures none { IfNone result ((own : records.Entry) → Stands table.now.entries own → IsMissing block.now own → ⊥) }
{
    first_lacking(table, block)
}

/// Returns the first entry of the table above `after` of the block that the block lacks.
fn first_lacking<'a>(table: &'a Table, block: &Block) -> Option<&'a Entry>
    ensures first { option_copied result ≡ first_lacking block.now (newer_entries block.now.after table.now.entries) }
    ensures table { IsKeptTable table.now }
    ensures block { is_delta_block block.now ≡ true }
{
    for own in table.after(block.after()) {
        if own.version() > block.upto() {
            return None;
        }
        if is_lacking(block, own) {
            return Some(own);
        }
    }
    None
}

/// Returns whether a block has no such entry, and its floor lets the entry stay.
fn is_lacking(block: &Block, own: &Entry) -> bool
    ensures { result ≡ is_lacking block.now own.now }
{
    !is_dead(own, block.floor()) && !has_entry(block, own)
}

/// Returns whether an entry is a tombstone at or below a floor.
fn is_dead(entry: &Entry, floor: u64) -> bool
    ensures { result ≡ is_dead floor entry.now }
{
    matches!(entry.slot(), Slot::Removed) && entry.version() <= floor
}

/// Returns whether a block has an entry.
fn has_entry(block: &Block, own: &Entry) -> bool
    ensures { result ≡ is_entry own.now (entry_of own.now.version block.now.entries) }
{
    match entry_among(block.entries(), own.version()) {
        Some(entry) => own.key() == entry.key() && is_same_slot(own.slot(), entry.slot()),
        None => false,
    }
}
