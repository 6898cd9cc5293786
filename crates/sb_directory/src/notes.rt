//! Noting in watches what was entered.
ghost use Rattle.std.specs.Prelude.{◌≡◌, ◌∷◌, [], IfOk, IfErr};
ghost use Rattle.sb_directory.specs.Notes as spec;

use sb_holdings::Holdings;
use sb_table::Table;
use sb_types::{Block, Entry, Fault, Name};
use sb_watch::{Hub, Note};
use std::alloc::Global;

/// Notes a write in watches.
pub(crate) fn push_note(hub: &mut Hub, owner: &Name, entry: &Entry)
    ensures { hub.new ≡ spec.with_notes hub.old (spec.note_of owner.now entry.now ∷ []) }
{
    let key = *entry.key();
    hub.push(&Note {
        owner: *owner,
        key: Some(key),
        version: entry.version(),
    });
}

/// Notes in watches that an owner's table was replaced, if its floor is above the version up to which it was held.
fn push_clear(hub: &mut Hub, owner: &Name, table: &Table, version: u64)
    ensures { hub.new ≡ spec.with_notes hub.old (spec.clear_notes version owner.now table.now) }
{
    if table.floor() > version {
        hub.push(&Note {
            owner: *owner,
            key: None,
            version: table.upto(),
        });
    }
}

/// Notes an owner's writes above a version in watches.
fn push_notes_above(hub: &mut Hub, owner: &Name, table: &Table, version: u64)
    ensures { hub.new ≡ spec.with_notes hub.old (spec.entry_notes version owner.now table.now) }
{
    for entry in table.after(version) {
        push_note(hub, owner, entry);
    }
}

/// Notes in watches what changed of an owner that was held up to a version.
#[tactic(auto, using(crate::proofs::Noting::notes_append))]
fn push_owner(hub: &mut Hub, owner: &Name, table: &Table, version: u64)
    ensures { hub.new ≡ spec.with_notes hub.old (spec.owner_notes version owner.now table.now) }
{
    push_clear(hub, owner, table, version);
    push_notes_above(hub, owner, table, version);
}

/// Notes in watches what changed of these owners, which were held up to these versions.
pub(crate) fn push_notes_since(hub: &mut Hub, holdings: &Holdings, versions: Vec<(Name, u64)>)
    ensures { hub.new ≡ spec.with_notes hub.old (spec.notes_since versions.items holdings.now) }
{
    for (owner, version) in versions {
        if let Some(table) = holdings.table(&owner) {
            push_owner(hub, &owner, table, version);
        }
    }
}

/// The owners of these blocks, each with the version up to which it is held. `NoMemory`.
pub(crate) fn versions_of(
    alloc: Global,
    holdings: &Holdings,
    blocks: &[Block],
) -> Result<Vec<(Name, u64)>, Fault>
    ensures versions { IfOk result (λ versions. versions.items ≡ spec.versions_of holdings.now blocks.now) }
    ensures memory { IfErr result (λ fault. fault ≡ Fault.NoMemory) }
{
    let mut versions = Vec::new(alloc);
    for block in blocks {
        versions.push((*block.owner(), holdings.upto(block.owner())))?;
    }
    Ok(versions)
}
