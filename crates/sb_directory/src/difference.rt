//! What a peer holds of the node's own name otherwise than the node's log gave it.
ghost use Rattle.std.specs.Prelude.{◌≡◌, ◌≢◌, ◌+◌, ◌∷◌, [], None, Ok, OnOk, IfOk, IfErr};
ghost use Rattle.std.specs.Option.{option_copied};
ghost use Rattle.sb_types.specs.Faults.{Gives};
ghost use Rattle.sb_holdings.specs.Held.{shown_of};
ghost use Rattle.sb_session.specs.Handlers.{IsRefusal};
ghost use Rattle.sb_directory.specs.Audits as spec;
ghost use Rattle.sb_directory.specs.Seats.{Refuses};

use sb_audit::{Foreign, Reason, find_foreign, find_missing, find_own};
use sb_node::NodeCore;
use sb_table::Table;
use sb_types::{Block, Delta, Entry, Fault};
use std::alloc::Global;

/// An entry of a peer under the node's own name that the node's log never gave.
#[derive(Debug, Drop)]
pub struct ForeignEntry {
    /// The entry of the peer.
    pub theirs: Entry,
    /// The node's own entry of the same version, or else of the same key. None if there is neither.
    pub own: Option<Entry>,
    /// Why the log never gave the entry of the peer.
    pub reason: Reason,
}

/// What a peer holds of the node's own name otherwise than the node's log gave it.
#[derive(Debug, Drop)]
pub enum Difference {
    /// The peer has an entry that the log never gave.
    Foreign(ForeignEntry),
    /// The peer lacks this entry of the log, and what it holds does not explain that.
    Missing(Entry),
}

/// Copies an entry, if there is one. `NoMemory`.
fn copy_entry(alloc: Global, entry: Option<&Entry>) -> Result<Option<Entry>, Fault>
    ensures copy { IfOk result (λ copy. copy ≡ option_copied entry.entry) }
    ensures memory { IfErr result (λ fault. fault ≡ Fault.NoMemory) }
{
    match entry {
        Some(entry) => Ok(Some(entry.copy(alloc)?)),
        None => Ok(None),
    }
}

/// The same difference, of a foreign entry, with copies of what it borrows. `NoMemory`.
fn copy_foreign(alloc: Global, table: &Table, found: &Foreign<'_>) -> Result<ForeignEntry, Fault>
    ensures copy { IfOk result (λ copy. copy ≡ spec.foreign_entry table.now found.now.entry.now found.now.reason) }
    ensures memory { IfErr result (λ fault. fault ≡ Fault.NoMemory) }
{
    Ok(ForeignEntry {
        theirs: found.entry.copy(alloc)?,
        own: copy_entry(alloc, find_own(table, found.entry))?,
        reason: found.reason,
    })
}

/// The first difference between the node's own table and a block of the node's own name. None if there is none. `NoMemory`.
fn difference_in(alloc: Global, table: &Table, block: &Block) -> Result<Option<Difference>, Fault>
    ensures finds { IfOk result (spec.FindsIn table.now block.now) }
    ensures memory { IfErr result (λ fault. fault ≡ Fault.NoMemory) }
{
    if let Some(found) = find_foreign(table, block) {
        return Ok(Some(Difference::Foreign(copy_foreign(alloc, table, &found)?)));
    }
    match find_missing(table, block) {
        Some(own) => Ok(Some(Difference::Missing(own.copy(alloc)?))),
        None => Ok(None),
    }
}

/// The first difference between the own table of a node and a block. None if there is none, or if the block is of another owner.
/// `NoMemory`.
pub(crate) fn difference_of(
    alloc: Global,
    core: &NodeCore,
    block: &Block,
) -> Result<Option<Difference>, Fault>
    ensures finds { IfOk result (spec.Finds core.now.node block.now) }
    ensures memory { IfErr result (λ fault. fault ≡ Fault.NoMemory) }
{
    let me = core.name();
    if block.owner() != me {
        return Ok(None);
    }
    match core.holdings().table(me) {
        Some(table) => difference_in(alloc, table, block),
        None => unreachable!(),
    }
}

/// The delta by which a node marks its own name as that of another node too: a block without entries, from its own held version
/// to the next. `TurnsSpent` if there is no next version; `NoMemory`.
#[tactic(auto, using(crate::proofs::Refusing::version_spent, crate::proofs::Refusing::version_left, crate::proofs::Refusing::version_memory))]
pub(crate) fn mark_of(alloc: Global, core: &NodeCore) -> Result<Delta, Fault>
    ensures mark { IfOk result (λ delta. delta ≡ spec.mark_of core.now.node ∷ []) }
    ensures left { OnOk result (spec.version_due core.now.node ≡ Ok tt) }
    ensures refused { IfErr result (Refuses (spec.version_due core.now.node)) }
    ensures fault { IfErr result IsRefusal }
{
    let me = *core.name();
    let held = core.upto(&me);
    if held == u64::MAX {
        return Err(Fault::TurnsSpent);
    }
    let mut blocks = Vec::with_capacity(alloc, 1)?;
    match Block::new(me, 0, held, held + 1, Vec::new(alloc)) {
        Ok(block) => blocks.push(block)?,
        // Never: these are the parts of a block, and it is short.
        Err(_) => return Err(Fault::NoMemory),
    }
    match Delta::new(blocks) {
        Ok(delta) => Ok(delta),
        Err(_) => Err(Fault::NoMemory),
    }
}
