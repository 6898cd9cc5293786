//! Owners that a node forgets: their blocks are left out before the node sees them.
ghost use Rattle.std.specs.Prelude.{◌≡◌, ◌++◌, ◌+◌, ◌≤◌, ◌∷◌, [], length, vec_len, vec_capacity, IfOk, IfErr, OnOk};
ghost use Rattle.sb_handlers.specs.Forgetting as spec;

use sb_digest::Digest;
use sb_holdings::{BlockEnd, Report};
use sb_session::{Handler, ReceivedDelta};
use sb_types::{Block, Delta, Fault, Name, SharedEntry};
use std::alloc::Global;
use std::sync::atomic::{AtomicBool, Ordering};

/// Whether a peer had rows of an owner that the node forgets.
#[derive(Drop)]
struct Sighting {
    was_met: AtomicBool,
    was_reported: AtomicBool,
}

/// The owners that a node forgets, and which of them a peer still had.
#[derive(Drop)]
pub struct ForgottenOwners {
    names: Vec<Name>,
    /// One for each name.
    sightings: Vec<Sighting>,
}

impl ForgottenOwners {
    /// No owner. It takes no memory.
    pub fn none(alloc: Global) -> ForgottenOwners
        ensures { result.names.items ≡ [] }
    {
        ForgottenOwners {
            names: Vec::new(alloc),
            sightings: Vec::new(alloc),
        }
    }

    /// These owners, but not the node's own name, which no node forgets. `NoMemory`.
    pub fn new(alloc: Global, names: &[Name], own: &Name) -> Result<ForgottenOwners, Fault>
        ensures names { IfOk result (λ forgotten. forgotten.names.items ≡ spec.names_without own.now names.now) }
        ensures memory { IfErr result (λ fault. fault ≡ Fault.NoMemory) }
    {
        let mut forgotten = ForgottenOwners::none(alloc);
        for name in names {
            forgotten.add(name, own)?;
        }
        Ok(forgotten)
    }

    /// Adds a name, unless it is the node's own. `NoMemory`.
    fn add(&mut self, name: &Name, own: &Name) -> Result<(), Fault>
        ensures added { OnOk result (self.new.names.items ≡ self.old.names.items ++ spec.names_without own.now (name.now ∷ [])) }
        ensures memory { IfErr result (λ fault. fault ≡ Fault.NoMemory) }
    {
        if name == own {
            return Ok(());
        }
        self.sightings.push(Sighting {
            was_met: AtomicBool::new(false),
            was_reported: AtomicBool::new(false),
        })?;
        self.names.push(*name)?;
        Ok(())
    }

    /// Notes whose blocks these are.
    fn note(&self, blocks: &[Block]) {
        for (name, sighting) in self.names.iter().zip(&self.sightings) {
            if blocks.iter().any(|block| block.owner() == name) {
                sighting.was_met.store(true, Ordering::SeqCst);
            }
        }
    }

    /// The owners that the node forgets.
    pub fn names(&self) -> &[Name]
        ensures { result.now ≡ self.now.names.items }
    {
        &self.names
    }

    /// Whether a peer still had rows of this owner. The answer is true once for each owner, and never again.
    pub fn take_sighting(&self, owner: &Name) -> bool {
        for (name, sighting) in self.names.iter().zip(&self.sightings) {
            if name == owner {
                return sighting.was_met.load(Ordering::SeqCst)
                    && !sighting.was_reported.swap(true, Ordering::SeqCst);
            }
        }
        false
    }
}

/// Whether an owner is one of these.
fn is_forgotten(names: &[Name], owner: &Name) -> bool
    ensures { result ≡ spec.is_forgotten names.now owner.now }
{
    names.iter().any(|name| name == owner)
}

/// Whether a block is of one of these owners.
fn has_forgotten(names: &[Name], blocks: &[Block]) -> bool
    ensures { result ≡ spec.has_forgotten names.now blocks.now }
{
    blocks
        .iter()
        .any(|block| is_forgotten(names, block.owner()))
}

/// The same entries once more. `NoMemory`.
fn share_entries(alloc: Global, entries: &[SharedEntry]) -> Result<Vec<SharedEntry>, Fault>
    ensures equal { IfOk result (λ same. same.items ≡ entries.now) }
    ensures memory { IfErr result (λ fault. fault ≡ Fault.NoMemory) }
{
    let mut same = Vec::with_capacity(alloc, entries.len())?;
    for entry in entries {
        same.push(entry.share()?)?;
    }
    Ok(same)
}

/// Copies a block, whose entries both share. `NoMemory`.
fn copy_block(alloc: Global, block: &Block) -> Result<Block, Fault>
    ensures equal { IfOk result (λ copy. copy ≡ block.now) }
    ensures memory { IfErr result (λ fault. fault ≡ Fault.NoMemory) }
{
    let (owner, floor) = (*block.owner(), block.floor());
    let (after, upto) = (block.after(), block.upto());
    let entries = share_entries(alloc, block.entries())?;
    match Block::new(owner, floor, after, upto, entries) {
        Ok(copy) => Ok(copy),
        // Never: the parts are those of a block.
        Err(_) => Err(Fault::NoMemory),
    }
}

/// Copies a block to the end of a list, unless it is of one of these owners. `NoMemory`.
fn add_kept(
    alloc: Global,
    kept: &mut Vec<Block>,
    names: &[Name],
    block: &Block,
) -> Result<(), Fault>
    ensures added { OnOk result (kept.new.items ≡ kept.old.items ++ spec.kept_blocks names.now (block.now ∷ [])) }
    ensures memory { IfErr result (λ fault. fault ≡ Fault.NoMemory) }
{
    if is_forgotten(names, block.owner()) {
        return Ok(());
    }
    kept.push(copy_block(alloc, block)?)?;
    Ok(())
}

/// Copies the blocks of all other owners than these. `NoMemory`.
fn copy_kept(alloc: Global, names: &[Name], blocks: &[Block]) -> Result<Vec<Block>, Fault>
    ensures kept { IfOk result (λ kept. kept.items ≡ spec.kept_blocks names.now blocks.now) }
    ensures memory { IfErr result (λ fault. fault ≡ Fault.NoMemory) }
{
    let mut kept = Vec::new(alloc);
    for block in blocks {
        add_kept(alloc, &mut kept, names, block)?;
    }
    Ok(kept)
}

/// The delta without the blocks of these owners. `NoMemory`.
#[tactic(auto, using(crate::proofs::LeavingOut::kept_part))]
fn kept_delta(alloc: Global, names: &[Name], delta: &ReceivedDelta) -> Result<ReceivedDelta, Fault>
    ensures kept { IfOk result (λ kept. kept ≡ spec.kept_blocks names.now delta.now) }
    ensures memory { IfErr result (λ fault. fault ≡ Fault.NoMemory) }
{
    match Delta::new(copy_kept(alloc, names, delta.blocks())?) {
        Ok(kept) => Ok(delta.part(kept)),
        // Never: some of the blocks of a delta are a delta too.
        Err(_) => Err(Fault::NoMemory),
    }
}

/// Adds the end of each block to a list with room for them. A block of these owners ends as `OwnersFull`, and each other one as
/// the next of the kept blocks.
fn add_ends(ends: &mut Vec<BlockEnd>, names: &[Name], blocks: &[Block], kept: &[BlockEnd])
    requires room { vec_len ends.old + length blocks.now ≤ vec_capacity ends.old }
    ensures { ends.new.items ≡ ends.old.items ++ spec.told_ends names.now blocks.now kept.now }
{
    let mut rest = kept;
    for block in blocks {
        if is_forgotten(names, block.owner()) {
            ends.push_reserved(BlockEnd::OwnersFull);
        } else if let Some((end, others)) = rest.split_first() {
            ends.push_reserved(*end);
            rest = others;
        }
    }
}

/// A handler that never sees the blocks of forgotten owners. A peer that sends one is answered as if there were no room for its
/// owner.
#[derive(Drop)]
pub struct ForgettingHandler<'a, H> {
    inner: H,
    alloc: Global,
    forgotten: &'a ForgottenOwners,
}

impl<'a, H: Handler> ForgettingHandler<'a, H> {
    pub fn new(inner: H, alloc: Global, forgotten: &'a ForgottenOwners) -> ForgettingHandler<'a, H>
        ensures inner { result.inner ≡ inner }
        ensures forgotten { result.forgotten.now ≡ forgotten.now }
    {
        ForgettingHandler {
            inner,
            alloc,
            forgotten,
        }
    }

    pub fn into_inner(self) -> H
        ensures { result ≡ self.entry.inner }
    {
        let ForgettingHandler {
            inner,
            alloc: _,
            forgotten: _,
        } = self;
        inner
    }
}

impl<H: Handler> Handler for ForgettingHandler<'_, H> {
    ghost use Rattle.std.proofs.Common.{◌≡◌, refl, ◌∙◌};
    ghost use Rattle.sb_handlers.specs.Forgetting.{ForgettingStep, forgetting-nothing, forgetting-later};

    ghost step = { λ old act new. (new.forgotten.now ≡ old.forgotten.now)
        × ForgettingStep old.forgotten.now.names.items H.step H.stays H.grows old.inner act new.inner };

    ghost stays = { λ old new. (new.forgotten.now ≡ old.forgotten.now) × H.stays old.inner new.inner };

    ghost grows = { λ old new. (new.forgotten.now ≡ old.forgotten.now) × H.grows old.inner new.inner };

    fn digest(&mut self, from: Option<Name>, want: bool) -> Result<Digest, Fault> {
        self.inner.digest(from, want)
    }

    fn deltas(&mut self, theirs: &Digest) -> Result<Delta, Fault> {
        self.inner.deltas(theirs)
    }

    fn apply(&mut self, delta: &ReceivedDelta) -> Result<Report, Fault> {
        let names = self.forgotten.names.as_slice();
        let blocks = delta.blocks();
        if !has_forgotten(names, blocks) {
            return self.inner.apply(delta);
        }
        // All memory that it takes comes first, so that nothing is entered if there is none.
        let kept = kept_delta(self.alloc, names, delta)?;
        let mut ends = Vec::with_capacity(self.alloc, blocks.len())?;
        let report = self.inner.apply(&kept)?;
        add_ends(&mut ends, names, blocks, report.ends());
        self.forgotten.note(blocks);
        Ok(Report::new(ends))
    }

    ghost enters_nothing = { λ old new act none step. (
      step.0,
      forgetting-nothing old.forgotten.now.names.items H.step H.stays H.grows old.inner new.inner
          (H.enters_nothing old.inner new.inner) act none step.1,
    ) };

    ghost stays_still = { λ state. (refl, H.stays_still state.inner) };

    ghost stays_on = { λ old mid new first then. (then.0 ∙ first.0, H.stays_on old.inner mid.inner new.inner first.1 then.1) };

    ghost step_grows = { λ old new act step. (
      step.0,
      forgetting-later old.forgotten.now.names.items H.step H.stays H.grows old.inner new.inner
          (H.step_grows old.inner new.inner) act step.1,
    ) };

    ghost grows_still = { λ state. (refl, H.grows_still state.inner) };

    ghost grows_on = { λ old mid new first then. (then.0 ∙ first.0, H.grows_on old.inner mid.inner new.inner first.1 then.1) };
}
