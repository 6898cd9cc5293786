//! A delta that is being made, within a budget.
ghost use Rattle.std.specs.Prelude.{◌≡◌, ◌≤◌, ℕ, List, [], false, All, OnErr, IfOk, IfErr};
ghost use Rattle.sb_budget.specs.Offers.{Item};
ghost use Rattle.sb_budget.specs.BlocksByOwner.{item_at, HasParts};
ghost use Rattle.sb_budget.specs.Cut.{delta_frame_length};
ghost use Rattle.sb_budget.specs.Making.{IsFrontOf, AfterNext, left_by};

use crate::block_builder::{BlockBuilder, cost, place_near, place_of, put};
use crate::head::Head;
use sb_types::{
    BUDGET_LEAST, BUDGET_MOST, BYTE_LENGTH, Block, COUNT_LENGTH, Delta, Fault, HEADER_LENGTH, Name,
    SharedEntry,
};
use std::alloc::Global;
use std::marker::Model;

/// The length of the frame of a delta without blocks.
const EMPTY_FRAME: u64 = HEADER_LENGTH + BYTE_LENGTH + COUNT_LENGTH;

/// A delta that is being made: the items taken so far, by owner, and the bytes that are left in its frame.
#[derive(Drop)]
pub struct DeltaBuilder {
    alloc: Global,
    gathered: Vec<BlockBuilder>,
    room: u64,
    /// The place of the item that was taken last.
    last: usize,
}

impl Model for DeltaBuilder {
    ghost use Rattle.std.specs.Prelude.{◌≡◌, [], true};
    ghost use Rattle.sb_types.specs.Limits.{are_owners_above};
    ghost use Rattle.sb_budget.specs.Making.{Making};

    ghost Value = { Making };

    ghost view = { λ d. record { blocks = d.gathered.items; room = d.room } };

    ghost invariant = { λ d. are_owners_above [] d.gathered.items ≡ true };
}

impl DeltaBuilder {
    /// Makes a delta without items, whose frame may have `budget` bytes, 1,024 to 65,536. It takes no memory.
    pub fn new(alloc: Global, budget: u64) -> DeltaBuilder
        requires least { BUDGET_LEAST ≤ budget }
        requires most { budget ≤ BUDGET_MOST }
        ensures begins { IsFrontOf budget [] result }
    {
        DeltaBuilder {
            alloc,
            gathered: Vec::new(alloc),
            room: budget - EMPTY_FRAME,
            last: 0,
        }
    }

    /// Takes the next item if the frame has room for it, and returns whether it had. The first item of all always has
    /// room. The block of an owner has the head of the owner's first item. The only fault is `NoMemory`. An item that
    /// is not taken is dropped, and the delta stays as it was.
    pub fn push(&mut self, head: Head, entry: Option<SharedEntry>) -> Result<bool, Fault>
        ensures next { IfOk result (λ taken. (budget : ℕ) (front : List Item) → IsFrontOf budget front self.old → AfterNext budget front (item_at head entry) taken self.new) }
        ensures left { IfOk result (λ taken. taken ≡ false → self.new ≡ self.old) }
        ensures err { OnErr result (self.new ≡ self.old) }
        ensures memory { IfErr result (λ fault. fault ≡ Fault.NoMemory) }
    {
        let place = place_near(&self.gathered, &head.owner, self.last);
        let Some(left) = self.room.checked_sub(cost(&head, &entry, place)) else {
            return Ok(false);
        };
        put(self.alloc, &mut self.gathered, place, head, entry)?;
        self.room = left;
        self.last = match place {
            Ok(at) | Err(at) => at,
        };
        Ok(true)
    }

    /// Leaves out items of the owner, so that its block ends at its last entry. It takes no memory.
    pub fn leave(&mut self, owner: Name)
        ensures { self.new ≡ left_by owner self.old }
    {
        if let Ok(index) = place_of(&self.gathered, &owner) {
            self.gathered[index].lower();
        }
    }

    /// Makes the delta of the items that were taken. Its blocks have to be such as a delta can have. The only fault is
    /// `NoMemory`.
    pub fn finish(self) -> Result<Delta, Fault>
        requires blocks { All HasParts self.blocks }
        requires fits { delta_frame_length self.blocks ≤ BUDGET_MOST }
        ensures blocks { IfOk result (λ delta. delta ≡ self.blocks) }
        ensures memory { IfErr result (λ fault. fault ≡ Fault.NoMemory) }
    {
        Delta::new(blocks_from(self.alloc, self.gathered)?)
    }
}

/// Makes the block of each owner's entries. The only fault is `NoMemory`.
fn blocks_from(alloc: Global, gathered: Vec<BlockBuilder>) -> Result<Vec<Block>, Fault>
    requires { All HasParts gathered.items }
    ensures blocks { IfOk result (λ blocks. blocks.items ≡ gathered.items) }
    ensures memory { IfErr result (λ fault. fault ≡ Fault.NoMemory) }
{
    let mut blocks = Vec::with_capacity(alloc, gathered.len())?;
    for group in gathered {
        blocks.push(group.into_block())?;
    }
    Ok(blocks)
}
