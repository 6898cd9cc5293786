//! The cut of what owners offer in turns, without a list of what does not fit.
ghost use Rattle.std.specs.Prelude.{◌≡◌, ◌≤◌, ◌<◌, ◌++◌, ℕ, List, length, All, IfOk, IfErr};
ghost use Rattle.std.specs.Option.{option_copied};
ghost use Rattle.sb_budget.specs.Offers.{Item};
ghost use Rattle.sb_budget.specs.Cut.{items_of_all, blocks_of, IsCut, CanCut};
ghost use Rattle.sb_budget.specs.Parts.{all_of};
ghost use Rattle.sb_budget.specs.Turns.{in_turns};

use crate::cursor::Cursor;
use crate::delta_builder::DeltaBuilder;
use sb_types::{BUDGET_LEAST, BUDGET_MOST, Delta, Fault, SharedEntry};
use std::alloc::Global;
use std::collections::VecDeque;

/// The place of an owner after its next item was taken, if it has more.
#[derive(Clone, Copy, Debug)]
pub enum Turns {
    /// Before all others: all its items come first.
    First,
    /// After all others.
    Last,
}

/// Returns the same entry once more, if there is one. The only fault is `NoMemory`.
fn share_entry(entry: Option<&SharedEntry>) -> Result<Option<SharedEntry>, Fault>
    ensures same { IfOk result (λ same. same ≡ option_copied entry.entry) }
    ensures memory { IfErr result (λ fault. fault ≡ Fault.NoMemory) }
{
    match entry {
        Some(entry) => Ok(Some(entry.share()?)),
        None => Ok(None),
    }
}

/// Leaves out all that these owners have.
fn leave_all(making: &mut DeltaBuilder, mut owners: VecDeque<Cursor<'_>>)
    ensures left { (front left : List Item) → making.old.blocks ≡ blocks_of front left →
        making.new.blocks ≡ blocks_of front (left ++ items_of_all (all_of owners.entry.items)) }
{
    while let Some(cursor) = owners.pop_front() {
        making.leave(cursor.owner());
    }
}

/// Returns the delta of the longest prefix of what the owners offer in turns, beginning with the first owner. Its frame
/// has at most `budget` bytes, 1,024 to 65,536. If there is an owner, the delta has at least one block.
///
/// The owners have to be those of `cursors`, in any order. It takes memory and steps in proportion to the owners and to
/// what is sent. The only fault is `NoMemory`.
pub fn cut_in_turns(
    alloc: Global,
    owners: Vec<Cursor<'_>>,
    turns: Turns,
    budget: u64,
) -> Result<Delta, Fault>
    requires least { BUDGET_LEAST ≤ budget }
    requires most { budget ≤ BUDGET_MOST }
    requires items { CanCut (in_turns turns owners.items) }
    ensures cut { IfOk result (λ delta. IsCut budget (items_of_all (in_turns turns owners.entry.items)) delta) }
    ensures some { IfOk result (λ delta. 0 < length (in_turns turns owners.entry.items) → 0 < length delta) }
    ensures memory { IfErr result (λ fault. fault ≡ Fault.NoMemory) }
{
    let mut making = DeltaBuilder::new(alloc, budget);
    let mut queue = VecDeque::from(owners);
    while let Some(cursor) = queue.pop_front() {
        let (owner, head) = (cursor.owner(), cursor.head());
        let (first, later) = cursor.split_first();
        let entry = share_entry(first)?;
        if !making.push(head, entry)? {
            making.leave(owner);
            leave_all(&mut making, queue);
            return making.finish();
        }
        let Some(later) = later else {
            continue;
        };
        match turns {
            Turns::First => queue.push_front(later)?,
            Turns::Last => queue.push_back(later)?,
        }
    }
    making.finish()
}
