//! The longest prefix of what is offered that fits a budget, as a delta.
ghost use Rattle.std.specs.Prelude.{◌≡◌, ◌≤◌, ◌<◌, ℕ, List, [], ◌∷◌, ◌++◌, length, IfOk, IfErr};
ghost use Rattle.sb_budget.specs.Cut.{item_of, items_of_all, IsCut, CanCut};
ghost use Rattle.sb_budget.specs.Making.{IsTaking};
ghost use Rattle.sb_budget.specs.Offers.{Item};

use crate::delta_builder::DeltaBuilder;
use crate::offered::Offered;
use sb_types::{BUDGET_LEAST, BUDGET_MOST, Delta, Fault};
use std::alloc::Global;

/// Takes the next item, unless an item before it was left out or it does not fit. Returns whether it was left out.
fn take(making: &mut DeltaBuilder, is_full: bool, item: Offered) -> Result<bool, Fault>
    ensures taking { IfOk result (λ full. (budget : ℕ) (items : List Item) → IsTaking budget items is_full making.old → IsTaking budget (items ++ item_of item ∷ []) full making.new) }
    ensures memory { IfErr result (λ fault. fault ≡ Fault.NoMemory) }
{
    let owner = item.owner;
    if is_full {
        making.leave(owner);
        return Ok(true);
    }
    if making.push(item.head(), item.entry)? {
        return Ok(false);
    }
    making.leave(owner);
    Ok(true)
}

/// Returns the delta of the longest prefix of the items that fits a frame of `budget` bytes, 1,024 to 65,536. It drops
/// the other items. The items have to be as an order leaves them: each owner's in ascending version.
///
/// If no items of an owner are left out, its block reaches up to the sender's held version, and otherwise up to its
/// last entry. If there is an item, the delta has at least one block. The only fault is `NoMemory`.
///
/// The test `example_of_cut` runs these lines, for holdings with one write of a flag under the key `up`, by `a`:
/// ```
/// let digest = Digest::new(true, None, None, Vec::new(alloc))?;
/// let offered = available(alloc, &holdings, &digest)?;
/// let delta = cut(alloc, offered, 1_024)?;
/// assert_eq!(rt; delta.blocks().len(), 1);
/// // 3 bytes, the block's 28, and the entry's 13.
/// assert_eq!(rt; delta.encoded_length(), 44);
/// ```
pub fn cut(alloc: Global, items: Vec<Offered>, budget: u64) -> Result<Delta, Fault>
    requires least { BUDGET_LEAST ≤ budget }
    requires most { budget ≤ BUDGET_MOST }
    requires items { CanCut items.items }
    ensures cut { IfOk result (λ delta. IsCut budget (items_of_all items.items) delta) }
    ensures some { IfOk result (λ delta. 0 < length items.items → 0 < length delta) }
    ensures memory { IfErr result (λ fault. fault ≡ Fault.NoMemory) }
{
    let mut making = DeltaBuilder::new(alloc, budget);
    let mut is_full = false;
    for item in items {
        is_full = take(&mut making, is_full, item)?;
    }
    making.finish()
}
