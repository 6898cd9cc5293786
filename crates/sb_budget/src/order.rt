//! What each order of what is offered promises, and what follows for any order.
ghost use Rattle.std.specs.Prelude.{◌≡◌, ◌≤◌, ◌<◌, ℕ, List, length, IfOk, IfErr, IsPermutation};
ghost use Rattle.sb_budget.specs.declared.offered.Offered.{Offered};
ghost use Rattle.sb_budget.specs.Available.{available_for};
ghost use Rattle.sb_budget.specs.Cut.{items_of_all, CanCut};
ghost use Rattle.sb_budget.specs.Offers.{of_owner};
ghost use Rattle.sb_budget.specs.Orders.{offered_by, IsOffer, AscendsByOwner};
ghost use Rattle.sb_budget.specs.Parts.{AreParts, AreOffered, IsDeltaBy};
ghost use Rattle.sb_holdings.specs.Held.{Held};
ghost use Rattle.sb_digest.specs.Digests.{Digest};

use crate::cursor::Cursor;
use crate::offered::Offered;
use sb_digest::Digest;
use sb_holdings::Holdings;
use sb_types::{BUDGET_LEAST, BUDGET_MOST, Delta, Fault};
use std::alloc::Global;

/// An order in which what is offered is sent. It sorts no owner's items: it keeps them as they are in the list. If a
/// list had one version of an owner twice, no such order would exist.
pub trait DeltaOrder {
    /// Returns the items in this order: each once, and each owner's items in ascending version. In the given list, each
    /// owner's items have to be as `available` lists them. The only fault is `NoMemory`.
    fn arrange(&self, alloc: Global, items: Vec<Offered>) -> Result<Vec<Offered>, Fault>
        requires { IsOffer items.items }
        ensures each_once { IfOk result (λ ordered. IsPermutation items.items ordered.items) }
        ensures ascending { IfOk result (λ ordered. AscendsByOwner ordered.items) }
        ensures memory { IfErr result (λ fault. fault ≡ Fault.NoMemory) };

    /// Returns what these owners offer, in this order: the longest prefix that fits a frame of `budget` bytes, 1,024 to
    /// 65,536. If there is an owner, the delta has at least one block. The owners have to be those of `cursors` or of
    /// `cursors_since`, in ascending order of their names. The only fault is `NoMemory`.
    fn delta_of(&self, alloc: Global, owners: Vec<Cursor<'_>>, budget: u64) -> Result<Delta, Fault>
        requires least { BUDGET_LEAST ≤ budget }
        requires most { budget ≤ BUDGET_MOST }
        requires owners { AreOffered owners.items }
        ensures delta { (held : Held) (digest : Digest) → AreParts held digest owners.entry.items → IfOk result (IsDeltaBy AscendsByOwner budget held digest) }
        ensures goes { (held : Held) (digest : Digest) → AreParts held digest owners.entry.items →
            IfOk result (λ delta. 0 < length (available_for held digest) → 0 < length delta) }
        ensures memory { IfErr result (λ fault. fault ≡ Fault.NoMemory) };

    /// Returns what a peer that sent this digest lacks, in this order. It is the longest prefix that fits a frame of
    /// `budget` bytes, 1,024 to 65,536. If the peer lacks anything, the delta has at least one block.
    ///
    /// The delta is what `cut` makes of some order of what `available` lists, without a list of what does not fit. Each
    /// order says which one. The only fault is `NoMemory`.
    fn delta(
        &self,
        alloc: Global,
        holdings: &Holdings,
        digest: &Digest,
        budget: u64,
    ) -> Result<Delta, Fault>
        requires least { BUDGET_LEAST ≤ budget }
        requires most { budget ≤ BUDGET_MOST }
        ensures delta { IfOk result (IsDeltaBy AscendsByOwner budget holdings.now digest.now) }
        ensures goes { IfOk result (λ delta. 0 < length (available_for holdings.now digest.now) → 0 < length delta) }
        ensures memory { IfErr result (λ fault. fault ≡ Fault.NoMemory) };
}

/// In any order, each owner's items come as they were in the list. So what could be cut still can.
pub fn orders_keep_owners()
    ensures owners { (offered ordered : List Offered) (owner : List ℕ) →
        IsOffer offered → IsPermutation offered ordered → AscendsByOwner ordered →
        offered_by owner ordered ≡ offered_by owner offered }
    ensures items { (offered ordered : List Offered) (owner : List ℕ) →
        IsOffer offered → IsPermutation offered ordered → AscendsByOwner ordered →
        of_owner owner (items_of_all ordered) ≡ of_owner owner (items_of_all offered) }
    ensures cut { (offered ordered : List Offered) →
        IsOffer offered → IsPermutation offered ordered → AscendsByOwner ordered → CanCut offered → CanCut ordered }
{}
