//! The order that sends the first entry of every owner, then the second of every owner, and so on.
//!
//! `Breadth` is one of the two orders of `sb_budget`. No owner waits until another was sent completely, so a peer soon
//! holds a part of each. A node with `Order::Breadth` in its settings uses it, which is the default of the program.
//!
//! ```rust
//! /// The owner and the version of each entry that an empty peer lacks, in the order of breadth.
//! fn ordered_by_breadth(alloc: Global, holdings: &Holdings) -> Result<Vec<(Name, u64)>, Fault> {
//!     let nothing = Digest::new(false, None, None, Vec::new(alloc))?;
//!     let offered = available(alloc, holdings, &nothing)?;
//!     let mut versions = Vec::new(alloc);
//!     for item in Breadth.arrange(alloc, offered)?.iter() {
//!         versions.push((item.owner, item.version()))?;
//!     }
//!     Ok(versions)
//! }
//! ```
//!
//! # What no contract refuses
//!
//! - `delta` or `delta_of` reports `NoMemory` without need, even for a peer that lacks nothing. Tests run both with
//!   ample memory, and once at full size. They compare exact answers. A clause refuses it for `arrange`, which takes no
//!   memory.
//! - A call takes longer than it should. Nothing refuses it; `attrdir_bench` measures.
#![tactic(auto)]

ghost use Rattle.std.specs.Prelude.{◌≡◌, ◌≤◌, ◌<◌, length, IfOk, IfErr, IsOk, IsPermutation, IsSorted};
ghost use Rattle.sb_holdings.specs.Held.{Held};
ghost use Rattle.sb_digest.specs.Digests.{Digest};
ghost use Rattle.sb_budget.specs.Available.{available_for};
ghost use Rattle.sb_budget.specs.Orders.{IsOffer, AscendsByOwner};
ghost use Rattle.sb_budget.specs.Parts.{AreParts, AreOffered, IsDeltaBy};
ghost use Rattle.sb_breadth.specs.Breadth.{by_rank};

use sb_budget::{Cursor, DeltaOrder, Offered, Turns, cursors, cut_in_turns};
use sb_digest::Digest;
use sb_holdings::Holdings;
use sb_types::{BUDGET_LEAST, BUDGET_MOST, Delta, Fault};
use std::alloc::Global;

/// Sorts by rank; items of equal rank by the owner's name.
///
/// The test `example_of_breadth` runs these lines, for holdings with two writes of `a` and one of `b`:
/// ```
/// let digest = Digest::new(true, None, None, Vec::new(alloc))?;
/// let offered = available(alloc, &holdings, &digest)?;
/// let ordered = Breadth.arrange(alloc, offered)?;
/// for (item, version) in ordered.iter().zip([1, 1, 2]) {
///     assert_eq!(rt; item.version(), version);
/// }
/// ```
#[derive(Clone, Copy, Debug)]
pub struct Breadth;

impl DeltaOrder for Breadth {
    fn arrange(&self, _alloc: Global, mut items: Vec<Offered>) -> Result<Vec<Offered>, Fault>
        requires { IsOffer items.items }
        ensures whole { IsOk result }
        ensures each_once { IfOk result (λ ordered. IsPermutation items.items ordered.items) }
        ensures ascending { IfOk result (λ ordered. AscendsByOwner ordered.items) }
        ensures order { IfOk result (λ ordered. IsSorted by_rank ordered.items) }
        ensures memory { IfErr result (λ fault. fault ≡ Fault.NoMemory) }
    {
        items.sort_unstable_by_key(|item| (item.rank, item.owner));
        Ok(items)
    }

    fn delta_of(&self, alloc: Global, owners: Vec<Cursor<'_>>, budget: u64) -> Result<Delta, Fault>
        requires least { BUDGET_LEAST ≤ budget }
        requires most { budget ≤ BUDGET_MOST }
        requires owners { AreOffered owners.items }
        ensures order { (held : Held) (digest : Digest) → AreParts held digest owners.entry.items → IfOk result (IsDeltaBy (IsSorted by_rank) budget held digest) }
        ensures delta { (held : Held) (digest : Digest) → AreParts held digest owners.entry.items → IfOk result (IsDeltaBy AscendsByOwner budget held digest) }
        ensures goes { (held : Held) (digest : Digest) → AreParts held digest owners.entry.items →
            IfOk result (λ delta. 0 < length (available_for held digest) → 0 < length delta) }
        ensures memory { IfErr result (λ fault. fault ≡ Fault.NoMemory) }
    {
        cut_in_turns(alloc, owners, Turns::Last, budget)
    }

    fn delta(
        &self,
        alloc: Global,
        holdings: &Holdings,
        digest: &Digest,
        budget: u64,
    ) -> Result<Delta, Fault>
        requires least { BUDGET_LEAST ≤ budget }
        requires most { budget ≤ BUDGET_MOST }
        ensures order { IfOk result (IsDeltaBy (IsSorted by_rank) budget holdings.now digest.now) }
        ensures delta { IfOk result (IsDeltaBy AscendsByOwner budget holdings.now digest.now) }
        ensures goes { IfOk result (λ delta. 0 < length (available_for holdings.now digest.now) → 0 < length delta) }
        ensures memory { IfErr result (λ fault. fault ≡ Fault.NoMemory) }
    {
        let owners = cursors(alloc, holdings, digest)?;
        self.delta_of(alloc, owners, budget)
    }
}
