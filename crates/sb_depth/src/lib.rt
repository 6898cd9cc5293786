//! The order that sends one owner completely before the next. The owner with the most to send comes first.
//!
//! `Depth` is one of the two orders of `sb_budget`. A peer soon holds one owner completely, and the other owners wait.
//! A node with `Order::Depth` in its settings uses it.
//!
//! ```rust
//! /// The owner and the version of each entry that an empty peer lacks, in the order of depth.
//! fn ordered_by_depth(alloc: Global, holdings: &Holdings) -> Result<Vec<(Name, u64)>, Fault> {
//!     let nothing = Digest::new(false, None, None, Vec::new(alloc))?;
//!     let offered = available(alloc, holdings, &nothing)?;
//!     let mut versions = Vec::new(alloc);
//!     for item in Depth.arrange(alloc, offered)?.iter() {
//!         versions.push((item.owner, item.version()))?;
//!     }
//!     Ok(versions)
//! }
//! ```
//!
//! # What no contract refuses
//!
//! - `delta` or `delta_of` reports `NoMemory` without need, even for a peer that lacks nothing. Tests run both with
//!   ample memory, and once at full size. They compare exact answers. A clause refuses it for `arrange`, which takes no
//!   memory.
//! - A call takes longer than it should. Nothing refuses it; `attrdir_bench` measures.
#![tactic(auto)]

ghost use Rattle.std.specs.Prelude.{◌≡◌, ◌≤◌, ◌<◌, length, IfOk, IfErr, IsOk, IsPermutation, IsSorted};
ghost use Rattle.sb_holdings.specs.Held.{Held};
ghost use Rattle.sb_digest.specs.Digests.{Digest};
ghost use Rattle.sb_budget.specs.Available.{available_for};
ghost use Rattle.sb_budget.specs.Orders.{IsOffer, AscendsByOwner};
ghost use Rattle.sb_budget.specs.Parts.{AreParts, AreOffered, IsDeltaBy};
ghost use Rattle.sb_depth.specs.Depth.{by_count};

use sb_budget::{Cursor, DeltaOrder, Offered, Turns, cursors, cut_in_turns};
use sb_digest::Digest;
use sb_holdings::Holdings;
use sb_types::{BUDGET_LEAST, BUDGET_MOST, Delta, Fault};
use std::alloc::Global;
use std::cmp::Reverse;

/// Sorts by count, the greatest first; items of equal count by the owner's name; items of one owner by version.
///
/// The test `example_of_depth` runs these lines, for holdings with two writes of `a` and one of `b`:
/// ```
/// let digest = Digest::new(true, None, None, Vec::new(alloc))?;
/// let offered = available(alloc, &holdings, &digest)?;
/// let ordered = Depth.arrange(alloc, offered)?;
/// for (item, version) in ordered.iter().zip([1, 2, 1]) {
///     assert_eq!(rt; item.version(), version);
/// }
/// ```
#[derive(Clone, Copy, Debug)]
pub struct Depth;

impl DeltaOrder for Depth {
    fn arrange(&self, _alloc: Global, mut items: Vec<Offered>) -> Result<Vec<Offered>, Fault>
        requires { IsOffer items.items }
        ensures whole { IsOk result }
        ensures each_once { IfOk result (λ ordered. IsPermutation items.items ordered.items) }
        ensures ascending { IfOk result (λ ordered. AscendsByOwner ordered.items) }
        ensures order { IfOk result (λ ordered. IsSorted by_count ordered.items) }
        ensures memory { IfErr result (λ fault. fault ≡ Fault.NoMemory) }
    {
        items.sort_unstable_by_key(|item| (Reverse(item.count), item.owner, item.version()));
        Ok(items)
    }

    fn delta_of(
        &self,
        alloc: Global,
        mut owners: Vec<Cursor<'_>>,
        budget: u64,
    ) -> Result<Delta, Fault>
        requires least { BUDGET_LEAST ≤ budget }
        requires most { budget ≤ BUDGET_MOST }
        requires owners { AreOffered owners.items }
        ensures order { (held : Held) (digest : Digest) → AreParts held digest owners.entry.items → IfOk result (IsDeltaBy (IsSorted by_count) budget held digest) }
        ensures delta { (held : Held) (digest : Digest) → AreParts held digest owners.entry.items → IfOk result (IsDeltaBy AscendsByOwner budget held digest) }
        ensures goes { (held : Held) (digest : Digest) → AreParts held digest owners.entry.items →
            IfOk result (λ delta. 0 < length (available_for held digest) → 0 < length delta) }
        ensures memory { IfErr result (λ fault. fault ≡ Fault.NoMemory) }
    {
        owners.sort_by_cached_key(|cursor| (Reverse(cursor.count()), cursor.owner()))?;
        cut_in_turns(alloc, owners, Turns::First, budget)
    }

    fn delta(
        &self,
        alloc: Global,
        holdings: &Holdings,
        digest: &Digest,
        budget: u64,
    ) -> Result<Delta, Fault>
        requires least { BUDGET_LEAST ≤ budget }
        requires most { budget ≤ BUDGET_MOST }
        ensures order { IfOk result (IsDeltaBy (IsSorted by_count) budget holdings.now digest.now) }
        ensures delta { IfOk result (IsDeltaBy AscendsByOwner budget holdings.now digest.now) }
        ensures goes { IfOk result (λ delta. 0 < length (available_for holdings.now digest.now) → 0 < length delta) }
        ensures memory { IfErr result (λ fault. fault ≡ Fault.NoMemory) }
    {
        let owners = cursors(alloc, holdings, digest)?;
        self.delta_of(alloc, owners, budget)
    }
}
