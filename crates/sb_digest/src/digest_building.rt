//! Makes the digest of what a node holds, within a budget.
ghost use Rattle.std.specs.Prelude.{◌≡◌, ◌≤◌, ◌<◌, length, IfOk, IfErr};
ghost use Rattle.sb_types.specs.declared.fault.Fault.TheVariants.{NoMemory};
ghost use Rattle.sb_digest.specs.Builders.{IsLongestFront};
ghost use Rattle.sb_digest.specs.Pairs.{pairs_from};

use crate::digest::{Digest, Pair};
use crate::digest_builder::DigestBuilder;
use sb_holdings::Holdings;
use sb_types::{BUDGET_LEAST, BUDGET_MOST, Fault, Name};
use std::alloc::Global;

/// Makes the digest of the owners that are held from a name on, or of all owners if no name is given. The own name
/// counts as an owner that is held. `want` is whether a digest is wanted in answer.
///
/// The digest has as many owners as fit in a frame of `budget` bytes, 1,024 to 65,536, and at least one if there is
/// one. If not all fit, its range ends before the first that does not, and the next digest begins there. Otherwise its
/// range has no end. The only fault is `NoMemory`.
pub fn build(
    alloc: Global,
    holdings: &Holdings,
    from: Option<Name>,
    want: bool,
    budget: u64,
) -> Result<Digest, Fault>
    requires least { BUDGET_LEAST ≤ budget }
    requires most { budget ≤ BUDGET_MOST }
    ensures longest { IfOk result (IsLongestFront budget want from (pairs_from from holdings.now)) }

    // Whatever the budget is, a digest has at least one owner, if any is left.
    ensures goes { IfOk result (λ digest. 0 < length (pairs_from from holdings.now) → 0 < length digest.pairs) }
    ensures memory { IfErr result (λ fault. fault ≡ NoMemory) }
{
    let mut front = DigestBuilder::new(alloc, from.as_ref(), budget);
    for (owner, holder) in holdings.holders_from(from.as_ref()) {
        let pair = Pair::new(*owner, holder.shown().upto(), holder.staged());
        if !front.push(pair)? {
            return Ok(front.cut(want));
        }
    }
    Ok(front.finish(want))
}
