//! The digest that asks a node for an owner's writes above a version.

ghost use Rattle.std.specs.Prelude.{◌≡◌, IfOk, IfErr};
ghost use Rattle.sb_world.specs.Turns as spec;

use sb_digest::{Digest, Pair};
use sb_holdings::Holdings;
use sb_types::{Fault, Name};
use std::alloc::Global;

/// Makes a digest of the whole range. It has `after` for the owner, and for each other owner how far the node holds it.
/// It has no stage. `NoMemory`.
pub(crate) fn asked(
    alloc: Global,
    holdings: &Holdings,
    owner: &Name,
    after: u64,
) -> Result<Digest, Fault>
    ensures digest { IfOk result (λ digest. digest ≡ spec.offer_digest holdings.now owner.now after) }
    ensures memory { IfErr result (λ fault. fault ≡ Fault.NoMemory) }
{
    let mut pairs = Vec::new(alloc);
    for (name, table) in holdings.tables_from(None) {
        // Proof only: the call shows that the name keeps its limits.
        let _ = name.bytes();
        let upto = if name == owner { after } else { table.upto() };
        pairs.push(Pair::new(*name, upto, None))?;
    }
    Digest::new(false, None, None, pairs)
}
