//! What a peer lacks of the owners in a backlog, without a digest.
ghost use Rattle.std.specs.Prelude.{◌≡◌, IfOk, IfErr};
ghost use Rattle.sb_holdings.specs.Plain.{IsHoldings, table_of};
ghost use Rattle.sb_budget.specs.Parts.{AreParts};
ghost use Rattle.sb_budget.specs.Backlogs.{digest_since, part_since};

use crate::backlog::Backlog;
use crate::cursor::Cursor;
use crate::offered_table::OfferedTable;
use sb_holdings::Holdings;
use sb_types::{Fault, Name};
use std::alloc::Global;

/// Makes the cursor of what is offered of an owner above a version, if the owner is held above it and its floor is not.
fn cursor_since<'a>(holdings: &'a Holdings, owner: &'a Name, version: u64) -> Option<Cursor<'a>>
    ensures part { result ≡ part_since owner.now (table_of holdings.now owner.now) version }
{
    let table = holdings.table(owner)?;
    if table.floor() > version {
        return None;
    }
    Cursor::new(owner, OfferedTable::whole(table), version)
}

/// Returns a cursor of what the peer lacks, for each owner in its backlog, if that is anything. The owners' names ascend.
/// An owner whose floor is above its version there is left out: only a digest says which part of its table the peer lacks.
///
/// It looks up the owners in the backlog alone, and copies no entry. The only fault is `NoMemory`.
///
/// The test `example_of_cursors_since` runs these lines, for holdings with one write of a flag under the key `up`, by `a`:
/// ```
/// let mut backlog = Backlog::new(alloc);
/// backlog.add(Name::read(b"a")?, 0)?;
/// assert_eq!(rt; cursors_since(alloc, &holdings, &backlog)?.len(), 1);
/// backlog.clear();
/// backlog.add(Name::read(b"a")?, 1)?;
/// assert_eq!(rt; cursors_since(alloc, &holdings, &backlog)?.len(), 0);
/// ```
pub fn cursors_since<'a>(
    alloc: Global,
    holdings: &'a Holdings,
    backlog: &'a Backlog,
) -> Result<Vec<Cursor<'a>>, Fault>
    requires holdings { IsHoldings holdings.now }
    ensures parts { IfOk result (λ cursors. AreParts holdings.now (digest_since holdings.now backlog.now) cursors.items) }
    ensures memory { IfErr result (λ fault. fault ≡ Fault.NoMemory) }
{
    let mut cursors = Vec::new(alloc);
    for (owner, version) in backlog.owners() {
        if let Some(cursor) = cursor_since(holdings, owner, *version) {
            cursors.push(cursor)?;
        }
    }
    Ok(cursors)
}
