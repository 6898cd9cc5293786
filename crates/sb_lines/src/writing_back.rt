//! What a log gets back of an owner's rows that another node shows.
ghost use Rattle.std.specs.Prelude.{◌≡◌, ◌∷◌, [], true, OnOk, IfOk, IfErr};
ghost use Rattle.sb_log.specs.Puts.{Stays};
ghost use Rattle.sb_lines.specs.WrittenBack.{PutsRows, IsRowsReason, IsWrittenBack, EndsBy};

use sb_codec::Row;
use sb_log::WriteLog;
use sb_types::{Fault, Slot};
use std::alloc::Global;

/// Writes the value of a row under its key, with the next version. `NoMemory`; the faults of `put`.
#[tactic(auto, using(crate::proofs::Refusals::reason_of_one))]
fn put_row<L: WriteLog>(alloc: Global, log: &mut L, row: &Row) -> Result<(), Fault>
    ensures puts { PutsRows (L.seen log.old) (row.now ∷ []) result (L.seen log.new) }
{
    let value = row.value().copy(alloc)?;
    match log.put(row.key(), &Slot::Set(value)) {
        Ok(_) => Ok(()),
        Err(fault) => Err(fault),
    }
}

/// Writes rows, each under the next version. The first fault of `put_row` ends it, and the rows before it stay written.
#[tactic(auto, using(crate::proofs::Refusals::reason_of_first))]
fn put_rows<L: WriteLog>(alloc: Global, log: &mut L, rows: &[Row]) -> Result<(), Fault>
    ensures puts { PutsRows (L.seen log.old) rows.now result (L.seen log.new) }
{
    for row in rows {
        put_row(alloc, log, row)?;
    }
    Ok(())
}

/// Writes rows that another node shows of the log's owner, each under the next version, in their order. Then it raises the
/// floor to the last version, so that other nodes show these rows all at once. Returns that version. The versions of the
/// rows do not matter. The faults of the first row that is not written come first, then those of `load` and of `purge`:
///
/// - `NoMemory`.
/// - `Closed` after a fault of the store.
/// - The reason for which the log refuses a row, such as `TableFull` or `VersionsSpent`.
/// - `StoreFailed`, and `LogDamaged` if the store returns other rows than were written. Either closes the log.
///
/// After a fault some of the rows may be written. A caller that wants all rows or none drops such a log.
#[tactic(auto, using(crate::proofs::Refusals::shut_before))]
pub fn write_back<L: WriteLog>(alloc: Global, log: &mut L, rows: &[Row]) -> Result<u64, Fault>
    ensures stays { Stays (L.seen log.old) (L.seen log.new) }
    ensures written { IfOk result (λ last. (L.seen log.new).is_clean ≡ true → IsWrittenBack (L.seen log.old) rows.now last (L.seen log.new)) }
    ensures refused { IfErr result (λ fault. IsRowsReason (L.seen log.old) rows.now fault (L.seen log.new)) }
    ensures open { OnOk result ((L.seen log.new).is_open ≡ true) }
    ensures ends { IfErr result (λ fault. EndsBy (L.seen log.old) fault (L.seen log.new)) }
{
    put_rows(alloc, log, rows)?;
    let last = log.load(alloc)?.upto();
    log.purge(last)?;
    Ok(last)
}
