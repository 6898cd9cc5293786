//! The content of a log: what its rows hold, with the last version and the floor that it says beside them.
ghost use Rattle.std.specs.Prelude.{◌≡◌, ◌≤◌, ◌&&◌, nat_le, max, IfOk, IfErr, OnOk, IsOk};
ghost use Rattle.sb_types.specs.declared.limits.TheConstants.{VERSION_MOST};
ghost use Rattle.sb_types.specs.Records as records;
ghost use Rattle.sb_table.specs.Plain.{IsPlainTable};
ghost use Rattle.sb_table.specs.Contents.{IsContent};
ghost use Rattle.sb_log.specs.Cause.{IsAnswer, IsReadingFault, IsUndamaged};
ghost use Rattle.sb_log.specs.Rows.{AreRowsOf, CanSay, content_by};
ghost use Rattle.sb_log.specs.Statements.{AfterReady, LeavesSame, StaysReady, KeepsDoubt};

use crate::cause::LogError;
use crate::statements::read_table;
use sb_table::Table;
use sb_types::{Fault, VERSION_MOST};
use sqlite::{Alter, Connection};
use std::alloc::Global;

/// Reads the content of a log that says this last version and this floor. The faults of `read_table`; then `LogDamaged` if no
/// log of such rows can say them.
pub(crate) fn read_content<S: Alter>(
    conn: &mut Connection<S>,
    alloc: Global,
    last: u64,
    floor: u64,
) -> Result<Table, LogError>
    ensures rows { AfterReady S.Store conn.old conn.new (λ old _. IfOk result (λ t. (found : records.Table) × AreRowsOf found (old.now.trees 1)
        × (t ≡ content_by last floor found.entries))) }
    ensures table { IfOk result IsContent }
    // No rows of a log that can say both are taken for damage.
    ensures whole { AfterReady S.Store conn.old conn.new (λ old _. (t : records.Table) → AreRowsOf t (old.now.trees 1)
        → CanSay last floor t.entries → IsUndamaged result) }
    ensures ready { AfterReady S.Store conn.old conn.new (λ old new. IsAnswer result → StaysReady old new) }
    ensures crash { AfterReady S.Store conn.old conn.new LeavesSame }
    ensures clean { KeepsDoubt S.Store conn.old conn.new }
    ensures fault { IfErr result IsReadingFault }
{
    let found = read_table(conn, alloc)?;
    Ok(content_of(found, last, floor)?)
}

/// The content of a log that says this last version and this floor beside the entries of a table without a floor. It is held up
/// to the last version or that of the last entry, whichever is higher, and has no removals up to the floor. `LogDamaged` if no
/// log of such entries can say them. It takes no memory.
pub(crate) fn content_of(table: Table, last: u64, floor: u64) -> Result<Table, Fault>
    requires plain { IsPlainTable table }
    ensures content { IfOk result (λ t. t ≡ content_by last floor table.entries) }
    ensures table { IfOk result IsContent }
    ensures can { OnOk result (CanSay last floor table.entries) }
    ensures most { table.held ≤ VERSION_MOST → IfOk result (λ t. t.held ≤ VERSION_MOST) }
    ensures whole { CanSay last floor table.entries → IsOk result }
    ensures fault { IfErr result (λ fault. fault ≡ Fault.LogDamaged) }
{
    let mut table = table;
    let greatest = table.upto();
    if !can_say(last, floor, greatest) {
        return Err(Fault::LogDamaged);
    }
    table.raise(last.max(greatest), floor);
    Ok(table)
}

/// Whether a log whose last entry has this version can say this last version and this floor. The version is 0 if it has none.
fn can_say(last: u64, floor: u64, greatest: u64) -> bool
    ensures { result ≡ (nat_le floor last && (nat_le last VERSION_MOST && nat_le last (max floor greatest))) }
{
    floor <= last && (last <= VERSION_MOST && last <= floor.max(greatest))
}
