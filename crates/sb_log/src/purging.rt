//! The statements that raise a log's floor, and the one by which a log begins after a version. Each commits by itself.
ghost use Rattle.std.specs.Prelude.{◌≡◌, ℕ, List, ◌<◌, ◌≤◌, ◌^◌, [], ◌∷◌, pos, OnOk};
ghost use Rattle.sqlite_value.specs.declared.value.Value.TheVariants.{Int};
ghost use Rattle.sqlite.specs.Held.{state};
ghost use Rattle.sqlite.specs.Values.{bound};
ghost use Rattle.sqlite_catalog.specs.Listing.{IsSound};
ghost use Rattle.sb_types.specs.Records as records;
ghost use Rattle.sb_types.specs.declared.limits.TheConstants.{VERSION_MOST};
ghost use Rattle.sb_table.specs.Plain.{plain_table};
ghost use Rattle.sb_log.specs.Form.{log_schema};
ghost use Rattle.sb_log.specs.Rows.{Drops};
ghost use Rattle.sb_log.specs.Opening.{IsNamedIn};
ghost use Rattle.sb_log.specs.Puts.{nothing_up_to, content_after_purge};
ghost use Rattle.sb_log.specs.Standing.{HoldsContent, IsReady};
ghost use Rattle.sb_log.specs.Statements.{AfterReady, Leaves, KeepsDoubt, Commits};

use crate::cause::StoreCause;
use sqlite::{Alter, Connection};
use sqlite_value::value::ValueRef;

/// Raises the floor of a log that holds up to this version. First it writes both numbers. From there on the removals up to the
/// floor do not count, and then it deletes their rows.
pub(crate) fn raise_floor<S: Alter>(
    conn: &mut Connection<S>,
    held: u64,
    floor: u64,
) -> Result<(), StoreCause>
    requires short { held < 2 ^ 63 }
    requires order { floor ≤ held }
    ensures ready { AfterReady S.Store conn.old conn.new (λ old new. (owner cluster : List ℕ) (content : records.Table)
        → HoldsContent owner cluster content content.entries old.now.trees → OnOk result (IsReady new)) }
    ensures content { AfterReady S.Store conn.old conn.new (λ old new. (owner cluster : List ℕ) (content : records.Table)
        → HoldsContent owner cluster content content.entries old.now.trees → content.held ≡ held → content.floor ≤ floor
        → OnOk result (HoldsContent owner cluster (content_after_purge floor content) (content_after_purge floor content).entries new.now.trees)) }
    // However it ends, a crash leaves what was there, or the content with the floor, of which removals may still have rows.
    ensures crash { AfterReady S.Store conn.old conn.new (λ old new. (owner cluster : List ℕ) (content : records.Table)
        → HoldsContent owner cluster content content.entries old.now.trees → content.held ≡ held → content.floor ≤ floor
        → Leaves old new (λ db. IsSound log_schema db × ((entries : List records.Entry) × HoldsContent owner cluster (content_after_purge floor content) entries db))) }
    ensures clean { KeepsDoubt S.Store conn.old conn.new }
{
    write_floor(conn, held, floor)?;
    drop_removals(conn, floor)
}

/// Writes a last version, which is the floor too, in a log of nothing.
pub(crate) fn begin_after<S: Alter>(conn: &mut Connection<S>, after: u64) -> Result<(), StoreCause>
    requires { after ≤ VERSION_MOST }
    ensures commits { (owner cluster : List ℕ) → HoldsContent owner cluster (plain_table []) [] (state S.Store conn.old).now.trees
        → Commits S.Store conn.old conn.new result (λ _ new. HoldsContent owner cluster (nothing_up_to after) [] new) }
    ensures clean { KeepsDoubt S.Store conn.old conn.new }
{
    write_floor(conn, after, after)
}

/// Writes the last version and the floor of a log that says whose it is.
fn write_floor<S: Alter>(conn: &mut Connection<S>, last: u64, floor: u64) -> Result<(), StoreCause>
    requires last { last < 2 ^ 63 }
    requires floor { floor < 2 ^ 63 }
    // All else that the row says stays.
    ensures commits { (form was_last was_floor : ℕ) (owner cluster : List ℕ)
        → IsNamedIn form owner cluster was_last was_floor ((state S.Store conn.old).now.trees 0)
        → Commits S.Store conn.old conn.new result (λ old new. (new 1 ≡ old 1) × IsNamedIn form owner cluster last floor (new 0)) }
    ensures clean { KeepsDoubt S.Store conn.old conn.new }
{
    match conn.execute(
        "UPDATE meta SET last = ?1, floor = ?2",
        &both_numbers(last, floor),
    ) {
        Ok(_) => Ok(()),
        Err(error) => Err(StoreCause::of(&error)),
    }
}

/// Deletes the rows of the removals up to a version.
pub(crate) fn drop_removals<S: Alter>(
    conn: &mut Connection<S>,
    floor: u64,
) -> Result<(), StoreCause>
    requires { floor < 2 ^ 63 }
    // Whose log it is stays, with its last version and its floor.
    ensures commits { Commits S.Store conn.old conn.new result (λ old new. Drops floor (old 1) (new 1) × (new 0 ≡ old 0)) }
    ensures clean { KeepsDoubt S.Store conn.old conn.new }
{
    match conn.execute(
        "DELETE FROM writes WHERE tag = 0 AND version <= ?1",
        &one_number(floor),
    ) {
        Ok(_) => Ok(()),
        Err(error) => Err(StoreCause::of(&error)),
    }
}

/// The parameters that say a last version and a floor.
fn both_numbers(last: u64, floor: u64) -> [ValueRef<'static>; 2]
    requires last { last < 2 ^ 63 }
    requires floor { floor < 2 ^ 63 }
    ensures { bound result ≡ Int (pos last) ∷ Int (pos floor) ∷ [] }
{
    [ValueRef::Int(last as i64), ValueRef::Int(floor as i64)]
}

/// The parameter that says a floor.
fn one_number(floor: u64) -> [ValueRef<'static>; 1]
    requires { floor < 2 ^ 63 }
    ensures { bound result ≡ Int (pos floor) ∷ [] }
{
    [ValueRef::Int(floor as i64)]
}
