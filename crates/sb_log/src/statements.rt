//! The statements of a log. Each commits by itself.
ghost use Rattle.std.specs.Prelude.{◌≡◌, ℕ, List, ◌<◌, ◌≤◌, ◌^◌, true, [], map, drop, IsPermutation, IfOk, IfErr, OnOk};
ghost use Rattle.sqlite.specs.Held.{state};
ghost use Rattle.sqlite_catalog.specs.Listing.{IsSound};
ghost use Rattle.sb_types.specs.declared.limits.TheConstants.{VERSION_MOST};
ghost use Rattle.sb_types.specs.Records as records;
ghost use Rattle.sb_table.specs.Plain.{IsPlainTable};
ghost use Rattle.sb_log.specs.Form.{newest_form, no_schema, meta_schema, log_schema};
ghost use Rattle.sb_log.specs.Rows.{cells_of, numbered_cells, is_kept, Enters, AreRowsOf};
ghost use Rattle.sb_log.specs.Opening.{meta_cells, IsNamedIn};
ghost use Rattle.sb_log.specs.Cause.{IsAnswer, IsReadingFault, IsUndamaged};
ghost use Rattle.sb_log.specs.Standing.{IsPrepared};
ghost use Rattle.sb_log.specs.Statements.{AfterReady, AfterSchema, AfterPrepared, Leaves, LeavesSame, StaysReady, KeepsDoubt, Commits, Makes};

use crate::cause::{LogError, StoreCause};
use crate::rows::{cells_of, table_of};
use sb_table::Table;
use sb_types::{Entry, Name};
use sqlite::{Alter, Connection, Row};
use sqlite_value::value::ValueRef;
use std::alloc::Global;

/// Makes the table that says whose the log is.
pub(crate) fn make_meta<S: Alter>(conn: &mut Connection<S>) -> Result<(), StoreCause>
    ensures makes { Makes S.Store conn.old conn.new no_schema meta_schema result (λ _ new. new 0 ≡ []) }
    ensures crash { AfterSchema S.Store conn.old conn.new no_schema (λ old new. Leaves old new (λ db. IsSound meta_schema db × (db 0 ≡ []))) }
    ensures clean { KeepsDoubt S.Store conn.old conn.new }
{
    match conn.execute(
        "CREATE TABLE meta (id INTEGER PRIMARY KEY CHECK (id = 1), form INTEGER NOT NULL, owner TEXT NOT NULL, cluster TEXT NOT NULL, last INTEGER NOT NULL, floor INTEGER NOT NULL) STRICT",
        &[],
    ) {
        Ok(_) => Ok(()),
        Err(error) => Err(StoreCause::of(&error)),
    }
}

/// Makes the table of the writes beside it.
pub(crate) fn make_writes<S: Alter>(conn: &mut Connection<S>) -> Result<(), StoreCause>
    ensures makes { Makes S.Store conn.old conn.new meta_schema log_schema result (λ old new. (new 0 ≡ old 0) × (new 1 ≡ [])) }
    ensures crash { AfterSchema S.Store conn.old conn.new meta_schema (λ old new. Leaves old new (λ db. IsSound log_schema db × (db 0 ≡ old.now.trees 0) × (db 1 ≡ []))) }
    ensures clean { KeepsDoubt S.Store conn.old conn.new }
{
    match conn.execute(
        "CREATE TABLE writes (k TEXT PRIMARY KEY NOT NULL, version INTEGER NOT NULL UNIQUE, tag INTEGER NOT NULL, num INTEGER, txt TEXT) STRICT",
        &[],
    ) {
        Ok(_) => Ok(()),
        Err(error) => Err(StoreCause::of(&error)),
    }
}

/// Reads the rows that say whose the log is.
pub(crate) fn read_meta<S: Alter>(conn: &mut Connection<S>) -> Result<Vec<Row>, StoreCause>
    ensures rows { AfterPrepared S.Store conn.old conn.new (λ old _. IfOk result (λ rows. IsPermutation (map meta_cells (old.now.trees 0)) rows.items)) }
    ensures ready { AfterPrepared S.Store conn.old conn.new (λ old new. OnOk result (StaysReady old new)) }
    // Also if the table of the writes is missing.
    ensures alone { AfterSchema S.Store conn.old conn.new meta_schema (λ old _. IfOk result (λ rows. IsPermutation (map meta_cells (old.now.trees 0)) rows.items)) }
    ensures same { AfterSchema S.Store conn.old conn.new meta_schema (λ old new. OnOk result ((new.now ≡ old.now) × (new.in_transaction ≡ old.in_transaction))) }
    ensures crash { AfterPrepared S.Store conn.old conn.new LeavesSame }
    ensures crash_alone { AfterSchema S.Store conn.old conn.new meta_schema LeavesSame }
    ensures clean { KeepsDoubt S.Store conn.old conn.new }
{
    match conn.query_all(
        "SELECT id, form, owner, cluster, last, floor FROM meta",
        &[],
    ) {
        Ok(rows) => Ok(rows),
        Err(error) => Err(StoreCause::of(&error)),
    }
}

/// Writes whose the log is, in a log that says nothing yet.
pub(crate) fn write_meta<S: Alter>(
    conn: &mut Connection<S>,
    owner: &Name,
    cluster: &Name,
) -> Result<(), StoreCause>
    ensures commits { Commits S.Store conn.old conn.new result (λ old new. (new 1 ≡ old 1) × (old 0 ≡ [] → IsNamedIn newest_form owner.now cluster.now 0 0 (new 0))) }
    ensures clean { KeepsDoubt S.Store conn.old conn.new }
{
    match conn.execute(
        "INSERT INTO meta (id, form, owner, cluster, last, floor) VALUES (1, 2, ?1, ?2, 0, 0)",
        &[
            ValueRef::Text(owner.bytes()),
            ValueRef::Text(cluster.bytes()),
        ],
    ) {
        Ok(_) => Ok(()),
        Err(error) => Err(StoreCause::of(&error)),
    }
}

/// Raises the form of a log that says whose it is to 2.
pub(crate) fn raise_form<S: Alter>(conn: &mut Connection<S>) -> Result<(), StoreCause>
    // All else that the row says stays.
    ensures commits { (form last floor : ℕ) (owner cluster : List ℕ) → IsNamedIn form owner cluster last floor ((state S.Store conn.old).now.trees 0)
        → Commits S.Store conn.old conn.new result (λ old new. (new 1 ≡ old 1) × IsNamedIn newest_form owner cluster last floor (new 0)) }
    ensures clean { KeepsDoubt S.Store conn.old conn.new }
{
    match conn.execute("UPDATE meta SET form = 2", &[]) {
        Ok(_) => Ok(()),
        Err(error) => Err(StoreCause::of(&error)),
    }
}

/// Reads the rows of the writes with their rowids, by version.
pub(crate) fn read_rows<S: Alter>(conn: &mut Connection<S>) -> Result<Vec<Row>, StoreCause>
    ensures rows { AfterSchema S.Store conn.old conn.new log_schema (λ old _. IfOk result (λ rows. IsPermutation (map numbered_cells (old.now.trees 1)) rows.items)) }
    // They come in the order of the entries.
    ensures whole { AfterSchema S.Store conn.old conn.new log_schema (λ old _. IfOk result (λ rows. (t : records.Table) → AreRowsOf t (old.now.trees 1)
        → map (drop 1) rows.items ≡ map cells_of t.entries)) }
    ensures ready { AfterReady S.Store conn.old conn.new (λ old new. OnOk result (StaysReady old new)) }
    ensures crash { AfterReady S.Store conn.old conn.new LeavesSame }
    ensures clean { KeepsDoubt S.Store conn.old conn.new }
{
    match conn.query_all(
        "SELECT rowid, k, version, tag, num, txt FROM writes ORDER BY version",
        &[],
    ) {
        Ok(rows) => Ok(rows),
        Err(error) => Err(StoreCause::of(&error)),
    }
}

/// Writes an entry, which replaces the row of its key.
pub(crate) fn write_entry<S: Alter>(
    conn: &mut Connection<S>,
    entry: &Entry,
) -> Result<(), StoreCause>
    requires kept { is_kept entry.now ≡ true }
    requires short { entry.now.version < 2 ^ 63 }
    // Whose log it is stays.
    ensures commits { Commits S.Store conn.old conn.new result (λ old new. Enters entry.now (old 1) (new 1) × (new 0 ≡ old 0)) }
    ensures clean { KeepsDoubt S.Store conn.old conn.new }
{
    match conn.execute(
        "INSERT INTO writes (k, version, tag, num, txt) VALUES (?1, ?2, ?3, ?4, ?5) \
ON CONFLICT (k) DO UPDATE SET version = excluded.version, tag = excluded.tag, num = excluded.num, txt = excluded.txt",
        &cells_of(entry),
    ) {
        Ok(_) => Ok(()),
        Err(error) => Err(StoreCause::of(&error)),
    }
}

/// Reads the table of the writes. In this order: the store fails; `NoMemory`, or `LogDamaged` if the rows are not those of a table.
pub(crate) fn read_table<S: Alter>(
    conn: &mut Connection<S>,
    alloc: Global,
) -> Result<Table, LogError>
    ensures rows { AfterReady S.Store conn.old conn.new (λ old _. IfOk result (λ t. AreRowsOf t (old.now.trees 1))) }
    ensures plain { IfOk result IsPlainTable }
    ensures most { IfOk result (λ t. t.held ≤ VERSION_MOST) }
    // No row of a table's is taken for damage.
    ensures whole { AfterReady S.Store conn.old conn.new (λ old _. (t : records.Table) → AreRowsOf t (old.now.trees 1) → IsUndamaged result) }
    ensures ready { AfterReady S.Store conn.old conn.new (λ old new. IsAnswer result → StaysReady old new) }
    ensures crash { AfterReady S.Store conn.old conn.new LeavesSame }
    ensures clean { KeepsDoubt S.Store conn.old conn.new }
    ensures fault { IfErr result IsReadingFault }
{
    let rows = read_rows(conn)?;
    Ok(table_of(alloc, &rows)?)
}
