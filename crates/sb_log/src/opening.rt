//! Opening a log's tables, and making those that are missing.
ghost use Rattle.std.specs.Prelude.{◌≡◌, ◌≤◌, ◌⊎◌, ℕ, List, Ok, Err, Some, IfSome, pos, [], map, length, IfErr, IfOk, IsTrue, OnOk, IsOkAnd, false};
ghost use Rattle.sqlite_value.specs.declared.value.Value.TheVariants.{Int, Text};
ghost use Rattle.sqlite_value.specs.Order.{column};
ghost use Rattle.sqlite_catalog.specs.Listing.{IsSound};
ghost use Rattle.sb_types.specs.Records as records;
ghost use Rattle.sb_types.specs.declared.limits.TheConstants.{VERSION_MOST};
ghost use Rattle.sb_types.specs.Runs.{live_entries};
ghost use Rattle.sb_table.specs.Plain.{IsPlainTable, plain_table};
ghost use Rattle.sb_table.specs.Contents.{IsContent};
ghost use Rattle.sb_log.specs.Cause.{fault_of, IsAnswer, IsMakingFault, IsReadingFault, IsStoreError, OnRefusal};
ghost use Rattle.sb_log.specs.Form.{newest_form, no_schema, meta_schema, log_schema, schema_with};
ghost use Rattle.sb_log.specs.Opening.{meta_row, meta_found, IsForm, IsFormOf, IsNamedIn, IsSaid, IsOthers, NamesAnother, IsAccepted, SaysStill, Completes, Opens, Grows, Founds, IsWant, IsOpeningFault};
ghost use Rattle.sb_log.specs.Rows.{last_in, floor_in, AreRowsOf, CanSay};
ghost use Rattle.sb_log.specs.Standing.{HoldsContent, IsPrepared, IsReady};
ghost use Rattle.sb_log.specs.Statements.{AfterAny, AfterReady, AfterRow, AfterSchema, Leaves, LeavesSame, StaysReady, KeepsDoubt, Makes};

use crate::cause::{LogError, StoreCause};
use crate::content::content_of;
use crate::purging::drop_removals;
use crate::rows::has_texts;
use crate::schema::{Made, tables_in};
use crate::statements::{make_meta, make_writes, raise_form, read_meta, read_table, write_meta};
use sb_table::Table;
use sb_types::{Fault, Name};
use sqlite::{Alter, Connection, Row};
use sqlite_value::value::ValueRef;
use std::alloc::Global;

/// Opens a log's tables, makes those that are missing, and returns the content. `SqlLog::open` lists the faults in their order.
/// Which damage is named is tested by a table of cases. It is not proved.
pub(crate) fn open_tables<S: Alter>(
    conn: &mut Connection<S>,
    alloc: Global,
    owner: &Name,
    cluster: &Name,
) -> Result<Table, LogError>
    ensures opens { AfterAny S.Store conn.old conn.new (λ old _. IfOk result (Opens owner.now cluster.now old.now)) }
    ensures ready { AfterAny S.Store conn.old conn.new (λ _ new. OnOk result (IsReady new)) }
    ensures holds { AfterAny S.Store conn.old conn.new (λ _ new. IfOk result (λ t. HoldsContent owner.now cluster.now t t.entries new.now.trees)) }
    ensures still { AfterAny S.Store conn.old conn.new (λ old new. OnOk result (SaysStill owner.now cluster.now old.now new.now.trees)) }
    ensures table { IfOk result IsContent }
    ensures most { IfOk result (λ t. t.held ≤ VERSION_MOST) }
    // What is refused is refused again: at most the tables that were missing are made.
    ensures refused { AfterAny S.Store conn.old conn.new (λ old new. OnRefusal result ((new.now ≡ old.now) ⊎ Completes old.now new.now)) }
    // However it ends, a crash loses nothing of what was found.
    ensures crash { AfterAny S.Store conn.old conn.new (λ old new. Leaves old new (Founds owner.now cluster.now old.now)) }
    // A log that is whole and the owner's is not refused.
    ensures whole { AfterAny S.Store conn.old conn.new (λ old _. (t : records.Table) → Opens owner.now cluster.now old.now t → IfErr result IsWant) }
    // It is called another's just if its row says so.
    ensures others { AfterAny S.Store conn.old conn.new (λ old _. IfErr result (λ e. fault_of e ≡ Fault.WrongOwner → NamesAnother owner.now cluster.now old.now)) }
    ensures theirs { AfterAny S.Store conn.old conn.new (λ old _. NamesAnother owner.now cluster.now old.now → IfErr result (λ e. (fault_of e ≡ Fault.WrongOwner) ⊎ IsWant e)) }
    ensures clean { KeepsDoubt S.Store conn.old conn.new }
    ensures fault { IfErr result IsOpeningFault }
{
    make_tables(conn)?;
    let found = read_meta(conn)?;
    match found.as_slice() {
        [] => open_new(conn, alloc, owner, cluster),
        [row] => open_old(conn, alloc, row, owner, cluster),
        _ => Err(LogError::Fault(Fault::LogDamaged)),
    }
}

/// Opens tables that do not say yet whose they are. `LogDamaged` if they have rows of writes.
fn open_new<S: Alter>(
    conn: &mut Connection<S>,
    alloc: Global,
    owner: &Name,
    cluster: &Name,
) -> Result<Table, LogError>
    ensures rows { AfterReady S.Store conn.old conn.new (λ old _. IfOk result (λ t. AreRowsOf t (old.now.trees 1))) }
    ensures empty { IfOk result (λ t. t ≡ plain_table []) }
    ensures ready { AfterReady S.Store conn.old conn.new (λ _ new. OnOk result (IsReady new)) }
    ensures same { AfterReady S.Store conn.old conn.new (λ old new. OnOk result (new.now.trees 1 ≡ old.now.trees 1)) }
    ensures meta { AfterReady S.Store conn.old conn.new (λ old new. old.now.trees 0 ≡ [] → OnOk result (IsNamedIn newest_form owner.now cluster.now 0 0 (new.now.trees 0))) }
    ensures refused { AfterReady S.Store conn.old conn.new (λ old new. OnRefusal result (new.now ≡ old.now)) }
    ensures crash { AfterReady S.Store conn.old conn.new (λ old new. old.now.trees 0 ≡ []
        → Leaves old new (λ db. IsSound log_schema db × (db 1 ≡ old.now.trees 1) × IsNamedIn newest_form owner.now cluster.now 0 0 (db 0))) }
    ensures whole { AfterReady S.Store conn.old conn.new (λ old _. (t : records.Table) → AreRowsOf t (old.now.trees 1) → t ≡ plain_table [] → IfErr result IsWant) }
    ensures clean { KeepsDoubt S.Store conn.old conn.new }
    ensures fault { IfErr result IsReadingFault }
{
    let table = read_table(conn, alloc)?;
    if !table.is_empty() {
        return Err(LogError::Fault(Fault::LogDamaged));
    }
    // An empty table takes no memory.
    match write_meta(conn, owner, cluster) {
        Ok(()) => Ok(table),
        Err(cause) => Err(LogError::Store(cause)),
    }
}

/// Opens tables that say in this row whose they are. Then their form is 2, and no removal up to the floor has a row.
fn open_old<S: Alter>(
    conn: &mut Connection<S>,
    alloc: Global,
    row: &Row,
    owner: &Name,
    cluster: &Name,
) -> Result<Table, LogError>
    ensures found { AfterRow S.Store conn.old conn.new row.now (λ old _. IfOk result (λ t. (found : records.Table) × AreRowsOf found (old.now.trees 1)
        × IsSaid owner.now cluster.now found t (old.now.trees 0))) }
    ensures table { IfOk result IsContent }
    ensures most { IfOk result (λ t. t.held ≤ VERSION_MOST) }
    ensures ready { AfterRow S.Store conn.old conn.new row.now (λ _ new. OnOk result (IsReady new)) }
    ensures holds { AfterRow S.Store conn.old conn.new row.now (λ _ new. IfOk result (λ t. HoldsContent owner.now cluster.now t t.entries new.now.trees)) }
    ensures still { AfterRow S.Store conn.old conn.new row.now (λ old new. OnOk result
        (IsNamedIn newest_form owner.now cluster.now (last_in (old.now.trees 0)) (floor_in (old.now.trees 0)) (new.now.trees 0))) }
    ensures refused { AfterReady S.Store conn.old conn.new (λ old new. OnRefusal result (new.now ≡ old.now)) }
    ensures crash { AfterRow S.Store conn.old conn.new row.now (λ old new. Leaves old new (IsAccepted owner.now cluster.now (old.now.trees 0) (old.now.trees 1))) }
    ensures whole { AfterReady S.Store conn.old conn.new (λ old _. (form last floor : ℕ) → row.now ≡ meta_row form owner.now cluster.now last floor
        → (t : records.Table) → IsFormOf form t → CanSay last floor t.entries → AreRowsOf t (old.now.trees 1) → IfErr result IsWant) }
    ensures others { IfErr result (λ e. fault_of e ≡ Fault.WrongOwner → IsOthers owner.now cluster.now row.now) }
    ensures theirs { length row.now ≡ 6 → IsOthers owner.now cluster.now row.now → result ≡ Err (LogError.Fault Fault.WrongOwner) }
    ensures clean { KeepsDoubt S.Store conn.old conn.new }
    ensures fault { IfErr result IsOpeningFault }
{
    let meta = test_meta(row, owner, cluster)?;
    let found = read_whole(conn, alloc, meta.form)?;
    let rows = found.len();
    let table = content_of(found, meta.last, meta.floor)?;
    match accept_from(conn, meta.form, meta.floor, table.len() < rows) {
        Ok(()) => Ok(table),
        Err(cause) => Err(LogError::Store(cause)),
    }
}

/// Reads the rows of a log of this form, removals up to its floor too. The faults of `read_table`; then `LogDamaged` if form 1 has
/// a text.
fn read_whole<S: Alter>(
    conn: &mut Connection<S>,
    alloc: Global,
    form: u64,
) -> Result<Table, LogError>
    ensures rows { AfterReady S.Store conn.old conn.new (λ old _. IfOk result (λ t. AreRowsOf t (old.now.trees 1))) }
    ensures plain { IfOk result IsPlainTable }
    ensures most { IfOk result (λ t. t.held ≤ VERSION_MOST) }
    ensures ready { AfterReady S.Store conn.old conn.new (λ old new. IsAnswer result → StaysReady old new) }
    ensures form { IsForm form → IfOk result (IsFormOf form) }
    ensures crash { AfterReady S.Store conn.old conn.new LeavesSame }
    ensures whole { AfterReady S.Store conn.old conn.new (λ old _. (t : records.Table) → IsFormOf form t → AreRowsOf t (old.now.trees 1) → IfErr result IsWant) }
    ensures clean { KeepsDoubt S.Store conn.old conn.new }
    ensures fault { IfErr result IsReadingFault }
{
    let table = read_table(conn, alloc)?;
    if !is_form_of(form, &table) {
        return Err(LogError::Fault(Fault::LogDamaged));
    }
    Ok(table)
}

/// Whether a log of this form can have such entries. Form 1 has no texts: no release wrote a text in form 1.
fn is_form_of(form: u64, table: &Table) -> bool
    ensures is { IsTrue result → IsForm form → IsFormOf form table.now }
    ensures whole { IsFormOf form table.now → IsTrue result }
{
    if form != 1 {
        return true;
    }
    !has_texts(table)
}

/// Raises a log of this form and this floor to form 2. Then it deletes the rows of removals up to the floor, if there are any.
fn accept_from<S: Alter>(
    conn: &mut Connection<S>,
    form: u64,
    floor: u64,
    has_dead: bool,
) -> Result<(), StoreCause>
    requires { floor ≤ VERSION_MOST }
    ensures ready { AfterReady S.Store conn.old conn.new (λ old new. (last : ℕ) (owner cluster : List ℕ) → IsNamedIn form owner cluster last floor (old.now.trees 0)
        → OnOk result (IsReady new)) }
    ensures rows { AfterReady S.Store conn.old conn.new (λ old new. (last : ℕ) (owner cluster : List ℕ) → IsNamedIn form owner cluster last floor (old.now.trees 0)
        → (t : records.Table) → AreRowsOf t (old.now.trees 1) → (has_dead ≡ false → live_entries floor t.entries ≡ t.entries)
        → OnOk result (AreRowsOf (plain_table (live_entries floor t.entries)) (new.now.trees 1))) }
    ensures meta { AfterReady S.Store conn.old conn.new (λ old new. IsForm form → (last : ℕ) (owner cluster : List ℕ) → IsNamedIn form owner cluster last floor (old.now.trees 0)
        → OnOk result (IsNamedIn newest_form owner cluster last floor (new.now.trees 0))) }
    ensures crash { AfterReady S.Store conn.old conn.new (λ old new. IsForm form → (last : ℕ) (owner cluster : List ℕ) → IsNamedIn form owner cluster last floor (old.now.trees 0)
        → (t : records.Table) → AreRowsOf t (old.now.trees 1) → IsFormOf form t → CanSay last floor t.entries
        → Leaves old new (IsAccepted owner cluster (old.now.trees 0) (old.now.trees 1))) }
    ensures clean { KeepsDoubt S.Store conn.old conn.new }
{
    raise_from(conn, form)?;
    if has_dead {
        return drop_removals(conn, floor);
    }
    Ok(())
}

/// Raises the form of a log from this one to 2. It does nothing if the form is 2.
fn raise_from<S: Alter>(conn: &mut Connection<S>, form: u64) -> Result<(), StoreCause>
    ensures ready { AfterReady S.Store conn.old conn.new (λ old new. (last floor : ℕ) (owner cluster : List ℕ) → IsNamedIn form owner cluster last floor (old.now.trees 0)
        → OnOk result (IsReady new)) }
    ensures rows { AfterReady S.Store conn.old conn.new (λ old new. (last floor : ℕ) (owner cluster : List ℕ) → IsNamedIn form owner cluster last floor (old.now.trees 0)
        → OnOk result (new.now.trees 1 ≡ old.now.trees 1)) }
    ensures meta { AfterReady S.Store conn.old conn.new (λ old new. IsForm form → (last floor : ℕ) (owner cluster : List ℕ) → IsNamedIn form owner cluster last floor (old.now.trees 0)
        → OnOk result (IsNamedIn newest_form owner cluster last floor (new.now.trees 0))) }
    ensures crash { AfterReady S.Store conn.old conn.new (λ old new. (last floor : ℕ) (owner cluster : List ℕ) → IsNamedIn form owner cluster last floor (old.now.trees 0)
        → Leaves old new (λ db. (form ≡ 1) × IsSound log_schema db × (db 1 ≡ old.now.trees 1) × IsNamedIn newest_form owner cluster last floor (db 0))) }
    ensures clean { KeepsDoubt S.Store conn.old conn.new }
{
    if form == 1 {
        return raise_form(conn);
    }
    Ok(())
}

/// Makes those of a log's tables that are missing. The faults, in this order:
///
/// - The store fails inside a transaction.
/// - `LogDamaged` if there is anything else, or if only the table of writes is missing and the other one has a row.
/// - The store fails.
fn make_tables<S: Alter>(conn: &mut Connection<S>) -> Result<(), LogError>
    ensures completes { AfterAny S.Store conn.old conn.new (λ old new. OnOk result (Completes old.now new.now)) }
    ensures prepared { AfterAny S.Store conn.old conn.new (λ _ new. OnOk result (IsPrepared new)) }
    ensures refused { AfterAny S.Store conn.old conn.new (λ old new. OnRefusal result (new.now ≡ old.now)) }
    ensures crash { AfterAny S.Store conn.old conn.new (λ old new. Leaves old new (Grows old.now)) }
    ensures whole { AfterAny S.Store conn.old conn.new (λ old _. (made : Made) → old.now.schema ≡ schema_with made
        → (made ≡ Made.Meta → meta_found made old.now.trees ≡ []) → IfErr result IsStoreError) }
    ensures clean { KeepsDoubt S.Store conn.old conn.new }
    ensures fault { IfErr result IsMakingFault }
{
    if !conn.is_autocommit() {
        return Err(LogError::Store(StoreCause::Other));
    }
    match tables_in(conn.schema()) {
        None => Err(LogError::Fault(Fault::LogDamaged)),
        Some(Made::Both) => Ok(()),
        Some(Made::Meta) => make_second(conn),
        Some(Made::Neither) => Ok(make_both(conn)?),
    }
}

/// Makes the table of writes beside the first, which does not say yet whose the log is. `LogDamaged` if it does: then the log has
/// lost its writes. Nothing is made in that case, so the next opening reports it again.
fn make_second<S: Alter>(conn: &mut Connection<S>) -> Result<(), LogError>
    ensures makes { Makes S.Store conn.old conn.new meta_schema log_schema result (λ old new. (old 0 ≡ []) × (new 0 ≡ old 0) × (new 1 ≡ [])) }
    ensures refused { AfterSchema S.Store conn.old conn.new meta_schema (λ old new. OnRefusal result (new.now ≡ old.now)) }
    ensures crash { AfterSchema S.Store conn.old conn.new meta_schema (λ old new. Leaves old new (λ db. IsSound log_schema db × (db 0 ≡ old.now.trees 0) × (db 1 ≡ []))) }
    ensures whole { AfterSchema S.Store conn.old conn.new meta_schema (λ old _. old.now.trees 0 ≡ [] → IfErr result IsStoreError) }
    ensures clean { KeepsDoubt S.Store conn.old conn.new }
    ensures fault { IfErr result IsMakingFault }
{
    let found = read_meta(conn)?;
    if !found.is_empty() {
        return Err(LogError::Fault(Fault::LogDamaged));
    }
    Ok(make_writes(conn)?)
}

fn make_both<S: Alter>(conn: &mut Connection<S>) -> Result<(), StoreCause>
    ensures makes { Makes S.Store conn.old conn.new no_schema log_schema result (λ _ new. (new 0 ≡ []) × (new 1 ≡ [])) }
    ensures crash { AfterSchema S.Store conn.old conn.new no_schema (λ old new. Leaves old new (λ db. (IsSound meta_schema db × (db 0 ≡ []))
        ⊎ (IsSound log_schema db × (db 0 ≡ []) × (db 1 ≡ [])))) }
    ensures clean { KeepsDoubt S.Store conn.old conn.new }
{
    make_meta(conn)?;
    make_writes(conn)
}

/// What the row that says whose a log is says besides.
#[derive(Clone, Copy)]
struct Meta {
    form: u64,
    last: u64,
    floor: u64,
}

/// Tests the row that says whose the log is. The faults, in this order:
///
/// - `LogDamaged` if its number is not 1, or if its form is unknown.
/// - `WrongOwner` if it names another owner or cluster.
/// - `LogDamaged` if its last version or its floor is no number.
#[tactic(auto, using(crate::proofs::Cells::of_six))]
fn test_meta(row: &Row, owner: &Name, cluster: &Name) -> Result<Meta, Fault>
    ensures row { IfOk result (λ meta. row.now ≡ meta_row meta.form owner.now cluster.now meta.last meta.floor) }
    ensures form { IfOk result (λ meta. IsForm meta.form) }
    ensures whole { (form last floor : ℕ) → IsForm form → row.now ≡ meta_row form owner.now cluster.now last floor
        → IsOkAnd result (λ meta. (meta.form ≡ form) × ((meta.last ≡ last) × (meta.floor ≡ floor))) }
    ensures others { IfErr result (λ fault. fault ≡ Fault.WrongOwner → IsOthers owner.now cluster.now row.now) }
    ensures theirs { length row.now ≡ 6 → IsOthers owner.now cluster.now row.now → result ≡ Err Fault.WrongOwner }
    ensures fault { IfErr result (λ fault. (fault ≡ Fault.LogDamaged) ⊎ (fault ≡ Fault.WrongOwner)) }
{
    if row.column_count() != 6 {
        return Err(Fault::LogDamaged);
    }
    let Some(form) = form_of(row) else {
        return Err(Fault::LogDamaged);
    };
    if !is_text(row, 2, owner) {
        return Err(Fault::WrongOwner);
    }
    if !is_text(row, 3, cluster) {
        return Err(Fault::WrongOwner);
    }
    let Some(last) = number_in(row, 4) else {
        return Err(Fault::LogDamaged);
    };
    let Some(floor) = number_in(row, 5) else {
        return Err(Fault::LogDamaged);
    };
    Ok(Meta { form, last, floor })
}

/// The form that a row numbered 1 says, if it is a form that is read.
fn form_of(row: &Row) -> Option<u64>
    ensures is { IfSome result (λ form. IsForm form × (column row.now 0 ≡ Int (pos 1)) × (column row.now 1 ≡ Int (pos form))) }
    ensures whole { (form : ℕ) → IsForm form → column row.now 0 ≡ Int (pos 1) → column row.now 1 ≡ Int (pos form) → result ≡ Some form }
{
    match (row.get_ref(0), row.get_ref(1)) {
        (Ok(ValueRef::Int(1)), Ok(ValueRef::Int(1))) => Some(1),
        (Ok(ValueRef::Int(1)), Ok(ValueRef::Int(2))) => Some(2),
        _ => None,
    }
}

/// The number in a column, if it is not below 0.
fn number_in(row: &Row, at: usize) -> Option<u64>
    ensures is { IfSome result (λ number. column row.now at ≡ Int (pos number)) }
    ensures whole { (number : ℕ) → column row.now at ≡ Int (pos number) → result ≡ Some number }
{
    match row.get_ref(at) {
        Ok(ValueRef::Int(number)) if number >= 0 => Some(number as u64),
        _ => None,
    }
}

/// Whether a column has a name.
fn is_text(row: &Row, at: usize, name: &Name) -> bool
    ensures is { IsTrue result → column row.now at ≡ Text name.now }
    ensures whole { column row.now at ≡ Text name.now → IsTrue result }
{
    match row.get_ref(at) {
        Ok(ValueRef::Text(text)) => text == name.bytes(),
        _ => false,
    }
}
