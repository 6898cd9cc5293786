//! Which of a log's two tables a database has.
ghost use Rattle.std.specs.Prelude.{◌≡◌, IsTrue, IfSome, codes, None, Some, slice_get};
ghost use Rattle.sb_log.specs.Form as form;

use sqlite_schema::code::{Op, Terms};
use sqlite_schema::schema::{Column, Index, Kind, Schema, Stamps, Table};
use sqlite_sql::ops::{BinaryOp, CompareOp};
use sqlite_value::keys::Collation;
use sqlite_value::value::Value;

/// The tables that are there already.
#[derive(Clone, Copy, Debug, PartialEq, Eq)]
pub(crate) enum Made {
    Neither,
    Meta,
    Both,
}

/// Which tables there are; none if there is anything else.
pub(crate) fn tables_in(schema: &Schema) -> Option<Made>
    ensures is { IfSome result (λ made. schema.now ≡ form.schema_with made) }
    ensures whole { (made : Made) → schema.now ≡ form.schema_with made → result ≡ Some made }
{
    if !schema.views.is_empty() {
        return None;
    }
    match (schema.tables.as_slice(), schema.indexes.as_slice()) {
        ([], []) => Some(Made::Neither),
        ([meta], []) if is_meta(meta) => Some(Made::Meta),
        ([meta, writes], [by_key, by_version])
            if is_meta(meta) && is_writes(writes) && are_indexes(by_key, by_version) => Some(
            Made::Both,
        ),
        _ => None,
    }
}

fn is_column(column: &Column, name: &[u8], kind: Kind, not_null: bool) -> bool
    ensures is { IsTrue result → column.now ≡ form.column_of name.now kind not_null }
    ensures whole { column.now ≡ form.column_of name.now kind not_null → IsTrue result }
{
    column.name.as_slice() == name
        && column.kind == kind
        && column.is_strict
        && column.not_null == not_null
        && matches!(column.default, Value::Null)
        && column.collation == Collation::Binary
}

fn has_no_stamps(stamps: &Stamps) -> bool
    ensures is { IsTrue result → stamps.now ≡ form.no_stamps }
    ensures whole { stamps.now ≡ form.no_stamps → IsTrue result }
{
    stamps.places.is_empty() && stamps.terms.roots.is_empty() && stamps.formats.is_empty()
}

fn is_plain(table: &Table) -> bool
    ensures is { IsTrue result → form.IsPlain table.now }
    ensures whole { form.IsPlain table.now → IsTrue result }
{
    table.references.is_empty()
        && table.computed.is_empty()
        && has_no_stamps(&table.stamps)
        && !table.is_counted
}

fn are_meta_columns(columns: &[Column]) -> bool
    ensures is { IsTrue result → columns.now ≡ form.meta_columns }
    ensures whole { columns.now ≡ form.meta_columns → IsTrue result }
{
    let [id, form, owner, cluster, last, floor] = columns else {
        return false;
    };
    is_column(id, b"id", Kind::Integer, false)
        && is_column(form, b"form", Kind::Integer, true)
        && is_column(owner, b"owner", Kind::Text, true)
        && is_column(cluster, b"cluster", Kind::Text, true)
        && is_column(last, b"last", Kind::Integer, true)
        && is_column(floor, b"floor", Kind::Integer, true)
}

fn are_writes_columns(columns: &[Column]) -> bool
    ensures is { IsTrue result → columns.now ≡ form.writes_columns }
    ensures whole { columns.now ≡ form.writes_columns → IsTrue result }
{
    let [k, version, tag, num, txt] = columns else {
        return false;
    };
    is_column(k, b"k", Kind::Text, true)
        && is_column(version, b"version", Kind::Integer, true)
        && is_column(tag, b"tag", Kind::Integer, true)
        && is_column(num, b"num", Kind::Integer, false)
        && is_column(txt, b"txt", Kind::Text, false)
}

#[tactic(auto, using(crate::proofs::Nodes::ones_there, crate::proofs::Nodes::ones_needed))]
fn is_one(terms: &Terms) -> bool
    ensures is { IsTrue result → terms.now ≡ form.is_one_alone }
    ensures whole { terms.now ≡ form.is_one_alone → IsTrue result }
{
    are_one(terms.nodes.as_slice(), terms.roots.as_slice())
}

fn are_one(nodes: &[Op], roots: &[usize]) -> bool
    ensures { result ≡ form.are_one nodes.now roots.now }
{
    match roots {
        [root] => is_one_at(nodes, *root),
        _ => false,
    }
}

/// Whether the node at a place tests that `id` is 1.
fn is_one_at(nodes: &[Op], root: usize) -> bool
    ensures { result ≡ form.is_one_at nodes.now root }
{
    match nodes.get(root) {
        Some(Op::Binary(op, left, right)) => {
            is_equals(*op) && (is_id(nodes, *left) && is_number_one(nodes, *right))
        }
        _ => false,
    }
}

fn is_equals(op: BinaryOp) -> bool
    ensures { result ≡ form.is_equals op }
{
    matches!(op, BinaryOp::Compare(CompareOp::Eq, Collation::Binary))
}

fn is_id(nodes: &[Op], at: usize) -> bool
    ensures { result ≡ form.is_id (slice_get nodes.now at) }
{
    match nodes.get(at) {
        Some(Op::Column(slot, place)) => *slot == 1 && *place == 0,
        _ => false,
    }
}

fn is_number_one(nodes: &[Op], at: usize) -> bool
    ensures { result ≡ form.is_number_one (slice_get nodes.now at) }
{
    match nodes.get(at) {
        Some(Op::Literal(Value::Int(number))) => *number == 1,
        _ => false,
    }
}

fn is_meta(table: &Table) -> bool
    ensures is { IsTrue result → table.now ≡ form.meta_table }
    ensures whole { table.now ≡ form.meta_table → IsTrue result }
{
    if !has_columns_of_meta(table) {
        return false;
    }
    let [0] = table.primary.as_slice() else {
        return false;
    };
    if !table.uniques.is_empty() {
        return false;
    }
    if !table.orders.is_empty() {
        return false;
    }
    if !is_one(&table.checks) {
        return false;
    }
    is_plain(table)
}

fn has_columns_of_meta(table: &Table) -> bool
    ensures is { IsTrue result → form.HasColumns (codes "meta") 0 form.meta_columns (Some 0) table.now }
    ensures whole { form.HasColumns (codes "meta") 0 form.meta_columns (Some 0) table.now → IsTrue result }
{
    if table.name.as_slice() != b"meta".as_slice() {
        return false;
    }
    if table.tree != 0 {
        return false;
    }
    if table.key != Some(0) {
        return false;
    }
    are_meta_columns(table.columns.as_slice())
}

fn is_writes(table: &Table) -> bool
    ensures is { IsTrue result → table.now ≡ form.writes_table }
    ensures whole { table.now ≡ form.writes_table → IsTrue result }
{
    if !has_columns_of_writes(table) {
        return false;
    }
    if !has_keys_of_writes(table) {
        return false;
    }
    if !table.checks.roots.is_empty() {
        return false;
    }
    is_plain(table)
}

fn has_columns_of_writes(table: &Table) -> bool
    ensures is { IsTrue result → form.HasColumns (codes "writes") 1 form.writes_columns None table.now }
    ensures whole { form.HasColumns (codes "writes") 1 form.writes_columns None table.now → IsTrue result }
{
    if table.name.as_slice() != b"writes".as_slice() {
        return false;
    }
    if table.tree != 1 {
        return false;
    }
    if table.key.is_some() {
        return false;
    }
    are_writes_columns(table.columns.as_slice())
}

fn has_keys_of_writes(table: &Table) -> bool
    ensures is { IsTrue result → form.HasKeys table.now }
    ensures whole { form.HasKeys table.now → IsTrue result }
{
    let [1] = table.primary.as_slice() else {
        return false;
    };
    let [first, second] = table.uniques.as_slice() else {
        return false;
    };
    let [1] = first.as_slice() else {
        return false;
    };
    let [2] = second.as_slice() else {
        return false;
    };
    let [one, two] = table.orders.as_slice() else {
        return false;
    };
    one.digits == 0 && two.digits == 0
}

#[tactic(auto, using(crate::proofs::Cells::index_is))]
fn is_index(index: &Index, name: &[u8], tree: u32, place: usize) -> bool
    ensures is { IsTrue result → index.now ≡ form.writes_index name.now tree place }
    ensures whole { index.now ≡ form.writes_index name.now tree place → IsTrue result }
{
    if index.name.as_slice() != name {
        return false;
    }
    if index.tree != tree {
        return false;
    }
    if index.table != 1 {
        return false;
    }
    if index.columns.as_slice() != [place].as_slice() {
        return false;
    }
    if index.order.digits != 0 {
        return false;
    }
    index.is_unique
}

fn are_indexes(by_key: &Index, by_version: &Index) -> bool
    ensures is { IsTrue result
        → (by_key.now ≡ form.writes_index (codes "sqlite_autoindex_writes_1") 2 1) × (by_version.now ≡ form.writes_index (codes "sqlite_autoindex_writes_2") 3 2) }
    ensures whole { (by_key.now ≡ form.writes_index (codes "sqlite_autoindex_writes_1") 2 1) × (by_version.now ≡ form.writes_index (codes "sqlite_autoindex_writes_2") 3 2)
        → IsTrue result }
{
    is_index(by_key, b"sqlite_autoindex_writes_1", 2, 1)
        && is_index(by_version, b"sqlite_autoindex_writes_2", 3, 2)
}
