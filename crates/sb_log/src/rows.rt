//! Entries as rows of a log's table, and back.
ghost use Rattle.std.specs.Prelude.{◌≡◌, ◌≢◌, ◌<◌, ◌⊎◌, ◌^◌, true, [], ◌∷◌, ◌++◌, false, pos, not, map, length, IfOk, IfErr, IfSome, IfNone, IsTrue, OnOk, Ok, None, drop, IsSome};
ghost use Rattle.std.specs.BTreeSet.{contains, Updates};
ghost use Rattle.std.specs.Ordering.{int_cmp};
ghost use Rattle.std.specs.List.{list_all};
ghost use Rattle.sqlite_trees.specs.Tree.{rowid};
ghost use Rattle.sqlite_trees.specs.View.{is_int};
ghost use Rattle.sqlite_value.specs.declared.value.Value.TheVariants.{Int, Text};
ghost use Rattle.sqlite_value.specs.Value.{owned};
ghost use Rattle.sqlite.specs.Values.{bound};
ghost use Rattle.sb_types.specs.declared.limits.TheConstants.{KEYS_MOST};
ghost use Rattle.sb_types.specs.Limits.{is_slot, is_entry};
ghost use Rattle.sb_types.specs.Records as records;
ghost use Rattle.sb_types.specs.Kinds as kinds;
ghost use Rattle.sb_types.specs.declared.kind.Kind as declared_kind;
ghost use Rattle.sb_types.specs.Kinds.{Fits, shown, tag_of, form_in};
ghost use Rattle.sb_types.specs.Runs.{has_key};
ghost use Rattle.sb_table.specs.Plain.{IsPlainTable};
ghost use Rattle.sb_log.specs.Rows.{number_cell, text_cell, slot_cells, cells_of, is_kept, sets_text, has_texts, AreNumbered, AreNumberedApart};

use sb_table::Table;
use sb_types::{ContentRef, Entry, Fault, Form, Key, Kind, Slot, TAG_TEXT, VERSION_MOST, Value};
use sqlite::Row;
use sqlite_value::value::ValueRef;
use std::alloc::Global;
use std::collections::BTreeSet;

/// The parameters that write an entry.
pub(crate) fn cells_of(entry: &Entry) -> [ValueRef<'_>; 5]
    requires { entry.now.version < 2 ^ 63 }
    ensures { bound result ≡ cells_of entry.now }
{
    let (tag, number, text) = slot_cells(entry.slot());
    [
        ValueRef::Text(entry.key().bytes()),
        ValueRef::Int(entry.version() as i64),
        tag,
        number,
        text,
    ]
}

fn slot_cells(slot: &Slot) -> (ValueRef<'_>, ValueRef<'_>, ValueRef<'_>)
    ensures { bound (result.0 ∷ result.1 ∷ result.2 ∷ []) ≡ slot_cells slot.now }
{
    let Slot::Set(value) = slot else {
        return (ValueRef::Int(0), ValueRef::Null, ValueRef::Null);
    };
    let (number, text) = content_cells(value.content());
    (ValueRef::Int(i64::from(value.kind().tag())), number, text)
}

/// The number and the text of what a value holds.
fn content_cells(content: ContentRef<'_>) -> (ValueRef<'_>, ValueRef<'_>)
    requires { Fits (shown content) }
    ensures { bound (result.0 ∷ result.1 ∷ []) ≡ number_cell (shown content.entry) ∷ text_cell (shown content.entry) ∷ [] }
{
    match content {
        ContentRef::Word(text) => (ValueRef::Null, ValueRef::Text(text)),
        ContentRef::Text(text) => (ValueRef::Null, ValueRef::Text(text)),
        ContentRef::Number(number) => (ValueRef::Int(number as i64), ValueRef::Null),
        ContentRef::Truth(truth) => (ValueRef::Int(i64::from(truth)), ValueRef::Null),
    }
}

/// The entry that a row of an answer holds after its rowid; none if it breaks a limit. `NoMemory`.
#[tactic(auto, using(crate::proofs::Cells::six_cells, crate::proofs::Cells::behind_first))]
fn entry_in(alloc: Global, row: &Row) -> Result<Option<Entry>, Fault>
    ensures entry { IfOk result (λ found. IfSome found (λ e. (cells_of e ≡ drop 1 row.now) × (is_kept e ≡ true))) }
    ensures numbered { IfOk result (λ found. IsSome found → is_int (rowid row.now) ≡ true) }
    ensures whole { (e : records.Entry) → is_kept e ≡ true → drop 1 row.now ≡ cells_of e → is_int (rowid row.now) ≡ true → result ≢ Ok None }
    ensures fault { IfErr result (λ fault. fault ≡ Fault.NoMemory) }
{
    if row.column_count() != 6 {
        return Ok(None);
    }
    let Ok(ValueRef::Int(_)) = row.get_ref(0) else {
        return Ok(None);
    };
    let (Ok(ValueRef::Text(key)), Ok(ValueRef::Int(version)), Ok(tag), Ok(number), Ok(text)) = (
        row.get_ref(1),
        row.get_ref(2),
        row.get_ref(3),
        row.get_ref(4),
        row.get_ref(5),
    ) else {
        return Ok(None);
    };
    entry_of(alloc, key, version, (tag, number, text))
}

/// The entry of these cells; none if they break a limit. `NoMemory`.
#[tactic(auto, using(crate::proofs::Cells::entry_cells, crate::proofs::Cells::entry_kept))]
fn entry_of(
    alloc: Global,
    key: &[u8],
    version: i64,
    slot: (ValueRef<'_>, ValueRef<'_>, ValueRef<'_>),
) -> Result<Option<Entry>, Fault>
    ensures cells { IfOk result (λ found. IfSome found (λ e. cells_of e ≡ Text key.now ∷ Int version ∷ owned slot.entry.0 ∷ owned slot.entry.1 ∷ owned slot.entry.2 ∷ [])) }
    ensures kept { IfOk result (λ found. IfSome found (λ e. is_kept e ≡ true)) }
    ensures whole { (e : records.Entry) → is_kept e ≡ true → cells_of e ≡ Text key.now ∷ Int version ∷ owned slot.entry.0 ∷ owned slot.entry.1 ∷ owned slot.entry.2 ∷ []
        → result ≢ Ok None }
    ensures fault { IfErr result (λ fault. fault ≡ Fault.NoMemory) }
{
    let Ok(key) = Key::read(key) else {
        return Ok(None);
    };
    let Ok(version) = u64::try_from(version) else {
        return Ok(None);
    };
    if version < 1 {
        return Ok(None);
    }
    if version > VERSION_MOST {
        return Ok(None);
    }
    let (tag, number, text) = slot;
    match slot_in(alloc, tag, number, text)? {
        Some(slot) => Ok(Some(Entry::new(key, version, slot))),
        None => Ok(None),
    }
}

/// The slot of these cells; none if they break the rule of their tag. `NoMemory`.
fn slot_in(
    alloc: Global,
    tag: ValueRef<'_>,
    number: ValueRef<'_>,
    text: ValueRef<'_>,
) -> Result<Option<Slot>, Fault>
    ensures slot { IfOk result (λ found. IfSome found (λ s. (slot_cells s ≡ owned tag.entry ∷ owned number.entry ∷ owned text.entry ∷ []) × (is_slot s ≡ true))) }
    ensures whole { (s : _) → is_slot s ≡ true → slot_cells s ≡ owned tag.entry ∷ owned number.entry ∷ owned text.entry ∷ [] → result ≢ Ok None }
    ensures fault { IfErr result (λ fault. fault ≡ Fault.NoMemory) }
{
    match (tag, number, text) {
        (ValueRef::Int(0), ValueRef::Null, ValueRef::Null) => Ok(Some(Slot::Removed)),
        (ValueRef::Int(tag), number, text) => match kind_at(tag) {
            Some(kind) => value_in(alloc, kind, number, text),
            None => Ok(None),
        },
        _ => Ok(None),
    }
}

/// The kind of a tag; none if no kind has it.
#[tactic(auto, using(crate::proofs::Slots::kind_found, crate::proofs::Slots::kind_missed, crate::proofs::Slots::kind_below))]
fn kind_at(tag: i64) -> Option<Kind>
    ensures found { IfSome result (λ kind. pos (tag_of kind) ≡ tag) }
    ensures none { IfNone result ((kind : declared_kind.Kind) → pos (tag_of kind) ≢ tag) }
{
    match u8::try_from(tag) {
        Ok(tag) => Kind::of_tag(tag),
        Err(_) => None,
    }
}

/// The value of this kind in these cells; none if they break its rule. `NoMemory`.
#[tactic(auto, using(crate::proofs::Slots::value_found))]
fn value_in(
    alloc: Global,
    kind: Kind,
    number: ValueRef<'_>,
    text: ValueRef<'_>,
) -> Result<Option<Slot>, Fault>
    ensures slot { IfOk result (λ found. IfSome found (λ s. (slot_cells s ≡ Int (pos (tag_of kind)) ∷ owned number.entry ∷ owned text.entry ∷ []) × (is_slot s ≡ true))) }
    ensures whole { (s : _) → is_slot s ≡ true → slot_cells s ≡ Int (pos (tag_of kind)) ∷ owned number.entry ∷ owned text.entry ∷ [] → result ≢ Ok None }
    ensures fault { IfErr result (λ fault. fault ≡ Fault.NoMemory) }
{
    let Some(content) = content_in(kind.form(), number, text) else {
        return Ok(None);
    };
    match Value::from_content(alloc, kind, content) {
        Ok(value) => Ok(Some(Slot::Set(value))),
        Err(Fault::BadValue) => Ok(None),
        Err(_) => Err(Fault::NoMemory),
    }
}

/// The content of this form in these cells; none if they hold no such content.
fn content_in<'a>(form: Form, number: ValueRef<'a>, text: ValueRef<'a>) -> Option<ContentRef<'a>>
    ensures found { IfSome result (λ content. (form_in (shown content) ≡ form) × (number_cell (shown content) ≡ owned number.entry) × (text_cell (shown content) ≡ owned text.entry)) }
    ensures none { IfNone result ((content : kinds.Content) → form_in content ≡ form → number_cell content ≡ owned number.entry → text_cell content ≢ owned text.entry) }
{
    match (form, number, text) {
        (Form::Word, ValueRef::Null, ValueRef::Text(text)) => Some(ContentRef::Word(text)),
        (Form::Text, ValueRef::Null, ValueRef::Text(text)) => Some(ContentRef::Text(text)),
        (Form::Number, ValueRef::Int(number), ValueRef::Null) if number >= 0 => {
            Some(ContentRef::Number(number as u64))
        }
        (Form::Truth, ValueRef::Int(0), ValueRef::Null) => Some(ContentRef::Truth(false)),
        (Form::Truth, ValueRef::Int(1), ValueRef::Null) => Some(ContentRef::Truth(true)),
        _ => None,
    }
}

/// The table of the entries that these rows hold. The rows come by version. `LogDamaged` if a row breaks a limit, if two rows
/// have one rowid, key or version, or if there are too many; `NoMemory`.
pub(crate) fn table_of(alloc: Global, rows: &[Row]) -> Result<Table, Fault>
    ensures plain { IfOk result IsPlainTable }
    ensures rows { IfOk result (λ t. map cells_of t.entries ≡ map (drop 1) rows.now) }
    ensures numbered { OnOk result (AreNumbered rows.now) }
    ensures apart { OnOk result (AreNumberedApart rows.now) }
    ensures kept { IfOk result (λ t. list_all is_kept t.entries ≡ true) }
    ensures whole { (t : records.Table) → IsPlainTable t → list_all is_kept t.entries ≡ true → map (drop 1) rows.now ≡ map cells_of t.entries → AreNumbered rows.now
        → AreNumberedApart rows.now → IfErr result (λ fault. fault ≡ Fault.NoMemory) }
    ensures fault { IfErr result (λ fault. (fault ≡ Fault.NoMemory) ⊎ (fault ≡ Fault.LogDamaged)) }
{
    if !are_numbered_apart(alloc, rows)? {
        return Err(Fault::LogDamaged);
    }
    let mut table = Table::new(alloc);
    for row in rows {
        match entry_in(alloc, row)? {
            Some(entry) => add(&mut table, entry)?,
            None => return Err(Fault::LogDamaged),
        }
    }
    Ok(table)
}

/// Whether each row begins with its rowid, and no two have the same. `NoMemory`.
fn are_numbered_apart(alloc: Global, rows: &[Row]) -> Result<bool, Fault>
    ensures apart { IfOk result (λ apart. IsTrue apart → AreNumberedApart rows.now) }
    ensures whole { IfOk result (λ apart. AreNumbered rows.now → AreNumberedApart rows.now → IsTrue apart) }
    ensures fault { IfErr result (λ fault. fault ≡ Fault.NoMemory) }
{
    let mut seen = BTreeSet::new(alloc);
    for row in rows {
        let Ok(ValueRef::Int(number)) = row.get_ref(0) else {
            return Ok(false);
        };
        if !add_number(&mut seen, number)? {
            return Ok(false);
        }
    }
    Ok(true)
}

/// Adds a number, and says whether it was missing. `NoMemory`.
fn add_number(seen: &mut BTreeSet<i64>, number: i64) -> Result<bool, Fault>
    ensures new { IfOk result (λ new. new ≡ not (contains int_cmp seen.old number)) }
    ensures added { OnOk result (Updates int_cmp seen.old seen.new number true) }
    ensures fault { IfErr result (λ fault. fault ≡ Fault.NoMemory) }
{
    Ok(seen.insert(number)?)
}

/// Whether one of the entries sets a text.
pub(crate) fn has_texts(table: &Table) -> bool
    ensures { result ≡ has_texts table.now }
{
    for entry in table.after(0) {
        if sets_text(entry.slot()) {
            return true;
        }
    }
    false
}

fn sets_text(slot: &Slot) -> bool
    ensures { result ≡ sets_text slot.now }
{
    let Slot::Set(value) = slot else {
        return false;
    };
    value.kind().tag() == TAG_TEXT
}

/// Enters an entry of a new key and a later version. `LogDamaged` for any other entry, or if there is no room; `NoMemory`.
#[tactic(auto, using(crate::proofs::Cells::not_found, crate::proofs::Cells::added, crate::proofs::Whole::none_there))]
fn add(table: &mut Table, entry: Entry) -> Result<(), Fault>
    ensures added { OnOk result (table.new.entries ≡ table.old.entries ++ entry ∷ []) }
    ensures plain { IsPlainTable table.old → IsPlainTable table.new }
    ensures whole { table.old.held < entry.version → has_key entry.key table.old.entries ≡ false → length table.old.entries < KEYS_MOST
        → IfErr result (λ fault. fault ≡ Fault.NoMemory) }
    ensures fault { IfErr result (λ fault. (fault ≡ Fault.NoMemory) ⊎ (fault ≡ Fault.LogDamaged)) }
{
    if entry.version() <= table.upto() {
        return Err(Fault::LogDamaged);
    }
    let None = table.get(entry.key()) else {
        return Err(Fault::LogDamaged);
    };
    match table.push(entry) {
        Ok(()) => Ok(()),
        Err(Fault::NoMemory) => Err(Fault::NoMemory),
        Err(_) => Err(Fault::LogDamaged),
    }
}
