//! What follows for a log and its old copies. The functions do nothing: each clause is a law.

ghost use Rattle.std.specs.Prelude.{◌≡◌, ℕ, ◌≤◌, ◌<◌, List, ◌++◌, length};
ghost use Rattle.sb_types.specs.declared.entry.Write.{Write};
ghost use Rattle.sb_types.specs.Records.{Entry, Table, Block};
ghost use Rattle.sb_types.specs.Runs.{Stands, IsTable, IsBlock, shown_at};
ghost use Rattle.sb_types.specs.Writes.{Written, Gone, Holds, Honest};
ghost use Rattle.sb_holdings.specs.Contents.{content_table};
ghost use Rattle.sb_audit.specs.Foreign.{IsOwn, IsForeign};
ghost use Rattle.sb_audit.specs.Missing.{IsMissing};

/// The content of a log is the own table of all its writes, whatever was purged.
pub fn own_tables_are_contents()
    ensures { (writes : List Write) (floor : ℕ) → floor ≤ length writes → IsOwn writes (content_table floor writes) }
{}

/// No entry that the log ever gave is foreign to its table, whatever was purged since. This is so by itself, and in an
/// honest block of the log's first writes. It is so too in a table that holds these.
pub fn own_entries_are_not_foreign()
    ensures written { (writes : List Write) (t : Table) (e : Entry) → IsOwn writes t → Written writes e → IsForeign t e.version e → ⊥ }
    ensures block { (old more : List Write) (t : Table) (b : Block) (e : Entry) →
        IsOwn (old ++ more) t → IsBlock b → Honest old b → Stands b.entries e → IsForeign t b.upto e → ⊥ }
    ensures table { (old more : List Write) (t u : Table) (e : Entry) →
        IsOwn (old ++ more) t → IsTable u → Holds old u → Stands u.entries e → IsForeign t u.held e → ⊥ }
{}

/// An honest block of the log's writes, or of its first ones, lacks no entry of the log's table.
pub fn own_entries_are_not_missing()
    ensures { (old more : List Write) (t : Table) (b : Block) (own : Entry) →
        IsOwn (old ++ more) t → Honest old b → Stands t.entries own → IsMissing b own → ⊥ }
{}

/// Say another log gave writes under the same name, as an old copy of the log or a twin does. If a version that the own
/// table still has was another write there, it is found. As an entry of a block it is foreign. If an honest block of
/// the other log's writes reaches over the version, the own entry is missing.
pub fn foreign_entries_are_found()
    ensures foreign { (t : Table) (upto : ℕ) (own e : Entry) → Stands t.entries own → own.version ≡ e.version → (own ≡ e → ⊥) → IsForeign t upto e }
    ensures missing { (other : List Write) (t : Table) (b : Block) (own : Entry) →
        Honest other b → Stands t.entries own → (Written other own → ⊥) → b.after < own.version → own.version ≤ b.upto → (Gone b.floor own → ⊥) → IsMissing b own }
{}

/// Say no entry of a block is foreign, and no own entry is missing. Then whoever holds the block shows the last write of
/// each key that was last written in the block's range, as the own table does. Say the block also begins after 0, and
/// reaches up to the own table's floor or further. Then whoever holds it shows a key that the own table does not have as
/// the own table does: not at all.
pub fn what_passes_is_shown()
    ensures range { (t : Table) (b : Block) (own : Entry) → IsTable t → IsBlock b →
        ((e : Entry) → Stands b.entries e → IsForeign t b.upto e → ⊥) → ((x : Entry) → Stands t.entries x → IsMissing b x → ⊥) →
        Stands t.entries own → b.after < own.version → own.version ≤ b.upto → shown_at own.key b.entries ≡ shown_at own.key t.entries }
    ensures whole { (t : Table) (b : Block) (key : List ℕ) → IsTable t → IsBlock b →
        ((e : Entry) → Stands b.entries e → IsForeign t b.upto e → ⊥) → ((x : Entry) → Stands t.entries x → IsMissing b x → ⊥) →
        b.after ≡ 0 → t.floor ≤ b.upto → ((own : Entry) → Stands t.entries own → own.key ≡ key → own.version ≤ b.upto) → shown_at key b.entries ≡ shown_at key t.entries }
{}
