//! What a read of a table returns.

ghost use Rattle.std.specs.Prelude.{◌≡◌, ℕ, ◌≤◌, List, Some};
ghost use Rattle.sb_types.specs.declared.entry.Slot.TheVariants.{Set};
ghost use Rattle.sb_types.specs.declared.entry.Write.{Write};
ghost use Rattle.sb_types.specs.Value.{Value};
ghost use Rattle.sb_types.specs.Records.{Entry, Table};
ghost use Rattle.sb_types.specs.Runs.{IsTable, shown_slot, shown_at};
ghost use Rattle.sb_types.specs.Writes.{Written, Superseded, Holds};

/// If a table holds what its owner wrote, each value read from it was written with the version that is read. A key
/// whose last write is at or below the held version shows that write. A key that was written again above the held
/// version may show an older write, or nothing.
pub fn reads_are_true()
    ensures written { (writes : List Write) (t : Table) (key : List ℕ) (value : Value) (version : ℕ) →
        Holds writes t → shown_at key t.entries ≡ Some (value, version) →
        Written writes (record { key = key; version = version; slot = Set value }) }
    ensures exact { (writes : List Write) (t : Table) (e : Entry) →
        IsTable t → Holds writes t → Written writes e → e.version ≤ t.held → (Superseded writes e → ⊥) →
        shown_at e.key t.entries ≡ shown_slot e.version e.slot }
{}
