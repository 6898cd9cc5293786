//! All writes of an owner, as the table that its log contains.

ghost use Rattle.std.specs.Prelude.{◌≡◌, ℕ, ◌+◌, ◌≤◌, List, [], ◌∷◌, ◌++◌, length};
ghost use Rattle.sb_types.specs.declared.entry.Write.{Write};
ghost use Rattle.sb_types.specs.Records.{Table};
ghost use Rattle.sb_types.specs.Runs.{IsTable};
ghost use Rattle.sb_types.specs.Writes.{Written, Holds};
ghost use Rattle.sb_table.specs.Plain.{IsPlainTable, with_entry};
ghost use Rattle.sb_table.specs.Floors.{table_at_floor};
ghost use Rattle.sb_table.specs.Contents.{IsContent};
ghost use Rattle.sb_holdings.specs.Contents.{entry_of_write, content_table};

/// The content of a log of all writes is true, and is a table.
pub fn contents_hold()
    ensures holds { (writes : List Write) (floor : ℕ) → floor ≤ length writes → Holds writes (content_table floor writes) }
    ensures is { (writes : List Write) (floor : ℕ) → floor ≤ length writes → IsTable (content_table floor writes) }
{}

/// With one more write, the log contains the entry of that write in place of its key's old entry, whatever its purge
/// floor is.
pub fn contents_grow()
    ensures table { (writes : List Write) (w : Write) (floor : ℕ) → floor ≤ length writes →
        content_table floor (writes ++ w ∷ []) ≡ with_entry (content_table floor writes) (entry_of_write (length writes + 1) w) }
    ensures written { (writes : List Write) (w : Write) → Written (writes ++ w ∷ []) (entry_of_write (length writes + 1) w) }
{}

/// A log that is purged up to a higher floor has no tombstones up to it. A tombstone is the marker of a removed key.
/// Everything else stays as before.
pub fn contents_purge()
    ensures { (writes : List Write) (floor more : ℕ) → floor ≤ more → content_table more writes ≡ table_at_floor (length writes) more (content_table floor writes) }
{}

/// Each table of floor 0 is the content of a log of some writes. So is each table whose held version is at most its
/// floor or its last entry's version, whichever is higher.
pub fn tables_are_contents()
    ensures plain { (t : Table) → IsPlainTable t → (writes : List Write) × (content_table 0 writes ≡ t) }
    ensures content { (t : Table) → IsContent t → (writes : List Write) × (content_table t.floor writes ≡ t) }
{}
