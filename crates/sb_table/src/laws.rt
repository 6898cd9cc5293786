//! What follows from the definitions alone, for the crates above. The functions do nothing: each clause is a law.
ghost use Rattle.std.specs.Prelude.{◌≡◌, ◌≢◌, ◌<◌, ◌≤◌, ℕ, List, [], ◌∷◌, false, true, Some, None, IsPermutation};
ghost use Rattle.std.specs.Cmp.Lexicographic.{slice_cmp};
ghost use Rattle.std.specs.Ordering.{nat_cmp};
ghost use Rattle.std.specs.List.Sorted.{IsSortedByKey};
ghost use Rattle.sb_types.specs.Records as records;
ghost use Rattle.sb_types.specs.Runs.{IsTable, Stands, are_distinct, entries_after, entry_at, has_key};
ghost use Rattle.sb_table.specs.Plain.{IsPlainTable, is_full_for, with_entry};
ghost use Rattle.sb_table.specs.Order.{by_key};
ghost use Rattle.sb_table.specs.Floors.{IsKeptTable, IsKeptStage, table_at_floor, table_after_swap};

/// A table of floor 0, after a later entry was entered, is still such a table. Each such table has what crates above
/// ask of tables with a floor.
pub fn entering_keeps_tables()
    ensures entered { (t : records.Table) (e : records.Entry) → IsPlainTable t → t.held < e.version → is_full_for e.key t.entries ≡ false → IsPlainTable (with_entry t e) }
    ensures table { (t : records.Table) → IsPlainTable t → IsTable t }
{}

/// A table of floor 0 is a table with a floor. A table with a floor remains one in three cases. A later entry is
/// entered, the table is raised, or a stage that has come as far replaces it.
pub fn floors_keep_tables()
    ensures plain { (t : records.Table) → IsPlainTable t → IsKeptTable t }
    ensures entered { (t : records.Table) (e : records.Entry) → IsKeptTable t → t.held < e.version → is_full_for e.key t.entries ≡ false → IsKeptTable (with_entry t e) }
    ensures raised { (upto floor : ℕ) (t : records.Table) → IsKeptTable t → t.held ≤ upto → floor ≤ upto → IsKeptTable (table_at_floor upto floor t) }
    ensures swapped { (t : records.Table) (s : records.Stage) → IsKeptTable t → IsKeptStage s → t.held ≤ s.progress → s.floor ≤ s.progress → IsKeptTable (table_after_swap t s) }
{}

/// The entry found under a key is in the list, and has this key. Each entry of a list without equal keys is found under
/// its key. Under a key that the list does not have nothing is found.
pub fn what_stands_is_found()
    ensures stands { (key : List ℕ) (entries : List records.Entry) (e : records.Entry) → entry_at key entries ≡ Some e → Stands entries e }
    ensures key { (key : List ℕ) (entries : List records.Entry) (e : records.Entry) → entry_at key entries ≡ Some e → e.key ≡ key }
    ensures found { (entries : List records.Entry) (e : records.Entry) → are_distinct entries ≡ true → Stands entries e → entry_at e.key entries ≡ Some e }
    ensures none { (key : List ℕ) (entries : List records.Entry) → has_key key entries ≡ false → entry_at key entries ≡ None }
{}

/// An entry that was entered is found under its key. Under every other key is found what was found before.
pub fn what_is_entered_is_found()
    ensures entered { (entries : List records.Entry) (e : records.Entry) → entry_at e.key (entries_after entries (e ∷ [])) ≡ Some e }
    ensures others { (key : List ℕ) (entries : List records.Entry) (e : records.Entry) → key ≢ e.key → entry_at key (entries_after entries (e ∷ [])) ≡ entry_at key entries }
{}

/// `by_key` returns the same entries, sorted by key.
pub fn by_key_sorts()
    ensures permutation { (entries : List records.Entry) → IsPermutation entries (by_key entries) }
    ensures sorted { (entries : List records.Entry) → IsSortedByKey (λ e. e.key) (slice_cmp nat_cmp) (by_key entries) }
{}
