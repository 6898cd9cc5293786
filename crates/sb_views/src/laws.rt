//! What follows from the definitions alone. The functions do nothing: each clause is a law.
ghost use Rattle.std.specs.Prelude.{◌≡◌, ◌+◌, ℕ, List, true, [], ◌∷◌, Option};
ghost use Rattle.sb_types.specs.Limits.{is_delta};
ghost use Rattle.sb_types.specs.Records as records;
ghost use Rattle.sb_types.specs.Runs.{shown_at};
ghost use Rattle.sb_holdings.specs.declared.ends.BlockEnd.{BlockEnd};
ghost use Rattle.sb_holdings.specs.Held.{Held, shown_of, held_after_write, purged_own};
ghost use Rattle.sb_holdings.specs.Nodes.{Node, replay_node};
ghost use Rattle.sb_holdings.specs.Plain.{IsHoldings};
ghost use Rattle.sb_holdings.specs.Treats.{Treats, took_each};
ghost use Rattle.sb_views.specs.declared.change.Change.TheVariants as changes;
ghost use Rattle.sb_views.specs.Changes.{Leads};
ghost use Rattle.sb_views.specs.Growing.{AreGrown, new_changes};
ghost use Rattle.sb_views.specs.NodeViews as node_views;
ghost use Rattle.sb_views.specs.LiveRows as rows;
ghost use Rattle.sb_views.specs.Publishing.{IsView};

/// What a view shows of an owner and of a key is what the node holds: the version, and the value with the version of
/// its write, or nothing where the key was removed or never written.
pub fn views_show_what_is_held()
    ensures upto { (node : Node) (view : node_views.NodeView) (owner : List ℕ) → IsView node view → node_views.upto_of view owner ≡ (shown_of node.held owner).held }
    ensures row { (node : Node) (view : node_views.NodeView) (owner key : List ℕ) →
        IsView node view → node_views.row_of view owner key ≡ shown_at key (shown_of node.held owner).entries }
{}

/// A node's own write leads on by itself: with it entered, the tables are those after the write.
pub fn own_writes_lead()
    ensures { (held : Held) (e : records.Entry) → e.version ≡ (shown_of held held.me).held + 1 → Leads held (held_after_write held e) ((held.me, changes.Enter e) ∷ []) }
{}

/// Rows come in ascending order: each stands behind those before it, by owner and then by key.
pub fn rows_ascend()
    ensures { (place : Option (List ℕ × List ℕ)) (wanted : Option (List ℕ)) (prefix : List ℕ) (view : node_views.NodeView) →
        rows.AreAscending (rows.rows_behind place wanted prefix view) }
{}

/// Tables grow, after any own writes, purges and deltas, however their blocks end. No owner's held version or floor falls.
/// If the floor is the same, the entries are the earlier ones with those entered that the
/// owner now has above the earlier version.
pub fn tables_grow()
    ensures none { (held : Held) → IsHoldings held → AreGrown held held }
    ensures own { (held : Held) (e : records.Entry) → IsHoldings held → AreGrown held (held_after_write held e) }
    ensures purged { (held : Held) (floor : ℕ) → IsHoldings held → AreGrown held (purged_own held floor) }
    ensures delta { (node : Node) (blocks : List records.Block) (ends : List BlockEnd) →
        IsHoldings node.held → is_delta blocks ≡ true → Treats node blocks ends → AreGrown node.held (replay_node node (took_each blocks ends)).held }
    ensures further { (first second third : Held) → AreGrown first second → AreGrown second third → AreGrown first third }
{}

/// What is new of tables that grew leads on: with it made, owner by owner, the earlier tables are alike to the later ones.
pub fn new_changes_lead()
    ensures { (old new : Held) → IsHoldings new → AreGrown old new → Leads old new (new_changes old new) }
{}

/// A purge changes nothing that views show. Each owner's held version stays, and so does each key's value, with the
/// version of its write.
pub fn purges_show_nothing()
    ensures upto { (held : Held) (floor : ℕ) (owner : List ℕ) → IsHoldings held → (shown_of (purged_own held floor) owner).held ≡ (shown_of held owner).held }
    ensures row { (held : Held) (floor : ℕ) (owner key : List ℕ) →
        IsHoldings held → shown_at key (shown_of (purged_own held floor) owner).entries ≡ shown_at key (shown_of held owner).entries }
{}
