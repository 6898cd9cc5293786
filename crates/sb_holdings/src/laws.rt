//! What stays true of the writes that a node holds.

ghost use Rattle.std.specs.Prelude.{◌≡◌, ℕ, ◌+◌, true, false, List, ◌++◌, ◌↔◌, Option};
ghost use Rattle.sb_types.specs.declared.entry.Write.{Write};
ghost use Rattle.sb_types.specs.Records.{Entry, Table, Block, Holder};
ghost use Rattle.sb_types.specs.Limits.{is_delta, is_delta_block};
ghost use Rattle.sb_types.specs.Runs.{Stands, are_distinct, entries_after, IsBlock};
ghost use Rattle.sb_types.specs.Writes.{Tells, Holds, Honest, IsHolder, HolderHolds};
ghost use Rattle.sb_holdings.specs.declared.ends.BlockEnd.{BlockEnd};
ghost use Rattle.sb_holdings.specs.Taken.{holder_after_block};
ghost use Rattle.sb_holdings.specs.Events.{Event, replay_holder, AreEvents, AllTrue};
ghost use Rattle.sb_holdings.specs.Progress.{Later};
ghost use Rattle.sb_holdings.specs.Held.{Held, shown_of, held_after_write};
ghost use Rattle.sb_holdings.specs.Plain.{IsHoldings};
ghost use Rattle.sb_holdings.specs.Nodes.{Node, NodeEvent, replay_node, AreNodeEvents, AllTrueAt, IsNode, NodeHolds, NodeLater};
ghost use Rattle.sb_holdings.specs.Entering.{entries_after_each};
ghost use Rattle.sb_holdings.specs.ByVersion.{TellsByVersion};

/// A table that is true of some writes, and an honest block of them, stay so as more is written.
pub fn truth_lasts()
    ensures table { (writes more : List Write) (t : Table) → Holds writes t → Holds (writes ++ more) t }
    ensures block { (writes more : List Write) (b : Block) → Honest writes b → Honest (writes ++ more) b }
{}

/// Entering entries one by one, each in place of its key's old entry, is the same as entering them at once.
pub fn one_by_one()
    ensures { (entries others : List Entry) → are_distinct others ≡ true → entries_after_each entries others ≡ entries_after entries others }
{}

/// What is held stays true, whichever honest block comes and however it ends.
pub fn blocks_keep_truth()
    ensures holds { (writes : List Write) (h : Holder) (b : Block) (end : BlockEnd) →
        IsHolder h → IsBlock b → HolderHolds writes h → Honest writes b → HolderHolds writes (holder_after_block h b end) }
    ensures is { (h : Holder) (b : Block) (end : BlockEnd) → IsHolder h → IsBlock b → IsHolder (holder_after_block h b end) }
{}

/// Over any events, honest or not, the held version does not fall, and no key's version falls.
pub fn nothing_goes_back()
    ensures later { (h : Holder) (events : List Event) → IsHolder h → AreEvents events → Later h.shown (replay_holder h events).shown }
    ensures is { (h : Holder) (events : List Event) → IsHolder h → AreEvents events → IsHolder (replay_holder h events) }
{}

/// What honest blocks and committed writes leave of an owner is true.
pub fn replays_hold()
    ensures { (writes : List Write) (h : Holder) (events : List Event) →
        IsHolder h → AreEvents events → HolderHolds writes h → AllTrue writes events → HolderHolds writes (replay_holder h events) }
{}

/// Over a node's whole run, what honest blocks and committed writes leave of each owner is true. Whatever blocks come,
/// no owner's held version falls, and no key's version falls.
pub fn nodes_hold()
    ensures holds { (writes : List ℕ → List Write) (node : Node) (events : List NodeEvent) →
        IsNode node → AreNodeEvents events → NodeHolds writes node → AllTrueAt writes node.held.me events → NodeHolds writes (replay_node node events) }
    ensures later { (node : Node) (events : List NodeEvent) → IsNode node → AreNodeEvents events → NodeLater node (replay_node node events) }
    ensures is { (node : Node) (events : List NodeEvent) → IsNode node → AreNodeEvents events → IsNode (replay_node node events) }
{}

/// An own write that is not the next one changes nothing.
pub fn writes_come_in_turn()
    ensures { (held : Held) (e : Entry) → IsHoldings held → (e.version ≡ (shown_of held held.me).held + 1 → ⊥) → held_after_write held e ≡ held }
{}

/// The two definitions of what entries contain of the writes are equivalent: entry by entry, and version by version.
pub fn one_meaning()
    ensures { (writes : List Write) (floor after upto : ℕ) (entries : List Entry) →
        Tells writes floor after upto entries ↔ TellsByVersion writes floor after upto entries }
{}

/// The laws of nodes apply to what is held: holdings make a node whatever its conflict is, and the blocks of a delta
/// are blocks.
pub fn holdings_make_nodes()
    ensures node { (held : Held) (conflict : Option ℕ) → IsHoldings held → IsNode (record { held = held; conflict = conflict }) }
    ensures block { (b : Block) → is_delta_block b ≡ true → IsBlock b }
    ensures delta { (blocks : List Block) (b : Block) → is_delta blocks ≡ true → Stands blocks b → is_delta_block b ≡ true }
{}
