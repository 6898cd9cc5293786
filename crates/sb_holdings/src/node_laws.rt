//! How nodes open, and what blocks and more writes leave of them.

ghost use Rattle.std.specs.Prelude.{◌≡◌, ℕ, ◌≤◌, if◌then◌else◌, nat_eq, List, ◌++◌, length, Some, None};
ghost use Rattle.std.specs.Ordering.{nat_cmp};
ghost use Rattle.std.specs.Cmp.Lexicographic.{pointwise, slice_cmp};
ghost use Rattle.std.specs.FinMap.{FinMap, get};
ghost use Rattle.sb_types.specs.declared.entry.Write.{Write};
ghost use Rattle.sb_types.specs.Records.{Entry, Table, Stage, Block, Holder};
ghost use Rattle.sb_types.specs.Writes.{Written, Holds, Honest};
ghost use Rattle.sb_table.specs.Floors.{IsKeptTable};
ghost use Rattle.sb_holdings.specs.declared.ends.BlockEnd.{BlockEnd};
ghost use Rattle.sb_holdings.specs.Contents.{content_table};
ghost use Rattle.sb_holdings.specs.Held.{holder_of, is_nothing, with_holder};
ghost use Rattle.sb_holdings.specs.Plain.{IsHoldings};
ghost use Rattle.sb_holdings.specs.Ends.{JoinsOn, JoinsStage, Fits};
ghost use Rattle.sb_holdings.specs.Nodes.{Node, NodeEvent, opened_node, node_after_block, replay_node, NodeHolds};
ghost use Rattle.sb_holdings.specs.Growth.{Grows};
ghost use Rattle.sb_holdings.specs.TakenUp.{IsTakenUp, IsStagedUp};

/// As owners write more, three things stay true: what was written, what an honest block contains, and what a node
/// holds.
pub fn growing_keeps_truth()
    ensures written { (old new : List ℕ → List Write) (owner : List ℕ) (e : Entry) → Grows old new → Written (old owner) e → Written (new owner) e }
    ensures block { (old new : List ℕ → List Write) (b : Block) → Grows old new → Honest (old b.owner) b → Honest (new b.owner) b }
    ensures node { (old new : List ℕ → List Write) (node : Node) → Grows old new → NodeHolds old node → NodeHolds new node }
{}

/// A node that opens with a table of its own writes holds what is true of every owner's writes. The content of its log
/// is such a table.
pub fn opened_nodes_hold()
    ensures table { (writes : List ℕ → List Write) (me : List ℕ) (t : Table) → Holds (writes me) t → NodeHolds writes (opened_node me t) }
    ensures content { (writes : List ℕ → List Write) (me : List ℕ) (floor : ℕ) (t : Table) → floor ≤ length (writes me) → t ≡ content_table floor (writes me) → NodeHolds writes (opened_node me t) }
    ensures holdings { (me : List ℕ) (t : Table) → IsKeptTable t → IsHoldings (opened_node me t).held }
{}

/// A block that joins on is taken up, completely or as far as there is room, by the shown table or by a stage.
pub fn joining_blocks_are_taken_up()
    ensures shown { (node : Node) (b : Block) (end : BlockEnd) →
        JoinsOn node.held b → Fits node.held b end → IsTakenUp node b end (node_after_block node b end) }
    ensures staged { (node : Node) (b : Block) (s : Stage) (end : BlockEnd) →
        JoinsStage node.held b s → Fits node.held b end → IsStagedUp node b s end (node_after_block node b end) }
{}

/// Two runs, one after the other, are one run.
pub fn runs_join()
    ensures { (node : Node) (events more : List NodeEvent) → replay_node node (events ++ more) ≡ replay_node (replay_node node events) more }
{}

/// After an owner gets another holder, that holder is found for the owner; or nothing is found, if it holds nothing.
/// For every other owner is found what was found before.
pub fn holders_are_found()
    ensures found { (owners : FinMap (slice_cmp nat_cmp) Holder) (owner name : List ℕ) (h : Holder) →
        get (with_holder owners owner h) name ≡ (if pointwise nat_eq name owner then (if is_nothing h then None else Some h) else get owners name) }
    ensures held { (owners : FinMap (slice_cmp nat_cmp) Holder) (owner name : List ℕ) (h : Holder) →
        holder_of (with_holder owners owner h) name ≡ (if pointwise nat_eq name owner then h else holder_of owners name) }
{}
