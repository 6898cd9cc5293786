//! What stays true of what a node holds and sends, over any calls.

ghost use Rattle.std.specs.Prelude.{◌≡◌, ℕ, true, List, Result, Ok, Err};
ghost use Rattle.sb_types.specs.declared.fault.Fault.{Fault};
ghost use Rattle.sb_types.specs.declared.entry.Write.{Write};
ghost use Rattle.sb_types.specs.Limits.{is_delta};
ghost use Rattle.sb_types.specs.Records.{Block};
ghost use Rattle.sb_types.specs.Runs.{Stands, IsBlock};
ghost use Rattle.sb_types.specs.Writes.{Honest};
ghost use Rattle.sb_holdings.specs.declared.ends.BlockEnd.{BlockEnd};
ghost use Rattle.sb_holdings.specs.Nodes.{Node, replay_node, IsNode, NodeHolds, NodeLater};
ghost use Rattle.sb_digest.specs.Digests.{Digest};
ghost use Rattle.sb_codec.specs.declared.message.Message.{Message};
ghost use Rattle.sb_codec.specs.declared.message.Message.TheVariants as kinds;
ghost use Rattle.sb_session.specs.declared.replies.Replies.{Replies};
ghost use Rattle.sb_session.specs.Pushes.{pushed_by};
ghost use Rattle.sb_session.specs.Sessions.{Session};
ghost use Rattle.sb_session.specs.Taking.{Takes, Asks};
ghost use Rattle.sb_session.specs.Talks.{Party, Move, Run, heard_in};
ghost use Rattle.sb_node.specs.Answers.{IsAnswer};
ghost use Rattle.sb_node.specs.Calls.{Call, replay_calls, AreBlocks, AreHonest, AreCalls, AreTrue};
ghost use Rattle.sb_node.specs.Cores.{Core, with_node};
ghost use Rattle.sb_holdings.specs.Treats.{took_each};
ghost use Rattle.sb_node.specs.Steps.{Steps};
ghost use Rattle.sb_node.specs.Talks.{taken_of, IsReply, AreEnds, AreTrueMessages};

use sb_budget::{available_by_number, cuts_are_honest, offered_tables_hold};
use sb_holdings::{holdings_make_nodes, nodes_hold};

/// If all that a node holds is true, each block of its answer to a digest is honest, in any order and for any budget.
/// An honest block leaves out of its range only superseded writes, and tombstones up to its purge floor. A tombstone is
/// the marker of a removed key.
pub fn answers_are_honest()
    ensures honest { (writes : List ℕ → List Write) (node : Node) (budget : ℕ) (digest : Digest) (blocks : List Block) (b : Block) →
        IsNode node → NodeHolds writes node → IsAnswer budget node.held digest blocks → Stands blocks b → Honest (writes b.owner) b }
    ensures is { (node : Node) (budget : ℕ) (digest : Digest) (blocks : List Block) (b : Block) →
        IsNode node → IsAnswer budget node.held digest blocks → Stands blocks b → IsBlock b }
{
    available_by_number();
    offered_tables_hold();
    cuts_are_honest();
}

/// What a node holds stays true as it takes honest blocks, however they end. The blocks of a delta are blocks.
pub fn deltas_keep_truth()
    ensures holds { (writes : List ℕ → List Write) (node : Node) (blocks : List Block) (ends : List BlockEnd) →
        IsNode node → AreBlocks blocks → NodeHolds writes node → AreHonest writes blocks → NodeHolds writes (replay_node node (took_each blocks ends)) }
    ensures is { (node : Node) (blocks : List Block) (ends : List BlockEnd) →
        IsNode node → AreBlocks blocks → IsNode (replay_node node (took_each blocks ends)) }
    ensures blocks { (blocks : List Block) → is_delta blocks ≡ true → AreBlocks blocks }
{
    holdings_make_nodes();
    nodes_hold();
}

/// What a node holds stays true over any calls that take its own committed writes and honest blocks. Whatever blocks
/// come, no owner's held version falls, and no key's version falls.
pub fn calls_keep_truth()
    ensures holds { (writes : List ℕ → List Write) (node : Node) (calls : List Call) →
        IsNode node → AreCalls calls → NodeHolds writes node → AreTrue writes node.held.me calls → NodeHolds writes (replay_calls node calls) }
    ensures later { (node : Node) (calls : List Call) → IsNode node → AreCalls calls → NodeLater node (replay_calls node calls) }
    ensures is { (node : Node) (calls : List Call) → IsNode node → AreCalls calls → IsNode (replay_calls node calls) }
{
    nodes_hold();
}

/// What a session makes of a node is a replay. For a message that is taken, it is a replay of its delta with the
/// reported ends. For a message that is refused, and for a digest that is asked with, nothing changes. The session
/// replies to a digest as the node answers.
pub fn sessions_are_replays()
    ensures taken { (s : Session) (core : Core) (message : Message) (replies : Replies) (t : Session) (new : Core) →
        Takes Steps s core message (Ok replies) t new → new ≡ with_node core (replay_calls core.node (taken_of message replies)) }
    ensures refused { (s : Session) (core : Core) (message : Message) (fault : Fault) (t : Session) (new : Core) →
        Takes Steps s core message (Err fault) t new → new ≡ core }
    ensures asked { (s : Session) (core : Core) (answer : Result Message Fault) (t : Session) (new : Core) →
        Asks Steps s core answer t new → new ≡ core }
    ensures replies { (s : Session) (core : Core) (theirs : Digest) (replies : Replies) (t : Session) (new : Core) →
        Takes Steps s core (kinds.Digest theirs) (Ok replies) t new → IsReply core s theirs replies }
    ensures ends { (s : Session) (core : Core) (blocks : List Block) (replies : Replies) (t : Session) (new : Core) →
        Takes Steps s core (kinds.Delta blocks) (Ok replies) t new → AreBlocks blocks × AreEnds core blocks replies }
{}

/// Over a whole session that hears only true messages, what a node holds stays true, and all that it sends is true. All
/// that it says in a push is true too, if the delta answers some digest, as news does.
pub fn sessions_keep_truth()
    ensures holds { (writes : List ℕ → List Write) (a : Party Core) (moves : List Move) (said : List Message) (b : Party Core) →
        IsNode a.handler.node → NodeHolds writes a.handler.node → Run Steps a moves said b → AreTrueMessages writes (heard_in moves) →
        NodeHolds writes b.handler.node × IsNode b.handler.node }
    ensures said { (writes : List ℕ → List Write) (a : Party Core) (moves : List Move) (said : List Message) (b : Party Core) →
        IsNode a.handler.node → NodeHolds writes a.handler.node → Run Steps a moves said b → AreTrueMessages writes (heard_in moves) →
        AreTrueMessages writes said }
    ensures pushed { (writes : List ℕ → List Write) (s : Session) (core : Core) (digest : Digest) (blocks : List Block) →
        IsNode core.node → NodeHolds writes core.node → IsAnswer core.settings.budget core.node.held digest blocks →
        AreTrueMessages writes (pushed_by s blocks) }
{
    calls_keep_truth();
    answers_are_honest();
}
