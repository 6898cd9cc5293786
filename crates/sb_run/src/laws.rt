//! What follows from the definitions alone. The functions do nothing: each clause is a law.
ghost use Rattle.std.specs.Prelude.{◌≡◌, ℕ, ◌≤◌, ◌<◌, Bool, true, false, List, length, Option, Some, Ok};
ghost use Rattle.std.specs.List.{flat_map};
ghost use mathlib.Core.List.{IsPrefix};
ghost use Rattle.sb_types.specs.declared.entry.Slot.TheVariants.{Set};
ghost use Rattle.sb_types.specs.declared.entry.Write.{Write};
ghost use Rattle.sb_types.specs.Value.{Value};
ghost use Rattle.sb_types.specs.Records.{Entry, Block, Settings};
ghost use Rattle.sb_types.specs.Runs.{Stands, shown_slot};
ghost use Rattle.sb_types.specs.Writes.{Written, Superseded, Honest};
ghost use Rattle.sb_holdings.specs.Held.{shown_of};
ghost use Rattle.sb_holdings.specs.Nodes.{Node, AreNodeEvents, AllTrueAt, IsNode, NodeHolds, NodeLater, held_by};
ghost use Rattle.sb_digest.specs.Digests.{Digest, covers, held_in, number_by, number_in, floor_by, floor_in};
ghost use Rattle.sb_digest.specs.Pairs.{pair_of};
ghost use Rattle.sb_session.specs.Handlers.{tells, gives};
ghost use Rattle.sb_views.specs.declared.event.Event.{Event};
ghost use Rattle.sb_views.specs.NodeViews.{NodeView, upto_of, row_of};
ghost use Rattle.sb_views.specs.Histories.{node_events_of, node_after};
ghost use Rattle.sb_views.specs.Publishing.{IsView};
ghost use Rattle.sb_directory.specs.Serving.{AnswersAfter};
ghost use Rattle.sb_handlers.specs.Forgetting.{is_forgotten, kept_blocks};
ghost use Rattle.sb_run.specs.Turns.{turn_after};
ghost use Rattle.sb_run.specs.Together.{RunEvent, history_of, AreOpened, CanGive, HappenInTurn};

use sb_digest::digests_are_true;
use sb_holdings::{nodes_hold, reads_are_true, runs_join};
use sb_node::answers_are_honest;
use sb_views::views_show_what_is_held;

/// What one running node gives is true and exact if what it was given is true. Take any lists of writes, one for each owner, and
/// any opening node that holds only what is true of them. Take any history whose own writes are the owner's and whose blocks
/// are honest, whatever their ends. Then:
///
/// - `given`: what a view of the node after the history has under an owner and a key was written by that owner under that
///   version.
/// - `exact`: take a write at or below the version that the view shows of its owner, whose key was not written again. The view
///   has it under its key. For a removal the view has nothing there.
/// - `honest`: each block of a delta that the node gives after the history is honest.
/// - `digests`: a digest that it gives has, for each owner that it covers, how far the node holds it.
/// - `starts`: it also says above which number a sender of any floor and any held version offers entries, and under which floor.
///   That is by the held version, and by the floor and the progress of the stage, which the node has of this owner.
/// - `reached`: what it says that is held is no further than was written.
/// - `progress`: no number above which a sender goes on is above what was written, also in a stage.
/// - `later`: after more events, true or not, no version is lower.
///
/// That the events are true is a premise: it is what peers give whose sessions receive only what is true
/// (`sessions_keep_truth` of `sb_node`). A node that opens with what its log holds is such an opening node
/// (`opened_nodes_hold` and `holdings_make_nodes` of `sb_holdings`). `running_nodes_tell_truth` speaks of many nodes.
pub fn running_nodes_keep_truth()
    ensures given { (writes : List ℕ → List Write) (opening : Node) (history : List Event) (node_view : NodeView) (owner key : List ℕ) (value : Value) (version : ℕ) →
        IsNode opening → NodeHolds writes opening → AreNodeEvents (flat_map node_events_of history) → AllTrueAt writes opening.held.me (flat_map node_events_of history) →
        IsView (node_after opening history) node_view → row_of node_view owner key ≡ Some (value, version) →
        Written (writes owner) (record { key = key; version = version; slot = Set value }) }
    ensures exact { (writes : List ℕ → List Write) (opening : Node) (history : List Event) (node_view : NodeView) (owner : List ℕ) (e : Entry) →
        IsNode opening → NodeHolds writes opening → AreNodeEvents (flat_map node_events_of history) → AllTrueAt writes opening.held.me (flat_map node_events_of history) →
        IsView (node_after opening history) node_view → Written (writes owner) e → (Superseded (writes owner) e → ⊥) → e.version ≤ upto_of node_view owner →
        row_of node_view owner e.key ≡ shown_slot e.version e.slot }
    ensures honest { (writes : List ℕ → List Write) (opening : Node) (settings : Settings) (history : List Event) (digest : Digest) (blocks : List Block) (b : Block) →
        IsNode opening → NodeHolds writes opening → AreNodeEvents (flat_map node_events_of history) → AllTrueAt writes opening.held.me (flat_map node_events_of history) →
        AnswersAfter opening settings history (gives digest (Ok blocks)) → Stands blocks b → Honest (writes b.owner) b }
    ensures digests { (opening : Node) (settings : Settings) (history : List Event) (from : Option (List ℕ)) (want : Bool) (digest : Digest) (owner : List ℕ) →
        AnswersAfter opening settings history (tells from want (Ok digest)) → covers digest owner ≡ true →
        held_in digest owner ≡ (shown_of (node_after opening history).held owner).held }
    ensures starts { (opening : Node) (settings : Settings) (history : List Event) (from : Option (List ℕ)) (want : Bool) (digest : Digest) (owner : List ℕ)
        (floor upto : ℕ) → AnswersAfter opening settings history (tells from want (Ok digest)) → covers digest owner ≡ true →
        (number_in digest owner floor upto ≡ number_by floor upto (Some (pair_of (owner, held_by (node_after opening history) owner))))
        × (floor_in digest owner floor upto ≡ floor_by floor upto (Some (pair_of (owner, held_by (node_after opening history) owner)))) }
    ensures reached { (writes : List ℕ → List Write) (opening : Node) (settings : Settings) (history : List Event) (from : Option (List ℕ)) (want : Bool) (digest : Digest) (owner : List ℕ) →
        IsNode opening → NodeHolds writes opening → AreNodeEvents (flat_map node_events_of history) → AllTrueAt writes opening.held.me (flat_map node_events_of history) →
        AnswersAfter opening settings history (tells from want (Ok digest)) → covers digest owner ≡ true → held_in digest owner ≤ length (writes owner) }
    ensures progress { (writes : List ℕ → List Write) (opening : Node) (settings : Settings) (history : List Event)
        (from : Option (List ℕ)) (want : Bool) (digest : Digest) (owner : List ℕ) (floor upto : ℕ) →
        IsNode opening → NodeHolds writes opening → AreNodeEvents (flat_map node_events_of history) → AllTrueAt writes opening.held.me (flat_map node_events_of history) →
        AnswersAfter opening settings history (tells from want (Ok digest)) → covers digest owner ≡ true → number_in digest owner floor upto ≤ length (writes owner) }
    ensures later { (opening : Node) (history more : List Event) →
        IsNode opening → AreNodeEvents (flat_map node_events_of more) → IsPrefix history more → NodeLater (node_after opening history) (node_after opening more) }
{
    nodes_hold();
    runs_join();
    reads_are_true();
    views_show_what_is_held();
    answers_are_honest();
    digests_are_true();
}

/// What running nodes give is true and exact if they are given nothing except what one of them gave. Take any lists of writes, one
/// for each owner, and any number of runs. Each is of a node that opened with what is true of the writes, also after a crash.
/// Take all that happens to them, in one order (`HappenInTurn`). A run takes writes of its owner, and blocks of deltas that some
/// run could give by then. They come late, again, in any order, without others of their delta, or never. Then in each run:
///
/// - `given`: what a view has under an owner and a key was written by that owner under that version.
/// - `exact`: take a write at or below the version that the view shows of its owner, whose key was not written again. The view
///   has it under its key. For a removal the view has nothing there.
/// - `honest`: each block of a delta that is given is honest.
/// - `digests`: a digest that is given says how far the run holds each owner that it covers. It also says above which
///   number a sender of any floor and any held version offers entries, and under which floor. That is by the run's stage too.
/// - `reached`: no held version in it is above what was written.
/// - `progress`: no number above which a sender goes on is above what was written, also in a stage.
/// - `later`: no version is lower than it was in this run.
///
/// All that happens is any list, so this holds at each moment. It has these premises:
///
/// - No two nodes that live at once have one name.
/// - No log forgets a write that was in a delta.
/// - No other delta comes. So whoever dials or is dialed runs this program, and what is read from a socket was written to it.
///
/// Workers and the thread that dials enter just what they read, by clauses of `serve_pool` and of `talk`.
///
/// The contracts of `Directory` say that what a run is handed becomes its events, and that what it gives is an answer after
/// them.
pub fn running_nodes_tell_truth()
    ensures given { (writes : List ℕ → List Write) (opening : ℕ → Node) (settings : ℕ → Settings) (all : List RunEvent) (run : ℕ)
        (node_view : NodeView) (owner key : List ℕ) (value : Value) (version : ℕ) →
        AreOpened writes opening → HappenInTurn writes opening settings all →
        IsView (node_after (opening run) (history_of run all)) node_view → row_of node_view owner key ≡ Some (value, version) →
        Written (writes owner) (record { key = key; version = version; slot = Set value }) }
    ensures exact { (writes : List ℕ → List Write) (opening : ℕ → Node) (settings : ℕ → Settings) (all : List RunEvent) (run : ℕ)
        (node_view : NodeView) (owner : List ℕ) (e : Entry) →
        AreOpened writes opening → HappenInTurn writes opening settings all →
        IsView (node_after (opening run) (history_of run all)) node_view → Written (writes owner) e → (Superseded (writes owner) e → ⊥) → e.version ≤ upto_of node_view owner →
        row_of node_view owner e.key ≡ shown_slot e.version e.slot }
    ensures honest { (writes : List ℕ → List Write) (opening : ℕ → Node) (settings : ℕ → Settings) (all : List RunEvent) (blocks : List Block) (b : Block) →
        AreOpened writes opening → HappenInTurn writes opening settings all → CanGive opening settings all blocks → Stands blocks b → Honest (writes b.owner) b }
    ensures digests { (opening : ℕ → Node) (settings : ℕ → Settings) (all : List RunEvent) (run : ℕ)
        (from : Option (List ℕ)) (want : Bool) (digest : Digest) (owner : List ℕ) (floor upto : ℕ) →
        AnswersAfter (opening run) (settings run) (history_of run all) (tells from want (Ok digest)) → covers digest owner ≡ true →
        (held_in digest owner ≡ (shown_of (node_after (opening run) (history_of run all)).held owner).held)
        × (number_in digest owner floor upto ≡ number_by floor upto (Some (pair_of (owner, held_by (node_after (opening run) (history_of run all)) owner))))
        × (floor_in digest owner floor upto ≡ floor_by floor upto (Some (pair_of (owner, held_by (node_after (opening run) (history_of run all)) owner)))) }
    ensures reached { (writes : List ℕ → List Write) (opening : ℕ → Node) (settings : ℕ → Settings) (all : List RunEvent) (run : ℕ)
        (from : Option (List ℕ)) (want : Bool) (digest : Digest) (owner : List ℕ) →
        AreOpened writes opening → HappenInTurn writes opening settings all →
        AnswersAfter (opening run) (settings run) (history_of run all) (tells from want (Ok digest)) → covers digest owner ≡ true → held_in digest owner ≤ length (writes owner) }
    ensures progress { (writes : List ℕ → List Write) (opening : ℕ → Node) (settings : ℕ → Settings) (all : List RunEvent) (run : ℕ)
        (from : Option (List ℕ)) (want : Bool) (digest : Digest) (owner : List ℕ) (floor upto : ℕ) →
        AreOpened writes opening → HappenInTurn writes opening settings all →
        AnswersAfter (opening run) (settings run) (history_of run all) (tells from want (Ok digest)) → covers digest owner ≡ true → number_in digest owner floor upto ≤ length (writes owner) }
    ensures later { (writes : List ℕ → List Write) (opening : ℕ → Node) (settings : ℕ → Settings) (earlier all : List RunEvent) (run : ℕ) →
        AreOpened writes opening → HappenInTurn writes opening settings all → IsPrefix earlier all →
        NodeLater (node_after (opening run) (history_of run earlier)) (node_after (opening run) (history_of run all)) }
{
    running_nodes_keep_truth();
    nodes_hold();
    answers_are_honest();
}

/// Law: the blocks that are left of a delta without those of forgotten owners.
///
/// - `out`: each is a block of the delta, and of no such owner.
/// - `all`: each other block of the delta is left.
pub fn forgotten_owners_stay_out()
    ensures out { (names : List (List ℕ)) (blocks : List Block) (b : Block) →
        Stands (kept_blocks names blocks) b → Stands blocks b × (is_forgotten names b.owner ≡ false) }
    ensures all { (names : List (List ℕ)) (blocks : List Block) (b : Block) →
        Stands blocks b → is_forgotten names b.owner ≡ false → Stands (kept_blocks names blocks) b }
{}

/// Law: if nobody is passed over, each of so many peers has its turn within as many turns as there are peers.
pub fn turns_come_to_all()
    ensures each { (count turn index : ℕ) → index < count → (more : ℕ) × (more < count) × (turn_after count turn more ≡ index) }
{}
