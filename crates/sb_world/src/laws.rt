//! What is true of every run of a world.

ghost use Rattle.std.specs.Prelude.{◌≡◌, ℕ, ◌+◌, ◌≤◌, List, [], ◌++◌, length, true, Result, Ok, IfSome};
ghost use Rattle.sb_types.specs.declared.entry.Write.{Write};
ghost use Rattle.sb_types.specs.declared.fault.Fault.{Fault};
ghost use Rattle.sb_types.specs.declared.limits.TheConstants.{KEYS_MOST};
ghost use Rattle.sb_holdings.specs.Contents.{content_table};
ghost use Rattle.sb_log.specs.Records.{Log};
ghost use Rattle.sb_log.specs.Puts.{Begins};
ghost use Rattle.sb_world.specs.declared.event.Event.{Event};
ghost use Rattle.sb_world.specs.declared.event.Answer.{Answer};
ghost use Rattle.sb_world.specs.Places.{Seen, IsClean, AreSure};
ghost use Rattle.sb_world.specs.States.{State, Moves, Run, last_of, FitsWorld};
ghost use Rattle.sb_world.specs.Steps.{Step, Passes};
ghost use Rattle.sb_world.specs.Turns.{Effect};
ghost use Rattle.sb_world.specs.Truth.{IsTrueState};
ghost use Rattle.sb_world.specs.Claims.{EachState, EachStep, GivenIsWritten, AreExact, JoinedIsTaken, NothingFalls, IsWithinBudget, StayRemoved, StayPurged, OnEachRun};

use sb_node::{answers_are_honest, calls_keep_truth};

/// Law: the promise of `World::run`, on every run of the machine of worlds from a state that fits a world, for every
/// list of events. As long as each log's store keeps its promise, each state is true (`sound`). The claims of
/// `World::run` hold too: `given`, `exact`, `taken`, `later`, `budget`, and for purging `removed` and `purged`.
pub fn worlds_keep_their_promise()
    ensures sound { (world : Seen) (events : List Event) (answers : List (Result Answer Fault)) → OnEachRun world events answers (λ old states. EachState IsTrueState old states) }
    ensures given { (world : Seen) (events : List Event) (answers : List (Result Answer Fault)) → OnEachRun world events answers (λ old states. EachStep GivenIsWritten old events answers states) }
    ensures exact { (world : Seen) (events : List Event) (answers : List (Result Answer Fault)) → OnEachRun world events answers (λ old states. AreExact old events answers states) }
    ensures taken { (world : Seen) (events : List Event) (answers : List (Result Answer Fault)) → OnEachRun world events answers (λ old states. EachStep JoinedIsTaken old events answers states) }
    ensures later { (world : Seen) (events : List Event) (answers : List (Result Answer Fault)) → OnEachRun world events answers (λ old states. NothingFalls old states) }
    ensures budget { (world : Seen) (events : List Event) (answers : List (Result Answer Fault)) → OnEachRun world events answers (λ old states. EachState IsWithinBudget old states) }
    ensures removed { (world : Seen) (events : List Event) (answers : List (Result Answer Fault)) → OnEachRun world events answers (λ old states. StayRemoved old events answers states) }
    ensures purged { (world : Seen) (events : List Event) (answers : List (Result Answer Fault)) → OnEachRun world events answers (λ old states. StayPurged old events answers states) }
{
    answers_are_honest();
    calls_keep_truth();
}

/// Law: if nothing can make the store of a log break its promise, this remains so over every step (`step`, `passes`).
/// Each store has then kept its promise at the end of every run (`run`).
pub fn sure_stores_are_trusted()
    ensures step { (world new : Seen) (event : Event) (answer : Result Answer Fault) (effect : Effect) → Step world event answer effect new →
        AreSure world.places → AreSure new.places }
    ensures passes { (world new : Seen) (events : List Event) (answers : List (Result Answer Fault)) → Passes world events answers new →
        AreSure world.places → AreSure new.places }
    ensures run { (old : State) (events : List Event) (answers : List (Result Answer Fault)) (states : List State) → Run old events answers states →
        AreSure old.now.places → IsClean (last_of old states).now.places }
{}

/// Law: whatever a world does is a run of the machine of worlds. It leads from each state that fits the world before to
/// a state that fits it afterwards.
pub fn worlds_are_reached()
    ensures step { (world new : Seen) (event : Event) (answer : Result Answer Fault) (effect : Effect) → Step world event answer effect new →
        (old : State) → FitsWorld old world → (state : State) × Moves old event answer state × FitsWorld state new }
    ensures run { (world new : Seen) (events : List Event) (answers : List (Result Answer Fault)) → Passes world events answers new →
        (old : State) → FitsWorld old world → (states : List State) × Run old events answers states × FitsWorld (last_of old states) new }
{}

/// Law: a log that begins after a version continues a lost log. The new log has the content of all writes to the lost
/// one, and of some more writes that follow them. So all that is promised about an owner's writes holds for it.
///
/// The lost log must have had at most 4,096 keys, and its writes must number at least 4,096 fewer than the version. The
/// new log's store must have kept its promise. Which writes these were does not matter.
pub fn lost_logs_go_on()
    ensures { (old new : Log) (after : ℕ) → Begins old after (Ok tt) new → new.is_clean ≡ true →
        (writes : List Write) (floor : ℕ) → length (content_table floor writes).entries ≤ KEYS_MOST → length writes + KEYS_MOST ≤ after →
        (more : List Write) × (new.content ≡ content_table after (writes ++ more)) }
{}
