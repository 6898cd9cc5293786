//! The promise of a world whose logs are in memory, and of one whose logs are databases.

ghost use Rattle.std.specs.Prelude.{◌≡◌, List, IfOk, IfErr, OnErr};
ghost use Rattle.sb_world.specs.Places.{AreSure};
ghost use Rattle.sb_world.specs.Steps.{Passes};
ghost use Rattle.sb_world.specs.States.{State, Run, FitsWorld, last_of};
ghost use Rattle.sb_world.specs.Claims.{Promise, OnEachRun};

use crate::event::{Answer, Event};
use crate::laws::{sure_stores_are_trusted, worlds_keep_their_promise};
use crate::world::World;
use sb_log::{PlainLog, SqlLog};
use sb_types::Fault;
use sqlite::Alter;

/// Runs a world whose logs are in memory, by `World::run`, with the same faults. All claims of `World::run` hold on
/// each run if the world is sure before it (`promise`), and nothing else is assumed about a store. A world made from
/// logs in memory is sure (`World::new: sure`), and stays sure (`sure`).
pub fn run_in_memory(
    world: &mut World<PlainLog>,
    events: &[Event],
) -> Result<Vec<Result<Answer, Fault>>, Fault>
    ensures passes { IfOk result (λ answers. Passes world.old events.now answers.items world.new) }
    ensures err { OnErr result (world.new ≡ world.old) }
    ensures memory { IfErr result (λ fault. fault ≡ Fault.NoMemory) }
    ensures fits { IfOk result (λ answers. (old : State) → FitsWorld old world.old →
        (states : List State) × Run old events.now answers.items states × FitsWorld (last_of old states) world.new) }
    ensures sure { IfOk result (λ answers. AreSure world.old.places → AreSure world.new.places) }
    ensures promise { AreSure world.old.places → IfOk result (λ answers. (old : State) (states : List State) → FitsWorld old world.old →
        Run old events.now answers.items states → Promise old events.now answers.items states) }
{
    sure_stores_are_trusted();
    worlds_keep_their_promise();
    world.run(events)
}

/// Runs a world whose logs are databases, by `World::run`, with the same faults. All claims of `World::run` hold on
/// each run in which each database kept its promise (`promise`).
pub fn run_in_databases<S: Alter + Drop>(
    world: &mut World<SqlLog<S>>,
    events: &[Event],
) -> Result<Vec<Result<Answer, Fault>>, Fault>
    ensures passes { IfOk result (λ answers. Passes world.old events.now answers.items world.new) }
    ensures err { OnErr result (world.new ≡ world.old) }
    ensures memory { IfErr result (λ fault. fault ≡ Fault.NoMemory) }
    ensures fits { IfOk result (λ answers. (old : State) → FitsWorld old world.old →
        (states : List State) × Run old events.now answers.items states × FitsWorld (last_of old states) world.new) }
    ensures promise { IfOk result (λ answers. OnEachRun world.old events.now answers.items (λ old states. Promise old events.now answers.items states)) }
{
    worlds_keep_their_promise();
    world.run(events)
}
