//! The model: a world of nodes that take their steps in any order, and what readers are promised in every such order.
//!
//! A `World` contains nodes, their logs, their connections and all frames that they sent. Each step is an event with an
//! answer. A crash, a purge and a restart are events too. As long as the stores of the logs keep their promise, the
//! promise to readers holds for every list of events.
//!
//! ```rust
//! /// What the node `a` answers: to a write, to its entering, and to the question up to where it holds itself.
//! fn run_three(alloc: Global, settings: Settings) -> Result<Vec<Result<Answer, Fault>>, Fault> {
//!     let a = Name::read(b"a")?;
//!     let log = PlainLog::new(alloc, a, settings.cluster(), settings.max_version());
//!     let mut world = World::new(alloc, settings, vec![in alloc; log]?)?;
//!     let (key, slot) = (Key::read(b"web/up")?, Slot::Set(Value::flag(true)));
//!     let events = [
//!         Event::Commit(a, key, slot),
//!         Event::Take(a),
//!         Event::Upto(a, a),
//!     ];
//!     run_in_memory(&mut world, &events)
//! }
//! ```
//!
//! # What no contract refuses
//!
//! Each of these wrong bodies would still be proved. `docs/GAPS.md` also has those of every crate.
//!
//! - `World::new` or a restart reports `StoreFailed` in place of `LogDamaged`, or the other way round. Nothing refuses
//!   it.
//! - `World::new` reports the fault of a later log than the first that has one. Nothing refuses it.
//! - `World::new` reports missing memory for a damaged log, since no clause knows the damage before the log is read. A
//!   test of `World::new` refuses it.
#![tactic(auto)]

mod connecting;
mod connection;
mod event;
mod hearing;
mod laws;
mod making;
mod offer;
mod place;
mod real;
mod sent;
mod world;

pub use event::{Answer, Event, Item, Items};
pub use laws::{
    lost_logs_go_on, sure_stores_are_trusted, worlds_are_reached, worlds_keep_their_promise,
};
pub use real::{run_in_databases, run_in_memory};
pub use world::World;
