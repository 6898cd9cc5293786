//! What is around the handler of a session: a gate that it passes, owners that its node forgets, and offers in vain. Also the
//! version that each node reports of itself.
//!
//! Each is a `Handler` that passes the calls of a session on to the one inside. `GatedHandler` asks a `Gate` whether the session
//! may go on. `ForgettingHandler` leaves out the blocks of `ForgottenOwners`. `DeferringHandler` first offers what was not offered
//! in vain, as `VainOffers` has it. A gate hears of each digest, and `ReportedVersions` finds that a version falls.
//!
//! ```rust
//! /// A gate that holds session 1 before it applies a delta, until session 2 has answered a digest. It holds it for at
//! /// most so many turns of a millisecond.
//! #[derive(Drop)]
//! struct Holding<'a, R> {
//!     rt: &'a R,
//!     has_answered: AtomicBool,
//!     turns: u64,
//! }
//!
//! impl<R: Clock> Gate for Holding<'_, R> {
//!     ghost lets = { λ gate session step. Unit {0} };
//!
//!     ghost turns_away = { λ gate session step. Unit {0} };
//!
//!     fn pass(&self, session: u64, step: GatePoint) -> bool {
//!         match (session, step) {
//!             (1, GatePoint::BeforeApply) => {
//!                 for _ in 0..self.turns {
//!                     if self.has_answered.load(Ordering::SeqCst) {
//!                         return true;
//!                     }
//!                     sleep(self.rt, Duration::from_millis(1));
//!                 }
//!                 false
//!             }
//!             (2, GatePoint::AfterAnswer) => {
//!                 self.has_answered.store(true, Ordering::SeqCst);
//!                 true
//!             }
//!             _ => true,
//!         }
//!     }
//! }
//! ```
//!
//! # What no contract refuses
//!
//! These wrong bodies would still be proved. `docs/GAPS.md` also has those of every crate.
//!
//! - A session begins without what its peer was offered in vain in the one before, or with what another peer was. The
//!   tests of `sb_run` and `tools/check-node` refuse it.
//! - `DeferringHandler` forgets what it offered, or defers nothing, as if memory were missing. The tests of `sb_run` and
//!   `tools/check-node` refuse it.
//! - `ForgottenOwners::take_sighting` is true of an owner whose rows no peer had, never, or again and again. The tests of
//!   `sb_run` and `tools/check-node` refuse it.
//! - `GatedHandler` reports to its gate no digest, or nothing of what was entered, missed or heard. The tests of `sb_run` and
//!   `tools/check-node` refuse it.
//! - `ReportedVersions` takes nothing of a digest, takes another moment, or returns another fall than one of its own. The tests of
//!   `sb_run` and `tools/check-node` refuse it.
#![tactic(auto)]

mod forgetting;
mod gate;
mod laws;
mod reported_versions;
mod vain_offers;

pub use forgetting::{ForgettingHandler, ForgottenOwners};
pub use gate::{Gate, GatePoint, GatedHandler, Open};
pub use laws::{nothing_is_reported_of_one_log, reported_versions_are_found};
pub use reported_versions::{Arrival, ReportedVersions, VersionFall};
pub use vain_offers::{Asker, DeferringHandler, VainOffers};
