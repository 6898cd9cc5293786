//! What other nodes hold of a node's own name, compared with what its log gave.
//!
//! A log that was restored from an older copy gives some versions a second time. If the peers hear of neither write in
//! time, each of them holds one write of a version, and the node's own table another. A node that asks a peer for the
//! rows under its own name gets a block. `find_foreign` returns the first entry of the block that the node's log never
//! gave. `find_missing` returns the first entry of the node's own table that the block lacks. If neither returns one,
//! the peer shows what the log says.
//!
//! ```rust
//! /// The versions of the first foreign entry of a block, and of the first own entry that the block lacks.
//! fn compare(table: &Table, block: &Block) -> (Option<u64>, Option<u64>) {
//!     let foreign = find_foreign(table, block).map(|found| found.entry.version());
//!     let missing = find_missing(table, block).map(|own| own.version());
//!     (foreign, missing)
//! }
//! ```
//!
//! # What no contract refuses
//!
//! - `==` of `Reason` calls two different reasons equal. No test refuses this by itself: only tests compare reasons.
//! - A call takes longer than it should. Nothing refuses it.
//! - `Debug` prints another text. Nothing refuses it.
#![tactic(auto)]

mod foreign;
mod laws;
mod missing;
mod same;

pub use foreign::{Foreign, Reason, find_foreign, find_own};
pub use laws::{
    foreign_entries_are_found, own_entries_are_not_foreign, own_entries_are_not_missing,
    own_tables_are_contents, what_passes_is_shown,
};
pub use missing::find_missing;
