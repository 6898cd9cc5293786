//! A node: what it holds, what it reports to a peer, and how it takes its own writes and those of peers.
//!
//! A `NodeCore` makes digests and deltas of its holdings, and enters own writes and the blocks of a delta. It enters an
//! own write only after the owner's log has kept it. A node is the `Handler` of a session. `sb_directory` and
//! `sb_world` use it.
//!
//! ```rust
//! /// Makes an own write: it stands in the log before the node enters it.
//! fn write<L: WriteLog>(
//!     node: &mut NodeCore,
//!     log: &mut L,
//!     key: &Key,
//!     slot: &Slot,
//! ) -> Result<(), Fault> {
//!     let committed = log.put(key, slot)?;
//!     node.take_own(&committed)
//! }
//!
//! /// Tells a peer what it lacks.
//! fn tell(node: &NodeCore, peer: &mut NodeCore) -> Result<Report, Fault> {
//!     let digest = peer.digest(None, true)?;
//!     let delta = node.deltas(&digest)?;
//!     peer.apply(&delta)
//! }
//! ```
//!
//! # What no contract refuses
//!
//! - `open`, `take_own`, `digest`, `deltas`, `news` or `apply` reports `NoMemory` without need, `deltas` even for a peer that
//!   lacks nothing. Or a block ends by `NoMemory` without need. Tests run each with ample memory, and once at full
//!   size. They compare exact answers.
//! - A call takes more time or room than it should. Nothing refuses it; `attrdir_bench` measures.
#![tactic(auto)]

mod handler;
mod laws;
mod node;
mod purging;

pub use laws::{
    answers_are_honest, calls_keep_truth, deltas_keep_truth, sessions_are_replays,
    sessions_keep_truth,
};
pub use node::NodeCore;
