//! What a node holds of each owner's writes, how it takes a block of them, and what stays true.
//!
//! Holdings are a node's own table and the tables of other owners. A table takes a block only if the block begins at or
//! below the held version, so no version is skipped, and none goes back. If the block's purge floor is above the held
//! version, the block goes to a stage instead. Once the stage has reached its floor, it replaces the table. `sb_node`
//! enters writes and blocks into holdings, and makes digests and deltas from them.
//!
//! ```rust
//! /// How `b` ends a block of the first write of `a`, and then the same block once more.
//! fn apply_twice(alloc: Global) -> Result<[BlockEnd; 2], Fault> {
//!     let mut holdings = Holdings::new(alloc, Name::read(b"b")?, Table::new(alloc))?;
//!     let entry = Entry::new(Key::read(b"web/up")?, 1, Slot::Set(Value::flag(true)));
//!     let entry = SharedEntry::new(alloc, entry)?;
//!     let block = Block::new(Name::read(b"a")?, 0, 0, 1, vec![in alloc; entry]?)?;
//!     Ok([holdings.apply_block(&block), holdings.apply_block(&block)])
//! }
//! ```
//!
//! # What no contract refuses
//!
//! - `==` of `BlockEnd` calls two different ends equal, or a copy of an end is another end. No test refuses this by
//!   itself: only tests compare ends.
//! - `Holdings::new` or `push_own` reports `NoMemory` without need, or a block ends by `NoMemory` without need. So does
//!   a swap of a stage that leaves no entry. Tests run each call with ample memory, and once at full size. They compare
//!   exact answers.
//! - The maps take more room than they need, or a call takes longer than it should. Nothing refuses it; `attrdir_bench`
//!   measures.
//! - `Debug` prints another text. Nothing refuses it.
#![tactic(auto)]

mod contents;
mod ends;
mod holder;
mod holdings;
mod laws;
mod node_laws;
mod owners;
mod reading;
mod report;

pub use contents::{contents_grow, contents_hold, contents_purge, tables_are_contents};
pub use ends::BlockEnd;
pub use holder::Holder;
pub use holdings::Holdings;
pub use laws::{
    blocks_keep_truth, holdings_make_nodes, nodes_hold, nothing_goes_back, one_by_one, one_meaning,
    replays_hold, truth_lasts, writes_come_in_turn,
};
pub use node_laws::{
    growing_keeps_truth, holders_are_found, joining_blocks_are_taken_up, opened_nodes_hold,
    runs_join,
};
pub use owners::{Holders, Owners, Tables};
pub use reading::reads_are_true;
pub use report::Report;
