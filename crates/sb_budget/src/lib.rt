//! What a node offers to a peer, the order in which it sends that, and the part that fits a budget.
//!
//! `available` lists what a peer lacks, by its digest. `cut` makes the longest delta of a list that fits a budget. A
//! `DeltaOrder` decides what is sent first. A running node makes no list: its order calls `cursors` and `cut_in_turns`,
//! which make the same delta owner by owner. `cursors_since` takes a `Backlog` in place of a digest. The crate uses `sb_holdings` and `sb_digest`. `sb_breadth` and `sb_depth`
//! are the two orders.
//!
//! ```rust
//! /// The holdings of the node `a`, which made one write.
//! fn one_write(alloc: Global) -> Result<Holdings, Fault> {
//!     let mut table = Table::new(alloc);
//!     let key = Key::read(b"web/up")?;
//!     table.push(Entry::new(key, 1, Slot::Set(Value::flag(true))))?;
//!     Holdings::new(alloc, Name::read(b"a")?, table)
//! }
//!
//! /// The delta for an empty peer, within the least budget.
//! fn first_delta(alloc: Global, holdings: &Holdings) -> Result<Delta, Fault> {
//!     let nothing = Digest::new(false, None, None, Vec::new(alloc))?;
//!     let offered = available(alloc, holdings, &nothing)?;
//!     cut(alloc, offered, BUDGET_LEAST)
//! }
//! ```
//!
//! # What no contract refuses
//!
//! - `available`, `cut`, `cursors`, `cursors_since`, `cut_in_turns`, `add` of a `Backlog`, or `push` or `finish` of a
//!   `DeltaBuilder`, reports `NoMemory` without need, even for a peer that lacks nothing. Tests run each with ample
//!   memory, and once at full size. They compare exact answers.
//! - A cursor looks up entries although nothing of its owner is sent, or a call takes more time or room than it should.
//!   Nothing refuses it; `attrdir_bench` measures.
//! - `Debug` prints another text. Nothing refuses it.
#![tactic(auto)]

mod availability;
mod backlog;
mod block_builder;
mod cursor;
mod cutting;
mod delta_builder;
mod head;
mod laws;
mod offered;
mod offered_table;
mod order;
mod since;
mod turns;

pub use availability::available;
pub use backlog::Backlog;
pub use cursor::{Cursor, cursors};
pub use cutting::cut;
pub use delta_builder::DeltaBuilder;
pub use head::Head;
pub use laws::{
    available_by_number, available_by_owner, cuts_are_honest, offered_tables_hold,
    offers_are_honest,
};
pub use offered::Offered;
pub use order::{DeltaOrder, orders_keep_owners};
pub use since::cursors_since;
pub use turns::{Turns, cut_in_turns};
