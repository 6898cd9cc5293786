//! Views: what readers get of a node without its lock.
//!
//! A node's events make its history, which proofs alone have. One writer queues what is new and publishes it; each reader enters
//! without waiting, and gets a snapshot: the view of the node after a prefix of its history, no shorter than any that it saw before.
//!
//! ```rust
//! /// The version of what a reader gets under a key of an owner, and up to which version it has the owner.
//! fn version_under<S: NodeTag>(entered: &Entered<S>, owner: &Name, key: &Key) -> (Option<u64>, u64) {
//!     let snapshot = entered.snapshot();
//!     let version = match snapshot.get(owner, key) {
//!         Some((_, version)) => Some(version),
//!         None => None,
//!     };
//!     (version, snapshot.upto(owner))
//! }
//! ```
//!
//! # What no contract refuses
//!
//! - A call of `views` finds no memory, a reader is refused, or it enters something else than what was published
//!   last. Tests refuse it.
#![tactic(auto)]

mod batch;
mod change;
mod entries_from;
mod event;
mod history;
mod laws;
mod live;
mod node_view;
mod opening;
mod owner_view;
mod owner_views;
mod reader;
mod recording;
mod rows;
mod rule;
mod snapshot;
mod view_copy;
mod writer;

pub use batch::Batch;
pub use change::{Change, ChangeRef};
pub use event::{Event, EventRef};
pub use history::{History, HistoryPrefix, NewHistory, NodeTag, Position};
pub use laws::{
    new_changes_lead, own_writes_lead, purges_show_nothing, rows_ascend, tables_grow,
    views_show_what_is_held,
};
pub use live::LiveValue;
pub use opening::views;
pub use owner_view::OwnerView;
pub use owner_views::OwnerViews;
pub use reader::{Entered, Reader};
pub use rows::{LiveRow, LiveRows};
pub use rule::ViewRule;
pub use snapshot::Snapshot;
pub use view_copy::{Operation, ViewCopy};
pub use writer::ViewWriter;
