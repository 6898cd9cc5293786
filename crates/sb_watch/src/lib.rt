//! Watches: the last notes of the writes that a node took, for those who ask.
//!
//! A watch has a filter and a ring of notes. It is polled: it wakes nobody. A watch that is polled too late reports how
//! many notes it lost. The crate uses only `sb_types`. `sb_directory` has a hub, and gives it a note of each write
//! and of each owner whose table was replaced. `run_node` has a watch for each caller that waits for a change.
//!
//! ```rust
//! /// What a watch of the keys under `net/` answers after a write of `net/b`.
//! fn watch_once(alloc: Global) -> Result<[Polled; 2], Fault> {
//!     let mut hub = Hub::new(alloc);
//!     let (owner, prefix) = (None, Prefix::read(b"net/")?);
//!     let id = hub.add(Filter { owner, prefix }, 2)?;
//!     let key = Some(Key::read(b"net/b")?);
//!     hub.push(&Note {
//!         owner: Name::read(b"a")?,
//!         key,
//!         version: 7,
//!     });
//!     Ok([hub.take(id)?, hub.take(id)?])
//! }
//! ```
//!
//! # What no contract refuses
//!
//! - `Hub::add` reports `NoMemory` without need. Tests run it with ample memory, and once at full size. They compare
//!   exact answers. `push`, `take`, `has_note` and `drop_watch` cannot: their results have no such case.
//! - The list of watches takes more room than it needs, or a call takes longer than it should. Nothing refuses it;
//!   `attrdir_bench` measures.
//! - `Debug` prints another text. Nothing refuses it.
//!
//! The lists of `sb_directory` contain what no contract refuses of its `watch`, `unwatch` and `poll`.
#![tactic(auto)]

mod hub;
mod laws;
mod limits;
mod note;
mod watch;

pub use hub::Hub;
pub use laws::{
    answers_account_for_notes, ids_are_not_used_again, ids_end_with_the_numbers,
    limits_are_these_numbers, notes_keep_what_holds, watches_stand_alone,
};
pub use limits::{RING_MOST, WATCHES_MOST};
pub use note::{Filter, Note, Polled, WatchId};
