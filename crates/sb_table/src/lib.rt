//! One owner's table: what the owner last wrote under each key, in the order of the versions.
//!
//! A table takes one write after another, each of a later version, and keeps the last one of each key. A removed key
//! keeps a *tombstone*: an entry without a value, which is the marker of the removal. A table returns the entry of a
//! key, the entries above a version, and those under a prefix. Holdings and logs keep writes in tables. The crate uses
//! only `sb_types`.
//!
//! A table keeps each entry once on the heap, as a `SharedEntry`. Blocks, other tables and views can share it.
//!
//! A table may have a *purge floor*: it has no tombstones up to that version. `raise` drops them. A `Stage` is what has
//! arrived of a table with a floor that will replace the shown one. A new table has floor 0, and keeps all tombstones.
//!
//! ```rust
//! /// Enters a write whose version is above all that the table has.
//! fn enter(table: &mut Table, entry: Entry) -> Result<(), Fault> {
//!     let version = entry.version();
//!     if version <= table.upto() {
//!         return Err(Fault::OutOfTurn(version));
//!     }
//!     table.push(entry)
//! }
//!
//! /// A table whose owner set a key and then removed it.
//! fn set_and_removed(alloc: Global, key: Key) -> Result<Table, Fault> {
//!     let mut table = Table::new(alloc);
//!     enter(&mut table, Entry::new(key, 1, Slot::Set(Value::flag(true))))?;
//!     enter(&mut table, Entry::new(key, 2, Slot::Removed))?;
//!     Ok(table)
//! }
//! ```
//!
//! # What no contract refuses
//!
//! - `push`, `push_shared`, `copy`, `restored` or `swapped` reports `NoMemory` without need. So do `copy`, `restored` and
//!   `swapped` if there are no entries to keep, and a swap that leaves nothing then fails. Tests run each call with ample
//!   memory, and once with 4,096 keys. They compare exact answers.
//! - The lists take more room than they need, or a call takes longer than it should. Nothing refuses it; `attrdir_bench`
//!   measures.
//! - `Debug` prints another text. Nothing refuses it.
#![tactic(auto)]

mod after;
mod entries;
mod laws;
mod places;
mod prefixed;
mod replacing;
mod restore;
mod stage;
mod swap;
mod table;

pub use after::{After, SharedAfter};
pub use entries::entries_above;
pub use laws::{
    by_key_sorts, entering_keeps_tables, floors_keep_tables, what_is_entered_is_found,
    what_stands_is_found,
};
pub use places::place_of;
pub use prefixed::Prefixed;
pub use stage::Stage;
pub use table::Table;
