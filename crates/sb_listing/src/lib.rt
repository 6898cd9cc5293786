//! Listings: what changed from one to the next, the lines of changes, and rows as JSON. A listing is all rows that a
//! caller asked a node for.
//!
//! Two listings are compared in one walk, since both ascend by owner and key. `attrdir watch` prints the changes.
//!
//! ```rust
//! /// The lines of what changed from one listing to the next.
//! fn changed_lines(alloc: Global, earlier: &[Row], later: &[Row]) -> Result<Vec<u8>, Fault> {
//!     let found = changes(alloc, earlier, later)?;
//!     let mut lines = Vec::new(alloc);
//!     print_changes(alloc, &mut lines, &found).0?;
//!     Ok(lines)
//! }
//! ```
//!
//! # What no contract refuses
//!
//! This wrong use would still be proved. `docs/GAPS.md` also has those of every crate.
//!
//! - The listings of a watch do not ascend. `attrdir` refuses a page that does not go on after the last one, and each
//!   page ascends.
#![tactic(auto)]

mod changing;
mod json;
mod laws;
mod printing;

pub use changing::{RowChange, changes};
pub use json::{add_json_array, add_json_object, print_json_rows};
pub use laws::changes_tell_all;
pub use printing::print_changes;
