//! Questions for rows: the page that answers one, what an answer contains, and the lines of a page.
//!
//! A question names an owner or none, a prefix, and the place after which the rows come. Its answer is the longest page
//! within a budget. A caller that wants all rows asks for page after page.
//!
//! ```rust
//! /// The lines of the first page of all rows under a prefix.
//! fn lines_under(alloc: Global, snapshot: &Snapshot<'_>, prefix: Prefix) -> Result<Vec<u8>, Fault> {
//!     let (owner, after) = (None, None);
//!     let page = answer(
//!         alloc,
//!         snapshot,
//!         &Ask {
//!             owner,
//!             prefix,
//!             after,
//!         },
//!         BUDGET_LEAST,
//!     )?;
//!     let mut lines = Vec::new(alloc);
//!     print_rows(alloc, &mut lines, &page).0?;
//!     Ok(lines)
//! }
//! ```
//!
//! # What no contract refuses
//!
//! This wrong body would still be proved. `docs/GAPS.md` also has those of every crate.
//!
//! - `answer` reads more than one row beyond its page, or rows before its place. Nothing refuses it: that is a matter
//!   of time.
#![tactic(auto)]

mod answering;
mod answers;
mod laws;
mod paging;
mod printing;
mod status_pages;

pub use answering::{answer, first_at};
pub use answers::{NoAnswer, ages_in, notice_in, page_in, status_in, version_in};
pub use laws::{listings_are_whole, pages_follow};
pub use paging::{Pager, PagingFault, ask_all, goes_on};
pub use printing::{add_row, print_rows};
pub use status_pages::{is_ready, status_page};
