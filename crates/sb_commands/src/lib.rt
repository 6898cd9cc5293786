//! The commands of the program, except `serve` and `sim`: each asks a node or opens a log, and prints what comes.
//!
//! ```rust
//! /// Makes the node at a control socket write an address, and prints the rows that it shows under a prefix.
//! fn set_and_list<'a>(rt: &HostRuntime, control: &'a str) -> Result<(), Failure<'a>> {
//!     let address = value_of(rt.alloc(), "addr", "10.0.0.1:80")?;
//!     put(rt, control, key_of("web/addr")?, Slot::Set(address))?;
//!     let (owner, prefix, after) = (None, prefix_of("web/")?, None);
//!     let asked = Ask {
//!         owner,
//!         prefix,
//!         after,
//!     };
//!     let ages = AgeQuery {
//!         are_shown: false,
//!         most: None,
//!     };
//!     print_all(rt, control, asked, RowFormat::Text, ages)
//! }
//! ```
//!
//! # What no contract refuses
//!
//! Most functions of this crate have no `ensures`: no contract can name what a file or a socket contains, or what a
//! terminal received. The functions that they join are proved. So each of these wrong bodies would still be proved.
//! `docs/GAPS.md` also has those of every crate.
//!
//! - `log`, `purge` or `begin` opens another file, prints nothing, or ends with another fault. `tools/check-logs` and
//!   `tools/check-node` refuse it.
//! - A command opens an empty file, or makes a missing one, beside a `-wal` with writes, and these are dropped. `tools/check-logs`
//!   and `tools/check-node` refuse it. Or it opens a link beside which a `-wal` with writes was left, or refuses one beside
//!   which there is none. `tools/check-logs` refuses it.
//! - `begin` begins after another version within the limits, or asks another node. `tools/check-logs` and
//!   `tools/check-node` refuse it.
//! - `restore` asks another node, leaves rows out, makes half a log, replaces a log that has writes, or leaves a file beside
//!   the log. `tools/check-node` refuses it.
//! - `set`, `del`, `get`, `watch`, `status` or `owners` opens another file or socket, sends another request, or prints
//!   something else. `tools/check-node` refuses it.
//! - `watch --retry` enters wrongly what a node has shown and what it printed (`enter_shown`, `enter_printed`). It then
//!   prints a row as gone or again, keeps it or holds it back. `tools/check-node` refuses it.
//! - `watch` with care shows rows at another time, or takes rows of a node that is not caught up. Or it reads a template
//!   wrongly, or writes another file. `tools/check-node` refuses it.
#![tactic(auto)]

mod advice;
mod ages;
mod asking;
mod batch;
mod beginning;
mod care;
mod careful;
mod change_source;
mod failure;
mod keeping;
mod lagging;
mod log_file;
mod one_row;
mod output;
mod owners;
mod part;
mod pausing;
mod quote;
mod reaches;
mod rendered_file;
mod rendering;
mod replacing;
mod restoring;
mod socket_stamp;
mod status;
mod template;
mod watching;
mod words;

pub use advice::{ABOUT_LOSS, about_cause};
pub use asking::{AgeQuery, RowFormat, ages_of, print_all, put};
pub use batch::write_lines;
pub use beginning::{Start, begin_log};
pub use care::Caution;
pub use careful::{CarefulWatch, View};
pub use change_source::WatchPace;
pub use failure::{Failure, FaultPlace, InputLine, LogObstacle, Obstacle};
pub use log_file::{
    DroppedRemovals, Floor, LogDatabase, StartPurge, error_of, has_folder, log_in, open_database,
    print_log, purge_log, purge_removals,
};
pub use one_row::{Portion, RowQuery, print_one};
pub use owners::print_owners;
pub use part::{Kind, Part, Range};
pub use rendered_file::RenderedFile;
pub use replacing::{BESIDE, replace};
pub use restoring::{AskedNode, restore_log};
pub use status::print_status;
pub use template::TemplateLine;
pub use watching::{WatchQuery, watch, watch_on};
pub use words::{LogNames, key_of, name_of, prefix_of, text_of, value_of};
