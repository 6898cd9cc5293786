//! What a log holds, in lines for a reader; what a purge of it prints; and rows that are written back into it.
//!
//! `log_run` prints a line for each key of a log, in the order of the keys, and then the last version. It prints any `WriteLog`, in
//! memory or in a database, and the program prints a log file with it. `purge_run` makes a log drop its removals up to a version,
//! and prints that version. `write_back` gives a log the rows that another node shows of its owner.
//!
//! # What no contract refuses
//!
//! `log_run` reports `StoreFailed` in place of `LogDamaged`, or the other way round. Either closes the log.
//! `write_back` also makes other writes before it returns a fault. A caller that wants all rows or none drops such a log.
//!
//! ```rust
//! /// The lines of a log of `a` with one write.
//! fn lines_of_log(alloc: Global) -> Result<Vec<u8>, Fault> {
//!     let (owner, cluster) = (Name::read(b"a")?, Name::read(b"c1")?);
//!     let mut log = PlainLog::new(alloc, owner, cluster, VERSION_MOST);
//!     let _committed = log.put(&Key::read(b"web/up")?, &Slot::Set(Value::flag(true)))?;
//!     let mut lines = Vec::new(alloc);
//!     let (printed, _) = log_run(alloc, &mut log, &mut lines);
//!     printed?;
//!     Ok(lines)
//! }
//! ```
#![tactic(auto)]

mod log_lines;
mod purge_line;
mod writing_back;

pub use log_lines::log_run;
pub use purge_line::purge_run;
pub use writing_back::write_back;
