//! Scripts: their lines as events of a world of nodes in memory, and the lines that the answers print.
//!
//! A script has a world line, and then a command on each line. `sim_run` prints what each command answers. A line that
//! is not a command ends the run, and its number is printed. The program runs scripts with this crate, and the world is
//! that of `sb_world`.
//!
//! ```rust
//! /// What the script prints: in a world of `a` and `b` the node `a` writes, and reads what it wrote.
//! fn play_script(alloc: Global) -> Result<Vec<u8>, Fault> {
//!     let script = "world 1024 breadth 100 a b\nput a w weight 5\nread a a w\n";
//!     let mut output = Output::new(alloc, Vec::new(alloc))?;
//!     sim_run_uncounted(alloc, script.as_bytes(), &mut output, 100, Detail::Plain)?;
//!     Ok(output.into_writer())
//! }
//! ```
//!
//! # What no contract refuses
//!
//! What `sim_run` prints is proved to be the lines of commands that were played. That these are the commands of the
//! script, and all of them, is tested. `Line::parse` and the functions that split a line have no `ensures`. So each of
//! these wrong bodies would still be proved. `docs/GAPS.md` also has those of every crate. The oracle is
//! `tools/oracle`, which compares what is printed.
//!
//! - A line is taken for another line, for a wrong line, or for a wrong line with another fault or number. Tests and
//!   the oracle refuse it.
//! - A world line is taken for another world line. Tests and the oracle refuse it.
//! - What was printed is not written if a run ends with a fault. Tests and the oracle refuse it.
//! - Lines are read and not played: `sim_run` reads once and prints nothing, or `sim_run_uncounted` ends at once. Tests
//!   and the oracle refuse it.
//! - The writer that counts output fails without need. Tests refuse it.
//! - The writer that counts output does not pass a flush on. Nothing refuses it.
//! - A run ignores that its last flush failed, or reads again after its reader ended. Tests refuse it.
//! - A run takes a failed read for the end, or its writer counts other bytes than it took. Tests refuse it.
#![tactic(auto)]

mod command;
mod explain;
mod line;
mod lines;
mod making;
mod output;
mod playing;
mod print;
mod sim;
mod words;

pub use output::Output;
pub use sb_frames::Steps;
pub use sim::{Detail, Ending, sim_run, sim_run_uncounted};
