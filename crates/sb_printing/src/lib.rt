//! Words, numbers and values, as lines contain them.
//!
//! Everything that prints rows or logs makes its lines with these three calls. So all lines spell a number and a value
//! alike. Each call adds bytes at the end of the line, and the caller hands the whole line to a writer. The words are
//! those that `sb_types` reads and prints.
//!
//! ```rust
//! /// The line of what stands under a key: the key, the version and the two words of the value.
//! fn key_line(alloc: Global, key: &Key, version: u64, value: &Value) -> Result<Vec<u8>, Fault> {
//!     let mut line = Vec::new(alloc);
//!     add_word(&mut line, key.bytes(), b' ')?;
//!     add_number(&mut line, version, b' ')?;
//!     add_value(&mut line, value)?;
//!     line.push(b'\n')?;
//!     Ok(line)
//! }
//! ```
//!
//! # What no contract refuses
//!
//! No wrong body of this crate alone is known that would still be proved. As in every crate (`docs/GAPS.md`), a call
//! can report without need that memory is missing. Tests with ample memory refuse that.
#![tactic(auto)]

mod adding;

pub use adding::{add_number, add_value, add_word};
