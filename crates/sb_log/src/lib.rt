//! An owner's log: its own writes. Each is kept before anybody hears of it.
//!
//! The trait `WriteLog` says what every log promises. A `PlainLog` keeps its writes in memory. A `SqlLog` keeps them in a
//! database, and there they outlast a crash. `put` gives a write the next version. No other node gets a write that is not in its
//! owner's log. If the store of a log fails, the log is closed, and `cause` says why.
//!
//! # What no contract refuses
//!
//! - A log in a database reports `StoreFailed` although its store took each statement: tests.
//! - It reports `StoreFailed` in place of `LogDamaged`: nothing.
//! - It gives another cause than its database reported. Only `StoreCause::of` has an exact contract: tests, `tools/check-node`.
//! - A cause has another name, or prints another text: a test that compares each word for word.
//! - It loads what it has in memory. That equals the rows as long as the store keeps its promise: nothing.
//! - A third kind of log keeps removals up to its floor, and only its content leaves them out: tests of that log.
//! - An opening inside a transaction ends that transaction before it answers: a test.
//! - A refused opening leaves the connection in a new transaction, or with a limit of steps: nothing.
//! - An opening reports missing memory or `StoreFailed` for a whole log, or for another's: tests.
//! - A load that finds damage removes the rows. The store broke its promise there: nothing.
//! - Closing a log in a database removes its rows: a test that opens it again.
//!
//! ```rust
//! /// The version of the first write in the log of `a`.
//! fn put_flag(alloc: Global) -> Result<u64, Fault> {
//!     let (owner, cluster) = (Name::read(b"a")?, Name::read(b"c1")?);
//!     let mut log = PlainLog::new(alloc, owner, cluster, VERSION_MOST);
//!     let committed = log.put(&Key::read(b"web/up")?, &Slot::Set(Value::flag(true)))?;
//!     Ok(committed.entry().version())
//! }
//! ```
#![tactic(auto)]

mod cause;
mod check;
mod committed;
mod content;
mod log;
mod memory;
mod opening;
mod purging;
mod rows;
mod schema;
mod sql;
mod statements;

pub use cause::{LogError, StoreCause};
pub use committed::Committed;
pub use log::WriteLog;
pub use memory::PlainLog;
pub use sql::SqlLog;
