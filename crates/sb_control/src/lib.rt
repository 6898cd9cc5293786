//! What a node and a caller at its control socket share: one request with its answer, and why a log takes no more writes.
//!
//! ```rust
//! /// Asks the node at the other end of a connection for the first page of its status.
//! fn status_over<R: Read, W: Write, K: Ledger>(
//!     connection: &mut Connection<R, W, K>,
//! ) -> Result<Message, Fault> {
//!     ask_control(connection, &Message::AskStatus(AskStatus::new(0)))
//! }
//! ```
//!
//! # What no contract refuses
//!
//! These wrong bodies would still be proved. `docs/GAPS.md` also has those of every crate.
//!
//! - `ask_control`, `receive_request` or `read_piece` never returns. Tests end.
//! - The words of a `LogCause` for people, or its name for programs, are others. `tools/check-node` refuses it.
#![tactic(auto)]

mod asking;
mod log_cause;
mod pieces;
mod request;

pub use asking::{ask_control, receive_request};
pub use log_cause::{LogCause, LogLoss};
pub use pieces::read_piece;
pub use request::ControlRequest;
