//! The rules by which two nodes that talk take each other's messages, and answer them.
//!
//! A `Session` takes the messages of a peer and gives what to send: the delta for a digest, and an own digest if the peer wants
//! one. `dial` and `serve` run a whole session over a `Connection`. They ask a `Handler` for what a node holds, and `sb_node`
//! implements that trait. `push` sends a delta that the peer did not ask for, and asks no handler.
//!
//! A handler takes a `ReceivedDelta` alone. It comes of a `ReceivedMessage`, which only bytes give.
//!
//! ```rust
//! /// Whether the node `a` is greeted by the Hello that came in these frames.
//! fn greet<H: Handler>(handler: &mut H, frames: &mut Frames) -> Result<bool, Fault> {
//!     let mut session = Session::new(Name::read(b"c1")?, Name::read(b"a")?);
//!     let Some(message) = ReceivedMessage::taken_from(frames)? else {
//!         return Ok(false);
//!     };
//!     let replies = session.take(message, handler)?;
//!     Ok(matches!(replies, Replies::Greeted))
//! }
//! ```
//!
//! # What no contract refuses
//!
//! - A session reads on after the peer's Bye, or after a message that it refuses, and drops what comes. Nothing
//!   refuses it.
//! - A session reads on after a write that failed, and drops what comes. Tests refuse it.
//! - A session takes memory for each reply, or keeps no buffer. Nothing refuses it.
//! - A session answers a message only after it has read on, so two such ends wait for each other. Tests over
//!   sockets refuse it, since they do not end then.
//! - `serve`, `dial` or `push` reports a failed read although none failed. Tests refuse it.
//! - `push` drops the delta and reports `NoMemory`, or reads less than it may. Tests refuse it.
#![tactic(auto)]

mod handler;
mod pushing;
mod received;
mod replies;
mod session;
mod talk;

pub use handler::Handler;
pub use pushing::{PushEnd, push};
pub use received::{ReceivedDelta, ReceivedMessage};
pub use replies::Replies;
pub use session::{Phase, Session};
pub use talk::{Ended, dial, serve};
