//! The one spelling of each message in bytes, and its reading.
//!
//! `encode_payload` spells a message, and `decode_payload` reads it. Different messages have different spellings, and
//! bytes that spell no message are refused with a fault. The crate uses `sb_types` and `sb_digest`. `sb_frames` puts
//! payloads into frames.
//!
//! ```rust
//! /// The payload of the message that ends a session whose rounds are done.
//! fn bye_payload(alloc: Global) -> Result<Vec<u8>, Fault> {
//!     encode_payload(alloc, &Message::Bye(Bye::new(REASON_ROUNDS_DONE)?))
//! }
//!
//! /// The reason of such a message; none where the payload is of another.
//! fn reason_in(alloc: Global, payload: &[u8]) -> Result<Option<u8>, Fault> {
//!     match decode_payload(alloc, payload)? {
//!         Message::Bye(bye) => Ok(Some(bye.reason())),
//!         _ => Ok(None),
//!     }
//! }
//! ```
//!
//! # What no contract refuses
//!
//! - The reader of lists takes its room without `room_for`, which limits it by the bytes that are left. Nothing refuses
//!   it.
//! - `decode_payload` reports `NoMemory` for malformed bytes of a kind that takes memory. Tests refuse it. Of another kind a clause
//!   refuses it.
//! - `encode_payload`, `append_payload` or `decode_payload` reports `NoMemory` without need. `decode_payload` may do so
//!   even for a Put that removes a key, although that takes no memory. Tests run each with ample memory, and once at
//!   full size. They compare exact answers.
//! - A payload has more room than it needs, or a call takes longer than it should. Nothing refuses it; `attrdir_bench`
//!   measures.
//! - `Debug` prints another text. Nothing refuses it.
#![tactic(auto)]

mod decode;
mod encode;
mod fields;
mod lengths;
mod list_item;
mod message;
mod payloads;
mod refusal;
mod writing;

pub use decode::{decode_payload, decode_shared, takes_memory};
pub use encode::{append_payload, encode_payload};
pub use lengths::length;
pub use message::{
    Ages, Ask, AskChange, AskStatus, Bye, Done, Figure, FigureKind, Hello, Message, NodeIdentity,
    NodeStatus, Notice, OwnerAge, PeerStatus, Refused, Row, Rows,
};
pub use payloads::{one_payload_each, payloads_have_these_lengths};
