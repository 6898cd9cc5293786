//! The frames that carry messages: sent whole, and read out of a stream that comes in any pieces.
//!
//! A `Connection` is a reader and a writer of messages: sessions and control sockets talk over it. Below it `send` writes a
//! message as one frame, and `Frames` gives the messages of a stream, in whatever pieces its bytes come. After a faulty frame
//! the stream is closed. The crate uses `sb_codec`.
//!
//! ```rust
//! /// The frame of the message that ends a session whose rounds are done.
//! fn bye_frame(alloc: Global) -> Result<Vec<u8>, Fault> {
//!     frame_of(alloc, &Message::Bye(Bye::new(REASON_ROUNDS_DONE)?))
//! }
//!
//! /// Whether a message has come with the first piece of a stream, and whether one has with the second.
//! fn have_come(alloc: Global, first: &[u8], second: &[u8]) -> Result<[bool; 2], Fault> {
//!     let mut frames = Frames::new(alloc);
//!     frames.feed(first)?;
//!     let is_early = frames.next()?.is_some();
//!     frames.feed(second)?;
//!     Ok([is_early, frames.next()?.is_some()])
//! }
//! ```
//!
//! # What no contract refuses
//!
//! - `send` reports a failed write although no write failed. The contract of `send_telling` refuses this, and
//!   `send` calls that in one line. Tests refuse it.
//! - `LastWrite::write`, the one way to the writer, makes up an error and calls nothing. The tests of `send` refuse
//!   it, and so does reading its ten lines.
//! - A write or a read is reported as failed because one at another writer or reader did. `LastWrite` and
//!   `LastRead` do not record which it was. Nothing refuses it.
//! - After a failed write or read the code makes another, after `Connection::start` or with a new `LastWrite` or
//!   `LastRead`. Tests refuse it.
//! - `receive` or `read_within` reports a failed read although none failed. Tests refuse it.
//! - A read is made without `Steps`, which counts reads. Reading the five lines of `Steps::read` finds it.
//! - The buffer of `Frames` keeps more of the bytes that were taken out than it needs. Nothing refuses it.
#![tactic(auto)]

mod connection;
mod first_payload;
mod frames;
mod last_read;
mod last_write;
mod laws;
mod receiving;
mod sending;
mod steps;

pub use connection::Connection;
pub use frames::{Frames, READ_LENGTH};
pub use last_write::LastWrite;
pub use laws::{
    a_read_has_this_length, faults_are_of_the_bytes, frames_are_read, frames_have_a_length,
    only_frames_are_read, parts_of_frames_are_short, pieces_do_not_matter,
    streams_have_one_reading, verdicts_stand,
};
pub use receiving::receive;
pub use sending::{frame_of, send, send_telling, write_counted};
pub use steps::{Steps, read_within};
