//! A connection: messages out of a reader, and messages onto a writer.

ghost use Rattle.std.specs.Prelude.{◌≡◌, ◌+◌, ◌*◌, ◌<◌, false, length, IfOk, IfSome};
ghost use Rattle.sb_frames.specs.Frames.{frame};
ghost use Rattle.sb_frames.specs.Receiving.{held_of, OnlyWhereReadFailed};
ghost use Rattle.sb_frames.specs.Sending.{Sends, has_failed, OnlyWhereFailed};
ghost use Rattle.sb_frames.specs.Connections.{new_connection, Starts, KeepsInput, KeepsOutput, ReceivesOn};
ghost use Rattle.sb_frames.specs.declared.frames.TheConstants.{READ_LENGTH};

use crate::frames::Frames;
use crate::last_read::LastRead;
use crate::last_write::LastWrite;
use crate::receiving::receive_within;
use crate::sending::send_on;
use crate::steps::Steps;
use sb_codec::Message;
use sb_types::Fault;
use std::alloc::Global;
use std::io::{Read, Write};
use std::marker::Model;
use std::sync::ledger::Ledger;

/// A reader and a writer of messages, and all that is kept from one message to the next. The two are often handles of one
/// stream.
///
/// ```
/// let mut connection = Connection::new(alloc, b"".as_slice(), Vec::new(alloc), 1, steps);
/// connection.send(&bye)?;
/// let is_over = connection.receive()?.is_none();
/// let (_, sent) = connection.into_parts();
/// assert!(is_over && sent.as_slice() == b"\xa7\x03\x00\x00\x00\x02\x04\x01".as_slice());
/// ```
///
/// The test `the_example_of_connections` runs these lines.
#[derive(Drop)]
pub struct Connection<R: Read, W: Write, L: Ledger> {
    reader: R,
    writer: W,
    frames: Frames,
    /// The frame that was written last; the next one takes its memory.
    buffer: Vec<u8>,
    /// How many reads may still be made.
    left: u64,
    steps: Steps<L>,
    last_read: LastRead,
    last_write: LastWrite,
}

impl<R: Read, W: Write, L: Ledger> Model for Connection<R, W, L> {
    ghost use Rattle.sb_frames.specs.Connections as connections;

    ghost Value = { connections.Connection };

    ghost view = { λ c. record {
      input = R.remaining c.reader;
      output = W.contents c.writer;
      stream = c.frames;
      left = c.left;
      steps = c.steps;
      read_failed = c.last_read;
      last_write = c.last_write;
    } };
}

impl<R: Read, W: Write, L: Ledger> Connection<R, W, L> {
    /// A connection over a reader and a writer, which makes at most `max_reads` reads in all. It has read and written nothing
    /// yet. It takes no memory.
    pub fn new(
        alloc: Global,
        reader: R,
        writer: W,
        max_reads: u64,
        steps: Steps<L>,
    ) -> Connection<R, W, L>
        ensures { result ≡ new_connection (R.remaining reader) (W.contents writer) max_reads steps }
    {
        Connection {
            reader,
            writer,
            frames: Frames::new(alloc),
            buffer: Vec::new(alloc),
            left: max_reads,
            steps,
            last_read: LastRead::new(),
            last_write: LastWrite::new(),
        }
    }

    /// Starts a talk: the connection forgets whether its last read and its last write failed. It keeps the bytes that it holds,
    /// and the reads that are left. `Closed` after a faulty frame, with nothing changed.
    pub fn start(&mut self) -> Result<(), Fault>
        ensures { Starts self.old result self.new }
    {
        if self.frames.is_shut() {
            return Err(Fault::Closed);
        }
        self.last_read = LastRead::new();
        self.last_write = LastWrite::new();
        Ok(())
    }

    /// Writes the message's frame, after a write that did not fail. It takes memory only if the frame is longer than each one
    /// before. `NoMemory`, with nothing written; `WriteFailed` with how many bytes of the frame were written, always fewer than
    /// all. A write that takes no byte has failed, and so has one that was interrupted 1,001 times in a row.
    pub fn send(&mut self, message: &Message) -> Result<(), Fault>
        requires goes_on { has_failed self.old.last_write ≡ false }
        ensures sends { Sends self.old.output self.new.output (frame message.now) result }
        ensures failed { OnlyWhereFailed result self.new.last_write }
        ensures goes_on { IfOk result (λ _. has_failed self.new.last_write ≡ false) }
        ensures kept { KeepsInput self.old self.new }
    {
        send_on(
            &mut self.buffer,
            &mut self.writer,
            message,
            &mut self.last_write,
        )
    }

    /// The next message; nothing at an end between frames. The bytes that the connection holds are handed out before it reads.
    ///
    /// Its faults:
    ///
    /// - `Closed` after a faulty frame.
    /// - `BadMark`, `BadVersion`, `BadLength`, `UnknownKind` or `Malformed` of the next frame. The connection is closed from then
    ///   on.
    /// - `ReadFailed`.
    /// - `Truncated` at an end inside a frame.
    /// - `TurnsSpent` if the call needs one more read than are left.
    /// - `NoMemory`.
    ///
    /// After the last four faults every byte that was read is held, and the call may be made again.
    pub fn receive(&mut self) -> Result<Option<Message>, Fault>
        ensures gives { ReceivesOn self.old self.new result }
        ensures counted { self.new.steps + self.new.left ≡ self.old.steps + self.old.left }
        // What is held and what may still be read grows less with each message.
        ensures goes { IfOk result (λ found. IfSome found (λ _.
            length (held_of self.new.stream) + READ_LENGTH * self.new.left < length (held_of self.old.stream) + READ_LENGTH * self.old.left)) }
        // A read that was interrupted, or that was made before the call, is no reason to stop.
        ensures failed { OnlyWhereReadFailed result self.new.read_failed }
        ensures kept { KeepsOutput self.old self.new }
    {
        receive_within(
            &mut self.reader,
            &mut self.frames,
            &mut self.left,
            &mut self.steps,
            &mut self.last_read,
        )
    }

    /// Whether the last read of the last `receive` failed and was not interrupted; false if none was made since `start`.
    pub fn has_read_failed(&self) -> bool
        ensures { result ≡ self.now.read_failed }
    {
        self.last_read.has_failed()
    }

    /// Whether the last write failed, took no byte, or was interrupted after 1,000 others in a row. False if none was made since
    /// `start`. No message may be sent after such a write before `start` is called.
    pub fn has_write_failed(&self) -> bool
        ensures { result ≡ has_failed self.now.last_write }
    {
        self.last_write.has_failed()
    }

    /// Gives the reader and the writer back. The bytes that were read and not handed out are lost.
    pub fn into_parts(self) -> (R, W)
        ensures input { R.remaining result.0 ≡ self.input }
        ensures output { W.contents result.1 ≡ self.output }
    {
        (self.reader, self.writer)
    }
}
