//! What came from a peer: messages that were taken out of bytes, and their deltas.

ghost use Rattle.std.specs.Prelude.{◌≡◌, ◌+◌, ◌*◌, ◌<◌, true, length, IfOk, IfSome};
ghost use Rattle.sb_types.specs.Limits.{is_delta};
ghost use Rattle.sb_frames.specs.Connections.{KeepsOutput, ReceivesOn};
ghost use Rattle.sb_frames.specs.Receiving.{held_of, OnlyWhereReadFailed};
ghost use Rattle.sb_frames.specs.Streams.{TakesNext};
ghost use Rattle.sb_frames.specs.declared.frames.TheConstants.{READ_LENGTH};
ghost use Rattle.sb_session.specs.Received.{delta_in, IsPartOf};

use sb_codec::Message;
use sb_frames::{Connection, Frames};
use sb_types::{Block, Delta, Fault};
use std::io::{Read, Write};
use std::marker::Model;
use std::sync::ledger::Ledger;

/// A message that was taken out of bytes. Only `read_from` and `taken_from` make it, and it can't be copied.
#[derive(Debug, Drop)]
pub struct ReceivedMessage {
    message: Message,
}

impl Model for ReceivedMessage {
    ghost use Rattle.sb_codec.specs.declared.message.Message as messages;

    ghost Value = { messages.Message };

    ghost view = { λ m. m.message };
}

/// What was found in bytes.
fn as_received(found: Result<Option<Message>, Fault>) -> Result<Option<ReceivedMessage>, Fault>
    ensures { result ≡ found }
{
    match found {
        Ok(Some(message)) => Ok(Some(ReceivedMessage { message })),
        Ok(None) => Ok(None),
        Err(fault) => Err(fault),
    }
}

impl ReceivedMessage {
    /// The next message of a connection, as `Connection::receive` gives it, with its faults.
    pub fn read_from<R: Read, W: Write, L: Ledger>(
        connection: &mut Connection<R, W, L>,
    ) -> Result<Option<ReceivedMessage>, Fault>
        ensures gives { ReceivesOn connection.old connection.new result }
        ensures counted { connection.new.steps + connection.new.left ≡ connection.old.steps + connection.old.left }
        // What is held and what may still be read grows less with each message.
        ensures goes { IfOk result (λ found. IfSome found (λ _.
            length (held_of connection.new.stream) + READ_LENGTH * connection.new.left < length (held_of connection.old.stream) + READ_LENGTH * connection.old.left)) }
        ensures failed { OnlyWhereReadFailed result connection.new.read_failed }
        ensures kept { KeepsOutput connection.old connection.new }
    {
        as_received(connection.receive())
    }

    /// The next message of frames, as `Frames::next` gives it, with its faults. No running node calls it: whoever feeds the
    /// frames says what came.
    pub fn taken_from(frames: &mut Frames) -> Result<Option<ReceivedMessage>, Fault>
        ensures { TakesNext frames.old result frames.new }
    {
        as_received(frames.next())
    }

    /// The message.
    pub fn message(&self) -> &Message
        ensures { result.now ≡ self.now }
    {
        &self.message
    }

    /// The message, which is not known to be received from then on.
    pub fn into_message(self) -> Message
        ensures { result ≡ self }
    {
        let ReceivedMessage { message } = self;
        message
    }

    /// The delta, if the message is one.
    pub fn into_delta(self) -> Option<ReceivedDelta>
        ensures { result ≡ delta_in self }
    {
        match self.into_message() {
            Message::Delta(delta) => Some(ReceivedDelta { delta }),
            _ => None,
        }
    }
}

/// A delta of a message that was taken out of bytes, or some of the blocks of one. Only a `ReceivedMessage` and `part` make it, and
/// it can't be copied.
#[derive(Debug, Drop)]
pub struct ReceivedDelta {
    delta: Delta,
}

impl Model for ReceivedDelta {
    ghost use Rattle.std.specs.Prelude.{List};
    ghost use Rattle.sb_types.specs.Records as records;

    ghost Value = { List records.Block };

    ghost view = { λ d. d.delta };
}

impl ReceivedDelta {
    /// The delta of a message that was received.
    pub(crate) fn new(delta: Delta) -> ReceivedDelta
        ensures { result ≡ delta }
    {
        ReceivedDelta { delta }
    }

    /// The delta.
    pub fn delta(&self) -> &Delta
        ensures delta { result.now ≡ self.now }
        ensures limits { is_delta self.now ≡ true }
    {
        // Does nothing: the call tells the prover that the delta keeps its limits.
        let _ = self.delta.blocks();
        &self.delta
    }

    /// Its blocks.
    pub fn blocks(&self) -> &[Block]
        ensures blocks { result.now ≡ self.now }
        ensures limits { is_delta self.now ≡ true }
    {
        self.delta.blocks()
    }

    /// A delta of some of its blocks, which were received as well.
    pub fn part(&self, kept: Delta) -> ReceivedDelta
        requires part { IsPartOf kept self.now }
        ensures { result ≡ kept }
    {
        ReceivedDelta { delta: kept }
    }
}
