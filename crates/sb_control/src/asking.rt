//! One message out of a connection, and a request with the message that answers it.
ghost use Rattle.std.specs.Prelude.{◌≡◌, ◌+◌, false, IfOk};
ghost use Rattle.sb_frames.specs.Sending.{OnlyWhereFailed, has_failed};
ghost use Rattle.sb_frames.specs.declared.last_write.Outcome.{Outcome};
ghost use Rattle.sb_frames.specs.Connections.{KeepsOutput};
ghost use Rattle.sb_control.specs.OneMessage.{ReceivesOne, Asks};

use crate::request::ControlRequest;
use sb_codec::Message;
use sb_frames::Connection;
use sb_types::Fault;
use std::io::{Read, Write};
use std::sync::ledger::Ledger;

/// The next message of a connection. Its faults are those of `Connection::receive`, and `Truncated` at an end before the
/// message.
fn receive_one<R: Read, W: Write, K: Ledger>(
    connection: &mut Connection<R, W, K>,
) -> Result<Message, Fault>
    ensures receives { ReceivesOne connection.old connection.new result }
    ensures counted { connection.new.steps + connection.new.left ≡ connection.old.steps + connection.old.left }
    // It writes nothing, and no fault of it says that a write failed.
    ensures kept { KeepsOutput connection.old connection.new }
    ensures unwritten { (last : Outcome) → OnlyWhereFailed result last }
{
    match connection.receive() {
        Ok(Some(message)) => Ok(message),
        Ok(None) => Err(Fault::Truncated),
        Err(fault) => Err(fault),
    }
}

/// The message that a connection begins with. Its faults are those of `receive_one`.
fn receive_first<R: Read, W: Write, K: Ledger>(
    connection: &mut Connection<R, W, K>,
) -> Result<Message, Fault>
    ensures receives { ReceivesOne connection.old connection.new result }
    ensures counted { connection.new.steps + connection.new.left ≡ connection.old.steps + connection.old.left }
    ensures output { connection.new.output ≡ connection.old.output }
    ensures unwritten { (last : Outcome) → OnlyWhereFailed result last }
    ensures goes_on { IfOk result (λ _. has_failed connection.new.last_write ≡ false) }
{
    connection.start()?;
    receive_one(connection)
}

/// The request that a connection begins with. Its faults are those of `Connection::receive`, and `Truncated` at an end before the
/// request.
pub fn receive_request<R: Read, W: Write, K: Ledger>(
    connection: &mut Connection<R, W, K>,
) -> Result<ControlRequest, Fault>
    ensures receives { ReceivesOne connection.old connection.new result }
    ensures counted { connection.new.steps + connection.new.left ≡ connection.old.steps + connection.old.left }
    ensures output { connection.new.output ≡ connection.old.output }
    ensures unwritten { (last : Outcome) → OnlyWhereFailed result last }
    ensures goes_on { IfOk result (λ _. has_failed connection.new.last_write ≡ false) }
{
    match receive_first(connection) {
        Ok(message) => Ok(ControlRequest::new(message)),
        Err(fault) => Err(fault),
    }
}

/// Sends one request and gives the message that answers it, a `Refused` as any other. After the call the connection says
/// whether its last write failed.
///
/// Its faults:
///
/// - `Closed`, with nothing sent, if the connection is closed after a faulty frame.
/// - `WriteFailed`, with how many bytes of the request are written.
/// - `BadMark`, `BadVersion`, `BadLength`, `UnknownKind` or `Malformed` of the answer.
/// - `ReadFailed`.
/// - `Truncated` if no whole answer comes.
/// - `TurnsSpent` if the call needs one more read than the connection has left.
/// - `NoMemory`.
pub fn ask_control<R: Read, W: Write, K: Ledger>(
    connection: &mut Connection<R, W, K>,
    request: &Message,
) -> Result<Message, Fault>
    ensures asks { Asks request.now connection.old connection.new result }
    ensures counted { connection.new.steps + connection.new.left ≡ connection.old.steps + connection.old.left }
    // A write that did not fail, or that was made before the call, is no reason to stop.
    ensures failed { OnlyWhereFailed result connection.new.last_write }
{
    connection.start()?;
    connection.send(request)?;
    receive_one(connection)
}
