//! A session that pushes writes to a peer, which did not ask for them.

ghost use Rattle.std.specs.Prelude.{◌≡◌, ◌≢◌, ◌+◌, false, IfOk, IfErr};
ghost use Rattle.sb_frames.specs.Connections.{KeepsInput, KeepsOutput};
ghost use Rattle.sb_frames.specs.Sending.{has_failed, OnlyWhereFailed};
ghost use Rattle.sb_frames.specs.Receiving.{OnlyWhereReadFailed};
ghost use Rattle.sb_session.specs.Telling.{Says};
ghost use Rattle.sb_session.specs.Pushes.{pushed_by, Awaits, Pushes};

use crate::session::Session;
use crate::talk::say;
use sb_codec::{Bye, Message};
use sb_frames::Connection;
use sb_types::{Delta, Fault, REASON_ROUNDS_DONE};
use std::io::{Read, Write};
use std::sync::ledger::Ledger;

/// How a push ended that no fault ended.
#[derive(Clone, Copy, Debug, PartialEq, Eq)]
pub enum PushEnd {
    /// The peer's bytes ended after its Hello.
    AfterHello,
    /// The peer's bytes ended before its Hello.
    BeforeHello,
}

/// Says all that a push says.
fn say_all<R: Read, W: Write, L: Ledger>(
    connection: &mut Connection<R, W, L>,
    session: &Session,
    delta: Delta,
) -> Result<(), Fault>
    requires goes_on { has_failed connection.old.last_write ≡ false }
    ensures says { Says connection.old.output connection.new.output (pushed_by session.now delta) result }
    ensures failed { OnlyWhereFailed result connection.new.last_write }
    ensures unread { IfErr result (λ fault. fault ≢ Fault.ReadFailed) }
    ensures kept { KeepsInput connection.old connection.new }
{
    let bye = Bye::new(REASON_ROUNDS_DONE)?;
    say(connection, session.hello())?;
    say(connection, Message::Delta(delta))?;
    say(connection, Message::Bye(bye))
}

/// Hears the peer's Hello, and waits for the end of its bytes.
fn await_end<R: Read, W: Write, L: Ledger>(
    connection: &mut Connection<R, W, L>,
    session: &mut Session,
) -> Result<PushEnd, Fault>
    ensures awaits { Awaits session.old connection.old connection.new result }
    ensures counted { connection.new.steps + connection.new.left ≡ connection.old.steps + connection.old.left }
    ensures unwritten { OnlyWhereFailed result connection.new.last_write }
    ensures read { OnlyWhereReadFailed result connection.new.read_failed }
    ensures kept { KeepsOutput connection.old connection.new }
{
    let Some(first) = connection.receive()? else {
        return Ok(PushEnd::BeforeHello);
    };
    session.take_first(&first)?;
    match connection.receive()? {
        None => Ok(PushEnd::AfterHello),
        Some(_) => Err(Fault::Closed),
    }
}

/// Pushes a delta to a peer that did not ask for it, over a connection that is open. It says Hello, the delta and Bye. Then it
/// hears the peer's Hello, and waits until the peer's bytes end. What the connection holds is heard first.
///
/// A peer that serves says nothing after its Hello, and ends the connection once it has taken the delta and the Bye. So a caller
/// may take the delta as delivered only after `AfterHello`. The answer says nothing of what the peer entered.
///
/// Its faults, and what each leaves:
///
/// - `Closed`, with nothing written, if the connection is closed after a faulty frame.
/// - `WriteFailed` with how many bytes of the last frame are written; then nothing was heard.
/// - `NoMemory`, with whole frames written.
/// - `BadMark`, `BadVersion`, `BadLength`, `UnknownKind`, `Malformed`, `ReadFailed` or `Truncated` of the peer's bytes.
/// - `TurnsSpent` if the call needs more reads than the connection has left.
/// - Those of `Session::take_first` of the peer's first message.
/// - `Closed` if the peer says more than its Hello, which is then the last that was taken out of its bytes but for that message.
///
/// After the call the connection says whether its last read and its last write failed.
pub fn push<R: Read, W: Write, L: Ledger>(
    connection: &mut Connection<R, W, L>,
    session: Session,
    delta: Delta,
) -> Result<PushEnd, Fault>
    ensures pushes { Pushes session delta connection.old connection.new result }
    ensures counted { connection.new.steps + connection.new.left ≡ connection.old.steps + connection.old.left }
    // A write that did not fail, or that was made before the call, is no reason to stop.
    ensures failed { OnlyWhereFailed result connection.new.last_write }
    // A read that was interrupted, or that was made before the call, is no reason to stop.
    ensures read { OnlyWhereReadFailed result connection.new.read_failed }
{
    let mut session = session;
    connection.start()?;
    say_all(connection, &session, delta)?;
    await_end(connection, &mut session)
}
