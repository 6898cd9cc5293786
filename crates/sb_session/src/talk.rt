//! A whole session over a connection.

ghost use Rattle.std.specs.Prelude.{◌≡◌, ◌≢◌, ◌+◌, true, false, [], ◌∷◌, Some, None, IfOk, IfErr};
ghost use Rattle.sb_frames.specs.Connections.{KeepsInput};
ghost use Rattle.sb_frames.specs.Sending.{has_failed, OnlyWhereFailed};
ghost use Rattle.sb_frames.specs.Receiving.{OnlyWhereReadFailed};
ghost use Rattle.sb_session.specs.Telling.{Says};
ghost use Rattle.sb_session.specs.Taking.{messages_of, bye_of};
ghost use Rattle.sb_session.specs.Talks.{party_of, ends_round, rounds_after, Hearing, Speaking, Talks};

use crate::handler::Handler;
use crate::received::ReceivedMessage;
use crate::replies::Replies;
use crate::session::Session;
use sb_codec::{Bye, Message};
use sb_frames::Connection;
use sb_types::{Fault, REASON_ROUNDS_DONE};
use std::io::{Read, Write};
use std::sync::ledger::Ledger;

/// How a talk ended that no fault ended.
#[derive(Clone, Copy, Debug, PartialEq, Eq)]
pub enum Ended {
    /// The peer said Bye for this reason, 1 to 5.
    Bye(u8),
    /// The peer's bytes ended between two frames.
    End,
    /// All rounds were made, each an exchange of digests, and this end said Bye.
    RoundsDone,
}

/// Sends one message.
pub(crate) fn say<R: Read, W: Write, L: Ledger>(
    connection: &mut Connection<R, W, L>,
    message: Message,
) -> Result<(), Fault>
    requires goes_on { has_failed connection.old.last_write ≡ false }
    ensures says { Says connection.old.output connection.new.output (message ∷ []) result }
    ensures failed { OnlyWhereFailed result connection.new.last_write }
    ensures goes_on { IfOk result (λ _. has_failed connection.new.last_write ≡ false) }
    ensures unread { IfErr result (λ fault. fault ≢ Fault.ReadFailed) }
    ensures kept { KeepsInput connection.old connection.new }
{
    connection.send(&message)
}

/// Sends what comes of a message that was taken, and gives the reason of a Bye.
fn reply<R: Read, W: Write, L: Ledger>(
    connection: &mut Connection<R, W, L>,
    replies: Replies,
) -> Result<Option<u8>, Fault>
    requires goes_on { has_failed connection.old.last_write ≡ false }
    ensures says { Says connection.old.output connection.new.output (messages_of replies) result }
    ensures bye { IfOk result (λ bye. bye ≡ bye_of replies) }
    ensures failed { OnlyWhereFailed result connection.new.last_write }
    ensures goes_on { IfOk result (λ _. has_failed connection.new.last_write ≡ false) }
    ensures unread { IfErr result (λ fault. fault ≢ Fault.ReadFailed) }
    ensures kept { KeepsInput connection.old connection.new }
{
    match replies {
        Replies::Greeted | Replies::Applied(_) => Ok(None),
        Replies::Answered(delta) => {
            say(connection, Message::Delta(delta))?;
            Ok(None)
        }
        Replies::Exchanged(delta, digest) => {
            say(connection, Message::Delta(delta))?;
            say(connection, Message::Digest(digest))?;
            Ok(None)
        }
        Replies::Ended(bye) => Ok(Some(bye.reason())),
    }
}

/// Takes a message and answers it, and gives the reason of a Bye.
fn hear<R: Read, W: Write, L: Ledger, H: Handler>(
    connection: &mut Connection<R, W, L>,
    session: &mut Session,
    handler: &mut H,
    message: ReceivedMessage,
) -> Result<Option<u8>, Fault>
    requires goes_on { has_failed connection.old.last_write ≡ false }
    ensures hears { Hearing H.step message session.old handler.old session.new handler.new connection.old.output connection.new.output result }
    ensures failed { OnlyWhereFailed result connection.new.last_write }
    ensures goes_on { IfOk result (λ _. has_failed connection.new.last_write ≡ false) }
    ensures unread { IfErr result (λ fault. fault ≢ Fault.ReadFailed) }
    ensures kept { KeepsInput connection.old connection.new }
    ensures grows { H.grows handler.old handler.new }
{
    let replies = session.take(message, handler)?;
    reply(connection, replies)
}

/// Says what this end is to say unasked, and whether its rounds are done.
fn speak<R: Read, W: Write, L: Ledger, H: Handler>(
    connection: &mut Connection<R, W, L>,
    session: &mut Session,
    handler: &mut H,
    rounds: Option<u64>,
) -> Result<bool, Fault>
    requires goes_on { has_failed connection.old.last_write ≡ false }
    ensures speaks { Speaking H.step rounds session.old handler.old session.new handler.new connection.old.output connection.new.output result }
    ensures failed { OnlyWhereFailed result connection.new.last_write }
    ensures goes_on { IfOk result (λ _. has_failed connection.new.last_write ≡ false) }
    ensures unread { IfErr result (λ fault. fault ≢ Fault.ReadFailed) }
    ensures kept { KeepsInput connection.old connection.new }
    ensures grows { H.grows handler.old handler.new }
{
    let Some(rounds) = rounds else {
        return Ok(false);
    };
    if rounds == 0 {
        say(connection, Message::Bye(Bye::new(REASON_ROUNDS_DONE)?))?;
        return Ok(true);
    }
    let digest = session.ask(handler)?;
    say(connection, digest)?;
    Ok(false)
}

/// Whether the message ends a round: a digest that wants none in answer.
fn ends_round(message: &ReceivedMessage) -> bool
    ensures { result ≡ ends_round message.now }
{
    matches!(message.message(), Message::Digest(theirs) if !theirs.want())
}

/// The rounds that are left after a message.
fn rounds_after(ends: bool, rounds: Option<u64>) -> Option<u64>
    ensures { result ≡ rounds_after ends rounds }
{
    if ends {
        rounds.map(|left| left.saturating_sub(1))
    } else {
        rounds
    }
}

/// Says Hello, and then speaks, hears and answers until the talk ends: it begins with this session, and with
/// so many rounds if it dials.
fn talk<R: Read, W: Write, L: Ledger, H: Handler>(
    connection: &mut Connection<R, W, L>,
    first: Session,
    handler: &mut H,
    all: Option<u64>,
) -> Result<Ended, Fault>
    ensures talks { Talks H.step (party_of true all first handler.old) handler.new connection.old connection.new result }
    ensures counted { connection.new.steps + connection.new.left ≡ connection.old.steps + connection.old.left }
    // A write that did not fail, or that was made before the call, is no reason to stop.
    ensures failed { OnlyWhereFailed result connection.new.last_write }
    // A read that was interrupted, or that was made before the call, is no reason to stop.
    ensures read { OnlyWhereReadFailed result connection.new.read_failed }
    ensures grows { H.grows handler.old handler.new }
{
    let (mut session, mut rounds) = (first, all);
    connection.start()?;
    say(connection, session.hello())?;
    if speak(connection, &mut session, handler, rounds)? {
        return Ok(Ended::RoundsDone);
    }
    while let Some(message) = ReceivedMessage::read_from(connection)? {
        let ends = ends_round(&message);
        if let Some(reason) = hear(connection, &mut session, handler, message)? {
            return Ok(Ended::Bye(reason));
        }
        rounds = rounds_after(ends, rounds);
        if ends {
            if speak(connection, &mut session, handler, rounds)? {
                return Ok(Ended::RoundsDone);
            }
        }
    }
    Ok(Ended::End)
}

/// Says Hello, and answers the peer until it says Bye, or until its bytes end between two frames. What the connection holds
/// is heard first, and what it reads beyond the end of the talk stays held.
///
/// Its faults, and what each leaves:
///
/// - `Closed`, with nothing written, if the connection is closed after a faulty frame.
/// - `BadMark`, `BadVersion`, `BadLength`, `UnknownKind`, `Malformed`, `ReadFailed` or `Truncated` of the peer's bytes.
/// - `WriteFailed` with how many bytes of the last frame are written.
/// - `NoHello`, `WrongCluster`, `SameName` or `SecondHello` of the peer's messages.
/// - `UnknownKind` of a message that has no place in a session.
/// - `Closed` if the session had ended before the call.
/// - `TurnsSpent` of the handler, or if the call needs more reads than the connection has left.
/// - `NoMemory`, with whole frames written.
///
/// What was applied before the fault stays. After the call the connection says whether its last read and its last write
/// failed.
pub fn serve<R: Read, W: Write, L: Ledger, H: Handler>(
    connection: &mut Connection<R, W, L>,
    session: Session,
    handler: &mut H,
) -> Result<Ended, Fault>
    ensures talks { Talks H.step (party_of true None session handler.old) handler.new connection.old connection.new result }
    ensures counted { connection.new.steps + connection.new.left ≡ connection.old.steps + connection.old.left }
    // A write that did not fail, or that was made before the call, is no reason to stop.
    ensures failed { OnlyWhereFailed result connection.new.last_write }
    ensures read { OnlyWhereReadFailed result connection.new.read_failed }
    ensures grows { H.grows handler.old handler.new }
{
    talk(connection, session, handler, None)
}

/// The session of the end that dialed, over a connection that is open. It says Hello, and then asks `rounds` times with a
/// digest that wants one in answer. It answers whatever comes. A round is done when a digest that wants none in answer was
/// answered. After the last round it says Bye and ends. Its faults are those of `serve`.
pub fn dial<R: Read, W: Write, L: Ledger, H: Handler>(
    connection: &mut Connection<R, W, L>,
    session: Session,
    handler: &mut H,
    rounds: u64,
) -> Result<Ended, Fault>
    ensures talks { Talks H.step (party_of true (Some rounds) session handler.old) handler.new connection.old connection.new result }
    ensures counted { connection.new.steps + connection.new.left ≡ connection.old.steps + connection.old.left }
    ensures failed { OnlyWhereFailed result connection.new.last_write }
    ensures read { OnlyWhereReadFailed result connection.new.read_failed }
    ensures grows { H.grows handler.old handler.new }
{
    talk(connection, session, handler, Some(rounds))
}
