//! The serving side of a control socket: one request and one answer a connection.
ghost use Rattle.std.specs.Prelude.{◌≡◌, ◌+◌, true, false, IfOk};
ghost use Rattle.sb_types.specs.Faults.{number_of};
ghost use Rattle.sb_codec.specs.Limits.{is_version};
ghost use Rattle.sb_frames.specs.Sending.{OnlyWhereFailed, Sends, has_failed};
ghost use Rattle.sb_codec.specs.declared.message.Message.TheVariants as kinds;
ghost use Rattle.sb_log.specs.Puts.{IsSettled};
ghost use Rattle.sb_codec.specs.declared.message.Message.{Message};
ghost use Rattle.sb_frames.specs.Frames.{frame};
ghost use Rattle.sb_directory.specs.Serving.{IsLater};
ghost use Rattle.sb_run.specs.Control.{IsPutReply, IsPageReply, IsLookedUp, Answers, Controls};
ghost use Rattle.sb_frames.specs.declared.last_write.Outcome.{Outcome};
ghost use Rattle.sb_frames.specs.Connections.{KeepsOutput};
ghost use Rattle.sb_control.specs.OneMessage.{ReceivesOne, Asks};

use crate::own_writes::OwnWrites;
use crate::pool::Serving;
use crate::write_request::WriteRequest;
use sb_codec::{Ask, Done, Message, Refused};
use sb_control::{ControlRequest, receive_request};
use sb_directory::{DirectoryTag, EnteredSeat, ReaderSeat};
use sb_frames::{Connection, send};
use sb_log::WriteLog;
use sb_query::answer;
use sb_types::{
    Fault, KIND_AGES, KIND_ASK_AGES, KIND_ASK_CHANGE, KIND_ASK_STATUS, KIND_BYE, KIND_DELTA,
    KIND_DIGEST, KIND_DONE, KIND_HELLO, KIND_NODE_STATUS, KIND_NOTICE, KIND_REFUSED, KIND_ROWS,
    Settings,
};
use sb_views::NodeTag;
use std::alloc::Global;
use std::io::{Read, Write};
use std::sync::Wait;
use std::sync::ledger::Ledger;

/// The answer that names a fault.
#[tactic(auto, using(crate::proofs::Numbers::are_numbers))]
pub(crate) fn refused_by(fault: Fault) -> Message
    ensures { result ≡ kinds.Refused (number_of fault) }
{
    let Ok(refused) = Refused::new(fault.number()) else {
        unreachable!();
    };
    Message::Refused(refused)
}

/// The answer that names the version of a write.
fn done(version: u64) -> Message
    requires { is_version version ≡ true }
    ensures { result ≡ kinds.Done version }
{
    let Ok(done) = Done::new(version) else {
        unreachable!();
    };
    Message::Done(done)
}

/// The page that answers an Ask, or its refusal.
pub(crate) fn look_up<S: NodeTag>(
    alloc: Global,
    settings: &Settings,
    entered: &EnteredSeat<S>,
    ask: &Ask,
) -> Message
    ensures { IsLookedUp S.opening settings.now.budget entered.now.seen ask.now result }
{
    let snapshot = entered.snapshot();
    match answer(alloc, &snapshot, ask, settings.budget()) {
        Ok(page) => Message::Rows(page),
        Err(fault) => refused_by(fault),
    }
}

/// Answers an Ask by a page of what the seat reads; by `NoMemory` also if the seat cannot enter.
pub(crate) fn reply_to_ask<S: NodeTag>(
    alloc: Global,
    settings: &Settings,
    seat: ReaderSeat<S>,
    ask: &Ask,
) -> (ReaderSeat<S>, Message)
    ensures { IsPageReply S.opening settings.now.budget seat ask.now result.0 result.1 }
{
    match seat.enter() {
        Ok(entered) => {
            let reply = look_up(alloc, settings, &entered, ask);
            (entered.leave(), reply)
        }
        Err(seat) => (seat, refused_by(Fault::NoMemory)),
    }
}

/// Answers a Put: the log takes the write before the directory does.
pub(crate) fn reply_to_put<L: WriteLog, S: DirectoryTag, H: Wait + Drop, Q: Wait>(
    serving: &Serving<S, H, Q>,
    writes: &mut OwnWrites<L>,
    seat: &mut ReaderSeat<S>,
    asked: WriteRequest,
) -> Message
    ensures put { IsPutReply L.seen S.opening writes.old.log writes.old.owed seat.old asked.key asked.slot writes.new.log writes.new.owed seat.new result }
    ensures closes { (L.seen writes.old.log).is_open ≡ true → (L.seen writes.new.log).is_open ≡ false → writes.new.has_failed ≡ true }
    ensures settled { IsSettled (L.seen writes.old.log) (L.leaves writes.old.log) → IsSettled (L.seen writes.new.log) (L.leaves writes.new.log) }
{
    match writes.put(serving.rt, serving.directory, seat, asked) {
        Ok(stored) => done(stored.version()),
        Err(met) => refused_by(met),
    }
}

/// The answer to a request.
fn reply_to<L: WriteLog, S: DirectoryTag, H: Wait + Drop, Q: Wait>(
    serving: &Serving<S, H, Q>,
    writes: &mut OwnWrites<L>,
    seat: ReaderSeat<S>,
    request: ControlRequest,
) -> (ReaderSeat<S>, Message)
    ensures answers { Answers L.seen S.opening S.settings.budget writes.old.log writes.old.owed seat request
        writes.new.log writes.new.owed result.0 result.1 }
    ensures closes { (L.seen writes.old.log).is_open ≡ true → (L.seen writes.new.log).is_open ≡ false → writes.new.has_failed ≡ true }
    ensures settled { IsSettled (L.seen writes.old.log) (L.leaves writes.old.log) → IsSettled (L.seen writes.new.log) (L.leaves writes.new.log) }
{
    let message = match WriteRequest::of_caller(request) {
        Ok(asked) => {
            let mut seat = seat;
            let reply = reply_to_put(serving, writes, &mut seat, asked);
            return (seat, reply);
        }
        Err(message) => message,
    };
    match &message {
        Message::Ask(ask) => {
            reply_to_ask(serving.alloc, serving.directory.settings(), seat, ask)
        }
        Message::Put(_) => unreachable!(),
        Message::Hello(_) => (seat, refused_by(Fault::UnknownKind(KIND_HELLO))),
        Message::Digest(_) => (seat, refused_by(Fault::UnknownKind(KIND_DIGEST))),
        Message::Delta(_) => (seat, refused_by(Fault::UnknownKind(KIND_DELTA))),
        Message::Bye(_) => (seat, refused_by(Fault::UnknownKind(KIND_BYE))),
        Message::Rows(_) => (seat, refused_by(Fault::UnknownKind(KIND_ROWS))),
        Message::Done(_) => (seat, refused_by(Fault::UnknownKind(KIND_DONE))),
        Message::Refused(_) => (seat, refused_by(Fault::UnknownKind(KIND_REFUSED))),
        Message::AskStatus(_) => (seat, refused_by(Fault::UnknownKind(KIND_ASK_STATUS))),
        Message::NodeStatus(_) => (seat, refused_by(Fault::UnknownKind(KIND_NODE_STATUS))),
        Message::AskChange(_) => (seat, refused_by(Fault::UnknownKind(KIND_ASK_CHANGE))),
        Message::Notice(_) => (seat, refused_by(Fault::UnknownKind(KIND_NOTICE))),
        Message::AskAges => (seat, refused_by(Fault::UnknownKind(KIND_ASK_AGES))),
        Message::Ages(_) => (seat, refused_by(Fault::UnknownKind(KIND_AGES))),
    }
}

impl<S: DirectoryTag, H: Wait + Drop, Q: Wait> Serving<'_, S, H, Q> {
    /// Answers an Ask by a page of what the seat reads, or by the fault that it met, and gives the seat back. It takes no write.
    /// `WriteFailed`, with how many bytes of the answer are written; `NoMemory`, with none.
    pub fn answer_ask<W: Write>(
        &self,
        writer: &mut W,
        seat: ReaderSeat<S>,
        ask: &Ask,
    ) -> (ReaderSeat<S>, Result<(), Fault>)
        ensures answers { (reply : Message) × IsPageReply S.opening S.settings.budget seat ask.now result.0 reply
            × Sends (W.contents writer.old) (W.contents writer.new) (frame reply) result.1 }
        ensures later { IsLater seat result.0 }
    {
        let (seat, reply) = reply_to_ask(self.alloc, self.directory.settings(), seat, ask);
        let sent = send(self.alloc, writer, &reply);
        (seat, sent)
    }

    /// Answers a request that was read, and gives the seat back: as `serve_control` does. `WriteFailed`, with how many bytes of
    /// the answer are written, and `NoMemory`, with none; the request was done before.
    pub fn answer_request<W: Write, L: WriteLog>(
        &self,
        writer: &mut W,
        writes: &mut OwnWrites<L>,
        seat: ReaderSeat<S>,
        request: ControlRequest,
    ) -> (ReaderSeat<S>, Result<(), Fault>)
        ensures answers { (reply : Message) × Answers L.seen S.opening S.settings.budget writes.old.log writes.old.owed seat request writes.new.log writes.new.owed result.0 reply
            × Sends (W.contents writer.old) (W.contents writer.new) (frame reply) result.1 }
        // A log that was open and is closed now is told to have failed.
        ensures closes { (L.seen writes.old.log).is_open ≡ true → (L.seen writes.new.log).is_open ≡ false → writes.new.has_failed ≡ true }
        ensures settled { IsSettled (L.seen writes.old.log) (L.leaves writes.old.log) → IsSettled (L.seen writes.new.log) (L.leaves writes.new.log) }
    {
        let (seat, reply) = reply_to(self, writes, seat, request);
        let sent = send(self.alloc, writer, &reply);
        (seat, sent)
    }

    /// Reads one request, writes one answer, and gives the seat back. The answer to an Ask is its page. The answer to a Put is the
    /// version under which the log took the write in this call, also if the directory refused it. The answer to either may be the
    /// fault that it met, and to any other message it is the fault `UnknownKind`. After the call the connection says whether its
    /// last write failed.
    ///
    /// These faults come before anything is answered, and leave all but the connection as it was:
    ///
    /// - `Closed` if the connection is closed after a faulty frame.
    /// - `BadMark`, `BadVersion`, `BadLength`, `UnknownKind` or `Malformed` of the request.
    /// - `ReadFailed`.
    /// - `Truncated` at an end before or inside the request.
    /// - `TurnsSpent` if the call needs one more read than the connection has left.
    /// - `NoMemory`.
    ///
    /// These come after the request was done, which stays: `WriteFailed`, with how many bytes of the answer are written, and
    /// `NoMemory`, with none. So after `NoMemory` the log may have taken the write of a Put.
    pub fn serve_control<R: Read, W: Write, K: Ledger, L: WriteLog>(
        &self,
        connection: &mut Connection<R, W, K>,
        writes: &mut OwnWrites<L>,
        seat: ReaderSeat<S>,
    ) -> (ReaderSeat<S>, Result<(), Fault>)
        ensures controls { Controls ((writes.new.log ≡ writes.old.log) × (writes.new.owed ≡ writes.old.owed) × (result.0 ≡ seat))
            (λ request reply. Answers L.seen S.opening S.settings.budget writes.old.log writes.old.owed seat request writes.new.log writes.new.owed result.0 reply)
            connection.old connection.new result.1 }
        ensures counted { connection.new.steps + connection.new.left ≡ connection.old.steps + connection.old.left }
        // A write that did not fail, or that was made before the call, is no reason to stop.
        ensures failed { OnlyWhereFailed result.1 connection.new.last_write }
        // A log that was open and is closed now is told to have failed.
        ensures closes { (L.seen writes.old.log).is_open ≡ true → (L.seen writes.new.log).is_open ≡ false → writes.new.has_failed ≡ true }
        ensures settled { IsSettled (L.seen writes.old.log) (L.leaves writes.old.log) → IsSettled (L.seen writes.new.log) (L.leaves writes.new.log) }
    {
        match receive_request(connection) {
            Ok(request) => {
                let (seat, reply) = reply_to(self, writes, seat, request);
                let sent = connection.send(&reply);
                (seat, sent)
            }
            Err(fault) => (seat, Err(fault)),
        }
    }
}
