//! Who asked for an own write of the node.
ghost use Rattle.std.specs.Prelude.{◌≡◌, false, IfOk, IfErr};
ghost use Rattle.sb_codec.specs.declared.message.Message.TheVariants as kinds;
ghost use Rattle.sb_log.specs.Puts.{Puts, IsSettled};
ghost use Rattle.sb_run.specs.WriteRequests.{is_put, beat_write};

use crate::node::Beat;
use sb_codec::Message;
use sb_control::ControlRequest;
use sb_http::HttpWrite;
use sb_log::{Committed, WriteLog};
use sb_types::{Fault, Slot, Value, Write};
use std::marker::Model;

/// A write that was asked for: by a request at the control socket, by one over HTTP, or by the next beat of the node. It can't be
/// copied, so what was asked for once is written once at the most.
#[derive(Drop)]
pub struct WriteRequest {
    write: Write,
}

impl Model for WriteRequest {
    ghost use Rattle.sb_types.specs.declared.entry.Write as entries;

    ghost Value = { entries.Write };

    ghost view = { λ asked. asked.write };
}

impl WriteRequest {
    /// The write for which a request at the control socket asks. The message of the request, if it asks for no write.
    pub fn of_caller(request: ControlRequest) -> Result<WriteRequest, Message>
        ensures put { IfOk result (λ asked. request ≡ kinds.Put asked) }
        ensures other { IfErr result (λ message. (message ≡ request) × (is_put message ≡ false)) }
    {
        match request.into_message() {
            Message::Put(write) => Ok(WriteRequest { write }),
            other => Err(other),
        }
    }

    /// The write for which a request over HTTP asks.
    pub fn over_http(asked: HttpWrite) -> WriteRequest
        ensures { result ≡ asked }
    {
        WriteRequest {
            write: asked.into_write(),
        }
    }

    /// The write of this beat: true, under its key.
    pub(crate) fn of_beat(beat: &Beat) -> WriteRequest
        ensures { result ≡ beat_write beat.now }
    {
        WriteRequest {
            write: Write {
                key: beat.key,
                slot: Slot::Set(Value::flag(true)),
            },
        }
    }

    /// Puts it into a log, which uses it up. Its faults are those of `WriteLog::put`.
    pub(crate) fn put_into<L: WriteLog>(self, log: &mut L) -> Result<Committed, Fault>
        ensures puts { Puts (L.seen log.old) self.key self.slot result (L.seen log.new) }
        ensures closed { (L.seen log.old).is_open ≡ false → log.new ≡ log.old }
        ensures settled { IsSettled (L.seen log.new) (L.leaves log.new) }
    {
        log.put(&self.write.key, &self.write.slot)
    }
}
