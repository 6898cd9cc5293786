//! What a service asks of a node.
ghost use Rattle.std.specs.Prelude.{◌≡◌, IfOk, IfErr};
ghost use Rattle.sb_http.specs.Acts.{asks, puts, polls, lists, measures, fails};

use crate::http_write::HttpWrite;
use crate::operation::Patience;
use sb_codec::{Ask, Message};
use sb_types::{Fault, Key, Name};

/// How far a node shows an owner.
#[derive(Clone, Copy, Debug, PartialEq, Eq)]
pub struct HeldOwner {
    pub owner: Name,
    /// The last version up to which its writes are shown.
    pub version: u64,
    /// How many rows it has.
    pub rows: u64,
    /// How many milliseconds ago the node heard it, if it knows that.
    pub age: Option<u64>,
}

/// What answers an Ask, with the mark of all rows that are asked for. Another mark says that they are others.
#[derive(Drop)]
pub struct MarkedReply {
    pub reply: Message,
    pub mark: Key,
}

/// A node, as a service asks it.
pub trait Backend {
    ghost use Rattle.sb_http.specs.Acts.{Act};

    /// By this call, the backend can change from the first state to the second.
    ghost step: { Self → Act → Self → Type 0 };

    /// Returns the message with which the node answers this question of its control socket.
    fn ask(&mut self, request: &Message) -> Message
        ensures { step self.old (asks request.now result) self.new };

    /// Asks the node for a write, and returns the message with which it answers that.
    fn put(&mut self, asked: HttpWrite) -> Message
        ensures { step self.old (puts asked result) self.new };

    /// Waits until the rows that are asked for have another mark than the one that was seen, or until the time is over. Then it
    /// returns what the node answers to the Ask, with the mark.
    fn poll(&mut self, ask: &Ask, patience: &Patience) -> Result<MarkedReply, Fault>
        ensures ok { IfOk result (λ found. step self.old (polls ask.now patience.now found.reply found.mark) self.new) }
        ensures err { IfErr result (λ fault. step self.old (fails fault) self.new) };

    /// Returns the owners that the node shows.
    fn owners(&mut self) -> Result<Vec<HeldOwner>, Fault>
        ensures ok { IfOk result (λ owners. step self.old (lists owners.items) self.new) }
        ensures err { IfErr result (λ fault. step self.old (fails fault) self.new) };

    /// Returns the metrics of the node, in the text format of Prometheus.
    fn metrics(&mut self) -> Result<Vec<u8>, Fault>
        ensures ok { IfOk result (λ text. step self.old (measures text.items) self.new) }
        ensures err { IfErr result (λ fault. step self.old (fails fault) self.new) };
}
