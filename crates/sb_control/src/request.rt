//! A request that was read.
ghost use Rattle.std.specs.Prelude.{◌≡◌};

use sb_codec::Message;
use std::marker::Model;

/// A request that was read. Only reading makes one, and it can't be copied. So a node that asks for one with each of its own
/// writes makes at most one for each request.
#[derive(Debug, Drop)]
pub struct ControlRequest {
    message: Message,
}

impl Model for ControlRequest {
    ghost use Rattle.sb_codec.specs.declared.message.Message as messages;

    ghost Value = { messages.Message };

    ghost view = { λ request. request.message };
}

impl ControlRequest {
    /// The request that this message is, which was read.
    pub(crate) fn new(message: Message) -> ControlRequest
        ensures { result ≡ message }
    {
        ControlRequest { message }
    }

    /// What it says.
    pub fn message(&self) -> &Message
        ensures { result.now ≡ self.now }
    {
        &self.message
    }

    /// The same, as a message that anybody may make.
    pub fn into_message(self) -> Message
        ensures { result ≡ self }
    {
        let ControlRequest { message } = self;
        message
    }
}
