//! What a message means to the caller that sent a request.
ghost use Rattle.sb_query.specs.Answers.{IsNoAnswer, TellsVersion, TellsPage, TellsStatus, TellsNotice, TellsAges};

use sb_codec::{Ages, Message, NodeStatus, Notice, Rows};
use sb_types::Fault;

/// Why a message is not the answer to a request.
#[derive(Clone, Copy)]
pub enum NoAnswer {
    /// The message refuses the request, for this fault.
    Refused(Fault),
    /// The message is of this kind, which does not answer such a request.
    OtherKind(u8),
}

fn no_answer(message: &Message) -> NoAnswer
    ensures { IsNoAnswer message.now result }
{
    match message {
        Message::Refused(refused) => NoAnswer::Refused(refused.fault()),
        other => NoAnswer::OtherKind(other.kind()),
    }
}

/// Returns the version under which a write was made, from the answer to a Put. `Refused` with the fault of a Refused
/// message, in which a number that the fault carries is 0. `OtherKind` for any other message.
pub fn version_in(message: &Message) -> Result<u64, NoAnswer>
    ensures { TellsVersion message.now result }
{
    match message {
        Message::Done(done) => Ok(done.version()),
        other => Err(no_answer(other)),
    }
}

/// Returns the page that answers an Ask. `Refused` and `OtherKind` as in `version_in`.
pub fn page_in(message: Message) -> Result<Rows, NoAnswer>
    ensures { TellsPage message result }
{
    match message {
        Message::Rows(page) => Ok(page),
        other => Err(no_answer(&other)),
    }
}

/// Returns the status that answers an AskStatus. `Refused` and `OtherKind` as in `version_in`.
pub fn status_in(message: Message) -> Result<NodeStatus, NoAnswer>
    ensures { TellsStatus message result }
{
    match message {
        Message::NodeStatus(status) => Ok(status),
        other => Err(no_answer(&other)),
    }
}

/// Returns the notice that answers an AskChange. `Refused` and `OtherKind` as in `version_in`.
pub fn notice_in(message: &Message) -> Result<Notice, NoAnswer>
    ensures { TellsNotice message.now result }
{
    match message {
        Message::Notice(notice) => Ok(*notice),
        other => Err(no_answer(other)),
    }
}

/// Returns the ages that answer an AskAges. `Refused` and `OtherKind` as in `version_in`.
pub fn ages_in(message: Message) -> Result<Ages, NoAnswer>
    ensures { TellsAges message result }
{
    match message {
        Message::Ages(ages) => Ok(ages),
        other => Err(no_answer(&other)),
    }
}
