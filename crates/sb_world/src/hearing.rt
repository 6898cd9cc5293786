//! What a node hears on a connection, and how it replies.

ghost use Rattle.std.specs.Prelude.{◌≡◌, ℕ, ◌+◌, true, List, [], ◌∷◌, ◌++◌, length, map, OnOk, OnErr, IfErr};
ghost use Rattle.std.specs.List.{list_all};
ghost use Rattle.sb_codec.specs.Messages.{is_message};
ghost use Rattle.sb_frames.specs.Frames.{frame};
ghost use Rattle.sb_session.specs.Taking.{messages_of};
ghost use Rattle.sb_world.specs.declared.event.Item as spec;
ghost use Rattle.sb_world.specs.declared.event.Item.TheVariants.{Ended, Replied};
ghost use Rattle.sb_world.specs.Hearing.{Listener, Heard, listener_of, HearsOnce, Hears, Tells, IsFront, items_for};

use crate::event::Item;
use crate::sent::{Sent, frame_for};
use sb_codec::Message;
use sb_frames::Frames;
use sb_holdings::Report;
use sb_node::NodeCore;
use sb_session::{ReceivedMessage, Replies, Session};
use sb_types::Fault;
use std::alloc::Global;

/// Sends a message, and adds the number of its frame to the items. `NoMemory`, with nothing sent or added.
fn say(
    alloc: Global,
    message: Message,
    sent: &mut Vec<Sent>,
    items: &mut Vec<Item>,
) -> Result<(), Fault>
    ensures sent { OnOk result (sent.new.items ≡ sent.old.items ++ frame message ∷ []) }
    ensures told { OnOk result (items.new.items ≡ items.old.items ++ Replied (length sent.old.items + 1) ∷ []) }
    ensures unsent { OnErr result (sent.new.items ≡ sent.old.items) }
    ensures untold { OnErr result (items.new.items ≡ items.old.items) }
    ensures memory { IfErr result (λ fault. fault ≡ Fault.NoMemory) }
{
    items.reserve(1)?;
    sent.reserve(1)?;
    let reply = frame_for(alloc, message)?;
    sent.push_reserved(reply);
    items.push_reserved(Item::Replied(sent.len() as u64));
    Ok(())
}

/// Adds to the items how each block of a delta ended. `NoMemory`, with nothing added.
fn tell(report: &Report, items: &mut Vec<Item>) -> Result<(), Fault>
    ensures told { OnOk result (items.new.items ≡ items.old.items ++ map Ended report.now) }
    ensures untold { OnErr result (items.new.items ≡ items.old.items) }
    ensures memory { IfErr result (λ fault. fault ≡ Fault.NoMemory) }
{
    items.reserve(report.len())?;
    for end in report.ends() {
        items.push_reserved(Item::Ended(*end));
    }
    Ok(())
}

/// Sends the replies to a message, and adds what came of it to the items. `NoMemory`, with a prefix of both sent and
/// added.
fn reply(
    alloc: Global,
    replies: Replies,
    sent: &mut Vec<Sent>,
    items: &mut Vec<Item>,
) -> Result<(), Fault>
    ensures limits { list_all is_message (messages_of replies) ≡ true }
    ensures ok { OnOk result ((sent.new.items ≡ sent.old.items ++ map frame (messages_of replies)) × (items.new.items ≡ items.old.items ++ items_for (length sent.old.items) replies)) }
    ensures err { OnErr result ((frames : List (List ℕ)) × (told : List spec.Item) × (sent.new.items ≡ sent.old.items ++ frames) × (items.new.items ≡ items.old.items ++ told)
        × IsFront frames (map frame (messages_of replies)) × IsFront told (items_for (length sent.old.items) replies)) }
    ensures memory { IfErr result (λ fault. fault ≡ Fault.NoMemory) }
{
    match replies {
        Replies::Greeted | Replies::Ended(_) => Ok(()),
        Replies::Answered(delta) => {
            // Proof only, here and below: the call shows that a reply keeps its limits.
            let _ = delta.encoded_length();
            say(alloc, Message::Delta(delta), sent, items)
        }
        Replies::Exchanged(delta, digest) => {
            let _ = delta.encoded_length();
            let _ = digest.encoded_length();
            match say(alloc, Message::Delta(delta), sent, items) {
                Ok(()) => say(alloc, Message::Digest(digest), sent, items),
                Err(fault) => Err(fault),
            }
        }
        Replies::Applied(report) => tell(&report, items),
    }
}

/// Makes room for all items that a message can bring, so that nothing that is taken is lost. `NoMemory`.
fn make_room(message: &Message, items: &mut Vec<Item>) -> Result<(), Fault>
    ensures items { items.new.items ≡ items.old.items }
    ensures memory { IfErr result (λ fault. fault ≡ Fault.NoMemory) }
{
    match message {
        Message::Delta(delta) => items.reserve(delta.blocks().len())?,
        _ => items.reserve(2)?,
    }
    Ok(())
}

/// Drops a message.
pub(crate) fn lose(_message: Message) {}

/// Takes the next message that has come whole, and replies to it. Returns whether there was one. The faults of what
/// came, then those of the session, and `NoMemory`.
fn hear_next(
    alloc: Global,
    core: &mut NodeCore,
    session: &mut Session,
    frames: &mut Frames,
    sent: &mut Vec<Sent>,
    items: &mut Vec<Item>,
) -> Result<bool, Fault>
    ensures { (more : List (List ℕ)) × (told : List spec.Item) × (sent.new.items ≡ sent.old.items ++ more) × (items.new.items ≡ items.old.items ++ told)
        × HearsOnce (listener_of core.old session.old frames.old) (listener_of core.new session.new frames.new) (length sent.old.items) result more told }
{
    let message = match ReceivedMessage::taken_from(frames) {
        Ok(Some(message)) => message,
        Ok(None) => return Ok(false),
        Err(fault) => return Err(fault),
    };
    match make_room(message.message(), items) {
        Ok(()) => {}
        Err(fault) => {
            lose(message.into_message());
            return Err(fault);
        }
    }
    let replies = match session.take(message, core) {
        Ok(replies) => replies,
        Err(fault) => return Err(fault),
    };
    match reply(alloc, replies, sent, items) {
        Ok(()) => Ok(true),
        Err(fault) => Err(fault),
    }
}

/// Takes each message that has come whole, and replies to it, up to the first fault. Returns that fault.
pub(crate) fn hear(
    alloc: Global,
    core: &mut NodeCore,
    session: &mut Session,
    frames: &mut Frames,
    sent: &mut Vec<Sent>,
    items: &mut Vec<Item>,
) -> Option<Fault>
    ensures { (heard : List Heard) × (mid : Listener) × (more : List (List ℕ)) × (told : List spec.Item)
        × (sent.new.items ≡ sent.old.items ++ more) × (items.new.items ≡ items.old.items ++ told)
        × Hears (listener_of core.old session.old frames.old) heard mid
        × Tells (length sent.old.items) heard mid (listener_of core.new session.new frames.new) result told more }
{
    loop {
        match hear_next(alloc, core, session, frames, sent, items) {
            Ok(true) => {}
            Ok(false) => return None,
            Err(fault) => return Some(fault),
        }
    }
}
