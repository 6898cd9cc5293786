//! The length of a message's frame, found without making the frame.

ghost use Rattle.std.specs.Prelude.{◌≡◌, ◌+◌, ◌*◌, ◌≤◌, length};
ghost use Rattle.sb_types.specs.declared.format.TheConstants.{HEADER_LENGTH};
ghost use Rattle.sb_types.specs.declared.limits.TheConstants.{PAYLOAD_MOST, BUDGET_MOST};
ghost use Rattle.sb_codec.specs.Spelling.{optional_text, place};
ghost use Rattle.sb_codec.specs.Messages.{spelling};

use crate::message::{Ask, AskChange, Hello, Message};
use sb_types::{
    BYTE_LENGTH, HEADER_LENGTH, KEY_LENGTH_MOST, Key, NAME_LENGTH_MOST, NUMBER_LENGTH, Name,
    VALUE_LENGTH_MOST, Write,
};

/// The most bytes of the payload of an Ask: its kind, two names and two keys.
const ASK_LENGTH_MOST: u64 = BYTE_LENGTH + 2 * NAME_LENGTH_MOST + 2 * KEY_LENGTH_MOST;

/// The most bytes of the payload of an AskChange: its kind, a name, a prefix and a number.
const ASK_CHANGE_LENGTH_MOST: u64 = BYTE_LENGTH
    + NAME_LENGTH_MOST
    + KEY_LENGTH_MOST
    + NUMBER_LENGTH;

/// The most bytes of the payload of a Put: its kind, a key, a tag and a value.
const PUT_LENGTH_MOST: u64 = BYTE_LENGTH + KEY_LENGTH_MOST + BYTE_LENGTH + VALUE_LENGTH_MOST;

fn optional_name_length(name: Option<Name>) -> u64
    ensures length { result ≡ length (optional_text name) }
    ensures most { result ≤ NAME_LENGTH_MOST }
{
    match name {
        None => BYTE_LENGTH,
        Some(name) => BYTE_LENGTH + name.bytes().len() as u64,
    }
}

fn place_length(after: Option<(Name, Key)>) -> u64
    ensures length { result ≡ length (place after) }
    ensures most { result ≤ NAME_LENGTH_MOST + KEY_LENGTH_MOST }
{
    match after {
        None => BYTE_LENGTH + BYTE_LENGTH,
        Some((owner, key)) => {
            BYTE_LENGTH + owner.bytes().len() as u64 + BYTE_LENGTH + key.bytes().len() as u64
        }
    }
}

fn hello_length(hello: &Hello) -> u64
    ensures length { result ≡ length (spelling (Message.Hello hello.now)) }
    ensures most { result ≤ BYTE_LENGTH + 2 * NAME_LENGTH_MOST }
{
    let cluster_length = BYTE_LENGTH + hello.cluster.bytes().len() as u64;
    let node_length = BYTE_LENGTH + hello.node.bytes().len() as u64;
    BYTE_LENGTH + cluster_length + node_length
}

fn ask_length(ask: &Ask) -> u64
    ensures length { result ≡ length (spelling (Message.Ask ask.now)) }
    ensures most { result ≤ ASK_LENGTH_MOST }
{
    let prefix_length = BYTE_LENGTH + ask.prefix.bytes().len() as u64;
    BYTE_LENGTH + optional_name_length(ask.owner) + prefix_length + place_length(ask.after)
}

fn ask_change_length(asked: &AskChange) -> u64
    ensures length { result ≡ length (spelling (Message.AskChange asked.now)) }
    ensures most { result ≤ ASK_CHANGE_LENGTH_MOST }
{
    let prefix_length = BYTE_LENGTH + asked.prefix.bytes().len() as u64;
    BYTE_LENGTH + optional_name_length(asked.owner) + prefix_length + NUMBER_LENGTH
}

fn put_length(write: &Write) -> u64
    ensures length { result ≡ length (spelling (Message.Put write.now)) }
    ensures most { result ≤ PUT_LENGTH_MOST }
{
    let key_length = BYTE_LENGTH + write.key.bytes().len() as u64;
    BYTE_LENGTH + key_length + BYTE_LENGTH + write.slot.encoded_length()
}

pub(crate) fn payload_length(message: &Message) -> u64
    ensures length { result ≡ length (spelling message.now) }
    ensures most { result ≤ PAYLOAD_MOST }
{
    match message {
        Message::Hello(hello) => hello_length(hello),
        Message::Digest(digest) => digest.encoded_length(),
        Message::Delta(delta) => delta.encoded_length(),
        Message::Bye(_) => BYTE_LENGTH + BYTE_LENGTH,
        Message::Ask(ask) => ask_length(ask),
        Message::Rows(rows) => rows.encoded_length(),
        Message::Put(write) => put_length(write),
        Message::Done(_) => BYTE_LENGTH + NUMBER_LENGTH,
        Message::Refused(_) => BYTE_LENGTH + BYTE_LENGTH,
        Message::AskStatus(_) => BYTE_LENGTH + NUMBER_LENGTH,
        Message::NodeStatus(status) => status.encoded_length(),
        Message::AskChange(asked) => ask_change_length(asked),
        Message::Notice(_) => BYTE_LENGTH + BYTE_LENGTH,
        Message::AskAges => BYTE_LENGTH,
        Message::Ages(ages) => ages.encoded_length(),
    }
}

/// Returns how many bytes the message's whole frame has, from 7 to 65,536: its header and its one payload. It takes no
/// memory.
pub fn length(message: &Message) -> u32
    ensures length { result ≡ HEADER_LENGTH + length (spelling message.now) }
    ensures most { result ≤ BUDGET_MOST }
{
    (HEADER_LENGTH + payload_length(message)) as u32
}
