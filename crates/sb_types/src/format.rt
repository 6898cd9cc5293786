//! The numbers of the format, each in this file alone. They are the first bytes of a frame, the kinds of messages, the
//! tags of slots and the reasons of a Bye. The lengths of the parts of a message are here too.

use crate::limits::{KEY_MOST, NAME_MOST, SHORT_TEXT_MOST, TEXT_MOST};

/// The first byte of a frame.
pub const FRAME_MARK: u8 = 0xa7;

/// The second byte of a frame, the version of the format.
pub const FRAME_VERSION: u8 = 3;

/// How many bytes of a frame come before its payload.
pub const HEADER_LENGTH: u64 = 6;

/// The kind of a Hello. A kind is the first byte of a payload.
pub const KIND_HELLO: u8 = 0x01;

/// The kind of a digest.
pub const KIND_DIGEST: u8 = 0x02;

/// The kind of a delta.
pub const KIND_DELTA: u8 = 0x03;

/// The kind of a Bye.
pub const KIND_BYE: u8 = 0x04;

/// The kind of an Ask.
pub const KIND_ASK: u8 = 0x10;

/// The kind of Rows.
pub const KIND_ROWS: u8 = 0x11;

/// The kind of a Put.
pub const KIND_PUT: u8 = 0x12;

/// The kind of a Done.
pub const KIND_DONE: u8 = 0x13;

/// The kind of a Refused.
pub const KIND_REFUSED: u8 = 0x14;

/// The kind of an AskStatus.
pub const KIND_ASK_STATUS: u8 = 0x15;

/// The kind of a NodeStatus.
pub const KIND_NODE_STATUS: u8 = 0x16;

/// The kind of an AskChange.
pub const KIND_ASK_CHANGE: u8 = 0x17;

/// The kind of a Notice.
pub const KIND_NOTICE: u8 = 0x18;

/// The kind of an AskAges.
pub const KIND_ASK_AGES: u8 = 0x19;

/// The kind of Ages.
pub const KIND_AGES: u8 = 0x1a;

/// The tag of a tombstone, the marker of a removed key. It has no value.
pub const TAG_REMOVED: u8 = 0;

/// The tag of an address.
pub const TAG_ADDR: u8 = 1;

/// The tag of a weight.
pub const TAG_WEIGHT: u8 = 2;

/// The tag of a flag.
pub const TAG_FLAG: u8 = 3;

/// The tag of a text.
pub const TAG_TEXT: u8 = 4;

/// The reason of a Bye that a node sends when its rounds are done.
pub const REASON_ROUNDS_DONE: u8 = 1;

/// The greatest reason of a Bye.
pub const REASON_MOST: u8 = 5;

/// How many bytes each of these takes: a kind, a tag, a flag, a reason and a notice. The number of a fault or of a figure
/// takes as many, and so does the state of a peer. The length of a name, of a key, of an address or of a short text does
/// too.
pub const BYTE_LENGTH: u64 = 1;

/// How many bytes each of these takes: a count of a list, and the length of a text.
pub const COUNT_LENGTH: u64 = 2;

/// How many bytes each of these takes: a version, a weight, the value of a figure, the number of a round, and a time.
pub const NUMBER_LENGTH: u64 = 8;

/// The most bytes that a name takes, its length included.
pub const NAME_LENGTH_MOST: u64 = BYTE_LENGTH + NAME_MOST as u64;

/// The most bytes that a key takes, its length included.
pub const KEY_LENGTH_MOST: u64 = BYTE_LENGTH + KEY_MOST as u64;

/// The most bytes that a short text takes, its length included.
pub const SHORT_TEXT_LENGTH_MOST: u64 = BYTE_LENGTH + SHORT_TEXT_MOST as u64;

/// The most bytes that a value takes: those of a text, its length included.
pub const VALUE_LENGTH_MOST: u64 = COUNT_LENGTH + TEXT_MOST as u64;

/// The most bytes that an entry takes: a key, a version, a tag and a value.
pub const ENTRY_LENGTH_MOST: u64 = KEY_LENGTH_MOST
    + NUMBER_LENGTH
    + BYTE_LENGTH
    + VALUE_LENGTH_MOST;

/// The most bytes that a block takes before its entries: a name, three versions and a count.
pub const BLOCK_HEAD_MOST: u64 = NAME_LENGTH_MOST + 3 * NUMBER_LENGTH + COUNT_LENGTH;
