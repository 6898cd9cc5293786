//! Payloads by hand, the greatest of each kind, and bytes that are not payloads.
ghost use Rattle.std.specs.Prelude.{◌≤◌};

use crate::ages::{ask_change, two_ages};
use crate::status::{ask_status, one_status};
use crate::words::{
    AGES, ASK, ASK_AGES, ASK_BEHIND, ASK_CHANGE, ASK_STATUS, BELOW_ITS_FLOOR, BYE, DIGEST,
    DIGEST_OF_A_RANGE, DONE, EMPTY_STATUS, EVERY_SLOT, GREATEST_HEAD, GREATEST_NUMBERS, HELLO,
    LAST_ENTRY, LAST_ROW, LONGEST_ASK, LONGEST_ENTRY, LONGEST_HELLO, LONGEST_PUT, LONGEST_ROW,
    NO_AGES, NO_BLOCK, NO_ENTRY, NODE_STATUS, NOTICE, ONE_ENTRY, ONE_TEXT, PUT, PUT_OF_A_REMOVAL,
    REFUSED, ROWS, UP_TO_ITS_FLOOR, WRONG,
};
use crate::{
    entry, got, holds, key, name, one, push, refusal, same, same_at, shared, weighing, weight,
};
use bytes::Bytes;
use sb_codec::{
    Ask, Bye, Done, Hello, Message, Notice, Refused, Row, Rows, append_payload, decode_payload,
    decode_shared, encode_payload, length,
};
use sb_digest::{Digest, Pair};
use sb_types::{
    Block, Delta, Fault, KIND_DELTA, Key, Name, Prefix, SharedEntry, Slot, Value, Write,
};
use std::alloc::{AllocError, Global};
use std::process::Abort;

/// Returns the byte of two hexadecimal digits.
fn byte_of(rt: &impl Abort, digits: &[u8]) -> u8 {
    let digits = got(rt, str::from_utf8(digits));
    got(rt, u8::from_str_radix(digits, 16))
}

/// Returns the bytes that hexadecimal words stand for, unless there is no memory.
fn read_words(rt: &impl Abort, alloc: Global, words: &str) -> Result<Vec<u8>, AllocError> {
    let mut out = Vec::new(alloc);
    for word in words.split(' ') {
        for digits in word.as_bytes().chunks(2) {
            out.push(byte_of(rt, digits))?;
        }
    }
    Ok(out)
}

/// Returns the bytes that hexadecimal words stand for.
fn bytes(rt: &impl Abort, alloc: Global, words: &str) -> Vec<u8> {
    got(rt, read_words(rt, alloc, words))
}

/// Returns what the bytes that hexadecimal words stand for are read as.
fn read(rt: &impl Abort, alloc: Global, words: &str) -> Message {
    got(rt, decode_payload(alloc, &bytes(rt, alloc, words)))
}

fn is_written(alloc: Global, message: &Message, payload: &[u8]) -> Result<bool, Fault> {
    match encode_payload(alloc, message) {
        Ok(written) => Ok(written.as_slice() == payload),
        Err(fault) => Err(fault),
    }
}

/// Returns how long a message's frame is, or `None` if the bytes are not its payload.
fn length_as(alloc: Global, message: &Message, payload: &[u8]) -> Result<Option<u32>, Fault> {
    match is_written(alloc, message, payload) {
        Ok(true) => Ok(Some(length(message))),
        Ok(false) => Ok(None),
        Err(fault) => Err(fault),
    }
}

/// Returns how long the frame of the message is that the bytes are read as, or `None` if they are not its payload.
fn frame_length(alloc: Global, payload: &[u8]) -> Result<Option<u32>, Fault> {
    match decode_payload(alloc, payload) {
        Ok(message) => length_as(alloc, &message, payload),
        Err(fault) => Err(fault),
    }
}

/// Returns whether the bytes are the payload of the message, and of what they are read as.
fn is_payload(alloc: Global, message: &Message, payload: &[u8]) -> Result<bool, Fault> {
    let is_written = is_written(alloc, message, payload)?;
    Ok(is_written && frame_length(alloc, payload)? == Some(length(message)))
}

/// Returns whether the words are the payload of the message, and of what they are read as.
fn has_payload(
    rt: &impl Abort,
    alloc: Global,
    message: &Message,
    words: &str,
) -> Result<bool, Fault> {
    let payload = read_words(rt, alloc, words)?;
    is_payload(alloc, message, &payload)
}

fn assert_payload(rt: &impl Abort, alloc: Global, message: Message, words: &str) {
    holds(rt, words, got(rt, has_payload(rt, alloc, &message, words)));
}

fn one_block(rt: &impl Abort, alloc: Global) -> Result<Block, Fault> {
    let entry = SharedEntry::new(alloc, weighing(rt, b"w", 1, 5))?;
    let entries = vec![in alloc; entry]?;
    Block::new(name(rt, b"a"), 0, 0, 1, entries)
}

/// Returns the message of `ONE_ENTRY`, unless there is no memory.
fn one_entry(rt: &impl Abort, alloc: Global) -> Result<Message, Fault> {
    let blocks = vec![in alloc; one_block(rt, alloc)?]?;
    Ok(Message::Delta(Delta::new(blocks)?))
}

fn delta(rt: &impl Abort, blocks: Vec<Block>) -> Message {
    Message::Delta(got(rt, Delta::new(blocks)))
}

fn push_entry(rt: &impl Abort, entries: &mut Vec<SharedEntry>, key: &[u8], version: u64, slot: Slot)
    requires { 1 ≤ version }
{
    let alloc = *entries.allocator();
    push(
        rt,
        entries,
        shared(rt, alloc, entry(rt, key, version, slot)),
    );
}

/// Five entries: one for each kind of slot.
fn five_entries(rt: &impl Abort, alloc: Global) -> Vec<SharedEntry> {
    let mut entries = Vec::new(alloc);
    let address = got(rt, Value::addr(alloc, b"h:1"));
    push_entry(rt, &mut entries, b"a", 1, Slot::Removed);
    push_entry(rt, &mut entries, b"b", 2, Slot::Set(address));
    push_entry(rt, &mut entries, b"c", 3, Slot::Set(Value::flag(false)));
    push_entry(rt, &mut entries, b"d", 260, Slot::Set(Value::flag(true)));
    let text = got(rt, Value::text(alloc, b"h\xc3\xa9"));
    push_entry(rt, &mut entries, b"e", 261, Slot::Set(text));
    entries
}

fn every_slot(rt: &impl Abort, alloc: Global) -> Message {
    let entries = five_entries(rt, alloc);
    let block = got(rt, Block::new(name(rt, b"n1"), 0, 0, 261, entries));
    delta(rt, one(rt, alloc, block))
}

/// A block of a without entries.
fn no_entry(rt: &impl Abort, alloc: Global, floor: u64, after: u64, upto: u64) -> Message {
    let block = Block::new(name(rt, b"a"), floor, after, upto, Vec::new(alloc));
    delta(rt, one(rt, alloc, got(rt, block)))
}

/// A block of a, with floor 3 and up to 3: it has the weight 2 under y as version 2.
fn up_to_its_floor(rt: &impl Abort, alloc: Global) -> Message {
    let entry = shared(rt, alloc, weighing(rt, b"y", 2, 2));
    let entries = one(rt, alloc, entry);
    let block = got(rt, Block::new(name(rt, b"a"), 3, 0, 3, entries));
    delta(rt, one(rt, alloc, block))
}

/// A block of a, with floor 5 and up to 3: it has the weights 2 and 3 under y and z.
fn below_its_floor(rt: &impl Abort, alloc: Global) -> Message {
    let first = shared(rt, alloc, weighing(rt, b"y", 2, 2));
    let mut entries = one(rt, alloc, first);
    let last = shared(rt, alloc, weighing(rt, b"z", 3, 3));
    push(rt, &mut entries, last);
    let block = got(rt, Block::new(name(rt, b"a"), 5, 0, 3, entries));
    delta(rt, one(rt, alloc, block))
}

fn hello(rt: &impl Abort) -> Message {
    let [cluster, node] = [name(rt, b"c1"), name(rt, b"a")];
    Message::Hello(Hello { cluster, node })
}

fn pair(rt: &impl Abort, owner: &[u8], upto: u64, staged: Option<(u64, u64)>) -> Pair {
    Pair::new(name(rt, owner), upto, staged)
}

fn digest(rt: &impl Abort, alloc: Global) -> Message {
    let pairs = one(rt, alloc, pair(rt, b"a", 0, None));
    Message::Digest(got(rt, Digest::new(true, None, None, pairs)))
}

fn digest_of_a_range(rt: &impl Abort, alloc: Global) -> Message {
    let staged = pair(rt, b"c", 7, Some((9, 8)));
    let pairs = got(rt, vec![in alloc; pair(rt, b"b", 5, None), staged]);
    let (from, until) = (Some(name(rt, b"b")), Some(name(rt, b"d")));
    Message::Digest(got(rt, Digest::new(false, from, until, pairs)))
}

fn bye(rt: &impl Abort, reason: u8) -> Message {
    Message::Bye(got(rt, Bye::new(reason)))
}

fn ask(rt: &impl Abort) -> Message {
    Message::Ask(Ask {
        owner: None,
        prefix: got(rt, Prefix::read(b"")),
        after: None,
    })
}

fn ask_behind(rt: &impl Abort) -> Message {
    let owner = name(rt, b"a");
    Message::Ask(Ask {
        owner: Some(owner),
        prefix: got(rt, Prefix::read(b"w/")),
        after: Some((owner, key(rt, b"w"))),
    })
}

fn row(rt: &impl Abort, owner: &[u8], version: u64) -> Row {
    let (owner, key) = (name(rt, owner), key(rt, b"w"));
    got(rt, Row::new(owner, key, version, weight(rt, 5)))
}

fn rows(rt: &impl Abort, alloc: Global) -> Message {
    let rows = one(rt, alloc, row(rt, b"a", 1));
    Message::Rows(got(rt, Rows::new(false, rows)))
}

fn put(rt: &impl Abort) -> Message {
    let (key, slot) = (key(rt, b"w"), Slot::Set(weight(rt, 5)));
    Message::Put(Write { key, slot })
}

fn done(rt: &impl Abort, version: u64) -> Message {
    Message::Done(got(rt, Done::new(version)))
}

fn refused(rt: &impl Abort, number: u8) -> Message {
    Message::Refused(got(rt, Refused::new(number)))
}

fn assert_peer_payloads(rt: &impl Abort, alloc: Global) {
    let one_entry = got(rt, one_entry(rt, alloc));
    assert_payload(rt, alloc, one_entry, ONE_ENTRY);
    assert_payload(rt, alloc, delta(rt, Vec::new(alloc)), NO_BLOCK);
    assert_payload(rt, alloc, every_slot(rt, alloc), EVERY_SLOT);
    assert_payload(rt, alloc, hello(rt), HELLO);
    assert_payload(rt, alloc, digest(rt, alloc), DIGEST);
    assert_payload(rt, alloc, digest_of_a_range(rt, alloc), DIGEST_OF_A_RANGE);
    assert_payload(rt, alloc, bye(rt, 1), BYE);
}

fn assert_client_payloads(rt: &impl Abort, alloc: Global) {
    assert_payload(rt, alloc, ask(rt), ASK);
    assert_payload(rt, alloc, ask_behind(rt), ASK_BEHIND);
    assert_payload(rt, alloc, rows(rt, alloc), ROWS);
    assert_payload(rt, alloc, put(rt), PUT);
    assert_payload(rt, alloc, done(rt, 1), DONE);
    assert_payload(rt, alloc, refused(rt, 13), REFUSED);
    assert_payload(rt, alloc, ask_status(3), ASK_STATUS);
    let status = Message::NodeStatus(one_status(rt, alloc));
    assert_payload(rt, alloc, status, NODE_STATUS);
}

fn assert_payloads_of_changes_and_ages(rt: &impl Abort, alloc: Global) {
    assert_payload(rt, alloc, Message::AskChange(ask_change(rt)), ASK_CHANGE);
    assert_payload(rt, alloc, Message::Notice(Notice::Changed), NOTICE);
    assert_payload(rt, alloc, Message::Notice(Notice::Watching), "18 01");
    assert_payload(rt, alloc, Message::Notice(Notice::Same), "18 03");
    assert_payload(rt, alloc, Message::AskAges, ASK_AGES);
    assert_payload(rt, alloc, Message::Ages(two_ages(rt, alloc)), AGES);
}

/// Blocks with a floor, which may be above their reach. Some reach further than their last entry, and some have no
/// entries.
fn assert_floored_payloads(rt: &impl Abort, alloc: Global) {
    assert_payload(rt, alloc, up_to_its_floor(rt, alloc), UP_TO_ITS_FLOOR);
    assert_payload(rt, alloc, below_its_floor(rt, alloc), BELOW_ITS_FLOOR);
    assert_payload(rt, alloc, no_entry(rt, alloc, 2, 0, 2), NO_ENTRY);
    let greatest = no_entry(rt, alloc, u64::MAX, u64::MAX - 1, u64::MAX);
    assert_payload(rt, alloc, greatest, GREATEST_NUMBERS);
}

#[test]
fn the_payload_of_each_message(rt: HostRuntime) {
    assert_peer_payloads(&rt, rt.alloc());
    assert_client_payloads(&rt, rt.alloc());
    assert_payloads_of_changes_and_ages(&rt, rt.alloc());
    assert_floored_payloads(&rt, rt.alloc());
}

/// Returns the reason of a Bye, or `None` for another message.
fn reason_of(message: &Message) -> Option<u8> {
    match message {
        Message::Bye(bye) => Some(bye.reason()),
        _ => None,
    }
}

/// Runs the example of `Message`.
#[test]
fn the_example_of_a_message(rt: HostRuntime) {
    let alloc = rt.alloc();
    let payload = got(&rt, encode_payload(alloc, &bye(&rt, 1)));
    same(&rt, &payload.as_slice(), &b"\x04\x01".as_slice());
    let message = got(&rt, decode_payload(alloc, &payload));
    same(&rt, &reason_of(&message), &Some(1));
}

/// The parts of an entry and its block: the owner, the floor, `after`, `upto`, the key, the version and the weight.
type Said = (Name, [u64; 3], Key, u64, Option<u64>);

/// Returns the parts of a block with one entry, or `None` for another block.
fn said_by(block: &Block) -> Option<Said> {
    let [entry] = block.entries() else {
        return None;
    };
    let weight = match entry.slot() {
        Slot::Set(value) => value.as_weight(),
        Slot::Removed => None,
    };
    let (owner, key) = (*block.owner(), *entry.key());
    let numbers = [block.floor(), block.after(), block.upto()];
    Some((owner, numbers, key, entry.version(), weight))
}

/// Returns the parts of a delta with one entry, or `None` for another message.
fn said(message: &Message) -> Option<Said> {
    match message {
        Message::Delta(delta) => match delta.blocks() {
            [block] => said_by(block),
            _ => None,
        },
        _ => None,
    }
}

/// Returns how many blocks a delta has, or `None` for another message.
fn block_count(message: &Message) -> Option<usize> {
    match message {
        Message::Delta(delta) => Some(delta.blocks().len()),
        _ => None,
    }
}

fn blocks_in(rt: &impl Abort, alloc: Global, words: &str) -> Option<usize> {
    block_count(&read(rt, alloc, words))
}

fn said_in(rt: &impl Abort, alloc: Global, words: &str) -> Option<Said> {
    said(&read(rt, alloc, words))
}

#[test]
fn what_a_delta_says(rt: HostRuntime) {
    same(&rt, &blocks_in(&rt, rt.alloc(), NO_BLOCK), &Some(0));
    let a = name(&rt, b"a");
    let entry = (a, [0, 0, 1], key(&rt, b"w"), 1, Some(5));
    same(&rt, &said_in(&rt, rt.alloc(), ONE_ENTRY), &Some(entry));
    let floored = (a, [3, 0, 3], key(&rt, b"y"), 2, Some(2));
    let found = said_in(&rt, rt.alloc(), UP_TO_ITS_FLOOR);
    same(&rt, &found, &Some(floored));
}

/// Returns the parts of the last pair of a digest, or `None` for another message. They are the owner, its held version,
/// and the floor and the progress of its stage.
fn last_pair(message: &Message) -> Option<(Name, [u64; 3])> {
    match message {
        Message::Digest(digest) => match digest.pairs() {
            [.., pair] => Some((pair.owner, [pair.upto, pair.staged_floor, pair.progress])),
            [] => None,
        },
        _ => None,
    }
}

#[test]
fn what_a_digest_says(rt: HostRuntime) {
    let found = last_pair(&read(&rt, rt.alloc(), DIGEST_OF_A_RANGE));
    same(&rt, &found, &Some((name(&rt, b"c"), [7, 9, 8])));
}

fn append(rt: &impl Abort, out: &mut Vec<u8>, message: Message) {
    got(rt, append_payload(out, &message));
}

/// The payloads of a Bye, a Done and a Refused, one after another.
fn three_payloads(rt: &impl Abort, alloc: Global) -> Vec<u8> {
    let mut out = bytes(rt, alloc, BYE);
    append(rt, &mut out, done(rt, 1));
    append(rt, &mut out, refused(rt, 13));
    out
}

#[test]
fn payloads_one_behind_the_other(rt: HostRuntime) {
    let found = three_payloads(&rt, rt.alloc());
    let wanted = bytes(&rt, rt.alloc(), "04 01 13 0000000000000001 14 0d");
    same(&rt, &found.as_slice(), &wanted.as_slice());
}

/// Asserts how long the frame is of what the words are read as.
fn assert_length(rt: &impl Abort, alloc: Global, words: &str, wanted: u32) {
    let found = frame_length(alloc, &bytes(rt, alloc, words));
    same_at(rt, &words, &got(rt, found), &Some(wanted));
}

const LENGTHS: &[(&str, u32)] = &[
    (HELLO, 12),
    (DIGEST, 38),
    (DIGEST_OF_A_RANGE, 66),
    (ONE_ENTRY, 56),
    (ONE_TEXT, 53),
    (UP_TO_ITS_FLOOR, 56),
    (NO_ENTRY, 37),
    (BELOW_ITS_FLOOR, 75),
    (GREATEST_NUMBERS, 37),
    (NO_BLOCK, 9),
    (EVERY_SLOT, 104),
    (BYE, 8),
    (ASK, 11),
    (ASK_BEHIND, 16),
    (ROWS, 31),
    (PUT, 18),
    (PUT_OF_A_REMOVAL, 10),
    (DONE, 15),
    (REFUSED, 8),
    (ASK_STATUS, 15),
    (NODE_STATUS, 57),
    (ASK_CHANGE, 22),
    (NOTICE, 8),
    (ASK_AGES, 7),
    (AGES, 29),
    (NO_AGES, 9),
    (EMPTY_STATUS, 18),
    (LONGEST_HELLO, 73),
    (LONGEST_ASK, 203),
    (LONGEST_ROW, 631),
    (LONGEST_PUT, 587),
    (LONGEST_ENTRY, 656),
];

#[test]
fn the_length_of_each_frame(rt: HostRuntime) {
    for (words, wanted) in LENGTHS.iter() {
        assert_length(&rt, rt.alloc(), words, *wanted);
    }
}

/// Appends a number as a text of 32 digits, and as 8 bytes.
fn append_number(rt: &impl Abort, out: &mut Vec<u8>, number: u64) {
    let alloc = *out.allocator();
    let digits = got(rt, format!(in alloc; "{number:032}"));
    got(rt, out.extend_from_slice(digits.as_bytes()));
    got(rt, out.extend_from_slice(&number.to_be_bytes()));
}

fn append_words(rt: &impl Abort, out: &mut Vec<u8>, words: &str) {
    let bytes = bytes(rt, *out.allocator(), words);
    got(rt, out.extend_from_slice(&bytes));
}

/// Appends the numbers from 1 on, each between the same bytes.
fn append_numbered(rt: &impl Abort, out: &mut Vec<u8>, count: u64, before: &[u8], behind: &[u8]) {
    for number in 1..=count {
        got(rt, out.extend_from_slice(before));
        append_number(rt, out, number);
        got(rt, out.extend_from_slice(behind));
    }
}

/// Appends the numbers from 1 on, each between the same words.
fn append_list(rt: &impl Abort, out: &mut Vec<u8>, count: u64, before: &str, behind: &str) {
    let alloc = *out.allocator();
    let before = bytes(rt, alloc, before);
    let behind = bytes(rt, alloc, behind);
    append_numbered(rt, out, count, &before, &behind);
}

/// 1,309 entries of 50 bytes and one of 49, after 31 bytes: 65,530 bytes.
fn greatest_delta(rt: &impl Abort, alloc: Global) -> Vec<u8> {
    let mut out = bytes(rt, alloc, GREATEST_HEAD);
    append_list(rt, &mut out, 1_309, "20", "02 0000000000000005");
    append_words(rt, &mut out, LAST_ENTRY);
    out
}

/// 1,259 rows of 52 bytes and one of 58, after 4 bytes: 65,530 bytes.
fn greatest_rows(rt: &impl Abort, alloc: Global) -> Vec<u8> {
    let mut out = bytes(rt, alloc, "11 00 04ec");
    append_list(rt, &mut out, 1_259, "0161 20", "02 0000000000000005");
    append_words(rt, &mut out, LAST_ROW);
    out
}

/// 1,024 pairs of 57 bytes, after 6 bytes: 58,374 bytes.
fn greatest_digest(rt: &impl Abort, alloc: Global) -> Vec<u8> {
    let mut out = bytes(rt, alloc, "02 00 00 00 0400");
    append_list(
        rt,
        &mut out,
        1_024,
        "20",
        "0000000000000000 0000000000000000",
    );
    out
}

/// Asserts the length of the payload, and of the frame of what it is read as.
fn assert_lengths(rt: &impl Abort, alloc: Global, payload: &[u8], wanted: (usize, u32)) {
    let frame = got(rt, frame_length(alloc, payload));
    let found = (payload.len(), frame);
    same(rt, &found, &(wanted.0, Some(wanted.1)));
}

#[test]
fn the_greatest_payloads(rt: HostRuntime) {
    let alloc = rt.alloc();
    let [full, digest] = [(65_530, 65_536), (58_374, 58_380)];
    assert_lengths(&rt, alloc, &greatest_delta(&rt, alloc), full);
    assert_lengths(&rt, alloc, &greatest_rows(&rt, alloc), full);
    assert_lengths(&rt, alloc, &greatest_digest(&rt, alloc), digest);
}

/// The parts of a row: the owner, the key, the version, the weight and the length.
type RowParts = (Name, Key, u64, Option<u64>, u64);

fn row_parts(row: &Row) -> RowParts {
    let (owner, key) = (*row.owner(), *row.key());
    let weight = row.value().as_weight();
    (owner, key, row.version(), weight, row.encoded_length())
}

/// A page: whether more rows follow, its length, how many rows it has, and the first of them.
type Page = (bool, u64, usize, Option<RowParts>);

fn page_parts(rows: &Rows) -> Page {
    let first = match rows.rows().first() {
        Some(row) => Some(row_parts(row)),
        None => None,
    };
    let count = rows.rows().len();
    (rows.more(), rows.encoded_length(), count, first)
}

fn page(rt: &impl Abort, alloc: Global) -> Rows {
    let mut rows = one(rt, alloc, row(rt, b"a", 3));
    push(rt, &mut rows, row(rt, b"b", 1));
    got(rt, Rows::new(true, rows))
}

fn assert_number(rt: &impl Abort, number: u8) {
    let refused = got(rt, Refused::new(number));
    same(rt, &refused.number(), &number);
}

#[test]
fn what_messages_say(rt: HostRuntime) {
    same(&rt, &got(&rt, Bye::new(5)).reason(), &5);
    same(&rt, &got(&rt, Done::new(7)).version(), &7);
    assert_number(&rt, 30);
    assert_number(&rt, 31);
    let found = page_parts(&page(&rt, rt.alloc()));
    let first = (name(&rt, b"a"), key(&rt, b"w"), 3, Some(5), 21);
    same(&rt, &found, &(true, 46, 2, Some(first)));
}

/// Asserts that the words are not a payload, and are refused as malformed of their kind.
fn assert_wrong(rt: &impl Abort, alloc: Global, words: &str) {
    let payload = bytes(rt, alloc, words);
    let found = refusal(rt, decode_payload(alloc, &payload));
    let wanted = match payload.first() {
        Some(kind) => Some(Fault::Malformed(*kind)),
        None => None,
    };
    same_at(rt, &words, &found, &wanted);
}

#[test]
fn payloads_that_break_the_format(rt: HostRuntime) {
    for words in WRONG {
        assert_wrong(&rt, rt.alloc(), words);
    }
}

/// A delta of one entry with a text that is one byte too long.
fn too_long_a_text(rt: &impl Abort, alloc: Global) -> Vec<u8> {
    let front =
        "03 0001 0161 0000000000000000 0000000000000000 0000000000000001 0001 0174 0000000000000001 04 0201";
    let mut out = bytes(rt, alloc, front);
    got(rt, out.extend_from_slice(&[b'h'; 513]));
    out
}

#[test]
fn a_text_that_is_too_long(rt: HostRuntime) {
    let payload = too_long_a_text(&rt, rt.alloc());
    let found = refusal(&rt, decode_payload(rt.alloc(), &payload));
    same(&rt, &found, &Some(Fault::Malformed(KIND_DELTA)));
}

/// Asserts that the first `len` bytes are refused as malformed.
fn assert_part(rt: &impl Abort, alloc: Global, whole: &[u8], len: usize) {
    let front = whole.get(..len).unwrap_or(&[]);
    let found = refusal(rt, decode_payload(alloc, front));
    same_at(rt, &front, &found, &Some(Fault::Malformed(KIND_DELTA)));
}

#[test]
fn parts_of_a_delta(rt: HostRuntime) {
    let whole = bytes(&rt, rt.alloc(), ONE_ENTRY);
    for len in 1..whole.len() {
        assert_part(&rt, rt.alloc(), &whole, len);
    }
}

fn assert_unknown(rt: &impl Abort, alloc: Global, kind: u8, payload: &[u8]) {
    let found = decode_payload(alloc, payload).err();
    same_at(rt, &payload, &found, &Some(Fault::UnknownKind(kind)));
}

/// Whatever memory there is, an unknown kind is refused before any is asked for.
#[test]
fn payloads_of_unknown_kinds(rt: HostRuntime) {
    let alloc = rt.alloc();
    assert_unknown(&rt, alloc, 0x00, b"");
    assert_unknown(&rt, alloc, 0x00, b"\x00");
    assert_unknown(&rt, alloc, 0x05, b"\x05\x01");
    assert_unknown(&rt, alloc, 0x0f, b"\x0f");
    assert_unknown(&rt, alloc, 0x1b, b"\x1b\x01");
    assert_unknown(&rt, alloc, 0x55, b"\x55");
    assert_unknown(&rt, alloc, 0xff, b"\xff");
}

/// The bytes that hexadecimal words stand for, in a shared buffer.
fn shared_payload(rt: &impl Abort, alloc: Global, words: &str) -> Bytes {
    let payload = bytes(rt, alloc, words);
    got(rt, Bytes::copy_from_slice(alloc, &payload))
}

/// Returns how long the frame of the message is that shared bytes are read as.
fn shared_length(alloc: Global, payload: Bytes) -> Result<u32, Fault> {
    match decode_shared(alloc, payload) {
        Ok(message) => Ok(length(&message)),
        Err(fault) => Err(fault),
    }
}

/// Asserts that the words in shared bytes are read as a message with a frame of this length, or have this fault.
fn assert_shared(rt: &impl Abort, alloc: Global, words: &str, wanted: Result<u32, Fault>) {
    let found = shared_length(alloc, shared_payload(rt, alloc, words));
    same_at(rt, &words, &found, &wanted);
}

#[test]
fn payloads_in_shared_bytes(rt: HostRuntime) {
    let alloc = rt.alloc();
    assert_shared(&rt, alloc, ONE_ENTRY, Ok(56));
    assert_shared(&rt, alloc, HELLO, Ok(12));
    assert_shared(&rt, alloc, DIGEST, Ok(38));
    assert_shared(&rt, alloc, BYE, Ok(8));
    assert_shared(&rt, alloc, ROWS, Ok(31));
    assert_shared(&rt, alloc, PUT, Ok(18));
    assert_shared(&rt, alloc, NODE_STATUS, Ok(57));
    assert_shared(&rt, alloc, "03 0001", Err(Fault::Malformed(KIND_DELTA)));
    assert_shared(&rt, alloc, "55", Err(Fault::UnknownKind(0x55)));
}

/// Returns whether the message of `ONE_ENTRY` has that payload.
fn is_one_written(rt: &impl Abort, alloc: Global) -> Result<bool, Fault> {
    match one_entry(rt, alloc) {
        Ok(message) => has_payload(rt, alloc, &message, ONE_ENTRY),
        Err(fault) => Err(fault),
    }
}

/// Returns whether this was found, or there was no memory.
fn is_found<T: Copy + PartialEq>(found: Result<T, Fault>, wanted: T) -> bool {
    match found {
        Ok(found) => found == wanted,
        Err(fault) => fault == Fault::NoMemory,
    }
}

/// Asserts how long the frame is of what the words are read as, unless there was no memory.
fn assert_read(rt: &impl Abort, alloc: Global, words: &str, wanted: u32) {
    if let Ok(payload) = read_words(rt, alloc, words) {
        let found = frame_length(alloc, &payload);
        holds(rt, words, is_found(found, Some(wanted)));
    }
}

/// Passes with any one allocation refused. Each call then returns `NoMemory`, or what it returns with memory.
#[test]
fn refused_allocations(rt: HostRuntime) {
    let alloc = rt.alloc();
    holds(&rt, ONE_ENTRY, is_found(is_one_written(&rt, alloc), true));
    assert_read(&rt, alloc, ONE_ENTRY, 56);
    assert_read(&rt, alloc, ONE_TEXT, 53);
    assert_read(&rt, alloc, HELLO, 12);
    assert_read(&rt, alloc, DIGEST_OF_A_RANGE, 66);
    assert_read(&rt, alloc, BYE, 8);
    assert_read(&rt, alloc, ASK_BEHIND, 16);
    assert_read(&rt, alloc, ROWS, 31);
    assert_read(&rt, alloc, PUT, 18);
    assert_read(&rt, alloc, DONE, 15);
    assert_read(&rt, alloc, REFUSED, 8);
    assert_read(&rt, alloc, ASK_STATUS, 15);
    assert_read(&rt, alloc, NODE_STATUS, 57);
    assert_read(&rt, alloc, ASK_CHANGE, 22);
    assert_read(&rt, alloc, AGES, 29);
}
