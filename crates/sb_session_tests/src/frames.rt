//! Frames written out by hand, in any pieces and through any writer.

use crate::wire::{greatest_frame, joined};
use crate::{got, name, same, same_at};
use sb_codec::{Bye, Hello, Message};
use sb_frames::{Frames, send, send_telling};
use sb_testing::wire::{BYE, DELTA_A, DELTA_DESCENDING, DIGEST_A, HELLO_A};
use sb_types::{Block, Delta, Entry, Fault, Key, SharedEntry, Slot, Value};
use std::alloc::Global;
use std::io::{self, ErrorKind, Write};
use std::process::Abort;

/// One block of the owner a, after 0, with the weight 5 under w as version 1.
pub(crate) const FRAME: &[u8] = &DELTA_A;

/// Hello of a node of a cluster whose name has 33 bytes.
const LONG_CLUSTER: &[u8] = b"\xa7\x03\x00\x00\x00\x25\x01\
    \x21abcdefghijklmnopqrstuvwxyz-012345\x01a";

/// A writer that takes a few bytes in each write, and fails if it has no room. Before each of these writes it is
/// interrupted so often.
#[derive(Drop)]
struct Narrow {
    bytes: Vec<u8>,
    most: usize,
    room: usize,
    interruptions: u32,
    interrupted: u32,
}

impl Narrow {
    fn new(alloc: Global, most: usize, room: usize) -> Narrow {
        Narrow {
            bytes: Vec::new(alloc),
            most,
            room,
            interruptions: 0,
            interrupted: 0,
        }
    }

    fn has_written(&self, expected: &[u8]) -> bool {
        self.bytes.as_slice() == expected
    }
}

impl Write for Narrow {
    fn write(&mut self, buf: &[u8]) -> io::Result<usize> {
        if self.interrupted < self.interruptions {
            self.interrupted += 1;
            return Err(ErrorKind::Interrupted.into());
        }
        self.interrupted = 0;
        let room = self.room.saturating_sub(self.bytes.len());
        if room == 0 {
            return Err(ErrorKind::BrokenPipe.into());
        }
        let taken = buf.get(..self.most.min(room)).unwrap_or(buf);
        // Tries once more if memory was refused, as below.
        if self.bytes.extend_from_slice(taken).is_err() {
            self.bytes.extend_from_slice(taken)?;
        }
        Ok(taken.len())
    }

    fn flush(&mut self) -> io::Result<()> {
        Ok(())
    }
}

// Each call is made once more if memory was refused: nothing may have changed.

fn fed(frames: &mut Frames, piece: &[u8]) -> Result<(), Fault> {
    match frames.feed(piece) {
        Err(Fault::NoMemory) => frames.feed(piece),
        answer => answer,
    }
}

pub(crate) fn taken(frames: &mut Frames) -> Result<Option<Message>, Fault> {
    match frames.next() {
        Err(Fault::NoMemory) => frames.next(),
        answer => answer,
    }
}

pub(crate) fn feed(rt: &impl Abort, frames: &mut Frames, piece: &[u8]) {
    got(rt, fed(frames, piece));
}

/// Whether a message comes next. The message is dropped.
fn has_next(rt: &impl Abort, frames: &mut Frames) -> bool {
    got(rt, taken(frames)).is_some()
}

/// Returns the next message, which must come.
fn next(rt: &impl Abort, frames: &mut Frames) -> Message {
    match got(rt, taken(frames)) {
        Some(message) => message,
        None => got(rt, Err(Fault::Truncated)),
    }
}

fn sent<W: Write>(alloc: Global, writer: &mut W, message: &Message) -> Result<(), Fault> {
    match send(alloc, writer, message) {
        Err(Fault::NoMemory) => send(alloc, writer, message),
        answer => answer,
    }
}

/// Sends a message to a writer that takes `most` bytes in a write and has room for `room`. Returns the answer, and
/// whether the writer then has exactly `written`.
fn sent_to(
    alloc: Global,
    message: &Message,
    most: usize,
    room: usize,
    written: &[u8],
) -> (Result<(), Fault>, bool) {
    let mut narrow = Narrow::new(alloc, most, room);
    let answer = sent(alloc, &mut narrow, message);
    (answer, narrow.has_written(written))
}

/// Whether exactly the frame goes out.
fn goes_out_as(rt: &impl Abort, alloc: Global, message: &Message, frame: &[u8]) -> bool {
    let (answer, has_written) = sent_to(alloc, message, 1, 64, frame);
    got(rt, answer);
    has_written
}

/// The block that `FRAME` spells.
fn block(rt: &impl Abort, alloc: Global) -> Block {
    let (key, weight) = (got(rt, Key::read(b"w")), got(rt, Value::weight(5)));
    let entry = Entry::new(key, 1, Slot::Set(weight));
    let shared = got(rt, SharedEntry::new(alloc, entry));
    let entries = got(rt, vec![in alloc; shared]);
    got(rt, Block::new(name(rt, b"a"), 0, 0, 1, entries))
}

/// The message that `FRAME` spells.
fn message(rt: &impl Abort, alloc: Global) -> Message {
    let blocks = got(rt, vec![in alloc; block(rt, alloc)]);
    Message::Delta(got(rt, Delta::new(blocks)))
}

/// Whether a message comes next. It must be that of `FRAME`.
fn comes(rt: &impl Abort, alloc: Global, frames: &mut Frames) -> bool {
    match got(rt, taken(frames)) {
        Some(message) => {
            same(rt, &goes_out_as(rt, alloc, &message, FRAME), &true);
            true
        }
        None => false,
    }
}

/// How many messages come next, up to four.
fn count_messages(rt: &impl Abort, alloc: Global, frames: &mut Frames) -> usize {
    for count in 0..4usize {
        if !comes(rt, alloc, frames) {
            return count;
        }
    }
    4
}

/// How many messages come after this piece.
fn count_behind(rt: &impl Abort, alloc: Global, frames: &mut Frames, piece: &[u8]) -> usize {
    feed(rt, frames, piece);
    count_messages(rt, alloc, frames)
}

/// How many messages come before the last byte of `FRAME`, which comes byte by byte, and how many after it.
fn count_in_bytes(rt: &impl Abort, alloc: Global, frames: &mut Frames) -> [usize; 2] {
    let mut early = 0_usize;
    for byte in FRAME {
        early = early.saturating_add(count_messages(rt, alloc, frames));
        feed(rt, frames, &[*byte]);
    }
    [early, count_messages(rt, alloc, frames)]
}

/// How many messages come after all but the last byte of `FRAME`, after its last byte, after two frames at once, and
/// after nothing.
fn count_in_pieces(rt: &impl Abort, alloc: Global, frames: &mut Frames) -> [usize; 4] {
    let (front, last) = FRAME.split_at(55);
    [
        count_behind(rt, alloc, frames, front),
        count_behind(rt, alloc, frames, last),
        count_behind(rt, alloc, frames, &joined(rt, alloc, &[FRAME, FRAME])),
        count_behind(rt, alloc, frames, b""),
    ]
}

#[test]
fn a_frame_in_any_pieces(rt: HostRuntime) {
    let alloc = rt.alloc();
    same(&rt, &FRAME.len(), &56);
    let mut frames = Frames::new(alloc);
    same(&rt, &count_in_bytes(&rt, alloc, &mut frames), &[0, 1]);
    let found = count_in_pieces(&rt, alloc, &mut frames);
    same(&rt, &found, &[0, 1, 2, 0]);
}

/// Tests that so many bytes are held before a message is asked for, and whether one comes.
fn is_held(rt: &impl Abort, frames: &mut Frames, count: usize, comes: bool) {
    let held = frames.held();
    same(rt, &(held, has_next(rt, frames)), &(count, comes));
}

/// Returns what an end would be there, the fault if a frame comes instead, and how many bytes are then held.
fn broken_off(rt: &impl Abort, frames: &mut Frames) -> (Result<(), Fault>, Option<Fault>, usize) {
    let end = frames.end();
    feed(rt, frames, FRAME);
    let fault = taken(frames).err();
    (end, fault, frames.held())
}

#[test]
fn what_was_not_handed_out_is_held(rt: HostRuntime) {
    let mut frames = Frames::new(rt.alloc());
    feed(&rt, &mut frames, FRAME);
    feed(&rt, &mut frames, FRAME);
    feed(&rt, &mut frames, &FRAME[..17]);
    is_held(&rt, &mut frames, 129, true);
    is_held(&rt, &mut frames, 73, true);
    is_held(&rt, &mut frames, 17, false);
    let wanted = (Err(Fault::Truncated), Some(Fault::Malformed(3)), 0);
    same(&rt, &broken_off(&rt, &mut frames), &wanted);
}

/// Reads the frame, which must be one message.
fn read(rt: &impl Abort, alloc: Global, frame: &[u8]) -> Message {
    let mut frames = Frames::new(alloc);
    feed(rt, &mut frames, frame);
    let message = next(rt, &mut frames);
    same(rt, &has_next(rt, &mut frames), &false);
    message
}

/// Whether it is the Hello that `HELLO_A` spells.
fn is_hello(message: Message) -> bool {
    let Message::Hello(hello) = &message else {
        return false;
    };
    hello.cluster.bytes() == b"c1".as_slice() && hello.node.bytes() == b"a".as_slice()
}

/// Whether it is the digest that `DIGEST_A` spells.
fn is_digest(message: Message) -> bool {
    let Message::Digest(digest) = &message else {
        return false;
    };
    let [pair] = digest.pairs() else {
        return false;
    };
    let is_whole = digest.from().is_none() && digest.until().is_none();
    let is_new = [pair.upto, pair.staged_floor, pair.progress] == [0, 0, 0];
    digest.want() && is_whole && pair.owner.bytes() == b"a".as_slice() && is_new
}

/// Whether it is the Bye that `BYE` spells.
fn is_bye(message: Message) -> bool {
    matches!(&message, Message::Bye(bye) if bye.reason() == 1)
}

/// The Hello that `HELLO_A` spells.
fn hello(rt: &impl Abort) -> Message {
    Message::Hello(Hello {
        cluster: name(rt, b"c1"),
        node: name(rt, b"a"),
    })
}

/// The Bye that `BYE` spells.
fn bye(rt: &impl Abort) -> Message {
    Message::Bye(got(rt, Bye::new(1)))
}

/// Tests that the message goes out as this frame.
fn is_spelled(rt: &impl Abort, alloc: Global, message: Message, frame: &[u8]) {
    let is_spelled = goes_out_as(rt, alloc, &message, frame);
    same_at(rt, &frame, &is_spelled, &true);
}

#[test]
fn frames_of_other_kinds(rt: HostRuntime) {
    let alloc = rt.alloc();
    same(&rt, &DIGEST_A.len(), &38);
    is_spelled(&rt, alloc, hello(&rt), HELLO_A);
    is_spelled(&rt, alloc, read(&rt, alloc, DIGEST_A), DIGEST_A);
    is_spelled(&rt, alloc, bye(&rt), BYE);
    same(&rt, &is_hello(read(&rt, alloc, HELLO_A)), &true);
    same(&rt, &is_digest(read(&rt, alloc, DIGEST_A)), &true);
    same(&rt, &is_bye(read(&rt, alloc, BYE)), &true);
}

/// Tests that these bytes have this fault. After it no bytes are taken, and no message comes.
fn closes(rt: &impl Abort, alloc: Global, bytes: &[u8], fault: Fault) {
    let mut frames = Frames::new(alloc);
    feed(rt, &mut frames, bytes);
    let found = taken(&mut frames).err();
    let answer = frames.feed(FRAME);
    let found = (found, answer, frames.next().err());
    let wanted = (Some(fault), Err(Fault::Closed), Some(Fault::Closed));
    same_at(rt, &bytes, &found, &wanted);
}

#[test]
fn faulty_frames_close(rt: HostRuntime) {
    let alloc = rt.alloc();
    let unknown = b"\xa7\x03\x00\x00\x00\x01\x55";
    closes(&rt, alloc, b"\xa6", Fault::BadMark);
    closes(&rt, alloc, b"\xa7\x01", Fault::BadVersion);
    closes(&rt, alloc, b"\xa7\x02", Fault::BadVersion);
    closes(&rt, alloc, b"\xa7\x09", Fault::BadVersion);
    closes(&rt, alloc, b"\xa7\x03\x00\x00\x00\x00", Fault::BadLength);
    closes(&rt, alloc, b"\xa7\x03\x00\x00\xff\xfb", Fault::BadLength);
    closes(&rt, alloc, unknown, Fault::UnknownKind(0x55));
    closes(&rt, alloc, DELTA_DESCENDING, Fault::Malformed(3));
    closes(&rt, alloc, LONG_CLUSTER, Fault::Malformed(1));
}

/// Tests that sending to a writer that takes `most` bytes in a write, and has room for `room`, gives this answer and
/// writes these bytes.
fn goes_out(
    rt: &impl Abort,
    alloc: Global,
    message: &Message,
    (most, room): (usize, usize),
    wanted: (Result<(), Fault>, &[u8]),
) {
    let found = sent_to(alloc, message, most, room, wanted.1);
    same_at(rt, &(most, room), &found, &(wanted.0, true));
}

#[test]
fn frames_go_out_whole(rt: HostRuntime) {
    let alloc = rt.alloc();
    let message = message(&rt, alloc);
    let broken = Err(Fault::WriteFailed(17));
    let closed = Err(Fault::WriteFailed(0));
    goes_out(&rt, alloc, &message, (1, 64), (Ok(()), FRAME));
    goes_out(&rt, alloc, &message, (1, 17), (broken, &FRAME[..17]));
    // The writer takes no byte, and reports that.
    goes_out(&rt, alloc, &message, (0, 64), (closed, b""));
}

/// Reads the message of a frame that comes in pieces of so many bytes. No message comes before the last piece.
fn read_in_pieces(rt: &impl Abort, alloc: Global, frame: &[u8], most: usize) -> Message {
    let mut frames = Frames::new(alloc);
    for piece in frame.chunks(most.max(1)) {
        same(rt, &has_next(rt, &mut frames), &false);
        feed(rt, &mut frames, piece);
    }
    next(rt, &mut frames)
}

/// Tests that the message of a frame goes out as that frame, if the writer takes 1, 7 and 4,096 bytes in a write.
fn is_read_and_sent(rt: &impl Abort, alloc: Global, frame: &[u8]) {
    let message = read_in_pieces(rt, alloc, frame, 4_099);
    goes_out(rt, alloc, &message, (1, 65_536), (Ok(()), frame));
    goes_out(rt, alloc, &message, (7, 65_536), (Ok(()), frame));
    goes_out(rt, alloc, &message, (4_096, 65_536), (Ok(()), frame));
}

#[test]
fn the_greatest_frame(rt: HostRuntime) {
    let frame = greatest_frame(&rt, rt.alloc());
    same(&rt, &frame.len(), &65_536);
    is_read_and_sent(&rt, rt.alloc(), &frame);
}

/// Sends a message to a writer with room for so many bytes. Returns the answer, and whether the last write is reported
/// as failed.
fn told(alloc: Global, room: usize, message: &Message) -> (Result<(), Fault>, bool) {
    let mut narrow = Narrow::new(alloc, 7, room);
    let (answer, last) = match send_telling(alloc, &mut narrow, message) {
        (Err(Fault::NoMemory), _) => send_telling(alloc, &mut narrow, message),
        answered => answered,
    };
    (answer, last.has_failed())
}

/// Tests that a writer with room for so many bytes gives this answer. Its last write is reported as failed if the
/// answer is a fault.
fn is_told(
    rt: &impl Abort,
    alloc: Global,
    message: &Message,
    room: usize,
    wanted: Result<(), Fault>,
) {
    let found = told(alloc, room, message);
    same_at(rt, &room, &found, &(wanted, wanted.is_err()));
}

#[test]
fn what_the_last_write_answered(rt: HostRuntime) {
    let alloc = rt.alloc();
    let message = message(&rt, alloc);
    is_told(&rt, alloc, &message, 56, Ok(()));
    is_told(&rt, alloc, &message, 55, Err(Fault::WriteFailed(55)));
    is_told(&rt, alloc, &message, 0, Err(Fault::WriteFailed(0)));
}

/// Sends a message to a writer that is interrupted so often before each write. Returns the answer, and whether it has
/// written `FRAME`.
fn interrupted(alloc: Global, message: &Message, interruptions: u32) -> (Result<(), Fault>, bool) {
    let mut narrow = Narrow::new(alloc, 20, 64);
    narrow.interruptions = interruptions;
    let answer = sent(alloc, &mut narrow, message);
    (answer, narrow.has_written(FRAME))
}

/// Tests that a writer that is interrupted so often gives this answer, and that it has written `FRAME` unless the
/// answer is a fault.
fn goes_on(
    rt: &impl Abort,
    alloc: Global,
    message: &Message,
    interruptions: u32,
    wanted: Result<(), Fault>,
) {
    let found = interrupted(alloc, message, interruptions);
    same_at(rt, &interruptions, &found, &(wanted, wanted.is_ok()));
}

#[test]
fn interrupted_writes_go_on(rt: HostRuntime) {
    let alloc = rt.alloc();
    let message = message(&rt, alloc);
    goes_on(&rt, alloc, &message, 1, Ok(()));
    goes_on(&rt, alloc, &message, 1_000, Ok(()));
    goes_on(&rt, alloc, &message, 1_001, Err(Fault::WriteFailed(0)));
}

/// Tests that the greatest frame goes out through a writer that takes so many bytes in a write, after so many
/// interruptions of each.
fn goes_out_interrupted(
    rt: &impl Abort,
    alloc: Global,
    frame: &[u8],
    (most, interruptions): (usize, u32),
) {
    let message = read_in_pieces(rt, alloc, frame, 4_099);
    let mut narrow = Narrow::new(alloc, most, 65_536);
    narrow.interruptions = interruptions;
    let answer = sent(alloc, &mut narrow, &message);
    let found = (answer, narrow.has_written(frame));
    same_at(rt, &(most, interruptions), &found, &(Ok(()), true));
}

#[test]
fn the_greatest_frame_is_interrupted(rt: HostRuntime) {
    let alloc = rt.alloc();
    let frame = greatest_frame(&rt, alloc);
    goes_out_interrupted(&rt, alloc, &frame, (1, 1));
    goes_out_interrupted(&rt, alloc, &frame, (61, 3));
    goes_out_interrupted(&rt, alloc, &frame, (4_096, 1_000));
}

/// A writer that takes 28 bytes in each write except one, which fails. It counts the writes.
#[derive(Drop)]
struct Broken {
    fails_at: u32,
    writes: u32,
}

impl Write for Broken {
    fn write(&mut self, buf: &[u8]) -> io::Result<usize> {
        self.writes = self.writes.saturating_add(1);
        if self.writes == self.fails_at {
            return Err(ErrorKind::BrokenPipe.into());
        }
        Ok(buf.len().min(28))
    }

    fn flush(&mut self) -> io::Result<()> {
        Ok(())
    }
}

/// Sends a message to a writer with one write that fails. Returns the answer, and how many writes were made.
fn sent_broken(alloc: Global, message: &Message, fails_at: u32) -> (Result<(), Fault>, u32) {
    let mut writer = Broken {
        fails_at,
        writes: 0,
    };
    let answer = sent(alloc, &mut writer, message);
    (answer, writer.writes)
}

/// After a write that failed no other is made, whether it was the first of the frame's two or the second.
#[test]
fn a_failed_write_is_the_last(rt: HostRuntime) {
    let alloc = rt.alloc();
    let message = message(&rt, alloc);
    let first = (Err(Fault::WriteFailed(0)), 1);
    let second = (Err(Fault::WriteFailed(28)), 2);
    same(&rt, &sent_broken(alloc, &message, 1), &first);
    same(&rt, &sent_broken(alloc, &message, 2), &second);
    same(&rt, &sent_broken(alloc, &message, 3), &(Ok(()), 2));
}

/// The example of `Frames`.
#[test]
fn the_example_of_frames(rt: HostRuntime) {
    let mut frames = Frames::new(rt.alloc());
    feed(&rt, &mut frames, b"\xa7\x03\x00\x00\x00");
    same(&rt, &has_next(&rt, &mut frames), &false);
    feed(&rt, &mut frames, b"\x02\x04\x01");
    same(&rt, &is_bye(next(&rt, &mut frames)), &true);
}
