//! Damaged frames, and made-up bytes. Each answer is known: `tools/oracle/hostile_bytes.py` computes the numbers.
ghost use Rattle.std.specs.Prelude.{◌<◌};

use crate::frames::{FRAME, feed, taken};
use crate::wire::add;
use crate::{got, same, same_at};
use rand_core::utils::NextWord;
use rand_pcg::Pcg32;
use sb_codec::Message;
use sb_frames::{Frames, frame_of};
use sb_testing::wire::{
    AGES, ASK_AGES, ASK_CHANGE, ASK_STATUS, BYE, HELLO_A, NODE_STATUS, NOTICE, PUT,
};
use sb_types::Fault;
use std::alloc::Global;
use std::process::Abort;

/// The digest of the names from a up to c. It holds a up to 0, and b up to 7, with a stage of the floor 9 up to 8.
const DIGEST: &[u8] = b"\xa7\x03\x00\x00\x00\x3c\x02\x01\x01a\x01c\x00\x02\
    \x01a\x00\x00\x00\x00\x00\x00\x00\x00\x00\x00\x00\x00\x00\x00\x00\x00\x00\x00\x00\x00\x00\x00\x00\x00\
    \x01b\x00\x00\x00\x00\x00\x00\x00\x07\x00\x00\x00\x00\x00\x00\x00\x09\x00\x00\x00\x00\x00\x00\x00\x08";

/// A weight and a removal of a. Of b, whose floor is 3, an address, a flag and a text, and nothing of its version 5.
const DELTA: &[u8] = b"\xa7\x03\x00\x00\x00\x84\x03\x00\x02\
    \x01a\x00\x00\x00\x00\x00\x00\x00\x00\x00\x00\x00\x00\x00\x00\x00\x00\x00\x00\x00\x00\x00\x00\x00\x02\x00\x02\
    \x01w\x00\x00\x00\x00\x00\x00\x00\x01\x02\x00\x00\x00\x00\x00\x00\x00\x05\
    \x01x\x00\x00\x00\x00\x00\x00\x00\x02\x00\
    \x01b\x00\x00\x00\x00\x00\x00\x00\x03\x00\x00\x00\x00\x00\x00\x00\x01\x00\x00\x00\x00\x00\x00\x00\x05\x00\x03\
    \x01k\x00\x00\x00\x00\x00\x00\x00\x02\x01\x03p:1\
    \x01l\x00\x00\x00\x00\x00\x00\x00\x03\x03\x01\
    \x01m\x00\x00\x00\x00\x00\x00\x00\x04\x04\x00\x03h\xc3\xa9";

/// Asks for what a wrote under keys that begin with w/, after the row of w/x.
const ASK: &[u8] = b"\xa7\x03\x00\x00\x00\x0c\x10\x01a\x02w/\x01a\x03w/x";

/// A row of a and one of b. More follow.
const ROWS: &[u8] = b"\xa7\x03\x00\x00\x00\x2a\x11\x01\x00\x02\
    \x01a\x01w\x00\x00\x00\x00\x00\x00\x00\x01\x02\x00\x00\x00\x00\x00\x00\x00\x05\
    \x01b\x01k\x00\x00\x00\x00\x00\x00\x00\x02\x01\x03p:1";

/// The write has version 7.
const DONE: &[u8] = b"\xa7\x03\x00\x00\x00\x09\x13\x00\x00\x00\x00\x00\x00\x00\x07";

/// The table is full.
const REFUSED: &[u8] = b"\xa7\x03\x00\x00\x00\x02\x14\x06";

/// A frame of each kind.
const FRAMES: [&[u8]; 15] = [
    HELLO_A,
    DIGEST,
    DELTA,
    BYE,
    ASK,
    ROWS,
    PUT,
    DONE,
    REFUSED,
    ASK_STATUS,
    NODE_STATUS,
    ASK_CHANGE,
    NOTICE,
    ASK_AGES,
    AGES,
];

/// How many streams are made up.
const STREAMS: u32 = 100_000;

/// What a reader of frames answers.
#[derive(Clone, Copy, Debug, PartialEq, Eq)]
enum Answer {
    /// A message whose frame has so many bytes.
    Message(usize),
    /// More bytes must come.
    Waiting,
    Faulty(Fault),
}

/// How often each answer was given.
#[derive(Clone, Copy, Debug, PartialEq, Eq)]
struct Counts {
    messages: u64,
    waiting: u64,
    marks: u64,
    versions: u64,
    lengths: u64,
    kinds: u64,
    malformed: u64,
    others: u64,
}

impl Counts {
    fn new(counts: [u64; 7]) -> Counts {
        let [
            messages,
            waiting,
            marks,
            versions,
            lengths,
            kinds,
            malformed,
        ] = counts;
        Counts {
            messages,
            waiting,
            marks,
            versions,
            lengths,
            kinds,
            malformed,
            others: 0,
        }
    }

    fn count(&mut self, answer: Answer) {
        let place = match answer {
            Answer::Message(_) => &mut self.messages,
            Answer::Waiting => &mut self.waiting,
            Answer::Faulty(Fault::BadMark) => &mut self.marks,
            Answer::Faulty(Fault::BadVersion) => &mut self.versions,
            Answer::Faulty(Fault::BadLength) => &mut self.lengths,
            Answer::Faulty(Fault::UnknownKind(_)) => &mut self.kinds,
            Answer::Faulty(Fault::Malformed(_)) => &mut self.malformed,
            Answer::Faulty(_) => &mut self.others,
        };
        *place = place.wrapping_add(1);
    }
}

/// The answer for a message that came. It must go out as it came.
fn answer_to(rt: &impl Abort, alloc: Global, message: &Message, stream: &[u8]) -> Answer {
    let frame = got(rt, frame_of(alloc, message));
    match stream.starts_with(&frame) {
        true => Answer::Message(frame.len()),
        false => Answer::Faulty(Fault::Closed),
    }
}

/// The answer for a fault. A fault of a kind must name that kind. Missing memory ends the test.
fn answer_to_fault(rt: &impl Abort, fault: Fault, stream: &[u8]) -> Answer {
    match fault {
        Fault::NoMemory => got(rt, Err(Fault::NoMemory)),
        Fault::UnknownKind(kind) | Fault::Malformed(kind) if stream.get(6) != Some(&kind) => {
            Answer::Faulty(Fault::Closed)
        }
        _ => Answer::Faulty(fault),
    }
}

/// The answer for the next frame. A message must go out as it came, and a fault of a kind must name it.
fn answer_of(rt: &impl Abort, alloc: Global, frames: &mut Frames, stream: &[u8]) -> Answer {
    match taken(frames) {
        Ok(Some(message)) => answer_to(rt, alloc, &message, stream),
        Ok(None) => Answer::Waiting,
        Err(fault) => answer_to_fault(rt, fault, stream),
    }
}

/// The answer for a stream that begins with these bytes. If more must come, an end there is inside a frame.
fn first_of(rt: &impl Abort, alloc: Global, stream: &[u8]) -> Answer {
    let mut frames = Frames::new(alloc);
    feed(rt, &mut frames, stream);
    let answer = answer_of(rt, alloc, &mut frames, stream);
    if answer == Answer::Waiting {
        same(rt, &frames.end(), &Err(Fault::Truncated));
    }
    answer
}

/// Tests that the reader waits after each part of a frame.
fn parts_are_waited_on(rt: &impl Abort, alloc: Global, frame: &[u8]) {
    for length in 1..frame.len() {
        let part = frame.get(..length).unwrap_or(&[]);
        same_at(rt, &length, &first_of(rt, alloc, part), &Answer::Waiting);
    }
}

#[test]
fn each_frame_is_cut_short(rt: HostRuntime) {
    for frame in FRAMES {
        parts_are_waited_on(&rt, rt.alloc(), frame);
    }
}

/// Tests a frame with one more byte after it. Its message comes, then the answer `then`, and an end there is `end`.
fn stands_before(
    rt: &impl Abort,
    alloc: Global,
    frame: &[u8],
    byte: u8,
    (then, end): (Answer, Result<(), Fault>),
) {
    let mut stream = Vec::new(alloc);
    add(rt, &mut stream, frame);
    add(rt, &mut stream, &[byte]);
    let mut frames = Frames::new(alloc);
    feed(rt, &mut frames, &stream);
    let first = answer_of(rt, alloc, &mut frames, &stream);
    let rest = stream.get(frame.len()..).unwrap_or(&[]);
    let found = (first, answer_of(rt, alloc, &mut frames, rest));
    same_at(rt, &frame, &found, &(Answer::Message(frame.len()), then));
    same_at(rt, &frame, &frames.end(), &end);
}

/// Each frame is one byte longer. The byte is the mark of the next frame, or another.
#[test]
fn each_frame_is_lengthened(rt: HostRuntime) {
    for frame in FRAMES {
        let waiting = (Answer::Waiting, Err(Fault::Truncated));
        stands_before(&rt, rt.alloc(), frame, 0xa7, waiting);
        let faulty = (Answer::Faulty(Fault::BadMark), Ok(()));
        stands_before(&rt, rt.alloc(), frame, 0, faulty);
    }
}

/// The frame with another byte at a place.
fn changed(rt: &impl Abort, alloc: Global, frame: &[u8], place: usize, value: u8) -> Vec<u8> {
    let mut changed = Vec::new(alloc);
    add(rt, &mut changed, frame);
    if let Some(byte) = changed.get_mut(place) {
        *byte = value;
    }
    changed
}

/// The answer for a frame with another byte at a place.
fn answer_changed(rt: &impl Abort, alloc: Global, frame: &[u8], place: usize, value: u8) -> Answer {
    first_of(rt, alloc, &changed(rt, alloc, frame, place, value))
}

/// The answer that a delta of 56 bytes must have if one of its first seven bytes is another.
fn wanted(place: usize, value: u8) -> Option<Answer> {
    match (place, value) {
        (0, _) => Some(Answer::Faulty(Fault::BadMark)),
        (1, _) => Some(Answer::Faulty(Fault::BadVersion)),
        (2 | 3, _) => Some(Answer::Faulty(Fault::BadLength)),
        (4, _) => Some(Answer::Waiting),
        (5, 0) => Some(Answer::Faulty(Fault::BadLength)),
        (5, 1..=0x31) => Some(Answer::Faulty(Fault::Malformed(3))),
        (5, _) => Some(Answer::Waiting),
        (6, 1 | 2 | 4 | 0x10..=0x1a) => Some(Answer::Faulty(Fault::Malformed(value))),
        (6, _) => Some(Answer::Faulty(Fault::UnknownKind(value))),
        _ => None,
    }
}

/// Tests that the delta has the wanted answer with each other byte at a place.
fn is_damaged_at(rt: &impl Abort, alloc: Global, place: usize, byte: u8) {
    for value in 0..=255_u8 {
        if value != byte {
            let answer = answer_changed(rt, alloc, FRAME, place, value);
            same_at(rt, &(place, value), &Some(answer), &wanted(place, value));
        }
    }
}

#[test]
fn the_head_of_a_frame_is_damaged(rt: HostRuntime) {
    let mut place = 0_usize;
    for byte in &FRAME[..7] {
        is_damaged_at(&rt, rt.alloc(), place, *byte);
        place = place.saturating_add(1);
    }
}

/// Counts the answers for a frame with each other byte at a place.
fn count_damaged(
    rt: &impl Abort,
    alloc: Global,
    counts: &mut Counts,
    frame: &[u8],
    place: usize,
    byte: u8,
) {
    for value in 0..=255_u8 {
        if value != byte {
            counts.count(answer_changed(rt, alloc, frame, place, value));
        }
    }
}

/// Tests the counts of answers for a frame with one byte changed: each byte in turn, to each other value.
fn is_damaged(rt: &impl Abort, alloc: Global, frame: &[u8], wanted: [u64; 7]) {
    let mut counts = Counts::new([0; 7]);
    let mut place = 0_usize;
    for byte in frame {
        count_damaged(rt, alloc, &mut counts, frame, place, *byte);
        place = place.saturating_add(1);
    }
    same_at(rt, &frame, &counts, &Counts::new(wanted));
}

/// The answers for a delta with one byte changed.
#[test]
fn each_byte_of_a_delta_is_damaged(rt: HostRuntime) {
    let alloc = rt.alloc();
    is_damaged(&rt, alloc, DELTA, [10_789, 378, 255, 255, 511, 241, 22_761]);
}

/// The same for a frame of each other kind.
#[test]
fn each_byte_is_damaged(rt: HostRuntime) {
    let alloc = rt.alloc();
    is_damaged(&rt, alloc, HELLO_A, [108, 504, 255, 255, 511, 241, 1_186]);
    is_damaged(&rt, alloc, DIGEST, [12_275, 450, 255, 255, 511, 241, 2_843]);
    is_damaged(&rt, alloc, BYE, [6, 508, 255, 255, 511, 241, 264]);
    is_damaged(&rt, alloc, ASK, [268, 498, 255, 255, 511, 241, 2_562]);
    is_damaged(&rt, alloc, ROWS, [6_383, 468, 255, 255, 511, 241, 4_127]);
    is_damaged(&rt, alloc, PUT, [1_951, 498, 255, 255, 511, 241, 879]);
    is_damaged(&rt, alloc, DONE, [2_040, 501, 255, 255, 511, 241, 22]);
    is_damaged(&rt, alloc, REFUSED, [30, 508, 255, 255, 511, 241, 240]);
    is_damaged(&rt, alloc, ASK_STATUS, [2_041, 501, 255, 255, 511, 241, 21]);
}

/// The same for the status of a node.
#[test]
fn each_byte_of_a_status_is_damaged(rt: HostRuntime) {
    let alloc = rt.alloc();
    is_damaged(
        &rt,
        alloc,
        NODE_STATUS,
        [10_654, 446, 255, 255, 511, 241, 5_488],
    );
}

/// The same for the messages about changes and ages.
#[test]
fn each_byte_of_changes_and_ages_is_damaged(rt: HostRuntime) {
    let alloc = rt.alloc();
    is_damaged(
        &rt,
        alloc,
        ASK_CHANGE,
        [2_154, 496, 255, 255, 511, 241, 1_188],
    );
    is_damaged(&rt, alloc, NOTICE, [4, 508, 255, 255, 511, 241, 266]);
    is_damaged(&rt, alloc, ASK_AGES, [0, 509, 255, 255, 511, 241, 14]);
    is_damaged(&rt, alloc, AGES, [4_115, 487, 255, 255, 511, 241, 1_531]);
}

/// A number below another.
fn below(random: &mut Pcg32, limit: usize) -> usize
    requires { 0 < limit }
    ensures { result < limit }
{
    random.next_word() as usize % limit
}

/// Changes a byte to any value, if there is one.
fn change(random: &mut Pcg32, stream: &mut Vec<u8>) {
    if !stream.is_empty() {
        let place = below(random, stream.len());
        stream[place] = below(random, 256) as u8;
    }
}

/// Puts any bytes at the end of a stream.
fn push_bytes(rt: &impl Abort, random: &mut Pcg32, stream: &mut Vec<u8>) {
    for _ in 0..below(random, 80) {
        got(rt, stream.push(below(random, 256) as u8));
    }
}

/// Puts up to three frames at the end of a stream, and changes up to three bytes.
fn push_frames(rt: &impl Abort, random: &mut Pcg32, stream: &mut Vec<u8>) {
    for _ in 0..=below(random, 3) {
        add(rt, stream, FRAMES[below(random, 15)]);
    }
    for _ in 0..below(random, 4) {
        change(random, stream);
    }
}

/// Cuts off the end of a stream, if it has one.
fn cut_off(random: &mut Pcg32, stream: &mut Vec<u8>) {
    if !stream.is_empty() {
        let length = below(random, stream.len());
        stream.truncate(length);
    }
}

/// Puts any bytes into a stream, or up to three frames. Of these frames, up to three bytes change, and the end can be
/// cut off.
fn make_up(rt: &impl Abort, random: &mut Pcg32, stream: &mut Vec<u8>) {
    let form = below(random, 4);
    if form == 0 {
        push_bytes(rt, random, stream);
        return;
    }
    push_frames(rt, random, stream);
    if form == 1 {
        cut_off(random, stream);
    }
}

/// Counts the messages of a stream that was fed, and what comes after them. Returns whether nothing does.
fn count_all(
    rt: &impl Abort,
    alloc: Global,
    frames: &mut Frames,
    counts: &mut Counts,
    stream: &[u8],
) -> bool {
    let mut rest = stream;
    for _ in 0..=stream.len() {
        let answer = answer_of(rt, alloc, frames, rest);
        if answer == Answer::Waiting && frames.end().is_ok() {
            return true;
        }
        counts.count(answer);
        let Answer::Message(length) = answer else {
            return false;
        };
        rest = rest.get(length..).unwrap_or(&[]);
    }
    false
}

/// The same for a stream that is fed at once.
fn read_all(rt: &impl Abort, alloc: Global, counts: &mut Counts, stream: &[u8]) -> bool {
    let mut frames = Frames::new(alloc);
    feed(rt, &mut frames, stream);
    count_all(rt, alloc, &mut frames, counts, stream)
}

/// The same for a stream that is made up.
fn read_made_up(rt: &impl Abort, alloc: Global, random: &mut Pcg32, counts: &mut Counts) -> bool {
    let mut stream = Vec::new(alloc);
    make_up(rt, random, &mut stream);
    read_all(rt, alloc, counts, &stream)
}

#[test]
fn made_up_streams(rt: HostRuntime) {
    let mut random = Pcg32::new(42, 54);
    let mut counts = Counts::new([0; 7]);
    let mut whole = 0_u64;
    for _ in 0..STREAMS {
        let is_whole = read_made_up(&rt, rt.alloc(), &mut random, &mut counts);
        whole = whole.wrapping_add(u64::from(is_whole));
    }
    let wanted = [62_201, 23_159, 29_292, 4_388, 7_204, 2_275, 11_764];
    same(&rt, &(counts, whole), &(Counts::new(wanted), 21_918));
}
