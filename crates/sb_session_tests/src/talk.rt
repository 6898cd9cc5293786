//! Whole sessions over readers and writers that break off, fail and give their bytes in pieces.
ghost use Rattle.std.specs.Prelude.{◌≡◌, ◌<◌};

use crate::session::{HELLO_C2, Node, ROWS};
use crate::wire::{add, greatest_frame, joined};
use crate::{got, name, same, same_at};
use sb_frames::{Connection, Steps};
use sb_session::{Ended, Session, dial, serve};
use sb_testing::streams::Pieces;
use sb_testing::wire::{
    AGES, ASK, ASK_AGES, ASK_CHANGE, ASK_STATUS, BYE, DELTA_B, DELTA_NONE, DIGEST_A, DIGEST_B,
    DONE, HELLO_A, HELLO_B, NODE_STATUS, NOTICE, PUT, REFUSED,
};
use sb_types::Fault;
use std::alloc::Global;
use std::io::{self, ErrorKind, Write};
use std::marker::Brand;
use std::process::Abort;
use std::sync::ledger::{Blank, Ledger};

/// A writer that takes one byte in each write, and fails once, at its room. What is written after that it takes again.
/// Every other write is interrupted.
#[derive(Drop)]
pub(crate) struct Room {
    bytes: [u8; 128],
    written: usize,
    room: usize,
    interrupts: bool,
    has_failed: bool,
}

impl Room {
    pub(crate) fn new(room: usize) -> Room {
        Room {
            bytes: [0; 128],
            written: 0,
            room,
            interrupts: false,
            has_failed: false,
        }
    }

    /// Whether these pieces were written, one after another, up to the room.
    pub(crate) fn has_written(&self, pieces: &[&[u8]]) -> bool {
        let mut at = 0;
        for piece in pieces {
            for byte in *piece {
                if at >= self.room || at >= 128 {
                    return self.written == at;
                }
                if self.bytes[at] != *byte {
                    return false;
                }
                at += 1;
            }
        }
        self.written == at
    }
}

impl Write for Room {
    fn write(&mut self, buf: &[u8]) -> io::Result<usize> {
        let [byte, ..] = buf else { return Ok(0) };
        self.interrupts = !self.interrupts;
        if self.interrupts {
            return Err(ErrorKind::Interrupted.into());
        }
        let is_full = self.written >= self.room && !self.has_failed;
        if is_full || self.written >= 128 {
            self.has_failed = true;
            return Err(ErrorKind::BrokenPipe.into());
        }
        self.bytes[self.written] = *byte;
        self.written += 1;
        Ok(1)
    }

    fn flush(&mut self) -> io::Result<()> {
        Ok(())
    }
}

/// The terms of a talk:
///
/// - The peer's bytes, how many come in a read, and whether the reader fails after them.
/// - How many reads are interrupted before each that gives bytes.
/// - How many bytes can be written, and how many reads can be made.
/// - The rounds, if the node dials.
#[derive(Clone, Copy)]
struct Terms<'a> {
    bytes: &'a [u8],
    piece: usize,
    breaks: bool,
    interruptions: u32,
    room: usize,
    reads: u64,
    rounds: Option<u64>,
}

/// The terms of a node that serves, with ample reads and room.
fn serving(bytes: &[u8]) -> Terms<'_> {
    Terms {
        bytes,
        piece: 7,
        breaks: false,
        interruptions: 1,
        room: 128,
        reads: 1_000,
        rounds: None,
    }
}

/// The terms of a node that dials.
fn dialing(bytes: &[u8], rounds: u64) -> Terms<'_> {
    Terms {
        rounds: Some(rounds),
        ..serving(bytes)
    }
}

/// The reader of a talk.
fn reader_of<'a>(terms: &Terms<'a>) -> Pieces<'a> {
    let mut reader = Pieces::new(terms.bytes, terms.piece, terms.breaks);
    reader.interruptions = terms.interruptions;
    reader
}

/// How a talk of this session ends over a reader and a writer, and whether its last write is said to have failed.
fn talk_on<L: Ledger>(
    node: &mut Node,
    reader: &mut Pieces<'_>,
    writer: &mut Room,
    session: Session,
    terms: Terms<'_>,
    blank: Blank,
) -> (Result<Ended, Fault>, bool)
    requires name { blank.name ≡ L.name }
    requires parts { blank.parts ≡ L.parts }
    requires some { 0 < blank.parts }
{
    let steps = Steps::<L>::new(blank);
    let mut connection = Connection::new(node.alloc, reader, writer, terms.reads, steps);
    let ended = match terms.rounds {
        None => serve(&mut connection, session, node),
        Some(rounds) => dial(&mut connection, session, node, rounds),
    };
    (ended, connection.has_write_failed())
}

/// Makes a whole talk of a node of the cluster c1. Returns how it ended, and whether its last write is reported as
/// failed.
fn talk_telling(
    rt: &impl Abort,
    node: &mut Node,
    writer: &mut Room,
    terms: Terms<'_>,
) -> (Result<Ended, Fault>, bool) {
    let session = Session::new(name(rt, b"c1"), *node.holdings.me());
    let mut reader = reader_of(&terms);
    talk_on::<Brand>(node, &mut reader, writer, session, terms, Blank::new(1))
}

/// A talk that goes well:
///
/// - Who speaks, and in how many rounds if it dials.
/// - What it hears, and what it writes.
/// - How many bytes it has written before it has heard `turn` bytes, and how many after that.
/// - How it ends.
#[derive(Clone, Copy)]
struct Course<'a> {
    name: &'a [u8],
    has_written: bool,
    rounds: Option<u64>,
    heard: [&'a [u8]; 3],
    written: &'a [&'a [u8]],
    early: usize,
    turn: usize,
    late: usize,
    ended: Ended,
}

/// The courses of a node that serves, and of one that dials.
const SERVED: Course<'static> = Course {
    name: b"b",
    has_written: true,
    rounds: None,
    heard: [HELLO_A, DIGEST_A, BYE],
    written: &[HELLO_B, DELTA_B, DIGEST_B],
    early: 12,
    turn: 50,
    late: 99,
    ended: Ended::Bye(1),
};

const DIALED: Course<'static> = Course {
    name: b"a",
    has_written: false,
    rounds: Some(1),
    heard: [HELLO_B, DELTA_B, DIGEST_B],
    written: &[HELLO_A, DIGEST_A, DELTA_NONE, BYE],
    early: 50,
    turn: 99,
    late: 67,
    ended: Ended::RoundsDone,
};

/// What comes of a talk: how it ends, and whether its last write is reported as failed. Then whether exactly the pieces
/// were written up to the room, and how many bytes.
type Outcome = (Result<Ended, Fault>, bool, bool, usize);

/// What comes of a talk of a node that must write these pieces.
fn outcome(rt: &impl Abort, node: &mut Node, terms: Terms<'_>, pieces: &[&[u8]]) -> Outcome {
    let mut writer = Room::new(terms.room);
    let (ended, has_failed) = talk_telling(rt, node, &mut writer, terms);
    let is_written = writer.has_written(pieces);
    (ended, has_failed, is_written, writer.written)
}

/// How a talk ends for a node that serves if its peer says this, and whether it wrote exactly these pieces.
pub(crate) fn served(
    rt: &impl Abort,
    node: &mut Node,
    bytes: &[u8],
    pieces: &[&[u8]],
) -> (Result<Ended, Fault>, bool) {
    let (ended, _, is_written, _) = outcome(rt, node, serving(bytes), pieces);
    (ended, is_written)
}

/// What comes of a course under these terms, if so many calls of the handler are allowed.
fn follow(
    rt: &impl Abort,
    alloc: Global,
    course: &Course<'_>,
    terms: Terms<'_>,
    grants: u64,
) -> Outcome {
    let mut node = Node::new(rt, alloc, course.name, course.has_written);
    node.grants = grants;
    outcome(rt, &mut node, terms, course.written)
}

/// The terms of a course whose node hears this.
fn hearing<'a>(course: &Course<'_>, bytes: &'a [u8]) -> Terms<'a> {
    let mut terms = serving(bytes);
    terms.rounds = course.rounds;
    terms
}

/// Tests that the course ends as it must if so many bytes come in a read.
fn ends_in_pieces(rt: &impl Abort, alloc: Global, course: &Course<'_>, piece: usize) {
    let input = joined(rt, alloc, &course.heard);
    let mut terms = hearing(course, &input);
    terms.piece = piece;
    let found = follow(rt, alloc, course, terms, 1_000);
    let wanted = (Ok(course.ended), false, true, course.late);
    same_at(rt, &piece, &found, &wanted);
}

/// The same for one byte in a read, for some, and for all.
fn ends_in_any_pieces(rt: &impl Abort, alloc: Global, course: &Course<'_>) {
    ends_in_pieces(rt, alloc, course, 1);
    ends_in_pieces(rt, alloc, course, 7);
    ends_in_pieces(rt, alloc, course, 58);
    ends_in_pieces(rt, alloc, course, 4_096);
}

#[test]
fn bytes_come_in_any_pieces(rt: HostRuntime) {
    ends_in_any_pieces(&rt, rt.alloc(), &SERVED);
    ends_in_any_pieces(&rt, rt.alloc(), &DIALED);
}

/// Tests that the course ends as it must although so many reads are interrupted before each that gives bytes.
fn ends_though_interrupted(
    rt: &impl Abort,
    alloc: Global,
    course: &Course<'_>,
    interruptions: u32,
) {
    let input = joined(rt, alloc, &course.heard);
    let mut terms = hearing(course, &input);
    terms.interruptions = interruptions;
    terms.reads = 1_000_000;
    let found = follow(rt, alloc, course, terms, 1_000);
    let wanted = (Ok(course.ended), false, true, course.late);
    same_at(rt, &interruptions, &found, &wanted);
}

#[test]
fn interrupted_reads_end_no_session(rt: HostRuntime) {
    ends_though_interrupted(&rt, rt.alloc(), &SERVED, 5_000);
    ends_though_interrupted(&rt, rt.alloc(), &DIALED, 5_000);
}

/// How many bytes of a course are not read if a write fails after so many bytes.
fn unread(rt: &impl Abort, alloc: Global, course: &Course<'_>, room: usize) -> usize {
    let input = joined(rt, alloc, &course.heard);
    let mut node = Node::new(rt, alloc, course.name, course.has_written);
    let terms = hearing(course, &input);
    let mut reader = reader_of(&terms);
    let session = Session::new(name(rt, b"c1"), *node.holdings.me());
    let mut writer = Room::new(room);
    let _ = talk_on::<Brand>(
        &mut node,
        &mut reader,
        &mut writer,
        session,
        terms,
        Blank::new(1),
    );
    reader.bytes.len()
}

/// Before a Hello that fails nothing was read. The delta for the digest, whose last byte is the 50th, comes after eight
/// reads of seven bytes.
#[test]
fn nothing_is_read_behind_a_failed_write(rt: HostRuntime) {
    let alloc = rt.alloc();
    same(&rt, &unread(&rt, alloc, &SERVED, 0), &58);
    same(&rt, &unread(&rt, alloc, &SERVED, 11), &58);
    same(&rt, &unread(&rt, alloc, &SERVED, 12), &2);
    same(&rt, &unread(&rt, alloc, &SERVED, 60), &2);
    same(&rt, &unread(&rt, alloc, &DIALED, 12), &99);
}

/// How many bytes of its piece come before the byte at a place, if the pieces come one after another.
fn within(pieces: &[&[u8]], place: usize) -> usize {
    let mut left = place;
    for piece in pieces {
        if left < piece.len() {
            break;
        }
        left -= piece.len();
    }
    left
}

/// What came of a talk. If memory was missing in it, the test ends.
fn settled(rt: &impl Abort, outcome: Outcome) -> Outcome {
    match outcome.0 {
        Err(Fault::NoMemory) => got(rt, Err(Fault::NoMemory)),
        _ => outcome,
    }
}

/// Whether a talk reports that its writer failed at a place, with how much of the frame is out.
fn is_told_room(
    rt: &impl Abort,
    alloc: Global,
    course: &Course<'_>,
    input: &[u8],
    room: usize,
) -> bool {
    let mut terms = hearing(course, input);
    terms.room = room;
    let outcome = follow(rt, alloc, course, terms, 1_000);
    let (answer, has_failed, is_written, _) = settled(rt, outcome);
    let fault = Fault::WriteFailed(within(course.written, room) as u64);
    answer == Err(fault) && is_written && has_failed
}

/// The first place at which a writer fails and the talk does not report that.
fn wrong_room(rt: &impl Abort, alloc: Global, course: &Course<'_>) -> Option<usize> {
    let input = joined(rt, alloc, &course.heard);
    for room in 0..course.late {
        if !is_told_room(rt, alloc, course, &input, room) {
            return Some(room);
        }
    }
    None
}

/// How a course ends if its reader fails at a place, or comes to its end there.
fn end_at(course: &Course<'_>, breaks: bool, length: usize) -> Result<Ended, Fault> {
    match (breaks, within(&course.heard, length)) {
        (true, _) => Err(Fault::ReadFailed),
        (false, 0) => Ok(Ended::End),
        (false, _) => Err(Fault::Truncated),
    }
}

/// How many bytes the node of a course has written when it has heard so many.
fn written_at(course: &Course<'_>, length: usize) -> usize {
    if length < course.turn {
        course.early
    } else {
        course.late
    }
}

/// Whether a talk reports that its reader failed at the end of these bytes, or came to its end, and nothing else is
/// written.
fn is_told_end(
    rt: &impl Abort,
    alloc: Global,
    course: &Course<'_>,
    breaks: bool,
    heard: &[u8],
) -> bool {
    let mut terms = hearing(course, heard);
    terms.breaks = breaks;
    let outcome = follow(rt, alloc, course, terms, 1_000);
    let (answer, _, _, written) = settled(rt, outcome);
    let length = heard.len();
    answer == end_at(course, breaks, length) && written == written_at(course, length)
}

/// The first place at which a reader fails, or comes to its end, and the talk does not report that or writes something
/// else.
fn wrong_length(
    rt: &impl Abort,
    alloc: Global,
    course: &Course<'_>,
    breaks: bool,
) -> Option<usize> {
    let input = joined(rt, alloc, &course.heard);
    for length in 0..input.len() {
        let heard = input.get(..length).unwrap_or(&[]);
        if !is_told_end(rt, alloc, course, breaks, heard) {
            return Some(length);
        }
    }
    None
}

/// Tests that no place is wrong: not for a writer that fails, a reader that fails, or a reader that comes to its end.
fn is_told_everywhere(rt: &impl Abort, alloc: Global, course: &Course<'_>) {
    same(rt, &wrong_room(rt, alloc, course), &None);
    same(rt, &wrong_length(rt, alloc, course, true), &None);
    same(rt, &wrong_length(rt, alloc, course, false), &None);
}

/// Tests that a course ends with `TurnsSpent` if so many reads, and so many calls of the handler, are allowed. So many
/// bytes are written then.
fn is_spent(
    rt: &impl Abort,
    alloc: Global,
    course: &Course<'_>,
    (reads, grants): (u64, u64),
    count: usize,
) {
    let input = joined(rt, alloc, &course.heard);
    let mut terms = hearing(course, &input);
    terms.reads = reads;
    let (ended, _, _, written) = follow(rt, alloc, course, terms, grants);
    let wanted = (Err(Fault::TurnsSpent), count);
    same_at(rt, &(reads, grants), &(ended, written), &wanted);
}

/// Tests where a node that serves fails, and that it ends if too little is allowed.
fn serving_fails(rt: &impl Abort, alloc: Global, course: &Course<'_>) {
    is_told_everywhere(rt, alloc, course);
    is_spent(rt, alloc, course, (0, 9), 12);
    is_spent(rt, alloc, course, (3, 9), 12);
    is_spent(rt, alloc, course, (99, 0), 12);
    is_spent(rt, alloc, course, (99, 1), 12);
}

/// The same for a node that dials.
fn dialing_fails(rt: &impl Abort, alloc: Global, course: &Course<'_>) {
    is_told_everywhere(rt, alloc, course);
    is_spent(rt, alloc, course, (3, 9), 50);
    is_spent(rt, alloc, course, (99, 0), 12);
    is_spent(rt, alloc, course, (99, 1), 50);
    is_spent(rt, alloc, course, (99, 2), 50);
}

#[test]
fn writers_and_readers_fail(rt: HostRuntime) {
    serving_fails(&rt, rt.alloc(), &SERVED);
    dialing_fails(&rt, rt.alloc(), &DIALED);
}

/// How a talk ends for a node that wrote nothing, and whether it wrote exactly these pieces. Then how many bytes it
/// wrote, and how far it holds another owner.
type Learned = (Result<Ended, Fault>, bool, usize, u64);

/// What a new node of this name learns of the owner.
fn learn(
    rt: &impl Abort,
    alloc: Global,
    me: &[u8],
    terms: Terms<'_>,
    pieces: &[&[u8]],
    owner: &[u8],
) -> Learned {
    let mut node = Node::new(rt, alloc, me, false);
    let (ended, _, is_written, written) = outcome(rt, &mut node, terms, pieces);
    (ended, is_written, written, node.upto(rt, owner))
}

/// The course of a node that wrote something and dials for no round.
const NO_ROUND: Course<'static> = Course {
    written: &[HELLO_B, BYE],
    ..SERVED
};

/// Tests that a node that dials for no round sends just Hello and Bye.
fn no_round_is_asked(rt: &impl Abort, alloc: Global) {
    let terms = dialing(&[], 0);
    let (ended, _, is_written, written) = follow(rt, alloc, &NO_ROUND, terms, 1_000);
    let wanted = (Ok(Ended::RoundsDone), true, 20);
    same(rt, &(ended, is_written, written), &wanted);
}

/// What a learns from b, which it dials for so many rounds, and which answers one.
fn learn_of_one(rt: &impl Abort, alloc: Global, rounds: u64, pieces: &[&[u8]]) -> Learned {
    let input = joined(rt, alloc, &[HELLO_B, DELTA_B, DIGEST_B]);
    learn(rt, alloc, b"a", dialing(&input, rounds), pieces, b"b")
}

#[test]
fn the_other_end_asks(rt: HostRuntime) {
    let alloc = rt.alloc();
    no_round_is_asked(&rt, alloc);
    let pieces = [HELLO_A, DIGEST_A, DELTA_NONE, BYE];
    let found = learn_of_one(&rt, alloc, 1, &pieces);
    same(&rt, &found, &(Ok(Ended::RoundsDone), true, 67, 1));
    // A second round asks again, and then the peer's bytes end.
    let (ended, _, written, _) = learn_of_one(&rt, alloc, 2, &[]);
    same(&rt, &(ended, written), &(Ok(Ended::End), 12 + 38 + 9 + 64));
}

/// How a talk ends, how many bytes it wrote, and how far the other owner is then held.
type Ending = (Result<Ended, Fault>, usize, u64);

fn ending(rt: &impl Abort, alloc: Global, me: &[u8], terms: Terms<'_>, owner: &[u8]) -> Ending {
    let (ended, _, written, held) = learn(rt, alloc, me, terms, &[], owner);
    (ended, written, held)
}

/// How the talks end for a node that wrote nothing, if its peer sends `said`, `piece` bytes in a read. The node serves
/// in the first, and dials in the second.
fn endings(
    rt: &impl Abort,
    alloc: Global,
    me: &[u8],
    (said, piece): (&[u8], usize),
    owner: &[u8],
) -> [Ending; 2] {
    let mut served = serving(said);
    served.piece = piece;
    let mut dialed = dialing(said, 1);
    dialed.piece = piece;
    [
        ending(rt, alloc, me, served, owner),
        ending(rt, alloc, me, dialed, owner),
    ]
}

/// How the talks of a node b end with a node a that sends these pieces.
fn endings_of(rt: &impl Abort, alloc: Global, pieces: &[&[u8]]) -> [Ending; 2] {
    let input = joined(rt, alloc, pieces);
    endings(rt, alloc, b"b", (&input, 7), b"a")
}

/// Tests that the talks with a peer that sends these pieces end with this fault, and that nothing is learned.
fn ends_with(rt: &impl Abort, alloc: Global, pieces: &[&[u8]], fault: Fault) {
    let wanted = [(Err(fault), 12, 0), (Err(fault), 50, 0)];
    same_at(rt, &pieces, &endings_of(rt, alloc, pieces), &wanted);
}

/// Tests that the talks end with the fault of this kind if such a message comes after a greeting.
fn ends_behind(rt: &impl Abort, alloc: Global, greeting: &[u8], control: &[u8], kind: u8) {
    let [served, dialed] = endings_of(rt, alloc, &[greeting, control]);
    let fault = Err(Fault::UnknownKind(kind));
    same_at(rt, &kind, &[served.0, dialed.0], &[fault, fault]);
}

/// The same for each kind that has no place in a session.
fn end_behind(rt: &impl Abort, alloc: Global, greeting: &[u8]) {
    ends_behind(rt, alloc, greeting, ASK, 0x10);
    ends_behind(rt, alloc, greeting, ROWS, 0x11);
    ends_behind(rt, alloc, greeting, PUT, 0x12);
    ends_behind(rt, alloc, greeting, &DONE, 0x13);
    ends_behind(rt, alloc, greeting, REFUSED, 0x14);
    ends_behind(rt, alloc, greeting, ASK_STATUS, 0x15);
    ends_behind(rt, alloc, greeting, NODE_STATUS, 0x16);
    ends_behind(rt, alloc, greeting, ASK_CHANGE, 0x17);
    ends_behind(rt, alloc, greeting, NOTICE, 0x18);
    ends_behind(rt, alloc, greeting, ASK_AGES, 0x19);
    ends_behind(rt, alloc, greeting, AGES, 0x1a);
}

/// Tests that messages end the talks if they must not come there.
fn messages_end(rt: &impl Abort, alloc: Global) {
    let flood = [DELTA_B, DELTA_B, DELTA_B, HELLO_A];
    ends_with(rt, alloc, &[DIGEST_A], Fault::NoHello);
    ends_with(rt, alloc, &flood, Fault::NoHello);
    ends_with(rt, alloc, &[BYE], Fault::NoHello);
    ends_with(rt, alloc, &[HELLO_C2], Fault::WrongCluster);
    ends_with(rt, alloc, &[HELLO_B], Fault::SameName);
    ends_with(rt, alloc, &[HELLO_A, HELLO_A], Fault::SecondHello);
    ends_with(rt, alloc, &[HELLO_A, HELLO_C2], Fault::SecondHello);
}

/// Tests that bytes that are not a frame end the talks.
fn bytes_end(rt: &impl Abort, alloc: Global) {
    let no_length = b"\xa7\x03\x00\x00\x00\x00";
    let no_kind = b"\xa7\x03\x00\x00\x00\x01\x55";
    let no_reason = b"\xa7\x03\x00\x00\x00\x02\x04\x06";
    ends_with(rt, alloc, &[b"\xa6"], Fault::BadMark);
    ends_with(rt, alloc, &[HELLO_A, b"\xa7\x02"], Fault::BadVersion);
    ends_with(rt, alloc, &[HELLO_A, no_length], Fault::BadLength);
    ends_with(rt, alloc, &[no_kind], Fault::UnknownKind(0x55));
    ends_with(rt, alloc, &[HELLO_A, no_reason], Fault::Malformed(4));
}

#[test]
fn faulty_talks_end(rt: HostRuntime) {
    messages_end(&rt, rt.alloc());
    bytes_end(&rt, rt.alloc());
    end_behind(&rt, rt.alloc(), b"");
    end_behind(&rt, rt.alloc(), HELLO_A);
}

/// A thousand deltas of b, and then its Hello.
fn flood(rt: &impl Abort, alloc: Global) -> Vec<u8> {
    let mut flood = Vec::new(alloc);
    for _ in 0..1_000u32 {
        add(rt, &mut flood, DELTA_B);
    }
    add(rt, &mut flood, HELLO_B);
    flood
}

#[test]
fn a_flood_before_hello_is_not_taken(rt: HostRuntime) {
    let input = flood(&rt, rt.alloc());
    let fault = Err(Fault::NoHello);
    let found = endings(&rt, rt.alloc(), b"a", (&input, 7), b"b");
    same(&rt, &found, &[(fault, 12, 0), (fault, 50, 0)]);
}

/// Hello of a, the greatest frame, and Bye.
fn greatest_talk(rt: &impl Abort, alloc: Global) -> Vec<u8> {
    let frame = greatest_frame(rt, alloc);
    joined(rt, alloc, &[HELLO_A, &frame, BYE])
}

#[test]
fn the_greatest_frame_is_taken(rt: HostRuntime) {
    let input = greatest_talk(&rt, rt.alloc());
    same(&rt, &input.len(), &(12 + 65_536 + 8));
    let [served, dialed] = endings(&rt, rt.alloc(), b"b", (&input, 4_099), b"a");
    let whole = (Ok(Ended::Bye(1)), 1_310);
    same(&rt, &(served.0, served.2), &whole);
    same(&rt, &(dialed.0, dialed.2), &whole);
}
