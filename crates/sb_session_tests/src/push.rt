//! Pushes, over readers and writers that break off, fail and give their bytes in pieces.
ghost use Rattle.std.specs.Prelude.{◌≡◌, ◌<◌};

use crate::session::{HELLO_C2, Node, ROWS, read};
use crate::talk::{Room, served};
use crate::wire::joined;
use crate::{got, name, same, same_at};
use sb_codec::Message;
use sb_frames::{Connection, Steps};
use sb_session::{Ended, PushEnd, Session, push};
use sb_testing::streams::Pieces;
use sb_testing::wire::{
    AGES, ASK, ASK_AGES, ASK_CHANGE, ASK_STATUS, BYE, DELTA_A, DELTA_B, DELTA_NONE, DIGEST_B, DONE,
    HELLO_A, HELLO_B, NODE_STATUS, NOTICE, PUT, REFUSED,
};
use sb_types::{Delta, Fault};
use std::alloc::Global;
use std::marker::Brand;
use std::process::Abort;
use std::sync::ledger::{Blank, Ledger};

/// The frames of a push by a of its first write, in bytes: its Hello, the delta and Bye.
const PUSHED: usize = 12 + 56 + 8;

/// The terms of a push:
///
/// - What the peer says, how many bytes come in a read, and whether the reader fails after them.
/// - How many bytes can be written, and how many reads can be made.
#[derive(Clone, Copy)]
struct Terms<'a> {
    bytes: &'a [u8],
    piece: usize,
    breaks: bool,
    room: usize,
    reads: u64,
}

/// The terms of a peer that says this, with ample reads and room.
fn saying(bytes: &[u8]) -> Terms<'_> {
    Terms {
        bytes,
        piece: 7,
        breaks: false,
        room: 128,
        reads: 1_000,
    }
}

/// How a push ends, and whether the connection reports that a write or a read failed.
type Reported = (Result<PushEnd, Fault>, bool, bool);

/// What comes of a push: how it ended. Then whether exactly Hello, the delta and Bye were written, up to the room, and
/// how many bytes of the peer were not read.
type Outcome = (Reported, bool, usize);

/// The delta of the first write of a.
fn delta_of_a(rt: &impl Abort, alloc: Global) -> Delta {
    match read(rt, alloc, &DELTA_A).into_message() {
        Message::Delta(delta) => delta,
        _ => got(rt, Err(Fault::NoHello)),
    }
}

/// Pushes a delta in a session, over a reader and a writer.
fn push_on<L: Ledger>(
    alloc: Global,
    reader: &mut Pieces<'_>,
    writer: &mut Room,
    pushed: (Session, Delta),
    reads: u64,
    blank: Blank,
) -> Reported
    requires name { blank.name ≡ L.name }
    requires parts { blank.parts ≡ L.parts }
    requires some { 0 < blank.parts }
{
    let (session, delta) = pushed;
    let mut connection = Connection::new(alloc, reader, writer, reads, Steps::<L>::new(blank));
    let ended = push(&mut connection, session, delta);
    (
        ended,
        connection.has_write_failed(),
        connection.has_read_failed(),
    )
}

/// What a push reports. If memory was missing in it, the test ends.
fn settled(rt: &impl Abort, reported: Reported) -> Reported {
    match reported.0 {
        Err(Fault::NoMemory) => got(rt, Err(Fault::NoMemory)),
        _ => reported,
    }
}

/// What comes of a push of the first write of a, by a node a of the cluster c1. Ends the test if memory is missing.
fn outcome(rt: &impl Abort, alloc: Global, terms: Terms<'_>) -> Outcome {
    let session = Session::new(name(rt, b"c1"), name(rt, b"a"));
    let mut reader = Pieces::new(terms.bytes, terms.piece, terms.breaks);
    let mut writer = Room::new(terms.room);
    let pushed = (session, delta_of_a(rt, alloc));
    let reported = push_on::<Brand>(
        alloc,
        &mut reader,
        &mut writer,
        pushed,
        terms.reads,
        Blank::new(1),
    );
    let reported = settled(rt, reported);
    let is_written = writer.has_written(&[HELLO_A, &DELTA_A, BYE]);
    (reported, is_written, reader.bytes.len())
}

/// Tests that a push ends so if the peer says these frames. All of them are read.
fn ends_so(rt: &impl Abort, alloc: Global, pieces: &[&[u8]], wanted: Result<PushEnd, Fault>) {
    let input = joined(rt, alloc, pieces);
    let mut terms = saying(&input);
    for piece in [1, 7, 4_096] {
        terms.piece = piece;
        let found = outcome(rt, alloc, terms);
        same_at(
            rt,
            &(piece, input.len()),
            &found,
            &((wanted, false, false), true, 0),
        );
    }
}

#[test]
fn the_peer_ends_after_its_hello(rt: HostRuntime) {
    ends_so(&rt, rt.alloc(), &[HELLO_B], Ok(PushEnd::AfterHello));
}

#[test]
fn the_peer_ends_before_its_hello(rt: HostRuntime) {
    ends_so(&rt, rt.alloc(), &[], Ok(PushEnd::BeforeHello));
}

#[test]
fn the_peer_says_more_than_its_hello(rt: HostRuntime) {
    let alloc = rt.alloc();
    for more in [HELLO_B, DIGEST_B, DELTA_B, DELTA_NONE, BYE, ASK] {
        ends_so(&rt, alloc, &[HELLO_B, more], Err(Fault::Closed));
    }
}

#[test]
fn the_first_message_is_no_hello(rt: HostRuntime) {
    let alloc = rt.alloc();
    for first in [DIGEST_B, DELTA_B, DELTA_NONE, BYE] {
        ends_so(&rt, alloc, &[first], Err(Fault::NoHello));
    }
}

#[test]
fn the_first_message_is_of_a_control_socket(rt: HostRuntime) {
    let alloc = rt.alloc();
    ends_so(&rt, alloc, &[ASK], Err(Fault::UnknownKind(0x10)));
    ends_so(&rt, alloc, &[ROWS], Err(Fault::UnknownKind(0x11)));
    ends_so(&rt, alloc, &[PUT], Err(Fault::UnknownKind(0x12)));
    ends_so(&rt, alloc, &[&DONE], Err(Fault::UnknownKind(0x13)));
    ends_so(&rt, alloc, &[REFUSED], Err(Fault::UnknownKind(0x14)));
    ends_so(&rt, alloc, &[ASK_STATUS], Err(Fault::UnknownKind(0x15)));
    ends_so(&rt, alloc, &[NODE_STATUS], Err(Fault::UnknownKind(0x16)));
    ends_so(&rt, alloc, &[ASK_CHANGE], Err(Fault::UnknownKind(0x17)));
    ends_so(&rt, alloc, &[NOTICE], Err(Fault::UnknownKind(0x18)));
    ends_so(&rt, alloc, &[ASK_AGES], Err(Fault::UnknownKind(0x19)));
    ends_so(&rt, alloc, &[AGES], Err(Fault::UnknownKind(0x1a)));
}

#[test]
fn the_hello_is_refused(rt: HostRuntime) {
    let alloc = rt.alloc();
    ends_so(&rt, alloc, &[HELLO_C2], Err(Fault::WrongCluster));
    ends_so(&rt, alloc, &[HELLO_A], Err(Fault::SameName));
}

/// How a push ends if the peer's bytes end after so many of a Hello and a Bye, or reading fails there.
fn end_at(length: usize, breaks: bool) -> Reported {
    match (breaks, length) {
        (true, _) => (Err(Fault::ReadFailed), false, true),
        (false, 0) => (Ok(PushEnd::BeforeHello), false, false),
        (false, 12) => (Ok(PushEnd::AfterHello), false, false),
        (false, _) => (Err(Fault::Truncated), false, false),
    }
}

/// Tests how a push ends where a Hello and a Bye break off.
fn ends_where_they_break_off(rt: &impl Abort, alloc: Global, breaks: bool) {
    let input = joined(rt, alloc, &[HELLO_B, BYE]);
    for length in 0..input.len() {
        let mut terms = saying(input.get(..length).unwrap_or(&[]));
        terms.breaks = breaks;
        let found = outcome(rt, alloc, terms);
        same_at(rt, &length, &found, &(end_at(length, breaks), true, 0));
    }
}

#[test]
fn the_peer_breaks_off(rt: HostRuntime) {
    ends_where_they_break_off(&rt, rt.alloc(), false);
    ends_where_they_break_off(&rt, rt.alloc(), true);
}

/// How many bytes of its frame come before the byte at a place of a push.
fn within(place: usize) -> u64 {
    let before = if place < 12 {
        0
    } else if place < 68 {
        12
    } else {
        68
    };
    place.saturating_sub(before) as u64
}

/// A write that fails at any place is reported, with how much of its frame is out, and nothing was read.
#[test]
fn a_write_fails(rt: HostRuntime) {
    let alloc = rt.alloc();
    let mut terms = saying(HELLO_B);
    for room in 0..PUSHED {
        terms.room = room;
        let found = outcome(&rt, alloc, terms);
        let wanted = (Err(Fault::WriteFailed(within(room))), true, false);
        same_at(&rt, &room, &found, &(wanted, true, HELLO_B.len()));
    }
}

/// Tests how a push ends if so many reads can be made, and how many bytes of the Hello are left then.
fn ends_after_reads(
    rt: &impl Abort,
    alloc: Global,
    reads: u64,
    wanted: (Result<PushEnd, Fault>, usize),
) {
    let mut terms = saying(HELLO_B);
    terms.reads = reads;
    let ((ended, _, _), is_written, left) = outcome(rt, alloc, terms);
    same_at(rt, &reads, &(ended, left), &wanted);
    same_at(rt, &reads, &is_written, &true);
}

/// A Hello comes in two reads, and its end in a third.
#[test]
fn reads_are_spent(rt: HostRuntime) {
    let alloc = rt.alloc();
    ends_after_reads(&rt, alloc, 0, (Err(Fault::TurnsSpent), 12));
    ends_after_reads(&rt, alloc, 1, (Err(Fault::TurnsSpent), 5));
    ends_after_reads(&rt, alloc, 2, (Err(Fault::TurnsSpent), 0));
    ends_after_reads(&rt, alloc, 3, (Ok(PushEnd::AfterHello), 0));
}

/// A node that serves takes what is pushed. It says only its Hello.
#[test]
fn a_push_is_taken(rt: HostRuntime) {
    let alloc = rt.alloc();
    let input = joined(&rt, alloc, &[HELLO_A, &DELTA_A, BYE]);
    let mut node = Node::new(&rt, alloc, b"b", false);
    same(
        &rt,
        &served(&rt, &mut node, &input, &[HELLO_B]),
        &(Ok(Ended::Bye(1)), true),
    );
    same(&rt, &node.upto(&rt, b"a"), &1);
    // The same push again changes nothing.
    same(
        &rt,
        &served(&rt, &mut node, &input, &[HELLO_B]),
        &(Ok(Ended::Bye(1)), true),
    );
    same(&rt, &node.upto(&rt, b"a"), &1);
}

/// Takes the first message in a session of a in the cluster c1, and then another.
fn take_two(rt: &impl Abort, alloc: Global, first: &[u8], second: &[u8]) -> [Result<(), Fault>; 2] {
    let mut session = Session::new(name(rt, b"c1"), name(rt, b"a"));
    let answer = session.take_first(read(rt, alloc, first).message());
    [
        answer,
        session.take_first(read(rt, alloc, second).message()),
    ]
}

#[test]
fn a_session_takes_one_hello(rt: HostRuntime) {
    let alloc = rt.alloc();
    let found = take_two(&rt, alloc, HELLO_B, HELLO_B);
    same(&rt, &found, &[Ok(()), Err(Fault::SecondHello)]);
    let found = take_two(&rt, alloc, HELLO_B, BYE);
    same(&rt, &found, &[Ok(()), Err(Fault::NoHello)]);
    let found = take_two(&rt, alloc, HELLO_B, ASK);
    same(&rt, &found, &[Ok(()), Err(Fault::UnknownKind(0x10))]);
    let found = take_two(&rt, alloc, HELLO_A, HELLO_B);
    same(&rt, &found, &[Err(Fault::SameName), Err(Fault::Closed)]);
    let found = take_two(&rt, alloc, DIGEST_B, ASK);
    same(&rt, &found, &[Err(Fault::NoHello), Err(Fault::Closed)]);
}

/// The frame of a Hello with a wrong mark.
const WRONG_MARK: &[u8] = b"\xa8\x03\x00\x00\x00\x06\x01\x02c1\x01b";

/// How a push ends over a connection, and how one ends over it after that.
fn push_twice<L: Ledger>(
    rt: &impl Abort,
    alloc: Global,
    reader: &mut Pieces<'_>,
    writer: &mut Room,
    blank: Blank,
) -> [Result<PushEnd, Fault>; 2]
    requires name { blank.name ≡ L.name }
    requires parts { blank.parts ≡ L.parts }
    requires some { 0 < blank.parts }
{
    let session = Session::new(name(rt, b"c1"), name(rt, b"a"));
    let mut connection = Connection::new(alloc, reader, writer, 1_000, Steps::<L>::new(blank));
    let first = push(&mut connection, session, delta_of_a(rt, alloc));
    [first, push(&mut connection, session, delta_of_a(rt, alloc))]
}

/// After a faulty frame a push writes nothing.
#[test]
fn a_closed_connection_pushes_nothing(rt: HostRuntime) {
    let alloc = rt.alloc();
    let mut reader = Pieces::new(WRONG_MARK, 4_096, false);
    let mut writer = Room::new(128);
    let found = push_twice::<Brand>(&rt, alloc, &mut reader, &mut writer, Blank::new(1));
    same(&rt, &found, &[Err(Fault::BadMark), Err(Fault::Closed)]);
    same(&rt, &writer.has_written(&[HELLO_A, &DELTA_A, BYE]), &true);
}
