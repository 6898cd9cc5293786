//! Messages that come out of readers.
ghost use Rattle.std.specs.Prelude.{◌≡◌, ◌<◌};

use crate::frames::FRAME;
use crate::wire::greatest_frame;
use crate::{got, same, same_at};
use sb_codec::Message;
use sb_frames::{Frames, Steps, receive};
use sb_testing::streams::Pieces;
use sb_types::Fault;
use std::alloc::Global;
use std::marker::Brand;
use std::process::Abort;
use std::sync::ledger::{Blank, Ledger};

/// Two Byes, since the rounds are done.
const BYES: &[u8] = b"\xa7\x03\x00\x00\x00\x02\x04\x01\xa7\x03\x00\x00\x00\x02\x04\x01";

/// How many Byes come, and what comes then: another message, which is not a Bye, or the end, or a fault.
type Received = (usize, Result<Option<bool>, Fault>);

/// Whether a message that came is a Bye.
fn is_bye(message: Option<Message>) -> Option<bool> {
    match message {
        Some(message) => Some(matches!(message, Message::Bye(_))),
        None => None,
    }
}

/// Whether a Bye comes next, unless the end does.
fn next<L: Ledger>(
    reader: &mut Pieces<'_>,
    frames: &mut Frames,
    max_reads: u64,
    steps: &mut Steps<L>,
) -> Result<Option<bool>, Fault> {
    match receive(reader, frames, max_reads, steps) {
        Ok(message) => Ok(is_bye(message)),
        Err(fault) => Err(fault),
    }
}

/// Receives up to four Byes from frames and from a reader.
fn receive_on<L: Ledger>(
    reader: &mut Pieces<'_>,
    frames: &mut Frames,
    max_reads: u64,
    blank: Blank,
) -> Received
    requires name { blank.name ≡ L.name }
    requires parts { blank.parts ≡ L.parts }
    requires some { 0 < blank.parts }
{
    let mut steps = Steps::<L>::new(blank);
    for count in 0..4usize {
        let next = next(reader, frames, max_reads, &mut steps);
        if next != Ok(Some(true)) {
            return (count, next);
        }
    }
    (4, Ok(Some(true)))
}

/// Receives what is held already, and then what a reader gives.
fn received(
    rt: &impl Abort,
    alloc: Global,
    mut reader: Pieces<'_>,
    held: &[u8],
    max_reads: u64,
) -> Received {
    let mut frames = Frames::new(alloc);
    got(rt, frames.feed(held));
    receive_on::<Brand>(&mut reader, &mut frames, max_reads, Blank::new(1))
}

/// A reader that gives all at once.
fn whole(bytes: &[u8]) -> Pieces<'_> {
    Pieces::new(bytes, 4_096, false)
}

/// A reader that gives so many bytes in a read. Before each of these, so many reads are interrupted.
fn in_pieces(bytes: &[u8], (piece, interruptions): (usize, u32)) -> Pieces<'_> {
    let mut reader = whole(bytes);
    reader.piece = piece;
    reader.interruptions = interruptions;
    reader
}

/// Tests that both Byes come from such a reader, and then the end.
fn comes_in_pieces(rt: &impl Abort, alloc: Global, pieces: (usize, u32), max_reads: u64) {
    let found = received(rt, alloc, in_pieces(BYES, pieces), b"", max_reads);
    same_at(rt, &pieces, &found, &(2, Ok(None)));
}

#[test]
fn messages_out_of_a_reader(rt: HostRuntime) {
    let alloc = rt.alloc();
    comes_in_pieces(&rt, alloc, (1, 0), 8);
    comes_in_pieces(&rt, alloc, (1, 1), 16);
    comes_in_pieces(&rt, alloc, (5, 0), 2);
    comes_in_pieces(&rt, alloc, (16, 0), 1);
    // A read that was interrupted is made again, however often, while reads are left.
    comes_in_pieces(&rt, alloc, (16, 5_000), 5_001);
    // What is held comes without a read.
    let found = received(&rt, alloc, whole(b""), BYES, 0);
    same(&rt, &found, &(2, Err(Fault::TurnsSpent)));
}

/// Receives a frame with so many reads.
fn frame_received(
    rt: &impl Abort,
    alloc: Global,
    frame: &[u8],
    pieces: (usize, u32),
    max_reads: u64,
) -> Received {
    received(rt, alloc, in_pieces(frame, pieces), b"", max_reads)
}

/// Tests that a frame, which is not a Bye, comes with so many reads, and not with one less.
fn needs_reads(rt: &impl Abort, alloc: Global, frame: &[u8], pieces: (usize, u32), reads: u64) {
    let found = frame_received(rt, alloc, frame, pieces, reads);
    same_at(rt, &pieces, &found, &(0, Ok(Some(false))));
    let found = frame_received(rt, alloc, frame, pieces, reads.saturating_sub(1));
    same_at(rt, &pieces, &found, &(0, Err(Fault::TurnsSpent)));
}

#[test]
fn the_greatest_frame_comes(rt: HostRuntime) {
    let alloc = rt.alloc();
    let frame = greatest_frame(&rt, alloc);
    needs_reads(&rt, alloc, &frame, (16, 0), 4_096);
    needs_reads(&rt, alloc, &frame, (61, 3), 4_300);
    needs_reads(&rt, alloc, &frame, (4_000, 0), 17);
    needs_reads(&rt, alloc, &frame, (4_096, 0), 16);
    needs_reads(&rt, alloc, &frame, (4_096, 3_000), 48_016);
}

/// Tests that so many Byes come from a prefix of the two, and then this fault.
fn gives_out(
    rt: &impl Abort,
    alloc: Global,
    (length, breaks): (usize, bool),
    max_reads: u64,
    wanted: (usize, Fault),
) {
    let mut reader = whole(BYES.get(..length).unwrap_or(&[]));
    reader.breaks = breaks;
    let found = received(rt, alloc, reader, b"", max_reads);
    same_at(rt, &length, &found, &(wanted.0, Err(wanted.1)));
}

/// Tests that no Bye comes from these bytes, and this fault does.
fn is_faulty(rt: &impl Abort, alloc: Global, bytes: &[u8], fault: Fault) {
    let found = received(rt, alloc, whole(bytes), b"", 9);
    same_at(rt, &bytes, &found, &(0, Err(fault)));
}

#[test]
fn readers_that_give_out(rt: HostRuntime) {
    let alloc = rt.alloc();
    gives_out(&rt, alloc, (16, false), 0, (0, Fault::TurnsSpent));
    gives_out(&rt, alloc, (7, false), 9, (0, Fault::Truncated));
    gives_out(&rt, alloc, (15, false), 9, (1, Fault::Truncated));
    gives_out(&rt, alloc, (16, true), 9, (2, Fault::ReadFailed));
    gives_out(&rt, alloc, (12, true), 9, (1, Fault::ReadFailed));
    is_faulty(&rt, alloc, b"\xa6", Fault::BadMark);
    let unknown = b"\xa7\x03\x00\x00\x00\x01\x55";
    is_faulty(&rt, alloc, unknown, Fault::UnknownKind(0x55));
    // A delta that does not come whole, and one without any read left.
    is_faulty(&rt, alloc, &FRAME[..17], Fault::Truncated);
    let found = received(&rt, alloc, whole(FRAME), b"", 0);
    same(&rt, &found, &(0, Err(Fault::TurnsSpent)));
}
