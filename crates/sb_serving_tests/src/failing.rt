//! Requests and answers that break off at each of their bytes.
use crate::asking::asked;
use crate::desk::{Desk, Play, play_at_new};
use crate::making::put_of_w;
use crate::same;
use sb_directory::DirectoryTag;
use sb_testing::streams::{FailingWriter, Pieces};
use sb_testing::wire::{DONE, PUT};
use sb_types::Fault;
use std::alloc::Global;
use std::process::Abort;
use std::sync::Wait;

/// How many reads are allowed: more than there are bytes.
const READS_MOST: u64 = 64;

/// Done, with the version 16.
const DONE_16: &[u8] = b"\xa7\x03\x00\x00\x00\x09\x13\x00\x00\x00\x00\x00\x00\x00\x10";

/// A writer that takes one byte in a write, and is closed after so many.
fn closing(left: usize) -> FailingWriter {
    let mut writer = FailingWriter::new(left);
    writer.piece = 1;
    writer
}

#[test]
fn a_request_that_breaks_off_is_not_heard(rt: HostRuntime) {
    play_at_new::<HearParts, _>(&rt, rt.alloc());
}

/// No part of a Put is answered or heard. The whole Put is the first write.
struct HearParts;

impl Play for HearParts {
    fn play<S: DirectoryTag, R: Wait + Abort>(rt: &R, alloc: Global, desk: &mut Desk<S, &R>) {
        for length in 0..PUT.len() {
            hears_no_part(rt, alloc, desk, length, false, Fault::Truncated);
            hears_no_part(rt, alloc, desk, length, true, Fault::ReadFailed);
        }
        hears_all(rt, alloc, desk, &DONE);
    }
}

/// Tests that so many bytes of a Put end with this fault, and that nothing is answered.
fn hears_no_part<S: DirectoryTag, R: Wait + Abort>(
    rt: &R,
    alloc: Global,
    desk: &mut Desk<S, &R>,
    length: usize,
    breaks: bool,
    fault: Fault,
) {
    let mut reader = Pieces::new(PUT.get(..length).unwrap_or(&[]), 1, breaks);
    let mut answer = Vec::new(alloc);
    let ended = desk.serve_over(rt, alloc, &mut reader, &mut answer, READS_MOST);
    same(rt, &(ended, answer.len()), &(Err(fault), 0));
}

/// Tests the answer to a whole Put.
fn hears_all<S: DirectoryTag, R: Wait + Abort>(
    rt: &R,
    alloc: Global,
    desk: &mut Desk<S, &R>,
    wanted: &[u8],
) {
    let mut reader = Pieces::new(PUT, 1, true);
    let mut answer = Vec::new(alloc);
    let ended = desk.serve_over(rt, alloc, &mut reader, &mut answer, READS_MOST);
    same(rt, &(ended, answer.as_slice()), &(Ok(()), wanted));
}

#[test]
fn an_answer_that_breaks_off_leaves_the_write(rt: HostRuntime) {
    play_at_new::<AnswerInParts, _>(&rt, rt.alloc());
}

/// A Put whose answer of 15 bytes breaks off at each of them. Each time it is a write, so the next one is the
/// sixteenth.
struct AnswerInParts;

impl Play for AnswerInParts {
    fn play<S: DirectoryTag, R: Wait + Abort>(rt: &R, alloc: Global, desk: &mut Desk<S, &R>) {
        for room in 0..DONE.len() {
            let mut reader = PUT;
            let ended = desk.serve_over(rt, alloc, &mut reader, &mut closing(room), 1);
            same(rt, &ended, &Err(Fault::WriteFailed(room as u64)));
        }
        hears_all(rt, alloc, desk, DONE_16);
    }
}

/// How a request ends with a reader of a part of its answer, and a writer with so much room.
fn fault_of_parts(
    rt: &impl Abort,
    alloc: Global,
    reader: Pieces<'_>,
    room: usize,
) -> Option<Fault> {
    let (mut reader, mut writer) = (reader, closing(room));
    let request = put_of_w(rt);
    asked(alloc, &mut reader, &mut writer, &request, READS_MOST).err()
}

#[test]
fn an_answer_that_breaks_off_is_a_fault(rt: HostRuntime) {
    for length in 0..DONE.len() {
        ends_at(&rt, rt.alloc(), length, false, Fault::Truncated);
        ends_at(&rt, rt.alloc(), length, true, Fault::ReadFailed);
    }
}

/// Tests that so many bytes of an answer end with this fault.
fn ends_at(rt: &impl Abort, alloc: Global, length: usize, breaks: bool, fault: Fault) {
    let reader = Pieces::new(DONE.get(..length).unwrap_or(&[]), 1, breaks);
    same(
        rt,
        &fault_of_parts(rt, alloc, reader, PUT.len()),
        &Some(fault),
    );
}

#[test]
fn a_request_that_breaks_off_is_counted(rt: HostRuntime) {
    for room in 0..PUT.len() {
        let reader = Pieces::new(&DONE, 1, false);
        let met = fault_of_parts(&rt, rt.alloc(), reader, room);
        same(&rt, &met, &Some(Fault::WriteFailed(room as u64)));
    }
}
