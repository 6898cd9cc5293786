//! Requests over a reader that holds the answers, compared with frames written out by hand.
ghost use Rattle.std.specs.Prelude.{◌≡◌, ◌<◌};

use crate::making::put_of_w;
use crate::{got, holds, same};
use sb_codec::{Ask, Message};
use sb_control::ask_control;
use sb_frames::{Connection, Steps};
use sb_query::print_rows;
use sb_testing::wire::{ASK, DONE, PUT};
use sb_types::{Fault, Prefix};
use std::alloc::Global;
use std::io;
use std::marker::Brand;
use std::process::Abort;
use std::sync::ledger::{Blank, Ledger};

/// The row of the weight 5 that a wrote under w, and no more.
pub(crate) const ROWS: &[u8] =
    b"\xa7\x03\x00\x00\x00\x19\x11\x00\x00\x01\x01a\x01w\x00\x00\x00\x00\x00\x00\x00\x01\x02\x00\x00\x00\x00\x00\x00\x00\x05";

/// A writer that takes so many bytes, and then none.
#[derive(Drop)]
struct ShortWriter {
    left: usize,
}

impl io::Write for ShortWriter {
    fn write(&mut self, bytes: &[u8]) -> io::Result<usize> {
        let taken = bytes.len().min(self.left);
        self.left -= taken;
        Ok(taken)
    }

    fn flush(&mut self) -> io::Result<()> {
        Ok(())
    }
}

fn ask_for_all(rt: &impl Abort) -> Message {
    Message::Ask(Ask {
        owner: None,
        prefix: got(rt, Prefix::read(b"")),
        after: None,
    })
}

/// What comes of a request over a reader and a writer.
fn ask_on<K: Ledger, R: io::Read, W: io::Write>(
    alloc: Global,
    reader: &mut R,
    writer: &mut W,
    request: &Message,
    max_reads: u64,
    blank: Blank,
) -> Result<Message, Fault>
    requires name { blank.name ≡ K.name }
    requires parts { blank.parts ≡ K.parts }
    requires some { 0 < blank.parts }
{
    let steps = Steps::<K>::new(blank);
    let mut connection = Connection::new(alloc, reader, writer, max_reads, steps);
    ask_control(&mut connection, request)
}

pub(crate) fn asked<R: io::Read, W: io::Write>(
    alloc: Global,
    reader: &mut R,
    writer: &mut W,
    request: &Message,
    max_reads: u64,
) -> Result<Message, Fault> {
    ask_on::<Brand, R, W>(alloc, reader, writer, request, max_reads, Blank::new(1))
}

/// Asks over a reader of these bytes. Returns the answer, and tests that the request is sent as this frame.
fn answer_to(
    rt: &impl Abort,
    alloc: Global,
    held: &[u8],
    request: Message,
    frame: &[u8],
) -> Message {
    let (mut reader, mut sent) = (held, Vec::new(alloc));
    let answer = got(rt, asked(alloc, &mut reader, &mut sent, &request, 1));
    same(rt, &sent.as_slice(), &frame);
    answer
}

/// The version in this answer, if it is a Done.
fn version_of(answer: Message) -> Option<u64> {
    match &answer {
        Message::Done(done) => Some(done.version()),
        _ => None,
    }
}

#[test]
fn a_put_is_answered_by_its_version(rt: HostRuntime) {
    let answer = answer_to(&rt, rt.alloc(), &DONE, put_of_w(&rt), PUT);
    same(&rt, &version_of(answer), &Some(1));
}

/// Tests that this answer has the rows of these lines, and that no more follow.
fn tells_all(rt: &impl Abort, alloc: Global, answer: Message, lines: &[u8]) {
    let Message::Rows(page) = &answer else {
        panic!(rt; "error: no rows");
    };
    holds(rt, "no more rows", !page.more());
    let mut printed = Vec::new(alloc);
    got(rt, print_rows(alloc, &mut printed, page).0);
    same(rt, &printed.as_slice(), &lines);
}

#[test]
fn an_ask_is_answered_by_rows(rt: HostRuntime) {
    let answer = answer_to(&rt, rt.alloc(), ROWS, ask_for_all(&rt), ASK);
    tells_all(&rt, rt.alloc(), answer, b"a w 1 weight 5\n");
}

/// The fault with which a put ends over a reader of these bytes. The test ends if memory is missing, or if there is an
/// answer.
fn fault_of<W: io::Write>(
    rt: &impl Abort,
    alloc: Global,
    held: &[u8],
    writer: &mut W,
    max_reads: u64,
) -> Fault {
    let (mut reader, request) = (held, put_of_w(rt));
    fault_in(rt, asked(alloc, &mut reader, writer, &request, max_reads))
}

fn fault_in(rt: &impl Abort, answer: Result<Message, Fault>) -> Fault {
    match answer {
        Err(Fault::NoMemory) => panic!(rt; "error: NoMemory"),
        Err(met) => met,
        Ok(_) => panic!(rt; "error: no fault"),
    }
}

/// Tests that a put over a reader of these bytes ends with this fault.
fn ends_with(rt: &impl Abort, alloc: Global, held: &[u8], max_reads: u64, fault: Fault) {
    let mut sent = Vec::new(alloc);
    let met = fault_of(rt, alloc, held, &mut sent, max_reads);
    same(rt, &met, &fault);
}

#[test]
fn no_whole_answer_is_a_fault(rt: HostRuntime) {
    let alloc = rt.alloc();
    let unknown = b"\xa7\x03\x00\x00\x00\x01\x55";
    ends_with(&rt, alloc, b"", 1, Fault::Truncated);
    ends_with(&rt, alloc, &DONE[..14], 2, Fault::Truncated);
    ends_with(&rt, alloc, &DONE, 0, Fault::TurnsSpent);
    ends_with(&rt, alloc, b"\xa6", 1, Fault::BadMark);
    ends_with(&rt, alloc, unknown, 1, Fault::UnknownKind(0x55));
}

/// Tests that a put to a writer that takes so many bytes ends with a fault that counts them.
fn counts_sent(rt: &impl Abort, alloc: Global, left: usize) {
    let met = fault_of(rt, alloc, &DONE, &mut ShortWriter { left }, 1);
    same(rt, &met, &Fault::WriteFailed(left as u64));
}

#[test]
fn a_request_that_is_cut_short_is_counted(rt: HostRuntime) {
    counts_sent(&rt, rt.alloc(), 0);
    counts_sent(&rt, rt.alloc(), 1);
    counts_sent(&rt, rt.alloc(), 17);
}
