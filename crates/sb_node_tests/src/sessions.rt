//! A node in sessions: what it sends to another, and how it reports all owners in turn.
ghost use Rattle.std.specs.Prelude.{◌≡◌, ◌<◌};

use crate::node::{applied, log_of, node, write};
use crate::{got, key, name, push, push_entry, same, same_at, settled, there};
use sb_codec::Message;
use sb_frames::{Connection, Steps};
use sb_node::NodeCore;
use sb_session::{Ended, Session, dial, serve};
use sb_testing::streams::{Hearing, Pieces};
use sb_testing::wire::{DELTA_A, DELTA_DESCENDING, HELLO_A, HELLO_AND_BYE_B, SAID_BY_A, SAID_BY_B};
use sb_types::{Block, Delta, Entry, Fault, Name, Order, Slot, Value};
use std::alloc::Global;
use std::marker::Brand;
use std::process::Abort;
use std::sync::ledger::{Blank, Ledger};

/// Hello and the digest of a, a delta without blocks, and Bye.
const DIALED_BY_A: &[u8] = b"\xa7\x03\x00\x00\x00\x06\x01\x02c1\x01a\
    \xa7\x03\x00\x00\x00\x20\x02\x01\x00\x00\x00\x01\
    \x01a\x00\x00\x00\x00\x00\x00\x00\x00\x00\x00\x00\x00\x00\x00\x00\x00\x00\x00\x00\x00\x00\x00\x00\x00\
    \xa7\x03\x00\x00\x00\x03\x03\x00\x00\
    \xa7\x03\x00\x00\x00\x02\x04\x01";

/// One block of a, after 0, with the weight 5 under w as version 1.
const FRAME: &[u8] = &DELTA_A;

/// The terms of a talk: what the peer sends, in which pieces, and whether reading fails then. Then how many reads are
/// allowed, how many bytes the peer receives, and the rounds of an end that dials.
#[derive(Clone, Copy)]
struct Terms<'a> {
    said: &'a [u8],
    piece: usize,
    breaks: bool,
    reads: u64,
    room: usize,
    rounds: Option<u64>,
}

fn peer_terms(said: &[u8], rounds: Option<u64>) -> Terms<'_> {
    Terms {
        said,
        piece: 4_096,
        breaks: false,
        reads: 99,
        room: 128,
        rounds,
    }
}

/// How a talk ended.
fn talk_on<L: Ledger>(
    core: &mut NodeCore,
    alloc: Global,
    session: Session,
    writer: &mut Hearing,
    terms: Terms<'_>,
    blank: Blank,
) -> Result<Ended, Fault>
    requires name { blank.name ≡ L.name }
    requires parts { blank.parts ≡ L.parts }
    requires some { 0 < blank.parts }
{
    let steps = Steps::<L>::new(blank);
    let reader = Pieces::new(terms.said, terms.piece, terms.breaks);
    let mut connection = Connection::new(alloc, reader, writer, terms.reads, steps);
    match terms.rounds {
        None => serve(&mut connection, session, core),
        Some(rounds) => dial(&mut connection, session, core, rounds),
    }
}

/// How a talk ended, and whether it wrote just these bytes.
type Talked = (Result<Ended, Fault>, bool);

fn talk(
    rt: &impl Abort,
    core: &mut NodeCore,
    alloc: Global,
    terms: Terms<'_>,
    said: &[u8],
) -> Talked {
    let session = Session::new(name(rt, b"c1"), *core.name());
    let mut writer = Hearing::new(alloc, terms.room);
    let ended = talk_on::<Brand>(core, alloc, session, &mut writer, terms, Blank::new(1));
    (settled(rt, ended), writer.bytes.as_slice() == said)
}

/// The node b, which wrote the flag true under w.
fn node_b(rt: &impl Abort, alloc: Global) -> NodeCore {
    let b = name(rt, b"b");
    let mut core = node(rt, alloc, b, 1_024, Order::Breadth);
    let mut log = log_of(rt, alloc, b);
    let slot = Slot::Set(Value::flag(true));
    write(rt, &mut core, &mut log, b"w", &slot);
    core
}

/// Returns how a talk of b ends, and whether it wrote just these bytes.
fn talk_of_b(rt: &impl Abort, alloc: Global, terms: Terms<'_>, said: &[u8]) -> Talked {
    let mut core = node_b(rt, alloc);
    talk(rt, &mut core, alloc, terms, said)
}

/// Returns the same for a, which asks b, and how far a then holds b.
fn talk_of_a(rt: &impl Abort, alloc: Global) -> (Talked, u64) {
    let mut core = node(rt, alloc, name(rt, b"a"), 1_024, Order::Breadth);
    let terms = peer_terms(SAID_BY_B, Some(1));
    let dialed = talk(rt, &mut core, alloc, terms, DIALED_BY_A);
    (dialed, core.upto(&name(rt, b"b")))
}

/// Ends the test unless b serves a node a that sends everything in pieces of this many bytes.
fn serve_pieces(rt: &impl Abort, alloc: Global, piece: usize) {
    let terms = Terms {
        piece,
        ..peer_terms(SAID_BY_A, None)
    };
    let served = talk_of_b(rt, alloc, terms, SAID_BY_B);
    same_at(rt, &piece, &served, &(Ok(Ended::Bye(1)), true));
}

#[test]
fn two_nodes_talk(rt: HostRuntime) {
    let alloc = rt.alloc();
    serve_pieces(&rt, alloc, 1);
    serve_pieces(&rt, alloc, 7);
    serve_pieces(&rt, alloc, 58);
    let told = talk_of_b(&rt, alloc, peer_terms(b"", Some(0)), HELLO_AND_BYE_B);
    same(&rt, &told, &(Ok(Ended::RoundsDone), true));
    let asked = talk_of_a(&rt, alloc);
    same(&rt, &asked, &((Ok(Ended::RoundsDone), true), 1));
}

/// Ends the test unless a write of b fails this way if the peer receives no more bytes than there is room for.
fn fill(rt: &impl Abort, alloc: Global, room: usize, count: u64) {
    let terms = Terms {
        room,
        ..peer_terms(SAID_BY_A, None)
    };
    let written = there(rt, SAID_BY_B.get(..room));
    let served = talk_of_b(rt, alloc, terms, written);
    same_at(rt, &room, &served, &(Err(Fault::WriteFailed(count)), true));
}

#[test]
fn peers_that_give_out(rt: HostRuntime) {
    let alloc = rt.alloc();
    fill(&rt, alloc, 20, 8);
    fill(&rt, alloc, 12, 0);
    fill(&rt, alloc, 61, 0);
    let terms = Terms {
        breaks: true,
        ..peer_terms(HELLO_A, None)
    };
    let written = there(&rt, SAID_BY_B.get(..12));
    let served = talk_of_b(&rt, alloc, terms, written);
    same(&rt, &served, &(Err(Fault::ReadFailed), true));
}

/// The Hello of a, and these frames.
fn said(rt: &impl Abort, alloc: Global, frames: &[&[u8]]) -> Vec<u8> {
    let mut said = got(rt, Vec::from_slice(alloc, HELLO_A));
    for frame in frames {
        got(rt, said.extend_from_slice(frame));
    }
    said
}

/// How a talk of b ends with a peer a that sends this after its Hello, and how far a is then held.
type Heard = (Result<Ended, Fault>, u64);

fn heard(rt: &impl Abort, alloc: Global, frames: &[&[u8]], piece: usize, reads: u64) -> Heard {
    let said = said(rt, alloc, frames);
    let mut core = node_b(rt, alloc);
    let terms = Terms {
        piece,
        reads,
        ..peer_terms(&said, None)
    };
    let (ended, _) = talk(rt, &mut core, alloc, terms, b"");
    (ended, core.upto(&name(rt, b"a")))
}

#[test]
fn a_delta_in_any_pieces(rt: HostRuntime) {
    let alloc = rt.alloc();
    let front = there(&rt, FRAME.get(..17));
    let found = [
        heard(&rt, alloc, &[FRAME], 1, 99),
        heard(&rt, alloc, &[FRAME], 67, 99),
        heard(&rt, alloc, &[FRAME, FRAME], 4_096, 99),
        heard(&rt, alloc, &[front], 4_096, 99),
        heard(&rt, alloc, &[FRAME], 4_096, 0),
    ];
    let whole = (Ok(Ended::End), 1);
    let part = (Err(Fault::Truncated), 0);
    let spent = (Err(Fault::TurnsSpent), 0);
    same(&rt, &found, &[whole, whole, whole, part, spent]);
}

/// Ends the test unless this frame is refused with this fault, and the frame after it is not entered.
fn refuse(rt: &impl Abort, alloc: Global, frame: &[u8], fault: Fault) {
    let found = heard(rt, alloc, &[frame, FRAME], 4_096, 99);
    same_at(rt, &frame, &found, &(Err(fault), 0));
}

#[test]
fn faulty_frames_enter_nothing(rt: HostRuntime) {
    let alloc = rt.alloc();
    refuse(&rt, alloc, b"\xa6", Fault::BadMark);
    refuse(&rt, alloc, b"\xa7\x09", Fault::BadVersion);
    refuse(&rt, alloc, b"\xa7\x03\x00\x00\x00\x00", Fault::BadLength);
    refuse(&rt, alloc, b"\xa7\x03\x00\x00\xff\xfb", Fault::BadLength);
    let unknown = b"\xa7\x03\x00\x00\x00\x01\x55";
    refuse(&rt, alloc, unknown, Fault::UnknownKind(0x55));
    refuse(&rt, alloc, DELTA_DESCENDING, Fault::Malformed(3));
}

/// The flag true under k, the first write of an owner.
fn write_of(rt: &impl Abort, alloc: Global, owner: &[u8]) -> Block {
    let mut entries = Vec::new(alloc);
    let entry = Entry::new(key(rt, b"k"), 1, Slot::Set(Value::flag(true)));
    push_entry(rt, &mut entries, entry);
    got(rt, Block::new(name(rt, owner), 0, 0, 1, entries))
}

/// One write of each of this many owners, in the order of their names.
fn writes_of(rt: &impl Abort, alloc: Global, owners: u64) -> Delta {
    let mut blocks = Vec::new(alloc);
    for number in 0..owners {
        let owner = got(rt, format!(in alloc; "n{number:04}"));
        push(rt, &mut blocks, write_of(rt, alloc, owner.as_bytes()));
    }
    got(rt, Delta::new(blocks))
}

/// Returns how many pairs the next digest of a session has, and its end. Returns `None` if it does not begin there.
fn ask_from(
    rt: &impl Abort,
    core: &mut NodeCore,
    session: &mut Session,
    from: Option<Name>,
) -> Option<(usize, Option<Name>)> {
    let Message::Digest(digest) = got(rt, session.ask(core)) else {
        return None;
    };
    if digest.from() != from {
        return None;
    }
    Some((digest.pairs().len(), digest.until()))
}

/// Returns how many digests a session asks with until one has no end, and how many owners they have. Returns `None` if
/// one does not begin at the end of the one before.
fn asked_in_turn(
    rt: &impl Abort,
    core: &mut NodeCore,
    session: &mut Session,
) -> Option<(u64, usize)> {
    let mut from = None;
    let mut told = 0usize;
    for count in 1..=1_024u64 {
        let (pairs, until) = ask_from(rt, core, session, from)?;
        told = told.saturating_add(pairs);
        from = until;
        if from.is_none() {
            return Some((count, told));
        }
    }
    None
}

/// A node a that holds one write of each of as many other owners.
fn node_of_writes(rt: &impl Abort, alloc: Global, owners: u64) -> NodeCore {
    let mut core = node(rt, alloc, name(rt, b"a"), 1_024, Order::Breadth);
    applied(rt, &mut core, &writes_of(rt, alloc, owners));
    core
}

#[test]
fn each_owner_is_told_of_in_turn(rt: HostRuntime) {
    let mut session = Session::new(name(&rt, b"c1"), name(&rt, b"a"));
    let mut core = node_of_writes(&rt, rt.alloc(), 1_023);
    // 33 owners in each of the first 31 digests, and one in the last; then all once more.
    let found = [
        asked_in_turn(&rt, &mut core, &mut session),
        asked_in_turn(&rt, &mut core, &mut session),
    ];
    same(&rt, &found, &[Some((32, 1_024)), Some((32, 1_024))]);
}
