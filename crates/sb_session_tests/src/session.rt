//! A session: what it takes, what it refuses, and what stays as before.
ghost use Rattle.std.specs.Prelude.{IfErr};
ghost use Rattle.sb_session.specs.Handlers.{IsRefusal};

use crate::{got, name, same, same_at};
use sb_codec::Message;
use sb_digest::{Digest, build};
use sb_frames::{Frames, frame_of};
use sb_holdings::{BlockEnd, Holdings, Report};
use sb_session::{Handler, ReceivedDelta, ReceivedMessage, Replies, Session};
use sb_table::Table;
use sb_testing::wire::{
    AGES, ASK, ASK_AGES, ASK_CHANGE, ASK_STATUS, BYE, DELTA_B, DELTA_NONE, DIGEST_A, DIGEST_B,
    DONE, HELLO_A, HELLO_B, NODE_STATUS, NOTICE, PUT, REFUSED,
};
use sb_types::{BUDGET_LEAST, Block, Delta, Entry, Fault, Key, Name, Slot, Value};
use std::alloc::Global;
use std::process::Abort;

/// Hello of a node a of the cluster c2.
pub(crate) const HELLO_C2: &[u8] = b"\xa7\x03\x00\x00\x00\x06\x01\x02c2\x01a";

/// Rows with no row.
pub(crate) const ROWS: &[u8] = b"\xa7\x03\x00\x00\x00\x04\x11\x00\x00\x00";

/// What a node holds. It answers and takes blocks without an order and a budget of deltas, in so many calls.
#[derive(Drop)]
pub(crate) struct Node {
    pub(crate) alloc: Global,
    pub(crate) grants: u64,
    pub(crate) holdings: Holdings,
}

/// A block of an owner's table above a version, up to what is held.
fn block_above(alloc: Global, owner: Name, table: &Table, after: u64) -> Result<Block, Fault> {
    let mut entries = Vec::new(alloc);
    for entry in table.shared_after(after) {
        entries.push(entry.share()?)?;
    }
    Block::new(owner, table.floor(), after, table.upto(), entries)
}

/// The table of an owner that wrote nothing, or the flag true under w.
fn table(rt: &impl Abort, alloc: Global, has_written: bool) -> Table {
    let mut table = Table::new(alloc);
    if has_written {
        let key = got(rt, Key::read(b"w"));
        let entry = Entry::new(key, 1, Slot::Set(Value::flag(true)));
        got(rt, table.push(entry));
    }
    table
}

impl Node {
    /// Makes a node that wrote nothing, or the flag true under w.
    pub(crate) fn new(rt: &impl Abort, alloc: Global, me: &[u8], has_written: bool) -> Node {
        let table = table(rt, alloc, has_written);
        Node {
            alloc,
            grants: 1_000,
            holdings: got(rt, Holdings::new(alloc, name(rt, me), table)),
        }
    }

    /// Grants a call if any is left.
    fn grant(&mut self) -> Result<(), Fault>
        ensures { IfErr result IsRefusal }
    {
        if self.grants == 0 {
            return Err(Fault::TurnsSpent);
        }
        self.grants -= 1;
        Ok(())
    }

    pub(crate) fn upto(&self, rt: &impl Abort, owner: &[u8]) -> u64 {
        self.holdings.upto(&name(rt, owner))
    }

    fn lacking(&self, theirs: &Digest) -> Result<Delta, Fault> {
        let mut blocks = Vec::new(self.alloc);
        for (owner, table) in self.holdings.tables_from(None) {
            let number = theirs.start(owner, table.floor(), table.upto()).after;
            if !theirs.covers(owner) || table.upto() <= number {
                continue;
            }
            blocks.push(block_above(self.alloc, *owner, table, number)?)?;
        }
        Delta::new(blocks)
    }

    fn take_up(&mut self, delta: &Delta) -> Result<Report, Fault> {
        let mut ends = Vec::new(self.alloc);
        for block in delta.blocks() {
            ends.push(self.holdings.apply_block(block))?;
        }
        Ok(Report::new(ends))
    }
}

/// Passes on what a handler can answer.
fn granted<T: Drop>(answer: Result<T, Fault>) -> Result<T, Fault>
    ensures { IfErr result IsRefusal }
{
    match answer {
        Ok(answer) => Ok(answer),
        Err(_) => Err(Fault::NoMemory),
    }
}

impl Handler for Node {
    ghost step = { λ _ _ _. Unit {0} };

    ghost stays = { λ _ _. Unit {0} };

    ghost grows = { λ _ _. Unit {0} };

    fn digest(&mut self, from: Option<Name>, want: bool) -> Result<Digest, Fault> {
        self.grant()?;
        granted(build(self.alloc, &self.holdings, from, want, BUDGET_LEAST))
    }

    fn deltas(&mut self, theirs: &Digest) -> Result<Delta, Fault> {
        self.grant()?;
        granted(self.lacking(theirs))
    }

    fn apply(&mut self, delta: &ReceivedDelta) -> Result<Report, Fault> {
        self.grant()?;
        granted(self.take_up(delta.delta()))
    }

    ghost enters_nothing = { λ old new act e s. tt };

    ghost stays_still = { λ state. tt };

    ghost stays_on = { λ old mid new a b. tt };

    ghost step_grows = { λ old new act s. tt };

    ghost grows_still = { λ state. tt };

    ghost grows_on = { λ old mid new a b. tt };
}

/// The message of a frame, as it comes.
pub(crate) fn read(rt: &impl Abort, alloc: Global, frame: &[u8]) -> ReceivedMessage {
    let mut frames = Frames::new(alloc);
    got(rt, frames.feed(frame));
    match got(rt, ReceivedMessage::taken_from(&mut frames)) {
        Some(message) => message,
        None => got(rt, Err(Fault::Truncated)),
    }
}

/// Whether the message goes out as this frame.
fn is_spelled(rt: &impl Abort, alloc: Global, message: Message, frame: &[u8]) -> bool {
    got(rt, frame_of(alloc, &message)).as_slice() == frame
}

/// Gives a session the message of a frame, which it must take.
fn take(rt: &impl Abort, session: &mut Session, node: &mut Node, frame: &[u8]) -> Replies {
    let message = read(rt, node.alloc, frame);
    got(rt, session.take(message, node))
}

/// The fault with which a session refuses the message of a frame, if it does.
fn refusal(rt: &impl Abort, session: &mut Session, node: &mut Node, frame: &[u8]) -> Option<Fault> {
    let message = read(rt, node.alloc, frame);
    session.take(message, node).err()
}

/// A session of a node of the cluster c1.
fn session_of(rt: &impl Abort, me: &[u8]) -> Session {
    Session::new(name(rt, b"c1"), name(rt, me))
}

/// Whether the session takes the Hello of a peer.
fn is_greeted(rt: &impl Abort, session: &mut Session, node: &mut Node, hello: &[u8]) -> bool {
    matches!(take(rt, session, node, hello), Replies::Greeted)
}

/// Whether the session sends the Hello of b, and takes that of a.
fn greet(rt: &impl Abort, session: &mut Session, node: &mut Node) -> [bool; 2] {
    let is_hello = is_spelled(rt, node.alloc, session.hello(), HELLO_B);
    [is_hello, is_greeted(rt, session, node, HELLO_A)]
}

/// Whether these are the delta and the digest of b.
fn are_of_b(rt: &impl Abort, alloc: Global, delta: Delta, digest: Digest) -> [bool; 2] {
    let is_digest = is_spelled(rt, alloc, Message::Digest(digest), DIGEST_B);
    [
        is_spelled(rt, alloc, Message::Delta(delta), DELTA_B),
        is_digest,
    ]
}

/// Whether the digest of a is answered with the delta and the digest of b.
fn exchange(rt: &impl Abort, session: &mut Session, node: &mut Node) -> [bool; 2] {
    match take(rt, session, node, DIGEST_A) {
        Replies::Exchanged(delta, digest) => are_of_b(rt, node.alloc, delta, digest),
        _ => [false, false],
    }
}

/// Whether the digest of b is answered with a delta of no block.
fn answer(rt: &impl Abort, session: &mut Session, node: &mut Node) -> bool {
    match take(rt, session, node, DIGEST_B) {
        Replies::Answered(delta) => is_spelled(rt, node.alloc, Message::Delta(delta), DELTA_NONE),
        _ => false,
    }
}

/// The reason with which a Bye ends the session, if it does.
fn reason(rt: &impl Abort, session: &mut Session, node: &mut Node) -> Option<u8> {
    match take(rt, session, node, BYE) {
        Replies::Ended(bye) => Some(bye.reason()),
        _ => None,
    }
}

/// The reason with which a Bye ends the session, and then the faults of another Bye and of asking.
fn end(
    rt: &impl Abort,
    session: &mut Session,
    node: &mut Node,
) -> (Option<u8>, [Option<Fault>; 2]) {
    let reason = reason(rt, session, node);
    let again = refusal(rt, session, node, BYE);
    (reason, [again, session.ask(node).err()])
}

/// Tests that a session of b takes the Hello and the digest of a, its own digest, and a Bye.
fn takes_what_comes(rt: &impl Abort, session: &mut Session, node: &mut Node) {
    same(rt, &greet(rt, session, node), &[true; 2]);
    same(rt, &exchange(rt, session, node), &[true; 2]);
    same(rt, &answer(rt, session, node), &true);
    let closed = Some(Fault::Closed);
    same(rt, &end(rt, session, node), &(Some(1), [closed, closed]));
}

#[test]
fn a_session_takes_what_comes(rt: HostRuntime) {
    let mut node = Node::new(&rt, rt.alloc(), b"b", true);
    takes_what_comes(&rt, &mut session_of(&rt, b"b"), &mut node);
}

/// How many blocks these are. A block that found no memory ends the test.
fn settled(rt: &impl Abort, report: &Report) -> usize {
    for end in report.ends() {
        if matches!(end, BlockEnd::NoMemory(_)) {
            got(rt, Err(Fault::NoMemory))
        }
    }
    report.len()
}

/// How many blocks of the delta of b the session applies, if it takes it.
fn applied(rt: &impl Abort, session: &mut Session, node: &mut Node) -> Option<usize> {
    match take(rt, session, node, DELTA_B) {
        Replies::Applied(report) => Some(settled(rt, &report)),
        _ => None,
    }
}

/// Whether the session asks as a does.
fn is_asked(rt: &impl Abort, session: &mut Session, node: &mut Node) -> bool {
    let message = got(rt, session.ask(node));
    is_spelled(rt, node.alloc, message, DIGEST_A)
}

/// Tests that a session of a asks as a does, and then applies the delta of b.
fn asks(rt: &impl Abort, session: &mut Session, node: &mut Node) {
    same(rt, &is_asked(rt, session, node), &true);
    is_greeted(rt, session, node, HELLO_B);
    let applied = applied(rt, session, node);
    same(rt, &(applied, node.upto(rt, b"b")), &(Some(1), 1));
}

#[test]
fn a_session_asks(rt: HostRuntime) {
    let mut node = Node::new(&rt, rt.alloc(), b"a", false);
    asks(&rt, &mut session_of(&rt, b"a"), &mut node);
}

/// The fault of the last of these messages, if the session is closed then.
fn closing_fault(
    rt: &impl Abort,
    session: &mut Session,
    node: &mut Node,
    frames: &[&[u8]],
) -> Option<Fault> {
    let mut last = None;
    for frame in frames {
        last = refusal(rt, session, node, frame);
    }
    match refusal(rt, session, node, HELLO_A) {
        Some(Fault::Closed) => last,
        _ => None,
    }
}

/// Tests that the last of these messages closes a session of b with this fault.
fn closes(rt: &impl Abort, alloc: Global, frames: &[&[u8]], fault: Fault) {
    let mut session = session_of(rt, b"b");
    let mut node = Node::new(rt, alloc, b"b", false);
    let found = closing_fault(rt, &mut session, &mut node, frames);
    same_at(rt, &frames, &found, &Some(fault));
}

/// Tests that a message of this kind closes a session, before Hello and after it.
fn has_no_place(rt: &impl Abort, alloc: Global, control: &[u8], kind: u8) {
    closes(rt, alloc, &[control], Fault::UnknownKind(kind));
    closes(rt, alloc, &[HELLO_A, control], Fault::UnknownKind(kind));
}

#[test]
fn messages_out_of_place_close(rt: HostRuntime) {
    let alloc = rt.alloc();
    closes(&rt, alloc, &[DIGEST_A], Fault::NoHello);
    closes(&rt, alloc, &[DELTA_B], Fault::NoHello);
    closes(&rt, alloc, &[BYE], Fault::NoHello);
    closes(&rt, alloc, &[HELLO_C2], Fault::WrongCluster);
    closes(&rt, alloc, &[HELLO_B], Fault::SameName);
    closes(&rt, alloc, &[HELLO_A, HELLO_A], Fault::SecondHello);
    closes(&rt, alloc, &[HELLO_A, HELLO_C2], Fault::SecondHello);
    closes(&rt, alloc, &[HELLO_A, HELLO_B], Fault::SecondHello);
    has_no_place(&rt, alloc, ASK, 0x10);
    has_no_place(&rt, alloc, ROWS, 0x11);
    has_no_place(&rt, alloc, PUT, 0x12);
    has_no_place(&rt, alloc, &DONE, 0x13);
    has_no_place(&rt, alloc, REFUSED, 0x14);
    has_no_place(&rt, alloc, ASK_STATUS, 0x15);
    has_no_place(&rt, alloc, NODE_STATUS, 0x16);
    has_no_place(&rt, alloc, ASK_CHANGE, 0x17);
    has_no_place(&rt, alloc, NOTICE, 0x18);
    has_no_place(&rt, alloc, ASK_AGES, 0x19);
    has_no_place(&rt, alloc, AGES, 0x1a);
}

/// Tests that the message of a frame is refused if so many calls of the handler are granted, which are too few.
fn is_ungranted(
    rt: &impl Abort,
    session: &mut Session,
    node: &mut Node,
    frame: &[u8],
    grants: u64,
) {
    node.grants = grants;
    let found = refusal(rt, session, node, frame);
    same_at(rt, &(frame, grants), &found, &Some(Fault::TurnsSpent));
}

/// Whether a digest is answered with a delta and a digest if two calls are granted.
fn is_exchanged(rt: &impl Abort, session: &mut Session, node: &mut Node) -> bool {
    node.grants = 2;
    matches!(take(rt, session, node, DIGEST_A), Replies::Exchanged(_, _))
}

/// Tests messages after Hello, and asking, with too few calls granted. Then a digest is taken.
fn refuses(rt: &impl Abort, session: &mut Session, node: &mut Node) {
    is_greeted(rt, session, node, HELLO_A);
    is_ungranted(rt, session, node, DIGEST_A, 0);
    is_ungranted(rt, session, node, DIGEST_A, 1);
    is_ungranted(rt, session, node, DIGEST_B, 0);
    is_ungranted(rt, session, node, DELTA_B, 0);
    same(rt, &session.ask(node).err(), &Some(Fault::TurnsSpent));
    same(rt, &is_exchanged(rt, session, node), &true);
}

#[test]
fn refusals_leave_the_session(rt: HostRuntime) {
    let mut node = Node::new(&rt, rt.alloc(), b"b", true);
    refuses(&rt, &mut session_of(&rt, b"b"), &mut node);
}
