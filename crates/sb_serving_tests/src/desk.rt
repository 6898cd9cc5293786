//! A directory, with an owner that writes from its only seat.
ghost use Rattle.std.specs.Prelude.{◌≡◌, ◌<◌};

use crate::making::{key, name, new_log, new_node, weight};
use crate::{got, there};
use sb_codec::Message;
use sb_control::read_piece;
use sb_directory::{Directory, DirectoryTag, EnteredSeat, ReaderSeat};
use sb_frames::{Connection, Frames, Steps, frame_of};
use sb_log::PlainLog;
use sb_node::NodeCore;
use sb_run::{ForgottenOwners, OwnWrites, Serving, Stored, VainOffers, WriteRequest};
use sb_session::ReceivedDelta;
use sb_types::{Fault, Slot, Write};
use sb_views::NewHistory;
use std::alloc::Global;
use std::io;
use std::marker::Brand;
use std::process::Abort;
use std::sync::Wait;
use std::sync::ledger::{Blank, Ledger};

/// A directory, its seat, which is away while it enters or serves, and an owner with a new log.
#[derive(Drop)]
pub(crate) struct Desk<S: DirectoryTag, H: Wait + Drop> {
    alloc: Global,
    directory: Directory<S, H>,
    seat: Option<ReaderSeat<S>>,
    owner: OwnWrites<PlainLog>,
}

/// What is done at a desk.
pub(crate) trait Play {
    fn play<S: DirectoryTag, R: Wait + Abort>(rt: &R, alloc: Global, desk: &mut Desk<S, &R>);
}

/// Does this at the desk of a new node a with one seat.
pub(crate) fn play_at_new<P: Play, R: Wait + Abort>(rt: &R, alloc: Global) {
    let core = new_node(rt, alloc, 1);
    play_at::<P, Brand, R>(rt, alloc, NewHistory::new(), Blank::new(1), core);
}

/// The same at the desk of a node that was just opened.
fn play_at<P: Play, S: DirectoryTag, R: Wait + Abort>(
    rt: &R,
    alloc: Global,
    new_history: NewHistory,
    blank: Blank,
    core: NodeCore,
)
    requires history { new_history.seen.book ≡ S.history }
    requires opening { S.opening ≡ core.node }
    requires settings { S.settings ≡ core.settings }
    requires name { blank.name ≡ S.name }
    requires parts { blank.parts ≡ S.parts }
    requires seats { (1 ≡ S.seats) × (1 ≡ S.parts) }
{
    let made = Directory::<S, &R>::make(rt, alloc, new_history, blank, core, 1);
    let (directory, mut seats) = got(rt, made);
    let mut desk = Desk {
        alloc,
        directory,
        seat: seats.pop(),
        owner: OwnWrites::new(new_log(rt, alloc, b"a")),
    };
    P::play(rt, alloc, &mut desk);
}

impl<S: DirectoryTag, H: Wait + Drop> Desk<S, H> {
    /// Puts the weight 5 under a key.
    pub(crate) fn put<Q: Wait + Abort>(&mut self, rt: &Q, text: &[u8]) -> Result<Stored, Fault> {
        let seat = there(rt, self.seat.as_mut());
        let asked = asked_of(rt, self.alloc, text, weight(rt, 5));
        self.owner.put(rt, &self.directory, seat, asked)
    }

    /// Removes a key.
    pub(crate) fn remove<Q: Wait + Abort>(&mut self, rt: &Q, text: &[u8]) -> Result<Stored, Fault> {
        let seat = there(rt, self.seat.as_mut());
        let asked = asked_of(rt, self.alloc, text, Slot::Removed);
        self.owner.put(rt, &self.directory, seat, asked)
    }

    /// Purges if there are so many removed keys. Returns the new floor if there were, and how many keys there are then.
    pub(crate) fn purge<Q: Wait + Abort>(
        &mut self,
        rt: &Q,
        least: u64,
    ) -> Result<(Option<u64>, usize), Fault> {
        let seat = there(rt, self.seat.as_mut());
        let floor = self.owner.purge(rt, &self.directory, seat, least)?;
        Ok((floor, self.directory.key_count(rt, seat)))
    }

    /// Makes the directory take a delta.
    pub(crate) fn apply<Q: Wait + Abort>(&mut self, rt: &Q, delta: &ReceivedDelta) {
        let seat = there(rt, self.seat.as_mut());
        got(rt, self.directory.apply(rt, seat, delta));
    }

    /// How far readers are shown the writes of a. If memory is missing to show all that happened, the test ends.
    pub(crate) fn shown_upto<Q: Wait + Abort>(&mut self, rt: &Q) -> u64 {
        let seat = there(rt, self.seat.as_mut());
        if !self.directory.refresh(rt, seat) {
            panic!(rt; "error: NoMemory");
        }
        let (seat, upto) = upto_of_a(rt, there(rt, self.seat.take()));
        self.seat = Some(seat);
        upto
    }

    /// Answers one request, over a reader that holds it.
    pub(crate) fn serve<Q: Wait + Abort>(
        &mut self,
        rt: &Q,
        alloc: Global,
        request: &[u8],
        answer: &mut Vec<u8>,
    ) {
        let mut reader = request;
        got(rt, self.serve_over(rt, alloc, &mut reader, answer, 1));
    }

    /// Answers one request over a reader and a writer, with at most so many reads.
    pub(crate) fn serve_over<Q: Wait + Abort, R: io::Read, W: io::Write>(
        &mut self,
        rt: &Q,
        alloc: Global,
        reader: &mut R,
        writer: &mut W,
        max_reads: u64,
    ) -> Result<(), Fault> {
        let seat = there(rt, self.seat.take());
        let (none, vain_offers) = (ForgottenOwners::none(alloc), VainOffers::new(alloc));
        let serving = Serving {
            rt,
            alloc,
            directory: &self.directory,
            forgotten: &none,
            vain_offers: &vain_offers,
            max_reads,
        };
        let (seat, ended) = serve_from::<S, H, Q, R, W, Brand>(
            &serving,
            &mut self.owner,
            seat,
            reader,
            writer,
            Blank::new(1),
        );
        self.seat = Some(seat);
        ended
    }
}

/// What a caller asks for that wants this under a key.
fn asked_of<Q: Abort>(rt: &Q, alloc: Global, text: &[u8], slot: Slot) -> WriteRequest {
    let key = key(rt, text);
    let frame = got(rt, frame_of(alloc, &Message::Put(Write { key, slot })));
    read_from::<Q, Brand>(rt, alloc, &frame, Blank::new(1))
}

/// The write for which the request in these bytes asks.
fn read_from<Q: Abort, K: Ledger>(rt: &Q, alloc: Global, bytes: &[u8], blank: Blank) -> WriteRequest
    requires name { blank.name ≡ K.name }
    requires parts { blank.parts ≡ K.parts }
    requires some { 0 < blank.parts }
{
    let mut reader = bytes;
    let (mut frames, mut left, mut steps) = (Frames::new(alloc), 1, Steps::<K>::new(blank));
    let piece = read_piece(&mut reader, &mut frames, &mut left, &mut steps);
    match WriteRequest::of_caller(there(rt, got(rt, piece))) {
        Ok(asked) => asked,
        Err(_) => panic!(rt; "error: it asks for no write"),
    }
}

/// How far a reader sees the writes of a.
fn upto_of_a<S: DirectoryTag>(rt: &impl Abort, seat: ReaderSeat<S>) -> (ReaderSeat<S>, u64) {
    match seat.enter() {
        Ok(entered) => {
            let upto = seen_of_a(rt, &entered);
            (entered.leave(), upto)
        }
        Err(_) => panic!(rt; "error: Closed"),
    }
}

fn seen_of_a<S: DirectoryTag>(rt: &impl Abort, entered: &EnteredSeat<S>) -> u64 {
    entered.snapshot().upto(&name(rt, b"a"))
}

fn serve_from<
    S: DirectoryTag,
    H: Wait + Drop,
    Q: Wait + Abort,
    R: io::Read,
    W: io::Write,
    K: Ledger,
>(
    serving: &Serving<S, H, Q>,
    owner: &mut OwnWrites<PlainLog>,
    seat: ReaderSeat<S>,
    reader: &mut R,
    writer: &mut W,
    blank: Blank,
) -> (ReaderSeat<S>, Result<(), Fault>)
    requires name { blank.name ≡ K.name }
    requires parts { blank.parts ≡ K.parts }
    requires some { 0 < blank.parts }
{
    let steps = Steps::<K>::new(blank);
    let mut connection = Connection::new(serving.alloc, reader, writer, serving.max_reads, steps);
    serving.serve_control(&mut connection, owner, seat)
}
