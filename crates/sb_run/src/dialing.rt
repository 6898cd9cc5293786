//! One round: a session with a peer that is dialed.
ghost use Rattle.std.specs.Prelude.{◌≡◌, ◌+◌, ◌<◌, ◌≤◌, Ok};
ghost use Rattle.sb_directory.specs.Serving.{IsStill, IsLater};
ghost use Rattle.sb_run.specs.Entering.{Hears};
ghost use Rattle.sb_run.specs.Exchanges.{MakesExchanges};
ghost use Rattle.sb_run.specs.Hellos.{Greets};
ghost use Rattle.sb_run.specs.Sending.{SendsAnswers};
ghost use Rattle.sb_run.specs.Turns.{is_answer};

use crate::dialer::RoundsTag;
use crate::peers::{DownReason, PeerState};
use crate::pool::session_of;
use crate::schedule::Round;
use crate::session_end::{SessionEnd, SessionStart};
use crate::sockets::{connect, limit};
use crate::threads::NodeContext;
use sb_directory::{ReaderSeat, SeatHandler};
use sb_frames::{Connection, Steps};
use sb_handlers::{
    Arrival, Asker, DeferringHandler, ForgettingHandler, Gate, GatePoint, GatedHandler,
};
use sb_session::{Ended, dial};
use sb_types::{Delta, Fault, Name, OWNERS_MOST};
use std::io;
use std::io::{Read, Write};
use std::marker::Brand;
use std::net::Net;
use std::os::unix::net::UnixStream;
use std::sync::Wait;
use std::sync::ledger::{Blank, Ledger};
use std::time::Clock;

/// The digests that cover all owners that the node holds.
#[derive(Clone, Copy)]
pub(crate) struct OwnDigests {
    /// How many they are, at least 1.
    pub(crate) count: u64,
    /// How many bytes their payloads have.
    pub(crate) length: u64,
}

/// The digests that cover all owners that the node holds; none if memory runs out.
pub(crate) fn digests_of_all<S: RoundsTag, H: Wait + Drop, Q: Wait>(
    node: &NodeContext<S, H, Q>,
    seat: &mut ReaderSeat<S>,
) -> Option<OwnDigests>
    ensures { IsStill seat.old seat.new }
{
    let mut from = None;
    let mut length: u64 = 0;
    let most = OWNERS_MOST as u64;
    for count in 1..most {
        let Ok(digest) = node.directory.digest(node.rt, seat, from, false) else {
            return None;
        };
        length = length.saturating_add(digest.encoded_length());
        from = digest.next_from();
        if from.is_none() {
            return Some(OwnDigests { count, length });
        }
    }
    Some(OwnDigests {
        count: most,
        length,
    })
}

/// The gate of sessions with peers that were dialed. It turns nobody away. If a session brings something new, it rings the bell,
/// and those who wait for a change hear of it.
#[derive(Drop)]
struct DialedGate<'a, 'b, S: RoundsTag, H: Wait + Drop, Q> {
    node: &'a NodeContext<'b, S, H, Q>,
}

impl<S: RoundsTag, H: Wait + Drop, Q: Wait + Clock> Gate for DialedGate<'_, '_, S, H, Q> {
    ghost lets = { λ gate session point. Unit {0} };

    // It turns nobody away.
    ghost turns_away = { λ gate session point. ⊥ };

    fn pass(&self, _session: u64, _point: GatePoint) -> bool {
        true
    }

    fn entered(&self, delta: &Delta) {
        self.node.bell.enter(delta);
        self.node.tell_watchers();
    }

    fn heard(&self, owner: &Name) {
        self.node.heard.note(self.node.rt, owner);
    }

    fn missed(&self) {
        self.node.bell.miss();
    }
}

impl<S: RoundsTag, H: Wait + Drop, Q: Wait + Clock> NodeContext<'_, S, H, Q> {
    /// A session over a connection to the peer at this index, of so many exchanges of digests and deltas, and how it ended. It
    /// ends with `RoundsDone` only after all of them. It makes at most the node's `max_reads` reads. What it enters is news.
    fn talk<I: Read, O: Write, K: Ledger>(
        &self,
        connection: &mut Connection<I, O, K>,
        seat: ReaderSeat<S>,
        index: usize,
        exchanges: u64,
    ) -> (ReaderSeat<S>, Result<Ended, Fault>)
        requires limit { connection.old.left ≤ self.now.pace.max_reads }
        ensures later { IsLater seat result.0 }
        // The seat makes the events of the deltas that came over the connection, in their order, and no other.
        ensures entered { Hears self.now.forgotten.now.names.items connection.old connection.new seat result.0 }
        ensures greets { Greets S.settings.cluster S.opening.held.me connection.old.output connection.new.output }
        // All that it sends are the node's Hello and its answers: deltas to digests, and digests.
        ensures says { SendsAnswers S.opening S.settings result.0.last_call connection.old.output connection.new.output }
        ensures rounds { result.1 ≡ Ok Ended.RoundsDone → MakesExchanges exchanges connection.old connection.new }
        ensures reads { connection.new.steps ≤ connection.old.steps + self.now.pace.max_reads }
    {
        let asker = Some(Asker::Dialed(index));
        let served = SeatHandler::new(self.rt, self.directory, seat);
        let deferring = DeferringHandler::new(served, self.rt, self.vain_offers, asker);
        let gate = DialedGate { node: self };
        let gated = GatedHandler::new(deferring, &gate, 0, Arrival::unknown());
        let mut handler = ForgettingHandler::new(gated, self.alloc, self.forgotten);
        let session = session_of(self.directory);
        let ended = dial(connection, session, &mut handler, exchanges);
        let gated = handler.into_inner();
        let served = gated.into_inner().into_inner(self.rt);
        (served.into_seat(), ended)
    }
}

/// A session over the connection to a peer, which may be idle for the node's `dial_idle`, and how the peer is by it. Its reads
/// are the first of a ledger.
fn dial_stream<S: RoundsTag, H: Wait + Drop, Q: Wait + Clock, K: Ledger>(
    node: &NodeContext<S, H, Q>,
    stream: &UnixStream,
    seat: ReaderSeat<S>,
    index: usize,
    exchanges: u64,
    blank: Blank,
) -> (ReaderSeat<S>, PeerState)
    requires name { blank.name ≡ K.name }
    requires parts { blank.parts ≡ K.parts }
    requires some { 0 < blank.parts }
    ensures { IsLater seat result.0 }
{
    let max_reads = node.pace.max_reads;
    let steps = Steps::<K>::new(blank);
    let reader = PeerReader::new(stream);
    let mut connection = Connection::new(node.alloc, reader, stream, max_reads, steps);
    let (seat, ended) = node.talk(&mut connection, seat, index, exchanges);
    let (reader, _) = connection.into_parts();
    let state = PeerState::of(&ended, reader.was_heard(), reader.was_silent());
    (seat, state)
}

/// A connection to the peer at a path, with the node's `dial_idle` as its limit.
pub(crate) fn reach<S: RoundsTag, H: Wait + Drop, Q: Net>(
    node: &NodeContext<S, H, Q>,
    path: &str,
) -> io::Result<UnixStream> {
    let stream = connect(node.rt, path)?;
    limit(&stream, node.pace.dial_idle)?;
    Ok(stream)
}

/// What came of a dial of the peer at an index. Only `dial_peer` makes it, and it can't be copied, so no round ends without a dial.
#[derive(Drop)]
pub(crate) struct DialEnd {
    index: usize,
    end: SessionEnd,
}

impl DialEnd {
    /// How the session with the peer ended.
    pub(crate) fn end(&self) -> SessionEnd
        ensures { result ≡ self.now.end }
    {
        self.end
    }

    /// Whether all exchanges of the session were made.
    pub(crate) fn is_answer(&self) -> bool
        ensures { result ≡ is_answer self.now.end.state }
    {
        self.end.state.is_answer()
    }
}

/// Dials the peer of this round, for so many exchanges.
pub(crate) fn dial_peer<S: RoundsTag, H: Wait + Drop, Q: Wait + Net + Clock>(
    node: &NodeContext<S, H, Q>,
    round: &Round,
    seat: ReaderSeat<S>,
    exchanges: u64,
) -> (ReaderSeat<S>, DialEnd)
    ensures later { IsLater seat result.0 }
    ensures peer { result.1.index ≡ round.now.index }
{
    let index = round.index();
    let start = SessionStart::now(node.rt, node.pace.dial_idle);
    let (seat, state) = dial_path(node, index, round.path(), seat, exchanges);
    let end = start.ended(node.rt, state);
    (seat, DialEnd { index, end })
}

/// Dials the peer at this index and this path, for so many exchanges, and how the peer is by this round.
fn dial_path<S: RoundsTag, H: Wait + Drop, Q: Wait + Net + Clock>(
    node: &NodeContext<S, H, Q>,
    index: usize,
    path: &str,
    seat: ReaderSeat<S>,
    exchanges: u64,
) -> (ReaderSeat<S>, PeerState)
    ensures { IsLater seat result.0 }
{
    match reach(node, path) {
        Ok(stream) => {
            dial_stream::<S, H, Q, Brand>(node, &stream, seat, index, exchanges, Blank::new(1))
        }
        Err(_) => (seat, PeerState::Down(DownReason::Unreachable)),
    }
}

/// Reads from a peer, and notes what came of it.
#[derive(Drop)]
pub(crate) struct PeerReader<'a> {
    stream: &'a UnixStream,
    was_heard: bool,
    was_silent: bool,
}

impl<'a> PeerReader<'a> {
    /// Nothing was read yet.
    pub(crate) fn new(stream: &'a UnixStream) -> PeerReader<'a> {
        PeerReader {
            stream,
            was_heard: false,
            was_silent: false,
        }
    }

    /// Whether any byte came.
    pub(crate) fn was_heard(&self) -> bool
        ensures { result ≡ self.now.was_heard }
    {
        self.was_heard
    }

    /// Whether the last read that failed waited for longer than the connection may be idle.
    pub(crate) fn was_silent(&self) -> bool
        ensures { result ≡ self.now.was_silent }
    {
        self.was_silent
    }
}

/// Whether a read failed since no byte came in time.
fn is_timeout(error: &io::Error) -> bool {
    matches!(
        error.kind(),
        io::ErrorKind::WouldBlock | io::ErrorKind::TimedOut
    )
}

impl Read for PeerReader<'_> {
    fn read(&mut self, buffer: &mut [u8]) -> io::Result<usize> {
        let mut stream = self.stream;
        let read = stream.read(buffer);
        match &read {
            Ok(count) if *count > 0 => self.was_heard = true,
            Ok(_) => {}
            Err(error) => self.was_silent = is_timeout(error),
        }
        read
    }
}
