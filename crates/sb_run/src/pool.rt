//! Workers that serve the sessions of a source and answer its questions, each from a seat of its own.
ghost use Rattle.std.specs.Prelude.{◌≡◌, ◌+◌, ◌<◌, ◌≤◌, length, IfSome, IfNone, IfOk, IsOk};
ghost use Rattle.std.specs.Thread.{IsSend};
ghost use Rattle.sb_handlers.specs.Gates.{IsShut, AreShut};
ghost use Rattle.sb_run.specs.Control.{AnswersAsk};
ghost use Rattle.sb_run.specs.Hellos.{Greets};
ghost use Rattle.sb_directory.specs.Serving.{IsLater};
ghost use Rattle.sb_run.specs.Pools.{IsKept, AreKept};
ghost use Rattle.sb_run.specs.Sources.{IsNumbered, IsQuestion, IsGivenBy};
ghost use Rattle.sb_run.specs.Entering.{Hears, HearsInput, IsLooking, ServesOnly, EachServes};
ghost use Rattle.sb_run.specs.Sending.{SendsAnswers};
ghost use Rattle.sb_session.specs.Sessions.{new_session};

use core::mem::replace_with;
use sb_codec::Ask;
use sb_directory::{Directory, DirectoryTag, ReaderSeat, SeatHandler};
use sb_frames::{Connection, Steps};
use sb_handlers::{
    Arrival, Asker, DeferringHandler, ForgettingHandler, ForgottenOwners, Gate, GatedHandler,
    VainOffers,
};
use sb_session::{Session, serve};
use sb_types::Fault;
use std::alloc::Global;
use std::io::{Read, Write};
use std::marker::Brand;
use std::sync::Wait;
use std::sync::atomic::{AtomicU64, Ordering};
use std::sync::ledger::{Blank, Ledger};
use std::thread;
use std::thread::Threads;

/// What a worker takes from a source.
#[derive(Drop)]
pub enum Taken<I, O> {
    /// The connection of a peer, as a reader and a writer. It has the number of its session, from 1, and how it came.
    Session(u64, Arrival, I, O),
    /// The question of a caller, and the writer that gets its answer.
    Question(Ask, O),
}

/// What gives workers their connections.
pub trait Source {
    ghost use Rattle.std.specs.Prelude.{ℕ, List, Option};
    ghost use Rattle.sb_run.specs.Sources.{IsNumbered, IsQuestion, IsGivenBy};

    type In: Read + Drop + Send;

    type Out: Write + Drop + Send;

    /// What holds once there are no more connections; it may be nothing.
    ghost over: { Self → Type 0 };

    /// What holds when it gives a question; it may be nothing. If it never gives one this may be false.
    ghost asks: { Self → Type 0 };

    /// What holds of the bytes of each connection of a peer that it gives, if they are known; it may be nothing.
    ghost gives: { Self → Option (List ℕ) → Type 0 };

    /// The next connection. `None` once there are no more; a fault if one could not be had, after which the next may be asked
    /// for.
    fn next(&self) -> Option<Result<Taken<Self::In, Self::Out>, Fault>>
        ensures numbered { IfSome result (λ next. IfOk next (λ taken. IsNumbered taken)) }
        ensures asks { IfSome result (λ next. IfOk next (λ taken. IsQuestion taken → asks self.now)) }
        ensures gives { IfSome result (λ next. IfOk next (λ taken. IsGivenBy Self.In.remaining (gives self.now) taken)) }
        ensures over { IfNone result (over self.now) };
}

/// What the workers of a pool did.
#[derive(Drop)]
pub struct Pooled<S: DirectoryTag> {
    /// How many connections of peers were taken.
    pub sessions: u64,
    /// How many connections ended with a fault, or could not be had.
    pub faults: u64,
    /// The seats that were given, in their order.
    pub seats: Vec<ReaderSeat<S>>,
}

/// What workers count.
#[derive(Drop)]
struct Tally {
    sessions: AtomicU64,
    faults: AtomicU64,
}

impl<S: DirectoryTag, H: Wait + Drop, Q: Wait> Serving<'_, S, H, Q> {
    /// Serves the session of this number from a seat, with at most `max_reads` reads, and returns whether it ended with a fault.
    fn serve_session<I: Read, O: Write, G: Gate, K: Ledger>(
        &self,
        gate: &G,
        number: u64,
        arrival: Arrival,
        connection: &mut Connection<I, O, K>,
        seat: ReaderSeat<S>,
    ) -> (ReaderSeat<S>, bool)
        requires limit { connection.old.left ≤ self.now.max_reads }
        ensures kept { IsKept (IsShut (G.lets gate.now number)) seat result.0 }
        // The seat makes the events of the deltas that came over the connection, in their order, and no other.
        ensures entered { Hears self.now.forgotten.now.names.items connection.old connection.new seat result.0 }
        ensures greets { Greets S.settings.cluster S.opening.held.me connection.old.output connection.new.output }
        // All that it sends are the node's Hello and its answers: deltas to digests, and digests.
        ensures says { SendsAnswers S.opening S.settings result.0.last_call connection.old.output connection.new.output }
        ensures reads { connection.new.steps ≤ connection.old.steps + self.now.max_reads }
    {
        let asker = arrival.name.map(Asker::Named);
        let served = SeatHandler::new(self.rt, self.directory, seat);
        let deferring = DeferringHandler::new(served, self.rt, self.vain_offers, asker);
        let gated = GatedHandler::new(deferring, gate, number, arrival);
        let mut handler = ForgettingHandler::new(gated, self.alloc, self.forgotten);
        let session = session_of(self.directory);
        let ended = serve(connection, session, &mut handler);
        gate.ended(number, &ended);
        let gated = handler.into_inner();
        let served = gated.into_inner().into_inner(self.rt);
        (served.into_seat(), ended.is_err())
    }

    /// Serves the session of this number, and counts it, and whether it ended with a fault. Its reads are the first of a ledger.
    fn serve_counted<I: Read + Drop, O: Write + Drop, G: Gate, K: Ledger>(
        &self,
        gate: &G,
        tally: &Tally,
        session: (u64, Arrival, I, O),
        seat: ReaderSeat<S>,
        blank: Blank,
    ) -> ReaderSeat<S>
        requires name { blank.name ≡ K.name }
        requires parts { blank.parts ≡ K.parts }
        requires some { 0 < blank.parts }
        ensures kept { IsKept (IsShut (G.lets gate.now session.0)) seat result }
        ensures entered { HearsInput self.now.forgotten.now.names.items (I.remaining session.2) seat result }
    {
        tally.sessions.fetch_add(1, Ordering::SeqCst);
        let (number, arrival, input, output) = session;
        let max_reads = self.max_reads;
        let steps = Steps::<K>::new(blank);
        let mut connection = Connection::new(self.alloc, input, output, max_reads, steps);
        let (seat, failed) = self.serve_session(gate, number, arrival, &mut connection, seat);
        if failed {
            tally.faults.fetch_add(1, Ordering::SeqCst);
        }
        seat
    }

    /// Answers a question, and counts whether that ended with a fault. The answer is all that it writes.
    fn answer_counted<O: Write>(
        &self,
        tally: &Tally,
        ask: &Ask,
        output: &mut O,
        seat: ReaderSeat<S>,
    ) -> ReaderSeat<S>
        ensures answers { AnswersAsk S.opening S.settings.budget seat ask.now result (O.contents output.old) (O.contents output.new) }
        ensures later { IsLater seat result }
        ensures entered { IsLooking seat result }
    {
        let (seat, sent) = self.answer_ask(output, seat, ask);
        if sent.is_err() {
            tally.faults.fetch_add(1, Ordering::SeqCst);
        }
        seat
    }

    /// Serves the session, or answers the question, that was taken from a source.
    fn serve_taken<X: Source, G: Gate>(
        &self,
        source: &X,
        gate: &G,
        tally: &Tally,
        taken: Taken<X::In, X::Out>,
        seat: ReaderSeat<S>,
    ) -> ReaderSeat<S>
        requires asks { IsQuestion taken → X.asks source.now }
        requires gives { IsGivenBy X.In.remaining (X.gives source.now) taken }
        ensures kept { IsKept (AreShut (G.lets gate.now) × (X.asks source.now → ⊥)) seat result }
        ensures entered { ServesOnly self.now.forgotten.now.names.items (X.gives source.now) seat result }
    {
        match taken {
            Taken::Session(number, arrival, input, output) => {
                self.serve_counted::<X::In, X::Out, G, Brand>(
                    gate,
                    tally,
                    (number, arrival, input, output),
                    seat,
                    Blank::new(1),
                )
            }
            Taken::Question(ask, output) => {
                let mut output = output;
                self.answer_counted(tally, &ask, &mut output, seat)
            }
        }
    }

    /// Serves connections from a seat until the source has no more.
    #[tactic(auto, using(crate::proofs::Pooling::kept_same, crate::proofs::Pooling::kept_on))]
    fn work<X: Source, G: Gate>(
        &self,
        source: &X,
        gate: &G,
        tally: &Tally,
        seat: ReaderSeat<S>,
    ) -> (ReaderSeat<S>, ())
        ensures kept { IsKept (AreShut (G.lets gate.now) × (X.asks source.now → ⊥)) seat result.0 }
        ensures entered { ServesOnly self.now.forgotten.now.names.items (X.gives source.now) seat result.0 }
        ensures over { X.over source.now }
    {
        let mut current = seat;
        for _ in self.rt.forever() {
            match source.next() {
                None => return (current, ()),
                Some(Err(_)) => {
                    tally.faults.fetch_add(1, Ordering::SeqCst);
                }
                Some(Ok(taken)) => {
                    current = self.serve_taken(source, gate, tally, taken, current);
                }
            }
        }
        unreachable!()
    }

    /// Serves connections from a seat that stays in its place.
    fn work_in_place<X: Source, G: Gate>(
        &self,
        source: &X,
        gate: &G,
        tally: &Tally,
        seat: &mut ReaderSeat<S>,
    )
        ensures kept { IsKept (AreShut (G.lets gate.now) × (X.asks source.now → ⊥)) seat.old seat.new }
        ensures entered { ServesOnly self.now.forgotten.now.names.items (X.gives source.now) seat.old seat.new }
        ensures over { X.over source.now }
    {
        // `self` is handed in: the prover keeps no clause of a closure that captures a struct with a lifetime.
        replace_with(
            seat,
            self,
            |seat, serving| -> (ReaderSeat<S>, ())
                requires { IsSend X.In.row × IsSend X.Out.row }
                ensures kept { IsKept (AreShut (G.lets gate.entry.now) × (X.asks source.entry.now → ⊥)) seat result.0 }
                ensures entered { ServesOnly serving.now.forgotten.now.names.items (X.gives source.entry.now) seat result.0 }
                ensures over { X.over source.entry.now }
            { serving.work(source, gate, tally, seat) },
        );
    }
}

impl<S, H, Q> Serving<'_, S, H, Q>
where
    S: DirectoryTag + Send + Sync,
    H: Wait + Drop + Send + Sync,
    Q: Threads + Wait + Sync,
{
    /// Serves the connections of a source until it has no more, with a worker for each seat, each in a thread of its own. The
    /// caller is one of the workers, and does the work of those whose thread can't be made. A session is of the directory's node,
    /// under its name and of its cluster. One that the gate turns away ends with `TurnsSpent`; each makes at most `max_reads`
    /// reads. A question is answered by a page of what the worker's seat reads. The seats come back in their order. If the gate
    /// lets no session apply a delta, and the source gives no question, none of them made an event or has seen more. It never
    /// refuses.
    pub fn serve_pool<X: Source + Sync, G: Gate + Sync>(
        &self,
        seats: Vec<ReaderSeat<S>>,
        source: &X,
        gate: &G,
    ) -> Result<Pooled<S>, (Fault, Vec<ReaderSeat<S>>)>
        ensures ok { IsOk result }
        ensures kept { IfOk result (λ pooled. AreKept (AreShut (G.lets gate.now) × (X.asks source.now → ⊥)) seats.items pooled.seats.items) }
        // Each event of a seat is a delta that came over a connection that the source gave, in their order.
        ensures entered { IfOk result (λ pooled. EachServes self.now.forgotten.now.names.items (X.gives source.now) seats.items pooled.seats.items) }
        // Each worker goes on until the source has no more.
        ensures over { 0 < length seats.items → X.over source.now }
    {
        let tally = Tally {
            sessions: AtomicU64::new(0),
            faults: AtomicU64::new(0),
        };
        let mut seats = seats;
        self.work_all(source, gate, &tally, &mut seats);
        Ok(Pooled {
            sessions: tally.sessions.load(Ordering::SeqCst),
            faults: tally.faults.load(Ordering::SeqCst),
            seats,
        })
    }

    /// Lets a worker serve connections from each seat, until the source has no more.
    fn work_all<X: Source + Sync, G: Gate + Sync>(
        &self,
        source: &X,
        gate: &G,
        tally: &Tally,
        seats: &mut [ReaderSeat<S>],
    )
        ensures kept { AreKept (AreShut (G.lets gate.now) × (X.asks source.now → ⊥)) seats.old seats.new }
        ensures entered { EachServes self.now.forgotten.now.names.items (X.gives source.now) seats.old seats.new }
        ensures over { 0 < length seats.old → X.over source.now }
    {
        if seats.is_empty() {
            return;
        }
        let workers = seats.len();
        thread::for_each_mut(
            self.rt,
            seats,
            workers,
            &|_, seat| -> ()
                requires { IsSend X.In.row × IsSend X.Out.row }
                ensures kept { IsKept (AreShut (G.lets gate.entry.now) × (X.asks source.entry.now → ⊥)) seat.entry.now seat.exit.now }
                ensures entered { ServesOnly self.entry.now.forgotten.now.names.items (X.gives source.entry.now) seat.entry.now seat.exit.now }
                ensures over { X.over source.entry.now }
            { self.work_in_place(source, gate, tally, seat) },
        );
    }
}

/// What it takes to serve a connection: a directory, a runtime that waits for its lock, memory, and a limit on reads.
#[derive(Drop)]
pub struct Serving<'a, S: DirectoryTag, H: Wait + Drop, Q> {
    pub rt: &'a Q,
    pub alloc: Global,
    pub directory: &'a Directory<S, H>,
    /// The owners whose blocks its sessions do not take.
    pub forgotten: &'a ForgottenOwners,
    /// What its sessions offered in vain.
    pub vain_offers: &'a VainOffers,
    /// How many reads one connection may take.
    pub max_reads: u64,
}

/// A session of the node of a directory, under its own name and of its cluster, that has not begun.
pub(crate) fn session_of<S: DirectoryTag, H: Wait + Drop>(directory: &Directory<S, H>) -> Session
    ensures { result ≡ new_session S.settings.cluster S.opening.held.me }
{
    Session::new(directory.settings().cluster(), *directory.name())
}
