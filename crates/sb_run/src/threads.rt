//! The threads of a running node.
ghost use Rattle.std.specs.Prelude.{◌≡◌, ◌⊎◌, true, false, IsSome, vec_len, vec_capacity, Ok, Err, IfOk, IfErr, IsErr, ◌+◌, ◌-◌, ◌≤◌, min, length};
ghost use Rattle.std.specs.Thread.{IsSend, IsSync};
ghost use Rattle.sb_run.specs.Closing.{seen_by, why_of};
ghost use Rattle.sb_run.specs.Running.{IsEndFault, IsOpenedFrom};

use crate::accepting::Acceptor;
use crate::arrivals::{Arrivals, Asked, Jobs, Requests};
use crate::bell::Bell;
use crate::control_socket::ControlEnd;
use crate::counts::Counts;
use crate::dialer::{Dialing, Rounds, RoundsReceiver, RoundsSender, RoundsTag, Turns};
use crate::first_hearing::FirstHearing;
use crate::heard::HeardTimes;
use crate::http_writes::WriteDesk;
use crate::log_watch::LogWatch;
use crate::node::{Beat, OnLogFault, Pace, Runtime};
use crate::observer::Observer;
use crate::own_writes::{ClosableLog, OwnWrites};
use crate::pool::{Pooled, Serving};
use crate::sockets::BoundSockets;
use crate::watchers::WatcherCount;
use sb_control::LogCause;
use sb_digest::Digest;
use sb_directory::{Directory, DirectoryTag, ReaderSeat};
use sb_handlers::{Arrival, ForgottenOwners, Gate, GatePoint, ReportedVersions, VainOffers};
use sb_log::{StoreCause, WriteLog};
use sb_session::Ended;
use sb_types::{Delta, Fault, Name};
use std::alloc::Global;
use std::net::{Net, TcpListener, TcpStream};
use std::sync::atomic::{AtomicBool, Ordering};
use std::sync::{Mutex, Wait};
use std::thread;
use std::thread::{JoinHandle, Promise, PromisedHandle, Scope, Threads};
use std::time::Clock;

/// What the threads of a node left.
#[derive(Drop)]
pub(crate) struct ThreadsEnd<S: RoundsTag> {
    pub(crate) thread_seats: ThreadSeats<S>,
    pub(crate) rounds: Rounds<S>,
    /// How many connections and rounds had a fault.
    pub(crate) faults: u64,
}

/// What the threads of a node have beside their seats: one thread each has a part of it.
#[derive(Drop)]
pub(crate) struct Links<'a, S: RoundsTag> {
    acceptor: Acceptor,
    jobs: Jobs,
    turns: Turns<'a>,
    requests: Requests,
    rounds_sender: RoundsSender<S>,
    rounds_receiver: RoundsReceiver<S>,
}

impl<'a, S: RoundsTag> Links<'a, S> {
    /// What the threads are given. The dialing thread sends its rounds over the last.
    pub(crate) fn new(
        acceptor: Acceptor,
        jobs: Jobs,
        requests: Requests,
        turns: Turns<'a>,
        rounds: (RoundsSender<S>, RoundsReceiver<S>),
    ) -> Links<'a, S> {
        let (rounds_sender, rounds_receiver) = rounds;
        Links {
            acceptor,
            jobs,
            turns,
            requests,
            rounds_sender,
            rounds_receiver,
        }
    }
}

/// The seats of the threads that dial.
#[derive(Drop)]
struct DialingSeats<S: RoundsTag> {
    news: Vec<ReaderSeat<S>>,
    turns: ReaderSeat<S>,
}

/// The thread that accepts, and that of the pool.
#[derive(Drop)]
struct ServingThreads<S: RoundsTag> {
    accepting: JoinHandle<u64>,
    pool: PromisedHandle<Pooled<S>, AsMany>,
}

/// The first thread for news, and the one that dials in turn.
#[derive(Drop)]
struct DialingThreads<S: RoundsTag> {
    news: PromisedHandle<Vec<ReaderSeat<S>>, AsManyIn>,
    turns: JoinHandle<ReaderSeat<S>>,
}

/// The first thread that answers over HTTP. It ends at once if there is no seat for it.
type HttpThread<S> = PromisedHandle<Vec<ReaderSeat<S>>, AsManySeats>;

/// The seats of the threads that answer: those of the workers, and those for HTTP.
#[derive(Drop)]
struct AnsweringSeats<S: RoundsTag> {
    workers: Vec<ReaderSeat<S>>,
    http: Vec<ReaderSeat<S>>,
}

/// The threads that answer, and the one that accepts.
#[derive(Drop)]
struct AnsweringThreads<S: RoundsTag> {
    serving: ServingThreads<S>,
    http: HttpThread<S>,
}

/// That a thread gives so many seats back.
#[derive(Clone, Copy)]
struct AsManySeats(usize);

impl<S: DirectoryTag> Promise<Vec<ReaderSeat<S>>> for AsManySeats {
    ghost use Rattle.std.specs.Prelude.{◌≡◌, vec_len};

    ghost kept_by = { λ p seats. vec_len seats ≡ p.0 };
}

/// That threads give as many seats back, in a list with as much room.
#[derive(Clone, Copy)]
struct AsManyIn {
    count: usize,
    room: usize,
}

impl<S: DirectoryTag> Promise<Vec<ReaderSeat<S>>> for AsManyIn {
    ghost use Rattle.std.specs.Prelude.{◌≡◌, vec_len, vec_capacity};

    ghost kept_by = { λ p seats. (vec_len seats ≡ p.count) × (vec_capacity seats ≡ p.room) };
}

/// That a pool gives so many seats back.
#[derive(Clone, Copy)]
struct AsMany(usize);

impl<S: DirectoryTag> Promise<Pooled<S>> for AsMany {
    ghost use Rattle.std.specs.Prelude.{◌≡◌, vec_len};

    ghost kept_by = { λ p r. vec_len r.seats ≡ p.0 };
}

/// Serves the peers that were accepted, and answers questions, until the node is to end, with a worker for each seat.
fn serve_arrivals<
    S: RoundsTag + Send + Sync,
    H: Wait + Drop + Send + Sync,
    Q: Threads + Wait + Clock + Sync,
>(node: &NodeContext<S, H, Q>, jobs: Jobs, seats: Vec<ReaderSeat<S>>) -> Pooled<S>
    ensures { vec_len result.seats ≡ vec_len seats }
{
    let source = Arrivals::new(
        node.rt,
        jobs,
        node.ending,
        node.asked,
        node.pace,
        node.counts,
    );
    let gate = NodeGate { node };
    let serving = node.serving();
    match serving.serve_pool(seats, &source, &gate) {
        Ok(pooled) => pooled,
        Err(_) => unreachable!(),
    }
}

/// Makes all rounds, sends how many to the owner's thread, and ends the node; or leaves if the node ended before.
fn dial_to_the_end<'a, S: RoundsTag, H: Wait + Drop, Q: Wait + Net + Clock, O: Observer>(
    node: &NodeContext<S, H, Q>,
    dialing: &Dialing<'a, O>,
    turns: Turns<'a>,
    seat: ReaderSeat<S>,
    rounds_sender: RoundsSender<S>,
) -> ReaderSeat<S> {
    let (seat, rounds) = turns.dial_all(node, dialing, seat);
    if let Some(rounds) = rounds {
        rounds_sender.send(node.rt, rounds);
        node.end();
    }
    seat
}

/// Starts the thread that accepts, and that of the pool, which has a worker for each seat. `NoMemory` if one of them can't be
/// made; then the node has ended, and neither runs.
fn start_serving<
    's,
    E,
    S: RoundsTag + Send + Sync,
    H: Wait + Drop + Send + Sync,
    Q: Runtime + Net<Listener = TcpListener, Stream = TcpStream>,
>(
    scope: &Scope<'s, E>,
    node: &'s NodeContext<'s, S, H, Q>,
    acceptor: Acceptor,
    jobs: Jobs,
    workers: Vec<ReaderSeat<S>>,
) -> Result<ServingThreads<S>, Fault>
    ensures pool { IfOk result (λ threads. threads.pool.promise.0 ≡ vec_len workers) }
    ensures memory { IfErr result (λ fault. fault ≡ Fault.NoMemory) }
{
    let count = workers.len();
    let Ok(accepting) = scope.spawn(move || acceptor.accept_all(node)) else {
        return Err(Fault::NoMemory);
    };
    let Ok(pool) = scope.spawn_with(AsMany(count), move || serve_arrivals(node, jobs, workers))
    else {
        node.end();
        accepting.join(node.rt);
        return Err(Fault::NoMemory);
    };
    Ok(ServingThreads { accepting, pool })
}

impl<S: RoundsTag> ServingThreads<S> {
    /// Waits until both threads end: what the workers left, and how many connections were closed unserved or times none could be accepted.
    fn join<Q: Threads>(self, rt: &Q) -> (Pooled<S>, u64)
        ensures { vec_len result.0.seats ≡ self.pool.promise.0 }
    {
        let ServingThreads { accepting, pool } = self;
        let pooled = pool.join(rt);
        (pooled, accepting.join(rt))
    }
}

impl<S: RoundsTag> AnsweringThreads<S> {
    /// Waits until all of them end: what the first two left, and the seats for HTTP.
    fn join<Q: Threads>(self, rt: &Q) -> ((Pooled<S>, u64), Vec<ReaderSeat<S>>)
        ensures workers { vec_len result.0.0.seats ≡ self.serving.pool.promise.0 }
        ensures http { vec_len result.1 ≡ self.http.promise.0 }
    {
        let AnsweringThreads { serving, http } = self;
        let served = serving.join(rt);
        (served, http.join(rt))
    }
}

impl<S: RoundsTag> DialingThreads<S> {
    /// Waits until all of them end: their seats.
    fn join<Q: Threads>(self, rt: &Q) -> DialingSeats<S>
        ensures { (vec_len result.news ≡ self.news.promise.count) × (vec_capacity result.news ≡ self.news.promise.room) }
    {
        let DialingThreads { news, turns } = self;
        DialingSeats {
            news: news.join(rt),
            turns: turns.join(rt),
        }
    }
}

impl<'a, O: Observer + Sync> Dialing<'a, O> {
    /// Starts the first thread for news, and the one that dials in turn. `NoMemory` if one of them can't be made; then the node
    /// has ended, and neither runs.
    fn start_dialing<
        's,
        E,
        S: RoundsTag + Send + Sync,
        H: Wait + Drop + Send + Sync,
        Q: Runtime + Net<Listener = TcpListener, Stream = TcpStream>,
    >(
        &'s self,
        scope: &Scope<'s, E>,
        node: &'s NodeContext<'s, S, H, Q>,
        turns: Turns<'a>,
        seats: DialingSeats<S>,
        rounds_sender: RoundsSender<S>,
    ) -> Result<DialingThreads<S>, Fault>
        ensures news { IfOk result (λ threads. (threads.news.promise.count ≡ vec_len seats.news) × (threads.news.promise.room ≡ vec_capacity seats.news)) }
        ensures memory { IfErr result (λ fault. fault ≡ Fault.NoMemory) }
    {
        let DialingSeats { news, turns: seat } = seats;
        let for_news = AsManyIn {
            count: news.len(),
            room: news.capacity(),
        };
        let Ok(news) = scope.spawn_with(for_news, move || self.dial_from_all(node, news)) else {
            node.end();
            return Err(Fault::NoMemory);
        };
        let in_turn = scope.spawn(move || dial_to_the_end(node, self, turns, seat, rounds_sender));
        let Ok(turns) = in_turn else {
            node.end();
            news.join(node.rt);
            return Err(Fault::NoMemory);
        };
        Ok(DialingThreads { news, turns })
    }

    /// Starts the first thread that answers over HTTP. `NoMemory` if it can't be made; then the node has ended.
    fn start_http<
        's,
        E,
        S: RoundsTag + Send + Sync,
        H: Wait + Drop + Send + Sync,
        Q: Runtime + Net<Listener = TcpListener, Stream = TcpStream>,
    >(
        &'s self,
        scope: &Scope<'s, E>,
        node: &'s NodeContext<'s, S, H, Q>,
        seats: Vec<ReaderSeat<S>>,
    ) -> Result<HttpThread<S>, Fault>
        ensures seats { IfOk result (λ thread. thread.promise.0 ≡ vec_len seats) }
        ensures memory { IfErr result (λ fault. fault ≡ Fault.NoMemory) }
    {
        let as_many = AsManySeats(seats.len());
        match scope.spawn_with(as_many, move || node.answer_http(self, seats)) {
            Ok(thread) => Ok(thread),
            Err(_) => {
                node.end();
                Err(Fault::NoMemory)
            }
        }
    }

    /// Starts the thread that accepts, that of the pool, and the first that answers over HTTP. `NoMemory` if one of them can't be
    /// made; then the node has ended, and none runs.
    fn start_answering<
        's,
        E,
        S: RoundsTag + Send + Sync,
        H: Wait + Drop + Send + Sync,
        Q: Runtime + Net<Listener = TcpListener, Stream = TcpStream>,
    >(
        &'s self,
        scope: &Scope<'s, E>,
        node: &'s NodeContext<'s, S, H, Q>,
        acceptor: Acceptor,
        jobs: Jobs,
        seats: AnsweringSeats<S>,
    ) -> Result<AnsweringThreads<S>, Fault>
        ensures workers { IfOk result (λ threads. threads.serving.pool.promise.0 ≡ vec_len seats.workers) }
        ensures http { IfOk result (λ threads. threads.http.promise.0 ≡ vec_len seats.http) }
        ensures memory { IfErr result (λ fault. fault ≡ Fault.NoMemory) }
    {
        let AnsweringSeats { workers, http } = seats;
        let Ok(serving) = start_serving(scope, node, acceptor, jobs, workers) else {
            return Err(Fault::NoMemory);
        };
        let Ok(http) = self.start_http(scope, node, http) else {
            serving.join(node.rt);
            return Err(Fault::NoMemory);
        };
        Ok(AnsweringThreads { serving, http })
    }

    /// Runs the threads of a node to their end, in a scope of their own. One accepts, some are workers, some dial, and the calling
    /// one makes the own writes. `NoMemory` if one of five threads can't be made. They are the one that accepts, that of the pool, the
    /// first for HTTP, the first for news, and the one that dials in turn. `StoreFailed` if the log failed and the node is to exit then.
    fn run_within<
        's,
        E,
        S: RoundsTag + Send + Sync,
        L: WriteLog + Drop,
        H: Wait + Drop + Send + Sync,
        Q: Runtime + Net<Listener = TcpListener, Stream = TcpStream>,
    >(
        &'s self,
        scope: &Scope<'s, E>,
        node: &'s NodeContext<'s, S, H, Q>,
        writes: OwnWrites<ClosableLog<L>>,
        thread_seats: ThreadSeats<S>,
        links: Links<'a, S>,
    ) -> Result<ThreadsEnd<S>, Fault>
        requires opened { IsOpenedFrom (seen_by (L.seen writes.log.log) writes.log.closed_by) S.opening }
        ensures thread_seats { IfOk result (λ finished. vec_len finished.thread_seats.workers ≡ vec_len thread_seats.workers) }
        ensures news { IfOk result (λ finished. (vec_len finished.thread_seats.news ≡ vec_len thread_seats.news)
            × (vec_capacity finished.thread_seats.news ≡ vec_capacity thread_seats.news)) }
        ensures http { IfOk result (λ finished. vec_len finished.thread_seats.http ≡ vec_len thread_seats.http) }
        ensures fault { IfErr result (IsEndFault node.now.pace.on_log_fault) }
        ensures failed { writes.has_failed ≡ true → node.now.pace.on_log_fault ≡ OnLogFault.Exit → IsErr result }
    {
        let ThreadSeats {
            workers,
            news,
            http,
            dialing,
            control,
        } = thread_seats;
        let Links {
            acceptor,
            jobs,
            turns,
            requests,
            rounds_sender,
            rounds_receiver,
        } = links;
        let seats = AnsweringSeats { workers, http };
        let Ok(answering) = self.start_answering(scope, node, acceptor, jobs, seats) else {
            return Err(Fault::NoMemory);
        };
        let seats = DialingSeats {
            news,
            turns: dialing,
        };
        let Ok(dialing) = self.start_dialing(scope, node, turns, seats, rounds_sender) else {
            answering.join(node.rt);
            return Err(Fault::NoMemory);
        };
        let at_control = node.answer_requests(requests, writes, control, self);
        let rounds = rounds_receiver.receive(node.rt);
        let dialed = dialing.join(node.rt);
        let served = answering.join(node.rt);
        threads_end(served, dialed, at_control, rounds)
    }

    /// Does the same in a scope, which lets the threads borrow what they share.
    pub(crate) fn run_threads<
        S: RoundsTag + Send + Sync,
        L: WriteLog + Drop,
        H: Wait + Drop + Send + Sync,
        Q: Runtime + Net<Listener = TcpListener, Stream = TcpStream>,
    >(
        &self,
        node: &NodeContext<S, H, Q>,
        writes: OwnWrites<ClosableLog<L>>,
        thread_seats: ThreadSeats<S>,
        links: Links<'a, S>,
    ) -> Result<ThreadsEnd<S>, Fault>
        requires opened { IsOpenedFrom (seen_by (L.seen writes.log.log) writes.log.closed_by) S.opening }
        requires workers { vec_len thread_seats.workers ≡ S.settings.workers }
        ensures thread_seats { IfOk result (λ finished. vec_len finished.thread_seats.workers ≡ vec_len thread_seats.workers) }
        ensures news { IfOk result (λ finished. (vec_len finished.thread_seats.news ≡ vec_len thread_seats.news)
            × (vec_capacity finished.thread_seats.news ≡ vec_capacity thread_seats.news)) }
        ensures http { IfOk result (λ finished. vec_len finished.thread_seats.http ≡ vec_len thread_seats.http) }
        ensures fault { IfErr result (IsEndFault node.now.pace.on_log_fault) }
        ensures failed { writes.has_failed ≡ true → node.now.pace.on_log_fault ≡ OnLogFault.Exit → IsErr result }
    {
        thread::scope(
            thread::scope_env(),
            node.rt,
            move |scope| -> Result<ThreadsEnd<S>, Fault>
                requires { IsSend S.row × IsSync S.row × IsSend H.row × IsSync H.row × IsSend Q.row × IsSync Q.row × IsSync O.row
                    × IsOpenedFrom (seen_by (L.seen writes.log.log) writes.log.closed_by) S.opening }
                ensures thread_seats { IfOk result (λ finished. vec_len finished.thread_seats.workers ≡ vec_len thread_seats.workers) }
                ensures news { IfOk result (λ finished. (vec_len finished.thread_seats.news ≡ vec_len thread_seats.news)
                    × (vec_capacity finished.thread_seats.news ≡ vec_capacity thread_seats.news)) }
                ensures http { IfOk result (λ finished. vec_len finished.thread_seats.http ≡ vec_len thread_seats.http) }
                ensures fault { IfErr result (IsEndFault node.entry.now.pace.on_log_fault) }
                ensures failed { writes.has_failed ≡ true → node.entry.now.pace.on_log_fault ≡ OnLogFault.Exit → IsErr result }
            { self.run_within(scope, node, writes, thread_seats, links) },
        )
    }
}

/// Puts together what the threads left. `StoreFailed` if the calling one ended the node because its log failed; then the fault of
/// the rounds.
fn threads_end<S: RoundsTag>(
    served: ((Pooled<S>, u64), Vec<ReaderSeat<S>>),
    dialed: DialingSeats<S>,
    at_control: ControlEnd<S>,
    rounds: Result<Rounds<S>, Fault>,
) -> Result<ThreadsEnd<S>, Fault>
    ensures left { at_control.has_left ≡ true → result ≡ Err Fault.StoreFailed }
    ensures fault { at_control.has_left ≡ false → IfErr result (λ fault. rounds ≡ Err fault) }
    ensures rounds { IfOk result (λ finished. rounds ≡ Ok finished.rounds) }
    ensures seats { IfOk result (λ finished. (finished.thread_seats.workers ≡ served.0.0.seats) × (finished.thread_seats.news ≡ dialed.news) × (finished.thread_seats.http ≡ served.1)) }
{
    let ((pooled, of_accepting), http) = served;
    let Pooled {
        sessions: _,
        faults: of_workers,
        seats: workers,
    } = pooled;
    let ControlEnd {
        seat: control,
        faults: of_control,
        has_left,
    } = at_control;
    if has_left {
        return Err(Fault::StoreFailed);
    }
    let rounds = rounds?;
    let faults = of_control
        .saturating_add(of_workers)
        .saturating_add(of_accepting)
        .saturating_add(rounds.faults);
    let DialingSeats {
        news,
        turns: dialing,
    } = dialed;
    let thread_seats = ThreadSeats {
        workers,
        news,
        http,
        dialing,
        control,
    };
    Ok(ThreadsEnd {
        thread_seats,
        rounds,
        faults,
    })
}

/// The seats of a node's threads. Each worker and each thread that dials for news has one, and so have the thread that dials in
/// turn and the owner's thread.
#[derive(Drop)]
pub(crate) struct ThreadSeats<S: DirectoryTag> {
    pub(crate) workers: Vec<ReaderSeat<S>>,
    /// With room for all seats of the node.
    pub(crate) news: Vec<ReaderSeat<S>>,
    /// Those that answer over HTTP.
    pub(crate) http: Vec<ReaderSeat<S>>,
    pub(crate) dialing: ReaderSeat<S>,
    pub(crate) control: ReaderSeat<S>,
}

/// Gives so many workers, the thread that dials in turn and the owner's thread a seat each. Of the others at most so many are for
/// HTTP, and the rest for news. `NoMemory`.
pub(crate) fn part_seats<S: DirectoryTag>(
    seats: Vec<ReaderSeat<S>>,
    workers: usize,
    http: usize,
) -> Result<ThreadSeats<S>, Fault>
    requires { workers + 2 ≤ vec_len seats }
    ensures workers { IfOk result (λ parted. vec_len parted.workers ≡ workers) }
    ensures news { IfOk result (λ parted. vec_len parted.news + vec_len parted.http + (workers + 2) ≡ vec_len seats) }
    ensures http { IfOk result (λ parted. vec_len parted.http ≡ min http (vec_len seats - (workers + 2))) }
    ensures room { IfOk result (λ parted. vec_len seats ≤ vec_capacity parted.news) }
    ensures memory { IfErr result (λ fault. fault ≡ Fault.NoMemory) }
{
    let mut front = seats;
    let mut news = front.split_off(workers)?;
    news.reserve(workers)?;
    let Some(dialing) = news.pop() else {
        unreachable!();
    };
    let Some(control) = news.pop() else {
        unreachable!();
    };
    let left = news.len().saturating_sub(http);
    let http = news.split_off(left)?;
    Ok(ThreadSeats {
        workers: front,
        news,
        http,
        dialing,
        control,
    })
}

/// Adds seats to a list that has room for them.
fn with_seats<S: DirectoryTag>(
    all: Vec<ReaderSeat<S>>,
    seats: Vec<ReaderSeat<S>>,
) -> Vec<ReaderSeat<S>>
    requires { vec_len all + vec_len seats ≤ vec_capacity all }
    ensures len { vec_len result ≡ vec_len all + vec_len seats }
    ensures room { vec_capacity all ≤ vec_capacity result }
{
    let mut all = all;
    let mut seats = seats;
    match all.append(&mut seats) {
        Ok(()) => all,
        Err(_) => unreachable!(),
    }
}

/// All seats, those for news first.
pub(crate) fn gather_seats<S: DirectoryTag>(thread_seats: ThreadSeats<S>) -> Vec<ReaderSeat<S>>
    requires { vec_len thread_seats.news + vec_len thread_seats.http + (vec_len thread_seats.workers + 2) ≤ vec_capacity thread_seats.news }
    ensures { vec_len result ≡ vec_len thread_seats.news + vec_len thread_seats.http + (vec_len thread_seats.workers + 2) }
{
    let ThreadSeats {
        workers,
        news,
        http,
        dialing,
        control,
    } = thread_seats;
    let mut all = news;
    all.push_reserved(control);
    all.push_reserved(dialing);
    with_seats(with_seats(all, http), workers)
}

/// A running node, which its threads share.
#[derive(Drop)]
pub(crate) struct NodeContext<'a, S: RoundsTag, H: Wait + Drop, Q> {
    pub(crate) rt: &'a Q,
    pub(crate) alloc: Global,
    pub(crate) directory: &'a Directory<S, H>,
    pub(crate) sockets: &'a BoundSockets<'a>,
    pub(crate) ending: &'a EndFlag,
    pub(crate) bell: &'a Bell,
    pub(crate) counts: &'a Counts,
    pub(crate) asked: &'a Asked,
    pub(crate) desk: &'a WriteDesk,
    pub(crate) forgotten: &'a ForgottenOwners,
    pub(crate) vain_offers: &'a VainOffers,
    /// Which peers were heard.
    pub(crate) hearing: &'a Mutex<FirstHearing>,
    pub(crate) watchers: &'a WatcherCount,
    pub(crate) heard: &'a HeardTimes,
    /// What version other nodes reported of themselves.
    pub(crate) reported_versions: &'a ReportedVersions,
    pub(crate) pace: Pace,
    /// How the node shows that it lives, if it does.
    pub(crate) beat: Option<Beat>,
    ghost paced: { pace.rounds ≡ S.rounds },
}

impl<S: RoundsTag, H: Wait + Drop, Q> NodeContext<'_, S, H, Q> {
    /// What it takes to serve a connection of the node.
    pub(crate) fn serving(&self) -> Serving<'_, S, H, Q>
        ensures { result.max_reads ≡ self.now.pace.max_reads }
    {
        Serving {
            rt: self.rt,
            alloc: self.alloc,
            directory: self.directory,
            forgotten: self.forgotten,
            vain_offers: self.vain_offers,
            max_reads: self.pace.max_reads,
        }
    }
}

impl<S: RoundsTag, H: Wait + Drop, Q> NodeContext<'_, S, H, Q> {
    /// Ends the thread that accepts, and with it what the workers and the owner's thread wait for, and wakes those that dial.
    pub(crate) fn end(&self) {
        self.ending.raise(self.sockets);
        self.bell.wake();
    }
}

/// Whether the node is to end. Whoever waits for the next connection, request or turn asks it after each wait.
#[derive(Drop)]
pub(crate) struct EndFlag {
    flag: AtomicBool,
}

impl EndFlag {
    /// It is not to end yet.
    pub(crate) fn new() -> EndFlag {
        EndFlag {
            flag: AtomicBool::new(false),
        }
    }

    /// Whether the node is to end.
    pub(crate) fn is_raised(&self) -> bool {
        self.flag.load(Ordering::SeqCst)
    }

    /// Ends the node: wakes the thread that accepts, and its end is that of what the workers and the owner's thread wait for.
    pub(crate) fn raise(&self, sockets: &BoundSockets) {
        self.flag.store(true, Ordering::SeqCst);
        sockets.wake_for_end();
    }
}

impl<S: RoundsTag, H: Wait + Drop, Q> NodeContext<'_, S, H, Q> {
    /// Notes why the node takes no more writes into its log, and reports that to the observer, unless another cause was noted before.
    pub(crate) fn note_log_cause<O: Observer>(&self, cause: LogCause, observer: &O) {
        if self.counts.fail_log(cause) {
            observer.log_failed(cause);
        }
    }

    /// Notes that the file of the log is lost, if the observer finds that. A log that failed before is not looked at.
    pub(crate) fn look_at_log<O: Observer>(&self, observer: &O) {
        if self.counts.log_cause().is_some() {
            return;
        }
        if let Some(loss) = observer.log_loss() {
            self.note_log_cause(LogCause::Lost(loss), observer);
        }
    }

    /// Whether the file of the log was found lost.
    fn has_lost_log(&self) -> bool {
        matches!(self.counts.log_cause(), Some(LogCause::Lost(_)))
    }

    /// Closes the log if its file is lost: what the log took from then on would be lost too. Unless the log is closed, it looks at
    /// the file first, and notes the loss.
    pub(crate) fn close_lost_log<L: WriteLog, W: LogWatch, O: Observer>(
        &self,
        writes: &mut OwnWrites<ClosableLog<L>>,
        watch: &W,
        observer: &O,
    )
        ensures log { writes.new.log.log ≡ writes.old.log.log }
        ensures owed { writes.new.owed ≡ writes.old.owed }
        ensures failed { writes.new.has_failed ≡ writes.old.has_failed }
        // The log is closed then, or its file is there.
        ensures closes { IsSome (why_of (L.why writes.new.log.log) writes.new.log.closed_by) ⊎ W.finds_file watch.now }
    {
        if writes.cause().is_some() {
            return;
        }
        if !self.has_lost_log() {
            let Some(loss) = watch.loss() else {
                return;
            };
            self.note_log_cause(LogCause::Lost(loss), observer);
        }
        writes.close_log(StoreCause::CannotOpen);
    }

    /// Whether the node is to end because its log takes no more writes.
    pub(crate) fn ends_by_log(&self) -> bool
        ensures { result ≡ true → self.now.pace.on_log_fault ≡ OnLogFault.Exit }
    {
        match self.pace.on_log_fault {
            OnLogFault::Exit => self.counts.log_cause().is_some(),
            OnLogFault::Serve => false,
        }
    }
}

/// A gate that turns nobody away, counts each session, its fault and each gap, and takes what digests report of their senders. If a
/// session brings something new, it rings the bell, and those who wait for a change hear of it.
#[derive(Drop)]
pub(crate) struct NodeGate<'a, 'b, S: RoundsTag, H: Wait + Drop, Q> {
    pub(crate) node: &'a NodeContext<'b, S, H, Q>,
}

impl<S: RoundsTag, H: Wait + Drop, Q: Wait + Clock> Gate for NodeGate<'_, '_, S, H, Q> {
    ghost lets = { λ gate session point. Unit {0} };

    // It turns nobody away.
    ghost turns_away = { λ gate session point. ⊥ };

    fn pass(&self, _session: u64, _point: GatePoint) -> bool {
        true
    }

    fn digest_came(&self, arrival: &Arrival, theirs: &Digest) {
        self.node
            .reported_versions
            .hear(self.node.rt, arrival, theirs);
    }

    fn entered(&self, delta: &Delta) {
        self.node.bell.enter(delta);
        self.node.tell_watchers();
    }

    fn heard(&self, owner: &Name) {
        self.node.heard.note(self.node.rt, owner);
    }

    fn missed(&self) {
        self.node.counts.add_gap();
        self.node.bell.miss();
    }

    fn ended(&self, _session: u64, ended: &Result<Ended, Fault>) {
        self.node.counts.end_session(ended);
    }
}
