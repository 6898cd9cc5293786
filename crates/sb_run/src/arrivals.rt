//! What the thread that accepts hands to the other threads.
ghost use Rattle.std.specs.Prelude.{◌≡◌, IfOk, IfErr};
ghost use Rattle.sb_run.specs.Sources.{IsNumbered};
ghost use Rattle.sb_run.specs.Works.{message_of};
ghost use Rattle.sb_run.specs.WriteRequests.{is_put};

use crate::counts::Counts;
use crate::dialer::has_come;
use crate::first_hearing::FirstHearing;
use crate::http_writes::AnswerSender;
use crate::node::Pace;
use crate::pool::{Source, Taken};
use crate::sockets::{Timed, blocking_stream, limit};
use crate::threads::EndFlag;
use crossbeam_channel::{Receiver, RecvTimeoutError, Sender, TrySendError, bounded};
use mio::net;
use sb_codec::{Ask, Message};
use sb_control::ControlRequest;
use sb_handlers::Arrival;
use sb_http::HttpWrite;
use sb_types::Fault;
use std::alloc::Global;
use std::io::{Chain, Cursor, Read};
use std::os::unix::net::UnixStream;
use std::sync::atomic::{AtomicU64, Ordering};
use std::sync::{Mutex, Wait};
use std::time::{Clock, Duration, Instant};

/// How many things may wait for a worker, and how many of each kind for the owner's thread.
const HANDED_MOST: usize = 1_024;

/// After how long the owner's thread looks again whether the writes that wait may be made, in milliseconds.
const HEARING_PAUSE: u64 = 10;

/// What a worker is to do next.
#[derive(Drop)]
pub(crate) enum Job {
    /// To serve the session of a peer that sent this. Its name is known if that is a Hello.
    Session(Arrival, Vec<u8>, UnixStream),
    /// To answer a caller's question.
    Question(Ask, UnixStream),
}

/// What was asked, and what gets the answer.
#[derive(Drop)]
pub(crate) enum Request {
    /// What a caller at the control socket asked. Its connection gets the answer.
    Control(ControlRequest, UnixStream),
    /// A write over HTTP. The thread that waits for the answer gets it.
    Http(HttpWrite, AnswerSender),
}

impl Request {
    /// Whether it asks for a write.
    pub(crate) fn is_put(&self) -> bool
        ensures { result ≡ is_put (message_of self.now) }
    {
        match self {
            Request::Control(request, _) => matches!(request.message(), Message::Put(_)),
            Request::Http(_, _) => true,
        }
    }
}

/// How often workers asked for something to do.
#[derive(Drop)]
pub(crate) struct Asked {
    count: AtomicU64,
}

impl Asked {
    /// No worker has asked yet.
    pub(crate) fn new() -> Asked {
        Asked {
            count: AtomicU64::new(0),
        }
    }
}

/// The end of the thread that accepts.
#[derive(Drop)]
pub(crate) struct Handover {
    to_workers: Sender<Job>,
    to_owner: OwnerSender,
    /// How many jobs were handed to the workers.
    handed: u64,
}

/// What hands requests to the owner's thread. Writes have a way of their own, since they may have to wait while others are
/// answered. So have questions, which delay no write.
#[derive(Drop)]
struct OwnerSender {
    writes: Sender<Request>,
    questions: Sender<Request>,
    others: Sender<Request>,
    /// One unit for each request that was handed over, sent after it.
    arrivals: Sender<()>,
}

/// What hands writes to the owner's thread that came over HTTP.
#[derive(Drop)]
pub(crate) struct WriteSender {
    writes: Sender<Request>,
    arrivals: Sender<()>,
}

/// The ways to the owner's thread: of the thread that accepts, and of those that answer over HTTP.
#[derive(Drop)]
struct OwnerWays {
    accepted: OwnerSender,
    over_http: WriteSender,
}

/// The end of the workers.
#[derive(Drop)]
pub(crate) struct Jobs {
    from: Receiver<Job>,
}

/// The end of the owner's thread.
pub(crate) struct Requests {
    writes: Receiver<Request>,
    questions: Receiver<Request>,
    others: Receiver<Request>,
    arrivals: Receiver<()>,
    /// Whether writes wait no longer for the peers.
    takes_writes: bool,
    /// How many arrivals were of writes that had to wait.
    held: u64,
}

// It is written out, so that a caller does not prove again how each part is dropped.
impl Drop for Requests {
    fn drop(self) {
        let Requests {
            writes: _writes,
            questions: _questions,
            others: _others,
            arrivals: _arrivals,
            takes_writes: _,
            held: _,
        } = self;
    }
}

/// The ways from the thread that accepts to the workers and to the owner's thread, and that of writes over HTTP to the latter.
/// `NoMemory`.
pub(crate) fn new_handover(alloc: Global) -> Result<(Handover, Jobs, Requests, WriteSender), Fault>
    ensures { IfErr result (λ fault. fault ≡ Fault.NoMemory) }
{
    let (to_workers, from_workers) = bounded::<Job, Global>(alloc, HANDED_MOST)?;
    let (to_owner, requests) = new_owner_ways(alloc)?;
    let OwnerWays {
        accepted,
        over_http,
    } = to_owner;
    let handover = Handover {
        to_workers,
        to_owner: accepted,
        handed: 0,
    };
    Ok((handover, Jobs { from: from_workers }, requests, over_http))
}

/// The ways to the owner's thread. `NoMemory`.
fn new_owner_ways(alloc: Global) -> Result<(OwnerWays, Requests), Fault>
    ensures { IfErr result (λ fault. fault ≡ Fault.NoMemory) }
{
    let (to_writes, writes) = bounded::<Request, Global>(alloc, HANDED_MOST)?;
    let (to_questions, questions) = bounded::<Request, Global>(alloc, HANDED_MOST)?;
    let (to_others, others) = bounded::<Request, Global>(alloc, HANDED_MOST)?;
    let (to_arrivals, arrivals) = bounded::<(), Global>(alloc, 3 * HANDED_MOST)?;
    let over_http = WriteSender {
        writes: to_writes.clone()?,
        arrivals: to_arrivals.clone()?,
    };
    let accepted = OwnerSender {
        writes: to_writes,
        questions: to_questions,
        others: to_others,
        arrivals: to_arrivals,
    };
    let requests = Requests {
        writes,
        questions,
        others,
        arrivals,
        takes_writes: false,
        held: 0,
    };
    let ways = OwnerWays {
        accepted,
        over_http,
    };
    Ok((ways, requests))
}

/// The question for rows that a message asks; none if it is another message.
fn question_in(message: &Message) -> Option<Ask> {
    match message {
        Message::Ask(ask) => Some(*ask),
        _ => None,
    }
}

/// Sends a message, and returns whether there was room. It takes any message, since a place that drops one of many parts is slow to
/// prove.
pub(crate) fn is_sent<T: Drop, R: Wait>(rt: &R, way: &Sender<T>, message: T) -> bool {
    way.try_send(rt, message).is_ok()
}

/// Why a message was not sent: `TurnsSpent` if too many wait, `NoMemory`, or `Closed` if nobody receives any more.
fn unsent<T: Drop>(error: TrySendError<T>) -> Fault {
    match error {
        TrySendError::Full(_) => Fault::TurnsSpent,
        TrySendError::OutOfMemory(_) => Fault::NoMemory,
        TrySendError::Disconnected(_) => Fault::Closed,
    }
}

impl OwnerSender {
    /// The way for what this message asks.
    fn way(&self, message: &Message) -> &Sender<Request> {
        match message {
            Message::Put(_) => &self.writes,
            Message::Ask(_) => &self.questions,
            _ => &self.others,
        }
    }

    /// Hands a request to the owner's thread, and returns whether there was room.
    fn give<R: Wait>(&self, rt: &R, request: ControlRequest, stream: UnixStream) -> bool {
        let way = self.way(request.message());
        is_sent(rt, way, Request::Control(request, stream)) && is_sent(rt, &self.arrivals, ())
    }
}

impl WriteSender {
    /// Hands a write to the owner's thread. `TurnsSpent` if too many wait, or `NoMemory`: then the write is not made. `Closed` if the
    /// owner's thread has ended, or if nothing can report the arrival to it. Then nobody answers the write.
    pub(crate) fn give<R: Wait>(
        &self,
        rt: &R,
        asked: HttpWrite,
        to: AnswerSender,
    ) -> Result<(), Fault> {
        match self.writes.try_send(rt, Request::Http(asked, to)) {
            Ok(()) => {}
            Err(error) => return Err(unsent(error)),
        }
        if is_sent(rt, &self.arrivals, ()) {
            Ok(())
        } else {
            Err(Fault::Closed)
        }
    }
}

impl Handover {
    /// Wakes the owner's thread for the end of the node. If there is no room for that, it does not wait.
    pub(crate) fn wake_owner<R: Wait>(&self, rt: &R) {
        let _ = self.to_owner.arrivals.try_send(rt, ());
    }

    /// Hands a job to the workers, and returns whether there was room.
    fn give<R: Wait>(&mut self, rt: &R, job: Job) -> bool {
        let is_given = is_sent(rt, &self.to_workers, job);
        if is_given {
            self.handed = self.handed.saturating_add(1);
        }
        is_given
    }

    /// Hands the session of a peer to the workers, with how its connection came, and with what has come of it. `ReadFailed` if too
    /// many wait for one, or if the connection can't be used.
    pub(crate) fn give_session<R: Wait>(
        &mut self,
        rt: &R,
        arrival: Arrival,
        came: Vec<u8>,
        stream: net::UnixStream,
    ) -> Result<(), Fault> {
        let Ok(stream) = blocking_stream(stream) else {
            return Err(Fault::ReadFailed);
        };
        if self.give(rt, Job::Session(arrival, came, stream)) {
            Ok(())
        } else {
            Err(Fault::ReadFailed)
        }
    }

    /// Hands a question to a worker if one is free. If none is, or if it is another request, the owner's thread gets it.
    /// `ReadFailed` if too many wait for that, or if the connection can't be used.
    pub(crate) fn give_request<R: Wait>(
        &mut self,
        rt: &R,
        asked: &Asked,
        request: ControlRequest,
        stream: net::UnixStream,
    ) -> Result<(), Fault> {
        let Ok(stream) = blocking_stream(stream) else {
            return Err(Fault::ReadFailed);
        };
        // Each worker asks before it waits, and each job ends the wait of one. So one is free if more was asked than handed.
        let is_worker_free = asked.count.load(Ordering::SeqCst) > self.handed;
        let is_given = match question_in(request.message()) {
            Some(ask) if is_worker_free => self.give(rt, Job::Question(ask, stream)),
            _ => self.to_owner.give(rt, request, stream),
        };
        if is_given {
            Ok(())
        } else {
            Err(Fault::ReadFailed)
        }
    }
}

/// What the owner's thread is to do next.
#[derive(Drop)]
pub(crate) enum Work {
    /// To answer a request.
    Request(Request),
    /// To make the next beat.
    Beat,
}

impl Requests {
    /// Whether writes may be made. They wait until the peers were heard, or until the moment up to which they wait at most.
    fn takes_writes<R: Wait + Clock>(&mut self, rt: &R, hearing: &Mutex<FirstHearing>) -> bool {
        if !self.takes_writes {
            let until = hearing.lock(rt).waits_until();
            self.takes_writes = until.is_none() || has_come(rt, until);
        }
        self.takes_writes
    }

    /// The first request that may be answered: of the writes if these are taken, then of the others, then of the questions.
    fn take<R: Wait>(&self, rt: &R, takes_writes: bool) -> Option<Request> {
        if takes_writes {
            if let Ok(request) = self.writes.try_recv(rt) {
                return Some(request);
            }
        }
        match self.others.try_recv(rt) {
            Ok(request) => Some(request),
            Err(_) => self.questions.try_recv(rt).ok(),
        }
    }

    /// A request for which no arrival is to be waited for, since a write that had to wait arrived before. None if there is none.
    fn take_held<R: Wait>(&mut self, rt: &R) -> Option<Request> {
        if self.held == 0 {
            return None;
        }
        self.held = self.held.saturating_sub(1);
        self.take(rt, true)
    }

    /// What is to be done before the arrival of another request: a write that had to wait, or a beat whose moment has come. None
    /// while writes have to wait.
    fn take_due<R: Wait + Clock>(
        &mut self,
        rt: &R,
        takes_writes: bool,
        beat: Option<Instant>,
    ) -> Option<Work> {
        if !takes_writes {
            return None;
        }
        if has_come(rt, beat) {
            return Some(Work::Beat);
        }
        let request = self.take_held(rt)?;
        Some(Work::Request(request))
    }

    /// Waits for the arrival of a request, and no longer than until the next beat. If a write or a beat has to wait, it waits only
    /// for a while. Whether one arrived; none if no more can.
    fn await_arrival<R: Wait + Clock>(
        &self,
        rt: &R,
        takes_writes: bool,
        beat: Option<Instant>,
    ) -> Option<bool> {
        let arrived = if !takes_writes && (self.held > 0 || beat.is_some()) {
            let pause = Duration::from_millis(HEARING_PAUSE);
            self.arrivals.recv_timeout(rt, pause)
        } else if let Some(moment) = beat {
            self.arrivals.recv_deadline(rt, moment)
        } else {
            return match self.arrivals.recv(rt) {
                Ok(()) => Some(true),
                Err(_) => None,
            };
        };
        match arrived {
            Ok(()) => Some(true),
            Err(RecvTimeoutError::Timeout) => Some(false),
            Err(RecvTimeoutError::Disconnected) => None,
        }
    }

    /// Lets go of the writes that are left, so that nobody waits for an answer to one.
    fn drop_writes<R: Wait>(&self, rt: &R) {
        for _ in 0..HANDED_MOST {
            if self.writes.try_recv(rt).is_err() {
                return;
            }
        }
    }

    /// What is to be done next: a beat once its moment has come, or a request, questions after all others. None once the node is to
    /// end, and then the writes that are left are let go. Writes and beats wait until the peers were heard, and others are answered
    /// meanwhile.
    pub(crate) fn next<R: Wait + Clock>(
        &mut self,
        rt: &R,
        ending: &EndFlag,
        hearing: &Mutex<FirstHearing>,
        beat: Option<Instant>,
    ) -> Option<Work> {
        for _ in rt.forever() {
            let takes_writes = self.takes_writes(rt, hearing);
            if let Some(work) = self.take_due(rt, takes_writes, beat) {
                return Some(work);
            }
            let has_arrived = self.await_arrival(rt, takes_writes, beat)?;
            if ending.is_raised() {
                self.drop_writes(rt);
                return None;
            }
            if has_arrived {
                let takes_writes = self.takes_writes(rt, hearing);
                match self.take(rt, takes_writes) {
                    Some(request) => return Some(Work::Request(request)),
                    None => self.held = self.held.saturating_add(1),
                }
            }
        }
        unreachable!()
    }
}

/// What has come of a peer, and then the rest.
pub(crate) type PeerInput<'a, R> = Chain<Cursor<Vec<u8>>, Timed<'a, R>>;

/// What the workers of a node take their jobs from.
#[derive(Drop)]
pub(crate) struct Arrivals<'a, R> {
    rt: &'a R,
    jobs: Jobs,
    ending: &'a EndFlag,
    asked: &'a Asked,
    pace: Pace,
    counts: &'a Counts,
    /// How many sessions were taken.
    sessions: AtomicU64,
}

impl<'a, R> Arrivals<'a, R> {
    /// Gives these jobs until the node is to end, with the limits of its pace, and counts how many workers are busy.
    pub(crate) fn new(
        rt: &'a R,
        jobs: Jobs,
        ending: &'a EndFlag,
        asked: &'a Asked,
        pace: Pace,
        counts: &'a Counts,
    ) -> Arrivals<'a, R> {
        Arrivals {
            rt,
            jobs,
            ending,
            asked,
            pace,
            counts,
            sessions: AtomicU64::new(0),
        }
    }
}

impl<'a, R: Clock> Arrivals<'a, R> {
    /// What a worker takes of a job. `ReadFailed` if the limits of the connection can't be set, or there is no descriptor.
    fn taken_of(&self, job: Job) -> Result<Taken<PeerInput<'a, R>, Timed<'a, R>>, Fault>
        ensures { IfOk result (λ taken. IsNumbered taken) }
    {
        let pace = &self.pace;
        match job {
            Job::Session(arrival, came, stream) => {
                let Ok(input) = stream.try_clone() else {
                    return Err(Fault::ReadFailed);
                };
                if limit(&stream, pace.idle).is_err() {
                    return Err(Fault::ReadFailed);
                }
                let rest = Timed::new(self.rt, input, pace.idle, pace.session);
                let input = Cursor::new(came).chain(rest);
                let output = Timed::new(self.rt, stream, pace.idle, pace.session);
                let before = self.sessions.fetch_add(1, Ordering::SeqCst);
                let number = before.saturating_add(1);
                Ok(Taken::Session(number, arrival, input, output))
            }
            Job::Question(ask, stream) => {
                if limit(&stream, pace.idle).is_err() {
                    return Err(Fault::ReadFailed);
                }
                let output = Timed::new(self.rt, stream, pace.idle, pace.request);
                Ok(Taken::Question(ask, output))
            }
        }
    }
}

impl<'a, R: Wait + Clock + Sync> Source for Arrivals<'a, R> {
    type In = PeerInput<'a, R>;

    type Out = Timed<'a, R>;

    // A flag that threads share says so, of which contracts see nothing.
    ghost over = { λ arrivals. Unit {0} };

    ghost asks = { λ arrivals. Unit {0} };

    // Contracts do not see the bytes of a socket.
    ghost gives = { λ arrivals input. Unit {0} };

    fn next(&self) -> Option<Result<Taken<PeerInput<'a, R>, Timed<'a, R>>, Fault>> {
        self.asked.count.fetch_add(1, Ordering::SeqCst);
        self.counts.free_worker(self.rt);
        let received = self.jobs.from.recv(self.rt);
        if self.ending.is_raised() {
            return None;
        }
        let Ok(job) = received else {
            return None;
        };
        self.counts.occupy_worker(self.rt);
        Some(self.taken_of(job))
    }
}
