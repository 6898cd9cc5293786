//! How a thread that answers over HTTP hands a write to the owner's thread, and waits for the answer.
ghost use Rattle.sb_run.specs.HttpReads.{IsWriteReply};

use crate::arrivals::{WriteSender, is_sent};
use crate::control::refused_by;
use crate::threads::EndFlag;
use crossbeam_channel::{Receiver, RecvTimeoutError, Sender, bounded};
use sb_codec::Message;
use sb_http::HttpWrite;
use sb_types::Fault;
use std::alloc::Global;
use std::sync::Wait;
use std::sync::atomic::{AtomicU64, Ordering};
use std::time::{Clock, Duration};

/// After how long a thread that waits for an answer looks whether the node is to end, in milliseconds.
const ANSWER_PAUSE: u64 = 100;

/// How long it then waits for a write that is under way, in milliseconds.
const ANSWER_LAST: u64 = 1_000;

/// The answer to a write.
#[derive(Drop)]
struct WriteAnswer {
    message: Message,
    ghost names: { IsWriteReply message },
}

/// Takes the answer to a write.
#[derive(Drop)]
pub(crate) struct AnswerSender {
    to: Sender<WriteAnswer>,
}

impl AnswerSender {
    /// Hands the answer to the thread that waits for it.
    pub(crate) fn send<R: Wait>(self, rt: &R, message: Message)
        requires { IsWriteReply message }
    {
        let AnswerSender { to } = self;
        let _ = is_sent(rt, &to, WriteAnswer { message });
    }
}

/// How many threads that answer over HTTP may wait at once for something else than their caller: all but one. So one is left for
/// callers that have to wait for nothing.
#[derive(Drop)]
struct WaitingPlaces {
    taken: AtomicU64,
    most: u64,
}

impl WaitingPlaces {
    /// The places of so many threads. A single thread has one.
    fn new(threads: u64) -> WaitingPlaces {
        WaitingPlaces::of(threads.saturating_sub(1).max(1))
    }

    /// So many places.
    fn of(most: u64) -> WaitingPlaces {
        WaitingPlaces {
            taken: AtomicU64::new(0),
            most,
        }
    }

    /// Takes a place, and returns whether one was free.
    fn take(&self) -> bool {
        let is_free = self.taken.fetch_add(1, Ordering::SeqCst) < self.most;
        if !is_free {
            self.leave();
        }
        is_free
    }

    /// Gives a place back.
    fn leave(&self) {
        self.taken.fetch_sub(1, Ordering::SeqCst);
    }
}

/// The desk that takes the writes of the threads that answer over HTTP.
#[derive(Drop)]
pub(crate) struct WriteDesk {
    sender: WriteSender,
    places: WaitingPlaces,
    /// Those of them that polls may take.
    polls: WaitingPlaces,
}

/// Waits for an answer. `Closed` if the node ends before it comes.
fn await_answer<R: Wait + Clock>(rt: &R, ending: &EndFlag, from: &Receiver<WriteAnswer>) -> Message
    ensures { IsWriteReply result }
{
    for _ in rt.forever() {
        let is_last = ending.is_raised();
        let patience = if is_last { ANSWER_LAST } else { ANSWER_PAUSE };
        match from.recv_timeout(rt, Duration::from_millis(patience)) {
            Ok(answer) => return answer.into_message(),
            Err(RecvTimeoutError::Timeout) if !is_last => {}
            Err(_) => return refused_by(Fault::Closed),
        }
    }
    unreachable!()
}

impl WriteAnswer {
    fn into_message(self) -> Message
        ensures { IsWriteReply result }
    {
        let WriteAnswer { message } = self;
        message
    }
}

impl WriteDesk {
    /// A desk for so many threads.
    pub(crate) fn new(sender: WriteSender, threads: u64) -> WriteDesk {
        WriteDesk {
            sender,
            places: WaitingPlaces::new(threads),
            polls: WaitingPlaces::of(threads / 2),
        }
    }

    /// Takes a place for a poll, and returns whether one was free: at most half of the threads may poll at once.
    pub(crate) fn take_poll(&self) -> bool {
        if !self.polls.take() {
            return false;
        }
        let is_free = self.places.take();
        if !is_free {
            self.polls.leave();
        }
        is_free
    }

    /// Gives it back.
    pub(crate) fn leave_poll(&self) {
        self.places.leave();
        self.polls.leave();
    }

    /// Hands a write to the owner's thread once, and waits for its answer. Without that, the answer is one of these faults:
    ///
    /// - `TurnsSpent` if too many threads wait, or too many writes; the write is not made.
    /// - `NoMemory`; the write is not made.
    /// - `Closed` if the node ends before; nobody knows whether the write was made.
    pub(crate) fn put<R: Wait + Clock>(
        &self,
        rt: &R,
        alloc: Global,
        ending: &EndFlag,
        asked: HttpWrite,
    ) -> Message
        ensures { IsWriteReply result }
    {
        if !self.places.take() {
            return refused_by(Fault::TurnsSpent);
        }
        let reply = self.put_in_place(rt, alloc, ending, asked);
        self.places.leave();
        reply
    }

    /// Does so for a thread that has a place.
    fn put_in_place<R: Wait + Clock>(
        &self,
        rt: &R,
        alloc: Global,
        ending: &EndFlag,
        asked: HttpWrite,
    ) -> Message
        ensures { IsWriteReply result }
    {
        let Ok((to, from)) = bounded::<WriteAnswer, Global>(alloc, 1) else {
            return refused_by(Fault::NoMemory);
        };
        match self.sender.give(rt, asked, AnswerSender { to }) {
            Ok(()) => await_answer(rt, ending, &from),
            Err(fault) => refused_by(fault),
        }
    }
}
