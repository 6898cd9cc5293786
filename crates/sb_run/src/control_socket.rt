//! The owner's thread of a running node: it answers what callers asked at the control socket, and makes the own writes.
ghost use Rattle.std.specs.Prelude.{◌≡◌, ◌⊎◌, true, false, List, IfErr};
ghost use Rattle.sb_codec.specs.declared.message.Message.{Message};
ghost use Rattle.sb_codec.specs.declared.message.Message.TheVariants as kinds;
ghost use Rattle.sb_directory.specs.Serving.{IsLater, IsStill};
ghost use Rattle.sb_frames.specs.Frames.{frame};
ghost use Rattle.sb_frames.specs.Sending.{Sends};
ghost use Rattle.sb_run.specs.Closing.{seen_by};
ghost use Rattle.sb_run.specs.Control.{AnswersAll, AnswersTo};
ghost use Rattle.sb_run.specs.OwnPurging.{MayPurge, running_least};
ghost use Rattle.sb_run.specs.Running.{IsOpenedFrom};
ghost use Rattle.sb_run.specs.Works.{message_of, writes_after, Does, DoesNext, WorksInTurn, WorksTo};
ghost use Rattle.sb_run.specs.declared.arrivals.Work.{Work};

use crate::arrivals::{Request, Requests, Work};
use crate::beating::BeatTurns;
use crate::control::reply_to_put;
use crate::dialer::{Dialing, RoundsTag};
use crate::http_writes::AnswerSender;
use crate::log_watch::AskObserver;
use crate::node::OnLogFault;
use crate::observer::{Observer, Status};
use crate::own_writes::{ClosableLog, OwnWrites};
use crate::peers::Peer;
use crate::purging::PurgeTurns;
use crate::schedule::RoundCounts;
use crate::sockets::{Timed, limit};
use crate::threads::NodeContext;
use crate::write_request::WriteRequest;
use sb_codec::Message;
use sb_control::{ControlRequest, LogCause};
use sb_directory::ReaderSeat;
use sb_frames::send;
use sb_http::HttpWrite;
use sb_log::{StoreCause, WriteLog};
use sb_types::{Fault, Name, OWNERS_MOST};
use std::io::Write;
use std::os::unix::net::UnixStream;
use std::sync::Wait;
use std::time::Clock;

/// What comes of the control socket.
#[derive(Drop)]
pub(crate) struct ControlEnd<S: RoundsTag> {
    pub(crate) seat: ReaderSeat<S>,
    /// How many answers could not be sent.
    pub(crate) faults: u64,
    /// Whether it ended the node since its log had failed.
    pub(crate) has_left: bool,
}

impl<S: RoundsTag, H: Wait + Drop, Q: Wait + Clock> NodeContext<'_, S, H, Q> {
    /// Writes the answer to a request. To an AskStatus it is the status of the node, to an AskAges the ages of owners, and to any
    /// other the answer of `Serving`.
    /// `WriteFailed`, with how many bytes of the answer are written; `NoMemory`, with none.
    fn write_answer<W: Write, L: WriteLog, O: Observer>(
        &self,
        writer: &mut W,
        dialing: &Dialing<'_, O>,
        writes: &mut OwnWrites<L>,
        seat: ReaderSeat<S>,
        request: ControlRequest,
    ) -> (ReaderSeat<S>, Result<(), Fault>)
        ensures answers { (reply : Message) × AnswersAll L.seen S.opening S.settings writes.old.log writes.old.owed seat request writes.new.log writes.new.owed result.0 reply
            × Sends (W.contents writer.old) (W.contents writer.new) (frame reply) result.1 }
        ensures closes { (L.seen writes.old.log).is_open ≡ true → (L.seen writes.new.log).is_open ≡ false → writes.new.has_failed ≡ true }
    {
        match request.message() {
            Message::AskStatus(asked) => {
                let (seat, reply) = self.reply_to_ask_status(dialing, asked, seat);
                let sent = send(self.alloc, writer, &reply);
                (seat, sent)
            }
            Message::AskAges => {
                let sent = send(self.alloc, writer, &self.reply_to_ask_ages());
                (seat, sent)
            }
            _ => self.serving().answer_request(writer, writes, seat, request),
        }
    }

    /// Answers a request that came at the control socket, and returns whether that ended with a fault. The answer is taken within the
    /// node's `request`. If that limit can't be set, nothing is done.
    fn answer_caller<L: WriteLog, O: Observer>(
        &self,
        dialing: &Dialing<'_, O>,
        writes: &mut OwnWrites<L>,
        request: ControlRequest,
        stream: UnixStream,
        seat: ReaderSeat<S>,
    ) -> (ReaderSeat<S>, bool)
        ensures closes { (L.seen writes.old.log).is_open ≡ true → (L.seen writes.new.log).is_open ≡ false → writes.new.has_failed ≡ true }
        ensures answers { AnswersTo L.seen S.opening S.settings writes.old.log writes.old.owed seat request writes.new.log writes.new.owed result.0 result.1 }
    {
        let pace = &self.pace;
        if limit(&stream, pace.idle).is_err() {
            return (seat, true);
        }
        let mut output = Timed::new(self.rt, stream, pace.idle, pace.request);
        let (seat, sent) = self.write_answer(&mut output, dialing, writes, seat, request);
        (seat, sent.is_err())
    }

    /// Makes a write that came over HTTP, and hands the answer to the thread that waits for it.
    #[tactic(auto, using(crate::proofs::WriteReplies::write_reply))]
    fn answer_worker<L: WriteLog>(
        &self,
        writes: &mut OwnWrites<L>,
        asked: HttpWrite,
        to: AnswerSender,
        seat: ReaderSeat<S>,
    ) -> ReaderSeat<S>
        ensures closes { (L.seen writes.old.log).is_open ≡ true → (L.seen writes.new.log).is_open ≡ false → writes.new.has_failed ≡ true }
        ensures answers { (reply : Message) × AnswersAll L.seen S.opening S.settings writes.old.log writes.old.owed seat (kinds.Put asked) writes.new.log writes.new.owed result reply }
    {
        let mut seat = seat;
        let asked = WriteRequest::over_http(asked);
        let reply = reply_to_put(&self.serving(), writes, &mut seat, asked);
        to.send(self.rt, reply);
        seat
    }

    /// Answers a request, and returns whether that ended with a fault.
    fn answer_one<L: WriteLog, O: Observer>(
        &self,
        dialing: &Dialing<'_, O>,
        writes: &mut OwnWrites<L>,
        request: Request,
        seat: ReaderSeat<S>,
    ) -> (ReaderSeat<S>, bool)
        ensures closes { (L.seen writes.old.log).is_open ≡ true → (L.seen writes.new.log).is_open ≡ false → writes.new.has_failed ≡ true }
        // This request was answered, or nothing came of it, which is a fault.
        ensures answers { AnswersTo L.seen S.opening S.settings writes.old.log writes.old.owed seat (message_of request) writes.new.log writes.new.owed result.0 result.1 }
    {
        match request {
            Request::Control(request, stream) => {
                self.answer_caller(dialing, writes, request, stream, seat)
            }
            Request::Http(asked, to) => (self.answer_worker(writes, asked, to, seat), false),
        }
    }
}

impl<S: RoundsTag, H: Wait + Drop, Q: Wait + Clock> NodeContext<'_, S, H, Q> {
    /// Reports a write of the last request to the threads that dial and to those who wait for a change. Reports to the observer that
    /// a log closed. Whether the node is to end with that.
    fn report_writes<L: WriteLog, O: Observer>(
        &self,
        writes: &mut OwnWrites<L>,
        observer: &O,
    ) -> bool
        ensures exits { result ≡ true → self.now.pace.on_log_fault ≡ OnLogFault.Exit }
        ensures failed { result ≡ true → writes.old.has_failed ≡ true }
        ensures ends { writes.old.has_failed ≡ true → self.now.pace.on_log_fault ≡ OnLogFault.Exit → result ≡ true }
        ensures same { (writes.new.log ≡ writes.old.log) × (writes.new.owed ≡ writes.old.owed) }
    {
        if let Some(version) = writes.take_stored() {
            self.bell.ring(version == 1);
            self.heard.note(self.rt, writes.owner());
            self.tell_watchers();
        }
        if writes.take_full() {
            self.counts.add_full_write();
        }
        if !writes.take_failure() {
            return false;
        }
        // A log that failed is closed, so it has a cause.
        let cause = writes.cause().unwrap_or(StoreCause::Other);
        self.note_log_cause(LogCause::Store(cause), observer);
        match self.pace.on_log_fault {
            OnLogFault::Exit => true,
            OnLogFault::Serve => false,
        }
    }

    /// Reports what the last request did to the log. Whether the node is to end with that, or because the log was closed since;
    /// then its other threads end too.
    fn ends_with_log<L: WriteLog, O: Observer>(
        &self,
        writes: &mut OwnWrites<L>,
        observer: &O,
    ) -> bool
        ensures exits { result ≡ true → self.now.pace.on_log_fault ≡ OnLogFault.Exit }
        ensures ends { writes.old.has_failed ≡ true → self.now.pace.on_log_fault ≡ OnLogFault.Exit → result ≡ true }
        ensures same { (writes.new.log ≡ writes.old.log) × (writes.new.owed ≡ writes.old.owed) }
    {
        let has_ended = self.report_writes(writes, observer) || self.ends_by_log();
        if has_ended {
            self.end();
        }
        has_ended
    }
}

impl<S: RoundsTag, H: Wait + Drop, Q: Wait + Clock> NodeContext<'_, S, H, Q> {
    /// Reports what the last request did to the log, then purges if that is due, and reports what that did. Whether the node is to
    /// end with either, or because the log was closed since; then its other threads end too.
    fn ends_after<L: WriteLog, O: Observer>(
        &self,
        turns: &mut PurgeTurns,
        writes: &mut OwnWrites<L>,
        seat: &mut ReaderSeat<S>,
        observer: &O,
    ) -> bool
        ensures exits { result ≡ true → self.now.pace.on_log_fault ≡ OnLogFault.Exit }
        ensures ends { writes.old.has_failed ≡ true → self.now.pace.on_log_fault ≡ OnLogFault.Exit → result ≡ true }
        ensures purges { MayPurge L.seen S.opening turns.old.least writes.old.log writes.old.owed seat.old writes.new.log writes.new.owed seat.new }
        ensures least { turns.new.least ≡ turns.old.least }
        ensures noted { (turns.new.writes ≡ turns.old.writes) ⊎ (turns.new.writes ≡ 0) }
        ensures later { IsLater seat.old seat.new }
        // A log that the purge closes ends the node too.
        ensures closes { (L.seen writes.old.log).is_open ≡ true → (L.seen writes.new.log).is_open ≡ false → self.now.pace.on_log_fault ≡ OnLogFault.Exit → result ≡ true }
    {
        if self.ends_with_log(writes, observer) {
            return true;
        }
        self.purge_after(turns, writes, seat, observer);
        self.ends_with_log(writes, observer)
    }
}

/// When the owner's thread purges, and when it makes a beat.
#[derive(Drop)]
struct OwnTurns {
    purges: PurgeTurns,
    beats: BeatTurns,
}

impl OwnTurns {
    /// Notes work that may lead to a purge.
    fn note(&mut self, work: &Work)
        ensures least { self.new.purges.least ≡ self.old.purges.least }
        ensures writes { self.new.purges.writes ≡ writes_after work.now self.old.purges.writes }
        ensures beats { self.new.beats ≡ self.old.beats }
    {
        match work {
            Work::Request(request) => self.purges.note(request.is_put()),
            Work::Beat => {}
        }
    }
}

impl<S: RoundsTag, H: Wait + Drop, Q: Wait + Clock> NodeContext<'_, S, H, Q> {
    /// Answers a request, or makes a beat, and returns whether that ended with a fault.
    fn do_work<L: WriteLog, O: Observer>(
        &self,
        dialing: &Dialing<'_, O>,
        writes: &mut OwnWrites<L>,
        beats: &mut BeatTurns,
        work: Work,
        seat: ReaderSeat<S>,
    ) -> (ReaderSeat<S>, bool)
        ensures closes { (L.seen writes.old.log).is_open ≡ true → (L.seen writes.new.log).is_open ≡ false → writes.new.has_failed ≡ true }
        // This request was answered, or this beat was made, and nothing else.
        ensures does { Does L.seen S.opening S.settings beats.old.beat work writes.old.log writes.old.owed seat writes.new.log writes.new.owed result.0 }
        ensures same { beats.new.beat ≡ beats.old.beat }
    {
        match work {
            Work::Request(request) => self.answer_one(dialing, writes, request, seat),
            Work::Beat => {
                let mut seat = seat;
                self.make_beat(beats, writes, &mut seat);
                (seat, false)
            }
        }
    }

    /// Does a piece of work. Before it the log is closed if its file is lost, and after it the own table is purged if that is due.
    /// Gives the seat back, and returns whether the work ended with a fault, and whether the node is to end.
    fn do_next<L: WriteLog, O: Observer>(
        &self,
        dialing: &Dialing<'_, O>,
        writes: &mut OwnWrites<ClosableLog<L>>,
        turns: &mut OwnTurns,
        work: Work,
        seat: ReaderSeat<S>,
    ) -> (ReaderSeat<S>, bool, bool)
        ensures exits { result.2 ≡ true → self.now.pace.on_log_fault ≡ OnLogFault.Exit }
        ensures next { DoesNext L.seen S.opening S.settings turns.old.beats.beat turns.old.purges.least work
            (record { log = writes.old.log; owed = writes.old.owed; seat = seat }) (record { log = writes.new.log; owed = writes.new.owed; seat = result.0 }) }
        ensures same { (turns.new.beats.beat ≡ turns.old.beats.beat) × (turns.new.purges.least ≡ turns.old.purges.least) }
        // The work is noted, unless the count of writes begins again.
        ensures noted { (turns.new.purges.writes ≡ writes_after work turns.old.purges.writes) ⊎ (turns.new.purges.writes ≡ 0) }
    {
        let observer = dialing.observer();
        self.close_lost_log(writes, &AskObserver { observer }, observer);
        turns.note(&work);
        let (mut seat, failed) = self.do_work(dialing, writes, &mut turns.beats, work, seat);
        let has_ended = self.ends_after(&mut turns.purges, writes, &mut seat, observer);
        (seat, failed, has_ended)
    }

    /// Does one piece of work after another, until the node is to end.
    fn answer_in_turn<L: WriteLog, O: Observer>(
        &self,
        requests: Requests,
        writes: &mut OwnWrites<ClosableLog<L>>,
        seat: ReaderSeat<S>,
        dialing: &Dialing<'_, O>,
    ) -> ControlEnd<S>
        ensures exits { result.has_left ≡ true → self.now.pace.on_log_fault ≡ OnLogFault.Exit }
        // What became of the log is what these pieces of work did, one after another.
        ensures works { (done : List Work) × WorksInTurn L.seen S.opening S.settings self.now.beat (running_least self.now.pace.purge_removals) done
            (record { log = writes.old.log; owed = writes.old.owed; seat = seat }) (record { log = writes.new.log; owed = writes.new.owed; seat = result.seat }) }
    {
        let (mut requests, mut current) = (requests, seat);
        let mut faults: u64 = 0;
        let mut turns = OwnTurns {
            purges: PurgeTurns::new(self.pace.purge_removals),
            beats: BeatTurns::new(self.rt, self.beat),
        };
        for _ in self.rt.forever() {
            let beat = turns.beats.next();
            let Some(work) = requests.next(self.rt, self.ending, self.hearing, beat) else {
                // A thread that dials ends the node too if it finds the log lost.
                return ControlEnd {
                    seat: current,
                    faults,
                    has_left: self.ends_by_log(),
                };
            };
            let (seat, failed, has_ended) = self.do_next(
                dialing, writes, &mut turns, work, current,
            );
            current = seat;
            faults = faults.saturating_add(u64::from(failed));
            if has_ended {
                return ControlEnd {
                    seat: current,
                    faults,
                    has_left: true,
                };
            }
        }
        unreachable!()
    }

    /// Answers one request after another, until the node is to end. Writes wait until the peers were heard. It ends the node itself if
    /// the log takes no more writes and the node is to exit then. If the log is closed at the start, that is before the first request.
    pub(crate) fn answer_requests<L: WriteLog + Drop, O: Observer>(
        &self,
        requests: Requests,
        writes: OwnWrites<ClosableLog<L>>,
        seat: ReaderSeat<S>,
        dialing: &Dialing<'_, O>,
    ) -> ControlEnd<S>
        requires opened { IsOpenedFrom (seen_by (L.seen writes.log.log) writes.log.closed_by) S.opening }
        ensures exits { result.has_left ≡ true → self.now.pace.on_log_fault ≡ OnLogFault.Exit }
        ensures failed { writes.has_failed ≡ true → self.now.pace.on_log_fault ≡ OnLogFault.Exit → result.has_left ≡ true }
        // What became of the seat is what some pieces of work did, one after another.
        ensures works { WorksTo L.seen S.opening S.settings self.now.beat (running_least self.now.pace.purge_removals)
            (record { log = writes.log; owed = writes.owed; seat = seat }) result.seat }
    {
        let mut writes = writes;
        if self.ends_with_log(&mut writes, dialing.observer()) {
            return ControlEnd {
                seat,
                faults: 0,
                has_left: true,
            };
        }
        self.answer_in_turn(requests, &mut writes, seat, dialing)
    }
}

/// The owners that the node holds at version 0, in ascending order: those with nothing but a stage, and itself before its first
/// write. `NoMemory`.
pub(crate) fn owners_at_zero<S: RoundsTag, H: Wait + Drop, Q: Wait>(
    node: &NodeContext<S, H, Q>,
    seat: &mut ReaderSeat<S>,
) -> Result<Vec<Name>, Fault>
    ensures still { IsStill seat.old seat.new }
    ensures memory { IfErr result (λ fault. fault ≡ Fault.NoMemory) }
{
    let mut owners = Vec::new(node.alloc);
    let mut from = None;
    for _ in 0..OWNERS_MOST {
        let digest = node.directory.digest(node.rt, seat, from, false)?;
        for pair in digest.pairs() {
            if pair.upto == 0 {
                owners.push(pair.owner)?;
            }
        }
        from = digest.next_from();
        if from.is_none() {
            break;
        }
    }
    Ok(owners)
}

impl<S: RoundsTag, H: Wait + Drop, Q: Wait + Clock> NodeContext<'_, S, H, Q> {
    /// Reports to the observer how the node is. If memory is missing, no owner at version 0 is listed, or no age.
    pub(crate) fn report_status<O: Observer>(
        &self,
        observer: &O,
        counts: RoundCounts,
        peers: &[Peer<'_>],
        seat: ReaderSeat<S>,
    ) -> ReaderSeat<S> {
        let mut seat = seat;
        let (uptime, ages) = (self.counts.uptime(self.rt), self.heard.known_ages(self.rt));
        let keys = self.directory.key_count(self.rt, &mut seat);
        let conflict = self.directory.conflict(self.rt, &mut seat);
        let at_zero = match owners_at_zero(self, &mut seat) {
            Ok(owners) => owners,
            Err(_) => Vec::new(self.alloc),
        };
        match seat.enter() {
            Ok(entered) => {
                observer.status(&Status {
                    rounds: counts.ended,
                    faults: counts.faults,
                    pushes: self.counts.push_counts(),
                    sessions: self.counts.sessions(),
                    is_caught_up: peers.iter().all(|peer| 0 < peer.round()),
                    uptime,
                    workers: self.directory.settings().workers(),
                    busy_workers: self.counts.busy_workers(),
                    troubles: self
                        .counts
                        .troubles(uptime, self.reported_versions.falls(self.rt)),
                    purges: self.counts.purges(),
                    audits: self.counts.audits(),
                    keys,
                    log_cause: self.counts.log_cause(),
                    conflict,
                    snapshot: entered.snapshot(),
                    owners_at_zero: at_zero.as_slice(),
                    ages: ages.as_slice(),
                    peers,
                });
                entered.leave()
            }
            Err(seat) => seat,
        }
    }
}
