//! What the threads that dial the peers of a node share: they make its rounds, in turn and for news.
ghost use Rattle.std.specs.Prelude.{◌≡◌, vec_len, vec_capacity, IfErr};
ghost use Rattle.crossbeam_channel.specs.Claims.{IsSeatAt};
ghost use Rattle.crossbeam_channel.specs.Ends.{sends_on, receives_on};

use crate::audit_turns::AuditTurns;
use crate::backlogs::{Backlogs, Lack};
use crate::bell::{Bell, Parkers};
use crate::dialing::{DialEnd, OwnDigests, dial_peer, digests_of_all};
use crate::node::Pace;
use crate::observer::Observer;
use crate::peers::Peer;
use crate::pushing::{FitNews, push_peer};
use crate::schedule::{AllRounds, NewsStep, Round, Schedule};
use crate::session_end::SessionStart;
use crate::threads::NodeContext;
use crate::version_falls::report_falls;
use core::mem::replace_with;
use crossbeam_channel::protocol::{Free, Split};
use crossbeam_channel::{Pass, RuledReceiver, RuledSender, bounded_with};
use crossbeam_utils::sync::Parker;
use sb_budget::Backlog;
use sb_directory::{DirectoryTag, ReaderSeat};
use sb_handlers::ForgottenOwners;
use sb_types::Fault;
use std::alloc::Global;
use std::marker::{Brand, PhantomData};
use std::net::{Net, TcpListener, TcpStream};
use std::sync::{Mutex, Wait};
use std::thread;
use std::thread::Threads;
use std::time::{Clock, Duration, Instant};

/// What the threads that dial share.
pub(crate) struct Dialing<'a, O> {
    observer: &'a O,
    schedule: Mutex<Schedule<'a>>,
    /// The thread for news that is to dial next waits at it.
    parker: Mutex<Parker>,
    /// The digests of all owners that the node holds, if they were made.
    digests: Mutex<Option<OwnDigests>>,
    /// What the peers may lack.
    backlogs: Mutex<Backlogs>,
    /// Which peer is audited next.
    audits: Mutex<AuditTurns>,
}

// It is written out, so that a caller does not prove again how each part is dropped.
impl<O> Drop for Dialing<'_, O> {
    fn drop(self) {
        let Dialing {
            observer: _,
            schedule: _schedule,
            parker: _parker,
            digests: _digests,
            backlogs: _backlogs,
            audits: _audits,
        } = self;
    }
}

/// What is done for a peer for which there is news.
#[derive(Drop)]
enum Plan<S: RoundsTag> {
    /// It lacks nothing, or what it lacks is due after the round that is under way with it.
    Nothing,
    /// It is pushed what it may lack: the backlog to give back if that fails, and the news to push.
    Push(Backlog, FitNews<S>),
    /// A round is made with it.
    Round,
}

impl<'a, O: Observer> Dialing<'a, O> {
    /// What it takes to dial these peers at this pace, with so many threads for news. The threads share the first part, and the
    /// one that dials in turn has the second alone. The bell wakes them. `NoMemory`.
    pub(crate) fn new(
        alloc: Global,
        paths: &[&'a str],
        pace: &Pace,
        threads: usize,
        observer: &'a O,
    ) -> Result<(Dialing<'a, O>, Turns<'a>, Bell), Fault>
        ensures { IfErr result (λ fault. fault ≡ Fault.NoMemory) }
    {
        let (bell, parkers) = Bell::new(alloc, threads == 0)?;
        let Parkers { turns, news } = parkers;
        let schedule = Schedule::new(alloc, paths, pace.rounds, threads)?;
        let backlogs = Backlogs::new(alloc, paths.len())?;
        let audits = AuditTurns::new(alloc, paths.len(), pace.audit)?;
        let turns = Turns::new(alloc, &schedule, threads == 0, turns)?;
        let dialing = Dialing {
            observer,
            schedule: Mutex::new(schedule),
            parker: Mutex::new(news),
            digests: Mutex::new(None),
            backlogs: Mutex::new(backlogs),
            audits: Mutex::new(audits),
        };
        Ok((dialing, turns, bell))
    }

    /// The observer of the node.
    pub(crate) fn observer(&self) -> &'a O {
        self.observer
    }

    /// The schedule of the peers, which other threads wait for meanwhile.
    pub(crate) fn schedule(&self) -> &Mutex<Schedule<'a>> {
        &self.schedule
    }

    /// Which peer is audited next, for which other threads wait meanwhile.
    pub(crate) fn audits(&self) -> &Mutex<AuditTurns> {
        &self.audits
    }

    /// The digests of all owners that the node holds; one without length if memory is missing to make them.
    fn own_digests<S: RoundsTag, H: Wait + Drop, Q: Wait>(
        &self,
        node: &NodeContext<S, H, Q>,
        seat: &mut ReaderSeat<S>,
    ) -> OwnDigests {
        let mut digests = self.digests.lock(node.rt);
        if node.bell.take_new_owner() {
            *digests = None;
        }
        if let Some(made) = *digests {
            return made;
        }
        *digests = digests_of_all(node, seat);
        (*digests).unwrap_or(OwnDigests {
            count: 1,
            length: 0,
        })
    }

    /// Takes the latest news, which each peer may lack, and begins a round with the peer at this index.
    fn begin_round<S: RoundsTag, H: Wait + Drop, Q: Wait>(
        &self,
        node: &NodeContext<S, H, Q>,
        index: usize,
    ) {
        let mut backlogs = self.backlogs.lock(node.rt);
        backlogs.add(&node.directory.take_news(node.rt));
        backlogs.begin_round(index);
    }

    /// Takes the latest news, which each peer may lack, and then what the peer at this index may lack.
    fn take_backlog<S: RoundsTag, H: Wait + Drop, Q: Wait>(
        &self,
        node: &NodeContext<S, H, Q>,
        index: usize,
    ) -> Lack {
        let mut backlogs = self.backlogs.lock(node.rt);
        backlogs.add(&node.directory.take_news(node.rt));
        match backlogs.take(index) {
            Some(backlog) => Lack::Known(backlog),
            None => {
                if backlogs.await_round(index) {
                    Lack::InRound
                } else {
                    Lack::Unknown
                }
            }
        }
    }

    /// Ends a round by what came of the dial of its peer. News that waited for that is due to the peer now.
    fn end_round<S: RoundsTag, H: Wait + Drop, Q: Wait>(
        &self,
        node: &NodeContext<S, H, Q>,
        round: Round<'a>,
        dial: DialEnd,
    )
        requires peer { dial.index ≡ round.index }
    {
        let index = round.index();
        let is_answer = dial.is_answer();
        let was_awaited = self.backlogs.lock(node.rt).end_round(index, is_answer);
        let takes_news = self
            .schedule
            .lock(node.rt)
            .end_round(round, dial, self.observer);
        if !takes_news {
            self.backlogs.lock(node.rt).forget(index);
        } else if was_awaited {
            self.schedule.lock(node.rt).expect(index);
        }
    }

    /// Makes one round, which has begun. A peer that answers is then audited, once in a run. After that the peer was heard. A slow
    /// peer counts as under way until then, so that it holds up no news for others.
    pub(crate) fn round<S: RoundsTag, H: Wait + Drop, Q: Wait + Net + Clock>(
        &self,
        node: &NodeContext<S, H, Q>,
        seat: ReaderSeat<S>,
        round: Round<'a>,
    ) -> ReaderSeat<S> {
        let mut seat = seat;
        let index = round.index();
        let digests = self.own_digests(node, &mut seat);
        self.begin_round(node, index);
        let (seat, dial) = dial_peer(node, &round, seat, digests.count);
        let seat = if dial.is_answer() {
            self.audit_first(node, seat, index)
        } else {
            seat
        };
        self.end_round(node, round, dial);
        node.hearing.lock(node.rt).note_heard(index);
        self.look_at_log(node);
        node.bell.wake();
        seat
    }

    /// What is to be done for the peer at this index, for which there is news.
    fn plan<S: RoundsTag, H: Wait + Drop, Q: Wait>(
        &self,
        node: &NodeContext<S, H, Q>,
        seat: &mut ReaderSeat<S>,
        index: usize,
    ) -> Plan<S> {
        let backlog = match self.take_backlog(node, index) {
            Lack::Known(backlog) => backlog,
            Lack::InRound => return Plan::Nothing,
            Lack::Unknown => return Plan::Round,
        };
        let owners = backlog.owners().count();
        if owners == 0 {
            return Plan::Nothing;
        }
        if let Ok(news) = node.news(seat, &backlog) {
            let digests = self.own_digests(node, seat);
            if let Some(news) = node.fit_news(news, owners, digests.length) {
                return Plan::Push(backlog, news);
            }
        }
        self.backlogs.lock(node.rt).give_back(index, backlog);
        Plan::Round
    }

    /// Pushes news to the peer at this index, which lacked this.
    fn push<S: RoundsTag, H: Wait + Drop, Q: Wait + Net + Clock>(
        &self,
        node: &NodeContext<S, H, Q>,
        index: usize,
        backlog: Backlog,
        news: FitNews<S>,
    ) {
        let path = self.schedule.lock(node.rt).path(index);
        let length = news.frame_length();
        let start = SessionStart::now(node.rt, node.pace.dial_idle);
        let state = push_peer(node, path, news);
        let end = start.ended(node.rt, state);
        node.counts.add_push(&state, length);
        if !state.is_answer() {
            self.backlogs.lock(node.rt).give_back(index, backlog);
        }
        let takes_news = self
            .schedule
            .lock(node.rt)
            .end_push(index, end, self.observer);
        if !takes_news {
            self.backlogs.lock(node.rt).forget(index);
        }
    }

    /// Brings the peer at this index the news for it. It makes a round if there is much of it, or if nobody knows what the peer
    /// lacks, and pushes it otherwise.
    pub(crate) fn bring_news<S: RoundsTag, H: Wait + Drop, Q: Wait + Net + Clock>(
        &self,
        node: &NodeContext<S, H, Q>,
        seat: ReaderSeat<S>,
        index: usize,
    ) -> ReaderSeat<S> {
        let mut seat = seat;
        match self.plan(node, &mut seat, index) {
            Plan::Push(backlog, news) => self.push(node, index, backlog, news),
            Plan::Round => {
                let begun = self.schedule.lock(node.rt).begin_round_for_news(index);
                match begun {
                    Some(round) => return self.round(node, seat, round),
                    None => self.schedule.lock(node.rt).leave_out(index),
                }
            }
            Plan::Nothing => self.schedule.lock(node.rt).leave_out(index),
        }
        self.wake_after_news(node);
        seat
    }

    /// Wakes the threads that have something to do after a session for news. That is the one that waits for news if news is due,
    /// and both if a peer is otherwise than before.
    fn wake_after_news<S: RoundsTag, H: Wait + Drop, Q: Wait>(&self, node: &NodeContext<S, H, Q>) {
        if self.schedule.lock(node.rt).has_changed() {
            node.bell.wake();
        } else if self.schedule.lock(node.rt).is_news_due() {
            node.bell.wake_for_news();
        }
    }

    /// Looks after a round whether the file of the log is lost, and ends the node if it is to exit then.
    pub(crate) fn look_at_log<S: RoundsTag, H: Wait + Drop, Q: Wait>(
        &self,
        node: &NodeContext<S, H, Q>,
    ) {
        node.look_at_log(self.observer);
        if node.ends_by_log() {
            node.end();
        }
    }

    /// All rounds, once as many have ended as are to be made, with the faults of the pushes.
    pub(crate) fn all_if_done<S: RoundsTag, H: Wait + Drop, Q: Wait>(
        &self,
        node: &NodeContext<S, H, Q>,
    ) -> Option<AllRounds> {
        let all = self.schedule.lock(node.rt).all_if_done()?;
        Some(all.with_faults(node.counts.push_faults()))
    }

    /// What a thread that dials for news is to do next.
    pub(crate) fn next_news<S: RoundsTag, H: Wait + Drop, Q: Wait + Clock>(
        &self,
        node: &NodeContext<S, H, Q>,
    ) -> NewsStep {
        self.schedule
            .lock(node.rt)
            .next_news(node.rt, node.bell, &node.pace)
    }

    /// Waits until there is a peer to dial for news: its index. None once the node is to end. One thread waits at a time, and
    /// the others wait for it.
    fn wait_for_news<S: RoundsTag, H: Wait + Drop, Q: Wait + Clock>(
        &self,
        node: &NodeContext<S, H, Q>,
    ) -> Option<usize> {
        let parker = self.parker.lock(node.rt);
        for _ in node.rt.forever() {
            if node.ending.is_raised() {
                return None;
            }
            match self.next_news(node) {
                NewsStep::Dial(index) => return Some(index),
                NewsStep::Wait(Some(moment)) => parker.park_deadline(node.rt, moment),
                NewsStep::Wait(None) => parker.park(node.rt),
            }
        }
        unreachable!()
    }

    /// Dials peers for news from a seat until the node is to end.
    fn dial_for_news<S: RoundsTag, H: Wait + Drop, Q: Wait + Net + Clock>(
        &self,
        node: &NodeContext<S, H, Q>,
        seat: ReaderSeat<S>,
    ) -> (ReaderSeat<S>, ()) {
        let mut current = seat;
        for _ in node.rt.forever() {
            match self.wait_for_news(node) {
                Some(index) => current = self.bring_news(node, current, index),
                None => return (current, ()),
            }
        }
        unreachable!()
    }

    /// Dials peers for news from a seat that stays in its place.
    fn dial_in_place<S: RoundsTag, H: Wait + Drop, Q: Wait + Net + Clock>(
        &self,
        node: &NodeContext<S, H, Q>,
        seat: &mut ReaderSeat<S>,
    ) {
        // `self` is handed in: the prover keeps no clause of a closure that captures a struct with a lifetime.
        replace_with(seat, self, |seat, dialing| -> (ReaderSeat<S>, ()) {
            dialing.dial_for_news(node, seat)
        });
    }
}

impl<O: Observer + Sync> Dialing<'_, O> {
    /// Dials peers for news until the node is to end, from each seat in a thread of its own.
    pub(crate) fn dial_from_all<
        S: RoundsTag + Send + Sync,
        H: Wait + Drop + Send + Sync,
        Q: Threads + Wait + Clock + Net<Listener = TcpListener, Stream = TcpStream> + Sync,
    >(&self, node: &NodeContext<S, H, Q>, seats: Vec<ReaderSeat<S>>) -> Vec<ReaderSeat<S>>
        ensures { (vec_len result ≡ vec_len seats) × (vec_capacity result ≡ vec_capacity seats) }
    {
        let mut seats = seats;
        let threads = seats.len();
        if threads != 0 {
            thread::for_each_mut(
                node.rt,
                seats.as_mut_slice(),
                threads,
                &|_, seat| self.dial_in_place(node, seat),
            );
        }
        seats
    }
}

/// After how long the observer gets the status of the node again, in milliseconds.
const STATUS_INTERVAL: u64 = 1_000;

/// What the thread has alone that dials in turn.
pub(crate) struct Turns<'a> {
    /// It waits at it.
    parker: Parker,
    /// Whether it dials for news too, since there is no other thread for that.
    is_alone: bool,
    /// How the peers were in the last status.
    peers: Vec<Peer<'a>>,
    /// How many rounds had ended then.
    reported: u64,
    /// When the observer is to get the status of the node again; at once if there is no time.
    status_due: Option<Instant>,
    /// Whether the observer knows that another node writes under this node's name.
    is_conflict_reported: bool,
    /// When the next round in turn is due. None if the clock can't be read.
    due: Option<Instant>,
    /// From when on a gap may hasten the next round in turn. None if none was hastened.
    hastens_from: Option<Instant>,
}

// It is written out, so that a caller does not prove again how each part is dropped.
impl Drop for Turns<'_> {
    fn drop(self) {
        let Turns {
            parker: _parker,
            is_alone: _,
            peers: _peers,
            reported: _,
            status_due: _,
            is_conflict_reported: _,
            due: _,
            hastens_from: _,
        } = self;
    }
}

impl<'a> Turns<'a> {
    /// Dials the peers of this schedule, also for news if it is alone, and waits at this parker. `NoMemory`.
    pub(crate) fn new(
        alloc: Global,
        schedule: &Schedule<'a>,
        is_alone: bool,
        parker: Parker,
    ) -> Result<Turns<'a>, Fault>
        ensures { IfErr result (λ fault. fault ≡ Fault.NoMemory) }
    {
        Ok(Turns {
            parker,
            is_alone,
            peers: schedule.peers(alloc)?,
            reported: 0,
            status_due: None,
            is_conflict_reported: false,
            due: None,
            hastens_from: None,
        })
    }

    /// Whether the observer is to get the status of the node. It is if a peer is otherwise than before, or if a round has ended and
    /// the last status is a second old.
    fn is_status_due<O: Observer, Q: Wait + Clock>(
        &self,
        rt: &Q,
        dialing: &Dialing<'a, O>,
    ) -> bool {
        let mut schedule = dialing.schedule().lock(rt);
        let ended = schedule.counts().ended;
        let has_changed = schedule.take_change();
        let is_late = self.status_due.is_none() || has_come(rt, self.status_due);
        has_changed || ended != self.reported && is_late
    }

    /// Reports the status of the node to the observer, if it wants to know and it is time.
    fn tell_status<S: RoundsTag, H: Wait + Drop, Q: Wait + Clock, O: Observer>(
        &mut self,
        node: &NodeContext<S, H, Q>,
        dialing: &Dialing<'a, O>,
        seat: ReaderSeat<S>,
    ) -> ReaderSeat<S> {
        let observer = dialing.observer();
        if !self.is_status_due(node.rt, dialing) || !observer.wants_status() {
            return seat;
        }
        self.status_due = moment_after(node.rt, STATUS_INTERVAL);
        let counts = dialing.schedule().lock(node.rt).report(&mut self.peers);
        self.reported = counts.ended;
        node.report_status(observer, counts, self.peers.as_slice(), seat)
    }

    /// Publishes what there was no memory to publish before. It reports to the observer, once each, that peers have rows of an
    /// owner to forget, and that another node writes under this node's name. It leaves the second out if an audit reported it. It
    /// also reports the versions that fell.
    fn refresh_and_report<S: RoundsTag, H: Wait + Drop, Q: Wait, O: Observer>(
        &mut self,
        node: &NodeContext<S, H, Q>,
        observer: &O,
        seat: &mut ReaderSeat<S>,
    ) {
        let _ = node.directory.refresh(node.rt, seat);
        report_forgotten(node.forgotten, observer);
        report_falls(node.rt, node.reported_versions, observer);
        if self.is_conflict_reported || node.counts.has_difference() {
            return;
        }
        if let Some(version) = node.directory.conflict(node.rt, seat) {
            self.is_conflict_reported = true;
            observer.conflict(version);
        }
    }

    /// Makes the round in turn that has begun, if there are peers. The next is due after the pause.
    fn make_round<S: RoundsTag, H: Wait + Drop, Q: Wait + Net + Clock, O: Observer>(
        &mut self,
        node: &NodeContext<S, H, Q>,
        dialing: &Dialing<'a, O>,
        seat: ReaderSeat<S>,
        next: Option<Round<'a>>,
    ) -> ReaderSeat<S> {
        let mut current = seat;
        // What is missing by now this round may bring.
        let _ = node.bell.take_gap();
        if self.due.is_none() {
            // The other threads begin with the other peers.
            node.bell.wake();
        }
        match next {
            Some(round) => {
                current = dialing.round(node, current, round);
                current = dialing.audit_in_turn(node, current);
            }
            None => {
                dialing.schedule().lock(node.rt).count_empty_turn();
                dialing.look_at_log(node);
            }
        }
        current = self.tell_status(node, dialing, current);
        self.refresh_and_report(node, dialing.observer(), &mut current);
        self.due = moment_after(node.rt, node.pace.pause);
        current
    }

    /// When the observer is to get the status of the node, if a round has ended since it got the last one. None if it can get it
    /// now.
    fn next_status<Q: Wait + Clock, O: Observer>(
        &self,
        rt: &Q,
        dialing: &Dialing<'a, O>,
    ) -> Option<Instant> {
        let ended = dialing.schedule().lock(rt).counts().ended;
        if ended == self.reported || has_come(rt, self.status_due) {
            return None;
        }
        self.status_due
    }

    /// Waits until the next round in turn is due or the thread is woken, and no longer than until this moment, if it is one.
    fn park<Q: Wait + Clock>(&self, rt: &Q, until: Option<Instant>) {
        match earlier(self.due, until) {
            Some(moment) => self.parker.park_deadline(rt, moment),
            None => self.parker.park(rt),
        }
    }

    /// Whether the next round in turn is made at once, since a peer sent writes after ones that are missing. That is so
    /// once a pause at most, and only if there is a round left.
    fn is_hastened<S: RoundsTag, H: Wait + Drop, Q: Wait + Clock, O: Observer>(
        &mut self,
        node: &NodeContext<S, H, Q>,
        dialing: &Dialing<'a, O>,
    ) -> bool {
        if !node.bell.take_gap() || !dialing.schedule().lock(node.rt).has_round_left() {
            return false;
        }
        if self.hastens_from.is_some() && !has_come(node.rt, self.hastens_from) {
            return false;
        }
        self.hastens_from = moment_after(node.rt, node.pace.pause);
        node.counts.add_hastened_round();
        true
    }

    /// Waits until the next round in turn is due or hastened, or the node is to end. Meanwhile it reports to the observer what
    /// the other threads met, and dials for news itself if it is alone.
    fn wait_for_turn<S: RoundsTag, H: Wait + Drop, Q: Wait + Net + Clock, O: Observer>(
        &mut self,
        node: &NodeContext<S, H, Q>,
        dialing: &Dialing<'a, O>,
        seat: ReaderSeat<S>,
    ) -> ReaderSeat<S> {
        let mut current = seat;
        for _ in node.rt.forever() {
            if node.ending.is_raised()
                || has_come(node.rt, self.due)
                || self.is_hastened(node, dialing)
            {
                return current;
            }
            let step = if self.is_alone {
                dialing.next_news(node)
            } else {
                NewsStep::Wait(None)
            };
            match step {
                NewsStep::Dial(index) => {
                    current = dialing.bring_news(node, current, index);
                    current = self.tell_status(node, dialing, current);
                }
                NewsStep::Wait(until) => {
                    current = self.tell_status(node, dialing, current);
                    self.park(node.rt, earlier(until, self.next_status(node.rt, dialing)));
                }
            }
        }
        unreachable!()
    }

    /// Makes all rounds in turn of the node's pace, and waits until those for news have ended. None if the node is to end before.
    pub(crate) fn dial_all<S: RoundsTag, H: Wait + Drop, Q: Wait + Net + Clock, O: Observer>(
        self,
        node: &NodeContext<S, H, Q>,
        dialing: &Dialing<'a, O>,
        seat: ReaderSeat<S>,
    ) -> (ReaderSeat<S>, Option<Rounds<S>>) {
        let mut turns = self;
        let mut current = seat;
        for _ in node.rt.forever() {
            if node.ending.is_raised() {
                return (current, None);
            }
            let begun = dialing.schedule().lock(node.rt).begin_round_in_turn();
            match begun {
                Some(next) => {
                    current = turns.make_round(node, dialing, current, next);
                    current = turns.wait_for_turn(node, dialing, current);
                }
                None => match dialing.all_if_done(node) {
                    Some(all) => return (current, Some(Rounds::new(node.pace.rounds, &all))),
                    None => turns.parker.park(node.rt),
                },
            }
        }
        unreachable!()
    }
}

/// Reports to the observer, once of each owner, that a peer still had rows of it.
fn report_forgotten<O: Observer>(forgotten: &ForgottenOwners, observer: &O) {
    for owner in forgotten.names() {
        if forgotten.take_sighting(owner) {
            observer.forgotten_met(owner);
        }
    }
}

/// The earlier of two moments, if both are moments, and else the one that is.
fn earlier(one: Option<Instant>, other: Option<Instant>) -> Option<Instant> {
    match (one, other) {
        (Some(one), Some(other)) => Some(one.min(other)),
        (one, other) => one.or(other),
    }
}

/// The moment so many milliseconds after this one. None if the clock can't be read.
pub(crate) fn moment_after<Q: Clock>(clock: &Q, milliseconds: u64) -> Option<Instant> {
    match Instant::now(clock) {
        Ok(now) => now.checked_add(Duration::from_millis(milliseconds)),
        Err(_) => None,
    }
}

/// Whether a moment has come. If the clock can't be read, it has, since that is no reason to wait.
pub(crate) fn is_past<Q: Clock>(clock: &Q, moment: Instant) -> bool {
    match Instant::now(clock) {
        Ok(now) => now >= moment,
        Err(_) => true,
    }
}

/// Whether there is such a moment, and it has come.
pub(crate) fn has_come<Q: Clock>(clock: &Q, moment: Option<Instant>) -> bool {
    moment.is_some_and(|moment| is_past(clock, moment))
}

/// A running node that also names, in proofs alone, how many rounds it is to make.
pub(crate) trait RoundsTag: DirectoryTag {
    ghost use Rattle.std.specs.Prelude.{ℕ};

    ghost rounds: { ℕ };
}

impl RoundsTag for Brand {
    ghost rounds = { 0 };
}

/// The rounds that were made, which are all.
#[derive(Drop)]
pub(crate) struct Rounds<S: RoundsTag> {
    pub(crate) made: u64,
    /// How many of them had a fault.
    pub(crate) faults: u64,
    of: PhantomData<S>,
    ghost all: { made ≡ S.rounds },
}

impl<S: RoundsTag> Rounds<S> {
    pub(crate) fn new(made: u64, all: &AllRounds) -> Rounds<S>
        requires { made ≡ S.rounds }
        ensures { (result.made ≡ made) × (result.faults ≡ all.now.faults) }
    {
        Rounds {
            made,
            faults: all.faults(),
            of: PhantomData,
        }
    }
}

/// The end of the dialing thread.
pub(crate) struct RoundsSender<S: RoundsTag> {
    to: RuledSender<Rounds<S>, (), Free>,
    pass: Pass<Rounds<S>, ()>,
    ghost fits: { IsSeatAt (sends_on to) pass },
}

// It is written out, so that a caller does not prove again how each part is dropped.
impl<S: RoundsTag> Drop for RoundsSender<S> {
    fn drop(self) {
        let RoundsSender { to: _, pass: _ } = self;
    }
}

/// The end of the owner's thread.
pub(crate) struct RoundsReceiver<S: RoundsTag> {
    from: RuledReceiver<Rounds<S>, (), Free>,
    pass: Pass<Rounds<S>, ()>,
    ghost fits: { IsSeatAt (receives_on from) pass },
}

// The same.
impl<S: RoundsTag> Drop for RoundsReceiver<S> {
    fn drop(self) {
        let RoundsReceiver { from: _, pass: _ } = self;
    }
}

/// Neither end knows anything.
struct NothingKnown;

impl Split<()> for NothingKnown {
    ghost left = { λ v. v };

    ghost right = { λ v. v };
}

/// A channel for one message. `NoMemory`.
pub(crate) fn rounds_channel<S: RoundsTag>(
    alloc: Global,
) -> Result<(RoundsSender<S>, RoundsReceiver<S>), Fault>
    ensures { IfErr result (λ fault. fault ≡ Fault.NoMemory) }
{
    let (to, from, mut pass) = bounded_with::<Rounds<S>, (), Free, Global>(alloc, 1)?;
    let other = to.another::<NothingKnown>(&mut pass);
    Ok((
        RoundsSender { to, pass },
        RoundsReceiver { from, pass: other },
    ))
}

impl<S: RoundsTag> RoundsSender<S> {
    /// Sends the rounds, at the end.
    pub(crate) fn send<R: Wait>(self, rt: &R, rounds: Rounds<S>) {
        let RoundsSender { to, mut pass } = self;
        let _ = to.send_as::<Free, R>(rt, &mut pass, rounds);
    }
}

impl<S: RoundsTag> RoundsReceiver<S> {
    /// Waits until the rounds are sent. `NoMemory` if the other end is gone before.
    pub(crate) fn receive<R: Wait>(self, rt: &R) -> Result<Rounds<S>, Fault>
        ensures { IfErr result (λ fault. fault ≡ Fault.NoMemory) }
    {
        let RoundsReceiver { from, mut pass } = self;
        match from.recv_as::<Free, R>(rt, &mut pass) {
            Ok(rounds) => Ok(rounds),
            Err(_) => Err(Fault::NoMemory),
        }
    }
}
