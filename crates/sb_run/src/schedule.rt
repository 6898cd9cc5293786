//! Whom to dial next, and the rounds that were made: what the threads that dial share, under one lock.
ghost use Rattle.std.specs.Prelude.{◌≡◌, ◌<◌, ◌≤◌, true, false, None, Some, IfSome, IsSomeAnd, MatchOption, IfOk, IfErr, ◌+◌, map, slice_get, vec_len, replicate, ℕ, List, length, nat_lt};
ghost use Rattle.sb_run.specs.Deliveries as spec;
ghost use Rattle.sb_run.specs.StatusReplies.{have_had_rounds, peer_status};
ghost use Rattle.sb_run.specs.Turns.{one_more, with_more, turn_of, number_of_state, misses_after, takes_news};

use crate::bell::Bell;
use crate::dialer::{has_come, moment_after};
use crate::dialing::DialEnd;
use crate::node::Pace;
use crate::observer::Observer;
use crate::peers::{Peer, Peers, turn_of};
use crate::session_end::SessionEnd;
use sb_codec::PeerStatus;
use sb_types::Fault;
use std::alloc::Global;
use std::time::{Clock, Instant};

/// How long after a burst begins news is gathered for the next, in milliseconds.
const NEWS_INTERVAL: u64 = 20;

/// The same after a burst of news that was gathered, as in a stream of writes.
const STREAM_INTERVAL: u64 = 60;

/// Why a round is made.
#[derive(Clone, Copy)]
pub(crate) enum Cause {
    /// It is the peer's turn.
    Turn,
    /// There is news for the peer.
    News,
}

/// A round that has begun: with which peer, and why. Only `begin_round_in_turn` and `begin_round_for_news` make it. It can be neither
/// copied nor let go, so each round that has begun ends once, by a dial of its peer.
pub(crate) struct Round<'a> {
    index: usize,
    path: &'a str,
    cause: Cause,
}

impl<'a> Round<'a> {
    /// The index of its peer.
    pub(crate) fn index(&self) -> usize
        ensures { result ≡ self.now.index }
    {
        self.index
    }

    /// The path of its peer.
    pub(crate) fn path(&self) -> &'a str
        ensures { result ≡ self.now.path }
    {
        self.path
    }
}

/// What a thread that dials for news is to do next.
#[derive(Clone, Copy)]
pub(crate) enum NewsStep {
    /// Dial the peer at this index.
    Dial(usize),
    /// Wait until it is woken, or until this moment, if it is one.
    Wait(Option<Instant>),
}

/// Which rounds were made.
#[derive(Clone, Copy)]
pub(crate) struct RoundCounts {
    /// How many have ended.
    pub(crate) ended: u64,
    /// How many of these had a fault.
    pub(crate) faults: u64,
}

/// All rounds that were to be made, which have ended. Only `Schedule` makes it, once it has counted as many.
#[derive(Drop)]
pub(crate) struct AllRounds {
    faults: u64,
}

impl AllRounds {
    /// How many faults there were.
    pub(crate) fn faults(&self) -> u64
        ensures { result ≡ self.now.faults }
    {
        self.faults
    }

    /// The same rounds, with so many more faults.
    pub(crate) fn with_faults(self, more: u64) -> AllRounds
        ensures { result.faults ≡ with_more self.faults more }
    {
        AllRounds {
            faults: self.faults.saturating_add(more),
        }
    }
}

/// What the status of a node reports of its rounds and its peers.
#[derive(Drop)]
pub(crate) struct PeersReport {
    pub(crate) counts: RoundCounts,
    /// Whether each peer has had a round that ended.
    pub(crate) is_caught_up: bool,
    pub(crate) peers: Vec<PeerStatus>,
}

/// Whom to dial next, and the rounds that were made.
#[derive(Drop)]
pub(crate) struct Schedule<'a> {
    peers: Peers<'a>,
    deliveries: Deliveries,
    /// How many rounds are made; 0 for rounds without end.
    most: u64,
    /// How many rounds have begun.
    begun: u64,
    counts: RoundCounts,
    /// Whether a peer was otherwise than before since this was last asked.
    has_changed: bool,
    /// Until when news is gathered for the next burst.
    gathers_until: Option<Instant>,
    /// Whether there is news that was gathered.
    has_gathered: bool,
}

/// How long after a burst begins news is gathered for the next, in milliseconds. The news of the burst was gathered or not.
fn gathering_time(was_gathered: bool) -> u64
    ensures { result ≡ spec.gathering_time was_gathered }
{
    if was_gathered {
        STREAM_INTERVAL
    } else {
        NEWS_INTERVAL
    }
}

impl<'a> Schedule<'a> {
    /// The schedule of a node that dials these peers, with so many sessions for news at a time. It makes so many rounds, 0 for
    /// rounds without end. `NoMemory`.
    pub(crate) fn new(
        alloc: Global,
        paths: &[&'a str],
        most: u64,
        sessions: usize,
    ) -> Result<Schedule<'a>, Fault>
        ensures new { IfOk result (λ schedule. (schedule.most ≡ most) × (schedule.begun ≡ 0) × (schedule.counts.ended ≡ 0) × (schedule.counts.faults ≡ 0)) }
        ensures memory { IfErr result (λ fault. fault ≡ Fault.NoMemory) }
    {
        Ok(Schedule {
            peers: Peers::new(alloc, paths)?,
            deliveries: Deliveries::new(alloc, paths.len(), sessions)?,
            most,
            begun: 0,
            counts: RoundCounts {
                ended: 0,
                faults: 0,
            },
            has_changed: false,
            gathers_until: None,
            has_gathered: false,
        })
    }

    /// Whether another round may begin.
    pub(crate) fn has_round_left(&self) -> bool
        ensures { result ≡ spec.has_round_left self.now.most self.now.begun }
    {
        self.most == 0 || self.begun < self.most
    }

    /// A round with the peer at this index, which has begun.
    fn round_with(&self, index: usize, cause: Cause) -> Round<'a>
        ensures index { result.index ≡ index }
        ensures path { IfSome (slice_get self.now.peers.all.items index) (λ peer. result.path ≡ peer.path) }
        ensures cause { result.cause ≡ cause }
    {
        Round {
            index,
            path: self.peers.path(index),
            cause,
        }
    }

    /// Begins a round in turn, if another round may begin: the round with the peer whose turn it is, if there are peers.
    pub(crate) fn begin_round_in_turn(&mut self) -> Option<Option<Round<'a>>>
        ensures none { result ≡ None → spec.has_round_left self.old.most self.old.begun ≡ false }
        ensures some { IfSome result (λ _. spec.has_round_left self.old.most self.old.begun ≡ true) }
        ensures counted { IfSome result (λ _. self.new.begun ≡ one_more self.old.begun) }
        ensures turn { IfSome result (λ next. IfSome (slice_get self.old.peers.all.items (turn_of (vec_len self.old.peers.all) self.old.peers.turn))
            (λ peer. peer.turns_out ≡ 0 → IsSomeAnd next (λ round. round.index ≡ turn_of (vec_len self.old.peers.all) self.old.peers.turn))) }
        ensures someone { IfSome result (λ next. next ≡ None → vec_len self.old.peers.all ≡ 0) }
        ensures path { IfSome result (λ next. IfSome next (λ round. IfSome (slice_get self.new.peers.all.items round.index) (λ peer. round.path ≡ peer.path))) }
        ensures next { IfSome result (λ next. IfSome next (λ round. self.new.peers.turn ≡ round.index + 1)) }
        ensures counts { (self.new.counts ≡ self.old.counts) × (self.new.most ≡ self.old.most) }
        ensures same { result ≡ None → self.new ≡ self.old }
        ensures first { self.old.begun ≡ 0 → IfSome result (λ next. IfSome next (λ round. spec.Changes round.index spec.without_news self.old.deliveries.all.items self.new.deliveries.all.items)) }
    {
        let next = self.begin_turn()?;
        match next {
            Some(index) => Some(Some(self.round_with(index, Cause::Turn))),
            None => Some(None),
        }
    }

    /// Counts one more round that has begun, if it may begin. Returns the index of the peer whose turn it is, if there are peers.
    /// The first round leaves each other peer due.
    fn begin_turn(&mut self) -> Option<Option<usize>>
        ensures none { result ≡ None → spec.has_round_left self.old.most self.old.begun ≡ false }
        ensures some { IfSome result (λ _. spec.has_round_left self.old.most self.old.begun ≡ true) }
        ensures counted { IfSome result (λ _. self.new.begun ≡ one_more self.old.begun) }
        // It is the peer whose turn it is, unless that one is passed over. If there are peers, there is one.
        ensures turn { IfSome result (λ next. IfSome (slice_get self.old.peers.all.items (turn_of (vec_len self.old.peers.all) self.old.peers.turn))
            (λ peer. peer.turns_out ≡ 0 → next ≡ Some (turn_of (vec_len self.old.peers.all) self.old.peers.turn))) }
        ensures someone { IfSome result (λ next. next ≡ None → vec_len self.old.peers.all ≡ 0) }
        ensures within { IfSome result (λ next. IfSome next (λ index. index < vec_len self.new.peers.all)) }
        ensures next { IfSome result (λ next. IfSome next (λ index. self.new.peers.turn ≡ index + 1)) }
        ensures count { vec_len self.new.peers.all ≡ vec_len self.old.peers.all }
        ensures counts { (self.new.counts ≡ self.old.counts) × (self.new.most ≡ self.old.most) }
        ensures same { result ≡ None → self.new ≡ self.old }
        ensures first { self.old.begun ≡ 0 → IfSome result (λ next. IfSome next (λ index. spec.Changes index spec.without_news self.old.deliveries.all.items self.new.deliveries.all.items)) }
    {
        if !self.has_round_left() {
            return None;
        }
        let is_first = self.begun == 0;
        self.begun = self.begun.saturating_add(1);
        let next = self.peers.next_in_turn();
        if is_first {
            self.leave_to_turn(next);
        }
        Some(next)
    }

    /// Notes that the peer at this index, if there is one, is not dialed for news: its first round is in turn.
    fn leave_to_turn(&mut self, next: Option<usize>)
        ensures peers { (self.new.peers ≡ self.old.peers) × (self.new.begun ≡ self.old.begun) }
        ensures counts { (self.new.counts ≡ self.old.counts) × (self.new.most ≡ self.old.most) }
        ensures left { IfSome next (λ index. spec.Changes index spec.without_news self.old.deliveries.all.items self.new.deliveries.all.items) }
    {
        if let Some(index) = next {
            self.deliveries.forget(index);
        }
    }

    /// Begins a session for news with the next peer for which there is any and with which one can begin.
    fn begin_delivery(&mut self) -> Option<usize> {
        for _ in 0..self.deliveries.len() {
            let index = self.deliveries.next_index();
            if !self.peers.takes_news(index) {
                self.deliveries.forget(index);
            } else if self.deliveries.begin(index) {
                return Some(index);
            }
        }
        None
    }

    /// Notes that there is news for the next peer that is dialed for news. Returns its index; none if nobody is.
    fn expect_next(&mut self) -> Option<usize>
        ensures none { result ≡ None → self.new.deliveries.all.items ≡ self.old.deliveries.all.items }
        ensures some { IfSome result (λ index. spec.Changes index spec.with_news self.old.deliveries.all.items self.new.deliveries.all.items) }
    {
        let index = self.peers.next_in_burst()?;
        self.deliveries.expect(index);
        Some(index)
    }

    /// Notes that there is news for the next so many peers that are dialed for news, or for all of these.
    fn begin_burst(&mut self, fanout: u64)
        ensures { (dialed : List ℕ) × (length dialed ≤ fanout) × spec.ExpectInTurn dialed self.old.deliveries.all.items self.new.deliveries.all.items }
    {
        for _ in 0..fanout.min(self.peers.count_for_news()) {
            let _ = self.expect_next();
        }
    }

    /// What a thread that dials for news is to do next. Once the first round in turn has begun, it dials the peers that were not
    /// dialed yet. A burst begins if there is news and no earlier news can be brought. News that comes soon after a burst began
    /// is gathered first, and longer in a stream.
    pub(crate) fn next_news<Q: Clock>(&mut self, clock: &Q, bell: &Bell, pace: &Pace) -> NewsStep {
        if pace.pause == 0 || self.begun == 0 {
            return NewsStep::Wait(None);
        }
        let mut next = self.begin_delivery();
        if next.is_none() && pace.fanout != 0 && bell.has_news() {
            if self.gathers_until.is_some() && !has_come(clock, self.gathers_until) {
                self.has_gathered = true;
                return NewsStep::Wait(self.gathers_until);
            }
            let _ = bell.take_news();
            self.gathers_until = moment_after(clock, gathering_time(self.has_gathered));
            self.has_gathered = false;
            self.begin_burst(pace.fanout);
            next = self.begin_delivery();
        }
        match next {
            Some(index) => NewsStep::Dial(index),
            None => NewsStep::Wait(None),
        }
    }

    /// Begins a round for news with the peer at this index, if another round may begin.
    pub(crate) fn begin_round_for_news(&mut self, index: usize) -> Option<Round<'a>>
        ensures none { result ≡ None → spec.has_round_left self.old.most self.old.begun ≡ false }
        ensures some { IfSome result (λ _. spec.has_round_left self.old.most self.old.begun ≡ true) }
        ensures counted { IfSome result (λ _. self.new.begun ≡ one_more self.old.begun) }
        ensures peer { IfSome result (λ round. round.index ≡ index) }
        ensures path { IfSome result (λ round. IfSome (slice_get self.new.peers.all.items index) (λ peer. round.path ≡ peer.path)) }
        ensures counts { (self.new.counts ≡ self.old.counts) × (self.new.most ≡ self.old.most) }
        ensures same { result ≡ None → self.new ≡ self.old }
    {
        if !self.has_round_left() {
            return None;
        }
        self.begun = self.begun.saturating_add(1);
        Some(self.round_with(index, Cause::News))
    }

    /// Notes that there is news for the peer at this index.
    pub(crate) fn expect(&mut self, index: usize)
        ensures { spec.Changes index spec.with_news self.old.deliveries.all.items self.new.deliveries.all.items }
    {
        self.deliveries.expect(index);
    }

    /// Ends a session for news with a peer that was not dialed.
    pub(crate) fn leave_out(&mut self, index: usize)
        ensures { spec.Changes index spec.left_out self.old.deliveries.all.items self.new.deliveries.all.items }
    {
        self.deliveries.leave_out(index);
    }

    /// Notes how a push to a peer ended, and reports the peer to the observer if that changed it. Returns whether the
    /// peer is still dialed for news.
    pub(crate) fn end_push<O: Observer>(
        &mut self,
        index: usize,
        end: SessionEnd,
        observer: &O,
    ) -> bool
        ensures delivery { spec.Changes index (spec.ended end.is_slow) self.old.deliveries.all.items self.new.deliveries.all.items }
        ensures counts { self.new.counts ≡ self.old.counts }
        ensures misses { IfSome (slice_get self.old.peers.all.items index)
            (λ before. IfSome (slice_get self.new.peers.all.items index) (λ after. after.misses ≡ misses_after end.state before.misses)) }
        ensures answer { IfSome (slice_get self.new.peers.all.items index) (λ peer. result ≡ takes_news peer) }
    {
        self.deliveries.end(index, end.is_slow);
        if self
            .peers
            .note_push(index, end.state, end.has_waited, observer)
        {
            self.has_changed = true;
        }
        self.peers.takes_news(index)
    }

    /// Ends a round by what came of the dial of its peer, and reports the peer to the observer if that changed it. Returns
    /// whether the peer is dialed for news from then on.
    pub(crate) fn end_round<O: Observer>(
        &mut self,
        round: Round<'a>,
        dial: DialEnd,
        observer: &O,
    ) -> bool
        requires peer { dial.index ≡ round.index }
        ensures delivery { spec.Changes round.entry.index (spec.after_round round.entry.cause dial.end.is_slow) self.old.deliveries.all.items self.new.deliveries.all.items }
        ensures ended { self.new.counts.ended ≡ one_more self.old.counts.ended }
        ensures faults { self.new.counts.faults ≡ spec.faults_after (nat_lt 0 (number_of_state dial.end.state)) self.old.counts.faults }
        ensures begun { (self.new.begun ≡ self.old.begun) × (self.new.most ≡ self.old.most) }
        ensures misses { IfSome (slice_get self.old.peers.all.items round.entry.index)
            (λ before. IfSome (slice_get self.new.peers.all.items round.entry.index) (λ after. after.misses ≡ misses_after dial.end.state before.misses)) }
        ensures answer { IfSome (slice_get self.new.peers.all.items round.entry.index) (λ peer. result ≡ takes_news peer) }
    {
        let Round {
            index,
            path: _,
            cause,
        } = round;
        let end = dial.end();
        self.count_round(end.state.has_fault());
        let number = self.counts.ended;
        self.deliveries.end_round(index, cause, end.is_slow);
        if self
            .peers
            .note(index, number, end.state, end.has_waited, observer)
        {
            self.has_changed = true;
        }
        self.peers.takes_news(index)
    }

    /// Counts a turn in which nobody is dialed, since there are no peers.
    pub(crate) fn count_empty_turn(&mut self)
        ensures same { 0 < vec_len self.old.peers.all → self.new ≡ self.old }
        ensures ended { vec_len self.old.peers.all ≡ 0 → self.new.counts.ended ≡ one_more self.old.counts.ended }
    {
        if self.peers.is_empty() {
            self.count_round(false);
        }
    }

    /// Counts a round that has ended, with a fault or not.
    fn count_round(&mut self, has_fault: bool)
        ensures ended { self.new.counts.ended ≡ one_more self.old.counts.ended }
        ensures faults { self.new.counts.faults ≡ spec.faults_after has_fault self.old.counts.faults }
        ensures deliveries { self.new.deliveries ≡ self.old.deliveries }
        ensures peers { self.new.peers ≡ self.old.peers }
        ensures begun { (self.new.begun ≡ self.old.begun) × (self.new.most ≡ self.old.most) }
    {
        self.counts.ended = self.counts.ended.saturating_add(1);
        if has_fault {
            self.counts.faults = self.counts.faults.saturating_add(1);
        }
    }

    /// All rounds, once as many have ended as are to be made.
    pub(crate) fn all_if_done(&self) -> Option<AllRounds>
        ensures made { IfSome result (λ all. (0 < self.now.most) × (self.now.most ≤ self.now.counts.ended) × (all.faults ≡ self.now.counts.faults)) }
        ensures none { result ≡ None → spec.faults_if_done self.now.most self.now.counts ≡ None }
    {
        match self.faults_if_done() {
            Some(faults) => Some(AllRounds { faults }),
            None => None,
        }
    }

    /// How many rounds had a fault, once all that are to be made have ended.
    fn faults_if_done(&self) -> Option<u64>
        ensures count { result ≡ spec.faults_if_done self.now.most self.now.counts }
        ensures made { IfSome result (λ faults. (0 < self.now.most) × (self.now.most ≤ self.now.counts.ended) × (faults ≡ self.now.counts.faults)) }
    {
        if self.most != 0 && self.counts.ended >= self.most {
            Some(self.counts.faults)
        } else {
            None
        }
    }

    /// Which rounds were made.
    pub(crate) fn counts(&self) -> RoundCounts {
        self.counts
    }

    /// Whether there is news for a peer that no session has begun to bring.
    pub(crate) fn is_news_due(&self) -> bool
        ensures { result ≡ spec.is_any_due self.now.deliveries.all.items }
    {
        self.deliveries.is_any_due()
    }

    /// Whether a peer was otherwise than before since `take_change` was last called.
    pub(crate) fn has_changed(&self) -> bool
        ensures { result ≡ self.now.has_changed }
    {
        self.has_changed
    }

    /// Whether a peer was otherwise than before since this was last asked.
    pub(crate) fn take_change(&mut self) -> bool {
        let has_changed = self.has_changed;
        self.has_changed = false;
        has_changed
    }

    /// The path of a peer; the empty one if there is no such peer.
    pub(crate) fn path(&self, index: usize) -> &'a str {
        self.peers.path(index)
    }

    /// The index of the next peer, from this one on, whose last round was made to its end; after the last comes the first.
    pub(crate) fn next_answering(&self, from: usize) -> Option<usize> {
        self.peers.next_answering(from)
    }

    /// A copy of the peers, in the order of their paths. `NoMemory`.
    pub(crate) fn peers(&self, alloc: Global) -> Result<Vec<Peer<'a>>, Fault>
        ensures { IfErr result (λ fault. fault ≡ Fault.NoMemory) }
    {
        let mut copies = Vec::with_capacity(alloc, self.peers.all().len())?;
        for peer in self.peers.all() {
            copies.push(*peer)?;
        }
        Ok(copies)
    }

    /// What the status of a node reports of its rounds and its peers. `NoMemory`.
    pub(crate) fn peers_report(&self, alloc: Global) -> Result<PeersReport, Fault>
        ensures counts { IfOk result (λ report. report.counts ≡ self.now.counts) }
        // Each peer is reported, as it is.
        ensures peers { IfOk result (λ report. report.peers.items ≡ map peer_status self.now.peers.all.items) }
        ensures caught_up { IfOk result (λ report. report.is_caught_up ≡ have_had_rounds report.peers.items) }
        ensures memory { IfErr result (λ fault. fault ≡ Fault.NoMemory) }
    {
        let peers = self.peers.statuses(alloc)?;
        Ok(PeersReport {
            counts: self.counts,
            is_caught_up: peers.iter().all(|peer| 0 < peer.round),
            peers,
        })
    }

    /// Which rounds were made; copies how the peers are over an older copy.
    pub(crate) fn report(&self, copies: &mut [Peer<'a>]) -> RoundCounts {
        for (copy, peer) in copies.iter_mut().zip(self.peers.all()) {
            *copy = *peer;
        }
        self.counts
    }
}

/// How news is on its way to one peer.
#[derive(Clone, Copy, Drop)]
pub(crate) struct Delivery {
    /// There is news for it, which no session has begun to bring, or it was never dialed.
    is_due: bool,
    /// A session for news with it is under way.
    is_open: bool,
    /// Its last session took long, or there was none yet.
    is_slow: bool,
}

impl Delivery {
    /// Whether a session for news can begin, if there is room for a slow peer or is not.
    fn can_begin(&self, has_room: bool) -> bool
        ensures due { result ≡ true → (self.now.is_due ≡ true) × (self.now.is_open ≡ false) }
        ensures goes { self.now.is_due ≡ true → self.now.is_open ≡ false → self.now.is_slow ≡ false → result ≡ true }
        ensures can { result ≡ spec.can_begin has_room self.now }
    {
        self.is_due && !self.is_open && (has_room || !self.is_slow)
    }

    /// Whether a session with a slow peer is under way.
    fn takes_slow_room(&self) -> bool
        ensures { result ≡ spec.takes_slow_room self.now }
    {
        self.is_open && self.is_slow
    }
}

/// The deliveries of news to the peers of a node, in the order of the peers.
#[derive(Drop)]
pub(crate) struct Deliveries {
    all: Vec<Delivery>,
    /// How many sessions for news there can be at a time.
    most: usize,
    /// Whose turn comes next to be brought news.
    turn: usize,
}

impl Deliveries {
    /// Each of so many peers is due to be dialed, since it was not yet. So many of them can be brought news at a time. Each counts
    /// as slow until a session with it was short. `NoMemory`.
    pub(crate) fn new(alloc: Global, count: usize, most: usize) -> Result<Deliveries, Fault>
        ensures all { IfOk result (λ deliveries. deliveries.all.items ≡ replicate count spec.at_first) }
        ensures first { IfOk result (λ deliveries. (deliveries.most ≡ most) × (deliveries.turn ≡ 0)) }
        ensures memory { IfErr result (λ fault. fault ≡ Fault.NoMemory) }
    {
        let at_first = Delivery {
            is_due: true,
            is_open: false,
            is_slow: true,
        };
        let all = vec![in alloc; at_first; count]?;
        Ok(Deliveries { all, most, turn: 0 })
    }

    /// How many peers there are.
    pub(crate) fn len(&self) -> usize {
        self.all.len()
    }

    /// The index of the peer whose turn it is to be brought news; after the last comes the first.
    pub(crate) fn next_index(&mut self) -> usize
        ensures index { result ≡ turn_of (vec_len self.old.all) self.old.turn }
        ensures next { self.new.turn ≡ result + 1 }
        ensures same { (self.new.all ≡ self.old.all) × (self.new.most ≡ self.old.most) }
    {
        let index = turn_of(self.all.len(), self.turn);
        self.turn = index.saturating_add(1);
        index
    }

    /// Whether one more session with a slow peer leaves room for a session with another. It does if there is room for one alone.
    fn has_room(&self) -> bool
        ensures { result ≡ spec.has_room self.now.most self.now.all.items }
    {
        let mut slow: usize = 0;
        for delivery in &self.all {
            if delivery.takes_slow_room() {
                slow += 1;
            }
        }
        self.most < 2 || slow < self.most - 1
    }

    /// Whether there is news for a peer that no session has begun to bring.
    fn is_any_due(&self) -> bool
        ensures { result ≡ spec.is_any_due self.now.all.items }
    {
        self.all.iter().any(|delivery| delivery.is_due)
    }

    /// Notes that there is news for the peer at this index.
    pub(crate) fn expect(&mut self, index: usize)
        ensures most { self.new.most ≡ self.old.most }
        ensures changes { spec.Changes index spec.with_news self.old.all.items self.new.all.items }
    {
        if let Some(delivery) = self.all.get_mut(index) {
            delivery.is_due = true;
        }
    }

    /// Notes that no news need be brought to the peer at this index.
    pub(crate) fn forget(&mut self, index: usize)
        ensures most { self.new.most ≡ self.old.most }
        ensures changes { spec.Changes index spec.without_news self.old.all.items self.new.all.items }
    {
        if let Some(delivery) = self.all.get_mut(index) {
            delivery.is_due = false;
        }
    }

    /// Begins a session for news with the peer at this index, if it can begin, and returns whether it does. It can if there is
    /// news for the peer, and no other session for news with it is under way. A slow peer also needs room for a slow one.
    pub(crate) fn begin(&mut self, index: usize) -> bool
        ensures most { self.new.most ≡ self.old.most }
        ensures begins { IfSome (slice_get self.old.all.items index) (λ delivery. result ≡ true → (delivery.is_due ≡ true) × (delivery.is_open ≡ false)) }
        // One that is not slow begins whatever room there is for slow ones.
        ensures goes { IfSome (slice_get self.old.all.items index) (λ delivery. delivery.is_due ≡ true → delivery.is_open ≡ false → delivery.is_slow ≡ false → result ≡ true) }
        ensures can { MatchOption (slice_get self.old.all.items index) (result ≡ false) (λ delivery. result ≡ spec.can_begin (spec.has_room self.old.most self.old.all.items) delivery) }
        ensures changes { result ≡ true → spec.Changes index spec.begun self.old.all.items self.new.all.items }
        ensures same { result ≡ false → self.new.all ≡ self.old.all }
    {
        let Some(delivery) = self.all.get(index) else {
            return false;
        };
        if !delivery.can_begin(self.has_room()) {
            return false;
        }
        self.open(index);
        true
    }

    /// Notes that a session for news with the peer at this index is under way.
    fn open(&mut self, index: usize)
        ensures most { self.new.most ≡ self.old.most }
        ensures changes { spec.Changes index spec.begun self.old.all.items self.new.all.items }
    {
        if let Some(delivery) = self.all.get_mut(index) {
            delivery.is_due = false;
            delivery.is_open = true;
        }
    }

    /// Ends a session for news with the peer at this index, which took long or not.
    pub(crate) fn end(&mut self, index: usize, is_slow: bool)
        ensures most { self.new.most ≡ self.old.most }
        ensures changes { spec.Changes index (spec.ended is_slow) self.old.all.items self.new.all.items }
    {
        if let Some(delivery) = self.all.get_mut(index) {
            delivery.is_open = false;
            delivery.is_slow = is_slow;
        }
    }

    /// Ends a round with the peer at this index that was made for this reason, and took long or not.
    pub(crate) fn end_round(&mut self, index: usize, cause: Cause, is_slow: bool)
        ensures most { self.new.most ≡ self.old.most }
        ensures changes { spec.Changes index (spec.after_round cause is_slow) self.old.all.items self.new.all.items }
    {
        match cause {
            Cause::Turn => self.note_pace(index, is_slow),
            Cause::News => self.end(index, is_slow),
        }
    }

    /// Ends a session for news with the peer at this index, which was not dialed.
    pub(crate) fn leave_out(&mut self, index: usize)
        ensures most { self.new.most ≡ self.old.most }
        ensures changes { spec.Changes index spec.left_out self.old.all.items self.new.all.items }
    {
        if let Some(left) = self.all.get_mut(index) {
            left.is_open = false;
        }
    }

    /// Notes whether a round in turn with the peer at this index took long.
    pub(crate) fn note_pace(&mut self, index: usize, is_slow: bool)
        ensures most { self.new.most ≡ self.old.most }
        ensures changes { spec.Changes index (spec.paced is_slow) self.old.all.items self.new.all.items }
    {
        if let Some(delivery) = self.all.get_mut(index) {
            delivery.is_slow = is_slow;
        }
    }
}
