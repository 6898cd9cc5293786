//! The peers of a node, and whose turn it is to be dialed.
ghost use Rattle.std.specs.Prelude.{◌≡◌, ◌≢◌, ◌+◌, ◌-◌, ◌<◌, ℕ, ◌&&◌, not, false, true, nat_eq, nat_lt, map, None, Some, slice_get, vec_len, IfSome, IfOk, IfErr};
ghost use Rattle.sb_run.specs.Turns as spec;
ghost use Rattle.sb_run.specs.StatusReplies as replies;

use crate::observer::Observer;
use crate::status_texts::short_text;
use sb_codec::PeerStatus;
use sb_session::Ended;
use sb_types::Fault;
use std::alloc::Global;
use std::fmt;

/// How many of its turns a peer is passed over that kept the node waiting.
const TURNS_OUT: u64 = 7;

/// After how many sessions in a row that did not end well a peer is dialed in its turns alone.
const MISSES_MOST: u64 = 2;

/// A peer that is dialed.
#[derive(Clone, Copy, Drop)]
pub struct Peer<'a> {
    path: &'a str,
    state: PeerState,
    /// The number of its last round, from 1; 0 before the first.
    round: u64,
    /// How many more of its turns it is passed over.
    turns_out: u64,
    /// How many sessions with it in a row did not end well, 2 for more. These are rounds that were not made to their end, and
    /// pushes that it did not end itself.
    misses: u64,
}

impl<'a> Peer<'a> {
    /// The path of its socket.
    pub fn path(&self) -> &'a str {
        self.path
    }

    /// How it is, by the rounds with it.
    pub fn state(&self) -> PeerState
        ensures { result ≡ self.now.state }
    {
        self.state
    }

    /// The number of its last round, from 1; 0 before the first.
    pub fn round(&self) -> u64 {
        self.round
    }

    /// How it is, as the status of a node has it.
    fn status(&self) -> PeerStatus
        ensures { result ≡ replies.peer_status self.now }
    {
        PeerStatus {
            path: short_text(self.path),
            state: self.state.code(),
            round: self.round,
        }
    }

    /// Notes how its round of this number ended, and whether it kept the node waiting. Returns whether the peer is otherwise
    /// than before.
    fn note(&mut self, round: u64, ended: PeerState, has_waited: bool) -> bool
        ensures path { self.new.path ≡ self.old.path }
        ensures round { self.new.round ≡ round }
        ensures turns { self.new.turns_out ≡ spec.turns_after (has_waited && nat_lt 0 (spec.number_of_state ended)) self.old.turns_out }
        ensures state { self.new.state ≡ spec.state_after self.old.state ended }
        ensures misses { self.new.misses ≡ spec.misses_after ended self.old.misses }
        ensures change { result ≡ not (spec.is_still self.old.state ended) }
    {
        self.round = round;
        self.count(&ended);
        if has_waited && ended.has_fault() {
            self.turns_out = TURNS_OUT;
        }
        if self.state.is_still(&ended) {
            return false;
        }
        self.state = ended;
        true
    }

    /// Counts a session that ended so.
    fn count(&mut self, ended: &PeerState)
        ensures misses { self.new ≡ spec.with_session ended.now self.old }
    {
        if ended.is_answer() {
            self.misses = 0;
        } else if self.misses < MISSES_MOST {
            self.misses += 1;
        }
    }

    /// Whether it is dialed for news: fewer than two sessions with it in a row did not end well.
    fn takes_news(&self) -> bool
        ensures { result ≡ spec.takes_news self.now }
    {
        self.misses < MISSES_MOST
    }
}

/// Whose turn it is of so many: after the last comes the first.
pub(crate) fn turn_of(count: usize, turn: usize) -> usize
    ensures { result ≡ spec.turn_of count turn }
{
    if turn < count { turn } else { 0 }
}

/// The peers that are dialed, in turn.
#[derive(Drop)]
pub(crate) struct Peers<'a> {
    all: Vec<Peer<'a>>,
    /// Whose turn comes next.
    turn: usize,
    /// Whose turn comes next in a burst.
    burst_turn: usize,
}

impl<'a> Peers<'a> {
    /// The peers at these paths. `NoMemory`.
    pub(crate) fn new(alloc: Global, paths: &[&'a str]) -> Result<Peers<'a>, Fault>
        ensures paths { IfOk result (λ peers. map (λ peer. peer.path) peers.all.items ≡ paths.now) }
        ensures first { IfOk result (λ peers. (peers.turn ≡ 0) × (peers.burst_turn ≡ 0)) }
        ensures memory { IfErr result (λ fault. fault ≡ Fault.NoMemory) }
    {
        let mut all = Vec::with_capacity(alloc, paths.len())?;
        for path in paths {
            all.push(Peer {
                path: *path,
                state: PeerState::Never,
                round: 0,
                turns_out: 0,
                misses: 0,
            })?;
        }
        Ok(Peers {
            all,
            turn: 0,
            burst_turn: 0,
        })
    }

    /// Whether there are none.
    pub(crate) fn is_empty(&self) -> bool
        ensures { result ≡ nat_eq (vec_len self.now.all) 0 }
    {
        self.all.is_empty()
    }

    /// Takes the next turn: the index of the peer whose turn it is, and whether it is passed over. None if there are no
    /// peers.
    fn take_turn(&mut self) -> Option<(usize, bool)>
        ensures none { result ≡ None → vec_len self.old.all ≡ 0 }
        ensures turn { IfSome result (λ taken. taken.0 ≡ spec.turn_of (vec_len self.old.all) self.old.turn) }
        ensures next { IfSome result (λ taken. self.new.turn ≡ taken.0 + 1) }
        ensures out { IfSome result (λ taken. IfSome (slice_get self.old.all.items taken.0) (λ peer. taken.1 ≡ nat_lt 0 peer.turns_out)) }
        ensures within { IfSome result (λ taken. taken.0 < vec_len self.new.all) }
        ensures burst { self.new.burst_turn ≡ self.old.burst_turn }
        // One turn of those in which it is passed over is over, and all else of the peers is as it was.
        ensures passed { IfSome result (λ taken. IfSome (slice_get self.old.all.items taken.0) (λ before. IfSome (slice_get self.new.all.items taken.0)
            (λ after. (after.turns_out ≡ before.turns_out - 1) × (after.path ≡ before.path) × (after.state ≡ before.state) × (after.round ≡ before.round) × (after.misses ≡ before.misses)))) }
        ensures others { IfSome result (λ taken. (index : ℕ) → index ≢ taken.0 → slice_get self.new.all.items index ≡ slice_get self.old.all.items index) }
        ensures count { vec_len self.new.all ≡ vec_len self.old.all }
    {
        let turn = turn_of(self.all.len(), self.turn);
        self.turn = turn.saturating_add(1);
        let peer = self.all.get_mut(turn)?;
        let is_out = 0 < peer.turns_out;
        peer.turns_out = peer.turns_out.saturating_sub(1);
        Some((turn, is_out))
    }

    /// The index of the peer whose turn it is; after the last comes the first. One that kept the node waiting is passed over
    /// in seven of its turns. None if there are no peers.
    pub(crate) fn next_in_turn(&mut self) -> Option<usize>
        ensures first { IfSome (slice_get self.old.all.items (spec.turn_of (vec_len self.old.all) self.old.turn))
            (λ peer. peer.turns_out ≡ 0 → result ≡ Some (spec.turn_of (vec_len self.old.all) self.old.turn)) }
        // If there are peers, there is one to dial.
        ensures none { result ≡ None → vec_len self.old.all ≡ 0 }
        ensures within { IfSome result (λ index. index < vec_len self.new.all) }
        ensures next { IfSome result (λ index. self.new.turn ≡ index + 1) }
        ensures burst { self.new.burst_turn ≡ self.old.burst_turn }
        ensures count { vec_len self.new.all ≡ vec_len self.old.all }
    {
        let (turn, is_out) = self.take_turn()?;
        if is_out { self.pass_over() } else { Some(turn) }
    }

    /// The index of the next peer that is not passed over, after one that is. None if there are no peers.
    fn pass_over(&mut self) -> Option<usize>
        ensures none { result ≡ None → vec_len self.old.all ≡ 0 }
        ensures within { IfSome result (λ index. index < vec_len self.new.all) }
        ensures next { IfSome result (λ index. self.new.turn ≡ index + 1) }
        ensures burst { self.new.burst_turn ≡ self.old.burst_turn }
        ensures count { vec_len self.new.all ≡ vec_len self.old.all }
    {
        let most = self.all.len().saturating_mul(TURNS_OUT as usize + 1);
        for _ in 0..most {
            let (turn, is_out) = self.take_turn()?;
            if !is_out {
                return Some(turn);
            }
        }
        // By now nobody is to be passed over any more.
        let (turn, _) = self.take_turn()?;
        Some(turn)
    }

    /// Takes the next turn of a burst: the index of the peer whose turn it is, and whether it is dialed for news. None if
    /// there are no peers.
    fn take_burst_turn(&mut self) -> Option<(usize, bool)>
        ensures none { result ≡ None → vec_len self.old.all ≡ 0 }
        ensures turn { IfSome result (λ taken. taken.0 ≡ spec.turn_of (vec_len self.old.all) self.old.burst_turn) }
        ensures next { IfSome result (λ taken. self.new.burst_turn ≡ taken.0 + 1) }
        ensures fit { IfSome result (λ taken. IfSome (slice_get self.old.all.items taken.0) (λ peer. taken.1 ≡ spec.takes_news peer)) }
        ensures within { IfSome result (λ taken. taken.0 < vec_len self.new.all) }
        ensures turns { (self.new.turn ≡ self.old.turn) × (self.new.all ≡ self.old.all) }
    {
        let turn = turn_of(self.all.len(), self.burst_turn);
        self.burst_turn = turn.saturating_add(1);
        let peer = self.all.get(turn)?;
        Some((turn, peer.takes_news()))
    }

    /// The index of the next peer that is dialed for news; none if nobody is.
    pub(crate) fn next_in_burst(&mut self) -> Option<usize>
        ensures first { IfSome (slice_get self.old.all.items (spec.turn_of (vec_len self.old.all) self.old.burst_turn))
            (λ peer. spec.takes_news peer ≡ true → result ≡ Some (spec.turn_of (vec_len self.old.all) self.old.burst_turn)) }
        ensures fit { IfSome result (λ index. IfSome (slice_get self.new.all.items index) (λ peer. spec.takes_news peer ≡ true)) }
        ensures within { IfSome result (λ index. index < vec_len self.new.all) }
        ensures next { IfSome result (λ index. self.new.burst_turn ≡ index + 1) }
        ensures turns { (self.new.turn ≡ self.old.turn) × (self.new.all ≡ self.old.all) }
    {
        let (turn, takes_news) = self.take_burst_turn()?;
        if takes_news {
            Some(turn)
        } else {
            self.pass_over_in_burst()
        }
    }

    /// The index of the next peer that is dialed for news, after one that is not.
    fn pass_over_in_burst(&mut self) -> Option<usize>
        ensures fit { IfSome result (λ index. IfSome (slice_get self.new.all.items index) (λ peer. spec.takes_news peer ≡ true)) }
        ensures within { IfSome result (λ index. index < vec_len self.new.all) }
        ensures next { IfSome result (λ index. self.new.burst_turn ≡ index + 1) }
        ensures turns { (self.new.turn ≡ self.old.turn) × (self.new.all ≡ self.old.all) }
    {
        for _ in 0..self.all.len() {
            let (turn, takes_news) = self.take_burst_turn()?;
            if takes_news {
                return Some(turn);
            }
        }
        None
    }

    /// How many peers are dialed for news.
    pub(crate) fn count_for_news(&self) -> u64 {
        let mut count: u64 = 0;
        for peer in &self.all {
            if peer.takes_news() {
                count = count.saturating_add(1);
            }
        }
        count
    }

    /// The path of a peer; the empty one if there is none.
    pub(crate) fn path(&self, index: usize) -> &'a str
        ensures { IfSome (slice_get self.now.all.items index) (λ peer. result ≡ peer.path) }
    {
        match self.all.get(index) {
            Some(peer) => peer.path,
            None => "",
        }
    }

    /// Whether the peer at this index is dialed for news; false if there is no such peer.
    pub(crate) fn takes_news(&self, index: usize) -> bool
        ensures { IfSome (slice_get self.now.all.items index) (λ peer. result ≡ spec.takes_news peer) }
    {
        match self.all.get(index) {
            Some(peer) => peer.takes_news(),
            None => false,
        }
    }

    /// Whether the last round with the peer at this index was made to its end; false if there is no such peer.
    fn is_answering(&self, index: usize) -> bool
        ensures { IfSome (slice_get self.now.all.items index) (λ peer. result ≡ spec.is_answer peer.state) }
    {
        match self.all.get(index) {
            Some(peer) => peer.state.is_answer(),
            None => false,
        }
    }

    /// The index of the next peer, from this one on, whose last round was made to its end; after the last comes the first.
    pub(crate) fn next_answering(&self, from: usize) -> Option<usize>
        ensures { IfSome result (λ index. IfSome (slice_get self.now.all.items index) (λ peer. spec.is_answer peer.state ≡ true)) }
    {
        let mut turn = from;
        for _ in 0..self.all.len() {
            let index = turn_of(self.all.len(), turn);
            if self.is_answering(index) {
                return Some(index);
            }
            turn = index.saturating_add(1);
        }
        None
    }

    /// How each of them is, as the status of a node has it. `NoMemory`.
    pub(crate) fn statuses(&self, alloc: Global) -> Result<Vec<PeerStatus>, Fault>
        ensures statuses { IfOk result (λ all. all.items ≡ map replies.peer_status self.now.all.items) }
        ensures memory { IfErr result (λ fault. fault ≡ Fault.NoMemory) }
    {
        let mut statuses = Vec::with_capacity(alloc, self.all.len())?;
        for peer in &self.all {
            statuses.push(peer.status())?;
        }
        Ok(statuses)
    }

    /// All of them, in the order of their paths.
    pub(crate) fn all(&self) -> &[Peer<'a>] {
        &self.all
    }

    /// Notes how the round of this number with a peer ended, and whether that kept the node waiting. If the peer is
    /// otherwise than before, it reports that to the observer, and returns true.
    pub(crate) fn note<O: Observer>(
        &mut self,
        index: usize,
        round: u64,
        ended: PeerState,
        has_waited: bool,
        observer: &O,
    ) -> bool
        ensures turns { (self.new.turn ≡ self.old.turn) × (self.new.burst_turn ≡ self.old.burst_turn) }
        ensures noted { IfSome (slice_get self.old.all.items index) (λ before. IfSome (slice_get self.new.all.items index) (λ after.
            (after.path ≡ before.path) × (after.round ≡ round)
            × (after.turns_out ≡ spec.turns_after (has_waited && nat_lt 0 (spec.number_of_state ended)) before.turns_out)
            × (after.state ≡ spec.state_after before.state ended) × (result ≡ not (spec.is_still before.state ended)))) }
        ensures misses { IfSome (slice_get self.old.all.items index) (λ before. IfSome (slice_get self.new.all.items index) (λ after. after.misses ≡ spec.misses_after ended before.misses)) }
        ensures others { (other : ℕ) → other ≢ index → slice_get self.new.all.items other ≡ slice_get self.old.all.items other }
    {
        let Some(peer) = self.all.get_mut(index) else {
            return false;
        };
        let has_changed = peer.note(round, ended, has_waited);
        if has_changed {
            observer.dialed(peer.path, ended);
        }
        has_changed
    }

    /// Notes how a push to a peer ended, and whether that kept the node waiting. A push that ended well leaves the peer as it
    /// is by its rounds. If the peer is otherwise than before, it reports that to the observer, and returns true.
    pub(crate) fn note_push<O: Observer>(
        &mut self,
        index: usize,
        ended: PeerState,
        has_waited: bool,
        observer: &O,
    ) -> bool
        ensures turns { (self.new.turn ≡ self.old.turn) × (self.new.burst_turn ≡ self.old.burst_turn) }
        ensures noted { IfSome (slice_get self.old.all.items index) (λ before. IfSome (slice_get self.new.all.items index) (λ after.
            (after.path ≡ before.path) × (after.round ≡ before.round)
            × (after.state ≡ spec.state_after_push before.state ended) × (result ≡ spec.is_changed_by_push before.state ended))) }
        ensures misses { IfSome (slice_get self.old.all.items index) (λ before. IfSome (slice_get self.new.all.items index) (λ after. after.misses ≡ spec.misses_after ended before.misses)) }
        ensures others { (other : ℕ) → other ≢ index → slice_get self.new.all.items other ≡ slice_get self.old.all.items other }
    {
        let Some(peer) = self.all.get_mut(index) else {
            return false;
        };
        if ended.is_answer() {
            peer.count(&ended);
            return false;
        }
        let number = peer.round;
        let has_changed = peer.note(number, ended, has_waited);
        if has_changed {
            observer.dialed(peer.path, ended);
        }
        has_changed
    }
}

/// Why a peer is down. Each is another end of a round.
#[derive(Clone, Copy, Debug, PartialEq, Eq, Drop)]
pub enum DownReason {
    /// It can't be reached: there is no socket, nobody listens there, or there is no room for one more connection.
    Unreachable,
    /// No byte came for as long as a connection to a peer may be idle.
    Silent,
    /// Reading from it failed otherwise.
    ReadFailed,
    /// It hung up before it was heard: nothing more could be written.
    HungUp,
    /// It hung up after it was heard: nothing more could be written.
    BrokenOff,
    /// It ended the session before all exchanges were made.
    EndedEarly,
}

impl DownReason {
    /// The number of the fault by which such a round ends: 16 or 17; 0 of an end before its time.
    pub fn number(&self) -> u8
        ensures { result ≡ spec.number_of_reason self.now }
    {
        match self {
            DownReason::Unreachable | DownReason::Silent | DownReason::ReadFailed => 16,
            DownReason::HungUp | DownReason::BrokenOff => 17,
            DownReason::EndedEarly => 0,
        }
    }
}

impl DownReason {
    /// The number of the state of a peer that is down so, in the status of a node.
    fn code(&self) -> u8
        ensures { result ≡ spec.code_of_reason self.now }
    {
        match self {
            DownReason::Unreachable => 2,
            DownReason::Silent => 3,
            DownReason::ReadFailed => 4,
            DownReason::HungUp => 5,
            DownReason::BrokenOff => 6,
            DownReason::EndedEarly => 7,
        }
    }
}

impl fmt::Display for DownReason {
    fn fmt<W: fmt::Write>(&self, f: &mut fmt::Formatter<W>) -> fmt::Result {
        f.write_str(match self {
            DownReason::Unreachable => "it cannot be reached",
            DownReason::Silent => "it was silent for too long",
            DownReason::ReadFailed => "reading failed",
            DownReason::HungUp => "it hung up before its Hello",
            DownReason::BrokenOff => "it hung up during a session",
            DownReason::EndedEarly => "it ended a session before its end",
        })
    }
}

/// How a peer is, by the rounds with it.
#[derive(Clone, Copy, Debug, PartialEq, Eq, Drop)]
pub enum PeerState {
    /// There was no round with it yet.
    Never,
    /// All exchanges of its last round were made.
    Answers,
    /// It does not answer. The reason is that of the first round that ended so, and stays for as long as it is down.
    Down(DownReason),
    /// Its last round ended by this fault. If more rounds end by it, the fault stays the first.
    Failed(Fault),
}

/// Whether a Hello, or the frame in which it comes, is refused by such a fault.
fn is_refusal(fault: &Fault) -> bool
    ensures { result ≡ spec.is_refusal fault.now }
{
    matches!(
        fault,
        Fault::BadVersion
            | Fault::NoHello
            | Fault::WrongCluster
            | Fault::SameName
            | Fault::SecondHello
    )
}

impl PeerState {
    /// How a peer is by one session that ended so: whether any byte of it came, and whether the last read waited for too long.
    pub(crate) fn of(ended: &Result<Ended, Fault>, was_heard: bool, was_silent: bool) -> PeerState
        ensures { result ≡ spec.state_of ended.now was_heard was_silent }
    {
        match ended {
            Ok(Ended::RoundsDone) => PeerState::Answers,
            Ok(_) => PeerState::Down(DownReason::EndedEarly),
            Err(Fault::ReadFailed) if was_silent => PeerState::Down(DownReason::Silent),
            Err(Fault::ReadFailed) => PeerState::Down(DownReason::ReadFailed),
            Err(Fault::WriteFailed(_)) if was_heard => PeerState::Down(DownReason::BrokenOff),
            Err(Fault::WriteFailed(_)) => PeerState::Down(DownReason::HungUp),
            Err(fault) => PeerState::Failed(*fault),
        }
    }

    /// The number of the fault by which it is so; 0 without a fault.
    pub fn number(&self) -> u8
        ensures { result ≡ spec.number_of_state self.now }
    {
        match self {
            PeerState::Never | PeerState::Answers => 0,
            PeerState::Down(reason) => reason.number(),
            PeerState::Failed(fault) => fault.number(),
        }
    }

    /// The number of the state in the status of a node.
    pub(crate) fn code(&self) -> u8
        ensures { result ≡ spec.code_of self.now }
    {
        match self {
            PeerState::Never => 0,
            PeerState::Answers => 1,
            PeerState::Down(reason) => reason.code(),
            PeerState::Failed(fault) => 32 + fault.number(),
        }
    }

    /// Whether a round that ended so had a fault.
    pub(crate) fn has_fault(&self) -> bool
        ensures { result ≡ nat_lt 0 (spec.number_of_state self.now) }
    {
        0 < self.number()
    }

    /// Whether a session ended so that did all that it was to do.
    pub(crate) fn is_answer(&self) -> bool
        ensures { result ≡ spec.is_answer self.now }
    {
        matches!(self, PeerState::Answers)
    }

    /// Whether a peer that is so is so still after a round that ended so.
    pub(crate) fn is_still(&self, ended: &PeerState) -> bool
        ensures { result ≡ spec.is_still self.now ended.now }
    {
        match (self, ended) {
            (PeerState::Answers, PeerState::Answers) => true,
            (PeerState::Down(_), PeerState::Down(_)) => true,
            (PeerState::Failed(first), PeerState::Down(DownReason::HungUp)) => is_refusal(first),
            (PeerState::Failed(first), PeerState::Failed(fault)) => {
                first.number() == fault.number()
            }
            _ => false,
        }
    }
}
