//! The thread that accepts the connections at both sockets of a node, and hands them on once they have something to say.
ghost use Rattle.std.specs.Prelude.{◌≡◌, IfErr, ◌+◌, ◌*◌, ◌<◌, ◌≤◌, ◌++◌, ◌∷◌, [], true, vec_len, length, position, MatchBool, OnOk, IfSome, IsSomeAnd, IfOk};
ghost use Rattle.std.specs.Duration.{as_nanos};
ghost use Rattle.std.specs.Time.{instant_nanos};
ghost use Rattle.sb_run.specs.declared.first_message.TheConstants.{FIRST_MOST};
ghost use Rattle.sb_run.specs.declared.accepting.TheConstants.{WAITING_MOST};
ghost use Rattle.sb_run.specs.Arriving.{is_silent, has_begun, has_number, without_oldest, with_room, left_at_both, failure_wait};

use crate::arrivals::Handover;
use crate::counts::Counts;
use crate::dialer::RoundsTag;
use crate::first_message::{FIRST_MOST, is_enough, name_of};
use crate::sockets::WAKER_TOKEN;
use crate::threads::NodeContext;
use crate::watchers::WatcherList;
use mio::net::UnixStream;
use mio::{Events, Interest, Poll, Registry, Token};
use sb_codec::{AskChange, Message};
use sb_control::{ControlRequest, read_piece};
use sb_frames::{Frames, Steps};
use sb_handlers::Arrival;
use sb_types::Fault;
use std::alloc::Global;
use std::io::Read;
use std::marker::Brand;
use std::sync::Wait;
use std::sync::ledger::{Blank, Ledger};
use std::time::{Clock, Duration, Instant};
use std::{io, thread};

/// How long the next accept waits after one that failed, in milliseconds: without free descriptors each fails at once.
const ACCEPT_PAUSE: u64 = 20;

/// After how long a node that can still accept nothing counts that again, in milliseconds.
const FAILURE_STEP: u64 = 60_000;

/// How many connections are accepted at a socket before the others are looked at again.
const ACCEPTED_AT_ONCE: usize = 64;

/// How many connections are closed if an accept failed.
const CLOSED_AT_ONCE: usize = 16;

/// How many events one poll gives.
const EVENTS_AT_ONCE: usize = 256;

/// At which socket a connection came.
#[derive(Clone, Copy, PartialEq, Eq)]
enum At {
    Sock,
    Control,
}

/// What is left to accept at a socket.
#[derive(Clone, Copy, PartialEq, Eq)]
enum Left {
    /// Nothing.
    Nothing,
    /// There may be more.
    More,
    /// There may be more, and the last accept failed.
    Failed,
}

/// The connections that wait at both sockets, and the way to the threads that serve them.
struct Backlog {
    peers: WaitingList,
    callers: WaitingList,
    handover: Handover,
    /// A moment since which nobody had connected to the peers' socket when the last accept there found nobody.
    since: Option<u64>,
    /// The number of the last connection, above those of the sockets and the waker.
    last_number: usize,
    /// How many connections were closed before they were handed on, and how many times none could be accepted.
    faults: u64,
    /// When a failed accept counts again; none if the last accept did not fail.
    counts_again: Option<Instant>,
}

// It is written out, so that a caller does not prove again how each part is dropped.
impl Drop for Backlog {
    fn drop(self) {
        let Backlog {
            peers: _peers,
            callers: _callers,
            handover: _handover,
            since: _,
            last_number: _,
            faults: _,
            counts_again: _,
        } = self;
    }
}

/// Accepts at both sockets.
pub(crate) struct Acceptor {
    poll: Poll,
    events: Events,
    backlog: Backlog,
}

// It is written out, so that a caller does not prove again how each part is dropped.
impl Drop for Acceptor {
    fn drop(self) {
        let Acceptor {
            poll: _poll,
            events: _events,
            backlog: _backlog,
        } = self;
    }
}

impl Backlog {
    fn note_fault(&mut self) {
        self.faults = self.faults.saturating_add(1);
    }

    /// Notes that a connection was closed to make room for others or for want of memory, or that none could be accepted.
    fn turn_away(&mut self, counts: &Counts) {
        counts.add_turned_away();
        self.note_fault();
    }

    /// Notes a failed accept. If accepts go on failing, one a minute counts: without free descriptors each fails, even if nobody calls.
    fn note_failed<Q: Clock>(&mut self, clock: &Q, counts: &Counts) {
        if has_come(clock, self.counts_again) {
            self.turn_away(counts);
            self.counts_again = deadline_after(clock, FAILURE_STEP);
        }
    }

    /// Lets a connection wait at this socket until it has something to say. `ReadFailed`, `NoMemory`; both close it.
    fn admit<S: RoundsTag, H: Wait + Drop, Q: Clock>(
        &mut self,
        node: &NodeContext<S, H, Q>,
        registry: &Registry,
        at: At,
        stream: UnixStream,
    ) -> Result<(), Fault> {
        let Some(number) = self.last_number.checked_add(1) else {
            return Err(Fault::ReadFailed);
        };
        self.last_number = number;
        let mut stream = stream;
        if registry
            .register(&mut stream, Token(number), Interest::READABLE)
            .is_err()
        {
            return Err(Fault::ReadFailed);
        }
        let pace = &node.pace;
        let patience = match at {
            At::Control if pace.request != 0 => pace.request,
            _ => pace.idle,
        };
        let until = deadline_after(node.rt, patience);
        let since = self.since;
        let waiting = Waiting::new(node.alloc, number, stream, until, since, pace.max_reads);
        let list = match at {
            At::Sock => &mut self.peers,
            At::Control => &mut self.callers,
        };
        if list.push(waiting)? {
            self.turn_away(node.counts);
        }
        Ok(())
    }

    /// Accepts what waits at a socket, but not more than a few, and returns what is left there.
    fn accept_at<S: RoundsTag, H: Wait + Drop, Q: Clock>(
        &mut self,
        node: &NodeContext<S, H, Q>,
        registry: &Registry,
        at: At,
    ) -> Left {
        let socket = match at {
            At::Sock => &node.sockets.sock,
            At::Control => &node.sockets.control,
        };
        // A connection that an accept after this moment does not find comes later.
        let before = node.reported_versions.moment(node.rt);
        for _ in 0..ACCEPTED_AT_ONCE {
            match socket.accept() {
                Ok(stream) => {
                    self.counts_again = None;
                    if at == At::Sock {
                        node.counts.add_session();
                    }
                    if self.admit(node, registry, at, stream).is_err() {
                        self.turn_away(node.counts);
                    }
                }
                Err(error) if error.kind() == io::ErrorKind::WouldBlock => {
                    self.counts_again = None;
                    self.note_none(at, before);
                    return Left::Nothing;
                }
                Err(_) => {
                    self.note_failed(node.rt, node.counts);
                    self.make_room(node.counts);
                    return Left::Failed;
                }
            }
        }
        Left::More
    }

    /// Notes that an accept at a socket found nobody, and was made after this moment.
    fn note_none(&mut self, at: At, before: Option<u64>) {
        if at == At::Sock && before.is_some() {
            self.since = before;
        }
    }

    /// Closes the oldest connection of the longer list. Returns whether there was one.
    fn close_oldest(&mut self) -> bool {
        if self.peers.len() < self.callers.len() {
            self.callers.close_oldest()
        } else {
            self.peers.close_oldest()
        }
    }

    /// Closes a few of the oldest connections, since descriptors may be wanting, also to the other threads.
    fn make_room(&mut self, counts: &Counts) {
        for _ in 0..CLOSED_AT_ONCE {
            if !self.close_oldest() {
                return;
            }
            self.turn_away(counts);
        }
    }

    /// Hands on the connection of this number, if it has sent enough.
    fn take_up<S: RoundsTag, H: Wait + Drop, Q: Wait + Clock>(
        &mut self,
        node: &NodeContext<S, H, Q>,
        watchers: &mut WatcherList<S>,
        registry: &Registry,
        number: usize,
    ) -> Result<(), Fault> {
        let begun = self.peers.take_session(node.alloc, registry, number)?;
        if let Some((came, stream, since)) = begun {
            let name = name_of(node.alloc, &came);
            let arrival = Arrival { name, since };
            let given = self.handover.give_session(node.rt, arrival, came, stream);
            return note_given(node.counts, given);
        }
        let whole = self
            .callers
            .take_request::<Brand>(registry, number, Blank::new(1))?;
        match whole {
            Some((request, stream)) => match change_in(request.message()) {
                Some(asked) => watchers.admit(node, registry, number, &asked, stream),
                None => self.give_request(node, request, stream),
            },
            None => {
                watchers.hear(node, registry, number);
                Ok(())
            }
        }
    }

    /// Hands a request on, and counts it if that fails.
    fn give_request<S: RoundsTag, H: Wait + Drop, Q: Wait>(
        &mut self,
        node: &NodeContext<S, H, Q>,
        request: ControlRequest,
        stream: UnixStream,
    ) -> Result<(), Fault> {
        let given = self
            .handover
            .give_request(node.rt, node.asked, request, stream);
        note_given(node.counts, given)
    }

    /// Answers those who wait for a change that came, or whose time is over.
    fn tell<S: RoundsTag, H: Wait + Drop, Q: Wait + Clock>(
        &mut self,
        node: &NodeContext<S, H, Q>,
        watchers: &mut WatcherList<S>,
    ) {
        let untold = watchers.answer(node);
        self.faults = self.faults.saturating_add(untold);
    }

    /// Closes those whose time is over.
    fn close_late<Q: Clock>(&mut self, clock: &Q) {
        let Ok(now) = Instant::now(clock) else {
            return;
        };
        let closed = self
            .peers
            .close_late(now)
            .saturating_add(self.callers.close_late(now));
        self.faults = self.faults.saturating_add(closed);
    }

    /// How long it is until the time of a connection is over, or until this moment; none if there is no moment.
    fn time_left<Q: Clock>(&self, clock: &Q, until: Option<Instant>) -> Option<Duration> {
        let lists = earlier(self.peers.first_until(), self.callers.first_until());
        let until = earlier(lists, until)?;
        match Instant::now(clock) {
            Ok(now) => Some(until.saturating_duration_since(now)),
            Err(_) => Some(Duration::from_millis(ACCEPT_PAUSE)),
        }
    }
}

/// Whether a moment has come; also if there is none, or the clock can't be read.
fn has_come<Q: Clock>(clock: &Q, moment: Option<Instant>) -> bool {
    let Some(moment) = moment else {
        return true;
    };
    match Instant::now(clock) {
        Ok(now) => moment <= now,
        Err(_) => true,
    }
}

/// The earlier of two moments, if there is one.
pub(crate) fn earlier(one: Option<Instant>, other: Option<Instant>) -> Option<Instant> {
    match (one, other) {
        (Some(one), Some(other)) => Some(one.min(other)),
        (one, other) => one.or(other),
    }
}

/// The change that a message asks for; none if it is another message.
fn change_in(message: &Message) -> Option<AskChange> {
    match message {
        Message::AskChange(asked) => Some(*asked),
        _ => None,
    }
}

/// Counts a connection that could not be handed on as one that was turned away.
fn note_given(counts: &Counts, given: Result<(), Fault>) -> Result<(), Fault> {
    if given.is_err() {
        counts.add_turned_away();
    }
    given
}

/// What is left to accept at both sockets.
fn left_at_both(sock: Left, control: Left) -> Left
    ensures { result ≡ left_at_both sock control }
{
    match sock {
        Left::Nothing => control,
        Left::More => Left::More,
        Left::Failed => match control {
            Left::More => Left::More,
            Left::Nothing | Left::Failed => Left::Failed,
        },
    }
}

/// How long the next poll may wait after an accept that failed, if it may wait so long otherwise.
fn failure_wait(time_left: Option<Duration>) -> Duration
    ensures { as_nanos result ≡ failure_wait time_left }
{
    let pause = Duration::from_millis(ACCEPT_PAUSE);
    match time_left {
        Some(time) => {
            if time.as_nanos() < pause.as_nanos() {
                time
            } else {
                pause
            }
        }
        None => pause,
    }
}

/// How long the next poll may wait, by what is left to accept at the sockets, if it may wait so long otherwise. A poll reports only
/// connections that come after the one before, so what is left must not wait for it.
fn patience(sock: Left, control: Left, time_left: Option<Duration>) -> Option<Duration>
    ensures more { left_at_both sock control ≡ Left.More → IsSomeAnd result (λ wait. as_nanos wait ≡ 0) }
    ensures failed { left_at_both sock control ≡ Left.Failed → IsSomeAnd result (λ wait. as_nanos wait ≡ failure_wait time_left) }
    ensures nothing { left_at_both sock control ≡ Left.Nothing → result ≡ time_left }
{
    match left_at_both(sock, control) {
        Left::More => Some(Duration::ZERO),
        Left::Failed => Some(failure_wait(time_left)),
        Left::Nothing => time_left,
    }
}

impl Acceptor {
    /// Room for the events of its poll. `NoMemory`.
    pub(crate) fn events(alloc: Global) -> Result<Events, Fault>
        ensures { IfErr result (λ fault. fault ≡ Fault.NoMemory) }
    {
        Ok(Events::with_capacity(alloc, EVENTS_AT_ONCE)?)
    }

    /// Accepts what this poll reports, and hands it on there.
    pub(crate) fn new(alloc: Global, poll: Poll, events: Events, handover: Handover) -> Acceptor {
        Acceptor {
            poll,
            events,
            backlog: Backlog {
                peers: WaitingList::new(alloc),
                callers: WaitingList::new(alloc),
                handover,
                since: None,
                last_number: WAKER_TOKEN,
                faults: 0,
                counts_again: None,
            },
        }
    }

    /// Accepts until the node is to end. Returns how many connections were closed before they were handed on, and how many times none
    /// could be accepted.
    pub(crate) fn accept_all<S: RoundsTag, H: Wait + Drop, Q: Wait + Clock>(
        self,
        node: &NodeContext<S, H, Q>,
    ) -> u64 {
        let Acceptor {
            mut poll,
            mut events,
            mut backlog,
        } = self;
        let mut watchers = WatcherList::new(node.alloc);
        for _ in node.rt.forever() {
            let registry = poll.registry();
            let at_sock = backlog.accept_at(node, registry, At::Sock);
            let at_control = backlog.accept_at(node, registry, At::Control);
            let time_left = backlog.time_left(node.rt, watchers.first_until());
            let patience = patience(at_sock, at_control, time_left);
            if poll.poll(&mut events, patience).is_err() {
                thread::sleep(node.rt, Duration::from_millis(ACCEPT_PAUSE));
            }
            if node.ending.is_raised() {
                backlog.handover.wake_owner(node.rt);
                return backlog.faults;
            }
            for event in &events {
                let number = event.token().0;
                let taken = backlog.take_up(node, &mut watchers, poll.registry(), number);
                if let Err(fault) = taken {
                    node.counts.note_version(&fault);
                    backlog.note_fault();
                }
            }
            backlog.close_late(node.rt);
            backlog.tell(node, &mut watchers);
        }
        unreachable!()
    }
}

/// How many connections may wait at one socket.
pub(crate) const WAITING_MOST: usize = 1_024;

/// A connection that was accepted and that has more to say before it is served.
#[derive(Drop)]
pub(crate) struct Waiting {
    number: usize,
    stream: UnixStream,
    /// When it is closed; never if it has no moment.
    until: Option<Instant>,
    /// A moment before it came, in milliseconds since the node started, if one is known.
    since: Option<u64>,
    /// What has come of its request, if it is a caller.
    frames: Frames,
    /// How many more reads it may take.
    left: u64,
    /// What has come of a peer. Its worker reads that first.
    came: Vec<u8>,
}

/// Reads what has come without waiting.
#[derive(Drop)]
struct Arrived<'a> {
    stream: &'a UnixStream,
    /// Whether the last read would have waited.
    has_waited: bool,
}

impl Read for Arrived<'_> {
    fn read(&mut self, buffer: &mut [u8]) -> io::Result<usize> {
        let mut stream = self.stream;
        let answer = stream.read(buffer);
        self.has_waited = match &answer {
            Ok(_) => false,
            Err(error) => error.kind() == io::ErrorKind::WouldBlock,
        };
        answer
    }
}

/// The moment so many milliseconds from now; none for 0, or if the clock can't be read.
pub(crate) fn deadline_after<Q: Clock>(clock: &Q, milliseconds: u64) -> Option<Instant>
    // A moment counts from its clock's zero. What the clock said, no clause sees.
    ensures later { IfSome result (λ moment. milliseconds * 1_000_000 ≤ instant_nanos moment) }
{
    if milliseconds == 0 {
        return None;
    }
    let now = Instant::now(clock).ok()?;
    let moment = now.checked_add(Duration::from_millis(milliseconds))?;
    Some(moment)
}

impl Waiting {
    /// A connection of this number that came after a moment, waits until another and may take so many reads.
    pub(crate) fn new(
        alloc: Global,
        number: usize,
        stream: UnixStream,
        until: Option<Instant>,
        since: Option<u64>,
        max_reads: u64,
    ) -> Waiting
        ensures number { result.number ≡ number }
        ensures silent { is_silent result ≡ true }
        ensures since { result.since ≡ since }
        ensures reads { result.left ≡ max_reads }
    {
        Waiting {
            number,
            stream,
            until,
            since,
            frames: Frames::new(alloc),
            left: max_reads,
            came: Vec::new(alloc),
        }
    }

    /// Whether nothing came of it yet.
    fn is_silent(&self) -> bool
        ensures { result ≡ is_silent self.now }
    {
        self.frames.held() == 0 && self.came.is_empty()
    }

    /// Makes one read of a peer, if one is left, without waiting. Returns whether a worker is to take it. `Truncated` at an end
    /// before that, `ReadFailed`, `TurnsSpent`, `NoMemory`; after each it is to be closed.
    fn hear(&mut self, alloc: Global) -> Result<bool, Fault>
        ensures number { self.new.number ≡ self.old.number }
        ensures begun { IfOk result (λ is_enough. is_enough ≡ has_begun FIRST_MOST self.new.came.items) }
        ensures counted { IfOk result (λ _. self.new.left + 1 ≡ self.old.left) }
    {
        if self.left == 0 {
            return Err(Fault::TurnsSpent);
        }
        self.left -= 1;
        let mut buffer = [0u8; FIRST_MOST];
        let mut stream = &self.stream;
        match stream.read(&mut buffer) {
            Ok(0) => return Err(Fault::Truncated),
            Ok(count) => self.came.extend_from_slice(&buffer[..count])?,
            Err(error) if error.kind() == io::ErrorKind::WouldBlock => {}
            Err(_) => return Err(Fault::ReadFailed),
        }
        is_enough(alloc, &self.came)
    }

    /// Makes one read of its request, without waiting: the request, once it is whole. None if more is to come. Its faults
    /// are those of `read_piece`, after which it is to be closed.
    fn read<K: Ledger>(&mut self, steps: &mut Steps<K>) -> Result<Option<ControlRequest>, Fault>
        ensures number { self.new.number ≡ self.old.number }
        ensures counted { steps.new + self.new.left ≤ steps.old + self.old.left }
    {
        let mut reader = Arrived {
            stream: &self.stream,
            has_waited: false,
        };
        match read_piece(&mut reader, &mut self.frames, &mut self.left, steps) {
            Err(Fault::ReadFailed) if reader.has_waited => Ok(None),
            other => other,
        }
    }
}

/// The place of the one of this number.
fn place_of(all: &[Waiting], number: usize) -> Option<usize>
    ensures { result ≡ position (has_number number) all.now }
{
    all.iter().position(|waiting| waiting.number == number)
}

/// The place of the oldest that has sent nothing.
fn place_of_silent(all: &[Waiting]) -> Option<usize>
    ensures { result ≡ position is_silent all.now }
{
    all.iter().position(|waiting| waiting.is_silent())
}

/// The connections that wait at a socket, the oldest first.
#[derive(Drop)]
pub(crate) struct WaitingList {
    all: Vec<Waiting>,
    ghost bounded: { vec_len all ≤ WAITING_MOST },
}

impl WaitingList {
    /// Nobody waits.
    pub(crate) fn new(alloc: Global) -> WaitingList
        ensures { result.all.items ≡ [] }
    {
        WaitingList {
            all: Vec::new(alloc),
        }
    }

    /// How many wait.
    pub(crate) fn len(&self) -> usize
        ensures { result ≡ length self.now.all.items }
    {
        self.all.len()
    }

    /// Closes the oldest that has sent nothing, or else the oldest. Returns whether there was one.
    pub(crate) fn close_oldest(&mut self) -> bool
        ensures { MatchBool result ((vec_len self.new.all + 1 ≡ vec_len self.old.all) × (self.new.all.items ≡ without_oldest self.old.all.items))
            ((self.old.all.items ≡ []) × (self.new.all.items ≡ [])) }
    {
        if self.all.is_empty() {
            return false;
        }
        let oldest = place_of_silent(&self.all).unwrap_or(0);
        self.all.remove(oldest);
        true
    }

    /// If as many wait as may, closes the oldest that has sent nothing, or else the oldest. Returns whether it did.
    fn make_room(&mut self) -> bool
        ensures room { vec_len self.new.all < WAITING_MOST }
        ensures left { self.new.all.items ≡ with_room WAITING_MOST self.old.all.items }
    {
        self.all.len() >= WAITING_MOST && self.close_oldest()
    }

    /// Adds one that is younger than each that waits. If as many wait as may, the oldest that has sent nothing, or else the
    /// oldest, is closed for it. Returns whether one was. `NoMemory`, which closes it.
    pub(crate) fn push(&mut self, waiting: Waiting) -> Result<bool, Fault>
        ensures added { OnOk result (self.new.all.items ≡ with_room WAITING_MOST self.old.all.items ++ waiting ∷ []) }
        ensures memory { IfErr result (λ fault. fault ≡ Fault.NoMemory) }
    {
        let has_closed = self.make_room();
        self.all.push(waiting)?;
        Ok(has_closed)
    }

    /// Makes one read of the peer of this number. Returns its connection, what has come on it, and a moment before it came, once a
    /// worker is to take it. None if more is to come, which the registry then reports, or if no such one waits here. A fault closes
    /// it.
    pub(crate) fn take_session(
        &mut self,
        alloc: Global,
        registry: &Registry,
        number: usize,
    ) -> Result<Option<(Vec<u8>, UnixStream, Option<u64>)>, Fault>
        ensures begun { IfOk result (λ found. IfSome found (λ taken. has_begun FIRST_MOST taken.0.items ≡ true)) }
    {
        let Some(place) = place_of(&self.all, number) else {
            return Ok(None);
        };
        match self.all[place].hear(alloc) {
            Ok(false) => {
                self.wait_on(registry, place, number)?;
                Ok(None)
            }
            Ok(true) => {
                let Waiting {
                    stream,
                    came,
                    since,
                    ..
                } = self.all.remove(place);
                Ok(Some((came, stream, since)))
            }
            Err(fault) => {
                self.all.remove(place);
                Err(fault)
            }
        }
    }

    /// Makes one read of the request of this number, and returns it with its connection once it is whole. None if more is to come,
    /// which the registry then reports, or if no such one waits here. A fault closes it. The read is the first of a ledger.
    pub(crate) fn take_request<K: Ledger>(
        &mut self,
        registry: &Registry,
        number: usize,
        blank: Blank,
    ) -> Result<Option<(ControlRequest, UnixStream)>, Fault>
        requires name { blank.name ≡ K.name }
        requires parts { blank.parts ≡ K.parts }
        requires some { 0 < blank.parts }
    {
        let Some(place) = place_of(&self.all, number) else {
            return Ok(None);
        };
        let mut steps = Steps::<K>::new(blank);
        match self.all[place].read(&mut steps) {
            Ok(None) => {
                self.wait_on(registry, place, number)?;
                Ok(None)
            }
            Ok(Some(request)) => {
                let Waiting { stream, .. } = self.all.remove(place);
                Ok(Some((request, stream)))
            }
            Err(fault) => {
                self.all.remove(place);
                Err(fault)
            }
        }
    }

    /// Has the registry report the one at this place again. `ReadFailed`, which closes it.
    fn wait_on(&mut self, registry: &Registry, place: usize, number: usize) -> Result<(), Fault>
        requires { place < vec_len self.old.all }
    {
        let stream = &mut self.all[place].stream;
        if registry
            .reregister(stream, Token(number), Interest::READABLE)
            .is_ok()
        {
            return Ok(());
        }
        self.all.remove(place);
        Err(Fault::ReadFailed)
    }

    /// Closes those whose time is over, and returns how many.
    pub(crate) fn close_late(&mut self, now: Instant) -> u64 {
        let mut closed: u64 = 0;
        for _ in 0..WAITING_MOST {
            match self.first_until() {
                Some(until) if until <= now => {
                    self.all.remove(0);
                    closed = closed.saturating_add(1);
                }
                _ => break,
            }
        }
        closed
    }

    /// When the time of the oldest is over; none if nobody waits, or waits for ever.
    pub(crate) fn first_until(&self) -> Option<Instant>
        ensures { IfSome result (λ _. 0 < vec_len self.now.all) }
    {
        self.all.first()?.until
    }
}
