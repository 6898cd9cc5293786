//! What the threads of a running node count for whoever looks at it.

use crate::observer::{PushCounts, Troubles};
use crate::peers::PeerState;
use sb_control::LogCause;
use sb_session::Ended;
use sb_types::Fault;
use std::sync::atomic::{AtomicBool, AtomicU64, Ordering};
use std::time::{Clock, Instant};

/// What is counted of a node since it started.
#[derive(Drop)]
pub(crate) struct Counts {
    /// When the node started; none if the clock could not be read.
    started: Option<Instant>,
    sessions: AtomicU64,
    purges: AtomicU64,
    audits: AtomicU64,
    /// Whether an audit found a difference.
    has_difference: AtomicBool,
    /// The number of the cause by which the log takes no more writes, 0 if it takes them.
    log_cause: AtomicU64,
    /// How many sessions that others dialed ended with a fault.
    session_faults: AtomicU64,
    /// The number of the fault of the last of them, 0 if there was none.
    last_session_fault: AtomicU64,
    /// How many frames of another version came.
    other_versions: AtomicU64,
    /// How many connections were closed to make room for others or for want of memory, and how many times none could be accepted.
    turned_away: AtomicU64,
    /// How many writes were refused because there are too many keys.
    full_writes: AtomicU64,
    /// How many pushes the node made, how many of them had a fault, and how many bytes the deltas have that peers took.
    pushes: AtomicU64,
    push_faults: AtomicU64,
    pushed_bytes: AtomicU64,
    /// How many deltas of others had writes after ones that are missing.
    gaps: AtomicU64,
    /// How many rounds in turn were made before their time because of such a delta.
    hastened_rounds: AtomicU64,
    busy: BusyWorkers,
}

impl Counts {
    /// Nothing is counted yet of a node with so many workers, which starts now.
    pub(crate) fn new<Q: Clock>(clock: &Q, workers: u64) -> Counts {
        Counts {
            started: Instant::now(clock).ok(),
            sessions: AtomicU64::new(0),
            purges: AtomicU64::new(0),
            audits: AtomicU64::new(0),
            has_difference: AtomicBool::new(false),
            log_cause: AtomicU64::new(0),
            session_faults: AtomicU64::new(0),
            last_session_fault: AtomicU64::new(0),
            other_versions: AtomicU64::new(0),
            turned_away: AtomicU64::new(0),
            full_writes: AtomicU64::new(0),
            pushes: AtomicU64::new(0),
            push_faults: AtomicU64::new(0),
            pushed_bytes: AtomicU64::new(0),
            gaps: AtomicU64::new(0),
            hastened_rounds: AtomicU64::new(0),
            busy: BusyWorkers::new(workers),
        }
    }

    /// For how long the node runs, in milliseconds; 0 if the clock cannot be read.
    pub(crate) fn uptime<Q: Clock>(&self, clock: &Q) -> u64 {
        match (self.started, Instant::now(clock)) {
            (Some(started), Ok(now)) => {
                let passed = now.saturating_duration_since(started).as_millis();
                u64::try_from(passed).unwrap_or(u64::MAX)
            }
            _ => 0,
        }
    }

    /// A peer has connected.
    pub(crate) fn add_session(&self) {
        self.sessions.fetch_add(1, Ordering::SeqCst);
    }

    /// How many connections of peers there were.
    pub(crate) fn sessions(&self) -> u64 {
        self.sessions.load(Ordering::SeqCst)
    }

    /// The own table was purged, and the log with it.
    pub(crate) fn add_purge(&self) {
        self.purges.fetch_add(1, Ordering::SeqCst);
    }

    /// How many times that was.
    pub(crate) fn purges(&self) -> u64 {
        self.purges.load(Ordering::SeqCst)
    }

    /// An audit came to its end.
    pub(crate) fn add_audit(&self) {
        self.audits.fetch_add(1, Ordering::SeqCst);
    }

    /// How many audits came to their end.
    pub(crate) fn audits(&self) -> u64 {
        self.audits.load(Ordering::SeqCst)
    }

    /// An audit found a difference. Returns whether it is the first.
    pub(crate) fn note_difference(&self) -> bool {
        !self.has_difference.swap(true, Ordering::SeqCst)
    }

    /// Whether an audit found a difference.
    pub(crate) fn has_difference(&self) -> bool {
        self.has_difference.load(Ordering::SeqCst)
    }

    /// A worker is free, and waits for something to do.
    pub(crate) fn free_worker<Q: Clock>(&self, clock: &Q) {
        self.busy.end(self.uptime(clock));
    }

    /// A worker that waited has something to do.
    pub(crate) fn occupy_worker<Q: Clock>(&self, clock: &Q) {
        self.busy.begin(self.uptime(clock));
    }

    /// A session that another node dialed has ended.
    pub(crate) fn end_session(&self, ended: &Result<Ended, Fault>) {
        if let Err(fault) = ended {
            self.session_faults.fetch_add(1, Ordering::SeqCst);
            self.last_session_fault
                .store(u64::from(fault.number()), Ordering::SeqCst);
            self.note_version(fault);
        }
    }

    /// A connection ended with this fault, be it of a frame of another version.
    pub(crate) fn note_version(&self, fault: &Fault) {
        if matches!(fault, Fault::BadVersion) {
            self.other_versions.fetch_add(1, Ordering::SeqCst);
        }
    }

    /// A connection was closed to make room for others or for want of memory, or none could be accepted.
    pub(crate) fn add_turned_away(&self) {
        self.turned_away.fetch_add(1, Ordering::SeqCst);
    }

    /// A write was refused because there are too many keys.
    pub(crate) fn add_full_write(&self) {
        self.full_writes.fetch_add(1, Ordering::SeqCst);
    }

    /// A push has ended by which the peer is so; its delta has so many bytes.
    pub(crate) fn add_push(&self, state: &PeerState, bytes: u64) {
        self.pushes.fetch_add(1, Ordering::SeqCst);
        if state.has_fault() {
            self.push_faults.fetch_add(1, Ordering::SeqCst);
        }
        if state.is_answer() {
            self.pushed_bytes.fetch_add(bytes, Ordering::SeqCst);
        }
    }

    /// How many pushes had a fault.
    pub(crate) fn push_faults(&self) -> u64 {
        self.push_faults.load(Ordering::SeqCst)
    }

    /// A delta of another had writes after ones that are missing.
    pub(crate) fn add_gap(&self) {
        self.gaps.fetch_add(1, Ordering::SeqCst);
    }

    /// A round in turn is made before its time because of such a delta.
    pub(crate) fn add_hastened_round(&self) {
        self.hastened_rounds.fetch_add(1, Ordering::SeqCst);
    }

    /// What the node pushed, and what came of pushes to it.
    pub(crate) fn push_counts(&self) -> PushCounts {
        PushCounts {
            made: self.pushes.load(Ordering::SeqCst),
            faults: self.push_faults(),
            bytes: self.pushed_bytes.load(Ordering::SeqCst),
            gaps: self.gaps.load(Ordering::SeqCst),
            hastened_rounds: self.hastened_rounds.load(Ordering::SeqCst),
        }
    }

    /// How many workers are busy.
    pub(crate) fn busy_workers(&self) -> u64 {
        self.busy.busy()
    }

    /// What the node suffered in so many milliseconds since it started, with so many falls of versions.
    pub(crate) fn troubles(&self, uptime: u64, version_falls: u64) -> Troubles {
        Troubles {
            session_faults: self.session_faults.load(Ordering::SeqCst),
            last_session_fault: self.last_session_fault.load(Ordering::SeqCst),
            other_versions: self.other_versions.load(Ordering::SeqCst),
            turned_away: self.turned_away.load(Ordering::SeqCst),
            full_writes: self.full_writes.load(Ordering::SeqCst),
            busy_times: self.busy.times_until(uptime),
            version_falls,
        }
    }

    /// The log takes no more writes, by this cause. Returns whether no cause was noted before, which then stays.
    pub(crate) fn fail_log(&self, cause: LogCause) -> bool {
        let noted = self
            .log_cause
            .compare_exchange(0, cause.number(), Ordering::SeqCst, Ordering::SeqCst);
        noted.is_ok()
    }

    /// Why the log takes no more writes; none if it takes them.
    pub(crate) fn log_cause(&self) -> Option<LogCause> {
        LogCause::from_number(self.log_cause.load(Ordering::SeqCst))
    }
}

/// For longer than this all workers are busy before that counts, in milliseconds.
const BUSY_LIMIT: u64 = 1_000;

/// In place of a moment: this time was counted already.
const COUNTED: u64 = u64::MAX;

/// How many workers are busy, and how many times all of them were busy for longer than a second. A moment is in milliseconds since
/// the node started.
#[derive(Drop)]
pub(crate) struct BusyWorkers {
    workers: u64,
    busy: AtomicU64,
    /// One more than the moment since which all are busy; `COUNTED` once that was counted; 0 if one is free.
    since: AtomicU64,
    /// How many times all were busy for longer than the limit.
    times: AtomicU64,
}

/// Whether the time since a moment, as `since` keeps it, is to be counted now.
fn is_long(since: u64, now: u64) -> bool {
    since != 0 && since != COUNTED && now.saturating_sub(since - 1) > BUSY_LIMIT
}

impl BusyWorkers {
    /// So many workers. Each is busy until it first waits for something to do.
    pub(crate) fn new(workers: u64) -> BusyWorkers {
        BusyWorkers {
            workers,
            busy: AtomicU64::new(workers),
            since: AtomicU64::new(0),
            times: AtomicU64::new(0),
        }
    }

    /// A free worker is busy from this moment on.
    pub(crate) fn begin(&self, now: u64) {
        let before = self.busy.fetch_add(1, Ordering::SeqCst);
        if before.saturating_add(1) >= self.workers {
            let since = now.saturating_add(1);
            let _ = self
                .since
                .compare_exchange(0, since, Ordering::SeqCst, Ordering::SeqCst);
        }
    }

    /// A busy worker is free from this moment on.
    pub(crate) fn end(&self, now: u64) {
        self.busy.fetch_sub(1, Ordering::SeqCst);
        let since = self.since.swap(0, Ordering::SeqCst);
        if is_long(since, now) {
            self.times.fetch_add(1, Ordering::SeqCst);
        }
    }

    /// How many are busy.
    pub(crate) fn busy(&self) -> u64 {
        self.busy.load(Ordering::SeqCst)
    }

    /// How many times all were busy for longer than a second, until this moment.
    pub(crate) fn times_until(&self, now: u64) -> u64 {
        let since = self.since.load(Ordering::SeqCst);
        if self.busy() >= self.workers && is_long(since, now) {
            let counted = self
                .since
                .compare_exchange(since, COUNTED, Ordering::SeqCst, Ordering::SeqCst);
            if counted.is_ok() {
                self.times.fetch_add(1, Ordering::SeqCst);
            }
        }
        self.times.load(Ordering::SeqCst)
    }
}
