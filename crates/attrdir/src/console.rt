//! What a node that runs prints on standard error.
ghost use Rattle.std.specs.Prelude.{◌≡◌, ◌*◌, ◌^◌, ◌<◌};
ghost use Rattle.attrdir.specs.Shortages as spec;

use crate::differences::DifferenceWords;
use crate::log_watch::LogWatch;
use crate::metrics::{Metrics, Series};
use crate::metrics_file::MetricsFile;
use crate::release::RELEASE;
use crate::troubles::TroubleLines;
use jiff::Timestamp;
use sb_commands::{ABOUT_LOSS, DroppedRemovals, about_cause};
use sb_control::{LogCause, LogLoss};
use sb_directory::Difference;
use sb_run::{Observer, PeerState, Status, VersionFall};
use sb_types::{Fault, KEYS_MOST, Name, OWNERS_MOST};
use std::alloc::Global;
use std::fmt;
use std::sync::atomic::{AtomicBool, Ordering};
use std::sync::{Mutex, MutexGuard};
use std::thread::yield_now;

/// How much a line matters.
#[derive(Clone, Copy)]
enum Level {
    Info,
    Warning,
    Error,
}

impl fmt::Display for Level {
    fn fmt<W: fmt::Write>(&self, f: &mut fmt::Formatter<W>) -> fmt::Result {
        f.write_str(match self {
            Level::Info => "info",
            Level::Warning => "warning",
            Level::Error => "error",
        })
    }
}

/// What a line begins with: the time, if it is wanted and the clock can be read; the program; and how much it matters.
#[derive(Clone, Copy)]
struct Head {
    time: Option<Timestamp>,
    level: Level,
}

impl fmt::Display for Head {
    fn fmt<W: fmt::Write>(&self, f: &mut fmt::Formatter<W>) -> fmt::Result {
        if let Some(time) = self.time {
            write!(f, "{time:.3} ")?;
        }
        write!(f, "attrdir: {}", self.level)
    }
}

/// The number of the last fault of several.
#[derive(Clone, Copy)]
struct LastFault(u64);

impl fmt::Display for LastFault {
    fn fmt<W: fmt::Write>(&self, f: &mut fmt::Formatter<W>) -> fmt::Result {
        write!(f, "the last by fault {}", self.0)
    }
}

/// Prints on standard error what a node meets, each thing in a line.
pub(crate) struct Console<'r, 'a> {
    pub(crate) rt: &'r HostRuntime,
    pub(crate) name: &'a str,
    pub(crate) log: &'a str,
    /// The files of its log.
    pub(crate) watch: LogWatch<'a>,
    pub(crate) sock: &'a str,
    pub(crate) control: &'a str,
    /// The address at which it answers over HTTP.
    pub(crate) http: Option<&'a str>,
    /// Whether each line begins with the time.
    pub(crate) has_time: bool,
    /// The file of metrics.
    pub(crate) metrics: Option<MetricsFile<'a>>,
    /// The metrics of the last report, if they are asked for over HTTP.
    pub(crate) metrics_text: Option<Mutex<Vec<u8>>>,
    /// Which metrics the file has.
    pub(crate) series: Series,
    /// When the node was started, in seconds since 1970; 0 if the clock could not be read.
    pub(crate) started: u64,
    /// Whether it has reported that the log takes no more writes.
    pub(crate) has_failed_log: AtomicBool,
    /// What it has reported to run out.
    pub(crate) shortage: Shortage,
    /// What it has reported of what the node suffers.
    pub(crate) troubles: TroubleLines,
}

// It is written out, so that a caller does not prove again how each part is dropped.
impl Drop for Console<'_, '_> {
    fn drop(self) {
        let Console {
            rt: _,
            name: _,
            log: _,
            watch: _watch,
            sock: _,
            control: _,
            http: _,
            has_time: _,
            metrics: _metrics,
            metrics_text: _metrics_text,
            series: _,
            started: _,
            has_failed_log: _has_failed_log,
            shortage: _shortage,
            troubles: _troubles,
        } = self;
    }
}

/// What was reported to be used, nine tenths of it or all.
#[derive(Drop)]
pub(crate) struct Shortage {
    keys: AtomicBool,
    all_keys: AtomicBool,
    owners: AtomicBool,
    all_owners: AtomicBool,
}

impl Shortage {
    /// Nothing was reported yet.
    pub(crate) fn new() -> Shortage {
        Shortage {
            keys: AtomicBool::new(false),
            all_keys: AtomicBool::new(false),
            owners: AtomicBool::new(false),
            all_owners: AtomicBool::new(false),
        }
    }
}

/// Whether the path of a peer looks like a host and a port.
fn is_host_and_port(peer: &str) -> bool {
    peer.contains(':') && !peer.contains('/')
}

/// Whether so many of at most so many are nine tenths or more.
fn is_nearly(count: usize, most: usize) -> bool
    ensures { most * 9 < 2 ^ 64 → result ≡ spec.is_nearly count most }
{
    count.saturating_mul(10) >= most.saturating_mul(9)
}

impl Console<'_, '_> {
    /// The time to the millisecond, if lines are to have it and the clock can be read.
    fn time(&self) -> Option<Timestamp> {
        if !self.has_time {
            return None;
        }
        let now = Timestamp::now(self.rt).ok()?;
        Timestamp::from_millisecond(now.as_millisecond()).ok()
    }

    fn head(&self, level: Level) -> Head {
        Head {
            time: self.time(),
            level,
        }
    }

    /// Prints once that nine tenths of something are used, if that is so.
    fn warn(&self, was_said: &AtomicBool, what: &str, count: usize, most: usize) {
        if is_nearly(count, most) && !was_said.swap(true, Ordering::SeqCst) {
            let (rt, head) = (self.rt, self.head(Level::Warning));
            let _ = eprintln!(rt;
                "{head} node {}: {count} of {most} {what} are used",
                self.name
            );
        }
    }

    /// Prints once that all of something are used, if that is so, and what follows of it.
    fn say_used_up(&self, was_said: &AtomicBool, what: &str, count: usize, most: usize) {
        if count >= most && !was_said.swap(true, Ordering::SeqCst) {
            let (rt, head) = (self.rt, self.head(Level::Error));
            let _ = eprintln!(rt;
                "{head} node {}: all {most} {what} are used; no other is taken",
                self.name
            );
        }
    }

    /// Prints that nine tenths of the keys or of the owners are used, and that all are, each once.
    fn report_shortages(&self, keys: usize, owners: usize) {
        let shortage = &self.shortage;
        self.warn(&shortage.keys, "keys", keys, KEYS_MOST);
        self.say_used_up(&shortage.all_keys, "keys", keys, KEYS_MOST);
        self.warn(&shortage.owners, "owners", owners, OWNERS_MOST);
        self.say_used_up(&shortage.all_owners, "owners", owners, OWNERS_MOST);
    }

    /// Prints how many times a trouble happened since the last line about it, if a line is due, and what to do about it.
    fn print_trouble<A: fmt::Display + Drop>(
        &self,
        level: Level,
        what: &str,
        times: Option<u64>,
        advice: A,
    ) {
        if let Some(times) = times {
            let (rt, head) = (self.rt, self.head(level));
            let _ = eprintln!(rt; "{head} node {}: {what}: {times}; {advice}", self.name);
        }
    }

    /// Prints what the node suffered since the last lines about it, each trouble at most once in a minute.
    fn report_troubles(&self, status: &Status<'_>) {
        let (troubles, now, lines) = (&status.troubles, status.uptime, &self.troubles);
        self.print_trouble(
            Level::Warning,
            "sessions of other nodes ended with a fault",
            lines.session_faults.take(troubles.session_faults, now),
            LastFault(troubles.last_session_fault),
        );
        self.print_trouble(
            Level::Warning,
            "frames of another version refused",
            lines.other_versions.take(troubles.other_versions, now),
            "run the same release at both ends",
        );
        self.print_trouble(
            Level::Warning,
            "callers turned away, or times that none could be accepted",
            lines.turned_away.take(troubles.turned_away, now),
            "let the process open more files, or end silent callers",
        );
        self.print_trouble(
            Level::Warning,
            "times that all workers were busy for longer than a second",
            lines.busy_times.take(troubles.busy_times, now),
            "give it more --workers, or end silent peers",
        );
        self.print_trouble(
            Level::Error,
            "writes refused since all keys are used",
            lines.full_writes.take(troubles.full_writes, now),
            "see RUNBOOK, Keys used up",
        );
    }

    /// Writes the file of metrics. Prints that it cannot be written, and that it can again.
    fn write_metrics(&self, file: &MetricsFile<'_>, metrics: &Metrics<'_, '_>) {
        let rt = self.rt;
        let written = file.write(rt, metrics);
        if !file.note(&written) {
            return;
        }
        let (info, warning) = (self.head(Level::Info), self.head(Level::Warning));
        let path = file.path();
        let _ = match written {
            Ok(()) => eprintln!(rt; "{info} metrics {path}: written again"),
            Err(error) => eprintln!(rt; "{warning} metrics {path}: cannot be written: {error}"),
        };
    }

    /// Removes the file of metrics, which is of a node that runs.
    pub(crate) fn remove_metrics(&self) {
        if let Some(file) = &self.metrics {
            file.remove(self.rt);
        }
    }

    /// Prints that removals of the log were dropped before the node starts.
    pub(crate) fn purged(&self, dropped: DroppedRemovals) {
        let (rt, head) = (self.rt, self.head(Level::Info));
        let _ = eprintln!(rt;
            "{head} log {}: {} removals up to version {} are purged",
            self.log, dropped.removals, dropped.floor
        );
    }

    /// Prints that the log failed when its removals were to be dropped.
    pub(crate) fn not_purged(&self) {
        let (rt, head) = (self.rt, self.head(Level::Warning));
        let _ = eprintln!(rt; "{head} log {}: its removals could not be purged", self.log);
    }

    /// Prints that the node ended after its last round.
    pub(crate) fn ended(&self) {
        let (rt, head) = (self.rt, self.head(Level::Info));
        let _ = eprintln!(rt; "{head} node {}: ended after its last round", self.name);
    }
}

/// How many times a thread tries to lock the kept text. Who holds it only copies a text.
const LOCK_TRIES: u64 = 10_000;

/// The kept text, once no other thread holds it. `None` if it is held for so many tries.
fn lock_kept(text: &Mutex<Vec<u8>>) -> Option<MutexGuard<'_, Vec<u8>>> {
    for _ in 0..LOCK_TRIES {
        if let Some(kept) = text.try_lock() {
            return Some(kept);
        }
        yield_now();
    }
    None
}

/// Keeps the text of metrics, unless there is no memory for it, or other threads hold it for too long.
fn keep_metrics(alloc: Global, text: &Mutex<Vec<u8>>, metrics: &Metrics<'_, '_>) {
    let Ok(newest) = format!(in alloc; "{metrics}") else {
        return;
    };
    if let Some(mut kept) = lock_kept(text) {
        *kept = newest.into_bytes();
    }
}

/// A copy of the kept text. `NoMemory`; `Closed` if other threads hold it for too long.
fn kept_metrics(alloc: Global, text: &Mutex<Vec<u8>>) -> Result<Vec<u8>, Fault> {
    match lock_kept(text) {
        Some(kept) => Ok(Vec::from_slice(alloc, &kept)?),
        None => Err(Fault::Closed),
    }
}

impl Observer for Console<'_, '_> {
    fn release(&self) -> &str {
        RELEASE
    }

    fn listening(&self) {
        let (rt, head) = (self.rt, self.head(Level::Info));
        let (name, sock, control) = (self.name, self.sock, self.control);
        let _ = match self.http {
            Some(address) => eprintln!(rt;
                "{head} node {name}: listens on {sock}, for set, del, get and watch on {control}, and for HTTP on {address}"
            ),
            None => eprintln!(rt;
                "{head} node {name}: listens on {sock}, and for set, del, get and watch on {control}"
            ),
        };
    }

    fn dialed(&self, peer: &str, state: PeerState) {
        let rt = self.rt;
        let level = match state {
            PeerState::Never | PeerState::Answers => Level::Info,
            PeerState::Down(_) | PeerState::Failed(_) => Level::Warning,
        };
        let head = self.head(level);
        let _ = match state {
            PeerState::Never => Ok(()),
            PeerState::Answers => eprintln!(rt; "{head} peer {peer}: answers"),
            PeerState::Down(reason) if is_host_and_port(peer) => eprintln!(rt;
                "{head} peer {peer}: does not answer: {reason}; a peer is the path of a socket, not HOST:PORT"
            ),
            PeerState::Down(reason) => {
                eprintln!(rt; "{head} peer {peer}: does not answer: {reason}")
            }
            PeerState::Failed(fault @ Fault::UnknownKind(_)) => eprintln!(rt;
                "{head} peer {peer}: fault {}: {fault}; give the --sock of a node, not its --control",
                fault.number()
            ),
            PeerState::Failed(fault) => {
                eprintln!(rt; "{head} peer {peer}: fault {}: {fault}", fault.number())
            }
        };
    }

    fn conflict(&self, version: u64) {
        let (rt, head) = (self.rt, self.head(Level::Error));
        let fault = Fault::OwnerConflict(version);
        let _ = eprintln!(rt;
            "{head} node {}: fault {}: {fault}; no more writes are taken; if no other node has this name, its log is new, an older copy, or began too low: see RUNBOOK, An older copy of a log",
            self.name,
            fault.number()
        );
    }

    fn difference_found(&self, peer: &str, difference: &Difference) {
        let (rt, head) = (self.rt, self.head(Level::Error));
        let _ = eprintln!(rt;
            "{head} node {}: fault 21: another node, or an older copy of the log, writes under this name: peer {peer} {}; no more writes are taken: see RUNBOOK, Two nodes with one name, or An older copy of a log",
            self.name,
            DifferenceWords(difference)
        );
    }

    fn forgotten_met(&self, owner: &Name) {
        let (rt, head) = (self.rt, self.head(Level::Warning));
        let forgotten = str::from_utf8(owner.bytes()).unwrap_or("");
        let _ = eprintln!(rt;
            "{head} node {}: another node still has rows of {forgotten}, which this one forgets: see RUNBOOK, Owners used up",
            self.name
        );
    }

    fn version_fell(&self, fall: &VersionFall) {
        let (rt, head) = (self.rt, self.head(Level::Warning));
        let other = str::from_utf8(fall.name.bytes()).unwrap_or("");
        let _ = eprintln!(rt;
            "{head} node {}: node {other} reports its version {}, and reported {} before: two nodes, or a node and an older copy of its log, have this name: see RUNBOOK, Two nodes with one name",
            self.name, fall.version, fall.before
        );
    }

    fn log_failed(&self, cause: LogCause) {
        self.has_failed_log.store(true, Ordering::SeqCst);
        let (rt, head) = (self.rt, self.head(Level::Error));
        let (ending, advice) = match cause {
            LogCause::Store(cause) => ("", about_cause(cause)),
            LogCause::Lost(_) => (self.watch.lost_ending(), ABOUT_LOSS),
        };
        let _ = eprintln!(rt;
            "{head} log {}{ending}: fault {}: {cause}; no more writes are taken: {advice}; then start the node again",
            self.log,
            Fault::StoreFailed.number()
        );
    }

    fn log_loss(&self) -> Option<LogLoss> {
        self.watch.loss(self.rt)
    }

    fn table_purged(&self, floor: u64) {
        let (rt, head) = (self.rt, self.head(Level::Info));
        let _ = eprintln!(rt;
            "{head} log {}: the older half of the removals, up to version {floor}, is purged",
            self.log
        );
    }

    fn wants_status(&self) -> bool {
        true
    }

    fn status(&self, status: &Status<'_>) {
        let metrics = Metrics {
            name: self.name,
            status,
            started: self.started,
            series: self.series,
        };
        self.report_shortages(status.keys, metrics.owners());
        self.report_troubles(status);
        if let Some(file) = &self.metrics {
            self.write_metrics(file, &metrics);
        }
        if let Some(text) = &self.metrics_text {
            keep_metrics(self.rt.alloc(), text, &metrics);
        }
    }

    fn metrics(&self, alloc: Global) -> Result<Vec<u8>, Fault> {
        match &self.metrics_text {
            Some(text) => kept_metrics(alloc, text),
            None => Err(Fault::Closed),
        }
    }

    fn socket_removed(&self, path: &str) {
        let (rt, head) = (self.rt, self.head(Level::Info));
        let _ = eprintln!(rt;
            "{head} socket {path}: left by a node that no longer runs, and removed"
        );
    }
}
