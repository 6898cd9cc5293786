//! What version each node reports of itself in its digests, and whether that falls.
ghost use Rattle.std.specs.Prelude.{◌≡◌, ◌++◌, ◌∷◌, [], map, position, vec_len, ◌≤◌};
ghost use Rattle.sb_types.specs.declared.limits.TheConstants.{OWNERS_MOST};
ghost use Rattle.sb_handlers.specs.ReportedVersions as spec;

use sb_digest::Digest;
use sb_types::{Name, OWNERS_MOST};
use std::alloc::Global;
use std::sync::{Mutex, Wait};
use std::time::{Clock, Instant};

/// How long after its first digest was made a connection may come, in milliseconds. A `socat` can take a connection of a peer
/// before it makes one to this node.
const LATE_MOST: u64 = 10_000;

/// After how many milliseconds another fall of the same name is due.
const REPORT_INTERVAL: u64 = 60_000;

/// How the connection of a peer came. A moment is in milliseconds since the node started.
#[derive(Clone, Copy, Debug, PartialEq, Eq)]
pub struct Arrival {
    /// The name in the peer's Hello, if that is known.
    pub name: Option<Name>,
    /// A moment before the connection came, if one is known.
    pub since: Option<u64>,
}

impl Arrival {
    /// A connection about which nothing is known.
    pub fn unknown() -> Arrival
        ensures { result ≡ spec.unknown_arrival }
    {
        Arrival {
            name: None,
            since: None,
        }
    }
}

/// A node reported a version of itself below one that it reported long before. So two logs have its name.
#[derive(Clone, Copy, Debug, PartialEq, Eq)]
pub struct VersionFall {
    pub name: Name,
    /// The version that it reported now.
    pub version: u64,
    /// The greater one that it reported before.
    pub before: u64,
}

/// A digest that was read: the version that it reports of its sender. Of the two moments one is before its connection came, and
/// it was read at the other.
#[derive(Clone, Copy)]
struct Reading {
    name: Name,
    version: u64,
    since: u64,
    at: u64,
}

/// A version that was reported by this moment.
#[derive(Clone, Copy)]
struct DatedVersion {
    version: u64,
    at: u64,
}

/// What a node reported of itself.
#[derive(Clone, Copy)]
struct Reporter {
    name: Name,
    /// The greatest version so far.
    most: u64,
    /// The greatest version at two moments, the second long after the first.
    older: DatedVersion,
    newer: DatedVersion,
    /// A fall that is due, and that the observer does not know yet.
    fall: Option<VersionFall>,
    /// When the last fall was found that is or was due.
    last_fall_at: Option<u64>,
}

/// Whether a digest begins with this name, and has one pair at most.
fn is_of_one(theirs: &Digest, name: &Name) -> bool
    ensures { result ≡ spec.is_of_one theirs.now name.now }
{
    match theirs.from() {
        Some(from) => from == *name && theirs.pairs().len() <= 1,
        None => false,
    }
}

/// The version that a digest reports of its sender. None if that is 0, or if the digest is of the sender alone. An audit sends such
/// ones, which report how far it came.
fn sender_version(theirs: &Digest, name: &Name) -> Option<u64>
    ensures { result ≡ spec.sender_version theirs.now name.now }
{
    let held = theirs.start(name, 0, u64::MAX).after;
    if held == 0 || is_of_one(theirs, name) {
        None
    } else {
        Some(held)
    }
}

impl DatedVersion {
    /// Whether it is long before a moment.
    fn is_long_before(&self, moment: u64) -> bool
        ensures { result ≡ spec.is_long_before self.now moment }
    {
        moment.saturating_sub(self.at) > LATE_MOST
    }

    /// Whether a digest reports less than was reported long before its connection came.
    fn is_above(&self, reading: &Reading) -> bool
        ensures { result ≡ spec.is_above self.now reading.now }
    {
        self.is_long_before(reading.since) && reading.version < self.version
    }
}

impl Reporter {
    /// A node whose first digest is this one.
    fn new(reading: &Reading) -> Reporter
        ensures { result ≡ spec.new_reporter reading.now }
    {
        let first = DatedVersion {
            version: reading.version,
            at: reading.at,
        };
        Reporter {
            name: reading.name,
            most: reading.version,
            older: first,
            newer: first,
            fall: None,
            last_fall_at: None,
        }
    }

    /// The fall in what a digest reports of this node, if more was reported long before.
    fn fall_in(&self, reading: &Reading) -> Option<VersionFall>
        ensures { result ≡ spec.fall_in self.now reading.now }
    {
        let before = if self.newer.is_above(reading) {
            self.newer.version
        } else if self.older.is_above(reading) {
            self.older.version
        } else {
            return None;
        };
        Some(VersionFall {
            name: self.name,
            version: reading.version,
            before,
        })
    }

    /// Whether a fall that is found now is due.
    fn is_due(&self, now: u64) -> bool
        ensures { result ≡ spec.is_due self.now.last_fall_at now }
    {
        match self.last_fall_at {
            Some(found) => now.saturating_sub(found) >= REPORT_INTERVAL,
            None => true,
        }
    }

    /// Notes the version that a digest reports.
    fn note_version(&mut self, reading: &Reading)
        ensures { self.new ≡ spec.with_version reading.now self.old }
    {
        self.most = self.most.max(reading.version);
        if self.newer.is_long_before(reading.at) {
            self.older = self.newer;
            self.newer = DatedVersion {
                version: self.most,
                at: reading.at,
            };
        }
    }

    /// Notes the fall in what a digest reports, if there is one and it is due.
    fn note_fall(&mut self, reading: &Reading)
        ensures { self.new ≡ spec.with_fall reading.now self.old }
    {
        let fall = self.fall_in(reading);
        if fall.is_some() && self.is_due(reading.at) {
            self.fall = fall;
            self.last_fall_at = Some(reading.at);
        }
    }

    /// Takes what a digest reports, if it is of this node.
    fn hear(&mut self, reading: &Reading)
        ensures { self.new ≡ spec.hears reading.now self.old }
    {
        if self.name == reading.name {
            self.note_fall(reading);
            self.note_version(reading);
        }
    }
}

/// Whether a node of this name reported anything.
fn is_known(all: &[Reporter], name: &Name) -> bool
    ensures { result ≡ spec.is_known all.now name.now }
{
    all.iter().any(|reporter| reporter.name == *name)
}

/// Whether a digest reports less than its sender reported long before.
fn is_fall(all: &[Reporter], reading: &Reading) -> bool
    ensures { result ≡ spec.is_fall all.now reading.now }
{
    all.iter().any(|reporter| reporter.name == reading.name && reporter.fall_in(reading).is_some())
}

/// Has each take what a digest reports.
fn hear_all(all: &mut [Reporter], reading: &Reading)
    ensures { all.new ≡ map (spec.hears reading.now) all.old }
{
    for reporter in all.iter_mut() {
        reporter.hear(reading);
    }
}

/// The place of the first with a fall that is due.
fn place_of_fall(all: &[Reporter]) -> Option<usize>
    ensures { result ≡ position spec.has_fall all.now }
{
    all.iter().position(|reporter| reporter.fall.is_some())
}

/// What nodes reported of themselves, and how many times a version fell.
#[derive(Drop)]
struct Reporters {
    all: Vec<Reporter>,
    falls: u64,
    ghost bounded: { vec_len all ≤ OWNERS_MOST },
}

impl Reporters {
    /// Nobody reported anything. It takes no memory.
    fn new(alloc: Global) -> Reporters
        ensures { (result.all.items ≡ []) × (result.falls ≡ 0) }
    {
        Reporters {
            all: Vec::new(alloc),
            falls: 0,
        }
    }

    /// Takes what a digest reports. A node is not noted if there is no memory for it, or if as many are known as may be.
    fn hear(&mut self, reading: &Reading)
        ensures falls { self.new.falls ≡ spec.falls_after self.old.falls self.old.all.items reading.now }
        ensures heard { spec.IsHeard self.old.all.items reading.now self.new.all.items }
    {
        if is_fall(&self.all, reading) {
            self.falls = self.falls.saturating_add(1);
        }
        let is_known = is_known(&self.all, &reading.name);
        hear_all(&mut self.all, reading);
        if !is_known && self.all.len() < OWNERS_MOST {
            let _ = self.all.push(Reporter::new(reading));
        }
    }

    /// Takes the first fall that is due.
    fn take_fall(&mut self) -> Option<VersionFall>
        ensures taken { spec.IsFallTaken self.old.all.items result self.new.all.items }
        ensures falls { self.new.falls ≡ self.old.falls }
    {
        let place = place_of_fall(&self.all)?;
        let reporter = &mut self.all[place];
        let fall = reporter.fall;
        reporter.fall = None;
        fall
    }
}

/// What version each node reported of itself, for the threads of a node.
#[derive(Drop)]
pub struct ReportedVersions {
    /// When the node started; none if the clock could not be read.
    started: Option<Instant>,
    reporters: Mutex<Reporters>,
}

impl ReportedVersions {
    /// Nobody reported anything, and the node starts now. It takes no memory.
    pub fn new<Q: Clock>(clock: &Q, alloc: Global) -> ReportedVersions {
        ReportedVersions {
            started: Instant::now(clock).ok(),
            reporters: Mutex::new(Reporters::new(alloc)),
        }
    }

    /// How many milliseconds ago the node started. None if the clock cannot be read.
    pub fn moment<Q: Clock>(&self, clock: &Q) -> Option<u64> {
        match (self.started, Instant::now(clock)) {
            (Some(started), Ok(now)) => {
                u64::try_from(now.saturating_duration_since(started).as_millis()).ok()
            }
            _ => None,
        }
    }

    /// Takes what a digest reports that was read now.
    pub fn hear<Q: Wait + Clock>(&self, rt: &Q, arrival: &Arrival, theirs: &Digest) {
        let (Some(name), Some(since)) = (arrival.name, arrival.since) else {
            return;
        };
        let Some(version) = sender_version(theirs, &name) else {
            return;
        };
        let mut reporters = self.reporters.lock(rt);
        // Under the lock, so that moments never go back.
        if let Some(at) = self.moment(rt) {
            reporters.hear(&Reading {
                name,
                version,
                since,
                at,
            });
        }
    }

    /// A fall that is due, once. Each name has one in a minute at most.
    pub fn take_fall<Q: Wait>(&self, rt: &Q) -> Option<VersionFall> {
        self.reporters.lock(rt).take_fall()
    }

    /// How many digests reported less than their sender had reported long before.
    pub fn falls<Q: Wait>(&self, rt: &Q) -> u64 {
        self.reporters.lock(rt).falls
    }
}
