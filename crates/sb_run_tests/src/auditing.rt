//! A node audits a peer after the first round in which it answers, and reports what the peer holds otherwise than its log.

use crate::making::{key, name, new_log, node_of, settings, weight};
use crate::peers::{next_of, talk};
use crate::running::{pace, paths_of};
use crate::{got, same};
use sb_directory::Difference;
use sb_log::{PlainLog, WriteLog};
use sb_node::NodeCore;
use sb_run::{NodeConfig, Observer, Pace, Paths, PeerState, Ran, Runtime, run_node};
use sb_session::Ended;
use sb_table::Table;
use sb_testing::delta_of_block;
use sb_types::{Block, Entry, Fault, SharedEntry};
use std::alloc::Global;
use std::net::{Net, TcpListener, TcpStream};
use std::os::unix::net::UnixListener;
use std::process::Abort;
use std::sync::atomic::{AtomicU64, Ordering};
use std::{fs, thread};

/// What an audit reported: the versions of the peer's entry and of the own one, 0 if there is none, and how often.
#[derive(Drop)]
struct Auditor {
    theirs: AtomicU64,
    own: AtomicU64,
    found: AtomicU64,
    conflicts: AtomicU64,
}

impl Observer for Auditor {
    fn listening(&self) {}

    fn dialed(&self, _peer: &str, _state: PeerState) {}

    fn conflict(&self, _version: u64) {
        self.conflicts.fetch_add(1, Ordering::SeqCst);
    }

    fn difference_found(&self, _peer: &str, difference: &Difference) {
        self.found.fetch_add(1, Ordering::SeqCst);
        match difference {
            Difference::Foreign(foreign) => {
                self.theirs
                    .store(foreign.theirs.version(), Ordering::SeqCst);
                if let Some(own) = &foreign.own {
                    self.own.store(own.version(), Ordering::SeqCst);
                }
            }
            Difference::Missing(own) => self.own.store(own.version(), Ordering::SeqCst),
        }
    }
}

fn new_auditor() -> Auditor {
    Auditor {
        theirs: AtomicU64::new(0),
        own: AtomicU64::new(0),
        found: AtomicU64::new(0),
        conflicts: AtomicU64::new(0),
    }
}

impl Auditor {
    fn findings(&self) -> [u64; 4] {
        [
            self.found.load(Ordering::SeqCst),
            self.theirs.load(Ordering::SeqCst),
            self.own.load(Ordering::SeqCst),
            self.conflicts.load(Ordering::SeqCst),
        ]
    }
}

/// A log of a in which x has these weights, one after another.
fn log_of(rt: &impl Abort, alloc: Global, weights: &[u64]) -> PlainLog {
    let mut log = new_log(rt, alloc, b"a");
    for value in weights {
        got(rt, log.put(&key(rt, b"x"), &weight(rt, *value)));
    }
    log
}

/// Runs the node a for one round, with a log in which x has these weights, one after another.
fn run_auditing<R: Runtime + Abort + Net<Listener = TcpListener, Stream = TcpStream>>(
    rt: &R,
    alloc: Global,
    paths: &Paths,
    audit: u64,
    weights: &[u64],
    auditor: &Auditor,
) -> Result<Ran, Fault> {
    let config = NodeConfig {
        settings: settings(rt, 3),
        paths: *paths,
        pace: Pace {
            audit,
            ..pace(1, 0)
        },
        beat: None,
        forgotten: &[],
    };
    run_node(rt, alloc, config, log_of(rt, alloc, weights), auditor)
}

/// What b holds of a under a floor: that x has a weight since a version.
#[derive(Clone, Copy)]
struct HeldOfA {
    floor: u64,
    version: u64,
    value: u64,
}

/// The node b, which holds this of a.
fn node_b(rt: &impl Abort, alloc: Global, held: HeldOfA) -> NodeCore {
    let version = held.version.max(1);
    let entry = Entry::new(key(rt, b"x"), version, weight(rt, held.value));
    let mut of_b = node_of(rt, alloc, settings(rt, 3), b"b", Table::new(alloc));
    let shared = got(rt, SharedEntry::new(alloc, entry));
    let entries = got(rt, vec![in alloc; shared]);
    let block = got(
        rt,
        Block::new(name(rt, b"a"), held.floor, 0, version, entries),
    );
    let delta = got(rt, delta_of_block(alloc, block));
    let _ = got(rt, of_b.apply(&delta));
    of_b
}

/// b, which holds this of a, serves so many sessions of the node. How the last of them ended.
fn serve_all(
    rt: &impl Abort,
    alloc: Global,
    listener: &UnixListener,
    held: HeldOfA,
    sessions: u64,
) -> Ended {
    let mut core = node_b(rt, alloc, held);
    let mut last = Ended::End;
    for _ in 0..sessions {
        let dialed = next_of(rt, listener);
        last = talk(rt, alloc, &mut core, &dialed, None);
    }
    last
}

// The peer has another weight of version 2.
#[test]
fn another_write_of_a_version(rt: HostRuntime) {
    let paths = paths_of("other.sock", "other.control", &["other.b"]);
    let (alloc, auditor) = (rt.alloc(), new_auditor());
    let listener = got(&rt, UnixListener::bind(&rt, "other.b"));
    let held = HeldOfA {
        floor: 0,
        version: 2,
        value: 7,
    };
    let (ran, last) = thread::join(
        &rt,
        || run_auditing(&rt, alloc, &paths, 60_000, &[5, 6], &auditor),
        || serve_all(&rt, alloc, &listener, held, 2),
    );
    got(&rt, fs::remove_file(&rt, "other.b"));
    same(&rt, &(got(&rt, ran).rounds, last), &(1, Ended::End));
    same(&rt, &auditor.findings(), &[1, 2, 2, 0]);
}

// The peer has what the log gave.
#[test]
fn the_own_writes_are_no_difference(rt: HostRuntime) {
    let paths = paths_of("same.sock", "same.control", &["same.b"]);
    let (alloc, auditor) = (rt.alloc(), new_auditor());
    let listener = got(&rt, UnixListener::bind(&rt, "same.b"));
    let held = HeldOfA {
        floor: 0,
        version: 2,
        value: 6,
    };
    let (ran, last) = thread::join(
        &rt,
        || run_auditing(&rt, alloc, &paths, 60_000, &[5, 6], &auditor),
        || serve_all(&rt, alloc, &listener, held, 2),
    );
    got(&rt, fs::remove_file(&rt, "same.b"));
    same(&rt, &(got(&rt, ran).rounds, last), &(1, Ended::End));
    same(&rt, &auditor.findings(), &[0, 0, 0, 0]);
}

// The peer has less than the log, of a purged table.
#[test]
fn fewer_own_writes_are_no_difference(rt: HostRuntime) {
    let paths = paths_of("fewer.sock", "fewer.control", &["fewer.b"]);
    let (alloc, auditor) = (rt.alloc(), new_auditor());
    let listener = got(&rt, UnixListener::bind(&rt, "fewer.b"));
    let held = HeldOfA {
        floor: 1,
        version: 2,
        value: 6,
    };
    let (ran, last) = thread::join(
        &rt,
        || run_auditing(&rt, alloc, &paths, 60_000, &[5, 6, 7], &auditor),
        || serve_all(&rt, alloc, &listener, held, 2),
    );
    got(&rt, fs::remove_file(&rt, "fewer.b"));
    same(&rt, &(got(&rt, ran).rounds, last), &(1, Ended::End));
    same(&rt, &auditor.findings(), &[0, 0, 0, 0]);
}

// With 0 there is no audit: b serves the round alone.
#[test]
fn no_audit(rt: HostRuntime) {
    let paths = paths_of("never.sock", "never.control", &["never.b"]);
    let (alloc, auditor) = (rt.alloc(), new_auditor());
    let listener = got(&rt, UnixListener::bind(&rt, "never.b"));
    let held = HeldOfA {
        floor: 0,
        version: 2,
        value: 7,
    };
    let (ran, last) = thread::join(
        &rt,
        || run_auditing(&rt, alloc, &paths, 0, &[5, 6], &auditor),
        || serve_all(&rt, alloc, &listener, held, 1),
    );
    got(&rt, fs::remove_file(&rt, "never.b"));
    same(&rt, &(got(&rt, ran).rounds, last), &(1, Ended::Bye(1)));
    same(&rt, &auditor.findings(), &[0, 0, 0, 0]);
}
