//! What a running node reports about itself.

use crate::making::name;
use crate::peers::{next_of, node_with, put_is_done, reach, talk};
use crate::running::{WRITTEN_AS_A, answer_by, pace, paths_of, run_observed};
use crate::{got, holds, same};
use sb_run::{DownReason, Observer, Paths, PeerState, Status};
use sb_session::Ended;
use std::alloc::Global;
use std::net::Net;
use std::os::unix::net::UnixListener;
use std::process::Abort;
use std::sync::{Mutex, Wait};
use std::{fs, thread};

/// What was reported after a round:
///
/// - How many rounds were made, and how many had a fault.
/// - How many peers connected, and how many own keys there are.
/// - Whether the log takes writes, and whether another node writes under the name.
#[derive(Clone, Copy, Debug, PartialEq, Eq)]
struct Counted {
    rounds: u64,
    faults: u64,
    sessions: u64,
    keys: usize,
    is_log_open: bool,
    conflict: Option<u64>,
}

/// For a node that wrote one key, was dialed by one peer, and dialed two, one of them not there.
const WROTE_ONE: Counted = Counted {
    rounds: 2,
    faults: 1,
    sessions: 1,
    keys: 1,
    is_log_open: true,
    conflict: None,
};

/// How each of two peers is, and the number of the last round with it.
type Ends = [(PeerState, u64); 2];

/// How many owners are shown, and how far a, b and c are.
pub(crate) type StatusParts = (usize, [u64; 3]);

/// Keeps what was reported last after the round of this number.
#[derive(Drop)]
struct Listener<'a, R> {
    rt: &'a R,
    behind: u64,
    told: Mutex<Option<(Counted, Ends, StatusParts)>>,
}

fn end_of(status: &Status<'_>, index: usize) -> (PeerState, u64) {
    match status.peers.get(index) {
        Some(peer) => (peer.state(), peer.round()),
        None => (PeerState::Never, 99),
    }
}

fn counts_of(status: &Status<'_>) -> Counted {
    Counted {
        rounds: status.rounds,
        faults: status.faults,
        sessions: status.sessions,
        keys: status.keys,
        is_log_open: status.log_cause.is_none(),
        conflict: status.conflict,
    }
}

pub(crate) fn parts_of(rt: &impl Abort, status: &Status<'_>) -> StatusParts {
    let snapshot = &status.snapshot;
    let upto = [
        snapshot.upto(&name(rt, b"a")),
        snapshot.upto(&name(rt, b"b")),
        snapshot.upto(&name(rt, b"c")),
    ];
    (snapshot.owners().count(), upto)
}

impl<R: Wait + Abort> Observer for Listener<'_, R> {
    fn listening(&self) {}

    fn dialed(&self, _peer: &str, _state: PeerState) {}

    fn conflict(&self, _version: u64) {}

    fn wants_status(&self) -> bool {
        true
    }

    fn status(&self, status: &Status<'_>) {
        if status.rounds == self.behind {
            let ends = [end_of(status, 0), end_of(status, 1)];
            let mut told = self.told.lock(self.rt);
            *told = Some((counts_of(status), ends, parts_of(self.rt, status)));
        }
    }
}

fn new_listener<R>(rt: &R, behind: u64) -> Listener<'_, R> {
    Listener {
        rt,
        behind,
        told: Mutex::new(None),
    }
}

/// Plays the owner, who writes, c, which dials, and b, which is dialed, each with a write of its own. Returns whether
/// all of it succeeded.
pub(crate) fn write_and_play<R: Net + Abort>(
    rt: &R,
    alloc: Global,
    listener: &UnixListener,
    paths: &Paths,
) -> bool {
    let dialed = next_of(rt, listener);
    let done = put_is_done(rt, paths.control);
    let mut of_c = node_with(rt, alloc, b"c", b"k");
    let by_c = talk(rt, alloc, &mut of_c, &reach(rt, paths.sock), Some(2));
    let mut of_b = node_with(rt, alloc, b"b", b"w");
    let by_b = talk(rt, alloc, &mut of_b, &dialed, None);
    done && by_c == Ended::RoundsDone && by_b == Ended::Bye(1)
}

#[test]
fn a_node_tells_how_it_is(rt: HostRuntime) {
    let paths = paths_of("tell.sock", "tell.control", &["tell.nobody", "tell.b"]);
    let alloc = rt.alloc();
    let observer = new_listener(&rt, 2);
    let listener = got(&rt, UnixListener::bind(&rt, "tell.b"));
    let (ran, played) = thread::join(
        &rt,
        || run_observed(&rt, alloc, &paths, pace(2, 0), &observer),
        || write_and_play(&rt, alloc, &listener, &paths),
    );
    got(&rt, fs::remove_file(&rt, "tell.b"));
    holds(&rt, "b, c and the owner were served", played);
    same(&rt, &got(&rt, ran).rounds, &2);
    let ends = [
        (PeerState::Down(DownReason::Unreachable), 1),
        (PeerState::Answers, 2),
    ];
    let told = *observer.told.lock(&rt);
    same(&rt, &told, &Some((WROTE_ONE, ends, (3, [1, 1, 1]))));
}

#[test]
fn a_node_tells_of_another_under_its_name(rt: HostRuntime) {
    let paths = paths_of("same.sock", "same.control", &["same.b", "same.nobody"]);
    let alloc = rt.alloc();
    let observer = new_listener(&rt, 1);
    let listener = got(&rt, UnixListener::bind(&rt, "same.b"));
    let (ran, ()) = thread::join(
        &rt,
        || run_observed(&rt, alloc, &paths, pace(1, 0), &observer),
        || answer_by(&rt, &listener, WRITTEN_AS_A),
    );
    got(&rt, fs::remove_file(&rt, "same.b"));
    same(&rt, &got(&rt, ran).faults, &0);
    let wanted = Counted {
        rounds: 1,
        faults: 0,
        sessions: 0,
        keys: 0,
        is_log_open: true,
        conflict: Some(1),
    };
    let ends = [
        (PeerState::Down(DownReason::EndedEarly), 1),
        (PeerState::Never, 0),
    ];
    let told = *observer.told.lock(&rt);
    same(&rt, &told, &Some((wanted, ends, (0, [0, 0, 0]))));
}
