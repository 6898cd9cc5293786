//! When a running node dials, how long it waits for others, and what it does with a socket that was left over.

use crate::making::{name, node_of, settings};
use crate::peers::{next_of, node_with, put_is_done, reach, talk};
use crate::running::{is_there, pace, paths_of, run_a, run_observed};
use crate::{got, holds, same};
use sb_node::NodeCore;
use sb_run::{Observer, Paths, PeerState};
use sb_session::Ended;
use sb_table::Table;
use sb_types::Fault;
use std::alloc::Global;
use std::net::Net;
use std::os::unix::net::UnixListener;
use std::process::Abort;
use std::sync::atomic::{AtomicU64, Ordering};
use std::time::{Clock, Duration, Instant};
use std::{fs, thread};

/// A node of the name b that wrote nothing.
pub(crate) fn silent_b(rt: &impl Abort, alloc: Global) -> NodeCore {
    node_of(rt, alloc, settings(rt, 3), b"b", Table::new(alloc))
}

/// Whether the node dials within two seconds, and is served.
fn is_dialed_soon<R: Clock + Abort>(
    rt: &R,
    alloc: Global,
    listener: &UnixListener,
    of_b: &mut NodeCore,
) -> bool {
    let began = got(rt, Instant::now(rt));
    let dialed = next_of(rt, listener);
    let waited = got(rt, began.elapsed(rt));
    let ended = talk(rt, alloc, of_b, &dialed, None);
    waited < Duration::from_secs(2) && ended == Ended::Bye(1)
}

/// Whether b was dialed soon after the start, after a write of the owner and after one of c. Then how far b holds a and
/// c.
fn hear_as_b<R: Net + Clock + Abort>(
    rt: &R,
    alloc: Global,
    listener: &UnixListener,
    paths: &Paths,
) -> ([bool; 3], [u64; 2]) {
    let mut of_b = silent_b(rt, alloc);
    let at_first = is_dialed_soon(rt, alloc, listener, &mut of_b);
    let done = put_is_done(rt, paths.control);
    let behind_put = is_dialed_soon(rt, alloc, listener, &mut of_b);
    let mut of_c = node_with(rt, alloc, b"c", b"k");
    let stream = reach(rt, paths.sock);
    talk(rt, alloc, &mut of_c, &stream, Some(1));
    let behind_c = is_dialed_soon(rt, alloc, listener, &mut of_b);
    let held = [of_b.upto(&name(rt, b"a")), of_b.upto(&name(rt, b"c"))];
    ([at_first, done && behind_put, behind_c], held)
}

#[test]
fn news_is_passed_on_at_once(rt: HostRuntime) {
    let paths = paths_of("wake.sock", "wake.control", &["wake.b"]);
    let alloc = rt.alloc();
    let listener = got(&rt, UnixListener::bind(&rt, "wake.b"));
    let mut pace = pace(1, 0);
    pace.pause = 5_000;
    let (ran, heard) = thread::join(
        &rt,
        || run_a(&rt, alloc, &paths, pace),
        || hear_as_b(&rt, alloc, &listener, &paths),
    );
    got(&rt, fs::remove_file(&rt, "wake.b"));
    same(&rt, &heard, &([true, true, true], [1, 1]));
    let ran = got(&rt, ran);
    same(&rt, &(ran.rounds, ran.faults), &(1, 0));
}

#[test]
fn a_peer_that_keeps_it_waiting_is_passed_over_in_seven_turns(rt: HostRuntime) {
    let paths = paths_of("over.sock", "over.control", &["over.silent", "over.b"]);
    let alloc = rt.alloc();
    let silent = got(&rt, UnixListener::bind(&rt, "over.silent"));
    let listener = got(&rt, UnixListener::bind(&rt, "over.b"));
    let mut pace = pace(9, 0);
    pace.dial_idle = 300;
    let (ran, ()) = thread::join(
        &rt,
        || run_a(&rt, alloc, &paths, pace),
        || {
            let mut of_b = silent_b(&rt, alloc);
            for _ in 0..8 {
                let dialed = next_of(&rt, &listener);
                talk(&rt, alloc, &mut of_b, &dialed, None);
            }
        },
    );
    drop(silent);
    got(&rt, fs::remove_file(&rt, "over.silent"));
    got(&rt, fs::remove_file(&rt, "over.b"));
    let ran = got(&rt, ran);
    same(&rt, &(ran.rounds, ran.faults), &(9, 1));
}

#[test]
fn a_request_has_to_be_whole_in_time(rt: HostRuntime) {
    let paths = paths_of("whole.sock", "whole.control", &["whole.b"]);
    let alloc = rt.alloc();
    let listener = got(&rt, UnixListener::bind(&rt, "whole.b"));
    let mut pace = pace(1, 0);
    pace.pause = 5_000;
    pace.request = 300;
    let (ran, done) = thread::join(
        &rt,
        || run_a(&rt, alloc, &paths, pace),
        || {
            let dialed = next_of(&rt, &listener);
            drop(dialed);
            let silent = reach(&rt, paths.control);
            let done = put_is_done(&rt, paths.control);
            drop(silent);
            done
        },
    );
    got(&rt, fs::remove_file(&rt, "whole.b"));
    same(&rt, &done, &true);
    same(&rt, &got(&rt, ran).events, &1);
}

/// Counts the sockets that are reported as removed.
#[derive(Drop)]
struct Counter {
    removed: AtomicU64,
}

impl Observer for Counter {
    fn listening(&self) {}

    fn dialed(&self, _peer: &str, _state: PeerState) {}

    fn conflict(&self, _version: u64) {}

    fn socket_removed(&self, path: &str) {
        if path == "left.sock" {
            self.removed.fetch_add(1, Ordering::SeqCst);
        }
    }
}

#[test]
fn a_socket_that_was_left_is_removed_and_one_in_use_is_not(rt: HostRuntime) {
    let paths = paths_of("left.sock", "left.control", &[]);
    let alloc = rt.alloc();
    let counter = Counter {
        removed: AtomicU64::new(0),
    };
    let listener = got(&rt, UnixListener::bind(&rt, "left.sock"));
    let refused = run_observed(&rt, alloc, &paths, pace(1, 0), &counter);
    let met = (
        refused,
        is_there(&rt, "left.sock"),
        is_there(&rt, "left.control"),
    );
    same(&rt, &met, &(Err(Fault::ReadFailed), true, false));
    drop(listener);
    let ran = got(&rt, run_observed(&rt, alloc, &paths, pace(1, 0), &counter));
    same(
        &rt,
        &(ran.rounds, counter.removed.load(Ordering::SeqCst)),
        &(1, 1),
    );
    holds(&rt, "no socket is left", !is_there(&rt, "left.sock"));
}
