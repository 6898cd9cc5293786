//! News that goes to several peers side by side.

use crate::making::{name, new_log, settings_with};
use crate::peers::{next_of, put_is_done, put_is_done_as, talk};
use crate::running::{Host, pace, paths_of};
use crate::waking::silent_b;
use crate::{got, holds, same};
use sb_node::NodeCore;
use sb_run::{DownReason, NodeConfig, Observer, Pace, Paths, PeerState, Ran, run_node};
use sb_session::Ended;
use sb_types::{BUDGET_LEAST, Fault};
use std::alloc::Global;
use std::net::{Net, TcpListener, TcpStream};
use std::os::unix::net::UnixListener;
use std::process::Abort;
use std::sync::{Mutex, Wait};
use std::time::{Clock, Duration, Instant};
use std::{fs, thread};

/// Runs the node a with a new log, a worker, and three threads for news.
fn run_side_by_side<R: Host + Net<Listener = TcpListener, Stream = TcpStream>, O: Observer + Sync>(
    rt: &R,
    alloc: Global,
    paths: &Paths,
    pace: Pace,
    observer: &O,
) -> Result<Ran, Fault> {
    let config = NodeConfig {
        settings: settings_with(rt, BUDGET_LEAST, 6, 1),
        paths: *paths,
        pace,
        beat: None,
        forgotten: &[],
    };
    run_node(rt, alloc, config, new_log(rt, alloc, b"a"), observer)
}

/// Keeps what the node reports of peers: the last byte of the path, and how the peer is.
#[derive(Drop)]
struct States<'a, R> {
    rt: &'a R,
    all: Mutex<Vec<(Option<u8>, PeerState)>>,
}

impl<R: Wait + Abort> Observer for States<'_, R> {
    fn listening(&self) {}

    fn dialed(&self, peer: &str, state: PeerState) {
        let mut all = self.all.lock(self.rt);
        got(self.rt, all.push((peer.as_bytes().last().copied(), state)));
    }

    fn conflict(&self, _version: u64) {}
}

/// Tests that the node reported these peers and no others, in some order: each was dialed by a thread of its own.
fn reported_these<R: Wait + Abort>(states: &States<R>, wanted: &[(Option<u8>, PeerState)]) {
    let all = states.all.lock(states.rt);
    holds(
        states.rt,
        "each peer is reported once",
        all.len() == wanted.len() && wanted.iter().all(|one| all.contains(one)),
    );
}

/// Serves the next connection of a listener as b. Returns how that ended, and how far b holds a then.
fn serve_next(rt: &impl Abort, alloc: Global, listener: &UnixListener) -> (Ended, u64) {
    serve_next_as(rt, alloc, listener, &mut silent_b(rt, alloc))
}

/// The same, with b as it is by now.
fn serve_next_as(
    rt: &impl Abort,
    alloc: Global,
    listener: &UnixListener,
    of_b: &mut NodeCore,
) -> (Ended, u64) {
    let dialed = next_of(rt, listener);
    let ended = talk(rt, alloc, of_b, &dialed, None);
    (ended, of_b.upto(&name(rt, b"a")))
}

/// Is dialed by all three listeners, and says nothing at the first. Then a write of the owner: what it does at the other two,
/// and whether it was there within a second.
fn hear_beside_a_silent_peer<R: Net + Clock + Abort>(
    rt: &R,
    alloc: Global,
    listeners: &[UnixListener; 3],
    control: &str,
) -> ([(Ended, u64); 2], bool) {
    let [silent, first, second] = listeners;
    let unanswered = next_of(rt, silent);
    let rounds = [serve_next(rt, alloc, first), serve_next(rt, alloc, second)];
    same(rt, &rounds, &[(Ended::Bye(1), 0), (Ended::Bye(1), 0)]);
    let began = got(rt, Instant::now(rt));
    holds(rt, "the write is done", put_is_done(rt, control));
    let ends = [serve_next(rt, alloc, first), serve_next(rt, alloc, second)];
    let took = got(rt, began.elapsed(rt));
    thread::sleep(rt, Duration::from_millis(2_500));
    drop(unanswered);
    (ends, took < Duration::from_millis(1_000))
}

#[test]
fn a_silent_peer_delays_the_news_to_itself_alone(rt: HostRuntime) {
    let paths = paths_of(
        "side.sock",
        "side.control",
        &["side.silent", "side.b", "side.c"],
    );
    let alloc = rt.alloc();
    let listeners = [
        got(&rt, UnixListener::bind(&rt, "side.silent")),
        got(&rt, UnixListener::bind(&rt, "side.b")),
        got(&rt, UnixListener::bind(&rt, "side.c")),
    ];
    let states = States {
        rt: &rt,
        all: Mutex::new(Vec::new(alloc)),
    };
    let mut pace = pace(4, 0);
    pace.pause = 200;
    pace.dial_idle = 2_000;
    let (ran, (ends, was_soon)) = thread::join(
        &rt,
        || run_side_by_side(&rt, alloc, &paths, pace, &states),
        || hear_beside_a_silent_peer(&rt, alloc, &listeners, "side.control"),
    );
    for path in ["side.silent", "side.b", "side.c"] {
        got(&rt, fs::remove_file(&rt, path));
    }
    same(&rt, &ends, &[(Ended::Bye(1), 1), (Ended::Bye(1), 1)]);
    holds(&rt, "the news was there within a second", was_soon);
    let ran = got(&rt, ran);
    same(&rt, &(ran.rounds, ran.faults), &(4, 2));
    let wanted = [
        (Some(b'b'), PeerState::Answers),
        (Some(b'c'), PeerState::Answers),
        (Some(b't'), PeerState::Down(DownReason::Silent)),
    ];
    reported_these(&states, wanted.as_slice());
}

/// Is dialed as b in turn and for news. While it lets that wait, the owner writes twice more, and nobody else dials. Returns how
/// far b holds a after the session for news and after the next.
fn let_news_wait<R: Net + Clock + Abort>(
    rt: &R,
    alloc: Global,
    listener: &UnixListener,
    control: &str,
) -> [(Ended, u64); 3] {
    let mut of_b = silent_b(rt, alloc);
    let in_turn = serve_next_as(rt, alloc, listener, &mut of_b);
    holds(rt, "the first write is done", put_is_done(rt, control));
    let dialed = next_of(rt, listener);
    holds(rt, "the second is done", put_is_done_as(rt, control, 2));
    holds(rt, "the third is done", put_is_done_as(rt, control, 3));
    thread::sleep(rt, Duration::from_millis(200));
    got(rt, listener.set_nonblocking(true));
    holds(rt, "nobody else dials", listener.accept().is_err());
    got(rt, listener.set_nonblocking(false));
    let ended = talk(rt, alloc, &mut of_b, &dialed, None);
    drop(dialed);
    let held = of_b.upto(&name(rt, b"a"));
    [
        in_turn,
        (ended, held),
        serve_next_as(rt, alloc, listener, &mut of_b),
    ]
}

#[test]
fn news_during_a_session_for_news_makes_another_behind_it(rt: HostRuntime) {
    let paths = paths_of("again.sock", "again.control", &["again.b"]);
    let alloc = rt.alloc();
    let listener = got(&rt, UnixListener::bind(&rt, "again.b"));
    let states = States {
        rt: &rt,
        all: Mutex::new(Vec::new(alloc)),
    };
    let mut pace = pace(1, 0);
    pace.pause = 5_000;
    let (ran, ends) = thread::join(
        &rt,
        || run_side_by_side(&rt, alloc, &paths, pace, &states),
        || let_news_wait(&rt, alloc, &listener, "again.control"),
    );
    got(&rt, fs::remove_file(&rt, "again.b"));
    let ended = Ended::Bye(1);
    same(&rt, &ends, &[(ended, 0), (ended, 1), (ended, 3)]);
    let ran = got(&rt, ran);
    same(&rt, &(ran.rounds, ran.faults), &(1, 0));
}
