//! The first write of a node waits until its peers were heard.

use crate::making::{new_log, settings_with};
use crate::peers::{next_of, reach, talk};
use crate::running::{Host, pace, paths_of, run_observed};
use crate::waking::silent_b;
use crate::{got, holds, same};
use sb_run::{Nobody, NodeConfig, Pace, Paths, Ran, run_node};
use sb_testing::wire::{ASK_STATUS, DONE, PUT};
use sb_types::{BUDGET_LEAST, Fault};
use std::alloc::Global;
use std::io::{Read, Write};
use std::net::{Net, TcpListener, TcpStream};
use std::os::unix::net::{UnixListener, UnixStream};
use std::process::Abort;
use std::time::{Duration, Instant};
use std::{fs, thread};

/// The kind of the answer to the question how a node is, and its place in the frame.
const NODE_STATUS: u8 = 22;

const KIND_AT: usize = 6;

/// So many rounds of a node whose first write waits for so many milliseconds at most.
fn pace_of(rounds: u64, hearing: u64) -> Pace {
    let mut pace = pace(rounds, 0);
    pace.hearing = hearing;
    pace
}

/// The owner's Put, on a connection that is still to be answered.
fn put<R: Net + Abort>(rt: &R, control: &str) -> UnixStream {
    let mut stream = reach(rt, control);
    got(rt, stream.write_all(PUT));
    stream
}

/// Whether the node answers how it is.
fn answers_status<R: Net + Abort>(rt: &R, control: &str) -> bool {
    let mut stream = reach(rt, control);
    got(rt, stream.write_all(ASK_STATUS));
    let mut answer = [0u8; KIND_AT + 1];
    got(rt, stream.read_exact(&mut answer));
    answer[KIND_AT] == NODE_STATUS
}

/// Whether nothing has come on a connection so far.
fn is_unanswered(rt: &impl Abort, stream: &UnixStream) -> bool {
    got(rt, stream.set_nonblocking(true));
    let mut reader = stream;
    let is_unanswered = reader.read(&mut [0u8; 1]).is_err();
    got(rt, stream.set_nonblocking(false));
    is_unanswered
}

/// Whether the Put is done as the first write.
fn is_done(rt: &impl Abort, stream: &UnixStream) -> bool {
    let mut reader = stream;
    let mut answer = [0u8; 15];
    got(rt, reader.read_exact(&mut answer));
    answer == DONE
}

/// The next connection of a listener is served as b.
fn serve_next(rt: &impl Abort, alloc: Global, listener: &UnixListener) {
    let dialed = next_of(rt, listener);
    talk(rt, alloc, &mut silent_b(rt, alloc), &dialed, None);
}

/// Writes while the first round with b goes on, and asks then how the node is. Whether that is answered while the write is not,
/// and the write after the round.
fn write_in_the_first_round<R: Net + Abort>(
    rt: &R,
    alloc: Global,
    listener: &UnixListener,
    control: &str,
) -> [bool; 3] {
    let dialed = next_of(rt, listener);
    let written = put(rt, control);
    let answers_status = answers_status(rt, control);
    let is_waiting = is_unanswered(rt, &written);
    talk(rt, alloc, &mut silent_b(rt, alloc), &dialed, None);
    let is_done = is_done(rt, &written);
    serve_next(rt, alloc, listener);
    [answers_status, is_waiting, is_done]
}

#[test]
fn the_first_write_waits_for_the_first_round(rt: HostRuntime) {
    let paths = paths_of("hearing.sock", "hearing.control", &["hearing.b"]);
    let alloc = rt.alloc();
    let listener = got(&rt, UnixListener::bind(&rt, "hearing.b"));
    let (ran, seen) = thread::join(
        &rt,
        || run_observed(&rt, alloc, &paths, pace_of(2, 60_000), &Nobody),
        || write_in_the_first_round(&rt, alloc, &listener, "hearing.control"),
    );
    got(&rt, fs::remove_file(&rt, "hearing.b"));
    same(&rt, &seen, &[true, true, true]);
    same(&rt, &got(&rt, ran).rounds, &2);
}

/// Writes while b is silent, and says whether that is done before b says anything.
fn write_beside_a_silent_peer<R: Net + Abort>(
    rt: &R,
    alloc: Global,
    listener: &UnixListener,
    control: &str,
) -> bool {
    let dialed = next_of(rt, listener);
    let is_done = is_done(rt, &put(rt, control));
    talk(rt, alloc, &mut silent_b(rt, alloc), &dialed, None);
    is_done
}

#[test]
fn a_write_waits_no_longer_for_a_silent_peer(rt: HostRuntime) {
    let paths = paths_of("mute.sock", "mute.control", &["mute.b"]);
    let alloc = rt.alloc();
    let listener = got(&rt, UnixListener::bind(&rt, "mute.b"));
    let began = got(&rt, Instant::now(&rt));
    let (ran, is_done) = thread::join(
        &rt,
        || run_observed(&rt, alloc, &paths, pace_of(1, 300), &Nobody),
        || write_beside_a_silent_peer(&rt, alloc, &listener, "mute.control"),
    );
    let took = got(&rt, began.elapsed(&rt));
    got(&rt, fs::remove_file(&rt, "mute.b"));
    holds(&rt, "the write is done", is_done);
    holds(&rt, "it waited", took >= Duration::from_millis(300));
    same(&rt, &got(&rt, ran).rounds, &1);
}

/// Runs the node a with two threads for news.
fn run_wide<R: Host + Net<Listener = TcpListener, Stream = TcpStream>>(
    rt: &R,
    alloc: Global,
    paths: &Paths,
    pace: Pace,
) -> Result<Ran, Fault> {
    let config = NodeConfig {
        settings: settings_with(rt, BUDGET_LEAST, 5, 1),
        paths: *paths,
        pace,
        beat: None,
        forgotten: &[],
    };
    run_node(rt, alloc, config, new_log(rt, alloc, b"a"), &Nobody)
}

/// Both peers are dialed at once, before either answers.
fn is_dialed_twice(rt: &impl Abort, alloc: Global, listeners: &[UnixListener; 2]) {
    let [first, second] = listeners;
    let (one, other) = (next_of(rt, first), next_of(rt, second));
    talk(rt, alloc, &mut silent_b(rt, alloc), &other, None);
    talk(rt, alloc, &mut silent_b(rt, alloc), &one, None);
}

// The second is dialed while the first round has no answer.
#[test]
fn all_peers_are_dialed_at_once_at_the_start(rt: HostRuntime) {
    let paths = paths_of("wide.sock", "wide.control", &["wide.b", "wide.c"]);
    let alloc = rt.alloc();
    let listeners = [
        got(&rt, UnixListener::bind(&rt, "wide.b")),
        got(&rt, UnixListener::bind(&rt, "wide.c")),
    ];
    let mut pace = pace(2, 0);
    pace.pause = 200;
    let (ran, ()) = thread::join(
        &rt,
        || run_wide(&rt, alloc, &paths, pace),
        || is_dialed_twice(&rt, alloc, &listeners),
    );
    got(&rt, fs::remove_file(&rt, "wide.b"));
    got(&rt, fs::remove_file(&rt, "wide.c"));
    same(&rt, &got(&rt, ran).rounds, &2);
}
