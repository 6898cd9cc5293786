//! A running node whose callers and peers are silent or slow: nobody waits for them.

use crate::peers::{hears_only, next_of, put_is_done, put_is_done_as, reach, talk};
use crate::running::{pace, paths_of, run_a};
use crate::waking::silent_b;
use crate::{got, same};
use sb_run::{Pace, Paths, Ran};
use sb_session::Ended;
use sb_testing::wire::{ASK, DONE, HELLO_A, HELLO_B, PUT};
use sb_types::Fault;
use std::alloc::Global;
use std::io::{Read, Write};
use std::net::Net;
use std::os::unix::net::{UnixListener, UnixStream};
use std::process::Abort;
use std::time::{Clock, Duration, Instant};
use std::{fs, thread};

/// How many silent connections a test makes at a socket.
const SILENT: usize = 40;

/// Where a frame has its kind.
const KIND_AT: usize = 6;

/// The kind of an answer that has rows.
const ROWS: u8 = 17;

/// The first bytes of a frame that is much longer.
const LONG_FRAME: [u8; 12] = [0xa7, 3, 0, 0, 255, 0, 2, 0, 0, 0, 0, 0];

/// What is tried at a node with one worker.
#[derive(Clone, Copy)]
enum Play {
    /// Many connect at both sockets and say nothing.
    Silence,
    /// A caller sends the second half of its request after another's.
    SlowCaller,
    /// The only worker has a session that says nothing more.
    BusyWorker,
    /// A peer sends the second half of its Hello after another peer's session.
    SlowHello,
    /// A peer sends a byte every now and then.
    SlowPeer,
}

/// Connections at this path, on which nothing is sent.
fn silent_at<R: Net + Abort>(rt: &R, alloc: Global, path: &str) -> Vec<UnixStream> {
    let mut silent = Vec::new(alloc);
    for _ in 0..SILENT {
        got(rt, silent.push(reach(rt, path)));
    }
    silent
}

/// Whether an Ask is answered by rows.
fn ask_is_answered<R: Net + Abort>(rt: &R, control: &str) -> bool {
    let mut stream = reach(rt, control);
    got(rt, stream.write_all(ASK));
    let mut answer = [0u8; KIND_AT + 1];
    got(rt, stream.read_exact(&mut answer));
    answer[KIND_AT] == ROWS
}

/// Whether c can dial the node and is served.
fn is_served<R: Net + Abort>(rt: &R, alloc: Global, sock: &str) -> bool {
    let stream = reach(rt, sock);
    talk(rt, alloc, &mut silent_b(rt, alloc), &stream, Some(1)) == Ended::RoundsDone
}

/// Whether a write, a question and a session are answered beside many connections that say nothing.
fn play_silence<R: Net + Abort>(rt: &R, alloc: Global, paths: &Paths) -> bool {
    let callers = silent_at(rt, alloc, paths.control);
    let peers = silent_at(rt, alloc, paths.sock);
    let is_done = put_is_done(rt, paths.control);
    let is_answered = ask_is_answered(rt, paths.control) && is_served(rt, alloc, paths.sock);
    drop(callers);
    drop(peers);
    is_done && is_answered
}

/// Whether a whole request is answered before half a one, and that one as soon as it is whole.
fn play_slow_caller<R: Net + Abort>(rt: &R, paths: &Paths) -> bool {
    let mut slow = reach(rt, paths.control);
    got(rt, slow.write_all(&PUT[..9]));
    let is_done = put_is_done(rt, paths.control);
    got(rt, slow.write_all(&PUT[9..]));
    let mut answer = [0u8; 15];
    got(rt, slow.read_exact(&mut answer));
    let mut second = DONE;
    second[14] = 2;
    is_done && answer == second
}

/// Whether writes and questions are answered while the only worker waits for a peer.
fn play_busy_worker<R: Net + Abort>(rt: &R, paths: &Paths) -> bool {
    let mut peer = reach(rt, paths.sock);
    got(rt, peer.write_all(HELLO_B));
    let mut greeting = [0u8; 12];
    got(rt, peer.read_exact(&mut greeting));
    greeting.as_slice() == HELLO_A
        && ask_is_answered(rt, paths.control)
        && put_is_done(rt, paths.control)
        && ask_is_answered(rt, paths.control)
}

/// Whether a write and a session are answered while half of a peer's Hello has come, and that peer once it is whole.
fn play_slow_hello<R: Net + Abort>(rt: &R, alloc: Global, paths: &Paths) -> bool {
    let mut slow = reach(rt, paths.sock);
    got(rt, slow.write_all(&HELLO_B[..6]));
    let is_done = put_is_done(rt, paths.control) && is_served(rt, alloc, paths.sock);
    got(rt, slow.write_all(&HELLO_B[6..]));
    let mut greeting = [0u8; 12];
    got(rt, slow.read_exact(&mut greeting));
    is_done && greeting.as_slice() == HELLO_A
}

/// Sends a Hello, and then a byte of a long frame every now and then, until the node hangs up. Says whether it did before all
/// were sent, and whether its owner is answered then.
fn play_slow_peer<R: Net + Clock + Abort>(rt: &R, paths: &Paths) -> bool {
    let slow = reach(rt, paths.sock);
    let mut writer = &slow;
    got(rt, writer.write_all(HELLO_B));
    let mut is_ended = false;
    for byte in &LONG_FRAME {
        if writer.write_all(&[*byte]).is_err() {
            is_ended = true;
            break;
        }
        thread::sleep(rt, Duration::from_millis(100));
    }
    is_ended && put_is_done(rt, paths.control)
}

/// Whether the play went as it should, and how long it took.
fn run_play<R: Net + Clock + Abort>(
    rt: &R,
    alloc: Global,
    paths: &Paths,
    play: Play,
) -> (bool, Duration) {
    let began = got(rt, Instant::now(rt));
    let went = match play {
        Play::Silence => play_silence(rt, alloc, paths),
        Play::SlowCaller => play_slow_caller(rt, paths),
        Play::BusyWorker => play_busy_worker(rt, paths),
        Play::SlowHello => play_slow_hello(rt, alloc, paths),
        Play::SlowPeer => play_slow_peer(rt, paths),
    };
    (went, got(rt, began.elapsed(rt)))
}

/// Limits of ten seconds, and one round.
fn patient() -> Pace {
    let mut patient = pace(1, 10_000);
    patient.request = 10_000;
    patient.session = 10_000;
    patient
}

/// Plays at a node whose only round lasts until the play is over, and then brings a delta. How the play went, and how long it took.
fn play_beside(
    rt: &(impl Net + Clock + Abort),
    alloc: Global,
    listener: &UnixListener,
    paths: &Paths,
    play: Play,
) -> (bool, Duration) {
    let dialed = next_of(rt, listener);
    let played = run_play(rt, alloc, paths, play);
    talk(rt, alloc, &mut silent_b(rt, alloc), &dialed, None);
    played
}

/// What a node counted. Tests that the play beside it went as it should within three seconds.
fn settled(rt: &impl Abort, ran: Result<Ran, Fault>, played: (bool, Duration)) -> Ran {
    let (went, time) = played;
    same(rt, &(went, time < Duration::from_secs(3)), &(true, true));
    got(rt, ran)
}

#[test]
fn connections_that_say_nothing_hold_up_nobody(rt: HostRuntime) {
    let paths = paths_of("mute.sock", "mute.control", &["mute.b"]);
    let alloc = rt.alloc();
    let listener = got(&rt, UnixListener::bind(&rt, "mute.b"));
    let pace = patient();
    let (ran, played) = thread::join(
        &rt,
        || run_a(&rt, alloc, &paths, pace),
        || play_beside(&rt, alloc, &listener, &paths, Play::Silence),
    );
    got(&rt, fs::remove_file(&rt, "mute.b"));
    let ran = settled(&rt, ran, played);
    same(&rt, &ran.events, &3);
}

#[test]
fn a_request_that_is_whole_is_served_first(rt: HostRuntime) {
    let paths = paths_of("half.sock", "half.control", &["half.b"]);
    let alloc = rt.alloc();
    let listener = got(&rt, UnixListener::bind(&rt, "half.b"));
    let pace = patient();
    let (ran, played) = thread::join(
        &rt,
        || run_a(&rt, alloc, &paths, pace),
        || play_beside(&rt, alloc, &listener, &paths, Play::SlowCaller),
    );
    got(&rt, fs::remove_file(&rt, "half.b"));
    let ran = settled(&rt, ran, played);
    same(&rt, &(ran.faults, ran.events), &(0, 3));
}

#[test]
fn callers_are_answered_while_all_workers_wait(rt: HostRuntime) {
    let paths = paths_of("busy.sock", "busy.control", &["busy.b"]);
    let alloc = rt.alloc();
    let listener = got(&rt, UnixListener::bind(&rt, "busy.b"));
    let pace = patient();
    let (ran, played) = thread::join(
        &rt,
        || run_a(&rt, alloc, &paths, pace),
        || play_beside(&rt, alloc, &listener, &paths, Play::BusyWorker),
    );
    got(&rt, fs::remove_file(&rt, "busy.b"));
    let ran = settled(&rt, ran, played);
    same(&rt, &ran.events, &2);
}

#[test]
fn a_hello_that_is_not_whole_holds_no_worker(rt: HostRuntime) {
    let paths = paths_of("part.sock", "part.control", &["part.b"]);
    let alloc = rt.alloc();
    let listener = got(&rt, UnixListener::bind(&rt, "part.b"));
    let pace = patient();
    let (ran, played) = thread::join(
        &rt,
        || run_a(&rt, alloc, &paths, pace),
        || play_beside(&rt, alloc, &listener, &paths, Play::SlowHello),
    );
    got(&rt, fs::remove_file(&rt, "part.b"));
    let ran = settled(&rt, ran, played);
    same(&rt, &ran.events, &3);
}

#[test]
fn a_session_ends_after_its_time(rt: HostRuntime) {
    let paths = paths_of("slow.sock", "slow.control", &["slow.b"]);
    let alloc = rt.alloc();
    let listener = got(&rt, UnixListener::bind(&rt, "slow.b"));
    let mut pace = patient();
    pace.session = 300;
    let (ran, played) = thread::join(
        &rt,
        || run_a(&rt, alloc, &paths, pace),
        || play_beside(&rt, alloc, &listener, &paths, Play::SlowPeer),
    );
    got(&rt, fs::remove_file(&rt, "slow.b"));
    let ran = settled(&rt, ran, played);
    same(&rt, &(ran.faults, ran.events), &(1, 2));
}

/// Whether nothing comes of half a request, until the node hangs up, and a whole one is answered before.
fn play_half(rt: &(impl Net + Abort), paths: &Paths) -> bool {
    let mut half = reach(rt, paths.control);
    got(rt, half.write_all(&PUT[..9]));
    let is_done = put_is_done(rt, paths.control);
    is_done && hears_only(rt, &half, 0) && put_is_done_as(rt, paths.control, 2)
}

#[test]
fn a_request_that_is_not_whole_in_time_is_closed(rt: HostRuntime) {
    let paths = paths_of("late.sock", "late.control", &["late.b"]);
    let alloc = rt.alloc();
    let listener = got(&rt, UnixListener::bind(&rt, "late.b"));
    let mut pace = patient();
    pace.request = 300;
    let (ran, went) = thread::join(
        &rt,
        || run_a(&rt, alloc, &paths, pace),
        || {
            let dialed = next_of(&rt, &listener);
            let went = play_half(&rt, &paths);
            talk(&rt, alloc, &mut silent_b(&rt, alloc), &dialed, None);
            went
        },
    );
    got(&rt, fs::remove_file(&rt, "late.b"));
    same(&rt, &went, &true);
    let ran = got(&rt, ran);
    same(&rt, &(ran.faults, ran.events), &(1, 3));
}
