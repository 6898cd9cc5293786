//! A node that runs with its sockets.

use crate::making::{name, new_log, settings};
use crate::peers::{hears_only, next_of, node_with, put_is_done, reach, serve_as_b, talk};
use crate::waking::silent_b;
use crate::{got, holds, same};
use sb_log::PlainLog;
use sb_run::{
    DownReason, Nobody, NodeConfig, Observer, OnLogFault, Pace, Paths, PeerState, Ran, Runtime,
    run_node,
};
use sb_session::Ended;
use sb_testing::wire::HELLO_B;
use sb_types::{Fault, Settings};
use std::alloc::Global;
use std::fs::File;
use std::io::{Read, Write};
use std::net::{Net, Shutdown, TcpListener, TcpStream};
use std::os::unix::net::{UnixListener, UnixStream};
use std::process::Abort;
use std::rt::Files;
use std::sync::atomic::{AtomicBool, Ordering};
use std::sync::{Mutex, Wait};
use std::time::Duration;
use std::{fs, io, thread};

/// The length of the Hello of a.
const HELLO: usize = 12;

/// The Hello of the node b of the cluster c2.
const HELLO_OF_C2: &[u8] = b"\xa7\x03\x00\x00\x00\x06\x01\x02c2\x01b";

/// The Hello of the node b of the cluster c1, and a delta by which a wrote the weight 5 under w.
pub(crate) const WRITTEN_AS_A: &[u8] = b"\xa7\x03\x00\x00\x00\x06\x01\x02c1\x01b\
        \xa7\x03\x00\x00\x00\x32\x03\x00\x01\
        \x01a\x00\x00\x00\x00\x00\x00\x00\x00\x00\x00\x00\x00\x00\x00\x00\x00\
        \x00\x00\x00\x00\x00\x00\x00\x01\x00\x01\
        \x01w\x00\x00\x00\x00\x00\x00\x00\x01\x02\x00\x00\x00\x00\x00\x00\x00\x05";

pub(crate) fn pace(rounds: u64, idle: u64) -> Pace {
    Pace {
        rounds,
        pause: 0,
        fanout: 3,
        idle,
        session: 0,
        dial_idle: idle,
        request: 0,
        max_reads: 99,
        on_log_fault: OnLogFault::Serve,
        purge_removals: 0,
        audit: 0,
        hearing: 0,
    }
}

/// The paths of a node's sockets, and of its peers.
pub(crate) fn paths_of<'a>(sock: &'a str, control: &'a str, peers: &'a [&'a str]) -> Paths<'a> {
    Paths {
        sock,
        control,
        peers,
        http: None,
    }
}

/// The result of a node that made so many rounds, with so many faults and events.
pub(crate) fn ran_of(rounds: u64, faults: u64, events: u64) -> Ran {
    Ran {
        rounds,
        faults,
        events,
    }
}

pub(crate) fn is_there(files: &impl Files, path: &str) -> bool {
    fs::metadata(files, path).is_ok()
}

/// Whether there are files at the paths of its sockets.
fn are_there(files: &impl Files, paths: &Paths) -> [bool; 2] {
    [is_there(files, paths.sock), is_there(files, paths.control)]
}

/// What runs a node, and can end the test.
pub(crate) trait Host: Runtime + Abort {}

impl<R: Runtime + Abort> Host for R {}

/// Runs the node a with a new log.
pub(crate) fn run_a<R: Host + Net<Listener = TcpListener, Stream = TcpStream>>(
    rt: &R,
    alloc: Global,
    paths: &Paths,
    pace: Pace,
) -> Result<Ran, Fault> {
    run_observed(rt, alloc, paths, pace, &Nobody)
}

/// The same, with this observer.
pub(crate) fn run_observed<
    R: Host + Net<Listener = TcpListener, Stream = TcpStream>,
    O: Observer + Sync,
>(rt: &R, alloc: Global, paths: &Paths, pace: Pace, observer: &O) -> Result<Ran, Fault> {
    let log = new_log(rt, alloc, b"a");
    let config = NodeConfig {
        settings: settings(rt, 3),
        paths: *paths,
        pace,
        beat: None,
        forgotten: &[],
    };
    run_node(rt, alloc, config, log, observer)
}

/// Runs the node of this log.
pub(crate) fn run_log<R: Host + Net<Listener = TcpListener, Stream = TcpStream>>(
    rt: &R,
    alloc: Global,
    settings: Settings,
    paths: &Paths,
    pace: Pace,
    log: PlainLog,
) -> Result<Ran, Fault> {
    let config = NodeConfig {
        settings,
        paths: *paths,
        pace,
        beat: None,
        forgotten: &[],
    };
    run_node(rt, alloc, config, log, &Nobody)
}

/// Looks whether the sockets are there when the node listens.
#[derive(Drop)]
struct Looker<'a> {
    rt: &'a HostRuntime,
    paths: &'a Paths<'a>,
    saw_both: AtomicBool,
}

impl Observer for Looker<'_> {
    fn listening(&self) {
        let both = are_there(self.rt, self.paths) == [true, true];
        self.saw_both.store(both, Ordering::SeqCst);
    }

    fn dialed(&self, _peer: &str, _state: PeerState) {}

    fn conflict(&self, _version: u64) {}
}

#[test]
fn rounds_without_peers(rt: HostRuntime) {
    let paths = paths_of("quiet.sock", "quiet.control", &[]);
    let looker = Looker {
        rt: &rt,
        paths: &paths,
        saw_both: AtomicBool::new(false),
    };
    let ran = run_observed(&rt, rt.alloc(), &paths, pace(3, 0), &looker);
    let whole = ran_of(3, 0, 0);
    same(&rt, &got(&rt, ran), &whole);
    let met = (
        looker.saw_both.load(Ordering::SeqCst),
        are_there(&rt, &paths),
    );
    same(&rt, &met, &(true, [false, false]));
}

/// What a node over this log returns. It would make one round.
fn run_once<R: Host + Net<Listener = TcpListener, Stream = TcpStream>, O: Observer + Sync>(
    rt: &R,
    alloc: Global,
    settings: Settings,
    paths: &Paths,
    log: PlainLog,
    observer: &O,
) -> Result<Ran, Fault> {
    let config = NodeConfig {
        settings,
        paths: *paths,
        pace: pace(1, 0),
        beat: None,
        forgotten: &[],
    };
    run_node(rt, alloc, config, log, observer)
}

#[test]
fn a_node_that_is_refused_did_not_run(rt: HostRuntime) {
    let alloc = rt.alloc();
    let paths = paths_of("unheard.sock", "unheard.control", &[]);
    let looker = Looker {
        rt: &rt,
        paths: &paths,
        saw_both: AtomicBool::new(false),
    };
    let of_c2 = PlainLog::new(alloc, name(&rt, b"a"), name(&rt, b"c2"), 100);
    let ran = run_once(&rt, alloc, settings(&rt, 3), &paths, of_c2, &looker);
    same(&rt, &ran, &Err(Fault::WrongCluster));
    let of_c1 = new_log(&rt, alloc, b"a");
    let ran = run_once(&rt, alloc, settings(&rt, 2), &paths, of_c1, &looker);
    same(&rt, &ran, &Err(Fault::BadSetting));
    same(&rt, &looker.saw_both.load(Ordering::SeqCst), &false);
}

/// Whether the file that was there first is as before. Removes it.
fn is_kept(rt: &(impl Files + Abort), alloc: Global) -> bool {
    let file = got(rt, File::open(rt, "taken"));
    let kept = got(rt, io::read_to_string(alloc, file));
    got(rt, fs::remove_file(rt, "taken"));
    kept.as_str() == "kept"
}

/// Tests that a node is refused if there is a file at one of its paths. The file is left as it was, and there is none
/// at the other path.
fn leaves_taken<R: Host + Net<Listener = TcpListener, Stream = TcpStream>>(
    rt: &R,
    alloc: Global,
    sock: &str,
    control: &str,
    free: &str,
) {
    let paths = paths_of(sock, control, &[]);
    got(rt, fs::write(rt, "taken", "kept"));
    let ran = run_a(rt, alloc, &paths, pace(1, 0));
    let is_made = is_there(rt, free);
    let met = (ran, is_made, is_kept(rt, alloc));
    same(rt, &met, &(Err(Fault::ReadFailed), false, true));
}

#[test]
fn a_path_that_is_taken_is_left(rt: HostRuntime) {
    leaves_taken(&rt, rt.alloc(), "taken", "free.control", "free.control");
    leaves_taken(&rt, rt.alloc(), "free.sock", "taken", "free.sock");
}

/// Tests that a node is refused if one of its paths is empty, and that there is no file at the other.
fn refuses_empty<R: Host + Net<Listener = TcpListener, Stream = TcpStream>>(
    rt: &R,
    alloc: Global,
    sock: &str,
    control: &str,
    other: &str,
) {
    let paths = paths_of(sock, control, &[]);
    let ran = run_a(rt, alloc, &paths, pace(1, 0));
    let met = (ran, is_there(rt, other));
    same(rt, &met, &(Err(Fault::ReadFailed), false));
}

#[test]
fn an_empty_path_is_refused(rt: HostRuntime) {
    refuses_empty(&rt, rt.alloc(), "", "empty.control", "empty.control");
    refuses_empty(&rt, rt.alloc(), "empty.sock", "", "empty.sock");
}

/// Runs a node. If it does not dial so often, connections made here replace its dials, so that the player does not
/// wait.
fn run_and_reach<R: Host + Net<Listener = TcpListener, Stream = TcpStream>>(
    rt: &R,
    alloc: Global,
    paths: &Paths,
    pace: Pace,
    peer: &str,
    times: u64,
) -> Ran {
    let ran = run_a(rt, alloc, paths, pace);
    for _ in 0..times {
        let _ = UnixStream::connect(rt, peer);
    }
    got(rt, ran)
}

/// What the player saw: whether the write was done, and how the sessions of c and b ended. Then how far c holds a, and
/// how far b holds a and c.
#[derive(Clone, Copy, Debug, PartialEq, Eq)]
struct PlayerFindings {
    done: bool,
    ends: [Ended; 2],
    held: [u64; 3],
}

/// c dials the node. Returns how the session ends, and how far c holds a then.
fn dial_as_c<R: Net + Abort>(rt: &R, alloc: Global, sock: &str) -> (Ended, u64) {
    let mut of_c = node_with(rt, alloc, b"c", b"k");
    let stream = reach(rt, sock);
    let by_c = talk(rt, alloc, &mut of_c, &stream, Some(2));
    (by_c, of_c.upto(&name(rt, b"a")))
}

/// Plays the owner, c which dials, and b which is dialed. When the node dials, it has bound its sockets.
fn play<R: Net + Abort>(
    rt: &R,
    alloc: Global,
    listener: &UnixListener,
    paths: &Paths,
) -> PlayerFindings {
    let dialed = next_of(rt, listener);
    let done = put_is_done(rt, paths.control);
    let (by_c, c_holds_a) = dial_as_c(rt, alloc, paths.sock);
    let (by_b, b_holds_a, b_holds_c) = serve_as_b(rt, alloc, &dialed);
    PlayerFindings {
        done,
        ends: [by_c, by_b],
        held: [c_holds_a, b_holds_a, b_holds_c],
    }
}

#[test]
fn a_node_beside_its_owner_and_its_peers(rt: HostRuntime) {
    let paths = paths_of(
        "beside.sock",
        "beside.control",
        &["beside.nobody", "beside.peer"],
    );
    let alloc = rt.alloc();
    let listener = got(&rt, UnixListener::bind(&rt, "beside.peer"));
    let (ran, seen) = thread::join(
        &rt,
        || run_and_reach(&rt, alloc, &paths, pace(2, 0), "beside.peer", 1),
        || play(&rt, alloc, &listener, &paths),
    );
    got(&rt, fs::remove_file(&rt, "beside.peer"));
    let all = PlayerFindings {
        done: true,
        ends: [Ended::RoundsDone, Ended::Bye(1)],
        held: [1, 1, 1],
    };
    same(&rt, &seen, &all);
    let whole = ran_of(2, 1, 4);
    same(&rt, &ran, &whole);
}

/// Whether nothing comes on connections that send nothing, or one byte, until the node hangs up. Whether no more than a Hello
/// comes on one that sends a Hello.
fn hears_no_more<R: Net + Abort>(rt: &R, paths: &Paths) -> bool {
    let control = reach(rt, paths.control);
    let silent = reach(rt, paths.sock);
    let mut part = reach(rt, paths.sock);
    got(rt, part.write_all(&HELLO_B[..1]));
    let mut slow = reach(rt, paths.sock);
    got(rt, slow.write_all(HELLO_B));
    let silence = hears_only(rt, &control, 0) && hears_only(rt, &silent, 0);
    silence && hears_only(rt, &part, 0) && hears_only(rt, &slow, HELLO)
}

/// Whether no more than that came on the silent connections, and whether the write was done. Then how b's session
/// ended, and how far b holds a.
type Heard = (bool, bool, Ended, u64);

/// Sends nothing on any connection until the node hangs up. Then it writes, and serves as b when it is dialed once
/// more.
fn stay_silent<R: Net + Abort>(
    rt: &R,
    alloc: Global,
    listener: &UnixListener,
    paths: &Paths,
) -> Heard {
    let silent = next_of(rt, listener);
    let is_silent = hears_no_more(rt, paths);
    let dialed = next_of(rt, listener);
    let done = put_is_done(rt, paths.control);
    let (by_b, b_holds_a, _) = serve_as_b(rt, alloc, &dialed);
    drop(silent);
    (is_silent, done, by_b, b_holds_a)
}

#[test]
fn a_connection_that_says_nothing_ends(rt: HostRuntime) {
    let paths = paths_of("idle.sock", "idle.control", &["idle.peer"]);
    let alloc = rt.alloc();
    let listener = got(&rt, UnixListener::bind(&rt, "idle.peer"));
    let (ran, heard) = thread::join(
        &rt,
        || run_and_reach(&rt, alloc, &paths, pace(2, 1_000), "idle.peer", 2),
        || stay_silent(&rt, alloc, &listener, &paths),
    );
    got(&rt, fs::remove_file(&rt, "idle.peer"));
    same(&rt, &heard, &(true, true, Ended::Bye(1), 1));
    let whole = ran_of(2, 5, 2);
    same(&rt, &ran, &whole);
}

/// Keeps what the node reports of peers: the last byte of the path, and how the peer is. It also keeps reports of
/// another node under its name.
#[derive(Drop)]
struct Keeper<'a, R> {
    rt: &'a R,
    told: Mutex<Vec<(Option<u8>, PeerState)>>,
    conflicts: Mutex<Vec<u64>>,
}

impl<R: Wait + Abort> Observer for Keeper<'_, R> {
    fn listening(&self) {}

    fn dialed(&self, peer: &str, state: PeerState) {
        let mut told = self.told.lock(self.rt);
        let of = peer.as_bytes().last().copied();
        got(self.rt, told.push((of, state)));
    }

    fn conflict(&self, version: u64) {
        let mut conflicts = self.conflicts.lock(self.rt);
        got(self.rt, conflicts.push(version));
    }
}

/// Makes one that has kept nothing yet.
fn new_keeper<R>(rt: &R, alloc: Global) -> Keeper<'_, R> {
    Keeper {
        rt,
        told: Mutex::new(Vec::new(alloc)),
        conflicts: Mutex::new(Vec::new(alloc)),
    }
}

/// Sends this and no more when it is dialed next, and hears until the node hangs up.
pub(crate) fn answer_by(rt: &impl Abort, listener: &UnixListener, says: &[u8]) {
    let dialed = next_of(rt, listener);
    let (mut writer, mut reader) = (&dialed, &dialed);
    got(rt, writer.write_all(says));
    got(rt, dialed.shutdown(Shutdown::Write));
    let mut heard = [0u8; 64];
    for _ in 0..64 {
        if !reader.read(&mut heard).is_ok_and(|count| count > 0) {
            return;
        }
    }
}

/// Is dialed as b four times, the first two times as a node of another cluster.
fn change_the_cluster(rt: &impl Abort, alloc: Global, listener: &UnixListener) {
    for _ in 0..2 {
        answer_by(rt, listener, HELLO_OF_C2);
    }
    for _ in 0..2 {
        let dialed = next_of(rt, listener);
        serve_as_b(rt, alloc, &dialed);
    }
}

/// Whether the node reported these states and no others.
fn was_told<R: Wait>(keeper: &Keeper<R>, states: &[(Option<u8>, PeerState)]) -> bool {
    keeper.told.lock(keeper.rt).as_slice() == states
}

#[test]
fn an_observer_is_told_of_each_change_of_a_peer_once(rt: HostRuntime) {
    let paths = paths_of("told.sock", "told.control", &["told.nobody", "told.b"]);
    let alloc = rt.alloc();
    let keeper = new_keeper(&rt, alloc);
    let listener = got(&rt, UnixListener::bind(&rt, "told.b"));
    let (ran, ()) = thread::join(
        &rt,
        || run_observed(&rt, alloc, &paths, pace(8, 0), &keeper),
        || change_the_cluster(&rt, alloc, &listener),
    );
    got(&rt, fs::remove_file(&rt, "told.b"));
    same(&rt, &got(&rt, ran).faults, &6);
    let wanted = [
        (Some(b'y'), PeerState::Down(DownReason::Unreachable)),
        (Some(b'b'), PeerState::Failed(Fault::WrongCluster)),
        (Some(b'b'), PeerState::Answers),
    ];
    holds(
        &rt,
        "each change was told once",
        was_told(&keeper, wanted.as_slice()),
    );
}

/// Takes the next two connections and hangs up, one at once and the other after a Hello of its own. Serves the third as b, which wrote nothing.
fn end_early_twice(rt: &impl Abort, alloc: Global, listener: &UnixListener) {
    drop(next_of(rt, listener));
    answer_by(rt, listener, HELLO_B);
    let dialed = next_of(rt, listener);
    talk(rt, alloc, &mut silent_b(rt, alloc), &dialed, None);
}

#[test]
fn an_observer_is_told_once_that_a_peer_is_down_whatever_the_reasons(rt: HostRuntime) {
    let paths = paths_of("down.sock", "down.control", &["down.b"]);
    let alloc = rt.alloc();
    let keeper = new_keeper(&rt, alloc);
    let mut pace = pace(4, 0);
    pace.pause = 500;
    let (ran, ()) = thread::join(
        &rt,
        || run_observed(&rt, alloc, &paths, pace, &keeper),
        || {
            thread::sleep(&rt, Duration::from_millis(250));
            let listener = got(&rt, UnixListener::bind(&rt, "down.b"));
            end_early_twice(&rt, alloc, &listener);
        },
    );
    got(&rt, fs::remove_file(&rt, "down.b"));
    same(&rt, &got(&rt, ran).rounds, &4);
    let wanted = [
        (Some(b'b'), PeerState::Down(DownReason::Unreachable)),
        (Some(b'b'), PeerState::Answers),
    ];
    holds(
        &rt,
        "it was down once, and answers once",
        was_told(&keeper, wanted.as_slice()),
    );
}

#[test]
fn an_observer_is_told_of_another_node_under_the_name_once(rt: HostRuntime) {
    let paths = paths_of("named.sock", "named.control", &["named.b"]);
    let alloc = rt.alloc();
    let keeper = new_keeper(&rt, alloc);
    let listener = got(&rt, UnixListener::bind(&rt, "named.b"));
    let (ran, ()) = thread::join(
        &rt,
        || run_observed(&rt, alloc, &paths, pace(3, 0), &keeper),
        || {
            for _ in 0..3 {
                answer_by(&rt, &listener, WRITTEN_AS_A);
            }
        },
    );
    got(&rt, fs::remove_file(&rt, "named.b"));
    same(&rt, &got(&rt, ran).faults, &0);
    holds(
        &rt,
        "the version that was seen was told once",
        keeper.conflicts.lock(&rt).as_slice() == [1].as_slice(),
    );
}
