//! What a running node reports of what it suffers, and of owners of whom it holds nothing yet.

use crate::making::{key, name, new_log, settings, weight};
use crate::peers::{hears_only, next_of, reach, talk};
use crate::running::{Host, answer_by, pace, paths_of};
use crate::waking::silent_b;
use crate::{got, same};
use sb_log::{PlainLog, WriteLog};
use sb_run::{NodeConfig, Observer, Paths, PeerState, Ran, Status, Troubles, run_node};
use sb_testing::wire::PUT;
use sb_types::{Fault, KEYS_MOST};
use std::alloc::Global;
use std::io::{Read, Write};
use std::net::{Net, Shutdown, TcpListener, TcpStream};
use std::os::unix::net::UnixListener;
use std::process::Abort;
use std::sync::{Mutex, Wait};
use std::time::{Clock, Duration};
use std::{fs, thread};

/// The Hello of b, as frames of version 2 have it.
const HELLO_OF_BEFORE: &[u8] = b"\xa7\x02\x00\x00\x00\x06\x01\x02c1\x01b";

/// The Hello of b, and a delta of c that reaches to version 1 of a floor of 2.
const STAGE_OF_C: &[u8] = b"\xa7\x03\x00\x00\x00\x06\x01\x02c1\x01b\
        \xa7\x03\x00\x00\x00\x32\x03\x00\x01\
        \x01c\x00\x00\x00\x00\x00\x00\x00\x02\x00\x00\x00\x00\x00\x00\x00\x00\
        \x00\x00\x00\x00\x00\x00\x00\x01\x00\x01\
        \x01w\x00\x00\x00\x00\x00\x00\x00\x01\x02\x00\x00\x00\x00\x00\x00\x00\x05";

/// Refused, with fault 6.
const REFUSED_6: [u8; 8] = *b"\xa7\x03\x00\x00\x00\x02\x14\x06";

/// What the node suffered, whether all workers are free, and of which of the owners a, b and c it holds nothing yet.
type Suffered = (Troubles, bool, [bool; 3]);

/// Keeps what was reported last after the round of this number.
#[derive(Drop)]
struct Nurse<'a, R> {
    rt: &'a R,
    behind: u64,
    reported: Mutex<Option<Suffered>>,
}

fn new_nurse<R>(rt: &R, behind: u64) -> Nurse<'_, R> {
    Nurse {
        rt,
        behind,
        reported: Mutex::new(None),
    }
}

fn is_at_zero(rt: &impl Abort, status: &Status<'_>, owner: &[u8]) -> bool {
    let owner = name(rt, owner);
    status.owners_at_zero.iter().any(|held| *held == owner)
}

impl<R: Wait + Abort> Observer for Nurse<'_, R> {
    fn listening(&self) {}

    fn dialed(&self, _peer: &str, _state: PeerState) {}

    fn conflict(&self, _version: u64) {}

    fn wants_status(&self) -> bool {
        true
    }

    fn status(&self, status: &Status<'_>) {
        if status.rounds == self.behind {
            let at_zero = [
                is_at_zero(self.rt, status, b"a"),
                is_at_zero(self.rt, status, b"b"),
                is_at_zero(self.rt, status, b"c"),
            ];
            let is_free = (status.workers, status.busy_workers) == (1, 0);
            let mut reported = self.reported.lock(self.rt);
            *reported = Some((status.troubles, is_free, at_zero));
        }
    }
}

/// Runs the node a over a log, until it has made a round.
fn run_once<R: Host + Net<Listener = TcpListener, Stream = TcpStream>>(
    rt: &R,
    alloc: Global,
    paths: &Paths,
    log: PlainLog,
    nurse: &Nurse<'_, R>,
) -> Result<Ran, Fault> {
    let config = NodeConfig {
        settings: settings(rt, 3),
        paths: *paths,
        pace: pace(1, 0),
        beat: None,
        forgotten: &[],
    };
    run_node(rt, alloc, config, log, nurse)
}

/// Calls as a peer of another version, and hears until the node hangs up.
fn call_as_before<R: Net + Abort>(rt: &R, sock: &str) -> bool {
    let mut stream = reach(rt, sock);
    got(rt, stream.write_all(HELLO_OF_BEFORE));
    got(rt, stream.shutdown(Shutdown::Write));
    hears_only(rt, &stream, 12)
}

/// The log of a, with as many keys as it may have.
fn full_log(rt: &impl Abort, alloc: Global) -> PlainLog {
    let mut log = PlainLog::new(alloc, name(rt, b"a"), name(rt, b"c1"), 9_999);
    for number in 0..KEYS_MOST {
        let text = got(rt, format!(in alloc; "k{number}"));
        got(rt, log.put(&key(rt, text.as_bytes()), &weight(rt, 5)));
    }
    log
}

/// Whether the owner's Put is refused because there are too many keys.
fn is_refused<R: Net + Abort>(rt: &R, control: &str) -> bool {
    let mut stream = reach(rt, control);
    got(rt, stream.write_all(PUT));
    let mut answer = [0u8; 8];
    got(rt, stream.read_exact(&mut answer));
    answer == REFUSED_6
}

/// Plays a peer of another version, and an owner who writes twice. (The node has counted the first write once it answers the
/// second.) Once the worker had time to be free again, b ends the round.
fn disturb<R: Net + Clock + Abort>(
    rt: &R,
    alloc: Global,
    listener: &UnixListener,
    paths: &Paths,
) -> [bool; 3] {
    let dialed = next_of(rt, listener);
    let done = [
        call_as_before(rt, paths.sock),
        is_refused(rt, paths.control),
        is_refused(rt, paths.control),
    ];
    thread::sleep(rt, Duration::from_millis(200));
    talk(rt, alloc, &mut silent_b(rt, alloc), &dialed, None);
    done
}

#[test]
fn a_node_counts_what_it_suffers(rt: HostRuntime) {
    let paths = paths_of("ill.sock", "ill.control", &["ill.b"]);
    let alloc = rt.alloc();
    let nurse = new_nurse(&rt, 1);
    let listener = got(&rt, UnixListener::bind(&rt, "ill.b"));
    let (ran, done) = thread::join(
        &rt,
        || run_once(&rt, alloc, &paths, full_log(&rt, alloc), &nurse),
        || disturb(&rt, alloc, &listener, &paths),
    );
    got(&rt, fs::remove_file(&rt, "ill.b"));
    same(&rt, &done, &[true, true, true]);
    same(&rt, &got(&rt, ran).faults, &1);
    let reported = *nurse.reported.lock(&rt);
    let full_writes = reported.map_or(0, |(troubles, _, _)| troubles.full_writes);
    same(&rt, &(1 <= full_writes && full_writes <= 2), &true);
    let wanted = Troubles {
        session_faults: 1,
        last_session_fault: 11,
        other_versions: 1,
        turned_away: 0,
        full_writes,
        busy_times: 0,
        version_falls: 0,
    };
    same(&rt, &reported, &Some((wanted, true, [false, false, false])));
}

/// A node that never wrote, and that has a stage of c.
#[test]
fn a_node_names_owners_of_whom_it_holds_nothing_yet(rt: HostRuntime) {
    let paths = paths_of("zero.sock", "zero.control", &["zero.b"]);
    let alloc = rt.alloc();
    let nurse = new_nurse(&rt, 1);
    let listener = got(&rt, UnixListener::bind(&rt, "zero.b"));
    let (ran, ()) = thread::join(
        &rt,
        || run_once(&rt, alloc, &paths, new_log(&rt, alloc, b"a"), &nurse),
        || answer_by(&rt, &listener, STAGE_OF_C),
    );
    got(&rt, fs::remove_file(&rt, "zero.b"));
    same(&rt, &got(&rt, ran).faults, &0);
    let reported = *nurse.reported.lock(&rt);
    let at_zero = reported.map(|(_, _, at_zero)| at_zero);
    same(&rt, &at_zero, &Some([true, false, true]));
}
