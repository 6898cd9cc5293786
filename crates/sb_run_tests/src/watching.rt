//! Callers that wait for a change at a running node, ages of owners, and beats.
ghost use Rattle.std.specs.Prelude.{◌≡◌, ◌<◌};

use crate::making::{key, name, new_log, settings};
use crate::peers::{next_of, node_with, put_is_done, reach, talk};
use crate::running::{Host, pace, paths_of, run_a};
use crate::{got, holds, same};
use sb_codec::{Ages, Message};
use sb_control::ask_control;
use sb_frames::{Connection, Steps};
use sb_query::ages_in;
use sb_run::{Beat, Nobody, NodeConfig, Paths, Ran, run_node};
use sb_types::Fault;
use std::alloc::Global;
use std::io::{Read, Write};
use std::marker::Brand;
use std::net::{Net, TcpListener, TcpStream};
use std::os::unix::net::{UnixListener, UnixStream};
use std::process::Abort;
use std::sync::ledger::{Blank, Ledger};
use std::{fs, thread};

/// Asks for the next change under w, within 30,000 milliseconds.
const UNDER_W: &[u8] = b"\xa7\x03\x00\x00\x00\x0c\x17\x00\x01w\x00\x00\x00\x00\x00\x00\x75\x30";

/// Asks for the next change under x, within one millisecond.
const UNDER_X: &[u8] = b"\xa7\x03\x00\x00\x00\x0c\x17\x00\x01x\x00\x00\x00\x00\x00\x00\x00\x01";

/// Asks for the next change under b, within 30,000 milliseconds.
const UNDER_B: &[u8] = b"\xa7\x03\x00\x00\x00\x0c\x17\x00\x01b\x00\x00\x00\x00\x00\x00\x75\x30";

/// A connection to the node, over which this was asked.
fn asked_over<R: Net + Abort>(rt: &R, control: &str, request: &[u8]) -> UnixStream {
    let mut stream = reach(rt, control);
    got(rt, stream.write_all(request));
    stream
}

/// The number of the next notice.
fn heard(rt: &impl Abort, stream: &UnixStream) -> u8 {
    let mut reader = stream;
    let mut notice = [0u8; 8];
    got(rt, reader.read_exact(&mut notice));
    same(
        rt,
        &&notice[..7],
        &b"\xa7\x03\x00\x00\x00\x02\x18".as_slice(),
    );
    notice[7]
}

/// What two callers hear. One of them waits for a change that comes.
fn notices<R: Net + Abort>(rt: &R, control: &str) -> [u8; 4] {
    let under_w = asked_over(rt, control, UNDER_W);
    let first = heard(rt, &under_w);
    let under_x = asked_over(rt, control, UNDER_X);
    let second = heard(rt, &under_x);
    let third = heard(rt, &under_x);
    holds(rt, "the Put is done", put_is_done(rt, control));
    [first, second, third, heard(rt, &under_w)]
}

/// What a node says to an AskAges over a connection.
fn ages_over<K: Ledger>(alloc: Global, stream: &UnixStream, blank: Blank) -> Result<Message, Fault>
    requires name { blank.name ≡ K.name }
    requires parts { blank.parts ≡ K.parts }
    requires some { 0 < blank.parts }
{
    let mut connection = Connection::new(alloc, stream, stream, 9, Steps::<K>::new(blank));
    ask_control(&mut connection, &Message::AskAges)
}

/// How long ago the node heard owners.
fn ages_at<R: Net + Abort>(rt: &R, alloc: Global, control: &str) -> Ages {
    let stream = reach(rt, control);
    let answer = got(rt, ages_over::<Brand>(alloc, &stream, Blank::new(1)));
    match ages_in(answer) {
        Ok(ages) => ages,
        Err(_) => panic!(rt; "error: no ages"),
    }
}

/// Serves two rounds as b. In the first it waits for a change at the node, and in the second it asks for ages.
fn serve_and_wait<R: Net + Abort>(
    rt: &R,
    alloc: Global,
    listener: &UnixListener,
    paths: &Paths,
) -> ([u8; 4], Ages) {
    let mut of_b = node_with(rt, alloc, b"b", b"w");
    let first_stream = next_of(rt, listener);
    let found = notices(rt, paths.control);
    talk(rt, alloc, &mut of_b, &first_stream, None);
    let second_stream = next_of(rt, listener);
    let ages = ages_at(rt, alloc, paths.control);
    talk(rt, alloc, &mut of_b, &second_stream, None);
    (found, ages)
}

#[test]
fn callers_hear_of_changes_and_ages(rt: HostRuntime) {
    let paths = paths_of("wait.sock", "wait.control", &["wait.b"]);
    let alloc = rt.alloc();
    let listener = got(&rt, UnixListener::bind(&rt, "wait.b"));
    let (ran, (found, ages)) = thread::join(
        &rt,
        || run_a(&rt, alloc, &paths, pace(2, 0)),
        || serve_and_wait(&rt, alloc, &listener, &paths),
    );
    got(&rt, fs::remove_file(&rt, "wait.b"));
    same(&rt, &got(&rt, ran).rounds, &2);
    same(&rt, &found, &[1, 1, 3, 2]);
    let owners = match ages.list() {
        [first, second] => [first.owner, second.owner],
        _ => [name(&rt, b"none"); 2],
    };
    same(&rt, &owners, &[name(&rt, b"a"), name(&rt, b"b")]);
}

/// Serves a round as b, once a beat was heard at the node.
fn serve_after_a_beat<R: Net + Abort>(
    rt: &R,
    alloc: Global,
    listener: &UnixListener,
    paths: &Paths,
) -> [u8; 2] {
    let mut of_b = node_with(rt, alloc, b"b", b"w");
    let stream = next_of(rt, listener);
    let under_b = asked_over(rt, paths.control, UNDER_B);
    let found = [heard(rt, &under_b), heard(rt, &under_b)];
    talk(rt, alloc, &mut of_b, &stream, None);
    found
}

/// Runs the node a, which beats each millisecond.
fn run_beating<R: Host + Net<Listener = TcpListener, Stream = TcpStream>>(
    rt: &R,
    alloc: Global,
    paths: &Paths,
) -> Result<Ran, Fault> {
    let beat = Beat {
        pause: 1,
        key: key(rt, b"beat"),
    };
    let config = NodeConfig {
        settings: settings(rt, 3),
        paths: *paths,
        pace: pace(1, 0),
        beat: Some(beat),
        forgotten: &[],
    };
    run_node(rt, alloc, config, new_log(rt, alloc, b"a"), &Nobody)
}

#[test]
fn a_node_beats(rt: HostRuntime) {
    let paths = paths_of("beat.sock", "beat.control", &["beat.b"]);
    let alloc = rt.alloc();
    let listener = got(&rt, UnixListener::bind(&rt, "beat.b"));
    let (ran, found) = thread::join(
        &rt,
        || run_beating(&rt, alloc, &paths),
        || serve_after_a_beat(&rt, alloc, &listener, &paths),
    );
    got(&rt, fs::remove_file(&rt, "beat.b"));
    same(&rt, &got(&rt, ran).rounds, &1);
    same(&rt, &found, &[1, 2]);
}
