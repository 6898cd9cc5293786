//! The examples in the docs of the running node, and of its control socket.
ghost use Rattle.std.specs.Prelude.{◌≡◌, ◌<◌};

use crate::making::{name, new_log, settings};
use crate::running::{pace, paths_of, ran_of};
use crate::{got, same};
use sb_codec::{AskStatus, Message};
use sb_control::ask_control;
use sb_frames::{Connection, Steps};
use sb_log::{PlainLog, WriteLog};
use sb_run::{Nobody, NodeConfig, Observer, Pace, Paths, PeerState, Ran, Runtime, run_node};
use sb_testing::wire::DONE;
use sb_types::{Fault, KIND_DONE, Name, Settings};
use std::alloc::Global;
use std::io::{Read, Write};
use std::marker::Brand;
use std::net::{Net, TcpListener, TcpStream};
use std::process::Abort;
use std::sync::atomic::{AtomicBool, Ordering};
use std::sync::ledger::{Blank, Ledger};

/// Runs the node of this name over a log in memory, until it has made its rounds.
fn run_in_memory<R: Runtime + Net<Listener = TcpListener, Stream = TcpStream>>(
    rt: &R,
    alloc: Global,
    name: Name,
    settings: Settings,
    paths: &Paths,
    pace: Pace,
) -> Result<Ran, Fault> {
    let log = PlainLog::new(alloc, name, settings.cluster(), settings.max_version());
    let config = NodeConfig {
        settings,
        paths: *paths,
        pace,
        beat: None,
        forgotten: &[],
    };
    run_node(rt, alloc, config, log, &Nobody)
}

#[test]
fn example_of_sb_run(rt: HostRuntime) {
    let paths = paths_of("example.sock", "example.control", &[]);
    let ran = run_in_memory(
        &rt,
        rt.alloc(),
        name(&rt, b"a"),
        settings(&rt, 3),
        &paths,
        pace(2, 0),
    );
    let whole = ran_of(2, 0, 0);
    same(&rt, &got(&rt, ran), &whole);
}

/// Notes that a node listens.
#[derive(Drop)]
struct Listening {
    is_noted: AtomicBool,
}

impl Observer for Listening {
    fn listening(&self) {
        self.is_noted.store(true, Ordering::SeqCst);
    }

    fn dialed(&self, _peer: &str, _state: PeerState) {}

    fn conflict(&self, _version: u64) {}
}

/// Runs the node of a log until it has made its rounds, and gives whether it listened.
fn run_and_note<R: Runtime + Net<Listener = TcpListener, Stream = TcpStream>, L: WriteLog + Drop>(
    rt: &R,
    alloc: Global,
    settings: Settings,
    paths: &Paths,
    pace: Pace,
    log: L,
) -> Result<bool, Fault> {
    let observer = Listening {
        is_noted: AtomicBool::new(false),
    };
    let config = NodeConfig {
        settings,
        paths: *paths,
        pace,
        beat: None,
        forgotten: &[],
    };
    match run_node(rt, alloc, config, log, &observer) {
        Ok(_) => Ok(observer.is_noted.load(Ordering::SeqCst)),
        Err(fault) => Err(fault),
    }
}

#[test]
fn example_of_an_observer(rt: HostRuntime) {
    let paths = paths_of("observed.sock", "observed.control", &[]);
    let log = new_log(&rt, rt.alloc(), b"a");
    let listened = run_and_note(&rt, rt.alloc(), settings(&rt, 3), &paths, pace(1, 0), log);
    same(&rt, &got(&rt, listened), &true);
}

/// A request for the first page of a status.
const FIRST_STATUS: &[u8] = b"\xa7\x03\x00\x00\x00\x09\x15\x00\x00\x00\x00\x00\x00\x00\x00";

/// Asks the node at the other end of a connection for the first page of its status.
fn status_over<R: Read, W: Write, K: Ledger>(
    connection: &mut Connection<R, W, K>,
) -> Result<Message, Fault> {
    ask_control(connection, &Message::AskStatus(AskStatus::new(0)))
}

/// What comes of a request over a reader and a writer, in so many reads.
fn ask_on<K: Ledger, R: Read, W: Write>(
    alloc: Global,
    reader: &mut R,
    writer: &mut W,
    max_reads: u64,
    blank: Blank,
) -> Result<Message, Fault>
    requires name { blank.name ≡ K.name }
    requires parts { blank.parts ≡ K.parts }
    requires some { 0 < blank.parts }
{
    let steps = Steps::<K>::new(blank);
    let mut connection = Connection::new(alloc, reader, writer, max_reads, steps);
    status_over(&mut connection)
}

/// The answer to a question for the first page of a status.
pub(crate) fn first_status<R: Read, W: Write>(
    alloc: Global,
    reader: &mut R,
    writer: &mut W,
    max_reads: u64,
) -> Result<Message, Fault> {
    ask_on::<Brand, R, W>(alloc, reader, writer, max_reads, Blank::new(1))
}

/// Tests that this frame is sent, and that the answer is the Done that a reader holds.
fn sends_and_hears(rt: &impl Abort, alloc: Global, held: &[u8], frame: &[u8]) {
    let (mut reader, mut sent) = (held, Vec::new(alloc));
    let answer = got(rt, first_status(alloc, &mut reader, &mut sent, 1));
    same(rt, &sent.as_slice(), &frame);
    same(rt, &answer.kind(), &KIND_DONE);
}

#[test]
fn example_of_sb_control(rt: HostRuntime) {
    sends_and_hears(&rt, rt.alloc(), &DONE, FIRST_STATUS);
}
