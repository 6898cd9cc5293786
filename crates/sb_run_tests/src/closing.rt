//! A node whose log takes no more writes: it is closed when the node starts, or its file is lost.
use crate::making::{name, new_log, settings};
use crate::peers::{next_of, reach, serve_as_b};
use crate::running::{Host, is_there, pace, paths_of};
use crate::starting::log_of_two;
use crate::{got, same};
use sb_control::{LogCause, LogLoss};
use sb_log::{Committed, StoreCause, WriteLog};
use sb_run::{
    NodeConfig, Observer, OnLogFault, Pace, Paths, PeerState, Ran, run_closed_node, run_node,
};
use sb_table::Table;
use sb_testing::wire::PUT;
use sb_types::{Fault, Key, Name, Slot};
use std::alloc::Global;
use std::io::{Read, Write};
use std::net::{Net, TcpListener, TcpStream};
use std::os::unix::net::UnixListener;
use std::process::Abort;
use std::sync::{Mutex, Wait};
use std::{fs, thread};

/// Refused, with fault 15.
const REFUSED_15: [u8; 8] = *b"\xa7\x03\x00\x00\x00\x02\x14\x0f";

/// A log of a whose disk was full when it was to be purged.
#[derive(Drop)]
struct FullDisk {
    owner: Name,
    cluster: Name,
}

impl WriteLog for FullDisk {
    ghost use Rattle.std.specs.Prelude.{◌≡◌, Some, [], false};
    ghost use Rattle.sb_table.specs.Plain.{plain_table};
    ghost use Rattle.sb_log.specs.declared.cause.StoreCause.TheVariants.{NoSpace};

    ghost seen = { λ l. record { owner = l.owner; cluster = l.cluster; most = 1; content = plain_table []; is_open = false; is_clean = false; is_sure = false } };

    ghost leaves = { λ l left. left ≡ plain_table [] };

    ghost why = { λ l. Some NoSpace };

    fn owner(&self) -> &Name {
        &self.owner
    }

    fn cluster(&self) -> &Name {
        &self.cluster
    }

    fn cause(&self) -> Option<StoreCause> {
        Some(StoreCause::NoSpace)
    }

    fn put(&mut self, _key: &Key, _slot: &Slot) -> Result<Committed, Fault> {
        Err(Fault::Closed)
    }

    fn purge(&mut self, _floor: u64) -> Result<(), Fault> {
        Err(Fault::Closed)
    }

    fn load(&mut self, _alloc: Global) -> Result<Table, Fault> {
        Err(Fault::Closed)
    }

    fn close(self) -> Result<(), Fault> {
        Ok(())
    }
}

/// Keeps each cause that the node reports, and says how the file of its log was lost.
#[derive(Drop)]
struct Witness<'a, R> {
    rt: &'a R,
    loss: Option<LogLoss>,
    causes: Mutex<Vec<LogCause>>,
}

impl<R: Wait + Abort> Observer for Witness<'_, R> {
    fn listening(&self) {}

    fn dialed(&self, _peer: &str, _state: PeerState) {}

    fn conflict(&self, _version: u64) {}

    fn log_failed(&self, cause: LogCause) {
        let mut causes = self.causes.lock(self.rt);
        got(self.rt, causes.push(cause));
    }

    fn log_loss(&self) -> Option<LogLoss> {
        self.loss
    }
}

fn new_witness<R>(rt: &R, alloc: Global, loss: Option<LogLoss>) -> Witness<'_, R> {
    Witness {
        rt,
        loss,
        causes: Mutex::new(Vec::new(alloc)),
    }
}

/// Tests that the node reported this cause once, and no other.
fn reported_once<R: Wait + Abort>(witness: &Witness<R>, cause: LogCause) {
    let causes = witness.causes.lock(witness.rt);
    same(witness.rt, &causes.as_slice(), &[cause].as_slice());
}

/// Runs the node a over a log that is closed, of which two writes were read before.
fn run_full_disk<R: Host + Net<Listener = TcpListener, Stream = TcpStream>>(
    rt: &R,
    alloc: Global,
    paths: &Paths,
    pace: Pace,
    witness: &Witness<'_, R>,
) -> Result<Ran, Fault> {
    let table = got(rt, log_of_two(rt, alloc).load(alloc));
    let log = FullDisk {
        owner: name(rt, b"a"),
        cluster: name(rt, b"c1"),
    };
    let config = NodeConfig {
        settings: settings(rt, 3),
        paths: *paths,
        pace,
        beat: None,
        forgotten: &[],
    };
    run_closed_node(rt, alloc, config, log, table, witness)
}

/// Runs the node a over an open log of two writes.
fn run_two<R: Host + Net<Listener = TcpListener, Stream = TcpStream>>(
    rt: &R,
    alloc: Global,
    paths: &Paths,
    pace: Pace,
    witness: &Witness<'_, R>,
) -> Result<Ran, Fault> {
    let config = NodeConfig {
        settings: settings(rt, 3),
        paths: *paths,
        pace,
        beat: None,
        forgotten: &[],
    };
    run_node(rt, alloc, config, log_of_two(rt, alloc), witness)
}

/// The answer to the owner's Put, of 8 bytes.
fn answer_to_put<R: Net + Abort>(rt: &R, control: &str) -> [u8; 8] {
    let mut stream = reach(rt, control);
    got(rt, stream.write_all(PUT));
    let mut answer = [0u8; 8];
    got(rt, stream.read_exact(&mut answer));
    answer
}

/// What two Puts of the owner are answered, and how far b, which is dialed, holds a then.
fn write_and_hear<R: Net + Abort>(
    rt: &R,
    alloc: Global,
    listener: &UnixListener,
    paths: &Paths,
) -> ([u8; 8], [u8; 8], u64) {
    let dialed = next_of(rt, listener);
    let first = answer_to_put(rt, paths.control);
    let second = answer_to_put(rt, paths.control);
    let (_, upto, _) = serve_as_b(rt, alloc, &dialed);
    (first, second, upto)
}

#[test]
fn a_node_over_a_closed_log_serves_its_peers_and_refuses_writes(rt: HostRuntime) {
    let paths = paths_of("shut.sock", "shut.control", &["shut.b"]);
    let alloc = rt.alloc();
    let witness = new_witness(&rt, alloc, None);
    let listener = got(&rt, UnixListener::bind(&rt, "shut.b"));
    let (ran, heard) = thread::join(
        &rt,
        || run_full_disk(&rt, alloc, &paths, pace(1, 0), &witness),
        || write_and_hear(&rt, alloc, &listener, &paths),
    );
    got(&rt, fs::remove_file(&rt, "shut.b"));
    same(&rt, &heard, &(REFUSED_15, REFUSED_15, 2));
    same(&rt, &got(&rt, ran).rounds, &1);
    reported_once(&witness, LogCause::Store(StoreCause::NoSpace));
}

#[test]
fn a_node_over_a_closed_log_ends_if_it_is_to_exit(rt: HostRuntime) {
    let paths = paths_of("gone.sock", "gone.control", &[]);
    let alloc = rt.alloc();
    let witness = new_witness(&rt, alloc, None);
    let mut pace = pace(0, 0);
    pace.on_log_fault = OnLogFault::Exit;
    let ran = run_full_disk(&rt, alloc, &paths, pace, &witness);
    same(&rt, &ran, &Err(Fault::StoreFailed));
    reported_once(&witness, LogCause::Store(StoreCause::NoSpace));
    let left = [is_there(&rt, paths.sock), is_there(&rt, paths.control)];
    same(&rt, &left, &[false, false]);
}

#[test]
fn a_node_whose_log_is_removed_refuses_writes(rt: HostRuntime) {
    let paths = paths_of("lost.sock", "lost.control", &["lost.b"]);
    let alloc = rt.alloc();
    let witness = new_witness(&rt, alloc, Some(LogLoss::Removed));
    let listener = got(&rt, UnixListener::bind(&rt, "lost.b"));
    let (ran, heard) = thread::join(
        &rt,
        || run_two(&rt, alloc, &paths, pace(1, 0), &witness),
        || write_and_hear(&rt, alloc, &listener, &paths),
    );
    got(&rt, fs::remove_file(&rt, "lost.b"));
    same(&rt, &heard, &(REFUSED_15, REFUSED_15, 2));
    same(&rt, &got(&rt, ran).rounds, &1);
    reported_once(&witness, LogCause::Lost(LogLoss::Removed));
}

/// The dialing thread finds it, since nobody writes.
#[test]
fn a_node_whose_log_is_replaced_ends_if_it_is_to_exit(rt: HostRuntime) {
    let paths = paths_of("other.sock", "other.control", &[]);
    let alloc = rt.alloc();
    let witness = new_witness(&rt, alloc, Some(LogLoss::Replaced));
    let mut pace = pace(0, 0);
    pace.on_log_fault = OnLogFault::Exit;
    let ran = run_two(&rt, alloc, &paths, pace, &witness);
    same(&rt, &ran, &Err(Fault::StoreFailed));
    reported_once(&witness, LogCause::Lost(LogLoss::Replaced));
}

/// An open log that is given to `run_closed_node` is read, and takes writes.
#[test]
fn an_open_log_is_no_closed_one(rt: HostRuntime) {
    let paths = paths_of("open.sock", "open.control", &[]);
    let alloc = rt.alloc();
    let witness = new_witness(&rt, alloc, None);
    let config = NodeConfig {
        settings: settings(&rt, 3),
        paths,
        pace: pace(1, 0),
        beat: None,
        forgotten: &[],
    };
    let log = new_log(&rt, alloc, b"a");
    let ran = run_closed_node(&rt, alloc, config, log, Table::new(alloc), &witness);
    same(&rt, &got(&rt, ran).faults, &0);
    same(&rt, &witness.causes.lock(&rt).len(), &0);
}

/// A closed log that is given to `run_node` is refused, and the node did not run before.
#[test]
fn a_closed_log_is_no_open_one(rt: HostRuntime) {
    let paths = paths_of("shut.sock", "shut.control", &[]);
    let alloc = rt.alloc();
    let witness = new_witness(&rt, alloc, None);
    let config = NodeConfig {
        settings: settings(&rt, 3),
        paths,
        pace: pace(1, 0),
        beat: None,
        forgotten: &[],
    };
    let log = FullDisk {
        owner: name(&rt, b"a"),
        cluster: name(&rt, b"c1"),
    };
    let ran = run_node(&rt, alloc, config, log, &witness);
    same(&rt, &ran, &Err(Fault::Closed));
    same(&rt, &witness.causes.lock(&rt).len(), &0);
}
