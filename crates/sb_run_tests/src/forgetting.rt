//! A node that forgets an owner takes no rows of it, and reports once that a peer still has some.

use crate::making::{name, new_log, settings};
use crate::running::{pace, paths_of};
use crate::telling::{StatusParts, parts_of, write_and_play};
use crate::{got, holds, same};
use sb_run::{NodeConfig, Observer, Paths, PeerState, Ran, Runtime, Status, run_node};
use sb_types::{Fault, Name};
use std::alloc::Global;
use std::net::{Net, TcpListener, TcpStream};
use std::os::unix::net::UnixListener;
use std::process::Abort;
use std::sync::atomic::{AtomicU64, Ordering};
use std::sync::{Mutex, Wait};
use std::{fs, thread};

/// Counts how often each owner is reported, and keeps what is shown after the round of this number.
#[derive(Drop)]
struct Noter<'a, R> {
    rt: &'a R,
    behind: u64,
    of_b: AtomicU64,
    of_others: AtomicU64,
    shown: Mutex<Option<StatusParts>>,
}

impl<R: Wait + Abort> Observer for Noter<'_, R> {
    fn listening(&self) {}

    fn dialed(&self, _peer: &str, _state: PeerState) {}

    fn conflict(&self, _version: u64) {}

    fn forgotten_met(&self, owner: &Name) {
        let count = if owner.bytes() == b"b".as_slice() {
            &self.of_b
        } else {
            &self.of_others
        };
        count.fetch_add(1, Ordering::SeqCst);
    }

    fn wants_status(&self) -> bool {
        true
    }

    fn status(&self, status: &Status<'_>) {
        if status.rounds == self.behind {
            let mut shown = self.shown.lock(self.rt);
            *shown = Some(parts_of(self.rt, status));
        }
    }
}

fn new_noter<R>(rt: &R, behind: u64) -> Noter<'_, R> {
    Noter {
        rt,
        behind,
        of_b: AtomicU64::new(0),
        of_others: AtomicU64::new(0),
        shown: Mutex::new(None),
    }
}

/// Runs the node a for three rounds. It is to forget b, an owner that nobody has, and itself.
fn run_forgetting<R: Runtime + Abort + Net<Listener = TcpListener, Stream = TcpStream>>(
    rt: &R,
    alloc: Global,
    paths: &Paths,
    noter: &Noter<'_, R>,
) -> Result<Ran, Fault> {
    let forgotten = [name(rt, b"b"), name(rt, b"nobody"), name(rt, b"a")];
    let config = NodeConfig {
        settings: settings(rt, 3),
        paths: *paths,
        pace: pace(3, 0),
        beat: None,
        forgotten: &forgotten,
    };
    run_node(rt, alloc, config, new_log(rt, alloc, b"a"), noter)
}

// a writes, takes the write of c, and not that of b, which is told of a and of c.
#[test]
fn a_node_forgets_an_owner(rt: HostRuntime) {
    let paths = paths_of(
        "forget.sock",
        "forget.control",
        &["forget.nobody", "forget.b"],
    );
    let alloc = rt.alloc();
    let noter = new_noter(&rt, 2);
    let listener = got(&rt, UnixListener::bind(&rt, "forget.b"));
    let (ran, played) = thread::join(
        &rt,
        || run_forgetting(&rt, alloc, &paths, &noter),
        || write_and_play(&rt, alloc, &listener, &paths),
    );
    got(&rt, fs::remove_file(&rt, "forget.b"));
    holds(&rt, "b, c and the owner were served", played);
    same(&rt, &got(&rt, ran).rounds, &3);
    same(&rt, &noter.of_b.load(Ordering::SeqCst), &1);
    same(&rt, &noter.of_others.load(Ordering::SeqCst), &0);
    let shown = *noter.shown.lock(&rt);
    same(&rt, &shown, &Some((2, [1, 0, 1])));
}
