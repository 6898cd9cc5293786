//! What a running node answers if it is asked how it is.

use crate::examples::first_status;
use crate::making::name;
use crate::peers::{next_of, node_with, reach, talk};
use crate::running::{pace, paths_of, run_a};
use crate::{got, same};
use sb_codec::{FigureKind, NodeStatus};
use sb_query::status_in;
use sb_run::Paths;
use std::alloc::Global;
use std::net::Net;
use std::os::unix::net::UnixListener;
use std::process::Abort;
use std::{fs, thread};

/// How the node is, as it answers at its control socket.
fn status_of<R: Net + Abort>(rt: &R, alloc: Global, control: &str) -> NodeStatus {
    let stream = reach(rt, control);
    let (mut reader, mut writer) = (&stream, &stream);
    let answer = got(rt, first_status(alloc, &mut reader, &mut writer, 9));
    match status_in(answer) {
        Ok(status) => status,
        Err(_) => panic!(rt; "error: no status"),
    }
}

/// Whether the node is caught up, its rounds, its owners and its peers; and the state and the last round of its peer.
type Figures = ([Option<u64>; 4], Option<(u8, u64)>);

fn figures_of(status: &NodeStatus) -> Figures {
    let figures = [
        status.figure(FigureKind::CaughtUp),
        status.figure(FigureKind::Rounds),
        status.figure(FigureKind::Owners),
        status.figure(FigureKind::Peers),
    ];
    let peer = match status.peers().first() {
        Some(peer) => Some((peer.state, peer.round)),
        None => None,
    };
    (figures, peer)
}

/// Serves two rounds as b, and asks in each how the node is.
fn serve_and_ask<R: Net + Abort>(
    rt: &R,
    alloc: Global,
    listener: &UnixListener,
    paths: &Paths,
) -> [Figures; 2] {
    let mut of_b = node_with(rt, alloc, b"b", b"w");
    let first_stream = next_of(rt, listener);
    let first = status_of(rt, alloc, paths.control);
    talk(rt, alloc, &mut of_b, &first_stream, None);
    let second_stream = next_of(rt, listener);
    let second = status_of(rt, alloc, paths.control);
    talk(rt, alloc, &mut of_b, &second_stream, None);
    same(rt, &second.identity().node, &name(rt, b"a"));
    same(rt, &second.identity().cluster, &name(rt, b"c1"));
    same(rt, &second.identity().release.bytes(), &b"-".as_slice());
    [figures_of(&first), figures_of(&second)]
}

#[test]
fn a_node_answers_how_it_is(rt: HostRuntime) {
    let paths = paths_of("how.sock", "how.control", &["how.b"]);
    let alloc = rt.alloc();
    let listener = got(&rt, UnixListener::bind(&rt, "how.b"));
    let (ran, found) = thread::join(
        &rt,
        || run_a(&rt, alloc, &paths, pace(2, 0)),
        || serve_and_ask(&rt, alloc, &listener, &paths),
    );
    got(&rt, fs::remove_file(&rt, "how.b"));
    same(&rt, &got(&rt, ran).rounds, &2);
    let before = ([Some(0), Some(0), Some(1), Some(1)], Some((0, 0)));
    let since = ([Some(1), Some(1), Some(2), Some(1)], Some((1, 1)));
    same(&rt, &found, &[before, since]);
}
