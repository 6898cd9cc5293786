//! The status of a node: what it says, its figures, and its short texts.

use crate::{got, name, one, push, refusal, same, same_at};
use sb_codec::{AskStatus, Figure, FigureKind, Message, NodeIdentity, NodeStatus, PeerStatus};
use sb_types::{Fault, KIND_NODE_STATUS, ShortText};
use std::alloc::Global;
use std::process::Abort;

pub(crate) fn ask_status(after: u64) -> Message {
    Message::AskStatus(AskStatus::new(after))
}

fn short(rt: &impl Abort, text: &[u8]) -> ShortText {
    got(rt, ShortText::read(text))
}

/// The status of the node a of the cluster c1, which runs 0.3.0.
fn status_of(
    rt: &impl Abort,
    more: bool,
    figures: Vec<Figure>,
    peers: Vec<PeerStatus>,
) -> NodeStatus {
    let identity = NodeIdentity {
        node: name(rt, b"a"),
        cluster: name(rt, b"c1"),
        release: short(rt, b"0.3.0"),
    };
    got(rt, NodeStatus::new(more, identity, figures, peers))
}

/// The status of `NODE_STATUS`.
pub(crate) fn one_status(rt: &impl Abort, alloc: Global) -> NodeStatus {
    let mut figures = one(rt, alloc, Figure::new(FigureKind::CaughtUp, 1));
    push(rt, &mut figures, Figure::new(FigureKind::Keys, 3));
    let peer = PeerStatus {
        path: short(rt, b"b.sock"),
        state: 1,
        round: 4,
    };
    status_of(rt, false, figures, one(rt, alloc, peer))
}

/// What a status says: whether more peers follow, three of its figures, its length, and its first peer.
fn status_parts(status: &NodeStatus) -> (bool, [Option<u64>; 3], u64, Option<(u8, u64)>) {
    let figures = [
        status.figure(FigureKind::CaughtUp),
        status.figure(FigureKind::Keys),
        status.figure(FigureKind::Owners),
    ];
    let peer = match status.peers().first() {
        Some(peer) => Some((peer.state, peer.round)),
        None => None,
    };
    (status.more(), figures, status.encoded_length(), peer)
}

#[test]
fn what_a_status_says(rt: HostRuntime) {
    let alloc = rt.alloc();
    let status = one_status(&rt, alloc);
    let wanted = (false, [Some(1), Some(3), None], 51, Some((1, 4)));
    same(&rt, &status_parts(&status), &wanted);
    same(&rt, &status.identity().node, &name(&rt, b"a"));
    same(&rt, &status.identity().cluster, &name(&rt, b"c1"));
    same(&rt, &status.identity().release, &short(&rt, b"0.3.0"));
    let empty = status_of(&rt, true, Vec::new(alloc), Vec::new(alloc));
    same(&rt, &status_parts(&empty), &(true, [None; 3], 17, None));
}

fn figure(number: u8) -> Figure {
    Figure { number, value: 0 }
}

/// Asserts that a status whose figures have these numbers is refused.
fn assert_no_status(rt: &impl Abort, alloc: Global, numbers: [u8; 2]) {
    let [first, second] = numbers;
    let mut figures = one(rt, alloc, figure(first));
    push(rt, &mut figures, figure(second));
    let identity = *one_status(rt, alloc).identity();
    let made = NodeStatus::new(false, identity, figures, Vec::new(alloc));
    same_at(
        rt,
        &numbers,
        &refusal(rt, made),
        &Some(Fault::Malformed(KIND_NODE_STATUS)),
    );
}

#[test]
fn figures_ascend(rt: HostRuntime) {
    assert_no_status(&rt, rt.alloc(), [0, 1]);
    assert_no_status(&rt, rt.alloc(), [2, 2]);
    assert_no_status(&rt, rt.alloc(), [3, 2]);
}

/// Asserts the number and the word of a kind of figure.
fn assert_figure(rt: &impl Abort, kind: FigureKind, number: u8, word: &str) {
    same_at(rt, &word, &(kind.number(), kind.word()), &(number, word));
    same_at(rt, &word, &FigureKind::of_number(number), &Some(kind));
    same_at(rt, &word, &Figure::new(kind, 9).kind(), &Some(kind));
}

#[test]
fn figures_have_numbers_and_words(rt: HostRuntime) {
    assert_figure(&rt, FigureKind::Uptime, 1, "uptime");
    assert_figure(&rt, FigureKind::CaughtUp, 2, "caught_up");
    assert_figure(&rt, FigureKind::LogFault, 3, "log_fault");
    assert_figure(&rt, FigureKind::Conflict, 4, "conflict");
    assert_figure(&rt, FigureKind::Version, 5, "version");
    assert_figure(&rt, FigureKind::Keys, 6, "keys");
    assert_figure(&rt, FigureKind::Removals, 7, "removals");
    assert_figure(&rt, FigureKind::Owners, 8, "owners");
    assert_figure(&rt, FigureKind::Peers, 9, "peers");
    assert_figure(&rt, FigureKind::Rounds, 10, "rounds");
    assert_figure(&rt, FigureKind::RoundFaults, 11, "round_faults");
    assert_figure(&rt, FigureKind::Sessions, 12, "sessions");
}

#[test]
fn figures_of_troubles_have_numbers_and_words(rt: HostRuntime) {
    assert_figure(&rt, FigureKind::Workers, 13, "workers");
    assert_figure(&rt, FigureKind::WorkersBusy, 14, "workers_busy");
    assert_figure(&rt, FigureKind::AllWorkersBusy, 15, "all_workers_busy");
    assert_figure(&rt, FigureKind::SessionFaults, 16, "session_faults");
    assert_figure(&rt, FigureKind::LastSessionFault, 17, "last_session_fault");
    assert_figure(&rt, FigureKind::OtherVersions, 18, "other_versions");
    assert_figure(&rt, FigureKind::TurnedAway, 19, "turned_away");
    assert_figure(&rt, FigureKind::FullWrites, 20, "full_writes");
    same(&rt, &FigureKind::of_number(0), &None);
    same(&rt, &FigureKind::of_number(21), &None);
}

/// Whether a text is read as a short text with its bytes.
fn is_read_as_short(text: &[u8]) -> Result<bool, Fault> {
    Ok(ShortText::read(text)?.bytes() == text)
}

#[test]
fn short_texts_are_utf8_within_their_limits(rt: HostRuntime) {
    same(&rt, &is_read_as_short(b"/run/a b.sock"), &Ok(true));
    same(&rt, &is_read_as_short(b"h\xc3\xa9"), &Ok(true));
    same(&rt, &is_read_as_short(&[b'h'; 128]), &Ok(true));
    same(&rt, &is_read_as_short(b""), &Err(Fault::BadValue));
    same(&rt, &is_read_as_short(b"h\xc3"), &Err(Fault::BadValue));
    same(&rt, &is_read_as_short(&[b'h'; 129]), &Err(Fault::BadValue));
}
