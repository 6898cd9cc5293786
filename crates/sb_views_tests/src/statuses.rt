//! Pages of a node's status.
use crate::{got, same};
use sb_codec::{Figure, FigureKind, Message, NodeIdentity, NodeStatus, PeerStatus, length};
use sb_query::{NoAnswer, status_in, status_page};
use sb_types::{BUDGET_LEAST, Fault, KIND_DONE, KIND_NODE_STATUS, Name, ShortText};
use std::alloc::Global;
use std::process::Abort;

/// The node a of the cluster c1, which runs 0.3.0.
fn identity(rt: &impl Abort) -> NodeIdentity {
    NodeIdentity {
        node: got(rt, Name::read(b"a")),
        cluster: got(rt, Name::read(b"c1")),
        release: got(rt, ShortText::read(b"0.3.0")),
    }
}

/// So many peers, each with a path of 100 bytes, which take 110 bytes each.
fn peers(rt: &impl Abort, alloc: Global, count: u64) -> Vec<PeerStatus> {
    let mut peers = Vec::new(alloc);
    for round in 0..count {
        let path = got(rt, ShortText::read(&[b'p'; 100]));
        let state = 1;
        got(rt, peers.push(PeerStatus { path, state, round }));
    }
    peers
}

/// Whether more peers follow after a page, how many it has, the round of its first, and the length of its frame.
type Page = (bool, usize, Option<u64>, u32);

/// The page for the peers after the first `after` of so many, if the figures are these.
fn page(
    rt: &impl Abort,
    alloc: Global,
    figures: Vec<Figure>,
    count: u64,
    after: u64,
) -> Result<Page, Fault> {
    let all = peers(rt, alloc, count);
    let status = status_page(alloc, identity(rt), figures, &all, after, BUDGET_LEAST)?;
    let (more, found) = (status.more(), status.peers().len());
    let first = match status.peers().first() {
        Some(peer) => Some(peer.round),
        None => None,
    };
    Ok((more, found, first, length(&Message::NodeStatus(status))))
}

/// One figure, which takes 9 bytes.
fn one_figure(rt: &impl Abort, alloc: Global) -> Vec<Figure> {
    got(rt, vec![in alloc; Figure::new(FigureKind::CaughtUp, 1)])
}

/// Asserts a page of a status with one figure. Its frame takes 32 bytes and 110 for each peer: 9 peers take 1,022.
fn assert_page(rt: &impl Abort, alloc: Global, asked: (u64, u64), wanted: Page) {
    let (count, after) = asked;
    let found = got(rt, page(rt, alloc, one_figure(rt, alloc), count, after));
    same(rt, &found, &wanted);
}

#[test]
fn pages_of_a_status_fit_the_budget(rt: HostRuntime) {
    let alloc = rt.alloc();
    assert_page(&rt, alloc, (0, 0), (false, 0, None, 32));
    assert_page(&rt, alloc, (9, 0), (false, 9, Some(0), 1_022));
    assert_page(&rt, alloc, (10, 0), (true, 9, Some(0), 1_022));
    assert_page(&rt, alloc, (10, 9), (false, 1, Some(9), 142));
    assert_page(&rt, alloc, (10, 10), (false, 0, None, 32));
    assert_page(&rt, alloc, (10, u64::MAX), (false, 0, None, 32));
}

#[test]
fn figures_of_a_page_ascend(rt: HostRuntime) {
    let alloc = rt.alloc();
    let mut figures = one_figure(&rt, alloc);
    got(&rt, figures.push(Figure::new(FigureKind::Uptime, 1)));
    let found = page(&rt, alloc, figures, 1, 0).err();
    same(&rt, &found, &Some(Fault::Malformed(KIND_NODE_STATUS)));
}

/// How many peers the status in a message has, or the kind of another message.
fn peers_in(message: Message) -> Result<usize, u8> {
    match status_in(message) {
        Ok(status) => Ok(status.peers().len()),
        Err(NoAnswer::OtherKind(kind)) => Err(kind),
        Err(NoAnswer::Refused(fault)) => Err(fault.number()),
    }
}

#[test]
fn a_status_is_told_by_a_node_status_alone(rt: HostRuntime) {
    let alloc = rt.alloc();
    let none = Vec::new(alloc);
    let status = got(
        &rt,
        NodeStatus::new(true, identity(&rt), none, peers(&rt, alloc, 2)),
    );
    same(&rt, &peers_in(Message::NodeStatus(status)), &Ok(2));
    let done = got(&rt, sb_codec::Done::new(1));
    same(&rt, &peers_in(Message::Done(done)), &Err(KIND_DONE));
    let refused = got(&rt, sb_codec::Refused::new(13));
    same(&rt, &peers_in(Message::Refused(refused)), &Err(13));
}
