//! The page of a node's status that answers a question.
ghost use Rattle.std.specs.Prelude.{◌≡◌, ◌≤◌, length, take, drop};
ghost use Rattle.sb_types.specs.Faults.{Gives};
ghost use Rattle.sb_query.specs.Statuses as spec;

use sb_codec::{Figure, FigureKind, NodeIdentity, NodeStatus, PeerStatus};
use sb_types::{Fault, HEADER_LENGTH};
use std::alloc::Global;

/// How many peers from the first on take no more than this room.
fn count_fitting(room: u64, peers: &[PeerStatus]) -> usize
    ensures run { take result peers.now ≡ spec.fitting room peers.now }
    ensures within { result ≤ length peers.now }
{
    let mut left = room;
    let mut count: usize = 0;
    for peer in peers {
        let Some(rest) = left.checked_sub(peer.encoded_length()) else {
            return count;
        };
        left = rest;
        count += 1;
    }
    count
}

/// The room for peers in a frame within the budget.
fn room_for_peers(budget: u64, identity: &NodeIdentity, figures: &[Figure]) -> u64
    ensures { result ≡ spec.room_for_peers budget identity.now figures.now }
{
    match NodeStatus::head_length(identity, figures) {
        Some(head) => budget.saturating_sub(HEADER_LENGTH + head),
        None => 0,
    }
}

/// The peers after the first `after`.
fn peers_after(peers: &[PeerStatus], after: u64) -> &[PeerStatus]
    ensures { result.now ≡ drop after peers.now }
{
    if after < peers.len() as u64 {
        &peers[after as usize..]
    } else {
        &[]
    }
}

/// Returns the page of a node's status that answers an AskStatus for the peers after the first `after`. It has all figures,
/// and as many of these peers as fit a frame of at most `budget` bytes, and says whether more follow. `NoMemory`;
/// `Malformed(KIND_NODE_STATUS)` if the figures make no status, as in `NodeStatus::new`.
pub fn status_page(
    alloc: Global,
    identity: NodeIdentity,
    figures: Vec<Figure>,
    peers: &[PeerStatus],
    after: u64,
    budget: u64,
) -> Result<NodeStatus, Fault>
    ensures exact { Gives result (spec.if_status (spec.status_page identity figures.items peers.now after budget)) }
{
    let room = room_for_peers(budget, &identity, &figures);
    let asked = peers_after(peers, after);
    let count = count_fitting(room, asked);
    let run = Vec::from_slice(alloc, &asked[..count])?;
    NodeStatus::new(count < asked.len(), identity, figures, run)
}

/// Returns whether a node is ready: it is caught up, its log takes writes, and it saw no other node write under its
/// name. If the status lacks one of these figures, the node is not ready.
pub fn is_ready(status: &NodeStatus) -> bool
    ensures { result ≡ spec.is_ready status.now.figures }
{
    status.figure(FigureKind::CaughtUp) == Some(1)
        && status.figure(FigureKind::LogFault) == Some(0)
        && status.figure(FigureKind::Conflict) == Some(0)
}
