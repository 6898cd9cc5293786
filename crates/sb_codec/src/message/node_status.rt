//! How a node is.

ghost use Rattle.std.specs.Prelude.{◌≡◌, ◌≤◌, ◌+◌, [], nat_le, true, if◌then◌else◌, Some, None, OnSome, Ok, Err, sum_by};
ghost use Rattle.std.specs.List.{list_all};
ghost use Rattle.sb_codec.specs.Records.{status_of};
ghost use Rattle.sb_codec.specs.Figures.{number_of, value_at};
ghost use Rattle.sb_codec.specs.Lengths.{identity_length, figures_length, peer_length, status_length};
ghost use Rattle.sb_codec.specs.Limits.{is_figure, are_figures_above, is_peer, is_identity, are_status_parts, is_status};

use crate::message::{Figure, FigureKind, NodeIdentity, PeerStatus};
use sb_types::{
    BYTE_LENGTH, COUNT_LENGTH, Fault, KIND_NODE_STATUS, NAME_LENGTH_MOST, PAYLOAD_MOST,
    SHORT_TEXT_LENGTH_MOST,
};
use std::marker::Model;

/// The most bytes of the two names and the release of a node.
const IDENTITY_LENGTH_MOST: u64 = NAME_LENGTH_MOST + NAME_LENGTH_MOST + SHORT_TEXT_LENGTH_MOST;

/// How a node is: which it is, its figures in ascending order of their numbers, and some of its peers, in its own order.
/// `more` says whether more peers follow. The payload has at most 65,530 bytes.
#[derive(Debug, Drop)]
pub struct NodeStatus {
    more: bool,
    identity: NodeIdentity,
    figures: Vec<Figure>,
    peers: Vec<PeerStatus>,
    /// How many bytes the payload takes.
    length: u64,
}

impl Model for NodeStatus {
    ghost use Rattle.std.specs.Prelude.{◌≡◌, true};
    ghost use Rattle.sb_codec.specs.Records as records;

    ghost Value = { records.NodeStatus };

    ghost use Rattle.sb_codec.specs.Records.{status_of};
    ghost use Rattle.sb_codec.specs.Lengths.{status_length};
    ghost use Rattle.sb_codec.specs.Limits.{is_status};

    ghost view = { λ s. status_of s.more s.identity s.figures.items s.peers.items };

    ghost invariant = { λ s. (is_status (status_of s.more s.identity s.figures.items s.peers.items) ≡ true) × (s.length ≡ status_length (status_of s.more s.identity s.figures.items s.peers.items)) };
}

/// Returns whether the numbers of the figures are ascending, from 1 on.
fn are_figures_ascending(figures: &[Figure]) -> bool
    ensures { result ≡ are_figures_above 0 figures.now }
{
    let mut last: u8 = 0;
    for figure in figures {
        if figure.number <= last {
            return false;
        }
        last = figure.number;
    }
    true
}

/// Returns how many bytes the names and the release of a node take.
fn length_of_identity(identity: &NodeIdentity) -> u64
    ensures length { result ≡ identity_length identity.now }
    ensures most { result ≤ IDENTITY_LENGTH_MOST }
    ensures identity { is_identity identity.now ≡ true }
{
    let node_length = BYTE_LENGTH + identity.node.bytes().len() as u64;
    let cluster_length = BYTE_LENGTH + identity.cluster.bytes().len() as u64;
    node_length + cluster_length + BYTE_LENGTH + identity.release.bytes().len() as u64
}

/// Returns how many bytes `head` and these figures take together, if that is within the limit of a payload.
fn length_with_figures(head: u64, figures: &[Figure]) -> Option<u64>
    requires { head ≤ PAYLOAD_MOST }
    ensures length { result ≡ (let total = head + figures_length figures.now in if nat_le total PAYLOAD_MOST then Some total else None) }
    ensures each { OnSome result (list_all is_figure figures.now ≡ true) }
{
    let mut length = head;
    for figure in figures {
        length += figure.encoded_length();
        if length > PAYLOAD_MOST {
            return None;
        }
    }
    Some(length)
}

/// Returns how many bytes `head` and these peers take together, if that is within the limit of a payload.
fn length_with_peers(head: u64, peers: &[PeerStatus]) -> Option<u64>
    requires { head ≤ PAYLOAD_MOST }
    ensures length { result ≡ (let total = head + sum_by peer_length peers.now in if nat_le total PAYLOAD_MOST then Some total else None) }
    ensures each { OnSome result (list_all is_peer peers.now ≡ true) }
{
    let mut length = head;
    for peer in peers {
        length += peer.encoded_length();
        if length > PAYLOAD_MOST {
            return None;
        }
    }
    Some(length)
}

/// Returns how many bytes the payload of these parts takes, if that is within its limit.
fn length_within(identity: &NodeIdentity, figures: &[Figure], peers: &[PeerStatus]) -> Option<u64>
    ensures length { result ≡ (let total = status_length (status_of true identity.now figures.now peers.now) in if nat_le total PAYLOAD_MOST then Some total else None) }
    ensures each { OnSome result ((is_identity identity.now ≡ true) × (list_all is_figure figures.now ≡ true) × (list_all is_peer peers.now ≡ true)) }
{
    let head = NodeStatus::head_length(identity, figures)?;
    length_with_peers(head, peers)
}

/// Returns the value of the figure of this number, if there is one.
fn value_of(figures: &[Figure], number: u8) -> Option<u64>
    ensures { result ≡ value_at number figures.now }
{
    for figure in figures {
        if figure.number == number {
            return Some(figure.value);
        }
    }
    None
}

impl NodeStatus {
    /// Returns how many bytes of a payload a status of these parts takes before its peers, if that is within the limit of a
    /// payload.
    pub fn head_length(identity: &NodeIdentity, figures: &[Figure]) -> Option<u64>
        ensures length { result ≡ (let head = status_length (status_of true identity.now figures.now []) in if nat_le head PAYLOAD_MOST then Some head else None) }
        ensures each { OnSome result ((is_identity identity.now ≡ true) × (list_all is_figure figures.now ≡ true)) }
    {
        let counts = COUNT_LENGTH + COUNT_LENGTH;
        let names = BYTE_LENGTH + BYTE_LENGTH + counts + length_of_identity(identity);
        length_with_figures(names, figures)
    }

    /// Makes the status of these parts. It takes no memory. If a limit is broken, it drops the parts and returns
    /// `Malformed(KIND_NODE_STATUS)`:
    ///
    /// - the number of a figure is not above that of the figure before it, or is 0;
    /// - the payload would have more than 65,530 bytes.
    pub fn new(
        more: bool,
        identity: NodeIdentity,
        figures: Vec<Figure>,
        peers: Vec<PeerStatus>,
    ) -> Result<NodeStatus, Fault>
        ensures { result ≡ (let status = status_of more identity figures.items peers.items in if are_status_parts status then Ok status else Err (Fault.Malformed KIND_NODE_STATUS)) }
    {
        if !are_figures_ascending(&figures) {
            return Err(Fault::Malformed(KIND_NODE_STATUS));
        }
        let Some(length) = length_within(&identity, &figures, &peers) else {
            return Err(Fault::Malformed(KIND_NODE_STATUS));
        };
        Ok(NodeStatus {
            more,
            identity,
            figures,
            peers,
            length,
        })
    }

    /// Returns whether more peers follow after these.
    pub fn more(&self) -> bool
        ensures more { result ≡ self.now.more }
        ensures status { is_status self.now ≡ true }
    {
        self.more
    }

    /// Returns which node it is.
    pub fn identity(&self) -> &NodeIdentity
        ensures identity { result.now ≡ self.now.identity }
        ensures status { is_status self.now ≡ true }
    {
        &self.identity
    }

    /// Returns the figures, in ascending order of their numbers.
    pub fn figures(&self) -> &[Figure]
        ensures figures { result.now ≡ self.now.figures }
        ensures status { is_status self.now ≡ true }
    {
        &self.figures
    }

    /// Returns the value of the figure of this kind, and `None` if the node tells none.
    pub fn figure(&self, kind: FigureKind) -> Option<u64>
        ensures { result ≡ value_at (number_of kind) self.now.figures }
    {
        value_of(&self.figures, kind.number())
    }

    /// Returns the peers, in the order of the node.
    pub fn peers(&self) -> &[PeerStatus]
        ensures peers { result.now ≡ self.now.peers }
        ensures status { is_status self.now ≡ true }
    {
        &self.peers
    }

    /// Returns how many bytes the payload takes: 12 to 65,530.
    pub fn encoded_length(&self) -> u64
        ensures length { result ≡ status_length self.now }
        ensures status { is_status self.now ≡ true }
    {
        self.length
    }
}
