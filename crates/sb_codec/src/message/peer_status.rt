//! How a peer of a node is.

ghost use Rattle.std.specs.Prelude.{◌≡◌, ◌≤◌, true};
ghost use Rattle.sb_codec.specs.Lengths.{peer_length};
ghost use Rattle.sb_codec.specs.Limits.{is_peer};

use sb_types::{BYTE_LENGTH, NUMBER_LENGTH, SHORT_TEXT_LENGTH_MOST, ShortText};
use std::marker::Model;

/// The most bytes that a peer takes: the path of its socket, its state, and the number of a round.
const PEER_LENGTH_MOST: u64 = SHORT_TEXT_LENGTH_MOST + BYTE_LENGTH + NUMBER_LENGTH;

/// How a peer is that a node dials: the path of its socket, and the number of its state. That may be one that this release
/// does not know. `round` is the number of its last round, 0 if there was none.
#[derive(Clone, Copy, Debug)]
pub struct PeerStatus {
    pub path: ShortText,
    pub state: u8,
    pub round: u64,
}

impl Model for PeerStatus {
    ghost use Rattle.std.specs.Prelude.{◌<◌, ◌^◌};
    ghost use Rattle.sb_codec.specs.Records as records;

    ghost Value = { records.Peer };

    ghost view = { λ p. record { path = p.path; state = p.state; round = p.round } };

    ghost invariant = { λ p. (p.state < 256) × (p.round < 2 ^ 64) };

    ghost inverse = { λ p. record { path = p.path; state = p.state; round = p.round } };
}

impl PeerStatus {
    /// Returns how many bytes the peer takes in a message: 11 to 138.
    pub fn encoded_length(&self) -> u64
        ensures length { result ≡ peer_length self.now }
        ensures most { result ≤ PEER_LENGTH_MOST }
        ensures peer { is_peer self.now ≡ true }
    {
        BYTE_LENGTH + self.path.bytes().len() as u64 + BYTE_LENGTH + NUMBER_LENGTH
    }
}
