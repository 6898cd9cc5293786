//! Deltas: what a node sends to a peer.

ghost use Rattle.std.specs.Prelude.{◌≡◌, [], nat_le, true, Some, None, OnSome, if◌then◌else◌, Ok, Err};
ghost use Rattle.std.specs.List.{list_all};
ghost use Rattle.sb_types.specs.Lengths.{block_length, delta_length};
ghost use Rattle.sb_types.specs.Limits.{are_owners_above, are_delta_blocks, is_delta_block, is_delta};

use crate::block::Block;
use crate::fault::Fault;
use crate::format::{BYTE_LENGTH, COUNT_LENGTH, KIND_DELTA};
use crate::limits::PAYLOAD_MOST;
use std::marker::Model;

/// Blocks of several owners that a node sends to a peer, in ascending order of the owners' names. A delta may have no
/// blocks. Its payload has at most 65,530 bytes.
#[derive(Debug, Drop)]
pub struct Delta {
    blocks: Vec<Block>,
    /// How many bytes its payload takes.
    length: u64,
}

impl Model for Delta {
    ghost use Rattle.std.specs.Prelude.{◌≡◌, true, List};
    ghost use Rattle.sb_types.specs.Records as records;

    ghost Value = { List records.Block };

    ghost use Rattle.sb_types.specs.Lengths.{delta_length};
    ghost use Rattle.sb_types.specs.Limits.{is_delta};

    ghost view = { λ d. d.blocks.items };

    ghost invariant = { λ d. (is_delta d.blocks.items ≡ true) × (d.length ≡ delta_length d.blocks.items) };
}

/// Returns whether each owner's name is after the one before it.
fn do_owners_ascend(blocks: &[Block]) -> bool
    ensures { result ≡ are_owners_above [] blocks.now }
{
    let mut last: &[u8] = &[];
    for block in blocks {
        let owner = block.owner().bytes();
        if !last.cmp(owner).is_lt() {
            return false;
        }
        last = owner;
    }
    true
}

/// Returns how many bytes the payload of a delta of these blocks takes, if that is within the limit.
fn length_within(blocks: &[Block]) -> Option<u64>
    ensures length { result ≡ (if nat_le (delta_length blocks.now) PAYLOAD_MOST then Some (delta_length blocks.now) else None) }
    ensures each { OnSome result (list_all is_delta_block blocks.now ≡ true) }
{
    let mut length = BYTE_LENGTH + COUNT_LENGTH;
    for block in blocks {
        length += block.encoded_length();
        if length > PAYLOAD_MOST {
            return None;
        }
    }
    Some(length)
}

impl Delta {
    /// Makes a delta of these blocks. It takes no memory. If a limit is broken, it drops the blocks and returns
    /// `Malformed(KIND_DELTA)`:
    ///
    /// - an owner's name is not after the one before it;
    /// - the payload would have more than 65,530 bytes.
    pub fn new(blocks: Vec<Block>) -> Result<Delta, Fault>
        ensures { result ≡ (if are_delta_blocks blocks.items then Ok blocks.items else Err (Fault.Malformed KIND_DELTA)) }
    {
        if !do_owners_ascend(&blocks) {
            return Err(Fault::Malformed(KIND_DELTA));
        }
        let Some(length) = length_within(&blocks) else {
            return Err(Fault::Malformed(KIND_DELTA));
        };
        Ok(Delta { blocks, length })
    }

    /// Returns the blocks, in ascending order of their owners' names.
    pub fn blocks(&self) -> &[Block]
        ensures blocks { result.now ≡ self.now }
        ensures delta { is_delta self.now ≡ true }
    {
        &self.blocks
    }

    /// Returns how many bytes the payload takes: 3 to 65,530.
    pub fn encoded_length(&self) -> u64
        ensures length { result ≡ delta_length self.now }
        ensures delta { is_delta self.now ≡ true }
    {
        self.length
    }
}
