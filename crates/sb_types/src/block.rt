//! Blocks: parts of one owner's writes.

ghost use Rattle.std.specs.Prelude.{◌≡◌, ◌≤◌, ◌+◌, ◌*◌, length, true, if◌then◌else◌, Ok, Err};
ghost use Rattle.std.specs.List.{list_all};
ghost use Rattle.sb_types.specs.Runs.{are_ascending, last_version};
ghost use Rattle.sb_types.specs.Lengths.{entries_length, block_length};
ghost use Rattle.sb_types.specs.Limits.{is_entry, are_block_parts, block_of_parts, is_delta_block};

use crate::distinct::are_keys_distinct;
use crate::fault::Fault;
use crate::format::{
    BLOCK_HEAD_MOST, BYTE_LENGTH, COUNT_LENGTH, ENTRY_LENGTH_MOST, KIND_DELTA, NUMBER_LENGTH,
};
use crate::limits::ENTRIES_MOST;
use crate::shared::SharedEntry;
use crate::text::Name;
use std::marker::Model;

/// A part of one owner's writes: its entries above the version `after`, up to the version `upto`.
///
/// - `upto` is above `after`.
/// - It has at most 65,535 entries, and may have none. They are in ascending version, and each key occurs once.
/// - Its purge floor is the version up to which it leaves out tombstones, the markers of removed keys. The type does
///   not test this: any floor is allowed.
#[derive(Debug, Drop)]
pub struct Block {
    owner: Name,
    floor: u64,
    after: u64,
    upto: u64,
    entries: Vec<SharedEntry>,
    /// How many bytes the entries take in a message.
    length: u64,
}

impl Model for Block {
    ghost use Rattle.std.specs.Prelude.{◌≡◌, ◌≤◌, ◌*◌, true};
    ghost use Rattle.sb_types.specs.Records as records;

    ghost Value = { records.Block };

    ghost use Rattle.sb_types.specs.Lengths.{entries_length};
    ghost use Rattle.sb_types.specs.Limits.{block_of_parts, is_delta_block};
    ghost use Rattle.sb_types.specs.declared.limits.TheConstants.{ENTRIES_MOST};
    ghost use Rattle.sb_types.specs.declared.format.TheConstants.{ENTRY_LENGTH_MOST};

    ghost view = { λ b. block_of_parts b.owner b.floor b.after b.upto b.entries.items };

    ghost invariant = { λ b. (is_delta_block (block_of_parts b.owner b.floor b.after b.upto b.entries.items) ≡ true) × (b.length ≡ entries_length b.entries.items) × (b.length ≤ ENTRY_LENGTH_MOST * ENTRIES_MOST) };
}

/// Returns whether each version is above the one before it, and the first above `after`.
fn are_versions_ascending(after: u64, entries: &[SharedEntry]) -> bool
    ensures { result ≡ are_ascending after entries.now }
{
    let mut last = after;
    for entry in entries {
        let version = entry.version();
        if version <= last {
            return false;
        }
        last = version;
    }
    true
}

/// Returns the version of the last entry, or `after` if there is no entry.
fn last_version(after: u64, entries: &[SharedEntry]) -> u64
    ensures { result ≡ last_version after entries.now }
{
    match entries {
        [.., last] => last.version(),
        [] => after,
    }
}

/// Returns how many bytes the entries take in a message.
fn length_of(entries: &[SharedEntry]) -> u64
    requires { length entries.now ≤ ENTRIES_MOST }
    ensures length { result ≡ entries_length entries.now }
    ensures each { list_all is_entry entries.now ≡ true }
    ensures most { result ≤ ENTRY_LENGTH_MOST * length entries.now }
{
    let mut total = 0;
    for entry in entries {
        total += entry.encoded_length();
    }
    total
}

impl Block {
    /// Makes a block of these parts, for any floor. It takes no memory. If a limit is broken, it drops the entries and
    /// returns `Malformed(KIND_DELTA)`:
    ///
    /// - there are more than 65,535 entries;
    /// - `upto` is not above `after`;
    /// - a version is not above the one before it, or the first is not above `after`;
    /// - the last version is above `upto`;
    /// - two entries have the same key.
    #[tactic(auto, using(crate::proofs::DistinctKeys::ascending_from_zero))]
    pub fn new(
        owner: Name,
        floor: u64,
        after: u64,
        upto: u64,
        mut entries: Vec<SharedEntry>,
    ) -> Result<Block, Fault>
        ensures { result ≡ (if are_block_parts after upto entries.items then Ok (block_of_parts owner floor after upto entries.items) else Err (Fault.Malformed KIND_DELTA)) }
    {
        if entries.len() > ENTRIES_MOST
            || upto <= after
            || !are_versions_ascending(after, &entries)
            || last_version(after, &entries) > upto
            || !are_keys_distinct(&mut entries)
        {
            return Err(Fault::Malformed(KIND_DELTA));
        }
        Ok(Block::from_parts(owner, floor, after, upto, entries))
    }

    /// Makes a block of these parts without a test. The caller has to show that `new` would accept them. It takes no
    /// memory.
    pub fn from_parts(
        owner: Name,
        floor: u64,
        after: u64,
        upto: u64,
        entries: Vec<SharedEntry>,
    ) -> Block
        requires { are_block_parts after upto entries.items ≡ true }
        ensures { result ≡ block_of_parts owner floor after upto entries.items }
    {
        // Proof only: the call shows that the name keeps its limits.
        let _ = owner.bytes();
        let length = length_of(&entries);
        Block {
            owner,
            floor,
            after,
            upto,
            entries,
            length,
        }
    }

    /// Returns whose writes these are.
    pub fn owner(&self) -> &Name
        ensures owner { result.now ≡ self.now.owner }
        ensures block { is_delta_block self.now ≡ true }
    {
        &self.owner
    }

    /// Returns the purge floor. The block leaves out tombstones at or below it, and whoever takes the block drops its
    /// own. It is 0 if the owner never purged.
    pub fn floor(&self) -> u64
        ensures floor { result ≡ self.now.floor }
        ensures block { is_delta_block self.now ≡ true }
    {
        self.floor
    }

    /// Returns the version after which the block begins.
    pub fn after(&self) -> u64
        ensures after { result ≡ self.now.after }
        ensures block { is_delta_block self.now ≡ true }
    {
        self.after
    }

    /// Returns the version up to which the block reaches. It may be above the version of the last entry. Writes between
    /// the two were replaced by later ones, or are tombstones at or below the floor.
    pub fn upto(&self) -> u64
        ensures upto { result ≡ self.now.upto }
        ensures block { is_delta_block self.now ≡ true }
    {
        self.upto
    }

    /// Returns the entries, in ascending version.
    pub fn entries(&self) -> &[SharedEntry]
        ensures entries { result.now ≡ self.now.entries }
        ensures block { is_delta_block self.now ≡ true }
    {
        &self.entries
    }

    /// Returns how many bytes the block takes in a message: its head of 28 to 59, and its entries.
    pub fn encoded_length(&self) -> u64
        ensures length { result ≡ block_length self.now }
        ensures block { is_delta_block self.now ≡ true }
        ensures most { result ≤ ENTRY_LENGTH_MOST * ENTRIES_MOST + BLOCK_HEAD_MOST }
    {
        let owner_length = BYTE_LENGTH + self.owner.bytes().len() as u64;
        owner_length + 3 * NUMBER_LENGTH + COUNT_LENGTH + self.length
    }
}
