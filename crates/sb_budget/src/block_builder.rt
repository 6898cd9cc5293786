//! Entries collected by owner, as the blocks that they will make.
ghost use Rattle.std.specs.Prelude.{◌≡◌, ◌≤◌, ◌+◌, true, Ok, length, OnOk, OnErr, IfOk, IfErr};
ghost use Rattle.std.specs.Option.{option_map_or};
ghost use Rattle.std.specs.Ordering.{nat_cmp};
ghost use Rattle.std.specs.Cmp.Lexicographic.{slice_cmp};
ghost use Rattle.std.specs.List.Sorted.{IsSearchInRange, IsBinarySearchResult};
ghost use Rattle.sb_types.specs.Text.{is_name};
ghost use Rattle.sb_types.specs.Runs.{last_version};
ghost use Rattle.sb_types.specs.Lengths.{entry_length};
ghost use Rattle.sb_budget.specs.BlocksByOwner.{item_at, block_with_entry, block_of_item, blocks_with_item, cost_of, block_to_last_entry, HasParts};

use crate::head::Head;
use sb_types::{
    BLOCK_HEAD_MOST, BYTE_LENGTH, Block, COUNT_LENGTH, ENTRY_LENGTH_MOST, Fault, NUMBER_LENGTH,
    Name, SharedEntry,
};
use std::alloc::Global;
use std::marker::Model;

/// The bytes of a block before its entries, without the text of its owner's name.
const BLOCK_START: u64 = BYTE_LENGTH + 3 * NUMBER_LENGTH + COUNT_LENGTH;

/// The entries of one owner that will make its block.
#[derive(Drop)]
pub(crate) struct BlockBuilder {
    head: Head,
    entries: Vec<SharedEntry>,
}

impl Model for BlockBuilder {
    ghost use Rattle.sb_types.specs.Records as records;

    ghost Value = { records.Block };

    ghost use Rattle.sb_budget.specs.BlocksByOwner.{block_at};

    ghost view = { λ g. block_at g.head g.entries.items };
}

impl BlockBuilder {
    /// Makes the block of an owner's first item. The only fault is `NoMemory`.
    fn new(alloc: Global, head: Head, entry: Option<SharedEntry>) -> Result<BlockBuilder, Fault>
        ensures begun { IfOk result (λ g. g ≡ block_of_item (item_at head entry)) }
        ensures memory { IfErr result (λ fault. fault ≡ Fault.NoMemory) }
    {
        let mut entries = Vec::new(alloc);
        if let Some(entry) = entry {
            entries.push(entry)?;
        }
        Ok(BlockBuilder { head, entries })
    }

    fn owner(&self) -> &Name
        ensures { result.now ≡ self.now.owner }
    {
        &self.head.owner
    }

    fn push(&mut self, entry: Option<SharedEntry>) -> Result<(), Fault>
        ensures grown { OnOk result (self.new ≡ block_with_entry self.old entry) }
        ensures left { OnErr result (self.new ≡ self.old) }
        ensures memory { IfErr result (λ fault. fault ≡ Fault.NoMemory) }
    {
        if let Some(entry) = entry {
            self.entries.push(entry)?;
        }
        Ok(())
    }

    /// Ends the block at its last entry, because other items of its owner are left out.
    pub(crate) fn lower(&mut self)
        ensures { self.new ≡ block_to_last_entry self.old }
    {
        self.head.upto = last_of(self.head.after, &self.entries);
    }

    /// Makes the block of these entries, which have to be such as a block can have. It takes no memory.
    pub(crate) fn into_block(self) -> Block
        requires { HasParts self }
        ensures { result ≡ self }
    {
        let BlockBuilder { head, entries } = self;
        Block::from_parts(head.owner, head.floor, head.after, head.upto, entries)
    }
}

/// Returns the version of the last entry, or the one before if there is no entry.
fn last_of(before: u64, entries: &[SharedEntry]) -> u64
    ensures { result ≡ last_version before entries.now }
{
    match entries {
        [.., last] => last.version(),
        [] => before,
    }
}

/// Returns the place of the owner's entries; or, if there are none, the place at which they would be inserted.
pub(crate) fn place_of(gathered: &[BlockBuilder], owner: &Name) -> Result<usize, usize>
    ensures bound { IsSearchInRange result (length gathered.now) }
    ensures place { IsBinarySearchResult (λ b. slice_cmp nat_cmp b.owner owner.now) gathered.now result }
{
    gathered.binary_search_by(|group| group.owner().cmp(owner))
}

/// Returns such a place too. It looks first at a place and at the next one, and then after the last owner.
pub(crate) fn place_near(
    gathered: &[BlockBuilder],
    owner: &Name,
    near: usize,
) -> Result<usize, usize>
    ensures bound { IsSearchInRange result (length gathered.now) }
    ensures place { IsBinarySearchResult (λ b. slice_cmp nat_cmp b.owner owner.now) gathered.now result }
{
    if is_at(gathered, owner, near) {
        return Ok(near);
    }
    let next = near.saturating_add(1);
    if is_at(gathered, owner, next) {
        return Ok(next);
    }
    match gathered {
        [.., last] if last.owner().cmp(owner).is_lt() => Err(gathered.len()),
        _ => place_of(gathered, owner),
    }
}

/// Returns whether the owner's entries are at this place.
fn is_at(gathered: &[BlockBuilder], owner: &Name, place: usize) -> bool
    ensures bound { result ≡ true → IsSearchInRange (Ok place) (length gathered.now) }
    ensures owner { result ≡ true → IsBinarySearchResult (λ b. slice_cmp nat_cmp b.owner owner.now) gathered.now (Ok place) }
{
    place < gathered.len() && gathered[place].owner().cmp(owner).is_eq()
}

/// Returns how many bytes an entry takes, or 0 if there is no entry.
fn length_of(entry: &Option<SharedEntry>) -> u64
    ensures length { result ≡ option_map_or (λ e. entry_length e) entry.now 0 }
    ensures most { result ≤ ENTRY_LENGTH_MOST }
{
    match entry {
        Some(entry) => entry.encoded_length(),
        None => 0,
    }
}

/// Returns how many bytes an item adds to a delta, by whether its owner's entries are already there.
pub(crate) fn cost(head: &Head, entry: &Option<SharedEntry>, place: Result<usize, usize>) -> u64
    ensures cost { result ≡ cost_of (item_at head.now entry.now) place }
    ensures owner { is_name head.now.owner ≡ true }
    ensures most { result ≤ BLOCK_HEAD_MOST + ENTRY_LENGTH_MOST }
{
    let name_length = head.owner.bytes().len() as u64;
    let entry_length = length_of(entry);
    match place {
        Ok(_) => entry_length,
        Err(_) => BLOCK_START + name_length + entry_length,
    }
}

/// Adds the item to its owner's block. The only fault is `NoMemory`, which leaves the blocks as they were.
pub(crate) fn put(
    alloc: Global,
    gathered: &mut Vec<BlockBuilder>,
    place: Result<usize, usize>,
    head: Head,
    entry: Option<SharedEntry>,
) -> Result<(), Fault>
    requires { IsSearchInRange place (length gathered.old.items) }
    ensures placed { OnOk result (gathered.new.items ≡ blocks_with_item place (item_at head entry) gathered.old.items) }
    ensures left { OnErr result (gathered.new.items ≡ gathered.old.items) }
    ensures memory { IfErr result (λ fault. fault ≡ Fault.NoMemory) }
{
    match place {
        Ok(index) => {
            let group = &mut gathered[index];
            group.push(entry)
        }
        Err(index) => {
            let group = BlockBuilder::new(alloc, head, entry)?;
            gathered.insert(index, group)?;
            Ok(())
        }
    }
}
