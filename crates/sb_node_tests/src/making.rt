//! Digests, entries and blocks for the tests, what is offered of holdings, and what a delta contains.
ghost use Rattle.std.specs.Prelude.{◌≡◌, IfOk};
ghost use Rattle.sb_budget.specs.Cut.{CanCut};

use crate::{got, key, push_entry};
use sb_budget::{DeltaOrder, Offered, available, orders_keep_owners};
use sb_digest::Digest;
use sb_holdings::{BlockEnd, Holdings};
use sb_types::{Block, Delta, Entry, Fault, HEADER_LENGTH, Name, Slot, Value};
use std::alloc::Global;
use std::process::Abort;

/// The owner's first writes: a flag under each of these letters.
pub(crate) fn block_of(rt: &impl Abort, alloc: Global, owner: Name, letters: &[u8]) -> Block {
    let mut entries = Vec::new(alloc);
    for (index, letter) in letters.iter().enumerate() {
        let slot = Slot::Set(Value::flag(true));
        let entry = Entry::new(key(rt, &[*letter]), index as u64 + 1, slot);
        push_entry(rt, &mut entries, entry);
    }
    got(rt, Block::new(owner, 0, 0, letters.len() as u64, entries))
}

/// Returns how the block ends. Ends the test if it finds no memory.
pub(crate) fn apply(rt: &impl Abort, holdings: &mut Holdings, block: &Block) -> BlockEnd {
    match holdings.apply_block(block) {
        BlockEnd::NoMemory(_) => panic!(rt; "error: NoMemory"),
        end => end,
    }
}

/// The digest, for all names, of a peer that holds nothing.
pub(crate) fn nothing(rt: &impl Abort, alloc: Global, want: bool) -> Digest {
    got(rt, Digest::new(want, None, None, Vec::new(alloc)))
}

/// The address that is an entry's value, of 128 bytes.
pub(crate) fn address(rt: &impl Abort, alloc: Global) -> Slot {
    Slot::Set(got(rt, Value::addr(alloc, &[b'p'; 128])))
}

/// The longest value: a text of 512 bytes.
pub(crate) fn longest(rt: &impl Abort, alloc: Global) -> Slot {
    Slot::Set(got(rt, Value::text(alloc, &[b'p'; 512])))
}

/// What a peer that sent this digest lacks, in an order.
pub(crate) fn arranged<O: DeltaOrder>(
    alloc: Global,
    holdings: &Holdings,
    digest: &Digest,
    order: &O,
) -> Result<Vec<Offered>, Fault>
    ensures { IfOk result (λ ordered. CanCut ordered.items) }
{
    let offered = available(alloc, holdings, digest)?;
    let ordered = order.arrange(alloc, offered)?;
    orders_keep_owners();
    Ok(ordered)
}

/// Returns what is offered and can be cut. Ends the test if there is none.
pub(crate) fn items(rt: &impl Abort, answer: Result<Vec<Offered>, Fault>) -> Vec<Offered>
    requires { IfOk answer (λ ordered. CanCut ordered.items) }
    ensures { CanCut result.items }
{
    match answer {
        Ok(items) => items,
        Err(fault) => panic!(rt; "error: {fault:?}"),
    }
}

/// Returns how many entries a delta has.
pub(crate) fn entries_in(delta: &Delta) -> usize {
    let mut entries = 0_usize;
    for block in delta.blocks() {
        entries = entries.wrapping_add(block.entries().len());
    }
    entries
}

/// Returns how long the delta's frame is, and whether it contains just these writes.
pub(crate) fn tells(delta: &Delta, wanted: &[(Name, u64)]) -> (u64, bool) {
    let mut wanted = wanted.iter().copied();
    let mut are_equal = true;
    for block in delta.blocks() {
        for entry in block.entries() {
            are_equal &= Some((*block.owner(), entry.version())) == wanted.next();
        }
    }
    let is_all = wanted.next().is_none();
    (delta.encoded_length() + HEADER_LENGTH, are_equal && is_all)
}
