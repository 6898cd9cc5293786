//! Owners, entries and nodes to measure with.
use sb_holdings::Holdings;
use sb_log::PlainLog;
use sb_node::NodeCore;
use sb_table::Table;
use sb_types::{
    BUDGET_MOST, Block, Delta, Entry, Fault, Key, Name, Order, RawSettings, Settings, SharedEntry,
    Slot, VERSION_MOST, Value,
};
use std::alloc::Global;

const CLUSTER: &[u8] = b"bench";

/// The node that is measured.
pub(crate) const ME: &[u8] = b"node";

/// How many keys are under a prefix.
pub(crate) const KEYS_OF_PREFIX: u64 = 16;

/// How many entries each delta has that fills a node.
const ENTRIES_AT_ONCE: usize = 1_000;

/// The name of the node that is measured.
pub(crate) fn me() -> Result<Name, Fault> {
    Name::read(ME)
}

/// The name of its cluster.
pub(crate) fn cluster() -> Result<Name, Fault> {
    Name::read(CLUSTER)
}

/// Nine bytes.
pub(crate) fn owner_at(alloc: Global, index: u64) -> Result<Name, Fault> {
    Name::read(format!(in alloc; "node-{index:04}")?.as_bytes())
}

/// Sixteen bytes, in groups of the keys under a prefix.
pub(crate) fn key_at(alloc: Global, index: u64) -> Result<Key, Fault> {
    let (group, place) = (index / KEYS_OF_PREFIX, index % KEYS_OF_PREFIX);
    Key::read(format!(in alloc; "grp-{group:03}/attr-{place:02}x")?.as_bytes())
}

/// Which values are written: none that is a text, texts alone, or half and half.
#[derive(Clone, Copy, Debug, PartialEq, Eq)]
pub(crate) enum Kinds {
    Short,
    Texts,
    Mixed,
}

/// A text of 40 bytes.
fn text_at(alloc: Global, index: u64) -> Result<Value, Fault> {
    let (zone, rack) = (index % 7, index % 251);
    let text = format!(in alloc; "zone {zone}, rack {rack:03}: caf\u{e9} {index:016}")?;
    Value::text(alloc, text.as_bytes())
}

/// Half addresses of about sixteen bytes, four tenths weights, a tenth flags.
fn short_at(alloc: Global, index: u64) -> Result<Value, Fault> {
    match index % 10 {
        0..=4 => {
            let (second, third, fourth) = (index % 7, index % 251, index % 13);
            let port = 30_000 + index % 9_999;
            let address = format!(in alloc; "10.{second}.{third}.{fourth}:{port}")?;
            Value::addr(alloc, address.as_bytes())
        }
        5..=8 => Value::weight(index.wrapping_mul(2_654_435_761) % 1_000),
        _ => Ok(Value::flag(index % 3 == 0)),
    }
}

/// A value of one of these kinds.
pub(crate) fn value_at(alloc: Global, kinds: Kinds, index: u64) -> Result<Value, Fault> {
    match kinds {
        Kinds::Short => short_at(alloc, index),
        Kinds::Mixed if index % 2 == 0 => short_at(alloc, index / 2),
        _ => text_at(alloc, index),
    }
}

/// Which key an owner writes in this turn: each key once, and not in their order, as in a log of some age.
fn scattered(owner: u64, turn: u64, keys: u64) -> u64 {
    if keys % 37 == 0 {
        return turn;
    }
    let at = turn.wrapping_mul(37).wrapping_add(owner);
    at.checked_rem(keys).unwrap_or(0)
}

/// An owner's writes after a version, one under each of its keys.
fn entries_of(
    alloc: Global,
    owner: u64,
    after: u64,
    keys: u64,
    kinds: Kinds,
) -> Result<Vec<SharedEntry>, Fault> {
    let mut entries = Vec::new(alloc);
    for turn in 0..keys {
        let key = key_at(alloc, scattered(owner, turn, keys))?;
        let value = value_at(alloc, kinds, turn.wrapping_mul(31).wrapping_add(owner))?;
        let version = after.saturating_add(turn + 1);
        let entry = Entry::new(key, version, Slot::Set(value));
        entries.push(SharedEntry::new(alloc, entry)?)?;
    }
    Ok(entries)
}

/// The same, with values that are not texts.
pub(crate) fn later_entries(
    alloc: Global,
    owner: u64,
    after: u64,
    keys: u64,
) -> Result<Vec<SharedEntry>, Fault> {
    entries_of(alloc, owner, after, keys, Kinds::Short)
}

/// An owner's first writes, one under each of its keys.
pub(crate) fn block_of(alloc: Global, owner: u64, keys: u64, kinds: Kinds) -> Result<Block, Fault> {
    let entries = entries_of(alloc, owner, 0, keys, kinds)?;
    Block::new(owner_at(alloc, owner)?, 0, 0, keys, entries)
}

/// A block of each owner.
pub(crate) fn blocks(
    alloc: Global,
    owners: u64,
    keys: u64,
    kinds: Kinds,
) -> Result<Vec<Block>, Fault> {
    let mut blocks = Vec::new(alloc);
    for owner in 0..owners {
        blocks.push(block_of(alloc, owner, keys, kinds)?)?;
    }
    Ok(blocks)
}

/// What a node holds before it has written or heard anything.
pub(crate) fn no_holdings(alloc: Global) -> Result<Holdings, Fault> {
    Holdings::new(alloc, me()?, Table::new(alloc))
}

/// What a node holds of these blocks.
pub(crate) fn holdings_of(alloc: Global, blocks: &[Block]) -> Result<Holdings, Fault> {
    let mut holdings = no_holdings(alloc)?;
    for block in blocks {
        holdings.apply_block(block);
    }
    Ok(holdings)
}

/// A node of this name, before it has written or heard anything.
pub(crate) fn new_node(alloc: Global, name: &[u8]) -> Result<NodeCore, Fault> {
    let settings = Settings::check(RawSettings {
        cluster: CLUSTER,
        budget: BUDGET_MOST,
        order: Order::Breadth,
        max_version: VERSION_MOST,
        seats: 4,
        workers: 1,
    })?;
    NodeCore::open(alloc, settings, Name::read(name)?, Table::new(alloc))
}

fn delta_of(
    alloc: Global,
    owner: Name,
    after: u64,
    entries: &[SharedEntry],
) -> Result<Delta, Fault> {
    let upto = match entries {
        [.., last] => last.version(),
        [] => after,
    };
    let mut same = Vec::with_capacity(alloc, entries.len())?;
    for entry in entries {
        same.push(entry.share()?)?;
    }
    Delta::new(vec![in alloc; Block::new(owner, 0, after, upto, same)?]?)
}

/// Makes a node hear a block, in deltas of a limited length.
pub(crate) fn hear(alloc: Global, node: &mut NodeCore, block: &Block) -> Result<(), Fault> {
    for entries in block.entries().chunks(ENTRIES_AT_ONCE) {
        let after = node.upto(block.owner());
        node.apply(&delta_of(alloc, *block.owner(), after, entries)?)?;
    }
    Ok(())
}

/// The log in memory of the node that is measured.
pub(crate) fn new_log(alloc: Global) -> Result<PlainLog, Fault> {
    Ok(PlainLog::new(alloc, me()?, cluster()?, VERSION_MOST))
}
