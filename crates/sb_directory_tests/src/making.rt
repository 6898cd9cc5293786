//! Nodes, writes and deltas for the tests.
use crate::{got, there};
use sb_codec::Message;
use sb_frames::{Frames, frame_of};
use sb_log::{Committed, PlainLog, WriteLog};
use sb_node::NodeCore;
use sb_session::{ReceivedDelta, ReceivedMessage};
use sb_table::Table;
use sb_testing::{SETTINGS, delta_of_block, delta_of_write, letters_of};
use sb_types::{
    Block, Delta, Entry, Key, Name, Prefix, RawSettings, Settings, SharedEntry, Slot, Value,
};
use std::alloc::Global;
use std::process::Abort;

/// The most versions that a log gives.
const VERSIONS: u64 = 5_000;

/// The name of this text.
pub(crate) fn name(rt: &impl Abort, text: &[u8]) -> Name {
    got(rt, Name::read(text))
}

/// The key of this text.
pub(crate) fn key(rt: &impl Abort, text: &[u8]) -> Key {
    got(rt, Key::read(text))
}

/// The prefix of this text.
pub(crate) fn prefix(rt: &impl Abort, text: &[u8]) -> Prefix {
    got(rt, Prefix::read(text))
}

/// A slot with a weight.
fn weight(rt: &impl Abort, weight: u64) -> Slot {
    Slot::Set(got(rt, Value::weight(weight)))
}

/// The settings of a node of the cluster c1.
fn settings(rt: &impl Abort) -> Settings {
    let raw = RawSettings {
        max_version: VERSIONS,
        ..SETTINGS
    };
    got(rt, Settings::check(raw))
}

/// A node of the cluster c1 with this own table.
pub(crate) fn node_of(rt: &impl Abort, alloc: Global, me: &[u8], table: Table) -> NodeCore {
    got(rt, NodeCore::open(alloc, settings(rt), name(rt, me), table))
}

/// A node a that wrote nothing.
pub(crate) fn new_node(rt: &impl Abort, alloc: Global) -> NodeCore {
    node_of(rt, alloc, b"a", Table::new(alloc))
}

/// An empty log of an owner.
pub(crate) fn log_of(rt: &impl Abort, alloc: Global, owner: &[u8]) -> PlainLog {
    PlainLog::new(alloc, name(rt, owner), name(rt, b"c1"), VERSIONS)
}

/// The log's next write: the weight 5 under the key.
pub(crate) fn commit(rt: &impl Abort, log: &mut PlainLog, text: &[u8]) -> Committed {
    got(rt, log.put(&key(rt, text), &weight(rt, 5)))
}

/// The log's next write: the removal of the key.
pub(crate) fn commit_removal(rt: &impl Abort, log: &mut PlainLog, text: &[u8]) -> Committed {
    got(rt, log.put(&key(rt, text), &Slot::Removed))
}

/// The first write of an owner.
pub(crate) fn first_of(rt: &impl Abort, alloc: Global, owner: &[u8], text: &[u8]) -> Committed {
    commit(rt, &mut log_of(rt, alloc, owner), text)
}

/// The write after this version: the weight 7 under the key.
fn entry_behind(rt: &impl Abort, version: u64, text: &[u8]) -> Entry {
    Entry::new(key(rt, text), version.saturating_add(1), weight(rt, 7))
}

/// What an owner wrote under these letters, from the version after `after` on.
fn entries_behind(rt: &impl Abort, alloc: Global, after: u64, letters: &[u8]) -> Vec<SharedEntry> {
    let mut entries = Vec::new(alloc);
    let mut version = after;
    for letter in letters {
        let entry = entry_behind(rt, version, &[*letter]);
        let shared = got(rt, SharedEntry::new(alloc, entry));
        got(rt, entries.push(shared));
        version = version.saturating_add(1);
    }
    entries
}

/// A delta of one block: what an owner wrote under these letters, from the version after `after` on.
pub(crate) fn delta_of(
    rt: &impl Abort,
    alloc: Global,
    owner: &[u8],
    after: u64,
    letters: &[u8],
) -> Delta {
    let entries = entries_behind(rt, alloc, after, letters);
    let upto = after.saturating_add(letters.len() as u64);
    let block = got(rt, Block::new(name(rt, owner), 0, after, upto, entries));
    got(rt, delta_of_block(alloc, block))
}

/// The floor of a block, `after`, and `upto`.
pub(crate) type Range = (u64, u64, u64);

/// A delta of one block of b with this range: what b wrote under these letters, from the version after `before` on.
pub(crate) fn delta_with_floor(
    rt: &impl Abort,
    alloc: Global,
    range: Range,
    before: u64,
    letters: &[u8],
) -> Delta {
    let (floor, after, upto) = range;
    let entries = entries_behind(rt, alloc, before, letters);
    let block = got(rt, Block::new(name(rt, b"b"), floor, after, upto, entries));
    got(rt, delta_of_block(alloc, block))
}

/// A delta of one write: what an owner wrote under this key, after the version `after`.
pub(crate) fn delta_under(
    rt: &impl Abort,
    alloc: Global,
    owner: &[u8],
    after: u64,
    text: &[u8],
) -> Delta {
    let entry = entry_behind(rt, after, text);
    got(rt, delta_of_write(alloc, name(rt, owner), entry))
}

/// The table of an owner with all of the 4,096 keys that it can have.
pub(crate) fn full_table(rt: &impl Abort, alloc: Global) -> Table {
    let mut log = log_of(rt, alloc, b"a");
    for number in 0..4_096 {
        commit(rt, &mut log, &letters_of(number));
    }
    got(rt, log.load(alloc))
}

/// A log of the owner a that took so many writes, all under one key.
pub(crate) fn written_log(rt: &impl Abort, alloc: Global, count: u64) -> PlainLog {
    let mut log = log_of(rt, alloc, b"a");
    for _ in 0..count {
        commit(rt, &mut log, b"x");
    }
    log
}

/// A delta as the node takes it that a peer sent it to.
pub(crate) fn received(rt: &impl Abort, alloc: Global, delta: Delta) -> ReceivedDelta {
    let frame = got(rt, frame_of(alloc, &Message::Delta(delta)));
    let mut frames = Frames::new(alloc);
    got(rt, frames.feed(&frame));
    let message = there(rt, got(rt, ReceivedMessage::taken_from(&mut frames)));
    there(rt, message.into_delta())
}
