//! Names, writes, logs and nodes for the tests.
use crate::got;
use sb_log::PlainLog;
use sb_node::NodeCore;
use sb_table::Table;
use sb_testing::SETTINGS;
use sb_types::{BUDGET_LEAST, Key, Name, RawSettings, Settings, Slot, Value};
use std::alloc::Global;
use std::process::Abort;

pub(crate) fn name(rt: &impl Abort, text: &[u8]) -> Name {
    got(rt, Name::read(text))
}

pub(crate) fn key(rt: &impl Abort, text: &[u8]) -> Key {
    got(rt, Key::read(text))
}

/// A slot with a weight.
pub(crate) fn weight(rt: &impl Abort, weight: u64) -> Slot {
    Slot::Set(got(rt, Value::weight(weight)))
}

/// Settings of the cluster c1, with this budget, and so many seats and workers.
pub(crate) fn settings_with(rt: &impl Abort, budget: u64, seats: u64, workers: u64) -> Settings {
    let raw = RawSettings {
        budget,
        seats,
        workers,
        ..SETTINGS
    };
    got(rt, Settings::check(raw))
}

/// The same with the least budget, and one worker.
pub(crate) fn settings(rt: &impl Abort, seats: u64) -> Settings {
    settings_with(rt, BUDGET_LEAST, seats, 1)
}

/// An empty log.
pub(crate) fn new_log(rt: &impl Abort, alloc: Global, owner: &[u8]) -> PlainLog {
    PlainLog::new(alloc, name(rt, owner), name(rt, b"c1"), 100)
}

/// A node with this own table.
pub(crate) fn node_of(
    rt: &impl Abort,
    alloc: Global,
    settings: Settings,
    me: &[u8],
    table: Table,
) -> NodeCore {
    got(rt, NodeCore::open(alloc, settings, name(rt, me), table))
}
