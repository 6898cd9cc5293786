//! A node purges its own table: when that is due, and what it leaves.

use crate::node::{node, write};
use crate::{got, key, name, push, same, there};
use sb_digest::{Digest, Pair};
use sb_log::{PlainLog, WriteLog};
use sb_node::NodeCore;
use sb_types::{Fault, Order, Slot, Value};
use std::alloc::Global;
use std::process::Abort;

/// A node a that wrote nothing, with its log.
fn new_node(rt: &impl Abort, alloc: Global) -> (NodeCore, PlainLog) {
    let me = name(rt, b"a");
    let core = node(rt, alloc, me, 1_024, Order::Breadth);
    (core, PlainLog::new(alloc, me, name(rt, b"c1"), 10_000))
}

fn set(rt: &impl Abort, core: &mut NodeCore, log: &mut PlainLog, text: &[u8]) {
    write(rt, core, log, text, &Slot::Set(Value::flag(true)));
}

fn remove(rt: &impl Abort, core: &mut NodeCore, log: &mut PlainLog, text: &[u8]) {
    write(rt, core, log, text, &Slot::Removed);
}

/// How many keys its own table has, how far it holds it, and its floor.
fn own(core: &NodeCore) -> (usize, u64, u64) {
    let me = core.name();
    (core.key_count(), core.upto(me), core.holdings().floor(me))
}

/// The version of the write under a key of its own.
fn version_at(rt: &impl Abort, core: &NodeCore, text: &[u8]) -> Option<u64> {
    let (_, version) = core.get(core.name(), &key(rt, text))?;
    Some(version)
}

/// A floor that is not above the present one changes nothing, and one above the held version is refused.
#[test]
fn a_purge_drops_tombstones_up_to_its_floor(rt: HostRuntime) {
    let (mut core, mut log) = new_node(&rt, rt.alloc());
    set(&rt, &mut core, &mut log, b"x");
    set(&rt, &mut core, &mut log, b"y");
    remove(&rt, &mut core, &mut log, b"x");
    same(&rt, &core.purge(2), &Ok(()));
    same(&rt, &own(&core), &(2, 3, 2));
    same(&rt, &core.purge(3), &Ok(()));
    same(&rt, &own(&core), &(1, 3, 3));
    same(&rt, &core.purge(2), &Ok(()));
    same(&rt, &core.purge(4), &Err(Fault::FloorTooHigh));
    same(&rt, &own(&core), &(1, 3, 3));
    same(&rt, &version_at(&rt, &core, b"y"), &Some(2));
    set(&rt, &mut core, &mut log, b"x");
    same(&rt, &own(&core), &(2, 4, 3));
}

/// Under each of eight keys a node sets a flag and then removes it.
fn eight_removals(rt: &impl Abort, core: &mut NodeCore, log: &mut PlainLog) {
    for letter in b"abcdefgh".iter() {
        set(rt, core, log, &[*letter]);
        remove(rt, core, log, &[*letter]);
    }
}

/// The older half of the removals goes.
#[test]
fn half_of_the_removals_goes(rt: HostRuntime) {
    let (mut core, mut log) = new_node(&rt, rt.alloc());
    eight_removals(&rt, &mut core, &mut log);
    same(&rt, &core.due_floor(9), &None);
    same(&rt, &core.due_floor(0), &None);
    same(&rt, &core.due_floor(1), &Some(8));
    same(&rt, &core.due_floor(8), &Some(8));
    same(&rt, &core.purge(8), &Ok(()));
    same(&rt, &own(&core), &(4, 16, 8));
    same(&rt, &core.due_floor(8), &None);
    same(&rt, &core.due_floor(4), &Some(12));
    set(&rt, &mut core, &mut log, b"new");
    same(&rt, &own(&core), &(5, 17, 8));
}

/// Of an odd number of removals, the middle one goes too.
#[test]
fn the_middle_removal_goes(rt: HostRuntime) {
    let (mut core, mut log) = new_node(&rt, rt.alloc());
    set(&rt, &mut core, &mut log, b"x");
    same(&rt, &core.due_floor(1), &None);
    remove(&rt, &mut core, &mut log, b"x");
    same(&rt, &core.due_floor(1), &Some(2));
    set(&rt, &mut core, &mut log, b"y");
    remove(&rt, &mut core, &mut log, b"y");
    set(&rt, &mut core, &mut log, b"z");
    remove(&rt, &mut core, &mut log, b"z");
    same(&rt, &core.due_floor(3), &Some(4));
}

/// The block for a peer that holds a up to a version: its floor, and the two versions between which its entries are.
fn offered(rt: &impl Abort, alloc: Global, core: &NodeCore, upto: u64) -> [u64; 3] {
    let mut pairs = Vec::new(alloc);
    push(rt, &mut pairs, Pair::new(*core.name(), upto, None));
    let digest = got(rt, Digest::new(false, None, None, pairs));
    let delta = got(rt, core.deltas(&digest));
    let block = there(rt, delta.blocks().first());
    [block.floor(), block.after(), block.upto()]
}

/// A peer that holds as far as the new floor is offered what it lacks, and any other the whole table.
#[test]
fn peers_of_a_node_that_purged(rt: HostRuntime) {
    let (mut core, mut log) = new_node(&rt, rt.alloc());
    eight_removals(&rt, &mut core, &mut log);
    same(&rt, &core.purge(8), &Ok(()));
    set(&rt, &mut core, &mut log, b"new");
    same(&rt, &offered(&rt, rt.alloc(), &core, 16), &[8, 16, 17]);
    same(&rt, &offered(&rt, rt.alloc(), &core, 8), &[8, 8, 17]);
    same(&rt, &offered(&rt, rt.alloc(), &core, 7), &[17, 0, 17]);
}

/// The key of a number.
fn numbered(number: u64) -> [u8; 2] {
    [b'a' + (number / 26 % 26) as u8, b'a' + (number % 26) as u8]
}

/// Sets a flag under each of so many keys with this first letter.
fn set_all(rt: &impl Abort, core: &mut NodeCore, log: &mut PlainLog, first: u8, count: u64) {
    for at in 0..count {
        let [second, third] = numbered(at);
        set(rt, core, log, &[first, second, third]);
    }
}

/// A full table is purged if it has 64 removed keys. Then it has room for 32 others.
#[test]
fn a_full_table_is_purged(rt: HostRuntime) {
    let (mut core, mut log) = new_node(&rt, rt.alloc());
    for first in b"abcdefgh".iter() {
        set_all(&rt, &mut core, &mut log, *first, 512);
    }
    for at in 0..63 {
        let [second, third] = numbered(at);
        remove(&rt, &mut core, &mut log, &[b'a', second, third]);
    }
    same(&rt, &core.due_floor(1_024), &None);
    let [second, third] = numbered(63);
    remove(&rt, &mut core, &mut log, &[b'a', second, third]);
    same(&rt, &core.due_floor(1_024), &Some(4_128));
    same(&rt, &core.due_floor(0), &None);
    same(&rt, &core.purge(4_128), &Ok(()));
    got(&rt, log.purge(4_128));
    same(&rt, &own(&core), &(4_064, 4_160, 4_128));
    set_all(&rt, &mut core, &mut log, b'z', 32);
    same(&rt, &own(&core), &(4_096, 4_192, 4_128));
    let full = log.put(&key(&rt, b"full"), &Slot::Set(Value::flag(true)));
    same(&rt, &full.is_err(), &true);
}
