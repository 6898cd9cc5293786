//! Writes to a log, wherever it keeps them, and what it then holds.
use crate::got;
use sb_log::{Committed, WriteLog};
use sb_types::{Entry, Fault, KEYS_MOST, Key, Name, Slot, Value};
use std::alloc::Global;
use std::process::Abort;

/// Whose logs these are.
pub const OWNER: &[u8] = b"a";

/// The owner's cluster.
pub const CLUSTER: &[u8] = b"sim";

/// The version of a write, or why it was refused.
pub type Answer = Result<u64, Fault>;

/// Whether a slot is set, and the weight or the flag that it has.
pub type SlotParts = (bool, Option<u64>, Option<bool>);

pub fn name(rt: &impl Abort, text: &[u8]) -> Name {
    got(rt, Name::read(text))
}

pub fn key(rt: &impl Abort, text: &[u8]) -> Key {
    got(rt, Key::read(text))
}

pub fn slot_parts(slot: &Slot) -> SlotParts {
    match slot {
        Slot::Set(value) => (true, value.as_weight(), value.as_flag()),
        Slot::Removed => (false, None, None),
    }
}

pub fn is_entry(entry: &Entry, key: &[u8], version: u64, slot: SlotParts) -> bool {
    entry.key().bytes() == key && entry.version() == version && slot_parts(entry.slot()) == slot
}

/// The version of a write. It is 0, which is not a version, if the write is not the one that was put.
fn version_of(committed: &Committed, key: &Key, slot: &Slot) -> u64 {
    let entry = committed.entry();
    let version = entry.version();
    if committed.owner().bytes() != OWNER {
        return 0;
    }
    if !is_entry(entry, key.bytes(), version, slot_parts(slot)) {
        return 0;
    }
    version
}

pub fn put<L: WriteLog>(rt: &impl Abort, log: &mut L, at: &[u8], slot: Slot) -> Answer {
    let key = key(rt, at);
    match log.put(&key, &slot) {
        Ok(committed) => Ok(version_of(&committed, &key, &slot)),
        Err(fault) => Err(fault),
    }
}

pub fn set<L: WriteLog>(rt: &impl Abort, log: &mut L, at: &[u8], weight: u64) -> Answer {
    put(rt, log, at, Slot::Set(got(rt, Value::weight(weight))))
}

pub fn remove<L: WriteLog>(rt: &impl Abort, log: &mut L, at: &[u8]) -> Answer {
    put(rt, log, at, Slot::Removed)
}

/// Returns the answers. If memory was missing at one of them, the test ends.
pub fn settled<const N: usize>(rt: &impl Abort, answers: [Answer; N]) -> [Answer; N] {
    if answers.contains(&Err(Fault::NoMemory)) {
        panic!(rt; "error: NoMemory");
    }
    answers
}

/// How many keys a log holds, and its last version.
pub fn held<L: WriteLog>(rt: &impl Abort, alloc: Global, log: &mut L) -> (usize, u64) {
    let table = got(rt, log.load(alloc));
    (table.len(), table.upto())
}

/// How many keys a log holds, its last version and its floor.
pub type Reach = (usize, u64, u64);

pub fn reach<L: WriteLog>(rt: &impl Abort, alloc: Global, log: &mut L) -> Reach {
    let table = got(rt, log.load(alloc));
    (table.len(), table.upto(), table.floor())
}

fn numbered_key(rt: &impl Abort, alloc: Global, at: u64) -> Key {
    let text = got(rt, format!(in alloc; "k{at}"));
    key(rt, text.as_bytes())
}

/// Writes to as many keys as there can be, from k1 on. Returns how many writes are answered in their turn.
pub fn fill<L: WriteLog>(rt: &impl Abort, alloc: Global, log: &mut L) -> u64 {
    let mut in_turn: u64 = 0;
    for at in 1..=KEYS_MOST as u64 {
        let key = numbered_key(rt, alloc, at);
        if got(rt, set(rt, log, key.bytes(), at)) == at {
            in_turn = in_turn.saturating_add(1);
        }
    }
    in_turn
}

/// Makes ten writes in each round, one to each of ten keys. Returns how many are answered in their turn.
pub fn many<L: WriteLog>(rt: &impl Abort, log: &mut L, rounds: u64) -> u64 {
    let mut in_turn: u64 = 0;
    let mut version: u64 = 0;
    for round in 0..rounds {
        for key in 0..10u8 {
            version = version.saturating_add(1);
            if got(rt, set(rt, log, &[b'k', b'0' + key], round)) == version {
                in_turn = in_turn.saturating_add(1);
            }
        }
    }
    in_turn
}
