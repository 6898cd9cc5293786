//! What several crates of tests need: frames written out by hand, readers and writers for peers, settings, and small
//! deltas. Nothing here ends a test, since a library must not. So what does, such as `same` and `got`, is in each crate
//! of tests, one line each over the toolchain's own.
//!
//! # What no contract refuses
//!
//! Nothing here has an `ensures`, so every body that is safe and ends would be proved. The tests that use a function
//! refuse a wrong one.
#![tactic(auto)]

pub mod streams;
pub mod wire;

use sb_types::{BUDGET_LEAST, Block, Delta, Entry, Fault, Name, Order, RawSettings, SharedEntry};
use std::alloc::Global;

/// Settings within their limits: a node of the cluster c1, with the least budget, two seats and a worker.
pub const SETTINGS: RawSettings<'static> = RawSettings {
    cluster: b"c1",
    budget: BUDGET_LEAST,
    order: Order::Breadth,
    max_version: 100,
    seats: 2,
    workers: 1,
};

/// A name of 32 bytes, the most that a name can have.
pub const LONGEST_NAME: &[u8] = b"abcdefghijklmnopqrstuvwxyz-01234";

/// A key of 64 bytes, the most that a key can have.
pub const LONGEST_KEY: &[u8] = b"abcdefghijklmnopqrstuvwxyz012345.bcdefghijklmnopqrstuvwxyz_/-789";

/// The text of a number, in four letters. Each number below 456,976 has another one.
pub fn letters_of(number: u64) -> [u8; 4] {
    let mut text = [b'a'; 4];
    let mut rest = number;
    for letter in text.iter_mut() {
        *letter = b'a' + (rest % 26) as u8;
        rest /= 26;
    }
    text
}

/// A delta of one block.
pub fn delta_of_block(alloc: Global, block: Block) -> Result<Delta, Fault> {
    Delta::new(vec![in alloc; block]?)
}

/// A delta with one write of an owner, which begins after the version before it.
pub fn delta_of_write(alloc: Global, owner: Name, entry: Entry) -> Result<Delta, Fault> {
    let version = entry.version();
    let before = version.saturating_sub(1);
    let shared = SharedEntry::new(alloc, entry)?;
    let block = Block::new(owner, 0, before, version, vec![in alloc; shared]?)?;
    delta_of_block(alloc, block)
}
