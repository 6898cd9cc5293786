//! The tests of the crates of cuts, orders and the node. They are in a crate of their own, because a crate that
//! contains tests is proved twice: with them and without.
#![tactic(auto)]

#[cfg(test)]
mod as_if_purged;
#[cfg(test)]
mod both_ways;
#[cfg(test)]
mod budget;
#[cfg(test)]
mod examples;
#[cfg(test)]
mod floors;
#[cfg(test)]
mod making;
#[cfg(test)]
mod news;
#[cfg(test)]
mod node;
#[cfg(test)]
mod orders;
#[cfg(test)]
mod purging;
#[cfg(test)]
mod sessions;

#[cfg(test)]
use sb_types::{Entry, Fault, Key, Name, SharedEntry};
#[cfg(test)]
use std::alloc::Global;
#[cfg(test)]
use std::fmt::Debug;
#[cfg(test)]
use std::process::Abort;

/// Ends the test if the two differ. A function costs the prover a fifth of what the macro costs.
#[cfg(test)]
fn same<T: PartialEq + Debug>(rt: &impl Abort, found: &T, wanted: &T) {
    assert_eq!(rt; found, wanted);
}

/// Does the same for one of many cases, and names the case if the two differ.
#[cfg(test)]
fn same_at<N: Debug, T: PartialEq + Debug>(rt: &impl Abort, at: &N, found: &T, wanted: &T) {
    assert_eq!(rt; found, wanted, "{at:?}");
}

/// Ends the test if this does not hold.
#[cfg(test)]
fn holds(rt: &impl Abort, what: &str, holds: bool) {
    assert!(rt; holds, "{what}");
}

/// Returns the answer. If there is none, ends the test and names the fault.
#[cfg(test)]
fn got<T, E: Debug + Drop>(rt: &impl Abort, answer: Result<T, E>) -> T {
    answer.expect(rt, "error")
}

/// Returns the value. If there is none, ends the test.
#[cfg(test)]
fn there<T>(rt: &impl Abort, value: Option<T>) -> T {
    value.expect(rt, "error: none")
}

/// Returns the answer, also if it is a fault. Ends the test if there was no memory.
#[cfg(test)]
fn settled<T: Copy>(rt: &impl Abort, answer: Result<T, Fault>) -> Result<T, Fault> {
    match answer {
        Err(Fault::NoMemory) => panic!(rt; "error: NoMemory"),
        answer => answer,
    }
}

/// The name of this text.
#[cfg(test)]
fn name(rt: &impl Abort, text: &[u8]) -> Name {
    got(rt, Name::read(text))
}

/// The key of this text.
#[cfg(test)]
fn key(rt: &impl Abort, text: &[u8]) -> Key {
    got(rt, Key::read(text))
}

/// Puts an entry on the heap, and adds it to the vector.
#[cfg(test)]
fn push_entry(rt: &impl Abort, entries: &mut Vec<SharedEntry>, entry: Entry) {
    let alloc = *entries.allocator();
    let shared = got(rt, SharedEntry::new(alloc, entry));
    push(rt, entries, shared);
}

/// Adds an item to the vector.
#[cfg(test)]
fn push<T: Drop>(rt: &impl Abort, items: &mut Vec<T>, item: T) {
    got(rt, items.push(item));
}
