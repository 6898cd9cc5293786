//! The tests of the crates of values, tables, holdings, digests and messages. They are in a crate of their own, because
//! a crate that contains tests is proved twice: with them and without.
#![tactic(auto)]

ghost use Rattle.std.specs.Prelude.{◌≤◌};

#[cfg(test)]
mod ages;
#[cfg(test)]
mod codec;
#[cfg(test)]
mod digest;
#[cfg(test)]
mod examples;
#[cfg(test)]
mod faults;
#[cfg(test)]
mod holdings;
#[cfg(test)]
mod kinds;
#[cfg(test)]
mod stages;
#[cfg(test)]
mod status;
#[cfg(test)]
mod swaps;
#[cfg(test)]
mod table;
#[cfg(test)]
mod types;
#[cfg(test)]
mod words;

#[cfg(test)]
use sb_types::{Entry, Fault, Key, Name, SharedEntry, Slot, Value};
#[cfg(test)]
use std::alloc::Global;
#[cfg(test)]
use std::fmt::Debug;
#[cfg(test)]
use std::process::Abort;

/// Ends the test if the two differ. A function costs the prover a fifth of what the macro costs.
#[cfg(test)]
fn same<T: PartialEq + Debug>(rt: &impl Abort, found: &T, wanted: &T) {
    assert_eq!(rt; found, wanted);
}

/// Does the same for one of many cases, and names the case if the two differ.
#[cfg(test)]
fn same_at<N: Debug, T: PartialEq + Debug>(rt: &impl Abort, at: &N, found: &T, wanted: &T) {
    assert_eq!(rt; found, wanted, "{at:?}");
}

/// Ends the test if this does not hold.
#[cfg(test)]
fn holds(rt: &impl Abort, what: &str, holds: bool) {
    assert!(rt; holds, "{what}");
}

/// Returns the answer. If there is none, ends the test and names the fault.
#[cfg(test)]
fn got<T, E: Debug + Drop>(rt: &impl Abort, answer: Result<T, E>) -> T {
    answer.expect(rt, "error")
}

/// Returns the answer, also if it is a fault. Ends the test if there was no memory.
#[cfg(test)]
fn settled<T: Copy>(rt: &impl Abort, answer: Result<T, Fault>) -> Result<T, Fault> {
    match answer {
        Err(Fault::NoMemory) => panic!(rt; "error: NoMemory"),
        answer => answer,
    }
}

/// Returns the fault that is answered, if any. Ends the test if there was no memory.
#[cfg(test)]
fn refusal<T: Drop>(rt: &impl Abort, answer: Result<T, Fault>) -> Option<Fault> {
    match answer.err() {
        Some(Fault::NoMemory) => panic!(rt; "error: NoMemory"),
        fault => fault,
    }
}

#[cfg(test)]
fn name(rt: &impl Abort, text: &[u8]) -> Name {
    got(rt, Name::read(text))
}

#[cfg(test)]
fn key(rt: &impl Abort, text: &[u8]) -> Key {
    got(rt, Key::read(text))
}

#[cfg(test)]
fn weight(rt: &impl Abort, weight: u64) -> Value {
    got(rt, Value::weight(weight))
}

/// A write of this key.
#[cfg(test)]
fn entry(rt: &impl Abort, text: &[u8], version: u64, slot: Slot) -> Entry
    requires { 1 ≤ version }
{
    Entry::new(key(rt, text), version, slot)
}

/// A write that sets this key to a weight.
#[cfg(test)]
fn weighing(rt: &impl Abort, text: &[u8], version: u64, number: u64) -> Entry
    requires { 1 ≤ version }
{
    entry(rt, text, version, Slot::Set(weight(rt, number)))
}

/// Puts an entry on the heap, for blocks and tables. Ends the test if there is no memory.
#[cfg(test)]
fn shared(rt: &impl Abort, alloc: Global, entry: Entry) -> SharedEntry {
    got(rt, SharedEntry::new(alloc, entry))
}

/// A vector of one item.
#[cfg(test)]
fn one<T: Drop>(rt: &impl Abort, alloc: Global, item: T) -> Vec<T> {
    let mut items = Vec::new(alloc);
    push(rt, &mut items, item);
    items
}

/// Adds an item to the vector.
#[cfg(test)]
fn push<T: Drop>(rt: &impl Abort, items: &mut Vec<T>, item: T) {
    got(rt, items.push(item));
}
