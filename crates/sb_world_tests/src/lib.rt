//! The tests of worlds and scripts. They are in a crate of their own, since a crate with tests is proved twice: with
//! them and without.
#![tactic(auto)]

#[cfg(test)]
mod examples;
#[cfg(test)]
mod making;
#[cfg(test)]
mod real;
#[cfg(test)]
mod scripts;
#[cfg(test)]
mod transcripts;
#[cfg(test)]
mod whole_way;
#[cfg(test)]
mod world;

#[cfg(test)]
use sb_types::{Key, Name};
#[cfg(test)]
use std::fmt::Debug;
#[cfg(test)]
use std::process::Abort;

/// Ends the test if the two differ. As a function it costs the prover a fifth of the macro.
#[cfg(test)]
fn same<T: PartialEq + Debug>(rt: &impl Abort, found: &T, wanted: &T) {
    assert_eq!(rt; found, wanted);
}

/// Ends the test if this does not hold.
#[cfg(test)]
fn holds(rt: &impl Abort, what: &str, holds: bool) {
    assert!(rt; holds, "{what}");
}

/// Returns the answer. If it is a fault, ends the test and names the fault.
#[cfg(test)]
fn got<T, E: Debug + Drop>(rt: &impl Abort, answer: Result<T, E>) -> T {
    answer.expect(rt, "error")
}

/// The name of this text.
#[cfg(test)]
fn name(rt: &impl Abort, text: &[u8]) -> Name {
    got(rt, Name::read(text))
}

/// The key of this text.
#[cfg(test)]
fn key(rt: &impl Abort, text: &[u8]) -> Key {
    got(rt, Key::read(text))
}
