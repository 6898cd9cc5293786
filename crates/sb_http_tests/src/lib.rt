//! The tests of requests over HTTP and their answers. They are in a crate of their own, since a crate with tests is
//! proved twice: with them and without.
#![tactic(auto)]

#[cfg(test)]
mod answers;
#[cfg(test)]
mod examples;
#[cfg(test)]
mod fixed;
#[cfg(test)]
mod parts;
#[cfg(test)]
mod writes;

#[cfg(test)]
use std::fmt::Debug;
#[cfg(test)]
use std::process::Abort;

/// Returns the answer. If it is a fault, ends the test and names the fault.
#[cfg(test)]
fn got<T, E: Debug + Drop>(rt: &impl Abort, answer: Result<T, E>) -> T {
    answer.expect(rt, "error")
}

/// Ends the test if the two differ. As a function it costs the prover a fifth of the macro.
#[cfg(test)]
fn same<T: PartialEq + Debug>(rt: &impl Abort, found: &T, wanted: &T) {
    assert_eq!(rt; found, wanted);
}
