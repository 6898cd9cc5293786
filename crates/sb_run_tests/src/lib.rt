//! The tests of the running node. They are in a crate of their own, since a crate with tests is proved twice: with them
//! and without.
#![tactic(auto)]

#[cfg(test)]
mod auditing;
#[cfg(test)]
mod closing;
#[cfg(test)]
mod examples;
#[cfg(test)]
mod forgetting;
#[cfg(test)]
mod hearing;
#[cfg(test)]
mod making;
#[cfg(test)]
mod over_http;
#[cfg(test)]
mod peers;
#[cfg(test)]
mod pushing;
#[cfg(test)]
mod running;
#[cfg(test)]
mod side_by_side;
#[cfg(test)]
mod silence;
#[cfg(test)]
mod starting;
#[cfg(test)]
mod statuses;
#[cfg(test)]
mod suffering;
#[cfg(test)]
mod telling;
#[cfg(test)]
mod waking;
#[cfg(test)]
mod watching;

#[cfg(test)]
use std::fmt::Debug;
#[cfg(test)]
use std::process::Abort;

/// Returns the answer. If it is a fault, ends the test and names the fault.
#[cfg(test)]
fn got<T, E: Debug + Drop>(rt: &impl Abort, answer: Result<T, E>) -> T {
    answer.expect(rt, "error")
}

/// Ends the test if the two differ. As a function it costs the prover a fifth of the macro.
#[cfg(test)]
fn same<T: PartialEq + Debug>(rt: &impl Abort, found: &T, wanted: &T) {
    assert_eq!(rt; found, wanted);
}

/// Ends the test if this does not hold.
#[cfg(test)]
fn holds(rt: &impl Abort, what: &str, holds: bool) {
    assert!(rt; holds, "{what}");
}
