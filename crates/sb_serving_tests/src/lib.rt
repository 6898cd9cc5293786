//! The tests of what serves one connection: requests, own writes, and the sessions of a pool, without a running node. They are in
//! a crate of their own, so that they are proved beside those of the running node.
#![tactic(auto)]

#[cfg(test)]
mod asking;
#[cfg(test)]
mod causes;
#[cfg(test)]
mod deferring;
#[cfg(test)]
mod desk;
#[cfg(test)]
mod failing;
#[cfg(test)]
mod falling;
#[cfg(test)]
mod making;
#[cfg(test)]
mod owing;
#[cfg(test)]
mod owning;
#[cfg(test)]
mod pooling;
#[cfg(test)]
mod purging;

#[cfg(test)]
use std::fmt::Debug;
#[cfg(test)]
use std::process::Abort;

/// Returns the answer. If it is a fault, ends the test and names the fault.
#[cfg(test)]
fn got<T, E: Debug + Drop>(rt: &impl Abort, answer: Result<T, E>) -> T {
    answer.expect(rt, "error")
}

/// Returns what must be there. If it is not, ends the test.
#[cfg(test)]
fn there<T>(rt: &impl Abort, value: Option<T>) -> T {
    value.expect(rt, "error: none")
}

/// Ends the test if the two differ. As a function it costs the prover a fifth of the macro.
#[cfg(test)]
fn same<T: PartialEq + Debug>(rt: &impl Abort, found: &T, wanted: &T) {
    assert_eq!(rt; found, wanted);
}

/// Ends the test if this does not hold.
#[cfg(test)]
fn holds(rt: &impl Abort, what: &str, holds: bool) {
    assert!(rt; holds, "{what}");
}
