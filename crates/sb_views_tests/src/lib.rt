//! The tests of views, pages, listings, watches, lines and the words of lines. They are in a crate of their own, since
//! a crate with tests is proved twice: with them and without.
#![tactic(auto)]

#[cfg(test)]
mod answers;
#[cfg(test)]
mod examples;
#[cfg(test)]
mod floors;
#[cfg(test)]
mod lines;
#[cfg(test)]
mod listings;
#[cfg(test)]
mod making;
#[cfg(test)]
mod pages;
#[cfg(test)]
mod printing;
#[cfg(test)]
mod reading;
#[cfg(test)]
mod statuses;
#[cfg(test)]
mod views;
#[cfg(test)]
mod watches;

#[cfg(test)]
use std::fmt::Debug;
#[cfg(test)]
use std::process::Abort;

/// Returns the answer. If it is a fault, ends the test and names the fault.
#[cfg(test)]
fn got<T, E: Debug + Drop>(rt: &impl Abort, answer: Result<T, E>) -> T {
    answer.expect(rt, "error")
}

/// Returns what must be there. If it is not, ends the test.
#[cfg(test)]
fn there<T>(rt: &impl Abort, value: Option<T>) -> T {
    value.expect(rt, "error: none")
}

/// Ends the test if the two differ. As a function it costs the prover a fifth of the macro.
#[cfg(test)]
fn same<T: PartialEq + Debug>(rt: &impl Abort, found: &T, wanted: &T) {
    assert_eq!(rt; found, wanted);
}

/// The same for one of many cases, which it names if the two differ.
#[cfg(test)]
fn same_at<N: Debug, T: PartialEq + Debug>(rt: &impl Abort, at: &N, found: &T, wanted: &T) {
    assert_eq!(rt; found, wanted, "{at:?}");
}

/// Ends the test if this does not hold.
#[cfg(test)]
fn holds(rt: &impl Abort, what: &str, holds: bool) {
    assert!(rt; holds, "{what}");
}
