//! The tests of the owner's log. They are in a crate of their own, since a crate with tests is proved twice: with them
//! and without.
#![tactic(auto)]

#[cfg(test)]
mod begins;
#[cfg(test)]
mod causes;
#[cfg(test)]
mod crashes;
#[cfg(test)]
mod database;
#[cfg(test)]
mod disks;
#[cfg(test)]
mod examples;
#[cfg(test)]
mod faulty;
#[cfg(test)]
mod lasting;
#[cfg(test)]
mod lent;
#[cfg(test)]
mod memory;
#[cfg(test)]
mod openings;
#[cfg(test)]
mod purge_crashes;
#[cfg(test)]
mod purges;
#[cfg(test)]
mod visits;
#[cfg(test)]
mod writes;
#[cfg(test)]
mod written_back;

#[cfg(test)]
use std::fmt::Debug;
#[cfg(test)]
use std::process::Abort;

/// Returns the answer. If it is a fault, ends the test and names the fault.
#[cfg(test)]
fn got<T, E: Debug + Drop>(rt: &impl Abort, answer: Result<T, E>) -> T {
    answer.expect(rt, "error")
}

/// Ends the test if the two differ. As a function it costs the prover a fifth of the macro.
#[cfg(test)]
fn same<T: PartialEq + Debug>(rt: &impl Abort, found: &T, wanted: &T) {
    assert_eq!(rt; found, wanted);
}

/// The same for one of many cases, which it names if the two differ.
#[cfg(test)]
fn same_at<N: Debug, T: PartialEq + Debug>(rt: &impl Abort, at: &N, found: &T, wanted: &T) {
    assert_eq!(rt; found, wanted, "{at:?}");
}
