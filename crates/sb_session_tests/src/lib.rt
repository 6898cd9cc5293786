//! The tests of frames and of sessions. They are in a crate of their own, since a crate with tests is proved twice:
//! with them and without.
#![tactic(auto)]

#[cfg(test)]
mod connection;
#[cfg(test)]
mod examples;
#[cfg(test)]
mod frames;
#[cfg(test)]
mod hostile;
#[cfg(test)]
mod push;
#[cfg(test)]
mod receiving;
#[cfg(test)]
mod session;
#[cfg(test)]
mod talk;
#[cfg(test)]
mod wire;

#[cfg(test)]
use sb_types::Name;
#[cfg(test)]
use std::fmt::Debug;
#[cfg(test)]
use std::process::Abort;

/// Ends the test if the two differ. As a function it costs the prover a fifth of the macro.
#[cfg(test)]
fn same<T: PartialEq + Debug>(rt: &impl Abort, found: &T, wanted: &T) {
    assert_eq!(rt; found, wanted);
}

/// The same for one of many cases, which it names if the two differ.
#[cfg(test)]
fn same_at<N: Debug, T: PartialEq + Debug>(rt: &impl Abort, at: &N, found: &T, wanted: &T) {
    assert_eq!(rt; found, wanted, "{at:?}");
}

/// Returns the answer. If it is a fault, ends the test and names the fault.
#[cfg(test)]
fn got<T, E: Debug + Drop>(rt: &impl Abort, answer: Result<T, E>) -> T {
    answer.expect(rt, "error")
}

/// The name of this text.
#[cfg(test)]
fn name(rt: &impl Abort, text: &[u8]) -> Name {
    got(rt, Name::read(text))
}
