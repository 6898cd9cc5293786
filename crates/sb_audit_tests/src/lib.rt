//! The tests of what peers hold of a node's own name. They are in a crate of their own, since a crate with tests is
//! proved twice: with them and without.
#![tactic(auto)]

#[cfg(test)]
mod histories;
#[cfg(test)]
mod making;
#[cfg(test)]
mod reasons;
