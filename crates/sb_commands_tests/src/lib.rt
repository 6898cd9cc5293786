//! The tests of the commands. They are in a crate of their own, since a crate with tests is proved twice: with them and
//! without. What nodes answer to a command is tested by `tools/check-node`.
#![tactic(auto)]

#[cfg(test)]
mod examples;
