//! What calls that change a directory give.
use sb_holdings::Report;
use sb_node::NodeCore;

/// A write was entered under this version. `shown` is true if the seat has seen it. It is false if there was no memory to publish
/// the write, or the seat could not enter. The write is entered all the same. The seat sees it when it enters after a `take_own`,
/// `apply`, `refresh` or `poll` from any seat has published it.
#[derive(Clone, Copy, PartialEq, Eq, Debug)]
pub struct Receipt {
    pub version: u64,
    pub shown: bool,
}

/// The own table was purged: its purge floor is `floor` from now on, and it has no removed key up to that version. `shown` says the
/// same as of a [`Receipt`].
#[derive(Clone, Copy, PartialEq, Eq, Debug)]
pub struct Purge {
    pub floor: u64,
    pub shown: bool,
}

/// How the blocks of a delta ended, in their order. `shown` is true if the seat has seen what was taken of them. If it is false,
/// that was taken all the same, as with a [`Receipt`].
#[derive(Drop)]
pub struct Applied {
    pub ends: Report,
    pub shown: bool,
}

/// The node of a directory that was closed, and how many events its history has.
#[derive(Drop)]
pub struct Closing {
    pub core: NodeCore,
    pub events: u64,
}
