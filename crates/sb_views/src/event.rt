//! What happens to a node.

use sb_holdings::Report;
use sb_types::{Delta, Entry};

/// An event of a node. It took a committed write of its own, or a delta whose blocks ended so. Or it purged its own table
/// up to a version. Events are named in contracts alone: no value of this type is made.
#[derive(Drop)]
pub enum Event {
    TookOwn(Entry),
    Applied(Delta, Report),
    Purged(u64),
}

/// The parts of an event, lent, as it is added to a history.
#[derive(Clone, Copy)]
pub enum EventRef<'a> {
    TookOwn(&'a Entry),
    Applied(&'a Delta, &'a Report),
    Purged(u64),
}
