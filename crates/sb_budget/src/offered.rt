//! What is offered: an entry, with what an order and a cut have to know of it.
ghost use Rattle.std.specs.Prelude.{◌≡◌};
ghost use Rattle.sb_budget.specs.Making.{head_of};
ghost use Rattle.sb_budget.specs.Orders.{version_of};

use crate::head::Head;
use sb_types::{Name, SharedEntry};

/// An item that a peer lacks, with what an order and a cut have to know of it. The item is an entry, or only the news
/// of how far the sender holds an owner.
#[derive(Debug, Drop)]
pub struct Offered {
    /// Whose write it is.
    pub owner: Name,
    /// The purge floor under which the sender offers its table: tombstones (markers of removed keys) up to it are left
    /// out.
    pub floor: u64,
    /// The version above which the peer lacks the owner's writes.
    pub after: u64,
    /// The sender's held version of the owner.
    pub upto: u64,
    /// How many of the owner's items have a smaller version.
    pub rank: u64,
    /// How many items the owner has.
    pub count: u64,
    /// The write. It is `None` if the sender has no entry above `after`, but holds the owner further. Then this is the
    /// owner's only item.
    pub entry: Option<SharedEntry>,
}

impl Offered {
    /// Returns the version of the entry; or, if there is no entry, the sender's held version of the owner.
    pub fn version(&self) -> u64
        ensures version { result ≡ version_of self.now }
    {
        match &self.entry {
            Some(entry) => entry.version(),
            None => self.upto,
        }
    }

    /// Returns what its block contains besides entries.
    pub fn head(&self) -> Head
        ensures head { result ≡ head_of self.now }
    {
        Head {
            owner: self.owner,
            floor: self.floor,
            after: self.after,
            upto: self.upto,
        }
    }
}
