//! What a block contains besides its entries.
use sb_types::Name;

/// What a block contains besides its entries, and an item besides its entry.
#[derive(Clone, Copy, Debug)]
pub struct Head {
    /// Whose writes they are.
    pub owner: Name,
    /// The purge floor under which the sender offers its table: tombstones (markers of removed keys) up to it are left
    /// out.
    pub floor: u64,
    /// The version above which the peer lacks the owner's writes.
    pub after: u64,
    /// The sender's held version of the owner.
    pub upto: u64,
}
