//! How a node ends a block.
/// How a block ended at a node: the first of these that fits.
#[derive(Clone, Copy, Debug, PartialEq, Eq)]
pub enum BlockEnd {
    /// The block has the node's own name, and its `upto` is at or below the own held version. Nothing changes.
    Own,
    /// The block has the node's own name, and reaches up to this version, which the node never wrote. Nothing changes.
    OwnAhead(u64),
    /// The block does not join on. It begins above the held version; or its purge floor is above that, and it continues
    /// no stage and may begin none. Nothing changes.
    Gap,
    /// The held version has reached the block's `upto` and its floor. Nothing changes.
    Stale,
    /// The block would join on, but its owner is new, and there is no room for another owner. Nothing changes.
    OwnersFull,
    /// This many entries were taken: all that are above the held version, or above the stage's progress.
    Taken(u64),
    /// This many of those entries were taken, the first ones. The next would be key 4,097.
    TooManyKeys(u64),
    /// This many of those entries were taken, the first ones. Then there was no memory: for the next entry, for the
    /// place of a new owner, or for the swap of a stage.
    NoMemory(u64),
}
