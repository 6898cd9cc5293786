//! The limits of watches.

/// The most watches of a hub at a time.
pub const WATCHES_MOST: usize = 64;

/// The most notes that a watch has room for.
pub const RING_MOST: usize = 1_024;
