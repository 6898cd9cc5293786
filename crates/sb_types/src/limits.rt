//! The limits of the directory, each in one place.

use crate::format::HEADER_LENGTH;

/// The most bytes of a node's, an owner's or a cluster's name.
pub const NAME_MOST: usize = 32;

/// The most bytes of a key, and of a prefix of keys.
pub const KEY_MOST: usize = 64;

/// The most bytes of an address.
pub const ADDR_MOST: usize = 128;

/// The most bytes of a text.
pub const TEXT_MOST: usize = 512;

/// The most bytes of a short text: the release of a node, or the path of a socket.
pub const SHORT_TEXT_MOST: usize = 128;

/// The greatest weight, 2^63 - 1.
pub const WEIGHT_MOST: u64 = 9_223_372_036_854_775_807;

/// The most owners that a node holds, itself included.
pub const OWNERS_MOST: usize = 1_024;

/// The most keys of one owner, tombstones (the markers of removed keys) included.
pub const KEYS_MOST: usize = 4_096;

/// The most entries of one block.
pub const ENTRIES_MOST: usize = 65_535;

/// The greatest version that settings may allow, 2^40 - 1.
pub const VERSION_MOST: u64 = 1_099_511_627_775;

/// The most seats of a directory.
pub const SEATS_MOST: u64 = 64;

/// The most workers of a node.
pub const WORKERS_MOST: u64 = 62;

/// The least budget of a frame in bytes: the longest delta of one entry fits it.
pub const BUDGET_LEAST: u64 = 1_024;

/// The most bytes of a payload.
pub const PAYLOAD_MOST: u64 = 65_530;

/// The greatest budget of a frame in bytes: the longest frame fits it.
pub const BUDGET_MOST: u64 = HEADER_LENGTH + PAYLOAD_MOST;

/// The greatest number of a fault.
pub const FAULT_NUMBER_MOST: u8 = 31;
