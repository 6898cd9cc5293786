//! The question for the next change.

use sb_types::{Name, Prefix};

/// Asks a node to report the next change of rows:
///
/// - of the owner, or of every owner if there is none;
/// - whose keys begin with the prefix.
///
/// The node waits for a change for `wait` milliseconds.
#[derive(Clone, Copy, Debug)]
pub struct AskChange {
    pub owner: Option<Name>,
    pub prefix: Prefix,
    pub wait: u64,
}
