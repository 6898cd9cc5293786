//! The greeting of each end: its cluster and its name.

use sb_types::Name;

/// The cluster of a node, and the node's name.
#[derive(Clone, Copy, Debug)]
pub struct Hello {
    pub cluster: Name,
    pub node: Name,
}
