//! Which node reports how it is.

use sb_types::{Name, ShortText};

/// The name of a node, its cluster, and the release that it runs.
#[derive(Clone, Copy, Debug)]
pub struct NodeIdentity {
    pub node: Name,
    pub cluster: Name,
    pub release: ShortText,
}
