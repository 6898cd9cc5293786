//! The question for rows.

use sb_types::{Key, Name, Prefix};

/// Which rows are asked for:
///
/// - those of the owner, or of every owner if there is none;
/// - whose keys begin with the prefix;
/// - after the owner and the key of `after`, or from the first row on if there is none.
#[derive(Clone, Copy, Debug)]
pub struct Ask {
    pub owner: Option<Name>,
    pub prefix: Prefix,
    pub after: Option<(Name, Key)>,
}
