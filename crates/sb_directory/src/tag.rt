//! Which running node a directory shares.

use sb_views::NodeTag;
use std::marker::Brand;

/// Which running node a directory shares, with the settings of the node. It exists in proofs alone, as a type parameter.
pub trait DirectoryTag: NodeTag {
    ghost use Rattle.sb_types.specs.Records.{Settings};

    ghost settings: { Settings };
}

impl DirectoryTag for Brand {
    ghost use Rattle.std.specs.Prelude.{[]};
    ghost use Rattle.sb_types.specs.declared.settings.Order.TheVariants as orders;

    ghost settings = { record { cluster = []; budget = 0; order = orders.Breadth; max_version = 0; seats = 0; workers = 0 } };
}
