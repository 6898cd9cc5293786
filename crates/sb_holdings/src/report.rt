//! How the blocks of a delta ended.
ghost use Rattle.std.specs.Prelude.{◌≡◌, length, ◌==◌};

use crate::ends::BlockEnd;
use std::marker::Model;

/// How the blocks of a delta ended: one end for each block, in the order of the blocks.
#[derive(Debug, Drop)]
pub struct Report {
    ends: Vec<BlockEnd>,
}

impl Model for Report {
    ghost use Rattle.std.specs.Prelude.{List};
    ghost use Rattle.sb_holdings.specs.declared.ends.BlockEnd.{BlockEnd};

    ghost Value = { List BlockEnd };

    ghost view = { λ r. r.ends.items };
}

impl Report {
    /// Makes the report of these ends. It takes no memory.
    pub fn new(ends: Vec<BlockEnd>) -> Report
        ensures { result ≡ ends.items }
    {
        Report { ends }
    }

    /// Returns the ends, in the order of the blocks.
    pub fn ends(&self) -> &[BlockEnd]
        ensures { result.now ≡ self.now }
    {
        &self.ends
    }

    /// Returns how many blocks ended.
    pub fn len(&self) -> usize
        ensures { result ≡ length self.now }
    {
        self.ends.len()
    }

    /// Returns whether the delta had no blocks.
    pub fn is_empty(&self) -> bool
        ensures { result ≡ (length self.now == 0) }
    {
        self.ends.is_empty()
    }
}
