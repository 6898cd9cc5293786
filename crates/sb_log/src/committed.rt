//! A write that is in its owner's log.
ghost use Rattle.std.specs.Prelude.{◌≡◌, true};
ghost use Rattle.sb_types.specs.Limits.{is_entry};
ghost use Rattle.sb_types.specs.Text.{is_name};

use sb_types::{Entry, Name};
use std::marker::Model;

/// A write that a log took: its owner, and the entry with its version. Only a log makes it, and it can't be copied.
#[derive(Debug, Drop)]
pub struct Committed {
    owner: Name,
    entry: Entry,
}

impl Model for Committed {
    ghost use Rattle.sb_log.specs.Records as records;

    ghost Value = { records.Committed };

    ghost view = { λ c. record { owner = c.owner; entry = c.entry } };
}

impl Committed {
    pub(crate) fn new(owner: Name, entry: Entry) -> Committed
        ensures { result ≡ record { owner = owner; entry = entry } }
    {
        Committed { owner, entry }
    }

    /// The owner of the write.
    pub fn owner(&self) -> &Name
        ensures owner { result.now ≡ self.now.owner }
        ensures name { is_name self.now.owner ≡ true }
    {
        // Does nothing: the call tells the prover that the name keeps its limits.
        let _ = self.owner.bytes();
        &self.owner
    }

    /// The write, with its version.
    pub fn entry(&self) -> &Entry
        ensures entry { result.now ≡ self.now.entry }
        ensures limits { is_entry self.now.entry ≡ true }
    {
        // Does nothing: the call tells the prover that the entry keeps its limits.
        let _ = self.entry.version();
        &self.entry
    }
}
