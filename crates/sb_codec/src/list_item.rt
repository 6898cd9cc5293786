//! What counted lists contain.

use crate::fields::Fields;
use crate::message::{Figure, OwnerAge, PeerStatus, Row};
use crate::refusal::Refusal;
use crate::writing::{
    write_age, write_block, write_entry, write_figure, write_pair, write_peer, write_row,
};
use sb_digest::Pair;
use sb_types::{Block, SharedEntry};
use std::alloc::{AllocError, Global};

/// An item of a counted list.
pub(crate) trait ListItem: Drop {
    ghost use Rattle.std.specs.Prelude.{◌≡◌, ℕ, ◌<◌, List, [], ◌++◌, length, Some, OnOk};
    ghost use Rattle.sb_codec.specs.Refusal.{Reads};
    ghost use Rattle.sb_codec.specs.Fields.{Field};
    ghost use Rattle.sb_codec.specs.Standing.{StandsFirst};

    ghost spelling: { Self → List ℕ };

    ghost field: { Field Self };

    ghost LEAST: { ℕ };

    /// The fewest bytes that an item takes.
    const LEAST: usize;

    /// Reads the next item. Returns `Malformed` if no item is spelled there, and `Memory` if there is no memory.
    fn read(alloc: Global, fields: &mut Fields<'_>) -> Result<Self, Refusal>
        ensures { Reads (λ x. x) (field fields.old) result fields.new };

    /// Writes the item after what is in `out`.
    fn write(&self, out: &mut Vec<u8>) -> Result<(), AllocError>
        ensures written { OnOk result (out.new.items ≡ out.old.items ++ spelling self.now) }
        ensures stands { StandsFirst out.old.items out.new.items };

    ghost least: { 0 < LEAST };

    /// Some item takes no more.
    ghost reached: { (item : Self) × (field (spelling item) ≡ Some (item, [])) × (length (spelling item) ≡ LEAST) };
}

impl ListItem for SharedEntry {
    ghost use Rattle.std.specs.Prelude.{◌<◌};
    ghost use Rattle.std.proofs.Common.{lit<};
    ghost use Rattle.sb_codec.specs.Spelling.{entry};
    ghost use Rattle.sb_codec.specs.Reading.{entry_field};
    ghost use Rattle.sb_codec.specs.Least.{entry_reached};

    ghost spelling = { entry };

    ghost field = { entry_field };

    ghost LEAST = { 11 };

    // A key of one byte with its length, the version, and the tag of a tombstone (the marker of a removed key).
    const LEAST: usize = 11;

    ghost least = { lit< tt };

    ghost reached = { entry_reached };

    fn read(alloc: Global, fields: &mut Fields<'_>) -> Result<SharedEntry, Refusal> {
        fields.shared_entry(alloc)
    }

    fn write(&self, out: &mut Vec<u8>) -> Result<(), AllocError> {
        write_entry(out, self)
    }
}

impl ListItem for Block {
    ghost use Rattle.std.specs.Prelude.{◌<◌};
    ghost use Rattle.std.proofs.Common.{lit<};
    ghost use Rattle.sb_codec.specs.Spelling.{block};
    ghost use Rattle.sb_codec.specs.Reading.{block_field};
    ghost use Rattle.sb_codec.specs.Least.{block_reached};

    ghost spelling = { block };

    ghost field = { block_field };

    ghost LEAST = { 28 };

    // An owner of one byte with its length, the purge floor, the versions `after` and `upto`, and the count.
    const LEAST: usize = 28;

    ghost least = { lit< tt };

    ghost reached = { block_reached };

    fn read(alloc: Global, fields: &mut Fields<'_>) -> Result<Block, Refusal> {
        fields.block(alloc)
    }

    fn write(&self, out: &mut Vec<u8>) -> Result<(), AllocError> {
        write_block(out, self)
    }
}

impl ListItem for Pair {
    ghost use Rattle.std.specs.Prelude.{◌<◌};
    ghost use Rattle.std.proofs.Common.{lit<};
    ghost use Rattle.sb_codec.specs.Spelling.{pair};
    ghost use Rattle.sb_codec.specs.Reading.{pair_field};
    ghost use Rattle.sb_codec.specs.Least.{pair_reached};

    ghost spelling = { pair };

    ghost field = { pair_field };

    ghost LEAST = { 26 };

    // An owner of one byte with its length, the held version, and the floor and the progress of a stage.
    const LEAST: usize = 26;

    ghost least = { lit< tt };

    ghost reached = { pair_reached };

    fn read(_: Global, fields: &mut Fields<'_>) -> Result<Pair, Refusal> {
        fields.pair()
    }

    fn write(&self, out: &mut Vec<u8>) -> Result<(), AllocError> {
        write_pair(out, self)
    }
}

impl ListItem for Row {
    ghost use Rattle.std.specs.Prelude.{◌<◌};
    ghost use Rattle.std.proofs.Common.{lit<};
    ghost use Rattle.sb_codec.specs.Spelling.{row};
    ghost use Rattle.sb_codec.specs.Reading.{row_field};
    ghost use Rattle.sb_codec.specs.Least.{row_reached};

    ghost spelling = { row };

    ghost field = { row_field };

    ghost LEAST = { 14 };

    // An owner and a key of one byte with their lengths, the version, the tag, and a flag.
    const LEAST: usize = 14;

    ghost least = { lit< tt };

    ghost reached = { row_reached };

    fn read(alloc: Global, fields: &mut Fields<'_>) -> Result<Row, Refusal> {
        fields.row(alloc)
    }

    fn write(&self, out: &mut Vec<u8>) -> Result<(), AllocError> {
        write_row(out, self)
    }
}

impl ListItem for Figure {
    ghost use Rattle.std.specs.Prelude.{◌<◌};
    ghost use Rattle.std.proofs.Common.{lit<};
    ghost use Rattle.sb_codec.specs.Spelling.{figure};
    ghost use Rattle.sb_codec.specs.Reading.{figure_field};
    ghost use Rattle.sb_codec.specs.Least.{figure_reached};

    ghost spelling = { figure };

    ghost field = { figure_field };

    ghost LEAST = { 9 };

    // The number of the kind, and the value.
    const LEAST: usize = 9;

    ghost least = { lit< tt };

    ghost reached = { figure_reached };

    fn read(_: Global, fields: &mut Fields<'_>) -> Result<Figure, Refusal> {
        fields.figure()
    }

    fn write(&self, out: &mut Vec<u8>) -> Result<(), AllocError> {
        write_figure(out, self)
    }
}

impl ListItem for PeerStatus {
    ghost use Rattle.std.specs.Prelude.{◌<◌};
    ghost use Rattle.std.proofs.Common.{lit<};
    ghost use Rattle.sb_codec.specs.Spelling.{peer};
    ghost use Rattle.sb_codec.specs.Reading.{peer_field};
    ghost use Rattle.sb_codec.specs.Least.{peer_reached};

    ghost spelling = { peer };

    ghost field = { peer_field };

    ghost LEAST = { 11 };

    // A path of one byte with its length, the state, and the number of a round.
    const LEAST: usize = 11;

    ghost least = { lit< tt };

    ghost reached = { peer_reached };

    fn read(_: Global, fields: &mut Fields<'_>) -> Result<PeerStatus, Refusal> {
        fields.peer()
    }

    fn write(&self, out: &mut Vec<u8>) -> Result<(), AllocError> {
        write_peer(out, self)
    }
}

impl ListItem for OwnerAge {
    ghost use Rattle.std.specs.Prelude.{◌<◌};
    ghost use Rattle.std.proofs.Common.{lit<};
    ghost use Rattle.sb_codec.specs.Spelling.{owner_age};
    ghost use Rattle.sb_codec.specs.Reading.{age_field};
    ghost use Rattle.sb_codec.specs.Least.{age_reached};

    ghost spelling = { owner_age };

    ghost field = { age_field };

    ghost LEAST = { 10 };

    // An owner of one byte with its length, and the age.
    const LEAST: usize = 10;

    ghost least = { lit< tt };

    ghost reached = { age_reached };

    fn read(_: Global, fields: &mut Fields<'_>) -> Result<OwnerAge, Refusal> {
        fields.age()
    }

    fn write(&self, out: &mut Vec<u8>) -> Result<(), AllocError> {
        write_age(out, self)
    }
}
