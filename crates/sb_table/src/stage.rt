//! Stages: what has arrived of a table that will replace another.

ghost use Rattle.std.specs.Prelude.{◌≡◌, ◌≤◌, ◌<◌, true, [], if◌then◌else◌, Ok, Err, OnOk, OnErr};
ghost use Rattle.sb_types.specs.Faults.{Gives};
ghost use Rattle.sb_table.specs.Plain.{is_full_for};
ghost use Rattle.sb_table.specs.Floors.{IsKeptStage, stage_at_progress, stage_with_entry};

use crate::entries::{Entries, push_later, push_shared_later};
use sb_types::{Entry, Fault, Key, SharedEntry};
use std::alloc::Global;
use std::marker::Model;

/// What has arrived of a table that will replace the shown one: at most 4,096 entries, up to the version `progress`.
/// Its floor is the purge floor of the table that it will be. It replaces the shown table only once its progress has
/// reached the floor. Until then it also keeps tombstones (the markers of removed keys) up to the floor.
#[derive(Debug, Drop)]
pub struct Stage {
    pub(crate) floor: u64,
    pub(crate) progress: u64,
    pub(crate) entries: Entries,
}

impl Model for Stage {
    ghost use Rattle.sb_types.specs.Records as records;
    ghost use Rattle.sb_table.specs.Floors.{IsKeptStage};

    ghost Value = { records.Stage };

    ghost view = { λ s. record { floor = s.floor; progress = s.progress; entries = s.entries.entries } };

    ghost invariant = { λ s. IsKeptStage (record { floor = s.floor; progress = s.progress; entries = s.entries.entries }) };
}

impl Stage {
    /// Makes an empty stage of this floor, of progress 0. It takes no memory.
    pub fn new(alloc: Global, floor: u64) -> Stage
        ensures nothing { result ≡ record { floor = floor; progress = 0; entries = [] } }
        ensures stage { IsKeptStage result }
    {
        Stage {
            floor,
            progress: 0,
            entries: Entries::new(alloc),
        }
    }

    /// Returns the purge floor that its table will have once it is shown.
    pub fn floor(&self) -> u64
        ensures floor { result ≡ self.now.floor }
        ensures stage { IsKeptStage self.now }
    {
        self.floor
    }

    /// Returns the version up to which the table has arrived.
    pub fn progress(&self) -> u64
        ensures progress { result ≡ self.now.progress }
        ensures stage { IsKeptStage self.now }
    {
        self.progress
    }

    /// Returns whether there is no room for a key: it is new, and the stage has 4,096 others.
    pub fn is_full_for(&self, key: &Key) -> bool
        ensures full { result ≡ is_full_for key.now self.now.entries }
        ensures stage { IsKeptStage self.now }
    {
        self.entries.is_full_for(key)
    }

    /// Enters a write whose version has to be above the progress. It replaces the entry of its key, and its version is
    /// the progress from then on. Its faults, in this order. Each leaves the stage as it was:
    ///
    /// - `TableFull`: the key is new, and the stage has 4,096 others.
    /// - `NoMemory`.
    pub fn push(&mut self, entry: Entry) -> Result<(), Fault>
        requires { self.old.progress < entry.version }
        ensures answer { Gives result (if is_full_for entry.key self.old.entries then Err Fault.TableFull else Ok tt) }
        ensures full { is_full_for entry.key self.old.entries ≡ true → result ≡ Err Fault.TableFull }
        ensures ok { OnOk result (self.new ≡ stage_with_entry self.old entry) }
        ensures err { OnErr result (self.new ≡ self.old) }
        ensures stage { IsKeptStage self.new }
    {
        let version = entry.version();
        // Proof only: the call shows that the entries keep their limits.
        let _ = self.entries.upto();
        push_later(&mut self.entries, &mut self.progress, version, entry)
    }

    /// Enters the same write as a block has, without a copy of it. It requires what `push` does, and has its faults.
    pub fn push_shared(&mut self, entry: &SharedEntry) -> Result<(), Fault>
        requires { self.old.progress < entry.now.version }
        ensures answer { Gives result (if is_full_for entry.now.key self.old.entries then Err Fault.TableFull else Ok tt) }
        ensures full { is_full_for entry.now.key self.old.entries ≡ true → result ≡ Err Fault.TableFull }
        ensures ok { OnOk result (self.new ≡ stage_with_entry self.old entry.now) }
        ensures err { OnErr result (self.new ≡ self.old) }
        ensures stage { IsKeptStage self.new }
    {
        let version = entry.version();
        // Proof only: the call shows that the entries keep their limits.
        let _ = self.entries.upto();
        push_shared_later(&mut self.entries, &mut self.progress, version, entry)
    }

    /// Raises the progress to a version without an entry. The progress must not fall. It takes no memory.
    pub fn raise(&mut self, progress: u64)
        requires further { self.old.progress ≤ progress }
        ensures raised { self.new ≡ stage_at_progress progress self.old }
        ensures stage { IsKeptStage self.new }
    {
        self.progress = progress;
    }
}
