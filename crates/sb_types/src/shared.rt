//! Entries that tables, blocks and views share.

ghost use Rattle.std.specs.Prelude.{◌≡◌, ◌≤◌, true, Ok};
ghost use Rattle.sb_types.specs.Faults.{Gives};
ghost use Rattle.sb_types.specs.Lengths.{entry_length};
ghost use Rattle.sb_types.specs.Limits.{is_entry};

use crate::entry::{Entry, Slot};
use crate::fault::Fault;
use crate::format::ENTRY_LENGTH_MOST;
use crate::text::Key;
use std::alloc::Global;
use std::marker::Model;
use std::sync::Arc;

/// An entry that lies on the heap once, however many tables, blocks and views have it. It takes eight bytes in each of
/// them.
#[derive(Debug, Drop)]
pub struct SharedEntry {
    entry: Arc<Entry>,
}

impl Model for SharedEntry {
    ghost use Rattle.std.specs.Arc.{arc_value};
    ghost use Rattle.sb_types.specs.Records as records;

    ghost Value = { records.Entry };

    ghost view = { λ shared. arc_value shared.entry };
}

impl SharedEntry {
    /// Puts an entry on the heap. The only fault is `NoMemory`, which drops the entry.
    pub fn new(alloc: Global, entry: Entry) -> Result<SharedEntry, Fault>
        ensures entry { Gives result (Ok entry) }
    {
        match Arc::new(alloc, entry) {
            Ok(entry) => Ok(SharedEntry { entry }),
            Err(_) => Err(Fault::NoMemory),
        }
    }

    /// Returns the same entry once more, without a copy. The only fault is `NoMemory`, if it is shared 2^63 times.
    pub fn share(&self) -> Result<SharedEntry, Fault>
        ensures same { Gives result (Ok self.now) }
    {
        match Arc::try_clone(&self.entry) {
            Ok(entry) => Ok(SharedEntry { entry }),
            Err(_) => Err(Fault::NoMemory),
        }
    }

    /// Returns the entry.
    pub fn entry(&self) -> &Entry
        ensures entry { result.now ≡ self.now }
    {
        &self.entry
    }

    /// Returns the key that was written.
    pub fn key(&self) -> &Key
        ensures key { result.now ≡ self.now.key }
        ensures entry { is_entry self.now ≡ true }
    {
        self.entry().key()
    }

    /// Returns the version of the write, at least 1.
    pub fn version(&self) -> u64
        ensures version { result ≡ self.now.version }
        ensures entry { is_entry self.now ≡ true }
    {
        self.entry().version()
    }

    /// Returns what was written: a value or a tombstone.
    pub fn slot(&self) -> &Slot
        ensures slot { result.now ≡ self.now.slot }
        ensures entry { is_entry self.now ≡ true }
    {
        self.entry().slot()
    }

    /// Returns how many bytes the entry takes in a message: 11 to 588.
    pub fn encoded_length(&self) -> u64
        ensures length { result ≡ entry_length self.now }
        ensures entry { is_entry self.now ≡ true }
        ensures most { result ≤ ENTRY_LENGTH_MOST }
    {
        self.entry().encoded_length()
    }
}
