//! Writes, and entries, which are writes with their versions.

ghost use Rattle.std.specs.Prelude.{◌≡◌, ◌≤◌, true, Ok, IfErr};
ghost use Rattle.sb_types.specs.Lengths.{slot_length, entry_length};
ghost use Rattle.sb_types.specs.Limits.{is_slot, is_entry, slot_holds_text};
ghost use Rattle.sb_types.specs.Faults.{Gives};

use crate::fault::Fault;
use crate::format::{BYTE_LENGTH, ENTRY_LENGTH_MOST, NUMBER_LENGTH, VALUE_LENGTH_MOST};
use crate::text::Key;
use crate::value::Value;
use std::alloc::Global;
use std::marker::Model;

/// What is under a key: a value, or a tombstone, which is the marker of a removed key.
#[derive(Debug, Drop)]
pub enum Slot {
    Set(Value),
    Removed,
}

/// A write of an owner: what it puts under a key.
#[derive(Debug, Drop)]
pub struct Write {
    pub key: Key,
    pub slot: Slot,
}

/// A write with its version, which is at least 1.
#[derive(Debug, Drop)]
pub struct Entry {
    key: Key,
    version: u64,
    slot: Slot,
}

impl Model for Entry {
    ghost use Rattle.std.specs.Prelude.{◌≡◌, true};
    ghost use Rattle.sb_types.specs.Records as records;

    ghost Value = { records.Entry };

    ghost use Rattle.sb_types.specs.Limits.{is_entry};

    ghost view = { λ e. record { key = e.key; version = e.version; slot = e.slot } };

    ghost invariant = { λ e. is_entry (record { key = e.key; version = e.version; slot = e.slot }) ≡ true };
}

impl Slot {
    /// Returns an equal slot. Returns `NoMemory` only if it contains an address or a text.
    pub fn copy(&self, alloc: Global) -> Result<Slot, Fault>
        ensures copied { Gives result (Ok self.now) }
        ensures memory { IfErr result (λ _. slot_holds_text self.now ≡ true) }
    {
        match self {
            Slot::Set(value) => Ok(Slot::Set(value.copy(alloc)?)),
            Slot::Removed => Ok(Slot::Removed),
        }
    }

    /// Returns how many bytes the slot takes in a message, without its tag: 0 for a tombstone, else 1 to 514.
    pub fn encoded_length(&self) -> u64
        ensures length { result ≡ slot_length self.now }
        ensures slot { is_slot self.now ≡ true }
        ensures most { result ≤ VALUE_LENGTH_MOST }
    {
        match self {
            Slot::Set(value) => value.encoded_length(),
            Slot::Removed => 0,
        }
    }
}

impl Entry {
    /// Makes an entry of this version, which has to be at least 1. It takes no memory.
    pub fn new(key: Key, version: u64, slot: Slot) -> Entry
        requires { 1 ≤ version }
        ensures { result ≡ record { key = key; version = version; slot = slot } }
    {
        // Proof only: the calls show that the key and the slot keep their limits.
        let _ = key.bytes();
        let _ = slot.encoded_length();
        Entry { key, version, slot }
    }

    /// Returns the key that was written.
    pub fn key(&self) -> &Key
        ensures key { result.now ≡ self.now.key }
        ensures entry { is_entry self.now ≡ true }
    {
        &self.key
    }

    /// Returns the version of the write, at least 1.
    pub fn version(&self) -> u64
        ensures version { result ≡ self.now.version }
        ensures entry { is_entry self.now ≡ true }
    {
        self.version
    }

    /// Returns what was written: a value or a tombstone.
    pub fn slot(&self) -> &Slot
        ensures slot { result.now ≡ self.now.slot }
        ensures entry { is_entry self.now ≡ true }
    {
        &self.slot
    }

    /// Returns an equal entry. Returns `NoMemory` only if it contains an address or a text.
    pub fn copy(&self, alloc: Global) -> Result<Entry, Fault>
        ensures copied { Gives result (Ok self.now) }
        ensures memory { IfErr result (λ _. slot_holds_text self.now.slot ≡ true) }
    {
        Ok(Entry {
            key: self.key,
            version: self.version,
            slot: self.slot.copy(alloc)?,
        })
    }

    /// Returns how many bytes the entry takes in a message: 11 to 588.
    pub fn encoded_length(&self) -> u64
        ensures length { result ≡ entry_length self.now }
        ensures entry { is_entry self.now ≡ true }
        ensures most { result ≤ ENTRY_LENGTH_MOST }
    {
        let key_length = BYTE_LENGTH + self.key.bytes().len() as u64;
        key_length + NUMBER_LENGTH + BYTE_LENGTH + self.slot.encoded_length()
    }
}
