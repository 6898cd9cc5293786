//! The table of one owner.

ghost use Rattle.std.specs.Prelude.{◌≡◌, ◌==◌, ◌≤◌, ◌<◌, true, [], if◌then◌else◌, Ok, Err, OnOk, OnErr, IfOk, IfErr, length};
ghost use Rattle.std.specs.Option.{option_map};
ghost use Rattle.sb_types.specs.Faults.{Gives};
ghost use Rattle.sb_types.specs.Runs.{newer_entries, entry_at};
ghost use Rattle.sb_table.specs.Plain.{IsPlainTable, plain_table, with_entry, is_full_for, version_and_slot};
ghost use Rattle.sb_table.specs.Order.{by_key, entries_with_prefix};
ghost use Rattle.sb_table.specs.Floors.{IsKeptTable, are_table_entries, table_at_floor, restored_table, table_after_swap};

use crate::after::{After, SharedAfter};
use crate::entries::{Entries, drop_between, push_later, push_shared_later};
use crate::prefixed::Prefixed;
use crate::restore::{are_table_entries, fill};
use crate::stage::Stage;
use crate::swap::{add_staged, keep_shown};
use sb_types::{Entry, Fault, KEYS_MOST, Key, Prefix, SharedEntry, Slot};
use std::alloc::Global;
use std::marker::Model;

/// What one owner last wrote under each of its keys, up to the table's held version. It has at most 4,096 entries, in
/// ascending version, one for each key. A removed key has a tombstone, the marker of the removal, if that is above the
/// purge floor.
///
/// ```
/// let mut table = Table::new(alloc);
/// let key = Key::read(b"port")?;
/// push(&mut table, Entry::new(key, 1, Slot::Set(Value::weight(80)?)))?;
/// push(&mut table, Entry::new(key, 2, Slot::Removed))?;
/// assert_eq!(rt; (table.len(), table.upto()), (1, 2));
/// assert!(rt; matches!(table.get(&key), Some((2, Slot::Removed))));
/// table.raise(3, 2);
/// assert_eq!(rt; (table.len(), table.upto(), table.floor()), (0, 3, 2));
/// assert!(rt; table.get(&key).is_none());
/// ```
///
/// The test `example_of_a_table` runs these lines. There, `push` and `raise` come after tests of what they require.
#[derive(Debug, Drop)]
pub struct Table {
    upto: u64,
    floor: u64,
    entries: Entries,
}

impl Model for Table {
    ghost use Rattle.sb_types.specs.Records as records;
    ghost use Rattle.sb_table.specs.Floors.{IsKeptTable};

    ghost Value = { records.Table };

    ghost view = { λ t. record { held = t.upto; floor = t.floor; entries = t.entries.entries } };

    ghost invariant = { λ t. IsKeptTable (record { held = t.upto; floor = t.floor; entries = t.entries.entries }) };
}

impl Table {
    /// Makes an empty table, of held version 0 and floor 0. It takes no memory.
    pub fn new(alloc: Global) -> Table
        ensures nothing { result ≡ plain_table [] }
        ensures table { IsKeptTable result }
        ensures plain { IsPlainTable result }
    {
        Table {
            upto: 0,
            floor: 0,
            entries: Entries::new(alloc),
        }
    }

    /// Makes a table of these entries, as they were kept elsewhere. Its faults, in this order. Each drops the entries:
    ///
    /// - `LogDamaged`: the floor is above `upto`, or the versions do not ascend from 1 to at most `upto`. Or a
    ///   tombstone is at or below the floor, or two entries have the same key.
    /// - `TableFull`: there are more than 4,096 entries.
    /// - `NoMemory`, only of entries that a table can have.
    pub fn restored(
        alloc: Global,
        upto: u64,
        floor: u64,
        mut entries: Vec<SharedEntry>,
    ) -> Result<Table, Fault>
        ensures restored { Gives result (restored_table upto floor entries.items) }
        ensures refused { IfErr (restored_table upto floor entries.items) (λ fault. result ≡ Err fault) }
        ensures table { IfOk result IsKeptTable }
    {
        if !are_table_entries(upto, floor, &mut entries) {
            return Err(Fault::LogDamaged);
        }
        if entries.len() > KEYS_MOST {
            return Err(Fault::TableFull);
        }
        Table::from_entries(alloc, upto, floor, entries)
    }

    /// Makes a table of entries that a table can have, without a test. The only fault is `NoMemory`, which drops the
    /// entries.
    fn from_entries(
        alloc: Global,
        upto: u64,
        floor: u64,
        entries: Vec<SharedEntry>,
    ) -> Result<Table, Fault>
        requires entries { are_table_entries upto floor entries.items ≡ true }
        requires limit { length entries.items ≤ KEYS_MOST }
        ensures filled { Gives result (Ok (record { held = upto; floor = floor; entries = entries.items })) }
        ensures table { IfOk result IsKeptTable }
    {
        Ok(Table {
            upto,
            floor,
            entries: fill(alloc, entries)?,
        })
    }

    /// Returns an equal table. The only fault is `NoMemory`.
    pub fn copy(&self, alloc: Global) -> Result<Table, Fault>
        ensures copy { Gives result (Ok self.now) }
        ensures table { IsKeptTable self.now }
    {
        Ok(Table {
            upto: self.upto,
            floor: self.floor,
            entries: self.entries.copy(alloc)?,
        })
    }

    /// Returns the held version.
    pub fn upto(&self) -> u64
        ensures version { result ≡ self.now.held }
        ensures table { IsKeptTable self.now }
    {
        self.upto
    }

    /// Returns the purge floor: the table has no tombstones up to this version.
    pub fn floor(&self) -> u64
        ensures floor { result ≡ self.now.floor }
        ensures table { IsKeptTable self.now }
    {
        self.floor
    }

    /// Returns how many keys the table has, those with tombstones included.
    pub fn len(&self) -> usize
        ensures count { result ≡ length self.now.entries }
        ensures table { IsKeptTable self.now }
    {
        self.entries.len()
    }

    /// Returns whether the table has no key, not even one with a tombstone.
    pub fn is_empty(&self) -> bool
        ensures count { result ≡ (length self.now.entries == 0) }
        ensures table { IsKeptTable self.now }
    {
        self.entries.is_empty()
    }

    /// Returns the version and the slot of a key, also if the slot is a tombstone. Returns `None` if the table has no
    /// entry of this key: it was never written, or its tombstone was dropped.
    pub fn get(&self, key: &Key) -> Option<(u64, &Slot)>
        ensures found { option_map (λ p. (p.0, p.1.now)) result ≡ option_map version_and_slot (entry_at key.now self.now.entries) }
        ensures table { IsKeptTable self.now }
    {
        self.entries.get(key)
    }

    /// Returns the entries above a version, in ascending version. It takes no memory.
    pub fn after(&self, version: u64) -> After<'_>
        ensures entries { result ≡ newer_entries version self.now.entries }
        ensures table { IsKeptTable self.now }
    {
        self.entries.after(version)
    }

    /// Returns the entries above a version, in ascending version, to be shared with others. It takes no memory.
    pub fn shared_after(&self, version: u64) -> SharedAfter<'_>
        ensures entries { result ≡ newer_entries version self.now.entries }
        ensures table { IsKeptTable self.now }
    {
        self.entries.shared_after(version)
    }

    /// Returns the entries whose keys begin with the prefix, in ascending order of their keys. It takes no memory.
    pub fn prefix(&self, prefix: &Prefix) -> Prefixed<'_>
        ensures entries { result ≡ by_key (entries_with_prefix prefix.now self.now.entries) }
        ensures table { IsKeptTable self.now }
    {
        self.entries.prefix(prefix)
    }

    /// Returns whether there is no room for a key: it is new, and the table has 4,096 others. This is the only test of
    /// the limit of keys before a write: `push` makes it, and so do callers.
    pub fn is_full_for(&self, key: &Key) -> bool
        ensures full { result ≡ is_full_for key.now self.now.entries }
        ensures table { IsKeptTable self.now }
    {
        self.entries.is_full_for(key)
    }

    /// Enters a write whose version has to be above the held version. It replaces the entry of its key, and its version
    /// is the held one from then on. Its faults, in this order. Each leaves the table as it was:
    ///
    /// - `TableFull`: the key is new, and the table has 4,096 others.
    /// - `NoMemory`.
    pub fn push(&mut self, entry: Entry) -> Result<(), Fault>
        requires { self.old.held < entry.version }
        ensures answer { Gives result (if is_full_for entry.key self.old.entries then Err Fault.TableFull else Ok tt) }
        ensures full { is_full_for entry.key self.old.entries ≡ true → result ≡ Err Fault.TableFull }
        ensures ok { OnOk result (self.new ≡ with_entry self.old entry) }
        ensures err { OnErr result (self.new ≡ self.old) }
        ensures table { IsKeptTable self.new }
        ensures plain { IsPlainTable self.old → IsPlainTable self.new }
    {
        let version = entry.version();
        // Proof only: the call shows that the entries keep their limits.
        let _ = self.entries.upto();
        push_later(&mut self.entries, &mut self.upto, version, entry)
    }

    /// Enters the same write as a block or another table has, without a copy of it. It requires what `push` does, and has
    /// its faults.
    pub fn push_shared(&mut self, entry: &SharedEntry) -> Result<(), Fault>
        requires { self.old.held < entry.now.version }
        ensures answer { Gives result (if is_full_for entry.now.key self.old.entries then Err Fault.TableFull else Ok tt) }
        ensures full { is_full_for entry.now.key self.old.entries ≡ true → result ≡ Err Fault.TableFull }
        ensures ok { OnOk result (self.new ≡ with_entry self.old entry.now) }
        ensures err { OnErr result (self.new ≡ self.old) }
        ensures table { IsKeptTable self.new }
        ensures plain { IsPlainTable self.old → IsPlainTable self.new }
    {
        let version = entry.version();
        // Proof only: the call shows that the entries keep their limits.
        let _ = self.entries.upto();
        push_shared_later(&mut self.entries, &mut self.upto, version, entry)
    }

    /// Raises the held version and the purge floor, and drops the tombstones up to the floor. Neither must fall, and
    /// the floor has to be at most the held version. It takes no memory.
    pub fn raise(&mut self, upto: u64, floor: u64)
        requires held { self.old.held ≤ upto }
        requires floor { self.old.floor ≤ floor }
        requires order { floor ≤ upto }
        ensures raised { self.new ≡ table_at_floor upto floor self.old }
        ensures table { IsKeptTable self.new }
    {
        drop_between(&mut self.entries, self.floor, floor);
        self.upto = upto;
        self.floor = floor;
    }

    /// Returns the table that is shown once the stage has replaced this one:
    ///
    /// - the stage's entries above this table's held version;
    /// - for each other key of the stage, the entry that this table has of the key, if any;
    /// - no tombstones up to the stage's floor.
    ///
    /// The stage's progress has to be at or above its floor and this table's held version. The only fault is
    /// `NoMemory`. The table and the stage stay as they are, so for a while there are both and the new table.
    pub fn swapped(&self, alloc: Global, stage: &Stage) -> Result<Table, Fault>
        requires reach { stage.now.floor ≤ stage.now.progress }
        requires beyond { self.now.held ≤ stage.now.progress }
        ensures shown { Gives result (Ok (table_after_swap self.now stage.now)) }
        ensures table { IfOk result IsKeptTable }
    {
        let mut entries = Entries::new(alloc);
        let (old, new) = (&self.entries, &stage.entries);
        keep_shown(&mut entries, old, new, self.upto, stage.floor)?;
        add_staged(&mut entries, new, self.upto, stage.floor)?;
        Ok(Table {
            upto: stage.progress,
            floor: stage.floor,
            entries,
        })
    }
}
