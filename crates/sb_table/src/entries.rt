//! The entries of one owner, by version and by key, and those of a list above a version.

ghost use Rattle.std.specs.Prelude.{◌≡◌, ◌<◌, ◌≤◌, ◌==◌, ◌^◌, ℕ, true, [], if◌then◌else◌, Ok, Err, OnOk, OnErr, ◌∷◌, length};
ghost use Rattle.std.specs.Option.{option_map};
ghost use Rattle.sb_types.specs.Faults.{Gives};
ghost use Rattle.sb_types.specs.Runs.{newer_entries, entries_up_to, live_entries, has_key, are_ascending, entries_after, entry_at};
ghost use Rattle.sb_table.specs.Plain.{IsPlainTable, plain_table, with_entry, is_full_for, version_and_slot};
ghost use Rattle.sb_table.specs.Order.{by_key, entries_with_prefix};
ghost use Rattle.sb_table.specs.Floors.{is_dead};

use crate::after::{After, SharedAfter};
use crate::places::{first_above_in, keep_live, last_version_of, place_of, under};
use crate::prefixed::Prefixed;
use crate::replacing::enter;
use sb_types::{Entry, Fault, KEYS_MOST, Key, Prefix, SharedEntry, Slot};
use std::alloc::Global;
use std::marker::Model;

/// The entries of a table or of a stage: at most 4,096, in ascending version, one for each key. Contracts see them as
/// the table of these entries with floor 0. A tombstone is the marker of a removed key.
#[derive(Debug, Drop)]
pub(crate) struct Entries {
    // The entries in ascending version.
    entries: Vec<SharedEntry>,
    // The same entries in ascending order of their keys.
    keys: Vec<SharedEntry>,
}

impl Model for Entries {
    ghost use Rattle.std.specs.Prelude.{◌≡◌};
    ghost use Rattle.sb_types.specs.Records as records;
    ghost use Rattle.sb_table.specs.Plain.{IsPlainTable, plain_table};
    ghost use Rattle.sb_table.specs.Order.{by_key};

    ghost Value = { records.Table };

    ghost view = { λ t. plain_table t.entries.items };

    ghost invariant = { λ t. IsPlainTable (plain_table t.entries.items) × (t.keys.items ≡ by_key t.entries.items) };
}

impl Entries {
    /// Makes an empty list of entries. It takes no memory.
    pub(crate) fn new(alloc: Global) -> Entries
        ensures nothing { result ≡ plain_table [] }
        ensures table { IsPlainTable result }
    {
        Entries {
            entries: Vec::new(alloc),
            keys: Vec::new(alloc),
        }
    }

    /// Enters a write of a later version than any before, which replaces the entry of its key. Returns `TableFull` if
    /// the key is new and there are 4,096 others; otherwise it may return `NoMemory`. Both leave the entries as they
    /// were.
    pub(crate) fn push(&mut self, entry: Entry) -> Result<(), Fault>
        requires { self.old.held < entry.version }
        ensures answer { Gives result (if is_full_for entry.key self.old.entries then Err Fault.TableFull else Ok tt) }
        ensures full { is_full_for entry.key self.old.entries ≡ true → result ≡ Err Fault.TableFull }
        ensures ok { OnOk result (self.new ≡ with_entry self.old entry) }
        ensures err { OnErr result (self.new ≡ self.old) }
        ensures table { IsPlainTable self.new }
    {
        if self.is_full_for(entry.key()) {
            return Err(Fault::TableFull);
        }
        let alloc = *self.entries.allocator();
        let entry = SharedEntry::new(alloc, entry)?;
        enter(&mut self.entries, &mut self.keys, entry)
    }

    /// Enters the same write as another table or a block has. It faults as `push` does.
    pub(crate) fn push_shared(&mut self, entry: &SharedEntry) -> Result<(), Fault>
        requires { self.old.held < entry.now.version }
        ensures answer { Gives result (if is_full_for entry.now.key self.old.entries then Err Fault.TableFull else Ok tt) }
        ensures full { is_full_for entry.now.key self.old.entries ≡ true → result ≡ Err Fault.TableFull }
        ensures ok { OnOk result (self.new ≡ with_entry self.old entry.now) }
        ensures err { OnErr result (self.new ≡ self.old) }
        ensures table { IsPlainTable self.new }
    {
        if self.is_full_for(entry.entry().key()) {
            return Err(Fault::TableFull);
        }
        let same = entry.share()?;
        enter(&mut self.entries, &mut self.keys, same)
    }

    /// Returns equal entries. The only fault is `NoMemory`.
    pub(crate) fn copy(&self, alloc: Global) -> Result<Entries, Fault>
        ensures copy { Gives result (Ok self.now) }
        ensures table { IsPlainTable self.now }
    {
        let mut copy = Entries::new(alloc);
        for entry in self.shared_after(0) {
            copy.push_shared(entry)?;
        }
        Ok(copy)
    }

    /// Returns whether there is no room for a key: it is new, and there are 4,096 others.
    pub(crate) fn is_full_for(&self, key: &Key) -> bool
        ensures full { result ≡ is_full_for key.now self.now.entries }
        ensures table { IsPlainTable self.now }
    {
        self.len() >= KEYS_MOST && !self.has(key)
    }

    /// Returns whether a key has an entry.
    fn has(&self, key: &Key) -> bool
        ensures has { result ≡ has_key key.now self.now.entries }
        ensures table { IsPlainTable self.now }
    {
        place_of(&self.keys, key).is_ok()
    }

    /// Returns the version of the last write, or 0 if there is none.
    pub(crate) fn upto(&self) -> u64
        ensures version { result ≡ self.now.held }
        ensures table { IsPlainTable self.now }
    {
        last_version_of(&self.entries)
    }

    /// Returns how many keys there are, those with tombstones included.
    pub(crate) fn len(&self) -> usize
        ensures count { result ≡ length self.now.entries }
        ensures table { IsPlainTable self.now }
    {
        self.entries.len()
    }

    /// Returns whether there is no key, not even one with a tombstone.
    pub(crate) fn is_empty(&self) -> bool
        ensures count { result ≡ (length self.now.entries == 0) }
        ensures table { IsPlainTable self.now }
    {
        self.entries.is_empty()
    }

    /// Returns the version and the slot of a key, also if the slot is a tombstone. Returns `None` if there is no entry
    /// of this key.
    pub(crate) fn get(&self, key: &Key) -> Option<(u64, &Slot)>
        ensures found { option_map (λ p. (p.0, p.1.now)) result ≡ option_map version_and_slot (entry_at key.now self.now.entries) }
        ensures table { IsPlainTable self.now }
    {
        match place_of(&self.keys, key) {
            Ok(place) => {
                let entry = self.keys[place].entry();
                Some((entry.version(), entry.slot()))
            }
            Err(_) => None,
        }
    }

    /// Returns the entries above a version, in ascending version.
    pub(crate) fn after(&self, version: u64) -> After<'_>
        ensures entries { result ≡ newer_entries version self.now.entries }
        ensures table { IsPlainTable self.now }
    {
        After::new(self.above(version))
    }

    /// Returns the same entries, to share them with others.
    pub(crate) fn shared_after(&self, version: u64) -> SharedAfter<'_>
        ensures entries { result ≡ newer_entries version self.now.entries }
        ensures table { IsPlainTable self.now }
    {
        SharedAfter::new(self.above(version))
    }

    /// Returns the entries above a version, in ascending version, as a part of the list.
    fn above(&self, version: u64) -> &[SharedEntry]
        ensures entries { result.now ≡ newer_entries version self.now.entries }
        ensures length { length result.now < 2 ^ 63 }
        ensures table { IsPlainTable self.now }
    {
        &self.entries[first_above_in(&self.entries, version)..]
    }

    /// Returns whether a key has an entry at or below a version.
    pub(crate) fn has_up_to(&self, key: &Key, version: u64) -> bool
        ensures has { result ≡ has_key key.now (entries_up_to version self.now.entries) }
        ensures table { IsPlainTable self.now }
    {
        match self.get(key) {
            Some((at, _)) => at <= version,
            None => false,
        }
    }

    /// Removes the tombstones at or below a version. It takes no memory.
    pub(crate) fn drop_markers(&mut self, floor: u64)
        ensures dropped { self.new ≡ plain_table (live_entries floor self.old.entries) }
        ensures table { IsPlainTable self.new }
    {
        keep_live(&mut self.entries, floor);
        keep_live(&mut self.keys, floor);
    }

    /// Returns the entries whose keys begin with the prefix, in ascending order of their keys.
    pub(crate) fn prefix(&self, prefix: &Prefix) -> Prefixed<'_>
        ensures entries { result ≡ by_key (entries_with_prefix prefix.now self.now.entries) }
        ensures table { IsPlainTable self.now }
    {
        Prefixed::new(under(&self.keys, prefix))
    }
}

/// Enters a write of a later version, and raises `upto` to it. Returns `TableFull` if the key is new and there are
/// 4,096 others; otherwise it may return `NoMemory`. Both leave the entries and `upto` as they were.
pub(crate) fn push_later(
    entries: &mut Entries,
    upto: &mut u64,
    version: u64,
    entry: Entry,
) -> Result<(), Fault>
    requires later { entries.old.held < entry.version }
    requires version { version ≡ entry.version }
    ensures answer { Gives result (if is_full_for entry.key entries.old.entries then Err Fault.TableFull else Ok tt) }
    ensures full { is_full_for entry.key entries.old.entries ≡ true → result ≡ Err Fault.TableFull }
    ensures ok { OnOk result ((entries.new.entries ≡ entries_after entries.old.entries (entry ∷ [])) × (upto.new ≡ entry.version)) }
    ensures err { OnErr result ((entries.new ≡ entries.old) × (upto.new ≡ upto.old)) }
{
    entries.push(entry)?;
    *upto = version;
    Ok(())
}

/// Enters the same later write as a block has, as `push_later` does.
pub(crate) fn push_shared_later(
    entries: &mut Entries,
    upto: &mut u64,
    version: u64,
    entry: &SharedEntry,
) -> Result<(), Fault>
    requires later { entries.old.held < entry.now.version }
    requires version { version ≡ entry.now.version }
    ensures answer { Gives result (if is_full_for entry.now.key entries.old.entries then Err Fault.TableFull else Ok tt) }
    ensures full { is_full_for entry.now.key entries.old.entries ≡ true → result ≡ Err Fault.TableFull }
    ensures ok { OnOk result ((entries.new.entries ≡ entries_after entries.old.entries (entry.now ∷ [])) × (upto.new ≡ entry.now.version)) }
    ensures err { OnErr result ((entries.new ≡ entries.old) × (upto.new ≡ upto.old)) }
{
    entries.push_shared(entry)?;
    *upto = version;
    Ok(())
}

/// Removes the tombstones above one floor, and at or below another.
pub(crate) fn drop_between(entries: &mut Entries, before: u64, floor: u64)
    requires order { before ≤ floor }
    requires whole { live_entries before entries.old.entries ≡ entries.old.entries }
    ensures dropped { entries.new.entries ≡ live_entries floor entries.old.entries }
{
    if floor > before {
        entries.drop_markers(floor);
    }
}

/// Returns whether an entry is a tombstone at or below a version.
pub(crate) fn is_dead(entry: &Entry, floor: u64) -> bool
    ensures { result ≡ is_dead floor entry.now }
{
    match entry.slot() {
        Slot::Set(_) => false,
        Slot::Removed => entry.version() <= floor,
    }
}

/// Returns the entries above a version. The entries have to be in ascending version.
pub fn entries_above(entries: &[SharedEntry], version: u64) -> &[SharedEntry]
    requires { are_ascending 0 entries.now ≡ true }
    ensures { result.now ≡ newer_entries version entries.now }
{
    &entries[first_above_in(entries, version)..]
}
