//! A table as it is offered to one peer.
ghost use Rattle.std.specs.Prelude.{◌≡◌, ◌≤◌, ◌<◌, ◌^◌, ◌||◌, [], ◌∷◌, MatchOption, length, nat_lt};
ghost use Rattle.std.specs.Iterator.{YieldsFirstRef, item_count};
ghost use Rattle.sb_types.specs.Runs.{newer_entries, is_set, live_entries};
ghost use Rattle.sb_table.specs.Floors.{IsKeptTable, table_at_floor};
ghost use Rattle.sb_budget.specs.Available.{number_for, offered_table};

use sb_digest::Digest;
use sb_table::{SharedAfter, Table};
use sb_types::{Name, SharedEntry, Slot};
use std::iter::FusedIterator;
use std::marker::Model;

/// Returns whether an entry is still there under a purge floor: it is a value, or its version is above the floor.
fn is_live(entry: &SharedEntry, floor: u64) -> bool
    ensures { result ≡ (is_set entry.now.slot || nat_lt floor entry.now.version) }
{
    match entry.slot() {
        Slot::Set(_) => true,
        Slot::Removed => floor < entry.version(),
    }
}

/// Iterates over entries in ascending version, without the tombstones (markers of removed keys) up to a floor.
#[derive(Drop)]
pub(crate) struct LiveEntries<'a> {
    entries: SharedAfter<'a>,
    floor: u64,
}

impl<'a> Model for LiveEntries<'a> {
    ghost use Rattle.std.specs.Prelude.{List, length, ◌<◌, ◌^◌};
    ghost use Rattle.sb_types.specs.Runs.{live_entries};
    ghost use Rattle.sb_types.specs.Records as records;

    ghost Value = { List records.Entry };

    ghost view = { λ it. live_entries it.floor it.entries };

    ghost invariant = { λ it. length (live_entries it.floor it.entries) < 2 ^ 63 };
}

impl<'a> LiveEntries<'a> {
    fn new(entries: SharedAfter<'a>, floor: u64) -> LiveEntries<'a>
        requires { length (live_entries floor entries) < 2 ^ 63 }
        ensures { result ≡ live_entries floor entries.entry }
    {
        LiveEntries { entries, floor }
    }
}

/// Takes the entries up to the first one that is live, and returns that one.
#[tactic(auto, using(crate::proofs::OfferedLemmas::first_gone, crate::proofs::OfferedLemmas::first_stays))]
fn next_live<'a>(entries: &mut SharedAfter<'a>, floor: u64) -> Option<&'a SharedEntry>
    ensures { MatchOption result ((live_entries floor entries.old ≡ []) × (live_entries floor entries.new ≡ [])) (λ entry. live_entries floor entries.old ≡ entry.now ∷ live_entries floor entries.new) }
{
    while let Some(entry) = entries.next() {
        if is_live(entry, floor) {
            return Some(entry);
        }
    }
    None
}

impl<'a> Iterator for LiveEntries<'a> {
    type Item = &'a SharedEntry;

    ghost next_gives = { YieldsFirstRef (λ it. it) };

    ghost remaining = { item_count (λ it. it) };

    fn next(&mut self) -> Option<&'a SharedEntry> {
        next_live(&mut self.entries, self.floor)
    }
}

impl<'a> FusedIterator for LiveEntries<'a> {}

/// A table as it is offered to one peer, under a floor between its own and its held version. The tombstones up to that
/// floor are left out.
#[derive(Drop)]
pub(crate) struct OfferedTable<'a> {
    table: &'a Table,
    floor: u64,
}

impl<'a> Model for OfferedTable<'a> {
    ghost use Rattle.std.specs.Prelude.{◌≤◌};
    ghost use Rattle.sb_types.specs.Records as records;
    ghost use Rattle.sb_table.specs.Floors.{table_at_floor};

    ghost Value = { records.Table };

    ghost view = { λ t. table_at_floor t.table.now.held t.floor t.table.now };

    ghost invariant = { λ t. (t.table.now.floor ≤ t.floor) × (t.floor ≤ t.table.now.held) };
}

impl<'a> OfferedTable<'a> {
    /// Offers a table under a floor.
    fn new(table: &'a Table, floor: u64) -> OfferedTable<'a>
        requires least { table.now.floor ≤ floor }
        requires most { floor ≤ table.now.held }
        ensures { result ≡ table_at_floor table.now.held floor table.now }
    {
        OfferedTable { table, floor }
    }

    /// Offers a table under its own floor.
    pub(crate) fn whole(table: &'a Table) -> OfferedTable<'a>
        ensures { result ≡ table.now }
    {
        OfferedTable::new(table, table.floor())
    }

    /// Returns the table as it is offered to the peer that sent this digest, and the version above which it is offered.
    /// Then it returns the place in the digest at which to look for the next owner's pair. It looks first at `place`.
    pub(crate) fn for_peer(
        digest: &Digest,
        owner: &Name,
        table: &'a Table,
        place: usize,
    ) -> (OfferedTable<'a>, u64, usize)
        ensures table { result.0 ≡ offered_table digest.now owner.now table.now }
        ensures number { result.1 ≡ number_for digest.now owner.now table.now }
    {
        let (start, next) = digest.start_from(owner, table.floor(), table.upto(), place);
        (OfferedTable::new(table, start.floor), start.after, next)
    }

    /// Returns the floor under which it is offered.
    pub(crate) fn floor(&self) -> u64
        ensures floor { result ≡ self.now.floor }
    {
        self.floor
    }

    /// Returns the held version.
    pub(crate) fn upto(&self) -> u64
        ensures version { result ≡ self.now.held }
        ensures table { IsKeptTable self.now }
    {
        self.table.upto()
    }

    /// Returns the entries above a version, in ascending version, to be shared with a delta. It takes no memory.
    pub(crate) fn after(&self, version: u64) -> LiveEntries<'a>
        ensures entries { result ≡ newer_entries version self.now.entries }
    {
        LiveEntries::new(self.table.shared_after(version), self.floor)
    }

    /// Returns how many entries there are above a version. It takes one step for each, except above version 0 of a table
    /// that is offered under its own floor.
    #[tactic(auto, using(crate::proofs::OfferedLemmas::all_live))]
    pub(crate) fn count_after(&self, version: u64) -> u64
        ensures count { result ≡ length (newer_entries version self.now.entries) }
    {
        if version == 0 && self.floor == self.table.floor() {
            self.table.len() as u64
        } else {
            self.after(version).count() as u64
        }
    }
}
