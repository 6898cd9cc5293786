//! What is offered of each owner, one item after another, without a copy.
ghost use Rattle.std.specs.Prelude.{◌≡◌, ◌∷◌, All, IfOk, IfErr};
ghost use Rattle.std.specs.Option.{option_copied, option_map};
ghost use Rattle.sb_types.specs.Runs.{newer_entries};
ghost use Rattle.sb_budget.specs.Available.{ranked_of};
ghost use Rattle.sb_budget.specs.Cursors.{first_place};
ghost use Rattle.sb_budget.specs.Making.{head_of};
ghost use Rattle.sb_budget.specs.Parts.{part_of, all_of, AreParts};

use crate::head::Head;
use crate::offered_table::{LiveEntries, OfferedTable};
use sb_digest::Digest;
use sb_holdings::Holdings;
use sb_types::{Fault, Name, SharedEntry};
use std::alloc::Global;
use std::marker::Model;

/// A place of a cursor: at an entry, with the entries after it.
#[derive(Drop)]
struct Place<'a> {
    /// How many of the owner's offered entries come before this one.
    rank: u64,
    entry: &'a SharedEntry,
    later: LiveEntries<'a>,
}

impl<'a> Place<'a> {
    /// Returns the place at the first entry of a table above a version, if there is one.
    fn first(table: &OfferedTable<'a>, after: u64) -> Option<Place<'a>>
        ensures { option_map (λ p. record { rank = p.rank; entry = p.entry.now; later = p.later }) result ≡ first_place (newer_entries after table.now.entries) }
    {
        let mut later = table.after(after);
        let entry = later.next()?;
        Some(Place {
            rank: 0,
            entry,
            later,
        })
    }
}

/// What is still to be sent of one owner: its next item, and the items after it. It looks up its first entry only when
/// that is asked for. So an owner costs no search if nothing of it is sent.
#[derive(Drop)]
pub struct Cursor<'a> {
    owner: &'a Name,
    table: OfferedTable<'a>,
    /// The version above which the peer lacks the owner's writes.
    after: u64,
    /// `None` before the first entry was looked up, and if there is no entry.
    place: Option<Place<'a>>,
}

impl<'a> Model for Cursor<'a> {
    ghost use Rattle.std.specs.Prelude.{◌≡◌, ◌<◌, ◌^◌, length};
    ghost use Rattle.std.specs.Option.{option_map};
    ghost use Rattle.sb_types.specs.Runs.{newer_entries};
    ghost use Rattle.sb_budget.specs.Parts.{Part};
    ghost use Rattle.sb_budget.specs.Cursors.{part_at, IsPlace};

    ghost Value = { Part };

    ghost view = { λ c. part_at c.owner.now c.table c.after (option_map (λ p. record { rank = p.rank; entry = p.entry.now; later = p.later }) c.place) };

    ghost invariant = { λ c. IsPlace c.table c.after (option_map (λ p. record { rank = p.rank; entry = p.entry.now; later = p.later }) c.place) × (length (newer_entries c.after c.table.entries) < 2 ^ 63) };
}

impl<'a> Cursor<'a> {
    /// Makes the cursor of what is offered of a table above a version, if the table is held above that.
    pub(crate) fn new(owner: &'a Name, table: OfferedTable<'a>, after: u64) -> Option<Cursor<'a>>
        ensures part { result ≡ part_of (ranked_of owner.now table.entry after) }
    {
        if table.upto() <= after {
            return None;
        }
        Some(Cursor {
            owner,
            table,
            after,
            place: None,
        })
    }

    /// Returns whose items they are.
    pub fn owner(&self) -> Name
        ensures owner { result ≡ self.now.next.owner }
        ensures later { All (λ item. item.owner ≡ self.now.next.owner) self.now.later }
    {
        *self.owner
    }

    /// Returns what the owner's block contains besides entries.
    pub fn head(&self) -> Head
        ensures head { result ≡ head_of self.now.next }
    {
        Head {
            owner: *self.owner,
            floor: self.table.floor(),
            after: self.after,
            upto: self.table.upto(),
        }
    }

    /// Returns how many items the owner has, those included that the cursor has passed. It takes one step for each,
    /// unless the whole table is offered under its own floor.
    pub fn count(&self) -> u64
        ensures count { result ≡ self.now.next.count }
    {
        self.table.count_after(self.after).max(1)
    }

    /// Returns the next item's entry, if it has one, and the cursor of the items after it, if there are any.
    pub fn split_first(self) -> (Option<&'a SharedEntry>, Option<Cursor<'a>>)
        ensures entry { option_copied result.0 ≡ self.entry.next.entry }
        ensures later { result.1 ≡ part_of self.entry.later }
    {
        let Cursor {
            owner,
            table,
            after,
            place,
        } = self;
        let place = match place {
            Some(place) => Some(place),
            None => Place::first(&table, after),
        };
        let Some(
            Place {
                rank,
                entry,
                mut later,
            },
        ) = place
        else {
            return (None, None);
        };
        let Some(next) = later.next() else {
            return (Some(entry), None);
        };
        let place = Place {
            rank: rank + 1,
            entry: next,
            later,
        };
        let later = Cursor {
            owner,
            table,
            after,
            place: Some(place),
        };
        (Some(entry), Some(later))
    }
}

/// Returns a cursor of what the peer lacks, for each owner that the digest covers, if that is anything. The owners'
/// names ascend. It takes memory in proportion to the owners, and copies no entry. The only fault is `NoMemory`.
pub fn cursors<'a>(
    alloc: Global,
    holdings: &'a Holdings,
    digest: &Digest,
) -> Result<Vec<Cursor<'a>>, Fault>
    ensures parts { IfOk result (λ cursors. AreParts holdings.now digest.now cursors.items) }
    ensures memory { IfErr result (λ fault. fault ≡ Fault.NoMemory) }
{
    let mut cursors = Vec::new(alloc);
    let mut place = 0;
    for (owner, table) in holdings.tables_from(None) {
        if digest.covers(owner) {
            let (offered, number, next) = OfferedTable::for_peer(digest, owner, table, place);
            place = next;
            if let Some(cursor) = Cursor::new(owner, offered, number) {
                cursors.push(cursor)?;
            }
        }
    }
    Ok(cursors)
}
