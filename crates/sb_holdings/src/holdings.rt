//! What a node holds of all owners, and how blocks and own writes enter it.
ghost use Rattle.std.specs.Prelude.{◌≡◌, ◌<◌, ◌≤◌, true, false, nat_eq, [], ◌∷◌, None, Err, OnOk, OnErr, IfOk, IfErr, ◌+◌};
ghost use Rattle.std.specs.Option.{option_copied, option_map};
ghost use Rattle.std.specs.FinMap.{get, contains_key, keys, len};
ghost use Rattle.std.specs.Ordering.{nat_cmp};
ghost use Rattle.std.specs.Cmp.Lexicographic.{pointwise, slice_cmp};
ghost use Rattle.std.specs.List.Sorted.{IsStrictlySortedBy};
ghost use Rattle.std.specs.Map.{keys_of};
ghost use Rattle.std.specs.BTreeMap.{IsOrdered};
ghost use Rattle.sb_types.specs.declared.limits.TheConstants.{OWNERS_MOST};
ghost use Rattle.sb_types.specs.Faults.{Gives};
ghost use Rattle.sb_types.specs.Runs.{IsRun};
ghost use Rattle.sb_table.specs.Plain.{is_full_for};
ghost use Rattle.sb_holdings.specs.Held.{holder_of, shown_of, empty_holder, with_owner, held_after_write, purged_own, held_after_block};
ghost use Rattle.sb_holdings.specs.Plain.{IsHoldings, table_holder, held_of, own_answer, table_of, holders_from, tables_from};
ghost use Rattle.sb_holdings.specs.Taken.{holder_after_block};
ghost use Rattle.sb_holdings.specs.Ends.{Fits};
ghost use Rattle.sb_holdings.specs.Holders.{unnamed_block, owner_block, FitsHolder, FitsNew, own_end, Dropped};

use crate::ends::BlockEnd;
use crate::holder::Holder;
use crate::owners::{Holders, Owners, Tables};
use sb_table::Table;
use sb_types::{Block, Entry, Fault, Key, Name, OWNERS_MOST, SharedEntry};
use std::alloc::Global;
use std::collections::BTreeMap;
use std::marker::Model;
use std::ops::Bound;

/// What a node holds: its own table, and tables of at most 1,023 other owners. Beside such a table there may be a stage
/// that will replace it. If nothing is held of an owner, holdings do not contain it.
///
/// The test `example_of_holdings` runs these lines:
/// ```
/// let a = Name::read(b"a")?;
/// let mut holdings = Holdings::new(alloc, Name::read(b"b")?, Table::new(alloc))?;
/// let entry = Entry::new(Key::read(b"up")?, 1, Slot::Set(Value::flag(true)));
/// let entry = SharedEntry::new(alloc, entry)?;
/// let block = Block::new(a, 0, 0, 1, vec![in alloc; entry]?)?;
/// assert_eq!(rt; holdings.apply_block(&block), BlockEnd::Taken(1));
/// assert_eq!(rt; holdings.apply_block(&block), BlockEnd::Stale);
/// assert_eq!(rt; holdings.upto(&a), 1);
/// ```
#[derive(Drop)]
pub struct Holdings {
    me: Name,
    holders: BTreeMap<Name, Holder>,
    alloc: Global,
}

impl Model for Holdings {
    ghost use Rattle.std.specs.Ordering.{nat_cmp};
    ghost use Rattle.std.specs.Cmp.Lexicographic.{slice_cmp};
    ghost use Rattle.std.specs.BTreeMap.{IsOrdered};
    ghost use Rattle.sb_holdings.specs.Held.{Held};
    ghost use Rattle.sb_holdings.specs.Plain.{held_of, IsHoldings};
    ghost use Rattle.std.specs.Coded.{codes};
    ghost use Rattle.std.specs.FinMap.{code};

    ghost Value = { Held };

    ghost coded = { Prim.hlevel (codes, code) };

    ghost view = { λ h. held_of h.me h.holders.entries };

    ghost invariant = { λ h. IsOrdered (slice_cmp nat_cmp) h.holders × IsHoldings (held_of h.me h.holders.entries) };
}

impl Holdings {
    /// Makes holdings of the own name with its table, and of no other owner. The only fault is `NoMemory`.
    pub fn new(alloc: Global, me: Name, table: Table) -> Result<Holdings, Fault>
        ensures held { IfOk result (λ h. h ≡ held_of me ((me, table_holder table) ∷ [])) }
        ensures holdings { IfOk result IsHoldings }
        ensures memory { IfErr result (λ fault. fault ≡ Fault.NoMemory) }
    {
        let mut holders = BTreeMap::new(alloc);
        holders.insert(me, Holder::alone(table))?;
        Ok(Holdings { me, holders, alloc })
    }

    /// Returns the own name.
    pub fn me(&self) -> &Name
        ensures name { result.now ≡ self.now.me }
        ensures holdings { IsHoldings self.now }
    {
        &self.me
    }

    /// Returns what is held of an owner, if the owner is held.
    fn holder(&self, owner: &Name) -> Option<&Holder>
        ensures found { option_copied result ≡ get self.now.owners owner.now }
        ensures holdings { IsHoldings self.now }
    {
        self.holders.get(owner)
    }

    /// Returns the shown table of an owner, if the owner is held.
    pub fn table(&self, owner: &Name) -> Option<&Table>
        ensures found { option_copied result ≡ table_of self.now owner.now }
        ensures holdings { IsHoldings self.now }
    {
        match self.holder(owner) {
            Some(holder) => Some(holder.shown()),
            None => None,
        }
    }

    /// Returns the held version of an owner, or 0 if the owner is not held.
    pub fn upto(&self, owner: &Name) -> u64
        ensures version { result ≡ (shown_of self.now owner.now).held }
        ensures holdings { IsHoldings self.now }
    {
        match self.holders.get(owner) {
            Some(holder) => holder.shown().upto(),
            None => 0,
        }
    }

    /// Returns the purge floor of an owner's table, or 0 if the owner is not held. The table has no tombstones (markers
    /// of removed keys) up to this version.
    pub fn floor(&self, owner: &Name) -> u64
        ensures floor { result ≡ (shown_of self.now owner.now).floor }
        ensures holdings { IsHoldings self.now }
    {
        match self.holders.get(owner) {
            Some(holder) => holder.shown().floor(),
            None => 0,
        }
    }

    /// Returns the floor of an owner's stage and its progress, if there is a stage. The progress is the version up to
    /// which the new table has arrived.
    pub fn staged(&self, owner: &Name) -> Option<(u64, u64)>
        ensures staged { result ≡ option_map (λ s. (s.floor, s.progress)) (holder_of self.now.owners owner.now).stage }
        ensures holdings { IsHoldings self.now }
    {
        match self.holders.get(owner) {
            Some(holder) => holder.staged(),
            None => None,
        }
    }

    /// Returns the names of the owners that are held, in ascending order.
    pub fn owners(&self) -> Owners<'_>
        ensures names { result ≡ keys self.now.owners }
        ensures ascending { IsStrictlySortedBy (slice_cmp nat_cmp) (keys self.now.owners) }
        ensures holdings { IsHoldings self.now }
    {
        Owners::new(self.holders.keys())
    }

    /// Returns the owners from a name on, or all of them, each with what is held of it. Their names ascend.
    pub fn holders_from(&self, first: Option<&Name>) -> Holders<'_>
        ensures holders { result ≡ holders_from (option_copied first.entry) self.now }
        ensures ascending { IsStrictlySortedBy (slice_cmp nat_cmp) (keys_of result) }
        ensures holdings { IsHoldings self.now }
    {
        let start = match first {
            Some(name) => Bound::Included(*name),
            None => Bound::Unbounded,
        };
        Holders::new(self.holders.range((start, Bound::Unbounded)))
    }

    /// Returns the same owners, each with its shown table.
    pub fn tables_from(&self, first: Option<&Name>) -> Tables<'_>
        ensures tables { result ≡ tables_from (option_copied first.entry) self.now }
        ensures ascending { IsStrictlySortedBy (slice_cmp nat_cmp) (keys_of result) }
        ensures holdings { IsHoldings self.now }
    {
        Tables::new(self.holders_from(first))
    }

    /// Enters an own write. Its faults, in this order. Each leaves everything as it was:
    ///
    /// - `OutOfTurn(next)`: the write has another version than the next own one. `next` is that version, or 0 if all
    ///   versions are spent.
    /// - `TableFull`: the key is new, and the own table has 4,096 others.
    /// - `NoMemory`.
    pub fn push_own(&mut self, entry: Entry) -> Result<(), Fault>
        ensures answer { Gives result (own_answer self.old entry) }
        ensures refused { IfErr (own_answer self.old entry) (λ fault. result ≡ Err fault) }
        ensures ok { OnOk result (self.new ≡ held_after_write self.old entry) }
        ensures err { OnErr result (self.new ≡ self.old) }
        ensures holdings { IsHoldings self.new }
    {
        let next = self.upto(&self.me).wrapping_add(1);
        if entry.version() != next {
            return Err(Fault::OutOfTurn(next));
        }
        if self.is_own_full_for(entry.key()) {
            return Err(Fault::TableFull);
        }
        self.enter_own(entry)
    }

    /// Drops the tombstones (markers of removed keys) up to a version of the own table, which becomes its purge floor.
    /// If that is not above the present floor, or is above the held version, nothing changes. It takes no memory.
    pub fn purge_own(&mut self, floor: u64)
        ensures purged { self.new ≡ purged_own self.old floor }
        ensures holdings { IsHoldings self.new }
    {
        self.holders.get_mut(&self.me).unwrap().purge(floor);
    }

    /// Takes a block of another owner, and returns how it ended. It shares the entries one by one, and copies none.
    ///
    /// If the block's floor is at or below the held version, the owner's table takes the block. The table's floor rises
    /// to the block's, the tombstones up to that go, and the entries above the held version are entered.
    ///
    /// Otherwise a stage takes the block, and the entries above the stage's progress are entered. It is the stage of
    /// the block's floor, if the block continues that. It is a new stage, if the block begins after 0 and there is no
    /// stage of that floor or a higher one. Once the stage's progress has reached its floor, it replaces the table.
    ///
    /// `Taken`, `TooManyKeys` and `NoMemory` contain how many entries were entered. If there was no memory for the
    /// swap, `NoMemory` counts all of them: the table stays, and the stage is gone. If there was none for a new owner's
    /// place, it counts 0, and nothing changes. Every other end leaves everything as it was.
    pub fn apply_block(&mut self, block: &Block) -> BlockEnd
        ensures effect { self.new ≡ held_after_block self.old block.now result }
        ensures end { Fits self.old block.now result }
        ensures holdings { IsHoldings self.new }
    {
        self.apply_parts(
            block.owner(),
            block.floor(),
            block.after(),
            block.upto(),
            block.entries(),
        )
    }

    /// Takes a block that is given in parts.
    fn apply_parts(
        &mut self,
        owner: &Name,
        floor: u64,
        after: u64,
        upto: u64,
        entries: &[SharedEntry],
    ) -> BlockEnd
        requires run { IsRun after upto entries.now }
        requires order { after < upto }
        ensures effect { self.new ≡ held_after_block self.old (owner_block owner.now floor after upto entries.now) result }
        ensures end { Fits self.old (owner_block owner.now floor after upto entries.now) result }
        ensures holdings { IsHoldings self.new }
    {
        if *owner == self.me {
            return self.own_end(upto);
        }
        if self.holders.contains_key(owner) {
            return self.take_known(owner, floor, after, upto, entries);
        }
        if after > 0 {
            return BlockEnd::Gap;
        }
        if self.holders.len() >= OWNERS_MOST {
            return BlockEnd::OwnersFull;
        }
        self.add(owner, floor, upto, entries)
    }

    /// Returns whether the own table has no room for a key.
    fn is_own_full_for(&self, key: &Key) -> bool
        ensures full { result ≡ is_full_for key.now (shown_of self.now self.now.me).entries }
        ensures holdings { IsHoldings self.now }
    {
        match self.holders.get(&self.me) {
            Some(own) => own.shown().is_full_for(key),
            None => false,
        }
    }

    /// Enters the next own write, for which there is room. The only fault is `NoMemory`, which leaves everything as it
    /// was.
    fn enter_own(&mut self, entry: Entry) -> Result<(), Fault>
        requires next { entry.version ≡ (shown_of self.old self.old.me).held + 1 }
        requires room { is_full_for entry.key (shown_of self.old self.old.me).entries ≡ false }
        ensures ok { OnOk result (self.new ≡ held_after_write self.old entry) }
        ensures err { OnErr result (self.new ≡ self.old) }
        ensures fault { IfErr result (λ fault. fault ≡ Fault.NoMemory) }
        ensures holdings { IsHoldings self.new }
    {
        self.holders.get_mut(&self.me).unwrap().push(entry)
    }

    /// Returns how a block of the own name ends.
    fn own_end(&self, upto: u64) -> BlockEnd
        ensures end { result ≡ own_end (shown_of self.now self.now.me).held upto }
        ensures holdings { IsHoldings self.now }
    {
        if upto <= self.upto(&self.me) {
            return BlockEnd::Own;
        }
        BlockEnd::OwnAhead(upto)
    }

    /// Takes a block of an owner that is held.
    fn take_known(
        &mut self,
        owner: &Name,
        floor: u64,
        after: u64,
        upto: u64,
        entries: &[SharedEntry],
    ) -> BlockEnd
        requires other { pointwise nat_eq owner.now self.old.me ≡ false }
        requires known { contains_key self.old.owners owner.now ≡ true }
        requires run { IsRun after upto entries.now }
        requires order { after < upto }
        ensures end { FitsHolder (holder_of self.old.owners owner.now) (unnamed_block floor after upto entries.now) result }
        ensures effect { self.new ≡ with_owner self.old owner.now (holder_after_block (holder_of self.old.owners owner.now) (unnamed_block floor after upto entries.now) result) }
        ensures holdings { IsHoldings self.new }
    {
        let alloc = self.alloc;
        let holder = self.holders.get_mut(owner).unwrap();
        let end = holder.take(alloc, floor, after, upto, entries);
        let gone = holder.is_nothing();
        drop_if(&mut self.holders, owner, gone);
        end
    }

    /// Takes a block of a new owner. If nothing of it can be entered, the owner stays unknown.
    fn add(&mut self, owner: &Name, floor: u64, upto: u64, entries: &[SharedEntry]) -> BlockEnd
        requires other { pointwise nat_eq owner.now self.old.me ≡ false }
        requires unknown { get self.old.owners owner.now ≡ None }
        requires place { len self.old.owners < OWNERS_MOST }
        requires run { IsRun 0 upto entries.now }
        requires order { 0 < upto }
        ensures end { FitsNew (unnamed_block floor 0 upto entries.now) result }
        ensures effect { self.new ≡ with_owner self.old owner.now (holder_after_block empty_holder (unnamed_block floor 0 upto entries.now) result) }
        ensures holdings { IsHoldings self.new }
    {
        let mut holder = Holder::nothing(self.alloc);
        let end = holder.take(self.alloc, floor, 0, upto, entries);
        if holder.is_nothing() {
            return end;
        }
        match self.holders.insert(*owner, holder) {
            Ok(_) => end,
            Err(_) => BlockEnd::NoMemory(0),
        }
    }
}

/// Removes an owner if it is `gone`: nothing is held of it any more.
fn drop_if(holders: &mut BTreeMap<Name, Holder>, owner: &Name, gone: bool)
    requires ordered { IsOrdered (slice_cmp nat_cmp) holders.old }
    ensures ordered { IsOrdered (slice_cmp nat_cmp) holders.new }
    ensures dropped { Dropped owner.now gone holders.old.entries holders.new.entries }
{
    if gone {
        holders.remove(owner);
    }
}
