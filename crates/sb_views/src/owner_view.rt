//! What is shown of one owner.
ghost use Rattle.std.specs.Prelude.{◌≡◌, ◌≤◌, ℕ, true, nat_eq, List, filter, Some, OnOk, OnErr, length};
ghost use Rattle.std.specs.List as lists;
ghost use Rattle.std.specs.List.{starts_with};
ghost use Rattle.std.specs.Option.{option_map};
ghost use Rattle.std.specs.FinMap.{get, insert, remove, entries};
ghost use Rattle.std.specs.Ordering.{nat_cmp, is_lt, is_le};
ghost use Rattle.std.specs.BTreeMap.Range.{is_from_start};
ghost use Rattle.sb_types.specs.Runs.{is_set};
ghost use Rattle.sb_views.specs.LiveRows as spec;
ghost use Rattle.std.specs.Cmp.Lexicographic.{slice_cmp};
ghost use Rattle.sb_views.specs.declared.change.Change.TheVariants as changes;
ghost use Rattle.sb_views.specs.Changes.{change_of};
ghost use Rattle.sb_views.specs.NodeViews as node_views;

use crate::change::ChangeRef;
use crate::entries_from::from_start;
use crate::live::LiveValue;
use crate::rows::OwnerRows;
use sb_table::place_of;
use sb_types::{Key, Name, Prefix, SharedEntry, Slot, Value};
use std::alloc::{AllocError, Global};
use std::marker::Model;
use std::ops::Bound;

/// Up to which version an owner is held, and what is live of it by key.
#[derive(Drop)]
pub struct OwnerView {
    upto: u64,
    // The entries that are live, in ascending order of their keys. The table shares them.
    rows: Vec<SharedEntry>,
}

impl Model for OwnerView {
    ghost use Rattle.std.specs.Coded.{codes};
    ghost use Rattle.std.specs.FinMap.{code};
    ghost use Rattle.sb_views.specs.NodeViews as node_views;

    ghost Value = { node_views.OwnerView };

    ghost coded = { Prim.hlevel (codes, code) };

    ghost view = { λ s. record { upto = s.upto; rows = node_views.rows_of (node_views.live_rows_of s.rows.items) } };

    ghost invariant = { λ s. node_views.AreLive s.rows.items };
}

/// Puts an entry at this place. If memory is missing, nothing changes.
fn insert_row(
    rows: &mut Vec<SharedEntry>,
    place: usize,
    entry: SharedEntry,
) -> Result<(), AllocError>
    requires { place ≤ length rows.old.items }
    ensures ok { OnOk result (rows.new.items ≡ lists.insert rows.old.items place entry) }
    ensures err { OnErr result (rows.new.items ≡ rows.old.items) }
{
    match rows.insert(place, entry) {
        Ok(()) => Ok(()),
        Err(refused) => {
            drop(refused);
            Err(AllocError)
        }
    }
}

/// Puts an entry in place of what its key had. If memory is missing, nothing changes.
fn set_row(rows: &mut Vec<SharedEntry>, entry: SharedEntry) -> Result<(), AllocError>
    requires live { node_views.AreLive rows.old.items }
    requires set { is_set entry.slot ≡ true }
    ensures ok { OnOk result (node_views.rows_of (node_views.live_rows_of rows.new.items) ≡ insert (node_views.rows_of (node_views.live_rows_of rows.old.items)) entry.key (node_views.live_of entry)) }
    ensures err { OnErr result (rows.new.items ≡ rows.old.items) }
    ensures live { node_views.AreLive rows.new.items }
{
    match place_of(rows, entry.entry().key()) {
        Ok(place) => {
            rows[place] = entry;
            Ok(())
        }
        Err(place) => insert_row(rows, place, entry),
    }
}

/// Removes what is under a key.
fn remove_row(rows: &mut Vec<SharedEntry>, key: &Key)
    requires { node_views.AreLive rows.old.items }
    ensures removed { node_views.rows_of (node_views.live_rows_of rows.new.items) ≡ remove (node_views.rows_of (node_views.live_rows_of rows.old.items)) key.now }
    ensures live { node_views.AreLive rows.new.items }
{
    match place_of(rows, key) {
        Ok(place) => drop(rows.remove(place)),
        Err(_) => {}
    }
}

/// Shows what a write puts under its key. If memory is missing, nothing changes.
fn enter_row(rows: &mut Vec<SharedEntry>, shared: &SharedEntry) -> Result<(), AllocError>
    requires { node_views.AreLive rows.old.items }
    ensures ok { OnOk result (node_views.rows_of (node_views.live_rows_of rows.new.items) ≡ node_views.rows_with (node_views.rows_of (node_views.live_rows_of rows.old.items)) shared.now shared.now.slot) }
    ensures err { OnErr result (rows.new.items ≡ rows.old.items) }
    ensures live { node_views.AreLive rows.new.items }
{
    match shared.entry().slot() {
        Slot::Set(_) => match shared.share() {
            Ok(same) => set_row(rows, same),
            Err(_) => Err(AllocError),
        },
        Slot::Removed => {
            remove_row(rows, shared.entry().key());
            Ok(())
        }
    }
}

impl OwnerView {
    /// The view of an owner who wrote nothing. It takes no memory.
    pub(crate) fn new(alloc: Global) -> OwnerView
        ensures { result ≡ node_views.no_view }
    {
        OwnerView {
            upto: 0,
            rows: Vec::new(alloc),
        }
    }

    /// Shows a change. If memory is missing, nothing changes.
    pub(crate) fn change(&mut self, change: ChangeRef<'_>) -> Result<(), AllocError>
        ensures ok { OnOk result (self.new ≡ node_views.owner_view_with self.old (change_of change.entry)) }
        ensures err { OnErr result (self.new ≡ self.old) }
    {
        match change {
            ChangeRef::Enter(entry) => self.enter(entry),
            ChangeRef::Clear => {
                self.clear();
                Ok(())
            }
            ChangeRef::Hold(upto) => {
                self.hold(upto);
                Ok(())
            }
        }
    }

    /// Shows a write. If memory is missing, nothing changes.
    fn enter(&mut self, entry: &SharedEntry) -> Result<(), AllocError>
        ensures ok { OnOk result (self.new ≡ node_views.owner_view_with self.old (changes.Enter entry.now)) }
        ensures err { OnErr result (self.new ≡ self.old) }
    {
        match enter_row(&mut self.rows, entry) {
            Ok(()) => {
                self.upto = entry.entry().version();
                Ok(())
            }
            Err(refused) => Err(refused),
        }
    }

    /// Shows no rows.
    fn clear(&mut self)
        ensures { self.new ≡ node_views.owner_view_with self.old changes.Clear }
    {
        self.rows.clear();
    }

    /// Shows up to which version the owner is held.
    fn hold(&mut self, upto: u64)
        ensures { self.new ≡ node_views.owner_view_with self.old (changes.Hold upto) }
    {
        self.upto = upto;
    }

    /// The version up to which the owner is held.
    pub fn upto(&self) -> u64
        ensures { result ≡ self.now.upto }
    {
        self.upto
    }

    /// How many live rows the owner has. None is counted out one by one.
    pub fn len(&self) -> usize
        ensures { result ≡ length (entries self.now.rows) }
    {
        self.rows.len()
    }

    /// The value under a key, with the version of its write.
    pub(crate) fn get(&self, key: &Key) -> Option<(&Value, u64)>
        ensures { option_map (λ p. (p.0.now, p.1)) result ≡ get self.now.rows key.now }
    {
        match place_of(&self.rows, key) {
            Ok(place) => {
                let live = LiveValue::of(&self.rows[place]);
                Some((live.value(), live.version()))
            }
            Err(_) => None,
        }
    }

    /// The rows under the keys that begin with the prefix, in ascending order of their keys.
    pub(crate) fn rows<'a>(&'a self, owner: &'a Name, prefix: Prefix) -> OwnerRows<'a>
        ensures { result ≡ spec.rows_under prefix owner.now self.now }
    {
        OwnerRows::new(owner, from_start(&self.rows, prefix.start()), prefix)
    }

    /// Those of them that stand behind the key.
    pub(crate) fn rows_behind<'a>(
        &'a self,
        owner: &'a Name,
        prefix: Prefix,
        key: Key,
    ) -> OwnerRows<'a>
        ensures { result ≡ filter (spec.is_behind (Some (owner.now, key))) (spec.rows_under prefix owner.now self.now) }
    {
        let behind = start_behind(key, prefix);
        OwnerRows::new(owner, from_start(&self.rows, behind), prefix)
    }
}

/// Where the keys start that stand behind the key and do not come before the prefix.
fn start_behind(key: Key, prefix: Prefix) -> Bound<Key>
    ensures from { (other : List ℕ) → is_from_start (slice_cmp nat_cmp) result other ≡ true → is_le (slice_cmp nat_cmp prefix other) ≡ true }
    ensures behind { (other : List ℕ) → starts_with nat_eq other prefix ≡ true
        → is_from_start (slice_cmp nat_cmp) result other ≡ is_lt (slice_cmp nat_cmp key other) }
{
    if key.bytes().cmp(prefix.bytes()).is_lt() {
        prefix.start()
    } else {
        Bound::Excluded(key)
    }
}
