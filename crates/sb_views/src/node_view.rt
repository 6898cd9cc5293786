//! What is shown of all owners.
ghost use Rattle.std.specs.Prelude.{◌≡◌, ◌&&◌, ℕ, List, filter, Some, None, OnOk, OnErr};
ghost use Rattle.std.specs.Option.{option_map, option_copied};
ghost use Rattle.std.specs.FinMap.{empty, entries, get, insert};
ghost use Rattle.std.specs.Ordering.{nat_cmp, is_lt};
ghost use Rattle.std.specs.Cmp.Lexicographic.{slice_cmp};
ghost use Rattle.std.specs.BTreeMap.{IsOrdered};
ghost use Rattle.std.specs.BTreeMap.Range.{range_contains, IsLeBy, IsLtBy};
ghost use Rattle.std.specs.Range.Bound.{IsForward};
ghost use Rattle.std.specs.declared.ops.Bound.TheVariants.{Included};
ghost use Rattle.sb_views.specs.Changes.{change_of};
ghost use Rattle.sb_views.specs.NodeViews as node_views;
ghost use Rattle.sb_views.specs.LiveRows as spec;

use crate::change::ChangeRef;
use crate::owner_view::OwnerView;
use crate::owner_views::OwnerViews;
use crate::rows::{LiveRows, OwnerRows};
use sb_types::{Key, Name, Prefix, Value};
use std::alloc::{AllocError, Global};
use std::collections::BTreeMap;
use std::collections::btree_map::Range;
use std::marker::Model;
use std::ops::Bound;

/// The view of a node: the views of its owners, by name.
#[derive(Drop)]
pub(crate) struct NodeView {
    owners: BTreeMap<Name, OwnerView>,
    alloc: Global,
}

impl Model for NodeView {
    ghost use Rattle.std.specs.Ordering.{nat_cmp};
    ghost use Rattle.std.specs.Cmp.Lexicographic.{slice_cmp};
    ghost use Rattle.std.specs.BTreeMap.{IsOrdered};
    ghost use Rattle.std.specs.Coded.{codes};
    ghost use Rattle.std.specs.FinMap.{code};
    ghost use Rattle.sb_views.specs.NodeViews as node_views;

    ghost Value = { node_views.NodeView };

    ghost coded = { Prim.hlevel (codes, code) };

    ghost view = { λ p. node_views.view_of p.owners.entries };

    ghost invariant = { λ p. IsOrdered (slice_cmp nat_cmp) p.owners };
}

/// Puts an owner's view under its name. Where memory is wanting nothing changes.
fn put_owner_view(
    owners: &mut BTreeMap<Name, OwnerView>,
    owner: Name,
    owner_view: OwnerView,
) -> Result<(), AllocError>
    requires { IsOrdered (slice_cmp nat_cmp) owners.old }
    ensures ok { OnOk result (node_views.view_of owners.new.entries ≡ insert (node_views.view_of owners.old.entries) owner owner_view) }
    ensures err { OnErr result (owners.new.entries ≡ owners.old.entries) }
    ensures ordered { IsOrdered (slice_cmp nat_cmp) owners.new }
{
    match owners.insert(owner, owner_view) {
        Ok(earlier) => {
            drop(earlier);
            Ok(())
        }
        Err(refused) => {
            drop(refused);
            Err(AllocError)
        }
    }
}

impl NodeView {
    /// A view without owners. It takes no memory.
    pub(crate) fn new(alloc: Global) -> NodeView
        ensures { result ≡ empty }
    {
        NodeView {
            owners: BTreeMap::new(alloc),
            alloc,
        }
    }

    /// Shows a change of an owner. Where memory is wanting nothing changes.
    pub(crate) fn change(&mut self, owner: &Name, change: ChangeRef<'_>) -> Result<(), AllocError>
        ensures ok { OnOk result (self.new ≡ node_views.view_with self.old owner.now (change_of change.entry)) }
        ensures err { OnErr result (self.new ≡ self.old) }
    {
        match self.owners.get_mut(owner) {
            Some(owner_view) => owner_view.change(change),
            None => self.add(owner, change),
        }
    }

    /// Shows the first change of an owner. Where memory is wanting nothing changes.
    fn add(&mut self, owner: &Name, change: ChangeRef<'_>) -> Result<(), AllocError>
        requires { get self.old owner.now ≡ None }
        ensures ok { OnOk result (self.new ≡ node_views.view_with self.old owner.now (change_of change.entry)) }
        ensures err { OnErr result (self.new ≡ self.old) }
    {
        let mut owner_view = OwnerView::new(self.alloc);
        owner_view.change(change)?;
        put_owner_view(&mut self.owners, *owner, owner_view)
    }

    /// The view of an owner.
    pub(crate) fn owner_view(&self, owner: &Name) -> Option<&OwnerView>
        ensures { option_copied result ≡ get self.now owner.now }
    {
        self.owners.get(owner)
    }

    /// The version up to which an owner is held, 0 where it is not.
    pub(crate) fn upto(&self, owner: &Name) -> u64
        ensures { result ≡ node_views.upto_of self.now owner.now }
    {
        match self.owner_view(owner) {
            Some(owner_view) => owner_view.upto(),
            None => 0,
        }
    }

    /// The value under a key of an owner, with the version of its write.
    pub(crate) fn get(&self, owner: &Name, key: &Key) -> Option<(&Value, u64)>
        ensures { option_map (λ p. (p.0.now, p.1)) result ≡ node_views.row_of self.now owner.now key.now }
    {
        match self.owner_view(owner) {
            Some(owner_view) => owner_view.get(key),
            None => None,
        }
    }

    /// The rows of the wanted owner, or of all, under the keys that begin with the prefix.
    pub(crate) fn rows(&self, wanted: Option<Name>, prefix: Prefix) -> LiveRows<'_>
        ensures { result ≡ spec.rows_in wanted prefix self.now }
    {
        match wanted {
            Some(owner) => {
                let one = (Bound::Included(owner), Bound::Included(owner));
                LiveRows::new(None, self.owners.range(one), prefix)
            }
            None => {
                let all: (Bound<Name>, Bound<Name>) = (Bound::Unbounded, Bound::Unbounded);
                LiveRows::new(None, self.owners.range(all), prefix)
            }
        }
    }

    /// The owners that are held above version 0, with what is shown of them.
    #[tactic(auto, using(crate::proofs::ShownOwners::few_shown))]
    pub(crate) fn owners(&self) -> OwnerViews<'_>
        ensures { result ≡ node_views.shown_owners (entries self.now) }
    {
        OwnerViews::new(self.owners.iter())
    }

    /// Those of them that stand behind the place.
    pub(crate) fn rows_behind(
        &self,
        wanted: Option<Name>,
        prefix: Prefix,
        place: Option<(Name, Key)>,
    ) -> LiveRows<'_>
        ensures { result ≡ spec.rows_behind place wanted prefix self.now }
    {
        match place {
            Some(place) => self.rows_from(wanted, prefix, place),
            None => self.rows(wanted, prefix),
        }
    }

    /// Those of them that stand behind this place.
    fn rows_from(&self, wanted: Option<Name>, prefix: Prefix, place: (Name, Key)) -> LiveRows<'_>
        ensures { result ≡ spec.rows_behind (Some place) wanted prefix self.now }
    {
        let (owner, key) = place;
        // Copies: what is handed to a call counts as lent while what the call lends is in use.
        let (same_wanted, same_owner, same_prefix) = (wanted, owner, prefix);
        let others = self.others_behind(same_wanted, same_owner);
        let rest = self.rest_of(wanted, same_prefix, owner, key);
        LiveRows::new(rest, others, prefix)
    }

    /// The views of the wanted owners behind this one.
    fn others_behind(&self, wanted: Option<Name>, owner: Name) -> Range<'_, Name, OwnerView>
        ensures { result ≡ filter (λ p. spec.is_wanted wanted p.0 && is_lt (slice_cmp nat_cmp owner p.0)) (entries self.now) }
    {
        match wanted {
            Some(name) => {
                let end = end_behind(name, owner);
                self.owners.range((Bound::Included(name), end))
            }
            None => self
                .owners
                .range((Bound::Excluded(owner), Bound::Unbounded)),
        }
    }

    /// The rows of the owner, where it is wanted, that stand behind the key.
    fn rest_of(
        &self,
        wanted: Option<Name>,
        prefix: Prefix,
        owner: Name,
        key: Key,
    ) -> Option<OwnerRows<'_>>
        ensures { result ≡ spec.rest_of wanted prefix owner key self.now }
    {
        if !is_wanted(wanted, owner) {
            return None;
        }
        match self.owners.get_key_value(&owner) {
            Some((owner, owner_view)) => Some(owner_view.rows_behind(owner, prefix, key)),
            None => None,
        }
    }
}

fn is_wanted(wanted: Option<Name>, owner: Name) -> bool
    ensures { result ≡ spec.is_wanted wanted owner }
{
    match wanted {
        Some(name) => name == owner,
        None => true,
    }
}

/// Where a range ends that has the name alone, or nothing where the name is not behind the owner's.
fn end_behind(name: Name, owner: Name) -> Bound<Name>
    ensures forward { IsForward (IsLeBy (slice_cmp nat_cmp)) (IsLtBy (slice_cmp nat_cmp)) (Included name) result }
    ensures behind { (other : List ℕ) → range_contains (slice_cmp nat_cmp) (Included name) result other
        ≡ (spec.is_wanted (Some name) other && is_lt (slice_cmp nat_cmp owner other)) }
{
    if owner.bytes().cmp(name.bytes()).is_lt() {
        Bound::Included(name)
    } else {
        Bound::Excluded(name)
    }
}
