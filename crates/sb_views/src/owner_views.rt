//! The owners of a view, with what is shown of each.
ghost use Rattle.std.specs.Prelude.{◌≡◌, ◌<◌, ◌^◌, [], ◌∷◌, MatchOption, length};
ghost use Rattle.std.specs.Iterator.{YieldsFirstBy, item_count};
ghost use Rattle.std.specs.Map.Iter.{deref_pair};
ghost use Rattle.sb_views.specs.NodeViews.{shown_owners};

use crate::owner_view::OwnerView;
use sb_types::Name;
use std::collections::btree_map::Iter;
use std::iter::FusedIterator;
use std::marker::Model;

/// Owners that are held above version 0, with what is shown of them, in ascending order of their names.
#[derive(Drop)]
pub struct OwnerViews<'a> {
    owners: Iter<'a, Name, OwnerView>,
}

impl<'a> Model for OwnerViews<'a> {
    ghost use Rattle.std.specs.Prelude.{ℕ, ◌<◌, ◌^◌, List, length};
    ghost use Rattle.std.specs.Coded.{codes};
    ghost use Rattle.std.specs.FinMap.{code};
    ghost use Rattle.sb_views.specs.NodeViews as node_views;

    ghost Value = { List (List ℕ × node_views.OwnerView) };

    ghost coded = { Prim.hlevel (codes, code) };

    ghost view = { λ it. node_views.shown_owners it.owners };

    ghost invariant = { λ it. length (node_views.shown_owners it.owners) < 2 ^ 63 };
}

impl<'a> OwnerViews<'a> {
    pub(crate) fn new(owners: Iter<'a, Name, OwnerView>) -> OwnerViews<'a>
        requires { length (shown_owners owners) < 2 ^ 63 }
        ensures { result ≡ shown_owners owners.entry }
    {
        OwnerViews { owners }
    }
}

/// Takes the owners up to the first one that is held above version 0, and returns that one.
#[tactic(auto, using(crate::proofs::ShownOwners::first_unshown, crate::proofs::ShownOwners::first_shown))]
fn next_shown<'a>(owners: &mut Iter<'a, Name, OwnerView>) -> Option<(&'a Name, &'a OwnerView)>
    ensures { MatchOption result ((shown_owners owners.old ≡ []) × (shown_owners owners.new ≡ [])) (λ p. shown_owners owners.old ≡ deref_pair p ∷ shown_owners owners.new) }
{
    while let Some((owner, view)) = owners.next() {
        if 0 < view.upto() {
            return Some((owner, view));
        }
    }
    None
}

impl<'a> Iterator for OwnerViews<'a> {
    type Item = (&'a Name, &'a OwnerView);

    ghost next_gives = { YieldsFirstBy deref_pair (λ it. it) };

    ghost remaining = { item_count (λ it. it) };

    fn next(&mut self) -> Option<(&'a Name, &'a OwnerView)> {
        next_shown(&mut self.owners)
    }
}

impl<'a> FusedIterator for OwnerViews<'a> {}
