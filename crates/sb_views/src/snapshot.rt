//! What a reader reads.
ghost use Rattle.std.specs.Prelude.{◌≡◌};
ghost use Rattle.std.specs.FinMap.{entries};
ghost use Rattle.std.specs.Option.{option_map};
ghost use Rattle.sb_views.specs.NodeViews as node_views;
ghost use Rattle.sb_views.specs.LiveRows as spec;

use crate::node_view::NodeView;
use crate::owner_views::OwnerViews;
use crate::rows::LiveRows;
use sb_types::{Key, Name, Prefix, Value};
use std::marker::Model;

/// What is shown of a node, lent while its reader reads. No call takes memory.
///
/// ```rust
/// /// How many rows an owner has under the keys that begin with a prefix.
/// fn count_under(snapshot: &Snapshot<'_>, owner: Name, prefix: Prefix) -> usize {
///     let mut count: usize = 0;
///     for _row in snapshot.rows(Some(owner), prefix) {
///         count = count.saturating_add(1);
///     }
///     count
/// }
/// ```
#[derive(Drop)]
pub struct Snapshot<'a> {
    view: &'a NodeView,
}

impl<'a> Model for Snapshot<'a> {
    ghost use Rattle.std.specs.Coded.{codes};
    ghost use Rattle.std.specs.FinMap.{code};
    ghost use Rattle.sb_views.specs.NodeViews as node_views;

    ghost Value = { node_views.NodeView };

    ghost coded = { Prim.hlevel (codes, code) };

    ghost view = { λ s. s.view.now };
}

impl<'a> Snapshot<'a> {
    pub(crate) fn of(view: &'a NodeView) -> Snapshot<'a>
        ensures { result ≡ view.now }
    {
        Snapshot { view }
    }

    /// The version up to which an owner is held, 0 where it is not.
    pub fn upto(&self, owner: &Name) -> u64
        ensures { result ≡ node_views.upto_of self.now owner.now }
    {
        self.view.upto(owner)
    }

    /// The value under a key of an owner, with the version of its write; nothing where the key was removed, or where
    /// no write of it is held.
    pub fn get(&self, owner: &Name, key: &Key) -> Option<(&'a Value, u64)>
        ensures { option_map (λ p. (p.0.now, p.1)) result ≡ node_views.row_of self.now owner.now key.now }
    {
        self.view.get(owner, key)
    }

    /// The owners that are held above version 0, with what is shown of them, in ascending order of their names. An owner that is held at
    /// version 0 is not among them: nothing of it is shown.
    pub fn owners(&self) -> OwnerViews<'a>
        ensures { result ≡ node_views.shown_owners (entries self.now) }
    {
        self.view.owners()
    }

    /// The live rows of the wanted owner, or of all, under the keys that begin with the prefix: owner by owner in
    /// ascending order of their names, and key by key.
    pub fn rows(&self, wanted: Option<Name>, prefix: Prefix) -> LiveRows<'a>
        ensures { result ≡ spec.rows_in wanted prefix self.now }
    {
        self.view.rows(wanted, prefix)
    }

    /// Those of them that stand behind the place, by owner and then by key; all of them where there is none. Where they
    /// begin is searched for: the rows up to the place are not passed over.
    pub fn rows_behind(
        &self,
        wanted: Option<Name>,
        prefix: Prefix,
        place: Option<(Name, Key)>,
    ) -> LiveRows<'a>
        ensures { result ≡ spec.rows_behind place wanted prefix self.now }
    {
        self.view.rows_behind(wanted, prefix, place)
    }
}
