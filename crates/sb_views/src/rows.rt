//! Live rows, lent in the order of their owners and keys.
ghost use Rattle.std.specs.Prelude.{◌≡◌, ◌++◌};
ghost use Rattle.std.specs.Option.{option_map};
ghost use Rattle.std.specs.Iterator.{YieldsFirstBy, item_count};
ghost use Rattle.sb_views.specs.LiveRows as spec;
ghost use Rattle.sb_views.specs.NodeViews as node_views;

use crate::live::LiveValue;
use crate::owner_view::OwnerView;
use sb_types::{Key, Name, Prefix, SharedEntry};
use std::collections::btree_map::Range;
use std::iter::FusedIterator;
use std::marker::Model;

/// A live row, lent: what an owner has under a key.
#[derive(Drop)]
pub struct LiveRow<'a> {
    pub owner: &'a Name,
    pub key: &'a Key,
    pub live: LiveValue<'a>,
}

/// The rows of one owner under the keys that begin with a prefix, in ascending order of the keys.
#[derive(Drop)]
pub(crate) struct OwnerRows<'a> {
    owner: &'a Name,
    rows: &'a [SharedEntry],
    prefix: Prefix,
}

impl<'a> Model for OwnerRows<'a> {
    ghost use Rattle.std.specs.Prelude.{List};
    ghost use Rattle.sb_views.specs.LiveRows as spec;
    ghost use Rattle.sb_views.specs.NodeViews as node_views;

    ghost Value = { List spec.LiveRow };

    ghost view = { λ it. spec.live_rows_under it.owner.now it.prefix (node_views.live_rows_of it.rows.now) };

    ghost invariant = { λ it. node_views.AllSet it.rows.now };
}

impl<'a> OwnerRows<'a> {
    /// The first rows of these, as long as their keys begin with the prefix.
    pub(crate) fn new(owner: &'a Name, rows: &'a [SharedEntry], prefix: Prefix) -> OwnerRows<'a>
        requires { node_views.AllSet rows.now }
        ensures { result ≡ spec.live_rows_under owner.now prefix (node_views.live_rows_of rows.now) }
    {
        OwnerRows {
            owner,
            rows,
            prefix,
        }
    }
}

impl<'a> Iterator for OwnerRows<'a> {
    type Item = LiveRow<'a>;

    ghost next_gives = { YieldsFirstBy spec.row_lent (λ it. it) };

    ghost remaining = { item_count (λ it. it) };

    fn next(&mut self) -> Option<LiveRow<'a>> {
        let (first, others) = self.rows.split_first()?;
        let key = first.entry().key();
        if !key.bytes().starts_with(self.prefix.bytes()) {
            self.rows = &self.rows[..0];
            return None;
        }
        self.rows = others;
        Some(LiveRow {
            owner: self.owner,
            key,
            live: LiveValue::of(first),
        })
    }
}

impl<'a> FusedIterator for OwnerRows<'a> {}

/// Rows of some owners or of one, under the keys that begin with a prefix: owner by owner in ascending order of their
/// names, and key by key.
#[derive(Drop)]
pub struct LiveRows<'a> {
    current: Option<OwnerRows<'a>>,
    owners: Range<'a, Name, OwnerView>,
    prefix: Prefix,
}

impl<'a> Model for LiveRows<'a> {
    ghost use Rattle.std.specs.Prelude.{List};
    ghost use Rattle.sb_views.specs.LiveRows as spec;

    ghost Value = { List spec.LiveRow };

    ghost view = { λ it. spec.rows_to_come it.prefix it.current it.owners };
}

impl<'a> LiveRows<'a> {
    /// The rows of an owner that is read already, and then those of the others.
    pub(crate) fn new(
        current: Option<OwnerRows<'a>>,
        owners: Range<'a, Name, OwnerView>,
        prefix: Prefix,
    ) -> LiveRows<'a>
        ensures { result ≡ spec.rows_to_come prefix current.entry owners.entry }
    {
        LiveRows {
            current,
            owners,
            prefix,
        }
    }
}

/// The next row, of the owner that it stands at or of the next owner that has one.
fn next_row<'a>(
    current: &mut Option<OwnerRows<'a>>,
    owners: &mut Range<'a, Name, OwnerView>,
    prefix: Prefix,
) -> Option<LiveRow<'a>>
    ensures { spec.GivesFirst (spec.rows_to_come prefix current.old owners.old) (option_map spec.row_lent result) (spec.rows_to_come prefix current.new owners.new) }
{
    loop {
        if let Some(rows) = current {
            if let Some(row) = rows.next() {
                return Some(row);
            }
        }
        match owners.next() {
            Some((owner, owner_view)) => *current = Some(owner_view.rows(owner, prefix)),
            None => return None,
        }
    }
}

impl<'a> Iterator for LiveRows<'a> {
    type Item = LiveRow<'a>;

    ghost next_gives = { YieldsFirstBy spec.row_lent (λ it. it) };

    ghost remaining = { item_count (λ it. it) };

    fn next(&mut self) -> Option<LiveRow<'a>> {
        next_row(&mut self.current, &mut self.owners, self.prefix)
    }
}

impl<'a> FusedIterator for LiveRows<'a> {}
