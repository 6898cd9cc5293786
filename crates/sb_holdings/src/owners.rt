//! The owners that are held.
ghost use Rattle.std.specs.Prelude.{◌≡◌};
ghost use Rattle.std.specs.Iterator.{YieldsFirstRef, YieldsFirstBy, item_count};
ghost use Rattle.std.specs.Map.Iter.{deref_pair};
ghost use Rattle.sb_holdings.specs.Plain.{each_shown};

use crate::holder::Holder;
use sb_table::Table;
use sb_types::Name;
use std::collections::btree_map::{Keys, Range};
use std::iter::FusedIterator;
use std::marker::Model;

/// Iterates over the names of owners, in ascending order.
#[derive(Drop)]
pub struct Owners<'a> {
    names: Keys<'a, Name, Holder>,
}

impl<'a> Model for Owners<'a> {
    ghost use Rattle.std.specs.Prelude.{ℕ, List};

    ghost Value = { List (List ℕ) };

    ghost view = { λ it. it.names };
}

impl<'a> Owners<'a> {
    pub(crate) fn new(names: Keys<'a, Name, Holder>) -> Owners<'a>
        ensures { result ≡ names.entry }
    {
        Owners { names }
    }
}

impl<'a> Iterator for Owners<'a> {
    type Item = &'a Name;

    ghost next_gives = { YieldsFirstRef (λ it. it) };

    ghost remaining = { item_count (λ it. it) };

    fn next(&mut self) -> Option<&'a Name> {
        self.names.next()
    }
}

impl<'a> FusedIterator for Owners<'a> {}

/// Iterates over owners with what is held of them, in ascending order of their names.
#[derive(Drop)]
pub struct Holders<'a> {
    holders: Range<'a, Name, Holder>,
}

impl<'a> Model for Holders<'a> {
    ghost use Rattle.std.specs.Prelude.{ℕ, List};
    ghost use Rattle.sb_types.specs.Records as records;

    ghost Value = { List (List ℕ × records.Holder) };

    ghost view = { λ it. it.holders };
}

impl<'a> Holders<'a> {
    pub(crate) fn new(holders: Range<'a, Name, Holder>) -> Holders<'a>
        ensures { result ≡ holders.entry }
    {
        Holders { holders }
    }
}

impl<'a> Iterator for Holders<'a> {
    type Item = (&'a Name, &'a Holder);

    ghost next_gives = { YieldsFirstBy deref_pair (λ it. it) };

    ghost remaining = { item_count (λ it. it) };

    fn next(&mut self) -> Option<(&'a Name, &'a Holder)> {
        self.holders.next()
    }
}

impl<'a> FusedIterator for Holders<'a> {}

/// Iterates over owners with their shown tables, in ascending order of their names.
#[derive(Drop)]
pub struct Tables<'a> {
    holders: Holders<'a>,
}

impl<'a> Model for Tables<'a> {
    ghost use Rattle.std.specs.Prelude.{ℕ, List};
    ghost use Rattle.sb_types.specs.Records as records;
    ghost use Rattle.sb_holdings.specs.Plain.{each_shown};

    ghost Value = { List (List ℕ × records.Table) };

    ghost view = { λ it. each_shown it.holders };
}

impl<'a> Tables<'a> {
    pub(crate) fn new(holders: Holders<'a>) -> Tables<'a>
        ensures { result ≡ each_shown holders.entry }
    {
        Tables { holders }
    }
}

impl<'a> Iterator for Tables<'a> {
    type Item = (&'a Name, &'a Table);

    ghost next_gives = { YieldsFirstBy deref_pair (λ it. it) };

    ghost remaining = { item_count (λ it. it) };

    fn next(&mut self) -> Option<(&'a Name, &'a Table)> {
        let (name, holder) = self.holders.next()?;
        Some((name, holder.shown()))
    }
}

impl<'a> FusedIterator for Tables<'a> {}
