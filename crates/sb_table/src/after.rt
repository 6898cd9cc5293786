//! The entries of a table above a version.
ghost use Rattle.std.specs.Prelude.{◌≡◌, ◌<◌, ◌^◌, length};
ghost use Rattle.std.specs.Iterator.{YieldsFirstRef, item_count};

use sb_types::{Entry, SharedEntry};
use std::iter::FusedIterator;
use std::marker::Model;

/// Iterates over the entries above a version, in ascending version.
#[derive(Debug, Drop)]
pub struct After<'a> {
    entries: &'a [SharedEntry],
}

impl<'a> Model for After<'a> {
    ghost use Rattle.std.specs.Prelude.{List, length, ◌<◌, ◌^◌};
    ghost use Rattle.sb_types.specs.Records as records;

    ghost Value = { List records.Entry };

    ghost view = { λ it. it.entries.now };

    ghost invariant = { λ it. length it.entries.now < 2 ^ 63 };
}

impl<'a> After<'a> {
    pub(crate) fn new(entries: &'a [SharedEntry]) -> After<'a>
        requires { length entries.now < 2 ^ 63 }
        ensures { result ≡ entries.now }
    {
        After { entries }
    }
}

impl<'a> Iterator for After<'a> {
    type Item = &'a Entry;

    ghost next_gives = { YieldsFirstRef (λ it. it) };

    ghost remaining = { item_count (λ it. it) };

    fn next(&mut self) -> Option<&'a Entry> {
        let (first, others) = self.entries.split_first()?;
        self.entries = others;
        Some(first.entry())
    }
}

impl<'a> FusedIterator for After<'a> {}

/// Iterates over the entries above a version, in ascending version, to share them with others.
#[derive(Debug, Drop)]
pub struct SharedAfter<'a> {
    entries: &'a [SharedEntry],
}

impl<'a> Model for SharedAfter<'a> {
    ghost use Rattle.std.specs.Prelude.{List, length, ◌<◌, ◌^◌};
    ghost use Rattle.sb_types.specs.Records as records;

    ghost Value = { List records.Entry };

    ghost view = { λ it. it.entries.now };

    ghost invariant = { λ it. length it.entries.now < 2 ^ 63 };
}

impl<'a> SharedAfter<'a> {
    pub(crate) fn new(entries: &'a [SharedEntry]) -> SharedAfter<'a>
        requires { length entries.now < 2 ^ 63 }
        ensures { result ≡ entries.now }
    {
        SharedAfter { entries }
    }
}

impl<'a> Iterator for SharedAfter<'a> {
    type Item = &'a SharedEntry;

    ghost next_gives = { YieldsFirstRef (λ it. it) };

    ghost remaining = { item_count (λ it. it) };

    fn next(&mut self) -> Option<&'a SharedEntry> {
        let (first, others) = self.entries.split_first()?;
        self.entries = others;
        Some(first)
    }
}

impl<'a> FusedIterator for SharedAfter<'a> {}
