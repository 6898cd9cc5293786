//! The entries of a table whose keys begin with a prefix.
ghost use Rattle.std.specs.Prelude.{◌≡◌};
ghost use Rattle.std.specs.Iterator.{YieldsFirstRef, item_count};

use sb_types::{Entry, SharedEntry};
use std::iter::FusedIterator;
use std::marker::Model;

/// Iterates over the entries whose keys begin with a prefix, in ascending order of their keys.
#[derive(Debug, Drop)]
pub struct Prefixed<'a> {
    entries: &'a [SharedEntry],
}

impl<'a> Model for Prefixed<'a> {
    ghost use Rattle.std.specs.Prelude.{List};
    ghost use Rattle.sb_types.specs.Records as records;

    ghost Value = { List records.Entry };

    ghost view = { λ it. it.entries.now };
}

impl<'a> Prefixed<'a> {
    pub(crate) fn new(entries: &'a [SharedEntry]) -> Prefixed<'a>
        ensures { result ≡ entries.now }
    {
        Prefixed { entries }
    }
}

impl<'a> Iterator for Prefixed<'a> {
    type Item = &'a Entry;

    ghost next_gives = { YieldsFirstRef (λ it. it) };

    ghost remaining = { item_count (λ it. it) };

    fn next(&mut self) -> Option<&'a Entry> {
        let (first, others) = self.entries.split_first()?;
        self.entries = others;
        Some(first.entry())
    }
}

impl<'a> FusedIterator for Prefixed<'a> {}
