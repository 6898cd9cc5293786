//! What watches receive, what they are for, and what they answer.

ghost use Rattle.std.specs.Prelude.{◌≡◌};
ghost use Rattle.sb_watch.specs.Watches as spec;

use sb_types::{Key, Name, Prefix};
use std::marker::Model;

/// What a watch receives of a change: whose it is, under which key, and the version. It has no value: that is in the views.
#[derive(Clone, Copy, Debug, PartialEq, Eq)]
pub struct Note {
    pub owner: Name,
    /// `None` if the owner's whole table was replaced: each of its keys may have changed, or be gone.
    pub key: Option<Key>,
    pub version: u64,
}

/// Which notes a watch is for: those whose keys begin with the prefix, and those of whole tables. They are of this owner, or
/// of all owners if none is named.
#[derive(Clone, Copy, Debug)]
pub struct Filter {
    pub owner: Option<Name>,
    pub prefix: Prefix,
}

impl Filter {
    /// Returns whether a watch with this filter is for the note.
    pub(crate) fn matches(&self, note: &Note) -> bool
        ensures { result ≡ spec.matches self.now note.now }
    {
        if let Some(owner) = &self.owner {
            if owner != &note.owner {
                return false;
            }
        }
        match &note.key {
            Some(key) => key.bytes().starts_with(self.prefix.bytes()),
            None => true,
        }
    }
}

/// The answer of a watch.
#[derive(Clone, Copy, Debug, PartialEq, Eq)]
pub enum Polled {
    /// How many notes were pushed out since this was last reported, or 2^64 - 1 if there were more.
    Lagged(u64),
    /// The oldest note that was neither handed out nor pushed out.
    Note(Note),
    /// No note is left.
    Empty,
}

/// The id of a watch. A hub gives each id only once.
#[derive(Clone, Copy, Debug, PartialEq, Eq)]
pub struct WatchId {
    number: u64,
}

impl Model for WatchId {
    ghost use Rattle.std.specs.Prelude.{ℕ};

    ghost Value = { ℕ };

    ghost view = { λ id. id.number };

    ghost inverse = { λ number. record { number = number } };
}

impl WatchId {
    pub(crate) fn new(number: u64) -> WatchId
        ensures { result ≡ number }
    {
        WatchId { number }
    }

    pub(crate) fn number(self) -> u64
        ensures { result ≡ self }
    {
        self.number
    }
}
