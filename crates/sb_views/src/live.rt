//! What is live under a key.
ghost use Rattle.std.specs.Prelude.{◌≡◌, ◌≤◌, true};
ghost use Rattle.sb_types.specs.Runs.{is_set};
ghost use Rattle.sb_views.specs.NodeViews.{live_of};

use sb_types::{SharedEntry, Slot, Value};
use std::marker::Model;

/// The value under a key, lent, with the version of its write, which is at least 1.
#[derive(Drop)]
pub struct LiveValue<'a> {
    value: &'a Value,
    version: u64,
}

impl<'a> Model for LiveValue<'a> {
    ghost use Rattle.std.specs.Prelude.{ℕ, ◌≤◌};
    ghost use Rattle.sb_types.specs.Value as values;

    ghost Value = { values.Value × ℕ };

    ghost view = { λ l. (l.value.now, l.version) };

    ghost invariant = { λ l. 1 ≤ l.version };
}

impl<'a> LiveValue<'a> {
    /// Returns the value that an entry sets, with its version.
    pub(crate) fn of(entry: &'a SharedEntry) -> LiveValue<'a>
        requires { is_set entry.now.slot ≡ true }
        ensures { result ≡ live_of entry.now }
    {
        let version = entry.entry().version();
        match entry.entry().slot() {
            Slot::Set(value) => LiveValue { value, version },
            Slot::Removed => unreachable!(),
        }
    }

    /// What was written.
    pub fn value(&self) -> &'a Value
        ensures { result.now ≡ self.now.0 }
    {
        self.value
    }

    /// The version of the write, at least 1.
    pub fn version(&self) -> u64
        ensures version { result ≡ self.now.1 }
        ensures least { 1 ≤ result }
    {
        self.version
    }
}
