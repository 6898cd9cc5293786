//! For how long the first own write of a run waits: until each peer was heard.
ghost use Rattle.std.specs.Prelude.{◌≡◌, ◌≢◌, ℕ, true, false, None, Some, if◌then◌else◌, slice_get, IfSome, IfOk, IfErr, replicate};
ghost use Rattle.std.specs.List.{list_all};

use sb_types::Fault;
use std::alloc::Global;
use std::time::Instant;

/// Which peers were heard in this run, for which the first own write waits.
#[derive(Drop)]
pub(crate) struct FirstHearing {
    /// Whether each peer was heard: a round with it ended, and also an audit if it answered.
    heard: Vec<bool>,
    /// Until when a write waits at most; not at all if there is no moment.
    until: Option<Instant>,
}

impl FirstHearing {
    /// None of so many peers was heard. A write waits until this moment at most; not at all if there is none. `NoMemory`.
    pub(crate) fn new(
        alloc: Global,
        count: usize,
        until: Option<Instant>,
    ) -> Result<FirstHearing, Fault>
        ensures heard { IfOk result (λ hearing. hearing.heard.items ≡ replicate count false) }
        ensures until { IfOk result (λ hearing. hearing.until ≡ until) }
        ensures memory { IfErr result (λ fault. fault ≡ Fault.NoMemory) }
    {
        let heard = vec![in alloc; false; count]?;
        Ok(FirstHearing { heard, until })
    }

    /// Notes that the peer at this index was heard.
    pub(crate) fn note_heard(&mut self, index: usize)
        ensures heard { IfSome (slice_get self.old.heard.items index) (λ _. slice_get self.new.heard.items index ≡ Some true) }
        ensures others { (other : ℕ) → other ≢ index → slice_get self.new.heard.items other ≡ slice_get self.old.heard.items other }
        ensures until { self.new.until ≡ self.old.until }
    {
        if let Some(heard) = self.heard.get_mut(index) {
            *heard = true;
        }
    }

    /// Whether each peer was heard.
    fn are_all_heard(&self) -> bool
        ensures { result ≡ list_all (λ heard. heard) self.now.heard.items }
    {
        self.heard.iter().all(|heard| *heard)
    }

    /// Until when a write waits at most. None if it does not wait: each peer was heard, or none is waited for.
    pub(crate) fn waits_until(&self) -> Option<Instant>
        ensures { result ≡ if list_all (λ heard. heard) self.now.heard.items then None else self.now.until }
    {
        if self.are_all_heard() {
            None
        } else {
            self.until
        }
    }
}
