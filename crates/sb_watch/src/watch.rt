//! One watch: its filter, and its ring of notes.

ghost use Rattle.std.specs.Prelude.{◌≡◌, not, IfOk, IfErr};
ghost use Rattle.sb_watch.specs.Watches as spec;

use crate::note::{Filter, Note, Polled};
use circular_buffer::HeapCircularBuffer;
use sb_types::Fault;
use std::alloc::Global;
use std::marker::Model;

/// A watch. Its ring has all its room from the start.
#[derive(Debug, Drop)]
pub(crate) struct Watch {
    id: u64,
    filter: Filter,
    ring: HeapCircularBuffer<Note>,
    lost: u64,
}

impl Model for Watch {
    ghost use Rattle.sb_watch.specs.Records as records;

    ghost Value = { records.Watch };

    ghost view = { λ w. record { id = w.id; filter = w.filter; capacity = w.ring.capacity; notes = w.ring.items; lost = w.lost } };
}

impl Watch {
    /// Makes a watch that has no notes. The only fault is `NoMemory`.
    pub(crate) fn new(
        alloc: Global,
        id: u64,
        filter: Filter,
        capacity: usize,
    ) -> Result<Watch, Fault>
        ensures found { IfOk result (λ watch. watch ≡ spec.new_watch id filter capacity) }
        ensures fault { IfErr result (λ fault. fault ≡ Fault.NoMemory) }
    {
        let ring = HeapCircularBuffer::with_capacity(alloc, capacity)?;
        Ok(Watch {
            id,
            filter,
            ring,
            lost: 0,
        })
    }

    pub(crate) fn id(&self) -> u64
        ensures { result ≡ self.now.id }
    {
        self.id
    }

    /// Takes a note if the filter matches it. If the ring is full, the oldest note is lost.
    pub(crate) fn tell(&mut self, note: &Note)
        ensures { self.new ≡ spec.watch_after_note note.now self.old }
    {
        // A copy as a whole is not covered by the borrow checker, which then lacks the type of the key.
        let Note {
            owner,
            key,
            version,
        } = *note;
        if !self.filter.matches(note) {
            return;
        }
        let copy = Note {
            owner,
            key,
            version,
        };
        if self.ring.push_back(copy).is_some() {
            self.lost = self.lost.saturating_add(1);
        }
    }

    /// Returns whether it has a note to hand out, or lost one that it did not report yet.
    pub(crate) fn has_note(&self) -> bool
        ensures { result ≡ not (spec.owes_nothing self.now) }
    {
        self.lost > 0 || !self.ring.is_empty()
    }

    /// Returns how many notes were lost, if it did not report that yet; otherwise the oldest note, or that none is
    /// left.
    pub(crate) fn take(&mut self) -> Polled
        ensures answer { result ≡ spec.answer_of self.old }
        ensures left { self.new ≡ spec.watch_after_answer self.old }
    {
        if self.lost > 0 {
            let lost = self.lost;
            self.lost = 0;
            return Polled::Lagged(lost);
        }
        match self.ring.pop_front() {
            Some(note) => Polled::Note(note),
            None => Polled::Empty,
        }
    }
}
