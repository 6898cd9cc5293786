//! All watches of a node.

ghost use Rattle.std.specs.Prelude.{◌≡◌, ◌<◌, ◌-◌, ◌^◌, false, [], length, if◌then◌else◌, map, position, Ok, Err, IfOk, IfSome, IfNone, OnOk, OnErr};
ghost use Rattle.sb_types.specs.Faults.{Gives};
ghost use Rattle.sb_watch.specs.Watches.{watch_after_note};
ghost use Rattle.sb_watch.specs.Hubs as spec;

use crate::limits::{RING_MOST, WATCHES_MOST};
use crate::note::{Filter, Note, Polled, WatchId};
use crate::watch::Watch;
use sb_types::Fault;
use std::alloc::Global;
use std::marker::Model;

/// The watches of a node. Each keeps the last notes that match its filter, as many as its ring has room for. It counts
/// those that were pushed out.
///
/// ```
/// let mut hub = Hub::new(alloc);
/// let id = hub.add(Filter { owner: None, prefix: Prefix::read(b"net/")? }, 2)?;
/// hub.push(&Note { owner: Name::read(b"a")?, key: Some(Key::read(b"net/b")?), version: 2 });
/// assert!(rt; matches!(hub.take(id), Ok(Polled::Note(note)) if note.version == 2));
/// assert_eq!(rt; hub.take(id), Ok(Polled::Empty));
/// ```
///
/// The test `example_of_watches` runs these lines.
#[derive(Debug, Drop)]
pub struct Hub {
    watches: Vec<Watch>,
    next: u64,
    alloc: Global,
}

impl Model for Hub {
    ghost use Rattle.sb_watch.specs.Records as records;
    ghost use Rattle.sb_watch.specs.Hubs.{IsHub};

    ghost Value = { records.Hub };

    ghost view = { λ hub. record { watches = hub.watches.items; next = hub.next } };

    ghost invariant = { λ hub. IsHub (record { watches = hub.watches.items; next = hub.next }) };
}

impl Hub {
    /// Makes a hub without watches. This takes no memory; later calls allocate by `alloc`.
    pub fn new(alloc: Global) -> Hub
        ensures { result ≡ spec.new_hub }
    {
        Hub {
            watches: Vec::new(alloc),
            next: 0,
            alloc,
        }
    }

    /// Returns why no watch with this room can be added: `BadSetting` or `WatchesFull`, as `add` returns them. Returns `None`
    /// if only memory can be missing.
    pub fn refusal(&self, capacity: usize) -> Option<Fault>
        ensures some { IfSome result (λ fault. spec.next_id self.now capacity ≡ Err fault) }
        ensures none { IfNone result (spec.next_id self.now capacity ≡ Ok self.now.next) }
        ensures room { IfNone result ((length self.now.watches < WATCHES_MOST) × (self.now.next < 2 ^ 64 - 1)) }
    {
        if capacity < 1 || capacity > RING_MOST {
            return Some(Fault::BadSetting);
        }
        if self.watches.len() >= WATCHES_MOST || self.next == u64::MAX {
            return Some(Fault::WatchesFull);
        }
        None
    }

    /// Adds a watch with room for 1 to 1,024 notes, and returns its id. No other watch of this hub had this id, or will
    /// have it. Its faults, in this order. Each leaves the hub as it was:
    ///
    /// - `BadSetting`: the capacity is not from 1 to 1,024.
    /// - `WatchesFull`: there are 64 watches, or all ids were used.
    /// - `NoMemory`.
    pub fn add(&mut self, filter: Filter, capacity: usize) -> Result<WatchId, Fault>
        ensures answer { Gives result (spec.next_id self.old capacity) }
        ensures refused { (fault : Fault) → spec.next_id self.old capacity ≡ Err fault → result ≡ Err fault }
        ensures unused { IfOk result (λ id. spec.has_watch self.old id ≡ false) }
        ensures ok { OnOk result (self.new ≡ spec.with_watch self.old filter capacity) }
        ensures err { OnErr result (self.new ≡ self.old) }
    {
        if let Some(fault) = self.refusal(capacity) {
            return Err(fault);
        }
        let id = self.next;
        self.watches
            .push(Watch::new(self.alloc, id, filter, capacity)?)?;
        self.next += 1;
        Ok(WatchId::new(id))
    }

    /// Gives a note to every watch. A watch whose filter matches the note keeps it, and loses its oldest note if its
    /// ring is full. It takes no memory.
    pub fn push(&mut self, note: &Note)
        ensures { self.new ≡ spec.with_push self.old note.now }
    {
        tell_all(&mut self.watches, note);
    }

    /// Returns whether the hub has a watch of this id. With this a directory can answer that there is none before it
    /// publishes anything.
    pub fn has(&self, id: WatchId) -> bool
        ensures answer { result ≡ spec.has_watch self.now id }
        ensures hub { spec.IsHub self.now }
    {
        place_of(&self.watches, id).is_some()
    }

    /// Returns whether a watch has a note to hand out, or lost one: then its next answer is not `Empty`. Returns `NoWatch`
    /// if there is no watch of this id.
    pub fn has_note(&self, id: WatchId) -> Result<bool, Fault>
        ensures answer { result ≡ spec.has_note_at self.now id }
    {
        match place_of(&self.watches, id) {
            Some(place) => Ok(self.watches[place].has_note()),
            None => Err(Fault::NoWatch),
        }
    }

    /// Returns whether any watch has a note to hand out, or lost one.
    pub fn has_notes(&self) -> bool
        ensures answer { result ≡ spec.has_notes self.now }
    {
        self.watches.iter().any(|watch| watch.has_note())
    }

    /// Returns the answer of a watch, which is the first of these that applies:
    ///
    /// - `Lagged`: how many notes it lost since it last reported that, if it lost any;
    /// - `Note`: its oldest note, which it does not hand out again;
    /// - `Empty`: no note is left.
    ///
    /// It takes no memory. Returns `NoWatch` if there is no watch of this id, which changes nothing.
    pub fn take(&mut self, id: WatchId) -> Result<Polled, Fault>
        ensures answer { result ≡ spec.answer_at self.old id }
        ensures left { self.new ≡ spec.with_answer self.old id }
    {
        match place_of(&self.watches, id) {
            Some(place) => Ok(self.watches[place].take()),
            None => Err(Fault::NoWatch),
        }
    }

    /// Drops a watch with its notes. Returns `NoWatch` if there is no watch of this id, which changes nothing. It takes
    /// no memory.
    pub fn drop_watch(&mut self, id: WatchId) -> Result<(), Fault>
        ensures answer { result ≡ (if spec.has_watch self.old id then Ok tt else Err Fault.NoWatch) }
        ensures left { self.new ≡ spec.without_watch self.old id }
    {
        match place_of(&self.watches, id) {
            Some(place) => {
                let _watch = self.watches.remove(place);
                Ok(())
            }
            None => Err(Fault::NoWatch),
        }
    }
}

/// Gives a note to each of the watches.
fn tell_all(watches: &mut [Watch], note: &Note)
    ensures { watches.new ≡ map (watch_after_note note.now) watches.old }
{
    for watch in watches.iter_mut() {
        watch.tell(note);
    }
}

/// Returns the place of the watch of this id.
fn place_of(watches: &[Watch], id: WatchId) -> Option<usize>
    ensures { result ≡ position (spec.is_id id) watches.now }
{
    let number = id.number();
    watches.iter().position(|watch| watch.id() == number)
}
