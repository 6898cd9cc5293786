//! What follows from the definitions alone. The functions do nothing: each clause is a law.

ghost use Rattle.std.specs.Prelude.{◌≡◌, ◌≢◌, ℕ, ◌<◌, ◌-◌, ◌^◌, Bool, true, false, List, [], length, Some, None, Ok, Err};
ghost use Rattle.std.specs.Option.{option_map};
ghost use Rattle.sb_types.specs.declared.fault.Fault.TheVariants.{WatchesFull};
ghost use Rattle.sb_watch.specs.declared.note.Filter.{Filter};
ghost use Rattle.sb_watch.specs.declared.note.Note.{Note};
ghost use Rattle.sb_watch.specs.declared.note.Polled.TheVariants as answers;
ghost use Rattle.sb_watch.specs.Records.{Hub};
ghost use Rattle.sb_watch.specs.Watches.{new_watch, watch_after_note, watch_after_answer};
ghost use Rattle.sb_watch.specs.Hubs.{AllNotes, IsHub, new_hub, has_watch, next_id, watch_at, answer_at};
ghost use Rattle.sb_watch.specs.Hubs.{with_watch, with_push, with_answer, without_watch};
ghost use Rattle.sb_watch.specs.Calls.{Call, hub_after};
ghost use Rattle.sb_watch.specs.Owed.{Deed, matching_notes, answers_after, watch_after, Account, Keeps};

use crate::limits::{RING_MOST, WATCHES_MOST};

/// Each limit of watches is this number.
pub fn limits_are_these_numbers()
    ensures watches_most { WATCHES_MOST ≡ 64 }
    ensures ring_most { RING_MOST ≡ 1024 }
{}

/// Any notes may come to a watch, and it may be asked any number of times in between. Its answers account for the notes
/// that match its filter, up to those that it still owes. Each of these notes was handed out in its turn, or is among
/// those reported as lost. Of the notes that it owes, the watch keeps the last ones, as many as it has room for, and
/// counts the others. So no note is handed out twice, or out of turn, or lost in silence. The law covers fewer than
/// 2^64 notes.
pub fn answers_account_for_notes()
    ensures { (id capacity : ℕ) (filter : Filter) (deeds : List Deed) → length (matching_notes filter deeds) < 2 ^ 64 →
        let watch = new_watch id filter capacity in
        (owed : List Note) × Account (answers_after deeds watch) (matching_notes filter deeds) owed × Keeps (watch_after deeds watch) owed }
{}

/// Suppose every note that is pushed passes a test. Then every note that is kept or handed out passes it, whatever
/// calls are made. All these notes also pass every weaker test.
pub fn notes_keep_what_holds()
    ensures none { (test : Note → Bool) → AllNotes test new_hub }
    ensures pushed { (test : Note → Bool) (hub : Hub) (note : Note) →
        AllNotes test hub → test note ≡ true → AllNotes test (with_push hub note) }
    ensures taken { (test : Note → Bool) (hub : Hub) (id : ℕ) → AllNotes test hub → AllNotes test (with_answer hub id) }
    ensures added { (test : Note → Bool) (hub : Hub) (filter : Filter) (capacity : ℕ) →
        AllNotes test hub → AllNotes test (with_watch hub filter capacity) }
    ensures dropped { (test : Note → Bool) (hub : Hub) (id : ℕ) → AllNotes test hub → AllNotes test (without_watch hub id) }
    ensures given { (test : Note → Bool) (hub : Hub) (id : ℕ) (note : Note) →
        AllNotes test hub → answer_at hub id ≡ Ok (answers.Note note) → test note ≡ true }
    ensures weaker { (test other : Note → Bool) (hub : Hub) →
        ((note : Note) → test note ≡ true → other note ≡ true) → AllNotes test hub → AllNotes other hub }
{}

/// A call changes the watches that it is about, and leaves the others as they were.
pub fn watches_stand_alone()
    ensures pushed { (hub : Hub) (note : Note) (id : ℕ) → watch_at (with_push hub note) id ≡ option_map (watch_after_note note) (watch_at hub id) }
    ensures taken { (hub : Hub) (id : ℕ) → watch_at (with_answer hub id) id ≡ option_map watch_after_answer (watch_at hub id) }
    ensures unasked { (hub : Hub) (id other : ℕ) → other ≢ id → watch_at (with_answer hub id) other ≡ watch_at hub other }
    ensures added { (hub : Hub) (filter : Filter) (capacity : ℕ) →
        IsHub hub → watch_at (with_watch hub filter capacity) hub.next ≡ Some (new_watch hub.next filter capacity) }
    ensures beside { (hub : Hub) (filter : Filter) (capacity other : ℕ) →
        other ≢ hub.next → watch_at (with_watch hub filter capacity) other ≡ watch_at hub other }
    ensures dropped { (hub : Hub) (id : ℕ) → watch_at (without_watch hub id) id ≡ None }
    ensures left { (hub : Hub) (id other : ℕ) → other ≢ id → watch_at (without_watch hub id) other ≡ watch_at hub other }
{}

/// If an id was given to a watch and the watch was dropped, no watch ever has that id again, whatever calls are made.
pub fn ids_are_not_used_again()
    ensures { (calls : List Call) (hub : Hub) (id : ℕ) → id < hub.next →
        has_watch hub id ≡ false → has_watch (hub_after calls hub) id ≡ false }
{}

/// The greatest number of 64 bits is not an id. If the next number of a hub is the one before it, the hub still gives
/// that one. After that it gives no more ids, whether that last watch exists or was dropped.
pub fn ids_end_with_the_numbers()
    ensures last { next_id (record { watches = []; next = 2 ^ 64 - 2 }) 1 ≡ Ok (2 ^ 64 - 2) }
    ensures full { (filter : Filter) → next_id (with_watch (record { watches = []; next = 2 ^ 64 - 2 }) filter 1) 1 ≡ Err WatchesFull }
    ensures dropped { (filter : Filter) → let hub = without_watch (with_watch (record { watches = []; next = 2 ^ 64 - 2 }) filter 1) (2 ^ 64 - 2) in
        (next_id hub 1 ≡ Err WatchesFull) × (has_watch hub (2 ^ 64 - 2) ≡ false) }
{}
