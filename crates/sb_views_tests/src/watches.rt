//! Watches in small cases.

use crate::making::{key, name, owner_of, prefix};
use crate::{got, holds, same, same_at};
use sb_types::Fault;
use sb_watch::{Filter, Hub, Note, Polled, WatchId};
use std::process::Abort;

fn note(rt: &impl Abort, owner: &[u8], text: &[u8], version: u64) -> Note {
    Note {
        owner: name(rt, owner),
        key: Some(key(rt, text)),
        version,
    }
}

fn all_notes(rt: &impl Abort) -> [Note; 5] {
    [
        note(rt, b"a", b"net/a", 1),
        note(rt, b"a", b"net/b", 2),
        note(rt, b"a", b"w", 3),
        note(rt, b"a", b"net/c", 4),
        note(rt, b"b", b"net/a", 1),
    ]
}

/// Adds a watch of an owner under a prefix. If the text of the owner is empty, it is for all owners.
fn watch(
    rt: &impl Abort,
    hub: &mut Hub,
    owner: &[u8],
    under: &[u8],
    capacity: usize,
) -> Result<WatchId, Fault> {
    let (owner, prefix) = (owner_of(rt, owner), prefix(rt, under));
    hub.add(Filter { owner, prefix }, capacity)
}

/// Adds a watch for all notes, or is refused.
fn watch_all(rt: &impl Abort, hub: &mut Hub, capacity: usize) -> Result<WatchId, Fault> {
    watch(rt, hub, b"", b"", capacity)
}

/// Adds a watch for all notes.
fn added(rt: &impl Abort, hub: &mut Hub, capacity: usize) -> WatchId {
    got(rt, watch_all(rt, hub, capacity))
}

/// The note at this place, as a watch hands it out.
fn note_at(notes: &[Note], place: usize) -> Option<Polled> {
    match notes.get(place) {
        Some(note) => Some(Polled::Note(*note)),
        None => None,
    }
}

/// Tests what a watch answers: Lagged once if some notes were lost, then the notes at these places, then nothing.
fn answers_are(
    rt: &impl Abort,
    hub: &mut Hub,
    id: WatchId,
    lost: u64,
    given: &[usize],
    notes: &[Note],
) {
    if lost > 0 {
        same(rt, &hub.take(id), &Ok(Polled::Lagged(lost)));
    }
    for place in given {
        same(rt, &hub.take(id).ok(), &note_at(notes, *place));
    }
    same(rt, &[hub.take(id), hub.take(id)], &[Ok(Polled::Empty); 2]);
}

/// Four watches under net/ or of all keys, which can lose notes.
fn watch_some(rt: &impl Abort, hub: &mut Hub) -> [WatchId; 4] {
    [
        got(rt, watch(rt, hub, b"a", b"net/", 2)),
        got(rt, watch(rt, hub, b"a", b"net/", 3)),
        got(rt, watch(rt, hub, b"", b"net/", 4)),
        got(rt, watch(rt, hub, b"", b"", 1)),
    ]
}

/// Five more watches, which lose none.
fn watch_others(rt: &impl Abort, hub: &mut Hub) -> [WatchId; 5] {
    [
        got(rt, watch(rt, hub, b"", b"", 1024)),
        got(rt, watch(rt, hub, b"b", b"", 1)),
        got(rt, watch(rt, hub, b"", b"w", 1)),
        got(rt, watch(rt, hub, b"a", b"net/a/", 1)),
        got(rt, watch(rt, hub, b"c", b"", 1)),
    ]
}

fn some_answer(rt: &impl Abort, hub: &mut Hub, ids: [WatchId; 4], notes: &[Note]) {
    let [two, three, four, last] = ids;
    answers_are(rt, hub, two, 1, &[1, 3], notes);
    answers_are(rt, hub, three, 0, &[0, 1, 3], notes);
    answers_are(rt, hub, four, 0, &[0, 1, 3, 4], notes);
    answers_are(rt, hub, last, 4, &[4], notes);
}

fn others_answer(rt: &impl Abort, hub: &mut Hub, ids: [WatchId; 5], notes: &[Note]) {
    let [all, of_b, under_w, under_none, of_c] = ids;
    answers_are(rt, hub, all, 0, &[0, 1, 2, 3, 4], notes);
    answers_are(rt, hub, of_b, 0, &[4], notes);
    answers_are(rt, hub, under_w, 0, &[2], notes);
    answers_are(rt, hub, under_none, 0, &[], notes);
    answers_are(rt, hub, of_c, 0, &[], notes);
}

fn push_all(hub: &mut Hub, notes: &[Note]) {
    for note in notes {
        hub.push(note);
    }
}

#[test]
fn watches_keep_the_last_notes(rt: HostRuntime) {
    let notes = all_notes(&rt);
    let mut hub = Hub::new(rt.alloc());
    let some = watch_some(&rt, &mut hub);
    let others = watch_others(&rt, &mut hub);
    push_all(&mut hub, &notes);
    some_answer(&rt, &mut hub, some, &notes);
    others_answer(&rt, &mut hub, others, &notes);
}

/// What a watch with room for two notes answers after the third note, and after the last.
fn answers_between(rt: &impl Abort, hub: &mut Hub, notes: [Note; 5]) -> [Result<Polled, Fault>; 5] {
    let [first, second, third, fourth, last] = notes;
    let id = added(rt, hub, 2);
    push_all(hub, &[first, second, third]);
    let early = hub.take(id);
    push_all(hub, &[fourth, last]);
    [
        early,
        hub.take(id),
        hub.take(id),
        hub.take(id),
        hub.take(id),
    ]
}

// The fourth note pushes out the second after the first was reported as lost, and so on.
#[test]
fn lost_notes_are_told_once(rt: HostRuntime) {
    let found = answers_between(&rt, &mut Hub::new(rt.alloc()), all_notes(&rt));
    let wanted = [
        Ok(Polled::Lagged(1)),
        Ok(Polled::Lagged(2)),
        Ok(Polled::Note(note(&rt, b"a", b"net/c", 4))),
        Ok(Polled::Note(note(&rt, b"b", b"net/a", 1))),
        Ok(Polled::Empty),
    ];
    same(&rt, &found, &wanted);
}

fn is_refused(rt: &impl Abort, hub: &mut Hub, capacity: usize) {
    let refused = watch_all(rt, hub, capacity);
    same_at(rt, &capacity, &refused, &Err(Fault::BadSetting));
}

#[test]
fn capacities_are_1_to_1024(rt: HostRuntime) {
    let mut hub = Hub::new(rt.alloc());
    is_refused(&rt, &mut hub, 0);
    is_refused(&rt, &mut hub, 1025);
    is_refused(&rt, &mut hub, usize::MAX);
    let least = added(&rt, &mut hub, 1);
    let greatest = added(&rt, &mut hub, 1024);
    holds(&rt, "both stand", hub.has(least) && hub.has(greatest));
}

/// Adds watches until there are 64. Returns the first.
fn fill(rt: &impl Abort, hub: &mut Hub) -> WatchId {
    let first = added(rt, hub, 1);
    for _ in 1..64 {
        added(rt, hub, 1);
    }
    first
}

/// Tests that two more are refused if there are 64.
fn are_full(rt: &impl Abort, hub: &mut Hub) {
    let refused = [watch_all(rt, hub, 1), watch_all(rt, hub, 0)];
    let wanted = [Err(Fault::WatchesFull), Err(Fault::BadSetting)];
    same(rt, &refused, &wanted);
}

/// Drops a watch and adds another. Tests that the new one exists and is not the first.
fn replaced(rt: &impl Abort, hub: &mut Hub, first: WatchId) -> WatchId {
    let dropped = hub.drop_watch(first);
    let last = added(rt, hub, 1);
    let is_added = last != first && hub.has(last);
    same(rt, &(dropped, is_added), &(Ok(()), true));
    last
}

#[test]
fn at_most_64_watches_stand(rt: HostRuntime) {
    let note = note(&rt, b"a", b"x", 7);
    let mut hub = Hub::new(rt.alloc());
    let first = fill(&rt, &mut hub);
    are_full(&rt, &mut hub);
    let last = replaced(&rt, &mut hub, first);
    hub.push(&note);
    let answers = [hub.take(last), hub.take(first)];
    same(
        &rt,
        &answers,
        &[Ok(Polled::Note(note)), Err(Fault::NoWatch)],
    );
    same(&rt, &hub.drop_watch(first), &Err(Fault::NoWatch));
}

#[test]
fn example_of_watches(rt: HostRuntime) {
    let filter = Filter {
        owner: None,
        prefix: prefix(&rt, b"net/"),
    };
    let note = note(&rt, b"a", b"net/b", 2);
    let mut hub = Hub::new(rt.alloc());
    let id = got(&rt, hub.add(filter, 2));
    hub.push(&note);
    let answers = hub.take(id);
    holds(
        &rt,
        "it is answers",
        matches!(answers, Ok(Polled::Note(note)) if note.version == 2),
    );
    same(&rt, &hub.take(id), &Ok(Polled::Empty));
}

/// That the table of an owner was replaced.
fn clear(rt: &impl Abort, owner: &[u8]) -> Note {
    Note {
        owner: name(rt, owner),
        key: None,
        version: 9,
    }
}

/// A table that was replaced is noted under every prefix, by the watches of its owner and by those of all.
#[test]
fn replaced_tables_are_noted(rt: HostRuntime) {
    let mut hub = Hub::new(rt.alloc());
    let ids = [
        got(&rt, watch(&rt, &mut hub, b"a", b"net/", 1)),
        got(&rt, watch(&rt, &mut hub, b"", b"w", 1)),
        got(&rt, watch(&rt, &mut hub, b"b", b"", 1)),
    ];
    same(&rt, &hub.has_notes(), &false);
    hub.push(&clear(&rt, b"a"));
    same(&rt, &hub.has_notes(), &true);
    let [under, of_all, of_b] = ids;
    let found = [
        hub.has_note(under),
        hub.has_note(of_all),
        hub.has_note(of_b),
    ];
    same(&rt, &found, &[Ok(true), Ok(true), Ok(false)]);
    same(&rt, &hub.take(under), &Ok(Polled::Note(clear(&rt, b"a"))));
    let found = [
        hub.has_note(under),
        hub.drop_watch(under).and(Ok(true)),
        hub.has_note(under),
    ];
    same(&rt, &found, &[Ok(false), Ok(true), Err(Fault::NoWatch)]);
}
