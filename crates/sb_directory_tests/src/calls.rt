//! A node, from a seat of its directory: what its calls answer, and what readers see of it.
use crate::course::{Course, Run, run_new, run_seated};
use crate::desk::{Answer, Call, Case, cleared, noted};
use crate::got;
use crate::making::{full_table, node_of, written_log};
use sb_holdings::BlockEnd;
use sb_log::WriteLog;
use sb_types::Fault;
use sb_watch::Polled;
use std::alloc::Global;
use std::process::Abort;
use std::sync::Wait;

/// A new node answers these calls so.
fn answers<R: Wait + Abort>(rt: &R, alloc: Global, cases: &[Case]) {
    run_new(rt, alloc, Course::Calls(cases));
}

fn refused(fault: Fault) -> Answer {
    Answer::Refused(fault)
}

/// The block of a delta ends so.
fn ended(end: BlockEnd) -> Answer {
    Answer::Ended(end)
}

fn taken(count: u64) -> Answer {
    Answer::Ended(BlockEnd::Taken(count))
}

#[test]
fn watches_tell_what_is_shown(rt: HostRuntime) {
    let second = noted(&rt, b"a", b"net/b", 2);
    let last = noted(&rt, b"a", b"net/c", 4);
    let cases = [
        (Call::Watch(b"net/", 2), Answer::Done),
        (Call::Write(b"net/a"), Answer::Shown),
        (Call::Write(b"net/b"), Answer::Shown),
        (Call::Write(b"w"), Answer::Shown),
        (Call::Write(b"net/c"), Answer::Shown),
        (Call::Poll(0), Answer::Polled(Polled::Lagged(1))),
        (Call::Poll(0), second),
        (Call::Poll(0), last),
        (Call::Poll(0), Answer::Polled(Polled::Empty)),
        (Call::Read, Answer::Read(4, 4, 0)),
        (Call::Refresh, Answer::Shown),
    ];
    answers(&rt, rt.alloc(), &cases);
}

/// Own writes, and those of others, are noted once in a watch of everything.
#[test]
fn writes_are_noted_once(rt: HostRuntime) {
    let own = noted(&rt, b"a", b"x", 1);
    let first = noted(&rt, b"b", b"y", 1);
    let second = noted(&rt, b"b", b"z", 2);
    let cases = [
        (Call::Watch(b"", 4), Answer::Done),
        (Call::Write(b"x"), Answer::Shown),
        (Call::Delta(b"b", 0, b"y"), taken(1)),
        (Call::Delta(b"b", 0, b"y"), ended(BlockEnd::Stale)),
        (Call::Delta(b"b", 0, b"yz"), taken(1)),
        (Call::Poll(0), own),
        (Call::Poll(0), first),
        (Call::Poll(0), second),
        (Call::Poll(0), Answer::Polled(Polled::Empty)),
    ];
    answers(&rt, rt.alloc(), &cases);
}

/// A watch has a note from the first change that it is for, until that was handed out.
#[test]
fn watches_say_whether_they_have_a_note(rt: HostRuntime) {
    let note = noted(&rt, b"b", b"x", 1);
    let cases = [
        (Call::Write(b"x"), Answer::Shown),
        (Call::Watch(b"x", 1), Answer::Done),
        (Call::Watch(b"y", 1), Answer::Done),
        (Call::HasNote(0), Answer::HasNote(false, false)),
        (Call::Write(b"z"), Answer::Shown),
        (Call::HasNote(0), Answer::HasNote(false, false)),
        (Call::Delta(b"b", 0, b"x"), taken(1)),
        (Call::HasNote(0), Answer::HasNote(true, true)),
        (Call::HasNote(1), Answer::HasNote(false, true)),
        (Call::Delta(b"b", 0, b"x"), ended(BlockEnd::Stale)),
        (Call::Poll(0), note),
        (Call::HasNote(0), Answer::HasNote(false, false)),
        (Call::Unwatch(0), Answer::Done),
        (Call::HasNote(0), refused(Fault::NoWatch)),
    ];
    answers(&rt, rt.alloc(), &cases);
}

/// A table that is replaced is noted before its entries, and a stage that is not whole is not.
#[test]
fn replaced_tables_are_noted(rt: HostRuntime) {
    let clear = cleared(&rt, b"b", 5);
    let cases = [
        (Call::Delta(b"b", 0, b"xy"), taken(2)),
        (Call::Watch(b"q", 1), Answer::Done),
        (Call::Floor(5, 5, b""), taken(0)),
        (Call::HasNote(0), Answer::HasNote(true, true)),
        (Call::Poll(0), clear),
        (Call::Rows, Answer::Rows(0)),
    ];
    answers(&rt, rt.alloc(), &cases);
}

/// A node b wrote x, y, z and w, removed x, and purged the removal. Who holds x and y is brought the other table in two blocks.
/// Before the second, watches and readers see nothing of it. After it they see that the table was replaced, and then what came
/// after y. A watch of x sees only the first, and one with room for a note the last.
#[test]
fn watches_see_a_stage_once_it_is_whole(rt: HostRuntime) {
    let (clear, clear_of_x) = (cleared(&rt, b"b", 5), cleared(&rt, b"b", 5));
    let (third, fourth) = (noted(&rt, b"b", b"z", 3), noted(&rt, b"b", b"w", 4));
    let last = noted(&rt, b"b", b"w", 4);
    let cases = [
        (Call::Delta(b"b", 0, b"xy"), taken(2)),
        (Call::Watch(b"", 8), Answer::Done),
        (Call::Watch(b"x", 8), Answer::Done),
        (Call::Watch(b"", 1), Answer::Done),
        (Call::Part((5, 0, 3), 1, b"yz"), taken(2)),
        (Call::HasNote(0), Answer::HasNote(false, false)),
        (Call::Poll(0), Answer::Polled(Polled::Empty)),
        (Call::Poll(1), Answer::Polled(Polled::Empty)),
        (Call::Poll(2), Answer::Polled(Polled::Empty)),
        (Call::Rows, Answer::Rows(2)),
        (Call::Read, Answer::Read(2, 0, 2)),
        (Call::Part((5, 3, 5), 3, b"w"), taken(1)),
        (Call::HasNote(0), Answer::HasNote(true, true)),
        (Call::Poll(0), clear),
        (Call::Poll(0), third),
        (Call::Poll(0), fourth),
        (Call::Poll(0), Answer::Polled(Polled::Empty)),
        (Call::HasNote(0), Answer::HasNote(false, true)),
        (Call::Poll(1), clear_of_x),
        (Call::Poll(1), Answer::Polled(Polled::Empty)),
        (Call::Poll(2), Answer::Polled(Polled::Lagged(2))),
        (Call::Poll(2), last),
        (Call::Poll(2), Answer::Polled(Polled::Empty)),
        (Call::HasNote(2), Answer::HasNote(false, false)),
        (Call::Rows, Answer::Rows(3)),
        (Call::Read, Answer::Read(3, 0, 5)),
    ];
    answers(&rt, rt.alloc(), &cases);
}

#[test]
fn watches_that_are_refused(rt: HostRuntime) {
    let cases = [
        (Call::Watch(b"", 0), refused(Fault::BadSetting)),
        (Call::Watch(b"", 1_025), refused(Fault::BadSetting)),
        (Call::Watch(b"", 1_024), Answer::Done),
        (Call::Unwatch(0), Answer::Done),
        (Call::Poll(0), refused(Fault::NoWatch)),
        (Call::Unwatch(0), refused(Fault::NoWatch)),
        (Call::Read, Answer::Read(0, 0, 0)),
    ];
    answers(&rt, rt.alloc(), &cases);
}

#[test]
fn at_most_64_watches_stand(rt: HostRuntime) {
    let cases = [
        (Call::Watches(64), Answer::Done),
        (Call::Watch(b"", 1), refused(Fault::WatchesFull)),
        (Call::Unwatch(63), Answer::Done),
        (Call::Watch(b"", 1), Answer::Done),
    ];
    answers(&rt, rt.alloc(), &cases);
}

#[test]
fn own_keys_are_counted(rt: HostRuntime) {
    let cases = [
        (Call::Keys, Answer::Keys(0)),
        (Call::Write(b"x"), Answer::Shown),
        (Call::Write(b"y"), Answer::Shown),
        (Call::Write(b"x"), Answer::Shown),
        (Call::Delta(b"b", 0, b"xyz"), taken(3)),
        (Call::Keys, Answer::Keys(2)),
    ];
    answers(&rt, rt.alloc(), &cases);
}

#[test]
fn own_writes_come_once(rt: HostRuntime) {
    let cases = [
        (Call::TakeOfAnother, refused(Fault::WrongOwner)),
        (Call::Write(b"x"), Answer::Shown),
        (Call::Take, refused(Fault::OutOfTurn(2))),
        (Call::Conflict, Answer::Conflict(None)),
        (Call::Read, Answer::Read(1, 1, 0)),
        (Call::Tell, Answer::Told(1, 0, 1)),
    ];
    answers(&rt, rt.alloc(), &cases);
}

#[test]
fn another_writes_under_the_name(rt: HostRuntime) {
    let cases = [
        (Call::Write(b"x"), Answer::Shown),
        (Call::Delta(b"a", 0, b"x"), ended(BlockEnd::Own)),
        (Call::Conflict, Answer::Conflict(None)),
        (Call::Delta(b"a", 1, b"y"), ended(BlockEnd::OwnAhead(2))),
        (Call::Conflict, Answer::Conflict(Some(2))),
        (Call::Write(b"y"), refused(Fault::OwnerConflict(2))),
        (Call::Read, Answer::Read(3, 1, 0)),
    ];
    answers(&rt, rt.alloc(), &cases);
}

/// A block with another write of a version leaves the name in conflict, once. The own rows, and what a reader sees, stay.
#[test]
fn a_version_that_was_given_twice(rt: HostRuntime) {
    let cases = [
        (Call::Write(b"x"), Answer::Shown),
        (Call::Write(b"y"), Answer::Shown),
        (Call::Audit(b"b", 0, b"xy"), Answer::Audited(None, None)),
        (Call::AuditOwn, Answer::Audited(None, None)),
        (Call::Conflict, Answer::Conflict(None)),
        (Call::Read, Answer::Read(2, 2, 0)),
        (
            Call::Audit(b"a", 1, b"z"),
            Answer::Audited(Some(2), Some(2)),
        ),
        (Call::Conflict, Answer::Conflict(Some(3))),
        (Call::Write(b"z"), refused(Fault::OwnerConflict(3))),
        (Call::Read, Answer::Read(3, 2, 0)),
        (Call::OwnRows, Answer::Rows(2)),
        (
            Call::Audit(b"a", 0, b"x"),
            Answer::Audited(Some(1), Some(1)),
        ),
        (Call::Conflict, Answer::Conflict(Some(3))),
        (Call::Read, Answer::Read(3, 2, 0)),
    ];
    answers(&rt, rt.alloc(), &cases);
}

/// What a node told before it removed, purged and wrote on is its own still.
#[test]
fn own_blocks_are_no_difference(rt: HostRuntime) {
    let cases = [
        (Call::Write(b"x"), Answer::Shown),
        (Call::AuditOwn, Answer::Audited(None, None)),
        (Call::Write(b"y"), Answer::Shown),
        (Call::Remove(b"x"), Answer::Shown),
        (Call::AuditOwn, Answer::Audited(None, None)),
        (Call::Purge(1), Answer::Purged(Some(3))),
        (Call::AuditOwn, Answer::Audited(None, None)),
        (Call::Write(b"x"), Answer::Shown),
        (Call::AuditOwn, Answer::Audited(None, None)),
        (Call::Write(b"z"), Answer::Shown),
        (Call::Conflict, Answer::Conflict(None)),
    ];
    answers(&rt, rt.alloc(), &cases);
}

/// An entry above the own held version, an unknown key, a key that was written later, and an own entry that is missing.
#[test]
fn other_differences(rt: HostRuntime) {
    let ahead = [
        (Call::Audit(b"a", 0, b"x"), Answer::Audited(Some(1), None)),
        (Call::Write(b"x"), refused(Fault::OwnerConflict(1))),
    ];
    answers(&rt, rt.alloc(), &ahead);
    let unknown = [
        (Call::Write(b"x"), Answer::Shown),
        (Call::Write(b"x"), Answer::Shown),
        (Call::Audit(b"a", 0, b"z"), Answer::Audited(Some(1), None)),
        (Call::Conflict, Answer::Conflict(Some(3))),
    ];
    answers(&rt, rt.alloc(), &unknown);
    let later = [
        (Call::Write(b"x"), Answer::Shown),
        (Call::Write(b"y"), Answer::Shown),
        (Call::Write(b"y"), Answer::Shown),
        (
            Call::Audit(b"a", 1, b"x"),
            Answer::Audited(Some(2), Some(1)),
        ),
        (Call::Conflict, Answer::Conflict(Some(4))),
    ];
    answers(&rt, rt.alloc(), &later);
}

#[test]
fn writes_of_others_are_shown(rt: HostRuntime) {
    let cases = [
        (Call::Delta(b"b", 2, b"z"), ended(BlockEnd::Gap)),
        (Call::Read, Answer::Read(1, 0, 0)),
        (Call::Delta(b"b", 0, b"xy"), taken(2)),
        (Call::Read, Answer::Read(2, 0, 2)),
        (Call::Write(b"x"), Answer::Shown),
        (Call::Delta(b"b", 2, b"z"), taken(1)),
        (Call::Read, Answer::Read(4, 1, 3)),
        (Call::Tell, Answer::Told(1, 3, 2)),
    ];
    answers(&rt, rt.alloc(), &cases);
}

/// A stage whose floor is above all that is held takes the place of what is shown. Keys that it lacks are no longer shown. Keys
/// that it has an older write of stay as they were. Then a block without entries says how far b is held.
#[test]
fn a_floor_takes_rows(rt: HostRuntime) {
    let cases = [
        (Call::Delta(b"b", 0, b"xyz"), taken(3)),
        (Call::Rows, Answer::Rows(3)),
        (Call::Floor(5, 6, b"z"), taken(1)),
        (Call::Read, Answer::Read(2, 0, 6)),
        (Call::Rows, Answer::Rows(1)),
        (Call::Floor(6, 8, b""), taken(0)),
        (Call::Read, Answer::Read(3, 0, 8)),
        (Call::Rows, Answer::Rows(1)),
        (Call::Delta(b"b", 8, b"xy"), taken(2)),
        (Call::Rows, Answer::Rows(3)),
    ];
    answers(&rt, rt.alloc(), &cases);
}

/// A purge lets the older half of the removed keys go. It is an event. Watches and readers see nothing of it.
#[test]
fn a_purge_shows_nothing(rt: HostRuntime) {
    let first = noted(&rt, b"a", b"y", 6);
    let cases = [
        (Call::Write(b"x"), Answer::Shown),
        (Call::Write(b"y"), Answer::Shown),
        (Call::Remove(b"x"), Answer::Shown),
        (Call::Write(b"z"), Answer::Shown),
        (Call::Remove(b"z"), Answer::Shown),
        (Call::Watch(b"", 4), Answer::Done),
        (Call::Purge(3), Answer::Purged(None)),
        (Call::Purge(0), Answer::Purged(None)),
        (Call::Read, Answer::Read(5, 5, 0)),
        (Call::Purge(2), Answer::Purged(Some(3))),
        (Call::Keys, Answer::Keys(2)),
        (Call::OwnRows, Answer::Rows(1)),
        (Call::Read, Answer::Read(6, 5, 0)),
        (Call::Purge(2), Answer::Purged(None)),
        (Call::Purge(1), Answer::Purged(Some(5))),
        (Call::Keys, Answer::Keys(1)),
        (Call::Poll(0), Answer::Polled(Polled::Empty)),
        (Call::Write(b"y"), Answer::Shown),
        (Call::Poll(0), first),
        (Call::OwnRows, Answer::Rows(1)),
        (Call::Read, Answer::Read(8, 6, 0)),
    ];
    answers(&rt, rt.alloc(), &cases);
}

/// The log's next write, its 4,097th, is under a key that the node has no room for.
#[test]
fn a_full_table_takes_no_new_key(rt: HostRuntime) {
    let alloc = rt.alloc();
    let cases = [
        (Call::Write(b"new"), refused(Fault::TableFull)),
        (Call::Read, Answer::Read(0, 4_096, 0)),
    ];
    let run = Run {
        log: written_log(&rt, alloc, 4_096),
        course: Course::Calls(&cases),
        alloc,
    };
    run_seated(&rt, node_of(&rt, alloc, b"a", full_table(&rt, alloc)), run);
}

/// A node is opened with one write, as from a copy of its log. The log takes a second one, which b has too. The log's next write
/// is not taken.
#[test]
fn a_peer_has_later_writes(rt: HostRuntime) {
    let alloc = rt.alloc();
    let cases = [
        (Call::Read, Answer::Read(0, 1, 0)),
        (Call::Commit(b"y"), Answer::Done),
        (Call::DeltaOfPeer, ended(BlockEnd::OwnAhead(2))),
        (Call::Conflict, Answer::Conflict(Some(2))),
        (Call::Write(b"z"), refused(Fault::OwnerConflict(2))),
        (Call::Read, Answer::Read(1, 1, 0)),
        (Call::Tell, Answer::Told(1, 0, 1)),
    ];
    let mut log = written_log(&rt, alloc, 1);
    let core = node_of(&rt, alloc, b"a", got(&rt, log.load(alloc)));
    let run = Run {
        log,
        course: Course::Calls(&cases),
        alloc,
    };
    run_seated(&rt, core, run);
}

/// The news of a node: of a and of b, how many owners, and how many entries they are offered.
fn news(of_a: Option<u64>, of_b: Option<u64>, owners: usize, entries: usize) -> Answer {
    Answer::News(of_a, of_b, owners, entries)
}

/// Own writes and those of others are news once, from what was held when news was taken last.
#[test]
fn news_is_taken_once(rt: HostRuntime) {
    let cases = [
        (Call::News, news(None, None, 0, 0)),
        (Call::Write(b"x"), Answer::Shown),
        (Call::News, news(Some(0), None, 1, 1)),
        (Call::News, news(None, None, 0, 0)),
        (Call::Write(b"x"), Answer::Shown),
        (Call::Write(b"y"), Answer::Shown),
        (Call::Delta(b"b", 0, b"xyz"), taken(3)),
        (Call::Delta(b"b", 3, b"x"), taken(1)),
        // Of b, the first write under x was replaced by the fourth.
        (Call::News, news(Some(1), Some(0), 2, 2 + 3)),
        (Call::Delta(b"b", 4, b"z"), taken(1)),
        (Call::News, news(None, Some(4), 1, 1)),
    ];
    answers(&rt, rt.alloc(), &cases);
}

/// A block or write that enters nothing makes no news: a stale block, a gap, the own name, and a write that is refused.
#[test]
fn what_enters_nothing_is_no_news(rt: HostRuntime) {
    let cases = [
        (Call::Delta(b"b", 0, b"x"), taken(1)),
        (Call::News, news(None, Some(0), 1, 1)),
        (Call::Delta(b"b", 0, b"x"), ended(BlockEnd::Stale)),
        (Call::Delta(b"b", 4, b"x"), ended(BlockEnd::Gap)),
        (Call::Delta(b"c", 4, b"x"), ended(BlockEnd::Gap)),
        (Call::TakeOfAnother, refused(Fault::WrongOwner)),
        (Call::Delta(b"a", 0, b"x"), ended(BlockEnd::OwnAhead(1))),
        (Call::News, news(None, None, 0, 0)),
    ];
    answers(&rt, rt.alloc(), &cases);
}

/// A purge makes no news. The next own write is news from the version before it.
#[test]
fn a_purge_is_no_news(rt: HostRuntime) {
    let cases = [
        (Call::Write(b"x"), Answer::Shown),
        (Call::Write(b"y"), Answer::Shown),
        (Call::Remove(b"x"), Answer::Shown),
        (Call::News, news(Some(0), None, 1, 2)),
        (Call::Purge(1), Answer::Purged(Some(3))),
        (Call::News, news(None, None, 0, 0)),
        (Call::Write(b"y"), Answer::Shown),
        (Call::News, news(Some(3), None, 1, 1)),
    ];
    answers(&rt, rt.alloc(), &cases);
}

/// What goes to a stage is news once the stage replaces the table. It is left to rounds, since the floor is above the version
/// that was held.
#[test]
fn a_stage_is_no_news(rt: HostRuntime) {
    let cases = [
        (Call::Delta(b"b", 0, b"x"), taken(1)),
        (Call::News, news(None, Some(0), 1, 1)),
        (Call::Floor(3, 2, b"xy"), taken(2)),
        (Call::News, news(None, None, 0, 0)),
        (Call::Floor(3, 3, b"xyz"), taken(1)),
        (Call::News, news(None, Some(1), 1, 0)),
        (Call::Delta(b"b", 3, b"w"), taken(1)),
        (Call::News, news(None, Some(3), 1, 1)),
    ];
    answers(&rt, rt.alloc(), &cases);
}
