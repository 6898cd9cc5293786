//! Pages by a run of writes, and a write that is shown once it is published.

ghost use Rattle.std.specs.Prelude.{◌≡◌, ◌+◌, []};
ghost use Rattle.sb_holdings.specs.Held.{shown_of};

use crate::making::{apply, entry, holdings_of_a, key, name, owner_of, prefix, weight};
use crate::reading::{Look, entered, read};
use crate::{got, holds, same, there};
use sb_holdings::{BlockEnd, Holdings, Report};
use sb_types::{Block, Delta, Entry, Key, Name, SharedEntry, Value, ValueRef};
use sb_views::{
    Batch, EventRef, History, LiveRow, LiveRows, NewHistory, NodeTag, OwnerView, Reader, Snapshot,
    ViewWriter, views,
};
use std::alloc::Global;
use std::marker::Brand;
use std::process::Abort;
use std::sync::Wait;

// A write of a weight, or its removal where there is none.
#[derive(Clone, Copy)]
pub(crate) struct Case {
    key: &'static [u8],
    version: u64,
    weight: Option<u64>,
}

// The write of b, and those of a in turn.
pub(crate) const OF_B: Case = Case {
    key: b"net/a",
    version: 1,
    weight: Some(7),
};

pub(crate) const NET_B: Case = Case {
    key: b"net/b",
    version: 1,
    weight: Some(1),
};

const NET_A: Case = Case {
    key: b"net/a",
    version: 2,
    weight: Some(2),
};

pub(crate) const W: Case = Case {
    key: b"w",
    version: 3,
    weight: Some(3),
};

const NET_B_REMOVED: Case = Case {
    key: b"net/b",
    version: 4,
    weight: None,
};

pub(crate) fn entry_of(rt: &impl Abort, case: Case) -> Entry {
    let value = match case.weight {
        Some(number) => Some(weight(rt, number)),
        None => None,
    };
    entry(rt, case.key, case.version, value)
}

fn block_of_b(rt: &impl Abort, alloc: Global) -> Block {
    let shared = got(rt, SharedEntry::new(alloc, entry_of(rt, OF_B)));
    let entries = got(rt, vec![in alloc; shared]);
    got(rt, Block::new(name(rt, b"b"), 0, 0, OF_B.version, entries))
}

/// A write of the node is entered.
fn enter(rt: &impl Abort, holdings: &mut Holdings, case: Case) {
    got(rt, holdings.push_own(entry_of(rt, case)));
}

/// What the node a holds once it took the write of b and made its own but the removal.
fn before_removal(rt: &impl Abort, alloc: Global) -> Holdings {
    let mut holdings = holdings_of_a(rt, alloc);
    apply(rt, &mut holdings, &block_of_b(rt, alloc));
    enter(rt, &mut holdings, NET_B);
    enter(rt, &mut holdings, NET_A);
    enter(rt, &mut holdings, W);
    holdings
}

/// What it holds after the removal.
pub(crate) fn all_written(rt: &impl Abort, alloc: Global) -> Holdings {
    let mut holdings = before_removal(rt, alloc);
    enter(rt, &mut holdings, NET_B_REMOVED);
    holdings
}

fn weight_of(found: Option<(&Value, u64)>) -> Option<(u64, u64)> {
    match found {
        Some((value, version)) => match value.view() {
            ValueRef::Weight(weight) => Some((weight, version)),
            _ => None,
        },
        None => None,
    }
}

/// How far an owner is shown, and a weight under its key.
type KeyFindings = (u64, Option<(u64, u64)>);

fn shown_under(snapshot: &Snapshot<'_>, owner: &Name, key: &Key) -> KeyFindings {
    (snapshot.upto(owner), weight_of(snapshot.get(owner, key)))
}

/// An owner is shown so far.
pub(crate) fn is_upto(rt: &impl Abort, snapshot: &Snapshot<'_>, owner: &[u8], upto: u64) {
    same(rt, &snapshot.upto(&name(rt, owner)), &upto);
}

/// This weight and its version are under an owner's key.
pub(crate) fn is_found(
    rt: &impl Abort,
    snapshot: &Snapshot<'_>,
    owner: &[u8],
    text: &[u8],
    found: Option<(u64, u64)>,
) {
    let (owner, key) = (name(rt, owner), key(rt, text));
    same(rt, &weight_of(snapshot.get(&owner, &key)), &found);
}

/// How far each owner is shown, and what is under keys.
fn keys_are_shown(rt: &impl Abort, snapshot: &Snapshot<'_>) {
    is_upto(rt, snapshot, b"a", 4);
    is_upto(rt, snapshot, b"b", 1);
    is_upto(rt, snapshot, b"c", 0);
    is_found(rt, snapshot, b"a", b"net/a", Some((2, 2)));
    is_found(rt, snapshot, b"a", b"net/b", None);
    is_found(rt, snapshot, b"c", b"w", None);
}

// The owner, the key and the version of a row.
type RowVersion = (&'static [u8], &'static [u8], u64);

const A_NET_A: RowVersion = (b"a", b"net/a", 2);

const A_W: RowVersion = (b"a", b"w", 3);

const B_NET_A: RowVersion = (b"b", b"net/a", 1);

// The rows of all, those under net/, and those of a.
const OF_ALL: [RowVersion; 3] = [A_NET_A, A_W, B_NET_A];

const UNDER_NET: [RowVersion; 2] = [A_NET_A, B_NET_A];

const OF_A: [RowVersion; 2] = [A_NET_A, A_W];

fn is_row(row: Option<LiveRow<'_>>, wanted: RowVersion) -> bool {
    let (owner, key, version) = wanted;
    match row {
        Some(row) => {
            row.owner.bytes() == owner && row.key.bytes() == key && row.live.version() == version
        }
        None => false,
    }
}

/// Whether just these rows come.
fn are_rows(mut rows: LiveRows<'_>, wanted: &[RowVersion]) -> bool {
    for row in wanted {
        if !is_row(rows.next(), *row) {
            return false;
        }
    }
    rows.next().is_none()
}

/// Just these rows of an owner come under a prefix, in order; of all owners where none is named.
fn rows_are(
    rt: &impl Abort,
    snapshot: &Snapshot<'_>,
    owner: &[u8],
    under: &[u8],
    wanted: &[RowVersion],
) {
    let rows = snapshot.rows(owner_of(rt, owner), prefix(rt, under));
    holds(rt, "its rows come in order", are_rows(rows, wanted));
}

/// The rows of each that is asked.
fn rows_come_in_order(rt: &impl Abort, snapshot: &Snapshot<'_>) {
    rows_are(rt, snapshot, b"", b"", &OF_ALL);
    rows_are(rt, snapshot, b"", b"net/", &UNDER_NET);
    rows_are(rt, snapshot, b"a", b"", &OF_A);
    rows_are(rt, snapshot, b"b", b"w", &[]);
    rows_are(rt, snapshot, b"c", b"", &[]);
}

// An owner, up to which version it is held, and how many rows it has.
type OwnerParts = (&'static [u8], u64, usize);

const OWNER_A: OwnerParts = (b"a", 4, 2);

const OWNER_B: OwnerParts = (b"b", 1, 1);

fn is_owner(found: Option<(&Name, &OwnerView)>, wanted: OwnerParts) -> bool {
    let (name, upto, count) = wanted;
    match found {
        Some((owner, view)) => {
            owner.bytes() == name && view.upto() == upto && view.len() == count
        }
        None => false,
    }
}

/// The view of each owner of whom something is held comes once, in order.
fn owners_come_in_order(rt: &impl Abort, snapshot: &Snapshot<'_>) {
    let mut owners = snapshot.owners();
    holds(rt, "the view of a", is_owner(owners.next(), OWNER_A));
    holds(rt, "the view of b", is_owner(owners.next(), OWNER_B));
    holds(rt, "no other view", owners.next().is_none());
}

pub(crate) fn live_is_shown(rt: &impl Abort, snapshot: &Snapshot<'_>) {
    keys_are_shown(rt, snapshot);
    rows_come_in_order(rt, snapshot);
    owners_come_in_order(rt, snapshot);
}

#[test]
fn snapshots_show_what_is_live(rt: HostRuntime) {
    let holdings = all_written(&rt, rt.alloc());
    read(&rt, rt.alloc(), &holdings, Look::Live);
}

#[test]
fn a_write_is_shown_once_published(rt: HostRuntime) {
    let holdings = holdings_of_a(&rt, rt.alloc());
    let seen = publish_behind(&rt, rt.alloc(), &holdings, NET_B);
    same(&rt, &seen, &[((0, None), 0), ((1, Some((1, 1))), 1)]);
}

#[test]
fn a_removal_is_shown_once_published(rt: HostRuntime) {
    let holdings = before_removal(&rt, rt.alloc());
    let seen = publish_behind(&rt, rt.alloc(), &holdings, NET_B_REMOVED);
    same(&rt, &seen, &[((3, Some((1, 1))), 0), ((4, None), 1)]);
}

/// What a reader sees of a key, and of how many events.
pub(crate) type ReaderFindings = (KeyFindings, u64);

/// What is seen under the key of a write after what is held, before it is published and then.
fn publish_behind<R: Wait + Abort>(
    rt: &R,
    alloc: Global,
    holdings: &Holdings,
    write: Case,
) -> [ReaderFindings; 2] {
    let entry = entry_of(rt, write);
    let held = holdings.upto(holdings.me());
    if held == u64::MAX || entry.version() != held + 1 {
        panic!(rt; "error: the write behind those");
    }
    publish_one::<Brand, _>(rt, alloc, NewHistory::new(), holdings, entry)
}

fn publish_one<S: NodeTag, R: Wait + Abort>(
    rt: &R,
    alloc: Global,
    new_history: NewHistory,
    holdings: &Holdings,
    entry: Entry,
) -> [ReaderFindings; 2]
    requires history { new_history.seen.book ≡ S.history }
    requires opening { S.opening.held ≡ holdings.now }
    requires next { entry.version ≡ (shown_of holdings.now holdings.now.me).held + 1 }
{
    let key = *entry.key();
    let history = new_history.named::<S>();
    let start = history.prefix().copy();
    let (mut writer, mut readers) = match views::<S, &R>(alloc, rt, start, holdings, 2) {
        Ok(made) => made,
        Err(fault) => panic!(rt; "error: {fault:?}"),
    };
    append_own(rt, alloc, history, &mut writer, holdings, entry);
    let reader = there(rt, readers.pop());
    look_around(rt, &mut writer, reader, holdings.me(), &key)
}

/// Adds the first event of a history, an own write.
fn append_own<S: NodeTag, R: Wait + Abort>(
    rt: &R,
    alloc: Global,
    mut history: History<S>,
    writer: &mut ViewWriter<S, &R>,
    holdings: &Holdings,
    entry: Entry,
)
    requires start { history ≡ [] }
    requires queued { writer.old.queued ≡ [] }
    requires opening { S.opening.held ≡ holdings.now }
    requires next { entry.version ≡ (shown_of holdings.now holdings.now.me).held + 1 }
{
    history.add(EventRef::TookOwn(&entry));
    let mut batch = Batch::new(alloc);
    match batch.push(*holdings.me(), shared(rt, alloc, entry)) {
        Ok(()) => {}
        Err(fault) => panic!(rt; "error: {fault:?}"),
    }
    if writer.append(batch, history.prefix()).is_err() {
        panic!(rt; "error: NoMemory");
    }
}

/// The entry, to be shared.
pub(crate) fn shared<R: Wait + Abort>(rt: &R, alloc: Global, entry: Entry) -> SharedEntry
    ensures { result ≡ entry }
{
    match SharedEntry::new(alloc, entry) {
        Ok(shared) => shared,
        Err(fault) => panic!(rt; "error: {fault:?}"),
    }
}

/// What a reader sees before all is published, and then.
pub(crate) fn look_around<S: NodeTag, R: Wait + Abort>(
    rt: &R,
    writer: &mut ViewWriter<S, &R>,
    reader: Reader<S>,
    owner: &Name,
    key: &Key,
) -> [ReaderFindings; 2] {
    let (reader, before) = look_once(rt, reader, owner, key);
    got(rt, writer.publish());
    let (_reader, after) = look_once(rt, reader, owner, key);
    [before, after]
}

fn look_once<S: NodeTag>(
    rt: &impl Abort,
    reader: Reader<S>,
    owner: &Name,
    key: &Key,
) -> (Reader<S>, ReaderFindings) {
    let entered = entered(rt, reader);
    let shown = shown_under(&entered.snapshot(), owner, key);
    let events = entered.seen().len();
    (entered.leave(), (shown, events))
}

#[test]
fn a_history_grows_and_its_prefixes_stay(rt: HostRuntime) {
    let events = events_to_add(&rt, rt.alloc());
    let (are_whole, counts) = add_events::<Brand>(NewHistory::new(), &events);
    same(&rt, &are_whole, &[false, false, true]);
    same(&rt, &counts, &(0, 1, 2));
}

/// An own write, and a delta of one block with its end.
#[derive(Drop)]
struct Events {
    own: Entry,
    delta: Delta,
    ends: Report,
}

fn delta_of_b(rt: &impl Abort, alloc: Global) -> Delta {
    let blocks = got(rt, vec![in alloc; block_of_b(rt, alloc)]);
    got(rt, Delta::new(blocks))
}

fn events_to_add(rt: &impl Abort, alloc: Global) -> Events {
    let ends = got(rt, vec![in alloc; BlockEnd::Taken(1)]);
    Events {
        own: entry_of(rt, NET_B),
        delta: delta_of_b(rt, alloc),
        ends: Report::new(ends),
    }
}

/// Which of the prefixes before, between and after two events is the whole history then, and how many events each has.
fn add_events<S: NodeTag>(new_history: NewHistory, events: &Events) -> ([bool; 3], (u64, u64, u64))
    requires { new_history.seen.book ≡ S.history }
{
    let mut history = new_history.named::<S>();
    let before = history.prefix().copy();
    history.add(EventRef::TookOwn(&events.own));
    let between = history.prefix().copy();
    history.add(EventRef::Applied(&events.delta, &events.ends));
    history.audit(&between);
    let after = history.prefix();
    (
        [
            before.is_same(after),
            between.is_same(after),
            after.is_same(after),
        ],
        (before.len(), between.len(), history.len()),
    )
}
