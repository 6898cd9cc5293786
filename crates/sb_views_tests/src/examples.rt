//! The examples in the docs of watches, of lines, of views, of questions and of listings.
use crate::making::{key, name, prefix, rows_of};
use crate::reading::{Look, read};
use crate::views::all_written;
use crate::{got, same};
use sb_codec::{Ask, Row};
use sb_lines::log_run;
use sb_listing::{changes, print_changes};
use sb_log::{PlainLog, WriteLog};
use sb_query::{answer, print_rows};
use sb_types::{BUDGET_LEAST, Fault, Key, Name, Prefix, Slot, VERSION_MOST, Value};
use sb_views::{Entered, NodeTag, Snapshot};
use sb_watch::{Filter, Hub, Note, Polled};
use std::alloc::Global;
use std::process::Abort;

/// What a watch of the keys under `net/` answers after a write of `net/b`.
fn watch_once(alloc: Global) -> Result<[Polled; 2], Fault> {
    let mut hub = Hub::new(alloc);
    let (owner, prefix) = (None, Prefix::read(b"net/")?);
    let id = hub.add(Filter { owner, prefix }, 2)?;
    let key = Some(Key::read(b"net/b")?);
    hub.push(&Note {
        owner: Name::read(b"a")?,
        key,
        version: 7,
    });
    Ok([hub.take(id)?, hub.take(id)?])
}

#[test]
fn example_of_sb_watch(rt: HostRuntime) {
    let note = Note {
        owner: name(&rt, b"a"),
        key: Some(key(&rt, b"net/b")),
        version: 7,
    };
    let answers = got(&rt, watch_once(rt.alloc()));
    same(&rt, &answers, &[Polled::Note(note), Polled::Empty]);
}

/// The lines of a log of `a` with one write.
fn lines_of_log(alloc: Global) -> Result<Vec<u8>, Fault> {
    let (owner, cluster) = (Name::read(b"a")?, Name::read(b"c1")?);
    let mut log = PlainLog::new(alloc, owner, cluster, VERSION_MOST);
    let _committed = log.put(&Key::read(b"web/up")?, &Slot::Set(Value::flag(true)))?;
    let mut lines = Vec::new(alloc);
    let (printed, _) = log_run(alloc, &mut log, &mut lines);
    printed?;
    Ok(lines)
}

#[test]
fn example_of_sb_lines(rt: HostRuntime) {
    let lines = got(&rt, lines_of_log(rt.alloc()));
    let wanted = b"a web/up 1 flag true\nlast 1\n";
    same(&rt, &lines.as_slice(), &wanted.as_slice());
}

/// The version of what a reader gets under a key of an owner, and up to which version it has the owner.
fn version_under<S: NodeTag>(entered: &Entered<S>, owner: &Name, key: &Key) -> (Option<u64>, u64) {
    let snapshot = entered.snapshot();
    let version = match snapshot.get(owner, key) {
        Some((_, version)) => Some(version),
        None => None,
    };
    (version, snapshot.upto(owner))
}

/// How many rows an owner has under the keys that begin with a prefix.
fn count_under(snapshot: &Snapshot<'_>, owner: Name, prefix: Prefix) -> usize {
    let mut count: usize = 0;
    for _row in snapshot.rows(Some(owner), prefix) {
        count = count.saturating_add(1);
    }
    count
}

pub(crate) fn rows_are_counted(rt: &impl Abort, snapshot: &Snapshot<'_>) {
    let count = count_under(snapshot, name(rt, b"b"), prefix(rt, b"net/"));
    same(rt, &count, &1);
}

pub(crate) fn key_is_looked_up<S: NodeTag>(rt: &impl Abort, entered: &Entered<S>) {
    let found = version_under(entered, &name(rt, b"a"), &key(rt, b"net/a"));
    same(rt, &found, &(Some(2), 4));
}

/// The lines of the first page of all rows under a prefix.
fn lines_under(alloc: Global, snapshot: &Snapshot<'_>, prefix: Prefix) -> Result<Vec<u8>, Fault> {
    let (owner, after) = (None, None);
    let page = answer(
        alloc,
        snapshot,
        &Ask {
            owner,
            prefix,
            after,
        },
        BUDGET_LEAST,
    )?;
    let mut lines = Vec::new(alloc);
    print_rows(alloc, &mut lines, &page).0?;
    Ok(lines)
}

pub(crate) fn rows_are_printed(rt: &impl Abort, alloc: Global, snapshot: &Snapshot<'_>) {
    let lines = got(rt, lines_under(alloc, snapshot, prefix(rt, b"net/")));
    let wanted = b"a net/a 2 weight 2\nb net/a 1 weight 7\n";
    same(rt, &lines.as_slice(), &wanted.as_slice());
}

/// The lines of what changed from one listing to the next.
fn changed_lines(alloc: Global, earlier: &[Row], later: &[Row]) -> Result<Vec<u8>, Fault> {
    let found = changes(alloc, earlier, later)?;
    let mut lines = Vec::new(alloc);
    print_changes(alloc, &mut lines, &found).0?;
    Ok(lines)
}

#[test]
fn example_of_sb_listing(rt: HostRuntime) {
    let alloc = rt.alloc();
    let earlier = rows_of(&rt, alloc, &[(b"a", b"w", 1, (b"weight", b"5"))]);
    let later = rows_of(&rt, alloc, &[(b"b", b"up", 1, (b"flag", b"true"))]);
    let lines = got(&rt, changed_lines(alloc, &earlier, &later));
    let wanted = b"gone a w\nset b up 1 flag true\n";
    same(&rt, &lines.as_slice(), &wanted.as_slice());
}

#[test]
fn example_of_sb_views(rt: HostRuntime) {
    let holdings = all_written(&rt, rt.alloc());
    read(&rt, rt.alloc(), &holdings, Look::Key);
}

#[test]
fn example_of_a_snapshot(rt: HostRuntime) {
    let holdings = all_written(&rt, rt.alloc());
    read(&rt, rt.alloc(), &holdings, Look::Count);
}

#[test]
fn example_of_sb_query(rt: HostRuntime) {
    let holdings = all_written(&rt, rt.alloc());
    read(&rt, rt.alloc(), &holdings, Look::Print);
}
