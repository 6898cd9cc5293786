//! Views of tables that are held beyond their last entries, and an owner whose rows are all shown again.

ghost use Rattle.std.specs.Prelude.{◌≡◌, ◌∷◌, [], OnOk};
ghost use Rattle.sb_holdings.specs.Held.{shown_of};

use crate::making::{apply, holdings_of_a, name};
use crate::reading::{Look, read};
use crate::views::{
    Case, NET_B, OF_B, ReaderFindings, W, entry_of, is_found, is_upto, look_around, shared,
};
use crate::{got, same, there};
use sb_holdings::Holdings;
use sb_table::Table;
use sb_types::{Block, Entry, Fault, Name, SharedEntry};
use sb_views::{
    Batch, Change, EventRef, History, NewHistory, NodeTag, Snapshot, ViewWriter, views,
};
use std::alloc::Global;
use std::marker::Brand;
use std::process::Abort;
use std::sync::Wait;

/// What a node holds: of a a write of version 3, up to version 5, with floor 4. Of b a stage of floor 2, with a write
/// of version 1, that came up to version 3.
fn held_beyond(rt: &impl Abort, alloc: Global) -> Holdings {
    let shared = got(rt, SharedEntry::new(alloc, entry_of(rt, W)));
    let entries = got(rt, vec![in alloc; shared]);
    let own = got(rt, Table::restored(alloc, 5, 4, entries));
    let mut holdings = got(rt, Holdings::new(alloc, name(rt, b"a"), own));
    let shared = got(rt, SharedEntry::new(alloc, entry_of(rt, OF_B)));
    let entries = got(rt, vec![in alloc; shared]);
    let block = got(rt, Block::new(name(rt, b"b"), 2, 0, 3, entries));
    apply(rt, &mut holdings, &block);
    holdings
}

/// Tests that each owner is shown as far as it is held, with its rows.
pub(crate) fn beyond_is_shown(rt: &impl Abort, snapshot: &Snapshot<'_>) {
    is_upto(rt, snapshot, b"a", 5);
    is_upto(rt, snapshot, b"b", 3);
    is_found(rt, snapshot, b"a", b"w", Some((3, 3)));
    is_found(rt, snapshot, b"b", b"net/a", Some((7, 1)));
}

#[test]
fn what_is_held_beyond_the_entries_is_shown(rt: HostRuntime) {
    let holdings = held_beyond(&rt, rt.alloc());
    read(&rt, rt.alloc(), &holdings, Look::Beyond);
}

#[test]
fn an_owner_is_shown_anew_once_published(rt: HostRuntime) {
    let holdings = holdings_of_a(&rt, rt.alloc());
    let seen = publish_anew(&rt, rt.alloc(), &holdings, NET_B);
    same(&rt, &seen, &[((0, None), 0), ((1, Some((1, 1))), 1)]);
}

/// What a reader sees under the key of the first write, before all rows of the node are shown again, and after that.
fn publish_anew<R: Wait + Abort>(
    rt: &R,
    alloc: Global,
    holdings: &Holdings,
    write: Case,
) -> [ReaderFindings; 2] {
    let entry = entry_of(rt, write);
    if holdings.upto(holdings.me()) != 0 || entry.version() != 1 {
        panic!(rt; "error: the first write");
    }
    publish_first::<Brand, _>(rt, alloc, NewHistory::new(), holdings, entry)
}

fn publish_first<S: NodeTag, R: Wait + Abort>(
    rt: &R,
    alloc: Global,
    new_history: NewHistory,
    holdings: &Holdings,
    entry: Entry,
) -> [ReaderFindings; 2]
    requires history { new_history.seen.book ≡ S.history }
    requires opening { S.opening.held ≡ holdings.now }
    requires nothing { (shown_of holdings.now holdings.now.me).held ≡ 0 }
    requires first { entry.version ≡ 1 }
{
    let key = *entry.key();
    let history = new_history.named::<S>();
    let start = history.prefix().copy();
    let (mut writer, mut readers) = match views::<S, &R>(alloc, rt, start, holdings, 2) {
        Ok(made) => made,
        Err(fault) => panic!(rt; "error: {fault:?}"),
    };
    append_anew(rt, alloc, history, &mut writer, holdings, entry);
    let reader = there(rt, readers.pop());
    look_around(rt, &mut writer, reader, holdings.me(), &key)
}

/// Adds to an empty batch that the owner has this one entry and no other.
fn push_anew(batch: &mut Batch, owner: Name, entry: SharedEntry) -> Result<(), Fault>
    requires { batch.old ≡ [] }
    ensures { OnOk result (batch.new ≡ (owner, Change.Clear) ∷ (owner, Change.Enter entry) ∷ (owner, Change.Hold entry.version) ∷ []) }
{
    let version = entry.entry().version();
    batch.push_clear(owner)?;
    batch.push(owner, entry)?;
    batch.push_hold(owner, version)
}

/// Adds the first event of a history, an own write, and with it all rows of the node again.
fn append_anew<S: NodeTag, R: Wait + Abort>(
    rt: &R,
    alloc: Global,
    mut history: History<S>,
    writer: &mut ViewWriter<S, &R>,
    holdings: &Holdings,
    entry: Entry,
)
    requires start { history ≡ [] }
    requires queued { writer.old.queued ≡ [] }
    requires opening { S.opening.held ≡ holdings.now }
    requires nothing { (shown_of holdings.now holdings.now.me).held ≡ 0 }
    requires first { entry.version ≡ 1 }
{
    history.add(EventRef::TookOwn(&entry));
    let mut batch = Batch::new(alloc);
    match push_anew(&mut batch, *holdings.me(), shared(rt, alloc, entry)) {
        Ok(()) => {}
        Err(fault) => panic!(rt; "error: {fault:?}"),
    }
    if writer.append(batch, history.prefix()).is_err() {
        panic!(rt; "error: NoMemory");
    }
}
