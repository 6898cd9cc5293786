//! Watches at a directory, as their callers keep them.
ghost use Rattle.std.specs.Prelude.{◌≡◌, ◌≢◌, MatchBool, map};
ghost use Rattle.sb_types.specs.Runs.{Stands};
ghost use Rattle.sb_directory.specs.Watching as spec;

use crate::tag::DirectoryTag;
use sb_views::HistoryPrefix;
use sb_watch::{Filter, Hub, WatchId};
use std::marker::Model;

/// A watch at a directory: which changes it is for, and after which history it reports them. Contracts see it as its id and these two.
#[derive(Drop)]
pub struct DirectoryWatch<S: DirectoryTag> {
    id: WatchId,
    filter: Filter,
    since: HistoryPrefix<S>,
}

impl<S: DirectoryTag> Model for DirectoryWatch<S> {
    ghost use Rattle.sb_directory.specs.Watching as spec;

    ghost Value = { spec.DirectoryWatch };

    ghost view = { λ w. record { id = w.id; filter = w.filter; since = w.since } };
}

/// Whether two filters are one.
fn is_same_filter(one: &Filter, other: &Filter) -> bool
    ensures { MatchBool result (one.now ≡ other.now) (one.now ≢ other.now) }
{
    one.owner == other.owner && one.prefix == other.prefix
}

impl<S: DirectoryTag> DirectoryWatch<S> {
    /// The watch of this id, which reports what comes after this history.
    pub(crate) fn new(id: WatchId, filter: &Filter, since: HistoryPrefix<S>) -> DirectoryWatch<S>
        ensures { result ≡ record { id = id; filter = filter.now; since = since } }
    {
        DirectoryWatch {
            id,
            filter: *filter,
            since,
        }
    }

    /// Its id, by which the hub finds it.
    pub(crate) fn id(&self) -> WatchId
        ensures { result ≡ self.now.id }
    {
        self.id
    }

    /// A copy.
    pub(crate) fn copy(&self) -> DirectoryWatch<S>
        ensures { result ≡ self.now }
    {
        DirectoryWatch {
            id: self.id,
            filter: self.filter,
            since: self.since.copy(),
        }
    }

    /// Reports from here on what comes after this history.
    fn renew(&mut self, history: &HistoryPrefix<S>)
        ensures { self.new ≡ spec.watching_from history.now self.old }
    {
        self.since = history.copy();
    }

    /// Does the same if this is its id.
    fn renew_if(&mut self, id: WatchId, history: &HistoryPrefix<S>)
        ensures { self.new ≡ spec.renewed id history.now self.old }
    {
        if self.id == id {
            self.renew(history);
        }
    }

    /// Whether another watch is the same, with the same history.
    fn is_same(&self, other: &DirectoryWatch<S>) -> bool
        ensures { MatchBool result (self.now ≡ other.now) (self.now ≢ other.now) }
    {
        self.id == other.id
            && is_same_filter(&self.filter, &other.filter)
            && self.since.is_same(&other.since)
    }
}

/// Whether a watch is one of these.
pub(crate) fn is_one_of<S: DirectoryTag>(
    watches: &[DirectoryWatch<S>],
    watch: &DirectoryWatch<S>,
) -> bool
    ensures { MatchBool result (Stands watches.now watch.now) (Stands watches.now watch.now → ⊥) }
{
    for one in watches {
        if one.is_same(watch) {
            return true;
        }
    }
    false
}

/// Has the watch of an id report what comes after this history.
fn renew<S: DirectoryTag>(
    watches: &mut [DirectoryWatch<S>],
    id: WatchId,
    history: &HistoryPrefix<S>,
)
    ensures { watches.new ≡ map (spec.renewed id history.now) watches.old }
{
    for watch in watches.iter_mut() {
        watch.renew_if(id, history);
    }
}

/// Does the same in a vector.
fn renew_in<S: DirectoryTag>(
    watches: &mut Vec<DirectoryWatch<S>>,
    id: WatchId,
    history: &HistoryPrefix<S>,
)
    ensures { watches.new.items ≡ map (spec.renewed id history.now) watches.old.items }
{
    renew(watches, id, history);
}

/// Has a watch, and its copy among these, report only what comes after this history, unless the hub has a note for it.
pub(crate) fn renew_unless_owed<S: DirectoryTag>(
    hub: &Hub,
    history: &HistoryPrefix<S>,
    watches: &mut Vec<DirectoryWatch<S>>,
    watch: &mut DirectoryWatch<S>,
)
    ensures watches { watches.new.items ≡ spec.watches_after hub.now history.now watch.old.id watches.old.items }
    ensures watch { watch.new ≡ spec.watch_after hub.now history.now watch.old }
{
    if let Ok(false) = hub.has_note(watch.id) {
        renew_in(watches, watch.id, history);
        watch.renew(history);
    }
}

/// Leaves out the watch of an id.
pub(crate) fn leave_out<S: DirectoryTag>(watches: &mut Vec<DirectoryWatch<S>>, id: WatchId)
    ensures { watches.new.items ≡ spec.others id watches.old.items }
{
    watches.retain(|watch| watch.id != id);
}
