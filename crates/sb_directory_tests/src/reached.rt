//! How calls reach a node: from the one seat of its directory.
ghost use Rattle.std.specs.Prelude.{◌≡◌};

use crate::making::{name, prefix};
use crate::{got, same, there};
use sb_budget::Backlog;
use sb_digest::Digest;
use sb_directory::{Difference, Directory, DirectoryTag, DirectoryWatch, ReaderSeat};
use sb_holdings::Report;
use sb_log::Committed;
use sb_node::NodeCore;
use sb_session::ReceivedDelta;
use sb_types::{Block, Delta, Fault, Name};
use sb_views::{NewHistory, NodeTag, Snapshot};
use sb_watch::{Filter, Polled};
use std::alloc::Global;
use std::process::Abort;
use std::sync::Wait;
use std::sync::ledger::Blank;

/// What a reader sees: how many events, how far a and b are held, and how many rows each of them has.
pub(crate) type ReaderFindings = (u64, [u64; 2], [usize; 2]);

/// How many rows an owner has.
fn rows_of(rt: &impl Abort, owner: Name, snapshot: &Snapshot<'_>) -> usize {
    let mut rows: usize = 0;
    for _ in snapshot.rows(Some(owner), prefix(rt, b"")) {
        rows = rows.saturating_add(1);
    }
    rows
}

/// What is seen after so many events.
fn findings_of(rt: &impl Abort, events: u64, snapshot: &Snapshot<'_>) -> ReaderFindings {
    let (a, b) = (name(rt, b"a"), name(rt, b"b"));
    let rows = [rows_of(rt, a, snapshot), rows_of(rt, b, snapshot)];
    (events, [snapshot.upto(&a), snapshot.upto(&b)], rows)
}

/// The directory of a node, and its one seat, which is away only while it reads.
#[derive(Drop)]
pub(crate) struct Seated<S: DirectoryTag, H: Wait + Drop> {
    directory: Directory<S, H>,
    seat: Option<ReaderSeat<S>>,
}

/// The directory of a node that was just opened.
pub(crate) fn seated_of<S: DirectoryTag, R: Wait + Abort>(
    rt: &R,
    history: NewHistory,
    blank: Blank,
    core: NodeCore,
    alloc: Global,
) -> Seated<S, &R>
    requires history { history.seen.book ≡ S.history }
    requires opening { S.opening ≡ core.node }
    requires settings { S.settings ≡ core.settings }
    requires name { blank.name ≡ S.name }
    requires parts { blank.parts ≡ S.parts }
    requires all { (1 ≡ S.seats) × (1 ≡ S.parts) }
{
    let made = Directory::<S, &R>::make(rt, alloc, history, blank, core, 1);
    let (directory, mut seats) = got(rt, made);
    Seated {
        directory,
        seat: seats.pop(),
    }
}

fn read_seated<S: NodeTag>(
    rt: &impl Abort,
    seat: ReaderSeat<S>,
) -> (ReaderSeat<S>, ReaderFindings) {
    match seat.enter() {
        Ok(entered) => {
            let seen = findings_of(rt, entered.seen().len(), &entered.snapshot());
            (entered.leave(), seen)
        }
        Err(_) => panic!(rt; "error: not entered"),
    }
}

/// The calls of a node; those that enter a write say whether the seat has seen it.
impl<S: DirectoryTag, H: Wait + Drop> Seated<S, H> {
    pub(crate) fn take_own<Q: Wait + Abort>(
        &mut self,
        rt: &Q,
        write: &Committed,
    ) -> Result<bool, Fault> {
        let seat = there(rt, self.seat.as_mut());
        let receipt = self.directory.take_own(rt, seat, write)?;
        same(rt, &receipt.version, &write.entry().version());
        Ok(receipt.shown)
    }

    pub(crate) fn apply<Q: Wait + Abort>(
        &mut self,
        rt: &Q,
        delta: &ReceivedDelta,
    ) -> Result<(Report, bool), Fault> {
        let seat = there(rt, self.seat.as_mut());
        let applied = self.directory.apply(rt, seat, delta)?;
        Ok((applied.ends, applied.shown))
    }

    pub(crate) fn digest<Q: Wait + Abort>(&mut self, rt: &Q, want: bool) -> Result<Digest, Fault> {
        let seat = there(rt, self.seat.as_mut());
        self.directory.digest(rt, seat, None, want)
    }

    pub(crate) fn deltas<Q: Wait + Abort>(
        &mut self,
        rt: &Q,
        digest: &Digest,
    ) -> Result<Delta, Fault> {
        let seat = there(rt, self.seat.as_mut());
        self.directory.deltas(rt, seat, digest)
    }

    pub(crate) fn take_news<Q: Wait + Abort>(&mut self, rt: &Q) -> Backlog {
        self.directory.take_news(rt)
    }

    pub(crate) fn news<Q: Wait + Abort>(
        &mut self,
        rt: &Q,
        backlog: &Backlog,
    ) -> Result<Delta, Fault> {
        let seat = there(rt, self.seat.as_mut());
        self.directory.news(rt, seat, backlog)
    }

    /// The new floor, if a purge was due, and whether it is shown.
    pub(crate) fn purge<Q: Wait + Abort>(
        &mut self,
        rt: &Q,
        least: u64,
    ) -> Result<Option<(u64, bool)>, Fault> {
        let seat = there(rt, self.seat.as_mut());
        match self.directory.purge(rt, seat, least)? {
            Some(purge) => Ok(Some((purge.floor, purge.shown))),
            None => Ok(None),
        }
    }

    /// The first difference that an audit of this block finds.
    pub(crate) fn audit<Q: Wait + Abort>(
        &mut self,
        rt: &Q,
        block: &Block,
    ) -> Result<Option<Difference>, Fault> {
        let seat = there(rt, self.seat.as_mut());
        self.directory.audit(rt, seat, block)
    }

    pub(crate) fn conflict<Q: Wait + Abort>(&mut self, rt: &Q) -> Option<u64> {
        let seat = there(rt, self.seat.as_mut());
        self.directory.conflict(rt, seat)
    }

    pub(crate) fn key_count<Q: Wait + Abort>(&mut self, rt: &Q) -> usize {
        let seat = there(rt, self.seat.as_mut());
        self.directory.key_count(rt, seat)
    }

    pub(crate) fn watch<Q: Wait + Abort>(
        &mut self,
        rt: &Q,
        filter: Filter,
        capacity: usize,
    ) -> Result<DirectoryWatch<S>, Fault> {
        self.directory.watch(rt, filter, capacity)
    }

    pub(crate) fn unwatch<Q: Wait + Abort>(
        &mut self,
        rt: &Q,
        watch: &DirectoryWatch<S>,
    ) -> Result<(), Fault> {
        self.directory.unwatch(rt, watch)
    }

    pub(crate) fn poll<Q: Wait + Abort>(
        &mut self,
        rt: &Q,
        watch: &mut DirectoryWatch<S>,
    ) -> Result<Polled, Fault> {
        let seat = there(rt, self.seat.as_mut());
        self.directory.poll(rt, seat, watch)
    }

    /// Whether a watch has a note, and whether any has one.
    pub(crate) fn has_note<Q: Wait + Abort>(
        &mut self,
        rt: &Q,
        watch: &DirectoryWatch<S>,
    ) -> Result<(bool, bool), Fault> {
        match self.directory.has_note(rt, watch) {
            Ok(has_note) => Ok((has_note, self.directory.has_notes(rt))),
            Err(fault) => Err(fault),
        }
    }

    pub(crate) fn refresh<Q: Wait + Abort>(&mut self, rt: &Q) -> bool {
        let seat = there(rt, self.seat.as_mut());
        self.directory.refresh(rt, seat)
    }

    pub(crate) fn read<Q: Abort>(&mut self, rt: &Q) -> ReaderFindings {
        let (seat, seen) = read_seated(rt, there(rt, self.seat.take()));
        self.seat = Some(seat);
        seen
    }
}
