//! A node's own writes: its log takes each before the directory does.
ghost use Rattle.std.specs.Prelude.{◌≡◌, ◌+◌, ◌⊎◌, true, false, None, Some, Err, OnOk, OnErr, IfOk, IfErr};
ghost use Rattle.sb_codec.specs.Limits.{is_version};
ghost use Rattle.sb_log.specs.Puts.{Puts, IsSettled};
ghost use Rattle.sb_directory.specs.Seats.{with_last_call};
ghost use Rattle.sb_directory.specs.Serving.{IsLater};
ghost use Rattle.sb_run.specs.OwnWriting.{IsUndisputed, version_of, count_owed, count_shared, news_after, IsHeldBack, IsHandedIn, IsStored, IsRefused};
ghost use Rattle.sb_log.specs.Records as records;
ghost use Rattle.sb_run.specs.Closing as spec;

use crate::write_request::WriteRequest;
use sb_directory::{Directory, DirectoryTag, ReaderSeat, Receipt};
use sb_log::{Committed, StoreCause, WriteLog};
use sb_table::Table;
use sb_types::{Fault, Key, Name, Slot};
use std::alloc::Global;
use std::sync::Wait;

mod purging;

/// What became of a write that the log took.
#[derive(Clone, Copy, Debug, PartialEq, Eq)]
pub enum Stored {
    /// The directory took it.
    Shared(Receipt),
    /// The directory refused it by this fault. The log has it under this version, and it is handed in before the next write.
    Owed(u64, Fault),
}

impl Stored {
    /// The version under which the log took the write.
    pub fn version(&self) -> u64
        ensures { result ≡ version_of self.now }
    {
        match self {
            Stored::Shared(receipt) => receipt.version,
            Stored::Owed(version, _) => *version,
        }
    }
}

/// The log of a node's own writes, and the write in it that the directory refused and is still owed.
#[derive(Drop)]
pub struct OwnWrites<L: WriteLog> {
    log: L,
    owed: Option<Committed>,
    /// The version of the last write that the log took or that was handed in, if it was not asked for since.
    stored: Option<u64>,
    /// Whether a write closed the log by a fault of its store, if it was not asked for since.
    has_failed: bool,
    /// Whether a write was refused because there are too many keys, if it was not asked for since.
    was_full: bool,
}

impl<L: WriteLog> OwnWrites<L> {
    /// The own writes of this log. Nothing is owed.
    pub fn new(log: L) -> OwnWrites<L>
        ensures log { result.log ≡ log }
        ensures owed { result.owed ≡ None }
        ensures calm { (result.stored ≡ None) × (result.has_failed ≡ false) }
        ensures full { result.was_full ≡ false }
    {
        OwnWrites {
            log,
            owed: None,
            stored: None,
            has_failed: false,
            was_full: false,
        }
    }

    /// The own writes of a log whose store failed. Nothing is owed.
    pub(crate) fn closed(log: L) -> OwnWrites<L>
        ensures log { result.log ≡ log }
        ensures owed { result.owed ≡ None }
        ensures failed { (result.stored ≡ None) × (result.has_failed ≡ true) }
        ensures full { result.was_full ≡ false }
    {
        OwnWrites {
            log,
            owed: None,
            stored: None,
            has_failed: true,
            was_full: false,
        }
    }

    /// Whose writes they are.
    pub(crate) fn owner(&self) -> &Name
        ensures { result.now ≡ (L.seen self.now.log).owner }
    {
        self.log.owner()
    }

    /// The version of the last write that the log took, or that was handed in, since this was last asked; none if there was none.
    pub(crate) fn take_stored(&mut self) -> Option<u64>
        ensures stored { (result ≡ self.old.stored) × (self.new.stored ≡ None) }
        ensures same { (self.new.log ≡ self.old.log) × (self.new.owed ≡ self.old.owed) × (self.new.has_failed ≡ self.old.has_failed) }
        ensures full { self.new.was_full ≡ self.old.was_full }
    {
        self.stored.take()
    }

    /// Whether a fault of its store closed the log since this was last asked.
    pub(crate) fn take_failure(&mut self) -> bool
        ensures failed { (result ≡ self.old.has_failed) × (self.new.has_failed ≡ false) }
        ensures same { (self.new.log ≡ self.old.log) × (self.new.owed ≡ self.old.owed) × (self.new.stored ≡ self.old.stored) }
        ensures full { self.new.was_full ≡ self.old.was_full }
    {
        let has_failed = self.has_failed;
        self.has_failed = false;
        has_failed
    }

    /// Whether a write was refused since this was last asked because there are too many keys.
    pub(crate) fn take_full(&mut self) -> bool
        ensures full { (result ≡ self.old.was_full) × (self.new.was_full ≡ false) }
        ensures same { (self.new.log ≡ self.old.log) × (self.new.owed ≡ self.old.owed) × (self.new.stored ≡ self.old.stored) × (self.new.has_failed ≡ self.old.has_failed) }
    {
        let was_full = self.was_full;
        self.was_full = false;
        was_full
    }

    /// Why the log is closed; none if it is open.
    pub(crate) fn cause(&self) -> Option<StoreCause>
        ensures { result ≡ L.why self.now.log }
    {
        self.log.cause()
    }

    /// Puts a write into the log, and takes down whether that took it.
    fn keep(&mut self, asked: WriteRequest) -> Result<Committed, Fault>
        ensures puts { Puts (L.seen self.old.log) asked.key asked.slot result (L.seen self.new.log) }
        ensures settled { IsSettled (L.seen self.new.log) (L.leaves self.new.log) }
        ensures owed { self.new.owed ≡ self.old.owed }
        ensures stored { IfOk result (λ committed. self.new.stored ≡ Some committed.entry.version) }
        ensures unstored { OnErr result (self.new.stored ≡ self.old.stored) }
        // A log is said to have failed only if this write closed it by a fault of its store.
        ensures failed { self.new.has_failed ≡ true → (self.old.has_failed ≡ true) ⊎ (result ≡ Err Fault.StoreFailed) }
        ensures fails { result ≡ Err Fault.StoreFailed → self.new.has_failed ≡ true }
        ensures full { result ≡ Err Fault.TableFull → self.new.was_full ≡ true }
        // Only a write for which no key is left counts so, and it counts until that is asked for.
        ensures only_full { self.new.was_full ≡ true → (self.old.was_full ≡ true) ⊎ (result ≡ Err Fault.TableFull) }
        ensures still_full { self.old.was_full ≡ true → self.new.was_full ≡ true }
        // One that was open and is closed now has failed.
        ensures closes { (L.seen self.old.log).is_open ≡ true → (L.seen self.new.log).is_open ≡ false → self.new.has_failed ≡ true }
    {
        let kept = asked.put_into(&mut self.log);
        match &kept {
            Ok(committed) => self.stored = Some(committed.entry().version()),
            Err(Fault::StoreFailed) => self.has_failed = true,
            Err(Fault::TableFull) => self.was_full = true,
            Err(_) => {}
        }
        kept
    }

    /// Hands in what is owed. `OwnerConflict` if another node writes under the own name; then the faults of
    /// the directory for what is owed. Each leaves everything as it was, except the seat's last call.
    fn hand_in<S: DirectoryTag, H: Wait + Drop, Q: Wait>(
        &mut self,
        rt: &Q,
        directory: &Directory<S, H>,
        seat: &mut ReaderSeat<S>,
    ) -> Result<(), Fault>
        ensures log { self.new.log ≡ self.old.log }
        ensures same { self.new.has_failed ≡ self.old.has_failed }
        ensures full { self.new.was_full ≡ self.old.was_full }
        // What is handed in is news.
        ensures news { OnOk result (self.new.stored ≡ news_after self.old.owed self.old.stored) }
        ensures unstored { OnErr result (self.new.stored ≡ self.old.stored) }
        ensures owed { OnOk result (self.new.owed ≡ None) }
        ensures handed { OnOk result (IsHandedIn S.opening seat.old self.old.owed seat.new) }
        ensures count { OnOk result (seat.new.events ≡ seat.old.events + count_owed self.old.owed) }
        ensures free { IfOk result (λ _. IsUndisputed S.opening seat.old seat.new) }
        ensures refused { IfErr result (λ fault. IsHeldBack S.opening seat.old self.old.owed fault seat.new) }
        ensures owes { IfErr result (λ _. self.new.owed ≡ self.old.owed) }
        ensures seat { IfErr result (λ _. seat.new ≡ with_last_call seat.old seat.new.last_call) }
        ensures later { IsLater seat.old seat.new }
    {
        if let Some(version) = directory.conflict(rt, seat) {
            return Err(Fault::OwnerConflict(version));
        }
        if let Some(committed) = &self.owed {
            directory.take_own(rt, seat, committed)?;
            self.stored = Some(committed.entry().version());
        }
        self.owed = None;
        Ok(())
    }

    /// Puts a write that was asked for into the log, under the next version, and hands it to the directory. If the directory refuses it by a
    /// fault, it is owed, and is handed in before the next write.
    ///
    /// `OwnerConflict` if another node writes under the own name; the faults of the directory for what is owed.
    /// Each of these leaves everything as it was, except the seat's last call. Then, with what was owed handed in, the
    /// faults of `WriteLog::put`. With `StoreFailed` the log is closed, and has the write or has it not. With each other one the
    /// log took nothing.
    pub fn put<S: DirectoryTag, H: Wait + Drop, Q: Wait>(
        &mut self,
        rt: &Q,
        directory: &Directory<S, H>,
        seat: &mut ReaderSeat<S>,
        asked: WriteRequest,
    ) -> Result<Stored, Fault>
        ensures stored { IfOk result (λ stored. IsStored S.opening (L.seen self.old.log) seat.old asked.key asked.slot stored
            (L.seen self.new.log) self.new.owed seat.new) }
        ensures version { IfOk result (λ stored. is_version (version_of stored) ≡ true) }
        ensures handed { OnOk result (IsHandedIn S.opening seat.old self.old.owed seat.new) }
        ensures count { IfOk result (λ stored. seat.new.events ≡ seat.old.events + count_owed self.old.owed + count_shared stored) }
        ensures free { IfOk result (λ _. IsUndisputed S.opening seat.old seat.new) }
        ensures refused { IfErr result (λ fault. IsRefused L.seen S.opening self.old.log self.old.owed seat.old asked.key asked.slot
            self.new.log self.new.owed seat.new fault) }
        ensures settled { IsSettled (L.seen self.old.log) (L.leaves self.old.log) → IsSettled (L.seen self.new.log) (L.leaves self.new.log) }
        ensures later { IsLater seat.old seat.new }
        ensures last { IfOk result (λ stored. self.new.stored ≡ Some (version_of stored)) }
        // Where only what was owed is handed in, that is the news.
        ensures news { OnErr result ((self.new.stored ≡ self.old.stored) ⊎ ((self.new.owed ≡ None) × (self.new.stored ≡ news_after self.old.owed self.old.stored))) }
        ensures failed { self.new.has_failed ≡ true → (self.old.has_failed ≡ true) ⊎ (result ≡ Err Fault.StoreFailed) }
        ensures only_full { self.new.was_full ≡ true → (self.old.was_full ≡ true) ⊎ (result ≡ Err Fault.TableFull) }
        // If there is no key left for the write itself, that counts.
        ensures full { IfErr result (λ fault. IsHeldBack S.opening seat.old self.old.owed fault seat.new ⊎ (fault ≡ Fault.TableFull → self.new.was_full ≡ true)) }
        ensures still_full { self.old.was_full ≡ true → self.new.was_full ≡ true }
        ensures closes { (L.seen self.old.log).is_open ≡ true → (L.seen self.new.log).is_open ≡ false → self.new.has_failed ≡ true }
    {
        self.hand_in(rt, directory, seat)?;
        let committed = self.keep(asked)?;
        let version = committed.entry().version();
        match directory.take_own(rt, seat, &committed) {
            Ok(receipt) => Ok(Stored::Shared(receipt)),
            Err(fault) => {
                self.owed = Some(committed);
                Ok(Stored::Owed(version, fault))
            }
        }
    }
}

impl<L: WriteLog> OwnWrites<ClosableLog<L>> {
    /// Closes the log, by this cause. From here on each write is refused by `Closed`.
    pub(crate) fn close_log(&mut self, cause: StoreCause)
        ensures closed { self.new.log.closed_by ≡ Some cause }
        ensures log { self.new.log.log ≡ self.old.log.log }
        ensures same { (self.new.owed ≡ self.old.owed) × (self.new.stored ≡ self.old.stored) × (self.new.has_failed ≡ self.old.has_failed) }
        ensures full { self.new.was_full ≡ self.old.was_full }
    {
        self.log.close_by(cause);
    }
}

/// A log that its node can close although its store did not fail, because a write into it would be lost.
#[derive(Drop)]
pub(crate) struct ClosableLog<L: WriteLog> {
    log: L,
    /// Why the node closed it; none if it did not.
    closed_by: Option<StoreCause>,
}

impl<L: WriteLog> ClosableLog<L> {
    /// The log as it is.
    pub(crate) fn new(log: L) -> ClosableLog<L>
        ensures log { result.log ≡ log }
        ensures open { result.closed_by ≡ None }
    {
        ClosableLog {
            log,
            closed_by: None,
        }
    }

    /// Closes it, by this cause.
    pub(crate) fn close_by(&mut self, cause: StoreCause)
        ensures log { self.new.log ≡ self.old.log }
        ensures closed { self.new.closed_by ≡ Some cause }
    {
        self.closed_by = Some(cause);
    }
}

impl<L: WriteLog> WriteLog for ClosableLog<L> {
    ghost use Rattle.sb_run.specs.Closing as spec;

    ghost seen = { λ l. spec.seen_by (L.seen l.log) l.closed_by };

    ghost leaves = { λ l. L.leaves l.log };

    ghost why = { λ l. spec.why_of (L.why l.log) l.closed_by };

    fn owner(&self) -> &Name {
        self.log.owner()
    }

    fn cluster(&self) -> &Name {
        self.log.cluster()
    }

    fn cause(&self) -> Option<StoreCause> {
        match self.closed_by {
            Some(cause) => Some(cause),
            None => self.log.cause(),
        }
    }

    fn put(&mut self, key: &Key, slot: &Slot) -> Result<Committed, Fault> {
        if self.closed_by.is_some() {
            return Err(Fault::Closed);
        }
        self.log.put(key, slot)
    }

    fn purge(&mut self, floor: u64) -> Result<(), Fault> {
        if self.closed_by.is_some() {
            return Err(Fault::Closed);
        }
        self.log.purge(floor)
    }

    fn load(&mut self, alloc: Global) -> Result<Table, Fault> {
        if self.closed_by.is_some() {
            return Err(Fault::Closed);
        }
        self.log.load(alloc)
    }

    fn close(self) -> Result<(), Fault> {
        let ClosableLog { log, closed_by: _ } = self;
        log.close()
    }
}
