//! How a thread that answers over HTTP waits until the rows that are asked for are others than those that were seen.
ghost use Rattle.std.specs.Prelude.{◌≡◌, IfErr, IfOk};
ghost use Rattle.sb_directory.specs.Serving.{IsLater};
ghost use Rattle.sb_run.specs.Control.{IsLookedUp};
ghost use Rattle.sb_run.specs.HttpMarks as spec;
ghost use Rattle.sb_run.specs.HttpReads.{IsPolled};

use crate::accepting::deadline_after;
use crate::control::look_up;
use crate::dialer::{RoundsTag, has_come};
use crate::http_caller::HttpCaller;
use crate::threads::NodeContext;
use sb_codec::Ask;
use sb_directory::{DirectoryWatch, EnteredSeat, ReaderSeat};
use sb_http::{MarkedReply, Patience};
use sb_types::{Fault, Key};
use sb_views::{LiveRows, Snapshot};
use sb_watch::Filter;
use std::alloc::Global;
use std::hash::{BuildHasher, Hasher, RandomState};
use std::sync::Wait;
use std::thread;
use std::time::{Clock, Duration, Instant};

/// After how long a poll that waits looks whether something changed, and whether its caller is still there, in milliseconds.
const CHANGE_PAUSE: u64 = 5;

/// How many notes the watch of a poll has room for: one says that something changed.
const NOTES_OF_ONE: usize = 1;

/// How long a poll waits: until this moment at most, and while its caller is there.
#[derive(Drop)]
struct PollWait<'c> {
    until: Option<Instant>,
    caller: &'c HttpCaller,
}

/// The hash of the owner, the key and the version of each row.
fn hash_of(keys: RandomState, rows: LiveRows<'_>) -> u64
    ensures { result ≡ spec.hash_of keys rows.entry }
{
    let mut hasher = keys.build_hasher();
    for row in rows {
        hasher.write(row.owner.bytes());
        hasher.write_u8(b' ');
        hasher.write(row.key.bytes());
        hasher.write_u8(b' ');
        hasher.write_u64(row.live.version());
    }
    hasher.finish()
}

/// The mark of all rows that are asked for, by keys of this run. So in another run the same rows have another mark. `NoMemory`.
fn mark_of(
    alloc: Global,
    keys: RandomState,
    snapshot: &Snapshot<'_>,
    ask: &Ask,
) -> Result<Key, Fault>
    ensures mark { IfOk result (λ mark. mark ≡ spec.mark_of keys ask.now snapshot.now) }
    ensures memory { IfErr result (λ fault. fault ≡ Fault.NoMemory) }
{
    let hash = hash_of(keys, snapshot.rows(ask.owner, ask.prefix));
    let text = format!(in alloc; "{hash}")?;
    match Key::read(text.as_bytes()) {
        Ok(mark) => Ok(mark),
        // Digits are a key, so this does not come.
        Err(_) => Err(Fault::NoMemory),
    }
}

/// Whether rows were found, and they are those of this mark.
fn shows(found: &Result<MarkedReply, Fault>, seen: Key) -> bool {
    match found {
        Ok(found) => found.mark == seen,
        Err(_) => false,
    }
}

impl<S: RoundsTag, H: Wait + Drop, Q: Wait + Clock> NodeContext<'_, S, H, Q> {
    /// The page of the snapshot that a seat has entered, with the mark of the same snapshot. `NoMemory`.
    fn look(
        &self,
        keys: RandomState,
        entered: &EnteredSeat<S>,
        ask: &Ask,
    ) -> Result<MarkedReply, Fault>
        ensures page { IfOk result (λ found. IsLookedUp S.opening S.settings.budget entered.now.seen ask.now found.reply) }
        ensures mark { IfOk result (λ found. spec.IsMark S.opening keys entered.now.seen ask.now found.mark) }
        ensures memory { IfErr result (λ fault. fault ≡ Fault.NoMemory) }
    {
        let mark = mark_of(self.alloc, keys, &entered.snapshot(), ask)?;
        let reply = look_up(self.alloc, self.directory.settings(), entered, ask);
        Ok(MarkedReply { reply, mark })
    }

    /// The same from a seat. `NoMemory`, also if it cannot enter.
    fn look_from_seat(
        &self,
        keys: RandomState,
        seat: ReaderSeat<S>,
        ask: &Ask,
    ) -> (ReaderSeat<S>, Result<MarkedReply, Fault>)
        ensures polled { IfOk result.1 (λ found. IsPolled S.opening S.settings.budget keys seat ask.now result.0 found.reply found.mark) }
        ensures later { IsLater seat result.0 }
        ensures memory { IfErr result.1 (λ fault. fault ≡ Fault.NoMemory) }
    {
        match seat.enter() {
            Ok(entered) => {
                let found = self.look(keys, &entered, ask);
                (entered.leave(), found)
            }
            Err(seat) => (seat, Err(Fault::NoMemory)),
        }
    }

    /// Whether a poll waits no longer: its time is over, the node is to end, or its caller has left.
    fn has_waited(&self, wait: &PollWait<'_>) -> bool {
        let until = wait.until;
        until.is_none()
            || has_come(self.rt, until)
            || self.ending.is_raised()
            || wait.caller.has_left()
    }

    /// Waits until something changed that a watch is for, or until the poll waits no longer.
    fn await_change(&self, watch: &DirectoryWatch<S>, wait: &PollWait<'_>) {
        for _ in self.rt.forever() {
            if self.has_waited(wait) {
                return;
            }
            // What has no memory to be published is waited for.
            match self.directory.has_note(self.rt, watch) {
                Ok(false) | Err(Fault::NoMemory) => {}
                _ => return,
            }
            thread::sleep(self.rt, Duration::from_millis(CHANGE_PAUSE));
        }
    }

    /// Looks from a seat. If these are the rows that were seen, it then waits until one of them changes, or until the poll waits no
    /// longer. The faults of `watch`; `NoMemory`, also if the seat cannot enter.
    fn look_and_wait(
        &self,
        keys: RandomState,
        seat: ReaderSeat<S>,
        ask: &Ask,
        seen: Key,
        wait: &PollWait<'_>,
    ) -> (ReaderSeat<S>, Result<MarkedReply, Fault>)
        ensures polled { IfOk result.1 (λ found. IsPolled S.opening S.settings.budget keys seat ask.now result.0 found.reply found.mark) }
        ensures later { IsLater seat result.0 }
    {
        let filter = Filter {
            owner: ask.owner,
            prefix: ask.prefix,
        };
        // The watch is older than the look, so a change after the look ends the wait.
        let watch = match self.directory.watch(self.rt, filter, NOTES_OF_ONE) {
            Ok(watch) => watch,
            Err(fault) => return (seat, Err(fault)),
        };
        let (seat, found) = self.look_from_seat(keys, seat, ask);
        if shows(&found, seen) {
            self.await_change(&watch, wait);
        }
        let _ = self.directory.unwatch(self.rt, &watch);
        (seat, found)
    }

    /// Looks after each change, until the rows are others than those that were seen, or until the poll waits no longer.
    fn look_until(
        &self,
        keys: RandomState,
        seat: ReaderSeat<S>,
        ask: &Ask,
        seen: Key,
        wait: &PollWait<'_>,
    ) -> (ReaderSeat<S>, Result<MarkedReply, Fault>)
        ensures polled { IfOk result.1 (λ found. IsPolled S.opening S.settings.budget keys seat ask.now result.0 found.reply found.mark) }
        ensures later { IsLater seat result.0 }
    {
        let mut current = seat;
        for _ in self.rt.forever() {
            let (next, found) = self.look_and_wait(keys, current, ask, seen, wait);
            if !shows(&found, seen) || self.has_waited(wait) {
                return (next, found);
            }
            current = next;
        }
        unreachable!()
    }

    /// Answers a poll of this caller, with marks by these keys. One without a mark, or without time, looks once. If the caller leaves,
    /// the poll gives its place back, and its answer is the last page. Its faults, in this order:
    ///
    /// - `TurnsSpent` if too many wait.
    /// - The faults of `watch`.
    /// - `NoMemory`, also if the seat cannot enter.
    pub(crate) fn poll(
        &self,
        keys: RandomState,
        seat: ReaderSeat<S>,
        ask: &Ask,
        patience: &Patience,
        caller: &HttpCaller,
    ) -> (ReaderSeat<S>, Result<MarkedReply, Fault>)
        ensures polled { IfOk result.1 (λ found. IsPolled S.opening S.settings.budget keys seat ask.now result.0 found.reply found.mark) }
        ensures later { IsLater seat result.0 }
    {
        let wait = PollWait {
            until: deadline_after(self.rt, patience.seconds.saturating_mul(1_000)),
            caller,
        };
        match patience.seen {
            Some(seen) if patience.seconds > 0 => {
                if !self.desk.take_poll() {
                    return (seat, Err(Fault::TurnsSpent));
                }
                let (seat, found) = self.look_until(keys, seat, ask, seen, &wait);
                self.desk.leave_poll();
                (seat, found)
            }
            _ => self.look_from_seat(keys, seat, ask),
        }
    }
}
