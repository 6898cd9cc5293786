//! When the owner's thread of a running node purges the node's own table and log.
ghost use Rattle.std.specs.Prelude.{◌≡◌, ◌⊎◌, true, false, if◌then◌else◌};
ghost use Rattle.sb_log.specs.Puts.{IsSettled};
ghost use Rattle.sb_directory.specs.Serving.{IsLater};
ghost use Rattle.sb_run.specs.OwnPurging.{running_least, counts_now, MayPurge};
ghost use Rattle.sb_run.specs.Turns.{one_more};

use crate::dialer::RoundsTag;
use crate::observer::Observer;
use crate::own_writes::OwnWrites;
use crate::threads::NodeContext;
use sb_directory::ReaderSeat;
use sb_log::WriteLog;
use sb_types::KEYS_MOST;
use std::sync::Wait;

/// With how many removed keys a running node purges at the earliest.
const REMOVALS_LEAST: u64 = 64;

/// With how many removed keys a running node purges, and how many writes came since it counted them.
#[derive(Drop)]
pub(crate) struct PurgeTurns {
    /// 0 for never.
    least: u64,
    writes: u64,
}

impl PurgeTurns {
    /// It purges with as many removed keys as is given, but with no fewer than 64; never if 0 is given.
    pub(crate) fn new(given: u64) -> PurgeTurns
        ensures least { result.least ≡ running_least given }
        ensures writes { result.writes ≡ 0 }
    {
        let least = match given {
            0 => 0,
            given => given.max(REMOVALS_LEAST),
        };
        PurgeTurns { least, writes: 0 }
    }

    /// A request came, which may ask for a write.
    pub(crate) fn note(&mut self, is_put: bool)
        ensures least { self.new.least ≡ self.old.least }
        ensures writes { self.new.writes ≡ (if is_put then one_more self.old.writes else self.old.writes) }
    {
        if is_put {
            self.writes = self.writes.saturating_add(1);
        }
    }

    /// Whether it counts the removed keys now. It does after an eighth as many writes, and if the table is full after each write.
    fn counts_now(&self, is_full: bool) -> bool
        ensures counts { result ≡ counts_now self.now.least self.now.writes is_full }
        ensures never { self.now.least ≡ 0 → result ≡ false }
    {
        self.least > 0 && self.writes > 0 && (is_full || self.writes >= self.least / 8)
    }

    /// Whether it counts the removed keys now. If so, the count of writes begins again.
    fn is_next(&mut self, is_full: bool) -> bool
        ensures least { self.new.least ≡ self.old.least }
        ensures never { self.old.least ≡ 0 → result ≡ false }
        ensures next { result ≡ counts_now self.old.least self.old.writes is_full }
        ensures writes { self.new.writes ≡ (if result then 0 else self.old.writes) }
        ensures again { result ≡ true → self.new.writes ≡ 0 }
        ensures kept { result ≡ false → self.new.writes ≡ self.old.writes }
    {
        let is_next = self.counts_now(is_full);
        if is_next {
            self.writes = 0;
        }
        is_next
    }
}

impl<S: RoundsTag, H: Wait + Drop, Q: Wait> NodeContext<'_, S, H, Q> {
    /// Purges the own table and the log if that is due after a request, and reports it to the observer. Either way what was owed may
    /// be handed in. If the log failed, that is noted as after a write. With a closed log nothing is done.
    pub(crate) fn purge_after<L: WriteLog, O: Observer>(
        &self,
        turns: &mut PurgeTurns,
        writes: &mut OwnWrites<L>,
        seat: &mut ReaderSeat<S>,
        observer: &O,
    )
        ensures purges { MayPurge L.seen S.opening turns.old.least writes.old.log writes.old.owed seat.old writes.new.log writes.new.owed seat.new }
        ensures least { turns.new.least ≡ turns.old.least }
        ensures noted { (turns.new.writes ≡ turns.old.writes) ⊎ (turns.new.writes ≡ 0) }
        ensures later { IsLater seat.old seat.new }
        ensures settled { IsSettled (L.seen writes.old.log) (L.leaves writes.old.log) → IsSettled (L.seen writes.new.log) (L.leaves writes.new.log) }
        ensures closes { (L.seen writes.old.log).is_open ≡ true → (L.seen writes.new.log).is_open ≡ false → writes.new.has_failed ≡ true }
    {
        let is_full = self.directory.key_count(self.rt, seat) >= KEYS_MOST;
        if writes.cause().is_some() || !turns.is_next(is_full) {
            return;
        }
        if let Ok(Some(floor)) = writes.purge(self.rt, self.directory, seat, turns.least) {
            self.counts.add_purge();
            observer.table_purged(floor);
        }
    }
}
