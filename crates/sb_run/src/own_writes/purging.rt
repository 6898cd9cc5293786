//! A purge of a node's own table, and of its log.
ghost use Rattle.std.specs.Prelude.{◌≡◌, ◌⊎◌, true, false, None, Err, IfOk, IfErr, OnOk};
ghost use Rattle.sb_log.specs.Puts.{Purges, IsSettled};
ghost use Rattle.sb_directory.specs.Serving.{IsLater};
ghost use Rattle.sb_run.specs.OwnWriting.{news_after};
ghost use Rattle.sb_run.specs.OwnPurging.{IsPurge, IsLogPurged, IsUnpurged};

use crate::own_writes::OwnWrites;
use sb_directory::{Directory, DirectoryTag, ReaderSeat};
use sb_log::WriteLog;
use sb_types::Fault;
use std::sync::Wait;

impl<L: WriteLog> OwnWrites<L> {
    /// Asks the log to drop its tombstones up to a version, and takes down whether its store failed.
    fn purge_log(&mut self, floor: u64) -> Result<(), Fault>
        ensures purges { Purges (L.seen self.old.log) floor result (L.seen self.new.log) }
        ensures settled { IsSettled (L.seen self.new.log) (L.leaves self.new.log) }
        ensures same { (self.new.owed ≡ self.old.owed) × (self.new.stored ≡ self.old.stored) }
        ensures full { self.new.was_full ≡ self.old.was_full }
        ensures failed { self.new.has_failed ≡ true → (self.old.has_failed ≡ true) ⊎ (result ≡ Err Fault.StoreFailed) }
        ensures closes { (L.seen self.old.log).is_open ≡ true → (L.seen self.new.log).is_open ≡ false → self.new.has_failed ≡ true }
    {
        let purged = self.log.purge(floor);
        if let Err(Fault::StoreFailed) = &purged {
            self.has_failed = true;
        }
        purged
    }

    /// Hands in what is owed, and purges the own table if that is due by [`Directory::purge`]. Then it asks the log to drop
    /// its tombstones up to the same version. It returns that version, or `None` if no purge is due.
    ///
    /// `OwnerConflict` if another node writes under the own name; the faults of the directory for what is owed. Each of these
    /// leaves everything as it was, except the seat's last call. Then, with what was owed handed in, the faults of the directory
    /// for the purge. Then the faults of `WriteLog::purge`, with the own table purged. With `StoreFailed` the log is closed, and
    /// its floor is raised or is not.
    pub fn purge<S: DirectoryTag, H: Wait + Drop, Q: Wait>(
        &mut self,
        rt: &Q,
        directory: &Directory<S, H>,
        seat: &mut ReaderSeat<S>,
        least: u64,
    ) -> Result<Option<u64>, Fault>
        ensures purges { IfOk result (λ floor. IsPurge S.opening least seat.old self.old.owed floor seat.new) }
        ensures log { IfOk result (λ floor. IsLogPurged L.seen self.old.log floor self.new.log) }
        ensures owed { OnOk result (self.new.owed ≡ None) }
        ensures refused { IfErr result (λ fault. IsUnpurged L.seen S.opening least self.old.log self.old.owed seat.old
            self.new.log self.new.owed seat.new fault) }
        ensures settled { IsSettled (L.seen self.old.log) (L.leaves self.old.log) → IsSettled (L.seen self.new.log) (L.leaves self.new.log) }
        ensures later { IsLater seat.old seat.new }
        // What was owed and is handed in is news.
        ensures news { (self.new.stored ≡ self.old.stored) ⊎ ((self.new.owed ≡ None) × (self.new.stored ≡ news_after self.old.owed self.old.stored)) }
        ensures failed { self.new.has_failed ≡ true → (self.old.has_failed ≡ true) ⊎ (result ≡ Err Fault.StoreFailed) }
        ensures full { self.new.was_full ≡ self.old.was_full }
        ensures closes { (L.seen self.old.log).is_open ≡ true → (L.seen self.new.log).is_open ≡ false → self.new.has_failed ≡ true }
    {
        self.hand_in(rt, directory, seat)?;
        let Some(purge) = directory.purge(rt, seat, least)? else {
            return Ok(None);
        };
        self.purge_log(purge.floor)?;
        Ok(Some(purge.floor))
    }
}
