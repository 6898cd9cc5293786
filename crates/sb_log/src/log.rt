//! What a log promises, wherever it keeps its writes.
ghost use Rattle.std.specs.Prelude.{◌≡◌, true, false, Option, None, IsSome, Ok, IfErr};
ghost use Rattle.sb_types.specs.Records as records;
ghost use Rattle.sb_types.specs.Text.{is_name};
ghost use Rattle.sb_log.specs.Records.{Log};
ghost use Rattle.sb_log.specs.declared.cause.StoreCause.{StoreCause};
ghost use Rattle.sb_log.specs.Puts.{Puts, Purges, Loads, IsSure, IsSettled, PutSurvives, PurgeSurvives, LoadSurvives};

use crate::cause::StoreCause;
use crate::committed::Committed;
use sb_table::Table;
use sb_types::{Fault, Key, Name, Slot};
use std::alloc::Global;

/// The writes of one owner, each kept before it is acknowledged.
///
/// A write or a floor that a log refuses is refused before the store is asked. So no fault of the store hides the reason.
pub trait WriteLog {
    /// The log as plain data.
    ghost seen: { Self → Log };

    /// What a crash at this moment may leave as its content.
    ghost leaves: { Self → records.Table → Type 0 };

    /// Why its store failed, once that closed it.
    ghost why: { Self → Option StoreCause };

    /// The owner of the writes.
    fn owner(&self) -> &Name
        ensures { result.now ≡ (seen self.now).owner };

    /// The cluster of the owner.
    fn cluster(&self) -> &Name
        ensures { result.now ≡ (seen self.now).cluster };

    /// Why it is closed: what its store reported when that failed, or `Damaged` if `load` found damage. None if it is open.
    fn cause(&self) -> Option<StoreCause>
        ensures cause { result ≡ why self.now }
        ensures open { (seen self.now).is_open ≡ true → result ≡ None }
        ensures closed { (seen self.now).is_open ≡ false → IsSome result };

    /// Keeps a write under the next version, and returns it with that version. The faults, in this order:
    ///
    /// - `Closed` after a fault of the store.
    /// - `NothingThere` for a removal if the key has no value.
    /// - `TableFull` if the key is new and there are 4,096 keys, removed ones counted.
    /// - `VersionsSpent` if the last version is not below the greatest that this log gives.
    /// - `NoMemory`.
    /// - `StoreFailed`: the log has the write or has it not, and it is closed until it is opened again.
    ///
    /// All but the last leave everything as it was.
    fn put(&mut self, key: &Key, slot: &Slot) -> Result<Committed, Fault>
        ensures puts { Puts (seen self.old) key.now slot.now result (seen self.new) }
        ensures closed { (seen self.old).is_open ≡ false → self.new ≡ self.old }
        ensures crash { PutSurvives (seen self.old) key.now slot.now (seen self.new) (leaves self.new) }
        ensures settled { IsSettled (seen self.new) (leaves self.new) };

    /// Raises the floor. The removals up to it are dropped, and their keys are free again. The last version stays, and the next
    /// write has the version after it. A floor that is not above the present one changes nothing, and is not refused. The faults,
    /// in this order:
    ///
    /// - `Closed` after a fault of the store.
    /// - `FloorTooHigh` if the floor would be above the last version.
    /// - `StoreFailed`: the floor is raised or is not, and the log is closed until it is opened again. Missing memory is such a
    ///   fault, since only the store takes any.
    ///
    /// All but the last leave everything as it was.
    fn purge(&mut self, floor: u64) -> Result<(), Fault>
        ensures purges { Purges (seen self.old) floor result (seen self.new) }
        ensures closed { (seen self.old).is_open ≡ false → self.new ≡ self.old }
        ensures crash { PurgeSurvives (seen self.old) floor (seen self.new) (leaves self.new) }
        ensures settled { IsSettled (seen self.new) (leaves self.new) };

    /// Reads all that it holds from where it is kept, as a table. The faults, in this order:
    ///
    /// - `Closed` after a fault of the store.
    /// - `StoreFailed`, which closes the log.
    /// - `NoMemory`, which leaves everything as it was.
    /// - `LogDamaged` if the store returns other rows than were written. It closes the log.
    fn load(&mut self, alloc: Global) -> Result<Table, Fault>
        ensures loads { Loads (seen self.old) result (seen self.new) }
        ensures closed { (seen self.old).is_open ≡ false → self.new ≡ self.old }
        ensures crash { LoadSurvives (seen self.old) (seen self.new) (leaves self.new) }
        ensures settled { IsSettled (seen self.new) (leaves self.new) };

    /// Ends the log. Nothing is promised of its store afterwards. `StoreFailed` if the store could not be released; a log in memory
    /// always ends.
    fn close(self) -> Result<(), Fault>
        ensures fault { IfErr result (λ fault. fault ≡ Fault.StoreFailed) }
        ensures sure { IsSure (seen self) → result ≡ Ok tt };
}
