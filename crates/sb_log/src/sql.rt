//! A log that is kept in a database.
ghost use Rattle.std.specs.Prelude.{◌≡◌, ◌≢◌, ◌≤◌, ◌⊎◌, false, Ok, IfOk, IfErr, OnOk};
ghost use Rattle.sqlite_trees.specs.Tree.{Trees};
ghost use Rattle.sqlite_trees.specs.View.{doubt};
ghost use Rattle.sqlite.specs.Held.{state};
ghost use Rattle.sqlite.specs.State.{HasCleanDisk};
ghost use Rattle.sb_types.specs.Records as records;
ghost use Rattle.sb_log.specs.Cause.{fault_of};
ghost use Rattle.sb_log.specs.Opening.{Opens, NamesAnother, SaysStill, Completes, Founds, IsWant, IsOpeningFault, IsOpenedAs};
ghost use Rattle.sb_log.specs.Puts.{Begins, BeginSurvives, Purges, PurgeSurvives, IsSettled, IsSure};
ghost use Rattle.sb_log.specs.Sql.{log_in};
ghost use Rattle.sb_log.specs.Standing.{HoldsContent, MayLeave};

use crate::cause::{LogError, StoreCause};
use crate::check::accept;
use crate::committed::Committed;
use crate::content::read_content;
use crate::log::WriteLog;
use crate::opening::open_tables;
use crate::purging::{begin_after, raise_floor};
use crate::statements::write_entry;
use sb_table::Table;
use sb_types::{Fault, Key, Name, Slot, VERSION_MOST};
use sqlite::{Alter, Connection};
use std::alloc::Global;
use std::marker::Model;

/// A log in a database: each key's last write is a row of it, and a write is one statement that commits by itself. A purge runs
/// two: one writes the floor, and the other deletes the rows of removals. The log keeps the same writes in memory too, so it tests
/// a write or a floor without reading.
///
/// What is proved of it is proved of what the connection shows. That a file holds this is the promise of `sqlite`. What a crash
/// leaves is what an opening finds afterwards: the tables, the row of `meta` and the rows of writes, not the rows alone.
///
/// ```rust
/// /// Writes a flag in the log that a database keeps, and gives the version of the write. An empty database gets a new log.
/// fn put_in_database<S: Alter + Drop>(alloc: Global, conn: Connection<S>) -> Result<u64, Fault> {
///     let (owner, cluster) = (Name::read(b"a")?, Name::read(b"c1")?);
///     let mut log = match SqlLog::open(alloc, conn, owner, cluster, VERSION_MOST) {
///         Ok(log) => log,
///         Err((error, _)) => return Err(error.fault()),
///     };
///     let committed = log.put(&Key::read(b"web/up")?, &Slot::Set(Value::flag(true)))?;
///     let version = committed.entry().version();
///     log.close()?;
///     Ok(version)
/// }
/// ```
///
/// `Connection::open(rt, "a.log")` of `sqlite` gives a connection to a file.
#[derive(Drop)]
pub struct SqlLog<S: Alter> {
    owner: Name,
    cluster: Name,
    max_version: u64,
    conn: Connection<S>,
    // What the rows hold, while the log is open.
    table: Table,
    is_open: bool,
    // Why the store failed, once that closed the log.
    cause: Option<StoreCause>,
    alloc: Global,
}

impl<S: Alter> Model for SqlLog<S> {
    ghost use Rattle.std.specs.Prelude.{◌≤◌};
    ghost use Rattle.sb_types.specs.declared.limits.TheConstants.{VERSION_MOST};
    ghost use Rattle.sb_table.specs.Contents.{IsContent};
    ghost use Rattle.sb_log.specs.Cause.{IsCausedBy};
    ghost use Rattle.sb_log.specs.Sql.{SqlView, sql_code};
    ghost use Rattle.sb_log.specs.Standing.{IsKept};

    ghost Value = { SqlView S };

    ghost coded = { sql_code S.code };

    ghost view = { λ l. record { owner = l.owner; cluster = l.cluster; most = l.max_version; is_open = l.is_open; cause = l.cause; conn = l.conn } };

    ghost invariant = { λ l. IsKept S.Store l.owner l.cluster l.conn l.table l.is_open × (l.max_version ≤ VERSION_MOST) × IsContent l.table × (l.table.held ≤ VERSION_MOST)
        × IsCausedBy l.is_open l.cause };
}

impl<S: Alter + Drop> SqlLog<S> {
    /// Opens the log of an owner of a cluster. If the database has no tables, it makes a log. If the database has the first table
    /// or both, and no rows, it completes the log. The log gives versions up to `max_version`, and none above 2^40 - 1: an opening
    /// takes a later version for damage.
    ///
    /// The faults, in this order:
    ///
    /// - `StoreFailed` inside a transaction.
    /// - `LogDamaged` if there are other tables than a log's, or if a row says whose the log is and the table of writes is missing.
    /// - `LogDamaged` if there are two such rows, or if there is none beside rows of writes, or if its form is unknown.
    /// - `WrongOwner` if the log is another owner's, or of another cluster.
    /// - `LogDamaged` if the last version or the floor is no number.
    /// - `LogDamaged` if a row breaks a limit, if two rows have one rowid, key or version, or if there are more than 4,096 rows.
    /// - `LogDamaged` if a log of form 1 has a text.
    /// - `LogDamaged` if the floor is above the last version.
    /// - `LogDamaged` if the last version is above 2^40 - 1, or above both the floor and the version of the last row.
    ///
    /// `StoreFailed` also comes, with its cause, at the first statement that fails, and `NoMemory` where memory is missing. After
    /// these tests a log of form 1 becomes one of form 2. Then the rows of removals up to the floor are deleted, which a crash may
    /// have left: they are not part of the content.
    ///
    /// A refusal returns the connection. The database is then as it was, except that missing tables may have been made. However the
    /// opening ends, nothing else that was there is lost.
    pub fn open(
        alloc: Global,
        conn: Connection<S>,
        owner: Name,
        cluster: Name,
        max_version: u64,
    ) -> Result<SqlLog<S>, (LogError, Connection<S>)>
        ensures log { IfOk result (λ l. IsOpenedAs owner cluster max_version (log_in S.Store l)) }
        ensures clean { IfOk result (λ l. doubt (state S.Store conn).is_clean ≤ doubt (state S.Store l.conn).is_clean) }
        ensures found { IfOk result (λ l. HasCleanDisk (state S.Store l.conn) → Opens owner cluster (state S.Store conn).now (log_in S.Store l).content) }
        // The tables hold that content, in form 2, and no row of a removal up to the floor.
        ensures rows { IfOk result (λ l. HasCleanDisk (state S.Store l.conn)
            → HoldsContent owner cluster (log_in S.Store l).content (log_in S.Store l).content.entries (state S.Store l.conn).now.trees) }
        ensures still { IfOk result (λ l. HasCleanDisk (state S.Store l.conn) → SaysStill owner cluster (state S.Store conn).now (state S.Store l.conn).now.trees) }
        ensures settled { IfOk result (λ l. IsSettled (log_in S.Store l) (MayLeave S.Store owner cluster l.conn)) }
        ensures whole { (t : records.Table) → Opens owner cluster (state S.Store conn).now t
            → IfErr result (λ refused. HasCleanDisk (state S.Store refused.1) → IsWant refused.0) }
        ensures others { IfErr result (λ refused. HasCleanDisk (state S.Store refused.1) → fault_of refused.0 ≡ Fault.WrongOwner
            → NamesAnother owner cluster (state S.Store conn).now) }
        ensures theirs { NamesAnother owner cluster (state S.Store conn).now
            → IfErr result (λ refused. HasCleanDisk (state S.Store refused.1) → (fault_of refused.0 ≡ Fault.WrongOwner) ⊎ IsWant refused.0) }
        ensures refused { IfErr result (λ refused. HasCleanDisk (state S.Store refused.1) → fault_of refused.0 ≢ Fault.StoreFailed
            → ((state S.Store refused.1).now ≡ (state S.Store conn).now) ⊎ Completes (state S.Store conn).now (state S.Store refused.1).now) }
        ensures crash { IfErr result (λ refused. HasCleanDisk (state S.Store refused.1) → (db : Trees) → (state S.Store refused.1).may_leave db
            → (state S.Store conn).may_leave db ⊎ Founds owner cluster (state S.Store conn).now db) }
        ensures fault { IfErr result (λ refused. IsOpeningFault refused.0) }
    {
        let mut conn = conn;
        let table = match open_tables(&mut conn, alloc, &owner, &cluster) {
            Ok(table) => table,
            Err(error) => return Err((error, conn)),
        };
        let max_version = max_version.min(VERSION_MOST);
        Ok(SqlLog {
            owner,
            cluster,
            max_version,
            conn,
            table,
            is_open: true,
            cause: None,
            alloc,
        })
    }

    /// Makes an empty log begin after a version, 1 to 2^40 - 1. It then holds nothing up to there. So does the log of an owner
    /// who wrote that often, removed each key and purged up to that version. So a name whose log is lost goes on, or ends. The next
    /// write has the version after it. The faults, in this order:
    ///
    /// - `Closed` after a fault of the store.
    /// - `BadSetting` for any other version.
    /// - `OutOfTurn`, with the version of the next write, if the log has writes or began so before.
    /// - `StoreFailed`: the log begins there or is still empty, and it is closed until it is opened again.
    ///
    /// All but the last leave everything as it was.
    pub fn begin(&mut self, after: u64) -> Result<(), Fault>
        ensures begins { Begins (log_in S.Store self.old) after result (log_in S.Store self.new) }
        ensures closed { self.old.is_open ≡ false → self.new ≡ self.old }
        ensures crash { BeginSurvives (log_in S.Store self.old) after (log_in S.Store self.new) (MayLeave S.Store self.new.owner self.new.cluster self.new.conn) }
        ensures settled { IsSettled (log_in S.Store self.new) (MayLeave S.Store self.new.owner self.new.cluster self.new.conn) }
    {
        if !self.is_open {
            return Err(Fault::Closed);
        }
        if after == 0 || after > VERSION_MOST {
            return Err(Fault::BadSetting);
        }
        let upto = self.table.upto();
        if upto > 0 {
            return Err(Fault::OutOfTurn(upto + 1));
        }
        match begin_after(&mut self.conn, after) {
            Ok(()) => {
                self.table.raise(after, after);
                Ok(())
            }
            Err(cause) => {
                self.is_open = false;
                self.cause = Some(cause);
                Err(Fault::StoreFailed)
            }
        }
    }
}

impl<S: Alter + Drop> WriteLog for SqlLog<S> {
    ghost seen = { λ l. log_in S.Store l };

    ghost leaves = { λ l left. MayLeave S.Store l.owner l.cluster l.conn left };

    ghost why = { λ l. l.cause };

    fn owner(&self) -> &Name {
        &self.owner
    }

    fn cluster(&self) -> &Name {
        &self.cluster
    }

    fn cause(&self) -> Option<StoreCause> {
        self.cause
    }

    fn put(&mut self, key: &Key, slot: &Slot) -> Result<Committed, Fault> {
        if !self.is_open {
            return Err(Fault::Closed);
        }
        let entry = match accept(&mut self.table, self.alloc, self.max_version, key, slot) {
            Ok(entry) => entry,
            Err(fault) => return Err(fault),
        };
        match write_entry(&mut self.conn, &entry) {
            Ok(()) => Ok(Committed::new(self.owner, entry)),
            Err(cause) => {
                drop(entry);
                self.is_open = false;
                self.cause = Some(cause);
                Err(Fault::StoreFailed)
            }
        }
    }

    fn purge(&mut self, floor: u64) -> Result<(), Fault>
        ensures purges { Purges (log_in S.Store self.old) floor result (log_in S.Store self.new) }
        ensures closed { self.old.is_open ≡ false → self.new ≡ self.old }
        ensures crash { PurgeSurvives (log_in S.Store self.old) floor (log_in S.Store self.new) (MayLeave S.Store self.new.owner self.new.cluster self.new.conn) }
        ensures settled { IsSettled (log_in S.Store self.new) (MayLeave S.Store self.new.owner self.new.cluster self.new.conn) }
        // No removal up to the floor has a row.
        ensures rows { HasCleanDisk (state S.Store self.new.conn) → OnOk result
            (HoldsContent self.new.owner self.new.cluster (log_in S.Store self.new).content (log_in S.Store self.new).content.entries (state S.Store self.new.conn).now.trees) }
    {
        if !self.is_open {
            return Err(Fault::Closed);
        }
        let (upto, present) = (self.table.upto(), self.table.floor());
        if floor > upto {
            return Err(Fault::FloorTooHigh);
        }
        if floor <= present {
            return Ok(());
        }
        match raise_floor(&mut self.conn, upto, floor) {
            Ok(()) => {
                self.table.raise(upto, floor);
                Ok(())
            }
            Err(cause) => {
                self.is_open = false;
                self.cause = Some(cause);
                Err(Fault::StoreFailed)
            }
        }
    }

    fn load(&mut self, alloc: Global) -> Result<Table, Fault> {
        if !self.is_open {
            return Err(Fault::Closed);
        }
        let (last, floor) = (self.table.upto(), self.table.floor());
        match read_content(&mut self.conn, alloc, last, floor) {
            Ok(table) => Ok(table),
            Err(LogError::Store(cause)) => {
                self.is_open = false;
                self.cause = Some(cause);
                Err(Fault::StoreFailed)
            }
            Err(LogError::Fault(Fault::LogDamaged)) => {
                self.is_open = false;
                self.cause = Some(StoreCause::Damaged);
                Err(Fault::LogDamaged)
            }
            Err(LogError::Fault(_)) => Err(Fault::NoMemory),
        }
    }

    fn close(self) -> Result<(), Fault>
        ensures fault { IfErr result (λ fault. fault ≡ Fault.StoreFailed) }
        ensures sure { IsSure (log_in S.Store self) → result ≡ Ok tt }
        ensures always { result ≡ Ok tt }
    {
        drop(self);
        Ok(())
    }
}
