//! A log that is kept in memory alone.
ghost use Rattle.std.specs.Prelude.{◌≡◌, ◌≤◌, Ok, true};
ghost use Rattle.sb_types.specs.Records as records;
ghost use Rattle.sb_log.specs.Puts as spec;

use crate::cause::StoreCause;
use crate::check::accept;
use crate::committed::Committed;
use crate::log::WriteLog;
use sb_table::Table;
use sb_types::{Fault, Key, Name, Slot};
use std::alloc::Global;
use std::marker::Model;

/// A log in memory, which ends with the process. It has no store that could fail. It keeps a table, so that it tests a write by a
/// search, and `load` copies the table. Besides what a log refuses, it reports only `NoMemory`.
#[derive(Debug, Drop)]
pub struct PlainLog {
    owner: Name,
    cluster: Name,
    max_version: u64,
    table: Table,
    alloc: Global,
}

impl Model for PlainLog {
    ghost use Rattle.std.specs.Prelude.{true};
    ghost use Rattle.sb_table.specs.Contents.{IsContent};
    ghost use Rattle.sb_log.specs.Records as records;

    ghost Value = { records.Log };

    ghost view = { λ l. record { owner = l.owner; cluster = l.cluster; most = l.max_version; content = l.table; is_open = true; is_clean = true; is_sure = true } };

    ghost invariant = { λ l. IsContent l.table };
}

impl PlainLog {
    /// An empty log of an owner of a cluster, which gives versions up to `max_version`. It takes no memory.
    pub fn new(alloc: Global, owner: Name, cluster: Name, max_version: u64) -> PlainLog
        ensures { result ≡ spec.new_log owner cluster max_version }
    {
        PlainLog {
            owner,
            cluster,
            max_version,
            table: Table::new(alloc),
            alloc,
        }
    }
}

impl WriteLog for PlainLog {
    ghost use Rattle.std.specs.Prelude.{◌≡◌, None};

    ghost seen = { λ l. l };

    ghost leaves = { λ l left. left ≡ l.content };

    ghost why = { λ _. None };

    fn owner(&self) -> &Name {
        &self.owner
    }

    fn cluster(&self) -> &Name {
        &self.cluster
    }

    fn cause(&self) -> Option<StoreCause> {
        // Does nothing: it shows the prover that the log is open.
        let _ = self.table.upto();
        None
    }

    fn put(&mut self, key: &Key, slot: &Slot) -> Result<Committed, Fault> {
        let entry = match accept(&mut self.table, self.alloc, self.max_version, key, slot) {
            Ok(entry) => entry,
            Err(fault) => return Err(fault),
        };
        Ok(Committed::new(self.owner, entry))
    }

    fn purge(&mut self, floor: u64) -> Result<(), Fault> {
        let (upto, present) = (self.table.upto(), self.table.floor());
        if floor > upto {
            return Err(Fault::FloorTooHigh);
        }
        if floor > present {
            self.table.raise(upto, floor);
        }
        Ok(())
    }

    fn load(&mut self, alloc: Global) -> Result<Table, Fault> {
        self.table.copy(alloc)
    }

    fn close(self) -> Result<(), Fault> {
        Ok(())
    }
}
