//! Databases: in memory alone, and over two disks in memory that can fail a call.
use crate::faulty::{After, Faulty};
use crate::got;
use crate::lent::Lent;
use sb_types::Fault;
use sqlite::{Alter, Connection, Files, Options};
use sqlite_disk::{Disk, Memory};
use std::alloc::Global;
use std::process::Abort;

/// The calls that each file answers before one fails, and what comes after that.
#[derive(Clone, Copy)]
pub struct Calls {
    pub log: u64,
    pub db: u64,
    pub after: After,
}

pub const ENDLESS: Calls = Calls {
    log: u64::MAX,
    db: u64::MAX,
    after: After::Failing,
};

/// Two empty files.
pub fn new_disks(alloc: Global) -> Files<Memory> {
    Files {
        log: Memory::new(alloc),
        db: Memory::new(alloc),
    }
}

/// The disk after its process ended: all that was written is there.
fn left_whole(rt: &impl Abort, alloc: Global, disk: &Memory) -> Memory {
    let mut whole = Memory::new(alloc);
    got(rt, whole.write_at(0, disk.bytes()));
    got(rt, whole.sync());
    whole
}

/// Makes files with the same bytes, all of them synced.
pub fn whole_copy(rt: &impl Abort, alloc: Global, files: &Files<Memory>) -> Files<Memory> {
    Files {
        log: left_whole(rt, alloc, &files.log),
        db: left_whole(rt, alloc, &files.db),
    }
}

/// What is done with a database, over any store.
pub trait DatabaseVisit {
    type Outcome;

    fn visit<S: Alter + Drop>(
        self,
        rt: &impl Abort,
        alloc: Global,
        conn: Connection<S>,
    ) -> Self::Outcome;
}

/// Visits a new database in memory, and returns what comes of it. This is the one place that names its store: a
/// function that names it is slow to prove.
pub fn in_memory<V: DatabaseVisit + Drop>(
    rt: &impl Abort,
    alloc: Global,
    visitor: V,
) -> V::Outcome {
    visitor.visit(rt, alloc, got(rt, Connection::open_in_memory(alloc)))
}

/// Visits a database over both files, and returns what comes of it. `StoreFailed` if it cannot be opened. This is the
/// one place that names the disks.
pub fn on_disks<V: DatabaseVisit + Drop>(
    rt: &impl Abort,
    alloc: Global,
    disks: &mut Files<Memory>,
    calls: Calls,
    visitor: V,
) -> Result<V::Outcome, Fault> {
    let files = Files {
        log: Faulty::new(Lent::new(&mut disks.log), calls.log, calls.after),
        db: Faulty::new(Lent::new(&mut disks.db), calls.db, calls.after),
    };
    on_files(rt, alloc, files, visitor)
}

/// The same over files of any disk.
fn on_files<D: Disk + Drop, V: DatabaseVisit + Drop>(
    rt: &impl Abort,
    alloc: Global,
    files: Files<D>,
    visitor: V,
) -> Result<V::Outcome, Fault> {
    if !files.log.may_be_used() {
        return Err(Fault::StoreFailed);
    }
    if !files.db.may_be_used() {
        return Err(Fault::StoreFailed);
    }
    // Each page of these databases has room, and a large cache takes long to make.
    let options = Options {
        cache_pages: 20,
        ..Options::new(7)
    };
    match Connection::open_files(alloc, files, options).ok() {
        Some(conn) => Ok(visitor.visit(rt, alloc, conn)),
        None => Err(Fault::StoreFailed),
    }
}
