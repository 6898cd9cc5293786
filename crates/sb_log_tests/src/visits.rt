//! Opens a log in a database, in memory alone or over two disks, and does something with it there.
use crate::disks::{Calls, DatabaseVisit, ENDLESS, in_memory, on_disks};
use crate::writes::{CLUSTER, OWNER, Reach, name, reach};
use crate::{got, same};
use sb_log::{SqlLog, WriteLog};
use sb_types::Fault;
use sqlite::{Alter, Connection, Error, Files};
use sqlite_disk::Memory;
use sqlite_value::value::ValueRef;
use std::alloc::Global;
use std::process::Abort;

/// How a database is opened as a log: its owner, its greatest version, and the statements that run in it before. The
/// log can also begin after a version.
#[derive(Clone, Copy)]
pub struct Opening<'a> {
    pub owner: &'a [u8],
    pub max_version: u64,
    pub statements: &'a [&'a str],
    pub begin: Option<u64>,
}

pub const OWN: Opening<'static> = Opening {
    owner: OWNER,
    max_version: 9,
    statements: &[],
    begin: None,
};

/// What is done with an open log, wherever it keeps its writes.
pub trait LogVisit {
    type Outcome;

    fn visit<L: WriteLog + Drop>(self, rt: &impl Abort, alloc: Global, log: L) -> Self::Outcome;
}

/// A visit to a log that does nothing but open it.
#[derive(Drop)]
pub struct Looking;

impl LogVisit for Looking {
    type Outcome = ();

    fn visit<L: WriteLog + Drop>(self, _: &impl Abort, _: Global, _log: L) {}
}

/// What a log holds.
#[derive(Drop)]
pub struct Reaching;

impl LogVisit for Reaching {
    type Outcome = Reach;

    fn visit<L: WriteLog + Drop>(self, rt: &impl Abort, alloc: Global, mut log: L) -> Reach {
        reach(rt, alloc, &mut log)
    }
}

// It has no clause, so that the proof of a test does not contain the state of each call.
fn run<S: Alter>(conn: &mut Connection<S>, sql: &str) -> Result<usize, Error> {
    conn.execute(sql, &[])
}

fn run_each<S: Alter>(rt: &impl Abort, conn: &mut Connection<S>, statements: &[&str]) {
    for sql in statements {
        got(rt, run(conn, sql));
    }
}

/// Begins a log after a version, if one is given, and visits it. If the store fails at that, the log takes no other
/// call.
fn begin_and_visit<S: Alter + Drop, V: LogVisit + Drop>(
    rt: &impl Abort,
    alloc: Global,
    mut log: SqlLog<S>,
    begin: Option<u64>,
    visitor: V,
) -> Result<V::Outcome, Fault> {
    let Some(after) = begin else {
        return Ok(visitor.visit(rt, alloc, log));
    };
    match log.begin(after) {
        Ok(()) => Ok(visitor.visit(rt, alloc, log)),
        Err(fault) => {
            if fault == Fault::StoreFailed {
                same(rt, &log.begin(after), &Err(Fault::Closed));
            }
            Err(fault)
        }
    }
}

/// Opens a database as a log. This is the one place that has a log in a database, and that drops what a refused opening
/// returns.
fn open<S: Alter + Drop, V: LogVisit + Drop>(
    rt: &impl Abort,
    alloc: Global,
    conn: Connection<S>,
    opening: Opening<'_>,
    visitor: V,
) -> Result<V::Outcome, Fault> {
    let owner = name(rt, opening.owner);
    match SqlLog::open(alloc, conn, owner, name(rt, CLUSTER), opening.max_version) {
        Ok(log) => begin_and_visit(rt, alloc, log, opening.begin, visitor),
        Err((error, _)) => Err(error.fault()),
    }
}

/// Runs statements, opens a log, begins it after a version if one is given, and visits it.
#[derive(Drop)]
struct Visiting<'a, V> {
    opening: Opening<'a>,
    visitor: V,
}

impl<V: LogVisit + Drop> DatabaseVisit for Visiting<'_, V> {
    type Outcome = Result<V::Outcome, Fault>;

    fn visit<S: Alter + Drop>(
        self,
        rt: &impl Abort,
        alloc: Global,
        mut conn: Connection<S>,
    ) -> Result<V::Outcome, Fault> {
        let Visiting { opening, visitor } = self;
        run_each(rt, &mut conn, opening.statements);
        open(rt, alloc, conn, opening, visitor)
    }
}

/// Visits a log in memory. Returns what comes of that, or the fault of the opening.
pub fn log_in_memory<V: LogVisit + Drop>(
    rt: &impl Abort,
    alloc: Global,
    opening: Opening<'_>,
    visitor: V,
) -> Result<V::Outcome, Fault> {
    in_memory(rt, alloc, Visiting { opening, visitor })
}

/// Visits a log on disks that can fail a call. Returns what comes of that, or the fault of the opening.
pub fn log_on_disks<V: LogVisit + Drop>(
    rt: &impl Abort,
    alloc: Global,
    disks: &mut Files<Memory>,
    calls: Calls,
    opening: Opening<'_>,
    visitor: V,
) -> Result<V::Outcome, Fault> {
    match on_disks(rt, alloc, disks, calls, Visiting { opening, visitor }) {
        Ok(outcome) => outcome,
        Err(fault) => Err(fault),
    }
}

/// The number of the fault of an opening, or 0 if it opens. Missing memory ends the test.
pub fn number_of(rt: &impl Abort, opened: Result<(), Fault>) -> u8 {
    match opened {
        Ok(()) => 0,
        Err(Fault::NoMemory) => panic!(rt; "error: NoMemory"),
        Err(fault) => fault.number(),
    }
}

/// Runs a statement.
#[derive(Drop)]
struct Running<'a> {
    sql: &'a str,
}

impl DatabaseVisit for Running<'_> {
    type Outcome = ();

    fn visit<S: Alter + Drop>(self, rt: &impl Abort, _: Global, mut conn: Connection<S>) {
        got(rt, run(&mut conn, self.sql));
    }
}

/// Runs a statement in a database over disks.
pub fn run_on_disks(rt: &impl Abort, alloc: Global, disks: &mut Files<Memory>, sql: &str) {
    got(rt, on_disks(rt, alloc, disks, ENDLESS, Running { sql }));
}

fn number_by<S: Alter>(rt: &impl Abort, conn: &mut Connection<S>, sql: &str) -> i64 {
    let row = got(rt, conn.query_row(sql, &[]));
    match row.get_ref(0) {
        Ok(ValueRef::Int(number)) => number,
        _ => -1,
    }
}

/// Asks for a number.
#[derive(Drop)]
struct Asking<'a> {
    sql: &'a str,
}

impl DatabaseVisit for Asking<'_> {
    type Outcome = i64;

    fn visit<S: Alter + Drop>(self, rt: &impl Abort, _: Global, mut conn: Connection<S>) -> i64 {
        number_by(rt, &mut conn, self.sql)
    }
}

/// How many rows of writes a database over disks has.
pub fn rows_on_disks(rt: &impl Abort, alloc: Global, disks: &mut Files<Memory>) -> i64 {
    let asking = Asking {
        sql: "SELECT count(*) FROM writes",
    };
    got(rt, on_disks(rt, alloc, disks, ENDLESS, asking))
}

/// The last version and the floor of a log over disks.
pub fn numbers_on_disks(rt: &impl Abort, alloc: Global, disks: &mut Files<Memory>) -> (i64, i64) {
    let last = Asking {
        sql: "SELECT last FROM meta",
    };
    let floor = Asking {
        sql: "SELECT floor FROM meta",
    };
    let last = got(rt, on_disks(rt, alloc, disks, ENDLESS, last));
    (last, got(rt, on_disks(rt, alloc, disks, ENDLESS, floor)))
}

/// The form of a log over disks.
pub fn form_on_disks(rt: &impl Abort, alloc: Global, disks: &mut Files<Memory>) -> i64 {
    let asking = Asking {
        sql: "SELECT form FROM meta",
    };
    got(rt, on_disks(rt, alloc, disks, ENDLESS, asking))
}
