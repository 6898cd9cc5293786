//! The examples in the docs of the owner's log.
use crate::disks::{DatabaseVisit, ENDLESS, new_disks, on_disks};
use crate::{got, same};
use sb_log::{PlainLog, SqlLog, WriteLog};
use sb_types::{Fault, Key, Name, Slot, VERSION_MOST, Value};
use sqlite::{Alter, Connection};
use std::alloc::Global;
use std::process::Abort;

/// The version of the first write in the log of `a`.
fn put_flag(alloc: Global) -> Result<u64, Fault> {
    let (owner, cluster) = (Name::read(b"a")?, Name::read(b"c1")?);
    let mut log = PlainLog::new(alloc, owner, cluster, VERSION_MOST);
    let committed = log.put(&Key::read(b"web/up")?, &Slot::Set(Value::flag(true)))?;
    Ok(committed.entry().version())
}

#[test]
fn example_of_sb_log(rt: HostRuntime) {
    same(&rt, &got(&rt, put_flag(rt.alloc())), &1);
}

/// Writes a flag in the log that a database keeps, and gives the version of the write. An empty database gets a new log.
fn put_in_database<S: Alter + Drop>(alloc: Global, conn: Connection<S>) -> Result<u64, Fault> {
    let (owner, cluster) = (Name::read(b"a")?, Name::read(b"c1")?);
    let mut log = match SqlLog::open(alloc, conn, owner, cluster, VERSION_MOST) {
        Ok(log) => log,
        Err((error, _)) => return Err(error.fault()),
    };
    let committed = log.put(&Key::read(b"web/up")?, &Slot::Set(Value::flag(true)))?;
    let version = committed.entry().version();
    log.close()?;
    Ok(version)
}

/// Writes a flag in the log of a database.
#[derive(Drop)]
struct Putting;

impl DatabaseVisit for Putting {
    type Outcome = Result<u64, Fault>;

    fn visit<S: Alter + Drop>(
        self,
        _: &impl Abort,
        alloc: Global,
        conn: Connection<S>,
    ) -> Result<u64, Fault> {
        put_in_database(alloc, conn)
    }
}

#[test]
fn example_of_a_log_in_a_database(rt: HostRuntime) {
    let alloc = rt.alloc();
    let mut disks = new_disks(alloc);
    let first = got(&rt, on_disks(&rt, alloc, &mut disks, ENDLESS, Putting));
    same(&rt, &got(&rt, first), &1);
    let second = got(&rt, on_disks(&rt, alloc, &mut disks, ENDLESS, Putting));
    same(&rt, &got(&rt, second), &2);
}
