//! Measures of the owner's log: writes in memory and in a file, and the opening of a file.
use crate::plan::{Plan, Telling};
use crate::problem::Problem;
use crate::report::{Measured, spent_since, tell};
use crate::sample::{cluster, key_at, me, new_log};
use sb_log::{SqlLog, WriteLog};
use sb_types::{Fault, KEYS_MOST, Slot, VERSION_MOST, Value};
use sqlite::{Alter, Connection};
use std::fs;
use std::io::Write;
use std::time::{CpuClock, Duration, Instant};

/// The bytes of a page, for a bare write to compare with.
const PAGE: [u8; 4096] = [0; 4096];

/// Writes weights under the keys in turn.
fn put_all<L: WriteLog>(rt: &HostRuntime, log: &mut L, puts: u64) -> Result<(), Fault> {
    for index in 0..puts {
        let key = key_at(rt.alloc(), index % KEYS_MOST as u64)?;
        let slot = Slot::Set(Value::weight(index)?);
        log.put(&key, &slot)?;
    }
    Ok(())
}

/// Measures writes into a log in memory, by the write. It takes the time of the processor.
fn put_in_memory(rt: &HostRuntime, puts: u64) -> Result<Measured, Problem> {
    let mut log = new_log(rt.alloc())?;
    let start = rt.thread_cpu_time()?;
    put_all(rt, &mut log, puts)?;
    Ok(Measured::new(spent_since(rt, start)?, puts))
}

fn log_in<S: Alter + Drop>(rt: &HostRuntime, conn: Connection<S>) -> Result<SqlLog<S>, Fault> {
    match SqlLog::open(rt.alloc(), conn, me()?, cluster()?, VERSION_MOST) {
        Ok(log) => Ok(log),
        Err((error, _)) => Err(error.fault()),
    }
}

/// Measures writes into a log, by the write. It takes the time that passed, since each write waits until the disk has
/// it.
fn put_in<S: Alter + Drop>(
    rt: &HostRuntime,
    conn: Connection<S>,
    puts: u64,
) -> Result<Measured, Problem> {
    let mut log = log_in(rt, conn)?;
    let start = Instant::now(rt)?;
    put_all(rt, &mut log, puts)?;
    let spent = start.elapsed(rt)?;
    log.close()?;
    Ok(Measured::new(spent, puts))
}

/// Measures the opening of a log, begun at `start`, by the key that the log has. It takes the time of the processor.
fn open_in<S: Alter + Drop>(
    rt: &HostRuntime,
    conn: Connection<S>,
    start: Duration,
) -> Result<Measured, Problem> {
    let mut log = log_in(rt, conn)?;
    let spent = spent_since(rt, start)?;
    let keys = log.load(rt.alloc())?.len() as u64;
    log.close()?;
    Ok(Measured::new(spent, keys))
}

/// What is measured for a log in a file: so many writes, or its opening, begun at this time.
#[derive(Clone, Copy)]
enum LogCall {
    Put(u64),
    Open(Duration),
}

/// Measures a log in a database, over any store.
fn measure_in<S: Alter + Drop>(
    rt: &HostRuntime,
    conn: Connection<S>,
    call: LogCall,
) -> Result<Measured, Problem> {
    match call {
        LogCall::Put(puts) => put_in(rt, conn, puts),
        LogCall::Open(start) => open_in(rt, conn, start),
    }
}

/// Measures a log in the database in the file, which it makes if it does not exist. This is the one place that names
/// the store: a function that names it is slow to prove.
fn measure_at(rt: &HostRuntime, path: &str, call: LogCall) -> Result<Measured, Problem> {
    match Connection::open(rt, path) {
        Ok(conn) => measure_in(rt, conn, call),
        Err(_) => Err(Problem::Fault(Fault::StoreFailed)),
    }
}

/// Measures pages written to a file. It takes the time that passed, since each waits until the disk has it.
fn write_pages(rt: &HostRuntime, path: &str, pages: u64) -> Result<Measured, Problem> {
    let mut file = fs::File::create(rt, path)?;
    let start = Instant::now(rt)?;
    for _ in 0..pages {
        file.write_all(&PAGE)?;
        file.sync_data()?;
    }
    Ok(Measured::new(start.elapsed(rt)?, pages))
}

/// Measures a log in a new file at the path, and bare writes to another file. Both files stay.
fn measure_file(rt: &HostRuntime, telling: Telling, path: &str, puts: u64) -> Result<(), Problem> {
    let bare = format!(in rt.alloc(); "{path}.bare")?;
    let written = write_pages(rt, bare.as_str(), puts);
    tell(rt, telling, written, "bare", "write")?;
    let put = measure_at(rt, path, LogCall::Put(puts));
    tell(rt, telling, put, "put-file", "write")?;
    let start = rt.thread_cpu_time()?;
    let opened = measure_at(rt, path, LogCall::Open(start));
    tell(rt, telling, opened, "open", "key")
}

/// Measures how a log takes writes, in each round one under each key. If a file is given, it also measures how the log
/// opens.
pub(crate) fn measure(rt: &HostRuntime, plan: Plan, path: Option<&str>) -> Result<(), Problem> {
    let puts = plan.keys.saturating_mul(plan.rounds);
    let put = put_in_memory(rt, puts);
    tell(rt, plan.telling, put, "put", "write")?;
    match path {
        Some(path) => measure_file(rt, plan.telling, path, puts),
        None => Ok(()),
    }
}
