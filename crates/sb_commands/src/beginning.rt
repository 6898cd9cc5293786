//! A new log for an owner whose log is lost, or is to end.
ghost use Rattle.std.specs.Prelude.{◌≡◌, ◌+◌, IfOk, Ok};
ghost use Rattle.sb_commands.specs.declared.beginning.TheConstants.{UNHEARD_MOST};
ghost use Rattle.sb_commands.specs.Beginning as spec;

use crate::failure::{Failure, FaultPlace};
use crate::log_file::{error_of, failure, log_in, make_database};
use crate::owners::ask_greatest;
use crate::words::{LogNames, names_of};
use sb_codec::Row;
use sb_lines::write_back;
use sb_log::{LogError, SqlLog, WriteLog};
use sb_types::{Fault, Name, VERSION_MOST};
use sqlite::{Alter, Connection};
use std::alloc::Global;

/// How many more versions the lost log can have had than a node heard of.
const UNHEARD_MOST: u64 = 1 << 20;

/// The version after which a log begins.
#[derive(Clone, Copy)]
pub enum Start<'a> {
    /// This version. At the place it is wrong if it is outside the limits.
    After(u64, FaultPlace<'a>),
    /// The last version that the node at this socket for peers heard of, plus as many as perhaps nobody heard of.
    From(&'a str),
}

/// Returns a version that is within the limits. `BadSetting` at this place.
fn within_limits<'a>(version: u64, place: FaultPlace<'a>) -> Result<u64, Failure<'a>>
    ensures given { IfOk result (λ v. v ≡ version) }
    ensures limits { IfOk result spec.IsWithinLimits }
    ensures every { spec.IsWithinLimits version → result ≡ Ok version }
{
    if version == 0 || version > VERSION_MOST {
        return Err(Failure::at(place, Fault::BadSetting));
    }
    Ok(version)
}

/// Returns `heard`, which the node at this socket heard of, plus as many versions as its owner can have written
/// unheard. `BadSetting` outside the limits.
pub(crate) fn version_beyond<'a>(heard: u64, sock: &'a str) -> Result<u64, Failure<'a>>
    ensures far { IfOk result (λ version. version ≡ heard + UNHEARD_MOST) }
    ensures limits { IfOk result spec.IsWithinLimits }
{
    within_limits(heard.saturating_add(UNHEARD_MOST), FaultPlace::Heard(sock))
}

/// The version that is meant. If a node is asked, the faults of `ask_greatest`; then `BadSetting` outside the limits.
fn version_of<'a>(
    rt: &HostRuntime,
    start: Start<'a>,
    owner: Name,
    cluster: Name,
) -> Result<u64, Failure<'a>>
    ensures meant { IfOk result (spec.IsMeant start.entry) }
    ensures limits { IfOk result spec.IsWithinLimits }
{
    match start {
        Start::After(version, place) => within_limits(version, place),
        Start::From(sock) => {
            let heard = ask_greatest(rt, sock, cluster, owner)?;
            version_beyond(heard, sock)
        }
    }
}

/// Prints after which version a log began, and warns if no version is left. `WriteFailed`.
fn print_begun<'a>(rt: &HostRuntime, path: &'a str, version: u64) -> Result<(), Failure<'a>> {
    if version == VERSION_MOST {
        let _ = eprintln!(rt;
            "attrdir: warning log {path}: no version is left, so nothing can be written under this name any more"
        );
    }
    match println!(rt; "begun {version}") {
        Ok(()) => Ok(()),
        Err(_) => Err(Failure::from(Fault::WriteFailed(0))),
    }
}

/// Writes rows back into a log, and ends it. Returns its last version. The faults of `write_back`, then those of `close`.
fn fill<L: WriteLog>(alloc: Global, log: L, rows: &[Row]) -> Result<u64, LogError> {
    let mut log = log;
    let written = write_back(alloc, &mut log, rows);
    let cause = log.cause();
    let closed = log.close();
    let last = match written {
        Ok(last) => last,
        Err(fault) => return Err(error_of(fault, cause)),
    };
    match closed {
        Ok(()) => Ok(last),
        Err(fault) => Err(error_of(fault, cause)),
    }
}

/// Ends a log whose last version this is. Returns that version. The faults of `close`.
fn end<L: WriteLog>(log: L, last: u64) -> Result<u64, LogError> {
    match log.close() {
        Ok(()) => Ok(last),
        Err(fault) => Err(LogError::Fault(fault)),
    }
}

/// Makes a log begin after a version, writes rows back into it, if there are any, and ends it. Returns its last version. The faults
/// of `SqlLog::begin`, of `fill` and of `close`.
fn begin_with<S: Alter + Drop>(
    alloc: Global,
    log: SqlLog<S>,
    after: u64,
    rows: &[Row],
) -> Result<u64, LogError> {
    let mut log = log;
    if let Err(fault) = log.begin(after) {
        return Err(error_of(fault, log.cause()));
    }
    if rows.is_empty() {
        end(log, after)
    } else {
        fill(alloc, log, rows)
    }
}

/// Does the same with the log in a database. The faults of `log_in` and of `begin_with`.
fn begin_in<'a, S: Alter + Drop>(
    alloc: Global,
    path: &'a str,
    conn: Connection<S>,
    names: LogNames,
    after: u64,
    rows: &[Row],
) -> Result<u64, Failure<'a>> {
    let log = log_in(alloc, path, conn, names, VERSION_MOST)?;
    match begin_with(alloc, log, after, rows) {
        Ok(last) => Ok(last),
        Err(error) => Err(failure(path, error)),
    }
}

/// Makes a log at a path, which begins after a version, and writes rows back into it, if there are any. Returns its last version. The
/// faults of `make_database` and of `begin_in`.
pub(crate) fn make_begun<'a>(
    rt: &HostRuntime,
    path: &'a str,
    names: LogNames,
    after: u64,
    rows: &[Row],
) -> Result<u64, Failure<'a>> {
    let conn = make_database(rt, path)?;
    begin_in(rt.alloc(), path, conn, names, after, rows)
}

/// Makes a log of an owner in a cluster, which begins after a version, and prints that version. The faults, in this
/// order:
///
/// - `BadName` of either name, and the faults of `version_of`. These come before it looks for the file.
/// - Those of `make_begun`.
/// - `WriteFailed`, and then the log has begun.
pub fn begin_log<'a>(
    rt: &HostRuntime,
    path: &'a str,
    owner: &'a str,
    cluster: &'a str,
    start: Start<'a>,
) -> Result<(), Failure<'a>> {
    let names = names_of(owner, cluster)?;
    let version = version_of(rt, start, names.owner, names.cluster)?;
    make_begun(rt, path, names, version, &[])?;
    print_begun(rt, path, version)
}
