//! An owner's log in a file.
ghost use Rattle.std.specs.Prelude.{◌≡◌, ◌≤◌, ◌<◌, ◌⊎◌, true, Ok, None, IfOk, IfSome, IfNone, IfErr, IsErr, OnOk};
ghost use Rattle.sb_log.specs.Puts.{content_after_purge};
ghost use Rattle.sb_commands.specs.LogFiles.{DropsWrites};
ghost use Rattle.sb_commands.specs.Removals as spec;

use crate::failure::{Failure, FaultPlace, LogObstacle};
use crate::words::{LogNames, names_of};
use sb_lines::{log_run, purge_run};
use sb_log::{LogError, SqlLog, StoreCause, WriteLog};
use sb_table::Table;
use sb_types::{Fault, Slot, VERSION_MOST};
use sqlite::{Alter, Connection, Error, File, FileStore};
use std::alloc::Global;
use std::io::{ErrorKind, Write};
use std::os::unix::fs::MetadataExt;
use std::{fs, io};

/// How many bytes a `-wal` has at most if no write is in it.
const EMPTY_WAL_MOST: u64 = 41;

/// The database in the file of a log. A call that hands it to a function over any store is slow to prove, and so is a place
/// that drops it. So each command does that once.
pub type LogDatabase = Connection<FileStore<File>>;

/// Up to which version removals go.
#[derive(Clone, Copy)]
pub enum Floor {
    At(u64),
    /// The last version of the log.
    Last,
}

/// The removals that a log dropped, and the version up to which they went.
#[derive(Clone, Copy)]
pub struct DroppedRemovals {
    pub removals: usize,
    pub floor: u64,
}

/// What became of the removals of a log when its node starts.
#[derive(Drop)]
pub enum StartPurge {
    /// They stay: there are fewer than it takes.
    Few,
    /// They are dropped.
    Dropped(DroppedRemovals),
    /// The store of the log failed when they were to be dropped, and the log is closed. Before, it was read as this table.
    Failed(Table),
}

/// A fault of a log, or of printing its lines.
fn failure_of_fault(path: &str, fault: Fault) -> Failure<'_> {
    match fault {
        Fault::WriteFailed(_) => Failure::from(fault),
        _ => Failure::at(FaultPlace::Log(path), fault),
    }
}

/// An error of a log, or of printing its lines.
pub(crate) fn failure(path: &str, error: LogError) -> Failure<'_> {
    match error {
        LogError::Store(cause) => Failure::of_store(path, cause),
        LogError::Fault(fault) => failure_of_fault(path, fault),
    }
}

/// The fault of a call of a log, with the cause by which the log is closed, if it is.
pub fn error_of(fault: Fault, cause: Option<StoreCause>) -> LogError {
    match (fault, cause) {
        (Fault::StoreFailed, Some(cause)) => LogError::Store(cause),
        (fault, _) => LogError::Fault(fault),
    }
}

/// Whether the folder of a path exists.
pub fn has_folder(rt: &HostRuntime, path: &str) -> bool {
    match path.rsplit_once('/') {
        Some(("", _)) | None => true,
        Some((folder, _)) => fs::metadata(rt, folder).is_ok_and(|found| found.is_dir()),
    }
}

/// Whether the program is not permitted to write to a file.
fn is_read_only(rt: &HostRuntime, path: &str) -> bool {
    match fs::OpenOptions::new().write(true).open(rt, path) {
        Ok(_) => false,
        Err(error) => matches!(
            error.kind(),
            ErrorKind::PermissionDenied | ErrorKind::ReadOnlyFilesystem
        ),
    }
}

/// The obstacle that the files beside a log show: a journal that has bytes, or a missing `-wal`.
fn obstacle_beside(rt: &HostRuntime, path: &str) -> Option<LogObstacle> {
    let Ok(real) = fs::canonicalize(rt, path) else {
        return None;
    };
    let Ok(journal) = format!(in rt.alloc(); "{}-journal", real.as_str()) else {
        return None;
    };
    if length_at(rt, journal.as_str()) > 0 {
        return Some(LogObstacle::Journal);
    }
    let Ok(wal) = format!(in rt.alloc(); "{}-wal", real.as_str()) else {
        return None;
    };
    match fs::symlink_metadata(rt, wal.as_str()) {
        Err(error) if error.kind() == ErrorKind::NotFound => Some(LogObstacle::Unmade),
        _ => None,
    }
}

/// What keeps the file at a path from being opened as a log, if that can be seen. If the path is a link, this is about the file to
/// which it leads.
fn log_obstacle(rt: &HostRuntime, path: &str) -> Option<LogObstacle> {
    match fs::metadata(rt, path) {
        Ok(found) if !found.is_file() => Some(LogObstacle::NoFile),
        Ok(found) if found.nlink() > 1 => Some(LogObstacle::SecondName),
        Ok(_) if is_read_only(rt, path) => Some(LogObstacle::ReadOnly),
        Ok(_) => obstacle_beside(rt, path),
        Err(error) if error.kind() == ErrorKind::NotFound => Some(LogObstacle::Unmade),
        Err(_) => None,
    }
}

/// The failure of a file that the database could not open.
fn unopened<'a>(rt: &HostRuntime, path: &'a str) -> Failure<'a> {
    match log_obstacle(rt, path) {
        Some(obstacle) => Failure::at(FaultPlace::UnopenedLog(path, obstacle), Fault::StoreFailed),
        None => Failure::of_store(path, StoreCause::CannotOpen),
    }
}

/// Why a file was not opened.
fn failure_of<'a>(rt: &HostRuntime, path: &'a str, error: &Error) -> Failure<'a> {
    match StoreCause::of(error) {
        StoreCause::NoMemory => Failure::at(FaultPlace::Log(path), Fault::NoMemory),
        StoreCause::Damaged => Failure::at(FaultPlace::Log(path), Fault::LogDamaged),
        StoreCause::Locked => Failure::at(FaultPlace::LockedLog(path), Fault::StoreFailed),
        _ if !has_folder(rt, path) => Failure::at(
            FaultPlace::NoLogFolder(path),
            Fault::StoreFailed,
        ),
        StoreCause::CannotOpen => unopened(rt, path),
        cause => Failure::of_store(path, cause),
    }
}

/// Tests the lengths of the two files of a log, each 0 if there is no file. `StoreFailed` at a place if the first has no byte and
/// the `-wal` has writes, since an opening would drop them.
fn test_lengths<'a>(log: u64, wal: u64, place: FaultPlace<'a>) -> Result<(), Failure<'a>>
    ensures refused { DropsWrites log wal → IsErr result }
    ensures only { IfErr result (λ _. DropsWrites log wal) }
{
    if log == 0 && wal > EMPTY_WAL_MOST {
        return Err(Failure::at(place, Fault::StoreFailed));
    }
    Ok(())
}

/// The path of the `-wal` of a log, which is beside the file to which a link leads. `OutOfMemory`.
fn wal_of(rt: &HostRuntime, path: &str) -> io::Result<String> {
    match fs::canonicalize(rt, path) {
        Ok(real) => Ok(format!(in rt.alloc(); "{}-wal", real.as_str())?),
        Err(error) if error.kind() == ErrorKind::OutOfMemory => Err(error),
        Err(_) => Ok(format!(in rt.alloc(); "{path}-wal")?),
    }
}

/// How many bytes the file at a path has; 0 if there is no file, or if that cannot be seen.
fn length_at(rt: &HostRuntime, path: &str) -> u64 {
    match fs::metadata(rt, path) {
        Ok(found) => found.len(),
        Err(_) => 0,
    }
}

/// How many bytes `LINK-wal` has, if the path of a log is a link LINK; else 0. An opening does not read that
/// file, unless it is also the `-wal` beside the file to which the link leads. `OutOfMemory`.
fn unread_length(rt: &HostRuntime, path: &str, wal: &str) -> io::Result<u64> {
    let is_link = fs::symlink_metadata(rt, path).is_ok_and(|found| found.file_type().is_symlink());
    if !is_link {
        return Ok(0);
    }
    let beside = format!(in rt.alloc(); "{path}-wal")?;
    let Ok(found) = fs::metadata(rt, beside.as_str()) else {
        return Ok(0);
    };
    match fs::metadata(rt, wal) {
        Ok(read) if read.dev() == found.dev() && read.ino() == found.ino() => Ok(0),
        _ => Ok(found.len()),
    }
}

/// Tests that an opening of the log at a path drops no writes and passes over none. `NoMemory`. `StoreFailed` if a `-wal` with writes
/// is beside an empty file, a missing one, or a link that leads elsewhere.
pub(crate) fn test_wal<'a>(rt: &HostRuntime, path: &'a str) -> Result<(), Failure<'a>> {
    let Ok(wal) = wal_of(rt, path) else {
        return Err(Failure::at(FaultPlace::Log(path), Fault::NoMemory));
    };
    // A node that makes a log writes the first page of its file before its `-wal` has a write. So the `-wal` is looked at first.
    let length = length_at(rt, wal.as_str());
    match fs::metadata(rt, path) {
        Ok(found) => test_lengths(found.len(), length, FaultPlace::EmptyLog(path))?,
        Err(_) => test_lengths(0, length, FaultPlace::OldWal(path))?,
    }
    let Ok(unread) = unread_length(rt, path, wal.as_str()) else {
        return Err(Failure::at(FaultPlace::Log(path), Fault::NoMemory));
    };
    // No byte of the log's file belongs to this one.
    test_lengths(0, unread, FaultPlace::UnreadWal(path))
}

/// Opens a connection to a file, and makes the file if there is none. `StoreFailed` if it can't be opened or another has it open;
/// `LogDamaged` if it is not a database; `NoMemory`.
fn connect<'a>(rt: &HostRuntime, path: &'a str) -> Result<LogDatabase, Failure<'a>> {
    match Connection::open(rt, path) {
        Ok(conn) => Ok(conn),
        Err(error) => Err(failure_of(rt, path, &error)),
    }
}

/// The log of an owner of a cluster, in the database of the file at a path. An empty one becomes a new log. It gives versions up to
/// `max_version`. The faults of `SqlLog::open`.
pub fn log_in<'a, S: Alter + Drop>(
    alloc: Global,
    path: &'a str,
    conn: Connection<S>,
    names: LogNames,
    max_version: u64,
) -> Result<SqlLog<S>, Failure<'a>> {
    match SqlLog::open(alloc, conn, names.owner, names.cluster, max_version) {
        Ok(log) => Ok(log),
        Err((error, _)) => Err(failure(path, error)),
    }
}

/// Opens the database in the file of a log. The faults of `test_wal`; `StoreFailed` if there is no file, or it must not be read;
/// the faults of `connect`.
pub fn open_database<'a>(rt: &HostRuntime, path: &'a str) -> Result<LogDatabase, Failure<'a>> {
    test_wal(rt, path)?;
    if let Err(error) = fs::File::open(rt, path) {
        let place = match error.kind() {
            ErrorKind::NotFound if !has_folder(rt, path) => FaultPlace::NoLogFolder(path),
            ErrorKind::NotFound => FaultPlace::NoLog(path),
            _ => FaultPlace::UnreadableLog(path),
        };
        return Err(Failure::at(place, Fault::StoreFailed));
    }
    connect(rt, path)
}

/// Opens the database in the file of a log, and makes the file if there is none. The faults of `test_wal` and of `connect`.
pub(crate) fn make_database<'a>(
    rt: &HostRuntime,
    path: &'a str,
) -> Result<LogDatabase, Failure<'a>> {
    test_wal(rt, path)?;
    connect(rt, path)
}

/// Whether another process has the log at a path open. Otherwise it makes the file, if there is none.
pub(crate) fn is_locked(rt: &HostRuntime, path: &str) -> bool {
    match Connection::open(rt, path) {
        Ok(_) => false,
        Err(error) => matches!(StoreCause::of(&error), StoreCause::Locked),
    }
}

/// Copies the `-wal` of a log that nobody has open into the file of the log, which has the whole log then. The faults of `connect`,
/// and `StoreFailed`.
pub(crate) fn settle_log<'a>(rt: &HostRuntime, path: &'a str) -> Result<(), Failure<'a>> {
    let conn = connect(rt, path)?;
    match conn.close() {
        Ok(()) => Ok(()),
        Err(error) => Err(Failure::of_store(path, StoreCause::of(&error))),
    }
}

/// Prints what a log holds, and ends it. The faults of `log_run`, then those of `close`.
fn print_lines<L: WriteLog>(rt: &HostRuntime, log: L) -> Result<(), LogError> {
    let mut log = log;
    let (printed, _) = log_run(rt.alloc(), &mut log, &mut rt.stdout());
    let cause = log.cause();
    match printed.and(log.close()) {
        Ok(()) => Ok(()),
        Err(fault) => Err(error_of(fault, cause)),
    }
}

/// Drops the removals of a log up to a version, and prints that version. The faults of `load`, if the version is the last; then
/// those of `purge_run`.
fn purge_to<L: WriteLog, W: Write>(
    alloc: Global,
    log: &mut L,
    floor: Floor,
    writer: &mut W,
) -> Result<(), Fault>
    ensures purges { OnOk result ((L.seen log.new).is_clean ≡ true
        → (L.seen log.new).content ≡ content_after_purge (spec.floor_of floor (L.seen log.old).content) (L.seen log.old).content) }
    ensures result { spec.PurgesTo floor (L.seen log.old) (W.contents writer.old) result (L.seen log.new) (W.contents writer.new) }
{
    let version = match floor {
        Floor::At(version) => version,
        Floor::Last => log.load(alloc)?.upto(),
    };
    let (purged, _) = purge_run(alloc, log, version, writer);
    purged
}

/// Purges a log by `purge_to`, and ends it. The faults of `purge_to`, then those of `close`.
fn purge_lines<L: WriteLog>(rt: &HostRuntime, log: L, floor: Floor) -> Result<(), LogError> {
    let mut log = log;
    let purged = purge_to(rt.alloc(), &mut log, floor, &mut rt.stdout());
    let cause = log.cause();
    match purged.and(log.close()) {
        Ok(()) => Ok(()),
        Err(fault) => Err(error_of(fault, cause)),
    }
}

/// What a command does with a log that exists, before it ends it.
#[derive(Clone, Copy)]
enum LogTask {
    /// It prints what the log holds.
    Print,
    /// It drops the removals up to a version, and prints that version.
    Purge(Floor),
}

/// Does a task with a log, and ends it. The faults of `print_lines` or of `purge_lines`.
fn run_task<L: WriteLog>(rt: &HostRuntime, log: L, task: LogTask) -> Result<(), LogError> {
    match task {
        LogTask::Print => print_lines(rt, log),
        LogTask::Purge(floor) => purge_lines(rt, log, floor),
    }
}

/// Does a task with the log in a database. The faults of `log_in` and of `run_task`.
fn run_in<'a, S: Alter + Drop>(
    rt: &HostRuntime,
    path: &'a str,
    conn: Connection<S>,
    names: LogNames,
    task: LogTask,
) -> Result<(), Failure<'a>> {
    let log = log_in(rt.alloc(), path, conn, names, VERSION_MOST)?;
    match run_task(rt, log, task) {
        Ok(()) => Ok(()),
        Err(error) => Err(failure(path, error)),
    }
}

/// Does a task with the log in the file at a path. The faults of `open_database` and of `run_in`.
fn run_at<'a>(
    rt: &HostRuntime,
    path: &'a str,
    names: LogNames,
    task: LogTask,
) -> Result<(), Failure<'a>> {
    let conn = open_database(rt, path)?;
    run_in(rt, path, conn, names, task)
}

/// Prints what the log of an owner of a cluster holds. `BadName` of either name, before it looks for the file. Then the faults of
/// `open_database`, `log_in`, `log_run` and `close`.
pub fn print_log<'a>(
    rt: &HostRuntime,
    path: &'a str,
    owner: &'a str,
    cluster: &'a str,
) -> Result<(), Failure<'a>> {
    let names = names_of(owner, cluster)?;
    run_at(rt, path, names, LogTask::Print)
}

/// Drops the removals of the log of an owner of a cluster, and prints up to which version. `BadName` of either name, before it looks
/// for the file. Then the faults of `open_database`, `log_in`, `load`, `purge_run` and `close`.
pub fn purge_log<'a>(
    rt: &HostRuntime,
    path: &'a str,
    owner: &'a str,
    cluster: &'a str,
    floor: Floor,
) -> Result<(), Failure<'a>> {
    let names = names_of(owner, cluster)?;
    run_at(rt, path, names, LogTask::Purge(floor))
}

/// How many keys of a table are removed ones.
fn count_removals(table: &Table) -> usize
    ensures { result ≡ spec.removals_in table.now.entries }
{
    let mut count = 0;
    for entry in table.after(0) {
        if matches!(entry.slot(), Slot::Removed) {
            count += 1;
        }
    }
    count
}

/// Drops the removals of a log up to its last version, if it has `least` of them or more, and returns what became of them. It drops
/// none if `least` is 0. If the store fails at that, the log is closed, which is not a fault: nobody knows whether they are dropped.
/// The faults of `load`.
pub fn purge_removals<L: WriteLog>(
    rt: &HostRuntime,
    log: &mut L,
    least: u64,
) -> Result<StartPurge, Fault>
    ensures never { least ≡ 0 → (result ≡ Ok StartPurge.Few) × (log.new ≡ log.old) }
    ensures done { IfOk result (λ purge. spec.IsPurged least (L.seen log.old) purge (L.seen log.new)) }
    ensures failed { IfErr result (λ fault. spec.FailsToDrop (L.seen log.old) fault (L.seen log.new)) }
{
    if least == 0 {
        return Ok(StartPurge::Few);
    }
    let table = log.load(rt.alloc())?;
    let removals = count_removals(&table);
    if (removals as u64) < least {
        return Ok(StartPurge::Few);
    }
    let floor = table.upto();
    match log.purge(floor) {
        Ok(()) => Ok(StartPurge::Dropped(DroppedRemovals { removals, floor })),
        Err(Fault::StoreFailed) => Ok(StartPurge::Failed(table)),
        Err(fault) => Err(fault),
    }
}
