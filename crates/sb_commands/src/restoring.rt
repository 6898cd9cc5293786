//! A log for an owner whose log is lost, with the rows that a node shows of that owner.
ghost use Rattle.std.specs.Prelude.{◌≡◌, ◌≢◌, ◌+◌, ◌<◌, ℕ, [], true, Ok, IfOk, OnOk};
ghost use Rattle.sb_commands.specs.declared.beginning.TheConstants.{UNHEARD_MOST};
ghost use Rattle.sb_commands.specs.Restoring as spec;

use crate::beginning::{make_begun, version_beyond};
use crate::failure::{Failure, FaultPlace};
use crate::log_file::{
    LogDatabase, error_of, failure, has_folder, is_locked, log_in, open_database, settle_log,
    test_wal,
};
use crate::owners::ask_greatest;
use crate::status::ask_identity;
use crate::watching::listing;
use crate::words::{LogNames, names_of};
use sb_codec::{Ask, Row};
use sb_log::{LogError, WriteLog};
use sb_types::{Fault, KIND_ROWS, Name, Prefix, VERSION_MOST};
use sqlite::{Alter, Connection};
use std::alloc::Global;
use std::{fs, io};

/// The end of the path of the file in which the log is made.
const BESIDE: &str = ".restore";

/// The node that is asked, by its two sockets.
#[derive(Clone, Copy)]
pub struct AskedNode<'a> {
    /// Its socket for other nodes, at which it answers how far it heard of the owner.
    pub sock: &'a str,
    /// Its control socket, at which it shows the rows of the owner.
    pub control: &'a str,
}

/// What a log is to have: whose it is, the version after which it begins, and its rows.
#[derive(Drop)]
struct Lost {
    owner: Name,
    cluster: Name,
    after: u64,
    rows: Vec<Row>,
}

impl Lost {
    fn names(&self) -> LogNames {
        LogNames {
            owner: self.owner,
            cluster: self.cluster,
        }
    }
}

/// The greatest of a version that was heard of and those of rows.
fn newest_of(heard: u64, rows: &[Row]) -> u64
    ensures { result ≡ spec.newest_of heard rows.now }
{
    let mut newest = heard;
    for row in rows {
        newest = newest.max(row.version());
    }
    newest
}

/// Whether all rows are of this owner.
fn are_of(rows: &[Row], owner: &Name) -> bool
    ensures { result ≡ spec.are_of owner.now rows.now }
{
    rows.iter().all(|row| row.owner() == owner)
}

/// Tests the rows that the node at a control socket showed of an owner. `Malformed(KIND_ROWS)` if one is of another owner;
/// `NothingThere` if there is none.
fn test_rows<'a>(rows: &[Row], owner: &Name, control: &'a str) -> Result<(), Failure<'a>>
    ensures good { OnOk result ((spec.are_of owner.now rows.now ≡ true) × (rows.now ≢ [])) }
    ensures every { spec.are_of owner.now rows.now ≡ true → rows.now ≢ [] → result ≡ Ok tt }
{
    if !are_of(rows, owner) {
        return Err(Failure::at(FaultPlace::Control(control), Fault::Malformed(KIND_ROWS)));
    }
    if rows.is_empty() {
        return Err(Failure::at(FaultPlace::NoRows(control), Fault::NothingThere));
    }
    Ok(())
}

/// The rows that the node at a control socket shows of an owner. `WrongCluster` if it is of another cluster; the faults of
/// asking; then those of `test_rows`.
fn rows_of<'a>(
    rt: &HostRuntime,
    control: &'a str,
    cluster: Name,
    owner: Name,
) -> Result<Vec<Row>, Failure<'a>>
    ensures good { IfOk result (λ rows. (spec.are_of owner rows.items ≡ true) × (rows.items ≢ [])) }
{
    if ask_identity(rt, control)?.cluster != cluster {
        return Err(Failure::at(FaultPlace::Control(control), Fault::WrongCluster));
    }
    let asked = Ask {
        owner: Some(owner),
        prefix: Prefix::read(b"")?,
        after: None,
    };
    let rows = listing(rt, control, &asked)?;
    test_rows(&rows, &owner, control)?;
    Ok(rows)
}

/// What the log of an owner is to have after a node was asked. The rows come last, so that they are the latest.
fn ask_lost<'a>(
    rt: &HostRuntime,
    asked: AskedNode<'a>,
    owner: Name,
    cluster: Name,
) -> Result<Lost, Failure<'a>>
    ensures own { IfOk result (λ lost. (lost.owner ≡ owner) × (lost.cluster ≡ cluster)) }
    ensures rows { IfOk result (λ lost. (spec.are_of owner lost.rows.items ≡ true) × (lost.rows.items ≢ [])) }
    ensures after { IfOk result (λ lost. (heard : ℕ) × (0 < heard) × (lost.after ≡ spec.newest_of heard lost.rows.items + UNHEARD_MOST)) }
{
    let heard = ask_greatest(rt, asked.sock, cluster, owner)?;
    let rows = rows_of(rt, asked.control, cluster, owner)?;
    let after = version_beyond(newest_of(heard, &rows), asked.sock)?;
    Ok(Lost {
        owner,
        cluster,
        after,
        rows,
    })
}

/// Tests that a log has no write, and was not made by `begin`. `OutOfTurn`; the faults of `load`.
fn test_empty<L: WriteLog>(alloc: Global, log: &mut L) -> Result<(), LogError> {
    let upto = match log.load(alloc) {
        Ok(table) => table.upto(),
        Err(fault) => return Err(error_of(fault, log.cause())),
    };
    if upto > 0 {
        return Err(LogError::Fault(Fault::OutOfTurn(upto.saturating_add(1))));
    }
    Ok(())
}

/// The database of the log at a path, if there is one. `StoreFailed` of a link, which would be replaced; the faults of
/// `open_database`.
fn old_database<'a>(rt: &HostRuntime, path: &'a str) -> Result<Option<LogDatabase>, Failure<'a>> {
    match fs::symlink_metadata(rt, path) {
        Ok(found) if found.file_type().is_symlink() => {
            return Err(Failure::at(FaultPlace::LinkedLog(path), Fault::StoreFailed));
        }
        Ok(_) => {}
        Err(_) => return Ok(None),
    }
    let conn = open_database(rt, path)?;
    Ok(Some(conn))
}

/// Removes a file, if there is one.
fn remove_if_any(rt: &HostRuntime, path: &str) -> io::Result<()> {
    match fs::remove_file(rt, path) {
        Err(error) if error.kind() != io::ErrorKind::NotFound => Err(error),
        _ => Ok(()),
    }
}

/// Removes the `-wal` of a log, if there is one.
fn remove_wal(rt: &HostRuntime, path: &str) -> io::Result<()> {
    let wal = format!(in rt.alloc(); "{path}-wal")?;
    remove_if_any(rt, wal.as_str())
}

/// Removes a log, if there is one.
fn remove_log(rt: &HostRuntime, path: &str) -> io::Result<()> {
    remove_if_any(rt, path)?;
    remove_wal(rt, path)
}

/// The folder of a path, which is locked until it is dropped. So one process at a time makes logs in it. `StoreFailed` if it
/// can't be opened or another has it locked.
fn locked_folder<'a>(rt: &HostRuntime, path: &'a str) -> Result<fs::File, Failure<'a>> {
    let name = match path.rsplit_once('/') {
        Some(("", _)) => "/",
        Some((name, _)) => name,
        None => ".",
    };
    let Ok(folder) = fs::File::open(rt, name) else {
        let place = if has_folder(rt, path) {
            FaultPlace::UnreadableLog(path)
        } else {
            FaultPlace::NoLogFolder(path)
        };
        return Err(Failure::at(place, Fault::StoreFailed));
    };
    match folder.try_lock() {
        Ok(()) => Ok(folder),
        Err(_) => Err(Failure::at(FaultPlace::BusyFolder(path), Fault::StoreFailed)),
    }
}

/// Puts a whole log at a path in a folder, which has no file or an empty log. The old `-wal` is gone for good before the log is
/// there, whose own it would seem to be.
fn put_in_place(rt: &HostRuntime, folder: &fs::File, beside: &str, path: &str) -> io::Result<()> {
    remove_wal(rt, beside)?;
    remove_wal(rt, path)?;
    folder.sync_all()?;
    fs::rename(rt, beside, path)?;
    folder.sync_all()
}

/// Makes a log at a path, with all that it is to have, in one file. Returns its last version. The faults of `make_begun` and of
/// `settle_log`.
fn make_whole<'a>(rt: &HostRuntime, path: &'a str, lost: &Lost) -> Result<u64, Failure<'a>> {
    let names = lost.names();
    let last = make_begun(rt, path, names, lost.after, &lost.rows)?;
    settle_log(rt, path)?;
    Ok(last)
}

/// Makes a log beside a path in a folder, and then puts it there. Returns its last version. After a fault nothing is left beside
/// the path, and what is at the path stays. `StoreFailed` if another process has the file beside it open; the faults of
/// `make_whole`; `StoreFailed` if the log cannot be put there. If just the folder fails to be synced, the log is there as a whole.
fn restore_beside<'a>(
    rt: &HostRuntime,
    folder: &fs::File,
    beside: &str,
    path: &'a str,
    lost: &Lost,
) -> Result<u64, Failure<'a>> {
    if fs::symlink_metadata(rt, beside).is_ok() && is_locked(rt, beside) {
        return Err(Failure::at(FaultPlace::LockedLog(path), Fault::StoreFailed));
    }
    let made = match remove_log(rt, beside) {
        Ok(()) => make_whole(rt, beside, lost),
        Err(_) => Err(Failure::at(FaultPlace::Log(beside), Fault::StoreFailed)),
    };
    let placed = match made {
        Ok(last) => match put_in_place(rt, folder, beside, path) {
            Ok(()) => return Ok(last),
            Err(_) => Failure::at(FaultPlace::Log(path), Fault::StoreFailed),
        },
        Err(failure) => failure.of_log(path),
    };
    let _ = remove_log(rt, beside);
    Err(placed)
}

/// Makes a log in a folder, at a path that has no file or an empty log. Returns its last version. `NoMemory`; the faults of
/// `restore_beside`.
fn restore_in<'a>(
    rt: &HostRuntime,
    folder: &fs::File,
    path: &'a str,
    lost: &Lost,
) -> Result<u64, Failure<'a>> {
    let beside = format!(in rt.alloc(); "{path}{BESIDE}")?;
    restore_beside(rt, folder, beside.as_str(), path, lost)
}

/// Makes a log in a folder, in place of the empty one in this database. That one stays open meanwhile, so that no node starts with it.
/// Returns the last version of the new one. The faults of `log_in`, of `test_empty` and of `restore_in`.
fn restore_over<'a, S: Alter + Drop>(
    rt: &HostRuntime,
    folder: &fs::File,
    path: &'a str,
    conn: Connection<S>,
    lost: &Lost,
) -> Result<u64, Failure<'a>> {
    let names = lost.names();
    let mut log = log_in(rt.alloc(), path, conn, names, VERSION_MOST)?;
    match test_empty(rt.alloc(), &mut log) {
        Ok(()) => restore_in(rt, folder, path, lost),
        Err(error) => Err(failure(path, error)),
    }
}

/// Makes a log in a folder, at a path that has no file. Returns its last version. The faults of `test_wal` and of `restore_in`.
fn restore_anew<'a>(
    rt: &HostRuntime,
    folder: &fs::File,
    path: &'a str,
    lost: &Lost,
) -> Result<u64, Failure<'a>> {
    test_wal(rt, path)?;
    restore_in(rt, folder, path, lost)
}

/// Makes a log at a path, all of it or nothing. Returns its last version. The faults of `locked_folder` and of `old_database`; if
/// there is a database, those of `restore_over`, and else those of `restore_anew`.
fn restore_at<'a>(rt: &HostRuntime, path: &'a str, lost: &Lost) -> Result<u64, Failure<'a>> {
    let folder = locked_folder(rt, path)?;
    match old_database(rt, path)? {
        Some(conn) => restore_over(rt, &folder, path, conn, lost),
        None => restore_anew(rt, &folder, path, lost),
    }
}

/// Prints how many rows a log was made with, and its last version. `WriteFailed`.
fn print_restored(rt: &HostRuntime, count: usize, last: u64) -> Result<(), Failure<'static>> {
    match println!(rt; "restored {count} last {last}") {
        Ok(()) => Ok(()),
        Err(_) => Err(Failure::from(Fault::WriteFailed(0))),
    }
}

/// Makes a log of an owner in a cluster, with the rows that a node shows of that owner. It begins far after all that the node
/// heard of the owner. Prints how many rows there are, and the last version. The faults, in this order:
///
/// - `BadName` of either name.
/// - Those of `ask_greatest` and of `rows_of`, and `BadSetting` if that version would be outside the limits. These come
///   before it looks for the file.
/// - Those of `restore_at`, which leave the file as it was.
/// - `WriteFailed`, and then the log is there.
pub fn restore_log<'a>(
    rt: &HostRuntime,
    path: &'a str,
    owner: &'a str,
    cluster: &'a str,
    asked: AskedNode<'a>,
) -> Result<(), Failure<'a>> {
    let names = names_of(owner, cluster)?;
    let lost = ask_lost(rt, asked, names.owner, names.cluster)?;
    let last = restore_at(rt, path, &lost)?;
    print_restored(rt, lost.rows.len(), last)
}
