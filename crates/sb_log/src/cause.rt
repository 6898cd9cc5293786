//! Why the database of a log failed.
ghost use Rattle.std.specs.Prelude.{◌≡◌, None, Some};
ghost use Rattle.sb_log.specs.Cause as spec;

use sb_types::Fault;
use sqlite::{Error, ErrorCode};
use std::fmt;

/// Why the store of a log failed, as far as its database can tell.
///
/// While a log is open, its database does not notice that the file was removed. A disk that became read-only is `Io`.
#[derive(Clone, Copy, Debug, PartialEq, Eq)]
pub enum StoreCause {
    /// The disk has no space left, or the user has used all that is allowed.
    NoSpace,
    /// The file could not be opened: it is missing, or read-only, or not the user's, or too many files are open.
    CannotOpen,
    /// Another process has the file open.
    Locked,
    /// The system could not read or write the file.
    Io,
    /// The file does not contain what was written to it.
    Damaged,
    /// Memory was missing.
    NoMemory,
    /// The database reported something else.
    Other,
}

impl StoreCause {
    /// The cause that an error of the database gives.
    pub fn of(error: &Error) -> StoreCause
        ensures cause { result ≡ spec.cause_of error.now }
    {
        match error {
            Error::SqliteFailure(ErrorCode::DiskFull) => StoreCause::NoSpace,
            Error::SqliteFailure(ErrorCode::CannotOpen) => StoreCause::CannotOpen,
            Error::SqliteFailure(ErrorCode::DatabaseBusy) => StoreCause::Locked,
            Error::SqliteFailure(ErrorCode::SystemIoFailure) => StoreCause::Io,
            Error::SqliteFailure(ErrorCode::DatabaseCorrupt | ErrorCode::NotADatabase) => {
                StoreCause::Damaged
            }
            Error::SqliteFailure(ErrorCode::OutOfMemory) => StoreCause::NoMemory,
            _ => StoreCause::Other,
        }
    }

    /// Its number, 1 to 7.
    pub fn number(self) -> u64
        ensures number { result ≡ spec.number_of self }
    {
        match self {
            StoreCause::NoSpace => 1,
            StoreCause::CannotOpen => 2,
            StoreCause::Locked => 3,
            StoreCause::Io => 4,
            StoreCause::Damaged => 5,
            StoreCause::NoMemory => 6,
            StoreCause::Other => 7,
        }
    }

    /// The cause of this number; none if there is no such cause.
    pub fn from_number(number: u64) -> Option<StoreCause>
        ensures cause { result ≡ spec.cause_numbered number }
    {
        match number {
            1 => Some(StoreCause::NoSpace),
            2 => Some(StoreCause::CannotOpen),
            3 => Some(StoreCause::Locked),
            4 => Some(StoreCause::Io),
            5 => Some(StoreCause::Damaged),
            6 => Some(StoreCause::NoMemory),
            7 => Some(StoreCause::Other),
            _ => None,
        }
    }

    /// Its name in one word, for programs.
    pub fn name(self) -> &'static str {
        match self {
            StoreCause::NoSpace => "no_space",
            StoreCause::CannotOpen => "cannot_open",
            StoreCause::Locked => "locked",
            StoreCause::Io => "io",
            StoreCause::Damaged => "damaged",
            StoreCause::NoMemory => "no_memory",
            StoreCause::Other => "other",
        }
    }
}

impl fmt::Display for StoreCause {
    fn fmt<W: fmt::Write>(&self, f: &mut fmt::Formatter<W>) -> fmt::Result {
        f.write_str(match self {
            StoreCause::NoSpace => "no space is left",
            StoreCause::CannotOpen => "the file cannot be opened",
            StoreCause::Locked => "another process has it open",
            StoreCause::Io => "it cannot be read or written",
            StoreCause::Damaged => "it is damaged",
            StoreCause::NoMemory => "memory is missing",
            StoreCause::Other => "the database reports another error",
        })
    }
}

/// Why a log is not opened, or cannot be read.
#[derive(Clone, Copy, Debug, PartialEq, Eq)]
pub enum LogError {
    /// Its store failed.
    Store(StoreCause),
    /// Another fault than `StoreFailed`.
    Fault(Fault),
}

impl LogError {
    /// The fault: `StoreFailed` if the store failed.
    pub fn fault(self) -> Fault
        ensures fault { result ≡ spec.fault_of self }
    {
        match self {
            LogError::Store(_) => Fault::StoreFailed,
            LogError::Fault(fault) => fault,
        }
    }

    /// Why the store failed, if it did.
    pub fn cause(self) -> Option<StoreCause>
        ensures cause { result ≡ spec.cause_in self }
    {
        match self {
            LogError::Store(cause) => Some(cause),
            LogError::Fault(_) => None,
        }
    }
}

impl From<StoreCause> for LogError {
    ghost use Rattle.std.specs.Prelude.{◌≡◌};
    ghost use Rattle.sb_log.specs.declared.cause.LogError.TheVariants.{Store};

    ghost from_gives = { λ cause e. e ≡ Store cause };

    fn from(cause: StoreCause) -> LogError {
        LogError::Store(cause)
    }
}

impl From<Fault> for LogError {
    ghost use Rattle.std.specs.Prelude.{◌≡◌};
    ghost use Rattle.sb_log.specs.declared.cause.LogError.TheVariants.{Fault};

    ghost from_gives = { λ fault e. e ≡ Fault fault };

    fn from(fault: Fault) -> LogError {
        LogError::Fault(fault)
    }
}
