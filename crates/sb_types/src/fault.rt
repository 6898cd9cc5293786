//! Faults: why a call was refused.

ghost use Rattle.std.specs.Prelude.{◌≡◌, false, IfSome, IfNone};
ghost use Rattle.sb_types.specs.Faults.{number_of, carried_by};
ghost use Rattle.sb_types.specs.Text.{is_between};

use crate::limits::FAULT_NUMBER_MOST;
use std::alloc::{AllocError, AllocFailed};
use thiserror::Error;

/// Why a call was refused. Each fault has a number, which scripts and control sockets report.
#[derive(Clone, Copy, Debug, PartialEq, Eq, Error)]
pub enum Fault {
    #[error("there was no memory; free some, or ask for less")]
    NoMemory,
    #[error("a name is 1 to 32 of the bytes a-z, 0-9 and -")]
    BadName,
    #[error("a key is 1 to 64 of the bytes a-z, 0-9, '.', '_', '/' and -; a prefix may be empty")]
    BadKey,
    #[error("a value is addr with 1 to 128 printing bytes, weight below 2^63, flag true or false, or text of 1 to 512 UTF-8 bytes. In a text, a backslash and two digits, as \\0a, spell a control byte or a backslash")]
    BadValue,
    #[error("a setting is outside its limits")]
    BadSetting,
    #[error("the owner has 4,096 keys, removed ones counted; write under a key that it has")]
    TableFull,
    #[error("1,024 owners are held, and there is no room for another")]
    OwnersFull,
    #[error("the owner has used every version that the settings allow")]
    VersionsSpent,
    #[error("there is nothing to remove under this key")]
    NothingThere,
    #[error("a frame begins with another byte than a7; the peer speaks another protocol")]
    BadMark,
    #[error("the frame is of another version of the format; run the same release at both ends")]
    BadVersion,
    #[error("a frame's length is outside 1 to 65,530")]
    BadLength,
    #[error("a message of kind {0} is not known, or has no place here")]
    UnknownKind(u8),
    #[error("a message of kind {0} breaks the format")]
    Malformed(u8),
    #[error("this is closed; open it again")]
    Closed,
    #[error("reading failed")]
    ReadFailed,
    #[error("writing failed after {0} bytes")]
    WriteFailed(u64),
    #[error("the log could not be read or written; open it again")]
    StoreFailed,
    #[error("the log is damaged")]
    LogDamaged,
    #[error("the log belongs to another owner or cluster")]
    WrongOwner,
    #[error("another node writes under this name: its version {0} was seen; give each node a name of its own")]
    OwnerConflict(u64),
    #[error("a session begins with Hello")]
    NoHello,
    #[error("the peer is of another cluster")]
    WrongCluster,
    #[error("two nodes have the same name; give each node a name of its own")]
    SameName,
    #[error("a session has one Hello")]
    SecondHello,
    #[error("there is no such watch")]
    NoWatch,
    #[error("64 watches stand; drop one first")]
    WatchesFull,
    #[error("the stream ends inside a frame")]
    Truncated,
    #[error("the reads, calls or events that were allowed are spent")]
    TurnsSpent,
    #[error("the floor would be above the last version")]
    FloorTooHigh,
    #[error("the next own write has version {0}")]
    OutOfTurn(u64),
}

impl Fault {
    /// Returns the number of the fault, 1 to 31.
    pub fn number(&self) -> u8
        ensures { result ≡ number_of self.now }
    {
        match self {
            Fault::NoMemory => 1,
            Fault::BadName => 2,
            Fault::BadKey => 3,
            Fault::BadValue => 4,
            Fault::BadSetting => 5,
            Fault::TableFull => 6,
            Fault::OwnersFull => 7,
            Fault::VersionsSpent => 8,
            Fault::NothingThere => 9,
            Fault::BadMark => 10,
            Fault::BadVersion => 11,
            Fault::BadLength => 12,
            Fault::UnknownKind(_) => 13,
            Fault::Malformed(_) => 14,
            Fault::Closed => 15,
            Fault::ReadFailed => 16,
            Fault::WriteFailed(_) => 17,
            Fault::StoreFailed => 18,
            Fault::LogDamaged => 19,
            Fault::WrongOwner => 20,
            Fault::OwnerConflict(_) => 21,
            Fault::NoHello => 22,
            Fault::WrongCluster => 23,
            Fault::SameName => 24,
            Fault::SecondHello => 25,
            Fault::NoWatch => 26,
            Fault::WatchesFull => 27,
            Fault::Truncated => 28,
            Fault::TurnsSpent => 29,
            Fault::FloorTooHigh => 30,
            Fault::OutOfTurn(_) => 31,
        }
    }

    /// Returns the fault of a number from 1 to 31, and `None` for any other number. If such a fault carries something
    /// else, that is 0 here: the number does not contain it.
    pub fn of_number(number: u8) -> Option<Fault>
        ensures some { IfSome result (λ fault. (number_of fault ≡ number) × (carried_by fault ≡ 0)) }
        ensures none { IfNone result (is_between 1 FAULT_NUMBER_MOST number ≡ false) }
    {
        Some(match number {
            1 => Fault::NoMemory,
            2 => Fault::BadName,
            3 => Fault::BadKey,
            4 => Fault::BadValue,
            5 => Fault::BadSetting,
            6 => Fault::TableFull,
            7 => Fault::OwnersFull,
            8 => Fault::VersionsSpent,
            9 => Fault::NothingThere,
            10 => Fault::BadMark,
            11 => Fault::BadVersion,
            12 => Fault::BadLength,
            13 => Fault::UnknownKind(0),
            14 => Fault::Malformed(0),
            15 => Fault::Closed,
            16 => Fault::ReadFailed,
            17 => Fault::WriteFailed(0),
            18 => Fault::StoreFailed,
            19 => Fault::LogDamaged,
            20 => Fault::WrongOwner,
            21 => Fault::OwnerConflict(0),
            22 => Fault::NoHello,
            23 => Fault::WrongCluster,
            24 => Fault::SameName,
            25 => Fault::SecondHello,
            26 => Fault::NoWatch,
            27 => Fault::WatchesFull,
            28 => Fault::Truncated,
            29 => Fault::TurnsSpent,
            30 => Fault::FloorTooHigh,
            31 => Fault::OutOfTurn(0),
            _ => return None,
        })
    }
}

impl From<AllocError> for Fault {
    ghost use Rattle.std.specs.Prelude.{◌≡◌};
    ghost use Rattle.sb_types.specs.declared.fault.Fault.TheVariants.{NoMemory};

    ghost from_gives = { λ _ fault. fault ≡ NoMemory };

    fn from(_: AllocError) -> Fault {
        Fault::NoMemory
    }
}

impl<T: Drop> From<AllocFailed<T>> for Fault {
    ghost use Rattle.std.specs.Prelude.{◌≡◌};
    ghost use Rattle.sb_types.specs.declared.fault.Fault.TheVariants.{NoMemory};

    ghost from_gives = { λ _ fault. fault ≡ NoMemory };

    fn from(_: AllocFailed<T>) -> Fault {
        Fault::NoMemory
    }
}
