//! Why a log is closed.
use crate::disks::{Calls, new_disks};
use crate::faulty::After;
use crate::visits::{LogVisit, OWN, log_in_memory, log_on_disks};
use crate::writes::set;
use crate::{got, same, same_at};
use sb_log::{LogError, StoreCause, WriteLog};
use sb_types::Fault;
use sqlite::{Error, ErrorCode};
use std::alloc::Global;
use std::process::Abort;

/// Each cause, by its number from 1 on, with its name and the text that it prints.
const CAUSES: [(StoreCause, &str, &str); 7] = [
    (StoreCause::NoSpace, "no_space", "no space is left"),
    (
        StoreCause::CannotOpen,
        "cannot_open",
        "the file cannot be opened",
    ),
    (StoreCause::Locked, "locked", "another process has it open"),
    (StoreCause::Io, "io", "it cannot be read or written"),
    (StoreCause::Damaged, "damaged", "it is damaged"),
    (StoreCause::NoMemory, "no_memory", "memory is missing"),
    (
        StoreCause::Other,
        "other",
        "the database reports another error",
    ),
];

const CODES: [(ErrorCode, StoreCause); 8] = [
    (ErrorCode::DiskFull, StoreCause::NoSpace),
    (ErrorCode::CannotOpen, StoreCause::CannotOpen),
    (ErrorCode::DatabaseBusy, StoreCause::Locked),
    (ErrorCode::SystemIoFailure, StoreCause::Io),
    (ErrorCode::DatabaseCorrupt, StoreCause::Damaged),
    (ErrorCode::NotADatabase, StoreCause::Damaged),
    (ErrorCode::OutOfMemory, StoreCause::NoMemory),
    (ErrorCode::Closed, StoreCause::Other),
];

#[test]
fn each_error_of_the_database_has_its_cause(rt: HostRuntime) {
    for (code, cause) in CODES {
        same_at(
            &rt,
            &code,
            &StoreCause::of(&Error::SqliteFailure(code)),
            &cause,
        );
    }
    same(
        &rt,
        &StoreCause::of(&Error::InvalidQuery),
        &StoreCause::Other,
    );
}

/// Asserts the number of the cause, its name, and the text that it prints.
fn assert_told(rt: &impl Abort, alloc: Global, cause: StoreCause, told: (u64, &str, &str)) {
    let printed: Result<String, _> = cause.to_string(alloc);
    let printed = got(rt, printed);
    same(rt, &(cause.number(), cause.name(), printed.as_str()), &told);
    same(rt, &StoreCause::from_number(cause.number()), &Some(cause));
}

#[test]
fn each_cause_has_its_number_its_name_and_its_text(rt: HostRuntime) {
    for (at, (cause, name, text)) in CAUSES.into_iter().enumerate() {
        assert_told(&rt, rt.alloc(), cause, (at as u64 + 1, name, text));
    }
    same(&rt, &StoreCause::from_number(0), &None);
    same(&rt, &StoreCause::from_number(8), &None);
}

#[test]
fn a_refusal_has_a_fault_and_perhaps_a_cause(rt: HostRuntime) {
    let refused = LogError::from(StoreCause::Locked);
    same(
        &rt,
        &(refused.fault(), refused.cause()),
        &(Fault::StoreFailed, Some(StoreCause::Locked)),
    );
    let refused = LogError::from(Fault::WrongOwner);
    same(
        &rt,
        &(refused.fault(), refused.cause()),
        &(Fault::WrongOwner, None),
    );
}

/// Writes until the store fails, or ten times. Why the log is closed before and after.
#[derive(Drop)]
struct Failing;

impl LogVisit for Failing {
    type Outcome = (Option<StoreCause>, Option<StoreCause>);

    fn visit<L: WriteLog + Drop>(self, rt: &impl Abort, _: Global, mut log: L) -> Self::Outcome {
        let before = log.cause();
        for weight in 1..11 {
            let _ = set(rt, &mut log, b"x", weight);
        }
        (before, log.cause())
    }
}

#[test]
fn a_log_says_why_its_store_failed(rt: HostRuntime) {
    let alloc = rt.alloc();
    same(
        &rt,
        &log_in_memory(&rt, alloc, OWN, Failing),
        &Ok((None, None)),
    );
    let mut has_closed = false;
    for log in 0..120 {
        let calls = Calls {
            log,
            db: u64::MAX,
            after: After::Failing,
        };
        let visited = log_on_disks(&rt, alloc, &mut new_disks(alloc), calls, OWN, Failing);
        match visited {
            Ok((None, Some(StoreCause::Io))) => has_closed = true,
            // No call of the disk failed.
            Ok((None, None)) => {}
            visited => same_at(&rt, &log, &visited.is_err(), &true),
        }
    }
    same(&rt, &has_closed, &true);
}
