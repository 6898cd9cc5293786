//! What an opening that fails or is refused leaves of a log: all of its rows.
use crate::disks::{Calls, ENDLESS, new_disks, whole_copy};
use crate::faulty::After;
use crate::visits::{
    LogVisit, Looking, OWN, Opening, form_on_disks, log_on_disks, number_of, run_on_disks,
};
use crate::writes::{OWNER, key, remove, set, settled};
use crate::{got, same, same_at};
use sb_log::WriteLog;
use sb_table::Table;
use sb_types::{Fault, Key, Slot};
use sqlite::Files;
use sqlite_disk::{Crash, Memory};
use std::alloc::Global;
use std::process::Abort;

/// The version of a key's last write, and its weight, which a removal does not have.
type Row = Option<(u64, Option<u64>)>;

/// How many keys a log holds, and the rows of x and y.
type Rows = (usize, Row, Row);

/// What a log holds after the writes of `Writing`.
const ROWS: Rows = (2, Some((3, None)), Some((2, Some(6))));

/// The name of another owner.
const ANOTHER: &[u8] = b"b";

/// Sets two keys, and removes the first.
#[derive(Drop)]
struct Writing;

impl LogVisit for Writing {
    type Outcome = ();

    fn visit<L: WriteLog + Drop>(self, rt: &impl Abort, _: Global, mut log: L) {
        let answers = [
            set(rt, &mut log, b"x", 5),
            set(rt, &mut log, b"y", 6),
            remove(rt, &mut log, b"x"),
        ];
        same(rt, &settled(rt, answers), &[Ok(1), Ok(2), Ok(3)]);
    }
}

fn row_of(table: &Table, key: &Key) -> Row {
    match table.get(key) {
        Some((version, Slot::Set(value))) => Some((version, value.as_weight())),
        Some((version, Slot::Removed)) => Some((version, None)),
        None => None,
    }
}

fn rows_in<L: WriteLog>(rt: &impl Abort, alloc: Global, log: &mut L) -> Rows {
    let table = got(rt, log.load(alloc));
    let x = row_of(&table, &key(rt, b"x"));
    (table.len(), x, row_of(&table, &key(rt, b"y")))
}

/// The rows of a log, and the version of its next write.
#[derive(Drop)]
struct Reading;

impl LogVisit for Reading {
    type Outcome = (Rows, u64);

    fn visit<L: WriteLog + Drop>(self, rt: &impl Abort, alloc: Global, mut log: L) -> (Rows, u64) {
        let rows = rows_in(rt, alloc, &mut log);
        (rows, got(rt, set(rt, &mut log, b"z", 1)))
    }
}

/// How a log with rows is opened: by which owner, with statements that spoil it before and mend it after. Then the
/// fault of the opening.
#[derive(Clone, Copy)]
struct Case {
    owner: &'static [u8],
    spoil: &'static [&'static str],
    mend: &'static [&'static str],
    fault: u8,
}

const WHOLE: Case = Case {
    owner: OWNER,
    spoil: &[],
    mend: &[],
    fault: 0,
};

const OTHER_OWNERS_LOG: Case = Case {
    owner: ANOTHER,
    spoil: &[],
    mend: &[],
    fault: 20,
};

/// A last version above both the floor and the last row's version is damage.
const DAMAGED: Case = Case {
    owner: OWNER,
    spoil: &["UPDATE meta SET last = 7"],
    mend: &["UPDATE meta SET last = 0"],
    fault: 19,
};

const OF_ANOTHER_FORM: Case = Case {
    owner: OWNER,
    spoil: &["UPDATE meta SET form = 3"],
    mend: &["UPDATE meta SET form = 2"],
    fault: 19,
};

/// A log of older releases, which an opening raises to form 2.
const OF_FORM_1: Case = Case {
    owner: OWNER,
    spoil: &["UPDATE meta SET form = 1"],
    mend: &[],
    fault: 0,
};

/// The files of a log that has rows, spoiled.
fn written(rt: &impl Abort, alloc: Global, case: Case) -> Files<Memory> {
    let mut disks = new_disks(alloc);
    got(
        rt,
        log_on_disks(rt, alloc, &mut disks, ENDLESS, OWN, Writing),
    );
    for sql in case.spoil {
        run_on_disks(rt, alloc, &mut disks, sql);
    }
    disks
}

/// Opens it while a call can fail. Returns the number of the fault.
fn open_once(
    rt: &impl Abort,
    alloc: Global,
    disks: &mut Files<Memory>,
    calls: Calls,
    owner: &[u8],
) -> u8 {
    let opening = Opening { owner, ..OWN };
    let opened = log_on_disks(rt, alloc, disks, calls, opening, Looking);
    number_of(rt, opened)
}

/// Mends a log and opens it as its owner's. Returns its rows, and the version of its next write.
fn rows_of(
    rt: &impl Abort,
    alloc: Global,
    disks: &mut Files<Memory>,
    mend: &[&str],
) -> (Rows, u64) {
    let opening = Opening {
        statements: mend,
        ..OWN
    };
    got(
        rt,
        log_on_disks(rt, alloc, disks, ENDLESS, opening, Reading),
    )
}

/// Loses what was not synced.
fn crash(disks: &mut Files<Memory>) {
    disks.log.crash();
    disks.db.crash();
}

/// Opens a copy of such files while a call can fail, and again after a crash. Tests that each row is there, and that
/// the next write has the next version. Returns the number of the first fault.
fn open_twice(
    rt: &impl Abort,
    alloc: Global,
    files: &Files<Memory>,
    calls: Calls,
    case: Case,
) -> u8 {
    let mut disks = whole_copy(rt, alloc, files);
    let number = open_once(rt, alloc, &mut disks, calls, case.owner);
    crash(&mut disks);
    let found = rows_of(rt, alloc, &mut disks, case.mend);
    same_at(rt, &(calls.log, case.fault), &found, &(ROWS, 4));
    number
}

/// Makes one call of the log's file fail, each from `from` to `to` in its turn. Tests that no opening succeeds or
/// reports another fault.
fn miss_each(rt: &impl Abort, alloc: Global, case: Case, after: After, from: u64, to: u64) {
    let files = written(rt, alloc, case);
    for log in from..to {
        let calls = Calls {
            log,
            after,
            ..ENDLESS
        };
        let number = open_twice(rt, alloc, &files, calls, case);
        same_at(rt, &log, &number, &18);
    }
}

/// Makes the call after so many calls of the log's file fail. Tests that the opening has then ended as on disks that do
/// not fail.
fn ends_within(rt: &impl Abort, alloc: Global, case: Case, log: u64) {
    let files = written(rt, alloc, case);
    let number = open_twice(rt, alloc, &files, Calls { log, ..ENDLESS }, case);
    same_at(rt, &log, &number, &case.fault);
}

// The log's file has 16 frames, and 17 after a change of the row of meta. An opening reads each four times, and makes
// 33 other calls. They are for the lengths, the header, the page after the last frame, the gate, the five pages twice,
// and syncs. Each of them fails in one of the tests below.
#[test]
fn an_opening_makes_97_calls(rt: HostRuntime) {
    ends_within(&rt, rt.alloc(), WHOLE, 97);
    ends_within(&rt, rt.alloc(), OTHER_OWNERS_LOG, 97);
}

#[test]
fn an_opening_behind_a_change_makes_101_calls(rt: HostRuntime) {
    ends_within(&rt, rt.alloc(), DAMAGED, 101);
    ends_within(&rt, rt.alloc(), OF_ANOTHER_FORM, 101);
}

// The statement that raises the form makes six of these calls.
#[test]
fn an_opening_that_raises_the_form_makes_107_calls(rt: HostRuntime) {
    ends_within(&rt, rt.alloc(), OF_FORM_1, 107);
}

#[test]
fn an_opening_that_fails_at_calls_1_to_50_loses_nothing(rt: HostRuntime) {
    miss_each(&rt, rt.alloc(), WHOLE, After::Answering, 0, 50);
}

#[test]
fn an_opening_that_fails_at_calls_51_to_97_loses_nothing(rt: HostRuntime) {
    miss_each(&rt, rt.alloc(), WHOLE, After::Answering, 50, 97);
}

#[test]
fn an_opening_on_a_disk_that_stops_at_calls_1_to_50_loses_nothing(rt: HostRuntime) {
    miss_each(&rt, rt.alloc(), WHOLE, After::Failing, 0, 50);
}

#[test]
fn an_opening_on_a_disk_that_stops_at_calls_51_to_97_loses_nothing(rt: HostRuntime) {
    miss_each(&rt, rt.alloc(), WHOLE, After::Failing, 50, 97);
}

#[test]
fn an_opening_as_anothers_that_fails_at_calls_1_to_50_loses_nothing(rt: HostRuntime) {
    miss_each(&rt, rt.alloc(), OTHER_OWNERS_LOG, After::Answering, 0, 50);
}

#[test]
fn an_opening_as_anothers_that_fails_at_calls_51_to_97_loses_nothing(rt: HostRuntime) {
    miss_each(&rt, rt.alloc(), OTHER_OWNERS_LOG, After::Answering, 50, 97);
}

#[test]
fn an_opening_of_damage_that_fails_at_calls_1_to_50_loses_nothing(rt: HostRuntime) {
    miss_each(&rt, rt.alloc(), DAMAGED, After::Answering, 0, 50);
}

#[test]
fn an_opening_of_damage_that_fails_at_calls_51_to_101_loses_nothing(rt: HostRuntime) {
    miss_each(&rt, rt.alloc(), DAMAGED, After::Answering, 50, 101);
}

#[test]
fn an_opening_of_another_form_that_fails_at_calls_1_to_50_loses_nothing(rt: HostRuntime) {
    miss_each(&rt, rt.alloc(), OF_ANOTHER_FORM, After::Answering, 0, 50);
}

#[test]
fn an_opening_of_another_form_that_fails_at_calls_51_to_101_loses_nothing(rt: HostRuntime) {
    miss_each(&rt, rt.alloc(), OF_ANOTHER_FORM, After::Answering, 50, 101);
}

/// Opens what an opening left that raises the form. Tests that each row is there, the next write has the next version,
/// and the form is 2.
fn is_raised(rt: &impl Abort, alloc: Global, disks: &mut Files<Memory>, log: u64) {
    let found = rows_of(rt, alloc, disks, &[]);
    let form = form_on_disks(rt, alloc, disks);
    same_at(rt, &log, &(found, form), &((ROWS, 4), 2));
}

/// Makes one call of an opening fail that raises the form, each from call 101 on in its turn. Then what was not synced
/// stays once, and is lost once.
fn miss_raise(rt: &impl Abort, alloc: Global, after: After) {
    let files = written(rt, alloc, OF_FORM_1);
    for log in 100..107 {
        let calls = Calls {
            log,
            after,
            ..ENDLESS
        };
        let mut disks = whole_copy(rt, alloc, &files);
        let number = open_once(rt, alloc, &mut disks, calls, OWNER);
        same_at(rt, &log, &number, &18);
        is_raised(rt, alloc, &mut whole_copy(rt, alloc, &disks), log);
        crash(&mut disks);
        is_raised(rt, alloc, &mut disks, log);
    }
}

#[test]
fn an_opening_that_fails_to_raise_the_form_loses_nothing(rt: HostRuntime) {
    miss_raise(&rt, rt.alloc(), After::Answering);
}

#[test]
fn an_opening_on_a_disk_that_stops_at_the_raise_loses_nothing(rt: HostRuntime) {
    miss_raise(&rt, rt.alloc(), After::Failing);
}

/// Opens such files twice. Tests that the fault stays, and that the form stays.
fn keeps_form(rt: &impl Abort, alloc: Global, case: Case, form: i64) {
    let mut disks = written(rt, alloc, case);
    for _ in 0..2 {
        let number = open_once(rt, alloc, &mut disks, ENDLESS, case.owner);
        let found = form_on_disks(rt, alloc, &mut disks);
        same_at(rt, &case.spoil, &(number, found), &(case.fault, form));
    }
}

/// The same for a log of form 1 that a statement spoils.
fn stays_in_form_1(rt: &impl Abort, alloc: Global, sql: &'static [&'static str], fault: u8) {
    let case = Case {
        spoil: sql,
        fault,
        ..OF_FORM_1
    };
    keeps_form(rt, alloc, case, 1);
}

#[test]
fn a_refused_log_keeps_its_form(rt: HostRuntime) {
    let alloc = rt.alloc();
    let anothers = Case {
        owner: ANOTHER,
        fault: 20,
        ..OF_FORM_1
    };
    keeps_form(&rt, alloc, anothers, 1);
    keeps_form(&rt, alloc, OF_ANOTHER_FORM, 3);
    stays_in_form_1(&rt, alloc, &["UPDATE meta SET form = 1, last = 4"], 19);
    stays_in_form_1(&rt, alloc, &["UPDATE meta SET form = 1, floor = 1"], 19);
    stays_in_form_1(
        &rt,
        alloc,
        &[
            "UPDATE meta SET form = 1",
            "UPDATE writes SET tag = 4, num = NULL, txt = 'x' WHERE k = 'y'",
        ],
        19,
    );
    stays_in_form_1(
        &rt,
        alloc,
        &[
            "UPDATE meta SET form = 1",
            "UPDATE writes SET num = 3 WHERE k = 'x'",
        ],
        19,
    );
}
