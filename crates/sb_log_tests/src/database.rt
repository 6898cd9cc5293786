//! A log in a database: what it keeps, also when it is opened again, and the damage that it reports.
use crate::disks::{ENDLESS, new_disks};
use crate::visits::{LogVisit, Looking, OWN, Opening, log_in_memory, log_on_disks, number_of};
use crate::writes::{Answer, held, remove, set, settled};
use crate::{got, same, same_at};
use sb_log::WriteLog;
use sb_types::Fault;
use std::alloc::Global;
use std::process::Abort;

/// The tables of a log, and the row that makes it the log of `a`.
pub const META: &str =
    "CREATE TABLE meta (id INTEGER PRIMARY KEY CHECK (id = 1), form INTEGER NOT NULL, owner TEXT NOT NULL, cluster TEXT NOT NULL, last INTEGER NOT NULL, floor INTEGER NOT NULL) STRICT";

pub const WRITES: &str =
    "CREATE TABLE writes (k TEXT PRIMARY KEY NOT NULL, version INTEGER NOT NULL UNIQUE, tag INTEGER NOT NULL, num INTEGER, txt TEXT) STRICT";

pub const OWN_META_ROW: &str = "INSERT INTO meta VALUES (1, 2, 'a', 'sim', 0, 0)";

/// That row in the form of older releases.
const OLDER: &str = "INSERT INTO meta VALUES (1, 1, 'a', 'sim', 0, 0)";

const SPENT: Answer = Err(Fault::VersionsSpent);

const NOTHING: Answer = Err(Fault::NothingThere);

// Writes to a log of four versions. Returns the answer to each.
fn six_writes<L: WriteLog>(rt: &impl Abort, log: &mut L) -> [Answer; 6] {
    [
        set(rt, log, b"x", 5),
        set(rt, log, b"y", 6),
        remove(rt, log, b"z"),
        remove(rt, log, b"x"),
        set(rt, log, b"x", 7),
        set(rt, log, b"x", 8),
    ]
}

// Tests what it holds at first, the answer to each write, and what it holds then.
fn keeps_writes<L: WriteLog>(rt: &impl Abort, alloc: Global, log: &mut L) {
    same(rt, &held(rt, alloc, log), &(0, 0));
    let answers = settled(rt, six_writes(rt, log));
    let wanted = [Ok(1), Ok(2), NOTHING, Ok(3), Ok(4), SPENT];
    same(rt, &answers, &wanted);
    same(rt, &held(rt, alloc, log), &(2, 4));
}

// Tests a log that is opened again: what it holds, and the answer to the next write, with a smaller greatest version.
fn kept<L: WriteLog>(rt: &impl Abort, alloc: Global, log: &mut L) {
    same(rt, &held(rt, alloc, log), &(2, 4));
    same(rt, &settled(rt, [set(rt, log, b"x", 8)]), &[SPENT]);
}

#[derive(Drop)]
struct Keeping;

impl LogVisit for Keeping {
    type Outcome = ();

    fn visit<L: WriteLog + Drop>(self, rt: &impl Abort, alloc: Global, mut log: L) {
        keeps_writes(rt, alloc, &mut log);
        same(rt, &log.close(), &Ok(()));
    }
}

#[derive(Drop)]
struct Reopening;

impl LogVisit for Reopening {
    type Outcome = ();

    fn visit<L: WriteLog + Drop>(self, rt: &impl Abort, alloc: Global, mut log: L) {
        kept(rt, alloc, &mut log);
    }
}

const OF_FOUR: Opening<'static> = Opening {
    max_version: 4,
    ..OWN
};

const OF_TWO: Opening<'static> = Opening {
    max_version: 2,
    ..OWN
};

const ANOTHERS: Opening<'static> = Opening { owner: b"b", ..OWN };

#[test]
fn a_log_in_memory_keeps_writes(rt: HostRuntime) {
    got(&rt, log_in_memory(&rt, rt.alloc(), OF_FOUR, Keeping));
}

// When it is opened again it holds the same. Under another name it is another owner's.
#[test]
fn a_log_in_files_keeps_writes(rt: HostRuntime) {
    let alloc = rt.alloc();
    let mut disks = new_disks(alloc);
    let written = log_on_disks(&rt, alloc, &mut disks, ENDLESS, OF_FOUR, Keeping);
    same(&rt, &number_of(&rt, written), &0);
    let opened = log_on_disks(&rt, alloc, &mut disks, ENDLESS, OF_TWO, Reopening);
    same(&rt, &number_of(&rt, opened), &0);
    let refused = log_on_disks(&rt, alloc, &mut disks, ENDLESS, ANOTHERS, Looking);
    same(&rt, &number_of(&rt, refused), &20);
}

// Three writes to a log of two versions.
fn three_writes<L: WriteLog>(rt: &impl Abort, log: &mut L) -> [Answer; 3] {
    [
        set(rt, log, b"x", 1),
        set(rt, log, b"x", 2),
        set(rt, log, b"x", 3),
    ]
}

#[derive(Drop)]
struct Spending;

impl LogVisit for Spending {
    type Outcome = ();

    fn visit<L: WriteLog + Drop>(self, rt: &impl Abort, _: Global, mut log: L) {
        let answers = settled(rt, three_writes(rt, &mut log));
        same(rt, &answers, &[Ok(1), Ok(2), SPENT]);
    }
}

#[test]
fn versions_are_spent(rt: HostRuntime) {
    got(&rt, log_in_memory(&rt, rt.alloc(), OF_TWO, Spending));
}

// Tests that opening after these statements has the fault of this number, or opens if that is 0.
fn tells(rt: &impl Abort, alloc: Global, statements: &[&str], fault: u8) {
    let opening = Opening { statements, ..OWN };
    let found = number_of(rt, log_in_memory(rt, alloc, opening, Looking));
    same_at(rt, &statements, &found, &fault);
}

// The same for a statement after those that make both tables.
fn tells_with_tables(rt: &impl Abort, alloc: Global, sql: &str, fault: u8) {
    tells(rt, alloc, &[META, WRITES, sql], fault);
}

// The same if the log is the owner's.
fn tells_of_own(rt: &impl Abort, alloc: Global, sql: &str, fault: u8) {
    tells(rt, alloc, &[META, WRITES, OWN_META_ROW, sql], fault);
}

// Tables that are missing, strange or in use.
fn tells_of_tables(rt: &impl Abort, alloc: Global) {
    let other = "CREATE TABLE other (id INTEGER PRIMARY KEY) STRICT";
    let unowned = "INSERT INTO writes VALUES ('x', 1, 0, NULL, NULL)";
    tells(rt, alloc, &[META], 0);
    tells(rt, alloc, &[META, WRITES], 0);
    tells(rt, alloc, &[other], 19);
    tells(rt, alloc, &["BEGIN"], 18);
    tells(rt, alloc, &[META, OWN_META_ROW], 19);
    tells(rt, alloc, &[META, WRITES, unowned], 19);
}

// Logs of each form that is read, and of unknown forms. Logs whose floor is above the last version, or whose last
// version is above all else.
fn tells_of_meta(rt: &impl Abort, alloc: Global) {
    tells_with_tables(rt, alloc, OWN_META_ROW, 0);
    tells_with_tables(rt, alloc, OLDER, 0);
    tells_with_tables(
        rt,
        alloc,
        "INSERT INTO meta VALUES (1, 0, 'b', 'sim', 0, 0)",
        19,
    );
    tells_with_tables(
        rt,
        alloc,
        "INSERT INTO meta VALUES (1, 3, 'a', 'sim', 0, 0)",
        19,
    );
    tells_with_tables(
        rt,
        alloc,
        "INSERT INTO meta VALUES (1, 2, 'a', 'sim', 7, 0)",
        19,
    );
    tells_with_tables(
        rt,
        alloc,
        "INSERT INTO meta VALUES (1, 2, 'a', 'sim', 0, 7)",
        19,
    );
    tells_with_tables(
        rt,
        alloc,
        "INSERT INTO meta VALUES (1, 1, 'a', 'sim', 7, 0)",
        19,
    );
    tells_with_tables(
        rt,
        alloc,
        "INSERT INTO meta VALUES (1, 1, 'a', 'sim', 0, 7)",
        19,
    );
}

// Logs of another owner, and of another cluster. They also have a last version or a floor that they cannot have.
fn tells_of_others(rt: &impl Abort, alloc: Global) {
    tells_with_tables(
        rt,
        alloc,
        "INSERT INTO meta VALUES (1, 1, 'b', 'sim', 7, 0)",
        20,
    );
    tells_with_tables(
        rt,
        alloc,
        "INSERT INTO meta VALUES (1, 1, 'a', 'other', 0, 7)",
        20,
    );
}

// The same for a log that has this last version and this floor instead of 0 and 0, and has one row, of version 3.
fn tells_of_numbers(rt: &impl Abort, alloc: Global, numbers: &str, fault: u8) {
    let row = "INSERT INTO writes VALUES ('x', 3, 3, 1, NULL)";
    tells(
        rt,
        alloc,
        &[META, WRITES, OWN_META_ROW, row, numbers],
        fault,
    );
}

// Last versions and floors that such a log can have, and others.
fn tells_of_floors(rt: &impl Abort, alloc: Global) {
    tells_of_numbers(rt, alloc, "UPDATE meta SET last = 3", 0);
    tells_of_numbers(rt, alloc, "UPDATE meta SET last = 2, floor = 1", 0);
    tells_of_numbers(rt, alloc, "UPDATE meta SET last = 9, floor = 9", 0);
    tells_of_numbers(
        rt,
        alloc,
        "UPDATE meta SET last = 1099511627775, floor = 1099511627775",
        0,
    );
    tells_of_numbers(rt, alloc, "UPDATE meta SET last = 4, floor = 3", 19);
    tells_of_numbers(rt, alloc, "UPDATE meta SET last = 2, floor = 3", 19);
    tells_of_numbers(rt, alloc, "UPDATE meta SET last = 3, floor = -1", 19);
    tells_of_numbers(rt, alloc, "UPDATE meta SET last = -1", 19);
    tells_of_numbers(
        rt,
        alloc,
        "UPDATE meta SET last = 1099511627776, floor = 1099511627776",
        19,
    );
}

// Writes within the limits, and writes that break one.
fn tells_of_writes(rt: &impl Abort, alloc: Global) {
    tells_of_own(
        rt,
        alloc,
        "INSERT INTO writes VALUES ('x', 1099511627775, 2, 9223372036854775807, NULL), ('y', 1, 3, 1, NULL), ('z', 4, 1, NULL, 'h:1'), ('w', 2, 0, NULL, NULL)",
        0,
    );
    tells_of_own(
        rt,
        alloc,
        "INSERT INTO writes VALUES ('x', 1099511627776, 0, NULL, NULL)",
        19,
    );
    tells_of_own(
        rt,
        alloc,
        "INSERT INTO writes VALUES ('X', 1, 0, NULL, NULL)",
        19,
    );
    tells_of_own(
        rt,
        alloc,
        "INSERT INTO writes VALUES ('x', 1, 3, 2, NULL)",
        19,
    );
}

// Texts within their limits and beyond, and one in a log of form 1, which cannot have any.
fn tells_of_texts(rt: &impl Abort, alloc: Global) {
    let texts = "INSERT INTO writes VALUES ('x', 1, 4, NULL, 'é b'), ('y', 2, 1, NULL, 'h:1')";
    tells_of_own(rt, alloc, texts, 0);
    tells(rt, alloc, &[META, WRITES, OLDER, texts], 19);
    tells_of_own(
        rt,
        alloc,
        "INSERT INTO writes VALUES ('x', 1, 4, NULL, '')",
        19,
    );
    tells_of_own(
        rt,
        alloc,
        "INSERT INTO writes VALUES ('x', 1, 4, 0, 'b')",
        19,
    );
    tells_of_own(
        rt,
        alloc,
        "INSERT INTO writes VALUES ('x', 1, 5, NULL, 'b')",
        19,
    );
}

#[test]
fn damage_is_told(rt: HostRuntime) {
    tells_of_tables(&rt, rt.alloc());
    tells_of_meta(&rt, rt.alloc());
    tells_of_others(&rt, rt.alloc());
    tells_of_floors(&rt, rt.alloc());
    tells_of_writes(&rt, rt.alloc());
    tells_of_texts(&rt, rt.alloc());
}
