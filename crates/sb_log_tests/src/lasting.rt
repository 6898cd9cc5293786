//! What a log in a database holds after many writes, and what one in files holds when it is opened again. Both hold the
//! rows of a log in memory that took the same writes.
use crate::disks::{ENDLESS, new_disks};
use crate::visits::{LogVisit, OWN, Opening, log_in_memory, log_on_disks, rows_on_disks};
use crate::writes::{CLUSTER, OWNER, many, name, put, remove, set, settled, slot_parts};
use crate::{got, same};
use sb_lines::log_run;
use sb_log::{PlainLog, WriteLog};
use sb_table::Table;
use sb_types::{Fault, Slot, Value};
use std::alloc::Global;
use std::process::Abort;

const LONG: Opening<'static> = Opening {
    max_version: 10_000,
    ..OWN
};

/// How many entries of a table another one has too, with the same key, version and value.
fn shared(one: &Table, other: &Table) -> usize {
    let mut count: usize = 0;
    for entry in one.after(0) {
        if let Some((version, slot)) = other.get(entry.key()) {
            if version == entry.version() && slot_parts(slot) == slot_parts(entry.slot()) {
                count = count.saturating_add(1);
            }
        }
    }
    count
}

/// How many entries a log holds, and how many it shares with a log in memory that took so many rounds of the same
/// writes.
fn compared<L: WriteLog>(
    rt: &impl Abort,
    alloc: Global,
    log: &mut L,
    rounds: u64,
) -> (usize, usize) {
    let mut plain = PlainLog::new(alloc, name(rt, OWNER), name(rt, CLUSTER), 10_000);
    same(
        rt,
        &many(rt, &mut plain, rounds),
        &rounds.saturating_mul(10),
    );
    let wanted = got(rt, plain.load(alloc));
    let found = got(rt, log.load(alloc));
    (found.len(), shared(&wanted, &found))
}

/// Takes so many rounds of writes over ten keys. Returns how many are answered in their turn.
#[derive(Drop)]
struct Many {
    rounds: u64,
}

impl LogVisit for Many {
    type Outcome = u64;

    fn visit<L: WriteLog + Drop>(self, rt: &impl Abort, _: Global, mut log: L) -> u64 {
        many(rt, &mut log, self.rounds)
    }
}

/// Compares a log with one in memory that took as many rounds.
#[derive(Drop)]
struct Comparing {
    rounds: u64,
}

impl LogVisit for Comparing {
    type Outcome = (usize, usize);

    fn visit<L: WriteLog + Drop>(
        self,
        rt: &impl Abort,
        alloc: Global,
        mut log: L,
    ) -> (usize, usize) {
        compared(rt, alloc, &mut log, self.rounds)
    }
}

/// Takes writes, and then compares.
#[derive(Drop)]
struct TakingAndComparing {
    rounds: u64,
}

impl LogVisit for TakingAndComparing {
    type Outcome = (u64, (usize, usize));

    fn visit<L: WriteLog + Drop>(
        self,
        rt: &impl Abort,
        alloc: Global,
        mut log: L,
    ) -> (u64, (usize, usize)) {
        let in_turn = many(rt, &mut log, self.rounds);
        (in_turn, compared(rt, alloc, &mut log, self.rounds))
    }
}

// Each row is read, so ten entries are ten rows.
#[test]
fn a_log_in_a_database_keeps_ten_of_many(rt: HostRuntime) {
    let alloc = rt.alloc();
    let visitor = TakingAndComparing { rounds: 1000 };
    let outcome = got(&rt, log_in_memory(&rt, alloc, LONG, visitor));
    same(&rt, &outcome, &(10_000, (10, 10)));
}

#[test]
fn a_log_in_files_keeps_ten_of_many(rt: HostRuntime) {
    let alloc = rt.alloc();
    let mut disks = new_disks(alloc);
    let visitor = Many { rounds: 10 };
    let in_turn = log_on_disks(&rt, alloc, &mut disks, ENDLESS, LONG, visitor);
    same(&rt, &got(&rt, in_turn), &100);
    same(&rt, &rows_on_disks(&rt, alloc, &mut disks), &10);
    let visitor = Comparing { rounds: 10 };
    let outcome = log_on_disks(&rt, alloc, &mut disks, ENDLESS, LONG, visitor);
    same(&rt, &got(&rt, outcome), &(10, 10));
}

/// Sets x, removes it, and sets a key to a value of each other kind.
#[derive(Drop)]
struct Five;

impl LogVisit for Five {
    type Outcome = ();

    fn visit<L: WriteLog + Drop>(self, rt: &impl Abort, alloc: Global, mut log: L) {
        let addr = got(rt, Value::addr(alloc, b"h:1"));
        let text = got(rt, Value::text(alloc, b"\xc3\xa9 \\ b\n"));
        let answers = [
            set(rt, &mut log, b"x", 5),
            remove(rt, &mut log, b"x"),
            put(rt, &mut log, b"y", Slot::Set(Value::flag(true))),
            put(rt, &mut log, b"t", Slot::Set(text)),
            put(rt, &mut log, b"u", Slot::Set(addr)),
        ];
        let wanted = [Ok(1), Ok(2), Ok(3), Ok(4), Ok(5)];
        same(rt, &settled(rt, answers), &wanted);
    }
}

/// Prints a log. Returns what was printed.
#[derive(Drop)]
struct Printing;

impl LogVisit for Printing {
    type Outcome = (Result<(), Fault>, Vec<u8>);

    fn visit<L: WriteLog + Drop>(
        self,
        _: &impl Abort,
        alloc: Global,
        mut log: L,
    ) -> (Result<(), Fault>, Vec<u8>) {
        let mut lines = Vec::new(alloc);
        let (printed, _) = log_run(alloc, &mut log, &mut lines);
        (printed, lines)
    }
}

#[test]
fn a_log_in_files_is_printed(rt: HostRuntime) {
    let alloc = rt.alloc();
    let mut disks = new_disks(alloc);
    got(
        &rt,
        log_on_disks(&rt, alloc, &mut disks, ENDLESS, OWN, Five),
    );
    let outcome = log_on_disks(&rt, alloc, &mut disks, ENDLESS, OWN, Printing);
    let (printed, lines) = got(&rt, outcome);
    same(&rt, &printed, &Ok(()));
    let wanted =
        b"a t 4 text \xc3\xa9 \\5c b\\0a\na u 5 addr h:1\na x 2 removed -\na y 3 flag true\nlast 5\n";
    same(&rt, &lines.as_slice(), &wanted.as_slice());
}
