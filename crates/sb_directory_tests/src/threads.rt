//! A reader in a thread of its own, beside a writer in another.
ghost use Rattle.std.specs.Prelude.{◌≡◌};

use crate::making::{commit, delta_under, log_of, name, new_node, prefix, received};
use crate::seats::{all_shown, close};
use crate::{got, same, there};
use sb_directory::{Applied, Directory, DirectoryTag, ReaderSeat};
use sb_holdings::BlockEnd;
use sb_log::PlainLog;
use sb_node::NodeCore;
use sb_types::{Name, Prefix};
use sb_views::{NewHistory, Snapshot};
use std::alloc::Global;
use std::marker::Brand;
use std::process::Abort;
use std::sync::Wait;
use std::sync::ledger::Blank;
use std::thread::{Threads, join};

/// How many writes of each owner are made beside the reader. Each has a key of its own, in the order of the versions.
const WRITES: u64 = 64;

/// How often the reader enters.
const TURNS: u64 = 2_000;

/// The key of the write after a version below 100.
fn key_behind(version: u64) -> [u8; 2] {
    [
        b'0' + (version / 10 % 10) as u8,
        b'0' + (version % 10) as u8,
    ]
}

/// What a reader saw of an owner: the version up to which it was shown, and whether all was right. That is so if the
/// version never fell, and the rows were those of its writes up to there.
#[derive(Clone, Copy)]
struct OwnerReadings {
    owner: Name,
    upto: u64,
    is_right: bool,
}

fn new_readings(owner: Name) -> OwnerReadings {
    OwnerReadings {
        owner,
        upto: 0,
        is_right: true,
    }
}

/// Whether an owner's rows are those of its versions from 1 up to this one.
fn are_whole(snapshot: &Snapshot<'_>, owner: Name, all: Prefix, upto: u64) -> bool {
    let mut version = 0u64;
    for row in snapshot.rows(Some(owner), all) {
        version = version.saturating_add(1);
        if row.live.version() != version {
            return false;
        }
    }
    version == upto
}

impl OwnerReadings {
    fn look(&mut self, snapshot: &Snapshot<'_>, all: Prefix) {
        let upto = snapshot.upto(&self.owner);
        self.is_right &= upto >= self.upto && are_whole(snapshot, self.owner, all, upto);
        self.upto = upto;
    }
}

/// What a reader sees if it enters in each of so many turns.
fn read_along<S: DirectoryTag>(
    mut seat: ReaderSeat<S>,
    all: Prefix,
    turns: u64,
    mut seen: [OwnerReadings; 2],
) -> (ReaderSeat<S>, [OwnerReadings; 2]) {
    for _ in 0..turns {
        seat = match seat.enter() {
            Ok(entered) => {
                let snapshot = entered.snapshot();
                seen[0].look(&snapshot, all);
                seen[1].look(&snapshot, all);
                entered.leave()
            }
            Err(seat) => seat,
        };
    }
    (seat, seen)
}

/// Tests that one write was taken, and shown at once.
fn is_taken(rt: &impl Abort, applied: &Applied) {
    match applied.ends.ends() {
        [BlockEnd::Taken(1)] => all_shown(rt, applied.shown),
        [BlockEnd::NoMemory(_)] => panic!(rt; "error: NoMemory"),
        _ => panic!(rt; "error: not taken"),
    }
}

/// Takes the write of b after this version. Tests that it is shown at once.
fn take_of_b<S: DirectoryTag, H: Wait + Drop, R: Wait + Abort>(
    rt: &R,
    alloc: Global,
    directory: &Directory<S, H>,
    seat: &mut ReaderSeat<S>,
    version: u64,
) {
    let delta = delta_under(rt, alloc, b"b", version, &key_behind(version));
    let delta = received(rt, alloc, delta);
    is_taken(rt, &got(rt, directory.apply(rt, seat, &delta)));
}

/// Takes the next write of the node a. Tests that it is shown at once.
fn take_own<S: DirectoryTag, H: Wait + Drop, R: Wait + Abort>(
    rt: &R,
    directory: &Directory<S, H>,
    seat: &mut ReaderSeat<S>,
    log: &mut PlainLog,
    version: u64,
) {
    let committed = commit(rt, log, &key_behind(version));
    all_shown(rt, got(rt, directory.take_own(rt, seat, &committed)).shown);
}

/// Makes writes of the node a and of b in turn, each shown at once.
fn write_along<S: DirectoryTag, H: Wait + Drop, R: Wait + Abort>(
    rt: &R,
    alloc: Global,
    directory: &Directory<S, H>,
    mut seat: ReaderSeat<S>,
) -> ReaderSeat<S> {
    let mut log = log_of(rt, alloc, b"a");
    for version in 0..WRITES {
        take_own(rt, directory, &mut seat, &mut log, version);
        take_of_b(rt, alloc, directory, &mut seat, version);
    }
    seat
}

/// What a reader in a thread of its own sees beside a writer in another, and what it sees at last.
fn run_both<S: DirectoryTag + Send + Sync, R: Wait + Threads + Abort + Sync + Send>(
    rt: &R,
    alloc: Global,
    directory: &Directory<S, &R>,
    reader: ReaderSeat<S>,
    writer: ReaderSeat<S>,
) -> ([OwnerReadings; 2], ReaderSeat<S>, ReaderSeat<S>) {
    let all = prefix(rt, b"");
    let seen = [new_readings(name(rt, b"a")), new_readings(name(rt, b"b"))];
    let ((reader, seen), writer) = join(
        rt,
        move || read_along(reader, all, TURNS, seen),
        move || write_along(rt, alloc, directory, writer),
    );
    let (reader, seen) = read_along(reader, all, 1, seen);
    (seen, reader, writer)
}

/// The same, from the two seats of a directory.
fn run_from<S: DirectoryTag + Send + Sync, R: Wait + Threads + Abort + Sync + Send>(
    rt: &R,
    alloc: Global,
    directory: &Directory<S, &R>,
    seats: &mut Vec<ReaderSeat<S>>,
) -> [OwnerReadings; 2] {
    let reader = there(rt, seats.pop());
    let writer = there(rt, seats.pop());
    let (seen, reader, writer) = run_both(rt, alloc, directory, reader, writer);
    got(rt, seats.push(reader));
    got(rt, seats.push(writer));
    seen
}

/// The versions up to which the reader was shown a and b at last, and whether all that it saw was right. Then how many
/// events there were.
type Beside = ([u64; 2], bool, u64);

fn read_beside<S: DirectoryTag + Send + Sync, R: Wait + Threads + Abort + Sync + Send>(
    rt: &R,
    alloc: Global,
    history: NewHistory,
    blank: Blank,
    core: NodeCore,
) -> Beside
    requires history { history.seen.book ≡ S.history }
    requires opening { S.opening ≡ core.node }
    requires settings { S.settings ≡ core.settings }
    requires name { blank.name ≡ S.name }
    requires parts { blank.parts ≡ S.parts }
    requires all { (2 ≡ S.seats) × (2 ≡ S.parts) }
{
    let made = Directory::<S, &R>::make(rt, alloc, history, blank, core, 2);
    let (directory, mut seats) = got(rt, made);
    let [a, b] = run_from(rt, alloc, &directory, &mut seats);
    let closing = close(rt, directory, seats);
    ([a.upto, b.upto], a.is_right && b.is_right, closing.events)
}

#[test]
fn a_reader_beside_a_writer(rt: HostRuntime) {
    let alloc = rt.alloc();
    let core = new_node(&rt, alloc);
    let found = read_beside::<Brand, _>(&rt, alloc, NewHistory::new(), Blank::new(2), core);
    same(&rt, &found, &([WRITES, WRITES], true, 2 * WRITES));
}
