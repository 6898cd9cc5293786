//! Measures readers of a directory beside a writer, and how soon a write is shown.
ghost use Rattle.std.specs.Prelude.{◌≡◌};

use crate::plan::{Plan, Telling};
use crate::problem::Problem;
use crate::reading::{Question, ReadingEnd, go_through, look_up, questions};
use crate::report::{Measured, tell};
use crate::sample::{Kinds, ME, block_of, hear, new_node};
use crate::writing::Writer;
use sb_directory::{Directory, DirectoryTag, ReaderSeat};
use sb_node::NodeCore;
use sb_types::Fault;
use sb_views::{NewHistory, NodeTag};
use std::alloc::{AllocError, Global};
use std::marker::Brand;
use std::sync::Wait;
use std::sync::atomic::{AtomicBool, Ordering};
use std::sync::ledger::Blank;
use std::thread;
use std::thread::Threads;
use std::time::{Clock, CpuClock, Instant};

/// How many seats there are: those of three readers, and that of the writer.
const SEATS: usize = 4;

/// The most readers that read at once.
const READERS_MOST: usize = 3;

/// What a reader does: what it looks up, and how often.
#[derive(Clone, Copy)]
struct Task<'a> {
    asked: &'a [Question],
    rounds: u64,
}

/// What readers did beside a writer: reads by the time that passed, reads by the time that their threads ran, and the
/// writes meanwhile.
#[derive(Clone, Copy, Debug)]
struct ConcurrentFigures {
    readers: u64,
    passed: Measured,
    ran: Measured,
    writes: u64,
}

/// All that is measured.
#[derive(Drop)]
struct Figures {
    shown: Measured,
    listed: Measured,
    beside: Vec<ConcurrentFigures>,
}

fn print_beside<R: Print>(
    rt: &R,
    telling: Telling,
    beside: ConcurrentFigures,
) -> Result<(), Problem> {
    let readers = beside.readers;
    match telling {
        Telling::Times => {
            println!(rt; "read-{readers} {} read/s", beside.passed.rate())?;
            println!(rt; "read-{readers} {} ns/read", beside.ran.nanos())?;
            println!(rt; "write-{readers} {} write", beside.writes)?;
        }
        Telling::Counts => println!(rt; "read-{readers} {} read", beside.passed.units())?,
    }
    Ok(())
}

impl Figures {
    /// Prints a line for each figure: a name, a value and a unit.
    fn print<R: Print>(&self, rt: &R, telling: Telling) -> Result<(), Problem> {
        tell(rt, telling, Ok(self.shown), "shown", "write")?;
        tell(rt, telling, Ok(self.listed), "prefix", "row")?;
        for beside in &self.beside {
            print_beside(rt, telling, *beside)?;
        }
        Ok(())
    }
}

/// What is left after a measurement: the writer, the seats, and what was measured.
#[derive(Drop)]
struct MeasuringEnd<S: NodeTag> {
    writer: Writer<S>,
    seats: Vec<ReaderSeat<S>>,
    beside: ConcurrentFigures,
}

fn take_some<S: NodeTag>(
    alloc: Global,
    seats: &mut Vec<ReaderSeat<S>>,
    count: usize,
) -> Result<Vec<ReaderSeat<S>>, AllocError> {
    let mut some = Vec::new(alloc);
    for _ in 0..count {
        if let Some(seat) = seats.pop() {
            some.push(seat)?;
        }
    }
    Ok(some)
}

/// Runs each reader in a thread of its own.
fn read_all<S: DirectoryTag + Send + Sync, R: Threads + CpuClock + Sync>(
    rt: &R,
    seats: Vec<ReaderSeat<S>>,
    task: Task<'_>,
) -> Result<Vec<Result<ReadingEnd<S>, Problem>>, AllocError> {
    thread::map_vec(
        rt,
        seats,
        &|seat| look_up(rt, seat, task.asked, task.rounds),
    )
}

/// Adds up what the readers found, and puts their seats back.
fn add_up<S: NodeTag>(
    read: Vec<Result<ReadingEnd<S>, Problem>>,
    seats: &mut Vec<ReaderSeat<S>>,
) -> Result<Measured, Problem> {
    let mut all = Measured::NOTHING;
    for one in read {
        let ReadingEnd { seat, found } = one?;
        all.add(found);
        seats.push(seat)?;
    }
    Ok(all)
}

type WritingEnd<S> = (Writer<S>, Result<(), Fault>);

/// Runs readers beside a writer. Returns the time until the last of them has read.
fn run_beside<S: DirectoryTag + Send + Sync, R: Threads + Wait + Clock + CpuClock + Sync + Send>(
    rt: &R,
    directory: &Directory<S, &R>,
    writer: Writer<S>,
    seats: Vec<ReaderSeat<S>>,
    task: Task<'_>,
) -> (
    WritingEnd<S>,
    Result<Vec<Result<ReadingEnd<S>, Problem>>, AllocError>,
) {
    let stop = AtomicBool::new(false);
    thread::join(
        rt,
        || {
            let mut writer = writer;
            let wrote = writer.write_until(rt, directory, &stop);
            (writer, wrote)
        },
        || {
            let read = read_all(rt, seats, task);
            stop.store(true, Ordering::SeqCst);
            read
        },
    )
}

/// Measures these readers beside the writer.
fn measure_beside<
    S: DirectoryTag + Send + Sync,
    R: Threads + Wait + Clock + CpuClock + Sync + Send,
>(
    rt: &R,
    alloc: Global,
    directory: &Directory<S, &R>,
    writer: Writer<S>,
    seats: Vec<ReaderSeat<S>>,
    task: Task<'_>,
) -> Result<MeasuringEnd<S>, Problem> {
    let readers = seats.len() as u64;
    let before = writer.written();
    let start = Instant::now(rt)?;
    let ((writer, wrote), read) = run_beside(rt, directory, writer, seats, task);
    let spent = start.elapsed(rt)?;
    wrote?;
    let mut seats = Vec::new(alloc);
    let ran = add_up(read?, &mut seats)?;
    let writes = writer.written().saturating_sub(before);
    let beside = ConcurrentFigures {
        readers,
        passed: Measured::new(spent, ran.units()),
        ran,
        writes,
    };
    Ok(MeasuringEnd {
        writer,
        seats,
        beside,
    })
}

/// Measures one reader, two and three beside the writer.
fn measure_readers<
    S: DirectoryTag + Send + Sync,
    R: Threads + Wait + Clock + CpuClock + Sync + Send,
>(
    rt: &R,
    alloc: Global,
    directory: &Directory<S, &R>,
    writer: Writer<S>,
    seats: Vec<ReaderSeat<S>>,
    task: Task<'_>,
) -> Result<Vec<ConcurrentFigures>, Problem> {
    let (mut writer, mut seats) = (writer, seats);
    let mut beside = Vec::new(alloc);
    for count in 1..=READERS_MOST {
        let some = take_some(alloc, &mut seats, count)?;
        let left = measure_beside(rt, alloc, directory, writer, some, task)?;
        writer = left.writer;
        for seat in left.seats {
            seats.push(seat)?;
        }
        beside.push(left.beside)?;
    }
    Ok(beside)
}

/// Measures all figures from these seats.
fn measure_from<S: DirectoryTag + Send + Sync, R: Threads + Wait + Clock + CpuClock + Sync + Send>(
    rt: &R,
    alloc: Global,
    directory: &Directory<S, &R>,
    seats: Vec<ReaderSeat<S>>,
    plan: Plan,
) -> Result<Figures, Problem> {
    let mut seats = seats;
    let asked = questions(alloc, plan)?;
    let seat = seats.pop().ok_or(Fault::BadSetting)?;
    let mut writer = Writer::new(alloc, seat)?;
    let shown = writer.time_writes(rt, directory, plan.writes())?;
    let seat = seats.pop().ok_or(Fault::BadSetting)?;
    let ReadingEnd { seat, found } = go_through(rt, seat, &asked)?;
    seats.push(seat)?;
    let task = Task {
        asked: &asked,
        rounds: plan.rounds,
    };
    Ok(Figures {
        shown,
        listed: found,
        beside: measure_readers(rt, alloc, directory, writer, seats, task)?,
    })
}

/// Makes a directory of this node, and measures it.
fn measure_node<S: DirectoryTag + Send + Sync, R: Threads + Wait + Clock + CpuClock + Sync + Send>(
    rt: &R,
    alloc: Global,
    new_history: NewHistory,
    blank: Blank,
    node: NodeCore,
    plan: Plan,
) -> Result<Figures, Problem>
    requires history { new_history.seen.book ≡ S.history }
    requires opening { S.opening ≡ node.node }
    requires settings { S.settings ≡ node.settings }
    requires name { blank.name ≡ S.name }
    requires parts { blank.parts ≡ S.parts }
    requires all { (SEATS ≡ S.seats) × (SEATS ≡ S.parts) }
{
    let (directory, seats) = Directory::<S, &R>::make(rt, alloc, new_history, blank, node, SEATS)?;
    measure_from(rt, alloc, &directory, seats, plan)
}

/// Makes a node that heard a block of each owner, and wrote nothing.
fn full_node(alloc: Global, plan: Plan) -> Result<NodeCore, Fault> {
    let mut node = new_node(alloc, ME)?;
    for owner in 0..plan.owners {
        hear(
            alloc,
            &mut node,
            &block_of(alloc, owner, plan.keys, Kinds::Mixed)?,
        )?;
    }
    Ok(node)
}

/// Measures a directory, and prints a line for each figure.
pub(crate) fn measure<
    R: Threads + Wait + Clock + CpuClock + Print + Alloc<A = Global> + Sync + Send,
>(rt: &R, plan: Plan) -> Result<(), Problem> {
    let alloc = rt.alloc();
    let node = full_node(alloc, plan)?;
    let blank = Blank::new(SEATS as u64);
    let figures = measure_node::<Brand, R>(rt, alloc, NewHistory::new(), blank, node, plan)?;
    figures.print(rt, plan.telling)
}
