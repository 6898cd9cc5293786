//! Workers of a pool, whose sessions wait for each other at a gate.
ghost use Rattle.std.specs.Prelude.{◌≡◌};

use crate::making::new_node;
use crate::{got, same};
use sb_directory::{Directory, DirectoryTag, ReaderSeat};
use sb_node::NodeCore;
use sb_run::{
    Arrival, ForgottenOwners, Gate, GatePoint, Pooled, Serving, Source, Taken, VainOffers,
};
use sb_types::Fault;
use sb_views::NewHistory;
use std::alloc::Global;
use std::marker::Brand;
use std::process::Abort;
use std::sync::Wait;
use std::sync::atomic::{AtomicBool, AtomicUsize, Ordering};
use std::sync::ledger::Blank;
use std::thread::{Threads, sleep};
use std::time::{Clock, Duration};

/// Hello of a node b of the cluster c1, a delta, and its Bye. The delta has the flag true that b wrote under w as its
/// version 1.
const TELLING: &[u8] = b"\xa7\x03\x00\x00\x00\x06\x01\x02c1\x01b\
    \xa7\x03\x00\x00\x00\x2b\x03\x00\x01\
    \x01b\x00\x00\x00\x00\x00\x00\x00\x00\x00\x00\x00\x00\x00\x00\x00\x00\
    \x00\x00\x00\x00\x00\x00\x00\x01\x00\x01\x01w\x00\x00\x00\x00\x00\x00\x00\x01\x03\x01\
    \xa7\x03\x00\x00\x00\x02\x04\x01";

/// Hello of a node c, its digest, which holds only itself with nothing written, and its Bye.
const ASKING: &[u8] = b"\xa7\x03\x00\x00\x00\x06\x01\x02c1\x01c\
    \xa7\x03\x00\x00\x00\x20\x02\x01\x00\x00\x00\x01\
    \x01c\x00\x00\x00\x00\x00\x00\x00\x00\x00\x00\x00\x00\x00\x00\x00\x00\x00\x00\x00\x00\x00\x00\x00\x00\
    \xa7\x03\x00\x00\x00\x02\x04\x01";

/// The peers of the sessions 1 and 2, after so many connections that failed.
#[derive(Drop)]
struct Peers {
    alloc: Global,
    lost: usize,
    asked: AtomicUsize,
}

impl Source for Peers {
    type In = &'static [u8];

    type Out = Vec<u8>;

    ghost over = { λ peers. Unit {0} };

    ghost asks = { λ peers. ⊥ };

    ghost gives = { λ peers input. Unit {0} };

    fn next(&self) -> Option<Result<Taken<&'static [u8], Vec<u8>>, Fault>> {
        let writer = Vec::new(self.alloc);
        let asked = self.asked.fetch_add(1, Ordering::SeqCst);
        if asked < self.lost {
            return Some(Err(Fault::ReadFailed));
        }
        match asked - self.lost {
            0 => Some(Ok(Taken::Session(1, Arrival::unknown(), TELLING, writer))),
            1 => Some(Ok(Taken::Session(2, Arrival::unknown(), ASKING, writer))),
            _ => None,
        }
    }
}

/// A gate that holds session 1 before it applies a delta, until session 2 has answered a digest. It holds it for at
/// most so many turns of a millisecond.
#[derive(Drop)]
struct Holding<'a, R> {
    rt: &'a R,
    has_answered: AtomicBool,
    turns: u64,
}

impl<R: Clock> Gate for Holding<'_, R> {
    ghost lets = { λ gate session step. Unit {0} };

    ghost turns_away = { λ gate session step. Unit {0} };

    fn pass(&self, session: u64, step: GatePoint) -> bool {
        match (session, step) {
            (1, GatePoint::BeforeApply) => {
                for _ in 0..self.turns {
                    if self.has_answered.load(Ordering::SeqCst) {
                        return true;
                    }
                    sleep(self.rt, Duration::from_millis(1));
                }
                false
            }
            (2, GatePoint::AfterAnswer) => {
                self.has_answered.store(true, Ordering::SeqCst);
                true
            }
            _ => true,
        }
    }
}

/// How many sessions there were, how many faults, and how many events.
type Met = (u64, u64, u64);

/// How many connections fail before the peers come, and how many turns the gate holds at most.
#[derive(Clone, Copy)]
struct Course {
    lost: usize,
    turns: u64,
}

/// Serves the peers from these seats, with a gate that holds.
fn serve_from<S: DirectoryTag + Send + Sync, R: Threads + Wait + Clock + Abort + Send + Sync>(
    rt: &R,
    alloc: Global,
    directory: &Directory<S, &R>,
    seats: Vec<ReaderSeat<S>>,
    course: Course,
) -> Pooled<S> {
    let peers = Peers {
        alloc,
        lost: course.lost,
        asked: AtomicUsize::new(0),
    };
    let gate = Holding {
        rt,
        has_answered: AtomicBool::new(false),
        turns: course.turns,
    };
    let (none, vain_offers) = (ForgottenOwners::none(alloc), VainOffers::new(alloc));
    let serving = Serving {
        rt,
        alloc,
        directory,
        forgotten: &none,
        vain_offers: &vain_offers,
        max_reads: 99,
    };
    match serving.serve_pool(seats, &peers, &gate) {
        Ok(pooled) => pooled,
        Err((fault, _)) => panic!(rt; "error: {fault:?}"),
    }
}

fn pool_of<S: DirectoryTag + Send + Sync, R: Threads + Wait + Clock + Abort + Send + Sync>(
    rt: &R,
    alloc: Global,
    new_history: NewHistory,
    blank: Blank,
    core: NodeCore,
    workers: usize,
    course: Course,
) -> Met
    requires history { new_history.seen.book ≡ S.history }
    requires opening { S.opening ≡ core.node }
    requires settings { S.settings ≡ core.settings }
    requires name { blank.name ≡ S.name }
    requires parts { blank.parts ≡ S.parts }
    requires all { (workers ≡ S.seats) × (workers ≡ S.parts) }
{
    let made = Directory::<S, &R>::make(rt, alloc, new_history, blank, core, workers);
    let (directory, seats) = got(rt, made);
    let pooled = serve_from(rt, alloc, &directory, seats, course);
    close(rt, directory, pooled)
}

/// What the workers met, if the directory takes all seats back.
fn close<S: DirectoryTag, R: Wait + Abort>(
    rt: &R,
    directory: Directory<S, &R>,
    pooled: Pooled<S>,
) -> Met
    requires { S.seats ≡ S.parts }
{
    match directory.close(rt, pooled.seats) {
        Ok(closing) => (pooled.sessions, pooled.faults, closing.events),
        Err((fault, _, _)) => panic!(rt; "error: {fault:?}"),
    }
}

/// What so many workers met, at a new directory of a node a.
fn pool_new<R: Threads + Wait + Clock + Abort + Send + Sync>(
    rt: &R,
    alloc: Global,
    workers: u8,
    course: Course,
) -> Met {
    let core = new_node(rt, alloc, 2);
    let blank = Blank::new(u64::from(workers));
    let workers = usize::from(workers);
    pool_of::<Brand, _>(rt, alloc, NewHistory::new(), blank, core, workers, course)
}

#[test]
fn a_session_waits_for_another(rt: HostRuntime) {
    let long = Course {
        lost: 0,
        turns: 5_000,
    };
    let two = pool_new(&rt, rt.alloc(), 2, long);
    same(&rt, &two, &(2, 0, 1));
    // The only worker would wait for itself. So the gate turns session 1 away before its delta is entered.
    let short = Course { lost: 0, turns: 20 };
    let one = pool_new(&rt, rt.alloc(), 1, short);
    same(&rt, &one, &(2, 1, 0));
}

/// A worker goes on after connections that failed, each of them a fault.
#[test]
fn a_connection_that_is_lost_ends_no_worker(rt: HostRuntime) {
    let course = Course { lost: 3, turns: 20 };
    let one = pool_new(&rt, rt.alloc(), 1, course);
    same(&rt, &one, &(2, 4, 0));
}
