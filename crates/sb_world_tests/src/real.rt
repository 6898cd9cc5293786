//! A run of a world over logs in databases.
use crate::world::{
    PURGING_ANSWERS, SEVEN_ANSWERS, TRIMMING_ANSWERS, Told, purging_events, settings, seven_events,
    told_by_seven, trimming_events,
};
use crate::{got, name, same};
use sb_log::SqlLog;
use sb_types::Fault;
use sb_world::{Event, World, run_in_databases};
use sqlite::{Alter, Connection};
use std::alloc::Global;
use std::process::Abort;

/// A log of the owner in this database.
fn log<S: Alter + Drop>(
    rt: &impl Abort,
    alloc: Global,
    conn: Connection<S>,
    owner: &[u8],
) -> Result<SqlLog<S>, Fault> {
    match SqlLog::open(alloc, conn, name(rt, owner), name(rt, b"sim"), 2) {
        Ok(log) => Ok(log),
        Err((error, _)) => Err(error.fault()),
    }
}

/// A world of a and b over these databases.
fn world<S: Alter + Drop>(
    rt: &impl Abort,
    alloc: Global,
    a: Connection<S>,
    b: Connection<S>,
) -> World<SqlLog<S>> {
    let mut logs = Vec::new(alloc);
    got(rt, logs.push(got(rt, log(rt, alloc, a, b"a"))));
    got(rt, logs.push(got(rt, log(rt, alloc, b, b"b"))));
    got(rt, World::new(alloc, settings(rt), logs))
}

/// The answers to seven events in a whole run over these databases.
fn told_of_run<S: Alter + Drop>(
    rt: &impl Abort,
    alloc: Global,
    a: Connection<S>,
    b: Connection<S>,
    events: &[Event],
) -> [Told; 7] {
    let mut world = world(rt, alloc, a, b);
    let answers = got(rt, run_in_databases(&mut world, events));
    told_by_seven(&answers)
}

#[test]
fn a_run_over_databases_answers_each_event(rt: HostRuntime) {
    let alloc = rt.alloc();
    let a = got(&rt, Connection::open_in_memory(alloc));
    let b = got(&rt, Connection::open_in_memory(alloc));
    let found = told_of_run(&rt, alloc, a, b, &seven_events(&rt));
    same(&rt, &found, &SEVEN_ANSWERS);
}

#[test]
fn a_run_over_databases_answers_each_purge(rt: HostRuntime) {
    let alloc = rt.alloc();
    let a = got(&rt, Connection::open_in_memory(alloc));
    let b = got(&rt, Connection::open_in_memory(alloc));
    let found = told_of_run(&rt, alloc, a, b, &purging_events(&rt));
    same(&rt, &found, &PURGING_ANSWERS);
}

#[test]
fn a_run_over_databases_answers_each_trim(rt: HostRuntime) {
    let alloc = rt.alloc();
    let a = got(&rt, Connection::open_in_memory(alloc));
    let b = got(&rt, Connection::open_in_memory(alloc));
    let found = told_of_run(&rt, alloc, a, b, &trimming_events(&rt));
    same(&rt, &found, &TRIMMING_ANSWERS);
}
