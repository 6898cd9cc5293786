//! What a reader does.
use crate::plan::Plan;
use crate::problem::Problem;
use crate::report::{Measured, spent_since};
use crate::sample::{KEYS_OF_PREFIX, key_at, owner_at};
use sb_directory::ReaderSeat;
use sb_types::{Fault, Key, Name, Prefix};
use sb_views::{LiveRows, NodeTag};
use std::alloc::Global;
use std::time::CpuClock;

/// A row that a reader asks for, and the prefix of the rows beside it.
#[derive(Clone, Copy)]
pub(crate) struct Question {
    owner: Name,
    key: Key,
    prefix: Prefix,
}

fn prefix_at(alloc: Global, index: u64) -> Result<Prefix, Fault> {
    let group = index / KEYS_OF_PREFIX;
    Prefix::read(format!(in alloc; "grp-{group:03}/")?.as_bytes())
}

/// What readers ask for, in a scattered order.
pub(crate) fn questions(alloc: Global, plan: Plan) -> Result<Vec<Question>, Fault> {
    let mut questions = Vec::new(alloc);
    for index in 0..plan.questions() {
        let owner = index.wrapping_mul(7_919) % plan.owners.max(1);
        let key = index.wrapping_mul(104_729) % plan.keys.max(1);
        questions.push(Question {
            owner: owner_at(alloc, owner)?,
            key: key_at(alloc, key)?,
            prefix: prefix_at(alloc, key)?,
        })?;
    }
    Ok(questions)
}

/// A reader that has read: its seat, and how many rows it found in the time that its thread ran.
#[derive(Drop)]
pub(crate) struct ReadingEnd<S: NodeTag> {
    pub(crate) seat: ReaderSeat<S>,
    pub(crate) found: Measured,
}

/// Enters, looks up a key and leaves. Returns whether the key was found.
fn get<S: NodeTag>(seat: ReaderSeat<S>, asked: &Question) -> (ReaderSeat<S>, bool) {
    match seat.enter() {
        Ok(entered) => {
            let found = entered.snapshot().get(&asked.owner, &asked.key).is_some();
            (entered.leave(), found)
        }
        Err(seat) => (seat, false),
    }
}

/// Looks up all of these so many times. Returns how often a key was found.
fn get_all<S: NodeTag>(
    seat: ReaderSeat<S>,
    asked: &[Question],
    rounds: u64,
) -> (ReaderSeat<S>, u64) {
    let mut seat = seat;
    let mut found: u64 = 0;
    for _ in 0..rounds {
        for one in asked {
            let (back, is_found) = get(seat, one);
            seat = back;
            found = found.saturating_add(u64::from(is_found));
        }
    }
    (seat, found)
}

/// Goes through rows. Returns how many there were.
fn count_rows(rows: LiveRows<'_>) -> u64 {
    let mut count: u64 = 0;
    for _row in rows {
        count = count.saturating_add(1);
    }
    count
}

/// Enters, goes through the rows of a prefix and leaves. Returns how many there were.
fn list<S: NodeTag>(seat: ReaderSeat<S>, asked: &Question) -> (ReaderSeat<S>, u64) {
    match seat.enter() {
        Ok(entered) => {
            let rows = count_rows(entered.snapshot().rows(Some(asked.owner), asked.prefix));
            (entered.leave(), rows)
        }
        Err(seat) => (seat, 0),
    }
}

/// Goes through the rows of each of these prefixes. Returns how many there were.
fn list_all<S: NodeTag>(seat: ReaderSeat<S>, asked: &[Question]) -> (ReaderSeat<S>, u64) {
    let mut seat = seat;
    let mut rows: u64 = 0;
    for one in asked {
        let (back, count) = list(seat, one);
        seat = back;
        rows = rows.saturating_add(count);
    }
    (seat, rows)
}

/// Looks up all of these so many times.
pub(crate) fn look_up<S: NodeTag, R: CpuClock>(
    rt: &R,
    seat: ReaderSeat<S>,
    asked: &[Question],
    rounds: u64,
) -> Result<ReadingEnd<S>, Problem> {
    let start = rt.thread_cpu_time()?;
    let (seat, found) = get_all(seat, asked, rounds);
    let found = Measured::new(spent_since(rt, start)?, found);
    Ok(ReadingEnd { seat, found })
}

/// Goes through the rows of each of these prefixes once.
pub(crate) fn go_through<S: NodeTag, R: CpuClock>(
    rt: &R,
    seat: ReaderSeat<S>,
    asked: &[Question],
) -> Result<ReadingEnd<S>, Problem> {
    let start = rt.thread_cpu_time()?;
    let (seat, rows) = list_all(seat, asked);
    let found = Measured::new(spent_since(rt, start)?, rows);
    Ok(ReadingEnd { seat, found })
}
