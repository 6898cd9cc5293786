//! Which rows a careful watch shows. A row that went stays for a while, and longer if too few would be left. The moments
//! are in milliseconds of the watch's own clock.
ghost use Rattle.std.specs.Prelude.{◌≡◌, ◌++◌, if◌then◌else◌, List, filter, length, OnOk, IfOk, IfErr};
ghost use Rattle.sb_commands.specs.Care as spec;
ghost use Rattle.sb_commands.specs.declared.care.KeptRow.{KeptRow};

use crate::keeping::{copy_of, place_order};
use sb_codec::Row;
use sb_types::Fault;
use std::alloc::Global;
use std::cmp::Ordering;

/// For how many milliseconds the number of rows of a listing counts for the floor: an hour.
const FLOOR_TIME: u64 = 3_600_000;

/// How careful a watch is.
#[derive(Clone, Copy)]
pub struct Caution {
    /// How many milliseconds a row stays that went.
    pub hold: u64,
    /// The percentage of the most rows of the last hour that stays.
    pub floor: u64,
    /// For how many milliseconds changes are gathered.
    pub settle: u64,
}

impl Caution {
    /// Whether it asks for nothing.
    pub fn is_none(&self) -> bool
        ensures { result ≡ spec.is_no_caution self.now }
    {
        self.hold == 0 && self.floor == 0 && self.settle == 0
    }
}

/// A row that a watch keeps.
#[derive(Drop)]
pub(crate) struct KeptRow {
    pub(crate) row: Row,
    /// Since when the listings lack it. `None` if the last one has it.
    pub(crate) missing: Option<u64>,
}

/// How many rows a listing had.
#[derive(Clone, Copy)]
pub(crate) struct RowCount {
    pub(crate) at: u64,
    pub(crate) count: usize,
}

/// Whether so many milliseconds have passed since a moment.
pub(crate) fn is_over(since: u64, now: u64, time: u64) -> bool
    ensures { result ≡ spec.is_over since now time }
{
    time <= now.saturating_sub(since)
}

impl KeptRow {
    /// Whether it went so long ago that it can be dropped.
    fn is_due(&self, now: u64, hold: u64) -> bool
        ensures { result ≡ spec.is_due now hold self.now }
    {
        match self.missing {
            Some(since) => is_over(since, now, hold),
            None => false,
        }
    }

    fn stays(&self, now: u64, hold: u64) -> bool
        ensures { result ≡ spec.stays now hold self.now }
    {
        !self.is_due(now, hold)
    }
}

/// Whether a count matters beside a newer one: it is greater, and of the last hour.
fn still_counts(one: &RowCount, now: u64, count: usize) -> bool
    ensures { result ≡ spec.still_counts now count one.now }
{
    !is_over(one.at, now, FLOOR_TIME) && count < one.count
}

/// Drops the counts that no longer matter beside a newer one.
fn keep_counts(counts: &mut Vec<RowCount>, now: u64, count: usize)
    ensures { counts.new.items ≡ filter (spec.still_counts now count) counts.old.items }
{
    counts.retain(|one| still_counts(one, now, count));
}

/// Since when a row is missing that the listing of this moment lacks.
fn missing_since(missing: Option<u64>, now: u64) -> Option<u64>
    ensures { result ≡ spec.missing_since missing now }
{
    match missing {
        Some(since) => Some(since),
        None => Some(now),
    }
}

/// Keeps a row that the listing has. `NoMemory`.
fn keep_found(alloc: Global, kept: &mut Vec<KeptRow>, row: &Row) -> Result<(), Fault>
    ensures kept { OnOk result ((next : List KeptRow) → kept.new.items ++ next ≡ kept.old.items ++ spec.before (spec.found_row row.now) next) }
    ensures memory { IfErr result (λ fault. fault ≡ Fault.NoMemory) }
{
    kept.push(KeptRow {
        row: copy_of(alloc, row)?,
        missing: None,
    })?;
    Ok(())
}

/// Keeps a row that the listing lacks. `NoMemory`.
fn keep_missing(
    alloc: Global,
    kept: &mut Vec<KeptRow>,
    held: &KeptRow,
    now: u64,
) -> Result<(), Fault>
    ensures kept { OnOk result ((next : List KeptRow) → kept.new.items ++ next ≡ kept.old.items ++ spec.before (spec.missing_row now held.now) next) }
    ensures memory { IfErr result (λ fault. fault ≡ Fault.NoMemory) }
{
    kept.push(KeptRow {
        row: copy_of(alloc, &held.row)?,
        missing: missing_since(held.missing, now),
    })?;
    Ok(())
}

/// Keeps the held rows up to the place of a row of the listing, and that row. Returns the held rows after that place.
/// `NoMemory`.
fn keep_to<'a>(
    alloc: Global,
    kept: &mut Vec<KeptRow>,
    held: &'a [KeptRow],
    row: &Row,
    now: u64,
) -> Result<&'a [KeptRow], Fault>
    ensures kept { IfOk result (λ rest. (next : List KeptRow → List KeptRow) →
        kept.new.items ++ next rest.now ≡ kept.old.items ++ spec.rows_past_row now row.now next held.now) }
    ensures memory { IfErr result (λ fault. fault ≡ Fault.NoMemory) }
{
    let mut rest = held;
    while let Some((one, others)) = rest.split_first() {
        match place_order(&one.row, row) {
            Ordering::Less => {
                keep_missing(alloc, kept, one, now)?;
                rest = others;
            }
            Ordering::Equal => {
                keep_found(alloc, kept, row)?;
                return Ok(others);
            }
            Ordering::Greater => {
                keep_found(alloc, kept, row)?;
                return Ok(rest);
            }
        }
    }
    keep_found(alloc, kept, row)?;
    Ok(rest)
}

/// Keeps these rows, which the listing lacks. `NoMemory`.
fn keep_rest(
    alloc: Global,
    kept: &mut Vec<KeptRow>,
    held: &[KeptRow],
    now: u64,
) -> Result<(), Fault>
    ensures kept { OnOk result (kept.new.items ≡ kept.old.items ++ spec.missing_rows now held.now) }
    ensures memory { IfErr result (λ fault. fault ≡ Fault.NoMemory) }
{
    for one in held {
        keep_missing(alloc, kept, one, now)?;
    }
    Ok(())
}

/// Returns the rows of a listing, and those that were held before and that it lacks, in ascending order of owner and
/// then key. A row that is missing keeps the moment since when. `NoMemory`.
pub(crate) fn rows_with(
    alloc: Global,
    held: &[KeptRow],
    found: &[Row],
    now: u64,
) -> Result<Vec<KeptRow>, Fault>
    ensures kept { IfOk result (λ rows. rows.items ≡ spec.rows_with now held.now found.now) }
    ensures memory { IfErr result (λ fault. fault ≡ Fault.NoMemory) }
{
    let mut kept = Vec::new(alloc);
    let mut rest = held;
    for row in found {
        rest = keep_to(alloc, &mut kept, rest, row, now)?;
    }
    keep_rest(alloc, &mut kept, rest, now)?;
    Ok(kept)
}

/// Enters how many rows a listing of this moment has. Earlier counts that are not greater, or are older than an hour,
/// no longer matter. `NoMemory`, and then the new one is missing.
pub(crate) fn enter_count(counts: &mut Vec<RowCount>, now: u64, count: usize) -> Result<(), Fault>
    ensures counts { OnOk result (counts.new.items ≡ spec.counts_with now count counts.old.items) }
    ensures memory { IfErr result (λ fault. fault ≡ Fault.NoMemory) }
{
    keep_counts(counts, now, count);
    counts.push(RowCount { at: now, count })?;
    Ok(())
}

/// The greatest of these counts, 0 if there is none.
pub(crate) fn most_of(counts: &[RowCount]) -> usize
    ensures { result ≡ spec.most_of counts.now }
{
    let mut most = 0;
    for one in counts {
        most = most.max(one.count);
    }
    most
}

/// Whether so many rows are fewer than this percentage of the most rows.
fn is_below(count: usize, floor: u64, most: usize) -> bool
    ensures { result ≡ spec.is_below count floor most }
{
    (count as u128) * 100 < u128::from(floor) * (most as u128)
}

/// How many rows went at least `hold` milliseconds ago.
fn due_count(rows: &[KeptRow], now: u64, hold: u64) -> usize
    ensures { result ≡ length (filter (spec.is_due now hold) rows.now) }
{
    rows.iter().filter(|row| row.is_due(now, hold)).count()
}

/// Drops the rows that went at least `hold` milliseconds ago.
fn keep_others(rows: &mut Vec<KeptRow>, now: u64, hold: u64)
    ensures { rows.new.items ≡ filter (spec.stays now hold) rows.old.items }
{
    rows.retain(|row| row.stays(now, hold));
}

/// Drops the rows that went at least `caution.hold` milliseconds ago, all or none: none if fewer than the floor would be left. The
/// floor is a percentage of `most`. Returns how many it holds back for that.
pub(crate) fn drop_due(rows: &mut Vec<KeptRow>, now: u64, caution: &Caution, most: usize) -> usize
    ensures rows { rows.new.items ≡ spec.rows_after_floor now caution.now most rows.old.items }
    ensures held { result ≡ spec.held_back now caution.now most rows.old.items }
{
    let hold = caution.hold;
    let due = due_count(rows, now, hold);
    if is_below(rows.len().saturating_sub(due), caution.floor, most) {
        return due;
    }
    keep_others(rows, now, hold);
    0
}

/// Since when the rows differ from those that were shown. `None` if they do not.
pub(crate) fn differ_since(since: Option<u64>, now: u64, differs: bool) -> Option<u64>
    ensures { result ≡ (if differs then spec.missing_since since now else spec.never) }
{
    if differs {
        missing_since(since, now)
    } else {
        None
    }
}

/// For how many milliseconds changes are gathered. At first that is as long as a row stays, if that is longer. An earlier
/// watch may have shown rows that have not come yet.
pub(crate) fn gathering_time(caution: &Caution, is_first: bool) -> u64
    ensures { result ≡ spec.gathering_time caution.now is_first }
{
    if is_first {
        caution.settle.max(caution.hold)
    } else {
        caution.settle
    }
}

/// How many milliseconds pass before what failed is tried again: twice as many as before, from a second to a minute.
pub(crate) fn longer_pause(pause: u64) -> u64
    ensures { result ≡ spec.longer_pause pause }
{
    pause.saturating_mul(2).max(1_000).min(60_000)
}
