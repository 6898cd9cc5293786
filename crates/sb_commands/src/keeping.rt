//! The rows that a watch keeps if it outlasts its node: a row stays unless the node knows better.
ghost use Rattle.std.specs.Prelude.{◌≡◌, ◌++◌, true, false, List, OnOk, IfOk, IfErr};
ghost use Rattle.std.specs.List.{AllByRecursion};
ghost use Rattle.sb_codec.specs.Records as records;
ghost use Rattle.sb_listing.specs.Changes as changes;
ghost use Rattle.sb_commands.specs.Keeping as spec;

use crate::reaches::OwnerReach;
use sb_codec::Row;
use sb_types::Fault;
use std::alloc::Global;
use std::cmp::Ordering;

/// The order of two rows, by owner and then by key.
pub(crate) fn place_order(one: &Row, other: &Row) -> Ordering
    ensures { result ≡ changes.place_order one.now other.now }
{
    let owners = one.owner().bytes().cmp(other.owner().bytes());
    owners.then(one.key().bytes().cmp(other.key().bytes()))
}

/// Whether the node has shown the same owner at the same version or a later one. If it has, and has no row of
/// this key, the owner removed the key. Or the owner wrote it again, and the node does not hold that write yet.
fn is_known(reaches: &[OwnerReach], row: &Row) -> bool
    ensures { result ≡ spec.is_known reaches.now row.now }
{
    reaches.iter().any(|reach| reach.owner == *row.owner() && row.version() <= reach.shown)
}

/// Whether the owner was printed at the version of this row or later, and the node has not shown it as far yet. Then this row, if it
/// was not printed, may be one that the owner has since replaced or removed.
fn is_held_back(reaches: &[OwnerReach], row: &Row) -> bool
    ensures { result ≡ spec.is_held_back reaches.now row.now }
{
    reaches.iter().any(|reach| {
        reach.owner == *row.owner()
            && (row.version() <= reach.printed && reach.shown < reach.printed)
    })
}

/// Whether a row of the same owner went before the last start of the node, at the version of this row or later. The node then held
/// all rows of the owner up to that version, and those that were printed since are kept. So any other such row was replaced or removed.
pub(crate) fn is_outdated(reaches: &[OwnerReach], row: &Row) -> bool
    ensures { result ≡ spec.is_outdated reaches.now row.now }
{
    reaches.iter().any(|reach| {
        reach.owner == *row.owner() && row.version() <= reach.gone_before
    })
}

/// Copies a row. `NoMemory`.
pub(crate) fn copy_of(alloc: Global, row: &Row) -> Result<Row, Fault>
    ensures equal { IfOk result (λ copy. copy ≡ row.now) }
    ensures memory { IfErr result (λ fault. fault ≡ Fault.NoMemory) }
{
    let value = row.value().copy(alloc)?;
    Row::new(*row.owner(), *row.key(), row.version(), value)
}

/// Of a printed row and one that was found, both with one owner and key, the one of the later version. The printed one if the found one is
/// held back.
fn later<'a>(reaches: &[OwnerReach], held: &'a Row, found: &'a Row) -> &'a Row
    ensures { result.now ≡ spec.later_row reaches.now held.now found.now }
{
    if found.version() < held.version()
        || (held.version() < found.version() && is_held_back(reaches, found))
    {
        held
    } else {
        found
    }
}

/// Keeps a printed row, unless the node knows better. `NoMemory`.
fn keep_unknown(
    alloc: Global,
    kept: &mut Vec<Row>,
    row: &Row,
    reaches: &[OwnerReach],
) -> Result<(), Fault>
    ensures kept { OnOk result ((next : List records.Row) → kept.new.items ++ next ≡ kept.old.items ++ spec.unless_known reaches.now row.now next) }
    ensures memory { IfErr result (λ fault. fault ≡ Fault.NoMemory) }
{
    if !is_known(reaches, row) {
        kept.push(copy_of(alloc, row)?)?;
    }
    Ok(())
}

/// Keeps a row that was found, and of whose key none is printed, unless it is held back or outdated. `NoMemory`.
fn keep_found(
    alloc: Global,
    kept: &mut Vec<Row>,
    row: &Row,
    reaches: &[OwnerReach],
) -> Result<(), Fault>
    ensures kept { OnOk result ((next : List records.Row) → kept.new.items ++ next ≡ kept.old.items ++ spec.unless_held_back reaches.now row.now next) }
    ensures memory { IfErr result (λ fault. fault ≡ Fault.NoMemory) }
{
    if !is_held_back(reaches, row) && !is_outdated(reaches, row) {
        kept.push(copy_of(alloc, row)?)?;
    }
    Ok(())
}

/// Keeps the printed rows up to the place of a row that was found, and that row, unless it is held back. Returns the printed
/// rows after that place. `NoMemory`.
fn keep_to<'a>(
    alloc: Global,
    kept: &mut Vec<Row>,
    held: &'a [Row],
    row: &Row,
    reaches: &[OwnerReach],
) -> Result<&'a [Row], Fault>
    ensures kept { IfOk result (λ rest. (next : List records.Row → List records.Row) →
        kept.new.items ++ next rest.now ≡ kept.old.items ++ spec.rows_past_row reaches.now row.now next held.now) }
    ensures memory { IfErr result (λ fault. fault ≡ Fault.NoMemory) }
{
    let mut rest = held;
    while let Some((one, others)) = rest.split_first() {
        match place_order(one, row) {
            Ordering::Less => {
                keep_unknown(alloc, kept, one, reaches)?;
                rest = others;
            }
            Ordering::Equal => {
                kept.push(copy_of(alloc, later(reaches, one, row))?)?;
                return Ok(others);
            }
            Ordering::Greater => {
                keep_found(alloc, kept, row, reaches)?;
                return Ok(rest);
            }
        }
    }
    keep_found(alloc, kept, row, reaches)?;
    Ok(rest)
}

/// Keeps those of these rows that the node does not know better. `NoMemory`.
fn keep_rest(
    alloc: Global,
    kept: &mut Vec<Row>,
    rows: &[Row],
    reaches: &[OwnerReach],
) -> Result<(), Fault>
    ensures kept { OnOk result (kept.new.items ≡ kept.old.items ++ spec.unknown_rows reaches.now rows.now) }
    ensures memory { IfErr result (λ fault. fault ≡ Fault.NoMemory) }
{
    for row in rows {
        keep_unknown(alloc, kept, row, reaches)?;
    }
    Ok(())
}

/// Walks once through the rows that were printed before (`held`) and the rows of a listing (`found`), and keeps those that a watch shows
/// then. `NoMemory`.
fn merged_rows(
    alloc: Global,
    held: &[Row],
    found: &[Row],
    reaches: &[OwnerReach],
) -> Result<Vec<Row>, Fault>
    ensures kept { IfOk result (λ rows. rows.items ≡ spec.rows_after reaches.now held.now found.now) }
    ensures memory { IfErr result (λ fault. fault ≡ Fault.NoMemory) }
{
    let mut kept = Vec::new(alloc);
    let mut rest = held;
    for row in found {
        rest = keep_to(alloc, &mut kept, rest, row, reaches)?;
    }
    keep_rest(alloc, &mut kept, rest, reaches)?;
    Ok(kept)
}

/// Returns the rows that a watch shows after it found a listing (`found`). Before, it printed those of `held`. If both ascend by owner and key,
/// it keeps:
///
/// - Each row of the listing, unless it is held back, or a later version of the same owner and key was printed. Then it keeps the printed row, if
///   there is one. If there is none, the row must not be outdated either.
/// - Each printed row of an owner and key that the listing does not have, unless the node knows better.
///
/// So it keeps no earlier version than the printed one of an owner and key. In any order it keeps an outdated row only if a row of its owner and
/// key is printed.
///
/// `reaches` is what was printed and shown before the first page of the listing. `NoMemory`.
pub(crate) fn kept_rows(
    alloc: Global,
    held: &[Row],
    found: &[Row],
    reaches: &[OwnerReach],
) -> Result<Vec<Row>, Fault>
    ensures kept { IfOk result (λ rows. rows.items ≡ spec.rows_after reaches.now held.now found.now) }
    ensures forth { changes.AreAscending held.now → changes.AreAscending found.now →
        IfOk result (λ rows. AllByRecursion (λ row. spec.goes_back held.now row ≡ false) rows.items) }
    ensures gone { IfOk result (λ rows. AllByRecursion (λ row. spec.is_outdated reaches.now row ≡ true → spec.is_printed held.now row ≡ true) rows.items) }
    ensures memory { IfErr result (λ fault. fault ≡ Fault.NoMemory) }
{
    merged_rows(alloc, held, found, reaches)
}
