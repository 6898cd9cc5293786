//! How long ago the owners of rows were heard: which rows are left out, and how ages are printed.
use crate::keeping::copy_of;
use crate::output::Output;
use sb_codec::{Ages, Row, Rows};
use sb_listing::print_json_rows;
use sb_types::{Fault, Name};
use std::alloc::Global;
use std::io::Write;

/// How many milliseconds ago an owner was heard. `None` if it was first heard after the ages were asked for, or if the node
/// had no memory to note it.
pub(crate) fn age_of(ages: &Ages, owner: &Name) -> Option<u64> {
    let found = ages.list().iter().find(|heard| heard.owner == *owner)?;
    Some(found.age)
}

/// Whether an owner was heard within so many milliseconds, as far as is known.
fn is_fresh(ages: &Ages, most: u64, owner: &Name) -> bool {
    match age_of(ages, owner) {
        Some(age) => age <= most,
        None => true,
    }
}

/// The rows of a page whose owners were heard within so many milliseconds. `NoMemory`.
pub(crate) fn fresh_page(
    alloc: Global,
    page: &Rows,
    ages: &Ages,
    most: u64,
) -> Result<Rows, Fault> {
    let mut rows = Vec::new(alloc);
    for row in page.rows() {
        if is_fresh(ages, most, row.owner()) {
            rows.push(copy_of(alloc, row)?)?;
        }
    }
    Rows::new(page.more(), rows)
}

/// The line of a row as JSON. `NoMemory`.
fn line_of(alloc: Global, row: &Row) -> Result<Vec<u8>, Fault> {
    let copy = copy_of(alloc, row)?;
    let page = Rows::new(false, vec![in alloc; copy]?)?;
    let mut line = Vec::new(alloc);
    let (printed, _) = print_json_rows(alloc, &mut line, &page);
    printed?;
    Ok(line)
}

/// The line of a row as JSON, with the age of its owner as the first member, if that is known. `NoMemory`.
fn aged_line(alloc: Global, row: &Row, age: Option<u64>) -> Result<Vec<u8>, Fault> {
    let line = line_of(alloc, row)?;
    let Some(age) = age else {
        return Ok(line);
    };
    let front = format!(in alloc; "{{\"age\":{age},")?;
    let mut aged = Vec::new(alloc);
    aged.extend_from_slice(front.as_bytes())?;
    aged.extend_from_slice(line.get(1..).unwrap_or(&[]))?;
    Ok(aged)
}

/// Prints the rows of a page as JSON, each with the age of its owner, if that is known. `NoMemory`; `WriteFailed`, with the
/// number of bytes that the output took in all.
pub(crate) fn print_aged(
    alloc: Global,
    output: &mut Output<'_>,
    page: &Rows,
    ages: &Ages,
) -> Result<(), Fault> {
    let mut lines = Vec::new(alloc);
    for row in page.rows() {
        let line = aged_line(alloc, row, age_of(ages, row.owner()))?;
        lines.extend_from_slice(&line)?;
    }
    match output.write_all(&lines) {
        Ok(()) => Ok(()),
        Err(_) => Err(Fault::WriteFailed(output.taken())),
    }
}
