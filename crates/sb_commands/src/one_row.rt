//! The row of one key, and its value alone.
use crate::asking::{RowFormat, first_page_of, print_page};
use crate::failure::Failure;
use crate::output::{Output, print_at_once};
use sb_codec::{Ask, Row, Rows};
use sb_query::first_at;
use sb_types::{ContentRef, Fault, Key, Name, Prefix, Spelled, Value};
use std::alloc::Global;
use std::io::Write;

/// How much of a row is printed.
#[derive(Clone, Copy)]
pub enum Portion {
    Row(RowFormat),
    /// The value alone. A text is spelled as in a row.
    Value,
    /// The value alone. A text is as it is.
    RawValue,
}

/// The row that is asked for, and how much of it is printed.
#[derive(Clone, Copy)]
pub struct RowQuery {
    pub owner: Name,
    pub key: Key,
    pub portion: Portion,
}

/// Makes a page of this row alone. `NoMemory`.
fn page_with(alloc: Global, row: &Row) -> Result<Rows, Fault> {
    let value = row.value().copy(alloc)?;
    let copy = Row::new(*row.owner(), *row.key(), row.version(), value)?;
    Rows::new(false, vec![in alloc; copy]?)
}

/// Prints a value alone, and the end of a line. It prints a text as it is spelled, or as it is if `is_raw` is true. `NoMemory`;
/// `WriteFailed`, with the number of bytes that the output took.
fn print_value(rt: &HostRuntime, value: &Value, is_raw: bool) -> Result<(), Fault> {
    let mut line = Vec::new(rt.alloc());
    let added = match value.content() {
        ContentRef::Number(number) => writeln!(line, "{number}"),
        ContentRef::Truth(truth) => writeln!(line, "{truth}"),
        ContentRef::Text(text) if !is_raw => {
            writeln!(line, "{}", Spelled(str::from_utf8(text).unwrap_or("")))
        }
        ContentRef::Word(text) | ContentRef::Text(text) => {
            writeln!(line, "{}", str::from_utf8(text).unwrap_or(""))
        }
    };
    if added.is_err() {
        return Err(Fault::NoMemory);
    }
    print_at_once(rt, &line)
}

/// Prints the row of one owner and key, or its value alone. Returns whether there is one. The faults of asking, then
/// `NoMemory` and `WriteFailed`.
pub fn print_one<'a>(
    rt: &HostRuntime,
    control: &'a str,
    query: &RowQuery,
) -> Result<bool, Failure<'a>> {
    let ask = Ask {
        owner: Some(query.owner),
        prefix: Prefix::read(query.key.bytes())?,
        after: None,
    };
    let page = first_page_of(rt, control, &ask)?;
    let Some(row) = first_at(page.rows(), &query.owner, &query.key) else {
        return Ok(false);
    };
    match query.portion {
        Portion::Row(format) => {
            let page = page_with(rt.alloc(), row)?;
            print_page(rt, &mut Output::new(rt), &page, format, None)?;
        }
        Portion::Value => print_value(rt, row.value(), false)?,
        Portion::RawValue => print_value(rt, row.value(), true)?,
    }
    Ok(true)
}
