//! How a page is printed as lines.
ghost use Rattle.std.specs.Prelude.{◌≡◌, ◌++◌, OnOk, IfOk, IfErr};
ghost use Rattle.sb_frames.specs.Sending.{Sends, OnlyWhereFailed};
ghost use Rattle.sb_query.specs.Printed.{row_line, printed_rows};

use sb_codec::{Row, Rows};
use sb_frames::{LastWrite, write_counted};
use sb_printing::{add_number, add_value, add_word};
use sb_types::Fault;
use std::alloc::Global;
use std::io::Write;

/// Adds the line `owner key version kind value` of a row. `NoMemory`, with a part of the line added, or nothing.
pub fn add_row(out: &mut Vec<u8>, row: &Row) -> Result<(), Fault>
    ensures added { OnOk result (out.new.items ≡ out.old.items ++ row_line row.now) }
    ensures fault { IfErr result (λ fault. fault ≡ Fault.NoMemory) }
{
    add_word(out, row.owner().bytes(), b' ')?;
    add_word(out, row.key().bytes(), b' ')?;
    add_number(out, row.version(), b' ')?;
    add_value(out, row.value())?;
    out.push(b'\n')?;
    Ok(())
}

/// The lines of these rows. `NoMemory`.
fn lines_of(alloc: Global, rows: &[Row]) -> Result<Vec<u8>, Fault>
    ensures lines { IfOk result (λ lines. lines.items ≡ printed_rows rows.now) }
    ensures fault { IfErr result (λ fault. fault ≡ Fault.NoMemory) }
{
    let mut out = Vec::new(alloc);
    for row in rows {
        add_row(&mut out, row)?;
    }
    Ok(out)
}

/// Prints a page: a line `owner key version kind value` for each row. It also returns what the last write of the call
/// answered. `NoMemory`, with nothing written. `WriteFailed`, with the number of bytes written, which is always less
/// than all.
pub fn print_rows<W: Write>(
    alloc: Global,
    writer: &mut W,
    page: &Rows,
) -> (Result<(), Fault>, LastWrite)
    ensures prints { Sends (W.contents writer.old) (W.contents writer.new) (printed_rows page.now.rows) result.0 }
    // Only a write that this call made and that failed is a reason to stop.
    ensures failed { OnlyWhereFailed result.0 result.1 }
{
    match lines_of(alloc, page.rows()) {
        Ok(lines) => write_counted(writer, &lines),
        Err(fault) => (Err(fault), LastWrite::new()),
    }
}
