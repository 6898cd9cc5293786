//! How changes are printed as lines.
ghost use Rattle.std.specs.Prelude.{◌≡◌, ◌++◌, OnOk, IfOk, IfErr};
ghost use Rattle.sb_frames.specs.Sending.{Sends, OnlyWhereFailed};
ghost use Rattle.sb_listing.specs.Printed.{printed_line, printed_lines};

use crate::changing::RowChange;
use sb_frames::{LastWrite, write_counted};
use sb_printing::add_word;
use sb_query::add_row;
use sb_types::Fault;
use std::alloc::Global;
use std::io::Write;

fn add_change(out: &mut Vec<u8>, change: &RowChange<'_>) -> Result<(), Fault>
    ensures added { OnOk result (out.new.items ≡ out.old.items ++ printed_line change.now) }
    ensures memory { IfErr result (λ fault. fault ≡ Fault.NoMemory) }
{
    match change {
        RowChange::Set(row) => {
            add_word(out, b"set", b' ')?;
            add_row(out, row)
        }
        RowChange::Gone(row) => {
            add_word(out, b"gone", b' ')?;
            add_word(out, row.owner().bytes(), b' ')?;
            add_word(out, row.key().bytes(), b'\n')
        }
    }
}

/// The lines of these changes. `NoMemory`.
fn lines_of(alloc: Global, changes: &[RowChange<'_>]) -> Result<Vec<u8>, Fault>
    ensures lines { IfOk result (λ lines. lines.items ≡ printed_lines changes.now) }
    ensures memory { IfErr result (λ fault. fault ≡ Fault.NoMemory) }
{
    let mut out = Vec::new(alloc);
    for change in changes {
        add_change(&mut out, change)?;
    }
    Ok(out)
}

/// Prints changes: a line `set owner key version kind value` or `gone owner key` for each. It also returns what the
/// last write of the call answered. `NoMemory`, with nothing written. `WriteFailed`, with the number of bytes written,
/// which is always less than all.
pub fn print_changes<W: Write>(
    alloc: Global,
    writer: &mut W,
    changes: &[RowChange<'_>],
) -> (Result<(), Fault>, LastWrite)
    ensures prints { Sends (W.contents writer.old) (W.contents writer.new) (printed_lines changes.now) result.0 }
    // Only a write that this call made and that failed is a reason to stop.
    ensures failed { OnlyWhereFailed result.0 result.1 }
{
    match lines_of(alloc, changes) {
        Ok(lines) => write_counted(writer, &lines),
        Err(fault) => (Err(fault), LastWrite::new()),
    }
}
