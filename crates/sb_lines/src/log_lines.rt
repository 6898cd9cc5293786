//! What a log holds, in lines.
ghost use Rattle.std.specs.Prelude.{◌≡◌, ◌++◌, true, OnOk, IfOk, IfErr};
ghost use Rattle.std.specs.Io.KnownBytes.{Appends};
ghost use Rattle.sb_frames.specs.Sending.{OnlyWhereFailed};
ghost use Rattle.sb_lines.specs.Printed.{slot_text, entry_line, log_text, PrintsLog};

use sb_frames::{LastWrite, write_counted};
use sb_log::WriteLog;
use sb_printing::{add_number, add_value, add_word};
use sb_table::Table;
use sb_types::{Entry, Fault, Name, Prefix, Slot};
use std::alloc::Global;
use std::io::Write;

/// Adds the words of the slot of a key.
fn add_slot(out: &mut Vec<u8>, slot: &Slot) -> Result<(), Fault>
    ensures added { OnOk result (out.new.items ≡ out.old.items ++ slot_text slot.now) }
    ensures fault { IfErr result (λ fault. fault ≡ Fault.NoMemory) }
{
    match slot {
        Slot::Set(value) => add_value(out, value),
        Slot::Removed => {
            out.extend_from_slice(b"removed -")?;
            Ok(())
        }
    }
}

fn add_entry(out: &mut Vec<u8>, owner: &Name, entry: &Entry) -> Result<(), Fault>
    ensures added { OnOk result (out.new.items ≡ out.old.items ++ entry_line owner.now entry.now) }
    ensures fault { IfErr result (λ fault. fault ≡ Fault.NoMemory) }
{
    add_word(out, owner.bytes(), b' ')?;
    add_word(out, entry.key().bytes(), b' ')?;
    add_number(out, entry.version(), b' ')?;
    add_slot(out, entry.slot())?;
    out.push(b'\n')?;
    Ok(())
}

/// The lines of a table.
fn lines_of(alloc: Global, owner: &Name, table: &Table) -> Result<Vec<u8>, Fault>
    ensures lines { IfOk result (λ lines. lines.items ≡ log_text owner.now table.now) }
    ensures fault { IfErr result (λ fault. fault ≡ Fault.NoMemory) }
{
    let mut out = Vec::new(alloc);
    for entry in table.prefix(&Prefix::read(b"")?) {
        add_entry(&mut out, owner, entry)?;
    }
    add_word(&mut out, b"last", b' ')?;
    add_number(&mut out, table.upto(), b'\n')?;
    Ok(out)
}

/// Prints what a log holds: a line `owner key version kind value` for each entry, in ascending key, or `owner key version removed -`
/// if the key was removed. Then it prints `last V`, the version of the last write. It also returns what the last write of the call
/// answered. The faults, in this order:
///
/// - The faults of `load`, with nothing written.
/// - `NoMemory`, with nothing written.
/// - `WriteFailed` with the number of bytes that were written, always fewer than all.
pub fn log_run<L: WriteLog, W: Write>(
    alloc: Global,
    log: &mut L,
    writer: &mut W,
) -> (Result<(), Fault>, LastWrite)
    ensures prints { PrintsLog (L.seen log.old) (L.seen log.new) (W.contents writer.old) (W.contents writer.new) result.0 }
    // As long as its store does what it promises, the lines are those of the log's content.
    ensures content { (L.seen log.new).is_clean ≡ true → OnOk result.0 (
        Appends (W.contents writer.old) (W.contents writer.new) (log_text (L.seen log.old).owner (L.seen log.old).content)) }
    // A write that did not fail, or that was made before the call, is no reason to stop.
    ensures failed { OnlyWhereFailed result.0 result.1 }
{
    let owner = *log.owner();
    let table = match log.load(alloc) {
        Ok(table) => table,
        Err(fault) => return (Err(fault), LastWrite::new()),
    };
    match lines_of(alloc, &owner, &table) {
        Ok(lines) => write_counted(writer, &lines),
        Err(fault) => (Err(fault), LastWrite::new()),
    }
}
