//! What a purge of a log prints.
ghost use Rattle.std.specs.Prelude.{◌≡◌, IfOk, IfErr};
ghost use Rattle.sb_lines.specs.Printed.{purged_line, PurgesAndPrints};

use sb_frames::{LastWrite, write_counted};
use sb_log::WriteLog;
use sb_printing::{add_number, add_word};
use sb_types::Fault;
use std::alloc::Global;
use std::io::Write;

/// The line of a purge up to a version.
fn line_of(alloc: Global, floor: u64) -> Result<Vec<u8>, Fault>
    ensures line { IfOk result (λ line. line.items ≡ purged_line floor) }
    ensures fault { IfErr result (λ fault. fault ≡ Fault.NoMemory) }
{
    let mut line = Vec::new(alloc);
    add_word(&mut line, b"purged", b' ')?;
    add_number(&mut line, floor, b'\n')?;
    Ok(line)
}

/// Makes a log drop its removals up to a version, and prints `purged F`, the version that was given. It also returns what the last
/// write of the call answered. The faults, in this order:
///
/// - `NoMemory`, with nothing changed.
/// - The faults of the log's `purge`, with nothing written.
/// - `WriteFailed` with the number of bytes that were written, always fewer than all. Then the log is purged.
pub fn purge_run<L: WriteLog, W: Write>(
    alloc: Global,
    log: &mut L,
    floor: u64,
    writer: &mut W,
) -> (Result<(), Fault>, LastWrite)
    ensures prints { PurgesAndPrints floor (L.seen log.old) (L.seen log.new) (W.contents writer.old) (W.contents writer.new) result.0 result.1 }
{
    let line = match line_of(alloc, floor) {
        Ok(line) => line,
        Err(fault) => return (Err(fault), LastWrite::new()),
    };
    match log.purge(floor) {
        Ok(()) => write_counted(writer, &line),
        Err(fault) => (Err(fault), LastWrite::new()),
    }
}
