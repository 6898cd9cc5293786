//! A request that comes in pieces.
ghost use Rattle.std.specs.Prelude.{◌+◌, ◌≤◌, IfErr};
ghost use Rattle.sb_control.specs.Pieces.{ReadsPiece, FailsPiece};

use crate::request::ControlRequest;
use sb_frames::{Frames, Steps, faults_are_of_the_bytes, receive};
use sb_types::Fault;
use std::io::Read;
use std::sync::ledger::Ledger;

/// Makes one read of a stream, if one is left: its first request, once it is whole. None if more is to come. `left` is what is
/// left after the call. Its faults are those of `receive`, and `Truncated` also at an end before the request. After
/// `ReadFailed` the call may be made again.
pub fn read_piece<R: Read, K: Ledger>(
    reader: &mut R,
    frames: &mut Frames,
    left: &mut u64,
    steps: &mut Steps<K>,
) -> Result<Option<ControlRequest>, Fault>
    ensures reads { ReadsPiece frames.old frames.new (R.remaining reader.old) (R.remaining reader.new) result }
    // What came is no reason for a fault unless it is one for `receive`.
    ensures faults { IfErr result (FailsPiece frames.old frames.new (R.remaining reader.old) (R.remaining reader.new) left.old) }
    ensures counted { steps.new + left.new ≤ steps.old + left.old }
{
    faults_are_of_the_bytes();
    if *left == 0 {
        return Err(Fault::TurnsSpent);
    }
    *left -= 1;
    match receive(reader, frames, 1, steps) {
        Ok(Some(message)) => Ok(Some(ControlRequest::new(message))),
        Ok(None) => Err(Fault::Truncated),
        // The read gave less than the rest of the message.
        Err(Fault::TurnsSpent) if *left > 0 => Ok(None),
        Err(fault) => Err(fault),
    }
}
