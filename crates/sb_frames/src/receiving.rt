//! A message out of a reader.

ghost use Rattle.std.specs.Prelude.{◌≡◌, ◌+◌, ◌*◌, ◌<◌, ℕ, false, length, IfOk, IfSome};
ghost use Rattle.sb_frames.specs.Receiving.{is_shut, held_of, OnlyWhereReadFailed, Receives, ReceivesOpen};
ghost use Rattle.sb_frames.specs.declared.frames.TheConstants.{READ_LENGTH};

use crate::frames::Frames;
use crate::last_read::LastRead;
use crate::steps::Steps;
use sb_codec::Message;
use sb_types::Fault;
use std::io::Read;
use std::sync::ledger::Ledger;

/// The next message of frames that are not closed.
fn receive_open<R: Read, L: Ledger>(
    reader: &mut R,
    frames: &mut Frames,
    left: &mut u64,
    steps: &mut Steps<L>,
    last: &mut LastRead,
) -> Result<Option<Message>, Fault>
    requires { is_shut frames.old ≡ false }
    ensures gives { ReceivesOpen (held_of frames.old) frames.new (R.remaining reader.old) (R.remaining reader.new) left.old left.new result }
    ensures counted { steps.new + left.new ≡ steps.old + left.old }
    ensures goes { IfOk result (λ found. IfSome found (λ _. length (held_of frames.new) + READ_LENGTH * left.new < length (held_of frames.old) + READ_LENGTH * left.old)) }
    ensures failed { OnlyWhereReadFailed result last.new }
{
    loop {
        if let Some(message) = frames.next()? {
            return Ok(Some(message));
        }
        if frames.fill(reader, left, steps, last)? == 0 {
            frames.end()?;
            return Ok(None);
        }
    }
}

/// The next message of a stream, with as many reads of it as are left; nothing at an end between frames. What is held is
/// handed out before anything is read. `left` is what is left after the call. Its faults are those of `receive`; `last` is
/// what the last read of the call answered.
pub(crate) fn receive_within<R: Read, L: Ledger>(
    reader: &mut R,
    frames: &mut Frames,
    left: &mut u64,
    steps: &mut Steps<L>,
    last: &mut LastRead,
) -> Result<Option<Message>, Fault>
    ensures gives { Receives frames.old frames.new (R.remaining reader.old) (R.remaining reader.new) left.old left.new result }
    ensures counted { steps.new + left.new ≡ steps.old + left.old }

    // What is held and what may still be read grows less with each message.
    ensures goes { IfOk result (λ found. IfSome found (λ _. length (held_of frames.new) + READ_LENGTH * left.new < length (held_of frames.old) + READ_LENGTH * left.old)) }
    // A read that was interrupted, or that was made before the call, is no reason to stop.
    ensures failed { OnlyWhereReadFailed result last.new }
{
    *last = LastRead::new();
    if frames.is_shut() {
        return Err(Fault::Closed);
    }
    receive_open(reader, frames, left, steps, last)
}

/// The next message of a stream, with at most `max_reads` reads; nothing at an end between frames. What is held is handed out
/// before anything is read.
///
/// Its faults:
///
/// - `Closed` after a faulty frame.
/// - `BadMark`, `BadVersion`, `BadLength`, `UnknownKind` or `Malformed` of the next frame. The frames are closed from then on.
/// - `ReadFailed`.
/// - `Truncated` at an end inside a frame.
/// - `TurnsSpent` if the call needs one more read than `max_reads`.
/// - `NoMemory`.
///
/// After the last four faults every byte that was read is held, and the call may be made again.
pub fn receive<R: Read, L: Ledger>(
    reader: &mut R,
    frames: &mut Frames,
    max_reads: u64,
    steps: &mut Steps<L>,
) -> Result<Option<Message>, Fault>
    ensures { (left : ℕ) × Receives frames.old frames.new (R.remaining reader.old) (R.remaining reader.new) max_reads left result × (steps.new + left ≡ steps.old + max_reads) }
{
    let mut left = max_reads;
    receive_within(reader, frames, &mut left, steps, &mut LastRead::new())
}
