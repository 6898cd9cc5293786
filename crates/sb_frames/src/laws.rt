//! What is true of frames, and of streams of them.

ghost use Rattle.std.specs.Prelude.{◌≡◌, ◌≢◌, ℕ, ◌+◌, ◌<◌, ◌≤◌, true, List, [], ◌++◌, length, take, All};
ghost use Rattle.sb_types.specs.declared.fault.Fault.{Fault};
ghost use Rattle.sb_codec.specs.declared.message.Message.{Message};
ghost use Rattle.sb_codec.specs.Messages.{spelling, is_message};
ghost use Rattle.sb_frames.specs.Frames.{frame, short, whole, bad, front_of, Leads, Extends};
ghost use Rattle.sb_frames.specs.Streams.{Stream, open_with, Splits};
ghost use Rattle.sb_frames.specs.Receiving.{is_frame_fault};
ghost use Rattle.sb_frames.specs.declared.frames.TheConstants.{READ_LENGTH};
ghost use Rattle.sb_frames.specs.Runs.{Call, Run, bytes_fed, messages_taken, IsLeft, IsSpent, Accounts};

use sb_types::{BUDGET_MOST, HEADER_LENGTH};

/// A message's frame is read as that message, whatever follows it.
pub fn frames_are_read()
    ensures { (message : Message) (rest : List ℕ) → is_message message ≡ true → front_of (frame message ++ rest) ≡ whole message rest }
{}

/// What is read as a message is its frame, and the message is within its limits.
pub fn only_frames_are_read()
    ensures { (bytes : List ℕ) (message : Message) (rest : List ℕ) →
        All (λ byte. byte < 256) bytes → front_of bytes ≡ whole message rest → Leads bytes message rest }
{}

/// No frame is empty: it has its header, and a payload within the limits.
pub fn frames_have_a_length()
    ensures length { (message : Message) → length (frame message) ≡ HEADER_LENGTH + length (spelling message) }
    ensures limits { (message : Message) → is_message message ≡ true →
        (HEADER_LENGTH < length (frame message)) × (length (frame message) ≤ BUDGET_MOST) }
{}

/// Once a frame is whole or faulty, no bytes after it change that.
pub fn verdicts_stand()
    ensures { (bytes more : List ℕ) → Extends (front_of bytes) more (front_of (bytes ++ more)) }
{}

/// Less than a message's frame is neither read nor refused.
pub fn parts_of_frames_are_short()
    ensures { (message : Message) (count : ℕ) → is_message message ≡ true → count < length (frame message) →
        front_of (take count (frame message)) ≡ short }
{}

/// No frame is faulty for want of memory, or for any fault but the five of frames.
pub fn faults_are_of_the_bytes()
    ensures memory { (bytes : List ℕ) (fault : Fault) → front_of bytes ≡ bad fault → fault ≢ Fault.NoMemory }
    ensures kind { (bytes : List ℕ) (fault : Fault) → front_of bytes ≡ bad fault → is_frame_fault fault ≡ true }
{}

/// A stream has one reading: up to a rest that begins with no frame it is these messages and no others.
pub fn streams_have_one_reading()
    ensures { (stream : List ℕ) (messages others : List Message) (rest other : List ℕ) →
        Splits stream messages rest → Splits stream others other → (others ≡ messages) × (other ≡ rest) }
{}

/// Whatever calls are made, with whatever pieces, the bytes that were fed are the messages that were taken out and a rest. The
/// rest is held or begins with a faulty frame. Once no message is left to be taken out, they are the messages of the one reading
/// of those bytes.
pub fn pieces_do_not_matter()
    ensures accounts { (calls : List Call) (new : Stream) → Run (open_with []) calls new →
        Accounts (bytes_fed calls) (messages_taken calls) new }
    ensures splits { (calls : List Call) (new : Stream) → Run (open_with []) calls new → IsSpent new →
        (rest : List ℕ) × IsLeft rest new × Splits (bytes_fed calls) (messages_taken calls) rest }
{}

/// One read asks for so many bytes.
pub fn a_read_has_this_length()
    ensures { READ_LENGTH ≡ 4_096 }
{}
