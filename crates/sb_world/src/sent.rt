//! The frames that were sent.

ghost use Rattle.std.specs.Option.{option_copied};
ghost use Rattle.std.specs.Prelude.{◌≡◌, true, IfOk, IfErr, OnOk};
ghost use Rattle.sb_codec.specs.Messages.{is_message};
ghost use Rattle.sb_frames.specs.Frames.{frame};
ghost use Rattle.sb_world.specs.Places.{frame_at};

use sb_codec::Message;
use sb_frames::frame_of;
use sb_types::Fault;
use std::alloc::Global;
use std::marker::Model;

/// A frame that was sent.
#[derive(Drop)]
pub(crate) struct Sent {
    pub(crate) bytes: Vec<u8>,
}

impl Model for Sent {
    ghost use Rattle.std.specs.Prelude.{ℕ, List};

    ghost Value = { List ℕ };

    ghost view = { λ s. s.bytes.items };
}

/// Makes the frame of a message. `NoMemory`.
pub(crate) fn frame_for(alloc: Global, message: Message) -> Result<Sent, Fault>
    ensures frame { IfOk result (λ sent. sent ≡ frame message) }
    ensures limits { OnOk result (is_message message ≡ true) }
    ensures memory { IfErr result (λ fault. fault ≡ Fault.NoMemory) }
{
    let bytes = frame_of(alloc, &message)?;
    Ok(Sent { bytes })
}

/// The frame of a number, counted from 1. `None` if there is no such frame.
pub(crate) fn frame_in(sent: &[Sent], number: u64) -> Option<&[u8]>
    ensures { option_copied result ≡ frame_at sent.now number }
{
    let index = number.checked_sub(1)?;
    let sent = sent.get(usize::try_from(index).ok()?)?;
    Some(&sent.bytes)
}
