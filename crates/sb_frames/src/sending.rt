//! A message onto a writer.

ghost use Rattle.std.specs.Prelude.{◌≡◌, ◌≢◌, true, false, Err, IfOk, IfErr, OnOk};
ghost use Rattle.sb_codec.specs.Messages.{is_message};
ghost use Rattle.sb_frames.specs.Frames.{frame};
ghost use Rattle.sb_frames.specs.Sending.{Sends, has_failed, OnlyWhereFailed};

use crate::last_write::LastWrite;
use sb_codec::{Message, append_payload, length};
use sb_types::{FRAME_MARK, FRAME_VERSION, Fault, HEADER_LENGTH};
use std::alloc::Global;
use std::io::Write;

/// Puts the message's frame into a buffer, in place of what was in it. It takes memory only if the buffer has no room for the
/// frame. `NoMemory` is its only fault.
fn write_frame(buffer: &mut Vec<u8>, message: &Message) -> Result<(), Fault>
    ensures frame { OnOk result (buffer.new.items ≡ frame message.now) }
    ensures limits { OnOk result (is_message message.now ≡ true) }
    ensures fault { IfErr result (λ fault. fault ≡ Fault.NoMemory) }
{
    let frame_length = length(message);
    let payload_length = frame_length - HEADER_LENGTH as u32;
    buffer.clear();
    buffer.reserve(frame_length as usize)?;
    buffer.extend_from_slice(&[FRAME_MARK, FRAME_VERSION])?;
    buffer.extend_from_slice(&payload_length.to_be_bytes())?;
    append_payload(buffer, message)
}

/// The frame of the message, in one buffer. `NoMemory` is its only fault.
pub fn frame_of(alloc: Global, message: &Message) -> Result<Vec<u8>, Fault>
    ensures frame { IfOk result (λ v. v.items ≡ frame message.now) }
    ensures limits { OnOk result (is_message message.now ≡ true) }
    ensures fault { IfErr result (λ fault. fault ≡ Fault.NoMemory) }
{
    let mut frame = Vec::new(alloc);
    write_frame(&mut frame, message)?;
    Ok(frame)
}

/// Writes all of the bytes after a write that did not fail. `last` is what the last write answered. `WriteFailed` with how
/// many bytes were written, always fewer than all. A write that takes no byte has failed, and so has one that was
/// interrupted 1,001 times in a row. After fewer interruptions it is made again.
fn write_on<W: Write>(writer: &mut W, bytes: &[u8], last: &mut LastWrite) -> Result<(), Fault>
    requires goes_on { has_failed last.old ≡ false }
    ensures sends { Sends (W.contents writer.old) (W.contents writer.new) bytes.now result }
    ensures failed { OnlyWhereFailed result last.new }
    ensures goes_on { IfOk result (λ _. has_failed last.new ≡ false) }
    ensures memory { result ≢ Err Fault.NoMemory }
{
    let mut count = 0;
    while count < bytes.len() {
        match last.write(writer, &bytes[count..]) {
            Ok(0) => return Err(Fault::WriteFailed(count as u64)),
            Ok(written) => count += written,
            Err(_) if !last.has_failed() => {}
            Err(_) => return Err(Fault::WriteFailed(count as u64)),
        }
    }
    Ok(())
}

/// Writes all of the bytes, and gives what the last write of the call answered. `WriteFailed` with how many bytes were
/// written, always fewer than all. A write that takes no byte has failed, and so has one that was interrupted 1,001 times in a
/// row. After fewer interruptions it is made again.
pub fn write_counted<W: Write>(writer: &mut W, bytes: &[u8]) -> (Result<(), Fault>, LastWrite)
    ensures sends { Sends (W.contents writer.old) (W.contents writer.new) bytes.now result.0 }
    ensures failed { OnlyWhereFailed result.0 result.1 }
    ensures memory { result.0 ≢ Err Fault.NoMemory }
{
    let mut last = LastWrite::new();
    let answer = write_on(writer, bytes, &mut last);
    (answer, last)
}

/// Writes the message's frame out of a buffer that is kept from one message to the next. The last write must not have failed,
/// and `last` is then what the last one answered. It takes memory only if the buffer has no room for the frame. Its faults are
/// those of `send`.
pub(crate) fn send_on<W: Write>(
    buffer: &mut Vec<u8>,
    writer: &mut W,
    message: &Message,
    last: &mut LastWrite,
) -> Result<(), Fault>
    requires goes_on { has_failed last.old ≡ false }
    ensures sends { Sends (W.contents writer.old) (W.contents writer.new) (frame message.now) result }
    // A write that did not fail, or that was made before the call, is no reason to stop.
    ensures failed { OnlyWhereFailed result last.new }
    ensures goes_on { IfOk result (λ _. has_failed last.new ≡ false) }
{
    write_frame(buffer, message)?;
    write_on(writer, buffer, last)
}

/// Writes the message's frame, and gives what the last write of the call answered. Its faults are those of `send`.
pub fn send_telling<W: Write>(
    alloc: Global,
    writer: &mut W,
    message: &Message,
) -> (Result<(), Fault>, LastWrite)
    ensures sends { Sends (W.contents writer.old) (W.contents writer.new) (frame message.now) result.0 }
    ensures failed { OnlyWhereFailed result.0 result.1 }
{
    let mut last = LastWrite::new();
    let sent = send_on(&mut Vec::new(alloc), writer, message, &mut last);
    (sent, last)
}

/// Writes the message's frame. `NoMemory`, with nothing written; `WriteFailed` with how many of its bytes were written, always
/// fewer than all. A write that takes no byte has failed.
pub fn send<W: Write>(alloc: Global, writer: &mut W, message: &Message) -> Result<(), Fault>
    ensures { Sends (W.contents writer.old) (W.contents writer.new) (frame message.now) result }
{
    let (sent, _) = send_telling(alloc, writer, message);
    sent
}
