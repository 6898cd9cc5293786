//! What is at the front of bytes.

ghost use Rattle.std.specs.Prelude.{◌≡◌, ◌+◌, drop, length, IfOk, IfErr, IfNone, IfSome};
ghost use Rattle.sb_frames.specs.Frames.{short, bad, front_of, IsFramed};

use sb_types::{FRAME_MARK, FRAME_VERSION, Fault, HEADER_LENGTH, PAYLOAD_MOST};

/// The payload of the first frame, if all of it has come.
pub(crate) fn payload_in(bytes: &[u8]) -> Result<Option<&[u8]>, Fault>
    ensures none { IfOk result (λ found. IfNone found (front_of bytes.now ≡ short)) }
    ensures payload { IfOk result (λ found. IfSome found (λ payload.
        IsFramed bytes.now payload.now (drop (HEADER_LENGTH + length payload.now) bytes.now))) }
    ensures fault { IfErr result (λ fault. front_of bytes.now ≡ bad fault) }
{
    let Some((mark, bytes)) = bytes.split_first() else {
        return Ok(None);
    };
    if *mark != FRAME_MARK {
        return Err(Fault::BadMark);
    }
    let Some((version, bytes)) = bytes.split_first() else {
        return Ok(None);
    };
    if *version != FRAME_VERSION {
        return Err(Fault::BadVersion);
    }
    let Some((length, bytes)) = bytes.split_first_chunk::<4>() else {
        return Ok(None);
    };
    let length = u64::from(u32::from_be_bytes(*length));
    if length == 0 || length > PAYLOAD_MOST {
        return Err(Fault::BadLength);
    }
    let Some((payload, _)) = bytes.split_at_checked(length as usize) else {
        return Ok(None);
    };
    Ok(Some(payload))
}
