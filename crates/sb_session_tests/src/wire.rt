//! Frames that are put together.
use crate::got;
use std::alloc::Global;
use std::process::Abort;

/// Puts bytes at the end of others.
pub(crate) fn add(rt: &impl Abort, bytes: &mut Vec<u8>, more: &[u8]) {
    got(rt, bytes.extend_from_slice(more));
}

/// The pieces, one after another.
pub(crate) fn joined(rt: &impl Abort, alloc: Global, pieces: &[&[u8]]) -> Vec<u8> {
    let mut bytes = Vec::new(alloc);
    for piece in pieces {
        add(rt, &mut bytes, piece);
    }
    bytes
}

/// Puts an entry of 50 bytes at the end of a frame: the weight 5 under the digits of its version.
fn add_entry(rt: &impl Abort, alloc: Global, frame: &mut Vec<u8>, version: u64) {
    let key = got(rt, format!(in alloc; "{version:032}"));
    add(rt, frame, b"\x20");
    add(rt, frame, key.as_bytes());
    add(rt, frame, &version.to_be_bytes());
    add(rt, frame, b"\x02\x00\x00\x00\x00\x00\x00\x00\x05");
}

/// A frame of 65,536 bytes: a delta of 1,309 entries of 50 bytes and one of 49, after 31 bytes of its payload.
pub(crate) fn greatest_frame(rt: &impl Abort, alloc: Global) -> Vec<u8> {
    let mut frame = Vec::new(alloc);
    add(rt, &mut frame, b"\xa7\x03\x00\x00\xff\xfa\x03\x00\x01\x01a");
    add(rt, &mut frame, &[0; 16]);
    add(rt, &mut frame, b"\x00\x00\x00\x00\x00\x00\x05\x1e\x05\x1e");
    for version in 1..=1_309u64 {
        add_entry(rt, alloc, &mut frame, version);
    }
    add(rt, &mut frame, b"\x27");
    add(rt, &mut frame, &[b'z'; 39]);
    add(rt, &mut frame, b"\x00\x00\x00\x00\x00\x00\x05\x1e\x00");
    frame
}
