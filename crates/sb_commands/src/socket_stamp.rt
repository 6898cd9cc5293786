//! Which socket is at a path. Each start of a node makes another one.
use std::fs::metadata;
use std::os::unix::fs::MetadataExt;

/// Identifies the socket at a path.
#[derive(Clone, Copy, PartialEq, Eq, Drop)]
pub(crate) struct SocketStamp {
    device: u64,
    file: u64,
    seconds: i64,
    nanoseconds: i64,
}

/// The socket at a path, if there is one.
pub(crate) fn stamp_of(rt: &HostRuntime, path: &str) -> Option<SocketStamp> {
    let found = metadata(rt, path).ok()?;
    Some(SocketStamp {
        device: found.dev(),
        file: found.ino(),
        seconds: found.mtime(),
        nanoseconds: found.mtime_nsec(),
    })
}
