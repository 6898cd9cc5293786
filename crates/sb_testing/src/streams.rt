//! Readers and writers for peers that send little at once, break off or close.

use std::alloc::Global;
use std::io::{self, ErrorKind, Read, Write};

/// A reader that gives its bytes in pieces of at most so many, and then its end, or a failure if it breaks. Before each
/// piece, so many reads are interrupted.
#[derive(Drop)]
pub struct Pieces<'a> {
    /// The bytes that are left.
    pub bytes: &'a [u8],
    /// How many bytes a read gives at most.
    pub piece: usize,
    /// Whether reading fails after the last byte.
    pub breaks: bool,
    /// How many reads are interrupted before each that gives a piece.
    pub interruptions: u32,
    /// How many have been interrupted since the last one that gave a piece.
    pub interrupted: u32,
}

impl<'a> Pieces<'a> {
    /// A reader whose reads are not interrupted.
    pub fn new(bytes: &'a [u8], piece: usize, breaks: bool) -> Pieces<'a> {
        Pieces {
            bytes,
            piece,
            breaks,
            interruptions: 0,
            interrupted: 0,
        }
    }
}

impl Read for Pieces<'_> {
    fn read(&mut self, buf: &mut [u8]) -> io::Result<usize> {
        if self.interrupted < self.interruptions {
            self.interrupted += 1;
            return Err(ErrorKind::Interrupted.into());
        }
        self.interrupted = 0;
        if self.bytes.is_empty() && self.breaks {
            return Err(ErrorKind::ConnectionReset.into());
        }
        let count = self.piece.min(buf.len()).min(self.bytes.len());
        let (front, rest) = self.bytes.split_at(count);
        buf[..count].copy_from_slice(front);
        self.bytes = rest;
        Ok(count)
    }
}

/// A writer that keeps what it takes, and is closed when that is so many bytes.
#[derive(Drop)]
pub struct Hearing {
    /// What it has taken.
    pub bytes: Vec<u8>,
    /// How many bytes it takes at most.
    pub room: usize,
}

impl Hearing {
    /// A writer that has taken nothing, and takes at most so many bytes.
    pub fn new(alloc: Global, room: usize) -> Hearing {
        Hearing {
            bytes: Vec::new(alloc),
            room,
        }
    }
}

impl Write for Hearing {
    fn write(&mut self, buf: &[u8]) -> io::Result<usize> {
        let room = self.room.saturating_sub(self.bytes.len());
        if room == 0 {
            return Err(ErrorKind::BrokenPipe.into());
        }
        let taken = buf.get(..room).unwrap_or(buf);
        self.bytes.extend_from_slice(taken)?;
        Ok(taken.len())
    }

    fn flush(&mut self) -> io::Result<()> {
        Ok(())
    }
}

/// A writer that keeps nothing, and takes at most so many bytes in a write. It fails if it can take no more bytes, or
/// at a flush. It counts the writes that failed.
#[derive(Drop)]
pub struct FailingWriter {
    /// How many bytes it still takes.
    pub left: usize,
    /// How many bytes it takes at most in one write.
    pub piece: usize,
    /// Whether a flush succeeds.
    pub is_flushed: bool,
    /// How many writes failed.
    pub failed: u32,
}

impl FailingWriter {
    /// A writer that takes so many bytes, all at once if they come at once, and can be flushed.
    pub fn new(left: usize) -> FailingWriter {
        FailingWriter {
            left,
            piece: usize::MAX,
            is_flushed: true,
            failed: 0,
        }
    }
}

impl Write for FailingWriter {
    fn write(&mut self, buf: &[u8]) -> io::Result<usize> {
        if self.left == 0 {
            self.failed = self.failed.saturating_add(1);
            return Err(ErrorKind::BrokenPipe.into());
        }
        let taken = buf.len().min(self.left).min(self.piece);
        self.left -= taken;
        Ok(taken)
    }

    fn flush(&mut self) -> io::Result<()> {
        if self.is_flushed {
            Ok(())
        } else {
            Err(ErrorKind::BrokenPipe.into())
        }
    }
}
