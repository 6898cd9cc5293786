//! Looks whether the two files of a log are still at their paths while the node runs.
use sb_control::LogLoss;
use std::fs::{Metadata, canonicalize, metadata, open};
use std::io::{self, ErrorKind, Read};
use std::os::unix::fs::MetadataExt;
use std::sync::atomic::{AtomicBool, AtomicU64, Ordering};

/// Which file it is, of all that the system has.
#[derive(Clone, Copy, PartialEq, Eq)]
struct FileNumbers {
    device: u64,
    inode: u64,
}

impl FileNumbers {
    fn of(found: &Metadata) -> FileNumbers {
        FileNumbers {
            device: found.dev(),
            inode: found.ino(),
        }
    }
}

/// The path of the `-wal` of a log, which is beside the file to which a link leads. None if that cannot be seen.
fn wal_of(rt: &HostRuntime, path: &str) -> Option<String> {
    let Ok(real) = canonicalize(rt, path) else {
        return None;
    };
    match format!(in rt.alloc(); "{}-wal", real.as_str()) {
        Ok(wal) => Some(wal),
        Err(_) => None,
    }
}

/// The first bytes of a file. None if it has fewer, or cannot be read.
fn front_of(rt: &HostRuntime, path: &str) -> Option<[u8; 4]> {
    let Ok(mut file) = open(rt, path) else {
        return None;
    };
    let mut front = [0u8; 4];
    match file.read(&mut front) {
        Ok(4) => Some(front),
        _ => None,
    }
}

/// How a file was lost, by the error of a look at it. None if the error does not show that.
fn loss_by(error: &io::Error) -> Option<LogLoss> {
    match error.kind() {
        ErrorKind::NotFound | ErrorKind::NotADirectory => Some(LogLoss::Removed),
        _ => None,
    }
}

/// The two files of an open log.
#[derive(Drop)]
pub(crate) struct LogWatch<'a> {
    path: &'a str,
    /// Which file was at the path when the log was opened; none if that could not be seen.
    opened: Option<FileNumbers>,
    /// The same of the `-wal`.
    opened_wal: Option<FileNumbers>,
    /// How many bytes the `-wal` had at the last look. An open log never makes it shorter, and makes no other one.
    wal_length: AtomicU64,
    /// Whether a look found that the `-wal` begins with other bytes than zeros. An open log never makes all of the first four zeros again.
    has_front: AtomicBool,
    /// Whether the `-wal` was found lost.
    has_lost_wal: AtomicBool,
}

impl<'a> LogWatch<'a> {
    /// Watches the files that are at a path and beside it now.
    pub(crate) fn new(rt: &HostRuntime, path: &'a str) -> LogWatch<'a> {
        let found_wal = match wal_of(rt, path) {
            Some(wal) => metadata(rt, wal.as_str()).ok(),
            None => None,
        };
        let (opened_wal, length) = match found_wal {
            Some(found) => (Some(FileNumbers::of(&found)), found.len()),
            None => (None, 0),
        };
        LogWatch {
            path,
            opened: match metadata(rt, path) {
                Ok(found) => Some(FileNumbers::of(&found)),
                Err(_) => None,
            },
            opened_wal,
            wal_length: AtomicU64::new(length),
            has_front: AtomicBool::new(false),
            has_lost_wal: AtomicBool::new(false),
        }
    }

    /// How the file or its `-wal` was lost. None if both are there, or if that cannot be seen. An open log has at least one byte, so
    /// an empty file is another one, or was emptied.
    pub(crate) fn loss(&self, rt: &HostRuntime) -> Option<LogLoss> {
        let opened = self.opened?;
        match metadata(rt, self.path) {
            Ok(found) if FileNumbers::of(&found) != opened || found.len() == 0 => {
                Some(LogLoss::Replaced)
            }
            Ok(_) => self.loss_of_wal(rt),
            Err(error) => loss_by(&error),
        }
    }

    /// How the `-wal` was lost. None if it is there, or if that cannot be seen.
    fn loss_of_wal(&self, rt: &HostRuntime) -> Option<LogLoss> {
        let opened = self.opened_wal?;
        // It is read before the look, since another thread may look at a longer one meanwhile.
        let length = self.wal_length.load(Ordering::SeqCst);
        let wal = wal_of(rt, self.path)?;
        let found = match metadata(rt, wal.as_str()) {
            Ok(found) if FileNumbers::of(&found) != opened || found.len() < length => {
                Some(LogLoss::Replaced)
            }
            Ok(found) => {
                self.wal_length.store(found.len(), Ordering::SeqCst);
                self.loss_by_front(front_of(rt, wal.as_str())?)
            }
            Err(error) => loss_by(&error),
        };
        let loss = found?;
        // If a folder was renamed meanwhile, the look was at the wrong place.
        if wal_of(rt, self.path)? != wal {
            return None;
        }
        self.has_lost_wal.store(true, Ordering::SeqCst);
        Some(loss)
    }

    /// How the `-wal` was lost, by its first bytes. If all are zeros now, and were not before, it was emptied, and a write made it longer
    /// since.
    fn loss_by_front(&self, front: [u8; 4]) -> Option<LogLoss> {
        if front != [0u8; 4] {
            self.has_front.store(true, Ordering::SeqCst);
            return None;
        }
        if self.has_front.load(Ordering::SeqCst) {
            Some(LogLoss::Replaced)
        } else {
            None
        }
    }

    /// What the path of the lost file adds to that of the log.
    pub(crate) fn lost_ending(&self) -> &'static str {
        if self.has_lost_wal.load(Ordering::SeqCst) {
            "-wal"
        } else {
            ""
        }
    }
}
