//! The file in which a node reports its metrics.
use crate::metrics::Metrics;
use sb_commands::{BESIDE, replace};
use std::io::Read;
use std::sync::atomic::{AtomicBool, Ordering};
use std::{fs, io};

/// The first bytes of a file of metrics.
const HEAD: [u8; 15] = *b"# HELP attrdir_";

/// The file in which a node reports its metrics.
#[derive(Drop)]
pub(crate) struct MetricsFile<'a> {
    path: &'a str,
    /// Whether this node has written it.
    is_own: AtomicBool,
    /// Whether the last write failed.
    has_failed: AtomicBool,
}

impl<'a> MetricsFile<'a> {
    /// The file at this path, before its first write.
    pub(crate) fn new(path: &'a str) -> MetricsFile<'a> {
        MetricsFile {
            path,
            is_own: AtomicBool::new(false),
            has_failed: AtomicBool::new(false),
        }
    }

    pub(crate) fn path(&self) -> &'a str {
        self.path
    }

    /// Writes the file as a whole. If that fails, the old file stays.
    pub(crate) fn write(&self, rt: &HostRuntime, metrics: &Metrics<'_, '_>) -> io::Result<()> {
        let text = format!(in rt.alloc(); "{metrics}")?;
        let replaced = replace(rt, self.path, text.as_bytes());
        if replaced.is_ok() {
            self.is_own.store(true, Ordering::SeqCst);
        }
        replaced
    }

    /// Notes whether it could be written. Returns whether that differs from the last time.
    pub(crate) fn note(&self, written: &io::Result<()>) -> bool {
        let has_failed = written.is_err();
        self.has_failed.swap(has_failed, Ordering::SeqCst) != has_failed
    }

    /// Removes it, if this node has written it.
    pub(crate) fn remove(&self, rt: &HostRuntime) {
        if self.is_own.load(Ordering::SeqCst) {
            let _ = fs::remove_file(rt, self.path);
        }
    }
}

/// Whether the file at a path is empty, or begins as metrics do.
fn has_metrics(rt: &HostRuntime, path: &str) -> bool {
    let Ok(mut file) = fs::open(rt, path) else {
        return false;
    };
    let mut head = [0u8; 15];
    match file.read(&mut head) {
        Ok(count) => count == 0 || head == HEAD,
        Err(_) => false,
    }
}

/// Whether metrics can replace what is at a path: nothing, an empty file, or metrics.
pub(crate) fn may_replace(rt: &HostRuntime, path: &str) -> bool {
    match fs::metadata(rt, path) {
        Ok(found) => found.is_file() && has_metrics(rt, path),
        Err(_) => true,
    }
}

/// Whether writing metrics to a path would write over another file of the node.
pub(crate) fn writes_over(path: &str, other: &str) -> bool {
    path == other
        || other.strip_suffix(BESIDE) == Some(path)
        || path.strip_suffix("-wal") == Some(other)
}
