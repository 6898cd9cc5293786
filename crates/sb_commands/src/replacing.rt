//! Files that are written as a whole.
use std::{fs, io};

/// The end of the path of the file that replaces it.
pub const BESIDE: &str = ".new";

/// Writes a text to a file beside the one at a path, and then replaces that one by it.
fn replace_by(rt: &HostRuntime, path: &str, beside: &str, text: &[u8]) -> io::Result<()> {
    fs::write(rt, beside, text)?;
    fs::rename(rt, beside, path)
}

/// Writes a file as a whole: it writes another file beside it, which then replaces it. If that fails, the old file stays,
/// and nothing is left beside it.
pub fn replace(rt: &HostRuntime, path: &str, text: &[u8]) -> io::Result<()> {
    let beside = format!(in rt.alloc(); "{path}{BESIDE}")?;
    let replaced = replace_by(rt, path, beside.as_str(), text);
    if replaced.is_err() {
        let _ = fs::remove_file(rt, beside.as_str());
    }
    replaced
}
