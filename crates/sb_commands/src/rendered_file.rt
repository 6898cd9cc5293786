//! The file that a watch writes from a template.
use crate::care::longer_pause;
use crate::failure::{Failure, FaultPlace};
use crate::rendering::rendered;
use crate::replacing::{BESIDE, replace};
use crate::template::{TemplateLine, template_of};
use sb_codec::Row;
use sb_types::Fault;
use std::io::Read;
use std::os::unix::fs::MetadataExt;
use std::{fs, io};

/// The first bytes of a database, such as a log.
const DATABASE_HEAD: [u8; 16] = *b"SQLite format 3\0";

/// The file that a watch writes from a template.
#[derive(Drop)]
pub struct RenderedFile<'a> {
    template: Vec<TemplateLine>,
    path: &'a str,
    /// What was written last.
    written: Option<Vec<u8>>,
    /// How long the last pause after a write that failed is, 0 if the last write did not fail.
    pause: u64,
    /// Before which moment it is not written again.
    earliest: u64,
}

/// Whether the file at a path is a database.
fn is_database(rt: &HostRuntime, path: &str) -> bool {
    let Ok(mut file) = fs::open(rt, path) else {
        return false;
    };
    let mut head = [0u8; 16];
    file.read(&mut head).is_ok() && head == DATABASE_HEAD
}

/// Whether the file at a path is this one.
fn is_same_file(rt: &HostRuntime, path: &str, found: &fs::Metadata) -> bool {
    match fs::metadata(rt, path) {
        Ok(other) => other.dev() == found.dev() && other.ino() == found.ino(),
        Err(_) => false,
    }
}

/// Whether a watch may replace what is at a path: nothing, or a plain file that is neither a database nor its template. If that
/// cannot be seen, it may try.
fn may_replace(rt: &HostRuntime, template: &str, path: &str) -> bool {
    match fs::symlink_metadata(rt, path) {
        Ok(found) => {
            found.file_type().is_file()
                && !is_same_file(rt, template, &found)
                && !is_database(rt, path)
        }
        Err(_) => true,
    }
}

/// Reads a template. `NoMemory`; `ReadFailed`; then the faults of `template_of`, with the line.
fn read_template<'a>(rt: &HostRuntime, path: &'a str) -> Result<Vec<TemplateLine>, Failure<'a>> {
    let text = match fs::read_to_string(rt, path) {
        Ok(text) => text,
        Err(error) if error.kind() == io::ErrorKind::OutOfMemory => {
            return Err(Failure::from(Fault::NoMemory));
        }
        Err(_) => return Err(Failure::at(FaultPlace::Template(path), Fault::ReadFailed)),
    };
    match template_of(rt.alloc(), text.as_str()) {
        Ok(template) => Ok(template),
        Err(found) => {
            Err(Failure::at(FaultPlace::Template(path), found.fault).in_line(found.line))
        }
    }
}

/// What came of a write.
#[derive(Clone, Copy)]
pub(crate) enum FileWrite {
    /// The file has the rows, as before.
    Same,
    Written,
    /// It could not be written, or it is not yet time to try again.
    Failed,
}

impl<'a> RenderedFile<'a> {
    /// The file at `path` that the template at the other path says. The faults of `read_template`; then `WriteFailed` if something is
    /// at `path`, or at that of the file beside it, that a watch does not replace. Nothing is written yet.
    pub fn new(
        rt: &HostRuntime,
        template: &'a str,
        path: &'a str,
    ) -> Result<RenderedFile<'a>, Failure<'a>> {
        let lines = read_template(rt, template)?;
        let Ok(beside) = format!(in rt.alloc(); "{path}{BESIDE}") else {
            return Err(Failure::from(Fault::NoMemory));
        };
        if !may_replace(rt, template, path) || !may_replace(rt, template, beside.as_str()) {
            return Err(Failure::at(FaultPlace::Rendered(path), Fault::WriteFailed(0)));
        }
        Ok(RenderedFile {
            template: lines,
            path,
            written: None,
            pause: 0,
            earliest: 0,
        })
    }

    /// Reports that the file could not be written, the first time, and tries again after a longer pause.
    fn fail(&mut self, rt: &HostRuntime, now: u64, error: &io::Error) {
        if self.pause == 0 {
            let path = self.path;
            let _ = eprintln!(rt;
                "attrdir: warning file {path}: cannot be written: {error}; it is tried again after longer and longer pauses"
            );
        }
        self.pause = longer_pause(self.pause);
        self.earliest = now.saturating_add(self.pause);
    }

    /// Reports that the file could be written again.
    fn recover(&mut self, rt: &HostRuntime) {
        if self.pause > 0 {
            let path = self.path;
            let _ = eprintln!(rt; "attrdir: info file {path}: written again");
        }
        self.pause = 0;
    }

    /// Whether the file has this text since the last write.
    fn has(&self, text: &[u8]) -> bool {
        match &self.written {
            Some(written) => written.as_slice() == text,
            None => false,
        }
    }

    /// Writes the file with these rows, as a whole, if its text is another one than before. `NoMemory`.
    pub(crate) fn write(
        &mut self,
        rt: &HostRuntime,
        now: u64,
        rows: &[Row],
    ) -> Result<FileWrite, Fault> {
        if now < self.earliest {
            return Ok(FileWrite::Failed);
        }
        let text = rendered(rt.alloc(), &self.template, rows)?;
        if self.has(&text) {
            return Ok(FileWrite::Same);
        }
        match replace(rt, self.path, &text) {
            Ok(()) => {
                self.recover(rt);
                self.written = Some(text);
                Ok(FileWrite::Written)
            }
            Err(error) => {
                self.fail(rt, now, &error);
                Ok(FileWrite::Failed)
            }
        }
    }
}
