//! Standard output, with a count of the bytes that it took.
use sb_types::Fault;
use std::io::{self, Write};

/// Standard output, which counts the bytes that it took.
#[derive(Drop)]
pub(crate) struct Output<'r> {
    rt: &'r HostRuntime,
    taken: u64,
}

impl<'r> Output<'r> {
    pub(crate) fn new(rt: &'r HostRuntime) -> Output<'r> {
        Output { rt, taken: 0 }
    }

    /// How many bytes it took.
    pub(crate) fn taken(&self) -> u64 {
        self.taken
    }
}

impl Write for Output<'_> {
    fn write(&mut self, bytes: &[u8]) -> io::Result<usize> {
        let count = self.rt.stdout().write(bytes)?;
        self.taken = self.taken.saturating_add(count as u64);
        Ok(count)
    }

    fn flush(&mut self) -> io::Result<()> {
        self.rt.stdout().flush()
    }
}

/// Prints lines by one write, if standard output takes them all. So a reader that wants only the first of them has them all.
/// `WriteFailed`, with the number of bytes that it took.
pub(crate) fn print_at_once(rt: &HostRuntime, lines: &[u8]) -> Result<(), Fault> {
    let mut output = Output::new(rt);
    match output.write_all(lines) {
        Ok(()) => Ok(()),
        Err(_) => Err(Fault::WriteFailed(output.taken())),
    }
}
