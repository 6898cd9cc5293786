//! The answers of a script, on their way out.
ghost use Rattle.std.specs.Prelude.{◌≡◌, [], OnOk, IfOk, IfErr, IfSome};
ghost use Rattle.std.specs.Io.KnownBytes.{Appends, Keeps, append_known};
ghost use Rattle.sb_script.specs.Written.{output_contents, taken_count, contents_of};

use sb_types::Fault;
use std::alloc::Global;
use std::fmt::Display;
use std::io::{self, BufWriter, ErrorKind, Write};

/// How many bytes are written at once.
const ROOM: usize = 65_536;

/// A writer that counts the bytes that it took. After a write that failed, it writes nothing more.
#[derive(Drop)]
struct Counting<W> {
    writer: W,
    taken: u64,
    has_failed: bool,
}

impl<W> Counting<W> {
    fn into_writer(self) -> W
        ensures { result ≡ self.writer }
    {
        self.writer
    }
}

impl<W: Write> Write for Counting<W> {
    ghost contents = { λ c. W.contents c.writer };

    fn write(&mut self, bytes: &[u8]) -> io::Result<usize> {
        if self.has_failed {
            return Err(io::Error::from(ErrorKind::BrokenPipe));
        }
        let answer = self.writer.write(bytes);
        match &answer {
            Ok(0) => self.has_failed = true,
            Ok(count) => self.taken = self.taken.saturating_add(*count as u64),
            Err(error) => self.has_failed = error.kind() != ErrorKind::Interrupted,
        }
        answer
    }

    fn flush(&mut self) -> io::Result<()> {
        self.writer.flush()
    }
}

/// What a script prints, on its way to a writer, which gets many lines at once. It takes its memory when it is made,
/// and none later.
#[derive(Drop)]
pub struct Output<W: Write + Drop> {
    writer: BufWriter<Counting<W>>,
}

impl<W: Write + Drop> Output<W> {
    /// Makes an output to a writer, with nothing printed yet. `NoMemory`, with the writer dropped.
    pub fn new(alloc: Global, writer: W) -> Result<Output<W>, Fault>
        ensures nothing { IfOk result (λ output. output_contents W.contents output ≡ append_known (W.contents writer) []) }
        ensures fault { IfErr result (λ fault. fault ≡ Fault.NoMemory) }
    {
        let counting = Counting {
            writer,
            taken: 0,
            has_failed: false,
        };
        match BufWriter::with_capacity(alloc, ROOM, counting) {
            Ok(writer) => Ok(Output { writer }),
            Err(_) => Err(Fault::NoMemory),
        }
    }

    /// Returns the writer, with what was written. If a write failed, what still waits to be written is dropped.
    pub fn into_writer(self) -> W
        ensures { W.contents result ≡ contents_of W.contents self }
    {
        let (counting, _) = self.writer.into_parts();
        counting.into_writer()
    }

    /// Prints lines. `WriteFailed`, with the number of bytes that were written in all.
    pub(crate) fn print<D: Display + Drop>(&mut self, lines: D) -> Result<(), Fault>
        ensures printed { OnOk result (IfSome (D.output lines) (Appends (output_contents W.contents self.old) (output_contents W.contents self.new))) }
        ensures fault { IfErr result (λ fault. fault ≡ Fault.WriteFailed (taken_count self.new)) }
    {
        match self.writer.write_fmt(lines) {
            Ok(()) => Ok(()),
            Err(_) => Err(self.fault()),
        }
    }

    /// Writes what waits. `WriteFailed`, with the number of bytes that were written in all.
    pub(crate) fn finish(&mut self) -> Result<(), Fault>
        ensures kept { Keeps (output_contents W.contents self.old) (output_contents W.contents self.new) }
        ensures written { OnOk result (Keeps (output_contents W.contents self.old) (contents_of W.contents self.new)) }
        ensures fault { IfErr result (λ fault. fault ≡ Fault.WriteFailed (taken_count self.new)) }
    {
        match self.writer.flush() {
            Ok(()) => Ok(()),
            Err(_) => Err(self.fault()),
        }
    }

    fn fault(&self) -> Fault
        ensures { result ≡ Fault.WriteFailed (taken_count self.now) }
    {
        Fault::WriteFailed(self.writer.get_ref().taken)
    }
}
