//! A count of reads that takes no time and no memory.

ghost use Rattle.std.specs.Prelude.{◌≡◌, ◌+◌, ◌<◌, false, IfOk};
ghost use Rattle.std.specs.Io.{ReadsAtMost};
ghost use Rattle.std.specs.Io.KnownBytes.{ReadConsumes};
ghost use Rattle.sb_frames.specs.Receiving.{GivesBytes, OnlyWhereReadFailed};

use crate::last_read::LastRead;
use sb_types::Fault;
use std::io::{self, Read};
use std::marker::Model;
use std::sync::ledger::{Blank, Book, Ledger, Share};

/// How many reads were made. It takes no bytes of memory, and only a read changes it.
#[derive(Drop)]
pub struct Steps<L: Ledger> {
    book: Book<L>,
    share: Share<L>,
}

impl<L: Ledger> Model for Steps<L> {
    ghost use Rattle.std.specs.Prelude.{ℕ, ◌<◌};

    ghost Value = { ℕ };

    ghost view = { λ steps. steps.book.total };

    ghost invariant = { λ steps. 0 < steps.share.parts };
}

impl<L: Ledger> Steps<L> {
    /// No reads, of a ledger that nothing else counts in.
    pub fn new(blank: Blank) -> Steps<L>
        requires name { blank.name ≡ L.name }
        requires parts { blank.parts ≡ L.parts }
        requires some { 0 < blank.parts }
        ensures { result ≡ 0 }
    {
        let (book, share) = blank.open::<L>();
        Steps { book, share }
    }

    /// One read. `LastRead` alone calls it.
    pub(crate) fn read<R: Read>(&mut self, reader: &mut R, bytes: &mut [u8]) -> io::Result<usize>
        ensures counted { self.new ≡ self.old + 1 }
        ensures within { ReadsAtMost result bytes.new }
        ensures bytes { ReadConsumes (R.remaining reader.old) (R.remaining reader.new) result bytes.new }
    {
        self.book.add(&mut self.share, 1);
        reader.read(bytes)
    }
}

/// Reads some bytes as `read_within` does. `last` is what the last read of the call answered. No read is made after one that
/// failed.
pub(crate) fn read_telling<R: Read, L: Ledger>(
    reader: &mut R,
    bytes: &mut [u8],
    left: &mut u64,
    steps: &mut Steps<L>,
    last: &mut LastRead,
) -> Result<usize, Fault>
    ensures gives { GivesBytes (R.remaining reader.old) (R.remaining reader.new) bytes.new left.old left.new result }
    ensures counted { steps.new + left.new ≡ steps.old + left.old }
    // A read that was interrupted, or that was made before the call, is no reason to stop.
    ensures failed { OnlyWhereReadFailed result last.new }
{
    *last = LastRead::new();
    while *left > 0 {
        *left -= 1;
        match last.read(reader, bytes, steps) {
            Ok(count) => return Ok(count),
            Err(_) if last.has_failed() => return Err(Fault::ReadFailed),
            Err(_) => {}
        }
    }
    Err(Fault::TurnsSpent)
}

/// Reads some bytes, none at the end, with as many reads as are left. A read that was interrupted is made again. `TurnsSpent`
/// if it needs one more read than were left; `ReadFailed`. `left` is what is left after the call.
pub fn read_within<R: Read, L: Ledger>(
    reader: &mut R,
    bytes: &mut [u8],
    left: &mut u64,
    steps: &mut Steps<L>,
) -> Result<usize, Fault>
    ensures gives { GivesBytes (R.remaining reader.old) (R.remaining reader.new) bytes.new left.old left.new result }
    ensures counted { steps.new + left.new ≡ steps.old + left.old }
{
    read_telling(reader, bytes, left, steps, &mut LastRead::new())
}
