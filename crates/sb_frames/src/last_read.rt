//! What the last read of a reader answered.

ghost use Rattle.std.specs.Prelude.{◌≡◌, ◌+◌, false};
ghost use Rattle.std.specs.Io.{ReadsAtMost};
ghost use Rattle.std.specs.Io.KnownBytes.{ReadConsumes};
ghost use Rattle.sb_frames.specs.Receiving.{TellsRead};

use crate::steps::Steps;
use std::io::{self, ErrorKind, Read};
use std::marker::Model;
use std::sync::ledger::Ledger;

/// What the last read of a call answered. Each call that reads sets it back first, and then only a read changes it. So it is of
/// no read that was made before the call.
#[derive(Debug, Drop)]
pub(crate) struct LastRead {
    has_failed: bool,
}

impl Model for LastRead {
    ghost use Rattle.std.specs.Prelude.{Bool};

    ghost Value = { Bool };

    ghost view = { λ last. last.has_failed };
}

impl LastRead {
    /// Nothing was read yet.
    pub(crate) fn new() -> LastRead
        ensures { result ≡ false }
    {
        LastRead { has_failed: false }
    }

    /// Whether it failed and was not interrupted; false if nothing was read yet.
    pub(crate) fn has_failed(&self) -> bool
        ensures { result ≡ self.now }
    {
        self.has_failed
    }

    /// One read, if none failed before. No other function of this crate reads from a reader.
    pub(crate) fn read<R: Read, L: Ledger>(
        &mut self,
        reader: &mut R,
        bytes: &mut [u8],
        steps: &mut Steps<L>,
    ) -> io::Result<usize>
        requires goes_on { self.old ≡ false }
        ensures counted { steps.new ≡ steps.old + 1 }
        ensures within { ReadsAtMost result bytes.new }
        ensures bytes { ReadConsumes (R.remaining reader.old) (R.remaining reader.new) result bytes.new }
        ensures told { TellsRead result self.new }
    {
        let answer = steps.read(reader, bytes);
        self.has_failed = match &answer {
            Ok(_) => false,
            Err(error) => match error.kind() {
                ErrorKind::Interrupted => false,
                _ => true,
            },
        };
        answer
    }
}
