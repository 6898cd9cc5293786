//! What the last write to a writer answered.

ghost use Rattle.std.specs.Prelude.{◌≡◌, ◌<◌, false, length};
ghost use Rattle.std.specs.Io.{WritesAtMost};
ghost use Rattle.std.specs.Io.KnownBytes.{WriteAppends};
ghost use Rattle.sb_frames.specs.declared.last_write.Outcome.TheVariants as outcomes;
ghost use Rattle.sb_frames.specs.Sending.{has_failed, times_of, Tells};

use std::io::{self, ErrorKind, Write};
use std::marker::Model;

/// How often in a row a write that was interrupted is made again.
const INTERRUPTED_MOST: u32 = 1_000;

/// How a write ended.
#[derive(Debug, Clone, Copy, PartialEq, Eq, Drop)]
enum Outcome {
    /// It took some bytes; or nothing was written yet.
    Took,
    /// It was interrupted, as so many in a row with it.
    Interrupted(u32),
    /// It failed, or took no byte.
    Failed,
}

/// How many writes in a row were interrupted.
fn times_of(outcome: Outcome) -> u32
    ensures { result ≡ times_of outcome }
{
    match outcome {
        Outcome::Interrupted(times) => times,
        Outcome::Took | Outcome::Failed => 0,
    }
}

/// What the last write of a call answered. Each call that writes begins with a new one, and then only a write changes it. So it
/// is of no write that was made before the call. After a write that failed no other is made.
#[derive(Debug, Drop)]
pub struct LastWrite {
    outcome: Outcome,
}

impl Model for LastWrite {
    ghost use Rattle.sb_frames.specs.declared.last_write.Outcome.{Outcome};

    ghost Value = { Outcome };

    ghost view = { λ last. last.outcome };
}

impl LastWrite {
    /// Nothing was written yet.
    pub fn new() -> LastWrite
        ensures { result ≡ outcomes.Took }
    {
        LastWrite {
            outcome: Outcome::Took,
        }
    }

    /// Whether it failed, took no byte, or was interrupted after 1,000 others in a row. False if nothing was written yet.
    pub fn has_failed(&self) -> bool
        ensures { result ≡ has_failed self.now }
    {
        match self.outcome {
            Outcome::Took => false,
            Outcome::Interrupted(times) => times > INTERRUPTED_MOST,
            Outcome::Failed => true,
        }
    }

    /// One write of some bytes, if the last one did not fail. No other function of this crate writes to a writer.
    #[tactic(auto, using(crate::proofs::Outcomes::few_times))]
    pub(crate) fn write<W: Write>(&mut self, writer: &mut W, bytes: &[u8]) -> io::Result<usize>
        requires some { 0 < length bytes.now }
        requires goes_on { has_failed self.old ≡ false }
        ensures bound { WritesAtMost result bytes.now }
        ensures bytes { WriteAppends (W.contents writer.old) (W.contents writer.new) result bytes.now }
        ensures told { Tells self.old result self.new }
    {
        let times = times_of(self.outcome);
        let answer = writer.write(bytes);
        self.outcome = match &answer {
            Ok(0) => Outcome::Failed,
            Ok(_) => Outcome::Took,
            Err(error) => match error.kind() {
                ErrorKind::Interrupted => Outcome::Interrupted(times + 1),
                _ => Outcome::Failed,
            },
        };
        answer
    }
}
