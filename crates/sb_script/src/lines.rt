//! The lines of a script.
ghost use Rattle.std.specs.Prelude.{◌≡◌, ◌+◌, ◌<◌, ◌≤◌, true, false, length, vec_len, IfOk, OnOk, IfErr};
ghost use Rattle.sb_script.specs.declared.lines.TheConstants.{ROOM};
ghost use Rattle.sb_script.specs.Faults.{is_line_fault};
ghost use Rattle.sb_script.specs.Reads.{AreCounted, IsRunFault, comes_before_reads};
ghost use Rattle.sb_script.specs.Script.{bytes_to_come};

use sb_frames::{Steps, read_within};
use sb_types::Fault;
use std::alloc::Global;
use std::io::Read;
use std::sync::ledger::Ledger;

/// How many bytes are read at once.
const ROOM: usize = 65_536;

/// Reads some bytes, and returns how many: 0 at the end. `TurnsSpent` if no read is left; `ReadFailed`.
fn read_some<R: Read, L: Ledger>(
    reader: &mut R,
    bytes: &mut [u8],
    left: &mut u64,
    steps: &mut Steps<L>,
) -> Result<usize, Fault>
    ensures counted { AreCounted steps.old left.old steps.new left.new }
    ensures count { IfOk result (λ count. count ≤ length bytes.new) }
    ensures made { OnOk result (left.new < left.old) }
    ensures fault { IfErr result (IsRunFault steps.old steps.new left.old) }
    ensures kind { IfErr result (λ fault. is_line_fault fault ≡ true) }
    ensures early { IfErr result (λ fault. comes_before_reads fault ≡ false → steps.old < steps.new) }
{
    read_within(reader, bytes, left, steps)
}

/// The lines of a script, one after another. A line ends at a newline, and a last one without a newline counts. It
/// keeps the last line, and at most what one read gave.
#[derive(Drop)]
pub(crate) struct Lines<R> {
    reader: R,
    left: u64,
    bytes: Vec<u8>,
    at: usize,
    end: usize,
    ended: bool,
    line: Vec<u8>,
    number: u64,
    ghost room: { vec_len bytes ≡ ROOM },
    ghost begun: { at ≤ end },
    ghost within: { end ≤ ROOM },
    ghost spent: { ended ≡ true → at ≡ end },
}

impl<R: Read> Lines<R> {
    /// Begins with nothing of a script. `NoMemory`.
    fn new(alloc: Global, reader: R, max_reads: u64) -> Result<Lines<R>, Fault>
    where
        R: Drop,
        ensures reads { IfOk result (λ lines. lines.left ≡ max_reads) }
        ensures unread { IfOk result (λ lines. (lines.at ≡ lines.end) × (lines.ended ≡ false)) }
        ensures fault { IfErr result (λ fault. fault ≡ Fault.NoMemory) }
    {
        Ok(Lines {
            reader,
            left: max_reads,
            bytes: vec![in alloc; 0; ROOM]?,
            at: 0,
            end: 0,
            ended: false,
            line: Vec::new(alloc),
            number: 0,
        })
    }

    /// Makes the first read. `NoMemory`; `TurnsSpent` if no read is allowed; `ReadFailed`.
    #[tactic(auto, using(crate::proofs::Runs::memory_fault))]
    pub(crate) fn open<L: Ledger>(
        alloc: Global,
        reader: R,
        max_reads: u64,
        steps: &mut Steps<L>,
    ) -> Result<Lines<R>, Fault>
    where
        R: Drop,
        ensures reads { steps.new ≤ steps.old + max_reads }
        ensures counted { IfOk result (λ lines. AreCounted steps.old max_reads steps.new lines.left) }
        ensures made { OnOk result (steps.old < steps.new) }
        ensures fault { IfErr result (IsRunFault steps.old steps.new max_reads) }
        ensures kind { IfErr result (λ fault. is_line_fault fault ≡ true) }
        ensures early { IfErr result (λ fault. comes_before_reads fault ≡ false → steps.old < steps.new) }
    {
        let mut lines = Lines::new(alloc, reader, max_reads)?;
        lines.refill(steps)?;
        Ok(lines)
    }

    /// The last line.
    pub(crate) fn line(&self) -> &[u8] {
        &self.line
    }

    /// The number of the last line, counted from 1.
    pub(crate) fn number(&self) -> u64 {
        self.number
    }

    /// Goes on to the next line that is not empty. Returns whether there is one. `ReadFailed`, `TurnsSpent` or
    /// `NoMemory`.
    #[tactic(auto, using(crate::proofs::Runs::counted_later, crate::proofs::Runs::fault_later))]
    pub(crate) fn advance<L: Ledger>(&mut self, steps: &mut Steps<L>) -> Result<bool, Fault>
        ensures counted { AreCounted steps.old self.old.left steps.new self.new.left }
        ensures met { IfOk result (λ met. met ≡ true →
            bytes_to_come self.new.left self.new.at self.new.end
            < bytes_to_come self.old.left self.old.at self.old.end) }
        ensures ended { IfOk result (λ met. met ≡ false → self.new.ended ≡ true) }
        ensures left { IfOk result (λ met. met ≡ false → vec_len self.new.line ≡ 0) }
        ensures fault { IfErr result (IsRunFault steps.old steps.new self.old.left) }
        ensures kind { IfErr result (λ fault. is_line_fault fault ≡ true) }
    {
        while self.next_line(steps)? {
            if !self.line.is_empty() {
                return Ok(true);
            }
        }
        Ok(false)
    }

    /// Goes on to the next line, empty or not. Returns whether there is one.
    #[tactic(auto, using(crate::proofs::Runs::counted_later, crate::proofs::Runs::fault_later, crate::proofs::Runs::memory_fault))]
    fn next_line<L: Ledger>(&mut self, steps: &mut Steps<L>) -> Result<bool, Fault>
        ensures counted { AreCounted steps.old self.old.left steps.new self.new.left }
        ensures met { IfOk result (λ met. met ≡ true →
            bytes_to_come self.new.left self.new.at self.new.end
            < bytes_to_come self.old.left self.old.at self.old.end) }
        ensures ended { IfOk result (λ met. met ≡ false → self.new.ended ≡ true) }
        ensures left { IfOk result (λ met. met ≡ false → vec_len self.new.line ≡ 0) }
        ensures fault { IfErr result (IsRunFault steps.old steps.new self.old.left) }
        ensures kind { IfErr result (λ fault. is_line_fault fault ≡ true) }
    {
        self.line.clear();
        self.number = self.number.saturating_add(1);
        while self.refill(steps)? {
            if self.take_piece()? {
                return Ok(true);
            }
        }
        Ok(!self.line.is_empty())
    }

    /// Reads again if nothing is left of the last read. Returns whether there is something now.
    fn refill<L: Ledger>(&mut self, steps: &mut Steps<L>) -> Result<bool, Fault>
        ensures counted { AreCounted steps.old self.old.left steps.new self.new.left }
        ensures more { IfOk result (λ more. more ≡ true → self.new.at < self.new.end) }
        ensures ended { IfOk result (λ more. more ≡ false → self.new.ended ≡ true) }
        ensures fewer { bytes_to_come self.new.left self.new.at self.new.end ≤ bytes_to_come self.old.left self.old.at self.old.end }
        ensures line { self.new.line ≡ self.old.line }
        ensures made { OnOk result (self.old.at ≡ self.old.end → self.old.ended ≡ false → steps.old < steps.new) }
        ensures fault { IfErr result (IsRunFault steps.old steps.new self.old.left) }
        ensures kind { IfErr result (λ fault. is_line_fault fault ≡ true) }
        ensures early { IfErr result (λ fault. comes_before_reads fault ≡ false → steps.old < steps.new) }
    {
        if self.at == self.end && !self.ended {
            self.end = read_some(&mut self.reader, &mut self.bytes, &mut self.left, steps)?;
            self.at = 0;
            self.ended = self.end == 0;
        }
        Ok(!self.ended)
    }

    /// Adds to the line what was read of it. Returns whether the line is then whole. `NoMemory`.
    fn take_piece(&mut self) -> Result<bool, Fault>
        requires { self.old.at < self.old.end }
        ensures reader { self.new.reader ≡ self.old.reader }
        ensures left { self.new.left ≡ self.old.left }
        ensures taken { OnOk result (
            vec_len self.new.line + bytes_to_come self.new.left self.new.at self.new.end
            ≤ vec_len self.old.line + bytes_to_come self.old.left self.old.at self.old.end) }
        ensures fewer { OnOk result (
            bytes_to_come self.new.left self.new.at self.new.end
            < bytes_to_come self.old.left self.old.at self.old.end) }
        ensures fault { IfErr result (λ fault. fault ≡ Fault.NoMemory) }
    {
        let rest = &self.bytes[self.at..self.end];
        match rest.iter().position(|byte| *byte == b'\n') {
            Some(place) => {
                self.line.extend_from_slice(&rest[..place])?;
                self.at += place + 1;
                Ok(true)
            }
            None => {
                self.line.extend_from_slice(rest)?;
                self.at = self.end;
                Ok(false)
            }
        }
    }
}
