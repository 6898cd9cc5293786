//! How a script is run.
ghost use Rattle.std.specs.Prelude.{◌≡◌, ◌+◌, ◌<◌, ◌≤◌, true, false, vec_len, OnOk, IfOk, IfErr};
ghost use Rattle.sb_script.specs.Script.{EndsSo, bytes_to_come, status_of};
ghost use Rattle.sb_script.specs.Printed.{fault_line, wrong_line};
ghost use Rattle.sb_script.specs.Faults.{is_world_fault};
ghost use Rattle.sb_script.specs.Told.{EndsAt, Tells, TellsFrom};
ghost use Rattle.std.specs.Io.KnownBytes.{Appends};
ghost use Rattle.sb_script.specs.Written.{output_contents, taken_count, contents_of};
ghost use Rattle.sb_script.specs.Reads.{AreCounted, IsRunFault, TellsTaken, comes_before_reads, is_run_fault};

use crate::explain::explain;
use crate::lines::Lines;
use crate::making::make_world;
use crate::output::Output;
use crate::playing::play_line;
use crate::print::FaultLine;
use sb_frames::Steps;
use sb_log::PlainLog;
use sb_types::Fault;
use sb_world::World;
use std::alloc::Global;
use std::io::{Read, Write};
use std::marker::Brand;
use std::sync::ledger::{Blank, Ledger};

/// How a script ended.
#[derive(Clone, Copy, Debug, PartialEq, Eq)]
pub enum Ending {
    /// All of its lines were run.
    Whole,
    /// A line was not a command.
    WrongLine,
    /// The world line had a fault.
    NoWorld,
}

/// What a script prints besides its answers.
#[derive(Clone, Copy, Debug, PartialEq, Eq)]
pub enum Detail {
    /// Nothing.
    Plain,
    /// After the answers of a line, in words, the frames that it sent and the one that it shows.
    Explained,
}

impl Ending {
    /// The exit status of the program for this ending: 0 for `Whole`, 2 for `WrongLine`, 3 for `NoWorld`.
    pub fn status(self) -> u8
        ensures { result ≡ status_of self }
    {
        match self {
            Ending::Whole => 0,
            Ending::WrongLine => 2,
            Ending::NoWorld => 3,
        }
    }
}

/// Runs a script, and prints what its commands answer. It makes at most `max_reads` reads.
///
/// The faults of lines are printed. The run itself ends at its first fault:
///
/// - `NoMemory` if memory is missing.
/// - `TurnsSpent` if the script takes more reads than `max_reads`.
/// - `ReadFailed` if a read failed.
/// - `WriteFailed`, with the number of bytes that the output's writer took.
///
/// What was printed before the end of the run is then written, except for what a failed write left.
#[tactic(auto, using(crate::proofs::Runs::memory_fault, crate::proofs::Runs::write_fault, crate::proofs::Runs::fault_later, crate::proofs::Faults::line_tells, crate::proofs::Faults::write_tells))]
pub fn sim_run<R: Read + Drop, W: Write + Drop, L: Ledger>(
    alloc: Global,
    reader: R,
    output: &mut Output<W>,
    max_reads: u64,
    detail: Detail,
    steps: &mut Steps<L>,
) -> Result<Ending, Fault>
    ensures reads { steps.new ≤ steps.old + max_reads }
    ensures made { OnOk result (steps.old < steps.new) }
    ensures fault { IfErr result (IsRunFault steps.old steps.new max_reads) }
    ensures early { IfErr result (λ fault. comes_before_reads fault ≡ false → steps.old < steps.new) }
    ensures written { IfErr result (TellsTaken (taken_count output.new)) }

    // The writer has the lines of commands that were played in turn in a new world, and nothing else, except words that
    // were asked for.
    ensures told { IfOk result (λ ending. Tells ending detail (output_contents W.contents output.old) (contents_of W.contents output.new)) }
{
    let mut lines = Lines::open(alloc, reader, max_reads, steps)?;
    let ended = play(alloc, &mut lines, output, detail, steps);
    if let Err(Fault::WriteFailed(count)) = ended {
        return Err(Fault::WriteFailed(count));
    }
    let finished = output.finish();
    let ending = ended?;
    finished?;
    Ok(ending)
}

/// Is `sim_run` for a caller that does not count the reads. It makes at most `max_reads` reads, and has the faults of
/// `sim_run`.
pub fn sim_run_uncounted<R: Read + Drop, W: Write + Drop>(
    alloc: Global,
    reader: R,
    output: &mut Output<W>,
    max_reads: u64,
    detail: Detail,
) -> Result<Ending, Fault>
    ensures made { OnOk result (0 < max_reads) }
    ensures fault { IfErr result (λ fault. is_run_fault fault ≡ true) }
    ensures early { IfErr result (λ fault. comes_before_reads fault ≡ false → 0 < max_reads) }
    ensures written { IfErr result (TellsTaken (taken_count output.new)) }
    ensures told { IfOk result (λ ending. Tells ending detail (output_contents W.contents output.old) (contents_of W.contents output.new)) }
{
    run_on::<R, W, Brand>(alloc, reader, output, max_reads, detail, Blank::new(1))
}

/// Runs a script, and counts its reads in a new ledger.
fn run_on<R: Read + Drop, W: Write + Drop, L: Ledger>(
    alloc: Global,
    reader: R,
    output: &mut Output<W>,
    max_reads: u64,
    detail: Detail,
    blank: Blank,
) -> Result<Ending, Fault>
    requires name { blank.name ≡ L.name }
    requires parts { blank.parts ≡ L.parts }
    requires some { 0 < blank.parts }
    ensures made { OnOk result (0 < max_reads) }
    ensures fault { IfErr result (λ fault. is_run_fault fault ≡ true) }
    ensures early { IfErr result (λ fault. comes_before_reads fault ≡ false → 0 < max_reads) }
    ensures written { IfErr result (TellsTaken (taken_count output.new)) }
    ensures told { IfOk result (λ ending. Tells ending detail (output_contents W.contents output.old) (contents_of W.contents output.new)) }
{
    let mut steps = Steps::<L>::new(blank);
    sim_run(alloc, reader, output, max_reads, detail, &mut steps)
}

/// Plays all lines, the world line first.
#[tactic(auto, using(crate::proofs::Runs::counted_later, crate::proofs::Runs::fault_later, crate::proofs::Runs::write_fault, crate::proofs::Faults::line_tells, crate::proofs::Faults::write_tells))]
fn play<R: Read, W: Write + Drop, L: Ledger>(
    alloc: Global,
    lines: &mut Lines<R>,
    output: &mut Output<W>,
    detail: Detail,
    steps: &mut Steps<L>,
) -> Result<Ending, Fault>
    ensures counted { AreCounted steps.old lines.old.left steps.new lines.new.left }
    ensures ending { IfOk result (λ ending. EndsSo ending lines.new.ended (vec_len lines.new.line)
        (bytes_to_come lines.old.left lines.old.at lines.old.end)
        (bytes_to_come lines.new.left lines.new.at lines.new.end)) }
    ensures fault { IfErr result (IsRunFault steps.old steps.new lines.old.left) }
    ensures written { IfErr result (TellsTaken (taken_count output.new)) }
    ensures told { IfOk result (λ ending. Tells ending detail (output_contents W.contents output.old) (output_contents W.contents output.new)) }
{
    if !lines.advance(steps)? {
        return Ok(Ending::Whole);
    }
    match make_world(alloc, lines.line()) {
        Ok(Some(world)) => play_in(alloc, world, lines, output, detail, steps),
        Ok(None) => end_at(lines.number(), output),
        Err(fault) => end_without(fault, output),
    }
}

/// Plays the lines below the world line.
#[tactic(auto, using(crate::proofs::Runs::counted_later, crate::proofs::Runs::fault_later, crate::proofs::Runs::write_fault, crate::proofs::Faults::line_tells, crate::proofs::Faults::write_tells))]
fn play_in<R: Read, W: Write + Drop, L: Ledger>(
    alloc: Global,
    mut world: World<PlainLog>,
    lines: &mut Lines<R>,
    output: &mut Output<W>,
    detail: Detail,
    steps: &mut Steps<L>,
) -> Result<Ending, Fault>
    ensures counted { AreCounted steps.old lines.old.left steps.new lines.new.left }
    ensures ending { IfOk result (λ ending. EndsSo ending lines.new.ended (vec_len lines.new.line)
        (bytes_to_come lines.old.left lines.old.at lines.old.end)
        (bytes_to_come lines.new.left lines.new.at lines.new.end)) }
    ensures fault { IfErr result (IsRunFault steps.old steps.new lines.old.left) }
    ensures written { IfErr result (TellsTaken (taken_count output.new)) }
    ensures told { IfOk result (λ ending. TellsFrom world ending detail (output_contents W.contents output.old) (output_contents W.contents output.new)) }
{
    let mut told = 0;
    while lines.advance(steps)? {
        if !play_line(alloc, &mut world, lines.line(), output)? {
            return end_at(lines.number(), output);
        }
        explain(alloc, &world, lines.line(), detail, &mut told, output)?;
    }
    Ok(Ending::Whole)
}

/// Ends the run at a line that is not a command, and prints its number. `WriteFailed`.
fn end_at<W: Write + Drop>(number: u64, output: &mut Output<W>) -> Result<Ending, Fault>
    ensures wrong { IfOk result (λ ending. ending ≡ Ending.WrongLine) }
    ensures printed { OnOk result (Appends (output_contents W.contents output.old) (output_contents W.contents output.new) (wrong_line number)) }
    ensures fault { IfErr result (λ fault. fault ≡ Fault.WriteFailed (taken_count output.new)) }
{
    output.print(format_args!("line {number}\n"))?;
    Ok(Ending::WrongLine)
}

/// Ends the run at a world line that has a fault, and prints the fault. `WriteFailed`.
fn end_without<W: Write + Drop>(fault: Fault, output: &mut Output<W>) -> Result<Ending, Fault>
    requires kind { is_world_fault fault ≡ true }
    ensures none { IfOk result (λ ending. ending ≡ Ending.NoWorld) }
    ensures printed { OnOk result (Appends (output_contents W.contents output.old) (output_contents W.contents output.new) (fault_line fault)) }
    ensures told { OnOk result (EndsAt Ending.NoWorld (output_contents W.contents output.old) (output_contents W.contents output.new)) }
    ensures fault { IfErr result (λ fault. fault ≡ Fault.WriteFailed (taken_count output.new)) }
{
    output.print(FaultLine(fault))?;
    Ok(Ending::NoWorld)
}
