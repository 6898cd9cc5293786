//! What the commands of a script do to its world, and what they print.
ghost use Rattle.std.specs.Prelude.{◌≡◌, OnOk, IfOk, IfErr};
ghost use Rattle.std.specs.Io.KnownBytes.{Appends};
ghost use Rattle.sb_world.specs.Places.{frame_at};
ghost use Rattle.sb_script.specs.Printed.{lines_of, shown_frame};
ghost use Rattle.sb_script.specs.Giving.{ShowsSent, Sends, Offers, LinesUp, TakesUp, Closes, PlaysGive};
ghost use Rattle.sb_script.specs.Played.{PlaysStep, PlaysWrite, Plays, PlaysLine};
ghost use Rattle.sb_script.specs.Written.{output_contents, taken_count};

use crate::command::Command;
use crate::output::Output;
use crate::print::{AnswerLines, FaultLine, FrameLine};
use crate::words::CONNECTION_MOST;
use sb_log::PlainLog;
use sb_types::{Fault, Name};
use sb_world::{Answer, Event, World};
use std::alloc::Global;
use std::io::Write;

/// The connections of a give: numbers that no line of a script can name.
const GIVER: u64 = CONNECTION_MOST + 1;

const TAKER: u64 = CONNECTION_MOST + 2;

/// The numbers of the frames that a give sends, if it sends them.
#[derive(Clone, Copy)]
struct Given {
    hello: Option<u64>,
    delta: Option<u64>,
}

/// Drops what the world answered.
fn lose(_answer: Result<Answer, Fault>) {}

/// Drops an event.
fn lose_event(_event: Event) {}

/// Prints what an event answered. `WriteFailed`.
fn tell<W: Write + Drop>(
    event: Event,
    answer: Result<Answer, Fault>,
    output: &mut Output<W>,
) -> Result<(), Fault>
    ensures printed { OnOk result (Appends (output_contents W.contents output.old) (output_contents W.contents output.new) (lines_of event answer)) }
    ensures fault { IfErr result (λ fault. fault ≡ Fault.WriteFailed (taken_count output.new)) }
{
    let printed = output.print(AnswerLines {
        event: &event,
        answer: &answer,
    });
    lose(answer);
    lose_event(event);
    printed
}

/// Makes an event happen, and prints what it answers. `WriteFailed`.
fn step<W: Write + Drop>(
    world: &mut World<PlainLog>,
    event: Event,
    output: &mut Output<W>,
) -> Result<(), Fault>
    ensures played { OnOk result (PlaysStep world.old event (output_contents W.contents output.old) (output_contents W.contents output.new) world.new) }
    ensures fault { IfErr result (λ fault. fault ≡ Fault.WriteFailed (taken_count output.new)) }
{
    let answer = world.step(&event);
    tell(event, answer, output)
}

/// Prints the frame of a number, or `nothing` if no frame has it. `WriteFailed`.
fn show<W: Write + Drop>(
    world: &World<PlainLog>,
    number: u64,
    output: &mut Output<W>,
) -> Result<(), Fault>
    ensures printed { OnOk result (Appends (output_contents W.contents output.old) (output_contents W.contents output.new) (shown_frame (frame_at world.now.sent number))) }
    ensures fault { IfErr result (λ fault. fault ≡ Fault.WriteFailed (taken_count output.new)) }
{
    match world.frame(number) {
        Some(frame) => output.print(FrameLine(frame)),
        None => output.print("nothing\n"),
    }
}

/// Makes a node's log take a write, enters the oldest of its writes that wait, and prints its version. `WriteFailed`.
fn write<W: Write + Drop>(
    world: &mut World<PlainLog>,
    commit: Event,
    take: Event,
    output: &mut Output<W>,
) -> Result<(), Fault>
    ensures played { OnOk result (PlaysWrite world.old commit take (output_contents W.contents output.old) (output_contents W.contents output.new) world.new) }
    ensures fault { IfErr result (λ fault. fault ≡ Fault.WriteFailed (taken_count output.new)) }
{
    let committed = world.step(&commit);
    lose_event(commit);
    match committed {
        Ok(answer) => lose(Ok(answer)),
        Err(fault) => {
            lose_event(take);
            return output.print(FaultLine(fault));
        }
    }
    match world.step(&take) {
        Ok(Answer::Took(version)) => {
            lose_event(take);
            output.print(format_args!("version {version}\n"))
        }
        answer => tell(take, answer, output),
    }
}

/// Makes an event happen, and returns the number of the frame that it sent, if it sent one.
fn send(world: &mut World<PlainLog>, event: Event) -> Result<Option<u64>, Fault>
    ensures sent { Sends world.old event result world.new }
{
    match world.step(&event)? {
        Answer::Sent(number) => Ok(Some(number)),
        _ => Ok(None),
    }
}

/// The giver's part of a give.
fn offer(world: &mut World<PlainLog>, giver: Name, after: u64) -> Result<Given, Fault>
    ensures offered { Offers world.old giver after result world.new }
{
    Ok(Given {
        hello: send(world, Event::Connect(giver, GIVER))?,
        delta: send(world, Event::Offer(giver, giver, after))?,
    })
}

/// Lines up a frame for the taker, if it was sent.
fn line_up(world: &mut World<PlainLog>, frame: Option<u64>) -> Result<(), Fault>
    ensures lined { LinesUp world.old frame result world.new }
{
    if let Some(number) = frame {
        lose(Ok(world.step(&Event::Line(TAKER, number))?));
    }
    Ok(())
}

/// The taker's part of a give. Returns what came of the frames.
fn take_up(world: &mut World<PlainLog>, taker: Name, given: Given) -> Result<Answer, Fault>
    ensures taken { TakesUp world.old taker given result world.new }
{
    let _hello = send(world, Event::Connect(taker, TAKER))?;
    line_up(world, given.hello)?;
    line_up(world, given.delta)?;
    world.step(&Event::Piece(TAKER, u64::MAX))
}

/// Closes the connections of a give.
fn close(world: &mut World<PlainLog>)
    ensures closed { Closes world.old world.new }
{
    lose(world.step(&Event::Close(GIVER)));
    lose(world.step(&Event::Close(TAKER)));
}

/// Prints the frame that a give sent, if it sent one. `WriteFailed`.
fn show_sent<W: Write + Drop>(
    world: &World<PlainLog>,
    sent: Option<u64>,
    output: &mut Output<W>,
) -> Result<(), Fault>
    ensures printed { OnOk result (ShowsSent world.now.sent sent (output_contents W.contents output.old) (output_contents W.contents output.new)) }
    ensures fault { IfErr result (λ fault. fault ≡ Fault.WriteFailed (taken_count output.new)) }
{
    match sent {
        Some(number) => show(world, number, output),
        None => Ok(()),
    }
}

/// Makes a node send to another what it wrote above a version, on connections of their own. Prints the delta's frame,
/// and what came of it. `WriteFailed`.
fn give<W: Write + Drop>(
    world: &mut World<PlainLog>,
    giver: Name,
    taker: Name,
    after: u64,
    output: &mut Output<W>,
) -> Result<(), Fault>
    ensures played { OnOk result (PlaysGive world.old giver taker after (output_contents W.contents output.old) (output_contents W.contents output.new) world.new) }
    ensures fault { IfErr result (λ fault. fault ≡ Fault.WriteFailed (taken_count output.new)) }
{
    let piece = Event::Piece(TAKER, u64::MAX);
    let given = match offer(world, giver, after) {
        Ok(given) => given,
        Err(fault) => {
            close(world);
            return tell(piece, Err(fault), output);
        }
    };
    match show_sent(world, given.delta, output) {
        Ok(()) => {}
        Err(fault) => {
            lose_event(piece);
            return Err(fault);
        }
    }
    let answer = take_up(world, taker, given);
    close(world);
    tell(piece, answer, output)
}

/// Does what a command asks for, and prints what it answers. `WriteFailed`.
fn play_command<W: Write + Drop>(
    world: &mut World<PlainLog>,
    command: Command,
    output: &mut Output<W>,
) -> Result<(), Fault>
    ensures played { OnOk result (Plays world.old command (output_contents W.contents output.old) (output_contents W.contents output.new) world.new) }
    ensures fault { IfErr result (λ fault. fault ≡ Fault.WriteFailed (taken_count output.new)) }
{
    match command {
        Command::Step(event) => step(world, event, output),
        Command::Write { commit, take } => write(world, commit, take, output),
        Command::Give {
            giver,
            taker,
            after,
        } => give(world, giver, taker, after, output),
        Command::Show { frame } => show(world, frame, output),
    }
}

/// Does what a line asks for, and prints what it answers, or its fault. Returns false if the line is not a command.
/// `WriteFailed`.
pub(crate) fn play_line<W: Write + Drop>(
    alloc: Global,
    world: &mut World<PlainLog>,
    line: &[u8],
    output: &mut Output<W>,
) -> Result<bool, Fault>
    ensures played { IfOk result (λ is_command. PlaysLine is_command world.old (output_contents W.contents output.old) (output_contents W.contents output.new) world.new) }
    ensures fault { IfErr result (λ fault. fault ≡ Fault.WriteFailed (taken_count output.new)) }
{
    match Command::read(alloc, line) {
        Ok(Some(command)) => {
            play_command(world, command, output)?;
            Ok(true)
        }
        Ok(None) => Ok(false),
        Err(fault) => {
            output.print(FaultLine(fault))?;
            Ok(true)
        }
    }
}
