//! Frames in words.
ghost use Rattle.std.specs.Prelude.{◌≡◌, OnOk, IfErr};
ghost use Rattle.sb_script.specs.Told.{Explains};
ghost use Rattle.sb_script.specs.Written.{output_contents, taken_count};

use crate::line::Line;
use crate::output::Output;
use crate::print::Text;
use crate::sim::Detail;
use crate::words::words_of;
use sb_codec::Message;
use sb_digest::{Digest, Pair};
use sb_frames::Frames;
use sb_log::PlainLog;
use sb_types::{Block, Delta, Entry, Fault, Name, Slot};
use sb_world::World;
use std::alloc::Global;
use std::fmt::{Display, Write};
use std::io;

/// Adds some words. `NoMemory`.
fn add<D: Display + Drop>(words: &mut String, more: D) -> Result<(), Fault> {
    match words.write_fmt(more) {
        Ok(()) => Ok(()),
        Err(_) => Err(Fault::NoMemory),
    }
}

fn add_entry(words: &mut String, owner: &Name, entry: &Entry) -> Result<(), Fault> {
    let (owner, key) = (Text(owner.bytes()), Text(entry.key().bytes()));
    add(
        words,
        format_args!("      {owner} {key} {} ", entry.version()),
    )?;
    match entry.slot() {
        Slot::Set(value) => add(words, format_args!("{value}\n")),
        Slot::Removed => add(words, "removed -\n"),
    }
}

/// Adds the head of a block, and its floor if it has one.
fn add_head(words: &mut String, block: &Block) -> Result<(), Fault> {
    let owner = Text(block.owner().bytes());
    match block.floor() {
        0 => add(words, format_args!("    block of {owner}")),
        floor => add(words, format_args!("    block of {owner}, floor {floor}")),
    }
}

fn add_block(words: &mut String, block: &Block) -> Result<(), Fault> {
    add_head(words, block)?;
    let entries = block.entries();
    add(
        words,
        format_args!(
            ", after {}, upto {}, entries {}\n",
            block.after(),
            block.upto(),
            entries.len()
        ),
    )?;
    for entry in entries {
        add_entry(words, block.owner(), entry.entry())?;
    }
    Ok(())
}

fn add_delta(words: &mut String, delta: &Delta) -> Result<(), Fault> {
    let blocks = delta.blocks();
    add(words, format_args!("delta, blocks {}\n", blocks.len()))?;
    for block in blocks {
        add_block(words, block)?;
    }
    Ok(())
}

/// Adds one end of a digest's range, or that it has none.
fn add_bound(
    words: &mut String,
    bound: Option<Name>,
    word: &str,
    no_bound: &str,
) -> Result<(), Fault> {
    match bound {
        Some(name) => add(words, format_args!(", {word} {}", Text(name.bytes()))),
        None => add(words, format_args!(", {no_bound}")),
    }
}

/// Adds how far an owner is held. If the pair has a stage, it also adds the stage's floor and progress.
fn add_pair(words: &mut String, pair: &Pair) -> Result<(), Fault> {
    let owner = Text(pair.owner.bytes());
    let (upto, floor, progress) = (pair.upto, pair.staged_floor, pair.progress);
    if floor == 0 && progress == 0 {
        return add(words, format_args!("    {owner} upto {upto}\n"));
    }
    add(
        words,
        format_args!("    {owner} upto {upto}, stage of floor {floor} up to {progress}\n"),
    )
}

fn add_digest(words: &mut String, digest: &Digest) -> Result<(), Fault> {
    add(
        words,
        if digest.want() {
            "digest, wants an answer"
        } else {
            "digest, wants no answer"
        },
    )?;
    add_bound(words, digest.from(), "from", "from the first name")?;
    add_bound(words, digest.until(), "until", "to the last name")?;
    let pairs = digest.pairs();
    add(words, format_args!(", pairs {}\n", pairs.len()))?;
    for pair in pairs {
        add_pair(words, pair)?;
    }
    Ok(())
}

/// Adds the words of a message. Of messages from callers it adds only the name, since no node of a world sends one.
fn add_message(words: &mut String, message: &Message) -> Result<(), Fault> {
    match message {
        Message::Hello(hello) => {
            let (cluster, node) = (Text(hello.cluster.bytes()), Text(hello.node.bytes()));
            add(
                words,
                format_args!("hello, cluster {cluster}, node {node}\n"),
            )
        }
        Message::Digest(digest) => add_digest(words, digest),
        Message::Delta(delta) => add_delta(words, delta),
        Message::Bye(bye) => add(words, format_args!("bye, reason {}\n", bye.reason())),
        Message::Ask(_) => add(words, "ask\n"),
        Message::Rows(_) => add(words, "rows\n"),
        Message::Put(_) => add(words, "put\n"),
        Message::Done(_) => add(words, "done\n"),
        Message::Refused(_) => add(words, "refused\n"),
        Message::AskStatus(_) => add(words, "ask status\n"),
        Message::NodeStatus(_) => add(words, "node status\n"),
        Message::AskChange(_) => add(words, "ask change\n"),
        Message::Notice(_) => add(words, "notice\n"),
        Message::AskAges => add(words, "ask ages\n"),
        Message::Ages(_) => add(words, "ages\n"),
    }
}

/// Adds the words of the frame of a number, if there is one. `NoMemory`.
fn add_frame(
    alloc: Global,
    words: &mut String,
    world: &World<PlainLog>,
    number: u64,
) -> Result<(), Fault> {
    let Some(frame) = world.frame(number) else {
        return Ok(());
    };
    let mut frames = Frames::new(alloc);
    frames.feed(frame)?;
    match frames.next()? {
        Some(message) => {
            add(words, format_args!("  frame {number}: "))?;
            add_message(words, &message)
        }
        None => Ok(()),
    }
}

/// How many frames were sent, if at least `known` were.
fn count_sent(world: &World<PlainLog>, known: u64) -> u64 {
    for number in known..u64::MAX {
        if world.frame(number + 1).is_none() {
            return number;
        }
    }
    u64::MAX
}

/// The number of the frame that a line shows, if it shows one. `NoMemory`.
fn shown_by(alloc: Global, line: &[u8]) -> Result<Option<u64>, Fault> {
    let words = words_of(alloc, line)?;
    match Line::parse(&words) {
        Some(Line::Show { frame }) => Ok(Some(frame)),
        _ => Ok(None),
    }
}

/// The words of the frame that a line shows, and of the frames that it sent: those after the first `known`, up to
/// `sent`. `NoMemory`.
fn words_behind(
    alloc: Global,
    world: &World<PlainLog>,
    line: &[u8],
    known: u64,
    sent: u64,
) -> Result<String, Fault> {
    let mut words = String::new(alloc);
    if let Some(number) = shown_by(alloc, line)? {
        add_frame(alloc, &mut words, world, number)?;
    }
    for before in known..sent {
        add_frame(alloc, &mut words, world, before + 1)?;
    }
    Ok(words)
}

/// Prints what comes after the answers of a line, if words are asked for. These are the words of the frame that the
/// line shows, and of the frames that were sent after the first `told`. Each line has two spaces in front. If memory is
/// missing, it prints `fault 1` in their place. `WriteFailed`.
pub(crate) fn explain<W: io::Write + Drop>(
    alloc: Global,
    world: &World<PlainLog>,
    line: &[u8],
    detail: Detail,
    told: &mut u64,
    output: &mut Output<W>,
) -> Result<(), Fault>
    ensures words { OnOk result (Explains detail (output_contents W.contents output.old) (output_contents W.contents output.new)) }
    ensures fault { IfErr result (λ fault. fault ≡ Fault.WriteFailed (taken_count output.new)) }
{
    match detail {
        Detail::Plain => return Ok(()),
        Detail::Explained => {}
    }
    let known = *told;
    *told = count_sent(world, known);
    match words_behind(alloc, world, line, known, *told) {
        Ok(words) => output.print(words.as_str()),
        Err(fault) => output.print(format_args!("  fault {}\n", fault.number())),
    }
}
