//! What a line asks of the world, after its names, keys and values are read.
ghost use Rattle.std.specs.Prelude.{◌≡◌, true, IfOk, IfErr, IfSome};
ghost use Rattle.sb_world.specs.declared.event.Event.TheVariants as events;
ghost use Rattle.sb_script.specs.declared.command.Command.TheVariants as commands;
ghost use Rattle.sb_script.specs.declared.line.Line.{Line};
ghost use Rattle.sb_script.specs.Commands.{IsCommand, IsOfWrite};
ghost use Rattle.sb_script.specs.Faults.{is_word_fault};

use crate::line::Line;
use crate::words::{WriteWords, words_of};
use sb_types::{Fault, Key, Name};
use sb_world::Event;
use std::alloc::Global;

/// A command of a script.
#[derive(Drop)]
pub(crate) enum Command {
    /// One event, whose answer is printed.
    Step(Event),
    /// A write, which then is entered, unless the write has a fault.
    Write {
        commit: Event,
        take: Event,
    },
    /// A node sends to another what it wrote above a version.
    Give {
        giver: Name,
        taker: Name,
        after: u64,
    },
    /// The frame of this number, which is printed.
    Show {
        frame: u64,
    },
}

impl Command {
    /// A write that then is entered. `BadName`, `BadKey`, `BadValue`, then `NoMemory`.
    fn of_write(alloc: Global, write: &WriteWords<'_>) -> Result<Command, Fault>
        ensures command { IfOk result (IsOfWrite write.now (λ slot. commands.Write (events.Commit write.now.node.now write.now.key.now slot) (events.Take write.now.node.now))) }
        ensures fault { IfErr result (λ fault. is_word_fault fault ≡ true) }
    {
        Ok(Command::Write {
            commit: write.commit(alloc)?,
            take: Event::Take(Name::read(write.node)?),
        })
    }

    /// A give from one node to another. `BadName`.
    fn of_give(giver: &[u8], taker: &[u8], after: u64) -> Result<Command, Fault>
        ensures command { IfOk result (λ command. command ≡ commands.Give giver.now taker.now after) }
        ensures fault { IfErr result (λ fault. is_word_fault fault ≡ true) }
    {
        Ok(Command::Give {
            giver: Name::read(giver)?,
            taker: Name::read(taker)?,
            after,
        })
    }

    /// What the line asks for. `BadName`, `BadKey` and `BadValue` of the first word that has one, from left to right;
    /// then `NoMemory`.
    fn of_line(alloc: Global, line: &Line<'_>) -> Result<Command, Fault>
        ensures command { IfOk result (IsCommand line.now) }
        ensures fault { IfErr result (λ fault. is_word_fault fault ≡ true) }
    {
        match *line {
            Line::Commit { write } => Ok(Command::Step(write.commit(alloc)?)),
            Line::Crash { write, is_kept } => Ok(Command::Step(write.crash(alloc, is_kept)?)),
            Line::Write { write } => Command::of_write(alloc, &write),
            Line::Take { node } => Ok(Command::Step(Event::Take(Name::read(node)?))),
            Line::Purge { node, floor } => {
                Ok(Command::Step(Event::Purge(Name::read(node)?, floor)))
            }
            Line::Trim { node, floor } => Ok(Command::Step(Event::Trim(Name::read(node)?, floor))),
            Line::Restart { node } => Ok(Command::Step(Event::Restart(Name::read(node)?))),
            Line::Connect { node, connection } => {
                Ok(Command::Step(Event::Connect(Name::read(node)?, connection)))
            }
            Line::Close { connection } => Ok(Command::Step(Event::Close(connection))),
            Line::LineUp { connection, frame } => Ok(Command::Step(Event::Line(connection, frame))),
            Line::Piece { connection, count } => Ok(Command::Step(Event::Piece(connection, count))),
            Line::Ask { connection } => Ok(Command::Step(Event::Ask(connection))),
            Line::Offer { node, owner, after } => {
                let [node, owner] = [Name::read(node)?, Name::read(owner)?];
                Ok(Command::Step(Event::Offer(node, owner, after)))
            }
            Line::Read { node, owner, key } => {
                let [node, owner] = [Name::read(node)?, Name::read(owner)?];
                Ok(Command::Step(Event::Read(node, owner, Key::read(key)?)))
            }
            Line::Upto { node, owner } => {
                Ok(Command::Step(Event::Upto(Name::read(node)?, Name::read(owner)?)))
            }
            Line::Show { frame } => Ok(Command::Show { frame }),
            Line::Give {
                giver,
                taker,
                after,
            } => Command::of_give(giver, taker, after),
        }
    }

    /// Reads a line: first its shape, then its names, keys and values from left to right. Returns `None` if it is not a
    /// command. `BadName`, `BadKey` and `BadValue` of the first word that has one; `NoMemory`.
    pub(crate) fn read(alloc: Global, line: &[u8]) -> Result<Option<Command>, Fault>
        ensures command { IfOk result (λ read. IfSome read (λ command. (shape : Line) × IsCommand shape command)) }
        ensures fault { IfErr result (λ fault. is_word_fault fault ≡ true) }
    {
        let words = words_of(alloc, line)?;
        match Line::parse(&words) {
            Some(line) => Ok(Some(Command::of_line(alloc, &line)?)),
            None => Ok(None),
        }
    }
}
