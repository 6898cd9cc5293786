//! The command line that the program takes, made from its commands.
use crate::commands::{TASKS, Task};
use crate::{help, release};
use clap::{Arg, ArgAction, Command, value_parser};
use sb_commands::{Kind, Part};
use std::alloc::{AllocError, Global};
use std::slice;

/// The help of each option and word, in the order of the commands and of their parts. `NoMemory`.
pub(crate) fn help_texts(alloc: Global) -> Result<Vec<String>, AllocError> {
    let mut texts = Vec::new(alloc);
    for task in TASKS.iter() {
        for part in task.parts {
            texts.push(format!(in alloc; "{part}")?)?;
        }
    }
    Ok(texts)
}

fn word<'a>(alloc: Global, part: &Part, help: &'a str) -> Arg<'a> {
    Arg::new(alloc, part.name).help(help)
}

/// An option with one value.
fn option<'a>(alloc: Global, part: &Part, help: &'a str) -> Arg<'a> {
    word(alloc, part, help)
        .long(part.name)
        .value_name(part.value)
        .action(ArgAction::Set)
}

/// An option with one number. A negative one is taken as its value, and refused as that.
fn number<'a>(alloc: Global, part: &Part, help: &'a str) -> Arg<'a> {
    option(alloc, part, help)
        .allow_negative_numbers(true)
        .value_parser(value_parser!(u64))
}

/// An option without a value.
fn flag<'a>(alloc: Global, part: &Part, help: &'a str) -> Arg<'a> {
    word(alloc, part, help)
        .long(part.name)
        .action(ArgAction::SetTrue)
}

/// The option of the control socket. This path is its default.
fn control<'a>(alloc: Global, part: &Part, help: &'a str, fallback: Option<&'a str>) -> Arg<'a> {
    match fallback {
        Some(path) => option(alloc, part, help).default_value(path),
        None => option(alloc, part, help),
    }
}

/// An option or a word. `fallback` is the default of a control socket. `NoMemory`.
fn arg_of<'a>(
    alloc: Global,
    part: &Part,
    help: &'a str,
    fallback: Option<&'a str>,
) -> Result<Arg<'a>, AllocError> {
    Ok(match part.kind {
        Kind::Word => word(alloc, part, help)
            .required(true)
            .action(ArgAction::Set),
        Kind::Words => word(alloc, part, help)
            .num_args(0..)
            .action(ArgAction::Append),
        Kind::WordOrNone => word(alloc, part, help).action(ArgAction::Set),
        Kind::NumberOrNone => word(alloc, part, help)
            .action(ArgAction::Set)
            .allow_negative_numbers(true)
            .value_parser(value_parser!(u64)),
        Kind::Flag => flag(alloc, part, help),
        Kind::FlagOf(beside) => flag(alloc, part, help).requires_arg(beside)?,
        Kind::FlagBeside(beside, other) => flag(alloc, part, help)
            .requires_arg(beside)?
            .conflicts_with(other)?,
        Kind::Needed => option(alloc, part, help).required(true),
        Kind::Control => control(alloc, part, help, fallback),
        Kind::Value | Kind::ValueElse(_) => option(alloc, part, help),
        Kind::Values(..) => option(alloc, part, help).action(ArgAction::Append),
        Kind::ValueOr(default) => option(alloc, part, help).default_value(default),
        Kind::ValueBeside(beside, other) => option(alloc, part, help)
            .requires_arg(beside)?
            .conflicts_with(other)?,
        Kind::OneOf(values, default) => option(alloc, part, help)
            .value_parser(values)
            .default_value(default),
        Kind::Number(_) | Kind::NumberElse(..) => number(alloc, part, help),
        Kind::NumberOr(_, default) => number(alloc, part, help).default_value(default),
    })
}

/// A command with its options and words, whose help comes next in `texts`. `NoMemory`.
fn command_of<'a>(
    alloc: Global,
    task: &Task,
    texts: &mut slice::Iter<'a, String>,
    fallback: Option<&'a str>,
) -> Result<Command<'a>, AllocError> {
    let mut command = Command::new(alloc, task.name)
        .about(task.about)
        .after_help(task.more);
    for part in task.parts {
        let help = match texts.next() {
            Some(text) => text.as_str(),
            None => part.help,
        };
        command = command.arg(arg_of(alloc, part, help, fallback)?)?;
    }
    Ok(command)
}

/// The command line that the program takes, with these texts of `help_texts`. If no control socket is given, `fallback` is
/// its path. `NoMemory`.
pub(crate) fn command<'a>(
    alloc: Global,
    texts: &'a [String],
    fallback: Option<&'a str>,
) -> Result<Command<'a>, AllocError> {
    let mut command = Command::new(alloc, "attrdir")
        .version(release::VERSION)
        .about("A directory of the attributes of nodes")
        .after_help(help::EXAMPLE)
        .subcommand_required(true);
    let mut texts = texts.iter();
    for task in TASKS.iter() {
        command = command.subcommand(command_of(alloc, task, &mut texts, fallback)?)?;
    }
    Ok(command)
}
