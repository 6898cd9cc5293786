//! The command line of the program, and what the program does for it, except measuring readers.
use crate::layers;
use crate::plan::{Plan, SMALL_LAYERS, SMALL_READERS, Telling};
use crate::problem::Problem;
use clap::error::ErrorKind;
use clap::{Arg, ArgAction, ArgMatches, Command, value_parser};
use std::alloc::{AllocError, Global};
use std::env;

const EXAMPLE: &str =
    "Each line that is printed has a name, a value and a unit. attrdir_bench COMMAND --help says more of each command.

Example:
  $ attrdir_bench layers                 one owner of 4,096 keys, each layer five times
  $ attrdir_bench layers 1023 1 100      1,023 owners of one key each
  $ attrdir_bench readers 64 64 40       64 owners of 64 keys each";

const ABOUT_LAYERS: &str = "The times are of the processor.

With --log the times of writes to files are those that passed, since each waits until the disk has it.

Example:
  $ attrdir_bench layers 1 4096 1 --log /tmp/new.log";

const ABOUT_READERS: &str =
    "A line 'shown' has the time of the processor until a write is shown, 'prefix' that of a row of a prefix, and 'read-N', of N
readers at once beside a writer, that of a look-up in one of them, and how many there were in a second that passed in all together.
'write-N' has how many writes there were meanwhile.

Example:
  $ attrdir_bench readers 1023 1024 4";

/// What is left to do after the command line was read.
#[derive(Clone, Copy)]
pub(crate) enum Next {
    /// Nothing: the exit status.
    Ended(u8),
    /// Measure readers. That is for `main`, since nothing else may start threads.
    Readers(Plan),
}

/// The exit status of a wrong command line.
const USAGE_STATUS: u8 = 2;

fn owners<'a>(alloc: Global) -> Arg<'a> {
    Arg::new(alloc, "OWNERS")
        .value_parser(value_parser!(u64).range(1..=1023))
        .help("How many owners are held, 1 to 1023")
}

fn keys<'a>(alloc: Global) -> Arg<'a> {
    Arg::new(alloc, "KEYS")
        .value_parser(value_parser!(u64).range(1..=4096))
        .help("How many keys each has, 1 to 4096")
}

fn log<'a>(alloc: Global) -> Arg<'a> {
    Arg::new(alloc, "log")
        .long("log")
        .value_name("FILE")
        .action(ArgAction::Set)
        .help("Measures a log too, in this file, which is made, and bare writes beside it")
}

fn layers_command<'a>(alloc: Global) -> Result<Command<'a>, AllocError> {
    let rounds = Arg::new(alloc, "ROUNDS")
        .value_parser(value_parser!(u64).range(1..))
        .default_value("5")
        .help("How often each layer is run");
    Command::new(alloc, "layers")
        .about("Measures each layer up to the node")
        .after_help(ABOUT_LAYERS)
        .arg(owners(alloc).default_value("1"))?
        .arg(keys(alloc).default_value("4096"))?
        .arg(rounds)?
        .arg(log(alloc))
}

fn readers_command<'a>(alloc: Global) -> Result<Command<'a>, AllocError> {
    let rounds = Arg::new(alloc, "ROUNDS")
        .value_parser(value_parser!(u64))
        .required(true)
        .help("How often each reader looks up 100,000 keys");
    Command::new(alloc, "readers")
        .about("Measures readers of a directory beside a writer, and how soon a write is shown")
        .after_help(ABOUT_READERS)
        .arg(owners(alloc).required(true))?
        .arg(keys(alloc).required(true))?
        .arg(rounds)
}

fn smoke_command<'a>(alloc: Global) -> Command<'a> {
    Command::new(alloc, "smoke").about(
        "Does both at a small size, and prints counts in place of times",
    )
}

fn command<'a>(alloc: Global) -> Result<Command<'a>, AllocError> {
    Command::new(alloc, "attrdir_bench")
        .about("Measures the directory of the attributes of nodes")
        .after_help(EXAMPLE)
        .subcommand_required(true)
        .subcommand(layers_command(alloc)?)?
        .subcommand(readers_command(alloc)?)?
        .subcommand(smoke_command(alloc))
}

/// The plan of a command line that has all numbers.
fn plan_of(given: &ArgMatches<'_>) -> Plan {
    Plan {
        owners: given.get_one("OWNERS").unwrap_or(1),
        keys: given.get_one("KEYS").unwrap_or(1),
        rounds: given.get_one("ROUNDS").unwrap_or(0),
        telling: Telling::Times,
    }
}

/// Runs a command line that is well formed, except that it does not measure readers.
fn carry_out(rt: &HostRuntime, matches: &ArgMatches<'_>) -> Result<Next, Problem> {
    match matches.subcommand() {
        Some(("layers", given)) => {
            layers::measure(rt, plan_of(given), given.get_str("log"))?;
            Ok(Next::Ended(0))
        }
        Some(("readers", given)) => Ok(Next::Readers(plan_of(given))),
        Some(_) => {
            layers::measure(rt, SMALL_LAYERS, None)?;
            Ok(Next::Readers(SMALL_READERS))
        }
        None => Ok(Next::Ended(USAGE_STATUS)),
    }
}

/// Prints why a command line is refused, or the help that it asks for. Returns the exit status.
fn refuse(rt: &HostRuntime, error: &clap::Error) -> Result<u8, Problem> {
    if error.kind() == ErrorKind::OutOfMemory {
        return Err(AllocError.into());
    }
    error.print(rt)?;
    Ok(error.exit_code() as u8)
}

fn words(rt: &HostRuntime) -> Result<Vec<String>, Problem> {
    Ok(env::args(rt)?.collect(rt.alloc())?)
}

/// Runs the command line, except that it does not measure readers.
pub(crate) fn follow(rt: &HostRuntime) -> Result<Next, Problem> {
    let words = words(rt)?;
    match command(rt.alloc())?.try_get_matches_from(words.as_slice()) {
        Ok(matches) => carry_out(rt, &matches),
        Err(error) => Ok(Next::Ended(refuse(rt, &error)?)),
    }
}
