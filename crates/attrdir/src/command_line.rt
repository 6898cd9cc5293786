//! What the program does for each command line.
use crate::arguments::command;
use crate::commands::{
    AFTER, AGES, AGES_FROM, ALL, ASKED_CONTROL, ASKED_SOCK, ASKING_NAME, CONTROL, COUNT, EVERY,
    EXPLAIN, FLOOR, FORMAT, FROM, HOLD, KEY, KIND, LISTINGS, LOG, LOG_CLUSTER, LOG_NAME, MARK,
    MAX_AGE, ONE_KEY, OWNER, PEER_SOCK, PREFIX, RAW, RAW_VALUE, REMOVED_KEY, RENDER, RETRY,
    ROWS_FLOOR, SETTLE, STATUS_FORMAT, TO, VALUE, VALUE_ALONE, WAIT, first_outside, lacks_control,
    repeated_option, wrong_number,
};
use crate::serve_command::serve_arguments;
use crate::serving::ServeArguments;
use clap::ArgMatches;
use clap::error::ErrorKind;
use sb_codec::Ask;
use sb_commands::{
    AgeQuery, AskedNode, CarefulWatch, Caution, Failure, Floor, Portion, RenderedFile, RowFormat,
    RowQuery, Start, View, WatchPace, WatchQuery, ages_of, begin_log, key_of, name_of, prefix_of,
    print_all, print_log, print_one, print_owners, print_status, purge_log, put, restore_log,
    text_of, value_of, watch, watch_on, write_lines,
};
use sb_script::{Detail, Output, sim_run_uncounted};
use sb_types::{Fault, Key, Name, Slot, Value};
use std::alloc::Global;
use std::{env, io};

/// How many reads a script can take.
const READS_OF_A_SCRIPT: u64 = 1_000_000;

/// The exit status of a wrong command line.
pub(crate) const USAGE_STATUS: u8 = 2;

/// The exit status of `get --key` if there is no such row, and of `status` if the node is not ready.
const NONE_STATUS: u8 = 1;

/// The word for lines of standard input.
const LINES: &str = "-";

/// The exit status of a run that ended with a fault.
const FAULT_STATUS: u8 = 3;

/// What is left to do after the command line was read.
#[derive(Drop)]
pub(crate) enum Next<'a> {
    /// Nothing: the exit status.
    Ended(u8),
    /// Run a node. That is for `main`, since nothing else may start threads.
    Serve(ServeArguments<'a>),
}

/// The words of the command line. `None` if one is not UTF-8, after printing that. `NoMemory`.
pub(crate) fn words(rt: &HostRuntime) -> Result<Option<Vec<String>>, Fault> {
    match env::args(rt) {
        Ok(args) => Ok(Some(args.collect(rt.alloc())?)),
        Err(error) if error.kind() == io::ErrorKind::OutOfMemory => Err(Fault::NoMemory),
        Err(_) => {
            let _ = eprintln!(rt; "error: an argument is not UTF-8");
            Ok(None)
        }
    }
}

/// Plays the script on standard input. Returns the exit status.
fn play(rt: &HostRuntime, detail: Detail) -> Result<u8, Fault> {
    let mut output = Output::new(rt.alloc(), rt.stdout())?;
    let ending = sim_run_uncounted(
        rt.alloc(),
        rt.stdin(),
        &mut output,
        READS_OF_A_SCRIPT,
        detail,
    )?;
    Ok(ending.status())
}

/// What a script prints, as the command line asks.
fn detail_of(given: &ArgMatches<'_>) -> Detail {
    if EXPLAIN.is_given(given) {
        Detail::Explained
    } else {
        Detail::Plain
    }
}

/// Returns whether a number has another character than digits, an option is given too often, or a control socket is missing.
/// If so, it prints that.
fn has_wrong_words(rt: &HostRuntime, given: &ArgMatches<'_>, command: &str) -> bool {
    if let Some(part) = wrong_number(given, command) {
        let dashes = if part.value.is_empty() { "" } else { "--" };
        let (text, name) = (part.value(given), part.name);
        let _ = eprintln!(rt;
            "error: invalid value '{text}' for '{dashes}{name}': a number has only digits"
        );
        return true;
    }
    if let Some((part, most)) = repeated_option(given, command) {
        let name = part.name;
        let _ = eprintln!(rt; "error: give '--{name}' at most {most} times");
        return true;
    }
    if lacks_control(given, command) {
        let _ = eprintln!(rt;
            "error: no control socket: give --control PATH, or set ATTRDIR_CONTROL in the environment"
        );
        return true;
    }
    false
}

/// Makes a node write, and prints the version of the write.
fn write<'a>(rt: &HostRuntime, control: &'a str, key: Key, slot: Slot) -> Result<u8, Failure<'a>> {
    let version = put(rt, control, key, slot)?;
    match println!(rt; "version {version}") {
        Ok(()) => Ok(0),
        Err(_) => Err(Failure::from(Fault::WriteFailed(0))),
    }
}

/// Prints what `set` needs after a key. Returns the exit status.
fn print_lacking(rt: &HostRuntime) -> u8 {
    let _ = eprintln!(rt;
        "error: give KIND and VALUE after KEY; only - without --raw reads lines from standard input"
    );
    USAGE_STATUS
}

/// The value that was given. The faults of `Value::from_words`.
fn written_of<'a>(
    alloc: Global,
    given: &ArgMatches<'a>,
    kind: &'a str,
    word: &'a str,
) -> Result<Value, Failure<'a>> {
    if kind == "text" && RAW.is_given(given) {
        return text_of(alloc, word);
    }
    value_of(alloc, kind, word)
}

fn run_set<'a>(rt: &HostRuntime, given: &ArgMatches<'a>) -> Result<u8, Failure<'a>> {
    let (key, control) = (KEY.value(given), CONTROL.value(given));
    match (KIND.value_if_any(given), VALUE.value_if_any(given)) {
        (Some(kind), Some(word)) => {
            let key = key_of(key)?;
            let written = written_of(rt.alloc(), given, kind, word)?;
            write(rt, control, key, Slot::Set(written))
        }
        (None, None) if key == LINES && !RAW.is_given(given) => {
            write_lines(rt, control)?;
            Ok(0)
        }
        _ => Ok(print_lacking(rt)),
    }
}

fn run_del<'a>(rt: &HostRuntime, given: &ArgMatches<'a>) -> Result<u8, Failure<'a>> {
    let key = key_of(REMOVED_KEY.value(given))?;
    write(rt, CONTROL.value(given), key, Slot::Removed)
}

/// The owner that is asked for, if one is. `BadName`.
fn owner_of<'a>(given: &ArgMatches<'a>) -> Result<Option<Name>, Failure<'a>> {
    match OWNER.value_if_any(given) {
        Some(name) => Ok(Some(name_of("--owner", name)?)),
        None => Ok(None),
    }
}

/// The rows that are asked for. `BadName` of the owner, then `BadKey` of the prefix.
fn asked_of<'a>(given: &ArgMatches<'a>) -> Result<Ask, Failure<'a>> {
    let owner = owner_of(given)?;
    let prefix = prefix_of(PREFIX.value(given))?;
    Ok(Ask {
        owner,
        prefix,
        after: None,
    })
}

/// How much of the row of one key is printed.
fn portion_of(given: &ArgMatches<'_>, format: RowFormat) -> Portion {
    if RAW_VALUE.is_given(given) {
        Portion::RawValue
    } else if VALUE_ALONE.is_given(given) {
        Portion::Value
    } else {
        Portion::Row(format)
    }
}

/// Prints the row of one key. The exit status is 1 if there is no such row.
fn run_get_one<'a>(
    rt: &HostRuntime,
    given: &ArgMatches<'a>,
    key: &'a str,
    format: RowFormat,
) -> Result<u8, Failure<'a>> {
    let query = RowQuery {
        owner: name_of("--owner", OWNER.value(given))?,
        key: key_of(key)?,
        portion: portion_of(given, format),
    };
    if print_one(rt, CONTROL.value(given), &query)? {
        Ok(0)
    } else {
        Ok(NONE_STATUS)
    }
}

/// The form in which something is printed, by its word.
fn format_of(word: &str) -> RowFormat {
    match word {
        "json" => RowFormat::Json,
        _ => RowFormat::Text,
    }
}

/// What is asked of the ages of owners.
fn age_query_of(given: &ArgMatches<'_>) -> AgeQuery {
    let most = match MAX_AGE.number_if_any(given) {
        Some(seconds) => Some(seconds.saturating_mul(1_000)),
        None => None,
    };
    AgeQuery {
        are_shown: AGES.is_given(given),
        most,
    }
}

/// Prints what `--ages` needs. Returns the exit status.
fn print_ages_format(rt: &HostRuntime) -> u8 {
    let _ = eprintln!(rt; "error: give --ages only with --format json");
    USAGE_STATUS
}

fn run_get<'a>(rt: &HostRuntime, given: &ArgMatches<'a>) -> Result<u8, Failure<'a>> {
    let format = format_of(FORMAT.value(given));
    if AGES.is_given(given) && !matches!(format, RowFormat::Json) {
        return Ok(print_ages_format(rt));
    }
    match ONE_KEY.value_if_any(given) {
        Some(key) => run_get_one(rt, given, key, format),
        None => {
            let asked = asked_of(given)?;
            print_all(rt, CONTROL.value(given), asked, format, age_query_of(given))?;
            Ok(0)
        }
    }
}

/// How a watch waits: without a count of askings it waits for changes, 20 milliseconds at least.
fn watch_pace_of(given: &ArgMatches<'_>) -> WatchPace {
    let every = EVERY.number_if_any(given);
    WatchPace {
        every: every.unwrap_or(20),
        untold: every.unwrap_or(200),
        is_told: COUNT.number(given) == 0,
    }
}

/// How a watch shows rows. The faults of `RenderedFile::new`.
fn view_of<'a>(rt: &HostRuntime, given: &ArgMatches<'a>) -> Result<View<'a>, Failure<'a>> {
    match RENDER.value_if_any(given) {
        Some(template) => {
            let file = RenderedFile::new(rt, template, TO.value(given))?;
            Ok(View::File(file))
        }
        None if LISTINGS.is_given(given) => Ok(View::Listings),
        None => Ok(View::Changes),
    }
}

/// How careful a watch is.
fn caution_of(given: &ArgMatches<'_>) -> Caution {
    Caution {
        hold: HOLD.number(given).saturating_mul(1_000),
        floor: ROWS_FLOOR.number(given),
        settle: SETTLE.number(given),
    }
}

/// A careful watch, if one is asked for. `BadSetting` of a number outside its range; the faults of `view_of`.
fn careful_of<'a>(
    rt: &HostRuntime,
    given: &ArgMatches<'a>,
) -> Result<Option<CarefulWatch<'a>>, Failure<'a>> {
    if let Some(place) = first_outside(given, &[ROWS_FLOOR]) {
        return Err(Failure::at(place, Fault::BadSetting));
    }
    let caution = caution_of(given);
    match view_of(rt, given)? {
        View::Changes if caution.is_none() => Ok(None),
        view => Ok(Some(CarefulWatch::new(rt, caution, view))),
    }
}

fn run_watch<'a>(rt: &HostRuntime, given: &ArgMatches<'a>) -> Result<u8, Failure<'a>> {
    let query = WatchQuery {
        asked: asked_of(given)?,
        pace: watch_pace_of(given),
        count: COUNT.number(given),
        prints_asked: MARK.is_given(given),
    };
    let careful = careful_of(rt, given)?;
    if RETRY.is_given(given) || careful.is_some() {
        watch_on(rt, CONTROL.value(given), &query, careful)?;
    } else {
        watch(rt, CONTROL.value(given), &query)?;
    }
    Ok(0)
}

/// Prints how a node is. The exit status is 1 if it is not ready.
fn run_status<'a>(rt: &HostRuntime, given: &ArgMatches<'a>) -> Result<u8, Failure<'a>> {
    let format = format_of(STATUS_FORMAT.value(given));
    if print_status(rt, CONTROL.value(given), format, WAIT.number(given))? {
        Ok(0)
    } else {
        Ok(NONE_STATUS)
    }
}

fn run_owners<'a>(rt: &HostRuntime, given: &ArgMatches<'a>) -> Result<u8, Failure<'a>> {
    let cluster = name_of("--cluster", LOG_CLUSTER.value(given))?;
    let name = name_of("--name", ASKING_NAME.value(given))?;
    let ages = match AGES_FROM.value_if_any(given) {
        Some(control) => Some(ages_of(rt, control)?),
        None => None,
    };
    print_owners(rt, PEER_SOCK.value(given), cluster, name, ages.as_ref())?;
    Ok(0)
}

fn run_log<'a>(rt: &HostRuntime, given: &ArgMatches<'a>) -> Result<u8, Failure<'a>> {
    let (name, cluster) = (LOG_NAME.value(given), LOG_CLUSTER.value(given));
    print_log(rt, LOG.value(given), name, cluster)?;
    Ok(0)
}

/// Prints what `purge` needs. Returns the exit status.
fn print_floors(rt: &HostRuntime) -> u8 {
    let _ = eprintln!(rt; "error: give either FLOOR or --all");
    USAGE_STATUS
}

fn run_purge<'a>(rt: &HostRuntime, given: &ArgMatches<'a>) -> Result<u8, Failure<'a>> {
    let floor = match (FLOOR.number_if_any(given), ALL.is_given(given)) {
        (Some(version), false) => Floor::At(version),
        (None, true) => Floor::Last,
        _ => return Ok(print_floors(rt)),
    };
    let (name, cluster) = (LOG_NAME.value(given), LOG_CLUSTER.value(given));
    purge_log(rt, LOG.value(given), name, cluster, floor)?;
    Ok(0)
}

/// Prints what `begin` needs. Returns the exit status.
fn print_starts(rt: &HostRuntime) -> u8 {
    let _ = eprintln!(rt; "error: give either --after or --from");
    USAGE_STATUS
}

fn run_begin<'a>(rt: &HostRuntime, given: &ArgMatches<'a>) -> Result<u8, Failure<'a>> {
    let start = match (AFTER.number_if_any(given), FROM.value_if_any(given)) {
        (Some(version), None) => Start::After(version, AFTER.place()),
        (None, Some(sock)) => Start::From(sock),
        _ => return Ok(print_starts(rt)),
    };
    let (name, cluster) = (LOG_NAME.value(given), LOG_CLUSTER.value(given));
    begin_log(rt, LOG.value(given), name, cluster, start)?;
    Ok(0)
}

fn run_restore<'a>(rt: &HostRuntime, given: &ArgMatches<'a>) -> Result<u8, Failure<'a>> {
    let asked = AskedNode {
        sock: ASKED_SOCK.value(given),
        control: ASKED_CONTROL.value(given),
    };
    let (name, cluster) = (LOG_NAME.value(given), LOG_CLUSTER.value(given));
    restore_log(rt, LOG.value(given), name, cluster, asked)?;
    Ok(0)
}

fn run_sim<'a>(rt: &HostRuntime, given: &ArgMatches<'a>) -> Result<u8, Failure<'a>> {
    Ok(play(rt, detail_of(given))?)
}

/// Runs a command, except `serve`. Returns the exit status.
fn status_of<'a>(
    rt: &HostRuntime,
    command: &str,
    given: &ArgMatches<'a>,
) -> Result<u8, Failure<'a>> {
    match command {
        "set" => run_set(rt, given),
        "del" => run_del(rt, given),
        "get" => run_get(rt, given),
        "watch" => run_watch(rt, given),
        "status" => run_status(rt, given),
        "owners" => run_owners(rt, given),
        "log" => run_log(rt, given),
        "purge" => run_purge(rt, given),
        "begin" => run_begin(rt, given),
        "restore" => run_restore(rt, given),
        "sim" => run_sim(rt, given),
        _ => Ok(USAGE_STATUS),
    }
}

/// Runs a command line that is well formed, except that it does not run a node.
fn carry_out<'a>(rt: &HostRuntime, matches: &ArgMatches<'a>) -> Result<Next<'a>, Failure<'a>> {
    match matches.subcommand() {
        Some((command, given)) if has_wrong_words(rt, given, command) => {
            Ok(Next::Ended(USAGE_STATUS))
        }
        Some(("serve", given)) => Ok(Next::Serve(serve_arguments(rt.alloc(), given)?)),
        Some((command, given)) => Ok(Next::Ended(status_of(rt, command, given)?)),
        None => Ok(Next::Ended(USAGE_STATUS)),
    }
}

/// Whether each byte of a text is a digit.
fn has_only_digits(text: &[u8]) -> bool {
    text.iter().all(|byte| byte.is_ascii_digit())
}

/// Whether a word is a dash and digits.
fn is_negative(word: &str) -> bool {
    match word.as_bytes().split_first() {
        Some((sign, digits)) if *sign == b'-' => !digits.is_empty() && has_only_digits(digits),
        _ => false,
    }
}

/// The negative number that `set` was given as a weight, if it was.
fn negative_weight(words: &[String]) -> Option<&str> {
    let mut is_set = false;
    let mut is_weight = false;
    for word in words {
        let word = word.as_str();
        if is_set && is_weight && is_negative(word) {
            return Some(word);
        }
        is_set = is_set || word == "set";
        is_weight = word == "weight";
    }
    None
}

/// Prints the help that was asked for, or what is wrong with the words. Returns the exit status.
fn tell(rt: &HostRuntime, words: &[String], error: &clap::Error) -> Result<u8, Fault> {
    if error.kind() == ErrorKind::OutOfMemory {
        return Err(Fault::NoMemory);
    }
    if error.kind() == ErrorKind::UnknownArgument {
        if let Some(word) = negative_weight(words) {
            let _ = eprintln!(rt;
                "error: invalid value '{word}' for 'VALUE': a weight is a whole number from 0 to 2^63 - 1"
            );
            return Ok(USAGE_STATUS);
        }
    }
    match error.print(rt) {
        Ok(()) => Ok(error.exit_code() as u8),
        Err(_) => Err(Fault::WriteFailed(0)),
    }
}

/// Runs these words as a command line, except that it does not run a node. `texts` are those of `help_texts`. If no control
/// socket is given, `fallback` is its path. `NoMemory`; `WriteFailed` of the help; the faults of the command.
pub(crate) fn follow<'a>(
    rt: &HostRuntime,
    words: &'a [String],
    texts: &'a [String],
    fallback: Option<&'a str>,
) -> Result<Next<'a>, Failure<'a>> {
    match command(rt.alloc(), texts, fallback)?.try_get_matches_from(words) {
        Ok(matches) => carry_out(rt, &matches),
        Err(error) => Ok(Next::Ended(tell(rt, words, &error)?)),
    }
}

/// Prints a failure. Returns the exit status.
pub(crate) fn print_failure(rt: &HostRuntime, failure: Failure<'_>) -> u8 {
    let _ = eprintln!(rt; "{failure}");
    FAULT_STATUS
}
