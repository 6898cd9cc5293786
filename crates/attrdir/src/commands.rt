//! The commands, with their options and words: what the command line can contain.
//!
//! An option is described once: here, or in `serve_command.rt` if it is one of `serve`. From its `Part` come its parsing, its
//! default, its limits and its help. `tools/options` writes the same into `docs/attrdir.1`, `docs/attrdir.bash` and
//! `docs/REFERENCE.md`. The docstring of a `Part` is what the pages add to the help: sentences, and then what a `Greater:`
//! and a `Smaller:` value change. `Left out:` says what holds without the option, if it has no default.
use crate::help;
use crate::serve_command::SERVE_TASK;
use clap::ArgMatches;
use sb_commands::{FaultPlace, Kind, Part, Range};
use sb_types::VERSION_MOST;

/// A command.
#[derive(Clone, Copy)]
pub(crate) struct Task {
    pub(crate) name: &'static str,
    pub(crate) about: &'static str,
    /// What comes after its help.
    pub(crate) more: &'static str,
    pub(crate) parts: &'static [Part],
}

pub(crate) const CONTROL: Part = Part {
    name: "control",
    kind: Kind::Control,
    value: "PATH",
    help: "The control socket of the node, or ATTRDIR_CONTROL in the environment",
};

pub(crate) const KEY: Part = Part {
    name: "KEY",
    kind: Kind::Word,
    value: "",
    help: "The key of the write; - alone reads lines from standard input",
};

pub(crate) const KIND: Part = Part {
    name: "KIND",
    kind: Kind::WordOrNone,
    value: "",
    help: "addr, weight, flag or text",
};

pub(crate) const VALUE: Part = Part {
    name: "VALUE",
    kind: Kind::WordOrNone,
    value: "",
    help: "What is written",
};

/// Left out: VALUE is a SPELLING
pub(crate) const RAW: Part = Part {
    name: "raw",
    kind: Kind::Flag,
    value: "",
    help: "Takes the bytes of VALUE as they are, if KIND is text",
};

pub(crate) const REMOVED_KEY: Part = Part {
    name: "KEY",
    kind: Kind::Word,
    value: "",
    help: "The key to remove",
};

/// Left out: rows of all owners
pub(crate) const OWNER: Part = Part {
    name: "owner",
    kind: Kind::Value,
    value: "O",
    help: "Only what this node wrote",
};

/// Left out: all keys
pub(crate) const PREFIX: Part = Part {
    name: "prefix",
    kind: Kind::Value,
    value: "P",
    help: "Only keys that begin with P",
};

/// The exit status is 1 if there is no such row.
/// Left out: all rows
pub(crate) const ONE_KEY: Part = Part {
    name: "key",
    kind: Kind::ValueBeside("owner", "prefix"),
    value: "K",
    help: "Only the row of this key; needs --owner",
};

/// A text is spelled as in the row.
/// Left out: the whole row
pub(crate) const VALUE_ALONE: Part = Part {
    name: "value",
    kind: Kind::FlagBeside("key", "format"),
    value: "",
    help: "Prints only the value; needs --key",
};

/// Left out: a text as it is spelled
pub(crate) const RAW_VALUE: Part = Part {
    name: "raw",
    kind: Kind::FlagOf("value"),
    value: "",
    help: "Prints a text as it is, without its spelling; needs --value",
};

pub(crate) const FORMAT: Part = Part {
    name: "format",
    kind: Kind::OneOf(&["text", "json"], "text"),
    value: "FORMAT",
    help: "Prints the words of each row, or a JSON object for each row",
};

/// It is the member `age`, in milliseconds. See [Ages](#ages).
/// Left out: no ages
pub(crate) const AGES: Part = Part {
    name: "ages",
    kind: Kind::FlagBeside("format", "key"),
    value: "",
    help: "Shows in each JSON object how long ago the node heard the owner; needs --format json",
};

/// An owner is heard if a new write of it comes. See [Ages](#ages).
/// Greater: Rows of owners that have ended stay longer.
/// Smaller: An owner that writes little is left out although it lives, unless it has a beat.
/// Left out: rows of any age
pub(crate) const MAX_AGE: Part = Part {
    name: "max-age",
    kind: Kind::Number(Range::Any),
    value: "SECONDS",
    help: "Leaves out the rows of owners that the node did not hear for longer",
};

pub(crate) const STATUS_FORMAT: Part = Part {
    name: "format",
    kind: Kind::OneOf(&["text", "json"], "text"),
    value: "FORMAT",
    help: "Prints a line for each thing that it tells, or one JSON object",
};

/// A node that cannot be reached meanwhile is asked again too.
/// Greater: A node that takes longer to start still counts as ready.
/// Smaller: With 0, the first answer counts.
pub(crate) const WAIT: Part = Part {
    name: "wait",
    kind: Kind::NumberOr(Range::Any, "0"),
    value: "MS",
    help: "For how many milliseconds it asks again until the node is ready",
};

/// It waits for a change after that. With `--count` it does not, and asks each so many milliseconds. It also does that if
/// the node reports no changes: if 64 others wait there, or if the node is of an older release.
/// Greater: Changes are printed later, and more of them at once.
/// Smaller: If much changes, it asks more often.
pub(crate) const EVERY: Part = Part {
    name: "every",
    kind: Kind::NumberElse(Range::Any, "20 (200 with --count)"),
    value: "MS",
    help: "How many milliseconds it waits at least before it asks again",
};

pub(crate) const COUNT: Part = Part {
    name: "count",
    kind: Kind::NumberOr(Range::Any, "0"),
    value: "N",
    help: "After how many askings it ends, 0 for never",
};

/// Left out: no `asked` lines
pub(crate) const MARK: Part = Part {
    name: "mark",
    kind: Kind::Flag,
    value: "",
    help: "Prints a line 'asked' after each asking",
};

/// After a new start of the node it waits with gone. It waits until the node has shown a row of the same owner with the
/// same version or a later one.
/// Left out: a fault ends it
pub(crate) const RETRY: Part = Part {
    name: "retry",
    kind: Kind::Flag,
    value: "",
    help: "Goes on if the node does not answer, and keeps its rows",
};

/// Its first line comes no sooner after it began than this time, since an earlier watch may have shown rows that have not come yet.
/// Greater: A row that comes back in time is not missed.
/// Smaller: With 0, a row that the node no longer shows is gone at once.
pub(crate) const HOLD: Part = Part {
    name: "hold",
    kind: Kind::NumberOr(Range::Any, "0"),
    value: "S",
    help: "For how many seconds a row stays that went",
};

/// Rows whose time of --hold is over go together, and if too few would be left, none of them goes.
/// Greater: Fewer rows can go within an hour.
/// Smaller: With 0, all rows can go at once.
pub(crate) const ROWS_FLOOR: Part = Part {
    name: "floor",
    kind: Kind::NumberOr(Range::Within(0, 100), "0"),
    value: "PERCENT",
    help: "Keeps at least this part of the most rows that the node showed in the last hour",
};

/// Greater: Changes that belong together are shown together, and later.
/// Smaller: With 0, each asking shows what changed.
pub(crate) const SETTLE: Part = Part {
    name: "settle",
    kind: Kind::NumberOr(Range::Any, "0"),
    value: "MS",
    help: "For how many milliseconds after a change it gathers more changes",
};

/// Left out: a line for each change
pub(crate) const LISTINGS: Part = Part {
    name: "listings",
    kind: Kind::Flag,
    value: "",
    help: "Prints all rows in one line of JSON after each change",
};

/// Left out: nothing is written
pub(crate) const RENDER: Part = Part {
    name: "render",
    kind: Kind::ValueBeside("to", "listings"),
    value: "TEMPLATE",
    help: "Writes the rows into a file, as this template has them; needs --to",
};

/// It is replaced as a whole.
/// Left out: nothing is written
pub(crate) const TO: Part = Part {
    name: "to",
    kind: Kind::ValueBeside("render", "listings"),
    value: "FILE",
    help: "The file that --render writes",
};

pub(crate) const PEER_SOCK: Part = Part {
    name: "sock",
    kind: Kind::Needed,
    value: "PATH",
    help: "The socket of the node for other nodes",
};

pub(crate) const ASKING_NAME: Part = Part {
    name: "name",
    kind: Kind::ValueOr("attrdir-owners"),
    value: "N",
    help: "The name under which it asks; it must differ from the node's name",
};

/// Left out: no ages
pub(crate) const AGES_FROM: Part = Part {
    name: "ages-from",
    kind: Kind::Value,
    value: "PATH",
    help: "The --control of the same node: prints after each version how many milliseconds ago the owner was heard",
};

pub(crate) const LOG: Part = Part {
    name: "log",
    kind: Kind::Needed,
    value: "FILE",
    help: "The file of the log",
};

pub(crate) const LOG_NAME: Part = Part {
    name: "name",
    kind: Kind::Needed,
    value: "N",
    help: "The owner of the log: the name of its node",
};

pub(crate) const LOG_CLUSTER: Part = Part {
    name: "cluster",
    kind: Kind::Needed,
    value: "C",
    help: "The name of its cluster",
};

pub(crate) const FLOOR: Part = Part {
    name: "FLOOR",
    kind: Kind::NumberOrNone,
    value: "",
    help: "The version up to which tombstones are dropped, at most the last version of the log",
};

/// Left out: FLOOR has to be given
pub(crate) const ALL: Part = Part {
    name: "all",
    kind: Kind::Flag,
    value: "",
    help: "Drops up to the last version of the log, in place of FLOOR",
};

const NEW_LOG: Part = Part {
    name: "log",
    kind: Kind::Needed,
    value: "FILE",
    help: "The file of the log; it is made if it does not exist",
};

/// It has to be at least 4,096 above the last version of the lost log.
/// Left out: `--from` has to be given
pub(crate) const AFTER: Part = Part {
    name: "after",
    kind: Kind::Number(Range::Within(1, VERSION_MOST)),
    value: "V",
    help: "The version after which the log begins",
};

/// Left out: `--after` has to be given
pub(crate) const FROM: Part = Part {
    name: "from",
    kind: Kind::Value,
    value: "PATH",
    help: "In place of --after: the --sock of a node that heard of N; the version is the last that it heard of, plus 1,048,576",
};

/// A log without writes is replaced.
const RESTORED_LOG: Part = Part {
    name: "log",
    kind: Kind::Needed,
    value: "FILE",
    help: "The file of the log, which does not exist, or has no write",
};

pub(crate) const ASKED_SOCK: Part = Part {
    name: "from",
    kind: Kind::Needed,
    value: "PATH",
    help: "The --sock of a node that heard of N; the log begins after the last version that it heard of, plus 1,048,576",
};

/// It may also be the node itself, if that still runs without its log.
pub(crate) const ASKED_CONTROL: Part = Part {
    name: "from-control",
    kind: Kind::Needed,
    value: "PATH",
    help: "The --control of a node that shows the rows of N, as of that node",
};

/// Left out: frames only in hexadecimal
pub(crate) const EXPLAIN: Part = Part {
    name: "explain",
    kind: Kind::Flag,
    value: "",
    help: "Describes in words what the frames contain",
};

const SET_TASK: Task = Task {
    name: "set",
    about: "Has a node write a value under a key, or what lines of standard input say",
    more: help::SET,
    parts: &[CONTROL, RAW, KEY, KIND, VALUE],
};

const DEL_TASK: Task = Task {
    name: "del",
    about: "Has a node remove what it wrote under a key",
    more: help::DEL,
    parts: &[CONTROL, REMOVED_KEY],
};

const GET_TASK: Task = Task {
    name: "get",
    about: "Prints the rows of a node: its own and those that it heard of others",
    more: help::GET,
    parts: &[
        CONTROL,
        OWNER,
        PREFIX,
        ONE_KEY,
        VALUE_ALONE,
        RAW_VALUE,
        MAX_AGE,
        AGES,
        FORMAT,
    ],
};

const WATCH_TASK: Task = Task {
    name: "watch",
    about: "Asks a node again and again, and prints what changed",
    more: help::WATCH,
    parts: &[
        CONTROL, OWNER, PREFIX, EVERY, COUNT, MARK, RETRY, HOLD, ROWS_FLOOR, SETTLE, LISTINGS,
        RENDER, TO,
    ],
};

const OWNERS_TASK: Task = Task {
    name: "owners",
    about: "Prints up to which version a node holds each owner",
    more: help::OWNERS,
    parts: &[PEER_SOCK, LOG_CLUSTER, ASKING_NAME, AGES_FROM],
};

const STATUS_TASK: Task = Task {
    name: "status",
    about: "Prints how a node is, and whether it is ready",
    more: help::STATUS,
    parts: &[CONTROL, WAIT, STATUS_FORMAT],
};

const LOG_TASK: Task = Task {
    name: "log",
    about: "Prints the log of a node that does not run",
    more: help::LOG,
    parts: &[LOG, LOG_NAME, LOG_CLUSTER],
};

const PURGE_TASK: Task = Task {
    name: "purge",
    about: "Drops the tombstones of a log, so that their keys no longer count",
    more: help::PURGE,
    parts: &[LOG, LOG_NAME, LOG_CLUSTER, FLOOR, ALL],
};

const BEGIN_TASK: Task = Task {
    name: "begin",
    about: "Makes a log for a name whose log is lost, or that is to end",
    more: help::BEGIN,
    parts: &[NEW_LOG, LOG_NAME, LOG_CLUSTER, AFTER, FROM],
};

const RESTORE_TASK: Task = Task {
    name: "restore",
    about: "Makes a log for a name whose log is lost, with the rows that a node shows",
    more: help::RESTORE,
    parts: &[
        RESTORED_LOG,
        LOG_NAME,
        LOG_CLUSTER,
        ASKED_SOCK,
        ASKED_CONTROL,
    ],
};

const SIM_TASK: Task = Task {
    name: "sim",
    about: "Plays a script of many nodes in memory, from standard input to standard output",
    more: help::SCRIPT,
    parts: &[EXPLAIN],
};

/// The commands, in the order of the help.
pub(crate) const TASKS: [Task; 12] = [
    SERVE_TASK,
    SET_TASK,
    DEL_TASK,
    GET_TASK,
    WATCH_TASK,
    STATUS_TASK,
    OWNERS_TASK,
    LOG_TASK,
    PURGE_TASK,
    BEGIN_TASK,
    RESTORE_TASK,
    SIM_TASK,
];

/// The options and words of a command. There are none if no command has this name.
fn parts_of(command: &str) -> &'static [Part] {
    for task in TASKS.iter() {
        if task.name == command {
            return task.parts;
        }
    }
    &[]
}

/// The first option or word of a command that takes a number, and was given something else than digits.
pub(crate) fn wrong_number(given: &ArgMatches<'_>, command: &str) -> Option<&'static Part> {
    parts_of(command)
        .iter()
        .find(|part| part.has_wrong_number(given))
}

/// The first option of a command that was given more often than it may be, and how often that is.
pub(crate) fn repeated_option(
    given: &ArgMatches<'_>,
    command: &str,
) -> Option<(&'static Part, usize)> {
    for part in parts_of(command) {
        if let Some(most) = part.times_exceeded(given) {
            return Some((part, most));
        }
    }
    None
}

/// Whether a command needs a control socket, and neither its option nor the environment gives one.
pub(crate) fn lacks_control(given: &ArgMatches<'_>, command: &str) -> bool {
    parts_of(command).iter().any(|part| matches!(part.kind, Kind::Control)
        && part.value_if_any(given).is_none())
}

/// The place of the first of these options that was given a number outside its range.
pub(crate) fn first_outside(given: &ArgMatches<'_>, parts: &[Part]) -> Option<FaultPlace<'static>> {
    Some(parts.iter().find(|part| part.is_outside(given))?.place())
}
