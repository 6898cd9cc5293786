//! The options of `serve`, and what the command line gives for a node. They are described as those in `commands.rt`.
ghost use Rattle.std.specs.Prelude.{◌≡◌, ◌+◌, ◌^◌, ◌<◌};
ghost use Rattle.attrdir.specs.Seats as spec;

use crate::commands::{Task, first_outside};
use crate::help;
use crate::metrics::Series;
use crate::serving::ServeArguments;
use clap::ArgMatches;
use sb_commands::{Kind, Part, Range};
use sb_run::{HTTP_WORKERS, OnLogFault, Pace};
use sb_types::{
    BUDGET_LEAST, BUDGET_MOST, Order, RawSettings, SEATS_MOST, VERSION_MOST, WORKERS_MOST,
};
use std::alloc::{AllocError, Global};

/// How many names a node forgets at most.
const FORGOTTEN_MOST: usize = 64;

/// In the whole cluster only one node may have it.
const NODE_NAME: Part = Part {
    name: "name",
    kind: Kind::Needed,
    value: "N",
    help: "The name under which the node writes",
};

/// A node refuses sessions with nodes of another cluster.
const NODE_CLUSTER: Part = Part {
    name: "cluster",
    kind: Kind::Needed,
    value: "C",
    help: "The name of the cluster, the same at each node",
};

/// An empty file becomes a new log.
const NODE_LOG: Part = Part {
    name: "log",
    kind: Kind::Needed,
    value: "FILE",
    help: "The log of the node, a file that exists",
};

/// At the path there must be no file, or a socket that a killed node left.
const SOCK: Part = Part {
    name: "sock",
    kind: Kind::Needed,
    value: "PATH",
    help: "The socket that the node makes for other nodes",
};

/// At the path there must be no file, or a socket that a killed node left.
const NODE_CONTROL: Part = Part {
    name: "control",
    kind: Kind::Needed,
    value: "PATH",
    help: "The socket that the node makes for set, del, get, watch and status",
};

/// Each path has 1 to 107 bytes.
/// Greater: Each peer is dialed less often.
/// Smaller: A node that nobody dials, and that dials nobody, hears nothing.
/// Left out: none
const PEERS: Part = Part {
    name: "PEER",
    kind: Kind::Words,
    value: "",
    help: "The --sock of another node; the node dials its peers one a round, in turn",
};

/// See [The budget](#the-budget).
/// Greater: A round carries more. Each session takes more memory.
/// Smaller: Catching up takes more rounds.
const BUDGET: Part = Part {
    name: "budget",
    kind: Kind::NumberOr(Range::Within(BUDGET_LEAST, BUDGET_MOST), "65536"),
    value: "B",
    help: "The most bytes of a frame",
};

/// See [The order](#the-order).
const ORDER: Part = Part {
    name: "order",
    kind: Kind::OneOf(&["breadth", "depth"], "breadth"),
    value: "ORDER",
    help: "Which writes go first if a frame has no room for all: one of each owner, or all of one owner",
};

/// A write after it is fault 8.
/// Smaller: Only to try that fault.
const MAX_VERSION: Part = Part {
    name: "max-version",
    kind: Kind::NumberOr(Range::Within(1, VERSION_MOST), "1099511627775"),
    value: "V",
    help: "The last version that the node gives",
};

/// Greater: More peers at a time. Each worker is a thread.
/// Smaller: Silent peers keep others waiting sooner.
const WORKERS: Part = Part {
    name: "workers",
    kind: Kind::NumberOr(Range::Within(1, WORKERS_MOST), "4"),
    value: "W",
    help: "How many connections of peers the node serves at once",
};

/// Of the seats beyond workers and 2, the first 8 are for HTTP if there is `--http`, and it needs one. The others are for news: so
/// many peers get it at a time. See [News](#news).
/// Greater: More slow peers delay nobody else, in more threads.
/// Smaller: With workers and 2, peers get news one after another. Less: Fault 5.
pub(crate) const SEATS: Part = Part {
    name: "seats",
    kind: Kind::NumberElse(
        Range::Seats(SEATS_MOST),
        "workers, fanout and 2, and 8 with --http",
    ),
    value: "S",
    help: "How many threads read and write the directory",
};

const ROUNDS: Part = Part {
    name: "rounds",
    kind: Kind::NumberOr(Range::Any, "0"),
    value: "R",
    help: "After how many rounds the node ends by itself, 0 for never",
};

/// Greater: Writes that a burst missed arrive later. Less work.
/// Smaller: They arrive sooner, at more work. 0 is for tests: if no peer answers it keeps a processor busy.
const PAUSE: Part = Part {
    name: "pause",
    kind: Kind::NumberOr(Range::Any, "1000"),
    value: "MS",
    help: "How many milliseconds the node waits after each round in turn",
};

/// To each it pushes what this peer may lack. See [News](#news).
/// Greater: News is everywhere sooner, in more pushes.
/// Smaller: With 0, news waits for the rounds in turn.
const FANOUT: Part = Part {
    name: "fanout",
    kind: Kind::NumberOr(Range::Any, "3"),
    value: "K",
    help: "How many peers the node dials right away, side by side, if it has news, 0 for none",
};

/// A connection that has sent nothing yet holds no worker.
/// Greater: A peer that falls silent in its session holds a worker for longer.
/// Smaller: A peer over a slow link is cut off.
const IDLE: Part = Part {
    name: "idle",
    kind: Kind::NumberOr(Range::Any, "5000"),
    value: "MS",
    help: "After how many milliseconds without a byte the node ends a connection, 0 for never",
};

/// A peer that sends a byte now and then is ended by this alone.
/// Greater: A slow peer holds a worker for longer.
/// Smaller: A long session over a slow link is cut off.
const SESSION: Part = Part {
    name: "session",
    kind: Kind::NumberOr(Range::Any, "60000"),
    value: "MS",
    help: "After how many milliseconds the node ends the session of a peer that has dialed, 0 for no limit",
};

/// A peer that made the node wait so long is passed over in its next seven turns. See
/// [Silent peers and callers](#silent-peers-and-callers).
/// Greater: A silent peer delays the dialing of the others for longer.
/// Smaller: A peer over a slow link is cut off.
const DIAL_IDLE: Part = Part {
    name: "dial-idle",
    kind: Kind::NumberOr(Range::Any, "2000"),
    value: "MS",
    help: "After how many milliseconds without a byte it gives up a peer that it dials, 0 for never",
};

/// A caller that is slow holds up nobody else. At most 1,024 wait at a socket; then the oldest that sent nothing is closed.
/// Greater: A silent caller is closed later.
/// Smaller: A slow caller is cut off.
const REQUEST: Part = Part {
    name: "request",
    kind: Kind::NumberOr(Range::Any, "2000"),
    value: "MS",
    help: "How many milliseconds a request may take to arrive, and then the reading of its answer, 0 for no limit",
};

/// A read takes at most 4,096 bytes.
/// Smaller: A peer that sends byte by byte is ended sooner. 10000 is ample for whole sessions.
const MAX_READS: Part = Part {
    name: "max-reads",
    kind: Kind::NumberElse(Range::Any, "without limit"),
    value: "M",
    help: "How many reads a connection may take",
};

/// With exit the status is 3. See [A log that fails](#a-log-that-fails).
const ON_LOG_FAULT: Part = Part {
    name: "on-log-fault",
    kind: Kind::OneOf(&["serve", "exit"], "serve"),
    value: "WHAT",
    help: "What the node does if it cannot write its log: goes on without writes, or ends",
};

/// See [Purging](OPERATING.md#purging).
/// Greater: Keys run out sooner if many come and go.
/// Smaller: Peers that were away take the whole table more often.
const PURGE_REMOVALS: Part = Part {
    name: "purge-removals",
    kind: Kind::NumberOr(Range::Any, "1024"),
    value: "N",
    help: "With N tombstones or more the node drops them, all when it starts and the older half while it runs, 0 for never",
};

/// A node also audits each peer once, after the first round in which the peer answers. See [Audits](#audits).
/// Greater: Two nodes under one name, or an older copy of a log, show later.
/// Smaller: They show sooner. Each audit costs about as much as the rows of the name.
const AUDIT: Part = Part {
    name: "audit",
    kind: Kind::NumberOr(Range::Any, "60000"),
    value: "MS",
    help: "After how many milliseconds the node compares again what a peer holds of its name with its log, 0 for never",
};

/// For how long the first write of a node waits for its peers, in milliseconds.
const HEARING_MOST: u64 = 2_000;

/// Without it the first write waits until the node has heard each peer, for two seconds at most. See [The first
/// write](#the-first-write).
const NO_WAIT: Part = Part {
    name: "no-wait",
    kind: Kind::Flag,
    value: "",
    help: "Takes writes at once, before the node has heard its peers",
};

/// Each beat is an own write: the flag true. With it the version of a node that lives rises, so that [ages](#ages) show who
/// lives. The first is made at once. With a closed log, or while another node writes under its name, there is none.
/// Greater: A node that has ended shows later.
/// Smaller: It shows sooner. Each beat goes to all nodes.
const BEAT: Part = Part {
    name: "beat",
    kind: Kind::NumberOr(Range::Any, "0"),
    value: "SECONDS",
    help: "After how many seconds the node writes its beat again, by which others hear that it lives, 0 for never",
};

/// The key counts as one of the node.
const BEAT_KEY: Part = Part {
    name: "beat-key",
    kind: Kind::ValueOr("beat"),
    value: "K",
    help: "The key of the beat",
};

/// It can be given 64 times, once for each name. The node shows no row of it, and nobody hears of one from this node. See [Owners
/// used up](RUNBOOK.md#owners-used-up).
const FORGET: Part = Part {
    name: "forget",
    kind: Kind::Values(FORGOTTEN_MOST, "none"),
    value: "NAME",
    help: "Takes no rows of this name, which is dead, from other nodes",
};

/// It is the time of UTC. For systems without a journal that adds it.
const LOG_TIME: Part = Part {
    name: "log-time",
    kind: Kind::Flag,
    value: "",
    help: "Begins each line on standard error with the time",
};

/// The node writes it as a whole, at most once a second and when a peer changed, and removes it when it ends by itself. A
/// file that exists there already has to be such a file, or empty. See [Metrics](#metrics).
const METRICS: Part = Part {
    name: "metrics",
    kind: Kind::ValueElse("none"),
    value: "FILE",
    help: "The file in which the node reports how it is, in the text format of Prometheus",
};

/// With it the node answers over HTTP: rows, owners, whether it is ready, and metrics. At the path of a socket it takes writes too. It
/// takes only an address of this machine, or such a path. Up to 8 connections are answered at once, each from a seat of its own. See
/// [HTTP](#http).
const HTTP: Part = Part {
    name: "http",
    kind: Kind::ValueElse("none"),
    value: "ADDRESS",
    help: "The address for HTTP: 127.0.0.1:PORT, [::1]:PORT, or the path of a socket",
};

/// With none the file stays small in a large cluster: a thousand nodes that hold each other make two million series.
const METRICS_OWNERS: Part = Part {
    name: "metrics-owners",
    kind: Kind::OneOf(&["all", "none"], "all"),
    value: "WHICH",
    help: "For which owners the file has the held version and the number of rows",
};

const METRICS_PEERS: Part = Part {
    name: "metrics-peers",
    kind: Kind::OneOf(&["all", "none"], "all"),
    value: "WHICH",
    help: "For which peers the file has how the last round ended",
};

/// Whether an option says all.
fn is_all(which: &str) -> bool {
    matches!(which, "all")
}

/// What the command line gives for a node. `NoMemory`.
pub(crate) fn serve_arguments<'a>(
    alloc: Global,
    given: &ArgMatches<'a>,
) -> Result<ServeArguments<'a>, AllocError> {
    Ok(ServeArguments {
        name: NODE_NAME.value(given),
        log: NODE_LOG.value(given),
        settings: settings_of(given),
        outside: first_outside(given, SERVE_TASK.parts),
        sock: SOCK.value(given),
        control: NODE_CONTROL.value(given),
        peers: PEERS.values(alloc, given)?,
        forgotten: FORGET.values(alloc, given)?,
        pace: pace_of(given),
        beat: BEAT.number(given),
        beat_key: BEAT_KEY.value(given),
        purge_removals: PURGE_REMOVALS.number(given),
        has_time: LOG_TIME.is_given(given),
        metrics: METRICS.value_if_any(given),
        series: Series {
            has_owners: is_all(METRICS_OWNERS.value(given)),
            has_peers: is_all(METRICS_PEERS.value(given)),
        },
        http: HTTP.value_if_any(given),
    })
}

/// How many seats so many workers, sessions for news and connections over HTTP have use for: two more. It is not more than there may
/// be.
fn seats_for(workers: u64, fanout: u64, http: u64) -> u64
    ensures { workers + 2 + fanout + http < 2 ^ 64 → result ≡ spec.seats_for workers fanout http }
{
    let least = workers.saturating_add(2);
    let wanted = least.saturating_add(fanout).saturating_add(http);
    least.max(wanted.min(SEATS_MOST))
}

/// The settings of a node. Without `--seats` there are two seats, and one for each worker, each connection over HTTP, and
/// each peer that is dialed at once for news. There are at most as many as there may be.
fn settings_of<'a>(given: &ArgMatches<'a>) -> RawSettings<'a> {
    let workers = WORKERS.number(given);
    let order = match ORDER.value(given) {
        "depth" => Order::Depth,
        _ => Order::Breadth,
    };
    let http = match HTTP.value_if_any(given) {
        Some(_) => HTTP_WORKERS,
        None => 0,
    };
    RawSettings {
        cluster: NODE_CLUSTER.value(given).as_bytes(),
        budget: BUDGET.number(given),
        order,
        max_version: MAX_VERSION.number(given),
        seats: SEATS
            .number_if_any(given)
            .unwrap_or(seats_for(workers, FANOUT.number(given), http)),
        workers,
    }
}

fn pace_of(given: &ArgMatches<'_>) -> Pace {
    let on_log_fault = match ON_LOG_FAULT.value(given) {
        "exit" => OnLogFault::Exit,
        _ => OnLogFault::Serve,
    };
    Pace {
        rounds: ROUNDS.number(given),
        pause: PAUSE.number(given),
        fanout: FANOUT.number(given),
        idle: IDLE.number(given),
        session: SESSION.number(given),
        dial_idle: DIAL_IDLE.number(given),
        request: REQUEST.number(given),
        max_reads: MAX_READS.number_if_any(given).unwrap_or(u64::MAX),
        on_log_fault,
        purge_removals: PURGE_REMOVALS.number(given),
        audit: AUDIT.number(given),
        hearing: if NO_WAIT.is_given(given) {
            0
        } else {
            HEARING_MOST
        },
    }
}

pub(crate) const SERVE_TASK: Task = Task {
    name: "serve",
    about: "Runs a node",
    more: help::SERVE,
    parts: &[
        NODE_NAME,
        NODE_CLUSTER,
        NODE_LOG,
        SOCK,
        NODE_CONTROL,
        PEERS,
        BUDGET,
        ORDER,
        MAX_VERSION,
        WORKERS,
        SEATS,
        ROUNDS,
        PAUSE,
        FANOUT,
        IDLE,
        SESSION,
        DIAL_IDLE,
        REQUEST,
        MAX_READS,
        ON_LOG_FAULT,
        PURGE_REMOVALS,
        AUDIT,
        NO_WAIT,
        BEAT,
        BEAT_KEY,
        FORGET,
        LOG_TIME,
        METRICS,
        METRICS_OWNERS,
        METRICS_PEERS,
        HTTP,
    ],
};
