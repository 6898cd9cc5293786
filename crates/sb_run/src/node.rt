//! A node that runs: it serves its peers and its clients, and dials its peers.
ghost use Rattle.std.specs.Prelude.{◌≡◌, ◌+◌, ◌≤◌, true, false, None, Err, IfOk, IfErr, IfSome, IsErr, ◌⊎◌, vec_len, vec_capacity, IsOk};
ghost use Rattle.sb_run.specs.Closing.{seen_by};
ghost use Rattle.sb_run.specs.Running as spec;
ghost use Rattle.sb_run.specs.Running.{IsReadFrom, IsRunningFault, IsEndFault, IsOpenedFault, IsOpenedFrom, RunsClosed, IsTagOf, IsStarted};

use crate::accepting::deadline_after;
use crate::dialer::{Dialing, RoundsTag, Turns};
use crate::first_hearing::FirstHearing;
use crate::http_threads::HTTP_WORKERS;
use crate::http_writes::WriteDesk;
use crate::node_setup::{Channels, NodeRecords, NodeSetup, SeatedNode};
use crate::observer::Observer;
use crate::own_writes::{ClosableLog, OwnWrites};
use crate::sockets::BoundSockets;
use crate::threads::{Links, ThreadsEnd, gather_seats, part_seats};
use sb_directory::Directory;
use sb_handlers::ForgottenOwners;
use sb_log::WriteLog;
use sb_node::NodeCore;
use sb_table::Table;
use sb_types::{Fault, Key, Name, Settings};
use sb_views::NewHistory;
use std::alloc::Global;
use std::marker::Brand;
use std::net::{Net, TcpListener, TcpStream};
use std::random::RandomSource;
use std::rt::Files;
use std::sync::ledger::Blank;
use std::sync::{Mutex, Wait};
use std::thread::Threads;
use std::time::Clock;

/// The paths of Unix sockets: those at which a node listens, and those that it dials.
#[derive(Clone, Copy, Debug)]
pub struct Paths<'a> {
    /// The path to which its peers connect.
    pub sock: &'a str,
    /// The path to which its clients connect, which write its rows and ask for rows of any owner.
    pub control: &'a str,
    /// The paths at which its peers listen.
    pub peers: &'a [&'a str],
    /// The address at which it answers over HTTP: `127.0.0.1:PORT` or `[::1]:PORT`, or the path of a socket. `None` if it does not.
    pub http: Option<&'a str>,
}

/// What a node does once a fault of its store has closed its log.
#[derive(Clone, Copy, Debug, PartialEq, Eq)]
pub enum OnLogFault {
    /// It goes on serving peers and readers, and refuses writes.
    Serve,
    /// It ends.
    Exit,
}

/// How often a node dials, and how long it waits.
#[derive(Clone, Copy, Debug)]
pub struct Pace {
    /// How many rounds it makes; 0 for rounds without end.
    pub rounds: u64,
    /// How long it waits after each round in turn, in milliseconds.
    pub pause: u64,
    /// How many peers it dials side by side if it has something new to pass on; 0 for none.
    pub fanout: u64,
    /// How long a connection may move no byte, in milliseconds; 0 for no limit.
    pub idle: u64,
    /// How long the session of a peer that has dialed may take, in milliseconds; 0 for no limit.
    pub session: u64,
    /// The same of a connection to a peer that it dials.
    pub dial_idle: u64,
    /// How long the request of a connection at the control socket may take until it is whole, in milliseconds; 0 for no
    /// limit. Then its answer may take as long.
    pub request: u64,
    /// How many reads a connection may take.
    pub max_reads: u64,
    /// What it does once its log has failed.
    pub on_log_fault: OnLogFault,
    /// With how many removed keys it purges its own table while it runs, 64 if this is fewer; 0 for never.
    pub purge_removals: u64,
    /// After how many milliseconds it compares again what a peer holds of its own name with its own table; 0 for never.
    pub audit: u64,
    /// For how many milliseconds after its start its first own write waits, at most, until each peer was heard; 0 for none.
    pub hearing: u64,
}

/// A write that a node makes of itself again and again, so that its peers hear of it: true, under a key of its own.
#[derive(Clone, Copy, Debug)]
pub struct Beat {
    /// How long it waits after each such write, in milliseconds, at least 1.
    pub pause: u64,
    pub key: Key,
}

/// What a node is to do: its settings, its sockets, its pace and its beat, and which owners it forgets.
#[derive(Clone, Copy, Debug)]
pub struct NodeConfig<'a> {
    pub settings: Settings,
    pub paths: Paths<'a>,
    pub pace: Pace,
    /// How it shows that it lives, while nobody else writes; none if it does not.
    pub beat: Option<Beat>,
    /// The owners whose rows it does not take from its peers, as if it had no room for them. Its own name does not count.
    pub forgotten: &'a [Name],
}

/// What a node did.
#[derive(Clone, Copy, Debug, PartialEq, Eq)]
pub struct Ran {
    /// How many rounds it made.
    pub rounds: u64,
    /// How many connections ended with a fault. It counts also rounds and pushes in which the peer could not be reached, and the
    /// times that no connection could be accepted.
    pub faults: u64,
    /// How many events its history has: writes of its own, deltas of its peers, and purges of its own table.
    pub events: u64,
}

/// Why a node does not run, before its log is read: the first reason that holds.
fn start_refusal<L: WriteLog>(settings: &Settings, http: Option<&str>, log: &L) -> Option<Fault>
    ensures { result ≡ spec.start_refusal settings.now http.entry (L.seen log.now) }
{
    if settings.seats() < settings.workers() + 2 + u64::from(http.is_some()) {
        return Some(Fault::BadSetting);
    }
    let cluster = settings.cluster();
    if log.cluster() != &cluster {
        return Some(Fault::WrongCluster);
    }
    None
}

/// Runs the node that owns a log. It binds both sockets, each at a path that has no file or a socket without a listener, and
/// reports that to the observer. One thread accepts at both. Workers serve peers, as many at once as there are workers, and
/// answer questions of clients. The owner's thread, which is the one that calls, makes the own writes, one after another. While no
/// worker is free it also answers questions, one whenever no write waits. One more thread dials the peers in turn, one a round,
/// with a pause after each.
///
/// A round has as many exchanges of digests and deltas as it takes to name all owners that the node holds. It is one if the
/// budget has room for a digest of all. A peer that let a round wait for `dial_idle` milliseconds is passed over in its next seven
/// turns, unless nobody else is left. The observer gets each change of a peer's state. After the last round the node waits for
/// the connections that are open, and ends. It removes what is at the paths of its sockets, even if another put it there since.
///
/// After a write of a client, or something new from a peer, the node dials the next `fanout` peers. A peer whose last two
/// sessions were not made to their end is left out. The node pushes to each what this peer may lack: its Hello, one delta
/// and a Bye. It makes a round instead in these cases:
///
/// - No round with the peer was made to its end yet. If one is under way, the news waits for that.
/// - An owner was purged above what the peer may have.
/// - The delta is longer than 1,024 bytes, and than the node's own digests.
/// - Its frame has no room for one more entry within the budget.
///
/// The seats beyond two, one for each worker and those for HTTP are for this: so many peers are dialed side by side. Without
/// such seats they are dialed one after another, between the rounds in turn. A peer has at most one session for news at a time;
/// news during one makes another after it. Peers whose last session took half a second or more leave one of these seats to
/// others. News that comes within twenty milliseconds goes together, in a stream within forty. With no pause there is no need
/// of it.
///
/// A push is not a round. It counts as taken only if the peer greeted and ended the connection itself. If not, the next push to
/// this peer has the same again. A peer's delta can have writes after ones that the node lacks. Then the next round in turn is
/// made at once, at most once a pause.
///
/// The node audits each peer once, after the first round with it that was made to its end. Then it audits one after another,
/// one each `audit` milliseconds. It asks the peer for the rows of its own name in a session of its own, and compares them with
/// its own table. Say the peer has a row that the log never gave, or lacks one that it should have. Then another node or an
/// older copy of the log writes under this name. The node refuses writes by `OwnerConflict`, and reports to the observer what
/// it found.
///
/// At the start each peer is due to be dialed, side by side as for news, and also with no `fanout`. A write waits until each
/// peer was heard: its first round ended, and so did its first audit if it answered. It waits no longer than until `hearing`
/// milliseconds after the start. Other requests are answered meanwhile.
///
/// A client that waits for a change holds no thread. Its connection waits where those wait that have sent nothing yet, and the
/// thread that accepts reports the change to it. At most 64 clients may wait so; one more is refused by `WatchesFull`.
///
/// With a `beat` the owner's thread writes the flag true under its key, at once and then after each pause. It is an own write
/// like any other. None is made once the log is closed, or while another node writes under the own name.
///
/// A connection takes a worker or the owner's thread only once it has something to say: a peer's whole Hello, or a client's
/// whole request. Until then it waits, for `idle` milliseconds at `sock` and for `request` at `control`, or `idle` if that is
/// 0. At most 1,024 wait at a socket; one more closes the oldest that sent nothing, or else the oldest.
///
/// A connection ends with a fault in these cases, which cost this connection alone:
///
/// - Its Hello or its request was not whole in time, or it made room for another.
/// - Its peer breaks the rules of a session or of the control socket.
/// - It takes more than `max_reads` reads.
/// - No byte moved for `idle` milliseconds, or for `dial_idle` if the node has dialed.
/// - A session that a peer dialed took longer than `session`, or a request or its answer longer than `request`.
///
/// With an address for HTTP the node answers there too, by `HttpService`. Each thread for that answers one connection after
/// another, from a seat of its own. There are `HTTP_WORKERS` of them, or as many as there are seats beyond two and one for each
/// worker. A request, and then its answer, may take `request` milliseconds each. The connection ends if no byte moves for
/// `idle` milliseconds.
///
/// If a fault of its store closes the log, the node reports that to the observer, and goes on or ends, as `on_log_fault` says.
/// It does the same if the observer finds that the file of the log is lost: it closes the log, and refuses writes by `Closed`.
///
/// The node takes no block of an owner that it is to forget, whoever sends it, so it holds nothing of it. After a round it reports
/// to the observer that a peer still had rows of that owner.
///
/// After each of these faults no file is left that was not there before:
///
/// - `BadSetting` if there are fewer seats than two beside one for each worker, and one more with an address for HTTP.
/// - `WrongCluster` if the log is of another cluster than the settings'.
/// - The faults of the log's `load`.
/// - `ReadFailed` if a socket cannot be bound, also if `is_own_port` is false for the address for HTTP.
/// - `NoMemory`, also if one of five threads cannot be made. They are the one that accepts, that of the pool, the first for
///   HTTP, the first for news, and the one that dials in turn.
/// - `StoreFailed` if the log failed or its file was lost, and the node is to exit then.
///
/// If the thread of a worker cannot be made, the node serves fewer peers at once.
pub fn run_node<
    L: WriteLog + Drop,
    R: Runtime + Net<Listener = TcpListener, Stream = TcpStream>,
    O: Observer + Sync,
>(rt: &R, alloc: Global, config: NodeConfig, log: L, observer: &O) -> Result<Ran, Fault>
    ensures refused { IfSome (spec.start_refusal config.entry.settings config.entry.paths.http (L.seen log)) (λ fault. result ≡ Err fault) }
    ensures closed { spec.start_refusal config.entry.settings config.entry.paths.http (L.seen log) ≡ None → (L.seen log).is_open ≡ false → result ≡ Err Fault.Closed }
    ensures fault { IfErr result (IsRunningFault config.entry.settings config.entry.paths.http (L.seen log) config.entry.pace.on_log_fault) }
    ensures rounds { IfOk result (λ ran. ran.rounds ≡ config.entry.pace.rounds) }
{
    let NodeConfig {
        settings,
        paths,
        pace,
        beat,
        forgotten,
    } = config;
    if let Some(fault) = start_refusal(&settings, paths.http, &log) {
        return Err(fault);
    }
    let config = NodeConfig {
        settings,
        paths,
        pace,
        beat,
        forgotten,
    };
    let mut log = log;
    let table = log.load(alloc)?;
    run_opened(
        rt,
        alloc,
        config,
        OwnWrites::new(ClosableLog::new(log)),
        table,
        observer,
    )
}

/// Runs the node that owns a log whose store failed, with the table that was read from it before. All is as with `run_node`,
/// except that the log is not read: the node refuses writes by `Closed`, and serves its peers and readers. It reports to the observer at
/// once that the log failed, and ends then, if that is what `on_log_fault` says. A log that is open is run by `run_node`.
pub fn run_closed_node<
    L: WriteLog + Drop,
    R: Runtime + Net<Listener = TcpListener, Stream = TcpStream>,
    O: Observer + Sync,
>(
    rt: &R,
    alloc: Global,
    config: NodeConfig,
    log: L,
    table: Table,
    observer: &O,
) -> Result<Ran, Fault>
    ensures refused { IfSome (spec.start_refusal config.entry.settings config.entry.paths.http (L.seen log)) (λ fault. result ≡ Err fault) }
    ensures closed { (L.seen log).is_open ≡ false → RunsClosed (spec.start_refusal config.entry.settings config.entry.paths.http (L.seen log)) config.entry.pace.on_log_fault result }
    ensures open { (L.seen log).is_open ≡ true → IfErr result (IsRunningFault config.entry.settings config.entry.paths.http (L.seen log) config.entry.pace.on_log_fault) }
    ensures rounds { IfOk result (λ ran. ran.rounds ≡ config.entry.pace.rounds) }
{
    let NodeConfig {
        settings,
        paths,
        pace,
        beat,
        forgotten,
    } = config;
    let config = NodeConfig {
        settings,
        paths,
        pace,
        beat,
        forgotten,
    };
    if log.cause().is_none() {
        run_node(rt, alloc, config, log, observer)
    } else {
        run_with_table(rt, alloc, config, log, table, observer)
    }
}

/// Runs the node that owns a log whose store failed, with the table that was read from it before. The faults of
/// `start_refusal`, then those of `run_opened`.
fn run_with_table<
    L: WriteLog + Drop,
    R: Runtime + Net<Listener = TcpListener, Stream = TcpStream>,
    O: Observer + Sync,
>(
    rt: &R,
    alloc: Global,
    config: NodeConfig,
    log: L,
    table: Table,
    observer: &O,
) -> Result<Ran, Fault>
    requires closed { (L.seen log).is_open ≡ false }
    ensures runs { RunsClosed (spec.start_refusal config.entry.settings config.entry.paths.http (L.seen log)) config.entry.pace.on_log_fault result }
    ensures refused { IfSome (spec.start_refusal config.entry.settings config.entry.paths.http (L.seen log)) (λ fault. result ≡ Err fault) }
    ensures rounds { IfOk result (λ ran. ran.rounds ≡ config.entry.pace.rounds) }
{
    let NodeConfig {
        settings,
        paths,
        pace,
        beat,
        forgotten,
    } = config;
    if let Some(fault) = start_refusal(&settings, paths.http, &log) {
        return Err(fault);
    }
    let config = NodeConfig {
        settings,
        paths,
        pace,
        beat,
        forgotten,
    };
    run_opened(
        rt,
        alloc,
        config,
        OwnWrites::closed(ClosableLog::new(log)),
        table,
        observer,
    )
}

/// Runs a node that opens with the table of its own writes, which was read from their log. `NoMemory`; `ReadFailed` if a socket
/// cannot be bound; `StoreFailed` if the log failed and the node is to exit then.
fn run_opened<
    L: WriteLog + Drop,
    R: Runtime + Net<Listener = TcpListener, Stream = TcpStream>,
    O: Observer + Sync,
>(
    rt: &R,
    alloc: Global,
    config: NodeConfig,
    writes: OwnWrites<ClosableLog<L>>,
    table: Table,
    observer: &O,
) -> Result<Ran, Fault>
    requires read { IsReadFrom (seen_by (L.seen writes.log.log) writes.log.closed_by) table }
    requires seats { config.settings.workers + 2 ≤ config.settings.seats }
    ensures fault { IfErr result (IsOpenedFault config.entry.pace.on_log_fault) }
    ensures exits { writes.has_failed ≡ true → config.entry.pace.on_log_fault ≡ OnLogFault.Exit → IsErr result }
    ensures rounds { IfOk result (λ ran. ran.rounds ≡ config.entry.pace.rounds) }
{
    let NodeConfig {
        settings,
        paths,
        pace,
        beat,
        forgotten,
    } = config;
    let forgotten = ForgottenOwners::new(alloc, forgotten, writes.owner())?;
    let core = NodeCore::open(alloc, settings, *writes.owner(), table)?;
    let directory = DirectoryStart {
        new_history: NewHistory::new(),
        blank: Blank::new(settings.seats()),
        core,
    };
    let start = NodeStart {
        directory,
        forgotten,
        beat,
        writes,
    };
    run_tagged::<Brand, L, R, O>(rt, alloc, start, &paths, pace, observer)
}

/// What a running node asks of its runtime, beside sockets: threads, locks, a clock and files. A runtime that has all of them is
/// one. The sockets are beside it in each signature, since a caller whose runtime is a type of its own has to see their types.
pub trait Runtime: Threads + Wait + Clock + Files + RandomSource + Send + Sync {}

impl<R: Threads + Wait + Clock + Files + RandomSource + Send + Sync> Runtime for R {}

/// What the directory of a node starts from.
#[derive(Drop)]
pub(crate) struct DirectoryStart {
    /// The node's history, in which nothing has happened yet.
    pub(crate) new_history: NewHistory,
    /// The ledger in which the directory's seats count their events, with a part for each seat.
    pub(crate) blank: Blank,
    /// The node as it was opened.
    pub(crate) core: NodeCore,
}

/// What a node starts from.
#[derive(Drop)]
pub(crate) struct NodeStart<L: WriteLog> {
    pub(crate) directory: DirectoryStart,
    /// The owners that it forgets.
    pub(crate) forgotten: ForgottenOwners,
    /// How it shows that it lives, if it does.
    pub(crate) beat: Option<Beat>,
    /// Its log, and the write in it that is still to be handed to the directory.
    pub(crate) writes: OwnWrites<ClosableLog<L>>,
}

/// How many seats a node wants for HTTP: none if it has no address for that.
fn http_seats(http: Option<&str>) -> usize {
    if http.is_some() {
        HTTP_WORKERS as usize
    } else {
        0
    }
}

/// Makes the directory, and gives a seat to each thread. At most so many of those beyond are for HTTP. `NoMemory`.
fn seat_all<S: RoundsTag, R: Wait>(
    rt: &R,
    alloc: Global,
    start: DirectoryStart,
    http: usize,
) -> Result<SeatedNode<S, &R>, Fault>
    requires history { start.new_history.seen.book ≡ S.history }
    requires tagged { IsTagOf S.opening S.settings S.seats S.parts start.core }
    requires name { start.blank.name ≡ S.name }
    requires parts { start.blank.parts ≡ S.parts }
    requires enough { start.core.settings.workers + 2 ≤ start.core.settings.seats }
    ensures memory { IfErr result (λ fault. fault ≡ Fault.NoMemory) }
{
    let DirectoryStart {
        new_history,
        blank,
        core,
    } = start;
    let settings = core.settings();
    let all = settings.seats() as usize;
    let made = Directory::<S, &R>::make(rt, alloc, new_history, blank, core, all);
    // Settings allow no number of seats that a directory refuses, so only memory can be missing.
    let Ok((directory, seats)) = made else {
        return Err(Fault::NoMemory);
    };
    let thread_seats = part_seats(seats, settings.workers() as usize, http)?;
    Ok(SeatedNode {
        directory,
        thread_seats,
    })
}

/// Makes the directory and its seats, and what the threads share, and runs the node. `NoMemory`; `ReadFailed` if a socket can't be
/// bound; `StoreFailed` if the log failed and the node is to exit then.
pub(crate) fn run_tagged<
    S: RoundsTag + Send + Sync,
    L: WriteLog + Drop,
    R: Runtime + Net<Listener = TcpListener, Stream = TcpStream>,
    O: Observer + Sync,
>(
    rt: &R,
    alloc: Global,
    start: NodeStart<L>,
    paths: &Paths,
    pace: Pace,
    observer: &O,
) -> Result<Ran, Fault>
    requires history { start.directory.new_history.seen.book ≡ S.history }
    requires tagged { IsTagOf S.opening S.settings S.seats S.parts start.directory.core }
    requires name { start.directory.blank.name ≡ S.name }
    requires parts { start.directory.blank.parts ≡ S.parts }
    requires started { IsStarted (seen_by (L.seen start.writes.log.log) start.writes.log.closed_by) start.directory.core }
    requires rounds { pace.rounds ≡ S.rounds }
    ensures rounds { IfOk result (λ ran. ran.rounds ≡ pace.rounds) }
    ensures fault { IfErr result (IsOpenedFault pace.on_log_fault) }
    ensures failed { start.writes.has_failed ≡ true → pace.on_log_fault ≡ OnLogFault.Exit → IsErr result }
{
    let NodeStart {
        directory,
        forgotten,
        beat,
        writes,
    } = start;
    let hearing = FirstHearing::new(alloc, paths.peers.len(), deadline_after(rt, pace.hearing))?;
    let (channels, write_sender) = Channels::<S>::new(alloc)?;
    let seated = seat_all::<S, R>(rt, alloc, directory, http_seats(paths.http))?;
    let (news, http) = (seated.news_seats(), seated.http_seats());
    let (dialing, turns, bell) = Dialing::new(alloc, paths.peers, &pace, news, observer)?;
    let setup = NodeSetup {
        alloc,
        paths,
        dialing: &dialing,
        bell,
        desk: WriteDesk::new(write_sender, http as u64),
        forgotten,
        hearing: Mutex::new(hearing),
        pace,
        beat,
    };
    run_seated(rt, seated, &setup, channels, turns, writes)
}

/// Binds the sockets of a node whose directory has its seats, runs its threads, and removes the sockets' files. `NoMemory`;
/// `ReadFailed` if a socket can't be bound; `StoreFailed` if the log failed and the node is to exit then.
fn run_seated<
    'a,
    S: RoundsTag + Send + Sync,
    L: WriteLog + Drop,
    R: Runtime + Net<Listener = TcpListener, Stream = TcpStream>,
    O: Observer + Sync,
>(
    rt: &R,
    seated: SeatedNode<S, &R>,
    setup: &NodeSetup<'_, 'a, O>,
    channels: Channels<S>,
    turns: Turns<'a>,
    writes: OwnWrites<ClosableLog<L>>,
) -> Result<Ran, Fault>
    requires opened { IsOpenedFrom (seen_by (L.seen writes.log.log) writes.log.closed_by) S.opening }
    requires rounds { setup.now.pace.rounds ≡ S.rounds }
    ensures rounds { IfOk result (λ ran. ran.rounds ≡ S.rounds) }
    ensures fault { IfErr result (IsOpenedFault setup.now.pace.on_log_fault) }
    ensures failed { writes.has_failed ≡ true → setup.now.pace.on_log_fault ≡ OnLogFault.Exit → IsErr result }
{
    let observer = setup.dialing.observer();
    let Ok((sockets, poll)) = BoundSockets::bind(rt, setup.paths, observer) else {
        return Err(Fault::ReadFailed);
    };
    observer.listening();
    let links = channels.into_links(setup.alloc, poll, turns);
    let ran = run_bound(rt, seated, setup, &sockets, writes, links);
    sockets.remove(rt);
    ran
}

/// Runs the threads of a node that has bound its sockets, and closes its directory after them. `NoMemory`; `StoreFailed` if the log
/// failed and the node is to exit then.
fn run_bound<
    'a,
    S: RoundsTag + Send + Sync,
    L: WriteLog + Drop,
    R: Runtime + Net<Listener = TcpListener, Stream = TcpStream>,
    O: Observer + Sync,
>(
    rt: &R,
    seated: SeatedNode<S, &R>,
    setup: &NodeSetup<'_, 'a, O>,
    sockets: &BoundSockets,
    writes: OwnWrites<ClosableLog<L>>,
    links: Links<'a, S>,
) -> Result<Ran, Fault>
    requires opened { IsOpenedFrom (seen_by (L.seen writes.log.log) writes.log.closed_by) S.opening }
    requires rounds { setup.now.pace.rounds ≡ S.rounds }
    ensures rounds { IfOk result (λ ran. ran.rounds ≡ S.rounds) }
    ensures fault { IfErr result (IsEndFault setup.now.pace.on_log_fault) }
    ensures failed { writes.has_failed ≡ true → setup.now.pace.on_log_fault ≡ OnLogFault.Exit → IsErr result }
{
    let SeatedNode {
        directory,
        thread_seats,
    } = seated;
    let records = NodeRecords::new(rt, setup.alloc, &directory);
    let node = setup.node(rt, &directory, sockets, &records);
    let finished = setup
        .dialing
        .run_threads(&node, writes, thread_seats, links);
    close(rt, directory, finished?)
}

/// Closes the directory, and returns what the node did.
fn close<S: RoundsTag, R: Wait>(
    rt: &R,
    directory: Directory<S, &R>,
    finished: ThreadsEnd<S>,
) -> Result<Ran, Fault>
    requires parts { S.seats ≡ S.parts }
    requires all { vec_len finished.thread_seats.news + vec_len finished.thread_seats.http + (vec_len finished.thread_seats.workers + 2) ≡ S.seats }
    requires room { S.seats ≤ vec_capacity finished.thread_seats.news }
    ensures ok { IsOk result }
    ensures rounds { IfOk result (λ ran. ran.rounds ≡ S.rounds) }
{
    let ThreadsEnd {
        thread_seats,
        rounds,
        faults,
    } = finished;
    match directory.close(rt, gather_seats(thread_seats)) {
        Ok(closing) => Ok(Ran {
            rounds: rounds.made,
            faults,
            events: closing.events,
        }),
        Err(_) => unreachable!(),
    }
}
