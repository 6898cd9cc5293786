//! The command that runs a node.
ghost use Rattle.std.specs.Prelude.{◌≡◌, ◌≢◌, ◌*◌, ◌^◌, ◌<◌, None, IfOk, IfSome, IsSome};

use crate::console::{Console, Shortage};
use crate::log_watch::LogWatch;
use crate::metrics::Series;
use crate::metrics_file::{MetricsFile, may_replace, writes_over};
use crate::serve_command::SEATS;
use crate::troubles::TroubleLines;
use jiff::Timestamp;
use sb_commands::{
    Failure, FaultPlace, LogNames, Range, StartPurge, error_of, has_folder, log_in, name_of,
    open_database, purge_removals,
};
use sb_log::{LogError, WriteLog};
use sb_run::{Beat, NodeConfig, Pace, Paths, Ran, Runtime, is_own_port, run_closed_node, run_node};
use sb_table::Table;
use sb_types::{Fault, Key, Name, RawSettings, Settings, WORKERS_MOST};
use sqlite::{Alter, Connection};
use std::alloc::Global;
use std::fs::{remove_file, symlink_metadata};
use std::io::ErrorKind;
use std::net::{Ipv4Addr, Net, SocketAddr, TcpListener, TcpStream};
use std::os::unix::fs::FileTypeExt;
use std::os::unix::net::UnixListener;
use std::sync::Mutex;
use std::sync::atomic::{AtomicBool, Ordering};

/// The most bytes of the path of a socket.
const SOCKET_PATH_MOST: usize = 107;

/// What the command line gives for a node.
#[derive(Drop)]
pub(crate) struct ServeArguments<'a> {
    pub(crate) name: &'a str,
    pub(crate) log: &'a str,
    pub(crate) settings: RawSettings<'a>,
    /// The place of the first option whose number is outside its range.
    pub(crate) outside: Option<FaultPlace<'static>>,
    pub(crate) sock: &'a str,
    pub(crate) control: &'a str,
    pub(crate) peers: Vec<&'a str>,
    /// The names of the owners that the node forgets.
    pub(crate) forgotten: Vec<&'a str>,
    pub(crate) pace: Pace,
    /// After how many seconds the node beats again; 0 for never.
    pub(crate) beat: u64,
    pub(crate) beat_key: &'a str,
    /// From how many tombstones in its log on the node drops them before it starts. 0 is for never.
    pub(crate) purge_removals: u64,
    /// Whether each line on standard error begins with the time.
    pub(crate) has_time: bool,
    /// The path of the file for metrics.
    pub(crate) metrics: Option<&'a str>,
    /// Which metrics that file has.
    pub(crate) series: Series,
    /// The address at which the node answers over HTTP.
    pub(crate) http: Option<&'a str>,
}

/// What was checked of the command line of a node.
#[derive(Drop)]
struct Checked {
    settings: Settings,
    forgotten: Vec<Name>,
    beat: Option<Beat>,
}

/// Prints what the node did. `WriteFailed` if standard output does not take it.
fn print_ran(rt: &HostRuntime, ran: Ran) -> Result<(), Failure<'static>> {
    match println!(rt;
        "rounds {} faults {} events {}",
        ran.rounds, ran.faults, ran.events
    ) {
        Ok(()) => Ok(()),
        Err(_) => Err(Failure::from(Fault::WriteFailed(0))),
    }
}

/// Which of the settings is outside its limits. If no number is, it is the name of the cluster.
fn setting_of<'a>(given: &ServeArguments<'a>) -> FaultPlace<'a> {
    match given.outside {
        Some(place) => place,
        None => FaultPlace::Word(
            "--cluster",
            str::from_utf8(given.settings.cluster).unwrap_or(""),
        ),
    }
}

/// Whether the program is not permitted to make a socket at a path that no file has.
fn is_forbidden(rt: &HostRuntime, path: &str) -> bool {
    match UnixListener::bind(rt, path) {
        Ok(_) => {
            let _ = remove_file(rt, path);
            false
        }
        Err(error) => matches!(
            error.kind(),
            ErrorKind::PermissionDenied | ErrorKind::ReadOnlyFilesystem
        ),
    }
}

/// Why a node could not make a socket at a path, as far as the path shows it.
fn obstacle_at<'a>(rt: &HostRuntime, path: &'a str) -> Option<FaultPlace<'a>> {
    if path.is_empty() || path.len() > SOCKET_PATH_MOST {
        return Some(FaultPlace::TooLong(path));
    }
    match symlink_metadata(rt, path) {
        Ok(found) if found.file_type().is_socket() => Some(FaultPlace::Listening(path)),
        Ok(_) => Some(FaultPlace::Taken(path)),
        Err(error) if error.kind() == ErrorKind::PermissionDenied => {
            Some(FaultPlace::Forbidden(path))
        }
        Err(_) if !has_folder(rt, path) => Some(FaultPlace::NoFolder(path)),
        Err(_) if is_forbidden(rt, path) => Some(FaultPlace::Forbidden(path)),
        Err(_) => None,
    }
}

/// Which of its sockets a node could not make, and why, as far as their paths show it.
fn socket_of<'a>(rt: &HostRuntime, given: &ServeArguments<'a>) -> FaultPlace<'a> {
    for path in [given.sock, given.control] {
        if let Some(place) = obstacle_at(rt, path) {
            return place;
        }
    }
    match given.http {
        Some(address) => socket_of_http(rt, given, address),
        None => FaultPlace::Sockets(given.sock, given.control),
    }
}

/// The same if the node has a place for HTTP too.
fn socket_of_http<'a>(
    rt: &HostRuntime,
    given: &ServeArguments<'a>,
    address: &'a str,
) -> FaultPlace<'a> {
    let both = FaultPlace::Sockets(given.sock, given.control);
    if let Ok(port) = address.parse::<SocketAddr>() {
        return if TcpListener::bind(rt, port).is_ok() {
            both
        } else {
            FaultPlace::Port(address)
        };
    }
    obstacle_at(rt, address).unwrap_or(both)
}

/// Whether a word is an address without a port.
fn is_host_alone(word: &str) -> bool {
    word == "localhost" || word.parse::<Ipv4Addr>().is_ok()
}

/// Whether a node may answer over HTTP at an address: a port of this machine, or the path of a socket. What has a colon and no
/// slash is meant as an address, and what is a number as a port.
fn is_own_address(address: &str) -> bool {
    if let Ok(port) = address.parse::<SocketAddr>() {
        return is_own_port(port);
    }
    let is_number = address.parse::<u64>().is_ok();
    address.contains('/') || !(address.contains(':') || is_number || is_host_alone(address))
}

/// The address for HTTP, if no node answers there.
fn other_address<'a>(given: &ServeArguments<'a>) -> Option<&'a str> {
    match given.http {
        Some(address) if !is_own_address(address) => Some(address),
        _ => None,
    }
}

/// The first of the peers whose path cannot be that of a socket.
fn unreachable_peer<'a>(given: &ServeArguments<'a>) -> Option<&'a str> {
    given
        .peers
        .iter()
        .copied()
        .find(|path| path.is_empty() || path.len() > SOCKET_PATH_MOST)
}

/// The path of two sockets of the node.
fn shared_path<'a>(given: &ServeArguments<'a>) -> Option<&'a str> {
    if given.sock == given.control {
        return Some(given.sock);
    }
    match given.http {
        Some(address) if address == given.sock || address == given.control => Some(address),
        _ => None,
    }
}

/// The path for metrics, if it is empty, or if they would replace something else.
fn taken_for_metrics<'a>(rt: &HostRuntime, given: &ServeArguments<'a>) -> Option<FaultPlace<'a>> {
    let path = given.metrics?;
    if path.is_empty() {
        return Some(FaultPlace::MetricsNowhere);
    }
    let http = given.http.unwrap_or(given.control);
    for other in [given.log, given.sock, given.control, http] {
        if writes_over(path, other) {
            return Some(FaultPlace::MetricsOver(path));
        }
    }
    if may_replace(rt, path) {
        None
    } else {
        Some(FaultPlace::Metrics(path))
    }
}

/// The place at which a node met the fault that keeps it from running.
fn place_of<'a>(rt: &HostRuntime, fault: &Fault, given: &ServeArguments<'a>) -> FaultPlace<'a> {
    match fault {
        Fault::BadSetting => setting_of(given),
        Fault::ReadFailed => socket_of(rt, given),
        Fault::Closed | Fault::StoreFailed | Fault::LogDamaged => FaultPlace::Log(given.log),
        _ => FaultPlace::Line,
    }
}

/// The place at which a node met the fault that ended it. A log that failed while the node ran has its line already.
fn place_of_end<'a>(
    rt: &HostRuntime,
    console: &Console<'_, '_>,
    fault: &Fault,
    given: &ServeArguments<'a>,
) -> FaultPlace<'a> {
    if matches!(fault, Fault::StoreFailed) && console.has_failed_log.load(Ordering::SeqCst) {
        return FaultPlace::FailedLog(given.log);
    }
    place_of(rt, fault, given)
}

/// Drops the tombstones of a log if there are many, and prints what became of them. Returns the table of the log, if its
/// store failed on the way and it is closed now. The faults of `purge_removals`.
fn purge_first<'a, L: WriteLog>(
    rt: &HostRuntime,
    console: &Console<'_, '_>,
    given: &ServeArguments<'a>,
    log: &mut L,
) -> Result<Option<Table>, Failure<'a>> {
    match purge_removals(rt, log, given.purge_removals) {
        Ok(StartPurge::Few) => Ok(None),
        Ok(StartPurge::Dropped(dropped)) => {
            console.purged(dropped);
            Ok(None)
        }
        Ok(StartPurge::Failed(table)) => {
            console.not_purged();
            Ok(Some(table))
        }
        Err(fault) => Err(match error_of(fault, log.cause()) {
            LogError::Store(cause) => Failure::of_store(given.log, cause),
            LogError::Fault(fault) => Failure::at(place_of(rt, &fault, given), fault),
        }),
    }
}

/// Adds a name. `NoMemory`.
fn add_name(names: &mut Vec<Name>, name: Name) -> Result<(), Fault> {
    names.push(name)?;
    Ok(())
}

/// The owners that a node of this name is to forget. `BadSetting` if a word is not a name, or is the node's own.
fn forgotten_of<'a>(
    alloc: Global,
    given: &ServeArguments<'a>,
    own: &Name,
) -> Result<Vec<Name>, Failure<'a>> {
    let mut names = Vec::new(alloc);
    for word in given.forgotten.iter().copied() {
        let Ok(name) = Name::read(word.as_bytes()) else {
            return Err(Failure::at(FaultPlace::Word("--forget", word), Fault::BadSetting));
        };
        if name == *own {
            return Err(Failure::at(FaultPlace::OwnName(word), Fault::BadSetting));
        }
        add_name(&mut names, name)?;
    }
    Ok(names)
}

/// The beat of a node, if it has one. `BadKey` if its word is not a key.
fn beat_of<'a>(given: &ServeArguments<'a>) -> Result<Option<Beat>, Failure<'a>>
    ensures pause { IfOk result (λ beat. IfSome beat (λ b. given.now.beat * 1_000 < 2 ^ 64 → b.pause ≡ given.now.beat * 1_000)) }
    ensures none { given.now.beat ≡ 0 → IfOk result (λ beat. beat ≡ None) }
    ensures some { given.now.beat ≢ 0 → IfOk result (λ beat. IsSome beat) }
{
    let word = given.beat_key;
    let Ok(key) = Key::read(word.as_bytes()) else {
        return Err(Failure::at(FaultPlace::Word("--beat-key", word), Fault::BadKey));
    };
    match given.beat {
        0 => Ok(None),
        seconds => Ok(Some(Beat {
            pause: seconds.saturating_mul(1_000),
            key,
        })),
    }
}

/// What prints the lines of a node, which has printed none yet.
fn console_of<'r, 'a>(rt: &'r HostRuntime, given: &ServeArguments<'a>) -> Console<'r, 'a> {
    let metrics = match given.metrics {
        Some(path) => Some(MetricsFile::new(path)),
        None => None,
    };
    Console {
        rt,
        name: given.name,
        log: given.log,
        watch: LogWatch::new(rt, given.log),
        sock: given.sock,
        control: given.control,
        http: given.http,
        has_time: given.has_time,
        metrics,
        metrics_text: match given.http {
            Some(_) => Some(Mutex::new(Vec::new(rt.alloc()))),
            None => None,
        },
        series: given.series,
        started: match Timestamp::now(rt) {
            Ok(now) => now.as_second().max(0) as u64,
            Err(_) => 0,
        },
        has_failed_log: AtomicBool::new(false),
        shortage: Shortage::new(),
        troubles: TroubleLines::new(),
    }
}

/// Runs a node with a log, and prints what it did. If the log has many tombstones, they are dropped first. If the store of
/// the log fails then, the node runs as one whose log is closed. The faults of `purge_removals`, then those of `run_node`,
/// then `WriteFailed`.
fn run<'a, L: WriteLog + Drop, R: Runtime + Net<Listener = TcpListener, Stream = TcpStream>>(
    rt: &HostRuntime,
    runtime: &R,
    given: &ServeArguments<'a>,
    checked: Checked,
    log: L,
) -> Result<(), Failure<'a>> {
    let mut log = log;
    let paths = Paths {
        sock: given.sock,
        control: given.control,
        peers: given.peers.as_slice(),
        http: given.http,
    };
    let console = console_of(rt, given);
    let left = purge_first(rt, &console, given, &mut log)?;
    let config = NodeConfig {
        settings: checked.settings,
        paths,
        pace: given.pace,
        beat: checked.beat,
        forgotten: checked.forgotten.as_slice(),
    };
    let ran = match left {
        None => run_node(runtime, rt.alloc(), config, log, &console),
        Some(table) => run_closed_node(runtime, rt.alloc(), config, log, table, &console),
    };
    console.remove_metrics();
    match ran {
        Ok(ran) => {
            console.ended();
            print_ran(rt, ran)
        }
        Err(fault) => Err(Failure::at(place_of_end(rt, &console, &fault, given), fault)),
    }
}

/// Runs a node with the log of its name in a database. The faults of `log_in`, then those of `run`.
fn run_in<'a, S: Alter + Drop, R: Runtime + Net<Listener = TcpListener, Stream = TcpStream>>(
    rt: &HostRuntime,
    runtime: &R,
    given: &ServeArguments<'a>,
    checked: Checked,
    owner: Name,
    conn: Connection<S>,
) -> Result<(), Failure<'a>> {
    let (cluster, max_version) = (checked.settings.cluster(), checked.settings.max_version());
    let names = LogNames { owner, cluster };
    let log = log_in(rt.alloc(), given.log, conn, names, max_version)?;
    run(rt, runtime, given, checked, log)
}

/// The place of too few seats: the workers, if so many have too few also of the most seats.
fn place_of_seats(workers: u64, has_http: bool) -> FaultPlace<'static> {
    if has_http && workers >= WORKERS_MOST {
        return FaultPlace::Number("workers", Range::WithHttp(WORKERS_MOST - 1));
    }
    SEATS.place()
}

/// The settings of a node. `BadSetting`, also for too few seats.
fn checked_settings<'a>(
    rt: &HostRuntime,
    given: &ServeArguments<'a>,
) -> Result<Settings, Failure<'a>> {
    let settings = match Settings::check(given.settings) {
        Ok(settings) => settings,
        Err(fault) => return Err(Failure::at(place_of(rt, &fault, given), fault)),
    };
    if settings.seats() < settings.workers() + 2 + u64::from(given.http.is_some()) {
        let place = place_of_seats(settings.workers(), given.http.is_some());
        return Err(Failure::at(place, Fault::BadSetting));
    }
    Ok(settings)
}

/// Tests the paths beside that of the log. `ReadFailed` if the path of a peer cannot be that of a socket. Then the same if two
/// sockets of the node have one path. `WriteFailed` if metrics would replace something else.
fn test_paths<'a>(rt: &HostRuntime, given: &ServeArguments<'a>) -> Result<(), Failure<'a>> {
    if let Some(path) = unreachable_peer(given) {
        return Err(Failure::at(FaultPlace::Peer(path), Fault::ReadFailed));
    }
    if let Some(path) = shared_path(given) {
        return Err(Failure::at(FaultPlace::Sockets(path, path), Fault::ReadFailed));
    }
    if let Some(place) = taken_for_metrics(rt, given) {
        return Err(Failure::at(place, Fault::WriteFailed(0)));
    }
    Ok(())
}

/// What was checked of the command line of a node of this name. The faults are those of `serve` before it opens the log, in their
/// order, but `BadName`.
fn checked_of<'a>(
    rt: &HostRuntime,
    given: &ServeArguments<'a>,
    name: &Name,
) -> Result<Checked, Failure<'a>> {
    let settings = checked_settings(rt, given)?;
    if let Some(address) = other_address(given) {
        return Err(Failure::at(FaultPlace::OtherAddress(address), Fault::BadSetting));
    }
    let forgotten = forgotten_of(rt.alloc(), given, name)?;
    let beat = beat_of(given)?;
    test_paths(rt, given)?;
    Ok(Checked {
        settings,
        forgotten,
        beat,
    })
}

/// Runs a node. The faults before it opens the log, in this order:
///
/// - `BadName` of its name.
/// - `BadSetting`, also for too few seats, for an address that is not one for HTTP, and for a name that it cannot forget;
///   `NoMemory`.
/// - `BadKey` of the key of its beat.
/// - `ReadFailed` if the path of a peer cannot be that of a socket, and then if two sockets of the node have one path.
/// - `WriteFailed` if metrics would replace something else.
///
/// Then come the faults of `open_database` and of `log_in`, those of `purge_removals` and of `run_node`, and `WriteFailed` of
/// what is printed at the end.
pub(crate) fn serve<'a, R: Runtime + Net<Listener = TcpListener, Stream = TcpStream>>(
    rt: &HostRuntime,
    runtime: &R,
    given: &ServeArguments<'a>,
) -> Result<(), Failure<'a>> {
    let name = name_of("--name", given.name)?;
    let checked = checked_of(rt, given, &name)?;
    let conn = open_database(rt, given.log)?;
    run_in(rt, runtime, given, checked, name, conn)
}
