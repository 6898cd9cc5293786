//! The observer of a running node.

use crate::peers::{Peer, PeerState};
use sb_codec::OwnerAge;
use sb_control::{LogCause, LogLoss};
use sb_directory::Difference;
use sb_handlers::VersionFall;
use sb_log::StoreCause;
use sb_types::{Fault, Name};
use sb_views::Snapshot;
use std::alloc::Global;
use std::fmt;

/// Receives the events of a running node. Each method runs on the thread where the event happened, and that thread waits until it
/// returns.
///
/// ```rust
/// /// Notes that a node listens.
/// #[derive(Drop)]
/// struct Listening {
///     is_noted: AtomicBool,
/// }
///
/// impl Observer for Listening {
///     fn listening(&self) {
///         self.is_noted.store(true, Ordering::SeqCst);
///     }
///
///     fn dialed(&self, _peer: &str, _state: PeerState) {}
///
///     fn conflict(&self, _version: u64) {}
/// }
///
/// /// Runs the node of a log until it has made its rounds, and gives whether it listened.
/// fn run_and_note<R: Runtime + Net<Listener = TcpListener, Stream = TcpStream>, L: WriteLog + Drop>(
///     rt: &R, alloc: Global,
///     settings: Settings, paths: &Paths, pace: Pace, log: L,
/// ) -> Result<bool, Fault> {
///     let observer = Listening { is_noted: AtomicBool::new(false) };
///     let config = NodeConfig {
///         settings,
///         paths: *paths,
///         pace,
///         beat: None,
///         forgotten: &[],
///     };
///     match run_node(rt, alloc, config, log, &observer) {
///         Ok(_) => Ok(observer.is_noted.load(Ordering::SeqCst)),
///         Err(fault) => Err(fault),
///     }
/// }
/// ```
pub trait Observer {
    /// Both sockets are bound, and nothing is served or dialed yet. It is called once.
    fn listening(&self);

    /// How the peer at this path is, if its last round changed that. Before, it was not dialed yet, answered, was down, or had
    /// another fault. `Answers` if all exchanges of digests of this one round were made. For a peer that is down it
    /// is called once, with the first reason, until a round ends otherwise. One that hangs up unheard after a refused Hello is as
    /// it was, since that is the same refusal.
    fn dialed(&self, peer: &str, state: PeerState);

    /// Another node writes under this node's name: this version of it was seen. It is called once, after a round.
    fn conflict(&self, version: u64);

    /// The node takes no more writes into its log, by this cause. If the store of the log failed at a write, the log has the write
    /// or has it not. It is called once.
    fn log_failed(&self, _cause: LogCause) {}

    /// How the file of the node's log was lost; none if it is there, or if that cannot be seen. It is asked after each round, and
    /// before each request that the owner's thread answers, until the log fails.
    fn log_loss(&self) -> Option<LogLoss> {
        None
    }

    /// The release of the program that runs the node, for whoever asks how the node is.
    fn release(&self) -> &str {
        "-"
    }

    /// The node's own table and its log were purged up to this version while the node runs.
    fn table_purged(&self, _floor: u64) {}

    /// The peer at this path holds something of the node's own name otherwise than the node's log gave it. So another node or an older
    /// copy of the log writes under this name, and the node takes no more writes. It is called once, with the first difference.
    /// Then `conflict` is not called, unless it was called before.
    fn difference_found(&self, _peer: &str, _difference: &Difference) {}

    /// A peer had rows of this owner, which the node forgets. It is called once for each such owner, after a round.
    fn forgotten_met(&self, _owner: &Name) {}

    /// Another node reported a version of itself below one that it reported long before. So two nodes, or a log and an older copy of
    /// it, have that name. It is called after a round, once in a minute at most for each name.
    fn version_fell(&self, _fall: &VersionFall) {}

    /// Whether it wants to know how the node is.
    fn wants_status(&self) -> bool {
        false
    }

    /// How the node is, if it wants to know. It is called after a round that changed how a peer is. It is also called after each
    /// round that ends a second or more after the last call.
    fn status(&self, _status: &Status<'_>) {}

    /// Returns the metrics of the node, in the text format of Prometheus, for whoever asks for them over HTTP. It may wait for
    /// nobody. `NoMemory`; another fault if it has none now.
    fn metrics(&self, alloc: Global) -> Result<Vec<u8>, Fault> {
        Ok(Vec::new(alloc))
    }

    /// At this path lay the socket of a node that no longer runs, and it was removed. It is called before `listening`.
    fn socket_removed(&self, _path: &str) {}
}

/// Nobody, who does nothing with what happens.
#[derive(Clone, Copy, Debug)]
pub struct Nobody;

impl Observer for Nobody {
    fn listening(&self) {}

    fn dialed(&self, _peer: &str, _state: PeerState) {}

    fn conflict(&self, _version: u64) {}
}

/// How a running node is, as the thread that dials finds it.
#[derive(Drop)]
pub struct Status<'a> {
    /// How many rounds it made.
    pub rounds: u64,
    /// How many of them had a fault.
    pub faults: u64,
    /// What it pushed to its peers, and what came of what others pushed. A push is not a round.
    pub pushes: PushCounts,
    /// How many connections of peers it took.
    pub sessions: u64,
    /// Whether each of its peers has had a round that ended since it started.
    pub is_caught_up: bool,
    /// For how long it runs, in milliseconds.
    pub uptime: u64,
    /// How many workers serve its peers and answer questions, and how many of them are busy.
    pub workers: u64,
    pub busy_workers: u64,
    /// What it suffered.
    pub troubles: Troubles,
    /// How many times it purged its own table.
    pub purges: u64,
    /// How many audits came to their end.
    pub audits: u64,
    /// How many keys its own table has, removed ones counted.
    pub keys: usize,
    /// Why its log takes no writes; none if it takes them.
    pub log_cause: Option<LogCause>,
    /// The version under its name that another node wrote; none if no such was seen.
    pub conflict: Option<u64>,
    /// What the seat of the thread that dials in turn sees of it.
    pub snapshot: Snapshot<'a>,
    /// The owners that it held at version 0 shortly before, in ascending order: those with nothing but a stage, and itself before
    /// its first write. None is listed if memory is missing. The snapshot may show some of them by now.
    pub owners_at_zero: &'a [Name],
    /// How long ago the held version of each owner rose last, in ascending order of the names. The node's own time begins at its
    /// start. An owner that was not heard since then is not listed.
    pub ages: &'a [OwnerAge],
    /// Whom it dials.
    pub peers: &'a [Peer<'a>],
}

/// What a node pushed to its peers since it started, and what came of what others pushed.
#[derive(Clone, Copy, Debug, PartialEq, Eq)]
pub struct PushCounts {
    /// Pushes that it made.
    pub made: u64,
    /// How many of them had a fault.
    pub faults: u64,
    /// How many bytes the frames of the deltas have that peers took.
    pub bytes: u64,
    /// Deltas of others with writes after ones that it lacks.
    pub gaps: u64,
    /// Rounds in turn that it made before their time because of such a delta.
    pub hastened_rounds: u64,
}

/// What a node suffered since it started, by how many times.
#[derive(Clone, Copy, Debug, PartialEq, Eq)]
pub struct Troubles {
    /// Sessions that other nodes dialed and that ended with a fault.
    pub session_faults: u64,
    /// The number of the fault of the last of them; 0 if there was none.
    pub last_session_fault: u64,
    /// Frames of another version that came, at either socket.
    pub other_versions: u64,
    /// Connections at either socket that it closed to make room for others, or for want of memory, and times that it could accept
    /// none. A failure that lasts counts once a minute.
    pub turned_away: u64,
    /// Writes that it refused because it has as many keys as it may.
    pub full_writes: u64,
    /// Times that all its workers were busy for longer than a second. The present time counts too.
    pub busy_times: u64,
    /// Digests of other nodes with a version of themselves below one that they reported long before.
    pub version_falls: u64,
}
