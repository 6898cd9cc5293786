//! The running node: it serves its peers and its clients over sockets, and dials its peers.
//!
//! `run_node` runs the node that owns a log. One thread accepts at both sockets. Workers serve the peers that connect, and
//! answer questions of clients. One thread dials the peers in turn, and others dial them if there is news. The owner's thread,
//! which is the one that calls, makes the writes of clients: each is in the log before the directory takes it. `run_closed_node` runs a node whose log takes
//! no writes. A program with connections of its own serves them by `Serving`, and asks by `ask_control` of `sb_control`.
//!
//! ```rust
//! /// Runs the node of this name over a log in memory, until it has made its rounds.
//! fn run_in_memory<R: Runtime + Net<Listener = TcpListener, Stream = TcpStream>>(
//!     rt: &R,
//!     alloc: Global,
//!     name: Name,
//!     settings: Settings,
//!     paths: &Paths,
//!     pace: Pace,
//! ) -> Result<Ran, Fault> {
//!     let log = PlainLog::new(alloc, name, settings.cluster(), settings.max_version());
//!     let config = NodeConfig {
//!         settings,
//!         paths: *paths,
//!         pace,
//!         beat: None,
//!         forgotten: &[],
//!     };
//!     run_node(rt, alloc, config, log, &Nobody)
//! }
//! ```
//!
//! # What no contract refuses
//!
//! No clause can state what a running node does on its sockets.
//!
//! - A node binds nothing, dials nobody or serves nobody. `crates/sb_run_tests` refuse it.
//! - A node counts other faults or events, or reports rounds to its observer that ended otherwise.
//!   `crates/sb_run_tests` refuse it.
//! - A connection that moves no byte stays open, or a request that is not whole in time is served. Tests and
//!   `tools/check-node` refuse it.
//! - A node does not end, or a node with endless rounds ends. Tests and `tools/check-node` refuse it.
//! - A peer is dialed at another time, or news does not wake the threads that dial. Tests and
//!   `tools/check-node` refuse it.
//! - A thread that answers over HTTP gets the answer to another write, or a version that no log gave. Or it gets a fault
//!   although the write was made. Tests and `tools/check-node` refuse it.
//! - A thread makes up the bytes of a request, and reads them: types say that a request was read, and not from where. Tests
//!   and `tools/check-node` refuse it.
//! - All threads that answer over HTTP wait for writes, or fewer than may. Tests and `tools/check-node` refuse it.
//! - A node removes a socket at which somebody listens. Tests and `tools/check-node` refuse it.
//! - `Timed::left` does not call `time_between`, or a read or a write waits longer than it grants. Tests refuse it.
//! - The loop that accepts connections ends if one accept fails. Only `tools/check-node` refuses it.
//! - `Turns`, `Schedule`, `Counts`, `BusyWorkers` or `Peers` gives the observer a wrong state, or reports too seldom or
//!   never. The tests of `sb_run` and `tools/check-node` refuse it.
//! - If a peer is passed over, another than the next is dialed, or peers lose turns. `next_in_turn` covers the first turn alone,
//!   and that somebody is dialed. The tests of `sb_run` and `tools/check-node` refuse it.
//! - `dial_peer` connects to nobody: no contract sees a socket. The tests of `sb_run` and `tools/check-node` refuse it. By the
//!   types `Round` and `DialEnd` each round that has begun calls it before it ends.
//! - No burst is dialed, or its peers are dialed one after another. The tests of `sb_run` and `tools/check-node`
//!   refuse it.
//! - A peer is pushed less than it may lack: news is left out of its backlog, or the delta is made before news is
//!   taken. Or `plan` asks for other numbers of owners or of bytes before a push. The tests of `sb_run` and
//!   `tools/check-node` refuse it.
//! - A push counts as taken although the peer did not end it. The tests of `sb_run` and `tools/check-node` refuse it.
//! - A gap hastens no round, or each gap hastens one. The tests of `sb_run` and `tools/check-node` refuse it.
//! - Pushes, gaps or hastened rounds are counted wrongly. The tests of `sb_run` refuse it.
//! - A session for news begins that `Deliveries::begin` refused, or ends unnoted, so that its peer gets no more news.
//!   The tests of `sb_run` and `tools/check-node` refuse it.
//! - A session counts as slow that is not, or as quick that is slow. Only `tools/check-node` refuses it.
//! - A peer counts as silent or as heard that was not: no clause covers what `PeerReader` notes. The tests of `sb_run`
//!   and `tools/check-node` refuse it.
//! - A silent connection is never closed, or is closed too soon. A Hello or a request that is whole is never handed
//!   on. The tests of `sb_run` and `tools/check-node` refuse it.
//! - A session does not read what came before a worker took it, or reads it twice. Tests refuse it.
//! - A question goes to the owner's thread although a worker is free, to workers that are busy, or before a write that
//!   waits. `tools/check-node` refuses it.
//! - A request or session may take too long, because its time never begins, or because it goes on once its time is
//!   over. The tests of `sb_run` and `tools/check-node` refuse it.
//! - A log that failed while the node runs does not end a node that must exit. Tests and `tools/check-node` refuse it.
//! - A running node does not ask whether a purge is due, or does not count or report a purge. `tools/check-node` refuses it.
//! - A node purges its own table although its log is closed. `tools/check-node` refuses it.
//! - A node never asks whether the file of its log is lost, or goes on writing to it. Tests and `tools/check-node`
//!   refuse it.
//! - `run_closed_node` opens with another table than it was given. No clause promises what a node shows. Tests refuse
//!   it.
//! - `Peers::note` does not report to the observer, or loses the last peer. Tests refuse it.
//! - `OwnWrites::put` owes a write for missing memory although it could share it. Tests refuse it.
//! - What could not be published for missing memory waits for the next event, since `refresh` always reports
//!   missing memory. Nothing refuses it.
//! - `run_node` runs with other settings than it was given (except seats, workers and the cluster of its log).
//!   Tests and `tools/check-node` refuse it.
//! - `run_node` purges its log first. It promises nothing of the log that it drops. Tests and `tools/check-node`
//!   refuse it.
//! - `run_node` reports `StoreFailed` or `LogDamaged` for a whole log. Tests refuse it.
//! - A turn without peers counts twice, so the status of a node reports more rounds than were made. `tools/check-node`
//!   refuses it.
//! - A node has fewer worker threads than seats for them. `as_many_peers_are_served_at_once_as_there_are_workers`
//!   refuses it.
//! - A round has one exchange only, so it does not ask for owners after its first digest.
//!   `owners_behind_the_first_digest_are_asked_for` refuses it.
//! - A source numbers two sessions alike, or begins with another number than 1. A node's own gate ignores the
//!   number. Nothing refuses it.
//! - A thread that dials serves a session over bytes of its own, before or after `talk`. Nothing refuses it: contracts do
//!   not see what a socket gives. A delta has to come out of bytes (`ReceivedDelta`), so no shorter way does it. Within
//!   `serve_pool` a clause refuses it of workers. Before or after it, in `serve_arrivals`, nothing does.
//! - `run_node` runs first, and then returns why it must not. `a_node_that_is_refused_did_not_run` and
//!   `a_closed_log_is_no_open_one` refuse it.
//! - A thread writes something to a peer before its session begins, or after it ended. Tests and `tools/check-node` refuse it.
//! - The thread that accepts hands a worker other bytes than came first. Tests refuse it.
//! - `serve_pool` returns all seats and serves nobody, or its sessions make fewer reads than allowed. Tests refuse
//!   it.
//! - Workers give a session another limit of reads, or `run_node` gives them another. `tools/check-node` refuses
//!   more reads.
//! - A worker asks the gate for another session than its own. `a_session_waits_for_another` refuses it.
//! - A worker writes something before or after `answer_counted`, or the owner's thread before or after `write_answer`.
//!   The tests of `sb_run` and `tools/check-node` refuse it.
//! - `serve_control` answers each question with the number of `Closed`. No clause promises that a seat may enter.
//!   Tests and `tools/check-node` refuse it.
//! - The status of a node has a wrong uptime, or counts its owners, rows, busy workers or troubles wrongly. Clauses cover
//!   its version, its keys, its conflict, its rounds, its workers, its peers, and whether it is caught up. Tests and
//!   `tools/check-node` refuse it.
//! - A status has the peers of another schedule, or another cause of a closed log than was noted: no fact spans a lock.
//!   `tools/check-node` refuses it.
//! - A session takes blocks of an owner that the node is to forget, since it has no `ForgettingHandler`. Or the observer
//!   learns of another owner, or never. The tests of `sb_run` and `tools/check-node` refuse it.
//! - A node audits nobody, another peer, too seldom or too often, or does not report what it found. Or an audit asks for too
//!   much, stops too soon, or goes on too long. The tests of `sb_run` and `tools/check-node` refuse it.
//! - The first write never waits for the peers, or waits for longer than it may. Or other requests wait with it. Or the
//!   first rounds are not made at once. The tests of `sb_run` and `tools/check-node` refuse it.
//! - A caller that waits for a change never hears of one, hears of one that did not come, or hears too late. Or a watch for
//!   it stays after it left. The tests of `sb_run` and `tools/check-node` refuse it.
//! - An owner has a wrong age or none, also over HTTP: no clause is about when an owner was heard. The tests of `sb_run` and
//!   `tools/check-node` refuse it.
//! - A beat is missing, or comes before it is due. The tests of `sb_run` and `tools/check-node` refuse it.
//! - The owner's thread takes a request and does not answer it, or makes beats alone. The tests of `sb_run` and
//!   `tools/check-node` refuse it.
//! - The gate of a dialed session, or that of the node, does not report what was entered, heard or missed. The tests of
//!   `sb_run` and `tools/check-node` refuse it.
//! - The moment before a connection is a later one, or that of another. A digest is not looked at, or a fall is not reported or
//!   counted. The tests of `sb_run` and `tools/check-node` refuse it.
//! - A peer that dials counts as one that is not known, although its Hello has its name. `tools/check-node` refuses it.
//! - A node answers nobody over HTTP, or each question by the number of `Closed`. `tools/check-node` refuses it.
//! - Over HTTP the owners or the metrics are a fault each time, or the metrics are others. `tools/check-node` refuses it.
//! - A poll over HTTP answers at once, or only once its time is over. Or each connection makes its marks by other keys.
//!   `tools/check-node` refuses it.
//! - A poll over HTTP goes on after its caller hung up, or ends although its caller is there. The tests of `sb_run` and
//!   `tools/check-node` refuse it.
//! - `HttpSocket::bind` takes an address that `is_own_port` refuses. Nothing refuses it: `attrdir` asks that before.
//! - A port counts as a socket, so a request may name any host there. `tools/check-node` refuses it.
//! - A connection over HTTP has other limits, of bytes or of time. `tools/check-node` refuses it.
//! - What a caller sends after its answer is not read, so a port may lose the answer. `tools/check-node` refuses it.
//! - Fewer or more threads answer over HTTP than there are seats for it. `tools/check-node` refuses it.
//! - A thread that answers over HTTP ends if one accept fails. Nothing refuses it.
//! - At its end a node does not wake those threads, or leaves the socket for HTTP. `tools/check-node` refuses it.
//! - `OwnWrites::put`, `serve_control`, `serve_pool` or `run_node` never returns. Tests end.
#![tactic(auto)]

mod accepting;
mod arrivals;
mod audit_turns;
mod auditing;
mod backlogs;
mod beating;
mod bell;
mod control;
mod control_socket;
mod counts;
mod dialer;
mod dialing;
mod facts;
mod first_hearing;
mod first_message;
mod heard;
mod http_caller;
mod http_polls;
mod http_socket;
mod http_threads;
mod http_writes;
mod laws;
mod log_watch;
mod node;
mod node_setup;
mod observer;
mod own_writes;
mod peers;
mod pool;
mod purging;
mod pushing;
mod schedule;
mod session_end;
mod sockets;
mod status_reply;
mod status_texts;
mod threads;
mod version_falls;
mod watchers;
mod write_request;

pub use http_socket::is_own_port;
pub use http_threads::HTTP_WORKERS;
pub use laws::{
    forgotten_owners_stay_out, running_nodes_keep_truth, running_nodes_tell_truth,
    turns_come_to_all,
};
pub use node::{
    Beat, NodeConfig, OnLogFault, Pace, Paths, Ran, Runtime, run_closed_node, run_node,
};
pub use observer::{Nobody, Observer, PushCounts, Status, Troubles};
pub use own_writes::{OwnWrites, Stored};
pub use peers::{DownReason, Peer, PeerState};
pub use pool::{Pooled, Serving, Source, Taken};
pub use sb_handlers::{Arrival, ForgottenOwners, Gate, GatePoint, Open, VainOffers, VersionFall};
pub use write_request::WriteRequest;
