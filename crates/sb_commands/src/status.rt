//! How a node is, which it is asked at its control socket.
use crate::asking::{RowFormat, answer_of, unanswered};
use crate::failure::{Failure, FaultPlace};
use crate::output::print_at_once;
use sb_codec::{AskStatus, Figure, FigureKind, Message, NodeIdentity, NodeStatus, PeerStatus};
use sb_control::LogCause;
use sb_query::{is_ready, status_in};
use sb_types::{Fault, KIND_NODE_STATUS, Name, ShortText, Spelled};
use serde_json::{Map, Value, json};
use std::alloc::{AllocError, Global};
use std::io::Write;
use std::time::{Clock, Duration, Instant};
use std::{fmt, thread};

/// How many milliseconds pass between two askings of a command that waits until a node is ready.
const WAIT_STEP: u64 = 100;

/// How a node is, with all of its peers.
#[derive(Drop)]
pub(crate) struct WholeStatus {
    /// The first answer, with the first peers.
    head: NodeStatus,
    /// The peers after those of the head.
    rest: Vec<PeerStatus>,
}

/// One answer, with peers after the first `after`. The faults of `answer_of` and of `unanswered`.
fn page_of<'a>(rt: &HostRuntime, control: &'a str, after: u64) -> Result<NodeStatus, Failure<'a>> {
    let request = Message::AskStatus(AskStatus::new(after));
    match status_in(answer_of(rt, control, &request)?) {
        Ok(status) => Ok(status),
        Err(reason) => Err(unanswered(control, reason)),
    }
}

/// Asks which node it is that answers at a control socket. The faults of `page_of`.
pub(crate) fn ask_identity<'a>(
    rt: &HostRuntime,
    control: &'a str,
) -> Result<NodeIdentity, Failure<'a>> {
    let status = page_of(rt, control, 0)?;
    Ok(*status.identity())
}

/// Asks whether a node is caught up. The faults of `page_of`.
pub(crate) fn is_caught_up<'a>(rt: &HostRuntime, control: &'a str) -> Result<bool, Failure<'a>> {
    let status = page_of(rt, control, 0)?;
    Ok(status.figure(FigureKind::CaughtUp) == Some(1))
}

/// Asks how a node is until all of its peers have come. The faults of `page_of`; `Malformed(KIND_NODE_STATUS)` if an answer has no peer
/// although more follow; `NoMemory`.
fn ask_whole<'a>(rt: &HostRuntime, control: &'a str) -> Result<WholeStatus, Failure<'a>> {
    let head = page_of(rt, control, 0)?;
    let mut count = head.peers().len() as u64;
    let mut more = head.more();
    let mut rest = Vec::new(rt.alloc());
    for _ in 0..u64::MAX {
        if !more {
            break;
        }
        let page = page_of(rt, control, count)?;
        if page.peers().is_empty() {
            let place = FaultPlace::Control(control);
            return Err(Failure::at(place, Fault::Malformed(KIND_NODE_STATUS)));
        }
        rest.extend_from_slice(page.peers())?;
        count = count.saturating_add(page.peers().len() as u64);
        more = page.more();
    }
    Ok(WholeStatus { head, rest })
}

fn text_of(text: &ShortText) -> &str {
    str::from_utf8(text.bytes()).unwrap_or("")
}

fn name_text(name: &Name) -> &str {
    str::from_utf8(name.bytes()).unwrap_or("")
}

/// The number of a cause, as a word.
#[derive(Clone, Copy)]
struct CauseWord(u64);

impl fmt::Display for CauseWord {
    fn fmt<W: fmt::Write>(&self, f: &mut fmt::Formatter<W>) -> fmt::Result {
        match LogCause::from_number(self.0) {
            Some(cause) => f.write_str(cause.name()),
            None => write!(f, "cause_{}", self.0),
        }
    }
}

/// The state of a peer, as a word.
#[derive(Clone, Copy)]
struct StateWord(u8);

impl fmt::Display for StateWord {
    fn fmt<W: fmt::Write>(&self, f: &mut fmt::Formatter<W>) -> fmt::Result {
        match self.0 {
            0 => f.write_str("not_dialed"),
            1 => f.write_str("answers"),
            2 => f.write_str("unreachable"),
            3 => f.write_str("silent"),
            4 => f.write_str("unreadable"),
            5 => f.write_str("hung_up"),
            6 => f.write_str("broken_off"),
            7 => f.write_str("ended_early"),
            33..=63 => write!(f, "fault_{}", self.0 - 32),
            other => write!(f, "state_{other}"),
        }
    }
}

/// A figure, as a line has it.
#[derive(Drop)]
struct FigureLine<'a>(&'a Figure);

impl fmt::Display for FigureLine<'_> {
    fn fmt<W: fmt::Write>(&self, f: &mut fmt::Formatter<W>) -> fmt::Result {
        let figure = self.0;
        let (number, value) = (figure.number, figure.value);
        let Some(kind) = FigureKind::of_number(number) else {
            return write!(f, "figure_{number} {value}");
        };
        write!(f, "{} ", kind.word())?;
        match (kind, value) {
            (FigureKind::CaughtUp, 0) => f.write_str("no"),
            (FigureKind::CaughtUp, _) => f.write_str("yes"),
            (FigureKind::LogFault | FigureKind::Conflict, 0) => f.write_str("none"),
            (FigureKind::LogFault, number) => write!(f, "{}", CauseWord(number)),
            (_, value) => write!(f, "{value}"),
        }
    }
}

impl WholeStatus {
    /// Adds the lines of the node: whether it is ready, and which it is. An error if there is no memory.
    fn add_node(&self, out: &mut Vec<u8>) -> std::io::Result<()> {
        let identity = self.head.identity();
        let ready = if is_ready(&self.head) { "yes" } else { "no" };
        writeln!(out, "ready {ready}")?;
        writeln!(out, "node {}", name_text(&identity.node))?;
        writeln!(out, "cluster {}", name_text(&identity.cluster))?;
        writeln!(out, "release {}", Spelled(text_of(&identity.release)))
    }

    /// Adds its lines: those of the node, of its figures and of its peers. An error if there is no memory.
    fn add_lines(&self, out: &mut Vec<u8>) -> std::io::Result<()> {
        self.add_node(out)?;
        for figure in self.head.figures() {
            writeln!(out, "{}", FigureLine(figure))?;
        }
        add_peers(out, self.head.peers())?;
        add_peers(out, &self.rest)
    }

    /// Its lines. `NoMemory`.
    fn lines(&self, alloc: Global) -> Result<Vec<u8>, AllocError> {
        let mut lines = Vec::new(alloc);
        match self.add_lines(&mut lines) {
            Ok(()) => Ok(lines),
            Err(_) => Err(AllocError),
        }
    }

    /// Its object, in one line. `NoMemory`.
    fn json_line(&self, alloc: Global) -> Result<Vec<u8>, AllocError> {
        let mut line = object_of(alloc, self)?.to_vec(alloc)?;
        line.push(b'\n')?;
        Ok(line)
    }

    /// Prints it. `NoMemory`; `WriteFailed`, with the number of bytes that the output took.
    fn print(&self, rt: &HostRuntime, format: RowFormat) -> Result<(), Fault> {
        let lines = match format {
            RowFormat::Text => self.lines(rt.alloc())?,
            RowFormat::Json => self.json_line(rt.alloc())?,
        };
        print_at_once(rt, &lines)
    }
}

fn add_peer(out: &mut Vec<u8>, peer: &PeerStatus) -> std::io::Result<()> {
    writeln!(
        out,
        "peer {} {}",
        StateWord(peer.state),
        Spelled(text_of(&peer.path))
    )
}

/// Adds a line for each of these peers. An error if there is no memory.
fn add_peers(out: &mut Vec<u8>, peers: &[PeerStatus]) -> std::io::Result<()> {
    for peer in peers {
        add_peer(out, peer)?;
    }
    Ok(())
}

/// The value of a figure, as JSON.
fn json_of(alloc: Global, figure: &Figure) -> Result<Value, AllocError> {
    match (figure.kind(), figure.value) {
        (Some(FigureKind::CaughtUp), value) => Ok(Value::from(value != 0)),
        (Some(FigureKind::LogFault | FigureKind::Conflict), 0) => Ok(Value::Null),
        (Some(FigureKind::LogFault), number) => {
            Value::try_from_str(alloc, CauseWord(number).to_string(alloc)?.as_str())
        }
        (_, value) => Ok(Value::from(value)),
    }
}

/// The name of a figure's member.
fn member_of(alloc: Global, figure: &Figure) -> Result<String, AllocError> {
    match figure.kind() {
        Some(kind) => String::from_str(alloc, kind.word()),
        None => format!(in alloc; "figure_{}", figure.number),
    }
}

fn peer_of(alloc: Global, peer: &PeerStatus) -> Result<Value, AllocError> {
    let state = StateWord(peer.state).to_string(alloc)?;
    let (path, round) = (text_of(&peer.path), peer.round);
    json!(in alloc; {"path": path, "round": round, "state": state.as_str()})
}

/// Adds a member for each figure but `peers`, which is the list that has so many.
fn add_figures(
    alloc: Global,
    members: &mut Map<String, Value>,
    figures: &[Figure],
) -> Result<(), AllocError> {
    for figure in figures {
        if figure.kind() != Some(FigureKind::Peers) {
            members.insert(member_of(alloc, figure)?, json_of(alloc, figure)?)?;
        }
    }
    Ok(())
}

/// Adds an object for each of these peers.
fn add_objects(
    alloc: Global,
    objects: &mut Vec<Value>,
    peers: &[PeerStatus],
) -> Result<(), AllocError> {
    for peer in peers {
        objects.push(peer_of(alloc, peer)?)?;
    }
    Ok(())
}

/// The list of the peers of a status.
fn peers_of(alloc: Global, status: &WholeStatus) -> Result<Value, AllocError> {
    let mut objects = Vec::new(alloc);
    add_objects(alloc, &mut objects, status.head.peers())?;
    add_objects(alloc, &mut objects, &status.rest)?;
    Ok(Value::Array(objects))
}

/// The object of a status. Its members are in the order of their names.
fn object_of(alloc: Global, status: &WholeStatus) -> Result<Value, AllocError> {
    let mut members = Map::new(alloc);
    add_figures(alloc, &mut members, status.head.figures())?;
    add_identity(alloc, &mut members, &status.head)?;
    let peers = peers_of(alloc, status)?;
    members.insert(String::from_str(alloc, "peers")?, peers)?;
    Ok(Value::Object(members))
}

/// Adds whether a node is ready, and which it is.
fn add_identity(
    alloc: Global,
    members: &mut Map<String, Value>,
    status: &NodeStatus,
) -> Result<(), AllocError> {
    let identity = status.identity();
    let texts = [
        ("node", name_text(&identity.node)),
        ("cluster", name_text(&identity.cluster)),
        ("release", text_of(&identity.release)),
    ];
    for (member, text) in texts.iter() {
        members.insert(
            String::from_str(alloc, member)?,
            Value::try_from_str(alloc, text)?,
        )?;
    }
    members.insert(
        String::from_str(alloc, "ready")?,
        Value::from(is_ready(status)),
    )?;
    Ok(())
}

/// Whether a node may still become ready, or answer, if it is asked again.
fn may_become_ready(asked: &Result<WholeStatus, Failure<'_>>) -> bool {
    match asked {
        Ok(status) => !is_ready(&status.head),
        Err(failure) => failure.may_pass(),
    }
}

/// Asks how a node is, again and again until it is ready or so many milliseconds have passed. The last answer counts, also if it is a
/// fault of `ask_whole`. A fault that cannot pass ends it at once.
fn ask_until<'a>(
    rt: &HostRuntime,
    control: &'a str,
    wait: u64,
) -> Result<WholeStatus, Failure<'a>> {
    let mut asked = ask_whole(rt, control);
    let Some(end) = end_of(rt, wait) else {
        return asked;
    };
    for _ in 0..u64::MAX {
        if !may_become_ready(&asked) || has_passed(rt, end) {
            break;
        }
        thread::sleep(rt, Duration::from_millis(WAIT_STEP));
        asked = ask_whole(rt, control);
    }
    asked
}

/// When so many milliseconds have passed; none if no time is to pass, or there is no clock.
fn end_of(rt: &HostRuntime, wait: u64) -> Option<Instant> {
    if wait == 0 {
        return None;
    }
    Instant::now(rt)
        .ok()?
        .checked_add(Duration::from_millis(wait))
}

fn has_passed(rt: &HostRuntime, end: Instant) -> bool {
    match Instant::now(rt) {
        Ok(now) => end <= now,
        Err(_) => true,
    }
}

/// Asks how a node is, waits for so many milliseconds until it is ready, and prints the last answer. Returns whether the node is ready.
/// The faults of `ask_until`, then `NoMemory` and `WriteFailed`.
pub fn print_status<'a>(
    rt: &HostRuntime,
    control: &'a str,
    format: RowFormat,
    wait: u64,
) -> Result<bool, Failure<'a>> {
    let status = ask_until(rt, control, wait)?;
    status.print(rt, format)?;
    Ok(is_ready(&status.head))
}
