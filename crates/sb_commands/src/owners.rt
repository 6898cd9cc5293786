//! How far a node holds each owner, which it is asked as by a peer.
ghost use Rattle.std.specs.Prelude.{◌≡◌, ◌<◌, false, IfOk, IfErr};
ghost use Rattle.sb_frames.specs.Sending.{has_failed};
ghost use Rattle.sb_session.specs.Handlers.{IsRefusal};
ghost use Rattle.sb_commands.specs.Owners as spec;

use crate::ages::age_of;
use crate::asking::{READS_OF_ONE, is_silent, limit};
use crate::failure::{Failure, FaultPlace, Obstacle};
use crate::output::print_at_once;
use sb_codec::{Ages, Bye, Message};
use sb_digest::{Digest, Pair};
use sb_frames::{Connection, Steps};
use sb_holdings::Report;
use sb_session::{Handler, ReceivedDelta, ReceivedMessage, Replies, Session};
use sb_types::{Delta, Fault, KIND_DIGEST, Name, OWNERS_MOST, REASON_ROUNDS_DONE};
use std::alloc::Global;
use std::io::{Read, Write};
use std::marker::Brand;
use std::os::unix::net::UnixStream;
use std::sync::ledger::{Blank, Ledger};

/// The least name of all.
const LEAST_NAME: &[u8] = b"-";

/// What the digests of a node brought in a session. It has nothing to give itself, asks for no writes, and takes none.
#[derive(Drop)]
struct HeardDigests {
    alloc: Global,
    /// The end of the range of its digests, before which no name is.
    least: Name,
    pairs: Vec<Pair>,
    /// The name with which the next digest is to begin; the least one at first.
    next: Option<Name>,
    /// Whether all owners have come.
    is_whole: bool,
    /// Whether a digest began elsewhere than it was to.
    is_broken: bool,
}

impl HeardDigests {
    /// Nothing has come yet.
    fn new(alloc: Global, least: Name) -> HeardDigests {
        HeardDigests {
            alloc,
            least,
            pairs: Vec::new(alloc),
            next: None,
            is_whole: false,
            is_broken: false,
        }
    }

    /// Takes up a digest. `NoMemory`.
    fn add(&mut self, told: &Digest) -> Result<(), Fault> {
        self.is_broken = self.is_broken || self.is_whole || told.from() != self.next;
        self.pairs.extend_from_slice(told.pairs())?;
        self.next = told.next_from();
        self.is_whole = self.next.is_none();
        Ok(())
    }
}

/// What a handler may answer.
fn granted<T: Drop>(answer: Result<T, Fault>) -> Result<T, Fault>
    ensures { IfErr result IsRefusal }
{
    match answer {
        Ok(answer) => Ok(answer),
        Err(_) => Err(Fault::NoMemory),
    }
}

impl Handler for HeardDigests {
    ghost step = { λ _ _ _. Unit {0} };

    ghost stays = { λ _ _. Unit {0} };

    ghost grows = { λ _ _. Unit {0} };

    /// A digest of a range that has no name, so that no writes are sent for it.
    fn digest(&mut self, _from: Option<Name>, want: bool) -> Result<Digest, Fault> {
        granted(Digest::new(want, None, Some(self.least), Vec::new(self.alloc)))
    }

    fn deltas(&mut self, told: &Digest) -> Result<Delta, Fault> {
        granted(self.add(told))?;
        granted(Delta::new(Vec::new(self.alloc)))
    }

    fn apply(&mut self, _delta: &ReceivedDelta) -> Result<Report, Fault> {
        Ok(Report::new(Vec::new(self.alloc)))
    }

    ghost enters_nothing = { λ old new act e s. tt };

    ghost stays_still = { λ state. tt };

    ghost stays_on = { λ old mid new a b. tt };

    ghost step_grows = { λ old new act s. tt };

    ghost grows_still = { λ state. tt };

    ghost grows_on = { λ old mid new a b. tt };
}

/// The next message of a session, taken. Its faults are those of `Connection::receive` and of `Session::take`; `Truncated` at the
/// end of the node's bytes, and at a Bye.
fn hear<R: Read, W: Write, L: Ledger>(
    connection: &mut Connection<R, W, L>,
    session: &mut Session,
    heard: &mut HeardDigests,
) -> Result<Replies, Fault>
    ensures unwritten { connection.new.last_write ≡ connection.old.last_write }
{
    let Some(message) = ReceivedMessage::read_from(connection)? else {
        return Err(Fault::Truncated);
    };
    match session.take(message, heard)? {
        Replies::Ended(_) => Err(Fault::Truncated),
        replies => Ok(replies),
    }
}

/// Hears a session until a digest comes, and returns what answers it. Its faults are those of `hear`; `Malformed` of a digest that asks,
/// or that begins elsewhere than it was to.
fn hear_digest<R: Read, W: Write, L: Ledger>(
    connection: &mut Connection<R, W, L>,
    session: &mut Session,
    heard: &mut HeardDigests,
) -> Result<Delta, Fault>
    ensures unwritten { connection.new.last_write ≡ connection.old.last_write }
{
    for _ in 0..u64::MAX {
        match hear(connection, session, heard)? {
            Replies::Answered(delta) if !heard.is_broken => return Ok(delta),
            Replies::Answered(_) | Replies::Exchanged(..) => {
                return Err(Fault::Malformed(KIND_DIGEST));
            }
            _ => {}
        }
    }
    Err(Fault::TurnsSpent)
}

/// Sends a Hello, and hears that of the node. Its faults are those of `Connection::send` and of `hear`.
fn greet<R: Read, W: Write, L: Ledger>(
    connection: &mut Connection<R, W, L>,
    session: &mut Session,
    heard: &mut HeardDigests,
) -> Result<(), Fault>
    ensures goes_on { IfOk result (λ _. has_failed connection.new.last_write ≡ false) }
{
    connection.start()?;
    connection.send(&session.hello())?;
    let _ = hear(connection, session, heard)?;
    Ok(())
}

/// Sends the next digest. Its faults are those of `Session::ask` and of `Connection::send`.
fn send_digest<R: Read, W: Write, L: Ledger>(
    connection: &mut Connection<R, W, L>,
    session: &mut Session,
    heard: &mut HeardDigests,
) -> Result<(), Fault>
    requires goes_on { has_failed connection.old.last_write ≡ false }
    ensures goes_on { IfOk result (λ _. has_failed connection.new.last_write ≡ false) }
{
    let asked = session.ask(heard)?;
    connection.send(&asked)
}

/// An exchange: the next digest, that of the node, and what answers it. Its faults are those of `send_digest`, of `hear_digest` and of
/// `Connection::send`.
fn exchange<R: Read, W: Write, L: Ledger>(
    connection: &mut Connection<R, W, L>,
    session: &mut Session,
    heard: &mut HeardDigests,
) -> Result<(), Fault>
    requires goes_on { has_failed connection.old.last_write ≡ false }
    ensures goes_on { IfOk result (λ _. has_failed connection.new.last_write ≡ false) }
{
    send_digest(connection, session, heard)?;
    let delta = hear_digest(connection, session, heard)?;
    connection.send(&Message::Delta(delta))
}

/// Sends a Bye. Its faults are those of `Connection::send`.
fn send_bye<R: Read, W: Write, L: Ledger>(connection: &mut Connection<R, W, L>) -> Result<(), Fault>
    requires goes_on { has_failed connection.old.last_write ≡ false }
{
    let bye = Bye::new(REASON_ROUNDS_DONE)?;
    connection.send(&Message::Bye(bye))
}

/// Makes a whole session: Hello, as many exchanges as it takes to hear all owners of the node, and Bye. It asks nothing before the
/// node's Hello came, since a node ends a session that it refuses. The faults of `hear_digest` and of `Connection::send`.
/// `TurnsSpent` if the node has more digests than there may be owners, or if the session needs more reads than the connection has.
fn hear_all<R: Read, W: Write, L: Ledger>(
    connection: &mut Connection<R, W, L>,
    session: Session,
    heard: &mut HeardDigests,
) -> Result<(), Fault> {
    let mut session = session;
    greet(connection, &mut session, heard)?;
    for _ in 0..OWNERS_MOST {
        exchange(connection, &mut session, heard)?;
        if heard.is_whole {
            return send_bye(connection);
        }
    }
    Err(Fault::TurnsSpent)
}

/// A session over a stream from which nothing was read before. The faults of `hear_all`.
fn hear_from<L: Ledger>(
    stream: &UnixStream,
    session: Session,
    heard: &mut HeardDigests,
    blank: Blank,
) -> Result<(), Fault>
    requires name { blank.name ≡ L.name }
    requires parts { blank.parts ≡ L.parts }
    requires some { 0 < blank.parts }
{
    let steps = Steps::<L>::new(blank);
    let mut connection = Connection::new(heard.alloc, stream, stream, READS_OF_ONE, steps);
    hear_all(&mut connection, session, heard)
}

/// Prints how far each owner is held, a line for each, and the age of the owner after it if ages are given. `-` is the age of
/// an owner without one. `NoMemory`; `WriteFailed`.
fn print_pairs(rt: &HostRuntime, pairs: &[Pair], ages: Option<&Ages>) -> Result<(), Fault> {
    let mut lines = Vec::new(rt.alloc());
    for pair in pairs {
        if add_pair(&mut lines, pair, ages).is_err() {
            return Err(Fault::NoMemory);
        }
    }
    print_at_once(rt, &lines)
}

/// Adds the line of a pair, with the age of its owner if ages are given. An error if there is no memory.
fn add_pair(out: &mut Vec<u8>, pair: &Pair, ages: Option<&Ages>) -> std::io::Result<()> {
    let name = str::from_utf8(pair.owner.bytes()).unwrap_or("");
    let Some(ages) = ages else {
        return writeln!(out, "{name} {}", pair.upto);
    };
    match age_of(ages, &pair.owner) {
        Some(age) => writeln!(out, "{name} {} {age}", pair.upto),
        None => writeln!(out, "{name} {} -", pair.upto),
    }
}

/// Asks the node at a socket for peers how far it holds each owner, as a peer of this name. Returns a pair of each, in ascending owner. It
/// writes nothing at the node. If the socket has no room for another caller, it waits without limit. `ReadFailed` if the node cannot be
/// reached, or is silent for a minute; the faults of a session.
fn ask_pairs<'a>(
    rt: &HostRuntime,
    sock: &'a str,
    cluster: Name,
    name: Name,
) -> Result<Vec<Pair>, Failure<'a>> {
    let stream = match UnixStream::connect(rt, sock) {
        Ok(stream) => stream,
        Err(error) => {
            let place = FaultPlace::NoPeer(sock, Obstacle::of(&error));
            return Err(Failure::at(place, Fault::ReadFailed));
        }
    };
    if limit(&stream).is_err() {
        return Err(Failure::at(FaultPlace::Session(sock), Fault::ReadFailed));
    }
    let mut heard = HeardDigests::new(rt.alloc(), Name::read(LEAST_NAME)?);
    let session = Session::new(cluster, name);
    match hear_from::<Brand>(&stream, session, &mut heard, Blank::new(1)) {
        Ok(()) => Ok(heard.pairs),
        Err(Fault::ReadFailed) if is_silent(&stream) => {
            Err(Failure::at(FaultPlace::SilentPeer(sock), Fault::ReadFailed))
        }
        Err(fault) => Err(Failure::at(FaultPlace::Session(sock), fault)),
    }
}

/// Asks the same, and prints how far each owner is held, with its age if ages are given. The faults of `ask_pairs`;
/// `WriteFailed`.
pub fn print_owners<'a>(
    rt: &HostRuntime,
    sock: &'a str,
    cluster: Name,
    name: Name,
    ages: Option<&Ages>,
) -> Result<(), Failure<'a>> {
    let pairs = ask_pairs(rt, sock, cluster, name)?;
    Ok(print_pairs(rt, &pairs, ages)?)
}

/// The greatest version in a pair: one that is held, a floor, or one of a table that has not come whole. 0 if the pair is
/// another owner's.
fn version_in(pair: &Pair, owner: &Name) -> u64
    ensures { result ≡ spec.version_in owner.now pair.now }
{
    if pair.owner != *owner {
        return 0;
    }
    pair.upto.max(pair.staged_floor).max(pair.progress)
}

/// The greatest version that these have of an owner; 0 if there is none.
fn greatest_version(pairs: &[Pair], owner: &Name) -> u64
    ensures { result ≡ spec.greatest_version owner.now pairs.now }
{
    let mut greatest = 0;
    for pair in pairs {
        greatest = greatest.max(version_in(pair, owner));
    }
    greatest
}

/// The greatest version that these have of an owner, of a node at this socket. `NothingThere` if there is none.
fn heard_of<'a>(pairs: &[Pair], owner: &Name, sock: &'a str) -> Result<u64, Failure<'a>>
    ensures { IfOk result (λ version. (version ≡ spec.greatest_version owner.now pairs.now) × (0 < version)) }
{
    match greatest_version(pairs, owner) {
        0 => Err(Failure::at(FaultPlace::Session(sock), Fault::NothingThere)),
        version => Ok(version),
    }
}

/// Asks the same under the name of an owner, and returns the greatest version that the node heard of it. It may be one of a table that
/// has not come whole. The faults of `ask_pairs`; `NothingThere` if it heard of no version.
pub(crate) fn ask_greatest<'a>(
    rt: &HostRuntime,
    sock: &'a str,
    cluster: Name,
    owner: Name,
) -> Result<u64, Failure<'a>>
    ensures some { IfOk result (λ version. 0 < version) }
{
    let pairs = ask_pairs(rt, sock, cluster, owner)?;
    heard_of(&pairs, &owner, sock)
}
