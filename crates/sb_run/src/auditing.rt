//! An audit: the node asks a peer for the rows of its own name, and compares them with its own table.
ghost use Rattle.std.specs.Prelude.{◌≡◌, ◌+◌, ◌<◌, ◌≤◌, ◌∷◌, [], true, false, nat_eq, None, Some, IfErr, IfOk, OnOk, IfSome};
ghost use Rattle.std.specs.Option.{option_copied};
ghost use Rattle.std.specs.Cmp.Lexicographic.{pointwise};
ghost use Rattle.sb_directory.specs.Audits.{Audits};
ghost use Rattle.sb_directory.specs.Serving.{IsLater};
ghost use Rattle.sb_run.specs.Auditing as spec;
ghost use Rattle.sb_run.specs.Hellos.{Greets};

use crate::dialer::{Dialing, RoundsTag};
use crate::dialing::reach;
use crate::observer::Observer;
use crate::pool::session_of;
use crate::threads::NodeContext;
use sb_digest::{Digest, Pair};
use sb_directory::{Difference, Directory, DirectoryTag, ReaderSeat};
use sb_frames::{Connection, Steps};
use sb_holdings::Report;
use sb_session::{Handler, ReceivedDelta, dial};
use sb_types::{Block, Delta, Fault, KEYS_MOST, NAME_MOST, Name};
use std::alloc::Global;
use std::io::{Read, Write};
use std::marker::Brand;
use std::net::Net;
use std::os::unix::net::UnixStream;
use std::sync::Wait;
use std::sync::ledger::{Blank, Ledger};
use std::time::Clock;

/// How many exchanges an audit has at most. Each but the last brings an entry, and a table has no more than these.
const EXCHANGES_MOST: u64 = KEYS_MOST as u64 + 1;

/// The byte of a name that comes after this one. None after the last. In a name bytes are ordered by their numbers.
fn next_byte(byte: u8) -> Option<u8>
    ensures { result ≡ spec.next_byte byte }
{
    match byte {
        b'-' => Some(b'0'),
        b'9' => Some(b'a'),
        b'z' => None,
        byte => byte.checked_add(1),
    }
}

/// The least name after this one; none after the last of all. `NoMemory`.
fn next_name(alloc: Global, name: &Name) -> Result<Option<Name>, Fault>
    ensures { IfErr result (λ fault. fault ≡ Fault.NoMemory) }
{
    let bytes = name.bytes();
    let mut text = Vec::with_capacity(alloc, NAME_MOST)?;
    text.extend_from_slice(bytes)?;
    if bytes.len() < NAME_MOST {
        text.push(b'-')?;
        return Ok(Name::read(&text).ok());
    }
    for _ in bytes {
        let Some(last) = text.pop() else {
            return Ok(None);
        };
        if let Some(next) = next_byte(last) {
            text.push(next)?;
            return Ok(Name::read(&text).ok());
        }
    }
    Ok(None)
}

/// How far the blocks of an audit came, as the pair of a digest has it.
#[derive(Clone, Copy)]
struct Progress {
    upto: u64,
    /// The floor under which the peer offers its whole table, and how far it came; 0 if it does not.
    floor: u64,
    staged: u64,
}

impl Progress {
    /// No block has come.
    fn none() -> Progress
        ensures { result ≡ spec.no_progress }
    {
        Progress {
            upto: 0,
            floor: 0,
            staged: 0,
        }
    }

    /// A block with this floor came, up to this version.
    fn note(&mut self, floor: u64, upto: u64)
        ensures { self.new ≡ spec.progress_after floor upto self.old }
    {
        if floor <= self.upto {
            self.upto = self.upto.max(upto);
        } else if floor <= upto {
            *self = Progress {
                upto,
                floor: 0,
                staged: 0,
            };
        } else {
            self.floor = floor;
            self.staged = upto;
        }
    }

    /// The pair of the own name.
    fn pair(&self, me: Name) -> Pair
        ensures { result ≡ spec.pair_of me self.now }
    {
        Pair::new(me, self.upto, Some((self.floor, self.staged)))
    }
}

/// What came of an audit.
#[derive(Drop)]
struct AuditEnd {
    /// Whether all came that the peer holds of the own name, or as much as the own table had.
    is_complete: bool,
    /// The first difference.
    found: Option<Difference>,
}

/// The end of a session that asks for the own name alone. It offers the peer nothing, and takes nothing into the node.
#[derive(Drop)]
struct AuditHandler<'a, S: DirectoryTag, R: Wait + Drop, Q: Wait> {
    rt: &'a Q,
    alloc: Global,
    directory: &'a Directory<S, R>,
    seat: ReaderSeat<S>,
    progress: Progress,
    /// Up to which version the own table was held when the audit began.
    goal: u64,
    /// Whether the last exchange brought a block of the own name, or there was none yet.
    goes_on: bool,
    end: AuditEnd,
}

/// The digest of one name alone, with this pair of it. `NoMemory`; `TurnsSpent` if a limit of digests is broken.
#[tactic(auto, using(crate::proofs::AskedDigests::made_of))]
fn digest_of_one(alloc: Global, want: bool, name: Name, pair: Pair) -> Result<Digest, Fault>
    ensures digest { IfOk result (λ digest. (digest.want ≡ want) × (digest.from ≡ Some name) × (digest.pairs ≡ pair ∷ [])) }
    ensures fault { spec.IsRefusedOnly result }
{
    let until = next_name(alloc, &name)?;
    let mut pairs = Vec::with_capacity(alloc, 1)?;
    pairs.push(pair)?;
    match Digest::new(want, Some(name), until, pairs) {
        Ok(digest) => Ok(digest),
        Err(_) => Err(Fault::TurnsSpent),
    }
}

/// The block of an owner, if there is one.
fn block_of<'a>(blocks: &'a [Block], owner: &Name) -> Option<&'a Block>
    ensures { IfSome (option_copied result) (λ block. pointwise nat_eq block.owner owner.now ≡ true) }
{
    for block in blocks {
        if block.owner() == owner {
            return Some(block);
        }
    }
    None
}

/// The seat, and the own version that it sees, which an audit has to reach. That is the greatest of all if the seat cannot enter.
fn goal_of<S: DirectoryTag, R: Wait + Drop>(
    directory: &Directory<S, R>,
    seat: ReaderSeat<S>,
) -> (ReaderSeat<S>, u64)
    ensures { IsLater seat result.0 }
{
    match seat.enter() {
        Ok(entered) => {
            let goal = entered.snapshot().upto(directory.name());
            (entered.leave(), goal)
        }
        Err(seat) => (seat, u64::MAX),
    }
}

impl<'a, S: DirectoryTag, R: Wait + Drop, Q: Wait> AuditHandler<'a, S, R, Q> {
    /// An audit from this seat, to which nothing came.
    fn new(
        rt: &'a Q,
        alloc: Global,
        directory: &'a Directory<S, R>,
        seat: ReaderSeat<S>,
    ) -> AuditHandler<'a, S, R, Q>
        ensures { IsLater seat result.seat }
    {
        let (seat, goal) = goal_of(directory, seat);
        AuditHandler {
            rt,
            alloc,
            directory,
            seat,
            progress: Progress::none(),
            goal,
            goes_on: true,
            end: AuditEnd {
                is_complete: false,
                found: None,
            },
        }
    }

    /// The seat, and what came of the audit.
    fn into_parts(self) -> (ReaderSeat<S>, AuditEnd)
        ensures { result.0 ≡ self.entry.seat }
    {
        let AuditHandler {
            rt: _,
            alloc: _,
            directory: _,
            seat,
            progress: _,
            goal: _,
            goes_on: _,
            end,
        } = self;
        (seat, end)
    }

    /// The digest of the own name alone. `NoMemory`; `TurnsSpent` if a limit of digests is broken.
    fn own_digest(&self, want: bool) -> Result<Digest, Fault>
        ensures digest { IfOk result (spec.IsAuditDigest S.opening.held.me self.now.progress want) }
        ensures fault { spec.IsRefusedOnly result }
    {
        let me = *self.directory.name();
        digest_of_one(self.alloc, want, me, self.progress.pair(me))
    }

    /// The first difference between a block and the own table.
    #[tactic(auto, using(crate::proofs::AuditedSeats::audit_later))]
    fn audit(&mut self, block: &Block) -> Result<Option<Difference>, Fault>
        ensures audits { IfOk result (λ found. Audits S.opening block.now self.old.seat found self.new.seat) }
        ensures later { IsLater self.old.seat self.new.seat }
        ensures fault { spec.IsRefusedOnly result }
    {
        match self.directory.audit(self.rt, &mut self.seat, block) {
            Ok(found) => Ok(found),
            Err(fault) => Err(fault),
        }
    }

    /// Compares a block of the own name with the own table, unless a difference was found before.
    fn compare(&mut self, block: &Block) -> Result<(), Fault>
        ensures audits { self.old.end.found ≡ None → OnOk result (Audits S.opening block.now self.old.seat self.new.end.found self.new.seat) }
        ensures over { self.old.end.found ≡ None → OnOk result (IfSome self.new.end.found (λ _. self.new.goes_on ≡ false)) }
        ensures later { IsLater self.old.seat self.new.seat }
        ensures fault { spec.IsRefusedOnly result }
    {
        if self.end.found.is_some() {
            return Ok(());
        }
        let found = self.audit(block)?;
        self.progress.note(block.floor(), block.upto());
        let is_over = found.is_some() || self.progress.upto >= self.goal;
        self.goes_on = self.goes_on && !is_over;
        self.end.is_complete = self.end.is_complete || is_over;
        self.end.found = found;
        Ok(())
    }
}

impl<S: DirectoryTag, R: Wait + Drop, Q: Wait> Handler for AuditHandler<'_, S, R, Q> {
    ghost use Rattle.sb_directory.specs.Serving.{IsLater};
    ghost use Rattle.sb_directory.specs.Handling.{later-same, later-on};
    ghost use Rattle.sb_run.specs.Auditing.{AuditAnswers};

    // It asks for the own name alone, offers nothing, and the seat only moves on.
    ghost step = { λ old act new. IsLater old.seat new.seat × AuditAnswers S.opening.held.me old.progress act };

    ghost stays = { λ old new. IsLater old.seat new.seat };

    ghost grows = { λ old new. IsLater old.seat new.seat };

    fn digest(&mut self, _from: Option<Name>, want: bool) -> Result<Digest, Fault> {
        if want && !self.goes_on {
            return Err(Fault::TurnsSpent);
        }
        self.own_digest(want)
    }

    fn deltas(&mut self, _theirs: &Digest) -> Result<Delta, Fault> {
        match Delta::new(Vec::new(self.alloc)) {
            Ok(nothing) => Ok(nothing),
            Err(_) => Err(Fault::TurnsSpent),
        }
    }

    fn apply(&mut self, delta: &ReceivedDelta) -> Result<Report, Fault> {
        match block_of(delta.blocks(), self.directory.name()) {
            Some(block) => self.compare(block)?,
            None => {
                self.goes_on = false;
                self.end.is_complete = true;
            }
        }
        Ok(Report::new(Vec::new(self.alloc)))
    }

    ghost enters_nothing = { λ old new act none step. step.0 };

    ghost stays_still = { λ state. later-same state.seat };

    ghost stays_on = { λ old mid new first then. later-on old.seat mid.seat new.seat first then };

    ghost step_grows = { λ old new act step. step.0 };

    ghost grows_still = { λ state. later-same state.seat };

    ghost grows_on = { λ old mid new first then. later-on old.seat mid.seat new.seat first then };
}

impl<S: RoundsTag, H: Wait + Drop, Q: Wait> NodeContext<'_, S, H, Q> {
    /// An audit over a connection, and what came of it. It makes at most the node's `max_reads` reads.
    fn audit_on<I: Read, O: Write, K: Ledger>(
        &self,
        connection: &mut Connection<I, O, K>,
        seat: ReaderSeat<S>,
    ) -> (ReaderSeat<S>, AuditEnd)
        requires limit { connection.old.left ≤ self.now.pace.max_reads }
        ensures later { IsLater seat result.0 }
        ensures greets { Greets S.settings.cluster S.opening.held.me connection.old.output connection.new.output }
        ensures reads { connection.new.steps ≤ connection.old.steps + self.now.pace.max_reads }
    {
        let mut handler = AuditHandler::new(self.rt, self.alloc, self.directory, seat);
        let session = session_of(self.directory);
        // How it ended does not matter: what came was compared.
        let _ = dial(connection, session, &mut handler, EXCHANGES_MOST);
        handler.into_parts()
    }
}

/// An audit over the connection to a peer, which may be idle for the node's `dial_idle`, and what came of it. Its reads are the
/// first of a ledger.
fn audit_stream<S: RoundsTag, H: Wait + Drop, Q: Wait, K: Ledger>(
    node: &NodeContext<S, H, Q>,
    stream: &UnixStream,
    seat: ReaderSeat<S>,
    blank: Blank,
) -> (ReaderSeat<S>, AuditEnd)
    requires name { blank.name ≡ K.name }
    requires parts { blank.parts ≡ K.parts }
    requires some { 0 < blank.parts }
    ensures { IsLater seat result.0 }
{
    let max_reads = node.pace.max_reads;
    let steps = Steps::<K>::new(blank);
    let mut connection = Connection::new(node.alloc, stream, stream, max_reads, steps);
    let (seat, end) = node.audit_on(&mut connection, seat);
    let _ = connection.into_parts();
    (seat, end)
}

/// An audit of the peer at this path, and what came of it.
fn audit_peer<S: RoundsTag, H: Wait + Drop, Q: Wait + Net>(
    node: &NodeContext<S, H, Q>,
    path: &str,
    seat: ReaderSeat<S>,
) -> (ReaderSeat<S>, AuditEnd)
    ensures { IsLater seat result.0 }
{
    match reach(node, path) {
        Ok(stream) => audit_stream::<S, H, Q, Brand>(node, &stream, seat, Blank::new(1)),
        Err(_) => {
            let end = AuditEnd {
                is_complete: false,
                found: None,
            };
            (seat, end)
        }
    }
}

impl<O: Observer> Dialing<'_, O> {
    /// Audits the peer at this index, and reports to the observer, once in a run, what the peer holds otherwise than the log.
    fn audit<S: RoundsTag, H: Wait + Drop, Q: Wait + Net>(
        &self,
        node: &NodeContext<S, H, Q>,
        seat: ReaderSeat<S>,
        index: usize,
    ) -> ReaderSeat<S> {
        let path = self.schedule().lock(node.rt).path(index);
        let (seat, end) = audit_peer(node, path, seat);
        if end.is_complete {
            node.counts.add_audit();
            self.audits().lock(node.rt).note_audited(index);
        }
        if let Some(difference) = &end.found {
            if node.counts.note_difference() {
                self.observer().difference_found(path, difference);
            }
        }
        seat
    }

    /// Audits the peer at this index, which answered, unless it was audited in this run.
    pub(crate) fn audit_first<S: RoundsTag, H: Wait + Drop, Q: Wait + Net>(
        &self,
        node: &NodeContext<S, H, Q>,
        seat: ReaderSeat<S>,
        index: usize,
    ) -> ReaderSeat<S> {
        let begins = self.audits().lock(node.rt).begin_first(index);
        if begins {
            self.audit(node, seat, index)
        } else {
            seat
        }
    }

    /// Audits the next peer that answers, if that is due.
    pub(crate) fn audit_in_turn<S: RoundsTag, H: Wait + Drop, Q: Wait + Net + Clock>(
        &self,
        node: &NodeContext<S, H, Q>,
        seat: ReaderSeat<S>,
    ) -> ReaderSeat<S> {
        let due = self.audits().lock(node.rt).take_due(node.rt);
        let Some(turn) = due else {
            return seat;
        };
        let next = self.schedule().lock(node.rt).next_answering(turn);
        let Some(index) = next else {
            return seat;
        };
        self.audits().lock(node.rt).pass(index);
        self.audit(node, seat, index)
    }
}
