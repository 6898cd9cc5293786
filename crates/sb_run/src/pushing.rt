//! A push: it brings a peer news for which the peer did not ask.
ghost use Rattle.std.specs.Prelude.{◌≡◌, ◌+◌, ◌<◌, ◌≤◌, true, false, None, IfSome, IfErr};
ghost use Rattle.sb_directory.specs.Serving.{IsStill};
ghost use Rattle.sb_session.specs.Pushes.{Pushes};
ghost use Rattle.sb_session.specs.Sessions.{new_session};
ghost use Rattle.sb_run.specs.News as spec;
ghost use Rattle.sb_run.specs.Turns as turns;

use crate::dialer::RoundsTag;
use crate::dialing::{PeerReader, reach};
use crate::peers::{DownReason, PeerState};
use crate::pool::session_of;
use crate::threads::NodeContext;
use sb_budget::Backlog;
use sb_directory::ReaderSeat;
use sb_frames::{Connection, Steps};
use sb_session::{PushEnd, push};
use sb_types::{BLOCK_HEAD_MOST, Delta, ENTRY_LENGTH_MOST, Fault, HEADER_LENGTH};
use std::io::{Read, Write};
use std::marker::{Brand, PhantomData};
use std::net::Net;
use std::os::unix::net::UnixStream;
use std::sync::Wait;
use std::sync::ledger::{Blank, Ledger};

/// How many bytes of a delta are pushed in any case. More are pushed if the node's own digests are longer.
const PUSH_LENGTH: u64 = 1_024;

/// The length of a frame's header, and of the longest item that a delta can have beside its others.
const NEXT_LENGTH_MOST: u64 = HEADER_LENGTH + BLOCK_HEAD_MOST + ENTRY_LENGTH_MOST;

/// What the node holds of some owners above their versions.
#[derive(Drop)]
pub(crate) struct News<S: RoundsTag> {
    delta: Delta,
    of: PhantomData<S>,
    /// It answers some digest.
    ghost answered: { ∥ spec.IsAnswered S.opening S.settings delta ∥₁ },
}

/// News that may be pushed. Only `NodeContext::fit_news` makes it, and nothing else is pushed.
#[derive(Drop)]
pub(crate) struct FitNews<S: RoundsTag> {
    news: News<S>,
    /// Of how many owners it is news.
    owners: usize,
    /// How many bytes the payloads of the node's own digests have.
    digests: u64,
    ghost fits: { spec.can_push news.delta owners digests S.settings.budget ≡ true },
}

/// Whether a delta of so many bytes is pushed: it is short, or no longer than the node's own digests. Its frame also has room
/// for one more entry within the budget, so nothing was cut off. A round brings any other.
fn fits_push(length: u64, digests: u64, budget: u64) -> bool
    ensures { result ≡ spec.fits_push length digests budget }
{
    let is_short = length <= PUSH_LENGTH || length <= digests;
    is_short && NEXT_LENGTH_MOST <= budget && length <= budget - NEXT_LENGTH_MOST
}

impl<S: RoundsTag> News<S> {
    /// Whether it has a block of each of so many owners. One whose log was purged above what the peer has is left out.
    fn is_of_all(&self, owners: usize) -> bool
        ensures { result ≡ spec.are_of_all owners self.now.delta }
    {
        self.delta.blocks().len() == owners
    }
}

impl<S: RoundsTag> FitNews<S> {
    /// How many bytes its frame has.
    pub(crate) fn frame_length(&self) -> u64 {
        self.news
            .delta
            .encoded_length()
            .saturating_add(HEADER_LENGTH)
    }
}

impl<S: RoundsTag, H: Wait + Drop, Q: Wait> NodeContext<'_, S, H, Q> {
    /// What the node holds above the versions of a backlog. `NoMemory`.
    pub(crate) fn news(&self, seat: &mut ReaderSeat<S>, backlog: &Backlog) -> Result<News<S>, Fault>
        ensures still { IsStill seat.old seat.new }
        ensures memory { IfErr result (λ fault. fault ≡ Fault.NoMemory) }
    {
        let delta = self.directory.news(self.rt, seat, backlog)?;
        Ok(News {
            delta,
            of: PhantomData,
        })
    }

    /// Whether news of so many owners is pushed by a node whose own digests have so many bytes.
    fn can_push(&self, news: &News<S>, owners: usize, digests: u64) -> bool
        ensures { result ≡ spec.can_push news.now.delta owners digests S.settings.budget }
    {
        let budget = self.directory.settings().budget();
        news.is_of_all(owners) && fits_push(news.delta.encoded_length(), digests, budget)
    }

    /// News of so many owners, if a node pushes it whose own digests have so many bytes.
    pub(crate) fn fit_news(&self, news: News<S>, owners: usize, digests: u64) -> Option<FitNews<S>>
        ensures some { IfSome result (λ fit. fit.news.delta ≡ news.delta) }
        ensures none { result ≡ None → spec.can_push news.delta owners digests S.settings.budget ≡ false }
    {
        if self.can_push(&news, owners, digests) {
            Some(FitNews {
                news,
                owners,
                digests,
            })
        } else {
            None
        }
    }

    /// Pushes news over a connection. It writes the node's Hello, the news and a Bye, and makes at most the node's `max_reads`
    /// reads.
    fn push_on<I: Read, O: Write, K: Ledger>(
        &self,
        connection: &mut Connection<I, O, K>,
        news: FitNews<S>,
    ) -> Result<PushEnd, Fault>
        requires limit { connection.old.left ≤ self.now.pace.max_reads }
        ensures pushes { Pushes (new_session S.settings.cluster S.opening.held.me) news.news.delta connection.old connection.new result }
        ensures reads { connection.new.steps ≤ connection.old.steps + self.now.pace.max_reads }
    {
        let FitNews {
            news,
            owners: _,
            digests: _,
        } = news;
        let News { delta, of: _ } = news;
        push(connection, session_of(self.directory), delta)
    }
}

/// How a peer is by a push that ended so: whether any byte of it came, and whether the last read waited for too long.
fn state_of_push(pushed: &Result<PushEnd, Fault>, was_heard: bool, was_silent: bool) -> PeerState
    ensures { result ≡ turns.state_of_push pushed.now was_heard was_silent }
{
    match pushed {
        Ok(PushEnd::AfterHello) => PeerState::Answers,
        Ok(PushEnd::BeforeHello) => PeerState::Down(DownReason::EndedEarly),
        Err(fault) => PeerState::of(&Err(*fault), was_heard, was_silent),
    }
}

/// Pushes news over the connection to a peer, which may be idle for the node's `dial_idle`, and how the peer is by it. Its reads
/// are the first of a ledger.
fn push_stream<S: RoundsTag, H: Wait + Drop, Q: Wait, K: Ledger>(
    node: &NodeContext<S, H, Q>,
    stream: &UnixStream,
    news: FitNews<S>,
    blank: Blank,
) -> PeerState
    requires name { blank.name ≡ K.name }
    requires parts { blank.parts ≡ K.parts }
    requires some { 0 < blank.parts }
{
    let max_reads = node.pace.max_reads;
    let steps = Steps::<K>::new(blank);
    let reader = PeerReader::new(stream);
    let mut connection = Connection::new(node.alloc, reader, stream, max_reads, steps);
    let pushed = node.push_on(&mut connection, news);
    let (reader, _) = connection.into_parts();
    state_of_push(&pushed, reader.was_heard(), reader.was_silent())
}

/// Pushes news to the peer at a path, and how the peer is by it.
pub(crate) fn push_peer<S: RoundsTag, H: Wait + Drop, Q: Wait + Net>(
    node: &NodeContext<S, H, Q>,
    path: &str,
    news: FitNews<S>,
) -> PeerState {
    match reach(node, path) {
        Ok(stream) => push_stream::<S, H, Q, Brand>(node, &stream, news, Blank::new(1)),
        Err(_) => PeerState::Down(DownReason::Unreachable),
    }
}
