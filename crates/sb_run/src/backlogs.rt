//! What the peers of a node may lack of what it holds.
ghost use Rattle.std.specs.Prelude.{◌≡◌, IfSome, IfErr, slice_get};
ghost use Rattle.sb_run.specs.News as spec;

use sb_budget::Backlog;
use sb_types::Fault;
use std::alloc::Global;

/// The owners of both backlogs, with the version of the first if an owner is in both. None if memory is missing.
fn joined(first: Backlog, second: &Backlog) -> Option<Backlog>
    ensures { IfSome result (λ all. all ≡ spec.joined first second.now) }
{
    let mut all = first;
    for (owner, version) in second.owners() {
        if all.add(*owner, *version).is_err() {
            return None;
        }
    }
    Some(all)
}

/// The same, if there is a first one.
fn joined_if_known(first: Option<Backlog>, second: &Backlog) -> Option<Backlog>
    ensures { spec.IsJoined first second.now result }
{
    match first {
        Some(first) => joined(first, second),
        None => None,
    }
}

/// What a peer may lack of what the node holds.
#[derive(Drop)]
pub(crate) struct PeerBacklog {
    /// Of these owners it may lack what is above their versions, and nothing else. None if nobody knows what it lacks.
    known: Option<Backlog>,
    /// What is news since a round with it began. None if no round with it is under way.
    since_round: Option<Backlog>,
    /// News for it waits until the round with it ends.
    is_awaited: bool,
}

/// What a peer may lack, if that is known.
#[derive(Drop)]
pub(crate) enum Lack {
    /// This, and nothing else.
    Known(Backlog),
    /// Nobody knows it before the round ends that is under way with the peer.
    InRound,
    /// Nobody knows it before another round.
    Unknown,
}

impl PeerBacklog {
    /// Adds news.
    fn add(&mut self, news: &Backlog)
        ensures known { spec.IsJoined self.old.known news.now self.new.known }
        ensures since { spec.IsJoined self.old.since_round news.now self.new.since_round }
        ensures awaited { self.new.is_awaited ≡ self.old.is_awaited }
    {
        self.known = joined_if_known(self.known.take(), news);
        self.since_round = joined_if_known(self.since_round.take(), news);
    }
}

/// What the peers of a node may lack, in the order of the peers.
#[derive(Drop)]
pub(crate) struct Backlogs {
    alloc: Global,
    all: Vec<PeerBacklog>,
}

impl Backlogs {
    /// Nobody knows what so many peers lack. `NoMemory`.
    pub(crate) fn new(alloc: Global, count: usize) -> Result<Backlogs, Fault>
        ensures memory { IfErr result (λ fault. fault ≡ Fault.NoMemory) }
    {
        let mut all = Vec::with_capacity(alloc, count)?;
        for _ in 0..count {
            all.push(PeerBacklog {
                known: None,
                since_round: None,
                is_awaited: false,
            })?;
        }
        Ok(Backlogs { alloc, all })
    }

    /// Adds news, which each peer may lack.
    pub(crate) fn add(&mut self, news: &Backlog) {
        for backlog in &mut self.all {
            backlog.add(news);
        }
    }

    /// Takes what the peer at this index may lack, and takes it to lack nothing from then on. None if nobody knows what it
    /// lacks: then only a round shows it.
    pub(crate) fn take(&mut self, index: usize) -> Option<Backlog>
        ensures taken { IfSome (slice_get self.old.all.items index) (λ before. result ≡ before.known) }
        ensures changes { spec.Changes index spec.with_taken self.old.all.items self.new.all.items }
    {
        let backlog = self.all.get_mut(index)?;
        let known = backlog.known.take()?;
        backlog.known = Some(Backlog::new(self.alloc));
        Some(known)
    }

    /// Whether a round with the peer at this index is under way. If so, its end shows that news for the peer waited for it.
    pub(crate) fn await_round(&mut self, index: usize) -> bool
        ensures under_way { IfSome (slice_get self.old.all.items index) (λ before. result ≡ spec.is_under_way before.since_round) }
        ensures changes { spec.Changes index spec.with_wait self.old.all.items self.new.all.items }
    {
        let Some(backlog) = self.all.get_mut(index) else {
            return false;
        };
        let is_under_way = backlog.since_round.is_some();
        backlog.is_awaited = is_under_way;
        is_under_way
    }

    /// Gives back what was taken, since the peer at this index may still lack it.
    pub(crate) fn give_back(&mut self, index: usize, taken: Backlog)
        ensures { spec.GivesBack index taken self.old.all.items self.new.all.items }
    {
        if let Some(backlog) = self.all.get_mut(index) {
            backlog.known = match backlog.known.take() {
                Some(since) => joined(taken, &since),
                None => None,
            };
        }
    }

    /// Notes that a round with the peer at this index begins.
    pub(crate) fn begin_round(&mut self, index: usize)
        ensures { spec.Changes index spec.with_round self.old.all.items self.new.all.items }
    {
        if let Some(backlog) = self.all.get_mut(index) {
            if backlog.since_round.is_none() {
                backlog.since_round = Some(Backlog::new(self.alloc));
            }
        }
    }

    /// Notes that a round with the peer at this index has ended, and whether all its exchanges were made. Then the peer may lack
    /// only what is news since it began. If two rounds with it are under way, only the first that ends does this. Returns whether
    /// news for the peer waited for it.
    pub(crate) fn end_round(&mut self, index: usize, is_done: bool) -> bool
        ensures awaited { IfSome (slice_get self.old.all.items index) (λ before. result ≡ before.is_awaited) }
        ensures changes { spec.Changes index (spec.after_round is_done) self.old.all.items self.new.all.items }
    {
        let Some(backlog) = self.all.get_mut(index) else {
            return false;
        };
        let since = backlog.since_round.take();
        if is_done && since.is_some() {
            backlog.known = since;
        }
        let was_awaited = backlog.is_awaited;
        backlog.is_awaited = false;
        was_awaited
    }

    /// Notes that nobody knows what the peer at this index lacks.
    pub(crate) fn forget(&mut self, index: usize)
        ensures { spec.Changes index spec.forgotten self.old.all.items self.new.all.items }
    {
        if let Some(backlog) = self.all.get_mut(index) {
            backlog.known = None;
        }
    }
}
