//! What a node is set up with before its threads run.
ghost use Rattle.std.specs.Prelude.{◌≡◌, ◌+◌, ◌≤◌, IfErr, vec_len, vec_capacity};

use crate::accepting::Acceptor;
use crate::arrivals::{Asked, Handover, Jobs, Requests, WriteSender, new_handover};
use crate::bell::Bell;
use crate::counts::Counts;
use crate::dialer::{Dialing, RoundsReceiver, RoundsSender, RoundsTag, Turns, rounds_channel};
use crate::first_hearing::FirstHearing;
use crate::heard::HeardTimes;
use crate::http_writes::WriteDesk;
use crate::node::{Beat, Pace, Paths};
use crate::sockets::BoundSockets;
use crate::threads::{EndFlag, Links, NodeContext, ThreadSeats};
use crate::watchers::WatcherCount;
use mio::{Events, Poll};
use sb_directory::Directory;
use sb_handlers::{ForgottenOwners, ReportedVersions, VainOffers};
use sb_types::Fault;
use std::alloc::Global;
use std::sync::{Mutex, Wait};
use std::time::Clock;

/// The channels between the threads of a node, and room for the events of the thread that accepts.
pub(crate) struct Channels<S: RoundsTag> {
    handover: Handover,
    jobs: Jobs,
    requests: Requests,
    rounds_sender: RoundsSender<S>,
    rounds_receiver: RoundsReceiver<S>,
    events: Events,
}

// It is written out, so that a caller does not prove again how each part is dropped.
impl<S: RoundsTag> Drop for Channels<S> {
    fn drop(self) {
        let Channels {
            handover: _handover,
            jobs: _jobs,
            requests: _requests,
            rounds_sender: _rounds_sender,
            rounds_receiver: _rounds_receiver,
            events: _events,
        } = self;
    }
}

impl<S: RoundsTag> Channels<S> {
    /// All channels, with no message in them. The threads that answer over HTTP hand their writes to the last part. `NoMemory`.
    pub(crate) fn new(alloc: Global) -> Result<(Channels<S>, WriteSender), Fault>
        ensures { IfErr result (λ fault. fault ≡ Fault.NoMemory) }
    {
        let (rounds_sender, rounds_receiver) = rounds_channel::<S>(alloc)?;
        let (handover, jobs, requests, write_sender) = new_handover(alloc)?;
        let events = Acceptor::events(alloc)?;
        let channels = Channels {
            handover,
            jobs,
            requests,
            rounds_sender,
            rounds_receiver,
            events,
        };
        Ok((channels, write_sender))
    }

    /// What the threads are given. One accepts what this poll reports, and one dials in these turns.
    pub(crate) fn into_links(self, alloc: Global, poll: Poll, turns: Turns<'_>) -> Links<'_, S> {
        let Channels {
            handover,
            jobs,
            requests,
            rounds_sender,
            rounds_receiver,
            events,
        } = self;
        let acceptor = Acceptor::new(alloc, poll, events, handover);
        let rounds = (rounds_sender, rounds_receiver);
        Links::new(acceptor, jobs, requests, turns, rounds)
    }
}

/// The directory of a node, and the seats of its threads.
#[derive(Drop)]
pub(crate) struct SeatedNode<S: RoundsTag, H: Wait + Drop> {
    pub(crate) directory: Directory<S, H>,
    /// All seats of the directory.
    pub(crate) thread_seats: ThreadSeats<S>,
    ghost workers: { vec_len thread_seats.workers ≡ S.settings.workers },
    ghost all: { vec_len thread_seats.news + vec_len thread_seats.http + (vec_len thread_seats.workers + 2) ≡ S.seats },
    ghost room: { S.seats ≤ vec_capacity thread_seats.news },
    ghost parts: { S.seats ≡ S.parts },
}

impl<S: RoundsTag, H: Wait + Drop> SeatedNode<S, H> {
    /// How many seats are for news.
    pub(crate) fn news_seats(&self) -> usize
        ensures { result ≡ vec_len self.now.thread_seats.news }
    {
        self.thread_seats.news.len()
    }

    /// How many seats are for HTTP.
    pub(crate) fn http_seats(&self) -> usize
        ensures { result ≡ vec_len self.now.thread_seats.http }
    {
        self.thread_seats.http.len()
    }
}

/// What a node notes while it runs.
pub(crate) struct NodeRecords {
    ending: EndFlag,
    counts: Counts,
    asked: Asked,
    vain_offers: VainOffers,
    watchers: WatcherCount,
    heard: HeardTimes,
    reported_versions: ReportedVersions,
}

// It is written out, so that a caller does not prove again how each part is dropped.
impl Drop for NodeRecords {
    fn drop(self) {
        let NodeRecords {
            ending: _ending,
            counts: _counts,
            asked: _asked,
            vain_offers: _vain_offers,
            watchers: _watchers,
            heard: _heard,
            reported_versions: _reported_versions,
        } = self;
    }
}

impl NodeRecords {
    /// Nothing has happened yet.
    pub(crate) fn new<S: RoundsTag, H: Wait + Drop, Q: Clock>(
        rt: &Q,
        alloc: Global,
        directory: &Directory<S, H>,
    ) -> NodeRecords {
        NodeRecords {
            ending: EndFlag::new(),
            counts: Counts::new(rt, directory.settings().workers()),
            asked: Asked::new(),
            vain_offers: VainOffers::new(alloc),
            watchers: WatcherCount::new(),
            heard: HeardTimes::new(rt, alloc, directory.name()),
            reported_versions: ReportedVersions::new(rt, alloc),
        }
    }
}

/// What a node is set up with beside its directory, before it binds its sockets.
#[derive(Drop)]
pub(crate) struct NodeSetup<'p, 'a, O> {
    pub(crate) alloc: Global,
    pub(crate) paths: &'p Paths<'a>,
    pub(crate) dialing: &'p Dialing<'a, O>,
    pub(crate) bell: Bell,
    pub(crate) desk: WriteDesk,
    pub(crate) forgotten: ForgottenOwners,
    pub(crate) hearing: Mutex<FirstHearing>,
    pub(crate) pace: Pace,
    pub(crate) beat: Option<Beat>,
}

impl<O> NodeSetup<'_, '_, O> {
    /// The node with these sockets, which notes what happens in these records.
    pub(crate) fn node<'n, S: RoundsTag, H: Wait + Drop, Q>(
        &'n self,
        rt: &'n Q,
        directory: &'n Directory<S, H>,
        sockets: &'n BoundSockets<'n>,
        records: &'n NodeRecords,
    ) -> NodeContext<'n, S, H, Q>
        requires { self.now.pace.rounds ≡ S.rounds }
        ensures pace { result.pace ≡ self.now.pace }
    {
        NodeContext {
            rt,
            alloc: self.alloc,
            directory,
            sockets,
            ending: &records.ending,
            bell: &self.bell,
            counts: &records.counts,
            asked: &records.asked,
            desk: &self.desk,
            forgotten: &self.forgotten,
            vain_offers: &records.vain_offers,
            hearing: &self.hearing,
            watchers: &records.watchers,
            heard: &records.heard,
            reported_versions: &records.reported_versions,
            pace: self.pace,
            beat: self.beat,
        }
    }
}
