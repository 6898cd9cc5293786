//! The answer to the question how a node is.
ghost use Rattle.std.specs.Prelude.{◌≡◌, true, vec_len, IfOk, IfErr};
ghost use Rattle.sb_codec.specs.Limits.{is_identity};
ghost use Rattle.sb_views.specs.Histories.{node_after};
ghost use Rattle.sb_query.specs.Statuses as pages;
ghost use Rattle.sb_views.specs.NodeViews.{upto_of};
ghost use Rattle.sb_directory.specs.Serving.{IsStill};
ghost use Rattle.sb_run.specs.Control.{IsAgesReply};
ghost use Rattle.sb_run.specs.Entering.{IsLooking};
ghost use Rattle.sb_run.specs.Facts.{figures_of};
ghost use Rattle.sb_run.specs.StatusReplies as spec;
ghost use Rattle.sb_run.specs.StatusReplies.{identity_of, IsCounted, IsShownUpTo, IsStatusReply};

use crate::control::refused_by;
use crate::control_socket::owners_at_zero;
use crate::dialer::{Dialing, RoundsTag};
use crate::facts::Facts;
use crate::observer::Observer;
use crate::schedule::PeersReport;
use crate::status_texts::short_text;
use crate::threads::NodeContext;
use sb_codec::{Ages, AskStatus, Message, NodeIdentity, NodeStatus};
use sb_control::LogCause;
use sb_directory::ReaderSeat;
use sb_query::status_page;
use sb_types::{Fault, Name, Settings};
use sb_views::Snapshot;
use std::sync::Wait;
use std::time::Clock;

/// What a directory reports of its node.
#[derive(Drop)]
struct NodeCounts {
    /// How many keys of its own the node has.
    keys: u64,
    conflict: Option<u64>,
    /// The owners that it holds at version 0.
    at_zero: Vec<Name>,
}

/// What a node reports of what it holds.
#[derive(Clone, Copy)]
struct HeldCounts {
    /// The last version of its own, and how many keys and how many rows it has.
    version: u64,
    keys: u64,
    rows: u64,
    /// How many owners it holds, itself included.
    owners: u64,
    conflict: Option<u64>,
}

/// How many rows the node of this name has, and how many owners it holds. These are the shown ones, those at version 0, and itself.
fn count_rows_and_owners(snapshot: &Snapshot<'_>, me: &Name, at_zero: &[Name]) -> (u64, u64) {
    let mut rows: u64 = 0;
    let mut owners: u64 = 1;
    for (owner, view) in snapshot.owners() {
        if owner == me {
            rows = view.len() as u64;
        } else {
            owners = owners.saturating_add(1);
        }
    }
    for owner in at_zero {
        let is_unshown = owner != me && snapshot.upto(owner) == 0;
        owners = owners.saturating_add(u64::from(is_unshown));
    }
    (rows, owners)
}

/// Adds what a snapshot shows of the node of this name.
fn held_counts(counts: &NodeCounts, snapshot: &Snapshot<'_>, me: &Name) -> HeldCounts
    ensures version { result.version ≡ upto_of snapshot.now me.now }
    ensures counts { (result.keys ≡ counts.now.keys) × (result.conflict ≡ counts.now.conflict) }
{
    let (rows, owners) = count_rows_and_owners(snapshot, me, &counts.at_zero);
    HeldCounts {
        version: snapshot.upto(me),
        keys: counts.keys,
        rows,
        owners,
        conflict: counts.conflict,
    }
}

/// Who the node of this name is, as its status says it.
fn node_identity(name: &Name, settings: &Settings, release: &str) -> NodeIdentity
    ensures identity { result ≡ identity_of name.now settings.now.cluster (spec.short_text release.now) }
    // Each part is short, so a page has room for all figures beside it.
    ensures limits { is_identity result ≡ true }
{
    // Only this call says that a name is within its limits.
    let _ = name.bytes();
    NodeIdentity {
        node: *name,
        cluster: settings.cluster(),
        release: short_text(release),
    }
}

impl<S: RoundsTag, H: Wait + Drop, Q: Wait + Clock> NodeContext<'_, S, H, Q> {
    /// What the directory reports of its node. `NoMemory`.
    fn node_counts(&self, seat: &mut ReaderSeat<S>) -> Result<NodeCounts, Fault>
        ensures conflict { IfOk result (λ counts. counts.conflict ≡ (node_after S.opening seat.new.last_call).conflict) }
        ensures keys { IfOk result (λ counts. IsCounted S.opening seat.new.last_call counts.keys) }
        ensures memory { IfErr result (λ fault. fault ≡ Fault.NoMemory) }
        ensures still { IsStill seat.old seat.new }
    {
        let keys = self.directory.key_count(self.rt, seat) as u64;
        let at_zero = owners_at_zero(self, seat)?;
        let conflict = self.directory.conflict(self.rt, seat);
        Ok(NodeCounts {
            keys,
            conflict,
            at_zero,
        })
    }

    /// What the node reports of what it holds. `NoMemory`, also if the seat cannot enter.
    fn count_held(&self, seat: ReaderSeat<S>) -> (ReaderSeat<S>, Result<HeldCounts, Fault>)
        ensures conflict { IfOk result.1 (λ held. held.conflict ≡ (node_after S.opening result.0.last_call).conflict) }
        ensures keys { IfOk result.1 (λ held. IsCounted S.opening result.0.last_call held.keys) }
        ensures version { IfOk result.1 (λ held. IsShownUpTo S.opening result.0.seen held.version) }
        ensures memory { IfErr result.1 (λ fault. fault ≡ Fault.NoMemory) }
        ensures looks { IsLooking seat result.0 }
    {
        let mut seat = seat;
        let counts = match self.node_counts(&mut seat) {
            Ok(counts) => counts,
            Err(fault) => return (seat, Err(fault)),
        };
        match seat.enter() {
            Ok(entered) => {
                let held = held_counts(&counts, &entered.snapshot(), self.directory.name());
                (entered.leave(), Ok(held))
            }
            Err(seat) => (seat, Err(Fault::NoMemory)),
        }
    }

    /// All that the node reports of itself: of what it holds, of its peers, why its log takes no writes, and what its threads counted.
    fn facts(&self, held: &HeldCounts, report: &PeersReport, log_cause: Option<LogCause>) -> Facts
        ensures held { (result.version ≡ held.now.version) × (result.keys ≡ held.now.keys) × (result.conflict ≡ held.now.conflict) }
        ensures rows { (result.rows ≡ held.now.rows) × (result.owners ≡ held.now.owners) }
        ensures rounds { result.rounds ≡ report.now.counts }
        ensures workers { result.workers ≡ S.settings.workers }
        ensures peers { (result.peers ≡ vec_len report.now.peers) × (result.is_caught_up ≡ report.now.is_caught_up) }
        ensures log { result.log_cause ≡ log_cause }
    {
        let uptime = self.counts.uptime(self.rt);
        Facts {
            uptime,
            is_caught_up: report.is_caught_up,
            log_cause,
            conflict: held.conflict,
            version: held.version,
            keys: held.keys,
            rows: held.rows,
            owners: held.owners,
            peers: report.peers.len() as u64,
            rounds: report.counts,
            sessions: self.counts.sessions(),
            workers: self.directory.settings().workers(),
            workers_busy: self.counts.busy_workers(),
            troubles: self
                .counts
                .troubles(uptime, self.reported_versions.falls(self.rt)),
        }
    }

    /// The page of a status with these facts, for a node of this release. `NoMemory`.
    fn page_with(
        &self,
        facts: &Facts,
        report: &PeersReport,
        release: &str,
        asked: &AskStatus,
    ) -> Result<NodeStatus, Fault>
        ensures page { IfOk result (λ page. page ≡ pages.status_page (identity_of S.opening.held.me S.settings.cluster (spec.short_text release.now)) (figures_of facts.now)
            report.now.peers.items asked.now S.settings.budget) }
        ensures memory { IfErr result (λ fault. fault ≡ Fault.NoMemory) }
    {
        let settings = self.directory.settings();
        let identity = node_identity(self.directory.name(), settings, release);
        let figures = facts.figures(self.alloc)?;
        status_page(
            self.alloc,
            identity,
            figures,
            &report.peers,
            asked.after(),
            settings.budget(),
        )
    }

    /// The answer to an AskStatus: a page of the status of the node, or the fault that it met.
    pub(crate) fn reply_to_ask_status<O: Observer>(
        &self,
        dialing: &Dialing<'_, O>,
        asked: &AskStatus,
        seat: ReaderSeat<S>,
    ) -> (ReaderSeat<S>, Message)
        ensures { IsStatusReply S.opening S.settings seat asked.now result.0 result.1 }
    {
        let report = match dialing.schedule().lock(self.rt).peers_report(self.alloc) {
            Ok(report) => report,
            Err(fault) => return (seat, refused_by(fault)),
        };
        let (seat, counted) = self.count_held(seat);
        let held = match counted {
            Ok(held) => held,
            Err(fault) => return (seat, refused_by(fault)),
        };
        let facts = self.facts(&held, &report, self.counts.log_cause());
        match self.page_with(&facts, &report, dialing.observer().release(), asked) {
            Ok(page) => (seat, Message::NodeStatus(page)),
            Err(fault) => (seat, refused_by(fault)),
        }
    }

    /// How long ago each owner was heard. `NoMemory`.
    pub(crate) fn ages(&self) -> Result<Ages, Fault>
        ensures { IfErr result (λ fault. fault ≡ Fault.NoMemory) }
    {
        let ages = self.heard.ages(self.rt)?;
        match Ages::new(ages) {
            Ok(ages) => Ok(ages),
            Err(_) => Err(Fault::NoMemory),
        }
    }

    /// The answer to an AskAges: how long ago each owner was heard, or that there is no memory for it.
    pub(crate) fn reply_to_ask_ages(&self) -> Message
        ensures { IsAgesReply result }
    {
        match self.ages() {
            Ok(ages) => Message::Ages(ages),
            Err(_) => refused_by(Fault::NoMemory),
        }
    }
}
