//! The metrics of a node, in the text format of Prometheus.
use crate::release::{FRAMES, LOGS, RELEASE};
use sb_run::{Peer, PeerState, Status};
use sb_types::{KEYS_MOST, Name, OWNERS_MOST};
use sb_views::OwnerView;
use std::{fmt, str};

/// How the node of this name is, in the text format of Prometheus.
#[derive(Clone, Copy)]
pub(crate) struct Metrics<'a, 's> {
    pub(crate) name: &'a str,
    pub(crate) status: &'a Status<'s>,
    /// When the node was started, in seconds since 1970.
    pub(crate) started: u64,
    pub(crate) series: Series,
}

/// Which of the metrics that grow with the cluster the file has.
#[derive(Clone, Copy)]
pub(crate) struct Series {
    /// Those of each owner.
    pub(crate) has_owners: bool,
    /// Those of each peer.
    pub(crate) has_peers: bool,
}

/// A metric: its name, its type, and what it says.
#[derive(Clone, Copy)]
struct Metric {
    name: &'static str,
    kind: &'static str,
    help: &'static str,
}

const BUILD_INFO: Metric = Metric {
    name: "attrdir_build_info",
    kind: "gauge",
    help: "1, with the release, the version of frames and the form of logs.",
};

const START_TIME: Metric = Metric {
    name: "attrdir_start_time_seconds",
    kind: "gauge",
    help: "When the node was started, in seconds since 1970.",
};

const ROUNDS: Metric = Metric {
    name: "attrdir_rounds_total",
    kind: "counter",
    help: "Rounds that the node made.",
};

const FAULTS: Metric = Metric {
    name: "attrdir_round_faults_total",
    kind: "counter",
    help: "Rounds that had a fault.",
};

const PUSHES: Metric = Metric {
    name: "attrdir_pushes_total",
    kind: "counter",
    help: "Pushes of news that it made to peers. They are not rounds.",
};

const PUSH_FAULTS: Metric = Metric {
    name: "attrdir_push_faults_total",
    kind: "counter",
    help: "Pushes that had a fault.",
};

const PUSHED_BYTES: Metric = Metric {
    name: "attrdir_pushed_bytes_total",
    kind: "counter",
    help: "Bytes of news that peers took from its pushes.",
};

const GAPS: Metric = Metric {
    name: "attrdir_gaps_total",
    kind: "counter",
    help: "Deltas with writes after ones that it lacks, in sessions that other nodes dialed.",
};

const HASTENED_ROUNDS: Metric = Metric {
    name: "attrdir_hastened_rounds_total",
    kind: "counter",
    help: "Rounds in turn that it made before their time because of such a delta.",
};

const SESSIONS: Metric = Metric {
    name: "attrdir_sessions_total",
    kind: "counter",
    help: "Connections of peers that it took.",
};

const SESSION_FAULTS: Metric = Metric {
    name: "attrdir_session_faults_total",
    kind: "counter",
    help: "Sessions that other nodes dialed and that ended with a fault.",
};

const OTHER_VERSIONS: Metric = Metric {
    name: "attrdir_other_versions_total",
    kind: "counter",
    help: "Frames of another version that it refused.",
};

const TURNED_AWAY: Metric = Metric {
    name: "attrdir_turned_away_total",
    kind: "counter",
    help: "Connections that it closed to make room for others, and times that it could accept none.",
};

const WORKERS: Metric = Metric {
    name: "attrdir_workers",
    kind: "gauge",
    help: "Workers that serve its peers.",
};

const WORKERS_BUSY: Metric = Metric {
    name: "attrdir_workers_busy",
    kind: "gauge",
    help: "Workers that serve a peer or answer a question.",
};

const BUSY_TIMES: Metric = Metric {
    name: "attrdir_all_workers_busy_total",
    kind: "counter",
    help: "Times that all workers were busy for longer than a second.",
};

const PURGES: Metric = Metric {
    name: "attrdir_purges_total",
    kind: "counter",
    help: "Times that it purged its own table while it runs.",
};

const AUDITS: Metric = Metric {
    name: "attrdir_audits_total",
    kind: "counter",
    help: "Times that it compared all that a peer holds of its own name with its log.",
};

const LOG_OPEN: Metric = Metric {
    name: "attrdir_log_open",
    kind: "gauge",
    help: "1 if its log takes writes, else 0.",
};

const LOG_FAULT: Metric = Metric {
    name: "attrdir_log_fault",
    kind: "gauge",
    help: "1, with the cause, once the store of its log failed.",
};

const NAME_CONFLICT: Metric = Metric {
    name: "attrdir_name_conflict",
    kind: "gauge",
    help: "1 if another node writes under its name, else 0.",
};

const VERSION_FALLS: Metric = Metric {
    name: "attrdir_version_falls_total",
    kind: "counter",
    help: "Digests of other nodes with a version of themselves below one that they reported long before.",
};

const CAUGHT_UP: Metric = Metric {
    name: "attrdir_caught_up",
    kind: "gauge",
    help: "1 if each of its peers has had a round that ended since it started, else 0.",
};

const KEYS: Metric = Metric {
    name: "attrdir_keys",
    kind: "gauge",
    help: "Keys of its own, removed ones counted.",
};

const KEYS_LIMIT: Metric = Metric {
    name: "attrdir_keys_limit",
    kind: "gauge",
    help: "The most keys of an owner.",
};

const REMOVALS: Metric = Metric {
    name: "attrdir_removals",
    kind: "gauge",
    help: "Removed keys of its own that count until they are purged.",
};

const FULL_WRITES: Metric = Metric {
    name: "attrdir_full_writes_total",
    kind: "counter",
    help: "Writes that it refused because it has the most keys.",
};

const OWNERS: Metric = Metric {
    name: "attrdir_owners",
    kind: "gauge",
    help: "Owners that it holds, itself counted.",
};

const OWNERS_LIMIT: Metric = Metric {
    name: "attrdir_owners_limit",
    kind: "gauge",
    help: "The most owners that a node holds.",
};

const HELD_VERSION: Metric = Metric {
    name: "attrdir_held_version",
    kind: "gauge",
    help: "The version up to which it holds an owner.",
};

const OWNER_AGE: Metric = Metric {
    name: "attrdir_owner_age_seconds",
    kind: "gauge",
    help: "How long ago the version rose up to which it holds an owner.",
};

const ROWS: Metric = Metric {
    name: "attrdir_rows",
    kind: "gauge",
    help: "Rows of an owner, without removed ones.",
};

const PEER_UP: Metric = Metric {
    name: "attrdir_peer_up",
    kind: "gauge",
    help: "1 if the last round with a peer was made to its end, else 0.",
};

const PEER_FAULT: Metric = Metric {
    name: "attrdir_peer_fault",
    kind: "gauge",
    help: "The number of the fault by which a peer does not answer or refuses, 0 for none.",
};

const PEER_ROUNDS_SINCE: Metric = Metric {
    name: "attrdir_peer_rounds_since",
    kind: "gauge",
    help: "Rounds that were made since the last one with a peer.",
};

/// A text as a label has it: the backslash, the double quote and the end of a line are spelled by two signs.
#[derive(Clone, Copy)]
struct Label<'a>(&'a str);

impl fmt::Display for Label<'_> {
    fn fmt<W: fmt::Write>(&self, f: &mut fmt::Formatter<W>) -> fmt::Result {
        for sign in self.0.chars() {
            match sign {
                '\\' => f.write_str("\\\\")?,
                '"' => f.write_str("\\\"")?,
                '\n' => f.write_str("\\n")?,
                other => f.write_char(other)?,
            }
        }
        Ok(())
    }
}

/// The letters of a name, which are all of ASCII.
fn text_of(name: &Name) -> &str {
    str::from_utf8(name.bytes()).unwrap_or("")
}

/// The lines above the values of a metric.
fn write_head<W: fmt::Write>(f: &mut fmt::Formatter<W>, metric: &Metric) -> fmt::Result {
    writeln!(f, "# HELP {} {}", metric.name, metric.help)?;
    writeln!(f, "# TYPE {} {}", metric.name, metric.kind)
}

/// Whether one of these peers has this path.
fn is_among(peers: &[Peer<'_>], path: &str) -> bool {
    for peer in peers {
        if peer.path() == path {
            return true;
        }
    }
    false
}

/// What the file has of an owner.
#[derive(Clone, Copy)]
enum OfOwner {
    HeldVersion,
    Rows,
}

impl OfOwner {
    fn metric(self) -> Metric {
        match self {
            OfOwner::HeldVersion => HELD_VERSION,
            OfOwner::Rows => ROWS,
        }
    }

    fn value(self, view: &OwnerView) -> u64 {
        match self {
            OfOwner::HeldVersion => view.upto(),
            OfOwner::Rows => view.len() as u64,
        }
    }
}

/// What the file has of a peer.
#[derive(Clone, Copy)]
enum OfPeer {
    Up,
    Fault,
    RoundsSince,
}

impl OfPeer {
    fn metric(self) -> Metric {
        match self {
            OfPeer::Up => PEER_UP,
            OfPeer::Fault => PEER_FAULT,
            OfPeer::RoundsSince => PEER_ROUNDS_SINCE,
        }
    }

    /// Its value after so many rounds.
    fn value(self, peer: &Peer<'_>, rounds: u64) -> u64 {
        match (self, peer.state()) {
            (OfPeer::Up, PeerState::Answers) => 1,
            (OfPeer::Up, _) => 0,
            (OfPeer::Fault, state) => state.number() as u64,
            (OfPeer::RoundsSince, _) => rounds.saturating_sub(peer.round()),
        }
    }
}

impl Metrics<'_, '_> {
    /// How many owners the node holds, itself counted, which it holds also if it wrote nothing.
    pub(crate) fn owners(&self) -> usize {
        let mut count: usize = 1;
        for (owner, _) in self.status.snapshot.owners() {
            count = count.saturating_add(usize::from(!self.is_node(owner)));
        }
        for owner in self.status.owners_at_zero {
            let is_other = !self.is_node(owner) && !self.is_shown(owner);
            count = count.saturating_add(usize::from(is_other));
        }
        count
    }

    /// Whether the owner is the node itself.
    fn is_node(&self, owner: &Name) -> bool {
        owner.bytes() == self.name.as_bytes()
    }

    /// Whether the snapshot shows the owner.
    fn is_shown(&self, owner: &Name) -> bool {
        self.status.snapshot.upto(owner) != 0
    }

    /// A metric of the node.
    fn write_one<W: fmt::Write>(
        &self,
        f: &mut fmt::Formatter<W>,
        metric: &Metric,
        value: u64,
    ) -> fmt::Result {
        write_head(f, metric)?;
        writeln!(f, "{}{{node=\"{}\"}} {value}", metric.name, self.name)
    }

    /// Which release the node runs.
    fn write_release<W: fmt::Write>(&self, f: &mut fmt::Formatter<W>) -> fmt::Result {
        write_head(f, &BUILD_INFO)?;
        let (name, node) = (BUILD_INFO.name, self.name);
        write!(f, "{name}{{node=\"{node}\",version=\"{RELEASE}\",")?;
        writeln!(f, "frames=\"{FRAMES}\",logs=\"{LOGS}\"}} 1")
    }

    /// Why its log takes no writes, once that is so.
    fn write_log_fault<W: fmt::Write>(&self, f: &mut fmt::Formatter<W>) -> fmt::Result {
        write_head(f, &LOG_FAULT)?;
        let Some(cause) = self.status.log_cause else {
            return Ok(());
        };
        let (name, node, cause) = (LOG_FAULT.name, self.name, cause.name());
        writeln!(f, "{name}{{node=\"{node}\",cause=\"{cause}\"}} 1")
    }

    /// What the node pushed to its peers, and what came of what others pushed.
    fn write_pushes<W: fmt::Write>(&self, f: &mut fmt::Formatter<W>) -> fmt::Result {
        let pushes = &self.status.pushes;
        self.write_one(f, &PUSHES, pushes.made)?;
        self.write_one(f, &PUSH_FAULTS, pushes.faults)?;
        self.write_one(f, &PUSHED_BYTES, pushes.bytes)?;
        self.write_one(f, &GAPS, pushes.gaps)?;
        self.write_one(f, &HASTENED_ROUNDS, pushes.hastened_rounds)
    }

    /// What the node has done and suffered since it started, and whether it takes writes.
    fn write_course<W: fmt::Write>(&self, f: &mut fmt::Formatter<W>) -> fmt::Result {
        let (status, troubles) = (self.status, &self.status.troubles);
        self.write_one(f, &START_TIME, self.started)?;
        self.write_one(f, &ROUNDS, status.rounds)?;
        self.write_one(f, &FAULTS, status.faults)?;
        self.write_pushes(f)?;
        self.write_one(f, &SESSIONS, status.sessions)?;
        self.write_one(f, &SESSION_FAULTS, troubles.session_faults)?;
        self.write_one(f, &OTHER_VERSIONS, troubles.other_versions)?;
        self.write_one(f, &TURNED_AWAY, troubles.turned_away)?;
        self.write_one(f, &WORKERS, status.workers)?;
        self.write_one(f, &WORKERS_BUSY, status.busy_workers)?;
        self.write_one(f, &BUSY_TIMES, troubles.busy_times)?;
        self.write_one(f, &PURGES, status.purges)?;
        self.write_one(f, &AUDITS, status.audits)?;
        self.write_one(f, &LOG_OPEN, u64::from(status.log_cause.is_none()))?;
        self.write_log_fault(f)?;
        self.write_one(f, &NAME_CONFLICT, u64::from(status.conflict.is_some()))?;
        self.write_one(f, &VERSION_FALLS, troubles.version_falls)?;
        self.write_one(f, &CAUGHT_UP, u64::from(status.is_caught_up))
    }

    /// How many of its own keys are removed: those without a row in the snapshot.
    fn removals(&self) -> u64 {
        let mut rows: usize = 0;
        for (owner, view) in self.status.snapshot.owners() {
            if self.is_node(owner) {
                rows = view.len();
            }
        }
        self.status.keys.saturating_sub(rows) as u64
    }

    /// How much of what it may have it has.
    fn write_room<W: fmt::Write>(&self, f: &mut fmt::Formatter<W>) -> fmt::Result {
        self.write_one(f, &KEYS, self.status.keys as u64)?;
        self.write_one(f, &KEYS_LIMIT, KEYS_MOST as u64)?;
        self.write_one(f, &REMOVALS, self.removals())?;
        self.write_one(f, &FULL_WRITES, self.status.troubles.full_writes)?;
        self.write_one(f, &OWNERS, self.owners() as u64)?;
        self.write_one(f, &OWNERS_LIMIT, OWNERS_MOST as u64)
    }

    /// A metric of an owner.
    fn write_of_owner<W: fmt::Write>(
        &self,
        f: &mut fmt::Formatter<W>,
        metric: &Metric,
        owner: &Name,
        value: u64,
    ) -> fmt::Result {
        let (name, node, owner) = (metric.name, self.name, text_of(owner));
        writeln!(f, "{name}{{node=\"{node}\",owner=\"{owner}\"}} {value}")
    }

    /// A metric of each owner: those that the snapshot shows, and then those that it does not, which are held at version 0.
    fn write_owners<W: fmt::Write>(&self, f: &mut fmt::Formatter<W>, what: OfOwner) -> fmt::Result {
        let metric = what.metric();
        write_head(f, &metric)?;
        for (owner, view) in self.status.snapshot.owners() {
            self.write_of_owner(f, &metric, owner, what.value(view))?;
        }
        for owner in self.status.owners_at_zero {
            if !self.is_shown(owner) {
                self.write_of_owner(f, &metric, owner, 0)?;
            }
        }
        Ok(())
    }

    /// How long ago each owner was heard.
    fn write_ages<W: fmt::Write>(&self, f: &mut fmt::Formatter<W>) -> fmt::Result {
        write_head(f, &OWNER_AGE)?;
        let (name, node) = (OWNER_AGE.name, self.name);
        for heard in self.status.ages {
            let (owner, age) = (text_of(&heard.owner), heard.age);
            let (seconds, rest) = (age / 1_000, age % 1_000);
            writeln!(
                f,
                "{name}{{node=\"{node}\",owner=\"{owner}\"}} {seconds}.{rest:03}"
            )?;
        }
        Ok(())
    }

    /// A metric of each peer. One that is dialed twice has the values of its first place: no two lines may have the same labels.
    fn write_peers<W: fmt::Write>(&self, f: &mut fmt::Formatter<W>, what: OfPeer) -> fmt::Result {
        let (metric, node, peers) = (what.metric(), self.name, self.status.peers);
        write_head(f, &metric)?;
        for (at, peer) in peers.iter().enumerate() {
            if !is_among(peers.get(..at).unwrap_or(&[]), peer.path()) {
                let (name, path) = (metric.name, Label(peer.path()));
                let value = what.value(peer, self.status.rounds);
                writeln!(f, "{name}{{node=\"{node}\",peer=\"{path}\"}} {value}")?;
            }
        }
        Ok(())
    }
}

impl fmt::Display for Metrics<'_, '_> {
    fn fmt<W: fmt::Write>(&self, f: &mut fmt::Formatter<W>) -> fmt::Result {
        self.write_release(f)?;
        self.write_course(f)?;
        self.write_room(f)?;
        if self.series.has_owners {
            self.write_owners(f, OfOwner::HeldVersion)?;
            self.write_owners(f, OfOwner::Rows)?;
            self.write_ages(f)?;
        }
        if self.series.has_peers {
            self.write_peers(f, OfPeer::Up)?;
            self.write_peers(f, OfPeer::Fault)?;
            self.write_peers(f, OfPeer::RoundsSince)?;
        }
        Ok(())
    }
}
