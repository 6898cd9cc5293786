//! What a node reports of itself in numbers.
ghost use Rattle.std.specs.Prelude.{◌≡◌, ◌++◌, OnOk, IfOk, IfErr};
ghost use Rattle.sb_run.specs.Facts as spec;

use crate::observer::Troubles;
use crate::schedule::RoundCounts;
use sb_codec::{Figure, FigureKind};
use sb_control::LogCause;
use sb_types::Fault;
use std::alloc::Global;

/// What a node reports of itself in numbers.
#[derive(Clone, Copy)]
pub(crate) struct Facts {
    /// For how long it runs, in milliseconds.
    pub(crate) uptime: u64,
    pub(crate) is_caught_up: bool,
    pub(crate) log_cause: Option<LogCause>,
    pub(crate) conflict: Option<u64>,
    /// How far its own table reaches, and how many keys and how many rows that has.
    pub(crate) version: u64,
    pub(crate) keys: u64,
    pub(crate) rows: u64,
    /// How many owners it holds, itself included.
    pub(crate) owners: u64,
    pub(crate) peers: u64,
    pub(crate) rounds: RoundCounts,
    pub(crate) sessions: u64,
    pub(crate) workers: u64,
    pub(crate) workers_busy: u64,
    pub(crate) troubles: Troubles,
}

/// The number of the cause for which a log takes no writes, 0 if it takes them.
fn log_fault(cause: Option<LogCause>) -> u64
    ensures { result ≡ spec.log_fault cause }
{
    match cause {
        Some(cause) => cause.number(),
        None => 0,
    }
}

impl Facts {
    /// The figures of the node itself: how it is, and what it has. `NoMemory`.
    fn add_own(&self, figures: &mut Vec<Figure>) -> Result<(), Fault>
        ensures added { OnOk result (figures.new.items ≡ figures.old.items ++ spec.own_figures self.now) }
        ensures memory { IfErr result (λ fault. fault ≡ Fault.NoMemory) }
    {
        let own = [
            Figure::new(FigureKind::Uptime, self.uptime),
            Figure::new(FigureKind::CaughtUp, u64::from(self.is_caught_up)),
            Figure::new(FigureKind::LogFault, log_fault(self.log_cause)),
            Figure::new(FigureKind::Conflict, self.conflict.unwrap_or(0)),
            Figure::new(FigureKind::Version, self.version),
            Figure::new(FigureKind::Keys, self.keys),
            Figure::new(FigureKind::Removals, self.keys.saturating_sub(self.rows)),
            Figure::new(FigureKind::Owners, self.owners),
        ];
        figures.extend_from_slice(&own)?;
        Ok(())
    }

    /// The figures of its peers and its workers. `NoMemory`.
    fn add_course(&self, figures: &mut Vec<Figure>) -> Result<(), Fault>
        ensures added { OnOk result (figures.new.items ≡ figures.old.items ++ spec.course_figures self.now) }
        ensures memory { IfErr result (λ fault. fault ≡ Fault.NoMemory) }
    {
        let course = [
            Figure::new(FigureKind::Peers, self.peers),
            Figure::new(FigureKind::Rounds, self.rounds.ended),
            Figure::new(FigureKind::RoundFaults, self.rounds.faults),
            Figure::new(FigureKind::Sessions, self.sessions),
            Figure::new(FigureKind::Workers, self.workers),
            Figure::new(FigureKind::WorkersBusy, self.workers_busy),
        ];
        figures.extend_from_slice(&course)?;
        Ok(())
    }

    /// The figures of what it suffered. `NoMemory`.
    fn add_troubles(&self, figures: &mut Vec<Figure>) -> Result<(), Fault>
        ensures added { OnOk result (figures.new.items ≡ figures.old.items ++ spec.trouble_figures self.now) }
        ensures memory { IfErr result (λ fault. fault ≡ Fault.NoMemory) }
    {
        let troubles = &self.troubles;
        let suffered = [
            Figure::new(FigureKind::AllWorkersBusy, troubles.busy_times),
            Figure::new(FigureKind::SessionFaults, troubles.session_faults),
            Figure::new(FigureKind::LastSessionFault, troubles.last_session_fault),
            Figure::new(FigureKind::OtherVersions, troubles.other_versions),
            Figure::new(FigureKind::TurnedAway, troubles.turned_away),
            Figure::new(FigureKind::FullWrites, troubles.full_writes),
        ];
        figures.extend_from_slice(&suffered)?;
        Ok(())
    }

    /// All figures, in ascending order of their numbers. `NoMemory`.
    pub(crate) fn figures(&self, alloc: Global) -> Result<Vec<Figure>, Fault>
        ensures figures { IfOk result (λ figures. figures.items ≡ spec.figures_of self.now) }
        ensures memory { IfErr result (λ fault. fault ≡ Fault.NoMemory) }
    {
        let mut figures = Vec::with_capacity(alloc, 20)?;
        self.add_own(&mut figures)?;
        self.add_course(&mut figures)?;
        self.add_troubles(&mut figures)?;
        Ok(figures)
    }
}
