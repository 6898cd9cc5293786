//! What a node reports of itself in numbers.

ghost use Rattle.std.specs.Prelude.{◌≡◌, ◌≢◌, true, IfSome, IfNone};
ghost use Rattle.sb_codec.specs.declared.message.figure.FigureKind as kinds;
ghost use Rattle.sb_codec.specs.Records.{figure_of};
ghost use Rattle.sb_codec.specs.Figures.{number_of, word_of};
ghost use Rattle.sb_codec.specs.Limits.{is_figure};

use sb_types::{BYTE_LENGTH, NUMBER_LENGTH};
use std::marker::Model;

/// A kind of figure. A later release may have more of them.
#[derive(Clone, Copy, Debug, PartialEq, Eq)]
pub enum FigureKind {
    /// How many milliseconds ago the node started.
    Uptime,
    /// 1 if each peer has had a round that ended since the node started, else 0.
    CaughtUp,
    /// The number of the cause for which its log takes no writes, 0 if it takes them.
    LogFault,
    /// The version of a write that another node made under its name, 0 if it saw none.
    Conflict,
    /// The last version of its own.
    Version,
    /// How many keys of its own it has, tombstones (the markers of removed keys) included.
    Keys,
    /// How many of these are tombstones.
    Removals,
    /// How many owners it holds, itself included.
    Owners,
    /// How many peers it dials.
    Peers,
    /// How many rounds it made since it started.
    Rounds,
    /// How many of these rounds had a fault.
    RoundFaults,
    /// How many connections of peers it took since it started.
    Sessions,
    /// How many connections of peers and questions it serves at once.
    Workers,
    /// How many of these workers are busy.
    WorkersBusy,
    /// How many times all workers were busy for longer than a second.
    AllWorkersBusy,
    /// How many sessions that others dialed ended with a fault.
    SessionFaults,
    /// The number of the fault of the last of these sessions, 0 if there was none.
    LastSessionFault,
    /// How many frames of another version came.
    OtherVersions,
    /// How many connections it could not accept, or closed to make room for others.
    TurnedAway,
    /// How many writes it refused because it has as many keys as it may.
    FullWrites,
}

impl FigureKind {
    /// Returns the number of the kind, in messages.
    pub fn number(self) -> u8
        ensures { result ≡ number_of self }
    {
        match self {
            FigureKind::Uptime => 1,
            FigureKind::CaughtUp => 2,
            FigureKind::LogFault => 3,
            FigureKind::Conflict => 4,
            FigureKind::Version => 5,
            FigureKind::Keys => 6,
            FigureKind::Removals => 7,
            FigureKind::Owners => 8,
            FigureKind::Peers => 9,
            FigureKind::Rounds => 10,
            FigureKind::RoundFaults => 11,
            FigureKind::Sessions => 12,
            FigureKind::Workers => 13,
            FigureKind::WorkersBusy => 14,
            FigureKind::AllWorkersBusy => 15,
            FigureKind::SessionFaults => 16,
            FigureKind::LastSessionFault => 17,
            FigureKind::OtherVersions => 18,
            FigureKind::TurnedAway => 19,
            FigureKind::FullWrites => 20,
        }
    }

    /// Returns the kind of a number, and `None` for a number that this release gives no kind.
    pub fn of_number(number: u8) -> Option<FigureKind>
        ensures some { IfSome result (λ kind. number_of kind ≡ number) }
        ensures none { IfNone result ((kind : kinds.FigureKind) → number_of kind ≢ number) }
    {
        Some(match number {
            1 => FigureKind::Uptime,
            2 => FigureKind::CaughtUp,
            3 => FigureKind::LogFault,
            4 => FigureKind::Conflict,
            5 => FigureKind::Version,
            6 => FigureKind::Keys,
            7 => FigureKind::Removals,
            8 => FigureKind::Owners,
            9 => FigureKind::Peers,
            10 => FigureKind::Rounds,
            11 => FigureKind::RoundFaults,
            12 => FigureKind::Sessions,
            13 => FigureKind::Workers,
            14 => FigureKind::WorkersBusy,
            15 => FigureKind::AllWorkersBusy,
            16 => FigureKind::SessionFaults,
            17 => FigureKind::LastSessionFault,
            18 => FigureKind::OtherVersions,
            19 => FigureKind::TurnedAway,
            20 => FigureKind::FullWrites,
            _ => return None,
        })
    }

    /// Returns the word of the kind, in lines and in JSON.
    pub fn word(self) -> &'static str
        ensures { result.now ≡ word_of self }
    {
        match self {
            FigureKind::Uptime => "uptime",
            FigureKind::CaughtUp => "caught_up",
            FigureKind::LogFault => "log_fault",
            FigureKind::Conflict => "conflict",
            FigureKind::Version => "version",
            FigureKind::Keys => "keys",
            FigureKind::Removals => "removals",
            FigureKind::Owners => "owners",
            FigureKind::Peers => "peers",
            FigureKind::Rounds => "rounds",
            FigureKind::RoundFaults => "round_faults",
            FigureKind::Sessions => "sessions",
            FigureKind::Workers => "workers",
            FigureKind::WorkersBusy => "workers_busy",
            FigureKind::AllWorkersBusy => "all_workers_busy",
            FigureKind::SessionFaults => "session_faults",
            FigureKind::LastSessionFault => "last_session_fault",
            FigureKind::OtherVersions => "other_versions",
            FigureKind::TurnedAway => "turned_away",
            FigureKind::FullWrites => "full_writes",
        }
    }
}

/// A figure: the number of its kind, and its value. The kind may be one that this release does not know.
#[derive(Clone, Copy, Debug)]
pub struct Figure {
    pub number: u8,
    pub value: u64,
}

impl Model for Figure {
    ghost use Rattle.std.specs.Prelude.{◌<◌, ◌^◌};
    ghost use Rattle.sb_codec.specs.Records as records;

    ghost Value = { records.Figure };

    ghost view = { λ f. record { number = f.number; value = f.value } };

    ghost invariant = { λ f. (f.number < 256) × (f.value < 2 ^ 64) };

    ghost inverse = { λ f. record { number = f.number; value = f.value } };
}

impl Figure {
    /// Makes the figure of a kind that has this value.
    pub fn new(kind: FigureKind, value: u64) -> Figure
        ensures { result ≡ figure_of (number_of kind) value }
    {
        Figure {
            number: kind.number(),
            value,
        }
    }

    /// Returns the kind, and `None` if this release does not know it.
    pub fn kind(&self) -> Option<FigureKind>
        ensures some { IfSome result (λ kind. number_of kind ≡ self.now.number) }
        ensures none { IfNone result ((kind : kinds.FigureKind) → number_of kind ≢ self.now.number) }
    {
        FigureKind::of_number(self.number)
    }

    /// Returns how many bytes the figure takes in a message: 9.
    pub fn encoded_length(&self) -> u64
        ensures length { result ≡ 9 }
        ensures figure { is_figure self.now ≡ true }
    {
        let _ = &self.number;
        BYTE_LENGTH + NUMBER_LENGTH
    }
}
