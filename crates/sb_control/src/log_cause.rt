//! Why a node takes no more writes into its log.
ghost use Rattle.std.specs.Prelude.{◌≡◌};
ghost use Rattle.sb_control.specs.LogCauses as spec;

use sb_log::StoreCause;
use std::fmt;

/// How the file of a log was lost while its node runs.
#[derive(Clone, Copy, Debug, PartialEq, Eq)]
pub enum LogLoss {
    /// At its path there is no file any more.
    Removed,
    /// At its path there is another file.
    Replaced,
}

/// Why a node takes no more writes into its log.
#[derive(Clone, Copy, Debug, PartialEq, Eq)]
pub enum LogCause {
    /// The store of the log failed.
    Store(StoreCause),
    /// The file of the log was lost, so the next start would not find a write.
    Lost(LogLoss),
}

impl LogCause {
    /// Its number, 1 to 9.
    pub fn number(self) -> u64
        ensures { result ≡ spec.number_of_cause self }
    {
        match self {
            LogCause::Store(cause) => cause.number(),
            LogCause::Lost(LogLoss::Removed) => 8,
            LogCause::Lost(LogLoss::Replaced) => 9,
        }
    }

    /// The cause of this number; none if there is no such cause.
    pub fn from_number(number: u64) -> Option<LogCause>
        ensures { result ≡ spec.log_cause_numbered number }
    {
        match number {
            8 => Some(LogCause::Lost(LogLoss::Removed)),
            9 => Some(LogCause::Lost(LogLoss::Replaced)),
            _ => Some(LogCause::Store(StoreCause::from_number(number)?)),
        }
    }

    /// Its name in one word, for programs.
    pub fn name(self) -> &'static str {
        match self {
            LogCause::Store(cause) => cause.name(),
            LogCause::Lost(LogLoss::Removed) => "removed",
            LogCause::Lost(LogLoss::Replaced) => "replaced",
        }
    }
}

impl fmt::Display for LogCause {
    fn fmt<W: fmt::Write>(&self, f: &mut fmt::Formatter<W>) -> fmt::Result {
        match self {
            LogCause::Store(cause) => write!(f, "{cause}"),
            LogCause::Lost(LogLoss::Removed) => f.write_str("its file was removed"),
            LogCause::Lost(LogLoss::Replaced) => f.write_str("its file was replaced"),
        }
    }
}
