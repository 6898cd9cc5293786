//! What is measured, and its line.
use crate::plan::Telling;
use crate::problem::Problem;
use std::io;
use std::time::{CpuClock, Duration};

const NANOS_IN_SECOND: u128 = 1_000_000_000;

/// The processor time of this thread since `start`.
pub(crate) fn spent_since<R: CpuClock>(rt: &R, start: Duration) -> io::Result<Duration> {
    Ok(rt.thread_cpu_time()?.saturating_sub(start))
}

/// How long something took, and how many units it had.
#[derive(Clone, Copy, Debug)]
pub(crate) struct Measured {
    spent: Duration,
    units: u64,
}

impl Measured {
    /// Nothing yet.
    pub(crate) const NOTHING: Measured = Measured {
        spent: Duration::ZERO,
        units: 0,
    };

    pub(crate) fn new(spent: Duration, units: u64) -> Measured {
        Measured { spent, units }
    }

    /// How many units there were.
    pub(crate) fn units(&self) -> u64 {
        self.units
    }

    /// Adds another measurement.
    pub(crate) fn add(&mut self, other: Measured) {
        self.spent = self.spent.saturating_add(other.spent);
        self.units = self.units.saturating_add(other.units);
    }

    /// The time of a unit, in nanoseconds.
    pub(crate) fn nanos(&self) -> u128 {
        self.spent.as_nanos() / u128::from(self.units.max(1))
    }

    /// The number of units in a second.
    pub(crate) fn rate(&self) -> u128 {
        u128::from(self.units).saturating_mul(NANOS_IN_SECOND) / self.spent.as_nanos().max(1)
    }
}

/// Prints a line with the number of units.
pub(crate) fn tell_count<R: Print>(
    rt: &R,
    name: &str,
    count: u64,
    unit: &str,
) -> Result<(), Problem> {
    Ok(println!(rt; "{name} {count} {unit}")?)
}

/// Prints a line with what was measured, unless that failed.
pub(crate) fn tell<R: Print>(
    rt: &R,
    telling: Telling,
    measured: Result<Measured, Problem>,
    name: &str,
    unit: &str,
) -> Result<(), Problem> {
    let measured = measured?;
    match telling {
        Telling::Times => Ok(println!(rt; "{name} {} ns/{unit}", measured.nanos())?),
        Telling::Counts => tell_count(rt, name, measured.units, unit),
    }
}
