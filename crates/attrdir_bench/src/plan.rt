//! With what a run measures.

/// What the lines print: the time that each unit took, or the number of units, which is the same in every run.
#[derive(Clone, Copy, Debug, PartialEq, Eq)]
pub(crate) enum Telling {
    Times,
    Counts,
}

/// How many owners are held, how many keys each has, how often each call is measured, and what the lines print.
#[derive(Clone, Copy, Debug)]
pub(crate) struct Plan {
    pub(crate) owners: u64,
    pub(crate) keys: u64,
    pub(crate) rounds: u64,
    pub(crate) telling: Telling,
}

/// What `smoke` measures the layers with.
pub(crate) const SMALL_LAYERS: Plan = Plan {
    owners: 3,
    keys: 4,
    rounds: 2,
    telling: Telling::Counts,
};

/// What `smoke` measures the readers with.
pub(crate) const SMALL_READERS: Plan = Plan {
    owners: 3,
    keys: 32,
    rounds: 2,
    telling: Telling::Counts,
};

impl Plan {
    /// How many keys a reader looks up in a round.
    pub(crate) fn questions(&self) -> u64 {
        match self.telling {
            Telling::Times => 100_000,
            Telling::Counts => 10,
        }
    }

    /// How many writes are timed until they are shown.
    pub(crate) fn writes(&self) -> u64 {
        match self.telling {
            Telling::Times => 2_000,
            Telling::Counts => 5,
        }
    }
}
