//! Which lines a running node prints about what it suffers, and when.
ghost use Rattle.std.specs.Prelude.{◌≡◌};
ghost use Rattle.attrdir.specs.Troubles as spec;

use std::sync::atomic::{AtomicU64, Ordering};

/// After how many milliseconds the next line about the same trouble may come.
const LINE_INTERVAL: u64 = 60_000;

/// How many times a trouble happened that a line is to report at this moment: those since the last line. None if there are none,
/// or if the last line is not a minute old. A moment is in milliseconds since the node started.
fn due(count: u64, printed: u64, printed_at: u64, now: u64) -> Option<u64>
    ensures { result ≡ spec.due count printed printed_at now }
{
    if count <= printed {
        return None;
    }
    if printed == 0 {
        return Some(count);
    }
    if now.saturating_sub(printed_at) < LINE_INTERVAL {
        return None;
    }
    Some(count - printed)
}

/// What was printed about one trouble: a line the first time, and then at most one in a minute.
#[derive(Drop)]
pub(crate) struct TroubleLine {
    /// How many times it had happened when the last line was printed; 0 before the first line.
    printed: AtomicU64,
    printed_at: AtomicU64,
}

impl TroubleLine {
    pub(crate) fn new() -> TroubleLine {
        TroubleLine {
            printed: AtomicU64::new(0),
            printed_at: AtomicU64::new(0),
        }
    }

    /// If a line is to be printed now about a trouble that happened so many times: how many it reports. It then counts as printed.
    pub(crate) fn take(&self, count: u64, now: u64) -> Option<u64> {
        let printed = self.printed.load(Ordering::SeqCst);
        let printed_at = self.printed_at.load(Ordering::SeqCst);
        let reported = due(count, printed, printed_at, now)?;
        self.printed.store(count, Ordering::SeqCst);
        self.printed_at.store(now, Ordering::SeqCst);
        Some(reported)
    }
}

/// What was printed about each trouble.
#[derive(Drop)]
pub(crate) struct TroubleLines {
    pub(crate) session_faults: TroubleLine,
    pub(crate) other_versions: TroubleLine,
    pub(crate) turned_away: TroubleLine,
    pub(crate) full_writes: TroubleLine,
    pub(crate) busy_times: TroubleLine,
}

impl TroubleLines {
    /// Nothing was printed yet.
    pub(crate) fn new() -> TroubleLines {
        TroubleLines {
            session_faults: TroubleLine::new(),
            other_versions: TroubleLine::new(),
            turned_away: TroubleLine::new(),
            full_writes: TroubleLine::new(),
            busy_times: TroubleLine::new(),
        }
    }
}
