//! What a watch reports if its node, started again, does not show as much as was printed.
use crate::keeping::is_outdated;
use crate::reaches::OwnerReach;
use sb_codec::Row;
use sb_listing::{RowChange, changes};
use sb_types::{Fault, Name};
use std::alloc::Global;
use std::time::{Clock, Duration, Instant};

/// After how many seconds the watch reports that rows differ. Most nodes hear of all owners sooner.
const SILENT_SECONDS: u64 = 10;

/// The owners whose printed rows differ from those that a node shows.
#[derive(Clone, Copy)]
pub(crate) struct DifferingOwners {
    count: usize,
    first: Name,
}

fn owner_of<'a>(change: &RowChange<'a>) -> &'a Name {
    match change {
        RowChange::Set(row) | RowChange::Gone(row) => row.owner(),
    }
}

/// Whether the node has shown less of the owner since its start than was printed, or shows a row that is outdated.
fn is_behind(reaches: &[OwnerReach], difference: &RowChange<'_>) -> bool {
    let owner = owner_of(difference);
    let shows_less = reaches.iter().any(|reach| reach.owner == *owner
        && reach.shown < reach.printed);
    match difference {
        RowChange::Set(row) => shows_less || is_outdated(reaches, row),
        RowChange::Gone(_) => shows_less,
    }
}

/// The owners of these differences, without those that the node has shown as far as they were printed, and with no outdated row. The
/// differences ascend by owner.
fn owners_behind(differences: &[RowChange<'_>], reaches: &[OwnerReach]) -> Option<DifferingOwners> {
    let mut found: Option<DifferingOwners> = None;
    let mut last = None;
    for difference in differences {
        let owner = *owner_of(difference);
        if last != Some(owner) && is_behind(reaches, difference) {
            last = Some(owner);
            found = Some(match found {
                Some(before) => DifferingOwners {
                    count: before.count.saturating_add(1),
                    first: before.first,
                },
                None => DifferingOwners {
                    count: 1,
                    first: owner,
                },
            });
        }
    }
    found
}

/// The owners whose printed rows differ from a listing. An owner counts only if more of it was printed than the node has shown,
/// or if the listing has outdated rows of it. `NoMemory`.
pub(crate) fn differing_owners(
    alloc: Global,
    printed: &[Row],
    found: &[Row],
    reaches: &[OwnerReach],
) -> Result<Option<DifferingOwners>, Fault> {
    if !reaches.iter().any(|reach| reach.shown < reach.printed || reach.gone_before > 0) {
        return Ok(None);
    }
    let differences = changes(alloc, printed, found)?;
    Ok(owners_behind(&differences, reaches))
}

/// Since when a node shows other rows than were printed, and whether the watch has reported it.
#[derive(Clone, Copy)]
pub(crate) struct Lag {
    since: Option<Instant>,
    is_reported: bool,
}

impl Lag {
    /// The node was just started.
    pub(crate) fn new() -> Lag {
        Lag {
            since: None,
            is_reported: false,
        }
    }

    /// Prints that the node shows other rows than were printed, once that has been so for 10 seconds, and that it no longer does.
    pub(crate) fn report(
        &mut self,
        rt: &HostRuntime,
        control: &str,
        differing: Option<DifferingOwners>,
    ) {
        let Some(differing) = differing else {
            self.end(rt, control);
            return;
        };
        let Ok(now) = Instant::now(rt) else {
            return;
        };
        let since = *self.since.get_or_insert(now);
        if !self.is_reported && is_over(since, now) {
            self.is_reported = true;
            let first = str::from_utf8(differing.first.bytes()).unwrap_or("");
            let _ = eprintln!(rt;
                "attrdir: warning control socket {control}: since its start the node has shown less of {} owners than was printed, the first is {first}; their printed rows stay; if an owner has a new log, start the watch again",
                differing.count
            );
        }
    }

    /// The node shows the rows that were printed.
    fn end(&mut self, rt: &HostRuntime, control: &str) {
        if self.is_reported {
            let _ = eprintln!(rt;
                "attrdir: info control socket {control}: the node shows again what was printed"
            );
        }
        *self = Lag::new();
    }
}

/// Whether so many seconds have passed.
fn is_over(since: Instant, now: Instant) -> bool {
    match since.checked_add(Duration::from_secs(SILENT_SECONDS)) {
        Some(end) => end <= now,
        None => false,
    }
}
