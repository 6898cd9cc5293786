//! How far a watch has printed each owner, and how far its node has shown it.
ghost use Rattle.std.specs.Prelude.{◌≡◌, map, OnOk, IfErr};
ghost use Rattle.std.specs.List.{list_any};
ghost use Rattle.sb_commands.specs.Keeping as spec;

use sb_codec::Row;
use sb_listing::RowChange;
use sb_types::{Fault, Name};

/// How far one owner was printed, and how far the node has shown it.
#[derive(Clone, Copy)]
pub(crate) struct OwnerReach {
    pub(crate) owner: Name,
    /// The greatest version that the node has shown since it was started.
    pub(crate) shown: u64,
    /// The greatest version that the watch has printed. A row that is gone counts as one version more.
    pub(crate) printed: u64,
    /// The greatest version of a row that the watch has printed as gone.
    pub(crate) gone: u64,
    /// The same at the last start of the node.
    pub(crate) gone_before: u64,
}

impl OwnerReach {
    /// Of this one and another one of the same owner, the greater versions.
    fn farther(&self, other: &OwnerReach) -> OwnerReach
        ensures { result ≡ spec.farther self.now other.now }
    {
        OwnerReach {
            owner: self.owner,
            shown: self.shown.max(other.shown),
            printed: self.printed.max(other.printed),
            gone: self.gone.max(other.gone),
            gone_before: self.gone_before.max(other.gone_before),
        }
    }

    /// Raises this one, if the other is of the same owner.
    fn raise(&mut self, other: &OwnerReach)
        ensures { self.new ≡ spec.raised other.now self.old }
    {
        if self.owner == other.owner {
            *self = self.farther(other);
        }
    }

    /// The node was started again, and has shown nothing since. What went until then does not come back.
    fn forget_shown(&mut self)
        ensures { self.new ≡ spec.unshown self.old }
    {
        self.shown = 0;
        self.gone_before = self.gone;
    }
}

/// Whether an owner is among these.
fn has_owner(reaches: &[OwnerReach], owner: &Name) -> bool
    ensures { result ≡ list_any (spec.is_of owner.now) reaches.now }
{
    reaches.iter().any(|reach| reach.owner == *owner)
}

/// Raises what is noted of an owner.
fn raise_all(reaches: &mut [OwnerReach], found: &OwnerReach)
    ensures { reaches.new ≡ map (spec.raised found.now) reaches.old }
{
    for reach in reaches.iter_mut() {
        reach.raise(found);
    }
}

/// Notes how far an owner was printed or shown. `NoMemory`.
fn enter(reaches: &mut Vec<OwnerReach>, found: &OwnerReach) -> Result<(), Fault>
    ensures entered { OnOk result (reaches.new.items ≡ spec.entered reaches.old.items found.now) }
    ensures memory { IfErr result (λ fault. fault ≡ Fault.NoMemory) }
{
    if has_owner(reaches, &found.owner) {
        raise_all(reaches, found);
    } else {
        reaches.push(*found)?;
    }
    Ok(())
}

/// The node was started again, so it has shown nothing yet.
pub(crate) fn forget_shown(reaches: &mut [OwnerReach])
    ensures { reaches.new ≡ map spec.unshown reaches.old }
{
    for reach in reaches.iter_mut() {
        reach.forget_shown();
    }
}

/// Gathers what comes of one owner, since rows come by owner. Enters it when another owner comes. `NoMemory`.
fn gather(
    reaches: &mut Vec<OwnerReach>,
    last: Option<OwnerReach>,
    next: OwnerReach,
) -> Result<Option<OwnerReach>, Fault> {
    let Some(before) = last else {
        return Ok(Some(next));
    };
    if before.owner == next.owner {
        return Ok(Some(before.farther(&next)));
    }
    enter(reaches, &before)?;
    Ok(Some(next))
}

/// Enters what was gathered of the last owner. `NoMemory`.
fn enter_last(reaches: &mut Vec<OwnerReach>, last: Option<OwnerReach>) -> Result<(), Fault> {
    match last {
        Some(last) => enter(reaches, &last),
        None => Ok(()),
    }
}

/// What a row in a listing shows.
fn shown_by(row: &Row) -> OwnerReach {
    OwnerReach {
        owner: *row.owner(),
        shown: row.version(),
        printed: 0,
        gone: 0,
        gone_before: 0,
    }
}

/// What a change prints. A row is gone by a later write of its owner, which the node then holds.
fn printed_by(change: &RowChange<'_>) -> OwnerReach {
    match change {
        RowChange::Set(row) => OwnerReach {
            owner: *row.owner(),
            shown: 0,
            printed: row.version(),
            gone: 0,
            gone_before: 0,
        },
        RowChange::Gone(row) => {
            let removed = row.version().saturating_add(1);
            OwnerReach {
                owner: *row.owner(),
                shown: removed,
                printed: removed,
                gone: row.version(),
                gone_before: 0,
            }
        }
    }
}

/// Notes what a listing shows of each owner. `NoMemory`.
pub(crate) fn enter_shown(reaches: &mut Vec<OwnerReach>, rows: &[Row]) -> Result<(), Fault> {
    let mut last = None;
    for row in rows {
        last = gather(reaches, last, shown_by(row))?;
    }
    enter_last(reaches, last)
}

/// Notes what is printed of each owner. `NoMemory`.
pub(crate) fn enter_printed(
    reaches: &mut Vec<OwnerReach>,
    changes: &[RowChange<'_>],
) -> Result<(), Fault> {
    let mut last = None;
    for change in changes {
        last = gather(reaches, last, printed_by(change))?;
    }
    enter_last(reaches, last)
}
