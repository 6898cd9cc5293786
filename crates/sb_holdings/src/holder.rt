//! What is held of one owner: the shown table, and perhaps a stage that will replace it.
ghost use Rattle.std.specs.Prelude.{◌≡◌, ℕ, ◌≤◌, ◌<◌, max, true, false, List, [], OnOk, OnErr, IfErr, None, Some, IfSome, IsSomeAnd, take};
ghost use Rattle.std.specs.Option.{option_copied, option_map};
ghost use Rattle.sb_types.specs.Runs.{IsRun, newer_entries, live_entries, are_ascending, are_distinct};
ghost use Rattle.sb_table.specs.Plain.{is_full_for, with_entry};
ghost use Rattle.sb_table.specs.Floors.{IsKeptTable, IsKeptStage, table_at_floor, stage_with_entry};
ghost use Rattle.sb_holdings.specs.Held.{empty_holder, is_nothing};
ghost use Rattle.sb_holdings.specs.Plain.{table_holder, with_entries, IsKeptHolder};
ghost use Rattle.sb_holdings.specs.Shown.{stage_beyond, own_purged};
ghost use Rattle.sb_holdings.specs.Stages.{new_stage, stage_for};
ghost use Rattle.sb_holdings.specs.Taken.{holder_after_block};
ghost use Rattle.sb_holdings.specs.Ends.{Enters, entered_count};
ghost use Rattle.sb_holdings.specs.Holders.{unnamed_block, FitsHolder, FitsStage, FillsStage, GoesOn, table_after_end, stage_after_end, stage_with_entries, shown_taken, is_due, with_stage, shown_stage, Settles, staged_by, goes_on_with, may_begin};

use crate::ends::BlockEnd;
use sb_table::{Stage, Table, entries_above};
use sb_types::{Entry, Fault, SharedEntry};
use std::alloc::Global;
use std::marker::Model;

/// What is held of one owner: the shown table, and perhaps a stage whose floor is above the table's held version.
#[derive(Drop)]
pub struct Holder {
    shown: Table,
    stage: Option<Stage>,
}

impl Model for Holder {
    ghost use Rattle.sb_types.specs.Records as records;
    ghost use Rattle.sb_holdings.specs.Plain.{IsKeptHolder};

    ghost Value = { records.Holder };

    ghost view = { λ h. record { shown = h.shown; stage = h.stage } };

    ghost invariant = { λ h. IsKeptHolder (record { shown = h.shown; stage = h.stage }) };
}

impl Holder {
    /// Makes the holder of an unknown owner: an empty table, and no stage. It takes no memory.
    pub(crate) fn nothing(alloc: Global) -> Holder
        ensures nothing { result ≡ empty_holder }
        ensures kept { IsKeptHolder result }
    {
        Holder {
            shown: Table::new(alloc),
            stage: None,
        }
    }

    /// Makes a holder that shows this table, and has no stage. It takes no memory.
    pub(crate) fn alone(shown: Table) -> Holder
        ensures alone { result ≡ table_holder shown }
        ensures kept { IsKeptHolder result }
    {
        // Proof only: the call shows that the table keeps its limits.
        let _ = shown.upto();
        Holder { shown, stage: None }
    }

    /// Returns the shown table.
    pub fn shown(&self) -> &Table
        ensures shown { result.now ≡ self.now.shown }
        ensures kept { IsKeptHolder self.now }
    {
        &self.shown
    }

    /// Returns the floor of the stage and its progress, if there is a stage. The progress is the version up to which
    /// the new table has arrived.
    pub fn staged(&self) -> Option<(u64, u64)>
        ensures staged { result ≡ option_map (λ s. (s.floor, s.progress)) self.now.stage }
        ensures kept { IsKeptHolder self.now }
    {
        let stage = self.stage.as_ref()?;
        Some((stage.floor(), stage.progress()))
    }

    /// Enters an own write, for which there is room, beside no stage. The only fault is `NoMemory`, which leaves
    /// everything as it was.
    pub(crate) fn push(&mut self, entry: Entry) -> Result<(), Fault>
        requires later { self.old.shown.held < entry.version }
        requires room { is_full_for entry.key self.old.shown.entries ≡ false }
        requires alone { self.old.stage ≡ None }
        ensures ok { OnOk result (self.new ≡ table_holder (with_entry self.old.shown entry)) }
        ensures err { OnErr result (self.new ≡ self.old) }
        ensures fault { IfErr result (λ fault. fault ≡ Fault.NoMemory) }
        ensures kept { IsKeptHolder self.new }
    {
        self.shown.push(entry)
    }

    /// Drops the tombstones (markers of removed keys) up to a version of the shown table, which becomes its floor. If
    /// that is not above the present floor, or is above the held version, nothing changes. It takes no memory.
    pub(crate) fn purge(&mut self, floor: u64)
        ensures purged { self.new ≡ own_purged floor self.old }
        ensures kept { IsKeptHolder self.new }
    {
        let (lowest, held) = (self.shown.floor(), self.shown.upto());
        if lowest < floor && floor <= held {
            self.shown.raise(held, floor);
        }
    }

    /// Returns whether nothing is held, not even a version.
    pub(crate) fn is_nothing(&self) -> bool
        ensures nothing { result ≡ is_nothing self.now }
        ensures kept { IsKeptHolder self.now }
    {
        self.shown.upto() == 0
            && self.shown.floor() == 0
            && self.shown.is_empty()
            && self.stage.is_none()
    }

    /// Takes the parts of a block, and returns how it ended. The entries are of versions above `after` and at most
    /// `upto`. Between them an honest block leaves out only superseded writes, and tombstones (the markers of removed
    /// keys) up to `floor`.
    pub(crate) fn take(
        &mut self,
        alloc: Global,
        floor: u64,
        after: u64,
        upto: u64,
        entries: &[SharedEntry],
    ) -> BlockEnd
        requires run { IsRun after upto entries.now }
        requires order { after < upto }
        ensures effect { self.new ≡ holder_after_block self.old (unnamed_block floor after upto entries.now) result }
        ensures end { FitsHolder self.old (unnamed_block floor after upto entries.now) result }
        ensures kept { IsKeptHolder self.new }
    {
        let held = self.shown.upto();
        if floor > held {
            return self.take_staged(alloc, floor, after, upto, entries);
        }
        if upto <= held {
            return BlockEnd::Stale;
        }
        if after > held {
            return BlockEnd::Gap;
        }
        self.take_shown(floor, upto, entries_above(entries, held))
    }

    /// Takes later entries into the shown table. First the table's floor rises.
    fn take_shown(&mut self, floor: u64, upto: u64, new: &[SharedEntry]) -> BlockEnd
        requires run { IsRun self.old.shown.held upto new.now }
        requires floor { floor ≤ self.old.shown.held }
        ensures end { Enters (live_entries (max self.old.shown.floor floor) self.old.shown.entries) new.now result }
        ensures effect { self.new ≡ shown_taken self.old floor upto new.now result }
        ensures kept { IsKeptHolder self.new }
    {
        let end = join(&mut self.shown, floor, upto, new);
        drop_reached(&mut self.stage, self.shown.upto());
        end
    }

    /// Takes the parts of a block whose floor is above the held version.
    fn take_staged(
        &mut self,
        alloc: Global,
        floor: u64,
        after: u64,
        upto: u64,
        entries: &[SharedEntry],
    ) -> BlockEnd
        requires run { IsRun after upto entries.now }
        requires order { after < upto }
        requires beyond { self.old.shown.held < floor }
        ensures effect { self.new ≡ staged_by self.old (unnamed_block floor after upto entries.now) (stage_for self.old.stage (unnamed_block floor after upto entries.now)) result }
        ensures end { FitsStage (stage_for self.old.stage (unnamed_block floor after upto entries.now)) (unnamed_block floor after upto entries.now) result }
        ensures kept { IsKeptHolder self.new }
    {
        if goes_on_with(self.stage.as_ref(), floor, after, upto) {
            return self.go_on(alloc, upto, entries);
        }
        if after == 0 && may_begin(self.stage.as_ref(), floor) {
            return self.begin(alloc, floor, upto, entries);
        }
        BlockEnd::Gap
    }

    /// Takes those of these entries that the stage lacks into the stage.
    fn go_on(&mut self, alloc: Global, upto: u64, entries: &[SharedEntry]) -> BlockEnd
        requires stage { IsSomeAnd self.old.stage (λ s. GoesOn s upto entries.now) }
        ensures effect { self.new ≡ staged_by self.old (unnamed_block 0 0 upto entries.now) self.old.stage result }
        ensures end { IfSome self.old.stage (λ s. FillsStage s upto entries.now result) }
        ensures kept { IsKeptHolder self.new }
    {
        match self.stage.take() {
            Some(mut stage) => {
                let new = entries_above(entries, stage.progress());
                let end = fill(&mut stage, upto, new);
                self.settle(alloc, stage, end)
            }
            None => BlockEnd::Gap,
        }
    }

    /// Begins a stage with these entries, in place of the old stage if there is one. If nothing can be entered, nothing
    /// changes.
    fn begin(&mut self, alloc: Global, floor: u64, upto: u64, entries: &[SharedEntry]) -> BlockEnd
        requires run { IsRun 0 upto entries.now }
        requires more { 0 < upto }
        requires beyond { self.old.shown.held < floor }
        ensures effect { self.new ≡ staged_by self.old (unnamed_block floor 0 upto entries.now) (Some (new_stage floor)) result }
        ensures end { FillsStage (new_stage floor) upto entries.now result }
        ensures kept { IsKeptHolder self.new }
    {
        let _ = &self.shown;
        let mut stage = Stage::new(alloc, floor);
        let end = fill(&mut stage, upto, entries);
        if stage.progress() == 0 {
            return end;
        }
        self.settle(alloc, stage, end)
    }

    /// Keeps the stage; or swaps it in, if all was entered and it has reached its floor.
    fn settle(&mut self, alloc: Global, stage: Stage, end: BlockEnd) -> BlockEnd
        requires stage { IsKeptStage stage }
        requires some { 1 ≤ stage.progress }
        requires beyond { self.old.shown.held < stage.floor }
        ensures end { Settles stage end result }
        ensures effect { self.new ≡ with_stage self.old.shown stage (is_due stage end) result }
        ensures kept { IsKeptHolder self.new }
    {
        match end {
            BlockEnd::Taken(count) if stage.floor() <= stage.progress() => {
                self.show(alloc, stage, count)
            }
            end => {
                self.stage = Some(stage);
                end
            }
        }
    }

    /// Swaps the stage in for the shown table. If there is no memory for that, the shown table stays. The stage is gone
    /// either way.
    fn show(&mut self, alloc: Global, stage: Stage, count: u64) -> BlockEnd
        requires stage { IsKeptStage stage }
        requires beyond { self.old.shown.held < stage.floor }
        requires reach { stage.floor ≤ stage.progress }
        ensures end { Settles stage (BlockEnd.Taken count) result }
        ensures effect { self.new ≡ shown_stage self.old.shown stage result }
        ensures kept { IsKeptHolder self.new }
    {
        self.stage = None;
        match self.shown.swapped(alloc, &stage) {
            Ok(shown) => {
                self.shown = shown;
                BlockEnd::Taken(count)
            }
            Err(_) => BlockEnd::NoMemory(count),
        }
    }
}

/// Returns whether a block with these parts continues the stage that is there.
fn goes_on_with(stage: Option<&Stage>, floor: u64, after: u64, upto: u64) -> bool
    ensures { result ≡ goes_on_with (option_copied stage.entry) (unnamed_block floor after upto []) }
{
    match stage {
        Some(stage) => {
            stage.floor() == floor && after <= stage.progress() && stage.progress() < upto
        }
        None => false,
    }
}

/// Returns whether a new stage of this floor may begin: there is none yet, or one of a lower floor.
fn may_begin(stage: Option<&Stage>, floor: u64) -> bool
    ensures { result ≡ may_begin (option_copied stage.entry) floor }
{
    match stage {
        Some(stage) => stage.floor() < floor,
        None => true,
    }
}

/// Drops the stage if the held version has reached its floor.
fn drop_reached(stage: &mut Option<Stage>, held: u64)
    ensures { stage.new ≡ stage_beyond held stage.old }
{
    let Some(staged) = stage.as_ref() else { return };
    if staged.floor() <= held {
        *stage = None;
    }
}

/// Raises the table's floor, and enters later entries. If all were entered, the held version rises to `upto`.
fn join(shown: &mut Table, floor: u64, upto: u64, new: &[SharedEntry]) -> BlockEnd
    requires run { IsRun shown.old.held upto new.now }
    requires floor { floor ≤ shown.old.held }
    ensures end { Enters (live_entries (max shown.old.floor floor) shown.old.entries) new.now result }
    ensures effect { shown.new ≡ table_after_end (table_at_floor shown.old.held (max shown.old.floor floor) shown.old) upto new.now result }
    ensures table { IsKeptTable shown.new }
{
    let held = shown.upto();
    let floor = shown.floor().max(floor);
    shown.raise(held, floor);
    match enter_shown(shown, new) {
        BlockEnd::Taken(count) => {
            shown.raise(upto, floor);
            BlockEnd::Taken(count)
        }
        end => end,
    }
}

/// Enters later entries. If all were entered, the stage's progress rises to `upto`.
fn fill(stage: &mut Stage, upto: u64, new: &[SharedEntry]) -> BlockEnd
    requires stage { IsKeptStage stage.old }
    requires run { IsRun stage.old.progress upto new.now }
    ensures end { Enters stage.old.entries new.now result }
    ensures effect { stage.new ≡ stage_after_end stage.old upto new.now result }
    ensures stage { IsKeptStage stage.new }
{
    match enter_staged(stage, new) {
        BlockEnd::Taken(count) => {
            stage.raise(upto);
            BlockEnd::Taken(count)
        }
        end => end,
    }
}

/// Enters the same later entry, for which there is room. The only fault is `NoMemory`, which leaves the table as it was.
fn push_shown(shown: &mut Table, entry: &SharedEntry) -> Result<(), Fault>
    requires later { shown.old.held < entry.now.version }
    requires room { is_full_for entry.now.key shown.old.entries ≡ false }
    ensures ok { OnOk result (shown.new ≡ with_entry shown.old entry.now) }
    ensures err { OnErr result (shown.new ≡ shown.old) }
    ensures fault { IfErr result (λ fault. fault ≡ Fault.NoMemory) }
    ensures table { OnOk result (IsKeptTable shown.new) }
{
    shown.push_shared(entry)
}

/// Enters the same later entries one by one, until there is no room for the next one.
fn enter_shown(shown: &mut Table, entries: &[SharedEntry]) -> BlockEnd
    requires table { IsKeptTable shown.old }
    requires later { are_ascending shown.old.held entries.now ≡ true }
    requires distinct { are_distinct entries.now ≡ true }
    ensures end { Enters shown.old.entries entries.now result }
    ensures effect { shown.new ≡ with_entries shown.old (take (entered_count result) entries.now) }
    ensures table { IsKeptTable shown.new }
{
    for (count, entry) in entries.iter().enumerate() {
        if shown.is_full_for(entry.key()) {
            return BlockEnd::TooManyKeys(count as u64);
        }
        if push_shown(shown, entry).is_err() {
            return BlockEnd::NoMemory(count as u64);
        }
    }
    BlockEnd::Taken(entries.len() as u64)
}

/// Enters the same later entry, for which there is room. The only fault is `NoMemory`, which leaves the stage as it was.
fn push_staged(stage: &mut Stage, entry: &SharedEntry) -> Result<(), Fault>
    requires later { stage.old.progress < entry.now.version }
    requires room { is_full_for entry.now.key stage.old.entries ≡ false }
    ensures ok { OnOk result (stage.new ≡ stage_with_entry stage.old entry.now) }
    ensures err { OnErr result (stage.new ≡ stage.old) }
    ensures fault { IfErr result (λ fault. fault ≡ Fault.NoMemory) }
    ensures stage { OnOk result (IsKeptStage stage.new) }
{
    stage.push_shared(entry)
}

/// Enters the same later entries one by one, until there is no room for the next one.
fn enter_staged(stage: &mut Stage, entries: &[SharedEntry]) -> BlockEnd
    requires stage { IsKeptStage stage.old }
    requires later { are_ascending stage.old.progress entries.now ≡ true }
    requires distinct { are_distinct entries.now ≡ true }
    ensures end { Enters stage.old.entries entries.now result }
    ensures effect { stage.new ≡ stage_with_entries stage.old (take (entered_count result) entries.now) }
    ensures stage { IsKeptStage stage.new }
{
    for (number, entry) in entries.iter().enumerate() {
        if stage.is_full_for(entry.key()) {
            return BlockEnd::TooManyKeys(number as u64);
        }
        if push_staged(stage, entry).is_err() {
            return BlockEnd::NoMemory(number as u64);
        }
    }
    BlockEnd::Taken(entries.len() as u64)
}
