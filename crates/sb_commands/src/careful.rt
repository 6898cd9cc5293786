//! What a careful watch does with the rows of its node. It decides which rows it shows, and shows them as changes, as
//! listings or in a file.
use crate::care::{
    Caution, KeptRow, RowCount, differ_since, drop_due, enter_count, gathering_time, is_over,
    most_of, rows_with,
};
use crate::keeping::copy_of;
use crate::output::print_at_once;
use crate::rendered_file::{FileWrite, RenderedFile};
use sb_codec::Row;
use sb_listing::{add_json_array, changes, print_changes};
use sb_types::Fault;
use std::alloc::Global;
use std::time::{Clock, Instant};

/// How a watch shows rows.
#[derive(Drop)]
pub enum View<'a> {
    /// A line for each change.
    Changes,
    /// All rows as one line of JSON.
    Listings,
    /// A file made from a template, and a line each time that it is written.
    File(RenderedFile<'a>),
}

/// What a careful watch knows.
pub struct CarefulWatch<'a> {
    caution: Caution,
    view: View<'a>,
    /// When it began, if there is a clock.
    start: Option<Instant>,
    kept: Vec<KeptRow>,
    counts: Vec<RowCount>,
    /// Since when the rows to show differ from those that were shown.
    since: Option<u64>,
    /// The rows that were shown last. `None` if none were shown yet.
    shown: Option<Vec<Row>>,
    /// Whether it has reported that it holds rows back.
    holds_back: bool,
}

// It is written out, so that a caller does not prove again how each part is dropped.
impl Drop for CarefulWatch<'_> {
    fn drop(self) {
        let CarefulWatch {
            caution: _,
            view: _view,
            start: _,
            kept: _kept,
            counts: _counts,
            since: _,
            shown: _shown,
            holds_back: _,
        } = self;
    }
}

/// A copy of these rows. `NoMemory`.
fn rows_of(alloc: Global, kept: &[KeptRow]) -> Result<Vec<Row>, Fault> {
    let mut rows = Vec::new(alloc);
    for one in kept {
        rows.push(copy_of(alloc, &one.row)?)?;
    }
    Ok(rows)
}

/// The line of a listing: an array with an object for each row. `NoMemory`.
fn listing_line(alloc: Global, rows: &[Row]) -> Result<Vec<u8>, Fault> {
    let mut line = Vec::new(alloc);
    add_json_array(alloc, &mut line, rows)?;
    line.push(b'\n')?;
    Ok(line)
}

/// Prints what changed from the rows that were shown before. `NoMemory`; `WriteFailed`.
fn print_changed(rt: &HostRuntime, before: &[Row], rows: &[Row]) -> Result<(), Fault> {
    let found = changes(rt.alloc(), before, rows)?;
    let (printed, _) = print_changes(rt.alloc(), &mut rt.stdout(), &found);
    printed
}

/// Writes the file, and prints the number of its rows if it was written. Returns whether it has the rows. `NoMemory`;
/// `WriteFailed`.
fn print_written(
    rt: &HostRuntime,
    file: &mut RenderedFile<'_>,
    now: u64,
    rows: &[Row],
) -> Result<bool, Fault> {
    match file.write(rt, now, rows)? {
        FileWrite::Failed => Ok(false),
        FileWrite::Same => Ok(true),
        FileWrite::Written => match println!(rt; "written {}", rows.len()) {
            Ok(()) => Ok(true),
            Err(_) => Err(Fault::WriteFailed(0)),
        },
    }
}

/// The rows that were shown, none if none were shown yet.
fn rows_or_none(shown: &Option<Vec<Row>>) -> &[Row] {
    match shown {
        Some(rows) => rows.as_slice(),
        None => &[],
    }
}

impl<'a> CarefulWatch<'a> {
    pub fn new(rt: &HostRuntime, caution: Caution, view: View<'a>) -> CarefulWatch<'a> {
        CarefulWatch {
            caution,
            view,
            start: Instant::now(rt).ok(),
            kept: Vec::new(rt.alloc()),
            counts: Vec::new(rt.alloc()),
            since: None,
            shown: None,
            holds_back: false,
        }
    }

    /// How many milliseconds the watch runs, 0 if there is no clock.
    fn now(&self, rt: &HostRuntime) -> u64 {
        match (self.start, Instant::now(rt)) {
            (Some(start), Ok(now)) => {
                u64::try_from(now.saturating_duration_since(start).as_millis()).unwrap_or(u64::MAX)
            }
            _ => 0,
        }
    }

    /// Reports that rows are held back, and that none are any more.
    fn tell(&mut self, rt: &HostRuntime, control: &str, count: usize, most: usize) {
        if (count > 0) == self.holds_back {
            return;
        }
        self.holds_back = count > 0;
        let floor = self.caution.floor;
        let _ = if count > 0 {
            eprintln!(rt;
                "attrdir: warning control socket {control}: rows that went stay, {count} so far: without them fewer than {floor} % would be left of the {most} rows of the last hour"
            )
        } else {
            eprintln!(rt; "attrdir: info control socket {control}: no row is held back any more")
        };
    }

    /// Whether the rows differ from those that were shown. At first they do once there is one. `NoMemory`.
    fn differs(&self, alloc: Global, rows: &[Row]) -> Result<bool, Fault> {
        match &self.shown {
            Some(shown) => Ok(!changes(alloc, shown, rows)?.is_empty()),
            None => Ok(!rows.is_empty()),
        }
    }

    /// Shows these rows. Returns whether they are shown. `NoMemory`; `WriteFailed`.
    fn show(&mut self, rt: &HostRuntime, now: u64, rows: &[Row]) -> Result<bool, Fault> {
        match &mut self.view {
            View::Changes => {
                print_changed(rt, rows_or_none(&self.shown), rows)?;
                Ok(true)
            }
            View::Listings => {
                print_at_once(rt, &listing_line(rt.alloc(), rows)?)?;
                Ok(true)
            }
            View::File(file) => print_written(rt, file, now, rows),
        }
    }

    /// Takes a listing, and decides which rows are to be shown. `NoMemory`.
    fn enter(
        &mut self,
        rt: &HostRuntime,
        control: &str,
        now: u64,
        found: &[Row],
    ) -> Result<(), Fault> {
        self.kept = rows_with(rt.alloc(), &self.kept, found, now)?;
        enter_count(&mut self.counts, now, found.len())?;
        let most = most_of(&self.counts);
        let caution = self.caution;
        let count = drop_due(&mut self.kept, now, &caution, most);
        self.tell(rt, control, count, most);
        Ok(())
    }

    /// Whether time alone may change what it shows: rows are missing, or are not yet shown.
    pub(crate) fn waits_for_time(&self) -> bool {
        self.since.is_some() || self.kept.iter().any(|one| one.missing.is_some())
    }

    /// Takes a listing, and shows what is to be shown once it has settled. `NoMemory`; `WriteFailed`.
    pub(crate) fn take(
        &mut self,
        rt: &HostRuntime,
        control: &str,
        found: &[Row],
    ) -> Result<(), Fault> {
        let now = self.now(rt);
        self.enter(rt, control, now, found)?;
        let rows = rows_of(rt.alloc(), &self.kept)?;
        self.since = differ_since(self.since, now, self.differs(rt.alloc(), &rows)?);
        let time = gathering_time(&self.caution, self.shown.is_none());
        match self.since {
            Some(since) if is_over(since, now, time) => {
                if self.show(rt, now, &rows)? {
                    self.since = None;
                    self.shown = Some(rows);
                }
            }
            _ => {}
        }
        Ok(())
    }
}
