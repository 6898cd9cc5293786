//! What changes at a running node, which a watch asks each time that something may have changed.
use crate::asking::{page_of, take_all};
use crate::careful::CarefulWatch;
use crate::change_source::{ChangeSource, WatchPace};
use crate::failure::{Failure, FailureText, FaultPlace};
use crate::keeping::{copy_of, kept_rows};
use crate::lagging::{Lag, differing_owners};
use crate::reaches::{OwnerReach, enter_printed, enter_shown, forget_shown};
use crate::socket_stamp::{SocketStamp, stamp_of};
use crate::status::is_caught_up;
use sb_codec::{Ask, Row, Rows};
use sb_listing::{RowChange, changes, print_changes};
use sb_query::Pager;
use sb_types::{Fault, Key, Name};
use std::alloc::Global;

/// What a watch asks for, and how often.
#[derive(Clone, Copy)]
pub struct WatchQuery {
    pub asked: Ask,
    /// How it waits before it asks again.
    pub pace: WatchPace,
    /// How many times it asks. 0 is for without end.
    pub count: u64,
    /// Whether it prints `asked` after each asking.
    pub prints_asked: bool,
}

/// Adds the rows of a page. `NoMemory`.
fn add_rows(rt: &HostRuntime, rows: &mut Vec<Row>, page: &Rows) -> Result<(), Fault> {
    for row in page.rows() {
        rows.push(copy_of(rt.alloc(), row)?)?;
    }
    Ok(())
}

/// Asks a node for pages, and keeps their rows.
#[derive(Drop)]
struct Collector<'r, 'a> {
    rt: &'r HostRuntime,
    control: &'a str,
    rows: Vec<Row>,
}

impl<'a> Pager for Collector<'_, 'a> {
    ghost step = { λ _ _ _. Unit {0} };

    type Failure = Failure<'a>;

    fn ask(&mut self, ask: &Ask) -> Result<Rows, Failure<'a>> {
        page_of(self.rt, self.control, ask)
    }

    fn take(&mut self, page: &Rows) -> Result<(), Failure<'a>> {
        add_rows(self.rt, &mut self.rows, page)?;
        Ok(())
    }
}

/// Asks for all rows, page after page, and returns them. The faults of `take_all`; `NoMemory`.
pub(crate) fn listing<'a>(
    rt: &HostRuntime,
    control: &'a str,
    asked: &Ask,
) -> Result<Vec<Row>, Failure<'a>> {
    let rows = Vec::new(rt.alloc());
    let mut collector = Collector { rt, control, rows };
    take_all(control, &mut collector, *asked)?;
    Ok(collector.rows)
}

/// Prints what changed from one listing to the next, in one piece. After it comes the line `asked`, if `prints_asked`
/// is true. `NoMemory`; `WriteFailed`.
fn print_difference(
    rt: &HostRuntime,
    told: &[RowChange<'_>],
    prints_asked: bool,
) -> Result<(), Fault> {
    let (printed, _) = print_changes(rt.alloc(), &mut rt.stdout(), told);
    printed?;
    if prints_asked && println!(rt; "asked").is_err() {
        return Err(Fault::WriteFailed(0));
    }
    Ok(())
}

/// Prints what changed from the rows of the last listing to those of the next. After it comes the line `asked`, if
/// `prints_asked` is true. `NoMemory`; `WriteFailed`.
fn print_next(
    rt: &HostRuntime,
    last: &[Row],
    next: &[Row],
    prints_asked: bool,
) -> Result<(), Fault> {
    let told = changes(rt.alloc(), last, next)?;
    print_difference(rt, &told, prints_asked)
}

/// Asks a node for rows each time that something may have changed, and prints what changed since the last asking. The first
/// time it prints each row. The first fault of an asking ends it. It prints nothing of a listing whose pages did not all come.
/// `WriteFailed`, also if standard output was closed since it asked.
pub fn watch<'a>(
    rt: &HostRuntime,
    control: &'a str,
    query: &WatchQuery,
) -> Result<(), Failure<'a>> {
    let turns = match query.count {
        0 => u64::MAX,
        count => count,
    };
    let mut source = ChangeSource::new(rt, control, &query.asked, query.pace)?;
    let mut last = Vec::new(rt.alloc());
    for turn in 0..turns {
        if turn > 0 {
            source.wait(false)?;
        }
        source.begin();
        let rows = listing(rt, control, &query.asked)?;
        print_next(rt, &last, &rows, query.prints_asked)?;
        last = rows;
    }
    Ok(())
}

/// The rows that were printed, and what the node has shown since its last start. If the watch is careful, they count as
/// printed once it has them.
struct PrintedRows<'a> {
    rows: Vec<Row>,
    /// What decides which of them are shown, if the watch is careful.
    careful: Option<CarefulWatch<'a>>,
    /// The socket at which the node was caught up.
    caught_up: Option<SocketStamp>,
    /// Whether the last line about the node was that it is not caught up.
    is_waiting: bool,
    /// The socket of the last asking.
    stamp: Option<SocketStamp>,
    reaches: Vec<OwnerReach>,
    lag: Lag,
    /// Whether the last line about the node was that it does not answer.
    is_away: bool,
    /// How many askings were answered.
    count: u64,
}

// It is written out, so that a caller does not prove again how each part is dropped.
impl Drop for PrintedRows<'_> {
    fn drop(self) {
        let PrintedRows {
            rows: _rows,
            careful: _careful,
            caught_up: _,
            is_waiting: _,
            stamp: _,
            reaches: _reaches,
            lag: _,
            is_away: _,
            count: _,
        } = self;
    }
}

impl<'a> PrintedRows<'a> {
    fn new(alloc: Global, careful: Option<CarefulWatch<'a>>) -> PrintedRows<'a> {
        PrintedRows {
            rows: Vec::new(alloc),
            careful,
            caught_up: None,
            is_waiting: false,
            stamp: None,
            reaches: Vec::new(alloc),
            lag: Lag::new(),
            is_away: false,
            count: 0,
        }
    }

    /// Shows the rows, if the watch is careful. `NoMemory`; `WriteFailed`.
    fn show(&mut self, rt: &HostRuntime, control: &str, prints_asked: bool) -> Result<(), Fault> {
        match &mut self.careful {
            Some(careful) => {
                careful.take(rt, control, &self.rows)?;
                print_difference(rt, &[], prints_asked)
            }
            None => Ok(()),
        }
    }

    /// Takes a listing that came from this socket, and prints what changed, unless the watch is careful. `NoMemory`;
    /// `WriteFailed`.
    fn take(
        &mut self,
        rt: &HostRuntime,
        stamp: Option<SocketStamp>,
        found: &[Row],
        prints_asked: bool,
    ) -> Result<(), Fault> {
        if stamp.is_none() || stamp != self.stamp {
            forget_shown(&mut self.reaches);
            self.lag = Lag::new();
        }
        self.stamp = stamp;
        let is_careful = self.careful.is_some();
        // The pages of a listing are not from one moment. Only what was shown before its first page is known on each.
        let rows = kept_rows(rt.alloc(), &self.rows, found, &self.reaches)?;
        enter_shown(&mut self.reaches, found)?;
        let told = changes(rt.alloc(), &self.rows, &rows)?;
        if !is_careful {
            print_difference(rt, &told, prints_asked)?;
        }
        enter_printed(&mut self.reaches, &told)?;
        drop(told);
        self.rows = rows;
        self.count = self.count.saturating_add(1);
        Ok(())
    }

    /// Prints that the node answers, if it did not before. At first the node is taken to answer.
    fn tell_answering(&mut self, rt: &HostRuntime, control: &str) {
        if self.is_away {
            self.is_away = false;
            let _ = eprintln!(rt; "attrdir: info control socket {control}: answers");
        }
    }

    /// Prints that the node does not answer, and why, if it did before.
    fn tell_away(&mut self, rt: &HostRuntime, control: &str, failure: &Failure<'_>) {
        if !self.is_away {
            self.is_away = true;
            let why = FailureText(failure);
            let _ = eprintln!(rt;
                "attrdir: warning control socket {control}: does not answer: {why}"
            );
        }
    }

    /// Prints whether it waits until the node is caught up, if that has changed.
    fn tell_waiting(&mut self, rt: &HostRuntime, control: &str, is_waiting: bool) {
        if is_waiting != self.is_waiting {
            self.is_waiting = is_waiting;
            let _ = if is_waiting {
                eprintln!(rt;
                    "attrdir: info control socket {control}: the node is not caught up yet, and nothing is shown before"
                )
            } else {
                eprintln!(rt; "attrdir: info control socket {control}: the node is caught up")
            };
        }
    }

    /// Whether a careful watch has to wait until the node at this socket is caught up. The faults of `is_caught_up`.
    fn has_to_wait<'b>(
        &mut self,
        rt: &HostRuntime,
        control: &'b str,
        stamp: Option<SocketStamp>,
    ) -> Result<bool, Failure<'b>> {
        if self.careful.is_none() || (stamp.is_some() && stamp == self.caught_up) {
            return Ok(false);
        }
        let is_caught_up = is_caught_up(rt, control)?;
        self.tell_answering(rt, control);
        self.tell_waiting(rt, control, !is_caught_up);
        if is_caught_up {
            self.caught_up = stamp;
        }
        Ok(!is_caught_up)
    }

    /// Whether time alone may change what is shown.
    fn waits_for_time(&self) -> bool {
        match &self.careful {
            Some(careful) => self.is_waiting || careful.waits_for_time(),
            None => false,
        }
    }

    /// The rows that the node shows. `None` if it is not caught up, and the watch is careful. The faults of `has_to_wait`, then those
    /// of `listing`.
    fn found_rows<'b>(
        &mut self,
        rt: &HostRuntime,
        control: &'b str,
        stamp: Option<SocketStamp>,
        asked: &Ask,
    ) -> Result<Option<Vec<Row>>, Failure<'b>> {
        if self.has_to_wait(rt, control, stamp)? {
            return Ok(None);
        }
        Ok(Some(listing(rt, control, asked)?))
    }

    /// Takes a listing that came from this socket, shows it, and reports it if the node lags. `NoMemory`; `WriteFailed`.
    fn take_and_show(
        &mut self,
        rt: &HostRuntime,
        control: &str,
        stamp: Option<SocketStamp>,
        found: &[Row],
        query: &WatchQuery,
    ) -> Result<(), Fault> {
        self.tell_answering(rt, control);
        self.take(rt, stamp, found, query.prints_asked)?;
        self.show(rt, control, query.prints_asked)?;
        let differing = differing_owners(rt.alloc(), &self.rows, found, &self.reaches)?;
        self.lag.report(rt, control, differing);
        Ok(())
    }

    /// Asks once. If the node was started again in the meantime, it takes none of the rows. A fault of asking that may pass is reported,
    /// and ends nothing. The others are those of `found_rows`, then `NoMemory` and `WriteFailed`.
    fn ask<'b>(
        &mut self,
        rt: &HostRuntime,
        control: &'b str,
        query: &WatchQuery,
    ) -> Result<(), Failure<'b>> {
        let stamp = stamp_of(rt, control);
        match self.found_rows(rt, control, stamp, &query.asked) {
            Ok(None) => Ok(()),
            Ok(Some(found)) => {
                if stamp == stamp_of(rt, control) {
                    self.take_and_show(rt, control, stamp, &found, query)?;
                }
                Ok(())
            }
            Err(failure) if failure.may_pass() => {
                self.tell_away(rt, control, &failure);
                Ok(())
            }
            Err(failure) => Err(failure),
        }
    }
}

/// Does what `watch` does, and goes on if the node does not answer. What was printed stays.
///
/// It prints that a row is gone only if the node knows it. The node knows it if it showed that version of the
/// owner, or a later one, at an earlier asking since its last start. It does not print a row of an earlier version than it
/// printed before, also of a key that is gone. It ends after `count` askings that were answered.
///
/// If the watch is careful, it takes no rows before the node is caught up. The faults of asking that cannot pass; `NoMemory`;
/// `WriteFailed`, also if standard output was closed since it asked.
pub fn watch_on<'a>(
    rt: &HostRuntime,
    control: &'a str,
    query: &WatchQuery,
    careful: Option<CarefulWatch<'a>>,
) -> Result<(), Failure<'a>> {
    let mut source = ChangeSource::new(rt, control, &query.asked, query.pace)?;
    let mut printed = PrintedRows::new(rt.alloc(), careful);
    for _ in 0..u64::MAX {
        source.begin();
        printed.ask(rt, control, query)?;
        if query.count > 0 && printed.count >= query.count {
            return Ok(());
        }
        source.wait(printed.waits_for_time())?;
    }
    Err(Failure::at(FaultPlace::Control(control), Fault::TurnsSpent))
}
