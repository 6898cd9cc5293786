//! All rows that are asked for, page after page.
ghost use Rattle.std.specs.Prelude.{◌≡◌, true, List, OnOk, IfOk, IfErr};
ghost use Rattle.sb_codec.specs.Records as records;
ghost use Rattle.sb_views.specs.LiveRows as live;
ghost use Rattle.sb_query.specs.Pages.{live_row};
ghost use Rattle.sb_query.specs.Paging as paging;
ghost use Rattle.sb_query.specs.Paging.{asks, takes, ends_or_has_rows, IsPlaceBehind, Turns, TurnsAside, Lists, GoesAstray};

use sb_codec::{Ask, Row, Rows};
use sb_types::{Fault, KIND_ROWS, Key, Name};

/// The most pages that one call asks for.
const PAGES_MOST: u64 = u64::MAX;

/// Answers questions for rows with pages, and takes the pages that go on.
pub trait Pager {
    ghost use Rattle.sb_query.specs.Paging.{Act};

    /// By this call, the pager can change from the first state to the second.
    ghost step: { Self → Act → Self → Type 0 };

    /// Why a call failed.
    type Failure;

    /// Returns the page for a question.
    fn ask(&mut self, ask: &Ask) -> Result<Rows, Self::Failure>
        ensures { IfOk result (λ page. step self.old (asks ask.now page) self.new) };

    /// Takes a page that goes on.
    fn take(&mut self, page: &Rows) -> Result<(), Self::Failure>
        ensures { OnOk result (step self.old (takes page.now) self.new) };
}

/// Why not all pages came.
#[derive(Drop)]
pub enum PagingFault<E> {
    /// The pager failed.
    Failed(E),
    /// A page does not go on after the one before, or too many pages came.
    Wrong(Fault),
}

/// Whether a row is after a place, in the order of owners and then of keys.
fn is_behind(row: &Row, after: Option<(Name, Key)>) -> bool
    ensures { result ≡ live.is_behind after (live_row row.now) }
{
    match after {
        None => true,
        Some((owner, key)) => owner
            .bytes()
            .cmp(row.owner().bytes())
            .then(key.bytes().cmp(row.key().bytes()))
            .is_lt(),
    }
}

/// Whether a page goes on after the place that was asked for. Each of its rows is after that place, and it has a row if
/// it reports that more follow.
#[tactic(auto, using(crate::proofs::Listing::first_behind, crate::proofs::Listing::none_behind))]
pub fn goes_on(page: &Rows, after: Option<(Name, Key)>) -> bool
    ensures { result ≡ paging.goes_on after page.now }
{
    match page.rows().split_first() {
        None => !page.more(),
        Some((row, _)) => is_behind(row, after),
    }
}

/// The place of the last row, if more rows follow.
fn place_behind(page: &Rows) -> Option<(Name, Key)>
    requires { ends_or_has_rows page.now.more page.now.rows ≡ true }
    ensures { IsPlaceBehind page.now result }
{
    if !page.more() {
        return None;
    }
    let row = page.rows().last()?;
    Some((*row.owner(), *row.key()))
}

/// Asks for a page and takes it. Returns the place of its last row, if more rows follow.
fn turn<P: Pager>(pager: &mut P, ask: &Ask) -> Result<Option<(Name, Key)>, PagingFault<P::Failure>>
    ensures ok { IfOk result (λ place. (page : records.Rows) × Turns P.step pager.old ask.now page pager.new × IsPlaceBehind page place) }
    ensures astray { IfErr result (TurnsAside P.step pager.old ask.now pager.new) }
{
    let page = match pager.ask(ask) {
        Ok(page) => page,
        Err(failure) => return Err(PagingFault::Failed(failure)),
    };
    if !goes_on(&page, ask.after) {
        return Err(PagingFault::Wrong(Fault::Malformed(KIND_ROWS)));
    }
    match pager.take(&page) {
        Ok(()) => Ok(place_behind(&page)),
        Err(failure) => Err(PagingFault::Failed(failure)),
    }
}

/// Asks for all rows, page after page. The first question is the given one. Each next one asks for the rows after the
/// last row of a page that reports that more follow. The pager takes each page that goes on, before it is asked for the
/// next.
///
/// The faults:
///
/// - `Failed` if the pager fails.
/// - `Wrong` with `Malformed(KIND_ROWS)` if a page does not go on, and then it is not taken. A row of it is not after
///   the place that was asked for, or it has no row although it reports that more follow.
/// - `Wrong` with `TurnsSpent` if more rows follow after 2^64 - 1 pages.
pub fn ask_all<P: Pager>(pager: &mut P, asked: Ask) -> Result<(), PagingFault<P::Failure>>
    ensures all { OnOk result ((pages : List records.Rows) × (last : records.Rows) × Lists P.step pager.old asked pages last pager.new) }
    ensures astray { IfErr result (GoesAstray P.step pager.old asked pager.new) }
{
    let mut ask = asked;
    for _ in 0..PAGES_MOST {
        ask.after = turn(pager, &ask)?;
        if ask.after.is_none() {
            return Ok(());
        }
    }
    Err(PagingFault::Wrong(Fault::TurnsSpent))
}
