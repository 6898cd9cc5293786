//! Pages at exact budgets and after places, and the lines of a page.
use crate::making::{
    Ended, apply, entry, failed_behind, has_lines, holdings_of_a, key, name, owner_of, prefix,
    rows_of, settled, weight,
};
use crate::reading::{Look, read};
use crate::{got, making, same, same_at};
use sb_codec::{Ask, Row, Rows};
use sb_holdings::Holdings;
use sb_query::{answer, print_rows};
use sb_testing::streams::FailingWriter;
use sb_types::{BUDGET_LEAST, BUDGET_MOST, Block, Entry, Key, Name, SharedEntry, Value};
use sb_views::Snapshot;
use std::alloc::Global;
use std::process::Abort;

type Place = (&'static [u8], &'static [u8]);

const NOWHERE: Place = (b"", b"");

const NET_A: Place = (b"a", b"net/a");

const LAST_OF_A: Place = (b"a", b"w");

// An owner, a key and a version.
type RowVersion = (&'static [u8], &'static [u8], u64);

// The live rows, which take 519, 25, 515, 18 and 515 bytes. There is a removed x as well.
const ROWS: [RowVersion; 5] = [
    (b"a", b"net/a", 1),
    (b"a", b"net/b", 2),
    (b"a", b"w", 3),
    (b"b", b"net/a", 1),
    (b"b", b"y", 2),
];

/// A write of a long text.
fn long_text(rt: &impl Abort, alloc: Global, text: &[u8], version: u64) -> Entry {
    let value = got(rt, Value::text(alloc, &[b'p'; 500]));
    entry(rt, text, version, Some(value))
}

fn flag(rt: &impl Abort, text: &[u8], version: u64) -> Entry {
    entry(rt, text, version, Some(Value::flag(true)))
}

fn block_of_b(rt: &impl Abort, alloc: Global) -> Block {
    let mut entries = Vec::new(alloc);
    let first = got(rt, SharedEntry::new(alloc, flag(rt, b"net/a", 1)));
    got(rt, entries.push(first));
    let second = long_text(rt, alloc, b"y", 2);
    let second = got(rt, SharedEntry::new(alloc, second));
    got(rt, entries.push(second));
    got(rt, Block::new(name(rt, b"b"), 0, 0, 2, entries))
}

/// The four writes of a, the last a removal.
fn write_own(rt: &impl Abort, alloc: Global, holdings: &mut Holdings) {
    got(rt, holdings.push_own(long_text(rt, alloc, b"net/a", 1)));
    got(
        rt,
        holdings.push_own(entry(rt, b"net/b", 2, Some(weight(rt, 5)))),
    );
    got(rt, holdings.push_own(long_text(rt, alloc, b"w", 3)));
    got(rt, holdings.push_own(entry(rt, b"x", 4, None)));
}

fn holdings_of_two(rt: &impl Abort, alloc: Global) -> Holdings {
    let mut holdings = holdings_of_a(rt, alloc);
    write_own(rt, alloc, &mut holdings);
    apply(rt, &mut holdings, &block_of_b(rt, alloc));
    holdings
}

fn place_of(rt: &impl Abort, place: Place) -> Option<(Name, Key)> {
    match place {
        (b"", _) => None,
        (owner, text) => Some((name(rt, owner), key(rt, text))),
    }
}

/// A question. It is for all owners if the text of the owner is empty.
fn ask_of(rt: &impl Abort, owner: &[u8], under: &[u8], after: Place) -> Ask {
    Ask {
        owner: owner_of(rt, owner),
        prefix: prefix(rt, under),
        after: place_of(rt, after),
    }
}

/// The answer. If the budget is not within its limits, the test ends.
fn page_of(
    rt: &impl Abort,
    alloc: Global,
    snapshot: &Snapshot<'_>,
    ask: &Ask,
    budget: u64,
) -> Rows {
    if budget < BUDGET_LEAST || budget > BUDGET_MOST {
        panic!(rt; "error: a budget of {budget}");
    }
    got(rt, answer(alloc, snapshot, ask, budget))
}

fn is_row(row: &Row, parts: RowVersion) -> bool {
    row.owner().bytes() == parts.0 && row.key().bytes() == parts.1 && row.version() == parts.2
}

#[test]
fn pages_answer_what_is_asked(rt: HostRuntime) {
    let holdings = holdings_of_two(&rt, rt.alloc());
    read(&rt, rt.alloc(), &holdings, Look::Pages);
}

/// Whether just these rows are found, in order.
fn are_rows(rows: &[Row], wanted: &[usize]) -> bool {
    for (row, at) in rows.iter().zip(wanted) {
        match ROWS.get(*at) {
            Some(parts) if is_row(row, *parts) => {}
            _ => return false,
        }
    }
    rows.len() == wanted.len()
}

/// Of a page: whether more follow, how many rows it has, and whether they are the wanted ones.
fn parts_of(page: &Rows, wanted: &[usize]) -> (bool, usize, bool) {
    let rows = page.rows();
    (page.more(), rows.len(), are_rows(rows, wanted))
}

/// Which rows a page must have, and whether more must follow.
type Wanted = (&'static [usize], bool);

/// Tests that the page for a question has just these rows.
fn page_is(
    rt: &impl Abort,
    alloc: Global,
    snapshot: &Snapshot<'_>,
    ask: &Ask,
    budget: u64,
    wanted: Wanted,
) {
    let (rows, more) = wanted;
    let found = parts_of(&page_of(rt, alloc, snapshot, ask, budget), rows);
    same_at(rt, &(ask, budget), &found, &(more, rows.len(), true));
}

/// Tests the first page within a budget.
fn first_is(
    rt: &impl Abort,
    alloc: Global,
    snapshot: &Snapshot<'_>,
    budget: u64,
    rows: &'static [usize],
    more: bool,
) {
    let ask = ask_of(rt, b"", b"", NOWHERE);
    page_is(rt, alloc, snapshot, &ask, budget, (rows, more));
}

/// Tests first pages. All five rows make a frame of 1,602 bytes, four make one of 1,087, three one of 1,069, and two
/// one of 554.
fn first_pages(rt: &impl Abort, alloc: Global, snapshot: &Snapshot<'_>) {
    first_is(rt, alloc, snapshot, 65_536, &[0, 1, 2, 3, 4], false);
    first_is(rt, alloc, snapshot, 1_602, &[0, 1, 2, 3, 4], false);
    first_is(rt, alloc, snapshot, 1_601, &[0, 1, 2, 3], true);
    first_is(rt, alloc, snapshot, 1_087, &[0, 1, 2, 3], true);
    first_is(rt, alloc, snapshot, 1_086, &[0, 1, 2], true);
    first_is(rt, alloc, snapshot, 1_069, &[0, 1, 2], true);
    first_is(rt, alloc, snapshot, 1_068, &[0, 1], true);
    first_is(rt, alloc, snapshot, 1_024, &[0, 1], true);
}

/// Tests the page after a place within a budget.
fn behind_is(
    rt: &impl Abort,
    alloc: Global,
    snapshot: &Snapshot<'_>,
    after: Place,
    budget: u64,
    wanted: Wanted,
) {
    let ask = ask_of(rt, b"", b"", after);
    page_is(rt, alloc, snapshot, &ask, budget, wanted);
}

/// Tests pages in the middle of a. The last three rows make a frame of 1,058 bytes.
fn pages_within_a(rt: &impl Abort, alloc: Global, snapshot: &Snapshot<'_>) {
    behind_is(rt, alloc, snapshot, NET_A, 1_083, (&[1, 2, 3, 4], false));
    behind_is(rt, alloc, snapshot, NET_A, 1_082, (&[1, 2, 3], true));
    behind_is(
        rt,
        alloc,
        snapshot,
        (b"a", b"net/b"),
        1_058,
        (&[2, 3, 4], false),
    );
}

/// Tests pages after the last key of a, its removed key, an owner that is not there, and the end.
fn pages_behind_a(rt: &impl Abort, alloc: Global, snapshot: &Snapshot<'_>) {
    behind_is(rt, alloc, snapshot, LAST_OF_A, 1_024, (&[3, 4], false));
    behind_is(rt, alloc, snapshot, (b"a", b"x"), 1_024, (&[3, 4], false));
    behind_is(
        rt,
        alloc,
        snapshot,
        (b"aa", b"net/a"),
        1_024,
        (&[3, 4], false),
    );
    behind_is(rt, alloc, snapshot, (b"b", b"y"), 1_024, (&[], false));
    behind_is(rt, alloc, snapshot, (b"c", b"a"), 1_024, (&[], false));
}

/// Tests the last page under net/ after a place.
fn under_net_is(
    rt: &impl Abort,
    alloc: Global,
    snapshot: &Snapshot<'_>,
    after: Place,
    rows: &'static [usize],
) {
    let ask = ask_of(rt, b"", b"net/", after);
    page_is(rt, alloc, snapshot, &ask, 1_024, (rows, false));
}

/// Tests pages under net/: from the beginning, and after a key under it, a key before it, and a key after it.
fn pages_under_net(rt: &impl Abort, alloc: Global, snapshot: &Snapshot<'_>) {
    under_net_is(rt, alloc, snapshot, NOWHERE, &[0, 1, 3]);
    under_net_is(rt, alloc, snapshot, NET_A, &[1, 3]);
    under_net_is(rt, alloc, snapshot, (b"a", b"k"), &[0, 1, 3]);
    under_net_is(rt, alloc, snapshot, LAST_OF_A, &[3]);
}

/// Tests the last page of one owner after a place.
fn of_one_is(
    rt: &impl Abort,
    alloc: Global,
    snapshot: &Snapshot<'_>,
    owner: &[u8],
    after: Place,
    rows: &'static [usize],
) {
    let ask = ask_of(rt, owner, b"", after);
    page_is(rt, alloc, snapshot, &ask, 1_024, (rows, false));
}

/// Tests pages of one owner, after places of its own and of others.
fn pages_of_one(rt: &impl Abort, alloc: Global, snapshot: &Snapshot<'_>) {
    of_one_is(rt, alloc, snapshot, b"a", NET_A, &[1, 2]);
    of_one_is(rt, alloc, snapshot, b"b", LAST_OF_A, &[3, 4]);
    of_one_is(rt, alloc, snapshot, b"a", (b"b", b"net/a"), &[]);
    of_one_is(rt, alloc, snapshot, b"b", (b"b", b"net/a"), &[4]);
    of_one_is(rt, alloc, snapshot, b"c", NOWHERE, &[]);
}

/// Tests that the page for each question has its rows.
pub(crate) fn rows_are_answered(rt: &impl Abort, alloc: Global, snapshot: &Snapshot<'_>) {
    first_pages(rt, alloc, snapshot);
    pages_within_a(rt, alloc, snapshot);
    pages_behind_a(rt, alloc, snapshot);
    pages_under_net(rt, alloc, snapshot);
    pages_of_one(rt, alloc, snapshot);
}

/// A flag under each of 315 keys of three letters.
fn holdings_of_315(rt: &impl Abort, alloc: Global) -> Holdings {
    let mut holdings = holdings_of_a(rt, alloc);
    for number in 0..315u64 {
        let text = [b'k', b'a' + (number / 26) as u8, b'a' + (number % 26) as u8];
        got(rt, holdings.push_own(flag(rt, &text, number + 1)));
    }
    holdings
}

#[test]
fn pages_follow_one_another(rt: HostRuntime) {
    let holdings = holdings_of_315(&rt, rt.alloc());
    read(&rt, rt.alloc(), &holdings, Look::Following);
}

/// The version of the first row, or 0 if there is none.
fn first_version(rows: &[Row]) -> u64 {
    match rows.first() {
        Some(row) => row.version(),
        None => 0,
    }
}

/// Asks for the page after this one.
fn ask_behind(ask: &mut Ask, rows: &[Row]) {
    if let Some(last) = rows.last() {
        ask.after = Some((*last.owner(), *last.key()));
    }
}

/// How many rows a page has, whether more follow, and the version of its first row, or 0. Then the question is for the
/// next page.
fn turn(
    rt: &impl Abort,
    alloc: Global,
    snapshot: &Snapshot<'_>,
    ask: &mut Ask,
) -> (usize, bool, u64) {
    let page = page_of(rt, alloc, snapshot, ask, 1_024);
    ask_behind(ask, page.rows());
    (page.rows().len(), page.more(), first_version(page.rows()))
}

/// Tests that pages follow one another. At 16 bytes a row, a frame of 1,024 bytes has 63, so 315 rows make five pages.
pub(crate) fn pages_follow(rt: &impl Abort, alloc: Global, snapshot: &Snapshot<'_>) {
    let mut ask = ask_of(rt, b"", b"", NOWHERE);
    for number in 1..6u64 {
        let found = turn(rt, alloc, snapshot, &mut ask);
        same_at(rt, &number, &found, &(63, number < 5, number * 63 - 62));
    }
    same(rt, &turn(rt, alloc, snapshot, &mut ask), &(0, false, 0));
}

// A text. Its line is as it is spelled.
const A_TEXT: making::RowParts = (b"a", b"t", 1, (b"text", b" two\\0awords "));

// A weight, an address and a flag: lines of 19, 16 and 16 bytes.
const THREE: [making::RowParts; 3] = [
    (b"a", b"net/a", 1, (b"weight", b"5")),
    (b"b", b"y", 2, (b"addr", b"h:80")),
    (b"b", b"z", 3, (b"flag", b"true")),
];

/// A page of these.
fn page_of_three(rt: &impl Abort, alloc: Global) -> Rows {
    got(rt, Rows::new(true, rows_of(rt, alloc, &THREE)))
}

/// A page of a text alone.
fn page_of_a_text(rt: &impl Abort, alloc: Global) -> Rows {
    got(rt, Rows::new(false, rows_of(rt, alloc, &[A_TEXT])))
}

/// Tests that these are the lines of a page.
fn is_printed(rt: &impl Abort, alloc: Global, page: &Rows, wanted: &[u8]) {
    let mut lines = Vec::new(alloc);
    let printed = print_rows(alloc, &mut lines, page);
    has_lines(rt, printed, &lines, wanted);
}

/// Tests that no rows make no lines.
fn no_rows_are_printed(rt: &impl Abort, alloc: Global) {
    is_printed(rt, alloc, &got(rt, Rows::new(false, Vec::new(alloc))), b"");
}

#[test]
fn a_page_is_printed(rt: HostRuntime) {
    let alloc = rt.alloc();
    is_printed(
        &rt,
        alloc,
        &page_of_three(&rt, alloc),
        b"a net/a 1 weight 5\nb y 2 addr h:80\nb z 3 flag true\n",
    );
    is_printed(
        &rt,
        alloc,
        &page_of_a_text(&rt, alloc),
        b"a t 1 text  two\\0awords \n",
    );
    no_rows_are_printed(&rt, alloc);
}

/// How printing three rows ends at a writer that closes after so many bytes.
fn ended_behind(rt: &impl Abort, alloc: Global, left: usize) -> Ended {
    let page = page_of_three(rt, alloc);
    settled(rt, print_rows(alloc, &mut FailingWriter::new(left), &page))
}

#[test]
fn a_failed_write_is_counted(rt: HostRuntime) {
    let alloc = rt.alloc();
    failed_behind(&rt, ended_behind(&rt, alloc, 0), 0);
    failed_behind(&rt, ended_behind(&rt, alloc, 19), 19);
    failed_behind(&rt, ended_behind(&rt, alloc, 50), 50);
    same(&rt, &ended_behind(&rt, alloc, 51), &(Ok(()), false));
}
