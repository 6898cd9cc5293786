//! What changed between listings and its lines, and rows as JSON.
use crate::making::{Ended, RowParts, failed_behind, has_lines, rows_of, settled};
use crate::{got, same};
use sb_codec::{Row, Rows};
use sb_listing::{add_json_array, changes, print_changes, print_json_rows};
use sb_testing::streams::FailingWriter;
use std::alloc::Global;
use std::process::Abort;

const A_V: RowParts = (b"a", b"v", 1, (b"addr", b"h:80"));

const A_W: RowParts = (b"a", b"w", 2, (b"weight", b"5"));

const A_W_LATER: RowParts = (b"a", b"w", 9, (b"weight", b"5"));

const A_W_OTHER: RowParts = (b"a", b"w", 2, (b"weight", b"6"));

const A_W_FLAG: RowParts = (b"a", b"w", 2, (b"flag", b"true"));

const A_W_NOT: RowParts = (b"a", b"w", 2, (b"flag", b"false"));

const AA_A: RowParts = (b"aa", b"a", 1, (b"flag", b"true"));

const B_A: RowParts = (b"b", b"a", 3, (b"addr", b"h:80"));

const B_A_OTHER: RowParts = (b"b", b"a", 3, (b"addr", b"h:81"));

const A_T: RowParts = (b"a", b"t", 4, (b"text", b"two words"));

const A_T_OTHER: RowParts = (b"a", b"t", 4, (b"text", b"two words "));

// Listings, to be compared with others.
fn a_to_b() -> [RowParts; 3] {
    [A_V, A_W, B_A]
}

fn a_and_aa() -> [RowParts; 2] {
    [A_V, AA_A]
}

fn a_other_to_b() -> [RowParts; 3] {
    [A_W_OTHER, AA_A, B_A]
}

fn a_and_b() -> [RowParts; 2] {
    [A_W, B_A]
}

/// Tests that these are the lines of what changed from one to the other.
fn rows_change_to(rt: &impl Abort, alloc: Global, earlier: &[Row], later: &[Row], wanted: &[u8]) {
    let found = got(rt, changes(alloc, earlier, later));
    let mut lines = Vec::new(alloc);
    let printed = print_changes(alloc, &mut lines, &found);
    has_lines(rt, printed, &lines, wanted);
}

/// The same for listings.
fn lines_are(
    rt: &impl Abort,
    alloc: Global,
    earlier: &[RowParts],
    later: &[RowParts],
    wanted: &[u8],
) {
    let (earlier, later) = (rows_of(rt, alloc, earlier), rows_of(rt, alloc, later));
    rows_change_to(rt, alloc, &earlier, &later, wanted);
}

/// The same for listings of one row each.
fn line_is(rt: &impl Abort, alloc: Global, earlier: RowParts, later: RowParts, wanted: &[u8]) {
    lines_are(rt, alloc, &[earlier], &[later], wanted);
}

/// Tests the line if a later row replaces a weight.
fn weight_becomes(rt: &impl Abort, alloc: Global, later: RowParts, wanted: &[u8]) {
    line_is(rt, alloc, A_W, later, wanted);
}

fn weight_changed(rt: &impl Abort, alloc: Global) {
    weight_becomes(rt, alloc, A_W_LATER, b"set a w 9 weight 5\n");
    weight_becomes(rt, alloc, A_W_OTHER, b"set a w 2 weight 6\n");
    weight_becomes(rt, alloc, A_W_FLAG, b"set a w 2 flag true\n");
}

fn flag_changed(rt: &impl Abort, alloc: Global) {
    line_is(rt, alloc, A_W_FLAG, A_W_NOT, b"set a w 2 flag false\n");
}

fn address_changed(rt: &impl Abort, alloc: Global) {
    line_is(rt, alloc, B_A, B_A_OTHER, b"set b a 3 addr h:81\n");
}

fn text_changed(rt: &impl Abort, alloc: Global) {
    line_is(rt, alloc, A_T, A_T, b"");
    line_is(rt, alloc, A_T, A_T_OTHER, b"set a t 4 text two words \n");
}

/// Tests that all rows come, and that all go.
fn all_changed(rt: &impl Abort, alloc: Global) {
    lines_are(
        rt,
        alloc,
        &[],
        &a_and_aa(),
        b"set a v 1 addr h:80\nset aa a 1 flag true\n",
    );
    lines_are(rt, alloc, &a_and_aa(), &[], b"gone a v\ngone aa a\n");
}

/// Tests rows that come, go and change in turn, with rows on both sides.
fn each_in_turn(rt: &impl Abort, alloc: Global) {
    lines_are(
        rt,
        alloc,
        &a_to_b(),
        &a_other_to_b(),
        b"gone a v\nset a w 2 weight 6\nset aa a 1 flag true\n",
    );
    lines_are(
        rt,
        alloc,
        &[AA_A],
        &a_and_b(),
        b"set a w 2 weight 5\ngone aa a\nset b a 3 addr h:80\n",
    );
}

#[test]
fn what_changed_is_printed(rt: HostRuntime) {
    let alloc = rt.alloc();
    lines_are(&rt, alloc, &[], &[], b"");
    lines_are(&rt, alloc, &a_to_b(), &a_to_b(), b"");
    all_changed(&rt, alloc);
    weight_changed(&rt, alloc);
    flag_changed(&rt, alloc);
    address_changed(&rt, alloc);
    text_changed(&rt, alloc);
    each_in_turn(&rt, alloc);
}

// An address with a quote and a backslash, the greatest weight, a flag, and a text. The text has a quote, three bytes
// that are escaped in lines, a letter outside ASCII, and a space at its end.
const KINDS: [RowParts; 4] = [
    (b"a", b"v", 1, (b"addr", b"\"\\/~h")),
    (b"a", b"w-._/0", 2, (b"weight", b"9223372036854775807")),
    (b"b-1", b"up", 3, (b"flag", b"true")),
    (b"c", b"t", 4, (b"text", b"\"\\5c\\0a\\7f\xc3\xa9 ")),
];

/// A page of these.
fn page_of_kinds(rt: &impl Abort, alloc: Global) -> Rows {
    got(rt, Rows::new(true, rows_of(rt, alloc, &KINDS)))
}

// The lines of that page.
const AS_JSON: &[u8] =
    b"{\"key\":\"v\",\"kind\":\"addr\",\"owner\":\"a\",\"value\":\"\\\"\\\\/~h\",\"version\":1}
{\"key\":\"w-._/0\",\"kind\":\"weight\",\"owner\":\"a\",\"value\":9223372036854775807,\"version\":2}
{\"key\":\"up\",\"kind\":\"flag\",\"owner\":\"b-1\",\"value\":true,\"version\":3}
{\"key\":\"t\",\"kind\":\"text\",\"owner\":\"c\",\"value\":\"\\\"\\\\\\n\x7f\xc3\xa9 \",\"version\":4}
";

/// Tests that a page as JSON is this.
fn json_is(rt: &impl Abort, alloc: Global, page: &Rows, wanted: &[u8]) {
    let mut lines = Vec::new(alloc);
    let printed = print_json_rows(alloc, &mut lines, page);
    has_lines(rt, printed, &lines, wanted);
}

/// Tests that no rows make no lines.
fn no_rows_are_empty(rt: &impl Abort, alloc: Global) {
    json_is(rt, alloc, &got(rt, Rows::new(false, Vec::new(alloc))), b"");
}

#[test]
fn a_page_is_printed_as_json(rt: HostRuntime) {
    let alloc = rt.alloc();
    json_is(&rt, alloc, &page_of_kinds(&rt, alloc), AS_JSON);
    no_rows_are_empty(&rt, alloc);
}

/// Tests that the array of these rows is this, after a byte that was there.
fn array_is(rt: &impl Abort, alloc: Global, rows: &[RowParts], wanted: &[u8]) {
    let mut line = got(rt, Vec::from_slice(alloc, b"x"));
    let rows = rows_of(rt, alloc, rows);
    got(rt, add_json_array(alloc, &mut line, &rows));
    same(rt, &line.as_slice(), &wanted);
}

#[test]
fn an_array_has_a_comma_between_two_rows(rt: HostRuntime) {
    let alloc = rt.alloc();
    array_is(&rt, alloc, &[], b"x[]");
    let both =
        b"x[{\"key\":\"v\",\"kind\":\"addr\",\"owner\":\"a\",\"value\":\"h:80\",\"version\":1},{\"key\":\"w\",\"kind\":\"weight\",\"owner\":\"a\",\"value\":5,\"version\":2}]";
    array_is(&rt, alloc, &[A_V, A_W], both);
}

/// How printing a change ends at a writer that closes after so many bytes.
fn changes_behind(rt: &impl Abort, alloc: Global, left: usize) -> Ended {
    let rows = rows_of(rt, alloc, &[A_V]);
    let found = got(rt, changes(alloc, &[], &rows));
    settled(
        rt,
        print_changes(alloc, &mut FailingWriter::new(left), &found),
    )
}

/// The same for that page as JSON.
fn json_behind(rt: &impl Abort, alloc: Global, left: usize) -> Ended {
    let page = page_of_kinds(rt, alloc);
    settled(
        rt,
        print_json_rows(alloc, &mut FailingWriter::new(left), &page),
    )
}

/// Tests that both fail after so many bytes.
fn both_fail_behind(rt: &impl Abort, alloc: Global, left: usize) {
    failed_behind(rt, changes_behind(rt, alloc, left), left);
    failed_behind(rt, json_behind(rt, alloc, left), left);
}

#[test]
fn a_failed_write_of_lines_is_counted(rt: HostRuntime) {
    let alloc = rt.alloc();
    both_fail_behind(&rt, alloc, 0);
    both_fail_behind(&rt, alloc, 19);
    same(&rt, &changes_behind(&rt, alloc, 20), &(Ok(()), false));
}
