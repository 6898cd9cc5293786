//! What no clause promises: that a word, a number, a value and a row are added if there is memory. And the example of
//! `sb_printing`.
use crate::making::{Words, key, rows_of, value_of, weight};
use crate::{got, same};
use sb_printing::{add_number, add_value, add_word};
use sb_query::add_row;
use sb_types::{Fault, Key, Value};
use std::alloc::Global;
use std::process::Abort;

/// A line that has begun.
fn begun(rt: &impl Abort, alloc: Global) -> Vec<u8> {
    let mut out = Vec::new(alloc);
    got(rt, out.extend_from_slice(b"a "));
    out
}

/// Tests that a word added to a line that has begun makes this.
fn word_makes(rt: &impl Abort, alloc: Global, word: &[u8], end: u8, wanted: &[u8]) {
    let mut out = begun(rt, alloc);
    got(rt, add_word(&mut out, word, end));
    same(rt, &out.as_slice(), &wanted);
}

#[test]
fn a_word_is_added(rt: HostRuntime) {
    let alloc = rt.alloc();
    word_makes(&rt, alloc, b"", b' ', b"a  ");
    word_makes(&rt, alloc, b"web/weight", b'\n', b"a web/weight\n");
}

/// The same for a number.
fn number_makes(rt: &impl Abort, alloc: Global, number: u64, wanted: &[u8]) {
    let mut out = begun(rt, alloc);
    got(rt, add_number(&mut out, number, b'\n'));
    same(rt, &out.as_slice(), &wanted);
}

#[test]
fn a_number_is_added(rt: HostRuntime) {
    let alloc = rt.alloc();
    number_makes(&rt, alloc, 0, b"a 0\n");
    number_makes(&rt, alloc, 10, b"a 10\n");
    number_makes(&rt, alloc, u64::MAX, b"a 18446744073709551615\n");
}

/// The same for the value of these words.
fn value_makes(rt: &impl Abort, alloc: Global, words: Words, wanted: &[u8]) {
    let mut out = begun(rt, alloc);
    got(rt, add_value(&mut out, &value_of(rt, alloc, words)));
    same(rt, &out.as_slice(), &wanted);
}

#[test]
fn a_value_is_added(rt: HostRuntime) {
    let alloc = rt.alloc();
    value_makes(&rt, alloc, (b"addr", b"h:80"), b"a addr h:80");
    value_makes(&rt, alloc, (b"weight", b"0"), b"a weight 0");
    value_makes(&rt, alloc, (b"flag", b"false"), b"a flag false");
    value_makes(
        &rt,
        alloc,
        (b"text", b" two\\0awords "),
        b"a text  two\\0awords ",
    );
}

#[test]
fn a_row_is_added(rt: HostRuntime) {
    let alloc = rt.alloc();
    let mut out = begun(&rt, alloc);
    for row in &rows_of(&rt, alloc, &[(b"b", b"x/y", 12, (b"text", b"two words"))]) {
        got(&rt, add_row(&mut out, row));
    }
    same(
        &rt,
        &out.as_slice(),
        &b"a b x/y 12 text two words\n".as_slice(),
    );
}

/// The line of what stands under a key: the key, the version and the two words of the value.
fn key_line(alloc: Global, key: &Key, version: u64, value: &Value) -> Result<Vec<u8>, Fault> {
    let mut line = Vec::new(alloc);
    add_word(&mut line, key.bytes(), b' ')?;
    add_number(&mut line, version, b' ')?;
    add_value(&mut line, value)?;
    line.push(b'\n')?;
    Ok(line)
}

#[test]
fn the_example_of_printing_makes_a_line(rt: HostRuntime) {
    let line = key_line(rt.alloc(), &key(&rt, b"web/weight"), 1, &weight(&rt, 5));
    same(
        &rt,
        &got(&rt, line).as_slice(),
        &b"web/weight 1 weight 5\n".as_slice(),
    );
}
