//! The table of the kinds of values: the parts of each kind, and the value that they make.

use crate::{got, holds, refusal, same, same_at};
use sb_types::{ContentRef, Fault, Form, Kind, Value};
use std::alloc::Global;
use std::process::Abort;

/// Asserts a row of the table, and that its word and its tag lead back to the kind.
fn assert_kind(rt: &impl Abort, kind: Kind, word: &str, tag: u8, form: Form) {
    same_at(rt, &word, &kind.word(), &word);
    same_at(rt, &word, &(kind.tag(), kind.form()), &(tag, form));
    let found = (Kind::of_word(word.as_bytes()), Kind::of_tag(tag));
    same_at(rt, &word, &found, &(Some(kind), Some(kind)));
}

#[test]
fn kinds_have_words_tags_and_forms(rt: HostRuntime) {
    assert_kind(&rt, Kind::Addr, "addr", 1, Form::Word);
    assert_kind(&rt, Kind::Weight, "weight", 2, Form::Number);
    assert_kind(&rt, Kind::Flag, "flag", 3, Form::Truth);
    assert_kind(&rt, Kind::Text, "text", 4, Form::Text);
    same(&rt, &Kind::of_word(b"removed"), &None);
    same(&rt, &(Kind::of_tag(0), Kind::of_tag(5)), &(None, None));
}

/// Asserts that a value made of these parts has them, and prints as this line.
fn assert_made(rt: &impl Abort, alloc: Global, kind: Kind, content: ContentRef<'_>, line: &str) {
    let value = got(rt, Value::from_content(alloc, kind, content));
    same_at(rt, &line, &value.kind(), &kind);
    same_at(rt, &line, &value.content(), &content);
    same_at(rt, &line, &got(rt, value.to_string(alloc)).as_str(), &line);
    holds(rt, line, value.is_same(&value));
}

#[test]
fn parts_make_values(rt: HostRuntime) {
    let alloc = rt.alloc();
    assert_made(&rt, alloc, Kind::Addr, ContentRef::Word(b"a:1"), "addr a:1");
    assert_made(&rt, alloc, Kind::Weight, ContentRef::Number(7), "weight 7");
    assert_made(&rt, alloc, Kind::Flag, ContentRef::Truth(true), "flag true");
    assert_made(
        &rt,
        alloc,
        Kind::Text,
        ContentRef::Text(b"a b\n"),
        "text a b\\0a",
    );
}

fn assert_refused(rt: &impl Abort, alloc: Global, kind: Kind, content: ContentRef<'_>) {
    let found = refusal(rt, Value::from_content(alloc, kind, content));
    same_at(rt, &(kind, content), &found, &Some(Fault::BadValue));
}

#[test]
fn parts_of_no_value_are_refused(rt: HostRuntime) {
    let alloc = rt.alloc();
    assert_refused(&rt, alloc, Kind::Addr, ContentRef::Text(b"a:1"));
    assert_refused(&rt, alloc, Kind::Text, ContentRef::Word(b"a:1"));
    assert_refused(&rt, alloc, Kind::Flag, ContentRef::Number(1));
    assert_refused(&rt, alloc, Kind::Addr, ContentRef::Word(b"a 1"));
    assert_refused(&rt, alloc, Kind::Weight, ContentRef::Number(1 << 63));
    assert_refused(&rt, alloc, Kind::Text, ContentRef::Text(b""));
}

fn are_same(rt: &impl Abort, alloc: Global, one: [&[u8]; 2], other: [&[u8]; 2]) -> bool {
    let one = got(rt, Value::from_words(alloc, one[0], one[1]));
    let other = got(rt, Value::from_words(alloc, other[0], other[1]));
    one.is_same(&other)
}

#[test]
fn values_of_one_kind_and_content_are_the_same(rt: HostRuntime) {
    let alloc = rt.alloc();
    let text: [&[u8]; 2] = [b"text", b"true"];
    let flag: [&[u8]; 2] = [b"flag", b"true"];
    holds(&rt, "a text is the same", are_same(&rt, alloc, text, text));
    holds(&rt, "a flag is no text", !are_same(&rt, alloc, flag, text));
    let five: [&[u8]; 2] = [b"weight", b"5"];
    let six: [&[u8]; 2] = [b"weight", b"6"];
    holds(&rt, "5 is the same", are_same(&rt, alloc, five, five));
    holds(&rt, "5 is not 6", !are_same(&rt, alloc, five, six));
}
