//! The text of a template with the rows of a listing.
//!
//! A line with no placeholder is written once, as it is. A line with placeholders is written once for each owner that
//! has all of them, in the order of the owners. Peers are not authenticated. So a value is
//! written only if each of its bytes is a letter, a digit or one of `. : / _ - [ ] @ % + , =`. None of these ends a word or
//! begins a comment in the files of usual programs.
ghost use Rattle.std.specs.Prelude.{◌≡◌, ◌<◌, ◌+◌, ◌++◌, [], length, filter, find, position, take, drop, option_map, vec_items, OnOk, IfOk, IfErr, IfSome};
ghost use Rattle.std.specs.List.{list_all};
ghost use Rattle.std.specs.Option.{option_copied};
ghost use Rattle.sb_commands.specs.Rendering as spec;

use crate::template::{Piece, Placeholder, TemplateLine, ValuePart};
use itoa::Buffer;
use sb_codec::Row;
use sb_types::{ContentRef, Fault, Key, Value};
use std::alloc::Global;

/// Whether a byte can be written, wherever a word can.
fn is_plain_byte(byte: u8) -> bool
    ensures { result ≡ spec.is_plain_byte byte }
{
    byte.is_ascii_alphanumeric()
        || matches!(
            byte,
            b'.' | b':' | b'/' | b'_' | b'-' | b'[' | b']' | b'@' | b'%' | b'+' | b',' | b'='
        )
}

fn are_plain_bytes(word: &[u8]) -> bool
    ensures { result ≡ list_all spec.is_plain_byte word.now }
{
    word.iter().all(|byte| is_plain_byte(*byte))
}

/// Whether a word can be written. One without bytes cannot.
fn is_plain(word: &[u8]) -> bool
    ensures { result ≡ spec.is_plain word.now }
{
    !word.is_empty() && are_plain_bytes(word)
}

/// Copies a word. `NoMemory`.
fn copied(alloc: Global, word: &[u8]) -> Result<Vec<u8>, Fault>
    ensures word { IfOk result (λ copy. copy.items ≡ word.now) }
    ensures memory { IfErr result (λ fault. fault ≡ Fault.NoMemory) }
{
    Ok(Vec::from_slice(alloc, word)?)
}

/// The word of a value: an address or a text as it is, a number in decimal, true or false. `NoMemory`.
fn word_of(alloc: Global, value: &Value) -> Result<Vec<u8>, Fault>
    ensures word { IfOk result (λ word. word.items ≡ spec.word_of value.now) }
    ensures memory { IfErr result (λ fault. fault ≡ Fault.NoMemory) }
{
    match value.content() {
        ContentRef::Word(text) | ContentRef::Text(text) => copied(alloc, text),
        ContentRef::Number(number) => copied(alloc, Buffer::new().format(number).as_bytes()),
        ContentRef::Truth(true) => copied(alloc, b"true"),
        ContentRef::Truth(false) => copied(alloc, b"false"),
    }
}

/// The place of the first colon.
fn colon_place(word: &[u8]) -> Option<usize>
    ensures place { result ≡ position spec.is_colon word.now }
    ensures within { IfSome result (λ place. place < length word.now) }
{
    word.iter().position(|byte| *byte == b':')
}

fn colon_count(word: &[u8]) -> usize
    ensures { result ≡ length (filter spec.is_colon word.now) }
{
    word.iter().filter(|byte| **byte == b':').count()
}

fn has_one_colon(word: &[u8]) -> bool
    ensures { result ≡ spec.has_one_colon word.now }
{
    colon_count(word) == 1
}

/// What comes before the first colon.
fn host_of(word: &[u8]) -> Option<&[u8]>
    ensures { option_copied result ≡ option_map (λ place. take place word.now) (position spec.is_colon word.now) }
{
    match colon_place(word) {
        Some(place) => Some(word.split_at(place).0),
        None => None,
    }
}

/// What comes after the first colon.
fn port_of(word: &[u8]) -> Option<&[u8]>
    ensures { option_copied result ≡ option_map (λ place. drop (place + 1) word.now) (position spec.is_colon word.now) }
{
    match colon_place(word) {
        Some(place) => Some(word.split_at(place + 1).1),
        None => None,
    }
}

/// A part of a word. `None` if the word has no such part.
fn part_of(word: &[u8], part: ValuePart) -> Option<&[u8]>
    ensures { option_copied result ≡ spec.part_of part word.now }
{
    match part {
        ValuePart::Whole => Some(word),
        ValuePart::Host if has_one_colon(word) => host_of(word),
        ValuePart::Port if has_one_colon(word) => port_of(word),
        _ => None,
    }
}

/// Copies a word, if there is one and it can be written. `NoMemory`.
fn copied_if_plain(alloc: Global, word: Option<&[u8]>) -> Result<Option<Vec<u8>>, Fault>
    ensures word { IfOk result (λ copy. option_map vec_items copy ≡ spec.plain_only (option_copied word.entry)) }
    ensures memory { IfErr result (λ fault. fault ≡ Fault.NoMemory) }
{
    match word {
        Some(word) if is_plain(word) => Ok(Some(copied(alloc, word)?)),
        _ => Ok(None),
    }
}

/// The first row of this key.
fn row_at<'a>(rows: &'a [Row], key: &Key) -> Option<&'a Row>
    ensures { option_copied result ≡ find (spec.has_key key.now) rows.now }
{
    rows.iter().find(|row| row.key() == key)
}

/// What is written for a placeholder. `None` if the owner's line is not written. `NoMemory`.
fn placeholder_text(
    alloc: Global,
    placeholder: &Placeholder,
    found: Option<&Row>,
) -> Result<Option<Vec<u8>>, Fault>
    ensures text { IfOk result (λ text. option_map vec_items text ≡ spec.placeholder_text placeholder.now (option_copied found.entry)) }
    ensures memory { IfErr result (λ fault. fault ≡ Fault.NoMemory) }
{
    match (found, &placeholder.otherwise) {
        (Some(row), _) => {
            let word = word_of(alloc, row.value())?;
            copied_if_plain(alloc, part_of(&word, placeholder.part))
        }
        (None, Some(otherwise)) => Ok(Some(copied(alloc, otherwise)?)),
        (None, None) => Ok(None),
    }
}

/// Nothing, if the row has this word. `None` otherwise. `NoMemory`.
fn condition_text(alloc: Global, word: &[u8], found: Option<&Row>) -> Result<Option<Vec<u8>>, Fault>
    ensures text { IfOk result (λ text. option_map vec_items text ≡ spec.condition_text word.now (option_copied found.entry)) }
    ensures memory { IfErr result (λ fault. fault ≡ Fault.NoMemory) }
{
    let Some(row) = found else {
        return Ok(None);
    };
    if word_of(alloc, row.value())?.as_slice() == word {
        Ok(Some(Vec::new(alloc)))
    } else {
        Ok(None)
    }
}

/// What is written for a piece, for an owner with these rows. `None` if the owner's line is not written. `NoMemory`.
fn piece_text(
    alloc: Global,
    owner: &[u8],
    rows: &[Row],
    piece: &Piece,
) -> Result<Option<Vec<u8>>, Fault>
    ensures text { IfOk result (λ text. option_map vec_items text ≡ spec.piece_text owner.now rows.now piece.now) }
    ensures memory { IfErr result (λ fault. fault ≡ Fault.NoMemory) }
{
    match piece {
        Piece::Text(text) => Ok(Some(copied(alloc, text)?)),
        Piece::Owner => Ok(Some(copied(alloc, owner)?)),
        Piece::Value(placeholder) => {
            placeholder_text(alloc, placeholder, row_at(rows, &placeholder.key))
        }
        Piece::Only(key, word) => condition_text(alloc, word, row_at(rows, key)),
    }
}

/// The line of an owner with these rows. `None` if it is not written. `NoMemory`.
fn line_text(
    alloc: Global,
    owner: &[u8],
    rows: &[Row],
    pieces: &[Piece],
) -> Result<Option<Vec<u8>>, Fault>
    ensures text { IfOk result (λ text. option_map vec_items text ≡ spec.line_text owner.now rows.now pieces.now) }
    ensures memory { IfErr result (λ fault. fault ≡ Fault.NoMemory) }
{
    let mut line = Vec::new(alloc);
    for piece in pieces {
        match piece_text(alloc, owner, rows, piece)? {
            Some(text) => line.extend_from_slice(&text)?,
            None => return Ok(None),
        }
    }
    line.push(b'\n')?;
    Ok(Some(line))
}

/// Adds a text, if there is one. `NoMemory`.
fn add_text(out: &mut Vec<u8>, text: Option<Vec<u8>>) -> Result<(), Fault>
    ensures text { OnOk result (out.new.items ≡ out.old.items ++ spec.text_or_nothing (option_map vec_items text)) }
    ensures memory { IfErr result (λ fault. fault ≡ Fault.NoMemory) }
{
    if let Some(text) = text {
        out.extend_from_slice(&text)?;
    }
    Ok(())
}

/// The place of the first row of another owner.
fn foreign_place(owner: &[u8], rows: &[Row]) -> Option<usize>
    ensures place { result ≡ position (spec.is_foreign owner.now) rows.now }
    ensures within { IfSome result (λ place. place < length rows.now) }
{
    rows.iter().position(|row| row.owner().bytes() != owner)
}

/// The rows before the first one of another owner.
fn own_rows<'a>(owner: &[u8], rows: &'a [Row]) -> &'a [Row]
    ensures { result.now ≡ spec.own_rows owner.now rows.now }
{
    match foreign_place(owner, rows) {
        Some(place) => rows.split_at(place).0,
        None => rows,
    }
}

/// Adds the line of a row's owner. `NoMemory`.
fn add_first_line(
    alloc: Global,
    out: &mut Vec<u8>,
    pieces: &[Piece],
    row: &Row,
    rows: &[Row],
) -> Result<(), Fault>
    ensures line { OnOk result (out.new.items ≡ out.old.items ++ spec.first_line pieces.now row.now rows.now) }
    ensures memory { IfErr result (λ fault. fault ≡ Fault.NoMemory) }
{
    let owner = row.owner().bytes();
    let text = line_text(alloc, owner, own_rows(owner, rows), pieces)?;
    add_text(out, text)
}

/// Adds the line of a row's owner, unless the row before it has that owner too. `NoMemory`.
fn add_line_at(
    alloc: Global,
    out: &mut Vec<u8>,
    pieces: &[Piece],
    before: &[u8],
    row: &Row,
    rows: &[Row],
) -> Result<(), Fault>
    ensures line { OnOk result (out.new.items ≡ out.old.items ++ spec.line_at pieces.now before.now row.now rows.now) }
    ensures memory { IfErr result (λ fault. fault ≡ Fault.NoMemory) }
{
    if row.owner().bytes() == before {
        Ok(())
    } else {
        add_first_line(alloc, out, pieces, row, rows)
    }
}

/// Adds a line for each owner. `NoMemory`.
fn add_lines(alloc: Global, out: &mut Vec<u8>, pieces: &[Piece], rows: &[Row]) -> Result<(), Fault>
    ensures lines { OnOk result (out.new.items ≡ out.old.items ++ spec.owner_lines pieces.now [] rows.now) }
    ensures memory { IfErr result (λ fault. fault ≡ Fault.NoMemory) }
{
    let mut before: &[u8] = &[];
    let mut rest = rows;
    while let Some((row, others)) = rest.split_first() {
        add_line_at(alloc, out, pieces, before, row, rest)?;
        before = row.owner().bytes();
        rest = others;
    }
    Ok(())
}

fn is_text(piece: &Piece) -> bool
    ensures { result ≡ spec.is_text piece.now }
{
    matches!(piece, Piece::Text(_))
}

fn are_texts(pieces: &[Piece]) -> bool
    ensures { result ≡ list_all spec.is_text pieces.now }
{
    pieces.iter().all(|piece| is_text(piece))
}

/// Adds what comes of a line of the template. `NoMemory`.
fn add_written(
    alloc: Global,
    out: &mut Vec<u8>,
    line: &TemplateLine,
    rows: &[Row],
) -> Result<(), Fault>
    ensures line { OnOk result (out.new.items ≡ out.old.items ++ spec.written_line rows.now line.now) }
    ensures memory { IfErr result (λ fault. fault ≡ Fault.NoMemory) }
{
    if are_texts(&line.pieces) {
        add_text(out, line_text(alloc, &[], &[], &line.pieces)?)
    } else {
        add_lines(alloc, out, &line.pieces, rows)
    }
}

/// The text of a template with these rows, which ascend by owner and key. `NoMemory`.
pub(crate) fn rendered(
    alloc: Global,
    template: &[TemplateLine],
    rows: &[Row],
) -> Result<Vec<u8>, Fault>
    ensures text { IfOk result (λ text. text.items ≡ spec.rendered template.now rows.now) }
    ensures memory { IfErr result (λ fault. fault ≡ Fault.NoMemory) }
{
    let mut out = Vec::new(alloc);
    for line in template {
        add_written(alloc, &mut out, line, rows)?;
    }
    Ok(out)
}
