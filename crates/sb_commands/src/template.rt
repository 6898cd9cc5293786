//! The template of a file that a watch writes. A line may have placeholders, between `{{` and `}}`:
//!
//! - `owner`: the name of the owner.
//! - `KEY`: the value of the owner under this key. `KEY:host` and `KEY:port` are what an address has before and after
//!   its colon.
//! - `KEY|WORD`: the value, or this word if the owner has none. So `KEY:port|80` too.
//! - `KEY=WORD`: nothing. Its line is only for owners with this value.
use sb_types::{Fault, Key};
use std::alloc::Global;

/// Which part of a value is written.
#[derive(Clone, Copy)]
pub(crate) enum ValuePart {
    Whole,
    /// What comes before the colon.
    Host,
    /// What comes after the colon.
    Port,
}

/// A placeholder for a value.
#[derive(Drop)]
pub(crate) struct Placeholder {
    pub(crate) key: Key,
    pub(crate) part: ValuePart,
    /// What is written if the owner has no such value.
    pub(crate) otherwise: Option<Vec<u8>>,
}

/// A piece of a line.
#[derive(Drop)]
pub(crate) enum Piece {
    /// A text that stays as it is.
    Text(Vec<u8>),
    Owner,
    Value(Placeholder),
    /// Nothing, and only owners with this word under this key have the line.
    Only(Key, Vec<u8>),
}

/// A line, without its end.
#[derive(Drop)]
pub struct TemplateLine {
    pub(crate) pieces: Vec<Piece>,
}

/// A placeholder or a template is wrong: the fault, and the line, counted from 1.
#[derive(Clone, Copy)]
pub(crate) struct TemplateFault {
    pub(crate) fault: Fault,
    pub(crate) line: u64,
}

fn copied(alloc: Global, text: &str) -> Result<Vec<u8>, Fault> {
    Ok(Vec::from_slice(alloc, text.as_bytes())?)
}

fn copied_if_any(alloc: Global, text: Option<&str>) -> Result<Option<Vec<u8>>, Fault> {
    match text {
        Some(text) => Ok(Some(copied(alloc, text)?)),
        None => Ok(None),
    }
}

/// A key, and which part of its value is meant. `BadKey`; `BadSetting` of another part.
fn key_and_part(word: &str) -> Result<(Key, ValuePart), Fault> {
    let (key, part) = match word.split_once(':') {
        None => (word, ValuePart::Whole),
        Some((key, "host")) => (key, ValuePart::Host),
        Some((key, "port")) => (key, ValuePart::Port),
        Some(_) => return Err(Fault::BadSetting),
    };
    Ok((Key::read(key.as_bytes())?, part))
}

/// A placeholder, or the condition of a line. The faults of `key_and_part`; `NoMemory`.
fn value_piece(alloc: Global, word: &str, otherwise: Option<&str>) -> Result<Piece, Fault> {
    let (key, part) = key_and_part(word)?;
    let otherwise = copied_if_any(alloc, otherwise)?;
    Ok(Piece::Value(Placeholder {
        key,
        part,
        otherwise,
    }))
}

/// What is between `{{` and `}}`. `BadKey`, `BadSetting` or `NoMemory`.
fn piece_of(alloc: Global, inside: &str) -> Result<Piece, Fault> {
    if inside == "owner" {
        return Ok(Piece::Owner);
    }
    match (inside.split_once('|'), inside.split_once('=')) {
        (Some((word, otherwise)), _) => value_piece(alloc, word, Some(otherwise)),
        (None, Some((key, word))) => {
            Ok(Piece::Only(Key::read(key.as_bytes())?, copied(alloc, word)?))
        }
        (None, None) => value_piece(alloc, inside, None),
    }
}

/// Adds a text, unless it is empty. `NoMemory`.
fn add_text(alloc: Global, pieces: &mut Vec<Piece>, text: &str) -> Result<(), Fault> {
    if !text.is_empty() {
        pieces.push(Piece::Text(copied(alloc, text)?))?;
    }
    Ok(())
}

/// Adds what is between `{{` and `}}`, and the text after it. The faults of `piece_of`; `BadSetting` if there is no `}}`.
fn add_piece(alloc: Global, pieces: &mut Vec<Piece>, words: &str) -> Result<(), Fault> {
    let Some((inside, text)) = words.split_once("}}") else {
        return Err(Fault::BadSetting);
    };
    pieces.push(piece_of(alloc, inside)?)?;
    add_text(alloc, pieces, text)
}

/// Reads a line. The faults of `add_piece`.
fn line_of(alloc: Global, line: &str) -> Result<TemplateLine, Fault> {
    let mut pieces = Vec::new(alloc);
    let mut is_first = true;
    for words in line.split("{{") {
        if is_first {
            add_text(alloc, &mut pieces, words)?;
        } else {
            add_piece(alloc, &mut pieces, words)?;
        }
        is_first = false;
    }
    Ok(TemplateLine { pieces })
}

/// Adds a line. The faults of `line_of`.
fn add_line(alloc: Global, lines: &mut Vec<TemplateLine>, line: &str) -> Result<(), Fault> {
    lines.push(line_of(alloc, line)?)?;
    Ok(())
}

/// Reads a template. `BadKey`, `BadSetting` or `NoMemory` of the first line with a fault.
pub(crate) fn template_of(alloc: Global, text: &str) -> Result<Vec<TemplateLine>, TemplateFault> {
    let mut lines = Vec::new(alloc);
    let mut line = 0u64;
    for words in text.split_terminator('\n') {
        line = line.saturating_add(1);
        if let Err(fault) = add_line(alloc, &mut lines, words) {
            return Err(TemplateFault { fault, line });
        }
    }
    Ok(lines)
}
