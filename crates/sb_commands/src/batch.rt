//! Writes in lines of standard input.
ghost use Rattle.std.specs.Prelude.{◌≡◌, ◌∷◌, ◌++◌, IfOk, IfSome};
ghost use Rattle.sb_commands.specs.Lines.{slot_words, write_line};

use crate::asking::put;
use crate::failure::{Failure, FaultPlace, InputLine};
use sb_types::{Fault, Key, Slot, Value, Write};
use std::alloc::Global;
use std::io::{BufRead, BufReader, ErrorKind};

/// The part of a line before its first space, and the part after it. `None` if there is no space.
fn split_at_space(line: &[u8]) -> Option<(&[u8], &[u8])>
    ensures parts { IfSome result (λ parts. line.now ≡ parts.0.now ++ 32 ∷ parts.1.now) }
{
    let place = line.iter().position(|byte| *byte == b' ')?;
    let (word, behind) = line.split_at_checked(place)?;
    match behind.split_first() {
        Some((space, words)) if *space == b' ' => Some((word, words)),
        _ => None,
    }
}

/// The slot for a key: `KIND VALUE`, or `removed`. `BadValue`, then `NoMemory`.
fn slot_of(alloc: Global, words: &[u8]) -> Result<Slot, Fault>
    ensures words { IfOk result (λ slot. words.now ≡ slot_words slot) }
{
    match words {
        b"removed" => Ok(Slot::Removed),
        _ => match split_at_space(words) {
            Some((kind, word)) => Ok(Slot::Set(Value::from_words(alloc, kind, word)?)),
            None => Err(Fault::BadValue),
        },
    }
}

/// The write of a line `KEY KIND VALUE` or `KEY removed`, with one space between two words. `BadKey`; then `BadValue`
/// of what comes after the key, also if nothing does; then `NoMemory`.
fn write_of(alloc: Global, line: &[u8]) -> Result<Write, Fault>
    ensures line { IfOk result (λ write. line.now ≡ write_line write.key write.slot) }
{
    match split_at_space(line) {
        Some((key, words)) => {
            let key = Key::read(key)?;
            let slot = slot_of(alloc, words)?;
            Ok(Write { key, slot })
        }
        None => {
            let _ = Key::read(line)?;
            Err(Fault::BadValue)
        }
    }
}

/// What a line has, for the advice about it.
fn input_line(line: &[u8]) -> InputLine {
    if line.ends_with(b"\r") {
        return InputLine::Return;
    }
    match split_at_space(line) {
        Some((_, words)) if words.starts_with(b"text ") => InputLine::Text,
        Some((_, words)) if words.starts_with(b"weight ") => InputLine::Weight,
        _ => InputLine::Other,
    }
}

/// A line without its end.
fn without_end(line: &[u8]) -> &[u8] {
    match line.split_last() {
        Some((last, words)) if *last == b'\n' => words,
        _ => line,
    }
}

/// Reads the next line, with its end, in place of the one before. Returns whether there was one. `ReadFailed` or
/// `NoMemory`.
fn read_line<R: BufRead>(reader: &mut R, line: &mut Vec<u8>) -> Result<bool, Fault> {
    line.clear();
    match reader.read_until(b'\n', line) {
        Ok(count) => Ok(count > 0),
        Err(error) if error.kind() == ErrorKind::OutOfMemory => Err(Fault::NoMemory),
        Err(_) => Err(Fault::ReadFailed),
    }
}

/// Makes a node write what a line asks for, and prints the version of the write. The faults of `write_of`, which quote the
/// line unless memory is lacking; those of `put`; then `WriteFailed`.
fn write_line<'a>(rt: &HostRuntime, control: &'a str, line: &[u8]) -> Result<(), Failure<'a>> {
    let write = match write_of(rt.alloc(), line) {
        Ok(write) => write,
        Err(Fault::NoMemory) => return Err(Failure::from(Fault::NoMemory)),
        Err(fault) => {
            let place = FaultPlace::Input(input_line(line));
            return Err(Failure::at(place, fault).with_quote(line));
        }
    };
    let version = put(rt, control, write.key, write.slot)?;
    match println!(rt; "version {version}") {
        Ok(()) => Ok(()),
        Err(_) => Err(Failure::from(Fault::WriteFailed(0))),
    }
}

/// Makes a node write all lines of standard input, one after another, and prints the version of each write. Each goes
/// over a connection of its own, and empty lines are skipped. The first fault ends the call and names its line, and the
/// writes before it stay: `NoMemory`; `ReadFailed` of standard input; a fault of `write_line`.
pub fn write_lines<'a>(rt: &HostRuntime, control: &'a str) -> Result<(), Failure<'a>> {
    let Ok(mut reader) = BufReader::new(rt.alloc(), rt.stdin()) else {
        return Err(Failure::from(Fault::NoMemory));
    };
    let mut line = Vec::new(rt.alloc());
    for number in 1..u64::MAX {
        match read_line(&mut reader, &mut line) {
            Ok(true) => {}
            Ok(false) => return Ok(()),
            Err(fault) => return Err(Failure::from(fault).in_line(number)),
        }
        let words = without_end(&line);
        if !words.is_empty() {
            write_line(rt, control, words).map_err(|failure| failure.in_line(number))?;
        }
    }
    Err(Failure::from(Fault::TurnsSpent))
}
