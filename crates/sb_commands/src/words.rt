//! Words of the command line, read as names, keys and values. A failure names the word.
use crate::failure::{Failure, FaultPlace};
use sb_types::{Key, Name, Prefix, Value};
use std::alloc::Global;

/// Reads the name that an option gives. `BadName`.
pub fn name_of<'a>(option: &'a str, word: &'a str) -> Result<Name, Failure<'a>> {
    match Name::read(word.as_bytes()) {
        Ok(name) => Ok(name),
        Err(fault) => Err(Failure::at(FaultPlace::Word(option, word), fault)),
    }
}

/// Whose a log is: the names of its owner and of its cluster.
#[derive(Clone, Copy)]
pub struct LogNames {
    pub owner: Name,
    pub cluster: Name,
}

/// Reads the names that a log is opened with. `BadName` of either.
pub(crate) fn names_of<'a>(owner: &'a str, cluster: &'a str) -> Result<LogNames, Failure<'a>> {
    let owner = name_of("--name", owner)?;
    let cluster = name_of("--cluster", cluster)?;
    Ok(LogNames { owner, cluster })
}

/// Reads a key. `BadKey`.
pub fn key_of(word: &str) -> Result<Key, Failure<'_>> {
    match Key::read(word.as_bytes()) {
        Ok(key) => Ok(key),
        Err(fault) => Err(Failure::at(FaultPlace::Word("key", word), fault)),
    }
}

/// Reads the prefix of keys. `BadKey`.
pub fn prefix_of(word: &str) -> Result<Prefix, Failure<'_>> {
    match Prefix::read(word.as_bytes()) {
        Ok(prefix) => Ok(prefix),
        Err(fault) => Err(Failure::at(FaultPlace::Word("--prefix", word), fault)),
    }
}

/// Makes a text of these bytes, whatever they would spell. The faults of `Value::text`.
pub fn text_of<'a>(alloc: Global, word: &'a str) -> Result<Value, Failure<'a>> {
    match Value::text(alloc, word.as_bytes()) {
        Ok(value) => Ok(value),
        Err(fault) => Err(Failure::at(FaultPlace::Value("text", word), fault)),
    }
}

/// Reads a value from its kind and its word. The faults of `Value::from_words`.
pub fn value_of<'a>(alloc: Global, kind: &'a str, word: &'a str) -> Result<Value, Failure<'a>> {
    match Value::from_words(alloc, kind.as_bytes(), word.as_bytes()) {
        Ok(value) => Ok(value),
        Err(fault) => Err(Failure::at(FaultPlace::Value(kind, word), fault)),
    }
}
