//! The words of a line, and the numbers among them.
ghost use Rattle.std.specs.Prelude.{◌≡◌, true, IfOk, IfErr};
ghost use Rattle.sb_world.specs.declared.event.Event.TheVariants as events;
ghost use Rattle.sb_types.specs.declared.entry.Slot as entries;
ghost use Rattle.sb_script.specs.Commands.{IsSlot};
ghost use Rattle.sb_script.specs.Faults.{is_word_fault};

use sb_types::{Fault, Form, Key, Kind, Name, Slot, Value};
use sb_world::Event;
use std::alloc::Global;

/// The greatest number of a connection in a script.
pub(crate) const CONNECTION_MOST: u64 = 999_999;

fn is_space(byte: &u8) -> bool {
    *byte == b' '
}

/// Whether this is the word of a kind whose contents may have spaces.
fn is_of_texts(kind: &[u8]) -> bool {
    match Kind::of_word(kind) {
        Some(kind) => matches!(kind.form(), Form::Text),
        None => false,
    }
}

/// Whether a line writes a text: it begins with a command that writes, a node, a key and the word of a kind of texts.
fn writes_text(line: &[u8]) -> bool {
    let mut words = line.split(|byte| is_space(byte));
    let is_write = matches!(words.next(), Some(b"put" | b"commit" | b"crash"));
    match words.nth(2) {
        Some(kind) => is_write && is_of_texts(kind),
        None => false,
    }
}

/// The words of a line, with one space between two. If there is a space more, or one at an end, an empty word is in
/// that place. `NoMemory`.
///
/// A text that the line writes is one word, with all its spaces. It is everything after `text`, and in a `crash` line
/// it ends before the last space.
pub(crate) fn words_of(alloc: Global, line: &[u8]) -> Result<Vec<&[u8]>, Fault>
    ensures memory { IfErr result (λ fault. fault ≡ Fault.NoMemory) }
{
    if !writes_text(line) {
        return Ok(line.split(|byte| is_space(byte)).collect(alloc)?);
    }
    let words: Vec<&[u8]> = line.splitn(5, |byte| is_space(byte)).collect(alloc)?;
    match *words.as_slice() {
        [b"crash", node, key, kind, behind] => with_end(alloc, [b"crash", node, key, kind], behind),
        _ => Ok(words),
    }
}

/// These words, then the text, and then the last word, if there is one. `NoMemory`.
fn with_end<'a>(
    alloc: Global,
    front: [&'a [u8]; 4],
    behind: &'a [u8],
) -> Result<Vec<&'a [u8]>, Fault>
    ensures memory { IfErr result (λ fault. fault ≡ Fault.NoMemory) }
{
    let mut words = Vec::from_slice(alloc, &front)?;
    match behind.iter().rposition(is_space) {
        Some(place) => {
            words.push(&behind[..place])?;
            words.push(&behind[place + 1..])?;
        }
        None => words.push(behind)?,
    }
    Ok(words)
}

/// Whether no word is empty, except a text that is written.
pub(crate) fn are_words(words: &[&[u8]]) -> bool {
    match *words {
        [b"put" | b"commit" | b"crash", node, key, kind, _] if is_of_texts(kind) => {
            are_filled(&[node, key])
        }
        [b"crash", node, key, kind, _, end] if is_of_texts(kind) => are_filled(&[node, key, end]),
        _ => are_filled(words),
    }
}

fn are_filled(words: &[&[u8]]) -> bool {
    words.iter().all(|word| !word.is_empty())
}

/// Reads a number in decimal digits, which may have leading zeros.
pub(crate) fn number_of(word: &[u8]) -> Option<u64> {
    if !word.iter().all(|byte| byte.is_ascii_digit()) {
        return None;
    }
    str::from_utf8(word).ok()?.parse().ok()
}

/// Reads the number of a connection, 1 to 999,999.
pub(crate) fn connection_of(word: &[u8]) -> Option<u64> {
    match number_of(word)? {
        0 => None,
        number if number > CONNECTION_MOST => None,
        number => Some(number),
    }
}

/// The two words of a value. The second word of a text can have spaces.
#[derive(Clone, Copy)]
pub(crate) struct ValueWords<'a> {
    pub(crate) kind: &'a [u8],
    pub(crate) content: &'a [u8],
}

/// The words of a write: a node, a key, and a value, unless it is a removal.
#[derive(Clone, Copy)]
pub(crate) struct WriteWords<'a> {
    pub(crate) node: &'a [u8],
    pub(crate) key: &'a [u8],
    pub(crate) value: Option<ValueWords<'a>>,
}

impl WriteWords<'_> {
    /// The slot that the write gives the key. `BadValue`, then `NoMemory`.
    #[tactic(auto, using(crate::proofs::Faults::value_fault))]
    fn slot(&self, alloc: Global) -> Result<Slot, Fault>
        ensures slot { IfOk result (IsSlot self.now.value) }
        ensures fault { IfErr result (λ fault. is_word_fault fault ≡ true) }
    {
        match self.value {
            Some(words) => Ok(Slot::Set(Value::from_words(alloc, words.kind, words.content)?)),
            None => Ok(Slot::Removed),
        }
    }

    /// The event by which the node commits the write. `BadName`, `BadKey`, `BadValue`, then `NoMemory`.
    pub(crate) fn commit(&self, alloc: Global) -> Result<Event, Fault>
        ensures event { IfOk result (λ event. (slot : entries.Slot) × IsSlot self.now.value slot × (event ≡ events.Commit self.now.node.now self.now.key.now slot)) }
        ensures fault { IfErr result (λ fault. is_word_fault fault ≡ true) }
    {
        let node = Name::read(self.node)?;
        let key = Key::read(self.key)?;
        Ok(Event::Commit(node, key, self.slot(alloc)?))
    }

    /// The event by which the node crashes in that commit, after the write if `is_kept` is true, else before it. The
    /// faults of `commit`.
    pub(crate) fn crash(&self, alloc: Global, is_kept: bool) -> Result<Event, Fault>
        ensures event { IfOk result (λ event. (slot : entries.Slot) × IsSlot self.now.value slot × (event ≡ events.CrashInCommit self.now.node.now self.now.key.now slot is_kept)) }
        ensures fault { IfErr result (λ fault. is_word_fault fault ≡ true) }
    {
        let node = Name::read(self.node)?;
        let key = Key::read(self.key)?;
        Ok(Event::CrashInCommit(node, key, self.slot(alloc)?, is_kept))
    }
}
