//! The spelling of texts: a backslash and two digits in place of each control byte and of the backslash.
ghost use Rattle.std.specs.Prelude.{◌≡◌, ◌≢◌, ℕ, ◌<◌, ◌≤◌, ◌/◌, ◌%◌, ◌++◌, ◌∷◌, List, true, IfSome, IfNone, length, take, drop};
ghost use Rattle.std.specs.Char.{digit_char};
ghost use Rattle.sb_types.specs.Spelling.{is_escaped, printed_byte, printed_text};

use crate::limits::TEXT_MOST;

/// Returns whether a byte is spelled by a backslash and two digits.
fn is_escaped(byte: u8) -> bool
    ensures { result ≡ is_escaped byte }
{
    byte < 32 || byte == 127 || byte == b'\\'
}

/// Returns the number of a digit of 0-9 and a-f.
fn digit_of(byte: u8) -> Option<u8>
    ensures some { IfSome result (λ digit. (digit < 16) × (digit_char digit ≡ byte)) }
    ensures none { IfNone result ((digit : ℕ) → digit < 16 → digit_char digit ≢ byte) }
{
    match byte {
        b'0'..=b'9' => Some(byte - b'0'),
        b'a'..=b'f' => Some(byte - b'a' + 10),
        _ => None,
    }
}

/// Returns the byte that two digits spell.
fn escape_of(high: u8, low: u8) -> Option<u8>
    ensures some { IfSome result (λ byte. (is_escaped byte ≡ true) × (digit_char (byte / 16) ≡ high) × (digit_char (byte % 16) ≡ low)) }
    ensures none { IfNone result ((byte : ℕ) → is_escaped byte ≡ true → digit_char (byte / 16) ≡ high → digit_char (byte % 16) ≢ low) }
{
    let byte = digit_of(high)? * 16 + digit_of(low)?;
    if is_escaped(byte) { Some(byte) } else { None }
}

/// Returns the byte that is spelled first, and how many bytes its spelling takes.
fn first_byte(word: &[u8]) -> Option<(u8, usize)>
    ensures some { IfSome result (λ p. (1 ≤ p.1) × (p.1 ≤ length word.now) × (word.now ≡ printed_byte p.0 ++ drop p.1 word.now)) }
    ensures none { IfNone result ((byte : ℕ) (rest : List ℕ) → word.now ≢ printed_byte byte ++ rest) }
{
    let first = *word.first()?;
    if first == b'\\' {
        let byte = escape_of(*word.get(1)?, *word.get(2)?)?;
        return Some((byte, 3));
    }
    if is_escaped(first) {
        return None;
    }
    Some((first, 1))
}

/// Writes the bytes that a word spells at the beginning of the room, and returns how many there are. Returns `None` if
/// the word is not a spelling, or spells more bytes than fit.
pub(crate) fn unescape(word: &[u8], room: &mut [u8; TEXT_MOST]) -> Option<usize>
    ensures some { IfSome result (λ count. (count ≤ TEXT_MOST) × (word.now ≡ printed_text (take count room.new))) }
    ensures none { IfNone result ((text : List ℕ) → length text ≤ TEXT_MOST → word.now ≢ printed_text text) }
{
    let mut rest = word;
    let mut count = 0;
    while !rest.is_empty() {
        let (byte, length) = first_byte(rest)?;
        if count == TEXT_MOST {
            return None;
        }
        room[count] = byte;
        count += 1;
        rest = &rest[length..];
    }
    Some(count)
}
