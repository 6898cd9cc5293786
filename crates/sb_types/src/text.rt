//! Names, keys, prefixes and short texts.

ghost use Rattle.std.specs.Prelude.{◌≡◌, ℕ, List, true, if◌then◌else◌, Ok, Err};
ghost use Rattle.std.specs.List.{list_all};
ghost use Rattle.std.specs.Ordering.{nat_cmp, is_le};
ghost use Rattle.std.specs.Cmp.Lexicographic.{slice_cmp};
ghost use Rattle.std.specs.BTreeMap.Range.{is_from_start};
ghost use Rattle.sb_types.specs.Text.{is_name_byte, is_key_byte, is_name, is_key, is_prefix, is_short_text};

use crate::fault::Fault;
use crate::inline::InlineText;
use crate::limits::{KEY_MOST, NAME_MOST, SHORT_TEXT_MOST};
use crate::value::test_utf8;
use std::marker::Model;
use std::ops::Bound;

fn test_name_byte(byte: u8) -> bool
    ensures { result ≡ is_name_byte byte }
{
    matches!(byte, b'a'..=b'z' | b'0'..=b'9' | b'-')
}

fn test_key_byte(byte: u8) -> bool
    ensures { result ≡ is_key_byte byte }
{
    matches!(byte, b'a'..=b'z' | b'0'..=b'9' | b'.' | b'_' | b'/' | b'-')
}

fn has_name_bytes(text: &[u8]) -> bool
    ensures { result ≡ list_all is_name_byte text.now }
{
    text.iter().all(|byte| test_name_byte(*byte))
}

fn has_key_bytes(text: &[u8]) -> bool
    ensures { result ≡ list_all is_key_byte text.now }
{
    text.iter().all(|byte| test_key_byte(*byte))
}

/// A name of 1 to 32 of the bytes `a-z`, `0-9` and `-`. It names a cluster, or a node, which is also the owner of the
/// writes that it makes. Names are ordered by their bytes.
///
/// ```
/// let name = Name::read(b"node-7")?;
/// assert_eq!(rt; name.bytes(), b"node-7".as_slice());
/// assert!(rt; matches!(Name::read(b"Node 7"), Err(Fault::BadName)));
/// ```
///
/// The test `example_of_names` runs these lines.
#[derive(Clone, Copy, Debug, PartialEq, Eq, PartialOrd, Ord)]
pub struct Name {
    text: InlineText<NAME_MOST>,
}

impl Model for Name {
    ghost use Rattle.std.specs.Prelude.{◌≡◌, ℕ, List, true};
    ghost use Rattle.sb_types.specs.Text.{is_name};

    ghost Value = { List ℕ };

    ghost view = { λ name. name.text };

    ghost invariant = { λ name. is_name name.text ≡ true };

    ghost inverse = { λ text. record { text = text } };
}

impl Name {
    /// Reads a name. Returns `BadName` if the text is not a name.
    pub fn read(text: &[u8]) -> Result<Name, Fault>
        ensures { result ≡ (if is_name text.now then Ok text.now else Err Fault.BadName) }
    {
        if text.is_empty() || text.len() > NAME_MOST || !has_name_bytes(text) {
            return Err(Fault::BadName);
        }
        Ok(Name {
            text: InlineText::new(text),
        })
    }

    /// Returns the bytes of the name.
    pub fn bytes(&self) -> &[u8]
        ensures text { result.now ≡ self.now }
        ensures name { is_name self.now ≡ true }
    {
        self.text.bytes()
    }
}

/// A key, under which an owner keeps a value: 1 to 64 of the bytes `a-z`, `0-9`, `.`, `_`, `/` and `-`. Keys are
/// ordered by their bytes.
#[derive(Clone, Copy, Debug, PartialEq, Eq, PartialOrd, Ord)]
pub struct Key {
    text: InlineText<KEY_MOST>,
}

impl Model for Key {
    ghost use Rattle.std.specs.Prelude.{◌≡◌, ℕ, List, true};
    ghost use Rattle.sb_types.specs.Text.{is_key};

    ghost Value = { List ℕ };

    ghost view = { λ key. key.text };

    ghost invariant = { λ key. is_key key.text ≡ true };

    ghost inverse = { λ text. record { text = text } };
}

impl Key {
    /// Reads a key. Returns `BadKey` if the text is not a key.
    pub fn read(text: &[u8]) -> Result<Key, Fault>
        ensures { result ≡ (if is_key text.now then Ok text.now else Err Fault.BadKey) }
    {
        if text.is_empty() || text.len() > KEY_MOST || !has_key_bytes(text) {
            return Err(Fault::BadKey);
        }
        Ok(Key {
            text: InlineText::new(text),
        })
    }

    /// Returns the bytes of the key.
    pub fn bytes(&self) -> &[u8]
        ensures text { result.now ≡ self.now }
        ensures key { is_key self.now ≡ true }
    {
        self.text.bytes()
    }
}

/// The beginning of keys: 0 to 64 of the bytes that a key may have. Prefixes are ordered by their bytes.
#[derive(Clone, Copy, Debug, PartialEq, Eq, PartialOrd, Ord)]
pub struct Prefix {
    text: InlineText<KEY_MOST>,
}

impl Model for Prefix {
    ghost use Rattle.std.specs.Prelude.{◌≡◌, ℕ, List, true};
    ghost use Rattle.sb_types.specs.Text.{is_prefix};

    ghost Value = { List ℕ };

    ghost view = { λ prefix. prefix.text };

    ghost invariant = { λ prefix. is_prefix prefix.text ≡ true };

    ghost inverse = { λ text. record { text = text } };
}

impl Prefix {
    /// Reads a prefix. Returns `BadKey` if the text is not a prefix.
    pub fn read(text: &[u8]) -> Result<Prefix, Fault>
        ensures { result ≡ (if is_prefix text.now then Ok text.now else Err Fault.BadKey) }
    {
        if text.len() > KEY_MOST || !has_key_bytes(text) {
            return Err(Fault::BadKey);
        }
        Ok(Prefix {
            text: InlineText::new(text),
        })
    }

    /// Returns the bytes of the prefix.
    pub fn bytes(&self) -> &[u8]
        ensures text { result.now ≡ self.now }
        ensures prefix { is_prefix self.now ≡ true }
    {
        self.text.bytes()
    }

    /// Returns the bound at which a range of a map by key begins, so that it has just the keys at or after the prefix.
    pub fn start(&self) -> Bound<Key>
        ensures { (key : List ℕ) → is_from_start (slice_cmp nat_cmp) result key ≡ is_le (slice_cmp nat_cmp self.now key) }
    {
        match Key::read(self.bytes()) {
            Ok(key) => Bound::Included(key),
            Err(_) => Bound::Unbounded,
        }
    }
}

/// A short text: 1 to 128 bytes of UTF-8. A node tells its release in one, and the paths of sockets.
#[derive(Clone, Copy, Debug, PartialEq, Eq)]
pub struct ShortText {
    text: InlineText<SHORT_TEXT_MOST>,
}

impl Model for ShortText {
    ghost use Rattle.std.specs.Prelude.{◌≡◌, ℕ, List, true};
    ghost use Rattle.sb_types.specs.Text.{is_short_text};

    ghost Value = { List ℕ };

    ghost view = { λ short. short.text };

    ghost invariant = { λ short. is_short_text short.text ≡ true };

    ghost inverse = { λ text. record { text = text } };
}

impl ShortText {
    /// Reads a short text. Returns `BadValue` if it is not UTF-8 of 1 to 128 bytes.
    pub fn read(text: &[u8]) -> Result<ShortText, Fault>
        ensures { result ≡ (if is_short_text text.now then Ok text.now else Err Fault.BadValue) }
    {
        if text.is_empty() || text.len() > SHORT_TEXT_MOST || !test_utf8(text) {
            return Err(Fault::BadValue);
        }
        Ok(ShortText {
            text: InlineText::new(text),
        })
    }

    /// Returns the bytes of the text.
    pub fn bytes(&self) -> &[u8]
        ensures text { result.now ≡ self.now }
        ensures short { is_short_text self.now ≡ true }
    {
        self.text.bytes()
    }
}
