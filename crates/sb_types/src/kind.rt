//! The kinds of values: the table from which words, messages, logs and JSON read.

ghost use Rattle.std.specs.Prelude.{◌≡◌, ◌≢◌, IfSome, IfNone};
ghost use Rattle.sb_types.specs.declared.kind.Kind as kinds;
ghost use Rattle.sb_types.specs.Kinds as table;

use crate::format::{TAG_ADDR, TAG_FLAG, TAG_TEXT, TAG_WEIGHT};

/// A kind of value.
#[derive(Clone, Copy, Debug, PartialEq, Eq)]
pub enum Kind {
    Addr,
    Weight,
    Flag,
    Text,
}

/// What the contents of a kind are. Messages, logs, lines and JSON have one spelling for each form.
#[derive(Clone, Copy, Debug, PartialEq, Eq)]
pub enum Form {
    /// At most 255 printing bytes without a space. A line has them as they are.
    Word,
    /// At most 65,535 bytes of UTF-8. A line has their spelling.
    Text,
    /// A number below 2^63.
    Number,
    /// True or false.
    Truth,
}

/// A view of what a value holds, whatever its kind: one variant for each form. It borrows the bytes of a word or text.
#[derive(Clone, Copy, Debug, PartialEq, Eq)]
pub enum ContentRef<'a> {
    Word(&'a [u8]),
    Text(&'a [u8]),
    Number(u64),
    Truth(bool),
}

impl Kind {
    /// Returns the word of the kind, the first of the two words of a value.
    pub fn word(self) -> &'static str
        ensures word { result.now ≡ table.word_of self }
    {
        match self {
            Kind::Addr => "addr",
            Kind::Weight => "weight",
            Kind::Flag => "flag",
            Kind::Text => "text",
        }
    }

    /// Returns the kind of a word, and `None` for any other word.
    pub fn of_word(word: &[u8]) -> Option<Kind>
        ensures some { IfSome result (λ kind. table.word_of kind ≡ word.now) }
        ensures none { IfNone result ((kind : kinds.Kind) → table.word_of kind ≢ word.now) }
    {
        match word {
            b"addr" => Some(Kind::Addr),
            b"weight" => Some(Kind::Weight),
            b"flag" => Some(Kind::Flag),
            b"text" => Some(Kind::Text),
            _ => None,
        }
    }

    /// Returns the tag of the kind, in messages and in logs.
    pub fn tag(self) -> u8
        ensures tag { result ≡ table.tag_of self }
    {
        match self {
            Kind::Addr => TAG_ADDR,
            Kind::Weight => TAG_WEIGHT,
            Kind::Flag => TAG_FLAG,
            Kind::Text => TAG_TEXT,
        }
    }

    /// Returns the kind of a tag. Returns `None` for the tag of a tombstone, and for any number that is not a tag.
    pub fn of_tag(tag: u8) -> Option<Kind>
        ensures kind { result ≡ table.kind_of_tag tag }
    {
        match tag {
            TAG_ADDR => Some(Kind::Addr),
            TAG_WEIGHT => Some(Kind::Weight),
            TAG_FLAG => Some(Kind::Flag),
            TAG_TEXT => Some(Kind::Text),
            _ => None,
        }
    }

    /// Returns the form of the contents of the kind.
    pub fn form(self) -> Form
        ensures form { result ≡ table.form_of self }
    {
        match self {
            Kind::Addr => Form::Word,
            Kind::Weight => Form::Number,
            Kind::Flag => Form::Truth,
            Kind::Text => Form::Text,
        }
    }
}
