//! What follows from the definitions alone. The functions do nothing: each clause is a law.

ghost use Rattle.std.specs.Prelude.{◌≡◌, ◌==◌, ℕ, ◌∷◌, ◌++◌, List, true, false, Some, Ok};
ghost use Rattle.sb_types.specs.declared.kind.Kind as declared_kind;
ghost use Rattle.sb_types.specs.Kinds as table;
ghost use Rattle.sb_types.specs.Lengths.{value_length};
ghost use Rattle.sb_types.specs.Spelling.{printed_text, is_one_line};
ghost use Rattle.sb_types.specs.Value as values;

use crate::format::{
    BLOCK_HEAD_MOST, BYTE_LENGTH, COUNT_LENGTH, ENTRY_LENGTH_MOST, FRAME_MARK, FRAME_VERSION,
    HEADER_LENGTH, KEY_LENGTH_MOST, KIND_AGES, KIND_ASK, KIND_ASK_AGES, KIND_ASK_CHANGE,
    KIND_ASK_STATUS, KIND_BYE, KIND_DELTA, KIND_DIGEST, KIND_DONE, KIND_HELLO, KIND_NODE_STATUS,
    KIND_NOTICE, KIND_PUT, KIND_REFUSED, KIND_ROWS, NAME_LENGTH_MOST, NUMBER_LENGTH, REASON_MOST,
    REASON_ROUNDS_DONE, SHORT_TEXT_LENGTH_MOST, TAG_ADDR, TAG_FLAG, TAG_REMOVED, TAG_TEXT,
    TAG_WEIGHT, VALUE_LENGTH_MOST,
};
use crate::limits::{
    ADDR_MOST, BUDGET_LEAST, BUDGET_MOST, ENTRIES_MOST, FAULT_NUMBER_MOST, KEY_MOST, KEYS_MOST,
    NAME_MOST, OWNERS_MOST, PAYLOAD_MOST, SEATS_MOST, SHORT_TEXT_MOST, TEXT_MOST, VERSION_MOST,
    WEIGHT_MOST, WORKERS_MOST,
};

/// Each limit of the directory is this number.
pub fn limits_are_these_numbers()
    ensures name_most { NAME_MOST ≡ 32 }
    ensures key_most { KEY_MOST ≡ 64 }
    ensures addr_most { ADDR_MOST ≡ 128 }
    ensures text_most { TEXT_MOST ≡ 512 }
    ensures short_text_most { SHORT_TEXT_MOST ≡ 128 }
    ensures weight_most { WEIGHT_MOST ≡ 9223372036854775807 }
    ensures owners_most { OWNERS_MOST ≡ 1024 }
    ensures keys_most { KEYS_MOST ≡ 4096 }
    ensures entries_most { ENTRIES_MOST ≡ 65535 }
    ensures version_most { VERSION_MOST ≡ 1099511627775 }
    ensures seats_most { SEATS_MOST ≡ 64 }
    ensures workers_most { WORKERS_MOST ≡ 62 }
    ensures budget_least { BUDGET_LEAST ≡ 1024 }
    ensures payload_most { PAYLOAD_MOST ≡ 65530 }
    ensures budget_most { BUDGET_MOST ≡ 65536 }
    ensures fault_number_most { FAULT_NUMBER_MOST ≡ 31 }
{}

/// Each mark, kind, tag and reason of the format is this number.
pub fn marks_are_these_numbers()
    ensures frame_mark { FRAME_MARK ≡ 167 }
    ensures frame_version { FRAME_VERSION ≡ 3 }
    ensures kind_hello { KIND_HELLO ≡ 1 }
    ensures kind_digest { KIND_DIGEST ≡ 2 }
    ensures kind_delta { KIND_DELTA ≡ 3 }
    ensures kind_bye { KIND_BYE ≡ 4 }
    ensures kind_ask { KIND_ASK ≡ 16 }
    ensures kind_rows { KIND_ROWS ≡ 17 }
    ensures kind_put { KIND_PUT ≡ 18 }
    ensures kind_done { KIND_DONE ≡ 19 }
    ensures kind_refused { KIND_REFUSED ≡ 20 }
    ensures kind_ask_status { KIND_ASK_STATUS ≡ 21 }
    ensures kind_node_status { KIND_NODE_STATUS ≡ 22 }
    ensures kind_ask_change { KIND_ASK_CHANGE ≡ 23 }
    ensures kind_notice { KIND_NOTICE ≡ 24 }
    ensures kind_ask_ages { KIND_ASK_AGES ≡ 25 }
    ensures kind_ages { KIND_AGES ≡ 26 }
    ensures tag_removed { TAG_REMOVED ≡ 0 }
    ensures tag_addr { TAG_ADDR ≡ 1 }
    ensures tag_weight { TAG_WEIGHT ≡ 2 }
    ensures tag_flag { TAG_FLAG ≡ 3 }
    ensures tag_text { TAG_TEXT ≡ 4 }
    ensures reason_rounds_done { REASON_ROUNDS_DONE ≡ 1 }
    ensures reason_most { REASON_MOST ≡ 5 }
{}

/// Each part of a message takes this many bytes.
pub fn lengths_are_these_numbers()
    ensures header_length { HEADER_LENGTH ≡ 6 }
    ensures byte_length { BYTE_LENGTH ≡ 1 }
    ensures count_length { COUNT_LENGTH ≡ 2 }
    ensures number_length { NUMBER_LENGTH ≡ 8 }
    ensures name_length_most { NAME_LENGTH_MOST ≡ 33 }
    ensures key_length_most { KEY_LENGTH_MOST ≡ 65 }
    ensures short_text_length_most { SHORT_TEXT_LENGTH_MOST ≡ 129 }
    ensures value_length_most { VALUE_LENGTH_MOST ≡ 514 }
    ensures entry_length_most { ENTRY_LENGTH_MOST ≡ 588 }
    ensures block_head_most { BLOCK_HEAD_MOST ≡ 59 }
{}

/// Different values have different words, and a printed value, cut at its first space, is its two words. So a printed
/// value is read back as that value alone. It contains no control byte, so a line that contains it stays one line.
pub fn words_tell_values_apart()
    ensures apart { (a b : values.Value) → values.is_value a ≡ true → values.is_value b ≡ true → values.words_of a ≡ values.words_of b → a ≡ b }
    ensures cut { (a : values.Value) (kind word : List ℕ) → values.is_word kind ≡ true → values.line_of a ≡ kind ++ 32 ∷ word → values.words_of a ≡ (kind, word) }
    ensures line { (a : values.Value) → values.is_value a ≡ true → is_one_line (values.line_of a) ≡ true }
{}

/// Different texts have different spellings, whatever their length and bytes. A spelling contains no control byte.
pub fn spellings_tell_texts_apart()
    ensures apart { (a b : List ℕ) → printed_text a ≡ printed_text b → a ≡ b }
    ensures line { (text : List ℕ) → is_one_line (printed_text text) ≡ true }
{}

/// A value is its kind and its content: both together make it again, and its words and its length come of them. Each
/// kind has a tag of its own, which is not that of a tombstone.
pub fn kind_and_content_make_a_value()
    ensures tag { (kind : declared_kind.Kind) → table.kind_of_tag (table.tag_of kind) ≡ Some kind }
    ensures tagged { (tag : ℕ) (kind : declared_kind.Kind) → table.kind_of_tag tag ≡ Some kind → table.tag_of kind ≡ tag }
    ensures not_removed { (kind : declared_kind.Kind) → (table.tag_of kind == TAG_REMOVED) ≡ false }
    ensures form { (value : values.Value) → table.form_in (table.content_of value) ≡ table.form_of (table.kind_of value) }
    ensures words { (value : values.Value) → values.words_of value ≡ (table.word_of (table.kind_of value), table.content_word (table.content_of value)) }
    ensures length { (value : values.Value) → value_length value ≡ table.content_length (table.content_of value) }
    ensures again { (value : values.Value) → values.is_value value ≡ true → table.value_of (table.kind_of value) (table.content_of value) ≡ Ok value }
    ensures parts { (kind : declared_kind.Kind) (content : table.Content) (value : values.Value) → table.value_of kind content ≡ Ok value →
        (table.kind_of value ≡ kind) × (table.content_of value ≡ content) × (values.is_value value ≡ true) }
{}
