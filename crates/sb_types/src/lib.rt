//! The values of the directory: names, keys, values, entries, blocks, deltas, settings and faults.
//!
//! Each type keeps its limits: a value that exists is within them, so no code above has to test it again. Contracts see
//! each value as plain data: the records of `specs/`.
//!
//! ```rust
//! /// What an owner wrote under a key, with the version of the write.
//! fn entry_of_words(alloc: Global) -> Result<Entry, Fault> {
//!     let key = Key::read(b"web/weight")?;
//!     let value = Value::from_words(alloc, b"weight", b"5")?;
//!     Ok(Entry::new(key, 1, Slot::Set(value)))
//! }
//! ```
//!
//! # What no contract refuses
//!
//! - `Display` of a `Value` gives up, for instance for a long address. No clause sees that a writer of text refused. A
//!   test prints the longest address.
//! - A fault has another text. Tests refuse it.
//! - `Debug` prints another text. Nothing refuses it.
//! - `addr`, `text`, `from_words` or `copy` reports `NoMemory` without need, for a valid address or text. Tests run
//!   each such call with ample memory, and compare exact answers. Clauses refuse it for weights, for flags, and for
//!   tombstones (the markers of removed keys).
//! - `SharedEntry::new` or `share` reports `NoMemory` without need. Tests run both with ample memory.
//! - A vector takes more room than it needs, or a call takes longer than it should. Nothing refuses it; `attrdir_bench`
//!   measures.
#![tactic(auto)]

mod block;
mod delta;
mod distinct;
mod entry;
mod escapes;
mod fault;
mod format;
mod inline;
mod kind;
mod laws;
mod limits;
mod settings;
mod shared;
mod spelled;
mod text;
mod value;

pub use block::Block;
pub use delta::Delta;
pub use distinct::are_keys_distinct;
pub use entry::{Entry, Slot, Write};
pub use fault::Fault;
pub use format::{
    BLOCK_HEAD_MOST, BYTE_LENGTH, COUNT_LENGTH, ENTRY_LENGTH_MOST, FRAME_MARK, FRAME_VERSION,
    HEADER_LENGTH, KEY_LENGTH_MOST, KIND_AGES, KIND_ASK, KIND_ASK_AGES, KIND_ASK_CHANGE,
    KIND_ASK_STATUS, KIND_BYE, KIND_DELTA, KIND_DIGEST, KIND_DONE, KIND_HELLO, KIND_NODE_STATUS,
    KIND_NOTICE, KIND_PUT, KIND_REFUSED, KIND_ROWS, NAME_LENGTH_MOST, NUMBER_LENGTH, REASON_MOST,
    REASON_ROUNDS_DONE, SHORT_TEXT_LENGTH_MOST, TAG_ADDR, TAG_FLAG, TAG_REMOVED, TAG_TEXT,
    TAG_WEIGHT, VALUE_LENGTH_MOST,
};
pub use kind::{ContentRef, Form, Kind};
pub use laws::{
    kind_and_content_make_a_value, lengths_are_these_numbers, limits_are_these_numbers,
    marks_are_these_numbers, spellings_tell_texts_apart, words_tell_values_apart,
};
pub use limits::{
    ADDR_MOST, BUDGET_LEAST, BUDGET_MOST, ENTRIES_MOST, FAULT_NUMBER_MOST, KEY_MOST, KEYS_MOST,
    NAME_MOST, OWNERS_MOST, PAYLOAD_MOST, SEATS_MOST, SHORT_TEXT_MOST, TEXT_MOST, VERSION_MOST,
    WEIGHT_MOST, WORKERS_MOST,
};
pub use settings::{Order, RawSettings, Settings};
pub use shared::SharedEntry;
pub use spelled::Spelled;
pub use text::{Key, Name, Prefix, ShortText};
pub use value::{Value, ValueRef};
