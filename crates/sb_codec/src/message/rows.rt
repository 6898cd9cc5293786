//! Rows, and pages of them.

ghost use Rattle.std.specs.Prelude.{◌≡◌, ◌≤◌, ◌&&◌, [], nat_le, true, Some, None, OnSome, if◌then◌else◌, Ok, Err};
ghost use Rattle.std.specs.List.{list_all};
ghost use Rattle.sb_codec.specs.Records.{row_of, rows_of};
ghost use Rattle.sb_codec.specs.Lengths.{row_length, rows_length};
ghost use Rattle.sb_codec.specs.Limits.{is_row, is_version, are_rows_above, are_page_rows, is_page};

use sb_types::{
    BYTE_LENGTH, COUNT_LENGTH, Fault, KEY_LENGTH_MOST, KIND_ROWS, Key, NAME_LENGTH_MOST,
    NUMBER_LENGTH, Name, PAYLOAD_MOST, VALUE_LENGTH_MOST, Value,
};
use std::marker::Model;

/// The most bytes that a row takes: a name, a key, a version, a tag and a value.
const ROW_LENGTH_MOST: u64 = NAME_LENGTH_MOST
    + KEY_LENGTH_MOST
    + NUMBER_LENGTH
    + BYTE_LENGTH
    + VALUE_LENGTH_MOST;

/// What an owner has under a key: a value, and the version of its write, which is at least 1.
#[derive(Debug, Drop)]
pub struct Row {
    owner: Name,
    key: Key,
    version: u64,
    value: Value,
}

impl Model for Row {
    ghost use Rattle.std.specs.Prelude.{◌≡◌, true};
    ghost use Rattle.sb_codec.specs.Records as records;

    ghost Value = { records.Row };

    ghost use Rattle.sb_codec.specs.Records.{row_of};
    ghost use Rattle.sb_codec.specs.Limits.{is_row};

    ghost view = { λ r. row_of r.owner r.key r.version r.value };

    ghost invariant = { λ r. is_row (row_of r.owner r.key r.version r.value) ≡ true };
}

/// A page of rows, ascending by owner and then by key, and whether more rows follow. It may have no rows. Its payload
/// has at most 65,530 bytes.
#[derive(Debug, Drop)]
pub struct Rows {
    more: bool,
    rows: Vec<Row>,
    /// How many bytes the payload takes.
    length: u64,
}

impl Model for Rows {
    ghost use Rattle.std.specs.Prelude.{◌≡◌, true};
    ghost use Rattle.sb_codec.specs.Records as records;

    ghost Value = { records.Rows };

    ghost use Rattle.sb_codec.specs.Records.{rows_of};
    ghost use Rattle.sb_codec.specs.Lengths.{rows_length};
    ghost use Rattle.sb_codec.specs.Limits.{is_page};

    ghost view = { λ r. rows_of r.more r.rows.items };

    ghost invariant = { λ r. (is_page (rows_of r.more r.rows.items) ≡ true) × (r.length ≡ rows_length r.rows.items) };
}

/// Returns whether each row is after the one before it, by owner and then by key.
fn are_rows_ascending(rows: &[Row]) -> bool
    ensures { result ≡ are_rows_above [] [] rows.now }
{
    let mut last_owner: &[u8] = &[];
    let mut last_key: &[u8] = &[];
    for row in rows {
        let owner = row.owner().bytes();
        let key = row.key().bytes();
        if !last_owner.cmp(owner).then(last_key.cmp(key)).is_lt() {
            return false;
        }
        last_owner = owner;
        last_key = key;
    }
    true
}

/// Returns how many bytes the payload of these rows takes, if that is within the limit.
fn length_within(rows: &[Row]) -> Option<u64>
    ensures length { result ≡ (if nat_le (rows_length rows.now) PAYLOAD_MOST then Some (rows_length rows.now) else None) }
    ensures each { OnSome result (list_all is_row rows.now ≡ true) }
{
    let mut length = BYTE_LENGTH + BYTE_LENGTH + COUNT_LENGTH;
    for row in rows {
        length += row.encoded_length();
        if length > PAYLOAD_MOST {
            return None;
        }
    }
    Some(length)
}

impl Row {
    /// Makes a row of these parts. If the version is 0, it drops the value and returns `Malformed(KIND_ROWS)`. It takes
    /// no memory.
    pub fn new(owner: Name, key: Key, version: u64, value: Value) -> Result<Row, Fault>
        ensures { result ≡ (if is_version version then Ok (row_of owner key version value) else Err (Fault.Malformed KIND_ROWS)) }
    {
        if version == 0 {
            return Err(Fault::Malformed(KIND_ROWS));
        }
        // Proof only: the calls show that the parts keep their limits.
        let _ = owner.bytes();
        let _ = key.bytes();
        let _ = value.encoded_length();
        Ok(Row {
            owner,
            key,
            version,
            value,
        })
    }

    /// Returns whose row it is.
    pub fn owner(&self) -> &Name
        ensures owner { result.now ≡ self.now.owner }
        ensures row { is_row self.now ≡ true }
    {
        &self.owner
    }

    /// Returns the key of the value.
    pub fn key(&self) -> &Key
        ensures key { result.now ≡ self.now.key }
        ensures row { is_row self.now ≡ true }
    {
        &self.key
    }

    /// Returns the version of the write, at least 1.
    pub fn version(&self) -> u64
        ensures version { result ≡ self.now.version }
        ensures row { is_row self.now ≡ true }
    {
        self.version
    }

    /// Returns the value that was written.
    pub fn value(&self) -> &Value
        ensures value { result.now ≡ self.now.value }
        ensures row { is_row self.now ≡ true }
    {
        &self.value
    }

    /// Returns how many bytes the row takes in a message: 14 to 621.
    pub fn encoded_length(&self) -> u64
        ensures length { result ≡ row_length self.now }
        ensures row { is_row self.now ≡ true }
        ensures most { result ≤ ROW_LENGTH_MOST }
    {
        let owner_length = BYTE_LENGTH + self.owner.bytes().len() as u64;
        let key_length = BYTE_LENGTH + self.key.bytes().len() as u64;
        owner_length + key_length + NUMBER_LENGTH + BYTE_LENGTH + self.value.encoded_length()
    }
}

impl Rows {
    /// Makes a page of these rows. It takes no memory. If a limit is broken, it drops the rows and returns
    /// `Malformed(KIND_ROWS)`:
    ///
    /// - a row's owner and key are not after those of the row before it;
    /// - the payload would have more than 65,530 bytes.
    pub fn new(more: bool, rows: Vec<Row>) -> Result<Rows, Fault>
        ensures { result ≡ (if are_page_rows rows.items then Ok (rows_of more rows.items) else Err (Fault.Malformed KIND_ROWS)) }
    {
        if !are_rows_ascending(&rows) {
            return Err(Fault::Malformed(KIND_ROWS));
        }
        let Some(length) = length_within(&rows) else {
            return Err(Fault::Malformed(KIND_ROWS));
        };
        Ok(Rows { more, rows, length })
    }

    /// Returns whether more rows follow after this page.
    pub fn more(&self) -> bool
        ensures more { result ≡ self.now.more }
        ensures page { is_page self.now ≡ true }
    {
        self.more
    }

    /// Returns the rows, ascending by owner and then by key.
    pub fn rows(&self) -> &[Row]
        ensures rows { result.now ≡ self.now.rows }
        ensures page { is_page self.now ≡ true }
    {
        &self.rows
    }

    /// Returns how many bytes the payload takes: 4 to 65,530.
    pub fn encoded_length(&self) -> u64
        ensures length { result ≡ rows_length self.now.rows }
        ensures page { is_page self.now ≡ true }
    {
        self.length
    }
}
