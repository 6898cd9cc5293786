//! Rows as JSON.
ghost use Rattle.std.specs.Prelude.{◌≡◌, ◌∷◌, ◌++◌, [], false, map, IsUtf8, OnOk, OnErr, IfOk, IfErr};
ghost use Rattle.sb_types.specs.Kinds.{word_of, kind_of, content_of};
ghost use Rattle.sb_frames.specs.Sending.{Sends, OnlyWhereFailed};
ghost use Rattle.serde_json.specs.View.{view};
ghost use Rattle.serde_json.specs.Written.{compact_text, has_float, items_text};
ghost use Rattle.sb_listing.specs.Json.{content_data, object_data, row_data, items_of, rows_data, json_line, json_lines};

use sb_codec::{Row, Rows};
use sb_frames::{LastWrite, write_counted};
use sb_types::{ContentRef, Fault};
use serde_json::{Value, json};
use std::alloc::{AllocError, Global};
use std::io::Write;

/// Bytes that are UTF-8, as text.
fn text_of(bytes: &[u8]) -> &str
    requires { IsUtf8 bytes.now }
    ensures { result.now ≡ bytes.now }
{
    str::from_utf8(bytes).unwrap_or("")
}

/// The word for the kind of a value.
fn kind_of(value: &sb_types::Value) -> &'static str
    ensures { result.now ≡ word_of (kind_of value.now) }
{
    value.kind().word()
}

/// What a value holds: a text, a number, or true or false. A text is as it is, and not as lines spell it.
fn json_of(alloc: Global, value: &sb_types::Value) -> Result<Value, AllocError>
    ensures { IfOk result (λ json. view json ≡ content_data (content_of value.now)) }
{
    match value.content() {
        ContentRef::Word(text) => Value::try_from_str(alloc, text_of(text)),
        ContentRef::Text(text) => Value::try_from_str(alloc, text_of(text)),
        ContentRef::Number(number) => Ok(Value::from(number)),
        ContentRef::Truth(truth) => Ok(Value::from(truth)),
    }
}

/// The object of these members. They are in the order of their names: `serde_json` sorts them, and its contract gives
/// that text. Numbers keep all their digits, and readers that use floats round great ones.
fn object_with(
    alloc: Global,
    key: &str,
    kind: &str,
    owner: &str,
    value: &Value,
    version: u64,
) -> Result<Value, AllocError>
    ensures { IfOk result (λ json. view json ≡ object_data key.now kind.now owner.now (view value.now) version) }
{
    json!(in alloc; {"key": key, "kind": kind, "owner": owner, "value": value, "version": version})
}

/// The object of a row.
fn object_of(alloc: Global, row: &Row) -> Result<Value, AllocError>
    ensures object { IfOk result (λ json. view json ≡ row_data row.now) }
    ensures plain { IfOk result (λ json. has_float (view json) ≡ false) }
{
    let key = text_of(row.key().bytes());
    let kind = kind_of(row.value());
    let owner = text_of(row.owner().bytes());
    let value = json_of(alloc, row.value())?;
    object_with(alloc, key, kind, owner, &value, row.version())
}

/// Adds the object of a row, without spaces and without the end of a line. `NoMemory`, with nothing added.
pub fn add_json_object(alloc: Global, out: &mut Vec<u8>, row: &Row) -> Result<(), Fault>
    ensures added { OnOk result (out.new.items ≡ out.old.items ++ compact_text (row_data row.now)) }
    ensures left { OnErr result (out.new.items ≡ out.old.items) }
    ensures memory { IfErr result (λ fault. fault ≡ Fault.NoMemory) }
{
    let object = object_of(alloc, row)?;
    let text = object.to_vec(alloc)?;
    out.extend_from_slice(&text)?;
    Ok(())
}

/// Adds rows as the items of an array, with commas between them, and the end of the array. `NoMemory`.
fn add_items(alloc: Global, out: &mut Vec<u8>, rows: &[Row]) -> Result<(), Fault>
    ensures added { OnOk result (out.new.items ≡ out.old.items ++ items_text false (items_of (map row_data rows.now))) }
    ensures memory { IfErr result (λ fault. fault ≡ Fault.NoMemory) }
{
    let mut is_later = false;
    for row in rows {
        if is_later {
            out.push(b',')?;
        }
        add_json_object(alloc, out, row)?;
        is_later = true;
    }
    out.push(b']')?;
    Ok(())
}

/// Adds the array of the objects of these rows, without spaces and without the end of a line. `NoMemory`, with a part of the
/// array added, or nothing.
pub fn add_json_array(alloc: Global, out: &mut Vec<u8>, rows: &[Row]) -> Result<(), Fault>
    ensures added { OnOk result (out.new.items ≡ out.old.items ++ compact_text (rows_data rows.now)) }
    ensures memory { IfErr result (λ fault. fault ≡ Fault.NoMemory) }
{
    out.push(b'[')?;
    add_items(alloc, out, rows)
}

fn add_json(alloc: Global, out: &mut Vec<u8>, row: &Row) -> Result<(), Fault>
    ensures added { OnOk result (out.new.items ≡ out.old.items ++ json_line row.now) }
    ensures memory { IfErr result (λ fault. fault ≡ Fault.NoMemory) }
{
    add_json_object(alloc, out, row)?;
    out.push(b'\n')?;
    Ok(())
}

/// The lines of these rows. `NoMemory`.
fn lines_of(alloc: Global, rows: &[Row]) -> Result<Vec<u8>, Fault>
    ensures lines { IfOk result (λ lines. lines.items ≡ json_lines rows.now) }
    ensures memory { IfErr result (λ fault. fault ≡ Fault.NoMemory) }
{
    let mut out = Vec::new(alloc);
    for row in rows {
        add_json(alloc, &mut out, row)?;
    }
    Ok(out)
}

/// Prints a page as JSON: for each row a line with an object of its key, kind, owner, value and version. It also
/// returns what the last write of the call answered. `NoMemory`, with nothing written. `WriteFailed`, with the number
/// of bytes written, which is always less than all.
pub fn print_json_rows<W: Write>(
    alloc: Global,
    writer: &mut W,
    page: &Rows,
) -> (Result<(), Fault>, LastWrite)
    ensures prints { Sends (W.contents writer.old) (W.contents writer.new) (json_lines page.now.rows) result.0 }
    // Only a write that this call made and that failed is a reason to stop.
    ensures failed { OnlyWhereFailed result.0 result.1 }
{
    match lines_of(alloc, page.rows()) {
        Ok(lines) => write_counted(writer, &lines),
        Err(fault) => (Err(fault), LastWrite::new()),
    }
}
