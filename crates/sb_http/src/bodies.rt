//! The bodies of responses, as JSON.
ghost use Rattle.std.specs.Prelude.{◌≡◌, ℕ, List, ◌++◌, ◌∷◌, [], codes, false, OnOk, map, IfOk, IfErr};
ghost use Rattle.serde_json.specs.Data.{boolean, string};
ghost use Rattle.serde_json.specs.View.{view};
ghost use Rattle.serde_json.specs.Written.{has_float, items_text, compact_text};
ghost use Rattle.sb_types.specs.Faults.{number_of};
ghost use Rattle.sb_listing.specs.Json.{row_data, items_of};
ghost use Rattle.sb_http.specs.Texts as spec;
ghost use Rattle.sb_http.specs.Texts.{line_of};

use crate::backend::HeldOwner;
use sb_codec::{FigureKind, NodeStatus, Row, Rows};
use sb_listing::{add_json_array, add_json_object};
use sb_query::is_ready;
use sb_types::{Fault, Key, Name};
use serde_json::{Value, json};
use std::alloc::{AllocError, Global};

/// The text of a name, which is ASCII.
fn name_text(name: &Name) -> &str
    ensures { result.now ≡ name.now }
{
    str::from_utf8(name.bytes()).unwrap_or("")
}

/// The line of a value without floats.
fn line_of_value(alloc: Global, value: &Value) -> Result<Vec<u8>, AllocError>
    requires { has_float (view value.now) ≡ false }
    ensures { IfOk result (λ line. line.items ≡ line_of (view value.now)) }
{
    let mut line = value.to_vec(alloc)?;
    line.push(b'\n')?;
    Ok(line)
}

/// How the line of a page begins: with whether more rows follow.
fn page_head(more: bool) -> &'static [u8]
    ensures { result.now ≡ codes "{\"more\":" ++ (compact_text (boolean more) ++ codes ",\"rows\":") }
{
    if more {
        b"{\"more\":true,\"rows\":"
    } else {
        b"{\"more\":false,\"rows\":"
    }
}

/// The line of a page: whether more rows follow, and its rows. `NoMemory`.
pub(crate) fn page_line(alloc: Global, page: &Rows) -> Result<Vec<u8>, Fault>
    ensures { IfOk result (λ line. line.items ≡ line_of (spec.page_data page.now)) }
{
    let mut line = Vec::new(alloc);
    line.extend_from_slice(page_head(page.more()))?;
    add_json_array(alloc, &mut line, page.rows())?;
    line.extend_from_slice(b"}\n")?;
    Ok(line)
}

/// Adds a mark as a string of JSON. `NoMemory`.
fn add_mark(alloc: Global, out: &mut Vec<u8>, mark: &Key) -> Result<(), Fault>
    ensures added { OnOk result (out.new.items ≡ out.old.items ++ compact_text (string mark.now)) }
    ensures memory { IfErr result (λ fault. fault ≡ Fault.NoMemory) }
{
    let text = Value::try_from_str(alloc, key_text(mark))?.to_vec(alloc)?;
    out.extend_from_slice(&text)?;
    Ok(())
}

/// The text of a key, which is ASCII.
fn key_text(key: &Key) -> &str
    ensures { result.now ≡ key.now }
{
    str::from_utf8(key.bytes()).unwrap_or("")
}

/// The line of a page with the mark of all rows that are asked for. `NoMemory`.
pub(crate) fn marked_page_line(alloc: Global, page: &Rows, mark: &Key) -> Result<Vec<u8>, Fault>
    ensures { IfOk result (λ line. line.items ≡ line_of (spec.marked_page_data mark.now page.now)) }
{
    let mut line = Vec::new(alloc);
    line.extend_from_slice(page_head(page.more()))?;
    add_json_array(alloc, &mut line, page.rows())?;
    line.extend_from_slice(b",\"seen\":")?;
    add_mark(alloc, &mut line, mark)?;
    line.extend_from_slice(b"}\n")?;
    Ok(line)
}

/// The line of a row. `NoMemory`.
pub(crate) fn row_line(alloc: Global, row: &Row) -> Result<Vec<u8>, Fault>
    ensures { IfOk result (λ line. line.items ≡ line_of (row_data row.now)) }
{
    let mut line = Vec::new(alloc);
    add_json_object(alloc, &mut line, row)?;
    line.push(b'\n')?;
    Ok(line)
}

/// The object of an owner.
#[tactic(auto, unfolding(crate::specs::Texts::owner_data))]
fn object_of_owner(alloc: Global, held: &HeldOwner) -> Result<Value, AllocError>
    ensures object { IfOk result (λ json. view json ≡ spec.owner_data held.now) }
    ensures plain { IfOk result (λ json. has_float (view json) ≡ false) }
{
    let owner = name_text(&held.owner);
    match held.age {
        Some(age) => {
            json!(in alloc; {"age": age, "owner": owner, "rows": held.rows, "version": held.version})
        }
        None => json!(in alloc; {"owner": owner, "rows": held.rows, "version": held.version}),
    }
}

/// Adds an owner. `NoMemory`.
fn add_owner(alloc: Global, out: &mut Vec<u8>, held: &HeldOwner) -> Result<(), Fault>
    ensures added { OnOk result (out.new.items ≡ out.old.items ++ compact_text (spec.owner_data held.now)) }
    ensures memory { IfErr result (λ fault. fault ≡ Fault.NoMemory) }
{
    let object = object_of_owner(alloc, held)?;
    let text = object.to_vec(alloc)?;
    out.extend_from_slice(&text)?;
    Ok(())
}

/// Adds owners as the items of an array, and the end of the array. `NoMemory`.
fn add_owners(alloc: Global, out: &mut Vec<u8>, owners: &[HeldOwner]) -> Result<(), Fault>
    ensures added { OnOk result (out.new.items ≡ out.old.items ++ items_text false (items_of (map spec.owner_data owners.now))) }
    ensures memory { IfErr result (λ fault. fault ≡ Fault.NoMemory) }
{
    let mut is_later = false;
    for held in owners {
        if is_later {
            out.push(b',')?;
        }
        add_owner(alloc, out, held)?;
        is_later = true;
    }
    out.push(b']')?;
    Ok(())
}

/// The line of all owners. `NoMemory`.
pub(crate) fn owners_line(alloc: Global, owners: &[HeldOwner]) -> Result<Vec<u8>, Fault>
    ensures { IfOk result (λ line. line.items ≡ line_of (spec.owners_data owners.now)) }
{
    let mut line = Vec::new(alloc);
    line.extend_from_slice(b"{\"owners\":[")?;
    add_owners(alloc, &mut line, owners)?;
    line.extend_from_slice(b"}\n")?;
    Ok(line)
}

/// The value of a figure, 0 if the node tells none.
fn figure_of(status: &NodeStatus, kind: FigureKind) -> u64
    ensures { result ≡ spec.figure_of kind status.now.figures }
{
    status.figure(kind).unwrap_or(0)
}

/// The object of these figures.
#[tactic(auto, unfolding(crate::specs::Texts::health_object))]
fn object_of_health(
    alloc: Global,
    is_caught_up: bool,
    conflict: u64,
    log_fault: u64,
    is_ready: bool,
) -> Result<Value, AllocError>
    ensures object { IfOk result (λ json. view json ≡ spec.health_object is_caught_up conflict log_fault is_ready) }
    ensures plain { IfOk result (λ json. has_float (view json) ≡ false) }
{
    json!(in alloc; {"caught_up": is_caught_up, "conflict": conflict, "log_fault": log_fault, "ready": is_ready})
}

/// The line that says whether a node is ready, and why not. `NoMemory`.
pub(crate) fn health_line(alloc: Global, status: &NodeStatus) -> Result<Vec<u8>, Fault>
    ensures { IfOk result (λ line. line.items ≡ line_of (spec.health_data status.now.figures)) }
{
    let is_caught_up = figure_of(status, FigureKind::CaughtUp) == 1;
    let conflict = figure_of(status, FigureKind::Conflict);
    let log_fault = figure_of(status, FigureKind::LogFault);
    let object = object_of_health(alloc, is_caught_up, conflict, log_fault, is_ready(status))?;
    Ok(line_of_value(alloc, &object)?)
}

/// The object of the version of a write.
#[tactic(auto, unfolding(crate::specs::Texts::version_data))]
fn version_object(alloc: Global, version: u64) -> Result<Value, AllocError>
    ensures object { IfOk result (λ json. view json ≡ spec.version_data version) }
    ensures plain { IfOk result (λ json. has_float (view json) ≡ false) }
{
    json!(in alloc; {"version": version})
}

/// The line of the version under which a write was made.
pub(crate) fn version_line(alloc: Global, version: u64) -> Result<Vec<u8>, AllocError>
    ensures { IfOk result (λ line. line.items ≡ line_of (spec.version_data version)) }
{
    let object = version_object(alloc, version)?;
    line_of_value(alloc, &object)
}

/// The line of a text about what went wrong.
pub(crate) fn error_line(alloc: Global, text: &str) -> Result<Vec<u8>, AllocError>
    ensures { IfOk result (λ line. line.items ≡ line_of (spec.error_data text.now)) }
{
    let object = error_object(alloc, text)?;
    line_of_value(alloc, &object)
}

/// The object of a text about what went wrong.
#[tactic(auto, unfolding(crate::specs::Texts::error_data))]
fn error_object(alloc: Global, text: &str) -> Result<Value, AllocError>
    ensures object { IfOk result (λ json. view json ≡ spec.error_data text.now) }
    ensures plain { IfOk result (λ json. has_float (view json) ≡ false) }
{
    json!(in alloc; {"error": text})
}

/// The object of a fault with this text and number.
#[tactic(auto, unfolding(crate::specs::Texts::fault_data))]
fn fault_object(alloc: Global, text: &str, number: u8) -> Result<Value, AllocError>
    ensures object { IfOk result (λ json. view json ≡ spec.fault_data text.now number) }
    ensures plain { IfOk result (λ json. has_float (view json) ≡ false) }
{
    json!(in alloc; {"error": text, "fault": number})
}

/// The line of a fault with this text, and its number.
pub(crate) fn named_fault_line(
    alloc: Global,
    fault: Fault,
    text: &str,
) -> Result<Vec<u8>, AllocError>
    ensures { IfOk result (λ line. line.items ≡ line_of (spec.fault_data text.now (number_of fault))) }
{
    let object = fault_object(alloc, text, fault.number())?;
    line_of_value(alloc, &object)
}

/// The text of a fault, as a response has it. It says what to write in a target or in JSON, where to look, or when to ask again.
fn fault_text(alloc: Global, fault: Fault) -> Result<String, AllocError> {
    let text = match fault {
        Fault::BadKey => {
            "a key is 1 to 64 of the bytes a-z, 0-9, '.', '_', '/' and -; a prefix may be empty; an escape is % and two hex digits, as %2F"
        }
        Fault::BadValue => {
            "a value is addr with 1 to 128 printing bytes, weight a whole number from 0 to 2^63 - 1 without quotes, flag true or false, or text of 1 to 512 UTF-8 bytes"
        }
        Fault::Closed => {
            "the log of this node takes no writes, or the node ends: its standard error says why"
        }
        Fault::StoreFailed => {
            "the node could not write its log, and takes no more writes: its standard error says why; this write may have been made"
        }
        Fault::OwnerConflict(_) => {
            "another node writes under this node's name; give each node a name of its own"
        }
        Fault::WatchesFull => {
            "64 callers wait for changes at this node; ask again after one of them, or without wait"
        }
        Fault::TurnsSpent => {
            "as many polls or writes wait at this node as may; a write was not made; ask again in a second, or give polls a shorter wait"
        }
        other => return format!(in alloc; "{other}"),
    };
    String::from_str(alloc, text)
}

/// The line of a fault: its text and its number.
pub(crate) fn fault_line(alloc: Global, fault: Fault) -> Result<Vec<u8>, AllocError>
    ensures { IfOk result (λ line. (text : List ℕ) × (line.items ≡ line_of (spec.fault_data text (number_of fault)))) }
{
    let text = fault_text(alloc, fault)?;
    let object = fault_object(alloc, text.as_str(), fault.number())?;
    line_of_value(alloc, &object)
}
