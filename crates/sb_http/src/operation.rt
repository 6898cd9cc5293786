//! What a request asks for.
ghost use Rattle.std.specs.Prelude.{◌≡◌, Ok};
ghost use Rattle.std.specs.Option.{option_copied};
ghost use Rattle.sb_http.specs.Asking.{GivesUnless};
ghost use Rattle.sb_http.specs.Requests as spec;

use crate::host::names_local_host;
use crate::rows_query::{key_asked_by, key_at, query_asked, row_asked};
use crate::write_body::value_in;
use bytes::Bytes;
use http::Request;
use sb_codec::Ask;
use sb_types::{Fault, Key, Name, Slot, Write};
use std::alloc::Global;

/// The kind of place at which a request came in.
#[derive(Clone, Copy, Debug, PartialEq, Eq)]
pub enum Door {
    /// A Unix socket: the rights of its folder say who reaches it.
    Socket,
    /// A port of this machine. Every program here reaches it, and so does every page in a browser.
    Port,
}

/// For how long an answer may wait, until the rows that are asked for are others than those that were seen.
#[derive(Clone, Copy, Debug, PartialEq, Eq)]
pub struct Patience {
    /// 0 to 60.
    pub seconds: u64,
    /// The mark of the rows that were seen. Without one the answer does not wait.
    pub seen: Option<Key>,
}

/// What a request asks for.
#[derive(Debug, Drop)]
pub enum Operation {
    /// The page for browsers.
    Page,
    /// Whether the node is ready.
    Health,
    /// The metrics of the node.
    Metrics,
    /// The owners that the node shows.
    Owners,
    /// A page of rows.
    Rows(Ask),
    /// A page of rows, with the mark of all that are asked for, once these are others than those that were seen.
    Poll(Ask, Patience),
    /// The row that an owner has under a key.
    Row(Name, Key),
    /// A write that the node is to make its own.
    Put(Write),
}

/// Why a request asks for nothing that is here.
#[derive(Clone, Copy, Debug)]
pub enum Refusal {
    /// It came in at a port, and names another host than this machine.
    OtherHost,
    /// There is no such path.
    NotFound,
    /// The path is only read.
    NotAllowed,
    /// The path is only written.
    OnlyWritten,
    /// It would write, and came in at a port.
    NotByPort,
    /// A word is not an owner, not a key or not a value, as this fault says.
    Bad(Fault),
    /// A place has no slash between an owner and a key.
    BadPlace,
    /// There is no parameter of this name, or it is not `NAME=VALUE`.
    UnknownParameter,
    /// A parameter comes twice, or they do not go together.
    BadParameters,
    /// A write names no key.
    NoKey,
    /// A time to wait is not `0s` to `60s`, or a mark is none, or has no time to wait with it.
    BadWait,
    /// The body of a PUT is not JSON, or not an object with a kind and a value.
    BadBody,
    /// The body of a PUT has an unknown kind.
    BadKind,
    /// There was no memory to read the request.
    NoMemory,
}

/// Whether a method reads.
fn is_reading(method: &str) -> bool
    ensures { result ≡ spec.is_reading method.now }
{
    method == "GET" || method == "HEAD"
}

/// Whether a method writes.
fn is_writing(method: &str) -> bool
    ensures { result ≡ spec.is_writing method.now }
{
    method == "PUT" || method == "DELETE"
}

/// What is asked for, if the method reads.
fn reading(method: &str, asked: Operation) -> Result<Operation, Refusal>
    ensures { result ≡ spec.reading method.now (Ok asked) }
{
    if is_reading(method) {
        Ok(asked)
    } else {
        Err(Refusal::NotAllowed)
    }
}

/// What a method asks of the path of a row, by the part `OWNER/KEY` of it. `NoMemory`.
fn asked_of_row(alloc: Global, method: &str, place: &[u8]) -> Result<Operation, Refusal>
    ensures { GivesUnless result (spec.reading method.now (spec.row_asked place.now)) }
{
    if is_reading(method) {
        row_asked(alloc, place)
    } else {
        Err(Refusal::NotAllowed)
    }
}

/// Why this method does not write here; none if it does.
fn write_refusal(door: Door, method: &str) -> Option<Refusal>
    ensures { result ≡ spec.write_refusal door method.now }
{
    if is_writing(method) {
        match door {
            Door::Socket => None,
            Door::Port => Some(Refusal::NotByPort),
        }
    } else {
        Some(Refusal::OnlyWritten)
    }
}

/// What a method that writes puts under a key. `NoMemory`.
fn slot_by(alloc: Global, method: &str, body: &[u8]) -> Result<Slot, Refusal>
    ensures { GivesUnless result (spec.slot_by method.now body.now) }
{
    if method == "PUT" {
        match value_in(alloc, body) {
            Ok(value) => Ok(Slot::Set(value)),
            Err(why) => Err(why),
        }
    } else {
        Ok(Slot::Removed)
    }
}

/// The write of what a method puts under a key. `NoMemory`.
fn written_as(alloc: Global, method: &str, body: &[u8], key: Key) -> Result<Operation, Refusal>
    ensures { GivesUnless result (spec.written_as key (spec.slot_by method.now body.now)) }
{
    match slot_by(alloc, method, body) {
        Ok(slot) => Ok(Operation::Put(Write { key, slot })),
        Err(why) => Err(why),
    }
}

/// What a method asks of the path of a key. `NoMemory`.
fn asked_of_key(
    alloc: Global,
    door: Door,
    method: &str,
    place: &[u8],
    body: &[u8],
) -> Result<Operation, Refusal>
    ensures { GivesUnless result (spec.writing door method.now body.now (spec.key_at place.now)) }
{
    if let Some(why) = write_refusal(door, method) {
        return Err(why);
    }
    match key_at(alloc, place) {
        Ok(key) => written_as(alloc, method, body, key),
        Err(why) => Err(why),
    }
}

/// What a method asks of the path of keys, by its query. `NoMemory`.
fn asked_of_keys(
    alloc: Global,
    door: Door,
    method: &str,
    query: &str,
    body: &[u8],
) -> Result<Operation, Refusal>
    ensures { GivesUnless result (spec.writing door method.now body.now (spec.key_asked_by query.now)) }
{
    if let Some(why) = write_refusal(door, method) {
        return Err(why);
    }
    match key_asked_by(alloc, query.as_bytes()) {
        Ok(key) => written_as(alloc, method, body, key),
        Err(why) => Err(why),
    }
}

/// The path without this beginning; none if it begins otherwise.
fn after_start<'a>(path: &'a str, start: &str) -> Option<&'a [u8]>
    ensures { option_copied result ≡ spec.after_start start.now path.now }
{
    path.as_bytes().strip_prefix(start.as_bytes())
}

/// What a method asks of the path of a row, of that of a key, or of an unknown path. `NoMemory`.
fn asked_at_place(
    alloc: Global,
    door: Door,
    method: &str,
    path: &str,
    body: &[u8],
) -> Result<Operation, Refusal>
    ensures { GivesUnless result (spec.asked_at_place door method.now path.now body.now) }
{
    if let Some(place) = after_start(path, "/v1/rows/") {
        return asked_of_row(alloc, method, place);
    }
    match after_start(path, "/v1/keys/") {
        Some(place) => asked_of_key(alloc, door, method, place, body),
        None => Err(Refusal::NotFound),
    }
}

/// What a method asks of the path of rows. `NoMemory`.
fn asked_of_rows(alloc: Global, method: &str, query: &str) -> Result<Operation, Refusal>
    ensures { GivesUnless result (spec.reading method.now (spec.query_asked query.now)) }
{
    if is_reading(method) {
        query_asked(alloc, query.as_bytes())
    } else {
        Err(Refusal::NotAllowed)
    }
}

/// What a method asks of a path, with this query and this body. `NoMemory`.
fn asked_at(
    alloc: Global,
    door: Door,
    method: &str,
    path: &str,
    query: &str,
    body: &[u8],
) -> Result<Operation, Refusal>
    ensures { GivesUnless result (spec.asked_at door method.now path.now query.now body.now) }
{
    if path == "/v1/rows" {
        asked_of_rows(alloc, method, query)
    } else if path == "/v1/owners" {
        reading(method, Operation::Owners)
    } else if path == "/healthz" {
        reading(method, Operation::Health)
    } else if path == "/metrics" {
        reading(method, Operation::Metrics)
    } else if path == "/" {
        reading(method, Operation::Page)
    } else if path == "/v1/keys" {
        asked_of_keys(alloc, door, method, query, body)
    } else {
        asked_at_place(alloc, door, method, path, body)
    }
}

/// The query of a request, which is empty if there is none.
fn query_of(request: &Request<Bytes>) -> &str
    ensures { result.now ≡ spec.query_of request.now }
{
    match request.uri().query() {
        Some(query) => query,
        None => "",
    }
}

/// Returns what a request asks for that came in at this door. `Err` is the first reason that holds:
///
/// - `OtherHost` at a port, if the request names another host than this machine.
/// - `NotFound` for another path.
/// - `NotAllowed` for another method than `GET` and `HEAD`, and `OnlyWritten` for another than `PUT` and `DELETE` at the path of a
///   key.
/// - `NotByPort` if it would write, and came in at a port.
/// - `Bad`, `BadPlace`, `UnknownParameter`, `BadParameters` and `BadWait` for the first part of the query, or of the path, that is
///   not what it should be. Then `NoKey` for a write.
/// - `BadBody`, then `BadKind`, then `Bad` with `BadValue`, for the body of a `PUT`.
///
/// `NoMemory` may come instead.
pub fn asked_by(alloc: Global, door: Door, request: &Request<Bytes>) -> Result<Operation, Refusal>
    ensures { GivesUnless result (spec.asked_by door request.now) }
{
    let is_open = match door {
        Door::Socket => true,
        Door::Port => names_local_host(request),
    };
    if is_open {
        asked_at(
            alloc,
            door,
            request.method().as_str(),
            request.uri().path(),
            query_of(request),
            request.body().as_slice(),
        )
    } else {
        Err(Refusal::OtherHost)
    }
}
