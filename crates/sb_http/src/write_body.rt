//! The value in the body of a PUT.
ghost use Rattle.std.specs.Prelude.{◌≡◌, ◌≢◌, Some, None, IfOk, IfErr, option_map, option_and_then};
ghost use Rattle.serde_json.specs.Find.{as_str};
ghost use Rattle.serde_json.specs.View.{view};
ghost use Rattle.sb_types.specs.Kinds.{shown};
ghost use Rattle.sb_http.specs.Asking.{GivesUnless};
ghost use Rattle.sb_http.specs.WriteBodies as spec;

use crate::operation::Refusal;
use sb_types::{ContentRef, Fault, Form, Kind, Value};
use serde_json::Value as JsonValue;
use std::alloc::Global;

/// The word that a member holds.
fn word_in(json: &JsonValue) -> Option<ContentRef<'_>>
    ensures { option_map shown result ≡ spec.content_in Form.Word (view json.now) }
{
    match json.as_str() {
        Some(text) => Some(ContentRef::Word(text.as_bytes())),
        None => None,
    }
}

/// The text that a member holds.
fn text_in(json: &JsonValue) -> Option<ContentRef<'_>>
    ensures { option_map shown result ≡ spec.content_in Form.Text (view json.now) }
{
    match json.as_str() {
        Some(text) => Some(ContentRef::Text(text.as_bytes())),
        None => None,
    }
}

/// The number that a member holds.
fn number_in(json: &JsonValue) -> Option<ContentRef<'static>>
    ensures { option_map shown result ≡ spec.content_in Form.Number (view json.now) }
{
    match json.as_u64() {
        Some(number) => Some(ContentRef::Number(number)),
        None => None,
    }
}

/// True or false, if a member holds that.
fn truth_in(json: &JsonValue) -> Option<ContentRef<'static>>
    ensures { option_map shown result ≡ spec.content_in Form.Truth (view json.now) }
{
    match json.as_bool() {
        Some(truth) => Some(ContentRef::Truth(truth)),
        None => None,
    }
}

/// What a member holds, if JSON spells contents of this form so.
fn content_in(form: Form, json: &JsonValue) -> Option<ContentRef<'_>>
    ensures { option_map shown result ≡ spec.content_in form (view json.now) }
{
    match form {
        Form::Word => word_in(json),
        Form::Text => text_in(json),
        Form::Number => number_in(json),
        Form::Truth => truth_in(json),
    }
}

/// The kind whose word a member holds.
fn kind_in(json: &JsonValue) -> Option<Kind>
    ensures { result ≡ option_and_then spec.kind_of_word (as_str (view json.now)) }
{
    match json.as_str() {
        Some(word) => kind_of_word(word.as_bytes()),
        None => None,
    }
}

/// The kind of a word.
fn kind_of_word(word: &[u8]) -> Option<Kind>
    ensures { result ≡ spec.kind_of_word word.now }
{
    Kind::of_word(word)
}

/// The value of a kind with this content. `NoMemory`.
fn value_with(alloc: Global, kind: Kind, content: Option<ContentRef<'_>>) -> Result<Value, Refusal>
    ensures { GivesUnless result (spec.value_with kind (option_map shown content.entry)) }
{
    let Some(content) = content else {
        return Err(Refusal::Bad(Fault::BadValue));
    };
    match Value::from_content(alloc, kind, content) {
        Ok(value) => Ok(value),
        Err(Fault::NoMemory) => Err(Refusal::NoMemory),
        Err(fault) => Err(Refusal::Bad(fault)),
    }
}

/// The value of a kind that a member holds. `NoMemory`.
fn value_of_kind(alloc: Global, kind: Option<Kind>, json: &JsonValue) -> Result<Value, Refusal>
    ensures { GivesUnless result (spec.value_of_kind kind (view json.now)) }
{
    match kind {
        Some(kind) => value_with(alloc, kind, content_in(kind.form(), json)),
        None => Err(Refusal::BadKind),
    }
}

/// Whether JSON is an object of two members.
#[tactic(auto, using(crate::proofs::WriteBodies::two))]
fn has_two_members(json: &JsonValue) -> bool
    ensures { result ≡ spec.has_two_members (view json.now) }
{
    match json.as_object() {
        Some(members) => members.len() == 2,
        None => false,
    }
}

/// The value of an object with a kind and a value, and nothing else. `NoMemory`.
fn value_of_json(alloc: Global, json: &JsonValue) -> Result<Value, Refusal>
    ensures { GivesUnless result (spec.value_of_json (Some (view json.now))) }
{
    if !has_two_members(json) {
        return Err(Refusal::BadBody);
    }
    let Some(kind) = json.get("kind") else {
        return Err(Refusal::BadBody);
    };
    let Some(value) = json.get("value") else {
        return Err(Refusal::BadBody);
    };
    value_of_kind(alloc, kind_in(kind), value)
}

/// The JSON that a body is. `NoMemory`.
#[tactic(auto, using(crate::proofs::WriteBodies::read_so, crate::proofs::WriteBodies::not_read))]
fn json_in(alloc: Global, body: &[u8]) -> Result<JsonValue, Refusal>
    ensures ok { IfOk result (λ json. spec.json_in body.now ≡ Some (view json)) }
    ensures err { IfErr result (λ why. why ≢ Refusal.NoMemory → (why ≡ Refusal.BadBody) × (spec.json_in body.now ≡ None)) }
{
    match JsonValue::from_slice(alloc, body) {
        Ok(json) => Ok(json),
        Err(error) if error.is_memory() => Err(Refusal::NoMemory),
        Err(_) => Err(Refusal::BadBody),
    }
}

/// The value in the body of a PUT. `NoMemory`.
pub(crate) fn value_in(alloc: Global, body: &[u8]) -> Result<Value, Refusal>
    ensures { GivesUnless result (spec.value_in body.now) }
{
    match json_in(alloc, body) {
        Ok(json) => value_of_json(alloc, &json),
        Err(why) => Err(why),
    }
}
