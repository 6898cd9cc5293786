//! The service of a node.
ghost use Rattle.std.specs.Prelude.{◌≡◌, ◌≢◌, ◌++◌, ◌∷◌, [], OnOk};
ghost use Rattle.http_server.specs.Response.{IsBlank, IsResponse, fields_of};
ghost use Rattle.sb_http.specs.Answers.{AnswersAsked, AnswersRequest, Refuses, Has, HasPage, FillsOrShortens, is_error, is_fault, fields_for, json_kind, kind_of};

use crate::backend::Backend;
use crate::bodies::{error_line, fault_line, named_fault_line};
use crate::contents::{Content, answer};
use crate::operation::{Door, Operation, Refusal, asked_by};
use crate::page::{PAGE, POLICY};
use bytes::Bytes;
use http::{HeaderValue, Request, StatusCode, header};
use http_server::{Response, Service};
use sb_types::Fault;
use std::alloc::{AllocError, Global};

/// Answers the requests that came in at a door, each by one call of the backend.
#[derive(Drop)]
pub struct HttpService<B: Backend> {
    pub alloc: Global,
    pub door: Door,
    pub backend: B,
}

/// The type of JSON.
fn json_type() -> HeaderValue
    ensures { result.bytes ≡ json_kind }
{
    HeaderValue::from_static("application/json")
}

/// The type of what is answered.
fn type_of(asked: &Operation) -> HeaderValue
    ensures { result.bytes ≡ kind_of asked.now }
{
    match asked {
        Operation::Metrics => HeaderValue::from_static("text/plain; version=0.0.4"),
        _ => json_type(),
    }
}

/// Adds the fields that each response has. One request a connection: nobody holds a worker between two requests.
fn add_fields(response: &mut Response, kind: HeaderValue) -> Result<(), AllocError>
    requires { IsBlank response.old }
    ensures { OnOk result (IsResponse 200 (fields_for kind.bytes) [] response.new) }
{
    response.add_header(header::CONNECTION, HeaderValue::from_static("close"))?;
    response.add_header(header::CACHE_CONTROL, HeaderValue::from_static("no-store"))?;
    let no_guess = HeaderValue::from_static("nosniff");
    response.add_header(header::X_CONTENT_TYPE_OPTIONS, no_guess)?;
    response.add_header(header::CONTENT_TYPE, kind)
}

/// Fills a response that has its fields.
fn fill(response: &mut Response, status: StatusCode, body: Vec<u8>) -> Result<(), AllocError>
    requires { response.old.body.items ≡ [] }
    ensures filled { OnOk result (IsResponse status (fields_of response.old) body.items response.new) }
    ensures fields { fields_of response.new ≡ fields_of response.old }
{
    response.status = status;
    response.body.push(Bytes::from_vec(body)?)
}

/// Refuses a request with a text.
fn refuse_with(
    alloc: Global,
    response: &mut Response,
    status: StatusCode,
    text: &str,
) -> Result<(), AllocError>
    requires { IsBlank response.old }
    ensures { OnOk result (Has (fields_for json_kind) (is_error status text.now) response.new) }
{
    add_fields(response, json_type())?;
    fill(response, status, error_line(alloc, text)?)
}

/// Refuses a request with a fault.
fn refuse_by(alloc: Global, response: &mut Response, fault: Fault) -> Result<(), AllocError>
    requires { IsBlank response.old }
    ensures { OnOk result (Refuses (Refusal.Bad fault) response.new) }
{
    add_fields(response, json_type())?;
    fill(response, StatusCode::BAD_REQUEST, fault_line(alloc, fault)?)
}

/// Refuses a request with a fault and this text.
fn refuse_named(
    alloc: Global,
    response: &mut Response,
    fault: Fault,
    text: &str,
) -> Result<(), AllocError>
    requires { IsBlank response.old }
    ensures { OnOk result (Has (fields_for json_kind) (is_fault 400 fault text.now) response.new) }
{
    add_fields(response, json_type())?;
    let body = named_fault_line(alloc, fault, text)?;
    fill(response, StatusCode::BAD_REQUEST, body)
}

/// Refuses a place, and says where rows are and how a place is written.
fn refuse_place(alloc: Global, response: &mut Response) -> Result<(), AllocError>
    requires { IsBlank response.old }
    ensures { OnOk result (Refuses Refusal.BadPlace response.new) }
{
    let text =
        "one row is at /v1/rows/OWNER/KEY, those of an owner at /v1/rows?owner=OWNER; after is OWNER/KEY";
    refuse_named(alloc, response, Fault::BadKey, text)
}

/// Refuses parameters that come twice or do not go together.
fn refuse_combination(alloc: Global, response: &mut Response) -> Result<(), AllocError>
    requires { IsBlank response.old }
    ensures { OnOk result (Refuses Refusal.BadParameters response.new) }
{
    let text = "each parameter comes once; key goes with owner alone, and in a write with no other";
    refuse_with(alloc, response, StatusCode::BAD_REQUEST, text)
}

/// Refuses a parameter, and names those that there are.
fn refuse_unknown(alloc: Global, response: &mut Response) -> Result<(), AllocError>
    requires { IsBlank response.old }
    ensures { OnOk result (Refuses Refusal.UnknownParameter response.new) }
{
    let text =
        "there is no such parameter: rows take owner, prefix, after, wait and seen, or owner and key; a write takes key; each is NAME=VALUE";
    refuse_with(alloc, response, StatusCode::BAD_REQUEST, text)
}

/// Refuses a write without a key, and says where a key goes.
fn refuse_without_key(alloc: Global, response: &mut Response) -> Result<(), AllocError>
    requires { IsBlank response.old }
    ensures { OnOk result (Refuses Refusal.NoKey response.new) }
{
    let text = "name the key: /v1/keys/KEY, or /v1/keys?key=KEY";
    refuse_with(alloc, response, StatusCode::BAD_REQUEST, text)
}

/// Refuses a kind, and names those that there are.
fn refuse_kind(alloc: Global, response: &mut Response) -> Result<(), AllocError>
    requires { IsBlank response.old }
    ensures { OnOk result (Refuses Refusal.BadKind response.new) }
{
    let text = "the kind is addr, weight, flag or text";
    refuse_named(alloc, response, Fault::BadValue, text)
}

/// Refuses a method, and names those that a path has that is only read.
fn refuse_method(alloc: Global, response: &mut Response) -> Result<(), AllocError>
    requires { IsBlank response.old }
    ensures { OnOk result (Refuses Refusal.NotAllowed response.new) }
{
    add_fields(response, json_type())?;
    response.add_header(header::ALLOW, HeaderValue::from_static("GET, HEAD"))?;
    let body = error_line(
        alloc,
        "this path is only read; a key is written at /v1/keys/KEY",
    )?;
    fill(response, StatusCode::METHOD_NOT_ALLOWED, body)
}

/// Refuses a method, and names those that a path has that is only written.
fn refuse_reading(alloc: Global, response: &mut Response) -> Result<(), AllocError>
    requires { IsBlank response.old }
    ensures { OnOk result (Refuses Refusal.OnlyWritten response.new) }
{
    add_fields(response, json_type())?;
    response.add_header(header::ALLOW, HeaderValue::from_static("PUT, DELETE"))?;
    let body = error_line(
        alloc,
        "write by PUT, remove by DELETE; a row is read at /v1/rows/OWNER/KEY",
    )?;
    fill(response, StatusCode::METHOD_NOT_ALLOWED, body)
}

/// Says why nothing is asked for.
fn refuse(alloc: Global, response: &mut Response, why: &Refusal) -> Result<(), AllocError>
    requires { IsBlank response.old }
    ensures { OnOk result (Refuses why.now response.new) }
{
    match why {
        Refusal::OtherHost => {
            let text = "the host is not this machine";
            refuse_with(alloc, response, StatusCode::MISDIRECTED_REQUEST, text)
        }
        Refusal::NotFound => {
            let text = "there is no such path";
            refuse_with(alloc, response, StatusCode::NOT_FOUND, text)
        }
        Refusal::NotAllowed => refuse_method(alloc, response),
        Refusal::OnlyWritten => refuse_reading(alloc, response),
        Refusal::NotByPort => {
            let text = "writes are taken at a Unix socket only";
            refuse_with(alloc, response, StatusCode::FORBIDDEN, text)
        }
        Refusal::Bad(fault) => refuse_by(alloc, response, *fault),
        Refusal::BadPlace => refuse_place(alloc, response),
        Refusal::UnknownParameter => refuse_unknown(alloc, response),
        Refusal::BadParameters => refuse_combination(alloc, response),
        Refusal::NoKey => refuse_without_key(alloc, response),
        Refusal::BadWait => {
            let text =
                "wait is 0s to 60s, as in wait=30s; seen is a mark of an answer, and goes with wait";
            refuse_with(alloc, response, StatusCode::BAD_REQUEST, text)
        }
        Refusal::BadBody => {
            let text = "the body is JSON of this form: {\"kind\":\"weight\",\"value\":5}";
            refuse_with(alloc, response, StatusCode::BAD_REQUEST, text)
        }
        Refusal::BadKind => refuse_kind(alloc, response),
        Refusal::NoMemory => Err(AllocError),
    }
}

/// Answers with the page.
fn answer_page(response: &mut Response) -> Result<(), AllocError>
    requires { IsBlank response.old }
    ensures { OnOk result (HasPage response.new) }
{
    add_fields(
        response,
        HeaderValue::from_static("text/html; charset=utf-8"),
    )?;
    let policy = HeaderValue::from_static(POLICY);
    response.add_header(header::CONTENT_SECURITY_POLICY, policy)?;
    response.body.push(Bytes::from_static(PAGE.as_bytes()))
}

/// Leaves a response without a body: there was no memory for it.
fn shorten(response: &mut Response)
    ensures { IsResponse 503 (fields_of response.old) [] response.new }
{
    response.body.clear();
    response.status = StatusCode::SERVICE_UNAVAILABLE;
}

/// Fills a response that has its fields with this content. If there is no memory for that, it has no body.
fn fill_or_shorten(response: &mut Response, content: Result<Content, Fault>)
    requires { response.old.body.items ≡ [] }
    ensures { FillsOrShortens response.old content response.new }
{
    let Ok(Content { status, body }) = content else {
        shorten(response);
        return;
    };
    if fill(response, status, body).is_err() {
        shorten(response);
    }
}

impl<B: Backend> HttpService<B> {
    /// Asks the backend once, and fills a response that has its fields.
    fn answer_asked(&mut self, asked: Operation, response: &mut Response)
        requires fields { IsResponse 200 (fields_for (kind_of asked)) [] response.old }
        requires other { asked ≢ Operation.Page }
        ensures answers { AnswersAsked B.step asked self.old.backend response.new self.new.backend }
        ensures door { self.new.door ≡ self.old.door }
    {
        let content = answer(self.alloc, &mut self.backend, asked);
        fill_or_shorten(response, content);
    }
}

impl<B: Backend> Service for HttpService<B> {
    ghost use Rattle.std.specs.Prelude.{◌≡◌};
    ghost use Rattle.sb_http.specs.Answers.{AnswersRequest};

    ghost answers = { λ old request response new. AnswersRequest B.step old.door old.backend request response new.backend × (new.door ≡ old.door) };

    fn call(
        &mut self,
        request: &Request<Bytes>,
        response: &mut Response,
    ) -> Result<(), AllocError> {
        match asked_by(self.alloc, self.door, request) {
            Ok(Operation::Page) => answer_page(response),
            Ok(asked) => {
                add_fields(response, type_of(&asked))?;
                self.answer_asked(asked, response);
                Ok(())
            }
            Err(why) => refuse(self.alloc, response, &why),
        }
    }
}
