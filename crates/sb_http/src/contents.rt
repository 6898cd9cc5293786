//! The status and the body of a response, from what a backend answers.
ghost use Rattle.std.specs.Prelude.{◌≡◌, ◌≢◌, if◌then◌else◌, Ok, IfOk};
ghost use Rattle.sb_query.specs.Answers.{TellsVersion};
ghost use Rattle.sb_query.specs.Statuses.{is_ready};
ghost use Rattle.sb_http.specs.Acts.{Act};
ghost use Rattle.sb_http.specs.Answers.{IsCallFor, Says, IsFault, IsNone, IsPage, IsMarkedPage, IsRow, IsHealth, IsWritten, put_status};

use crate::backend::{Backend, MarkedReply};
use crate::bodies::{
    error_line, fault_line, health_line, marked_page_line, owners_line, page_line, row_line,
    version_line,
};
use crate::http_write::HttpWrite;
use crate::operation::{Operation, Patience};
use http::StatusCode;
use sb_codec::{Ask, AskStatus, Message, NodeStatus, Rows};
use sb_query::{NoAnswer, first_at, is_ready, page_in, status_in, version_in};
use sb_types::{Fault, Key, Name, Prefix, Write};
use std::alloc::Global;

/// The status and the body of a response.
#[derive(Drop)]
pub(crate) struct Content {
    pub(crate) status: StatusCode,
    pub(crate) body: Vec<u8>,
}

/// Says why a message does not answer. `NoMemory`.
fn none_content(alloc: Global, reason: NoAnswer) -> Result<Content, Fault>
    ensures { IfOk result (λ content. IsNone reason (content.status, content.body.items)) }
{
    let fault = match reason {
        NoAnswer::Refused(fault) => fault,
        NoAnswer::OtherKind(kind) => Fault::UnknownKind(kind),
    };
    fault_content(alloc, StatusCode::SERVICE_UNAVAILABLE, fault)
}

/// Names a fault of the node. `NoMemory`.
fn fault_content(alloc: Global, status: StatusCode, fault: Fault) -> Result<Content, Fault>
    ensures { IfOk result (λ content. IsFault status fault (content.status, content.body.items)) }
{
    Ok(Content {
        status,
        body: fault_line(alloc, fault)?,
    })
}

/// The status of a write that was refused for this fault.
fn put_status(fault: &Fault) -> StatusCode
    ensures { result ≡ put_status fault.now }
{
    match fault {
        Fault::NothingThere => StatusCode::NOT_FOUND,
        Fault::OwnerConflict(_) => StatusCode::CONFLICT,
        Fault::TableFull => StatusCode::INSUFFICIENT_STORAGE,
        Fault::VersionsSpent => StatusCode::INSUFFICIENT_STORAGE,
        _ => StatusCode::SERVICE_UNAVAILABLE,
    }
}

/// Names the version of a write, or why it was not made. `NoMemory`.
fn put_content(alloc: Global, version: Result<u64, NoAnswer>) -> Result<Content, Fault>
    ensures { IfOk result (λ content. IsWritten version (content.status, content.body.items)) }
{
    match version {
        Ok(version) => Ok(Content {
            status: StatusCode::OK,
            body: version_line(alloc, version)?,
        }),
        Err(NoAnswer::Refused(fault)) => fault_content(alloc, put_status(&fault), fault),
        Err(other) => none_content(alloc, other),
    }
}

/// Has a page. `NoMemory`.
fn page_content(alloc: Global, page: &Result<Rows, NoAnswer>) -> Result<Content, Fault>
    ensures { IfOk result (λ content. IsPage page.now (content.status, content.body.items)) }
{
    match page {
        Ok(page) => Ok(Content {
            status: StatusCode::OK,
            body: page_line(alloc, page)?,
        }),
        Err(reason) => none_content(alloc, *reason),
    }
}

/// Has a page with a mark. `NoMemory`.
fn marked_content(
    alloc: Global,
    page: &Result<Rows, NoAnswer>,
    mark: &Key,
) -> Result<Content, Fault>
    ensures { IfOk result (λ content. IsMarkedPage mark.now page.now (content.status, content.body.items)) }
{
    match page {
        Ok(page) => Ok(Content {
            status: StatusCode::OK,
            body: marked_page_line(alloc, page, mark)?,
        }),
        Err(reason) => none_content(alloc, *reason),
    }
}

/// Has the row that a page has first, if it is of this owner and key. `NoMemory`.
fn first_content(alloc: Global, page: &Rows, owner: &Name, key: &Key) -> Result<Content, Fault>
    ensures { IfOk result (λ content. IsRow owner.now key.now (Ok page.now) (content.status, content.body.items)) }
{
    match first_at(page.rows(), owner, key) {
        Some(row) => Ok(Content {
            status: StatusCode::OK,
            body: row_line(alloc, row)?,
        }),
        None => Ok(Content {
            status: StatusCode::NOT_FOUND,
            body: error_line(alloc, "there is no such row")?,
        }),
    }
}

/// Has the row of an owner and a key. `NoMemory`.
fn row_content(
    alloc: Global,
    page: &Result<Rows, NoAnswer>,
    owner: &Name,
    key: &Key,
) -> Result<Content, Fault>
    ensures { IfOk result (λ content. IsRow owner.now key.now page.now (content.status, content.body.items)) }
{
    match page {
        Ok(page) => first_content(alloc, page, owner, key),
        Err(reason) => none_content(alloc, *reason),
    }
}

/// 200 if a node is ready, and 503 if not.
fn health_status(status: &NodeStatus) -> StatusCode
    ensures { result ≡ (if is_ready status.now.figures then 200 else 503) }
{
    if is_ready(status) {
        StatusCode::OK
    } else {
        StatusCode::SERVICE_UNAVAILABLE
    }
}

/// Says whether a node is ready. `NoMemory`.
fn health_content(alloc: Global, status: &Result<NodeStatus, NoAnswer>) -> Result<Content, Fault>
    ensures { IfOk result (λ content. IsHealth status.now (content.status, content.body.items)) }
{
    match status {
        Ok(status) => Ok(Content {
            status: health_status(status),
            body: health_line(alloc, status)?,
        }),
        Err(reason) => none_content(alloc, *reason),
    }
}

/// The prefix that a key is.
fn prefix_of(key: &Key) -> Prefix
    ensures { result ≡ key.now }
{
    match Prefix::read(key.bytes()) {
        Ok(prefix) => prefix,
        Err(_) => unreachable!(),
    }
}

/// Asks for a page of rows. `NoMemory`.
fn answer_rows<B: Backend>(alloc: Global, backend: &mut B, ask: Ask) -> Result<Content, Fault>
    ensures { (act : Act) × B.step backend.old act backend.new × IsCallFor (Operation.Rows ask) act × IfOk result (λ content. Says (Operation.Rows ask) act (content.status, content.body.items)) }
{
    let page = page_in(backend.ask(&Message::Ask(ask)));
    page_content(alloc, &page)
}

/// Asks for the row of an owner and a key. `NoMemory`.
fn answer_row<B: Backend>(
    alloc: Global,
    backend: &mut B,
    owner: Name,
    key: Key,
) -> Result<Content, Fault>
    ensures { (act : Act) × B.step backend.old act backend.new × IsCallFor (Operation.Row owner key) act × IfOk result (λ content. Says (Operation.Row owner key) act (content.status, content.body.items)) }
{
    let ask = Ask {
        owner: Some(owner),
        prefix: prefix_of(&key),
        after: None,
    };
    let page = page_in(backend.ask(&Message::Ask(ask)));
    row_content(alloc, &page, &owner, &key)
}

/// Asks whether the node is ready. `NoMemory`.
fn answer_health<B: Backend>(alloc: Global, backend: &mut B) -> Result<Content, Fault>
    ensures { (act : Act) × B.step backend.old act backend.new × IsCallFor Operation.Health act × IfOk result (λ content. Says Operation.Health act (content.status, content.body.items)) }
{
    let status = status_in(backend.ask(&Message::AskStatus(AskStatus::new(0))));
    health_content(alloc, &status)
}

/// Asks for a page of rows once they are others than those that were seen. `NoMemory`.
fn answer_poll<B: Backend>(
    alloc: Global,
    backend: &mut B,
    ask: &Ask,
    patience: &Patience,
) -> Result<Content, Fault>
    ensures { (act : Act) × B.step backend.old act backend.new × IsCallFor (Operation.Poll ask.now patience.now) act × IfOk result (λ content. Says (Operation.Poll ask.now patience.now) act (content.status, content.body.items)) }
{
    match backend.poll(ask, patience) {
        Ok(found) => {
            let MarkedReply { reply, mark } = found;
            marked_content(alloc, &page_in(reply), &mark)
        }
        Err(fault) => fault_content(alloc, StatusCode::SERVICE_UNAVAILABLE, fault),
    }
}

/// The version of a write, from the answer to it.
fn version_of(reply: Message) -> Result<u64, NoAnswer>
    ensures { TellsVersion reply result }
{
    version_in(&reply)
}

/// Asks for a write to be made. `NoMemory`, after it was asked for.
fn answer_put<B: Backend>(alloc: Global, backend: &mut B, write: Write) -> Result<Content, Fault>
    ensures { (act : Act) × B.step backend.old act backend.new × IsCallFor (Operation.Put write) act × IfOk result (λ content. Says (Operation.Put write) act (content.status, content.body.items)) }
{
    let version = version_of(backend.put(HttpWrite::new(write)));
    put_content(alloc, version)
}

/// Asks for the owners. `NoMemory`.
fn answer_owners<B: Backend>(alloc: Global, backend: &mut B) -> Result<Content, Fault>
    ensures { (act : Act) × B.step backend.old act backend.new × IsCallFor Operation.Owners act × IfOk result (λ content. Says Operation.Owners act (content.status, content.body.items)) }
{
    match backend.owners() {
        Ok(owners) => Ok(Content {
            status: StatusCode::OK,
            body: owners_line(alloc, &owners)?,
        }),
        Err(fault) => fault_content(alloc, StatusCode::SERVICE_UNAVAILABLE, fault),
    }
}

/// Asks for the metrics.
fn answer_metrics<B: Backend>(alloc: Global, backend: &mut B) -> Content
    ensures { (act : Act) × B.step backend.old act backend.new × IsCallFor Operation.Metrics act × Says Operation.Metrics act (result.status, result.body.items) }
{
    match backend.metrics() {
        Ok(body) => Content {
            status: StatusCode::OK,
            body,
        },
        Err(_) => Content {
            status: StatusCode::SERVICE_UNAVAILABLE,
            body: Vec::new(alloc),
        },
    }
}

/// Calls the backend once for what is asked. `NoMemory`, after the backend was called.
pub(crate) fn answer<B: Backend>(
    alloc: Global,
    backend: &mut B,
    asked: Operation,
) -> Result<Content, Fault>
    requires { asked ≢ Operation.Page }
    ensures { (act : Act) × B.step backend.old act backend.new × IsCallFor asked act × IfOk result (λ content. Says asked act (content.status, content.body.items)) }
{
    match asked {
        Operation::Rows(ask) => answer_rows(alloc, backend, ask),
        Operation::Row(owner, key) => answer_row(alloc, backend, owner, key),
        Operation::Poll(ask, patience) => answer_poll(alloc, backend, &ask, &patience),
        Operation::Put(write) => answer_put(alloc, backend, write),
        Operation::Health => answer_health(alloc, backend),
        Operation::Owners => answer_owners(alloc, backend),
        Operation::Metrics => Ok(answer_metrics(alloc, backend)),
        Operation::Page => unreachable!(),
    }
}
