//! A backend with two rows and two owners that takes writes, and what comes out of a connection for the bytes that come in.

use sb_codec::{Ask, Done, Message, Refused, Row, Rows};
use sb_http::{
    Backend, Door, HeldOwner, HttpService, HttpWrite, MarkedReply, Patience, serve_connection,
};
use sb_types::{Fault, Key, Name, Slot, Value, ValueRef, Write};
use std::alloc::Global;
use std::hash::RandomState;
use std::io;
use std::process::Abort;
use std::random::RandomSource;

/// A backend that answers any question for rows with the same page. It answers a write of the weight N with the version N, and a write
/// of the text `fault N` or of nothing by a fault.
#[derive(Drop)]
pub(crate) struct FixedBackend {
    pub(crate) alloc: Global,
}

/// The row of a weight of the owner a.
fn row_of(key: &[u8], weight: u64) -> Result<Row, Fault> {
    let value = Value::weight(weight)?;
    Row::new(Name::read(b"a")?, Key::read(key)?, weight, value)
}

/// A page of two rows, after which more follow.
fn page(alloc: Global) -> Result<Rows, Fault> {
    let mut rows = Vec::new(alloc);
    rows.push(row_of(b"k", 5)?)?;
    rows.push(row_of(b"kl", 6)?)?;
    Rows::new(true, rows)
}

/// The message that refuses a request by this fault.
fn refused(fault: &Fault) -> Message {
    match Refused::new(fault.number()) {
        Ok(refused) => Message::Refused(refused),
        Err(_) => unreachable!(),
    }
}

/// The answer to a question for rows: the page, or `Closed` to one for the owner shut.
fn answer_to(alloc: Global, ask: &Ask) -> Message {
    if let Some(owner) = ask.owner {
        if owner.bytes() == b"shut".as_slice() {
            return refused(&Fault::Closed);
        }
    }
    match page(alloc) {
        Ok(page) => Message::Rows(page),
        Err(fault) => refused(&fault),
    }
}

/// The fault that a text `fault N` names, N being a digit or two.
fn fault_in(text: &[u8]) -> Option<Fault> {
    let number = text.strip_prefix(b"fault ")?;
    let number = str::from_utf8(number).ok()?;
    Fault::of_number(number.parse::<u8>().ok()?)
}

/// The answer to a write: the version, which is the weight that is written; 1 if another value is; or a fault.
fn answer_to_write(write: &Write) -> Message {
    let Slot::Set(value) = &write.slot else {
        return refused(&Fault::NothingThere);
    };
    let version = match value.view() {
        ValueRef::Weight(weight) => weight,
        ValueRef::Text(text) => match fault_in(text) {
            Some(fault) => return refused(&fault),
            None => 1,
        },
        _ => 1,
    };
    match Done::new(version) {
        Ok(done) => Message::Done(done),
        Err(fault) => refused(&fault),
    }
}

impl Backend for FixedBackend {
    ghost step = { λ _ _ _. Unit {0} };

    fn ask(&mut self, request: &Message) -> Message {
        match request {
            Message::Ask(ask) => answer_to(self.alloc, ask),
            _ => refused(&Fault::UnknownKind(0)),
        }
    }

    fn put(&mut self, asked: HttpWrite) -> Message {
        answer_to_write(&asked.into_write())
    }

    fn poll(&mut self, ask: &Ask, patience: &Patience) -> Result<MarkedReply, Fault> {
        if patience.seconds > 30 {
            return Err(Fault::TurnsSpent);
        }
        let mark = match patience.seen {
            Some(seen) => seen,
            None => Key::read(b"first")?,
        };
        Ok(MarkedReply {
            reply: answer_to(self.alloc, ask),
            mark,
        })
    }

    fn owners(&mut self) -> Result<Vec<HeldOwner>, Fault> {
        let mut owners = Vec::new(self.alloc);
        owners.push(HeldOwner {
            owner: Name::read(b"a")?,
            version: 6,
            rows: 2,
            age: Some(1_500),
        })?;
        owners.push(HeldOwner {
            owner: Name::read(b"b")?,
            version: 7,
            rows: 0,
            age: None,
        })?;
        Ok(owners)
    }

    fn metrics(&mut self) -> Result<Vec<u8>, Fault> {
        Ok(Vec::from_slice(self.alloc, b"x 1\n")?)
    }
}

/// What is written to these bytes.
fn served(alloc: Global, keys: RandomState, door: Door, bytes: &[u8]) -> io::Result<Vec<u8>> {
    let backend = FixedBackend { alloc };
    let mut service = HttpService {
        alloc,
        door,
        backend,
    };
    let mut input = bytes;
    let mut output = Vec::new(alloc);
    serve_connection(
        alloc,
        keys,
        Default::default(),
        &mut service,
        &mut input,
        &mut output,
    )?;
    Ok(output)
}

/// What is written to these bytes, as text.
pub(crate) fn answer_at<R: Abort + RandomSource>(
    rt: &R,
    alloc: Global,
    door: Door,
    bytes: &[u8],
) -> Vec<u8> {
    let keys = crate::got(rt, RandomState::new(rt));
    crate::got(rt, served(alloc, keys, door, bytes))
}

/// The answer to a request for this target at a socket.
pub(crate) fn answer<R: Abort + RandomSource>(rt: &R, alloc: Global, target: &str) -> Vec<u8> {
    let request = crate::got(
        rt,
        format!(in alloc; "GET {target} HTTP/1.1\r\nHost: x\r\n\r\n"),
    );
    answer_at(rt, alloc, Door::Socket, request.as_bytes())
}
