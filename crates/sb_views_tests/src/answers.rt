//! What a message means to the caller that sent a request.
use crate::{got, same};
use sb_codec::{Bye, Done, Message, Refused, Rows};
use sb_query::{NoAnswer, page_in, version_in};
use sb_types::{Fault, KIND_BYE, KIND_DONE, KIND_ROWS};
use std::process::Abort;

/// The fault of a refusal, and 0; or `Closed`, and the kind of another message.
fn reason(answer: NoAnswer) -> (Fault, u8) {
    match answer {
        NoAnswer::Refused(fault) => (fault, 0),
        NoAnswer::OtherKind(kind) => (Fault::Closed, kind),
    }
}

/// The version that a message contains; or 0, and why it contains none.
fn version(message: &Message) -> (u64, Fault, u8) {
    match version_in(message) {
        Ok(version) => (version, Fault::Closed, 0),
        Err(answer) => {
            let (fault, kind) = reason(answer);
            (0, fault, kind)
        }
    }
}

/// Whether more rows follow the page in a message, or why it is not a page.
fn page(message: Message) -> (bool, Fault, u8) {
    match page_in(message) {
        Ok(page) => (page.more(), Fault::NoWatch, 0),
        Err(answer) => {
            let (fault, kind) = reason(answer);
            (false, fault, kind)
        }
    }
}

fn refused(rt: &impl Abort, number: u8) -> Message {
    Message::Refused(got(rt, Refused::new(number)))
}

#[test]
fn a_version_is_told_by_a_done_alone(rt: HostRuntime) {
    let done = Message::Done(got(&rt, Done::new(77)));
    same(&rt, &version(&done), &(77, Fault::Closed, 0));
    same(
        &rt,
        &version(&refused(&rt, 9)),
        &(0, Fault::NothingThere, 0),
    );
    same(
        &rt,
        &version(&refused(&rt, 17)),
        &(0, Fault::WriteFailed(0), 0),
    );
    let bye = Message::Bye(got(&rt, Bye::new(1)));
    same(&rt, &version(&bye), &(0, Fault::Closed, KIND_BYE));
    let rows = Message::Rows(got(&rt, Rows::new(false, Vec::new(rt.alloc()))));
    same(&rt, &version(&rows), &(0, Fault::Closed, KIND_ROWS));
}

#[test]
fn a_page_is_told_by_rows_alone(rt: HostRuntime) {
    let rows = Message::Rows(got(&rt, Rows::new(false, Vec::new(rt.alloc()))));
    same(&rt, &page(rows), &(false, Fault::NoWatch, 0));
    same(
        &rt,
        &page(refused(&rt, 31)),
        &(false, Fault::OutOfTurn(0), 0),
    );
    let done = Message::Done(got(&rt, Done::new(1)));
    same(&rt, &page(done), &(false, Fault::Closed, KIND_DONE));
}
