//! Missing memory: whichever allocation is refused, a call ends in one of the ways that it can. What was not shown is
//! shown by the next call that shows. With ample memory these tests make plain calls, and `tools/sweep` refuses each
//! allocation in turn.
use crate::course::{Course, TAKE_OF_B, TAKEN, run_new};
use crate::desk::{Answer, Call, noted};
use std::alloc::Global;
use std::process::Abort;
use std::sync::Wait;

/// Tests that a new node writes, and then answers this call in this way, after which the reader sees this.
fn write_then_call<R: Wait + Abort>(
    rt: &R,
    alloc: Global,
    call: Call,
    answer: Answer,
    seen: Answer,
) {
    let cases = [(call, answer), (Call::Read, seen)];
    run_new(rt, alloc, Course::LateWrite(&cases));
}

/// Any call can come next that shows: a refresh, a poll, a write or a delta.
#[test]
fn the_next_call_shows_a_write(rt: HostRuntime) {
    let alloc = rt.alloc();
    let note = noted(&rt, b"a", b"x", 1);
    write_then_call(
        &rt,
        alloc,
        Call::Refresh,
        Answer::Shown,
        Answer::Read(1, 1, 0),
    );
    write_then_call(&rt, alloc, Call::Poll(0), note, Answer::Read(1, 1, 0));
    write_then_call(
        &rt,
        alloc,
        Call::Write(b"y"),
        Answer::Shown,
        Answer::Read(2, 2, 0),
    );
    write_then_call(&rt, alloc, TAKE_OF_B, TAKEN, Answer::Read(2, 1, 1));
}

/// A call that only asks shows it too. So the reader enters what it knows by the answer.
#[test]
fn a_question_shows_a_write(rt: HostRuntime) {
    let alloc = rt.alloc();
    write_then_call(
        &rt,
        alloc,
        Call::Conflict,
        Answer::Conflict(None),
        Answer::Read(1, 1, 0),
    );
    write_then_call(
        &rt,
        alloc,
        Call::Keys,
        Answer::Keys(1),
        Answer::Read(1, 1, 0),
    );
}

#[test]
fn the_next_call_shows_a_delta(rt: HostRuntime) {
    run_new(&rt, rt.alloc(), Course::LateDelta);
}
