//! An owner and a control socket with a directory: what is kept, what is shared, and what is answered.
use crate::asking::ROWS;
use crate::desk::{Desk, Play, play_at_new};
use crate::making::{key, name, received, weight};
use crate::{got, same};
use sb_directory::DirectoryTag;
use sb_run::Stored;
use sb_testing::delta_of_write;
use sb_testing::wire::{ASK, BYE, DONE, PUT};
use sb_types::{Delta, Entry, Fault};
use std::alloc::Global;
use std::process::Abort;
use std::sync::Wait;

/// The answer to a Bye, which has no place here: Refused, with the number 13.
const UNKNOWN: &[u8] = b"\xa7\x03\x00\x00\x00\x02\x14\x0d";

#[test]
fn requests_are_answered(rt: HostRuntime) {
    play_at_new::<AnswerEach, _>(&rt, rt.alloc());
}

/// A Put, an Ask and a Bye.
struct AnswerEach;

impl Play for AnswerEach {
    fn play<S: DirectoryTag, R: Wait + Abort>(rt: &R, alloc: Global, desk: &mut Desk<S, &R>) {
        answers(rt, alloc, desk, PUT, &DONE);
        answers(rt, alloc, desk, ASK, ROWS);
        answers(rt, alloc, desk, BYE, UNKNOWN);
    }
}

/// Tests the answer to a request.
fn answers<S: DirectoryTag, R: Wait + Abort>(
    rt: &R,
    alloc: Global,
    desk: &mut Desk<S, &R>,
    request: &[u8],
    wanted: &[u8],
) {
    let mut answer = Vec::new(alloc);
    desk.serve(rt, alloc, request, &mut answer);
    same(rt, &answer.as_slice(), &wanted);
}

#[test]
fn another_node_under_the_own_name_stops_writes(rt: HostRuntime) {
    play_at_new::<MeetAnother, _>(&rt, rt.alloc());
}

/// The first put is shared under the version 1. A second one is refused after the directory took what another node a
/// wrote.
struct MeetAnother;

impl Play for MeetAnother {
    fn play<S: DirectoryTag, R: Wait + Abort>(rt: &R, alloc: Global, desk: &mut Desk<S, &R>) {
        let stored = got(rt, desk.put(rt, b"x"));
        desk.apply(rt, &received(rt, alloc, delta_of_a(rt, alloc)));
        let refused = desk.put(rt, b"x");
        let is_shared = matches!(stored, Stored::Shared(_));
        let met = (is_shared, stored.version(), refused);
        same(rt, &met, &(true, 1, Err(Fault::OwnerConflict(2))));
    }
}

/// A delta with a block of the second write of a, after the first.
fn delta_of_a(rt: &impl Abort, alloc: Global) -> Delta {
    let entry = Entry::new(key(rt, b"y"), 2, weight(rt, 7));
    got(rt, delta_of_write(alloc, name(rt, b"a"), entry))
}
