//! News that a running node pushes to its peers, and what it does with what others push.

use crate::making::{key, name, new_log, node_of, settings};
use crate::peers::{next_of, put_is_done, put_is_done_as, reach, talk};
use crate::running::{pace, paths_of, run_observed};
use crate::waking::silent_b;
use crate::{got, holds, same};
use sb_log::WriteLog;
use sb_node::NodeCore;
use sb_run::{Observer, Pace, Paths, PeerState, PushCounts, Status};
use sb_session::Ended;
use sb_testing::wire::{BYE, DELTA_A, HELLO_A, HELLO_B};
use sb_types::{Slot, Value};
use std::alloc::Global;
use std::io::{Read, Write};
use std::net::{Net, Shutdown};
use std::os::unix::net::{UnixListener, UnixStream};
use std::process::Abort;
use std::sync::{Mutex, Wait};
use std::time::{Clock, Duration};
use std::{fs, thread};

/// The Hello of a node c.
const HELLO_C: &[u8] = b"\xa7\x03\x00\x00\x00\x06\x01\x02c1\x01c";

/// How many bytes a push has that brings one write.
const PUSH: usize = 76;

/// Keeps what was reported last of pushes.
#[derive(Drop)]
struct Pusher<'a, R> {
    rt: &'a R,
    counts: Mutex<Option<PushCounts>>,
}

fn new_pusher<R>(rt: &R) -> Pusher<'_, R> {
    Pusher {
        rt,
        counts: Mutex::new(None),
    }
}

impl<R: Wait> Observer for Pusher<'_, R> {
    fn listening(&self) {}

    fn dialed(&self, _peer: &str, _state: PeerState) {}

    fn conflict(&self, _version: u64) {}

    fn wants_status(&self) -> bool {
        true
    }

    fn status(&self, status: &Status<'_>) {
        let mut counts = self.counts.lock(self.rt);
        *counts = Some(status.pushes);
    }
}

/// So many rounds with this pause, in milliseconds.
fn pace_of(rounds: u64, pause: u64) -> Pace {
    let mut pace = pace(rounds, 0);
    pace.pause = pause;
    pace
}

/// Serves the next connection of a listener as b. Returns how that ended, and how far b holds this owner then.
fn serve_next(
    rt: &impl Abort,
    alloc: Global,
    listener: &UnixListener,
    of_b: &mut NodeCore,
    owner: &[u8],
) -> (Ended, u64) {
    let dialed = next_of(rt, listener);
    let ended = talk(rt, alloc, of_b, &dialed, None);
    (ended, of_b.upto(&name(rt, owner)))
}

/// Whether nobody dials for the fifth of a second.
fn is_left_alone<R: Net + Abort + Clock>(rt: &R, listener: &UnixListener) -> bool {
    thread::sleep(rt, Duration::from_millis(200));
    got(rt, listener.set_nonblocking(true));
    let is_alone = listener.accept().is_err();
    got(rt, listener.set_nonblocking(false));
    is_alone
}

/// Hears a push of one write, and greets as b. Returns the connection, which does not end, and what was heard.
fn hear_push(rt: &impl Abort, listener: &UnixListener) -> (UnixStream, [u8; PUSH]) {
    let dialed = next_of(rt, listener);
    let mut heard = [0u8; PUSH];
    let (mut reader, mut writer) = (&dialed, &dialed);
    got(rt, reader.read_exact(&mut heard));
    got(rt, writer.write_all(HELLO_B));
    (dialed, heard)
}

/// Whether this is the Hello of a, the delta with its first write, and the Bye.
fn is_push(heard: &[u8; PUSH]) -> bool {
    let (hello, rest) = heard.split_at(12);
    let (delta, bye) = rest.split_at(56);
    hello == HELLO_A && delta == DELTA_A.as_slice() && bye == BYE
}

/// Pushes a delta to the node as c, and hears until the node hangs up.
fn push_as_c<R: Net + Abort>(rt: &R, sock: &str, delta: &[u8]) {
    let stream = reach(rt, sock);
    let (mut reader, mut writer) = (&stream, &stream);
    for said in [HELLO_C, delta, BYE] {
        got(rt, writer.write_all(said));
    }
    got(rt, stream.shutdown(Shutdown::Write));
    let mut heard = [0u8; 64];
    for _ in 0..64 {
        if got(rt, reader.read(&mut heard)) == 0 {
            return;
        }
    }
}

/// A delta of c with one write under this version, after the one before.
fn delta_of_c(version: u8) -> [u8; 56] {
    let mut delta = DELTA_A;
    delta[10] = b'c';
    delta[26] = version.saturating_sub(1);
    delta[34] = version;
    delta[46] = version;
    delta
}

/// Is dialed in turn as b, and then hears the push of the owner's write and ends it. Nobody dials again before the next turn.
fn hear_and_end<R: Net + Abort + Clock>(
    rt: &R,
    alloc: Global,
    listener: &UnixListener,
    control: &str,
) -> ([u8; PUSH], bool) {
    let mut of_b = silent_b(rt, alloc);
    serve_next(rt, alloc, listener, &mut of_b, b"a");
    holds(rt, "the write is done", put_is_done(rt, control));
    let (dialed, heard) = hear_push(rt, listener);
    drop(dialed);
    let is_alone = is_left_alone(rt, listener);
    serve_next(rt, alloc, listener, &mut of_b, b"a");
    (heard, is_alone)
}

/// A push is the Hello, one delta and the Bye, and no round.
#[test]
fn a_push_brings_a_write_and_nothing_else(rt: HostRuntime) {
    let paths = paths_of("push.sock", "push.control", &["push.b"]);
    let alloc = rt.alloc();
    let listener = got(&rt, UnixListener::bind(&rt, "push.b"));
    let pusher = new_pusher(&rt);
    let (ran, (heard, is_alone)) = thread::join(
        &rt,
        || run_observed(&rt, alloc, &paths, pace_of(2, 3_000), &pusher),
        || hear_and_end(&rt, alloc, &listener, "push.control"),
    );
    got(&rt, fs::remove_file(&rt, "push.b"));
    holds(
        &rt,
        "it is the Hello, one delta and the Bye",
        is_push(&heard),
    );
    holds(&rt, "nobody dials again", is_alone);
    let ran = got(&rt, ran);
    same(&rt, &(ran.rounds, ran.faults), &(2, 0));
    let wanted = PushCounts {
        made: 1,
        faults: 0,
        bytes: 56,
        gaps: 0,
        hastened_rounds: 0,
    };
    same(&rt, &*pusher.counts.lock(&rt), &Some(wanted));
}

#[test]
fn a_peer_that_accepts_late_has_the_news(rt: HostRuntime) {
    let paths = paths_of("late.sock", "late.control", &["late.b"]);
    let alloc = rt.alloc();
    let listener = got(&rt, UnixListener::bind(&rt, "late.b"));
    let pusher = new_pusher(&rt);
    let (ran, ends) = thread::join(
        &rt,
        || run_observed(&rt, alloc, &paths, pace_of(1, 3_000), &pusher),
        || {
            let mut of_b = silent_b(&rt, alloc);
            let in_turn = serve_next(&rt, alloc, &listener, &mut of_b, b"a");
            holds(&rt, "the write is done", put_is_done(&rt, "late.control"));
            thread::sleep(&rt, Duration::from_millis(400));
            [in_turn, serve_next(&rt, alloc, &listener, &mut of_b, b"a")]
        },
    );
    got(&rt, fs::remove_file(&rt, "late.b"));
    same(&rt, &ends, &[(Ended::Bye(1), 0), (Ended::Bye(1), 1)]);
    let ran = got(&rt, ran);
    same(&rt, &(ran.rounds, ran.faults), &(1, 0));
}

/// Is dialed in turn as b, and lets that wait. Meanwhile the owner writes, and nobody else dials. Returns that, how the round
/// ended, and the kind of the second message of the session after it.
fn let_the_first_round_wait<R: Net + Abort + Clock>(
    rt: &R,
    alloc: Global,
    listener: &UnixListener,
    control: &str,
) -> (bool, Ended, u8) {
    let mut of_b = silent_b(rt, alloc);
    let dialed = next_of(rt, listener);
    holds(rt, "the write is done", put_is_done(rt, control));
    let is_alone = is_left_alone(rt, listener);
    let ended = talk(rt, alloc, &mut of_b, &dialed, None);
    let kind = second_kind(rt, listener);
    serve_next(rt, alloc, listener, &mut of_b, b"a");
    (is_alone, ended, kind)
}

/// Only that round shows what the peer lacks, so there is no second beside it, and a push after it.
#[test]
fn news_during_the_first_round_waits_for_its_end(rt: HostRuntime) {
    let paths = paths_of("first.sock", "first.control", &["first.b"]);
    let alloc = rt.alloc();
    let listener = got(&rt, UnixListener::bind(&rt, "first.b"));
    let pusher = new_pusher(&rt);
    let (ran, seen) = thread::join(
        &rt,
        || run_observed(&rt, alloc, &paths, pace_of(2, 3_000), &pusher),
        || let_the_first_round_wait(&rt, alloc, &listener, "first.control"),
    );
    got(&rt, fs::remove_file(&rt, "first.b"));
    same(&rt, &seen, &(true, Ended::Bye(1), 3));
    same(&rt, &got(&rt, ran).rounds, &2);
}

/// Hears four pushes as b, and ends the second alone. Returns how far b holds a after the second, and after the next turn.
/// Between them it returns whether nobody dials after the last write.
fn leave_open<R: Net + Abort + Clock>(
    rt: &R,
    alloc: Global,
    listener: &UnixListener,
    control: &str,
) -> (u64, bool, u64) {
    let mut of_b = silent_b(rt, alloc);
    serve_next(rt, alloc, listener, &mut of_b, b"a");
    holds(rt, "write 1 is done", put_is_done(rt, control));
    let first = hear_push(rt, listener);
    thread::sleep(rt, Duration::from_millis(400));
    holds(rt, "write 2 is done", put_is_done_as(rt, control, 2));
    let (_, behind_second) = serve_next(rt, alloc, listener, &mut of_b, b"a");
    for version in 3..5u8 {
        holds(rt, "a write is done", put_is_done_as(rt, control, version));
        let opened = hear_push(rt, listener);
        thread::sleep(rt, Duration::from_millis(400));
        drop(opened);
    }
    holds(rt, "write 5 is done", put_is_done_as(rt, control, 5));
    let is_alone = is_left_alone(rt, listener);
    drop(first);
    let (_, in_turn) = serve_next(rt, alloc, listener, &mut of_b, b"a");
    (behind_second, is_alone, in_turn)
}

/// Such a peer gets the same again. After two faults in a row it is dialed in its turns alone.
#[test]
fn a_peer_that_never_ends_is_told_again(rt: HostRuntime) {
    let paths = paths_of("open.sock", "open.control", &["open.b"]);
    let alloc = rt.alloc();
    let listener = got(&rt, UnixListener::bind(&rt, "open.b"));
    let pusher = new_pusher(&rt);
    let mut pace = pace_of(2, 6_000);
    pace.dial_idle = 200;
    let (ran, seen) = thread::join(
        &rt,
        || run_observed(&rt, alloc, &paths, pace, &pusher),
        || leave_open(&rt, alloc, &listener, "open.control"),
    );
    got(&rt, fs::remove_file(&rt, "open.b"));
    same(&rt, &seen, &(2, true, 5));
    let ran = got(&rt, ran);
    same(&rt, &(ran.rounds, ran.faults), &(2, 3));
}

#[test]
fn a_push_that_brings_nothing_new_wakes_nobody(rt: HostRuntime) {
    let paths = paths_of("twice.sock", "twice.control", &["twice.b"]);
    let alloc = rt.alloc();
    let listener = got(&rt, UnixListener::bind(&rt, "twice.b"));
    let pusher = new_pusher(&rt);
    let (ran, (held, is_alone)) = thread::join(
        &rt,
        || run_observed(&rt, alloc, &paths, pace_of(1, 3_000), &pusher),
        || {
            let mut of_b = silent_b(&rt, alloc);
            serve_next(&rt, alloc, &listener, &mut of_b, b"c");
            push_as_c(&rt, "twice.sock", &delta_of_c(1));
            let (_, held) = serve_next(&rt, alloc, &listener, &mut of_b, b"c");
            push_as_c(&rt, "twice.sock", &delta_of_c(1));
            (held, is_left_alone(&rt, &listener))
        },
    );
    got(&rt, fs::remove_file(&rt, "twice.b"));
    same(&rt, &(held, is_alone), &(1, true));
    same(&rt, &got(&rt, ran).events, &3);
}

/// A node c with a text of 512 bytes.
fn wordy_c(rt: &impl Abort, alloc: Global) -> NodeCore {
    let mut log = new_log(rt, alloc, b"c");
    let text = got(rt, Value::text(alloc, &[b'x'; 512]));
    got(rt, log.put(&key(rt, b"t"), &Slot::Set(text)));
    let table = got(rt, log.load(alloc));
    node_of(rt, alloc, settings(rt, 3), b"c", table)
}

/// The kind of the second message that comes to a listener next.
fn second_kind(rt: &impl Abort, listener: &UnixListener) -> u8 {
    let dialed = next_of(rt, listener);
    let mut heard = [0u8; 19];
    let mut reader = &dialed;
    got(rt, reader.read_exact(&mut heard));
    heard[18]
}

/// A round brings what is too long for a push.
#[test]
fn a_delta_that_is_too_long_makes_a_round(rt: HostRuntime) {
    let paths = paths_of("long.sock", "long.control", &["long.b"]);
    let alloc = rt.alloc();
    let listener = got(&rt, UnixListener::bind(&rt, "long.b"));
    let pusher = new_pusher(&rt);
    let (ran, kinds) = thread::join(
        &rt,
        || run_observed(&rt, alloc, &paths, pace_of(2, 3_000), &pusher),
        || {
            serve_next(&rt, alloc, &listener, &mut silent_b(&rt, alloc), b"c");
            push_as_c(&rt, "long.sock", &delta_of_c(1));
            let of_short = second_kind(&rt, &listener);
            let mut of_c = wordy_c(&rt, alloc);
            talk(&rt, alloc, &mut of_c, &reach(&rt, "long.sock"), Some(1));
            [of_short, second_kind(&rt, &listener)]
        },
    );
    got(&rt, fs::remove_file(&rt, "long.b"));
    same(&rt, &kinds, &[3, 2]);
    same(&rt, &got(&rt, ran).rounds, &2);
}

/// A round brings the writes of an owner whose log was purged above what the peer has.
#[test]
fn news_of_a_purged_owner_makes_a_round(rt: HostRuntime) {
    let paths = paths_of("purged.sock", "purged.control", &["purged.b"]);
    let alloc = rt.alloc();
    let listener = got(&rt, UnixListener::bind(&rt, "purged.b"));
    let pusher = new_pusher(&rt);
    let mut purged = delta_of_c(1);
    purged[18] = 2;
    purged[34] = 2;
    purged[46] = 2;
    let (ran, (kind, is_alone)) = thread::join(
        &rt,
        || run_observed(&rt, alloc, &paths, pace_of(2, 3_000), &pusher),
        || {
            serve_next(&rt, alloc, &listener, &mut silent_b(&rt, alloc), b"c");
            push_as_c(&rt, "purged.sock", &purged);
            let kind = second_kind(&rt, &listener);
            push_as_c(&rt, "purged.sock", &purged);
            (kind, is_left_alone(&rt, &listener))
        },
    );
    got(&rt, fs::remove_file(&rt, "purged.b"));
    same(&rt, &(kind, is_alone), &(2, true));
    same(&rt, &got(&rt, ran).rounds, &2);
}

/// Is dialed in turn, and then because of a gap. A second gap in the same pause makes no round.
fn hear_gaps<R: Net + Abort + Clock>(
    rt: &R,
    alloc: Global,
    listener: &UnixListener,
    sock: &str,
) -> (Ended, bool) {
    let mut of_b = silent_b(rt, alloc);
    serve_next(rt, alloc, listener, &mut of_b, b"a");
    push_as_c(rt, sock, &delta_of_c(6));
    let (hastened, _) = serve_next(rt, alloc, listener, &mut of_b, b"a");
    push_as_c(rt, sock, &delta_of_c(6));
    let is_alone = is_left_alone(rt, listener);
    serve_next(rt, alloc, listener, &mut of_b, b"a");
    (hastened, is_alone)
}

#[test]
fn a_gap_hastens_a_round_once_a_pause(rt: HostRuntime) {
    let paths = paths_of("gap.sock", "gap.control", &["gap.b"]);
    let alloc = rt.alloc();
    let listener = got(&rt, UnixListener::bind(&rt, "gap.b"));
    let pusher = new_pusher(&rt);
    let (ran, seen) = thread::join(
        &rt,
        || run_observed(&rt, alloc, &paths, pace_of(3, 3_000), &pusher),
        || hear_gaps(&rt, alloc, &listener, "gap.sock"),
    );
    got(&rt, fs::remove_file(&rt, "gap.b"));
    same(&rt, &seen, &(Ended::Bye(1), true));
    let ran = got(&rt, ran);
    same(&rt, &(ran.rounds, ran.faults), &(3, 0));
    let wanted = PushCounts {
        made: 0,
        faults: 0,
        bytes: 0,
        gaps: 2,
        hastened_rounds: 1,
    };
    same(&rt, &*pusher.counts.lock(&rt), &Some(wanted));
}
