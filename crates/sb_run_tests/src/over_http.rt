//! A node that is asked and written over HTTP, at a Unix socket.

use crate::making::{new_log, settings_with};
use crate::peers::{next_of, reach, talk};
use crate::running::{Host, pace, paths_of};
use crate::waking::silent_b;
use crate::{got, holds, same};
use sb_run::{Nobody, NodeConfig, Paths, Ran, run_node};
use sb_types::{BUDGET_LEAST, Fault};
use std::alloc::Global;
use std::io::Write;
use std::net::{Net, TcpListener, TcpStream};
use std::os::unix::net::UnixListener;
use std::process::Abort;
use std::time::{Clock, Duration};
use std::{fs, io, thread};

/// The write of the weight 5 under w.
const PUT_W: &str =
    "PUT /v1/keys/w HTTP/1.1\r\nHost: x\r\nContent-Length: 27\r\n\r\n{\"kind\":\"weight\",\"value\":5}";

/// The removal of what is under w.
const DELETE_W: &str = "DELETE /v1/keys/w HTTP/1.1\r\nHost: x\r\n\r\n";

/// The question for all rows.
const GET_ROWS: &str = "GET /v1/rows HTTP/1.1\r\nHost: x\r\n\r\n";

/// The question for all rows with their mark.
const GET_MARK: &str = "GET /v1/rows?wait=0s HTTP/1.1\r\nHost: x\r\n\r\n";

/// How often a poll is asked again that is refused.
const TRIES: u64 = 100;

/// The paths of a node that answers over HTTP too, and of its peers.
fn paths_with_http<'a>(peers: &'a [&'a str]) -> Paths<'a> {
    Paths {
        sock: "http.sock",
        control: "http.control",
        peers,
        http: Some("http.socket"),
    }
}

/// Runs the node a with so many seats: three are for other threads, and each other one for a thread that answers over HTTP.
fn run_with_http<R: Host + Net<Listener = TcpListener, Stream = TcpStream>>(
    rt: &R,
    alloc: Global,
    paths: &Paths,
    seats: u64,
) -> Result<Ran, Fault> {
    let config = NodeConfig {
        settings: settings_with(rt, BUDGET_LEAST, seats, 1),
        paths: *paths,
        pace: pace(1, 0),
        beat: None,
        forgotten: &[],
    };
    run_node(rt, alloc, config, new_log(rt, alloc, b"a"), &Nobody)
}

/// The status and the body of the answer to a request, with a space between.
fn answer<R: Net + Abort>(rt: &R, alloc: Global, http: &str, request: &str) -> String {
    let mut stream = reach(rt, http);
    got(rt, stream.write_all(request.as_bytes()));
    let whole = got(rt, io::read_to_string(alloc, stream));
    let (head, body) = match whole.as_str().split_once("\r\n\r\n") {
        Some(parts) => parts,
        None => ("HTTP/1.1 000", ""),
    };
    let status = match head.get(9..12) {
        Some(digits) => digits,
        None => "",
    };
    got(rt, format!(in alloc; "{status} {body}"))
}

/// Writes, reads and removes while the first round with b goes on.
fn write_and_read<R: Net + Abort>(
    rt: &R,
    alloc: Global,
    listener: &UnixListener,
    http: &str,
) -> [String; 4] {
    let dialed = next_of(rt, listener);
    let answers = [
        answer(rt, alloc, http, PUT_W),
        answer(rt, alloc, http, GET_ROWS),
        answer(rt, alloc, http, DELETE_W),
        answer(rt, alloc, http, DELETE_W),
    ];
    talk(rt, alloc, &mut silent_b(rt, alloc), &dialed, None);
    answers
}

#[test]
fn writes_over_http_are_made(rt: HostRuntime) {
    let paths = paths_with_http(&["http.b"]);
    let alloc = rt.alloc();
    let listener = got(&rt, UnixListener::bind(&rt, "http.b"));
    let (ran, [put, rows, removed, again]) = thread::join(
        &rt,
        || run_with_http(&rt, alloc, &paths, 4),
        || write_and_read(&rt, alloc, &listener, "http.socket"),
    );
    got(&rt, fs::remove_file(&rt, "http.b"));
    same(&rt, &put.as_str(), &"200 {\"version\":1}\n");
    let page =
        "200 {\"more\":false,\"rows\":[{\"key\":\"w\",\"kind\":\"weight\",\"owner\":\"a\",\"value\":5,\"version\":1}]}\n";
    same(&rt, &rows.as_str(), &page);
    same(&rt, &removed.as_str(), &"200 {\"version\":2}\n");
    let gone = "404 {\"error\":\"there is nothing to remove under this key\",\"fault\":9}\n";
    same(&rt, &again.as_str(), &gone);
    // The write, the removal, and the delta of b.
    same(&rt, &got(&rt, ran).events, &3);
}

/// The mark in an answer; empty if it has none.
fn mark_in(answer: &str) -> &str {
    let rest = match answer.split_once("\"seen\":\"") {
        Some((_, rest)) => rest,
        None => "",
    };
    match rest.split_once("\"") {
        Some((mark, _)) => mark,
        None => "",
    }
}

/// The poll that waits so many seconds for other rows than those of a mark.
fn poll_of(rt: &impl Abort, alloc: Global, seconds: &str, seen: &str) -> String {
    got(
        rt,
        format!(in alloc; "GET /v1/rows?wait={seconds}s&seen={seen} HTTP/1.1\r\nHost: x\r\n\r\n"),
    )
}

/// The answer to a poll, which is asked again while it is refused.
fn answer_once_free<R: Net + Clock + Abort>(
    rt: &R,
    alloc: Global,
    http: &str,
    request: &str,
) -> String {
    for _ in 0..TRIES {
        let found = answer(rt, alloc, http, request);
        if !found.as_str().starts_with("503") {
            return found;
        }
        thread::sleep(rt, Duration::from_millis(50));
    }
    answer(rt, alloc, http, request)
}

/// Three callers poll for a minute and hang up. Then one polls for a second, while the first round with b goes on. Returns the
/// rows before, and its answer.
fn poll_after_others_left<R: Net + Clock + Abort>(
    rt: &R,
    alloc: Global,
    listener: &UnixListener,
    http: &str,
) -> [String; 2] {
    let dialed = next_of(rt, listener);
    let page = answer(rt, alloc, http, GET_MARK);
    let long = poll_of(rt, alloc, "60", mark_in(page.as_str()));
    for _ in 0..3 {
        let mut stream = reach(rt, http);
        got(rt, stream.write_all(long.as_bytes()));
    }
    let short = poll_of(rt, alloc, "1", mark_in(page.as_str()));
    let found = answer_once_free(rt, alloc, http, short.as_str());
    talk(rt, alloc, &mut silent_b(rt, alloc), &dialed, None);
    [page, found]
}

// Of two threads one may wait, so a single caller that left would keep all others out for a minute.
#[test]
fn a_poll_gives_its_place_back_once_its_caller_hung_up(rt: HostRuntime) {
    let paths = Paths {
        http: Some("hung.socket"),
        ..paths_of("hung.sock", "hung.control", &["hung.b"])
    };
    let alloc = rt.alloc();
    let listener = got(&rt, UnixListener::bind(&rt, "hung.b"));
    let (ran, [page, found]) = thread::join(
        &rt,
        || run_with_http(&rt, alloc, &paths, 5),
        || poll_after_others_left(&rt, alloc, &listener, "hung.socket"),
    );
    got(&rt, fs::remove_file(&rt, "hung.b"));
    holds(
        &rt,
        "the rows have a mark",
        !mark_in(page.as_str()).is_empty(),
    );
    same(&rt, &found.as_str(), &page.as_str());
    same(&rt, &got(&rt, ran).rounds, &1);
}
