//! A directory that serves a peer in a session, from a seat.
ghost use Rattle.std.specs.Prelude.{◌≡◌};

use crate::making::{key, node_of};
use crate::peers::{Talked, talk};
use crate::seats::close;
use crate::{got, same, same_at, there};
use sb_directory::{Directory, DirectoryTag, ReaderSeat, SeatHandler};
use sb_node::NodeCore;
use sb_session::Ended;
use sb_table::Table;
use sb_testing::wire::SAID_BY_B;
use sb_types::{Entry, Slot, Value};
use sb_views::NewHistory;
use std::alloc::Global;
use std::marker::Brand;
use std::process::Abort;
use std::sync::Wait;
use std::sync::ledger::Blank;

/// Makes a session of a node b from its seat, with a peer whose bytes come in such pieces.
fn serve_from<S: DirectoryTag, H: Wait + Drop, R: Wait + Abort>(
    rt: &R,
    alloc: Global,
    directory: &Directory<S, H>,
    seats: &mut Vec<ReaderSeat<S>>,
    piece: usize,
) -> Talked {
    let mut served = SeatHandler::new(rt, directory, there(rt, seats.pop()));
    let talked = talk(rt, &mut served, alloc, piece);
    got(rt, seats.push(served.into_seat()));
    talked
}

/// How a session with a peer a ended, and whether b sent just its Hello, its delta and its digest. Then how many events
/// there were.
fn serve_one<S: DirectoryTag, R: Wait + Abort>(
    rt: &R,
    alloc: Global,
    history: NewHistory,
    blank: Blank,
    core: NodeCore,
    piece: usize,
) -> (Talked, u64)
    requires history { history.seen.book ≡ S.history }
    requires opening { S.opening ≡ core.node }
    requires settings { S.settings ≡ core.settings }
    requires name { blank.name ≡ S.name }
    requires parts { blank.parts ≡ S.parts }
    requires all { (1 ≡ S.seats) × (1 ≡ S.parts) }
{
    let made = Directory::<S, &R>::make(rt, alloc, history, blank, core, 1);
    let (directory, mut seats) = got(rt, made);
    let talked = serve_from(rt, alloc, &directory, &mut seats, piece);
    (talked, close(rt, directory, seats).events)
}

/// The table of an owner that wrote the flag true under w.
fn flagged(rt: &impl Abort, alloc: Global) -> Table {
    let mut table = Table::new(alloc);
    let entry = Entry::new(key(rt, b"w"), 1, Slot::Set(Value::flag(true)));
    got(rt, table.push(entry));
    table
}

/// Tests that a new directory of a node b that wrote the flag true under w serves a peer whose bytes come in such
/// pieces.
fn serve_new<R: Wait + Abort>(rt: &R, alloc: Global, piece: usize) {
    let core = node_of(rt, alloc, b"b", flagged(rt, alloc));
    let talked = serve_one::<Brand, _>(rt, alloc, NewHistory::new(), Blank::new(1), core, piece);
    same_at(rt, &piece, &talked, &((Ended::Bye(1), true), 0));
}

#[test]
fn a_peer_is_served(rt: HostRuntime) {
    for piece in [1usize, 7, 58] {
        serve_new(&rt, rt.alloc(), piece);
    }
    // Hello, the delta and the digest.
    same(&rt, &SAID_BY_B.len(), &99);
}
