//! A peer in a session: what it sends and what it hears.
ghost use Rattle.std.specs.Prelude.{◌≡◌, ◌<◌};

use crate::got;
use crate::making::name;
use sb_frames::{Connection, Steps};
use sb_session::{Ended, Handler, Session, serve};
use sb_testing::streams::{Hearing, Pieces};
use sb_testing::wire::{SAID_BY_A, SAID_BY_B};
use std::alloc::Global;
use std::marker::Brand;
use std::process::Abort;
use std::sync::ledger::{Blank, Ledger};

/// A peer that has heard nothing, with room for all that it must hear.
fn new_hearing(rt: &impl Abort, alloc: Global) -> Hearing {
    Hearing {
        bytes: got(rt, Vec::with_capacity(alloc, 128)),
        room: usize::MAX,
    }
}

/// A session of the node b, which has not begun.
fn session(rt: &impl Abort) -> Session {
    Session::new(name(rt, b"c1"), name(rt, b"b"))
}

/// How a session ended, and whether the peer heard just this.
pub(crate) type Talked = (Ended, bool);

fn talk_on<L: Ledger, H: Handler>(
    rt: &impl Abort,
    handler: &mut H,
    alloc: Global,
    piece: usize,
    blank: Blank,
) -> Talked
    requires name { blank.name ≡ L.name }
    requires parts { blank.parts ≡ L.parts }
    requires some { 0 < blank.parts }
{
    let reader = Pieces::new(SAID_BY_A, piece, false);
    let writer = new_hearing(rt, alloc);
    let mut connection = Connection::new(alloc, reader, writer, 99, Steps::<L>::new(blank));
    let ended = serve(&mut connection, session(rt), handler);
    let (_, writer) = connection.into_parts();
    (got(rt, ended), writer.bytes.as_slice() == SAID_BY_B)
}

/// How a session of a node b ends with a peer a whose bytes come in such pieces. Then whether the peer hears the right
/// answer.
pub(crate) fn talk<H: Handler>(
    rt: &impl Abort,
    handler: &mut H,
    alloc: Global,
    piece: usize,
) -> Talked {
    talk_on::<Brand, H>(rt, handler, alloc, piece, Blank::new(1))
}
