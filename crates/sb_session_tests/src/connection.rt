//! Connections that fail on the way, and what they keep from one talk to the next.
ghost use Rattle.std.specs.Prelude.{◌≡◌, ◌<◌};

use crate::session::Node;
use crate::wire::joined;
use crate::{got, name, same};
use sb_codec::{Bye, Message};
use sb_frames::{Connection, Steps};
use sb_session::{Ended, Session, serve};
use sb_testing::streams::{FailingWriter, Pieces};
use sb_testing::wire::{BYE, HELLO_A};
use sb_types::{Fault, REASON_ROUNDS_DONE};
use std::alloc::Global;
use std::marker::Brand;
use std::process::Abort;
use std::sync::ledger::{Blank, Ledger};

/// A connection over these bytes, to a writer that takes so many.
fn new_connection<'a, L: Ledger>(
    alloc: Global,
    reader: Pieces<'a>,
    room: usize,
    blank: Blank,
) -> Connection<Pieces<'a>, FailingWriter, L>
    requires name { blank.name ≡ L.name }
    requires parts { blank.parts ≡ L.parts }
    requires some { 0 < blank.parts }
{
    Connection::new(
        alloc,
        reader,
        FailingWriter::new(room),
        99,
        Steps::<L>::new(blank),
    )
}

fn bye() -> Result<Message, Fault> {
    Ok(Message::Bye(Bye::new(REASON_ROUNDS_DONE)?))
}

/// Starts a talk and sends a Bye, and whether the last write is said to have failed then.
fn send_bye<L: Ledger>(
    connection: &mut Connection<Pieces<'_>, FailingWriter, L>,
) -> (Result<(), Fault>, bool) {
    let Ok(bye) = bye() else {
        return (Err(Fault::Malformed(0)), false);
    };
    if connection.start().is_err() {
        return (Err(Fault::Closed), false);
    }
    let sent = connection.send(&bye);
    (sent, connection.has_write_failed())
}

/// Whether a message comes, and whether the last read is said to have failed then.
fn receives<L: Ledger>(
    connection: &mut Connection<Pieces<'_>, FailingWriter, L>,
) -> (Result<bool, Fault>, bool) {
    let received = match connection.receive() {
        Ok(message) => Ok(message.is_some()),
        Err(fault) => Err(fault),
    };
    (received, connection.has_read_failed())
}

/// What comes of two Byes that are sent to a writer which has room for one and a half, and fails once.
fn send_byes<L: Ledger>(alloc: Global, blank: Blank) -> [(Result<(), Fault>, bool); 3]
    requires name { blank.name ≡ L.name }
    requires parts { blank.parts ≡ L.parts }
    requires some { 0 < blank.parts }
{
    let mut connection = new_connection::<L>(alloc, Pieces::new(b"", 9, false), 12, blank);
    let first = send_bye(&mut connection);
    let second = send_bye(&mut connection);
    let third = send_bye(&mut connection);
    [first, second, third]
}

#[test]
fn a_connection_says_whether_its_last_write_failed(rt: HostRuntime) {
    let wanted = [
        (Ok(()), false),
        (Err(Fault::WriteFailed(4)), true),
        (Err(Fault::WriteFailed(0)), true),
    ];
    same(&rt, &send_byes::<Brand>(rt.alloc(), Blank::new(1)), &wanted);
}

/// What is received of these bytes, of which so many come in a read and then a failure.
fn receive_three<L: Ledger>(
    alloc: Global,
    bytes: &[u8],
    blank: Blank,
) -> [(Result<bool, Fault>, bool); 3]
    requires name { blank.name ≡ L.name }
    requires parts { blank.parts ≡ L.parts }
    requires some { 0 < blank.parts }
{
    let mut connection = new_connection::<L>(alloc, Pieces::new(bytes, 5, true), 0, blank);
    let first = receives(&mut connection);
    let second = receives(&mut connection);
    let third = receives(&mut connection);
    [first, second, third]
}

#[test]
fn a_connection_says_whether_its_last_read_failed(rt: HostRuntime) {
    let found = receive_three::<Brand>(rt.alloc(), &BYE, Blank::new(1));
    let failed = (Err(Fault::ReadFailed), true);
    same(&rt, &found, &[(Ok(true), false), failed, failed]);
    let found = receive_three::<Brand>(rt.alloc(), b"\xa6", Blank::new(1));
    let closed = (Err(Fault::Closed), false);
    same(&rt, &found, &[(Err(Fault::BadMark), false), closed, closed]);
}

/// Whether a talk starts over a connection that is closed after a faulty frame.
fn starts_when_closed<L: Ledger>(alloc: Global, blank: Blank) -> Result<(), Fault>
    requires name { blank.name ≡ L.name }
    requires parts { blank.parts ≡ L.parts }
    requires some { 0 < blank.parts }
{
    let mut connection = new_connection::<L>(alloc, Pieces::new(b"\xa6", 5, false), 9, blank);
    connection.start()?;
    let _ = connection.receive();
    connection.start()
}

#[test]
fn no_talk_starts_after_a_faulty_frame(rt: HostRuntime) {
    let found = starts_when_closed::<Brand>(rt.alloc(), Blank::new(1));
    same(&rt, &found, &Err(Fault::Closed));
}

/// How two sessions end over one connection, one after the other, and how many bytes were not read then.
fn serve_twice<L: Ledger>(
    rt: &impl Abort,
    node: &mut Node,
    bytes: &[u8],
    blank: Blank,
) -> ([Result<Ended, Fault>; 2], usize)
    requires name { blank.name ≡ L.name }
    requires parts { blank.parts ≡ L.parts }
    requires some { 0 < blank.parts }
{
    let session = Session::new(name(rt, b"c1"), *node.holdings.me());
    let reader = Pieces::new(bytes, 4_096, false);
    let mut connection = new_connection::<L>(node.alloc, reader, 999, blank);
    let first = serve(&mut connection, session, node);
    let second = serve(&mut connection, session, node);
    let (reader, _) = connection.into_parts();
    ([first, second], reader.bytes.len())
}

#[test]
fn what_is_read_beyond_a_session_is_held(rt: HostRuntime) {
    let alloc = rt.alloc();
    let bytes = joined(&rt, alloc, &[&HELLO_A, &BYE, &HELLO_A, &BYE]);
    let mut node = Node::new(&rt, alloc, b"b", false);
    let found = serve_twice::<Brand>(&rt, &mut node, &bytes, Blank::new(1));
    same(&rt, &found, &([Ok(Ended::Bye(1)), Ok(Ended::Bye(1))], 0));
}

/// Whether the example of `Connection` holds.
fn is_over<L: Ledger>(alloc: Global, blank: Blank) -> Result<bool, Fault>
    requires name { blank.name ≡ L.name }
    requires parts { blank.parts ≡ L.parts }
    requires some { 0 < blank.parts }
{
    let (steps, bye) = (Steps::<L>::new(blank), bye()?);
    let mut connection = Connection::new(alloc, b"".as_slice(), Vec::new(alloc), 1, steps);
    connection.send(&bye)?;
    let is_over = connection.receive()?.is_none();
    let (_, sent) = connection.into_parts();
    Ok(is_over && sent.as_slice() == b"\xa7\x03\x00\x00\x00\x02\x04\x01".as_slice())
}

#[test]
fn the_example_of_connections(rt: HostRuntime) {
    let found = got(&rt, is_over::<Brand>(rt.alloc(), Blank::new(1)));
    same(&rt, &found, &true);
}
