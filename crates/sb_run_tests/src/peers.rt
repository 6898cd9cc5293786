//! Who talks to a running node: its owner at the control socket, and other nodes.
ghost use Rattle.std.specs.Prelude.{◌≡◌, ◌<◌};

use crate::got;
use crate::making::{key, name, new_log, node_of, settings};
use sb_frames::{Connection, Steps};
use sb_log::{PlainLog, WriteLog};
use sb_node::NodeCore;
use sb_session::{Ended, Session, dial, serve};
use sb_table::Table;
use sb_testing::wire::{DONE, PUT};
use sb_types::{Fault, Slot, Value};
use std::alloc::Global;
use std::io::{Read, Write};
use std::marker::Brand;
use std::net::Net;
use std::os::unix::net::{UnixListener, UnixStream};
use std::process::Abort;
use std::sync::ledger::{Blank, Ledger};

/// A table of one write, the flag true under this key.
fn table_with(rt: &impl Abort, alloc: Global, me: &[u8], text: &[u8]) -> Table {
    let mut log = new_log(rt, alloc, me);
    got(rt, log.put(&key(rt, text), &Slot::Set(Value::flag(true))));
    got(rt, log.load(alloc))
}

/// A node whose own write is the flag true under this key.
pub(crate) fn node_with(rt: &impl Abort, alloc: Global, me: &[u8], text: &[u8]) -> NodeCore {
    let table = table_with(rt, alloc, me, text);
    node_of(rt, alloc, settings(rt, 3), me, table)
}

fn talk_on<K: Ledger>(
    core: &mut NodeCore,
    session: Session,
    alloc: Global,
    stream: &UnixStream,
    rounds: Option<u64>,
    blank: Blank,
) -> Result<Ended, Fault>
    requires name { blank.name ≡ K.name }
    requires parts { blank.parts ≡ K.parts }
    requires some { 0 < blank.parts }
{
    let mut connection = Connection::new(alloc, stream, stream, 99, Steps::<K>::new(blank));
    match rounds {
        Some(rounds) => dial(&mut connection, session, core, rounds),
        None => serve(&mut connection, session, core),
    }
}

/// How a session of this node ends. It dials for so many rounds, or serves.
pub(crate) fn talk(
    rt: &impl Abort,
    alloc: Global,
    core: &mut NodeCore,
    stream: &UnixStream,
    rounds: Option<u64>,
) -> Ended {
    let session = Session::new(name(rt, b"c1"), *core.name());
    let blank = Blank::new(1);
    got(
        rt,
        talk_on::<Brand>(core, session, alloc, stream, rounds, blank),
    )
}

/// b serves the node. Returns how the session ends, and how far b holds a and c then.
pub(crate) fn serve_as_b(rt: &impl Abort, alloc: Global, dialed: &UnixStream) -> (Ended, u64, u64) {
    let mut of_b = node_with(rt, alloc, b"b", b"w");
    let by_b = talk(rt, alloc, &mut of_b, dialed, None);
    (by_b, of_b.upto(&name(rt, b"a")), of_b.upto(&name(rt, b"c")))
}

/// A connection to the socket at this path.
pub(crate) fn reach<R: Net + Abort>(rt: &R, path: &str) -> UnixStream {
    got(rt, UnixStream::connect(rt, path))
}

/// The next connection of a listener.
pub(crate) fn next_of(rt: &impl Abort, listener: &UnixListener) -> UnixStream {
    got(rt, listener.accept()).0
}

/// Whether the owner's Put is answered by a Done of this version, below 256.
pub(crate) fn put_is_done_as<R: Net + Abort>(rt: &R, control: &str, version: u8) -> bool {
    let mut stream = reach(rt, control);
    got(rt, stream.write_all(PUT));
    let mut answer = [0u8; 15];
    got(rt, stream.read_exact(&mut answer));
    let mut done = DONE;
    done[14] = version;
    answer == done
}

/// Whether the owner's first Put is answered by its Done.
pub(crate) fn put_is_done<R: Net + Abort>(rt: &R, control: &str) -> bool {
    put_is_done_as(rt, control, 1)
}

/// Hears on a connection until the other end hangs up. Returns whether so many bytes came.
pub(crate) fn hears_only(rt: &impl Abort, stream: &UnixStream, count: usize) -> bool {
    let mut reader = stream;
    let mut heard = [0u8; 64];
    let mut all: usize = 0;
    for _ in 0..64 {
        let more = got(rt, reader.read(&mut heard));
        if more == 0 {
            return all == count;
        }
        all = more.saturating_add(all);
    }
    false
}
