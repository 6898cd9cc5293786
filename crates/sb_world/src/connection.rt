//! A connection: a session at a node, and the queue of bytes that are on their way to it.

ghost use Rattle.std.specs.Prelude.{◌≡◌, ◌<◌, ◌≤◌, ℕ, nat_eq, if◌then◌else◌, List, [], ◌++◌, length, drop, remove, slice_set, slice_get, Some, None, IfSome, IfNone, IfErr, OnOk, OnErr};
ghost use Rattle.sb_frames.specs.Streams.{open_with};
ghost use Rattle.sb_world.specs.declared.event.Item as event;
ghost use Rattle.sb_world.specs.Connections as spec;
ghost use Rattle.sb_world.specs.Connections.{connection_at, with_connection, without_connection, of_others};
ghost use Rattle.sb_world.specs.Connecting.{connection_with_bytes, in_session, listener, heard_by};
ghost use Rattle.sb_world.specs.Events.{node_at, node_of};
ghost use Rattle.sb_world.specs.Hearing.{Listener, Heard, Hears, Tells};

use crate::event::{Event, Item};
use crate::hearing::hear;
use crate::sent::Sent;
use bytes::BytesMut;
use sb_frames::Frames;
use sb_node::NodeCore;
use sb_session::Session;
use sb_types::{Fault, Name};
use std::alloc::Global;
use std::marker::Model;

/// A connection of a node: its session, what came from its queue and was not taken yet, and what is still to come. The
/// queue is a buffer of `bytes`, which drops a piece in front without moving the rest. So a piece costs only as much as
/// its own bytes.
#[derive(Drop)]
pub(crate) struct Connection {
    number: u64,
    me: Name,
    session: Session,
    frames: Frames,
    left: BytesMut,
}

impl Model for Connection {
    ghost use Rattle.sb_world.specs.Connections as connections;

    ghost Value = { connections.Connection };

    ghost view = { λ c. record { number = c.number; me = c.me; session = c.session; stream = c.frames; left = c.left.items } };
}

/// The index of the connection of a number.
pub(crate) fn index_of(connections: &[Connection], number: u64) -> Option<usize>
    ensures none { IfNone result (connection_at connections.now number ≡ None) }
    ensures within { IfSome result (λ i. i < length connections.now) }
    ensures found { IfSome result (λ i. connection_at connections.now number ≡ slice_get connections.now i) }
    ensures set { IfSome result (λ i. (c : spec.Connection) → with_connection connections.now number c ≡ slice_set connections.now i c) }
    ensures cut { IfSome result (λ i. without_connection connections.now number ≡ remove connections.now i) }
{
    let mut index = 0;
    while index < connections.len() {
        if connections[index].is_numbered(number) {
            return Some(index);
        }
        index += 1;
    }
    None
}

/// The node of the connection of a number.
fn node_at(connections: &[Connection], number: u64) -> Option<Name>
    ensures { result ≡ node_at connections.now number }
{
    let index = index_of(connections, number)?;
    Some(connections[index].node())
}

/// The node at which an event happens.
pub(crate) fn node_of(connections: &[Connection], event: &Event) -> Option<Name>
    ensures { result ≡ node_of connections.now event.now }
{
    match event {
        Event::Commit(me, _, _)
        | Event::Take(me)
        | Event::CrashInCommit(me, _, _, _)
        | Event::Purge(me, _)
        | Event::Trim(me, _)
        | Event::Restart(me)
        | Event::Connect(me, _)
        | Event::Offer(me, _, _)
        | Event::Read(me, _, _)
        | Event::Upto(me, _) => Some(*me),
        Event::Close(number)
        | Event::Line(number, _)
        | Event::Piece(number, _)
        | Event::Ask(number) => node_at(connections, *number),
    }
}

/// Drops the connections of a node.
pub(crate) fn drop_those_of(connections: &mut Vec<Connection>, me: &Name)
    ensures { connections.new.items ≡ of_others me.now connections.old.items }
{
    let me = *me;
    connections.retain(|connection| connection.node() != me);
}

/// Drops the connections of a node, unless it is up.
pub(crate) fn drop_those_of_down(connections: &mut Vec<Connection>, me: &Name, is_up: bool)
    ensures { connections.new.items ≡ (if is_up then connections.old.items else of_others me.now connections.old.items) }
{
    if !is_up {
        drop_those_of(connections, me);
    }
}

impl Connection {
    /// A connection of a node, as it begins.
    pub(crate) fn new(alloc: Global, number: u64, me: Name, session: Session) -> Connection
        ensures { result ≡ record { number = number; me = me; session = session; stream = open_with []; left = [] } }
    {
        Connection {
            number,
            me,
            session,
            frames: Frames::new(alloc),
            left: BytesMut::new(alloc),
        }
    }

    /// Whether this is its number.
    pub(crate) fn is_numbered(&self, number: u64) -> bool
        ensures { result ≡ nat_eq self.now.number number }
    {
        self.number == number
    }

    /// Its node.
    pub(crate) fn node(&self) -> Name
        ensures { result ≡ self.now.me }
    {
        self.me
    }

    /// Its session.
    pub(crate) fn session(&self) -> Session
        ensures { result ≡ self.now.session }
    {
        self.session
    }

    /// Puts this session in the place of the old one.
    pub(crate) fn go_on(&mut self, session: Session)
        ensures { self.new ≡ in_session self.old session }
    {
        self.session = session;
    }

    /// Adds bytes at the end of the queue. `NoMemory`, with nothing changed.
    pub(crate) fn line(&mut self, bytes: &[u8]) -> Result<(), Fault>
        ensures lined { OnOk result (self.new ≡ connection_with_bytes self.old bytes.now) }
        ensures unchanged { OnErr result (self.new ≡ self.old) }
        ensures memory { IfErr result (λ fault. fault ≡ Fault.NoMemory) }
    {
        self.left.extend_from_slice(bytes)?;
        Ok(())
    }

    /// Takes the next `count` bytes of the queue, or all that are left. Then it takes each message that has come whole,
    /// up to the first fault, which it returns.
    pub(crate) fn piece(
        &mut self,
        alloc: Global,
        core: &mut NodeCore,
        count: u64,
        sent: &mut Vec<Sent>,
        items: &mut Vec<Item>,
    ) -> Option<Fault>
        ensures { (heard : List Heard) × (mid : Listener) × (last : Listener) × (more : List (List ℕ)) × (told : List event.Item)
            × (sent.new.items ≡ sent.old.items ++ more) × (items.new.items ≡ items.old.items ++ told)
            × Hears (listener core.old self.old count) heard mid × Tells (length sent.old.items) heard mid last result told more
            × (core.new ≡ last.core) × IfNone result (self.new ≡ heard_by self.old count last) }
    {
        let count = count.min(self.left.len() as u64) as usize;
        match self.frames.feed(&self.left.as_slice()[..count]) {
            Ok(()) => {}
            Err(fault) => return Some(fault),
        }
        self.left.advance(count);
        hear(
            alloc,
            core,
            &mut self.session,
            &mut self.frames,
            sent,
            items,
        )
    }
}
