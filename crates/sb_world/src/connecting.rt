//! What a node does with its connections.

ghost use Rattle.std.specs.Prelude.{◌≡◌, ℕ, List, [], ◌++◌};
ghost use Rattle.sb_world.specs.Connections.{connection_at};
ghost use Rattle.sb_world.specs.Connecting.{Connects, Closes, LinesUp, AsksOn, Pieces};
ghost use Rattle.sb_world.specs.Places.{frame_at};
ghost use Rattle.sb_world.specs.Turns.{Effect, rests};

use crate::connection::{Connection, index_of};
use crate::event::{Answer, Items};
use crate::hearing::lose;
use crate::place::Place;
use crate::sent::{Sent, frame_for, frame_in};
use sb_log::WriteLog;
use sb_session::Session;
use sb_types::Fault;
use std::alloc::Global;

impl<L: WriteLog> Place<L> {
    /// Begins a connection of this number, and sends its Hello. `Nothing` if the number is in use. `NoMemory`, with
    /// nothing changed.
    pub(crate) fn connect(
        &self,
        alloc: Global,
        connections: &mut Vec<Connection>,
        sent: &mut Vec<Sent>,
        number: u64,
    ) -> Result<Answer, Fault>
        ensures { (frames : List (List ℕ)) × Connects (connection_at connections.old.items number) self.now number connections.old.items sent.old.items
            (record { answer = result; effect = rests; place = self.now; frames = frames }) connections.new.items × (sent.new.items ≡ sent.old.items ++ frames) }
    {
        match index_of(connections, number) {
            Some(_) => return Ok(Answer::Nothing),
            None => {}
        }
        let settings = self.core.settings();
        let session = Session::new(settings.cluster(), self.me);
        connections.reserve(1)?;
        sent.reserve(1)?;
        let hello = frame_for(alloc, session.hello())?;
        // Proof only: the call shows that a Hello is within each budget.
        let _ = settings.budget();
        sent.push_reserved(hello);
        connections.push_reserved(Connection::new(alloc, number, self.me, session));
        Ok(Answer::Sent(sent.len() as u64))
    }

    /// Closes a connection. `Nothing` if no connection has the number.
    pub(crate) fn close(
        &self,
        connections: &mut Vec<Connection>,
        number: u64,
    ) -> Result<Answer, Fault>
        ensures { Closes (connection_at connections.old.items number) self.now number connections.old.items
            (record { answer = result; effect = rests; place = self.now; frames = [] }) connections.new.items }
    {
        let Some(index) = index_of(connections, number) else {
            return Ok(Answer::Nothing);
        };
        drop(connections.remove(index));
        Ok(Answer::Shut)
    }

    /// Adds a frame to the queue of a connection. `Nothing` if no connection has the number, or no frame has the other.
    /// `NoMemory`, with nothing changed.
    pub(crate) fn line(
        &self,
        connections: &mut Vec<Connection>,
        sent: &[Sent],
        number: u64,
        frame: u64,
    ) -> Result<Answer, Fault>
        ensures { LinesUp (connection_at connections.old.items number) (frame_at sent.now frame) self.now number connections.old.items
            (record { answer = result; effect = rests; place = self.now; frames = [] }) connections.new.items }
    {
        let Some(index) = index_of(connections, number) else {
            return Ok(Answer::Nothing);
        };
        let Some(bytes) = frame_in(sent, frame) else {
            return Ok(Answer::Nothing);
        };
        match connections[index].line(bytes) {
            Ok(()) => Ok(Answer::Lined),
            Err(fault) => Err(fault),
        }
    }

    /// Sends the next digest of a connection's session. `Nothing` if no connection has the number. `Closed` after a
    /// Bye, then `NoMemory`, with nothing changed.
    pub(crate) fn ask(
        &mut self,
        alloc: Global,
        connections: &mut Vec<Connection>,
        sent: &mut Vec<Sent>,
        number: u64,
    ) -> Result<Answer, Fault>
        ensures { (frames : List (List ℕ)) × AsksOn (connection_at connections.old.items number) self.old number connections.old.items sent.old.items
            (record { answer = result; effect = rests; place = self.new; frames = frames }) connections.new.items × (sent.new.items ≡ sent.old.items ++ frames) }
    {
        let Some(index) = index_of(connections, number) else {
            return Ok(Answer::Nothing);
        };
        let mut session = connections[index].session();
        let message = match session.ask(&mut self.core) {
            Ok(message) => message,
            Err(fault) => return Err(fault),
        };
        if sent.reserve(1).is_err() {
            lose(message);
            return Err(Fault::NoMemory);
        }
        match frame_for(alloc, message) {
            Ok(digest) => sent.push_reserved(digest),
            Err(fault) => return Err(fault),
        }
        connections[index].go_on(session);
        Ok(Answer::Sent(sent.len() as u64))
    }

    /// Takes the next bytes of a connection's queue. Each message that has come whole is taken, and each reply is sent.
    /// A fault closes the connection, and what was taken before it stays. `Nothing` if no connection has the number.
    pub(crate) fn piece(
        &mut self,
        alloc: Global,
        connections: &mut Vec<Connection>,
        sent: &mut Vec<Sent>,
        number: u64,
        count: u64,
    ) -> Result<Answer, Fault>
        ensures { (effect : Effect) × (frames : List (List ℕ)) × Pieces (connection_at connections.old.items number) self.old number count connections.old.items sent.old.items
            (record { answer = result; effect = effect; place = self.new; frames = frames }) connections.new.items × (sent.new.items ≡ sent.old.items ++ frames) }
    {
        let Some(index) = index_of(connections, number) else {
            return Ok(Answer::Nothing);
        };
        let mut items = Vec::new(alloc);
        let fault = connections[index].piece(alloc, &mut self.core, count, sent, &mut items);
        match fault {
            Some(fault) => {
                drop(connections.remove(index));
                return Ok(Answer::Delivered(Items::new(items), Some(fault)));
            }
            None => {}
        }
        Ok(Answer::Delivered(Items::new(items), None))
    }
}
