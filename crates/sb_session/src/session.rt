ghost use Rattle.std.specs.Prelude.{◌≡◌, true, Err, OnErr, IfErr, IfSome};
ghost use Rattle.sb_session.specs.declared.session.Phase.TheVariants as phases;
ghost use Rattle.sb_session.specs.Sessions.{new_session, hello_of, in_phase, greeting_refusal};
ghost use Rattle.sb_session.specs.Taking.{is_session_fault, Takes, Asks, Greets, AnswersDigest};
ghost use Rattle.sb_session.specs.Pushes.{first_refusal, TakesFirst};

use crate::handler::Handler;
use crate::received::{ReceivedDelta, ReceivedMessage};
use crate::replies::Replies;
use sb_codec::{Hello, Message};
use sb_digest::Digest;
use sb_types::{
    Fault, KIND_AGES, KIND_ASK, KIND_ASK_AGES, KIND_ASK_CHANGE, KIND_ASK_STATUS, KIND_DONE,
    KIND_NODE_STATUS, KIND_NOTICE, KIND_PUT, KIND_REFUSED, KIND_ROWS, Name,
};
use std::marker::Model;

/// How far a session has come.
#[derive(Clone, Copy, Debug)]
pub enum Phase {
    /// The peer's Hello has not come.
    Waiting,
    /// The peer's Hello has come.
    Greeted,
    /// It has ended.
    Closed,
}

/// One end of a talk between two nodes: which messages it takes in which order, and what it answers.
#[derive(Clone, Copy, Debug)]
pub struct Session {
    cluster: Name,
    me: Name,
    phase: Phase,
    /// The name that the next digest begins with; none for the least.
    cursor: Option<Name>,
}

impl Model for Session {
    ghost use Rattle.sb_session.specs.Sessions as sessions;

    ghost Value = { sessions.Session };

    ghost view = { λ s. sessions.session_of s.cluster s.me s.phase s.cursor };

    ghost inverse = { λ s. record { cluster = s.cluster; me = s.me; phase = s.phase; cursor = s.cursor } };
}

impl Session {
    /// The session of a node of a cluster. Nothing has come yet.
    pub fn new(cluster: Name, me: Name) -> Session
        ensures { result ≡ new_session cluster me }
    {
        Session {
            cluster,
            me,
            phase: Phase::Waiting,
            cursor: None,
        }
    }

    /// The Hello that is to be sent first.
    pub fn hello(&self) -> Message
        ensures { result ≡ hello_of self.now }
    {
        Message::Hello(Hello {
            cluster: self.cluster,
            node: self.me,
        })
    }

    /// The next digest, which wants one in answer. It begins at the end of the last one that was sent. So the owners that do not
    /// fit one digest come in the next. `Closed`; the handler's `TurnsSpent` and `NoMemory`, with the session unchanged.
    pub fn ask<H: Handler>(&mut self, handler: &mut H) -> Result<Message, Fault>
        ensures asks { Asks H.step self.old handler.old result self.new handler.new }
        ensures fault { IfErr result (λ fault. is_session_fault fault ≡ true) }
        ensures stays { H.stays handler.old handler.new }
        ensures grows { H.grows handler.old handler.new }
    {
        if matches!(self.phase, Phase::Closed) {
            return Err(Fault::Closed);
        }
        let digest = handler.digest(self.cursor, true)?;
        self.cursor = digest.next_from();
        Ok(Message::Digest(digest))
    }

    /// Takes a message of the peer. Its faults, in their order:
    ///
    /// - `Closed`.
    /// - `UnknownKind` of the kinds 10 to 1a hex, which have no place here.
    /// - `NoHello` of what comes before the peer's Hello.
    /// - `SecondHello`.
    /// - `WrongCluster` and `SameName` of the peer's Hello.
    /// - `TurnsSpent` and `NoMemory` of the handler, with the session unchanged and nothing entered. The message is lost.
    ///
    /// After each of them but the handler's the session is closed.
    pub fn take<H: Handler>(
        &mut self,
        message: ReceivedMessage,
        handler: &mut H,
    ) -> Result<Replies, Fault>
        ensures takes { Takes H.step self.old handler.old message result self.new handler.new }
        ensures fault { IfErr result (λ fault. is_session_fault fault ≡ true) }
        ensures stays { OnErr result (H.stays handler.old handler.new) }
        ensures grows { H.grows handler.old handler.new }
    {
        match (self.phase, message.into_message()) {
            (Phase::Closed, _) => Err(Fault::Closed),
            (_, Message::Ask(_)) => self.refuse(Fault::UnknownKind(KIND_ASK)),
            (_, Message::Rows(_)) => self.refuse(Fault::UnknownKind(KIND_ROWS)),
            (_, Message::Put(_)) => self.refuse(Fault::UnknownKind(KIND_PUT)),
            (_, Message::Done(_)) => self.refuse(Fault::UnknownKind(KIND_DONE)),
            (_, Message::Refused(_)) => self.refuse(Fault::UnknownKind(KIND_REFUSED)),
            (_, Message::AskStatus(_)) => self.refuse(Fault::UnknownKind(KIND_ASK_STATUS)),
            (_, Message::NodeStatus(_)) => self.refuse(Fault::UnknownKind(KIND_NODE_STATUS)),
            (_, Message::AskChange(_)) => self.refuse(Fault::UnknownKind(KIND_ASK_CHANGE)),
            (_, Message::Notice(_)) => self.refuse(Fault::UnknownKind(KIND_NOTICE)),
            (_, Message::AskAges) => self.refuse(Fault::UnknownKind(KIND_ASK_AGES)),
            (_, Message::Ages(_)) => self.refuse(Fault::UnknownKind(KIND_AGES)),
            (Phase::Waiting, Message::Hello(hello)) => self.greet(&hello),
            (Phase::Waiting, _) => self.refuse(Fault::NoHello),
            (Phase::Greeted, Message::Hello(_)) => self.refuse(Fault::SecondHello),
            (Phase::Greeted, Message::Digest(theirs)) => self.answer(&theirs, handler),
            (Phase::Greeted, Message::Delta(delta)) => {
                let delta = ReceivedDelta::new(delta);
                Ok(Replies::Applied(handler.apply(&delta)?))
            }
            (Phase::Greeted, Message::Bye(bye)) => {
                self.phase = Phase::Closed;
                Ok(Replies::Ended(bye))
            }
        }
    }

    /// Ends the session with a fault.
    fn refuse(&mut self, fault: Fault) -> Result<Replies, Fault>
        ensures result { result ≡ Err fault }
        ensures closed { self.new ≡ in_phase phases.Closed self.old }
    {
        self.phase = Phase::Closed;
        Err(fault)
    }

    /// Takes the first Hello.
    fn greet(&mut self, hello: &Hello) -> Result<Replies, Fault>
        ensures greets { Greets (greeting_refusal self.old hello.now) self.old result self.new }
        ensures fault { IfErr result (λ fault. is_session_fault fault ≡ true) }
    {
        if let Some(fault) = self.greeting_fault(hello) {
            return self.refuse(fault);
        }
        self.phase = Phase::Greeted;
        Ok(Replies::Greeted)
    }

    /// Why the first Hello is refused, if it is.
    fn greeting_fault(&self, hello: &Hello) -> Option<Fault>
        ensures answer { result ≡ greeting_refusal self.now hello.now }
        ensures fault { IfSome result (λ fault. is_session_fault fault ≡ true) }
    {
        if hello.cluster != self.cluster {
            return Some(Fault::WrongCluster);
        }
        if hello.node == self.me {
            return Some(Fault::SameName);
        }
        None
    }

    /// Why a message is refused where nothing but a Hello may come.
    fn first_fault(&self, message: &Message) -> Option<Fault>
        ensures answer { result ≡ first_refusal self.now message.now }
        ensures fault { IfSome result (λ fault. is_session_fault fault ≡ true) }
    {
        match (self.phase, message) {
            (Phase::Closed, _) => Some(Fault::Closed),
            (_, Message::Ask(_)) => Some(Fault::UnknownKind(KIND_ASK)),
            (_, Message::Rows(_)) => Some(Fault::UnknownKind(KIND_ROWS)),
            (_, Message::Put(_)) => Some(Fault::UnknownKind(KIND_PUT)),
            (_, Message::Done(_)) => Some(Fault::UnknownKind(KIND_DONE)),
            (_, Message::Refused(_)) => Some(Fault::UnknownKind(KIND_REFUSED)),
            (_, Message::AskStatus(_)) => Some(Fault::UnknownKind(KIND_ASK_STATUS)),
            (_, Message::NodeStatus(_)) => Some(Fault::UnknownKind(KIND_NODE_STATUS)),
            (_, Message::AskChange(_)) => Some(Fault::UnknownKind(KIND_ASK_CHANGE)),
            (_, Message::Notice(_)) => Some(Fault::UnknownKind(KIND_NOTICE)),
            (_, Message::AskAges) => Some(Fault::UnknownKind(KIND_ASK_AGES)),
            (_, Message::Ages(_)) => Some(Fault::UnknownKind(KIND_AGES)),
            (Phase::Waiting, Message::Hello(hello)) => self.greeting_fault(hello),
            (Phase::Greeted, Message::Hello(_)) => Some(Fault::SecondHello),
            (_, Message::Digest(_) | Message::Delta(_) | Message::Bye(_)) => Some(Fault::NoHello),
        }
    }

    /// Takes the first message of a peer that is to say nothing but its Hello. It asks no handler. Its faults, in their order:
    ///
    /// - `Closed`.
    /// - `UnknownKind` of the kinds 10 to 1a hex.
    /// - `NoHello` of a Digest, a Delta or a Bye.
    /// - `SecondHello`.
    /// - `WrongCluster` and `SameName` of the Hello.
    ///
    /// After each of them the session is closed.
    pub fn take_first(&mut self, message: &Message) -> Result<(), Fault>
        ensures takes { TakesFirst self.old message.now result self.new }
        ensures fault { IfErr result (λ fault. is_session_fault fault ≡ true) }
    {
        if let Some(fault) = self.first_fault(message) {
            self.phase = Phase::Closed;
            return Err(fault);
        }
        self.phase = Phase::Greeted;
        Ok(())
    }

    /// The delta for a digest and, if it wants one, the own next digest. Both are made before either is sent.
    fn answer<H: Handler>(&mut self, theirs: &Digest, handler: &mut H) -> Result<Replies, Fault>
        ensures answers { AnswersDigest H.step self.old handler.old theirs.now theirs.now.want result self.new handler.new }
        ensures fault { IfErr result (λ fault. is_session_fault fault ≡ true) }
        ensures stays { H.stays handler.old handler.new }
        ensures grows { H.grows handler.old handler.new }
    {
        let delta = handler.deltas(theirs)?;
        if !theirs.want() {
            return Ok(Replies::Answered(delta));
        }
        let digest = handler.digest(self.cursor, false)?;
        self.cursor = digest.next_from();
        Ok(Replies::Exchanged(delta, digest))
    }
}
