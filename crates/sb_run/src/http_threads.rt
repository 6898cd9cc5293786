//! The threads that answer over HTTP, each from a seat of its own. A write goes to the owner's thread.
ghost use Rattle.std.specs.Prelude.{◌≡◌, vec_len, IfOk, IfErr};
ghost use Rattle.std.specs.Thread.{IsSend, IsSync};
ghost use Rattle.sb_directory.specs.Serving.{IsLater};
ghost use Rattle.sb_run.specs.HttpReads.{AnswersQuestion, AreOwnersAfter, AreOwnersSeen, IsListed, IsPolled};

use crate::control::{refused_by, reply_to_ask};
use crate::dialer::{Dialing, RoundsTag};
use crate::heard::age_of;
use crate::http_caller::HttpCaller;
use crate::http_socket::HttpSocket;
use crate::observer::Observer;
use crate::sockets::{Timed, limit};
use crate::threads::NodeContext;
use core::mem::replace_with;
use http_server::Config;
use sb_codec::{Ages, Ask, Message};
use sb_directory::{EnteredSeat, ReaderSeat};
use sb_http::{
    Backend, Door, HeldOwner, HttpService, HttpWrite, MarkedReply, Patience, serve_connection,
};
use sb_types::Fault;
use sb_views::{NodeTag, Snapshot};
use std::alloc::Global;
use std::hash::RandomState;
use std::io::Read;
use std::marker::Model;
use std::net::Shutdown;
use std::os::unix::net::UnixStream;
use std::sync::Wait;
use std::thread::Threads;
use std::time::{Clock, Duration};
use std::{io, thread};

/// How many connections a node answers over HTTP at once, if it has seats for so many.
pub const HTTP_WORKERS: u64 = 8;

/// The longest body of a request. That of the longest value is far shorter.
const BODY_MOST: usize = 8_192;

/// How many bytes a caller may still send after its answer, before the connection is closed.
const REST_MOST: usize = 65_536;

/// How long the next accept waits after one that failed, in milliseconds.
const ACCEPT_PAUSE: u64 = 20;

/// A node, as a seat of it asks it. Contracts see it as the seat and the keys.
#[derive(Drop)]
pub(crate) struct SeatBackend<'a, 'n, 'd, S: RoundsTag, H: Wait + Drop, Q, O> {
    node: &'a NodeContext<'n, S, H, Q>,
    dialing: &'a Dialing<'d, O>,
    /// Who asks.
    caller: &'a HttpCaller,
    seat: ReaderSeat<S>,
    /// Those of the marks that polls get.
    keys: RandomState,
}

impl<'a, 'n, 'd, S: RoundsTag, H: Wait + Drop, Q, O> Model for SeatBackend<'a, 'n, 'd, S, H, Q, O> {
    ghost use Rattle.sb_run.specs.HttpReads as spec;

    ghost Value = { spec.HttpSeat };

    ghost view = { λ s. record { seat = s.seat; keys = s.keys } };
}

/// The owners that a snapshot shows, with these ages. `NoMemory`.
fn owners_in(alloc: Global, snapshot: &Snapshot<'_>, ages: &Ages) -> Result<Vec<HeldOwner>, Fault>
    ensures owners { IfOk result (λ owners. IsListed ages.now snapshot.now owners.items) }
    ensures memory { IfErr result (λ fault. fault ≡ Fault.NoMemory) }
{
    let mut owners = Vec::new(alloc);
    for (owner, view) in snapshot.owners() {
        owners.push(HeldOwner {
            owner: *owner,
            version: view.upto(),
            rows: view.len() as u64,
            age: age_of(ages, owner),
        })?;
    }
    Ok(owners)
}

/// The owners of the snapshot that a seat has entered, with these ages. `NoMemory`.
fn owners_of<S: NodeTag>(
    alloc: Global,
    entered: &EnteredSeat<S>,
    ages: &Ages,
) -> Result<Vec<HeldOwner>, Fault>
    ensures owners { IfOk result (λ owners. AreOwnersAfter S.opening entered.now.seen ages.now owners.items) }
    ensures memory { IfErr result (λ fault. fault ≡ Fault.NoMemory) }
{
    owners_in(alloc, &entered.snapshot(), ages)
}

impl<S: RoundsTag, H: Wait + Drop, Q: Wait + Clock> NodeContext<'_, S, H, Q> {
    /// The answer to a question at the control socket; `UnknownKind` to any other message.
    fn reply_to_question<O: Observer>(
        &self,
        dialing: &Dialing<'_, O>,
        request: &Message,
        seat: ReaderSeat<S>,
    ) -> (ReaderSeat<S>, Message)
        ensures { AnswersQuestion S.opening S.settings seat request.now result.0 result.1 }
    {
        match request {
            Message::Ask(ask) => reply_to_ask(self.alloc, self.directory.settings(), seat, ask),
            Message::AskStatus(asked) => self.reply_to_ask_status(dialing, asked, seat),
            other => (seat, refused_by(Fault::UnknownKind(other.kind()))),
        }
    }

    /// The owners that a seat sees, with the ages from before it entered. `NoMemory`, also if it cannot enter.
    fn owners_seen(&self, seat: ReaderSeat<S>) -> (ReaderSeat<S>, Result<Vec<HeldOwner>, Fault>)
        ensures owners { IfOk result.1 (λ owners. AreOwnersSeen S.opening result.0.seen owners.items) }
        ensures later { IsLater seat result.0 }
        ensures memory { IfErr result.1 (λ fault. fault ≡ Fault.NoMemory) }
    {
        let ages = match self.ages() {
            Ok(ages) => ages,
            Err(fault) => return (seat, Err(fault)),
        };
        match seat.enter() {
            Ok(entered) => {
                let owners = owners_of(self.alloc, &entered, &ages);
                (entered.leave(), owners)
            }
            Err(seat) => (seat, Err(Fault::NoMemory)),
        }
    }
}

impl<S: RoundsTag, H: Wait + Drop, Q: Wait + Clock, O: Observer> SeatBackend<
    '_,
    '_,
    '_,
    S,
    H,
    Q,
    O,
> {
    /// The seat, once the connection is over.
    fn into_seat(self) -> ReaderSeat<S>
        ensures { result ≡ self.entry.seat }
    {
        let SeatBackend {
            node: _,
            dialing: _,
            caller: _,
            seat,
            keys: _,
        } = self;
        seat
    }
}

impl<S: RoundsTag, H: Wait + Drop, Q: Wait + Clock, O: Observer> Backend
    for SeatBackend<'_, '_, '_, S, H, Q, O> {
    ghost use Rattle.sb_run.specs.HttpReads.{SeatReads};

    // Other seats may have entered anything since the last call.
    ghost step = { SeatReads S.opening S.settings };

    fn ask(&mut self, request: &Message) -> Message {
        let (node, dialing) = (self.node, self.dialing);
        replace_with(
            &mut self.seat,
            (node, dialing, request),
            |seat, (node, dialing, request)| -> (ReaderSeat<S>, Message)
                ensures { AnswersQuestion S.opening S.settings seat request.entry.now result.0 result.1 }
            { node.reply_to_question(dialing, request, seat) },
        )
    }

    fn put(&mut self, asked: HttpWrite) -> Message {
        let node = self.node;
        node.desk.put(node.rt, node.alloc, node.ending, asked)
    }

    fn poll(&mut self, ask: &Ask, patience: &Patience) -> Result<MarkedReply, Fault> {
        replace_with(
            &mut self.seat,
            (self.node, self.keys, ask, patience, self.caller),
            |seat, (node, keys, ask, patience, who)| -> (ReaderSeat<S>, Result<MarkedReply, Fault>)
                ensures polled { IfOk result.1 (λ found. IsPolled S.opening S.settings.budget keys seat ask.entry.now result.0 found.reply found.mark) }
                ensures later { IsLater seat result.0 }
            { node.poll(keys, seat, ask, patience, who) },
        )
    }

    fn owners(&mut self) -> Result<Vec<HeldOwner>, Fault> {
        replace_with(
            &mut self.seat,
            self.node,
            |seat, node| -> (ReaderSeat<S>, Result<Vec<HeldOwner>, Fault>)
                ensures owners { IfOk result.1 (λ owners. AreOwnersSeen S.opening result.0.seen owners.items) }
                ensures later { IsLater seat result.0 }
            { node.owners_seen(seat) },
        )
    }

    fn metrics(&mut self) -> Result<Vec<u8>, Fault> {
        self.dialing.observer().metrics(self.node.alloc)
    }
}

/// Reads what a caller still sends after its answer, so that closing does not throw the answer away.
fn read_rest<I: Read>(input: &mut I) {
    let mut buffer = [0; 4_096];
    let mut left = REST_MOST;
    for _ in 0..REST_MOST {
        match input.read(&mut buffer) {
            Ok(count) if count > 0 && count < left => left -= count,
            _ => return,
        }
    }
}

/// The limits of a connection: of the bytes of a request, and that an earlier answer is written before a later request is read.
fn config() -> Config {
    Config {
        max_body_len: BODY_MOST,
        max_pending: 0,
        ..Config::default()
    }
}

impl<S: RoundsTag, H: Wait + Drop, Q: Wait + Clock> NodeContext<'_, S, H, Q> {
    /// Answers over one connection.
    fn answer_stream<O: Observer>(
        &self,
        keys: RandomState,
        service: &mut HttpService<SeatBackend<'_, '_, '_, S, H, Q, O>>,
        stream: UnixStream,
    ) -> io::Result<()> {
        let (idle, request) = (self.pace.idle, self.pace.request);
        limit(&stream, idle)?;
        let output = stream.try_clone()?;
        let last = stream.try_clone()?;
        let mut reader = Timed::new(self.rt, stream, idle, request);
        let mut writer = Timed::new(self.rt, output, idle, request);
        serve_connection(
            self.alloc,
            keys,
            config(),
            service,
            &mut reader,
            &mut writer,
        )?;
        last.shutdown(Shutdown::Write)?;
        read_rest(&mut reader);
        Ok(())
    }

    /// Answers over one connection from a seat.
    fn answer_from_seat<O: Observer>(
        &self,
        dialing: &Dialing<'_, O>,
        socket: &HttpSocket<'_>,
        stream: UnixStream,
        seat: ReaderSeat<S>,
    ) -> ReaderSeat<S> {
        let Ok(caller) = HttpCaller::of(&stream) else {
            return seat;
        };
        let mut service = HttpService {
            alloc: self.alloc,
            door: socket.door(),
            backend: SeatBackend {
                node: self,
                dialing,
                caller: &caller,
                seat,
                keys: socket.keys(),
            },
        };
        let _ = self.answer_stream(socket.keys(), &mut service, stream);
        let HttpService {
            alloc: _,
            door: _,
            backend,
        } = service;
        backend.into_seat()
    }

    /// Answers over one connection after another, until the node is to end.
    fn answer_all<O: Observer>(
        &self,
        dialing: &Dialing<'_, O>,
        socket: &HttpSocket<'_>,
        seat: ReaderSeat<S>,
    ) -> (ReaderSeat<S>, ()) {
        let mut current = seat;
        for _ in self.rt.forever() {
            let accepted = socket.accept();
            if self.ending.is_raised() {
                return (current, ());
            }
            match accepted {
                Ok(stream) => {
                    current = self.answer_from_seat(dialing, socket, stream, current);
                }
                Err(_) => thread::sleep(self.rt, Duration::from_millis(ACCEPT_PAUSE)),
            }
        }
        unreachable!()
    }

    /// Does so from a seat that stays in its place.
    fn answer_in_place<O: Observer>(
        &self,
        dialing: &Dialing<'_, O>,
        socket: &HttpSocket<'_>,
        seat: &mut ReaderSeat<S>,
    ) {
        // Both are handed in: the prover keeps no clause of a closure that captures a struct with a lifetime.
        replace_with(
            seat,
            (self, dialing),
            |seat, (node, dialing)| -> (ReaderSeat<S>, ()) {
                node.answer_all(dialing, socket, seat)
            },
        );
    }
}

impl<S, H, Q> NodeContext<'_, S, H, Q>
where
    S: RoundsTag + Send + Sync,
    H: Wait + Drop + Send + Sync,
    Q: Threads + Wait + Clock + Sync,
{
    /// Answers over HTTP until the node is to end, with a thread for each seat, and gives the seats back.
    pub(crate) fn answer_http<O: Observer + Sync>(
        &self,
        dialing: &Dialing<'_, O>,
        seats: Vec<ReaderSeat<S>>,
    ) -> Vec<ReaderSeat<S>>
        ensures { vec_len result ≡ vec_len seats }
    {
        let mut seats = seats;
        let count = seats.len();
        let Some(socket) = &self.sockets.http else {
            return seats;
        };
        if count == 0 {
            return seats;
        }
        thread::for_each_mut(
            self.rt,
            &mut seats,
            count,
            &|_, seat| -> ()
                requires { IsSend S.row × IsSync S.row × IsSend H.row × IsSync H.row × IsSync Q.row × IsSync O.row }
            { self.answer_in_place(dialing, socket, seat) },
        );
        seats
    }
}
