//! A world of nodes, each with its log, its connections, and every frame that any of them sent.

ghost use Rattle.std.specs.Prelude.{◌≡◌, ◌<◌, ℕ, List, [], ◌++◌, length, slice_set, slice_get, map, Some, None, Err, IfOk, IfSome, IfNone, IfErr, OnErr};
ghost use Rattle.std.specs.Option.{option_copied};
ghost use Rattle.sb_world.specs.Places as spec;
ghost use Rattle.sb_world.specs.Places.{place_at, with_place, frame_at, IsClean, AreSure};
ghost use Rattle.sb_world.specs.Turns.{Effect, rests, Offers};
ghost use Rattle.sb_world.specs.Events.{Acts, Does};
ghost use Rattle.sb_world.specs.Steps.{Step, Passes};
ghost use Rattle.sb_world.specs.States.{State, Moves, Run, last_of, FitsWorld};
ghost use Rattle.sb_world.specs.States.{start_of, AreContents};
ghost use Rattle.sb_world.specs.Making.{refusal, IsMakingFault, HaveNodes, IsMade, AreSureLogs};
ghost use Rattle.sb_types.specs.declared.entry.Write.{Write};
ghost use Rattle.sb_log.specs.Records as records;
ghost use Rattle.sb_world.specs.Truth.{IsTrueState};
ghost use Rattle.sb_world.specs.Claims.{EachState, EachStep, GivenIsWritten, AreExact, JoinedIsTaken, NothingFalls, IsWithinBudget, StayRemoved, StayPurged, OnEachRun};

use crate::connection::{Connection, drop_those_of, drop_those_of_down, node_of};
use crate::event::{Answer, Event};
use crate::laws::{sure_stores_are_trusted, worlds_are_reached, worlds_keep_their_promise};
use crate::making::places_of;
use crate::place::Place;
use crate::sent::{Sent, frame_in};
use sb_log::WriteLog;
use sb_types::{Fault, Name, Settings};
use std::alloc::Global;
use std::marker::Model;

/// Nodes that take their steps in any order, each with its log, with their connections and every frame that they sent.
#[derive(Drop)]
pub struct World<L: WriteLog> {
    settings: Settings,
    places: Vec<Place<L>>,
    connections: Vec<Connection>,
    sent: Vec<Sent>,
    alloc: Global,
}

impl<L: WriteLog> Model for World<L> {
    ghost use Rattle.std.specs.Coded.{codes};
    ghost use Rattle.std.specs.FinMap.{code};
    ghost use Rattle.sb_world.specs.Places.{Seen};

    ghost Value = { Seen };

    ghost coded = { Prim.hlevel (codes, code) };

    ghost view = { λ w. record { settings = w.settings; places = w.places.items; connections = w.connections.items; sent = w.sent.items } };
}

/// The index of the node of a name. If several have the name, the first of them.
fn place_of<L: WriteLog>(places: &[Place<L>], name: &Name) -> Option<usize>
    ensures none { IfNone result (place_at places.now name.now ≡ None) }
    ensures within { IfSome result (λ i. i < length places.now) }
    ensures found { IfSome result (λ i. place_at places.now name.now ≡ slice_get places.now i) }
    ensures set { IfSome result (λ i. (p : spec.Place) → with_place places.now name.now p ≡ slice_set places.now i p) }
{
    let mut index = 0;
    while index < places.len() {
        if places[index].is_named(name) {
            return Some(index);
        }
        index += 1;
    }
    None
}

/// Sends what a node holds of an owner above a version, as far as its budget has room. `NoMemory`, with nothing sent.
fn send<L: WriteLog>(
    alloc: Global,
    place: &Place<L>,
    sent: &mut Vec<Sent>,
    owner: &Name,
    after: u64,
) -> Result<Answer, Fault>
    ensures { (frames : List (List ℕ)) × Offers place.now sent.old.items owner.now after (record { answer = result; effect = rests; place = place.now; frames = frames })
        × (sent.new.items ≡ sent.old.items ++ frames) }
{
    let bytes = match place.offer(alloc, owner, after) {
        Ok(bytes) => bytes,
        Err(fault) => return Err(fault),
    };
    match sent.push(Sent { bytes }) {
        Ok(()) => Ok(Answer::Sent(sent.len() as u64)),
        Err(_) => Err(Fault::NoMemory),
    }
}

/// What an event does at its node, if the node answers to it.
fn perform<L: WriteLog>(
    alloc: Global,
    place: &mut Place<L>,
    connections: &mut Vec<Connection>,
    sent: &mut Vec<Sent>,
    event: &Event,
) -> Result<Answer, Fault>
    ensures { (effect : Effect) × (frames : List (List ℕ)) × Acts event.now place.old connections.old.items sent.old.items
        (record { answer = result; effect = effect; place = place.new; frames = frames }) connections.new.items × (sent.new.items ≡ sent.old.items ++ frames) }
{
    match event {
        Event::Commit(_, key, slot) => place.commit(key, slot),
        Event::Take(_) => place.take(),
        Event::CrashInCommit(_, key, slot, is_kept) => {
            let me = place.name();
            let answer = place.crash(key, slot, *is_kept);
            drop_those_of_down(connections, &me, place.is_up());
            answer
        }
        Event::Purge(_, floor) => {
            let me = place.name();
            let answer = place.purge(*floor);
            drop_those_of_down(connections, &me, place.is_up());
            answer
        }
        Event::Trim(_, floor) => place.trim(*floor),
        Event::Restart(_) => {
            drop_those_of(connections, &place.name());
            place.restart(alloc)
        }
        Event::Connect(_, number) => place.connect(alloc, connections, sent, *number),
        Event::Close(number) => place.close(connections, *number),
        Event::Line(number, frame) => place.line(connections, sent, *number, *frame),
        Event::Piece(number, count) => place.piece(alloc, connections, sent, *number, *count),
        Event::Ask(number) => place.ask(alloc, connections, sent, *number),
        Event::Offer(_, owner, after) => send(alloc, place, sent, owner, *after),
        Event::Read(_, owner, key) => place.read(alloc, owner, key),
        Event::Upto(_, owner) => Ok(Answer::Number(place.upto(owner))),
    }
}

/// What an event does at its node. `Closed` if the node is down, unless the event is a restart.
fn act<L: WriteLog>(
    alloc: Global,
    place: &mut Place<L>,
    connections: &mut Vec<Connection>,
    sent: &mut Vec<Sent>,
    event: &Event,
) -> Result<Answer, Fault>
    ensures { (effect : Effect) × (frames : List (List ℕ)) × Does event.now place.old connections.old.items sent.old.items
        (record { answer = result; effect = effect; place = place.new; frames = frames }) connections.new.items × (sent.new.items ≡ sent.old.items ++ frames) }
{
    if !event.is_answered(place.is_up()) {
        return Err(Fault::Closed);
    }
    perform(alloc, place, connections, sent, event)
}

impl<L: WriteLog + Drop> World<L> {
    /// Makes a world with a node for each log. The node has the name of the log's owner, and opens with the content of
    /// the log, which stays there.
    ///
    /// The faults, in this order:
    ///
    /// - `BadSetting` if there are no logs, or more than 1,024.
    /// - `SameName` if two logs have one owner.
    /// - `WrongCluster` if a log is of another cluster than the settings.
    /// - Then, log by log in their order, the faults of `WriteLog::load`, and after them `NoMemory`. So a closed log is
    ///   reported as `Closed`, unless a log before it has a fault.
    ///
    /// After a fault there is no world, and the logs are dropped.
    pub fn new(alloc: Global, settings: Settings, logs: Vec<L>) -> Result<World<L>, Fault>
        ensures refused { IfSome (refusal settings (map L.seen logs.items)) (λ fault. result ≡ Err fault) }
        ensures why { IfErr result (λ fault. IsMakingFault (refusal settings (map L.seen logs.items)) (map L.seen logs.items) fault) }
        ensures settings { IfOk result (λ w. w.settings ≡ settings) }
        ensures names { IfOk result (λ w. map (λ (p : spec.Place). p.me) w.places ≡ map (λ (log : records.Log). log.owner) (map L.seen logs.items)) }
        ensures logs { IfOk result (λ w. HaveNodes (map L.seen logs.items) w.places) }
        ensures made { IfOk result IsMade }
        ensures sure { AreSureLogs (map L.seen logs.items) → IfOk result (λ w. AreSure w.places) }

        // It fits each list of writes that leads to the logs' contents, and there is such a list.
        ensures fits { IfOk result (λ w. IsClean w.places → (writes : List ℕ → List Write) → AreContents writes w.places → FitsWorld (start_of writes w) w) }
        ensures some { IfOk result (λ w. IsClean w.places → (writes : List ℕ → List Write) × AreContents writes w.places) }
    {
        Ok(World {
            settings,
            places: places_of(alloc, settings, logs)?,
            connections: Vec::new(alloc),
            sent: Vec::new(alloc),
            alloc,
        })
    }
}

impl<L: WriteLog> World<L> {
    /// Makes an event happen, and returns its answer. The first case that fits decides:
    ///
    /// 1. `Nothing` if the node or the connection of the event does not exist.
    /// 2. `Closed` if the node is down, unless the event is a restart.
    /// 3. `Nothing` if the number of a new connection is in use, a frame does not exist, or no write waits.
    /// 4. What the event asks for.
    ///
    /// The faults of each event, in their order:
    ///
    /// - A commit: `NoMemory`, then those of `WriteLog::put`.
    /// - A purge: those of `WriteLog::purge`.
    /// - A trim: `FloorTooHigh` if the node does not hold so far, and then those of `WriteLog::purge`.
    /// - A take: those of `NodeCore::take_own`.
    /// - A restart: those of `WriteLog::load`, then `NoMemory`.
    /// - An ask: `Closed` after a Bye, then `NoMemory`.
    /// - A crash after a write, a new connection, a frame that is lined up, an offer and a read: `NoMemory`.
    /// - A piece: none. Its answer contains the fault that closed the connection. A crash reports no other fault of its
    ///   log.
    ///
    /// What a fault leaves:
    ///
    /// - After a restart: the node is down, no write waits, and the node has no connection. `StoreFailed` and
    ///   `LogDamaged` also close its log.
    /// - After `StoreFailed` from a commit, a purge or a trim: the log is closed. After any fault of a log at a trim, the
    ///   node's table is purged.
    /// - After every other fault: everything as it was.
    pub fn step(&mut self, event: &Event) -> Result<Answer, Fault>
        ensures step { (effect : Effect) × Step self.old event.now result effect self.new }
        ensures fits { (old : State) → FitsWorld old self.old → (new : State) × Moves old event.now result new × FitsWorld new self.new }
        ensures sure { AreSure self.old.places → AreSure self.new.places }
    {
        worlds_are_reached();
        sure_stores_are_trusted();
        self.step_once(event)
    }

    /// Makes one step.
    fn step_once(&mut self, event: &Event) -> Result<Answer, Fault>
        ensures step { (effect : Effect) × Step self.old event.now result effect self.new }
    {
        let Some(name) = node_of(&self.connections, event) else {
            return Ok(Answer::Nothing);
        };
        let Some(index) = place_of(&self.places, &name) else {
            return Ok(Answer::Nothing);
        };
        act(
            self.alloc,
            &mut self.places[index],
            &mut self.connections,
            &mut self.sent,
            event,
        )
    }

    /// Makes the events happen one after another, and returns their answers. `NoMemory` if there is no room for the
    /// answers, and then nothing has happened.
    ///
    /// The following holds for all that the owners wrote before, and for every list of events, as long as each log's
    /// store keeps its promise:
    ///
    /// - `given`: each value that a reader is given was written by its owner under that version.
    /// - `exact`: a reader that holds an owner up to a version gets, of each key last written at or below it, exactly
    ///   that write.
    /// - `taken`: whatever continues what is held is taken up.
    /// - `later`: within a node's run, from one opening to the next, no version falls.
    /// - `budget`: no frame exceeds its budget.
    /// - `removed`: if a key's last write is a removal, no node that holds the owner up to it shows the key, whatever
    ///   old frames come.
    /// - `purged`: what was purged stays gone from the log, from the node that opens with it, and from every table of
    ///   that floor.
    pub fn run(&mut self, events: &[Event]) -> Result<Vec<Result<Answer, Fault>>, Fault>
        ensures passes { IfOk result (λ answers. Passes self.old events.now answers.items self.new) }
        ensures err { OnErr result (self.new ≡ self.old) }
        ensures memory { IfErr result (λ fault. fault ≡ Fault.NoMemory) }

        // From each state that fits before, there is a run with these events and these answers to one that fits.
        ensures fits { IfOk result (λ answers. (old : State) → FitsWorld old self.old →
            (states : List State) × Run old events.now answers.items states × FitsWorld (last_of old states) self.new) }
        ensures sure { IfOk result (λ answers. AreSure self.old.places → AreSure self.new.places) }

        // This holds on each such run, as long as each log's store keeps its promise.
        ensures sound { IfOk result (λ answers. OnEachRun self.old events.now answers.items (λ old states. EachState IsTrueState old states)) }
        ensures given { IfOk result (λ answers. OnEachRun self.old events.now answers.items (λ old states. EachStep GivenIsWritten old events.now answers.items states)) }
        ensures exact { IfOk result (λ answers. OnEachRun self.old events.now answers.items (λ old states. AreExact old events.now answers.items states)) }
        ensures taken { IfOk result (λ answers. OnEachRun self.old events.now answers.items (λ old states. EachStep JoinedIsTaken old events.now answers.items states)) }
        ensures later { IfOk result (λ answers. OnEachRun self.old events.now answers.items (λ old states. NothingFalls old states)) }
        ensures budget { IfOk result (λ answers. OnEachRun self.old events.now answers.items (λ old states. EachState IsWithinBudget old states)) }
        ensures removed { IfOk result (λ answers. OnEachRun self.old events.now answers.items (λ old states. StayRemoved old events.now answers.items states)) }
        ensures purged { IfOk result (λ answers. OnEachRun self.old events.now answers.items (λ old states. StayPurged old events.now answers.items states)) }
    {
        worlds_are_reached();
        worlds_keep_their_promise();
        sure_stores_are_trusted();
        self.run_each(events)
    }

    /// Makes the events happen one after another. `NoMemory`, and then nothing has happened.
    fn run_each(&mut self, events: &[Event]) -> Result<Vec<Result<Answer, Fault>>, Fault>
        ensures passes { IfOk result (λ answers. Passes self.old events.now answers.items self.new) }
        ensures err { OnErr result (self.new ≡ self.old) }
        ensures memory { IfErr result (λ fault. fault ≡ Fault.NoMemory) }
    {
        let mut answers = Vec::with_capacity(self.alloc, events.len())?;
        for event in events {
            let answer = self.step_once(event);
            answers.push_reserved(answer);
        }
        Ok(answers)
    }

    /// The frame of a number, counted from 1. `None` if there is no such frame.
    pub fn frame(&self, number: u64) -> Option<&[u8]>
        ensures { option_copied result ≡ frame_at self.now.sent number }
    {
        frame_in(&self.sent, number)
    }
}
