//! A node of a world, with its log.

ghost use Rattle.std.specs.Cmp.Lexicographic.{pointwise};
ghost use Rattle.std.specs.Prelude.{◌≡◌, ◌≢◌, true, nat_eq, List, [], Some, Ok, Err, IfOk, IfErr};
ghost use Rattle.sb_types.specs.Limits.{is_delta};
ghost use Rattle.sb_types.specs.Records as records;
ghost use Rattle.sb_codec.specs.declared.message.Message.TheVariants as messages;
ghost use Rattle.sb_frames.specs.Frames.{frame};
ghost use Rattle.sb_node.specs.Answers.{IsDelta, IsAnswer};
ghost use Rattle.sb_types.specs.Faults.{Gives};
ghost use Rattle.sb_types.specs.Runs.{shown_at};
ghost use Rattle.sb_holdings.specs.Held.{shown_of};
ghost use Rattle.sb_world.specs.Turns.{Effect, rests, Commits, Crashes, Purges, Trims, TakesFirst, Restarts};
ghost use Rattle.sb_world.specs.Turns as spec;
ghost use Rattle.sb_world.specs.declared.event.Answer.TheVariants as answers;

use crate::event::Answer;
use crate::offer::asked;
use sb_codec::Message;
use sb_frames::frame_of;
use sb_log::{Committed, WriteLog};
use sb_node::NodeCore;
use sb_types::{Fault, Key, Name, Slot};
use std::alloc::Global;
use std::collections::VecDeque;
use std::marker::Model;

/// A node, its log, its writes that wait to be entered, and whether it runs.
#[derive(Drop)]
pub(crate) struct Place<L: WriteLog> {
    pub(crate) me: Name,
    pub(crate) log: L,
    pub(crate) core: NodeCore,
    pub(crate) waiting: VecDeque<Committed>,
    pub(crate) is_up: bool,
}

impl<L: WriteLog> Model for Place<L> {
    ghost use Rattle.std.specs.Coded.{codes};
    ghost use Rattle.std.specs.FinMap.{code};
    ghost use Rattle.sb_world.specs.Places as places;

    ghost Value = { places.Place };

    ghost coded = { Prim.hlevel (codes, code) };

    ghost view = { λ p. record { me = p.me; log = L.seen p.log; core = p.core; waiting = p.waiting.items; is_up = p.is_up } };
}

/// Drops what a log answered. `NoMemory` if that was the answer.
fn lose(put: Result<Committed, Fault>) -> Result<(), Fault>
    ensures lost { IfOk result (λ done. put ≢ Err Fault.NoMemory) }
    ensures memory { IfErr result (λ fault. (fault ≡ Fault.NoMemory) × (put ≡ Err Fault.NoMemory)) }
{
    match put {
        Err(Fault::NoMemory) => Err(Fault::NoMemory),
        _ => Ok(()),
    }
}

/// Drops a write that was entered.
fn lose_first(_oldest: Option<Committed>) {}

impl<L: WriteLog> Place<L> {
    /// Whether this is its name.
    pub(crate) fn is_named(&self, name: &Name) -> bool
        ensures { result ≡ pointwise nat_eq self.now.me name.now }
    {
        self.me == *name
    }

    /// Its name.
    pub(crate) fn name(&self) -> Name
        ensures { result ≡ self.now.me }
    {
        self.me
    }

    /// Whether it is up, and so answers to other events than a restart.
    pub(crate) fn is_up(&self) -> bool
        ensures { result ≡ self.now.is_up }
    {
        self.is_up
    }

    /// Asks the log to take a write, which then waits. `NoMemory`, with nothing changed; then the faults of
    /// `WriteLog::put`.
    pub(crate) fn commit(&mut self, key: &Key, slot: &Slot) -> Result<Answer, Fault>
        ensures { (effect : Effect) × Commits self.old key.now slot.now (record { answer = result; effect = effect; place = self.new; frames = [] }) }
    {
        self.waiting.reserve(1)?;
        match self.log.put(key, slot) {
            Ok(committed) => {
                let version = committed.entry().version();
                self.waiting.push_back_reserved(committed);
                Ok(Answer::Committed(version))
            }
            Err(fault) => Err(fault),
        }
    }

    /// Takes the node down, after a write if `is_kept` is true, else before it. `NoMemory` if the log answers so, with
    /// nothing changed.
    pub(crate) fn crash(&mut self, key: &Key, slot: &Slot, is_kept: bool) -> Result<Answer, Fault>
        ensures { (effect : Effect) × Crashes self.old key.now slot.now is_kept (record { answer = result; effect = effect; place = self.new; frames = [] }) }
    {
        if !is_kept {
            self.is_up = false;
            return Ok(Answer::Crashed);
        }
        lose(self.log.put(key, slot))?;
        self.is_up = false;
        Ok(Answer::Crashed)
    }

    /// Asks the log to drop its tombstones up to a floor, and takes the node down. If the log does not take the floor,
    /// the node goes on. The faults of `WriteLog::purge`.
    pub(crate) fn purge(&mut self, floor: u64) -> Result<Answer, Fault>
        ensures { Purges self.old floor (record { answer = result; effect = rests; place = self.new; frames = [] }) }
    {
        match self.log.purge(floor) {
            Ok(()) => {
                self.is_up = false;
                Ok(Answer::Purged(floor))
            }
            Err(fault) => Err(fault),
        }
    }

    /// Purges the node's own table up to a floor, and asks the log to drop its tombstones up to there. `FloorTooHigh` if
    /// the node does not hold so far, with nothing changed; then the faults of `WriteLog::purge`, with the table purged.
    pub(crate) fn trim(&mut self, floor: u64) -> Result<Answer, Fault>
        ensures { (effect : Effect) × Trims self.old floor (record { answer = result; effect = effect; place = self.new; frames = [] }) }
    {
        if let Err(fault) = self.core.purge(floor) {
            return Err(fault);
        }
        if let Err(fault) = self.log.purge(floor) {
            return Err(fault);
        }
        Ok(Answer::Trimmed(floor))
    }

    /// Enters the oldest write that waits. `Nothing` if no write waits. The faults of `NodeCore::take_own`, and then
    /// the write still waits.
    pub(crate) fn take(&mut self) -> Result<Answer, Fault>
        ensures { (effect : Effect) × TakesFirst self.old self.old.waiting (record { answer = result; effect = effect; place = self.new; frames = [] }) }
    {
        let Some(oldest) = self.waiting.front() else {
            return Ok(Answer::Nothing);
        };
        let version = oldest.entry().version();
        match self.core.take_own(oldest) {
            Ok(()) => {
                lose_first(self.waiting.pop_front());
                Ok(Answer::Took(version))
            }
            Err(fault) => Err(fault),
        }
    }

    /// Drops what waits, and opens the node again with the content of its log. The faults of `WriteLog::load`, then
    /// `NoMemory`, and then the node is down.
    pub(crate) fn restart(&mut self, alloc: Global) -> Result<Answer, Fault>
        ensures { (effect : Effect) × Restarts self.old (record { answer = result; effect = effect; place = self.new; frames = [] }) }
    {
        self.is_up = false;
        self.waiting.clear();
        let table = match self.log.load(alloc) {
            Ok(table) => table,
            Err(fault) => return Err(fault),
        };
        let held = table.upto();
        match NodeCore::open(alloc, self.core.settings(), self.me, table) {
            Ok(core) => self.core = core,
            Err(fault) => return Err(fault),
        }
        self.is_up = true;
        Ok(Answer::Restarted(held))
    }

    /// Makes the frame of what the node holds of an owner above a version, as far as its budget has room. `NoMemory`.
    pub(crate) fn offer(&self, alloc: Global, owner: &Name, after: u64) -> Result<Vec<u8>, Fault>
        ensures delta { IfOk result (λ bytes. (blocks : List records.Block) × (is_delta blocks ≡ true)
            × IsDelta self.now.core.settings self.now.core.node.held (spec.offer_digest self.now.core.node.held owner.now after) blocks
            × IsAnswer self.now.core.settings.budget self.now.core.node.held (spec.offer_digest self.now.core.node.held owner.now after) blocks
            × (bytes.items ≡ frame (messages.Delta blocks))) }
        ensures memory { IfErr result (λ fault. fault ≡ Fault.NoMemory) }
    {
        let digest = asked(alloc, self.core.holdings(), owner, after)?;
        let delta = self.core.deltas(&digest)?;
        // Proof only: the call shows that the delta keeps its limits.
        let _ = delta.encoded_length();
        frame_of(alloc, &Message::Delta(delta))
    }

    /// The version up to which it holds an owner.
    pub(crate) fn upto(&self, owner: &Name) -> u64
        ensures { result ≡ (shown_of self.now.core.node.held owner.now).held }
    {
        self.core.upto(owner)
    }

    /// The value and the version that it shows for an owner's key. `NoMemory`.
    pub(crate) fn read(&self, alloc: Global, owner: &Name, key: &Key) -> Result<Answer, Fault>
        ensures { Gives result (Ok (answers.Shown (shown_at key.now (shown_of self.now.core.node.held owner.now).entries))) }
    {
        match self.core.get(owner, key) {
            Some((value, version)) => Ok(Answer::Shown(Some((value.copy(alloc)?, version)))),
            None => Ok(Answer::Shown(None)),
        }
    }
}
