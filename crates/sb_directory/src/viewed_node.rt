//! What the lock of a directory guards: a node with its history, its views, its watches and the book of its seats.
ghost use Rattle.std.specs.Prelude.{◌≡◌, ◌≢◌, ◌≤◌, ◌+◌, ◌++◌, ◌∷◌, [], true, false, length, if◌then◌else◌, None, Ok, Err, IfOk, IfErr, IfSome, IsSome, IsOk, OnOk, OnErr, MatchBool};
ghost use Rattle.std.specs.FinMap.{empty};
ghost use Rattle.std.specs.Option.{option_map};
ghost use mathlib.Core.List.{IsPrefix};
ghost use Rattle.sb_types.specs.Faults.{Gives};
ghost use Rattle.sb_types.specs.Runs.{Stands};
ghost use Rattle.sb_holdings.specs.Held.{shown_of};
ghost use Rattle.sb_holdings.specs.Plain.{IsHoldings};
ghost use Rattle.sb_holdings.specs.Treats.{Treats};
ghost use Rattle.sb_session.specs.Handlers.{IsRefusal};
ghost use Rattle.sb_watch.specs.declared.note.Note.{Note};
ghost use Rattle.sb_watch.specs.declared.note.Polled.TheVariants as answers;
ghost use Rattle.sb_watch.specs.Hubs.{new_hub, has_watch, has_note_at, has_notes, answer_at, with_watch, without_watch};
ghost use Rattle.sb_views.specs.declared.event.Event.TheVariants as events;
ghost use Rattle.sb_views.specs.Histories.{node_after};
ghost use Rattle.sb_directory.specs.ViewedNodes as nodes;
ghost use Rattle.sb_node.specs.Purging.{purge_answer};
ghost use Rattle.sb_directory.specs.Audits as audits;
ghost use Rattle.sb_directory.specs.Purging as purging;
ghost use Rattle.sb_directory.specs.Seats as spec;
ghost use Rattle.sb_directory.specs.Watching.{SaysOf, reports, watch_given, watch_after, others};

use crate::difference::{Difference, difference_of, mark_of};
use crate::directory_watch::{DirectoryWatch, is_one_of, leave_out, renew_unless_owed};
use crate::lacked::catch_up;
use crate::lacking_owners::LackingOwners;
use crate::notes::{push_note, push_notes_since, versions_of};
use crate::receipt::{Applied, Closing, Purge, Receipt};
use crate::risen::{add_owner, add_risen};
use crate::seat::ReaderSeat;
use crate::shares::join_all;
use crate::tag::DirectoryTag;
use sb_budget::Backlog;
use sb_log::Committed;
use sb_node::NodeCore;
use sb_types::{Block, Delta, Fault};
use sb_views::{EventRef, History, ViewWriter};
use sb_watch::{Filter, Hub, Polled, WatchId};
use std::alloc::Global;
use std::marker::Model;
use std::mem;
use std::sync::Wait;
use std::sync::ledger::{Book, Share};

/// A node with its history, its views, its watches and the book of its seats, which one thread uses at a time. Contracts see it as the
/// core, the watches, the history, the prefix of it that is published, and the news.
#[derive(Drop)]
pub(crate) struct ViewedNode<S: DirectoryTag, R: Wait + Drop> {
    core: NodeCore,
    hub: Hub,
    /// The watches of callers, which are also in the hub.
    watches: Vec<DirectoryWatch<S>>,
    history: History<S>,
    views: ViewWriter<S, R>,
    lacking: LackingOwners,
    /// The owners whose held version rose since `take_news`, each with the version up to which it was held then. An owner for
    /// which there was no memory is not there.
    news: Backlog,
    book: Book<S>,
    // What is left of the ledger once each seat has its part.
    rest: Share<S>,
    alloc: Global,
}

impl<S: DirectoryTag, R: Wait + Drop> Model for ViewedNode<S, R> {
    ghost use Rattle.std.specs.Prelude.{◌≡◌, length};
    ghost use Rattle.std.specs.Coded.{codes};
    ghost use Rattle.std.specs.FinMap.{code};
    ghost use Rattle.sb_directory.specs.ViewedNodes as nodes;

    ghost Value = { nodes.ViewedNode };

    ghost coded = { Prim.hlevel (codes, code) };

    ghost view = { λ l. record { core = l.core; hub = l.hub; watches = l.watches.items; history = l.history; published = l.views.published; news = l.news } };

    ghost invariant = { λ l. nodes.IsViewedNode S.opening l.views.queued l.lacking (record { core = l.core; hub = l.hub; watches = l.watches.items; history = l.history; published = l.views.published; news = l.news })
        × (l.book.total ≡ length l.history) × (l.core.settings ≡ S.settings) × (l.rest.parts ≡ 0) × (l.rest.amount ≡ 0) };
}

impl<S: DirectoryTag, R: Wait + Drop> ViewedNode<S, R> {
    /// A node as it was opened, with its views, and the book of a ledger. Each seat has one part of the ledger, and `rest` none.
    pub(crate) fn new(
        alloc: Global,
        core: NodeCore,
        history: History<S>,
        views: ViewWriter<S, R>,
        book: Book<S>,
        rest: Share<S>,
    ) -> ViewedNode<S, R>
        requires opening { S.opening ≡ core.node }
        requires holdings { IsHoldings core.node.held }
        requires settings { core.settings ≡ S.settings }
        requires history { history ≡ [] }
        requires views { views ≡ record { published = []; queued = [] } }
        requires total { book.total ≡ 0 }
        requires rest { (rest.parts ≡ 0) × (rest.amount ≡ 0) }
        ensures { result ≡ record { core = core; hub = new_hub; watches = []; history = []; published = []; news = empty } }
    {
        ViewedNode {
            core,
            hub: Hub::new(alloc),
            watches: Vec::new(alloc),
            history,
            views,
            lacking: LackingOwners::new(alloc),
            news: Backlog::new(alloc),
            book,
            rest,
            alloc,
        }
    }

    /// Enters a committed write for a seat, notes it in watches, and publishes all that happened. Its faults are those of
    /// `Directory::take_own`.
    pub(crate) fn take_own(
        &mut self,
        seat: &mut ReaderSeat<S>,
        committed: &Committed,
    ) -> Result<Receipt, Fault>
        ensures taken { IfOk result (λ _. self.new ≡ nodes.after_own self.old committed.now.entry self.new.published self.new.news) }
        ensures news { IfOk result (λ _. nodes.NotesOwn self.old self.new) }
        ensures shown { IfOk result (λ receipt. spec.PublishesWhereSaid receipt.shown self.old self.new) }
        ensures err { OnErr result (self.new ≡ self.old) }
        ensures due { OnOk result (spec.own_due_after S.opening self.old.history committed.now ≡ Ok tt) }
        ensures last_call { OnOk result (seat.new.last_call ≡ self.old.history ++ events.TookOwn committed.now.entry ∷ []) }
        ensures seen { IfOk result (λ receipt. receipt.shown ≡ true → seat.new.seen ≡ seat.new.last_call) }
        ensures count { OnOk result (seat.new.events ≡ seat.old.events + 1) }
        ensures refused { IfErr result (spec.Refuses (spec.own_due_after S.opening self.old.history committed.now)) }
        ensures seat { OnErr result (seat.new ≡ spec.with_last_call seat.old self.old.history) }
        ensures begins { spec.Begins self.old.history seat.old }
        ensures before { IsPrefix seat.old.knowledge self.old.history }
        ensures knows { seat.new.knowledge ≡ self.old.history }
        ensures grows { IsPrefix seat.old.seen seat.new.seen }
        ensures version { IfOk result (λ receipt. receipt.version ≡ committed.now.entry.version) }
    {
        seat.call_at(&mut self.history);
        if let Some(fault) = self.core.refusal(committed) {
            return Err(fault);
        }
        if self.history.len() == u64::MAX {
            return Err(Fault::TurnsSpent);
        }
        let me = *self.core.name();
        let entry = committed.entry();
        let since = (self.core.upto(&me), self.core.holdings().floor(&me));
        self.lacking.add(me, since)?;
        self.core.take_own(committed)?;
        self.history.add(EventRef::TookOwn(entry));
        let (version, _) = since;
        let _ = add_owner(&mut self.news, me, version);
        push_note(&mut self.hub, &me, entry);
        seat.count(&mut self.book);
        Ok(Receipt {
            version: entry.version(),
            shown: self.refresh(seat),
        })
    }

    /// Takes each block of a delta for a seat, notes in watches what it changed, and publishes all that happened. Its faults
    /// are those of `Directory::apply`.
    pub(crate) fn apply(
        &mut self,
        seat: &mut ReaderSeat<S>,
        delta: &Delta,
    ) -> Result<Applied, Fault>
        ensures taken { IfOk result (λ applied. self.new ≡ nodes.after_delta self.old delta.now applied.ends self.new.published self.new.news) }
        ensures shown { IfOk result (λ applied. spec.PublishesWhereSaid applied.shown self.old self.new) }
        ensures err { OnErr result (self.new ≡ self.old) }
        ensures due { OnOk result (spec.delta_due_after self.old.history ≡ Ok tt) }
        ensures ends { IfOk result (λ applied. Treats (node_after S.opening self.old.history) delta.now applied.ends) }
        ensures last_call { IfOk result (λ applied. seat.new.last_call ≡ self.old.history ++ events.Applied delta.now applied.ends ∷ []) }
        ensures seen { IfOk result (λ applied. applied.shown ≡ true → seat.new.seen ≡ seat.new.last_call) }
        ensures count { OnOk result (seat.new.events ≡ seat.old.events + 1) }
        ensures refused { IfErr result (spec.Refuses (spec.delta_due_after self.old.history)) }
        ensures fault { IfErr result IsRefusal }
        ensures seat { OnErr result (seat.new ≡ spec.with_last_call seat.old self.old.history) }
        ensures begins { spec.Begins self.old.history seat.old }
        ensures before { IsPrefix seat.old.knowledge self.old.history }
        ensures knows { seat.new.knowledge ≡ self.old.history }
        ensures grows { IsPrefix seat.old.seen seat.new.seen }
    {
        seat.call_at(&mut self.history);
        if self.history.len() == u64::MAX {
            return Err(Fault::TurnsSpent);
        }
        let blocks = delta.blocks();
        let versions = versions_of(self.alloc, self.core.holdings(), blocks)?;
        self.lacking.add_owners(self.core.holdings(), blocks)?;
        let ends = self.core.apply(delta)?;
        self.history.add(EventRef::Applied(delta, &ends));
        let _ = add_risen(&mut self.news, self.core.holdings(), &versions);
        push_notes_since(&mut self.hub, self.core.holdings(), versions);
        seat.count(&mut self.book);
        let shown = self.refresh(seat);
        Ok(Applied { ends, shown })
    }

    /// Takes the news: the owners whose held version rose since the last call, each with the version up to which it was held then.
    pub(crate) fn take_news(&mut self) -> Backlog
        ensures taken { result ≡ self.old.news }
        ensures left { self.new ≡ nodes.with_news self.old empty }
    {
        mem::replace(&mut self.news, Backlog::new(self.alloc))
    }

    /// Purges the own table for a seat if a purge is due, and then publishes all that happened. Its faults are those of
    /// `Directory::purge`.
    #[tactic(auto, using(crate::proofs::Purging::purge_refused, crate::proofs::Purging::purge_taken, crate::proofs::Purging::purge_none))]
    pub(crate) fn purge(
        &mut self,
        seat: &mut ReaderSeat<S>,
        least: u64,
    ) -> Result<Option<Purge>, Fault>
        ensures due { IfOk result (λ purge. purging.purge_due_after S.opening least self.old.history ≡ Ok (option_map (λ p. p.floor) purge)) }
        ensures none { result ≡ Ok None → self.new ≡ self.old }
        ensures taken { IfOk result (λ purge. IfSome purge (λ p. self.new ≡ nodes.after_purge self.old p.floor self.new.published)) }
        ensures shown { IfOk result (λ purge. IfSome purge (λ p. spec.PublishesWhereSaid p.shown self.old self.new)) }
        ensures err { OnErr result (self.new ≡ self.old) }
        ensures last_call { IfOk result (λ purge. seat.new.last_call ≡ self.old.history ++ purging.purge_events (option_map (λ p. p.floor) purge)) }
        ensures count { IfOk result (λ purge. seat.new.events ≡ seat.old.events + length (purging.purge_events (option_map (λ p. p.floor) purge))) }
        ensures seen { IfOk result (λ purge. IfSome purge (λ p. p.shown ≡ true → seat.new.seen ≡ seat.new.last_call)) }
        ensures refused { IfErr result (spec.Refuses (purging.purge_due_after S.opening least self.old.history)) }
        ensures some { OnErr result (IsSome (purging.own_due_floor least (node_after S.opening self.old.history))) }
        ensures seat { OnErr result (seat.new ≡ spec.with_last_call seat.old self.old.history) }
        ensures still { result ≡ Ok None → seat.new ≡ spec.with_last_call seat.old self.old.history }
        ensures begins { spec.Begins self.old.history seat.old }
        ensures before { IsPrefix seat.old.knowledge self.old.history }
        ensures knows { seat.new.knowledge ≡ self.old.history }
        ensures grows { IsPrefix seat.old.seen seat.new.seen }
    {
        seat.call_at(&mut self.history);
        match self.core.due_floor(least) {
            Some(floor) => Ok(Some(self.purge_to(seat, floor)?)),
            None => Ok(None),
        }
    }

    /// Purges the own table up to a version that it may be purged to, as a call of a seat, and publishes all that happened.
    fn purge_to(&mut self, seat: &mut ReaderSeat<S>, floor: u64) -> Result<Purge, Fault>
        requires allowed { purge_answer self.old.core.node floor ≡ Ok tt }
        ensures floor { IfOk result (λ purge. purge.floor ≡ floor) }
        ensures taken { OnOk result (self.new ≡ nodes.after_purge self.old floor self.new.published) }
        ensures shown { IfOk result (λ purge. spec.PublishesWhereSaid purge.shown self.old self.new) }
        ensures err { OnErr result (self.new ≡ self.old) }
        ensures last_call { OnOk result (seat.new.last_call ≡ self.old.history ++ events.Purged floor ∷ []) }
        ensures count { OnOk result (seat.new.events ≡ seat.old.events + 1) }
        ensures seen { IfOk result (λ purge. purge.shown ≡ true → seat.new.seen ≡ seat.new.last_call) }
        ensures refused { IfErr result (spec.Refuses (spec.delta_due_after self.old.history)) }
        ensures due { OnOk result (spec.delta_due_after self.old.history ≡ Ok tt) }
        ensures seat { OnErr result (seat.new ≡ spec.with_last_call seat.old self.old.history) }
        ensures begins { spec.Begins self.old.history seat.old }
        ensures before { IsPrefix seat.old.knowledge self.old.history }
        ensures knows { seat.new.knowledge ≡ self.old.history }
        ensures grows { IsPrefix seat.old.seen seat.new.seen }
    {
        seat.call_at(&mut self.history);
        if self.history.len() == u64::MAX {
            return Err(Fault::TurnsSpent);
        }
        let me = *self.core.name();
        let (upto, lowest) = (self.core.upto(&me), self.core.holdings().floor(&me));
        self.lacking.add(me, (upto, lowest))?;
        self.core.purge(floor)?;
        self.history.add(EventRef::Purged(floor));
        seat.count(&mut self.book);
        let is_shown = self.refresh(seat);
        Ok(Purge {
            floor,
            shown: is_shown,
        })
    }

    /// Compares a block of the own name with the own table for a seat, and marks the name as that of another node too if something is
    /// found. Its faults are those of `Directory::audit`.
    pub(crate) fn audit(
        &mut self,
        seat: &mut ReaderSeat<S>,
        block: &Block,
    ) -> Result<Option<Difference>, Fault>
        ensures finds { IfOk result (audits.Finds (node_after S.opening self.old.history) block.now) }
        ensures last_call { IfOk result (λ found. seat.new.last_call ≡ self.old.history ++ audits.audit_events (node_after S.opening self.old.history) found) }
        ensures count { IfOk result (λ found. seat.new.events ≡ seat.old.events + length (audits.audit_events (node_after S.opening self.old.history) found)) }
        ensures disputed { IfOk result (λ found. IfSome found (λ _. IsSome (node_after S.opening seat.new.last_call).conflict)) }
        ensures none { result ≡ Ok None → self.new ≡ self.old }
        ensures err { OnErr result (self.new ≡ self.old) }
        ensures refused { IfErr result (audits.RefusesMark S.opening self.old.history) }
        ensures fault { IfErr result IsRefusal }
        ensures still { result ≡ Ok None → seat.new ≡ spec.with_last_call seat.old self.old.history }
        ensures seat { OnErr result (seat.new ≡ spec.with_last_call seat.old self.old.history) }
        ensures begins { spec.Begins self.old.history seat.old }
        ensures before { IsPrefix seat.old.knowledge self.old.history }
        ensures knows { seat.new.knowledge ≡ self.old.history }
        ensures grows { IsPrefix seat.old.seen seat.new.seen }
    {
        self.note_call(seat);
        match difference_of(self.alloc, &self.core, block) {
            Ok(Some(found)) => {
                self.mark(seat)?;
                Ok(Some(found))
            }
            Ok(None) => Ok(None),
            Err(fault) => Err(fault),
        }
    }

    /// Marks the own name as that of another node too, for a seat, unless it is in conflict already. `TurnsSpent` after 2^64 - 1
    /// events, or if no version is left; `NoMemory`.
    fn mark(&mut self, seat: &mut ReaderSeat<S>) -> Result<(), Fault>
        ensures last_call { OnOk result (seat.new.last_call ≡ self.old.history ++ audits.marking_unless (node_after S.opening self.old.history) (node_after S.opening self.old.history).conflict) }
        ensures count { OnOk result (seat.new.events ≡ seat.old.events + length (audits.marking_unless (node_after S.opening self.old.history) (node_after S.opening self.old.history).conflict)) }
        ensures disputed { OnOk result (IsSome (node_after S.opening seat.new.last_call).conflict) }
        ensures err { OnErr result (self.new ≡ self.old) }
        ensures refused { IfErr result (audits.RefusesMark S.opening self.old.history) }
        ensures fault { IfErr result IsRefusal }
        ensures seat { OnErr result (seat.new ≡ spec.with_last_call seat.old self.old.history) }
        ensures begins { spec.Begins self.old.history seat.old }
        ensures before { IsPrefix seat.old.knowledge self.old.history }
        ensures knows { seat.new.knowledge ≡ self.old.history }
        ensures grows { IsPrefix seat.old.seen seat.new.seen }
    {
        self.note_call(seat);
        if self.core.conflict().is_some() {
            return Ok(());
        }
        let mark = mark_of(self.alloc, &self.core)?;
        match self.apply(seat, &mark) {
            Ok(_) => Ok(()),
            Err(fault) => Err(fault),
        }
    }

    /// Notes a call of a seat, which knows the history from then on. It changes nothing else.
    fn note_call(&mut self, seat: &mut ReaderSeat<S>)
        ensures same { self.new ≡ self.old }
        ensures begins { spec.Begins self.old.history seat.old }
        ensures before { IsPrefix seat.old.knowledge self.old.history }
        ensures last_call { seat.new ≡ spec.with_last_call seat.old self.old.history }
    {
        seat.call_at(&mut self.history);
    }

    /// Notes a call of a seat that asks, and publishes all that happened if there is memory for it. So the seat can enter what it
    /// knows by the answer.
    pub(crate) fn note_question(&mut self, seat: &mut ReaderSeat<S>)
        ensures left { self.new ≡ nodes.with_published self.old self.new.published }
        ensures history { self.new.history ≡ self.old.history }
        ensures shown { spec.PublishesWhereSaid false self.old self.new }
        ensures begins { spec.Begins self.old.history seat.old }
        ensures before { IsPrefix seat.old.knowledge self.old.history }
        ensures last_call { seat.new ≡ spec.with_last_call seat.old self.old.history }
    {
        self.note_call(seat);
        let _ = self.publish();
    }

    /// The node core, for calls that only read it.
    pub(crate) fn core(&self) -> &NodeCore
        ensures node { result.now.node ≡ node_after S.opening self.now.history }
        ensures settings { result.now.settings ≡ S.settings }
    {
        &self.core
    }

    /// Adds a watch, which reports what changes from here on.
    pub(crate) fn watch(
        &mut self,
        filter: Filter,
        capacity: usize,
    ) -> Result<DirectoryWatch<S>, Fault>
        ensures answer { Gives result (watch_given self.old.hub filter capacity self.old.history) }
        ensures refused { (fault : Fault) → watch_given self.old.hub filter capacity self.old.history ≡ Err fault → result ≡ Err fault }
        ensures ok { IfOk result (λ watch. self.new ≡ nodes.with_watches self.old (with_watch self.old.hub filter capacity) (self.old.watches ++ watch ∷ [])) }
        ensures err { OnErr result (self.new ≡ self.old) }
    {
        if let Some(refusal) = self.hub.refusal(capacity) {
            return Err(refusal);
        }
        self.watches.reserve(1)?;
        let id = self.hub.add(filter, capacity)?;
        let watch = DirectoryWatch::new(id, &filter, self.history.prefix().copy());
        self.watches.push_reserved(watch.copy());
        Ok(watch)
    }

    /// Drops a watch with its notes.
    pub(crate) fn unwatch(&mut self, id: WatchId) -> Result<(), Fault>
        ensures answer { result ≡ (if has_watch self.old.hub id then Ok tt else Err Fault.NoWatch) }
        ensures left { self.new ≡ nodes.with_watches self.old (without_watch self.old.hub id) (others id self.old.watches) }
    {
        leave_out(&mut self.watches, id);
        self.hub.drop_watch(id)
    }

    /// Whether any watch has a note.
    pub(crate) fn has_notes(&self) -> bool
        ensures { result ≡ has_notes self.now.hub }
    {
        self.hub.has_notes()
    }

    /// Whether a watch is one of this node's.
    fn has(&self, watch: &DirectoryWatch<S>) -> bool
        ensures found { MatchBool result (Stands self.now.watches watch.now) (Stands self.now.watches watch.now → ⊥) }
        ensures note { result ≡ true → IsOk (has_note_at self.now.hub watch.now.id) }
        ensures answer { result ≡ true → IsOk (answer_at self.now.hub watch.now.id) }
    {
        is_one_of(&self.watches, watch)
    }

    /// Whether one of its watches has a note.
    fn owes(&self, watch: &DirectoryWatch<S>) -> Result<bool, Fault>
        requires known { Stands self.now.watches watch.now }
        ensures answer { result ≡ has_note_at self.now.hub watch.now.id }
        ensures ok { IsOk result }
        ensures says { IfOk result (SaysOf S.opening self.now.history watch.now) }
    {
        self.hub.has_note(watch.id())
    }

    /// Publishes all that happened, and says whether anything changed that a watch is for. So what changed is published by then.
    pub(crate) fn has_note(&mut self, watch: &DirectoryWatch<S>) -> Result<bool, Fault>
        ensures says { IfOk result (SaysOf S.opening self.old.history watch.now) }
        ensures fault { IfErr result (λ fault. fault ≢ Fault.NoWatch → fault ≡ Fault.NoMemory) }
        ensures none { (Stands self.old.watches watch.now → ⊥) → result ≡ Err Fault.NoWatch }
        ensures known { result ≡ Err Fault.NoWatch → Stands self.old.watches watch.now → ⊥ }
        ensures refused { IfErr (has_note_at self.old.hub watch.now.id) (λ fault. result ≡ Err fault) }
        ensures left { self.new ≡ nodes.with_published self.old self.new.published }
        ensures shown { OnOk result (self.new.published ≡ self.new.history) }
        ensures same { result ≡ Err Fault.NoWatch → self.new ≡ self.old }
    {
        if !self.has(watch) {
            Err(Fault::NoWatch)
        } else if self.publish() {
            self.owes(watch)
        } else {
            Err(Fault::NoMemory)
        }
    }

    /// Publishes all that happened, and says whether there was memory for it. If there was none, what is published stays, and what
    /// could not be queued is queued by the next call.
    fn publish(&mut self) -> bool
        ensures left { self.new ≡ nodes.with_published self.old self.new.published }
        ensures publishes { nodes.Publishes result self.old self.new }
    {
        let history = self.history.prefix();
        if self.views.published_prefix().is_same(history) {
            return true;
        }
        let views = &mut self.views;
        if !catch_up(self.alloc, views, &self.core, history, &mut self.lacking) {
            return false;
        }
        match self.views.publish() {
            Ok(()) => true,
            Err(_) => false,
        }
    }

    /// Publishes all that happened, and lets the seat see it; says whether it did.
    pub(crate) fn refresh(&mut self, seat: &mut ReaderSeat<S>) -> bool
        ensures left { self.new ≡ nodes.with_published self.old self.new.published }
        ensures shown { spec.PublishesWhereSaid result self.old self.new }
        ensures begins { spec.Begins self.old.history seat.old }
        ensures last_call { seat.new.last_call ≡ self.old.history }
        ensures knows { seat.new.knowledge ≡ seat.old.knowledge }
        ensures grows { IsPrefix seat.old.seen seat.new.seen }
        ensures count { seat.new.events ≡ seat.old.events }
        ensures seen { result ≡ true → seat.new.seen ≡ self.new.history }
        ensures made { result ≡ true → seat.new.events ≤ length seat.new.seen }
    {
        seat.note_call_at(&mut self.history);
        seat.audit(&mut self.book);
        if !self.publish() {
            return false;
        }
        seat.look(self.history.prefix())
    }

    /// What one of its watches answers. If the watch has nothing more to report, it begins anew.
    fn take_answer(&mut self, watch: &mut DirectoryWatch<S>) -> Result<Polled, Fault>
        requires known { Stands self.old.watches watch.old }
        ensures answer { result ≡ answer_at self.old.hub watch.old.id }
        ensures ok { IsOk result }
        ensures says { IfOk result (λ polled. SaysOf S.opening self.old.history watch.old (reports polled)) }
        ensures held { (note : Note) → result ≡ Ok (answers.Note note) → note.version ≤ (shown_of (node_after S.opening self.old.history).held note.owner).held }
        ensures left { self.new ≡ nodes.after_poll self.old watch.old }
        ensures watch { watch.new ≡ watch_after self.new.hub self.old.history watch.old }
    {
        let answer = self.hub.take(watch.id());
        renew_unless_owed(&self.hub, self.history.prefix(), &mut self.watches, watch);
        answer
    }

    /// Publishes all that happened, lets the seat see it, and gives what the watch answers. So it gives a note only once the note's
    /// write is published.
    pub(crate) fn poll(
        &mut self,
        seat: &mut ReaderSeat<S>,
        watch: &mut DirectoryWatch<S>,
    ) -> Result<Polled, Fault>
        ensures answer { OnOk result (result ≡ answer_at self.old.hub watch.old.id) }
        ensures says { IfOk result (λ polled. SaysOf S.opening self.old.history watch.old (reports polled)) }
        ensures fault { IfErr result (λ fault. fault ≢ Fault.NoWatch → fault ≡ Fault.NoMemory) }
        ensures unknown { (Stands self.old.watches watch.old → ⊥) → result ≡ Err Fault.NoWatch }
        ensures known { result ≡ Err Fault.NoWatch → Stands self.old.watches watch.old → ⊥ }
        ensures refused { IfErr (answer_at self.old.hub watch.old.id) (λ fault. result ≡ Err fault) }
        ensures held { (note : Note) → result ≡ Ok (answers.Note note) → note.version ≤ (shown_of (node_after S.opening seat.new.seen).held note.owner).held }
        ensures ok { OnOk result (self.new ≡ nodes.with_published (nodes.after_poll self.old watch.old) self.old.history) }
        ensures watch { OnOk result (watch.new ≡ watch_after self.new.hub self.old.history watch.old) }
        ensures err { OnErr result ((self.new ≡ nodes.with_published self.old self.new.published) × (watch.new ≡ watch.old)) }
        ensures shown { OnErr result (spec.PublishesWhereSaid false self.old self.new) }
        ensures none { result ≡ Err Fault.NoWatch → self.new ≡ self.old }
        ensures seat { result ≡ Err Fault.NoWatch → seat.new ≡ spec.with_last_call seat.old seat.new.last_call }
        ensures begins { spec.Begins self.old.history seat.old }
        ensures last_call { seat.new.last_call ≡ self.old.history }
        ensures knows { IsPrefix seat.old.knowledge seat.new.knowledge }
        ensures grows { IsPrefix seat.old.seen seat.new.seen }
        ensures count { seat.new.events ≡ seat.old.events }
        ensures seen { OnOk result (seat.new.seen ≡ self.new.history) }
        ensures made { OnOk result (seat.new.events ≤ length seat.new.seen) }
    {
        if !self.has(watch) {
            self.note_call(seat);
            return Err(Fault::NoWatch);
        }
        if !self.refresh(seat) {
            return Err(Fault::NoMemory);
        }
        self.take_answer(watch)
    }

    /// The node, and how many events there were. These are all its seats.
    pub(crate) fn close(self, seats: Vec<ReaderSeat<S>>) -> Closing
        requires all { length seats.items ≡ S.parts }
        ensures node { result.core.node ≡ node_after S.opening self.history }
        ensures settings { result.core.settings ≡ S.settings }
        ensures events { result.events ≡ length self.history }
        ensures made { result.events ≡ spec.events_of_all seats.items }
        ensures begin { spec.AllBegin self.history seats.items }
    {
        let Self {
            core,
            hub: _hub,
            watches: _watches,
            mut history,
            views: _views,
            lacking: _lacking,
            news: _news,
            mut book,
            rest,
            alloc: _,
        } = self;
        let mut all = join_all(&mut history, rest, seats);
        book.audit(&mut all);
        Closing {
            core,
            events: history.len(),
        }
    }
}
