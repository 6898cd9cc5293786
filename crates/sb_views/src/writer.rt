//! The writer of views.
ghost use Rattle.std.specs.Prelude.{◌≡◌, ◌++◌, ◌∷◌, ◌<◌, ◌^◌, drop, replicate, [], IfOk, IfErr, OnOk, MatchResult};
ghost use mathlib.Core.List.{IsPrefix};
ghost use Rattle.sb_views.specs.Changes.{Leads};
ghost use Rattle.sb_views.specs.Histories.{node_after};
ghost use Rattle.sb_views.specs.Publishing as spec;

use crate::batch::Batch;
use crate::history::{HistoryPrefix, NodeTag, Position};
use crate::reader::Reader;
use crate::rule::{PublishOutcome, ViewRule};
use crate::view_copy::{Operation, ViewCopy};
use core::mem::replace_with;
use left_right::writer::Writer;
use sb_types::Fault;
use std::alloc::{AllocError, Global};
use std::collections::VecDeque;
use std::marker::Model;
use std::sync::Wait;

/// The one writer of the views of a node. Contracts see it as two prefixes of the history. Readers who enter get the view of
/// `published`. They get that of `queued` once all that is queued is published.
pub struct ViewWriter<S: NodeTag, R: Wait + Drop> {
    writer: Writer<ViewCopy, Operation, u64, ViewRule<S>>,
    // What is appended and not yet handed to the writer, so that no reader meets a part of a batch.
    queue: VecDeque<Operation>,
    published: HistoryPrefix<S>,
    queued: HistoryPrefix<S>,
    rt: R,
}

impl<S: NodeTag, R: Wait + Drop> Model for ViewWriter<S, R> {
    ghost use Rattle.std.specs.Prelude.{◌≡◌, ◌++◌, drop, fold};
    ghost use Rattle.sb_views.specs.Operations.{after_operation};
    ghost use Rattle.sb_views.specs.Publishing as spec;

    ghost Value = { spec.Views };

    ghost view = { λ w. record { published = w.published; queued = w.queued } };

    ghost invariant = { λ w. (w.writer.desk.shown.value.position.events ≡ w.published) × spec.IsQueued S.history S.opening w.queued w.writer.desk.shown.value
        (fold after_operation w.writer.desk.shown.value (drop w.writer.behind w.writer.log.items ++ w.queue.items)) };
}

/// Hands all that is queued to the writer, or as much as memory allows.
fn hand_over<S: NodeTag>(
    writer: &mut Writer<ViewCopy, Operation, u64, ViewRule<S>>,
    queue: &mut VecDeque<Operation>,
) -> Result<(), AllocError>
    ensures desk { writer.new.desk ≡ writer.old.desk }
    ensures pending { drop writer.new.behind writer.new.log.items ++ queue.new.items ≡ drop writer.old.behind writer.old.log.items ++ queue.old.items }
    ensures all { OnOk result (queue.new.items ≡ []) }
{
    while let Some(operation) = queue.pop_front() {
        if let Err(operation) = writer.append(operation) {
            queue.push_front_reserved(operation);
            return Err(AllocError);
        }
    }
    Ok(())
}

/// Queues operations and then how far they lead. If there is no memory for all, it queues nothing.
fn queue_all(
    queue: &mut VecDeque<Operation>,
    steps: &mut VecDeque<Operation>,
    position: &Position,
) -> Result<(), AllocError>
    ensures { MatchResult result (λ _. queue.new.items ≡ queue.old.items ++ (steps.old.items ++ Operation.Reach position.now ∷ []))
        (λ _. (queue.new.items ≡ queue.old.items) × (steps.new.items ≡ steps.old.items)) }
{
    let operations_and_position = steps.len().checked_add(1).ok_or(AllocError)?;
    queue.reserve(operations_and_position)?;
    queue.append(steps)?;
    queue.push_back_reserved(Operation::Reach(position.copy()));
    Ok(())
}

/// The prefix that is published after a publish that ended so.
fn prefix_after<S: NodeTag>(
    end: &Result<(), AllocError>,
    published: HistoryPrefix<S>,
    queued: &HistoryPrefix<S>,
) -> HistoryPrefix<S>
    ensures { MatchResult end.now (λ _. result ≡ queued.now) (λ _. result ≡ published) }
{
    match end {
        Ok(()) => queued.copy(),
        Err(_) => published,
    }
}

impl<S: NodeTag, R: Wait + Drop> ViewWriter<S, R> {
    /// A writer of two equal copies, with room for so many readers. `NoMemory`.
    pub(crate) fn new(
        alloc: Global,
        rt: R,
        start: HistoryPrefix<S>,
        first: ViewCopy,
        second: ViewCopy,
        seats: usize,
    ) -> Result<ViewWriter<S, R>, Fault>
        requires start { start ≡ [] }
        requires seats { (0 < seats) × (seats < 2 ^ 32) }
        requires alike { first ≡ second }
        requires is_copy { spec.IsCopyOf S.history S.opening first }
        requires nothing { first.position.events ≡ [] }
        ensures writer { IfOk result (λ writer. writer ≡ record { published = []; queued = [] }) }
        ensures memory { IfErr result (λ fault. fault ≡ Fault.NoMemory) }
    {
        match Writer::new(alloc, first, second, seats) {
            Ok(writer) => Ok(ViewWriter {
                writer,
                queue: VecDeque::new(alloc),
                published: start.copy(),
                queued: start,
                rt,
            }),
            Err(_) => Err(Fault::NoMemory),
        }
    }

    /// Readers that have seen nothing, each in a place of its own. `NoMemory`.
    pub(crate) fn readers(&self, alloc: Global, seats: usize) -> Result<Vec<Reader<S>>, Fault>
        requires { self.now.queued ≡ [] }
        ensures readers { IfOk result (λ readers. readers.items ≡ replicate seats []) }
        ensures memory { IfErr result (λ fault. fault ≡ Fault.NoMemory) }
    {
        let mut readers = Vec::new(alloc);
        for _ in 0..seats {
            let reader = self.reader()?;
            readers.push(reader)?;
        }
        Ok(readers)
    }

    fn reader(&self) -> Result<Reader<S>, Fault>
        requires { self.now.queued ≡ [] }
        ensures reader { IfOk result (λ reader. reader ≡ []) }
        ensures memory { IfErr result (λ fault. fault ≡ Fault.NoMemory) }
    {
        match self.writer.factory().reader() {
            Ok(reader) => Ok(Reader::new(reader, self.queued.copy())),
            Err(_) => Err(Fault::NoMemory),
        }
    }

    /// Queues a batch, which leads from the view of what is queued to that of the events up to `upto`. Readers see nothing of
    /// it until it is published. If memory is wanting, it gives the batch back, and nothing changes.
    pub fn append(&mut self, batch: Batch, upto: &HistoryPrefix<S>) -> Result<(), Batch>
        requires begins { IsPrefix self.old.queued upto.now }
        requires leads { Leads (node_after S.opening self.old.queued).held (node_after S.opening upto.now).held batch }
        ensures { MatchResult result (λ _. self.new ≡ record { published = self.old.published; queued = upto.now }) (λ back. (back ≡ batch) × (self.new ≡ self.old)) }
    {
        let mut steps = batch.into_operations();
        match queue_all(&mut self.queue, &mut steps, upto.position()) {
            Ok(()) => {
                self.queued = upto.copy();
                Ok(())
            }
            Err(_) => Err(Batch::from_operations(steps)),
        }
    }

    /// The events that are published.
    pub fn published_prefix(&self) -> &HistoryPrefix<S>
        ensures { result.now ≡ self.now.published }
    {
        &self.published
    }

    /// The events that are published once all that is queued is published.
    pub fn queued_prefix(&self) -> &HistoryPrefix<S>
        ensures { result.now ≡ self.now.queued }
    {
        &self.queued
    }

    fn publish_queue(self) -> (ViewWriter<S, R>, Result<(), AllocError>)
        ensures { MatchResult result.1 (λ _. result.0 ≡ record { published = self.queued; queued = self.queued }) (λ _. result.0 ≡ self) }
    {
        let ViewWriter {
            mut writer,
            mut queue,
            published,
            queued,
            rt,
        } = self;
        if let Err(fault) = hand_over(&mut writer, &mut queue) {
            let writer = ViewWriter {
                writer,
                queue,
                published,
                queued,
                rt,
            };
            return (writer, Err(fault));
        }
        let (writer, end) = writer.publish_as::<PublishOutcome, R>(&rt);
        let published = prefix_after(&end, published, &queued);
        let writer = ViewWriter {
            writer,
            queue,
            published,
            queued,
            rt,
        };
        (writer, end)
    }

    /// Publishes all that is queued. It waits for those that still read what was published before the last time.
    /// `NoMemory`, which changes neither what is published nor what is queued.
    pub fn publish(&mut self) -> Result<(), Fault>
        ensures end { MatchResult result (λ _. self.new ≡ record { published = self.old.queued; queued = self.old.queued }) (λ _. self.new ≡ self.old) }
        ensures memory { IfErr result (λ fault. fault ≡ Fault.NoMemory) }
    {
        match replace_with(self, (), |writer, _| writer.publish_queue()) {
            Ok(()) => Ok(()),
            Err(_) => Err(Fault::NoMemory),
        }
    }
}

impl<S: NodeTag, R: Wait + Drop> Drop for ViewWriter<S, R> {
    fn drop(self) {
        let Self {
            writer,
            queue: _queue,
            published: _published,
            queued: _queued,
            rt,
        } = self;
        drop(writer.take(&rt));
    }
}
