//! The readers of views.
ghost use Rattle.std.specs.Prelude.{◌≡◌, [], MatchResult};
ghost use Rattle.left_right.specs.Sides as sides;
ghost use mathlib.Core.List.{IsPrefix};
ghost use Rattle.sb_views.specs.Histories.{node_after};
ghost use Rattle.sb_views.specs.Publishing as spec;

use crate::history::{HistoryPrefix, NodeTag};
use crate::rule::{EnterOutcome, ViewRule};
use crate::snapshot::Snapshot;
use crate::view_copy::ViewCopy;
use left_right::reader;
use left_right::reader::Reading;
use std::marker::Model;

/// A reader that is not reading. Contracts see it as the prefix of the history that it has seen.
#[derive(Drop)]
pub struct Reader<S: NodeTag> {
    reader: reader::Reader<ViewCopy, u64, ViewRule<S>>,
    seen: HistoryPrefix<S>,
}

impl<S: NodeTag> Model for Reader<S> {
    ghost use Rattle.std.specs.Prelude.{◌≡◌, List, length};
    ghost use Rattle.left_right.specs.Sides as sides;
    ghost use Rattle.sb_views.specs.declared.event.Event.{Event};

    ghost Value = { List Event };

    ghost view = { λ r. r.seen };

    ghost invariant = { λ r. sides.view r.reader.place ≡ length r.seen };
}

/// A reader with the view that it reads. Contracts see it as the prefix of the history whose view that is.
pub struct Entered<S: NodeTag> {
    reading: Reading<ViewCopy, u64, ViewRule<S>>,
    seen: HistoryPrefix<S>,
}

impl<S: NodeTag> Model for Entered<S> {
    ghost use Rattle.std.specs.Prelude.{◌≡◌, List, length};
    ghost use Rattle.left_right.specs.Sides as sides;
    ghost use Rattle.sb_views.specs.declared.event.Event.{Event};
    ghost use Rattle.sb_views.specs.Publishing as spec;

    ghost Value = { List Event };

    ghost view = { λ r. r.seen };

    ghost invariant = { λ r. (sides.view r.reading.place ≡ length r.seen) × (r.reading.part.value.position.events ≡ r.seen)
        × spec.IsCopyOf S.history S.opening r.reading.part.value };
}

impl<S: NodeTag> Reader<S> {
    /// A reader that has seen nothing.
    pub(crate) fn new(
        reader: reader::Reader<ViewCopy, u64, ViewRule<S>>,
        seen: HistoryPrefix<S>,
    ) -> Reader<S>
        requires start { seen ≡ [] }
        requires view { sides.view reader.place ≡ 0 }
        ensures { result ≡ [] }
    {
        Reader { reader, seen }
    }

    /// Takes what is published, which stays as it is until the reader leaves. It waits for nobody and takes no
    /// memory. Where it is refused, as when the writer is gone, the reader comes back unchanged.
    pub fn enter(self) -> Result<Entered<S>, Reader<S>>
        ensures { MatchResult result (λ entered. IsPrefix self entered) (λ reader. reader ≡ self) }
    {
        let Reader { reader, mut seen } = self;
        match reader.enter_as::<EnterOutcome<S>>() {
            Ok(reading) => {
                seen.extend_to(reading.get().position());
                Ok(Entered { reading, seen })
            }
            Err(reader) => Err(Reader { reader, seen }),
        }
    }

    /// The prefix of the history that it has seen.
    pub fn seen(&self) -> &HistoryPrefix<S>
        ensures { result.now ≡ self.now }
    {
        &self.seen
    }
}

impl<S: NodeTag> Entered<S> {
    /// What is read: the view of the node after the events that this reader has seen.
    pub fn snapshot(&self) -> Snapshot<'_>
        ensures { spec.IsView (node_after S.opening self.now) result }
    {
        Snapshot::of(self.reading.get().view())
    }

    /// The prefix of the history that it has seen.
    pub fn seen(&self) -> &HistoryPrefix<S>
        ensures { result.now ≡ self.now }
    {
        &self.seen
    }

    /// Reads no longer.
    pub fn leave(self) -> Reader<S>
        ensures { result ≡ self }
    {
        let Self { reading, seen } = self;
        Reader {
            reader: reading.leave(),
            seen,
        }
    }
}

impl<S: NodeTag> Drop for Entered<S> {
    fn drop(self) {
        let Self {
            reading,
            seen: _told,
        } = self;
        let _reader = reading.leave();
    }
}
