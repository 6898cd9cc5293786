//! The history of a node: all its events since it was opened, in one order. It exists in proofs alone; at run time there is only its
//! length.
ghost use Rattle.std.specs.Prelude.{◌≡◌, ◌≢◌, ◌<◌, ◌≤◌, ◌-◌, ◌^◌, ◌++◌, ◌∷◌, ◌⊎◌, [], length, MatchBool};
ghost use mathlib.Core.List.{IsPrefix};
ghost use Rattle.logbook.specs.Pages.{nib, may_make_home};
ghost use Rattle.sb_views.specs.Histories.{IsLonger, event_of};
ghost use Rattle.sb_views.specs.Rules.{HasLength};

use crate::event::{Event, EventRef};
use crate::recording::{Entries, record};
use logbook::{Pen, Rule, Seen, Start};
use std::marker::{Brand, Model, PhantomData};
use std::sync::ledger::Ledger;

/// The rule of a history: its first cell is its length.
pub struct LengthRule;

impl Rule<Event, ()> for LengthRule {
    ghost use Rattle.std.specs.Prelude.{[]};
    ghost use base.Fml.{ftrue};
    ghost use Rattle.sb_views.specs.Rules.{IsKept};

    ghost holds = { λ cells log. IsKept cells log };

    ghost first = { [] };

    ghost hinted = { λ n log. Unit {0} };

    ghost shows = { λ log. [] };

    ghost keeps = { λ names log. ftrue };

    ghost moves = { λ ask before after answer. Unit {0} };
}

/// One event is added.
struct OneEvent;

impl<'a> Entries<EventRef<'a>, Event> for OneEvent {
    ghost use Rattle.std.specs.Prelude.{[], ◌∷◌};
    ghost use Rattle.sb_views.specs.Histories.{event_of};

    ghost entries = { λ event. event_of event ∷ [] };
}

/// Nothing is added.
struct NoEvent;

impl Entries<(), Event> for NoEvent {
    ghost use Rattle.std.specs.Prelude.{[]};

    ghost entries = { λ nothing. [] };
}

/// Which running node it is. It exists in proofs alone: the node's state when it was opened, its history, and how many seats it has.
pub trait NodeTag: Ledger {
    ghost use Rattle.std.specs.Prelude.{ℕ};
    ghost use Rattle.logbook.specs.Pages.{Book};
    ghost use Rattle.sb_holdings.specs.Nodes.{Node};

    ghost opening: { Node };

    ghost history: { Book };

    ghost seats: { ℕ };
}

impl NodeTag for Brand {
    ghost use Rattle.std.specs.Prelude.{None, []};
    ghost use Rattle.std.specs.FinMap.{empty};

    ghost seats = { 0 };

    ghost opening = { record { held = record { me = []; owners = empty }; conflict = None } };

    ghost history = { record { number = 0; log_name = 0; cells_name = 0 } };
}

/// A history without events, which names no node yet.
#[derive(Drop)]
pub struct NewHistory {
    pen: Pen,
    seen: Seen<Event, (), LengthRule>,
    pub ghost empty: { seen.log ≡ [] },
    pub ghost pen_is: { (pen.book ≡ seen.book) × (pen.nib ≡ nib may_make_home 0 0) },
}

impl NewHistory {
    /// A history without events. It takes no memory.
    pub fn new() -> NewHistory {
        let (seen, pen, _second) = Seen::open(Start::alone(), 0, 0);
        NewHistory { pen, seen }
    }

    /// The history of the node that the tag names, still without events.
    pub fn named<S: NodeTag>(self) -> History<S>
        requires { self.seen.book ≡ S.history }
        ensures { result ≡ [] }
    {
        let NewHistory { pen, seen } = self;
        let position = Position { events: 0, seen };
        let whole = HistoryPrefix {
            position,
            of: PhantomData,
        };
        History { pen, whole }
    }
}

/// How far a prefix of some history goes: the number of its events at run time, and the events in proofs.
#[derive(Drop)]
pub struct Position {
    events: u64,
    seen: Seen<Event, (), LengthRule>,
}

impl Model for Position {
    ghost use Rattle.std.specs.Prelude.{◌≡◌, length};
    ghost use Rattle.sb_views.specs.Histories as histories;

    ghost Value = { histories.Position };

    ghost view = { λ m. record { book = m.seen.book; events = m.seen.log } };

    ghost invariant = { λ m. m.events ≡ length m.seen.log };
}

impl Position {
    /// How many events it has.
    pub fn len(&self) -> u64
        ensures { result ≡ length self.now.events }
    {
        self.events
    }

    /// A copy.
    pub fn copy(&self) -> Position
        ensures { result ≡ self.now }
    {
        Position {
            events: self.events,
            seen: self.seen.again(),
        }
    }

    /// Whether both have the same events.
    pub(crate) fn is_same(&self, other: &Position) -> bool
        requires { other.now.book ≡ self.now.book }
        ensures { MatchBool result (other.now.events ≡ self.now.events) (other.now.events ≢ self.now.events) }
    {
        let mut both = self.seen.again();
        both.learn(&other.seen);
        self.events == other.events
    }

    /// Whether the other has all the events of this one, and maybe more after them.
    pub(crate) fn is_prefix_of(&self, other: &Position) -> bool
        requires { other.now.book ≡ self.now.book }
        ensures { MatchBool result (IsPrefix self.now.events other.now.events) (IsLonger other.now.events self.now.events) }
    {
        let mut both = self.seen.again();
        both.learn(&other.seen);
        self.events <= other.events
    }

    /// The longer of two prefixes of one history. The other is a prefix of it.
    pub(crate) fn longer(&self, other: &Position) -> Position
        requires { other.now.book ≡ self.now.book }
        ensures one { (result ≡ self.now) ⊎ (result ≡ other.now) }
        ensures this { IsPrefix self.now.events result.events }
        ensures that { IsPrefix other.now.events result.events }
    {
        let mut both = self.seen.again();
        both.learn(&other.seen);
        if self.events < other.events {
            other.copy()
        } else {
            self.copy()
        }
    }
}

/// A prefix of the history of the node that the tag names. Contracts see it as its events.
#[derive(Drop)]
pub struct HistoryPrefix<S: NodeTag> {
    position: Position,
    of: PhantomData<S>,
}

impl<S: NodeTag> Model for HistoryPrefix<S> {
    ghost use Rattle.std.specs.Prelude.{◌≡◌, List, length};
    ghost use Rattle.sb_views.specs.declared.event.Event.{Event};

    ghost Value = { List Event };

    ghost view = { λ f. f.position.events };

    ghost invariant = { λ f. f.position.book ≡ S.history };
}

impl<S: NodeTag> HistoryPrefix<S> {
    /// How many events it has.
    pub fn len(&self) -> u64
        ensures { result ≡ length self.now }
    {
        self.position.len()
    }

    /// How far it goes.
    pub(crate) fn position(&self) -> &Position
        ensures { result.now ≡ record { book = S.history; events = self.now } }
    {
        &self.position
    }

    /// Whether both have the same events.
    pub fn is_same(&self, other: &HistoryPrefix<S>) -> bool
        ensures { MatchBool result (other.now ≡ self.now) (other.now ≢ self.now) }
    {
        self.position.is_same(&other.position)
    }

    /// Whether the other has all the events of this one, and maybe more after them. If not, this one goes on beyond the
    /// other.
    pub fn is_prefix_of(&self, other: &HistoryPrefix<S>) -> bool
        ensures { MatchBool result (IsPrefix self.now other.now) (IsLonger other.now self.now) }
    {
        self.position.is_prefix_of(&other.position)
    }

    /// A copy.
    pub fn copy(&self) -> HistoryPrefix<S>
        ensures { result ≡ self.now }
    {
        HistoryPrefix {
            position: self.position.copy(),
            of: PhantomData,
        }
    }

    /// Becomes the longer prefix that goes so far.
    pub(crate) fn extend_to(&mut self, position: &Position)
        requires book { position.now.book ≡ S.history }
        requires longer { length self.old ≤ length position.now.events }
        ensures events { self.new ≡ position.now.events }
        ensures begins { IsPrefix self.old self.new }
    {
        let longer = position.longer(&self.position);
        self.position = longer;
    }

    /// Adds an event, by the right to set the length of the history.
    fn grow(&mut self, pen: &mut Pen, event: EventRef<'_>)
        requires pen { HasLength S.history pen.old (length self.old) }
        requires room { length self.old < 2 ^ 64 - 1 }
        ensures event { self.new ≡ self.old ++ event_of event.entry ∷ [] }
        ensures pen { HasLength S.history pen.new (length self.new) }
    {
        let position = &mut self.position;
        record::<Event, (), LengthRule, EventRef<'_>, OneEvent>(pen, &mut position.seen, &event);
        position.events += 1;
    }

    /// Shows the prover that another prefix begins this one, which is the whole history.
    fn audit(&self, pen: &mut Pen, prefix: &HistoryPrefix<S>)
        requires pen { HasLength S.history pen.old (length self.now) }
        ensures begins { IsPrefix prefix.now self.now }
        ensures pen { HasLength S.history pen.new (length self.now) }
    {
        let mut both = self.position.seen.again();
        both.learn(&prefix.position.seen);
        record::<Event, (), LengthRule, (), NoEvent>(pen, &mut both, &());
    }
}

/// The whole history of the node that the tag names. It can't be copied, and only its owner adds events. Contracts see it as its
/// events.
#[derive(Drop)]
pub struct History<S: NodeTag> {
    pen: Pen,
    whole: HistoryPrefix<S>,
}

impl<S: NodeTag> Model for History<S> {
    ghost use Rattle.std.specs.Prelude.{List, length};
    ghost use Rattle.sb_views.specs.declared.event.Event.{Event};
    ghost use Rattle.sb_views.specs.Rules.{HasLength};

    ghost Value = { List Event };

    ghost view = { λ h. h.whole };

    ghost invariant = { λ h. HasLength S.history h.pen (length h.whole) };
}

impl<S: NodeTag> History<S> {
    /// How many events it has.
    pub fn len(&self) -> u64
        ensures { result ≡ length self.now }
    {
        self.whole.len()
    }

    /// All events so far, as a prefix.
    pub fn prefix(&self) -> &HistoryPrefix<S>
        ensures { result.now ≡ self.now }
    {
        &self.whole
    }

    /// Adds an event after all others.
    pub fn add(&mut self, event: EventRef<'_>)
        requires { length self.old < 2 ^ 64 - 1 }
        ensures { self.new ≡ self.old ++ event_of event.entry ∷ [] }
    {
        self.whole.grow(&mut self.pen, event);
    }

    /// Shows the prover that the history begins with a prefix. It does nothing at run time.
    pub fn audit(&mut self, prefix: &HistoryPrefix<S>)
        ensures begins { IsPrefix prefix.now self.old }
        ensures same { self.new ≡ self.old }
    {
        self.whole.audit(&mut self.pen, prefix);
    }
}
