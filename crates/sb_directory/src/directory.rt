//! The directory: a node that threads share.
ghost use Rattle.std.specs.Prelude.{◌≡◌, ◌≢◌, ◌≤◌, ◌+◌, ◌++◌, ◌∷◌, List, [], true, length, replicate, if◌then◌else◌, None, Ok, Err, MatchResult, IfOk, IfErr, IfSome, IsSome, OnOk, OnErr};
ghost use Rattle.std.specs.Option.{option_map};
ghost use mathlib.Core.List.{IsPrefix};
ghost use Rattle.sb_types.specs.Faults.{Gives};
ghost use Rattle.sb_holdings.specs.Held.{shown_of};
ghost use Rattle.sb_holdings.specs.Treats.{Treats};
ghost use Rattle.sb_budget.specs.Backlogs.{digest_since};
ghost use Rattle.sb_session.specs.Handlers.{tells, gives, IsRefusal};
ghost use Rattle.sb_node.specs.Cores.{own_keys};
ghost use Rattle.sb_views.specs.Histories.{node_after};
ghost use Rattle.sb_views.specs.declared.event.Event.{Event};
ghost use Rattle.sb_views.specs.declared.event.Event.TheVariants as events;
ghost use Rattle.sb_watch.specs.declared.note.Polled.TheVariants as answers;
ghost use Rattle.sb_watch.specs.declared.note.Note.{Note};
ghost use Rattle.sb_watch.specs.Records.{Hub};
ghost use Rattle.sb_watch.specs.Hubs.{new_hub, has_watch, answer_at, with_answer};
ghost use Rattle.sb_directory.specs.Audits.{Audits, RefusesMark};
ghost use Rattle.sb_directory.specs.Purging as purging;
ghost use Rattle.sb_directory.specs.Seats as spec;
ghost use Rattle.sb_directory.specs.Serving.{AnswersAfter};
ghost use Rattle.sb_directory.specs.Watching.{SaysOf, reports, watch_after, watch_given};

use crate::difference::Difference;
use crate::directory_watch::DirectoryWatch;
use crate::receipt::{Applied, Closing, Purge, Receipt};
use crate::seat::ReaderSeat;
use crate::shares::seat_all;
use crate::tag::DirectoryTag;
use crate::viewed_node::ViewedNode;
use sb_budget::Backlog;
use sb_digest::Digest;
use sb_log::Committed;
use sb_node::NodeCore;
use sb_session::ReceivedDelta;
use sb_types::{Block, Delta, Fault, Name, SEATS_MOST, Settings};
use sb_views::{NewHistory, views};
use sb_watch::{Filter, Polled};
use std::alloc::Global;
use std::marker::PhantomData;
use std::sync::ledger::Blank;
use std::sync::{Mutex, Wait};

/// What never changes: how many seats there are, and the settings and the name of the node.
#[derive(Drop)]
struct Identity<S: DirectoryTag> {
    seats: usize,
    settings: Settings,
    name: Name,
    of: PhantomData<S>,
    ghost all: { seats ≡ S.seats },
    ghost set: { settings ≡ S.settings },
    ghost named: { name ≡ S.opening.held.me },
}

/// A node that threads share, each from a seat of its own. Each call but `settings` and `name` takes the one lock. It guards the node,
/// its watches and the writing of its views. Reading from a seat that has entered takes no lock. No call waits while it has the lock,
/// except to publish: then it waits for readers that entered before the last publish. A call from a seat is answered as the node is
/// after its history up to then. That history begins with what the seat has seen and with its last call, and is the seat's last call
/// from then on. Each seat's history is a `HistoryPrefix` of the one history, so of two seats' histories one begins the other. No
/// seat enters a view from before the history of its last answer (`knowledge`). If a call makes an event, that history is without the event.
/// Calls that only ask publish what was not published yet, if there is memory. Once the
/// directory is closed, the history has as many events as the calls of all seats made. The example at the top of the crate makes a
/// directory, writes from a seat, reads what it wrote, and closes the directory.
#[derive(Drop)]
pub struct Directory<S: DirectoryTag, R: Wait + Drop> {
    node: Mutex<ViewedNode<S, R>>,
    identity: Identity<S>,
}

impl<S: DirectoryTag, R: Wait + Drop> Directory<S, R> {
    /// A directory of a node as it was opened, and its seats, which have seen nothing. `history` is a `NewHistory::new()` and
    /// `blank` a `Blank::new(seats)`: by these, proofs name the node's events and count them by seat. It keeps `rt` to wait for
    /// readers that still read when it publishes. `BadSetting` if there are not 1 to 64 seats; `NoMemory`. Each fault drops what was
    /// given.
    pub fn make(
        rt: R,
        alloc: Global,
        history: NewHistory,
        blank: Blank,
        core: NodeCore,
        seats: usize,
    ) -> Result<(Directory<S, R>, Vec<ReaderSeat<S>>), Fault>
        requires history { history.seen.book ≡ S.history }
        requires opening { S.opening ≡ core.node }
        requires settings { S.settings ≡ core.settings }
        requires name { blank.name ≡ S.name }
        requires parts { blank.parts ≡ S.parts }
        requires all { (seats ≡ S.seats) × (seats ≡ S.parts) }
        ensures seats { IfOk result (λ made. made.1.items ≡ replicate seats (spec.new_seat [])) }
        ensures answer { IfErr result (λ fault. fault ≢ Fault.NoMemory → spec.seats_due seats ≡ Err fault) }
        ensures refused { IfErr (spec.seats_due seats) (λ fault. result ≡ Err fault) }
    {
        if seats < 1 || seats as u64 > SEATS_MOST {
            return Err(Fault::BadSetting);
        }
        let identity = Identity {
            seats,
            settings: core.settings(),
            name: *core.name(),
            of: PhantomData,
        };
        let history = history.named::<S>();
        let start = history.prefix().copy();
        let (writer, readers) = views::<S, R>(alloc, rt, start, core.holdings(), seats)?;
        let (book, mut rest) = blank.open::<S>();
        let made = seat_all(alloc, readers, &mut rest)?;
        let node = ViewedNode::new(alloc, core, history, writer, book, rest);
        Ok((Directory::of(node, identity), made))
    }

    /// The directory of a node to which nothing happened yet.
    fn of(node: ViewedNode<S, R>, identity: Identity<S>) -> Directory<S, R>
        requires history { node.history ≡ [] }
        requires hub { node.hub ≡ new_hub }
        requires watches { node.watches ≡ [] }
    {
        Directory {
            node: Mutex::new(node),
            identity,
        }
    }

    /// The settings of the node. It takes no lock.
    pub fn settings(&self) -> &Settings
        ensures { result.now ≡ S.settings }
    {
        &self.identity.settings
    }

    /// The name of the node. It takes no lock.
    pub fn name(&self) -> &Name
        ensures { result.now ≡ S.opening.held.me }
    {
        &self.identity.name
    }

    /// Enters a committed write of the node's own, notes it in watches, and publishes all that happened. It gives the write's
    /// version, and says whether the seat has seen it. If it has not, the next call that publishes makes up for it. Its faults, in
    /// this order:
    ///
    /// - `WrongOwner` if the write is another's.
    /// - `OwnerConflict` if a block came with a version under the own name that the node never gave.
    /// - `OutOfTurn` if the write does not have the next version.
    /// - `TableFull` if its key is new and the table has 4,096 others, removed ones counted.
    /// - `TurnsSpent` after 2^64 - 1 events.
    /// - `NoMemory`.
    ///
    /// Each changes nothing except the seat's last call.
    pub fn take_own<Q: Wait>(
        &self,
        rt: &Q,
        seat: &mut ReaderSeat<S>,
        committed: &Committed,
    ) -> Result<Receipt, Fault>
        ensures event { IfOk result (λ _. spec.MakesEvent (λ history. spec.own_due_after S.opening history committed.now)
            (events.TookOwn committed.now.entry) seat.old seat.new) }
        ensures shown { IfOk result (λ receipt. receipt.shown ≡ true → seat.new.seen ≡ seat.new.last_call) }
        ensures refused { IfErr result (spec.Refuses (spec.own_due_after S.opening seat.new.last_call committed.now)) }
        ensures begins { OnErr result (spec.Begins seat.new.last_call seat.old) }
        ensures seat { OnErr result (seat.new ≡ spec.with_last_call seat.old seat.new.last_call) }
        ensures count { OnOk result (seat.new.events ≡ seat.old.events + 1) }
        ensures knows { IsPrefix seat.old.knowledge seat.new.knowledge }
        ensures grows { IsPrefix seat.old.seen seat.new.seen }
        ensures version { IfOk result (λ receipt. receipt.version ≡ committed.now.entry.version) }
    {
        self.node.lock(rt).take_own(seat, committed)
    }

    /// Takes each block of a delta that a peer sent in turn, and publishes all that happened. It notes each entry that it entered in watches,
    /// and each table that it replaced. It gives how the blocks ended, and says whether the seat has seen it. If it has not,
    /// the next call that publishes makes up for it.
    /// `TurnsSpent` after 2^64 - 1 events; `NoMemory` if there is no room for the ends, or to note whose writes watches and views
    /// lack. Each changes nothing except the seat's last call.
    pub fn apply<Q: Wait>(
        &self,
        rt: &Q,
        seat: &mut ReaderSeat<S>,
        delta: &ReceivedDelta,
    ) -> Result<Applied, Fault>
        ensures event { IfOk result (λ applied. (made : spec.MakesEvent spec.delta_due_after (events.Applied delta.now applied.ends) seat.old seat.new)
            × Treats (node_after S.opening made.history) delta.now applied.ends) }
        ensures shown { IfOk result (λ applied. applied.shown ≡ true → seat.new.seen ≡ seat.new.last_call) }
        ensures refused { IfErr result (spec.Refuses (spec.delta_due_after seat.new.last_call)) }
        ensures fault { IfErr result IsRefusal }
        ensures begins { OnErr result (spec.Begins seat.new.last_call seat.old) }
        ensures seat { OnErr result (seat.new ≡ spec.with_last_call seat.old seat.new.last_call) }
        ensures count { OnOk result (seat.new.events ≡ seat.old.events + 1) }
        ensures knows { IsPrefix seat.old.knowledge seat.new.knowledge }
        ensures grows { IsPrefix seat.old.seen seat.new.seen }
    {
        self.node.lock(rt).apply(seat, delta.delta())
    }

    /// Purges the node's own table if that is due, and then publishes all that happened. It is due if the table has `least` removed
    /// keys, or if it is full and has 64 of them. If `least` is 0, it never is. Then the older half of the removed keys goes:
    /// those up to the version of the middle one, which becomes the purge floor. Readers and watches see no difference.
    ///
    /// It returns the new floor, and whether the seat has seen the purge. If it has not, the next call that publishes makes up for it.
    /// If no purge is due it returns `None`, and changes nothing except the seat's last call. Its faults, in this order, change nothing
    /// else either:
    ///
    /// - `TurnsSpent` after 2^64 - 1 events.
    /// - `NoMemory`.
    ///
    /// It takes one step for each key. It publishes all own rows, and takes memory in proportion to them.
    pub fn purge<Q: Wait>(
        &self,
        rt: &Q,
        seat: &mut ReaderSeat<S>,
        least: u64,
    ) -> Result<Option<Purge>, Fault>
        ensures purges { IfOk result (λ purge. purging.Purges S.opening least seat.old (option_map (λ p. p.floor) purge) seat.new) }
        ensures shown { IfOk result (λ purge. IfSome purge (λ p. p.shown ≡ true → seat.new.seen ≡ seat.new.last_call)) }
        ensures still { result ≡ Ok None → seat.new ≡ spec.with_last_call seat.old seat.new.last_call }
        ensures refused { IfErr result (spec.Refuses (purging.purge_due_after S.opening least seat.new.last_call)) }
        ensures due { OnErr result (IsSome (purging.own_due_floor least (node_after S.opening seat.new.last_call))) }
        ensures begins { OnErr result (spec.Begins seat.new.last_call seat.old) }
        ensures seat { OnErr result (seat.new ≡ spec.with_last_call seat.old seat.new.last_call) }
        ensures knows { IsPrefix seat.old.knowledge seat.new.knowledge }
        ensures grows { IsPrefix seat.old.seen seat.new.seen }
    {
        self.node.lock(rt).purge(seat, least)
    }

    /// Compares a block of the own name, which a peer holds, with the node's own table, and returns the first difference. If there is
    /// one, another node or an older copy of the log writes under this name. So the name is in conflict from then on, as after a
    /// block with a version that the node never gave. `None` if there is no difference, or if the block is of another owner.
    ///
    /// The block has to be made before the call, by a node that holds no later writes of this name than this one. Then no write of the
    /// node's own log is a difference, whatever was purged since: see the laws of `sb_audit`.
    ///
    /// A name that is not in conflict is marked by an event: the node applies a delta of its own. It has one block without entries,
    /// from the own held version to the next. This enters nothing, and the version of the conflict is that next one. Its faults, which
    /// change nothing but the seat's last call:
    ///
    /// - `TurnsSpent` after 2^64 - 1 events, or if the own held version is 2^64 - 1. A name that is in conflict has neither.
    /// - `NoMemory`.
    ///
    /// Each entry of the block takes two look-ups, and so does each own entry in its range.
    pub fn audit<Q: Wait>(
        &self,
        rt: &Q,
        seat: &mut ReaderSeat<S>,
        block: &Block,
    ) -> Result<Option<Difference>, Fault>
        ensures audits { IfOk result (λ found. Audits S.opening block.now seat.old found seat.new) }
        ensures disputed { IfOk result (λ found. IfSome found (λ _. IsSome (node_after S.opening seat.new.last_call).conflict)) }
        ensures refused { IfErr result (RefusesMark S.opening seat.new.last_call) }
        ensures fault { IfErr result IsRefusal }
        ensures still { result ≡ Ok None → seat.new ≡ spec.with_last_call seat.old seat.new.last_call }
        ensures begins { OnErr result (spec.Begins seat.new.last_call seat.old) }
        ensures seat { OnErr result (seat.new ≡ spec.with_last_call seat.old seat.new.last_call) }
        ensures knows { IsPrefix seat.old.knowledge seat.new.knowledge }
        ensures grows { IsPrefix seat.old.seen seat.new.seen }
    {
        self.node.lock(rt).audit(seat, block)
    }

    /// The digest of the owners from a name on, or of all, as of the node. `want` says whether a digest is wanted in answer.
    /// `NoMemory`. Either way it is the seat's last call.
    pub fn digest<Q: Wait>(
        &self,
        rt: &Q,
        seat: &mut ReaderSeat<S>,
        from: Option<Name>,
        want: bool,
    ) -> Result<Digest, Fault>
        ensures answer { AnswersAfter S.opening S.settings seat.new.last_call (tells from want result) }
        ensures begins { spec.Begins seat.new.last_call seat.old }
        ensures knows { IsPrefix seat.old.knowledge seat.new.knowledge }
        ensures seat { seat.new ≡ spec.with_last_call seat.old seat.new.last_call }
        ensures memory { IfErr result (λ fault. fault ≡ Fault.NoMemory) }
    {
        let mut node = self.node.lock(rt);
        node.note_question(seat);
        node.core().digest(from, want)
    }

    /// What a peer that sent this digest lacks, as of the node. `NoMemory`. Either way it is the seat's last call.
    pub fn deltas<Q: Wait>(
        &self,
        rt: &Q,
        seat: &mut ReaderSeat<S>,
        digest: &Digest,
    ) -> Result<Delta, Fault>
        ensures answer { AnswersAfter S.opening S.settings seat.new.last_call (gives digest.now result) }
        ensures begins { spec.Begins seat.new.last_call seat.old }
        ensures knows { IsPrefix seat.old.knowledge seat.new.knowledge }
        ensures seat { seat.new ≡ spec.with_last_call seat.old seat.new.last_call }
        ensures memory { IfErr result (λ fault. fault ≡ Fault.NoMemory) }
    {
        let mut node = self.node.lock(rt);
        node.note_question(seat);
        node.core().deltas(digest)
    }

    /// Takes the news: the owners whose held version rose since the last call, or since the directory was made. Each has
    /// the version up to which it was held then. Writes that are in a stage are not held yet. An owner is missing if there was no
    /// memory for it. It takes no memory, and is not noted as a call of a seat.
    pub fn take_news<Q: Wait>(&self, rt: &Q) -> Backlog {
        self.node.lock(rt).take_news()
    }

    /// What a peer with this backlog lacks, as of the node. Such a peer has all that the node holds, but of each owner in the backlog
    /// only what is up to its version there. So this is the answer to the peer's digest. An owner whose floor is above its version in
    /// the backlog is left out. The backlog may have anything in it. `NoMemory`. Either way it is the seat's last call.
    pub fn news<Q: Wait>(
        &self,
        rt: &Q,
        seat: &mut ReaderSeat<S>,
        backlog: &Backlog,
    ) -> Result<Delta, Fault>
        ensures answer { AnswersAfter S.opening S.settings seat.new.last_call
            (gives (digest_since (node_after S.opening seat.new.last_call).held backlog.now) result) }
        ensures begins { spec.Begins seat.new.last_call seat.old }
        ensures knows { IsPrefix seat.old.knowledge seat.new.knowledge }
        ensures seat { seat.new ≡ spec.with_last_call seat.old seat.new.last_call }
        ensures memory { IfErr result (λ fault. fault ≡ Fault.NoMemory) }
    {
        let mut node = self.node.lock(rt);
        node.note_question(seat);
        node.core().news(backlog)
    }

    /// The greatest version under the own name with which a block came and that the node never wrote; none if no block did. It is the
    /// seat's last call.
    pub fn conflict<Q: Wait>(&self, rt: &Q, seat: &mut ReaderSeat<S>) -> Option<u64>
        ensures answer { result ≡ (node_after S.opening seat.new.last_call).conflict }
        ensures begins { spec.Begins seat.new.last_call seat.old }
        ensures knows { IsPrefix seat.old.knowledge seat.new.knowledge }
        ensures seat { seat.new ≡ spec.with_last_call seat.old seat.new.last_call }
    {
        let mut node = self.node.lock(rt);
        node.note_question(seat);
        node.core().conflict()
    }

    /// How many keys the node's own table has, removed ones counted. It is the seat's last call.
    pub fn key_count<Q: Wait>(&self, rt: &Q, seat: &mut ReaderSeat<S>) -> usize
        ensures answer { result ≡ own_keys (node_after S.opening seat.new.last_call) }
        ensures begins { spec.Begins seat.new.last_call seat.old }
        ensures knows { IsPrefix seat.old.knowledge seat.new.knowledge }
        ensures seat { seat.new ≡ spec.with_last_call seat.old seat.new.last_call }
    {
        let mut node = self.node.lock(rt);
        node.note_question(seat);
        node.core().key_count()
    }

    /// Adds a watch with room for 1 to 1,024 notes. It reports each change from here on that its filter is for: of a key, or of a
    /// table that was replaced. Any seat may poll it. `BadSetting` if the room is outside these; `WatchesFull` if there are 64
    /// watches, or all ids were used; `NoMemory`. Each leaves everything as it was.
    pub fn watch<Q: Wait>(
        &self,
        rt: &Q,
        filter: Filter,
        capacity: usize,
    ) -> Result<DirectoryWatch<S>, Fault>
        ensures { (hub : Hub) × (history : List Event) × Gives result (watch_given hub filter capacity history)
            × ((fault : Fault) → watch_given hub filter capacity history ≡ Err fault → result ≡ Err fault) }
    {
        self.node.lock(rt).watch(filter, capacity)
    }

    /// Whether any watch has a note. It takes no memory, and is not noted as a call of a seat.
    pub fn has_notes<Q: Wait>(&self, rt: &Q) -> bool {
        self.node.lock(rt).has_notes()
    }

    /// Publishes all that happened, and says whether anything changed that a watch is for. So whoever reads then sees the change.
    /// What counts is what came since the watch was added, or since a poll left it without notes. It is not noted as a call of a
    /// seat, so its clause names no moment. Its faults:
    ///
    /// - `NoWatch` if it is not a watch of this directory. Nothing is published.
    /// - `NoMemory` if there is none to publish what happened.
    pub fn has_note<Q: Wait>(&self, rt: &Q, watch: &DirectoryWatch<S>) -> Result<bool, Fault>
        ensures says { IfOk result (λ has_note. (history : List Event) × SaysOf S.opening history watch.now has_note) }
        ensures fault { IfErr result (λ fault. fault ≢ Fault.NoWatch → fault ≡ Fault.NoMemory) }
    {
        self.node.lock(rt).has_note(watch)
    }

    /// Drops a watch with its notes. `NoWatch` if it is not a watch of this directory, which changes nothing.
    pub fn unwatch<Q: Wait>(&self, rt: &Q, watch: &DirectoryWatch<S>) -> Result<(), Fault>
        ensures { (hub : Hub) × (result ≡ (if has_watch hub watch.now.id then Ok tt else Err Fault.NoWatch)) }
    {
        self.node.lock(rt).unwatch(watch.id())
    }

    /// Publishes all that happened, and says whether the seat has seen it. Then it has seen at least as many events as its own calls
    /// made. If there is no memory to publish it, what is published stays. If the seat can't enter, it is published all the same.
    /// Either way it is the seat's last call.
    pub fn refresh<Q: Wait>(&self, rt: &Q, seat: &mut ReaderSeat<S>) -> bool
        ensures seen { result ≡ true → seat.new.seen ≡ seat.new.last_call }
        ensures begins { spec.Begins seat.new.last_call seat.old }
        ensures made { result ≡ true → seat.new.events ≤ length seat.new.seen }
        ensures knows { IsPrefix seat.old.knowledge seat.new.knowledge }
        ensures grows { IsPrefix seat.old.seen seat.new.seen }
        ensures count { seat.new.events ≡ seat.old.events }
    {
        self.node.lock(rt).refresh(seat)
    }

    /// Publishes all that happened, lets the seat see it, and gives the watch's next answer, one a call. If the watch lost notes
    /// since its last `Lagged`, the answer is `Lagged` with how many. Else it is `Note` with its oldest note, which it then no longer
    /// has; else `Empty`. It is `Empty` exactly if nothing that the watch is for changed since it was added, or since a poll left it
    /// without notes. A watch that has no note left begins again after this call. Either way it is the seat's last call. Its faults:
    ///
    /// - `NoWatch` if it is not a watch of this directory. Nothing is published, and nothing else changes.
    /// - `NoMemory` if there is none to publish what happened, or the seat can't enter. Then the note is still to come.
    pub fn poll<Q: Wait>(
        &self,
        rt: &Q,
        seat: &mut ReaderSeat<S>,
        watch: &mut DirectoryWatch<S>,
    ) -> Result<Polled, Fault>
        ensures answer { OnOk result ((hub : Hub) × (result ≡ answer_at hub watch.old.id)) }
        ensures says { IfOk result (λ polled. SaysOf S.opening seat.new.last_call watch.old (reports polled)) }
        ensures fault { IfErr result (λ fault. fault ≢ Fault.NoWatch → fault ≡ Fault.NoMemory) }
        ensures watch { OnOk result ((hub : Hub) × (result ≡ answer_at hub watch.old.id) × (watch.new ≡ watch_after (with_answer hub watch.old.id) seat.new.last_call watch.old)) }
        ensures err { OnErr result (watch.new ≡ watch.old) }
        ensures seat { result ≡ Err Fault.NoWatch → seat.new ≡ spec.with_last_call seat.old seat.new.last_call }
        ensures held { (note : Note) → result ≡ Ok (answers.Note note) → note.version ≤ (shown_of (node_after S.opening seat.new.seen).held note.owner).held }
        ensures seen { OnOk result (seat.new.seen ≡ seat.new.last_call) }
        ensures begins { spec.Begins seat.new.last_call seat.old }
        ensures made { OnOk result (seat.new.events ≤ length seat.new.seen) }
        ensures knows { IsPrefix seat.old.knowledge seat.new.knowledge }
        ensures grows { IsPrefix seat.old.seen seat.new.seen }
        ensures count { seat.new.events ≡ seat.old.events }
    {
        self.node.lock(rt).poll(seat, watch)
    }

    /// Ends a directory, and gives its node, whose settings are as they were, with the number of events. `BadSetting` if these are
    /// not all of its seats: then it gives directory and seats back as they were.
    pub fn close<Q: Wait>(
        self,
        _rt: &Q,
        seats: Vec<ReaderSeat<S>>,
    ) -> Result<Closing, (Fault, Directory<S, R>, Vec<ReaderSeat<S>>)>
        requires { S.seats ≡ S.parts }
        ensures closed { IfOk result (λ closing. (l : List Event) × (closing.core.node ≡ node_after S.opening l) × (closing.events ≡ length l)
            × (closing.events ≡ spec.events_of_all seats.items) × spec.AllBegin l seats.items) }
        ensures settings { IfOk result (λ closing. closing.core.settings ≡ S.settings) }
        ensures refused { IfErr result (λ back. (back.0 ≡ Fault.BadSetting) × (back.2.items ≡ seats.items)) }
        ensures all { MatchResult result (λ _. length seats.items ≡ S.seats) (λ _. length seats.items ≢ S.seats) }
    {
        if seats.len() != self.identity.seats {
            return Err((Fault::BadSetting, self, seats));
        }
        let Self {
            node,
            identity: _identity,
        } = self;
        Ok(node.into_inner().close(seats))
    }
}
