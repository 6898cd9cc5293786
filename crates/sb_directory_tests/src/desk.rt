//! A node, with its log and watches. Its calls as data, with what they answer.

use crate::making::{
    Range, commit, commit_removal, delta_of, delta_with_floor, first_of, key, name, node_of,
    prefix, received,
};
use crate::reached::Seated;
use crate::{got, same_at, there};
use sb_budget::Backlog;
use sb_digest::Digest;
use sb_directory::{Difference, DirectoryTag, DirectoryWatch};
use sb_holdings::{BlockEnd, Report};
use sb_log::{Committed, PlainLog, WriteLog};
use sb_table::Table;
use sb_types::{Delta, Fault, Name};
use sb_watch::{Filter, Note, Polled};
use std::alloc::Global;
use std::process::Abort;
use std::sync::Wait;

/// A call of the node a.
#[derive(Clone, Copy)]
pub(crate) enum Call {
    /// The log's next write, under this key, is committed and taken.
    Write(&'static [u8]),
    /// The same of a removal of this key.
    Remove(&'static [u8]),
    /// The log's next write is committed, and not taken.
    Commit(&'static [u8]),
    /// The write that was committed last is taken.
    Take,
    /// The first write of b is taken.
    TakeOfAnother,
    /// A delta of one block is taken: what an owner wrote under these letters, from the version after the number on.
    Delta(&'static [u8], u64, &'static [u8]),
    /// A delta of one block of b with this floor is taken. It has what b wrote under these letters, from its first
    /// version on, up to the second number.
    Floor(u64, u64, &'static [u8]),
    /// A delta of one block of b with this range is taken. It has what b wrote under these letters, from the version after
    /// the number on.
    Part(Range, u64, &'static [u8]),
    /// The node takes the delta of b for its own digest. b has both writes of the log, also one that the node did not take.
    DeltaOfPeer,
    /// A watch of the keys with a prefix is added, with room for so many notes.
    Watch(&'static [u8], usize),
    /// So many watches of all keys are added, each with room for one note.
    Watches(usize),
    /// The watch that was added at this place is dropped.
    Unwatch(usize),
    /// The watch that was added at this place is polled.
    Poll(usize),
    /// The watch that was added at this place is asked whether it has a note, and then whether any watch has one.
    HasNote(usize),
    Refresh,
    Conflict,
    /// The keys of its own table are counted.
    Keys,
    /// The reader enters, and leaves.
    Read,
    /// The reader counts the rows of b.
    Rows,
    /// The reader counts the rows of a.
    OwnRows,
    /// The own table is purged if it has so many removed keys.
    Purge(u64),
    /// A block is audited: what an owner wrote under these letters, from the version after the number on.
    Audit(&'static [u8], u64, &'static [u8]),
    /// The node's own block for a peer that holds nothing is audited.
    AuditOwn,
    /// A digest of all owners is made, and the delta for a peer that holds nothing.
    Tell,
    /// The news is taken, and the delta for a peer with that backlog is made.
    News,
}

/// What a call answers.
#[derive(Clone, Copy, PartialEq, Eq, Debug)]
pub(crate) enum Answer {
    Done,
    /// What happened is shown.
    Shown,
    /// The block ended in this way, and what happened is shown.
    Ended(BlockEnd),
    /// What happened is not shown, because memory was missing.
    NotShown,
    Polled(Polled),
    /// Whether the watch has a note, and whether any has one.
    HasNote(bool, bool),
    Conflict(Option<u64>),
    Keys(usize),
    /// How many events the reader has seen, and how far a and b are held.
    Read(u64, u64, u64),
    Rows(usize),
    /// The new floor, if a purge was due. It is shown.
    Purged(Option<u64>),
    /// The version of the peer's entry that an audit found, and that of the own one, if there is one.
    Audited(Option<u64>, Option<u64>),
    /// How far the digest reports that a and b are held, and how many blocks the delta has.
    Told(u64, u64, usize),
    /// Up to which versions the news says that a and b were held, if it has them. Then how many owners it has, and how many
    /// entries the delta has.
    News(Option<u64>, Option<u64>, usize, usize),
    Refused(Fault),
}

/// A node with its log, the write that was committed last, and its watches.
#[derive(Drop)]
pub(crate) struct Desk<S: DirectoryTag, H: Wait + Drop> {
    node: Seated<S, H>,
    log: PlainLog,
    committed: Option<Committed>,
    watches: Vec<DirectoryWatch<S>>,
    alloc: Global,
}

/// The answer if a watch gives this note.
pub(crate) fn noted(rt: &impl Abort, owner: &[u8], text: &[u8], version: u64) -> Answer {
    Answer::Polled(Polled::Note(Note {
        owner: name(rt, owner),
        key: Some(key(rt, text)),
        version,
    }))
}

/// The answer if a watch gives the note that the table of an owner was replaced, up to this version.
pub(crate) fn cleared(rt: &impl Abort, owner: &[u8], version: u64) -> Answer {
    Answer::Polled(Polled::Note(Note {
        owner: name(rt, owner),
        key: None,
        version,
    }))
}

/// The answer to a call that shows what happened.
fn shown(is_shown: bool, answer: Answer) -> Answer {
    if is_shown { answer } else { Answer::NotShown }
}

/// The answer to a call that enters a write and shows it.
fn entered(entered: Result<bool, Fault>) -> Answer {
    match entered {
        Ok(is_shown) => shown(is_shown, Answer::Shown),
        Err(fault) => Answer::Refused(fault),
    }
}

/// How the only block of a delta ended.
fn ended(rt: &impl Abort, ends: &Report) -> Answer {
    match ends.ends() {
        [end] => Answer::Ended(*end),
        _ => panic!(rt; "error: not one block"),
    }
}

/// The versions of what an audit found.
fn audited(found: &Option<Difference>) -> Answer {
    match found {
        None => Answer::Audited(None, None),
        Some(Difference::Foreign(foreign)) => {
            let own = match &foreign.own {
                Some(own) => Some(own.version()),
                None => None,
            };
            Answer::Audited(Some(foreign.theirs.version()), own)
        }
        Some(Difference::Missing(own)) => Answer::Audited(None, Some(own.version())),
    }
}

/// A filter for all owners.
fn filter_of(rt: &impl Abort, text: &[u8]) -> Filter {
    Filter {
        owner: None,
        prefix: prefix(rt, text),
    }
}

/// The digest of a peer that holds nothing.
fn nothing(rt: &impl Abort, alloc: Global) -> Digest {
    got(rt, Digest::new(false, None, None, Vec::new(alloc)))
}

/// The delta for this digest from a node b, which has both writes of the log of a. It has them from a node that was opened with
/// this log.
fn delta_of_peer(rt: &impl Abort, alloc: Global, log: &mut PlainLog, digest: &Digest) -> Delta {
    let writer = node_of(rt, alloc, b"a", got(rt, log.load(alloc)));
    let told = got(rt, writer.deltas(&nothing(rt, alloc)));
    let mut peer = node_of(rt, alloc, b"b", Table::new(alloc));
    let report = got(rt, peer.apply(&told));
    same_at(
        rt,
        &"b",
        &ended(rt, &report),
        &Answer::Ended(BlockEnd::Taken(2)),
    );
    got(rt, peer.deltas(digest))
}

impl<S: DirectoryTag, H: Wait + Drop> Desk<S, H> {
    /// The desk of a node that was just opened.
    pub(crate) fn new(node: Seated<S, H>, log: PlainLog, alloc: Global) -> Desk<S, H> {
        Desk {
            node,
            log,
            committed: None,
            watches: Vec::new(alloc),
            alloc,
        }
    }

    /// Makes a call. Returns what it answers, or why it is refused.
    pub(crate) fn perform<Q: Wait + Abort>(&mut self, rt: &Q, call: Call) -> Answer {
        match call {
            Call::Write(text) => self.write(rt, text),
            Call::Remove(text) => self.remove(rt, text),
            Call::Commit(text) => self.commit(rt, text),
            Call::Take => self.take(rt),
            Call::TakeOfAnother => self.take_of_another(rt),
            Call::Delta(owner, after, letters) => self.take_delta(rt, owner, after, letters),
            Call::Floor(floor, upto, letters) => self.take_part(rt, (floor, 0, upto), 0, letters),
            Call::Part(range, before, letters) => self.take_part(rt, range, before, letters),
            Call::DeltaOfPeer => self.take_of_peer(rt),
            Call::Watch(text, capacity) => self.watch(rt, text, capacity),
            Call::Watches(count) => self.watch_all(rt, count),
            Call::Unwatch(place) => self.unwatch(rt, place),
            Call::Poll(place) => self.poll(rt, place),
            Call::HasNote(place) => self.has_note(rt, place),
            Call::Refresh => shown(self.node.refresh(rt), Answer::Shown),
            Call::Conflict => Answer::Conflict(self.node.conflict(rt)),
            Call::Keys => Answer::Keys(self.node.key_count(rt)),
            Call::Read => self.read(rt),
            Call::Rows => Answer::Rows(self.node.read(rt).2[1]),
            Call::OwnRows => Answer::Rows(self.node.read(rt).2[0]),
            Call::Purge(least) => self.purge(rt, least),
            Call::Audit(owner, after, letters) => self.audit(rt, owner, after, letters),
            Call::AuditOwn => self.audit_own(rt),
            Call::Tell => self.tell(rt),
            Call::News => self.news(rt),
        }
    }

    fn commit(&mut self, rt: &impl Abort, text: &[u8]) -> Answer {
        self.committed = Some(commit(rt, &mut self.log, text));
        Answer::Done
    }

    fn take<Q: Wait + Abort>(&mut self, rt: &Q) -> Answer {
        match &self.committed {
            Some(write) => entered(self.node.take_own(rt, write)),
            None => panic!(rt; "error: nothing was committed"),
        }
    }

    fn write<Q: Wait + Abort>(&mut self, rt: &Q, text: &[u8]) -> Answer {
        self.commit(rt, text);
        self.take(rt)
    }

    fn remove<Q: Wait + Abort>(&mut self, rt: &Q, text: &[u8]) -> Answer {
        self.committed = Some(commit_removal(rt, &mut self.log, text));
        self.take(rt)
    }

    fn purge<Q: Wait + Abort>(&mut self, rt: &Q, least: u64) -> Answer {
        match self.node.purge(rt, least) {
            Ok(Some((floor, is_shown))) => shown(is_shown, Answer::Purged(Some(floor))),
            Ok(None) => Answer::Purged(None),
            Err(fault) => Answer::Refused(fault),
        }
    }

    fn audit<Q: Wait + Abort>(
        &mut self,
        rt: &Q,
        owner: &[u8],
        after: u64,
        letters: &[u8],
    ) -> Answer {
        let delta = delta_of(rt, self.alloc, owner, after, letters);
        self.audit_delta(rt, &delta)
    }

    fn audit_own<Q: Wait + Abort>(&mut self, rt: &Q) -> Answer {
        let delta = got(rt, self.node.deltas(rt, &nothing(rt, self.alloc)));
        self.audit_delta(rt, &delta)
    }

    /// Audits the first block of a delta.
    fn audit_delta<Q: Wait + Abort>(&mut self, rt: &Q, delta: &Delta) -> Answer {
        let block = there(rt, delta.blocks().first());
        match self.node.audit(rt, block) {
            Ok(found) => audited(&found),
            Err(fault) => Answer::Refused(fault),
        }
    }

    fn take_of_another<Q: Wait + Abort>(&mut self, rt: &Q) -> Answer {
        let write = first_of(rt, self.alloc, b"b", b"x");
        entered(self.node.take_own(rt, &write))
    }

    fn take_delta<Q: Wait + Abort>(
        &mut self,
        rt: &Q,
        owner: &[u8],
        after: u64,
        letters: &[u8],
    ) -> Answer {
        let delta = delta_of(rt, self.alloc, owner, after, letters);
        self.apply(rt, delta)
    }

    fn take_part<Q: Wait + Abort>(
        &mut self,
        rt: &Q,
        range: Range,
        before: u64,
        letters: &[u8],
    ) -> Answer {
        let delta = delta_with_floor(rt, self.alloc, range, before, letters);
        self.apply(rt, delta)
    }

    fn take_of_peer<Q: Wait + Abort>(&mut self, rt: &Q) -> Answer {
        let digest = got(rt, self.node.digest(rt, true));
        let delta = delta_of_peer(rt, self.alloc, &mut self.log, &digest);
        self.apply(rt, delta)
    }

    fn apply<Q: Wait + Abort>(&mut self, rt: &Q, delta: Delta) -> Answer {
        let delta = received(rt, self.alloc, delta);
        match self.node.apply(rt, &delta) {
            Ok((ends, is_shown)) => shown(is_shown, ended(rt, &ends)),
            Err(fault) => Answer::Refused(fault),
        }
    }

    fn watch<Q: Wait + Abort>(&mut self, rt: &Q, text: &[u8], capacity: usize) -> Answer {
        match self.node.watch(rt, filter_of(rt, text), capacity) {
            Ok(watch) => {
                got(rt, self.watches.push(watch));
                Answer::Done
            }
            Err(fault) => Answer::Refused(fault),
        }
    }

    fn watch_all<Q: Wait + Abort>(&mut self, rt: &Q, count: usize) -> Answer {
        for _ in 0..count {
            let answer = self.watch(rt, b"", 1);
            if answer != Answer::Done {
                return answer;
            }
        }
        Answer::Done
    }

    fn unwatch<Q: Wait + Abort>(&mut self, rt: &Q, place: usize) -> Answer {
        let watch = there(rt, self.watches.get(place));
        match self.node.unwatch(rt, watch) {
            Ok(()) => Answer::Done,
            Err(fault) => Answer::Refused(fault),
        }
    }

    fn poll<Q: Wait + Abort>(&mut self, rt: &Q, place: usize) -> Answer {
        let watch = there(rt, self.watches.get_mut(place));
        match self.node.poll(rt, watch) {
            Ok(polled) => Answer::Polled(polled),
            Err(fault) => Answer::Refused(fault),
        }
    }

    fn has_note<Q: Wait + Abort>(&mut self, rt: &Q, place: usize) -> Answer {
        let watch = there(rt, self.watches.get(place));
        match self.node.has_note(rt, watch) {
            Ok((one, any)) => Answer::HasNote(one, any),
            Err(fault) => Answer::Refused(fault),
        }
    }

    fn read(&mut self, rt: &impl Abort) -> Answer {
        let (events, [of_a, of_b], _) = self.node.read(rt);
        Answer::Read(events, of_a, of_b)
    }

    fn tell<Q: Wait + Abort>(&mut self, rt: &Q) -> Answer {
        let (of_a, of_b) = self.told(rt);
        Answer::Told(of_a, of_b, self.blocks_for_nothing(rt))
    }

    fn news<Q: Wait + Abort>(&mut self, rt: &Q) -> Answer {
        let backlog = self.node.take_news(rt);
        let delta = got(rt, self.node.news(rt, &backlog));
        let (of_a, of_b) = (name(rt, b"a"), name(rt, b"b"));
        Answer::News(
            version_in(&backlog, of_a),
            version_in(&backlog, of_b),
            owners_in(&backlog),
            entries_in(&delta),
        )
    }

    /// How far the digest of all owners reports that a and b are held.
    fn told<Q: Wait + Abort>(&mut self, rt: &Q) -> (u64, u64) {
        let digest = got(rt, self.node.digest(rt, true));
        (
            digest.start(&name(rt, b"a"), 0, 0).after,
            digest.start(&name(rt, b"b"), 0, 0).after,
        )
    }

    /// How many blocks the delta has for a peer that holds nothing.
    fn blocks_for_nothing<Q: Wait + Abort>(&mut self, rt: &Q) -> usize {
        let delta = got(rt, self.node.deltas(rt, &nothing(rt, self.alloc)));
        delta.blocks().len()
    }
}

/// The version of an owner in a backlog, if it is there.
fn version_in(backlog: &Backlog, wanted: Name) -> Option<u64> {
    let mut found = None;
    for (owner, version) in backlog.owners() {
        if *owner == wanted {
            found = Some(*version);
        }
    }
    found
}

/// How many owners are in a backlog.
fn owners_in(backlog: &Backlog) -> usize {
    let mut count: usize = 0;
    for _ in backlog.owners() {
        count = count.saturating_add(1);
    }
    count
}

/// How many entries a delta has.
fn entries_in(delta: &Delta) -> usize {
    let mut count: usize = 0;
    for block in delta.blocks() {
        count = count.saturating_add(block.entries().len());
    }
    count
}

/// Ends the test if memory was missing for a call, for a block, or to show what happened.
fn has_memory(rt: &impl Abort, answer: Answer) {
    match answer {
        Answer::NotShown
        | Answer::Ended(BlockEnd::NoMemory(_))
        | Answer::Refused(Fault::NoMemory) => panic!(rt; "error: NoMemory"),
        _ => {}
    }
}

/// A call, and what it answers.
pub(crate) type Case = (Call, Answer);

/// Tests that these calls have these answers, one after another.
pub(crate) fn play<S: DirectoryTag, H: Wait + Drop, R: Wait + Abort>(
    rt: &R,
    desk: &mut Desk<S, H>,
    cases: &[Case],
) {
    for (index, (call, wanted)) in cases.iter().enumerate() {
        let found = desk.perform(rt, *call);
        has_memory(rt, found);
        same_at(rt, &("at call", index), &found, wanted);
    }
}
