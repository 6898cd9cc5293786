//! The callers that wait for a change. None of them holds a thread: their connections wait in the poll of the thread that accepts.
ghost use Rattle.std.specs.Prelude.{◌<◌, length, IfSome};

use crate::accepting::{deadline_after, earlier};
use crate::control::refused_by;
use crate::dialer::RoundsTag;
use crate::threads::NodeContext;
use mio::net::UnixStream;
use mio::{Interest, Registry, Token};
use sb_codec::{AskChange, Message, Notice};
use sb_directory::DirectoryWatch;
use sb_frames::send;
use sb_types::Fault;
use sb_watch::Filter;
use std::alloc::Global;
use std::io;
use std::io::Read;
use std::sync::Wait;
use std::sync::atomic::{AtomicU64, Ordering};
use std::time::{Clock, Instant};

/// How long a caller waits for a change at the most, in milliseconds: an hour.
const WAIT_MOST: u64 = 3_600_000;

/// How many notes the watch of a caller has room for: one says that something changed.
const NOTES_OF_ONE: usize = 1;

/// How many callers wait for a change, for the threads that make one.
#[derive(Drop)]
pub(crate) struct WatcherCount {
    count: AtomicU64,
}

impl WatcherCount {
    /// Nobody waits.
    pub(crate) fn new() -> WatcherCount {
        WatcherCount {
            count: AtomicU64::new(0),
        }
    }

    /// One more waits.
    fn add(&self) {
        self.count.fetch_add(1, Ordering::SeqCst);
    }

    /// One fewer waits.
    fn remove(&self) {
        self.count.fetch_sub(1, Ordering::SeqCst);
    }

    /// Whether anybody waits.
    fn is_any(&self) -> bool {
        self.count.load(Ordering::SeqCst) > 0
    }
}

/// A caller that waits for a change.
#[derive(Drop)]
struct Watcher<S: RoundsTag> {
    number: usize,
    stream: UnixStream,
    watch: DirectoryWatch<S>,
    /// When its time is over; never if the clock could not be read.
    until: Option<Instant>,
}

impl<S: RoundsTag> Watcher<S> {
    /// Whether its time is over.
    fn is_late(&self, now: Option<Instant>) -> bool {
        match (self.until, now) {
            (Some(until), Some(now)) => until <= now,
            _ => false,
        }
    }

    /// Whether the caller has left, or sends more. It is to send nothing.
    fn has_left(&self) -> bool {
        let mut byte = [0u8; 1];
        let mut stream = &self.stream;
        match stream.read(&mut byte) {
            Ok(_) => true,
            Err(error) => error.kind() != io::ErrorKind::WouldBlock,
        }
    }

    /// Has the registry report the connection again. `ReadFailed`.
    fn wait_on(&mut self, registry: &Registry) -> Result<(), Fault> {
        let token = Token(self.number);
        match registry.reregister(&mut self.stream, token, Interest::READABLE) {
            Ok(()) => Ok(()),
            Err(_) => Err(Fault::ReadFailed),
        }
    }

    /// Sends the caller a message without waiting: it is short enough for the buffer of a socket.
    fn tell(&self, alloc: Global, message: &Message) -> Result<(), Fault> {
        let mut stream = &self.stream;
        send(alloc, &mut stream, message)
    }
}

/// The callers that wait for a change, each with a watch of its own. The directory has no more than 64.
#[derive(Drop)]
pub(crate) struct WatcherList<S: RoundsTag> {
    all: Vec<Watcher<S>>,
}

impl<S: RoundsTag> WatcherList<S> {
    /// Nobody waits.
    pub(crate) fn new(alloc: Global) -> WatcherList<S> {
        WatcherList {
            all: Vec::new(alloc),
        }
    }

    /// Watches for a caller, reports that to it, and lets it wait. If the directory has no watch for it, it gets that fault, and its
    /// connection is closed. `ReadFailed`, `WriteFailed` or `NoMemory` if it cannot get an answer; each closes its connection.
    pub(crate) fn admit<H: Wait + Drop, Q: Wait + Clock>(
        &mut self,
        node: &NodeContext<S, H, Q>,
        registry: &Registry,
        number: usize,
        asked: &AskChange,
        stream: UnixStream,
    ) -> Result<(), Fault> {
        self.all.reserve(1)?;
        // Who changes something after the watch is there finds that somebody waits.
        node.watchers.add();
        let filter = Filter {
            owner: asked.owner,
            prefix: asked.prefix,
        };
        let watch = match node.directory.watch(node.rt, filter, NOTES_OF_ONE) {
            Ok(watch) => watch,
            Err(fault) => {
                node.watchers.remove();
                let mut stream = &stream;
                return send(node.alloc, &mut stream, &refused_by(fault));
            }
        };
        let until = deadline_after(node.rt, asked.wait.max(1).min(WAIT_MOST));
        let mut watcher = Watcher {
            number,
            stream,
            watch,
            until,
        };
        match begin(node, registry, &mut watcher) {
            Ok(()) => {
                self.all.push(watcher)?;
                Ok(())
            }
            Err(fault) => {
                node.forget_watch(&watcher.watch);
                Err(fault)
            }
        }
    }

    /// Closes the connection of this number, if there is one, if its caller has left, or if it cannot be waited for any more.
    pub(crate) fn hear<H: Wait + Drop, Q: Wait>(
        &mut self,
        node: &NodeContext<S, H, Q>,
        registry: &Registry,
        number: usize,
    ) {
        let Some(place) = place_of(&self.all, number) else {
            return;
        };
        let mut watcher = self.all.remove(place);
        if !watcher.has_left() && watcher.wait_on(registry).is_ok() {
            self.all.push_reserved(watcher);
        } else {
            node.forget_watch(&watcher.watch);
        }
    }

    /// Answers each caller for whom something changed, and each whose time is over, and closes their connections. Returns how many
    /// did not get their answer.
    pub(crate) fn answer<H: Wait + Drop, Q: Wait + Clock>(
        &mut self,
        node: &NodeContext<S, H, Q>,
    ) -> u64 {
        let mut faults: u64 = 0;
        if self.all.is_empty() {
            return faults;
        }
        let now = Instant::now(node.rt).ok();
        let has_notes = node.directory.has_notes(node.rt);
        for _ in 0..self.all.len() {
            if self.all.is_empty() {
                break;
            }
            let watcher = self.all.remove(0);
            let is_late = watcher.is_late(now);
            match answer_to(node, &watcher.watch, has_notes, is_late) {
                Some(message) => {
                    node.forget_watch(&watcher.watch);
                    let is_told = watcher.tell(node.alloc, &message).is_ok();
                    faults = faults.saturating_add(u64::from(!is_told));
                }
                None => self.all.push_reserved(watcher),
            }
        }
        faults
    }

    /// When the first time is over; none if nobody waits, or waits for ever.
    pub(crate) fn first_until(&self) -> Option<Instant> {
        let mut first = None;
        for watcher in &self.all {
            first = earlier(first, watcher.until);
        }
        first
    }
}

/// Has the registry report the connection of a caller, and reports to it that the node watches. What changed before is published then.
fn begin<S: RoundsTag, H: Wait + Drop, Q: Wait>(
    node: &NodeContext<S, H, Q>,
    registry: &Registry,
    watcher: &mut Watcher<S>,
) -> Result<(), Fault> {
    watcher.wait_on(registry)?;
    let _ = node.directory.has_note(node.rt, &watcher.watch)?;
    watcher.tell(node.alloc, &Message::Notice(Notice::Watching))
}

/// The place of the one of this number.
fn place_of<S: RoundsTag>(all: &[Watcher<S>], number: usize) -> Option<usize>
    ensures { IfSome result (λ place. place < length all.now) }
{
    all.iter().position(|watcher| watcher.number == number)
}

/// The answer for a caller with this watch; none if it is to wait on. `has_notes` says whether any watch has a note. If what happened
/// could not be published, it waits on until its time is over.
fn answer_to<S: RoundsTag, H: Wait + Drop, Q: Wait>(
    node: &NodeContext<S, H, Q>,
    watch: &DirectoryWatch<S>,
    has_notes: bool,
    is_late: bool,
) -> Option<Message> {
    if !has_notes && !is_late {
        return None;
    }
    match node.directory.has_note(node.rt, watch) {
        Ok(true) | Err(Fault::NoWatch) => Some(Message::Notice(Notice::Changed)),
        Ok(false) if is_late => Some(Message::Notice(Notice::Same)),
        Err(fault) if is_late => Some(refused_by(fault)),
        _ => None,
    }
}

impl<S: RoundsTag, H: Wait + Drop, Q: Wait> NodeContext<'_, S, H, Q> {
    /// Drops the watch of a caller.
    fn forget_watch(&self, watch: &DirectoryWatch<S>) {
        let _ = self.directory.unwatch(self.rt, watch);
        self.watchers.remove();
    }

    /// Has the thread that accepts tell those who wait for a change that came. Threads call it after each change.
    pub(crate) fn tell_watchers(&self) {
        if self.watchers.is_any() && self.directory.has_notes(self.rt) {
            self.sockets.wake();
        }
    }
}
