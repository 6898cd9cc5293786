//! A node that holds nothing catches up with a peer, over two pipes in memory.
use crate::calls::taken;
use crate::plan::Plan;
use crate::problem::Problem;
use crate::report::{Measured, spent_since};
use crate::sample::{ME, hear, new_node};
use sb_codec::Message;
use sb_digest::Digest;
use sb_frames::{Frames, send};
use sb_holdings::Report;
use sb_node::NodeCore;
use sb_session::{ReceivedMessage, Replies, Session};
use sb_types::{Block, Delta, Fault};
use std::alloc::Global;
use std::time::CpuClock;

/// How long the catching up took, by the entry, and what went over the pipes: frames, their bytes, and the bytes of
/// their entries.
#[derive(Clone, Copy, Debug)]
pub(crate) struct CatchUpFigures {
    pub(crate) entries: Measured,
    pub(crate) frames: u64,
    pub(crate) bytes: u64,
    pub(crate) content: u64,
}

/// One end: its session, and what it has read.
#[derive(Drop)]
struct End {
    session: Session,
    frames: Frames,
    alloc: Global,
    sent: u64,
    entered: u64,
}

impl End {
    fn new(alloc: Global, core: &NodeCore) -> End {
        End {
            session: Session::new(core.settings().cluster(), *core.name()),
            frames: Frames::new(alloc),
            alloc,
            sent: 0,
            entered: 0,
        }
    }

    fn say(&mut self, pipe: &mut Vec<u8>, message: &Message) -> Result<(), Fault> {
        self.sent = self.sent.saturating_add(1);
        send(self.alloc, pipe, message)
    }

    fn greet(&mut self, pipe: &mut Vec<u8>) -> Result<(), Fault> {
        let hello = self.session.hello();
        self.say(pipe, &hello)
    }

    fn ask(&mut self, core: &mut NodeCore, pipe: &mut Vec<u8>) -> Result<(), Fault> {
        let message = self.session.ask(core)?;
        self.say(pipe, &message)
    }

    fn exchange(&mut self, pipe: &mut Vec<u8>, delta: Delta, digest: Digest) -> Result<(), Fault> {
        self.say(pipe, &Message::Delta(delta))?;
        self.say(pipe, &Message::Digest(digest))
    }

    fn enter(&mut self, report: &Report) {
        for end in report.ends() {
            self.entered = self.entered.saturating_add(taken(*end));
        }
    }

    fn answer(&mut self, replies: Replies, pipe: &mut Vec<u8>) -> Result<(), Fault> {
        match replies {
            Replies::Greeted | Replies::Ended(_) => Ok(()),
            Replies::Applied(report) => {
                self.enter(&report);
                Ok(())
            }
            Replies::Answered(delta) => self.say(pipe, &Message::Delta(delta)),
            Replies::Exchanged(delta, digest) => self.exchange(pipe, delta, digest),
        }
    }

    /// Takes all that has come, and answers it.
    fn hear(
        &mut self,
        core: &mut NodeCore,
        from: &mut Vec<u8>,
        to: &mut Vec<u8>,
    ) -> Result<(), Fault> {
        let bytes = from.len();
        self.frames.feed(from)?;
        from.clear();
        // Each message has at least one byte.
        for _ in 0..bytes {
            let Some(message) = ReceivedMessage::taken_from(&mut self.frames)? else {
                break;
            };
            let replies = self.session.take(message, core)?;
            self.answer(replies, to)?;
        }
        Ok(())
    }
}

/// Makes a node that heard these blocks.
fn full_node(alloc: Global, blocks: &[Block]) -> Result<NodeCore, Fault> {
    let mut node = new_node(alloc, b"peer")?;
    for block in blocks {
        hear(alloc, &mut node, block)?;
    }
    Ok(node)
}

/// How many entries the blocks have, and how many bytes these have.
fn content_of(blocks: &[Block]) -> (u64, u64) {
    let (mut entries, mut content): (u64, u64) = (0, 0);
    for block in blocks {
        for entry in block.entries() {
            entries = entries.saturating_add(1);
            content = content.saturating_add(entry.encoded_length());
        }
    }
    (entries, content)
}

/// Two ends, the pipes between them, and how many bytes went over these.
#[derive(Drop)]
struct Talk {
    asks: End,
    serves: End,
    there: Vec<u8>,
    back: Vec<u8>,
    bytes: u64,
}

impl Talk {
    fn new(alloc: Global, core: &NodeCore, full: &NodeCore) -> Talk {
        Talk {
            asks: End::new(alloc, core),
            serves: End::new(alloc, full),
            there: Vec::new(alloc),
            back: Vec::new(alloc),
            bytes: 0,
        }
    }

    fn greet(&mut self) -> Result<(), Fault> {
        self.asks.greet(&mut self.there)?;
        self.serves.greet(&mut self.back)
    }

    /// One exchange: one end asks, and the other sends. Returns whether it brought anything.
    fn round(&mut self, core: &mut NodeCore, full: &mut NodeCore) -> Result<bool, Fault> {
        let before = self.asks.entered;
        self.asks.ask(core, &mut self.there)?;
        self.bytes = self.bytes.saturating_add(self.there.len() as u64);
        self.serves.hear(full, &mut self.there, &mut self.back)?;
        self.bytes = self.bytes.saturating_add(self.back.len() as u64);
        self.asks.hear(core, &mut self.back, &mut self.there)?;
        Ok(self.asks.entered > before)
    }

    /// How many entries, frames and bytes went over.
    fn went(&self) -> (u64, u64, u64) {
        let frames = self.asks.sent.saturating_add(self.serves.sent);
        let bytes = self.bytes.saturating_add(self.there.len() as u64);
        (self.asks.entered, frames, bytes)
    }
}

/// Makes a new node that asks until an exchange brings it nothing more of the `all` entries. Returns the node, and how
/// many entries, frames and bytes went over the pipes.
fn catch_up(
    alloc: Global,
    full: &mut NodeCore,
    all: u64,
) -> Result<(NodeCore, (u64, u64, u64)), Fault> {
    let mut core = new_node(alloc, ME)?;
    let mut talk = Talk::new(alloc, &core, full);
    talk.greet()?;
    for _ in 0..=all {
        if !talk.round(&mut core, full)? {
            break;
        }
    }
    let went = talk.went();
    Ok((core, went))
}

/// Measures how a node that holds nothing catches up with one that holds these blocks, in one session. The time is read
/// before the node is dropped.
pub(crate) fn measure(
    rt: &HostRuntime,
    plan: Plan,
    blocks: &[Block],
) -> Result<CatchUpFigures, Problem> {
    let alloc = rt.alloc();
    let mut full = full_node(alloc, blocks)?;
    let (all, content) = content_of(blocks);
    let mut caught = CatchUpFigures {
        entries: Measured::NOTHING,
        frames: 0,
        bytes: 0,
        content: content.saturating_mul(plan.rounds),
    };
    for _ in 0..plan.rounds {
        let start = rt.thread_cpu_time()?;
        let (core, (entries, frames, bytes)) = catch_up(alloc, &mut full, all)?;
        let spent = spent_since(rt, start)?;
        drop(core);
        caught.entries.add(Measured::new(spent, entries));
        caught.frames = caught.frames.saturating_add(frames);
        caught.bytes = caught.bytes.saturating_add(bytes);
    }
    Ok(caught)
}
