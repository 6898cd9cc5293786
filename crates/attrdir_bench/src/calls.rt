//! The measured calls of the layers. Only the call itself is timed: the time is read before the units are counted, and
//! before the result is dropped.
use crate::problem::Problem;
use crate::report::{Measured, spent_since};
use crate::sample::{holdings_of, no_holdings};
use sb_breadth::Breadth;
use sb_budget::{DeltaOrder, available, cut};
use sb_codec::{Message, decode_payload, encode_payload};
use sb_depth::Depth;
use sb_digest::{Digest, build};
use sb_frames::{Frames, frame_of};
use sb_holdings::{BlockEnd, Holdings};
use sb_types::{BUDGET_MOST, Block, Delta, Fault};
use std::alloc::Global;
use std::time::CpuClock;

/// A call that is measured.
#[derive(Clone, Copy, Debug, PartialEq, Eq)]
pub(crate) enum Call {
    /// Entering the blocks into holdings that are empty, by the entry.
    Apply,
    /// Making the digest of all that is held, by the owner.
    Digest,
    /// Listing what a peer that holds nothing lacks, by the entry.
    Available,
    /// Ordering what such a peer lacks, by the entry.
    Breadth,
    Depth,
    /// Cutting its longest prefix within the greatest budget, by the entry of that prefix.
    Cut,
    /// Making the delta of that budget for such a peer, without a list of the rest.
    DeltaBreadth,
    DeltaDepth,
    /// Making the payload of the greatest delta, by the entry.
    Encode,
    /// Reading that payload, by the entry.
    Decode,
    /// Reading the frame of that delta from a stream in pieces, by the entry.
    Frames,
}

/// How many entries were taken of a block with this end.
pub(crate) fn taken(end: BlockEnd) -> u64 {
    match end {
        BlockEnd::Taken(count) | BlockEnd::TooManyKeys(count) | BlockEnd::NoMemory(count) => count,
        _ => 0,
    }
}

/// Enters the blocks. Returns how many entries were taken.
pub(crate) fn enter_all(holdings: &mut Holdings, blocks: &[Block]) -> u64 {
    let mut entries: u64 = 0;
    for block in blocks {
        entries = entries.saturating_add(taken(holdings.apply_block(block)));
    }
    entries
}

fn entries_in(delta: &Delta) -> u64 {
    let mut entries: u64 = 0;
    for block in delta.blocks() {
        entries = entries.saturating_add(block.entries().len() as u64);
    }
    entries
}

/// The number of bytes in each piece of a stream.
const PIECE_LENGTH: usize = 1024;

/// Feeds the frame in pieces, and takes out what is whole.
fn read_pieces(stream: &mut Frames, frame: &[u8]) -> Result<(), Fault> {
    for piece in frame.chunks(PIECE_LENGTH) {
        stream.feed(piece)?;
        stream.next()?;
    }
    Ok(())
}

/// What the calls take: what a node holds, the digest of a peer that holds nothing, and the greatest delta for that
/// peer. With the delta come the number of its entries, its payload, its frame, and the stream that the frame comes in.
#[derive(Drop)]
pub(crate) struct CallInputs<'a> {
    blocks: &'a [Block],
    holdings: Holdings,
    digest: Digest,
    message: Message,
    entries: u64,
    payload: Vec<u8>,
    frame: Vec<u8>,
    stream: Frames,
}

impl<'a> CallInputs<'a> {
    pub(crate) fn new(alloc: Global, blocks: &'a [Block]) -> Result<CallInputs<'a>, Fault> {
        let holdings = holdings_of(alloc, blocks)?;
        let digest = Digest::new(false, None, None, Vec::new(alloc))?;
        let delta = cut(alloc, available(alloc, &holdings, &digest)?, BUDGET_MOST)?;
        let entries = entries_in(&delta);
        let message = Message::Delta(delta);
        let payload = encode_payload(alloc, &message)?;
        let frame = frame_of(alloc, &message)?;
        Ok(CallInputs {
            blocks,
            holdings,
            digest,
            message,
            entries,
            payload,
            frame,
            stream: Frames::new(alloc),
        })
    }

    fn apply(&self, rt: &HostRuntime) -> Result<Measured, Problem> {
        let mut holdings = no_holdings(rt.alloc())?;
        let start = rt.thread_cpu_time()?;
        let entries = enter_all(&mut holdings, self.blocks);
        Ok(Measured::new(spent_since(rt, start)?, entries))
    }

    fn digest(&self, rt: &HostRuntime) -> Result<Measured, Problem> {
        let start = rt.thread_cpu_time()?;
        let digest = build(rt.alloc(), &self.holdings, None, true, BUDGET_MOST)?;
        Ok(Measured::new(spent_since(rt, start)?, digest.pairs().len() as u64))
    }

    fn available(&self, rt: &HostRuntime) -> Result<Measured, Problem> {
        let start = rt.thread_cpu_time()?;
        let items = available(rt.alloc(), &self.holdings, &self.digest)?;
        Ok(Measured::new(spent_since(rt, start)?, items.len() as u64))
    }

    fn arrange<O: DeltaOrder>(&self, rt: &HostRuntime, order: &O) -> Result<Measured, Problem> {
        let items = available(rt.alloc(), &self.holdings, &self.digest)?;
        let start = rt.thread_cpu_time()?;
        let items = order.arrange(rt.alloc(), items)?;
        Ok(Measured::new(spent_since(rt, start)?, items.len() as u64))
    }

    fn cut(&self, rt: &HostRuntime) -> Result<Measured, Problem> {
        let items = available(rt.alloc(), &self.holdings, &self.digest)?;
        let start = rt.thread_cpu_time()?;
        let delta = cut(rt.alloc(), items, BUDGET_MOST)?;
        Ok(Measured::new(spent_since(rt, start)?, entries_in(&delta)))
    }

    fn delta<O: DeltaOrder>(&self, rt: &HostRuntime, order: &O) -> Result<Measured, Problem> {
        let start = rt.thread_cpu_time()?;
        let _delta = order.delta(rt.alloc(), &self.holdings, &self.digest, BUDGET_MOST)?;
        Ok(Measured::new(spent_since(rt, start)?, 1))
    }

    fn encode(&self, rt: &HostRuntime) -> Result<Measured, Problem> {
        let start = rt.thread_cpu_time()?;
        let _payload = encode_payload(rt.alloc(), &self.message)?;
        Ok(Measured::new(spent_since(rt, start)?, self.entries))
    }

    fn decode(&self, rt: &HostRuntime) -> Result<Measured, Problem> {
        let start = rt.thread_cpu_time()?;
        let _message = decode_payload(rt.alloc(), &self.payload)?;
        Ok(Measured::new(spent_since(rt, start)?, self.entries))
    }

    fn frames(&mut self, rt: &HostRuntime) -> Result<Measured, Problem> {
        let start = rt.thread_cpu_time()?;
        read_pieces(&mut self.stream, &self.frame)?;
        Ok(Measured::new(spent_since(rt, start)?, self.entries))
    }

    fn measure_once(&mut self, rt: &HostRuntime, call: Call) -> Result<Measured, Problem> {
        match call {
            Call::Apply => self.apply(rt),
            Call::Digest => self.digest(rt),
            Call::Available => self.available(rt),
            Call::Breadth => self.arrange(rt, &Breadth),
            Call::Depth => self.arrange(rt, &Depth),
            Call::Cut => self.cut(rt),
            Call::DeltaBreadth => self.delta(rt, &Breadth),
            Call::DeltaDepth => self.delta(rt, &Depth),
            Call::Encode => self.encode(rt),
            Call::Decode => self.decode(rt),
            Call::Frames => self.frames(rt),
        }
    }

    /// Measures this call so many times, after one that does not count: that one pays for what was dropped before.
    pub(crate) fn measure(
        &mut self,
        rt: &HostRuntime,
        call: Call,
        rounds: u64,
    ) -> Result<Measured, Problem> {
        let mut measured = Measured::NOTHING;
        self.measure_once(rt, call)?;
        for _ in 0..rounds {
            measured.add(self.measure_once(rt, call)?);
        }
        Ok(measured)
    }
}
