//! The way of a write, from put to read, over two nodes in memory: one test, written to be read.
ghost use Rattle.std.specs.Prelude.{◌≤◌};

use crate::{got, holds, key, name, same};
use sb_breadth::Breadth;
use sb_budget::{DeltaOrder, available, cut, orders_keep_owners};
use sb_codec::Message;
use sb_digest::{Digest, build};
use sb_frames::{Frames, send};
use sb_holdings::{BlockEnd, Holdings};
use sb_table::Table;
use sb_types::{Block, Delta, Entry, Fault, Name, Slot, Value};
use std::alloc::Global;
use std::process::Abort;

/// The greatest frame that a node sends, in bytes.
const BUDGET: u64 = 1_024;

/// How many bytes the network brings at once.
const PIECE: usize = 100;

/// A node that has written nothing, and holds nothing.
fn node(rt: &impl Abort, alloc: Global, text: &[u8]) -> Holdings {
    got(rt, Holdings::new(alloc, name(rt, text), Table::new(alloc)))
}

/// The node writes a text of 512 letters under the key, as this version.
fn put(rt: &impl Abort, alloc: Global, node: &mut Holdings, text: &[u8], version: u64)
    requires { 1 ≤ version }
{
    let slot = Slot::Set(got(rt, Value::text(alloc, &[b'p'; 512])));
    let entry = Entry::new(key(rt, text), version, slot);
    got(rt, node.push_own(entry));
}

/// A frame goes over the network in pieces, and comes out as a message.
fn carried(rt: &impl Abort, alloc: Global, message: &Message) -> Message {
    let mut wire = Vec::new(alloc);
    got(rt, send(alloc, &mut wire, message));
    got(rt, received(alloc, &wire))
}

/// The first message of what the network brings.
fn received(alloc: Global, wire: &[u8]) -> Result<Message, Fault> {
    let mut stream = Frames::new(alloc);
    for piece in wire.chunks(PIECE) {
        stream.feed(piece)?;
        if let Some(message) = stream.next()? {
            return Ok(message);
        }
    }
    Err(Fault::Truncated)
}

/// The node's digest, as its peer gets it: how far it holds each owner.
fn digest_from(rt: &impl Abort, alloc: Global, node: &Holdings) -> Digest {
    let digest = got(rt, build(alloc, node, None, true, BUDGET));
    match carried(rt, alloc, &Message::Digest(digest)) {
        Message::Digest(digest) => digest,
        _ => got(rt, Err(Fault::UnknownKind(0))),
    }
}

/// The longest prefix within the budget of what the peer lacks, the first write of each owner first.
fn front_of(alloc: Global, node: &Holdings, digest: &Digest) -> Result<Delta, Fault> {
    let lacking = available(alloc, node, digest)?;
    let ordered = Breadth.arrange(alloc, lacking)?;
    orders_keep_owners();
    cut(alloc, ordered, BUDGET)
}

/// What the node answers to a digest, as its peer gets it.
fn answer_from(rt: &impl Abort, alloc: Global, node: &Holdings, digest: &Digest) -> Delta {
    let delta = got(rt, front_of(alloc, node, digest));
    match carried(rt, alloc, &Message::Delta(delta)) {
        Message::Delta(delta) => delta,
        _ => got(rt, Err(Fault::UnknownKind(0))),
    }
}

/// The node takes a block. If memory was missing for it, the test ends.
fn take(rt: &impl Abort, node: &mut Holdings, block: &Block) -> BlockEnd {
    match node.apply_block(block) {
        BlockEnd::NoMemory(_) => got(rt, Err(Fault::NoMemory)),
        end => end,
    }
}

/// The version of an owner's address under a key, as a reader at the node sees it.
fn read(rt: &impl Abort, node: &Holdings, owner: &Name, text: &[u8]) -> Option<u64> {
    match node.table(owner)?.get(&key(rt, text)) {
        Some((version, Slot::Set(_))) => Some(version),
        _ => None,
    }
}

/// The node takes the one block, which brings it the write of this version of a. The same block once more brings it
/// nothing.
fn take_twice(rt: &impl Abort, a: &Name, taker: &mut Holdings, block: &Block, version: u64)
    requires { 1 ≤ version }
{
    same(rt, block.owner(), a);
    same(rt, &(block.after(), block.upto()), &(version - 1, version));
    same(rt, &take(rt, taker, block), &BlockEnd::Taken(1));
    same(rt, &take(rt, taker, block), &BlockEnd::Stale);
}

/// In a round b reports how far it holds a, and a answers with the next write above that.
fn go_a_round(
    rt: &impl Abort,
    alloc: Global,
    a: &Name,
    giver: &Holdings,
    taker: &mut Holdings,
    version: u64,
)
    requires { 1 ≤ version }
{
    let digest = digest_from(rt, alloc, taker);
    holds(rt, "the digest covers a", digest.covers(a));
    same(rt, &digest.start(a, 0, version).after, &(version - 1));
    let delta = answer_from(rt, alloc, giver, &digest);
    match delta.blocks() {
        [block] => take_twice(rt, a, taker, block, version),
        _ => panic!(rt; "one block"),
    }
}

/// How far the node holds an owner, and the versions of the owner's x and y that a reader at it sees.
fn seen(rt: &impl Abort, node: &Holdings, owner: &Name) -> (u64, Option<u64>, Option<u64>) {
    let x = read(rt, node, owner, b"x");
    let y = read(rt, node, owner, b"y");
    (node.upto(owner), x, y)
}

/// How many blocks are left to send.
fn left(rt: &impl Abort, alloc: Global, giver: &Holdings, taker: &Holdings) -> usize {
    let digest = digest_from(rt, alloc, taker);
    answer_from(rt, alloc, giver, &digest).blocks().len()
}

/// Node a puts two texts. One makes a frame of 562 bytes, and both would make one of 1,087. So a budget of 1,024
/// carries one of them at a time.
fn giver_of_two(rt: &impl Abort, alloc: Global) -> Holdings {
    let mut giver = node(rt, alloc, b"a");
    put(rt, alloc, &mut giver, b"x", 1);
    put(rt, alloc, &mut giver, b"y", 2);
    giver
}

#[test]
fn two_writes_go_from_put_to_read(rt: HostRuntime) {
    let alloc = rt.alloc();
    let (a, b) = (name(&rt, b"a"), name(&rt, b"b"));
    let giver = giver_of_two(&rt, alloc);
    let mut taker = node(&rt, alloc, b"b");
    // After a round a reader at b sees all that a wrote up to its version, and nothing of what a wrote later.
    go_a_round(&rt, alloc, &a, &giver, &mut taker, 1);
    same(&rt, &seen(&rt, &taker, &a), &(1, Some(1), None));
    go_a_round(&rt, alloc, &a, &giver, &mut taker, 2);
    same(&rt, &seen(&rt, &taker, &a), &(2, Some(1), Some(2)));

    // Nothing is left to send, and b has written nothing itself.
    same(&rt, &left(&rt, alloc, &giver, &taker), &0);
    same(&rt, &taker.upto(&b), &0);
}
