//! The node: own writes, blocks of others, digests and answers.
ghost use Rattle.std.specs.Prelude.{◌≤◌};

use crate::making::{longest, nothing};
use crate::{got, holds, key, name, push, push_entry, same, same_at, settled};
use sb_holdings::{BlockEnd, Report};
use sb_log::{Committed, PlainLog, WriteLog};
use sb_node::NodeCore;
use sb_table::Table;
use sb_testing::{SETTINGS, delta_of_block};
use sb_types::{
    Block, Delta, Entry, Fault, HEADER_LENGTH, Name, Order, RawSettings, Settings, Slot, Value,
};
use std::alloc::Global;
use std::process::Abort;

fn settings(rt: &impl Abort, budget: u64, order: Order) -> Settings {
    let raw = RawSettings {
        budget,
        order,
        ..SETTINGS
    };
    got(rt, Settings::check(raw))
}

/// A new node of a name.
pub(crate) fn node(
    rt: &impl Abort,
    alloc: Global,
    me: Name,
    budget: u64,
    order: Order,
) -> NodeCore {
    let settings = settings(rt, budget, order);
    got(rt, NodeCore::open(alloc, settings, me, Table::new(alloc)))
}

/// A new node of the least budget.
fn least(rt: &impl Abort, alloc: Global, me: &[u8]) -> NodeCore {
    node(rt, alloc, name(rt, me), 1_024, Order::Breadth)
}

pub(crate) fn log_of(rt: &impl Abort, alloc: Global, owner: Name) -> PlainLog {
    PlainLog::new(alloc, owner, name(rt, b"c1"), 100)
}

/// Returns the answer to a write, which it commits and enters.
fn answer(
    rt: &impl Abort,
    core: &mut NodeCore,
    log: &mut PlainLog,
    text: &[u8],
    slot: &Slot,
) -> Result<(), Fault> {
    let answer = match log.put(&key(rt, text), slot) {
        Ok(committed) => core.take_own(&committed),
        Err(fault) => Err(fault),
    };
    settled(rt, answer)
}

/// Commits a write and enters it.
pub(crate) fn write(
    rt: &impl Abort,
    core: &mut NodeCore,
    log: &mut PlainLog,
    text: &[u8],
    slot: &Slot,
) {
    got(rt, answer(rt, core, log, text, slot));
}

fn weight(rt: &impl Abort, weight: u64) -> Slot {
    Slot::Set(got(rt, Value::weight(weight)))
}

/// Writes a weight.
fn weigh(rt: &impl Abort, core: &mut NodeCore, log: &mut PlainLog, text: &[u8], number: u64) {
    write(rt, core, log, text, &weight(rt, number));
}

/// Writes texts of 512 bytes under these keys.
fn write_all(rt: &impl Abort, alloc: Global, core: &mut NodeCore, keys: &[&[u8]]) {
    let mut log = log_of(rt, alloc, *core.name());
    let slot = longest(rt, alloc);
    for text in keys {
        write(rt, core, &mut log, text, &slot);
    }
}

/// A node that wrote texts of 512 bytes under these keys.
fn writer(
    rt: &impl Abort,
    alloc: Global,
    me: &[u8],
    budget: u64,
    order: Order,
    keys: &[&[u8]],
) -> NodeCore {
    let mut core = node(rt, alloc, name(rt, me), budget, order);
    write_all(rt, alloc, &mut core, keys);
    core
}

/// The writes under these letters, from the version after `after` on. Each is a weight that is its version.
fn block(rt: &impl Abort, alloc: Global, owner: Name, after: u64, letters: &[u8]) -> Block
    requires { after ≤ 10 }
{
    let mut entries = Vec::new(alloc);
    for (index, letter) in letters.iter().enumerate() {
        let version = after + index as u64 + 1;
        let entry = Entry::new(key(rt, &[*letter]), version, weight(rt, version));
        push_entry(rt, &mut entries, entry);
    }
    let upto = after + letters.len() as u64;
    got(rt, Block::new(owner, 0, after, upto, entries))
}

/// Returns how the blocks end. Ends the test if one finds no memory.
pub(crate) fn applied(rt: &impl Abort, core: &mut NodeCore, delta: &Delta) -> Report {
    let report = got(rt, core.apply(delta));
    for end in report.ends() {
        if matches!(end, BlockEnd::NoMemory(_)) {
            panic!(rt; "error: NoMemory");
        }
    }
    report
}

/// Returns whether the blocks end this way.
fn take(rt: &impl Abort, core: &mut NodeCore, delta: &Delta, ends: &[BlockEnd]) -> bool {
    applied(rt, core, delta).ends() == ends
}

/// A delta of one block.
fn delta_of(rt: &impl Abort, alloc: Global, block: Block) -> Delta {
    got(rt, delta_of_block(alloc, block))
}

/// Returns whether a delta of one block ends this way.
fn take_one(
    rt: &impl Abort,
    core: &mut NodeCore,
    alloc: Global,
    block: Block,
    end: BlockEnd,
) -> bool {
    take(rt, core, &delta_of(rt, alloc, block), &[end])
}

/// How long the frame is that one node sends to another. Then, at the other: how far it holds the owner, and the
/// versions of the values that it shows under x and y.
type Told = (u64, u64, Option<u64>, Option<u64>);

/// Sends a delta from one node to another, and returns how long its frame is.
fn pass_on(rt: &impl Abort, from: &NodeCore, to: &mut NodeCore) -> u64 {
    let digest = got(rt, to.digest(None, true));
    let delta = got(rt, from.deltas(&digest));
    applied(rt, to, &delta);
    delta.encoded_length() + HEADER_LENGTH
}

fn tell(rt: &impl Abort, from: &NodeCore, to: &mut NodeCore) -> Told {
    let length = pass_on(rt, from, to);
    let owner = from.name();
    let (x, y) = (shown(rt, to, owner, b"x"), shown(rt, to, owner, b"y"));
    (length, to.upto(owner), x, y)
}

/// Returns the version of the value under a key.
fn shown(rt: &impl Abort, core: &NodeCore, owner: &Name, text: &[u8]) -> Option<u64> {
    match core.get(owner, &key(rt, text)) {
        Some((_, version)) => Some(version),
        None => None,
    }
}

/// The first write of a, committed.
fn first_write(rt: &impl Abort, alloc: Global) -> Committed {
    let mut log = log_of(rt, alloc, name(rt, b"a"));
    got(rt, log.put(&key(rt, b"x"), &weight(rt, 5)))
}

/// Returns how a node answers the same committed write the second time.
fn answer_again(rt: &impl Abort, alloc: Global, write: &Committed) -> Result<(), Fault> {
    let mut core = least(rt, alloc, b"a");
    got(rt, core.take_own(write));
    core.take_own(write)
}

/// Returns how another node answers it.
fn answer_of_another(rt: &impl Abort, alloc: Global, write: &Committed) -> Result<(), Fault> {
    let mut core = least(rt, alloc, b"b");
    core.take_own(write)
}

#[test]
fn own_writes_come_once(rt: HostRuntime) {
    let alloc = rt.alloc();
    let write = first_write(&rt, alloc);
    let again = answer_again(&rt, alloc, &write);
    let other = answer_of_another(&rt, alloc, &write);
    let wanted = [Err(Fault::OutOfTurn(2)), Err(Fault::WrongOwner)];
    same(&rt, &[again, other], &wanted);
}

/// Returns how many keys a node has at five times. First it is new; then it wrote two keys, wrote again, removed one,
/// and took a block of another node.
fn keys_in_turn(rt: &impl Abort, alloc: Global) -> [usize; 5] {
    let mut log = log_of(rt, alloc, name(rt, b"a"));
    let mut core = least(rt, alloc, b"a");
    let at_first = core.key_count();
    weigh(rt, &mut core, &mut log, b"x", 5);
    weigh(rt, &mut core, &mut log, b"y", 6);
    let of_two = core.key_count();
    weigh(rt, &mut core, &mut log, b"x", 7);
    let written_again = core.key_count();
    write(rt, &mut core, &mut log, b"y", &Slot::Removed);
    let removed = core.key_count();
    let of_b = block(rt, alloc, name(rt, b"b"), 0, b"uvw");
    let taken = take_one(rt, &mut core, alloc, of_b, BlockEnd::Taken(3));
    holds(rt, "the block of another is taken", taken);
    [at_first, of_two, written_again, removed, core.key_count()]
}

#[test]
fn keys_count_own_ones_also_removed(rt: HostRuntime) {
    same(&rt, &keys_in_turn(&rt, rt.alloc()), &[0, 2, 2, 2, 2]);
}

/// A node writes x, takes a block, and writes y. Returns whether the block ends this way, the conflict, and the answer
/// to the second write.
fn write_around(
    rt: &impl Abort,
    alloc: Global,
    core: &mut NodeCore,
    log: &mut PlainLog,
    block: Block,
    end: BlockEnd,
) -> (bool, Option<u64>, Result<(), Fault>) {
    weigh(rt, core, log, b"x", 5);
    let ended = take_one(rt, core, alloc, block, end);
    let conflict = core.conflict();
    (ended, conflict, answer(rt, core, log, b"y", &weight(rt, 6)))
}

/// Ends the test unless a node a ends a block of its own name this way, and then answers its next write this way.
fn write_beside(
    rt: &impl Abort,
    alloc: Global,
    after: u64,
    letters: &[u8],
    end: BlockEnd,
    conflict: Option<u64>,
    answer: Result<(), Fault>,
)
    requires { after ≤ 10 }
{
    let a = name(rt, b"a");
    let mut log = log_of(rt, alloc, a);
    let mut core = least(rt, alloc, b"a");
    let block = block(rt, alloc, a, after, letters);
    let found = write_around(rt, alloc, &mut core, &mut log, block, end);
    same(rt, &found, &(true, conflict, answer));
}

#[test]
fn another_writes_under_the_name(rt: HostRuntime) {
    let alloc = rt.alloc();
    write_beside(&rt, alloc, 0, b"x", BlockEnd::Own, None, Ok(()));
    let refused = Err(Fault::OwnerConflict(2));
    write_beside(&rt, alloc, 1, b"y", BlockEnd::OwnAhead(2), Some(2), refused);
    let refused = Err(Fault::OwnerConflict(4));
    write_beside(
        &rt,
        alloc,
        1,
        b"yzw",
        BlockEnd::OwnAhead(4),
        Some(4),
        refused,
    );
}

/// A delta of three blocks.
fn three_blocks(rt: &impl Abort, alloc: Global) -> Delta {
    let mut blocks = Vec::new(alloc);
    push(rt, &mut blocks, block(rt, alloc, name(rt, b"a"), 0, b"xyz"));
    push(rt, &mut blocks, block(rt, alloc, name(rt, b"b"), 0, b"x"));
    push(rt, &mut blocks, block(rt, alloc, name(rt, b"c"), 0, b"xy"));
    got(rt, Delta::new(blocks))
}

/// Ends the test unless a delta of this block of a ends this way, and a is then held up to this version.
fn take_block(
    rt: &impl Abort,
    alloc: Global,
    core: &mut NodeCore,
    after: u64,
    letters: &[u8],
    end: BlockEnd,
    upto: u64,
)
    requires { after ≤ 10 }
{
    let a = name(rt, b"a");
    let block = block(rt, alloc, a, after, letters);
    let ended = take_one(rt, core, alloc, block, end);
    same_at(rt, &end, &(ended, core.upto(&a)), &(true, upto));
}

/// Returns whether a delta of three blocks ends this way. Also returns how far the first and the last of its owners are
/// then held, and the conflict.
fn take_three_blocks(
    rt: &impl Abort,
    alloc: Global,
    core: &mut NodeCore,
    ends: &[BlockEnd],
) -> (bool, u64, u64, Option<u64>) {
    let ended = take(rt, core, &three_blocks(rt, alloc), ends);
    let (first, last) = (name(rt, b"a"), name(rt, b"c"));
    (ended, core.upto(&first), core.upto(&last), core.conflict())
}

#[test]
fn blocks_end_in_turn(rt: HostRuntime) {
    let alloc = rt.alloc();
    let mut core = least(&rt, alloc, b"b");
    take_block(&rt, alloc, &mut core, 2, b"z", BlockEnd::Gap, 0);
    take_block(&rt, alloc, &mut core, 0, b"xy", BlockEnd::Taken(2), 2);
    take_block(&rt, alloc, &mut core, 2, b"z", BlockEnd::Taken(1), 3);
    take_block(&rt, alloc, &mut core, 2, b"z", BlockEnd::Stale, 3);
    let ends = [BlockEnd::Stale, BlockEnd::OwnAhead(1), BlockEnd::Taken(2)];
    let found = take_three_blocks(&rt, alloc, &mut core, &ends);
    same(&rt, &found, &(true, 3, 2, Some(1)));
}

/// Returns the answer to the second removal of x, which was written once.
fn remove_twice(rt: &impl Abort, core: &mut NodeCore, log: &mut PlainLog) -> Result<(), Fault> {
    weigh(rt, core, log, b"x", 5);
    write(rt, core, log, b"x", &Slot::Removed);
    answer(rt, core, log, b"x", &Slot::Removed)
}

/// The answer to a second removal, and what was sent. Then whether the other has a tombstone (the marker of a removal)
/// of version 2. Then what is sent after x is written again.
type Removal = (Result<(), Fault>, Told, bool, Told);

/// What a node a sends to another after it removed its x.
fn tell_of_a_removal(
    rt: &impl Abort,
    from: &mut NodeCore,
    log: &mut PlainLog,
    to: &mut NodeCore,
) -> Removal {
    let again = remove_twice(rt, from, log);
    let told = tell(rt, from, to);
    let marked = has_marker(rt, to, from.name());
    weigh(rt, from, log, b"x", 7);
    (again, told, marked, tell(rt, from, to))
}

/// Returns whether x of the owner has the tombstone of version 2.
fn has_marker(rt: &impl Abort, core: &NodeCore, owner: &Name) -> bool {
    let x = key(rt, b"x");
    let Some(table) = core.holdings().table(owner) else {
        return false;
    };
    matches!(table.get(&x), Some((2, Slot::Removed)))
}

#[test]
fn removals_are_told(rt: HostRuntime) {
    let alloc = rt.alloc();
    let mut log = log_of(&rt, alloc, name(&rt, b"a"));
    let mut from = least(&rt, alloc, b"a");
    let mut to = node(&rt, alloc, name(&rt, b"b"), 1_024, Order::Depth);
    let told = tell_of_a_removal(&rt, &mut from, &mut log, &mut to);
    let again = Err(Fault::NothingThere);
    let wanted = (again, (48, 2, None, None), true, (56, 3, Some(3), None));
    same(&rt, &told, &wanted);
}

/// What a node sends to another, three times.
fn tell_thrice(rt: &impl Abort, from: &NodeCore, to: &mut NodeCore) -> [Told; 3] {
    let (first, second) = (tell(rt, from, to), tell(rt, from, to));
    [first, second, tell(rt, from, to)]
}

#[test]
fn a_peer_learns_what_fits(rt: HostRuntime) {
    let alloc = rt.alloc();
    let keys: [&[u8]; 3] = [b"x", b"y", b"x"];
    let from = writer(&rt, alloc, b"a", 1_024, Order::Breadth, &keys);
    let mut to = least(&rt, alloc, b"b");
    let told = tell_thrice(&rt, &from, &mut to);
    let first = (562, 2, None, Some(2));
    let second = (562, 3, Some(3), Some(2));
    same(&rt, &told, &[first, second, (9, 3, Some(3), Some(2))]);
}

/// Returns how many entries of a and of others a delta has.
fn entries_of(delta: &Delta, a: Name) -> (usize, usize) {
    let mut entries = (0, 0);
    for block in delta.blocks() {
        if *block.owner() == a {
            entries.0 = block.entries().len();
        } else {
            entries.1 = block.entries().len();
        }
    }
    entries
}

/// Returns how long the frame is that a node a sends to a peer that holds nothing. Also returns how many entries of a
/// and of others it has.
fn tell_all(rt: &impl Abort, alloc: Global, core: &NodeCore) -> (u64, (usize, usize)) {
    let delta = got(rt, core.deltas(&nothing(rt, alloc, false)));
    let length = delta.encoded_length() + HEADER_LENGTH;
    (length, entries_of(&delta, *core.name()))
}

/// Ends the test unless a node a sends a frame of this length, with this many entries of either owner. The node wrote
/// three keys and has one of b, each an entry of 588 bytes.
fn tell_of_two(
    rt: &impl Abort,
    alloc: Global,
    order: Order,
    budget: u64,
    length: u64,
    entries: (usize, usize),
) {
    let (x, y, z) = ([b'x'; 64], [b'y'; 64], [b'z'; 64]);
    let mut core = writer(rt, alloc, b"a", budget, order, &[&x, &y, &z]);
    let other = writer(rt, alloc, b"b", budget, order, &[&x]);
    pass_on(rt, &other, &mut core);
    same(rt, &tell_all(rt, alloc, &core), &(length, entries));
}

#[test]
fn deltas_come_in_the_order_of_the_settings(rt: HostRuntime) {
    let alloc = rt.alloc();
    tell_of_two(&rt, alloc, Order::Depth, 1_241, 1_213, (2, 0));
    tell_of_two(&rt, alloc, Order::Breadth, 1_241, 1_241, (1, 1));
    tell_of_two(&rt, alloc, Order::Depth, 1_240, 1_213, (2, 0));
    tell_of_two(&rt, alloc, Order::Breadth, 1_240, 625, (1, 0));
}

/// A digest: whether it wants an answer, its bytes, its pairs, and how far it reports a and b as held.
type Read = (bool, u64, usize, u64, u64);

fn read_digest(rt: &impl Abort, core: &NodeCore, from: Option<Name>, want: bool) -> Read {
    let (a, b) = (name(rt, b"a"), name(rt, b"b"));
    let digest = got(rt, core.digest(from, want));
    let held = (digest.start(&a, 0, 0).after, digest.start(&b, 0, 0).after);
    (
        digest.want(),
        digest.encoded_length(),
        digest.pairs().len(),
        held.0,
        held.1,
    )
}

/// The digest of a node that holds nothing of b. Then whether it takes a block of b, and its digests of all owners and
/// from b on.
fn digests(
    rt: &impl Abort,
    alloc: Global,
    core: &mut NodeCore,
    b: Name,
) -> (Read, bool, [Read; 2]) {
    let before = read_digest(rt, core, None, true);
    let block = block(rt, alloc, b, 0, b"xy");
    let ended = take_one(rt, core, alloc, block, BlockEnd::Taken(2));
    let all = read_digest(rt, core, None, false);
    (before, ended, [all, read_digest(rt, core, Some(b), false)])
}

#[test]
fn digests_tell_what_is_held(rt: HostRuntime) {
    let alloc = rt.alloc();
    let (a, b) = (name(&rt, b"a"), name(&rt, b"b"));
    let mut core = least(&rt, alloc, b"a");
    same(&rt, &(*core.name(), core.settings().budget()), &(a, 1_024));
    let found = digests(&rt, alloc, &mut core, b);
    let after = [(false, 58, 2, 0, 2), (false, 33, 1, 0, 2)];
    same(&rt, &found, &((true, 32, 1, 0, 0), true, after));
}

/// Returns how the first block of a delta ends, if there is room to report it.
fn first_end(core: &mut NodeCore, delta: &Delta) -> Option<BlockEnd> {
    match core.apply(delta) {
        Ok(report) => report.ends().first().copied(),
        Err(_) => None,
    }
}

/// Returns how three entries of a new owner end, if there is room to report it, and how far the owner is then held.
fn take_three(rt: &impl Abort, alloc: Global) -> (Option<BlockEnd>, u64) {
    let a = name(rt, b"a");
    let mut core = least(rt, alloc, b"b");
    let delta = delta_of(rt, alloc, block(rt, alloc, a, 0, b"xyz"));
    let end = first_end(&mut core, &delta);
    (end, core.upto(&a))
}

/// Whichever allocation is refused, the answer reports what is held.
#[test]
fn what_finds_no_memory_is_told(rt: HostRuntime) {
    let (end, held) = take_three(&rt, rt.alloc());
    let told = match held {
        3 => BlockEnd::Taken(3),
        _ => BlockEnd::NoMemory(held),
    };
    let is_told = end == Some(told) || (end, held) == (None, 0);
    holds(&rt, "the answer tells what is held", is_told);
}
