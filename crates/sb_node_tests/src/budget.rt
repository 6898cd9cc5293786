//! What is offered and cut at exact budgets, also for all keys that an owner may have.
ghost use Rattle.std.specs.Prelude.{◌≡◌, ◌≤◌, ◌<◌, IfOk, OnOk};

use crate::making::{apply, items, longest, nothing, tells};
use crate::{got, key, name, push, same, same_at, there};
use sb_budget::{Offered, available, cut};
use sb_digest::{Digest, Pair};
use sb_holdings::{BlockEnd, Holdings};
use sb_table::Table;
use sb_testing::{LONGEST_KEY, LONGEST_NAME, letters_of};
use sb_types::{
    BUDGET_LEAST, BUDGET_MOST, Block, Delta, Entry, Fault, HEADER_LENGTH, Key, Name, SharedEntry,
    Slot, Value,
};
use std::alloc::Global;
use std::process::Abort;

/// A text of 512 bytes under a key.
fn longest_value(rt: &impl Abort, alloc: Global, text: &[u8], version: u64) -> Entry
    requires { 1 ≤ version }
    ensures { result.version ≡ version }
{
    Entry::new(key(rt, text), version, longest(rt, alloc))
}

/// Enters a write of a later version than any before.
fn enter(rt: &impl Abort, table: &mut Table, entry: Entry)
    requires { table.old.held < entry.version }
    ensures { table.new.held ≡ entry.version }
{
    match table.push(entry) {
        Ok(()) => {}
        Err(fault) => panic!(rt; "error: {fault:?}"),
    }
}

/// The holdings of an owner with its table.
fn holdings_of(rt: &impl Abort, alloc: Global, owner: &[u8], table: Table) -> Holdings {
    got(rt, Holdings::new(alloc, name(rt, owner), table))
}

/// The owner a, which wrote x, y and x again.
fn three_writes(rt: &impl Abort, alloc: Global) -> Holdings {
    let mut table = Table::new(alloc);
    enter(rt, &mut table, longest_value(rt, alloc, b"x", 1));
    enter(rt, &mut table, longest_value(rt, alloc, b"y", 2));
    enter(rt, &mut table, longest_value(rt, alloc, b"x", 3));
    holdings_of(rt, alloc, b"a", table)
}

/// Enters an entry of 588 bytes. Its key is the letter, 64 times.
fn enter_longest(alloc: Global, table: &mut Table, letter: u8, version: u64) -> Result<(), Fault>
    requires { table.old.held < version }
    ensures { OnOk result (table.new.held ≡ version) }
{
    let value = Value::text(alloc, &[b'p'; 512])?;
    let key = Key::read(&[letter; 64])?;
    table.push(Entry::new(key, version, Slot::Set(value)))
}

/// The owner a, which wrote three keys: entries of 588 bytes.
fn three_keys(alloc: Global, owner: Name) -> Result<Holdings, Fault> {
    let mut table = Table::new(alloc);
    enter_longest(alloc, &mut table, b'x', 1)?;
    enter_longest(alloc, &mut table, b'y', 2)?;
    enter_longest(alloc, &mut table, b'z', 3)?;
    Holdings::new(alloc, owner, table)
}

/// The block of an owner that wrote one key: an entry of 588 bytes.
fn one_key(alloc: Global, owner: Name) -> Result<Block, Fault> {
    let value = Value::text(alloc, &[b'p'; 512])?;
    let entry = Entry::new(Key::read(&[b'x'; 64])?, 1, Slot::Set(value));
    let shared = SharedEntry::new(alloc, entry)?;
    Block::new(owner, 0, 0, 1, vec![in alloc; shared]?)
}

/// The owner a, which wrote three keys, and the owner b, which wrote one: entries of 588 bytes.
fn two_owners_or_none(alloc: Global, a: Name, b: Name) -> Result<Holdings, Fault> {
    let mut holdings = three_keys(alloc, a)?;
    let block = one_key(alloc, b)?;
    match holdings.apply_block(&block) {
        BlockEnd::NoMemory(_) => Err(Fault::NoMemory),
        _ => Ok(holdings),
    }
}

/// The same, if there is memory.
fn two_owners(rt: &impl Abort, alloc: Global) -> Holdings {
    let (a, b) = (name(rt, b"a"), name(rt, b"b"));
    got(rt, two_owners_or_none(alloc, a, b))
}

/// Returns the version under a key.
fn version_at(rt: &impl Abort, holdings: &Holdings, owner: &Name, text: &[u8]) -> Option<u64> {
    let key = key(rt, text);
    match holdings.table(owner)?.get(&key) {
        Some((version, _)) => Some(version),
        None => None,
    }
}

/// The digest of a range of names, with these owners held up to these versions.
fn digest_of(
    rt: &impl Abort,
    alloc: Global,
    from: Option<Name>,
    until: Option<Name>,
    held: &[(Name, u64)],
) -> Digest {
    let mut pairs = Vec::new(alloc);
    for (owner, version) in held {
        push(rt, &mut pairs, Pair::new(*owner, *version, None));
    }
    got(rt, Digest::new(false, from, until, pairs))
}

/// What a digest leaves, cut to the budget.
fn cut_after(
    rt: &impl Abort,
    alloc: Global,
    holdings: &Holdings,
    digest: &Digest,
    budget: u64,
) -> Delta
    requires least { BUDGET_LEAST ≤ budget }
    requires most { budget ≤ BUDGET_MOST }
{
    let offered = items(rt, available(alloc, holdings, digest));
    got(rt, cut(alloc, offered, budget))
}

/// All that is held, cut to the budget.
fn cut_of_all(rt: &impl Abort, alloc: Global, holdings: &Holdings, budget: u64) -> Delta
    requires least { BUDGET_LEAST ≤ budget }
    requires most { budget ≤ BUDGET_MOST }
{
    cut_after(rt, alloc, holdings, &nothing(rt, alloc, false), budget)
}

/// Holdings of the own name a: a flag under each of `count` keys of four letters.
fn flags(rt: &impl Abort, alloc: Global, count: u64) -> Holdings {
    let mut holdings = holdings_of(rt, alloc, b"a", Table::new(alloc));
    for number in 0..count {
        let slot = Slot::Set(Value::flag(true));
        let entry = Entry::new(key(rt, &letters_of(number)), number + 1, slot);
        got(rt, holdings.push_own(entry));
    }
    holdings
}

/// A block's owner and range, and how many entries it has.
type Part = (Name, u64, u64, usize);

/// Returns how long the delta's frame is, and whether its blocks are just these.
fn consists(delta: &Delta, wanted: &[Part]) -> (u64, bool) {
    let mut are_equal = delta.blocks().len() == wanted.len();
    for (block, part) in delta.blocks().iter().zip(wanted) {
        let range = (block.after(), block.upto());
        are_equal &= (*block.owner(), range.0, range.1, block.entries().len()) == *part;
    }
    (delta.encoded_length() + HEADER_LENGTH, are_equal)
}

/// Returns how long the frame of a cut of all is, and whether its blocks are just these.
fn cut_to(
    rt: &impl Abort,
    alloc: Global,
    holdings: &Holdings,
    budget: u64,
    wanted: &[Part],
) -> (u64, bool)
    requires least { BUDGET_LEAST ≤ budget }
    requires most { budget ≤ BUDGET_MOST }
{
    consists(&cut_of_all(rt, alloc, holdings, budget), wanted)
}

/// Ends the test unless a cut of all is one block of a, with this many entries up to this version. Its frame has this
/// length.
fn cut_of_a(
    rt: &impl Abort,
    alloc: Global,
    holdings: &Holdings,
    budget: u64,
    length: u64,
    taken: (u64, usize),
)
    requires least { BUDGET_LEAST ≤ budget }
    requires most { budget ≤ BUDGET_MOST }
{
    let (upto, count) = taken;
    let wanted = [(name(rt, b"a"), 0, upto, count)];
    let found = cut_to(rt, alloc, holdings, budget, &wanted);
    same_at(rt, &budget, &found, &(length, true));
}

/// All 4,096 keys of an owner are offered, and fit a frame of 61,477 bytes.
#[test]
fn all_keys_of_an_owner_are_cut(rt: HostRuntime) {
    let alloc = rt.alloc();
    let holdings = flags(&rt, alloc, 4_096);
    cut_of_a(&rt, alloc, &holdings, 65_536, 61_477, (4_096, 4_096));
    cut_of_a(&rt, alloc, &holdings, 61_477, 61_477, (4_096, 4_096));
    cut_of_a(&rt, alloc, &holdings, 61_476, 61_462, (4_095, 4_095));
    cut_of_a(&rt, alloc, &holdings, 1_024, 1_012, (65, 65));
}

/// The owner a, which wrote a flag.
fn one_flag(rt: &impl Abort, alloc: Global) -> Holdings {
    let mut table = Table::new(alloc);
    let slot = Slot::Set(Value::flag(true));
    enter(rt, &mut table, Entry::new(key(rt, b"up"), 1, slot));
    holdings_of(rt, alloc, b"a", table)
}

/// Returns how many blocks a cut of what a digest leaves has, and its length.
fn extent_after(
    rt: &impl Abort,
    alloc: Global,
    holdings: &Holdings,
    digest: &Digest,
) -> (usize, u64) {
    let delta = cut_after(rt, alloc, holdings, digest, 1_024);
    (delta.blocks().len(), delta.encoded_length())
}

/// Runs the example of `cut`.
#[test]
fn example_of_cut(rt: HostRuntime) {
    let alloc = rt.alloc();
    let digest = nothing(&rt, alloc, true);
    let found = extent_after(&rt, alloc, &one_flag(&rt, alloc), &digest);
    // 3 bytes, the block's 28, and the entry's 13.
    same(&rt, &found, &(1, 44));
}

/// How a block ends, how far its owner is then held, and the versions under the keys y and x.
type Taken = (BlockEnd, u64, Option<u64>, Option<u64>);

/// Returns what a peer makes of a block.
fn taken(rt: &impl Abort, alloc: Global, block: &Block) -> Taken {
    let mut peer = holdings_of(rt, alloc, b"b", Table::new(alloc));
    let end = apply(rt, &mut peer, block);
    let owner = block.owner();
    let y = version_at(rt, &peer, owner, b"y");
    let x = version_at(rt, &peer, owner, b"x");
    (end, peer.upto(owner), y, x)
}

/// Returns how long the frame of a cut of all is, and whether it contains just these writes. Also returns what a peer
/// makes of its first block.
fn told_and_taken(
    rt: &impl Abort,
    alloc: Global,
    holdings: &Holdings,
    wanted: &[(Name, u64)],
) -> ((u64, bool), Taken) {
    let delta = cut_of_all(rt, alloc, holdings, 1_024);
    let block = there(rt, delta.blocks().first());
    (tells(&delta, wanted), taken(rt, alloc, block))
}

#[test]
fn an_entry_that_does_not_fit_waits(rt: HostRuntime) {
    let alloc = rt.alloc();
    let holdings = three_writes(&rt, alloc);
    // The frame of the whole has 1,087 bytes.
    cut_of_a(&rt, alloc, &holdings, 1_024, 562, (2, 1));
    cut_of_a(&rt, alloc, &holdings, 1_086, 562, (2, 1));
    cut_of_a(&rt, alloc, &holdings, 1_087, 1_087, (3, 2));
    let found = told_and_taken(&rt, alloc, &holdings, &[(name(&rt, b"a"), 2)]);
    let wanted = (BlockEnd::Taken(1), 2, Some(2), None);
    same(&rt, &found, &((562, true), wanted));
}

/// The longest entry of all, with the longest name.
fn longest_of_all(rt: &impl Abort, alloc: Global) -> Holdings {
    let mut table = Table::new(alloc);
    enter(rt, &mut table, longest_value(rt, alloc, LONGEST_KEY, 1));
    holdings_of(rt, alloc, LONGEST_NAME, table)
}

#[test]
fn the_longest_entry_fits_the_least_budget(rt: HostRuntime) {
    let alloc = rt.alloc();
    let wanted = [(name(&rt, LONGEST_NAME), 0, 1, 1)];
    let found = cut_to(&rt, alloc, &longest_of_all(&rt, alloc), 1_024, &wanted);
    same(&rt, &found, &(656, true));
}

/// Ends the test unless a cut of all contains just the first `count` writes, in a frame of this length.
fn told_to(
    rt: &impl Abort,
    alloc: Global,
    holdings: &Holdings,
    budget: u64,
    count: usize,
    length: u64,
)
    requires least { BUDGET_LEAST ≤ budget }
    requires most { budget ≤ BUDGET_MOST }
{
    let (a, b) = (name(rt, b"a"), name(rt, b"b"));
    let all = [(a, 1), (a, 2), (a, 3), (b, 1)];
    let front = there(rt, all.get(..count));
    let found = tells(&cut_of_all(rt, alloc, holdings, budget), front);
    same_at(rt, &budget, &found, &(length, true));
}

#[test]
fn owners_follow_one_another(rt: HostRuntime) {
    let alloc = rt.alloc();
    let holdings = two_owners(&rt, alloc);
    told_to(&rt, alloc, &holdings, 1_024, 1, 625);
    told_to(&rt, alloc, &holdings, 1_212, 1, 625);
    told_to(&rt, alloc, &holdings, 1_213, 2, 1_213);
    told_to(&rt, alloc, &holdings, 1_240, 2, 1_213);
    told_to(&rt, alloc, &holdings, 1_241, 2, 1_213);
    told_to(&rt, alloc, &holdings, 1_800, 2, 1_213);
    told_to(&rt, alloc, &holdings, 1_801, 3, 1_801);
    told_to(&rt, alloc, &holdings, 2_416, 3, 1_801);
    told_to(&rt, alloc, &holdings, 2_417, 4, 2_417);
}

/// An item: its owner, what it is offered after and up to, its rank and count, and its version.
type Place = (Name, u64, u64, u64, u64, u64);

fn place(item: &Offered) -> Place {
    (
        item.owner,
        item.after,
        item.upto,
        item.rank,
        item.count,
        item.version(),
    )
}

/// Ends the test unless just these items are what a digest leaves.
fn leaves(rt: &impl Abort, alloc: Global, holdings: &Holdings, digest: &Digest, wanted: &[Place]) {
    let offered = got(rt, available(alloc, holdings, digest));
    let mut are_equal = offered.len() == wanted.len();
    for (item, wanted) in offered.iter().zip(wanted) {
        are_equal &= place(item) == *wanted;
    }
    same_at(rt, &wanted, &are_equal, &true);
}

#[test]
fn what_a_digest_leaves(rt: HostRuntime) {
    let alloc = rt.alloc();
    let (a, b) = (name(&rt, b"a"), name(&rt, b"b"));
    let holdings = two_owners(&rt, alloc);
    let of_a = [(a, 0, 3, 0, 3, 1), (a, 0, 3, 1, 3, 2), (a, 0, 3, 2, 3, 3)];
    let of_b = [(b, 0, 1, 0, 1, 1)];
    let rest = [(a, 1, 3, 0, 2, 2), (a, 1, 3, 1, 2, 3), (b, 0, 1, 0, 1, 1)];
    let digest = digest_of(&rt, alloc, None, None, &[(a, 1)]);
    leaves(&rt, alloc, &holdings, &digest, &rest);
    let digest = digest_of(&rt, alloc, Some(b), None, &[]);
    leaves(&rt, alloc, &holdings, &digest, &of_b);
    let digest = digest_of(&rt, alloc, None, Some(b), &[]);
    leaves(&rt, alloc, &holdings, &digest, &of_a);
    let digest = digest_of(&rt, alloc, None, None, &[(a, 3), (b, 1)]);
    leaves(&rt, alloc, &holdings, &digest, &[]);
}

#[test]
fn nothing_is_cut_of_nothing(rt: HostRuntime) {
    let alloc = rt.alloc();
    let held = [(name(&rt, b"a"), 3), (name(&rt, b"b"), 1)];
    let digest = digest_of(&rt, alloc, None, None, &held);
    let found = extent_after(&rt, alloc, &two_owners(&rt, alloc), &digest);
    // A frame of 9 bytes.
    same(&rt, &found, &(0, 3));
}

/// What a digest leaves, cut within the 2,417 bytes of its frame, if there is memory.
fn cut_or_none(alloc: Global, holdings: &Holdings, digest: &Digest) -> Result<Delta, Fault> {
    cut(alloc, available(alloc, holdings, digest)?, 2_417)
}

/// The same. It is made a second time if memory was refused.
fn cut_again(rt: &impl Abort, alloc: Global, holdings: &Holdings) -> Delta {
    let digest = nothing(rt, alloc, false);
    match cut_or_none(alloc, holdings, &digest) {
        Err(Fault::NoMemory) => got(rt, cut_or_none(alloc, holdings, &digest)),
        made => got(rt, made),
    }
}

/// The two owners. They are made a second time if memory was refused.
fn two_owners_again(rt: &impl Abort, alloc: Global, a: Name, b: Name) -> Holdings {
    match two_owners_or_none(alloc, a, b) {
        Err(Fault::NoMemory) => got(rt, two_owners_or_none(alloc, a, b)),
        made => got(rt, made),
    }
}

/// Whichever allocation is refused, what is held stays, and the next call answers.
#[test]
fn a_refused_cut_is_made_again(rt: HostRuntime) {
    let alloc = rt.alloc();
    let (a, b) = (name(&rt, b"a"), name(&rt, b"b"));
    let holdings = two_owners_again(&rt, alloc, a, b);
    let delta = cut_again(&rt, alloc, &holdings);
    let found = consists(&delta, &[(a, 0, 3, 3), (b, 0, 1, 1)]);
    same(&rt, &found, &(2_417, true));
}
