//! A delta is the same whether it is made from a list of all that a peer lacks, or without one. A thousand made-up
//! holdings show it.
ghost use Rattle.std.specs.Prelude.{◌≤◌, ◌<◌};

use crate::making::{address, apply, arranged, entries_in, items, longest};
use crate::{got, key, name, push, push_entry, same_at};
use rand_core::utils::NextWord;
use rand_pcg::Pcg32;
use sb_breadth::Breadth;
use sb_budget::{DeltaOrder, cut};
use sb_codec::{Message, encode_payload};
use sb_depth::Depth;
use sb_digest::{Digest, Pair};
use sb_holdings::Holdings;
use sb_table::Table;
use sb_types::{BUDGET_LEAST, BUDGET_MOST, Block, Delta, Entry, Key, Name, Slot, Value};
use std::alloc::Global;
use std::process::Abort;

/// How many holdings are made up.
const HOLDINGS: u64 = 1_000;

/// Returns a number below another.
fn below(random: &mut Pcg32, limit: u32) -> u64
    requires { 0 < limit }
    ensures { result < limit }
{
    u64::from(random.next_word() % limit)
}

/// A value to write, of 1 to 515 bytes in a message, or a removal.
fn slot_of(rt: &impl Abort, alloc: Global, random: &mut Pcg32) -> Slot {
    match below(random, 5) {
        0 => Slot::Removed,
        1 => Slot::Set(Value::flag(true)),
        2 => Slot::Set(got(rt, Value::weight(below(random, 1_000)))),
        3 => address(rt, alloc),
        _ => longest(rt, alloc),
    }
}

/// One of eight keys.
fn key_of(rt: &impl Abort, number: u64) -> Key {
    key(rt, &[b'k', b'a' + (number % 8) as u8])
}

/// What an owner wrote in a round, above all rounds before: up to six keys, some of them written again.
fn round_of(
    rt: &impl Abort,
    alloc: Global,
    random: &mut Pcg32,
    owner: Name,
    round: u64,
    after: u64,
) -> Block
    requires { round < 4 }
{
    let first = below(random, 8);
    let mut entries = Vec::new(alloc);
    let last = below(random, 6);
    for number in 0..=last {
        let version = round * 8 + number + 1;
        let key = key_of(rt, first + number);
        let entry = Entry::new(key, version, slot_of(rt, alloc, random));
        push_entry(rt, &mut entries, entry);
    }
    got(
        rt,
        Block::new(owner, 0, after, round * 8 + last + 1, entries),
    )
}

/// Up to seven own writes, under some of eight keys.
fn write_own(rt: &impl Abort, alloc: Global, random: &mut Pcg32, holdings: &mut Holdings) {
    for number in 0..below(random, 7) {
        let key = key_of(rt, below(random, 8));
        let entry = Entry::new(key, number + 1, slot_of(rt, alloc, random));
        got(rt, holdings.push_own(entry));
    }
}

/// What another owner wrote in up to three rounds.
fn write_other(
    rt: &impl Abort,
    alloc: Global,
    random: &mut Pcg32,
    holdings: &mut Holdings,
    owner: Name,
) {
    for round in 0..below(random, 4) {
        let block = round_of(rt, alloc, random, owner, round, holdings.upto(&owner));
        apply(rt, holdings, &block);
    }
}

/// Holdings of up to seven owners. Each wrote up to eight keys in up to three rounds.
fn made_holdings(rt: &impl Abort, alloc: Global, random: &mut Pcg32) -> Holdings {
    let mut holdings = got(rt, Holdings::new(alloc, name(rt, b"d"), Table::new(alloc)));
    write_own(rt, alloc, random, &mut holdings);
    for letter in [b'a', b'b', b'c', b'e', b'f', b'g'] {
        write_other(rt, alloc, random, &mut holdings, name(rt, &[letter]));
    }
    holdings
}

/// About half of the owners from one letter on and before another, each held up to any version.
fn made_pairs(
    rt: &impl Abort,
    alloc: Global,
    random: &mut Pcg32,
    first: u8,
    behind: u8,
) -> Vec<Pair> {
    let mut pairs = Vec::new(alloc);
    for letter in first..behind {
        if below(random, 2) == 1 {
            let upto = below(random, 40);
            let staged = match below(random, 3) {
                0 => Some((below(random, 40), below(random, 40))),
                _ => None,
            };
            let pair = Pair::new(name(rt, &[letter]), upto, staged);
            push(rt, &mut pairs, pair);
        }
    }
    pairs
}

/// A digest that a peer may send: about half of the owners, each held up to any version, of all names or of a range.
fn made_digest(rt: &impl Abort, alloc: Global, random: &mut Pcg32) -> Digest {
    let (first, from) = match below(random, 2) {
        0 => (b'a', None),
        _ => (b'c', Some(name(rt, b"c"))),
    };
    let (behind, until) = match below(random, 2) {
        0 => (b'f', Some(name(rt, b"f"))),
        _ => (b'h', None),
    };
    let pairs = made_pairs(rt, alloc, random, first, behind);
    got(rt, Digest::new(false, from, until, pairs))
}

/// The least budget, the greatest, or one between them.
fn made_budget(random: &mut Pcg32) -> u64
    ensures least { BUDGET_LEAST ≤ result }
    ensures most { result ≤ BUDGET_MOST }
{
    match below(random, 4) {
        0 => BUDGET_LEAST,
        1 => BUDGET_MOST,
        _ => BUDGET_LEAST + below(random, 1_000),
    }
}

fn payload_of(rt: &impl Abort, alloc: Global, delta: Delta) -> Vec<u8> {
    got(rt, encode_payload(alloc, &Message::Delta(delta)))
}

/// Returns whether two deltas are the same in a message.
fn are_equal(rt: &impl Abort, alloc: Global, one: Delta, other: Delta) -> bool {
    payload_of(rt, alloc, one) == payload_of(rt, alloc, other)
}

/// Returns whether both ways make the same delta, and whether it leaves something out.
fn compare<O: DeltaOrder>(
    rt: &impl Abort,
    alloc: Global,
    order: &O,
    holdings: &Holdings,
    digest: &Digest,
    budget: u64,
) -> (bool, bool)
    requires least { BUDGET_LEAST ≤ budget }
    requires most { budget ≤ BUDGET_MOST }
{
    let listed = items(rt, arranged(alloc, holdings, digest, order));
    let lacking = listed.len();
    let cut = got(rt, cut(alloc, listed, budget));
    let walked = got(rt, order.delta(alloc, holdings, digest, budget));
    let is_cut_short = entries_in(&walked) < lacking;
    (are_equal(rt, alloc, cut, walked), is_cut_short)
}

/// Returns whether both ways make the same delta of made-up holdings, by breadth and by depth. Also returns whether it
/// leaves something out by breadth.
fn compare_made(rt: &impl Abort, alloc: Global, random: &mut Pcg32) -> ([bool; 2], bool) {
    let holdings = made_holdings(rt, alloc, random);
    let digest = made_digest(rt, alloc, random);
    let budget = made_budget(random);
    let (wide, is_short) = compare(rt, alloc, &Breadth, &holdings, &digest, budget);
    let (deep, _) = compare(rt, alloc, &Depth, &holdings, &digest, budget);
    ([wide, deep], is_short)
}

#[test]
fn both_ways_make_one_delta(rt: HostRuntime) {
    let mut random = Pcg32::new(42, 54);
    let mut cut_short = 0_u64;
    for number in 0..HOLDINGS {
        let (are_equal, is_short) = compare_made(&rt, rt.alloc(), &mut random);
        same_at(&rt, &number, &are_equal, &[true, true]);
        cut_short = cut_short.wrapping_add(u64::from(is_short));
    }
    // Not only of holdings that fit a frame.
    same_at(&rt, &cut_short, &(cut_short > HOLDINGS / 8), &true);
}
