//! Digests that are made, refused, read and built, also of as many owners as a node may hold.
ghost use Rattle.std.specs.Prelude.{◌≤◌};

use crate::{entry, got, name, one, same, same_at, shared};
use sb_digest::{Digest, Pair, build};
use sb_holdings::Holdings;
use sb_table::Table;
use sb_types::{BUDGET_LEAST, BUDGET_MOST, Block, Entry, Fault, Name, SharedEntry, Slot, Value};
use std::alloc::{AllocError, Global};
use std::process::Abort;

/// Pairs of these owners, with the versions 1, 2 and so on.
fn gathered(alloc: Global, owners: &[Name]) -> Result<Vec<Pair>, AllocError> {
    let mut pairs = Vec::new(alloc);
    for (upto, owner) in (1..).zip(owners) {
        pairs.push(Pair::new(*owner, upto, None))?;
    }
    Ok(pairs)
}

/// The pairs. They are made a second time if memory was refused.
fn pairs(rt: &impl Abort, alloc: Global, owners: &[Name]) -> Vec<Pair> {
    match gathered(alloc, owners) {
        Err(AllocError) => got(rt, gathered(alloc, owners)),
        Ok(pairs) => pairs,
    }
}

/// A name of this letter, 32 times.
fn long_name(rt: &impl Abort, letter: u8) -> Name {
    name(rt, &[letter; 32])
}

fn six_owners(rt: &impl Abort) -> [Name; 6] {
    [
        long_name(rt, b'a'),
        long_name(rt, b'b'),
        long_name(rt, b'c'),
        long_name(rt, b'd'),
        long_name(rt, b'e'),
        long_name(rt, b'f'),
    ]
}

/// A digest up to b, with a held up to 3.
fn example(rt: &impl Abort, alloc: Global, a: Name, b: Name) -> Digest {
    let pairs = one(rt, alloc, Pair::new(a, 3, None));
    got(rt, Digest::new(true, None, Some(b), pairs))
}

/// Runs the example of `Digest`: which of a and b it covers, how far it reports a as held, and its next beginning.
#[test]
fn example_of_digest(rt: HostRuntime) {
    let [a, b] = [name(&rt, b"a"), name(&rt, b"b")];
    let digest = example(&rt, rt.alloc(), a, b);
    let are_covered = [digest.covers(&a), digest.covers(&b)];
    let found = (
        are_covered,
        digest.start(&a, 0, 5).after,
        digest.next_from(),
    );
    same(&rt, &found, &([true, false], 3, Some(b)));
}

/// Returns how long the payload of a digest of these owners' pairs is. Ends the test if there is no memory.
fn length(
    rt: &impl Abort,
    alloc: Global,
    from: Option<Name>,
    until: Option<Name>,
    owners: &[Name],
) -> Result<u64, Fault> {
    match Digest::new(true, from, until, pairs(rt, alloc, owners)) {
        Ok(digest) => Ok(digest.encoded_length()),
        Err(Fault::NoMemory) => panic!(rt; "error: NoMemory"),
        Err(fault) => Err(fault),
    }
}

#[test]
fn lengths_of_payloads(rt: HostRuntime) {
    let owners = six_owners(&rt);
    let (five, sixth) = owners.split_at(5);
    let last = owners[5];
    let first_five = length(&rt, rt.alloc(), None, Some(last), five);
    let from_sixth = length(&rt, rt.alloc(), Some(last), None, sixth);
    let all = length(&rt, rt.alloc(), None, None, &owners);
    same(
        &rt,
        &[first_five, from_sixth, all],
        &[Ok(323), Ok(95), Ok(348)],
    );
}

/// Asserts that no digest has these bounds and owners.
fn assert_none(
    rt: &impl Abort,
    alloc: Global,
    from: Option<Name>,
    until: Option<Name>,
    owners: [Name; 2],
) {
    let found = length(rt, alloc, from, until, &owners);
    same(rt, &found, &Err(Fault::Malformed(2)));
}

/// Asserts that no digest without owners has these bounds.
fn assert_no_range(rt: &impl Abort, alloc: Global, from: Name, until: Name) {
    let found = length(rt, alloc, Some(from), Some(until), &[]);
    same(rt, &found, &Err(Fault::Malformed(2)));
}

#[test]
fn parts_that_make_no_digest(rt: HostRuntime) {
    let alloc = rt.alloc();
    let [a, b, c] = [name(&rt, b"a"), name(&rt, b"b"), name(&rt, b"c")];
    assert_none(&rt, alloc, None, Some(b), [a, b]);
    assert_none(&rt, alloc, None, Some(b), [a, c]);
    assert_none(&rt, alloc, Some(b), None, [a, b]);
    assert_no_range(&rt, alloc, b, b);
    assert_no_range(&rt, alloc, c, b);
    assert_none(&rt, alloc, None, None, [a, a]);
    assert_none(&rt, alloc, None, None, [b, a]);
    let whole = length(&rt, alloc, Some(a), Some(c), &[a, b]);
    same(&rt, &whole, &Ok(60));
}

/// The extent of a digest: whether it wants an answer, its bounds, the next one's first name, its number of pairs, and
/// its payload's length.
type Extent = (bool, Option<Name>, Option<Name>, Option<Name>, usize, u64);

fn extent(digest: &Digest) -> Extent {
    (
        digest.want(),
        digest.from(),
        digest.until(),
        digest.next_from(),
        digest.pairs().len(),
        digest.encoded_length(),
    )
}

/// The extent of a digest that wants an answer. The next digest begins where it ends.
fn wanting(from: Option<Name>, until: Option<Name>, pairs: usize, length: u64) -> Extent {
    let next_from = until;
    (true, from, until, next_from, pairs, length)
}

/// Returns whether it covers just the wanted owners, and reports each as held up to the wanted version.
fn are_told(digest: &Digest, owners: &[Name], wanted: &[(bool, u64)]) -> bool {
    let mut are_right = owners.len() == wanted.len();
    for (owner, (is_covered, held)) in owners.iter().zip(wanted) {
        are_right &= digest.covers(owner) == *is_covered
            && digest.start(owner, 0, 9).after == *held;
    }
    are_right
}

/// A digest from b up to d, with pairs of b and c.
fn of_b_and_c(rt: &impl Abort, alloc: Global, [_, b, c, d]: [Name; 4]) -> Digest {
    let pairs = pairs(rt, alloc, &[b, c]);
    got(rt, Digest::new(false, Some(b), Some(d), pairs))
}

#[test]
fn a_digest_is_read(rt: HostRuntime) {
    let owners = [
        name(&rt, b"a"),
        name(&rt, b"b"),
        name(&rt, b"c"),
        name(&rt, b"d"),
    ];
    let [_, b, _, d] = owners;
    let digest = of_b_and_c(&rt, rt.alloc(), owners);
    let told = [(false, 0), (true, 1), (true, 2), (false, 0)];
    let found = (extent(&digest), are_told(&digest, &owners, &told));
    let wanted = (false, Some(b), Some(d), Some(d), 2, 60);
    same(&rt, &found, &(wanted, true));
}

/// A pair of a, held up to 5, with a stage of floor 9 and progress 7.
fn staged(rt: &impl Abort) -> Pair {
    Pair::new(name(rt, b"a"), 5, Some((9, 7)))
}

/// The version above which a sender of this floor and this held version offers the table of an owner. Then the floor
/// under which it offers that.
fn start(rt: &impl Abort, digest: &Digest, owner: &[u8], floor: u64, upto: u64) -> (u64, u64) {
    let start = digest.start(&name(rt, owner), floor, upto);
    (start.after, start.floor)
}

/// A sender whose floor is at or below the held version offers what is above that, under its own floor.
#[test]
fn a_peer_that_reaches_the_floor(rt: HostRuntime) {
    let pairs = one(&rt, rt.alloc(), staged(&rt));
    let digest = got(&rt, Digest::new(true, None, None, pairs));
    same(&rt, &start(&rt, &digest, b"a", 0, 20), &(5, 0));
    same(&rt, &start(&rt, &digest, b"a", 5, 20), &(5, 5));
    same(&rt, &start(&rt, &digest, b"a", 3, 4), &(5, 3));
}

/// Here a sender's floor is above the held version, and at or below the stage's. It continues the stage if it holds as
/// far as the stage's floor.
#[test]
fn a_stage_that_can_go_on(rt: HostRuntime) {
    let pairs = one(&rt, rt.alloc(), staged(&rt));
    let digest = got(&rt, Digest::new(true, None, None, pairs));
    same(&rt, &start(&rt, &digest, b"a", 6, 9), &(7, 9));
    same(&rt, &start(&rt, &digest, b"a", 9, 9), &(7, 9));
    same(&rt, &start(&rt, &digest, b"a", 9, 20), &(7, 9));
}

/// Every other sender offers all, as if it were purged as far as it holds.
#[test]
fn a_stage_that_cannot_go_on(rt: HostRuntime) {
    let pairs = one(&rt, rt.alloc(), staged(&rt));
    let digest = got(&rt, Digest::new(true, None, None, pairs));
    same(&rt, &start(&rt, &digest, b"a", 6, 8), &(0, 8));
    same(&rt, &start(&rt, &digest, b"a", 10, 20), &(0, 20));
    same(&rt, &start(&rt, &digest, b"b", 6, 20), &(0, 20));
    same(&rt, &start(&rt, &digest, b"b", 0, 20), &(0, 0));
}

/// The two numbers of a stage may have any values.
#[test]
fn a_stage_of_any_numbers_is_told(rt: HostRuntime) {
    let pairs = one(&rt, rt.alloc(), Pair::new(name(&rt, b"a"), 3, Some((0, 5))));
    let digest = got(&rt, Digest::new(true, None, None, pairs));
    same(&rt, &start(&rt, &digest, b"a", 0, 9), &(3, 0));
    same(&rt, &start(&rt, &digest, b"a", 3, 9), &(3, 3));
    same(&rt, &start(&rt, &digest, b"a", 4, 9), &(0, 9));
    same(
        &rt,
        &start(&rt, &digest, b"a", u64::MAX, u64::MAX),
        &(0, u64::MAX),
    );
    same(&rt, &start(&rt, &digest, b"b", 4, 9), &(0, 9));
    same(&rt, &digest.encoded_length(), &32);
}

/// The digest. It is asked for a second time if memory was refused.
fn asked(
    rt: &impl Abort,
    alloc: Global,
    holdings: &Holdings,
    from: Option<&Name>,
    want: bool,
    budget: u64,
) -> Digest
    requires least { BUDGET_LEAST ≤ budget }
    requires most { budget ≤ BUDGET_MOST }
{
    match build(alloc, holdings, from.copied(), want, budget) {
        Err(Fault::NoMemory) => got(rt, build(alloc, holdings, from.copied(), want, budget)),
        built => got(rt, built),
    }
}

/// Returns the extent of the digest that is asked for. Also returns whether it covers just the wanted owners, and
/// reports each as held up to the wanted version.
fn told(
    rt: &impl Abort,
    alloc: Global,
    holdings: &Holdings,
    from: Option<&Name>,
    budget: u64,
    owners: &[Name],
    wanted: &[(bool, u64)],
) -> (Extent, bool)
    requires least { BUDGET_LEAST ≤ budget }
    requires most { budget ≤ BUDGET_MOST }
{
    let digest = asked(rt, alloc, holdings, from, true, budget);
    (extent(&digest), are_told(&digest, owners, wanted))
}

/// What a node holds that knows no other node. It is made a second time if memory was refused.
fn alone(rt: &impl Abort, alloc: Global, me: Name) -> Holdings {
    match Holdings::new(alloc, me, Table::new(alloc)) {
        Err(Fault::NoMemory) => got(rt, Holdings::new(alloc, me, Table::new(alloc))),
        made => got(rt, made),
    }
}

/// Returns whether these are its pairs.
fn are_pairs(digest: &Digest, wanted: &[(Name, u64)]) -> bool {
    let mut are_equal = digest.pairs().len() == wanted.len();
    for (pair, (owner, upto)) in digest.pairs().iter().zip(wanted) {
        are_equal &= pair.owner == *owner && pair.upto == *upto;
    }
    are_equal
}

/// Asserts the pairs and the length of the digest that is asked for from a name on.
fn assert_paired(
    rt: &impl Abort,
    alloc: Global,
    holdings: &Holdings,
    from: Option<&Name>,
    pairs: &[(Name, u64)],
    length: u64,
) {
    let digest = asked(rt, alloc, holdings, from, true, 1_024);
    let found = (extent(&digest), are_pairs(&digest, pairs));
    let wanted = wanting(from.copied(), None, pairs.len(), length);
    same(rt, &found, &(wanted, true));
}

#[test]
fn a_new_node_tells_of_itself(rt: HostRuntime) {
    let alloc = rt.alloc();
    let [a, b] = [name(&rt, b"a"), name(&rt, b"b")];
    let holdings = alone(&rt, alloc, a);
    assert_paired(&rt, alloc, &holdings, None, &[(a, 0)], 32);
    assert_paired(&rt, alloc, &holdings, Some(&b), &[], 7);
}

/// Takes the owner's write of a version twice, so that it is held even if memory was refused once.
fn hold(rt: &impl Abort, alloc: Global, holdings: &mut Holdings, owner: &Name, version: u64)
    requires { 1 ≤ version }
{
    hold_once(rt, alloc, holdings, owner, version);
    hold_once(rt, alloc, holdings, owner, version);
}

fn hold_once(rt: &impl Abort, alloc: Global, holdings: &mut Holdings, owner: &Name, version: u64)
    requires { 1 ≤ version }
{
    if let Ok(block) = write(rt, alloc, owner, version) {
        holdings.apply_block(&block);
    }
}

/// A block of the owner's write of this version.
fn write(rt: &impl Abort, alloc: Global, owner: &Name, version: u64) -> Result<Block, Fault>
    requires { 1 ≤ version }
{
    let entry = SharedEntry::new(alloc, flag(rt, version))?;
    let entries = vec![in alloc; entry]?;
    Block::new(*owner, 0, version - 1, version, entries)
}

fn flag(rt: &impl Abort, version: u64) -> Entry
    requires { 1 ≤ version }
{
    entry(rt, b"up", version, Slot::Set(Value::flag(true)))
}

/// Asserts what a digest has after a's write of a version came: its number of pairs, its length, and how far a is held.
fn assert_held(
    rt: &impl Abort,
    alloc: Global,
    holdings: &mut Holdings,
    version: u64,
    wanted: (usize, u64, u64),
)
    requires { 1 ≤ version }
{
    let (pairs, length, held) = wanted;
    let [a, b] = [name(rt, b"a"), name(rt, b"b")];
    hold(rt, alloc, holdings, &a, version);
    let (owners, numbers) = ([a, b], [(true, held), (true, 0)]);
    let found = told(rt, alloc, holdings, None, 1_024, &owners, &numbers);
    same(rt, &found, &(wanting(None, None, pairs, length), true));
}

#[test]
fn a_digest_tells_how_far_blocks_are_held(rt: HostRuntime) {
    let alloc = rt.alloc();
    let mut holdings = alone(&rt, alloc, name(&rt, b"b"));
    // First a gap.
    assert_held(&rt, alloc, &mut holdings, 3, (1, 32, 0));
    assert_held(&rt, alloc, &mut holdings, 1, (2, 58, 1));
    assert_held(&rt, alloc, &mut holdings, 2, (2, 58, 2));
    assert_held(&rt, alloc, &mut holdings, 3, (2, 58, 3));
}

/// What b holds after it wrote one flag. It is entered a second time if memory was refused.
fn with_a_write(rt: &impl Abort, alloc: Global, b: Name) -> Holdings {
    let mut holdings = alone(rt, alloc, b);
    if holdings.push_own(flag(rt, 1)).is_err() {
        got(rt, holdings.push_own(flag(rt, 1)));
    }
    holdings
}

#[test]
fn a_node_with_a_write_answers(rt: HostRuntime) {
    let b = name(&rt, b"b");
    let holdings = with_a_write(&rt, rt.alloc(), b);
    let digest = asked(&rt, rt.alloc(), &holdings, None, false, 1_024);
    let found = (extent(&digest), are_pairs(&digest, &[(b, 1)]));
    same(&rt, &found, &((false, None, None, None, 1, 32), true));
}

/// b holds the first part of a stage of a: floor 5, with version 2, up to 3.
fn with_a_stage(rt: &impl Abort, alloc: Global, a: Name, b: Name) -> Holdings {
    let mut holdings = alone(rt, alloc, b);
    let entry = shared(rt, alloc, flag(rt, 2));
    let block = got(rt, Block::new(a, 5, 0, 3, one(rt, alloc, entry)));
    holdings.apply_block(&block);
    // Once more, so that it is held even if memory was refused. Otherwise this is a gap.
    holdings.apply_block(&block);
    holdings
}

#[test]
fn a_digest_tells_how_far_a_stage_has_come(rt: HostRuntime) {
    let [a, b] = [name(&rt, b"a"), name(&rt, b"b")];
    let holdings = with_a_stage(&rt, rt.alloc(), a, b);
    let digest = asked(&rt, rt.alloc(), &holdings, None, true, 1_024);
    let found = (are_pairs(&digest, &[(a, 0), (b, 0)]), extent(&digest));
    same(&rt, &found, &(true, wanting(None, None, 2, 58)));
    same(&rt, &start(&rt, &digest, b"a", 0, 9), &(0, 0));
    same(&rt, &start(&rt, &digest, b"a", 4, 9), &(3, 5));
    same(&rt, &start(&rt, &digest, b"a", 5, 9), &(3, 5));
    same(&rt, &start(&rt, &digest, b"a", 6, 9), &(0, 9));
    same(&rt, &start(&rt, &digest, b"a", 3, 4), &(0, 4));
    same(&rt, &start(&rt, &digest, b"b", 5, 9), &(0, 9));
}

/// What a node holds besides the first write of each of these.
fn holding(rt: &impl Abort, alloc: Global, me: Name, owners: &[Name]) -> Holdings {
    let mut holdings = alone(rt, alloc, me);
    for owner in owners {
        hold(rt, alloc, &mut holdings, owner, 1);
    }
    holdings
}

/// What a holds besides the first writes of b and c.
fn a_beside_b_and_c(rt: &impl Abort, alloc: Global) -> Holdings {
    let owners = [name(rt, b"b"), name(rt, b"c")];
    holding(rt, alloc, name(rt, b"a"), &owners)
}

const BELOW: (bool, u64) = (false, 0);

const AT_0: (bool, u64) = (true, 0);

const AT_1: (bool, u64) = (true, 1);

/// Asserts the pairs and the length of the digest that begins at a name, and what it reports of a, ab, b, c and ca.
fn assert_range(
    rt: &impl Abort,
    alloc: Global,
    holdings: &Holdings,
    from: &[u8],
    (pairs, length): (usize, u64),
    numbers: [(bool, u64); 5],
) {
    let owners = [
        name(rt, b"a"),
        name(rt, b"ab"),
        name(rt, b"b"),
        name(rt, b"c"),
        name(rt, b"ca"),
    ];
    let from = name(rt, from);
    let found = told(rt, alloc, holdings, Some(&from), 1_024, &owners, &numbers);
    let wanted = (wanting(Some(from), None, pairs, length), true);
    same_at(rt, &from, &found, &wanted);
}

fn assert_ranges(rt: &impl Abort, alloc: Global, holdings: &Holdings) {
    let [from_ab, from_c, from_ca] = [
        [BELOW, AT_0, AT_1, AT_1, AT_0],
        [BELOW, BELOW, BELOW, AT_1, AT_0],
        [BELOW, BELOW, BELOW, BELOW, AT_0],
    ];
    assert_range(rt, alloc, holdings, b"ab", (2, 60), from_ab);
    assert_range(rt, alloc, holdings, b"c", (1, 33), from_c);
    assert_range(rt, alloc, holdings, b"ca", (0, 8), from_ca);
}

#[test]
fn a_range_begins_at_any_name(rt: HostRuntime) {
    let holdings = a_beside_b_and_c(&rt, rt.alloc());
    assert_ranges(&rt, rt.alloc(), &holdings);
}

/// A part of a digest: how many pairs it has, how long its payload is, and what it reports.
type Part<'a> = (usize, u64, &'a [(bool, u64)]);

/// Asserts that the digest from a name on, up to another, is this part, and reports this of the owners.
fn assert_part(
    rt: &impl Abort,
    alloc: Global,
    holdings: &Holdings,
    budget: u64,
    owners: &[Name],
    bounds: (Option<&Name>, Option<&Name>),
    part: Part<'_>,
)
    requires least { BUDGET_LEAST ≤ budget }
    requires most { budget ≤ BUDGET_MOST }
{
    let ((from, until), (pairs, length, numbers)) = (bounds, part);
    let found = told(rt, alloc, holdings, from, budget, owners, numbers);
    let wanted = wanting(from.copied(), until.copied(), pairs, length);
    same_at(rt, &budget, &found, &(wanted, true));
}

/// 18 names, each of one letter 32 times.
fn many_owners(rt: &impl Abort) -> [Name; 18] {
    let mut owners = [long_name(rt, b'a'); 18];
    let mut letter = b'a';
    for owner in owners.iter_mut() {
        *owner = long_name(rt, letter);
        letter = letter.wrapping_add(1);
    }
    owners
}

// What is reported of the first owner, and of the last three.

const FIRST_17: Part<'static> = (17, 1_007, &[AT_0, AT_1, AT_1, BELOW]);

const LAST_ONE: Part<'static> = (1, 95, &[BELOW, BELOW, BELOW, AT_1]);

const ALL: Part<'static> = (18, 1_032, &[AT_0, AT_1, AT_1, AT_1]);

fn assert_many(rt: &impl Abort, alloc: Global, held: &Holdings, ends: &[Name; 4]) {
    let last = &ends[3];
    assert_part(rt, alloc, held, 1_024, ends, (None, Some(last)), FIRST_17);
    assert_part(rt, alloc, held, 1_024, ends, (Some(last), None), LAST_ONE);
    assert_part(rt, alloc, held, 1_037, ends, (None, Some(last)), FIRST_17);
    assert_part(rt, alloc, held, 1_038, ends, (None, None), ALL);
}

#[test]
fn many_owners_take_two_digests(rt: HostRuntime) {
    let owners = many_owners(&rt);
    let ends = [owners[0], owners[15], owners[16], owners[17]];
    let holdings = holding(&rt, rt.alloc(), owners[0], &owners);
    assert_many(&rt, rt.alloc(), &holdings, &ends);
}

// What is reported of the last of 17 owners, of the next one and of the last of all.

const FRONT: Part<'static> = (17, 1_007, &[AT_1, BELOW, BELOW]);

const REST: Part<'static> = (2, 152, &[BELOW, AT_1, AT_0]);

const ALL_BUT_OWN: Part<'static> = (18, 1_064, &[AT_1, AT_1, BELOW]);

const OWN: Part<'static> = (1, 95, &[BELOW, BELOW, AT_0]);

const WITH_OWN: Part<'static> = (19, 1_089, &[AT_1, AT_1, AT_0]);

fn assert_ended(rt: &impl Abort, alloc: Global, held: &Holdings, ends: &[Name; 3]) {
    let [_, next, own] = ends;
    assert_part(rt, alloc, held, 1_024, ends, (None, Some(next)), FRONT);
    assert_part(rt, alloc, held, 1_024, ends, (Some(next), None), REST);
    assert_part(rt, alloc, held, 1_069, ends, (None, Some(next)), FRONT);
    assert_part(rt, alloc, held, 1_070, ends, (None, Some(own)), ALL_BUT_OWN);
    assert_part(rt, alloc, held, 1_094, ends, (None, Some(own)), ALL_BUT_OWN);
    assert_part(rt, alloc, held, 1_094, ends, (Some(own), None), OWN);
    assert_part(rt, alloc, held, 1_095, ends, (None, None), WITH_OWN);
}

/// The digest meets owners after those that it has room for before it is cut. The own name is the last.
#[test]
fn the_own_name_may_be_last(rt: HostRuntime) {
    let owners = many_owners(&rt);
    let own = long_name(&rt, b'z');
    let holdings = holding(&rt, rt.alloc(), own, &owners);
    let ends = [owners[16], owners[17], own];
    assert_ended(&rt, rt.alloc(), &holdings, &ends);
}

/// A name of 32 letters for each number.
fn numbered_name(rt: &impl Abort, number: u64) -> Name {
    let mut text = [b'a'; 32];
    let mut rest = number;
    for letter in text.iter_mut() {
        *letter = b'a' + (rest % 26) as u8;
        rest /= 26;
    }
    name(rt, &text)
}

fn hold_first(rt: &impl Abort, alloc: Global, holdings: &mut Holdings, owner: Name) {
    let block = got(rt, write(rt, alloc, &owner, 1));
    holdings.apply_block(&block);
}

/// As many owners as a node may hold. The own name has no write, and each other owner has one.
fn holdings_of_all_owners(rt: &impl Abort, alloc: Global) -> Holdings {
    let mut holdings = alone(rt, alloc, numbered_name(rt, 0));
    for number in 1..1_024 {
        hold_first(rt, alloc, &mut holdings, numbered_name(rt, number));
    }
    holdings
}

/// At the greatest budget one digest has all 1,024 owners.
fn assert_all(rt: &impl Abort, alloc: Global, holdings: &Holdings) {
    let ends = [numbered_name(rt, 0), numbered_name(rt, 1_023)];
    let numbers = [AT_0, AT_1];
    let all = told(rt, alloc, holdings, None, 65_536, &ends, &numbers);
    same(rt, &all, &(wanting(None, None, 1_024, 58_374), true));
}

/// At the least budget the digest of this turn has a few owners, from a name on. Returns where the next one begins.
fn assert_turn(
    rt: &impl Abort,
    alloc: Global,
    holdings: &Holdings,
    from: Option<&Name>,
    turn: u32,
) -> Option<Name> {
    let digest = asked(rt, alloc, holdings, from, true, 1_024);
    let (pairs, length) = match turn {
        0 => (17, 1_007),
        63 => (15, 893),
        _ => (16, 982),
    };
    let wanted = wanting(from.copied(), digest.until(), pairs, length);
    same_at(rt, &turn, &extent(&digest), &wanted);
    digest.next_from()
}

fn assert_turns(rt: &impl Abort, alloc: Global, holdings: &Holdings) {
    let mut from = None;
    for turn in 0..64_u32 {
        let next_from = assert_turn(rt, alloc, holdings, from.as_ref(), turn);
        from = next_from;
    }
    same(rt, &from, &None);
}

/// At the greatest budget one digest has all 1,024 owners. At the least budget each has a few.
#[test]
fn all_owners_are_told_of(rt: HostRuntime) {
    let holdings = holdings_of_all_owners(&rt, rt.alloc());
    assert_all(&rt, rt.alloc(), &holdings);
    assert_turns(&rt, rt.alloc(), &holdings);
}

/// Returns the extent of a digest of at most 1,024 bytes, unless there is no memory.
fn built(alloc: Global, holdings: &Holdings, from: Name, want: bool) -> Result<Extent, Fault> {
    match build(alloc, holdings, Some(from), want, 1_024) {
        Ok(digest) => Ok(extent(&digest)),
        Err(fault) => Err(fault),
    }
}

/// Returns the extents of two digests of a new node: from its own name on, and from z on, which is after all names.
fn first_and_rest(alloc: Global, me: Name, z: Name) -> Result<(Extent, Extent), Fault> {
    let holdings = Holdings::new(alloc, me, Table::new(alloc))?;
    let first = built(alloc, &holdings, me, true)?;
    Ok((first, built(alloc, &holdings, z, false)?))
}

/// Whichever allocation is refused, a digest is complete, or there is a fault in place of it.
#[test]
fn a_digest_is_whole_or_not_there(rt: HostRuntime) {
    let [a, z] = [name(&rt, b"a"), name(&rt, b"z")];
    match first_and_rest(rt.alloc(), a, z) {
        Ok(found) => {
            let first = wanting(Some(a), None, 1, 33);
            let rest = (false, Some(z), None, None, 0, 7);
            same(&rt, &found, &(first, rest));
        }
        Err(fault) => same(&rt, &fault, &Fault::NoMemory),
    }
}
