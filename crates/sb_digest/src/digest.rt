//! Digests and their pairs: their parts, their lengths, and what they report of an owner.
ghost use Rattle.std.specs.Prelude.{◌≡◌, ◌≤◌, ◌+◌, ◌*◌, ◌&&◌, [], nat_le, true, Some, None, OnSome, sum_by, if◌then◌else◌, Ok, Err};
ghost use Rattle.std.specs.List.{list_all};
ghost use Rattle.std.specs.Option.{option_copied};
ghost use Rattle.sb_holdings.specs.Plain.{is_from};
ghost use Rattle.sb_digest.specs.Digests.{digest_of, staged_pair, is_below, covers, goes_on_at, number_by, number_in, floor_by, floor_in, at_or_below};
ghost use Rattle.sb_digest.specs.Lengths.{bound_length, pair_length, digest_length};
ghost use Rattle.sb_digest.specs.Limits.{are_pairs_above, is_range, are_digest_parts, is_bound, is_pair, is_digest};

use sb_types::{
    BYTE_LENGTH, COUNT_LENGTH, Fault, KIND_DIGEST, NAME_LENGTH_MOST, NUMBER_LENGTH, Name,
    PAYLOAD_MOST,
};
use std::marker::Model;

/// How far one owner's writes are held: `upto` is the held version, or 0 if the owner is not held. If a stage will
/// replace the shown table, `staged_floor` is its purge floor, and `progress` the version up to which it has arrived.
/// Without a stage both are 0.
#[derive(Clone, Copy, Debug)]
pub struct Pair {
    pub owner: Name,
    pub upto: u64,
    pub staged_floor: u64,
    pub progress: u64,
}

impl Model for Pair {
    ghost use Rattle.std.specs.Prelude.{◌<◌, ◌^◌};
    ghost use Rattle.sb_digest.specs.Digests as digests;

    ghost Value = { digests.Pair };

    ghost view = { λ p. record { owner = p.owner; held = p.upto; floor = p.staged_floor; progress = p.progress } };

    ghost invariant = { λ p. (p.upto < 2 ^ 64) × (p.staged_floor < 2 ^ 64) × (p.progress < 2 ^ 64) };

    ghost inverse = { λ p. record { owner = p.owner; upto = p.held; staged_floor = p.floor; progress = p.progress } };
}

/// How a sender begins to offer an owner's table to a peer whose digest it has.
#[derive(Clone, Copy, Debug)]
pub struct Start {
    /// The version above which it offers entries.
    pub after: u64,
    /// The purge floor under which it offers them: tombstones (markers of removed keys) up to it are left out.
    pub floor: u64,
}

impl Start {
    /// Returns the start for a peer that reports nothing of the owner.
    fn of_unknown(floor: u64, upto: u64) -> Start
        ensures after { result.after ≡ number_by floor upto None }
        ensures floor { result.floor ≡ floor_by floor upto None }
    {
        let floor = if floor == 0 { floor } else { upto };
        Start { after: 0, floor }
    }
}

/// How far a node holds the writes of the owners in a range of names. The range has the names at or after `from`, and
/// before `until` if that is given. An owner in the range that has no pair is held up to 0. The payload has at most
/// 65,530 bytes.
///
/// The test `example_of_digest` runs these lines:
/// ```
/// let a = Name::read(b"a")?;
/// let b = Name::read(b"b")?;
/// let pairs = vec![in alloc; Pair::new(a, 3, None)]?;
/// let digest = Digest::new(true, None, Some(b), pairs)?;
/// assert!(rt; digest.covers(&a) && !digest.covers(&b));
/// assert_eq!(rt; digest.start(&a, 0, 5).after, 3);
/// assert_eq!(rt; digest.next_from(), Some(b));
/// ```
#[derive(Debug, Drop)]
pub struct Digest {
    want: bool,
    from: Option<Name>,
    until: Option<Name>,
    pairs: Vec<Pair>,
    /// How many bytes the payload takes.
    length: u64,
}

impl Model for Digest {
    ghost use Rattle.std.specs.Prelude.{◌≡◌, true};
    ghost use Rattle.sb_digest.specs.Digests as digests;

    ghost Value = { digests.Digest };

    ghost use Rattle.sb_digest.specs.Digests.{digest_of};
    ghost use Rattle.sb_digest.specs.Lengths.{digest_length};
    ghost use Rattle.sb_digest.specs.Limits.{is_digest};

    ghost view = { λ d. digest_of d.want d.from d.until d.pairs.items };

    ghost invariant = { λ d. (is_digest (digest_of d.want d.from d.until d.pairs.items) ≡ true) × (d.length ≡ digest_length (digest_of d.want d.from d.until d.pairs.items)) };
}

fn reaches_down_to(from: Option<&Name>, name: &Name) -> bool
    ensures { result ≡ is_from (option_copied from.entry) name.now }
{
    from.is_none_or(|from| from <= name)
}

fn reaches_up_to(until: Option<&Name>, name: &Name) -> bool
    ensures { result ≡ is_below (option_copied until.entry) name.now }
{
    until.is_none_or(|until| name < until)
}

fn is_covered(from: Option<&Name>, until: Option<&Name>, owner: &Name) -> bool
    ensures { result ≡ (is_from (option_copied from.entry) owner.now && is_below (option_copied until.entry) owner.now) }
{
    reaches_down_to(from, owner) && reaches_up_to(until, owner)
}

fn are_covered(from: Option<&Name>, until: Option<&Name>, pairs: &[Pair]) -> bool
    ensures { result ≡ list_all (λ pair. is_from (option_copied from.entry) pair.owner && is_below (option_copied until.entry) pair.owner) pairs.now }
{
    pairs
        .iter()
        .all(|pair| is_covered(from, until, &pair.owner))
}

fn owner_of(pair: &Pair) -> Name
    ensures { result ≡ pair.now.owner }
{
    pair.owner
}

fn are_bounds_ascending(from: Option<&Name>, until: Option<&Name>) -> bool
    ensures { result ≡ is_range (option_copied from.entry) (option_copied until.entry) }
{
    match (from, until) {
        (Some(from), Some(until)) => from < until,
        _ => true,
    }
}

fn are_owners_ascending(pairs: &[Pair]) -> bool
    ensures { result ≡ are_pairs_above [] pairs.now }
{
    let mut last: &[u8] = &[];
    for pair in pairs {
        let owner = pair.owner.bytes();
        if !last.cmp(owner).is_lt() {
            return false;
        }
        last = owner;
    }
    true
}

/// The most bytes of a digest's payload before its pairs. They are its kind, whether an answer is wanted, its bounds,
/// and the number of its pairs.
const HEAD_LENGTH_MOST: u64 = BYTE_LENGTH
    + BYTE_LENGTH
    + NAME_LENGTH_MOST
    + NAME_LENGTH_MOST
    + COUNT_LENGTH;

/// Returns how many bytes a bound takes in a message.
fn length_of_bound(bound: Option<&Name>) -> u64
    ensures length { result ≡ bound_length (option_copied bound.entry) }
    ensures most { result ≤ NAME_LENGTH_MOST }
    ensures bound { is_bound (option_copied bound.entry) ≡ true }
{
    match bound {
        None => BYTE_LENGTH,
        Some(name) => BYTE_LENGTH + name.bytes().len() as u64,
    }
}

/// Returns how many bytes of a digest's payload come before its pairs, if it has these bounds.
pub(crate) fn length_of_head(from: Option<&Name>, until: Option<&Name>) -> u64
    ensures length { result ≡ digest_length (digest_of true (option_copied from.entry) (option_copied until.entry) []) }
    ensures most { result ≤ HEAD_LENGTH_MOST }
    ensures from { is_bound (option_copied from.entry) ≡ true }
    ensures until { is_bound (option_copied until.entry) ≡ true }
{
    let bounds = length_of_bound(from) + length_of_bound(until);
    BYTE_LENGTH + BYTE_LENGTH + bounds + COUNT_LENGTH
}

/// Returns how many bytes `head` and these pairs take together, if that is within the limit of a payload.
fn length_within(head: u64, pairs: &[Pair]) -> Option<u64>
    requires { head ≤ PAYLOAD_MOST }
    ensures length { result ≡ (let total = head + sum_by pair_length pairs.now in if nat_le total PAYLOAD_MOST then Some total else None) }
    ensures each { OnSome result (list_all is_pair pairs.now ≡ true) }
{
    let mut length = head;
    for pair in pairs {
        length += pair.encoded_length();
        if length > PAYLOAD_MOST {
            return None;
        }
    }
    Some(length)
}

impl Pair {
    /// Makes the pair of an owner with this held version, and with the floor and the progress of its stage, if it has
    /// one.
    pub fn new(owner: Name, upto: u64, staged: Option<(u64, u64)>) -> Pair
        ensures { result ≡ staged_pair owner upto staged }
    {
        let (staged_floor, progress) = staged.unwrap_or((0, 0));
        Pair {
            owner,
            upto,
            staged_floor,
            progress,
        }
    }

    /// Returns whether a sender whose table has this floor and this held version can go on with the stage. The sender's
    /// floor is then at or below the stage's, and the sender holds at least up to the stage's floor.
    fn goes_on_from(&self, floor: u64, upto: u64) -> bool
        ensures { result ≡ goes_on_at floor upto self.now }
    {
        floor <= self.staged_floor && self.staged_floor <= upto
    }

    /// Returns where a sender starts with the owner's table, if that has this floor and this held version, `upto`:
    ///
    /// - above the held version of the pair and under its own floor, if the pair is held at least up to that floor;
    /// - else above the progress of the stage and under the stage's floor, if that is between the sender's floor and
    ///   `upto`;
    /// - else above 0, so it offers the whole table, under the floor `upto`.
    pub fn start(&self, floor: u64, upto: u64) -> Start
        ensures after { result.after ≡ number_by floor upto (Some self.now) }
        ensures floor { result.floor ≡ floor_by floor upto (Some self.now) }
    {
        if floor <= self.upto {
            Start {
                after: self.upto,
                floor,
            }
        } else if self.goes_on_from(floor, upto) {
            Start {
                after: self.progress,
                floor: self.staged_floor,
            }
        } else {
            Start {
                after: 0,
                floor: upto,
            }
        }
    }

    /// Returns how many bytes the pair takes in a message: 26 to 57.
    pub fn encoded_length(&self) -> u64
        ensures length { result ≡ pair_length self.now }
        ensures most { result ≤ NAME_LENGTH_MOST + 3 * NUMBER_LENGTH }
        ensures pair { is_pair self.now ≡ true }
    {
        BYTE_LENGTH + self.owner.bytes().len() as u64 + 3 * NUMBER_LENGTH
    }
}

impl Digest {
    /// Makes a digest of these parts. It takes no memory. If a limit is broken, it drops the pairs and returns
    /// `Malformed(KIND_DIGEST)`:
    ///
    /// - `until` is not after `from`;
    /// - a pair's owner is not after the one before it;
    /// - an owner is outside the range;
    /// - the payload would have more than 65,530 bytes.
    pub fn new(
        want: bool,
        from: Option<Name>,
        until: Option<Name>,
        pairs: Vec<Pair>,
    ) -> Result<Digest, Fault>
        ensures { result ≡ (let digest = digest_of want from until pairs.items in if are_digest_parts digest then Ok digest else Err (Fault.Malformed KIND_DIGEST)) }
    {
        let (low, high) = (from.as_ref(), until.as_ref());
        if !are_bounds_ascending(low, high)
            || !are_owners_ascending(&pairs)
            || !are_covered(low, high, &pairs)
        {
            return Err(Fault::Malformed(KIND_DIGEST));
        }
        let Some(length) = length_within(length_of_head(low, high), &pairs) else {
            return Err(Fault::Malformed(KIND_DIGEST));
        };
        Ok(Digest {
            want,
            from,
            until,
            pairs,
            length,
        })
    }

    /// Makes a digest of parts that `new` would accept, and whose payload takes `length` bytes.
    pub(crate) fn of_parts(
        want: bool,
        from: Option<Name>,
        until: Option<Name>,
        pairs: Vec<Pair>,
        length: u64,
    ) -> Digest
        requires digest { is_digest (digest_of want from until pairs.items) ≡ true }
        requires length { length ≡ digest_length (digest_of want from until pairs.items) }
        ensures { result ≡ digest_of want from until pairs.items }
    {
        Digest {
            want,
            from,
            until,
            pairs,
            length,
        }
    }

    /// Returns whether a digest is wanted in answer.
    pub fn want(&self) -> bool
        ensures want { result ≡ self.now.want }
        ensures digest { is_digest self.now ≡ true }
    {
        self.want
    }

    /// Returns the least name of the range, or `None` if the range begins with the least of all names.
    pub fn from(&self) -> Option<Name>
        ensures from { result ≡ self.now.from }
        ensures digest { is_digest self.now ≡ true }
    {
        self.from
    }

    /// Returns the name before which the range ends, or `None` if the range has no end.
    pub fn until(&self) -> Option<Name>
        ensures until { result ≡ self.now.until }
        ensures digest { is_digest self.now ≡ true }
    {
        self.until
    }

    /// Returns where the next digest begins: at the end of this one's range. Returns `None` if this digest is the last.
    pub fn next_from(&self) -> Option<Name>
        ensures next { result ≡ self.now.until }
        ensures digest { is_digest self.now ≡ true }
    {
        self.until()
    }

    /// Returns the pairs, in ascending order of their owners' names.
    pub fn pairs(&self) -> &[Pair]
        ensures pairs { result.now ≡ self.now.pairs }
        ensures digest { is_digest self.now ≡ true }
    {
        &self.pairs
    }

    /// Returns how many bytes the payload takes: 6 to 65,530.
    pub fn encoded_length(&self) -> u64
        ensures length { result ≡ digest_length self.now }
        ensures digest { is_digest self.now ≡ true }
    {
        self.length
    }

    /// Returns whether the owner is in the range.
    pub fn covers(&self, owner: &Name) -> bool
        ensures { result ≡ covers self.now owner.now }
    {
        is_covered(self.from.as_ref(), self.until.as_ref(), owner)
    }

    /// Returns where a sender starts with the owner's table, if that has this floor and this held version, `upto`. It
    /// is that of `Pair::start`. An owner without a pair is held up to 0, without a stage.
    pub fn start(&self, owner: &Name, floor: u64, upto: u64) -> Start
        ensures after { result.after ≡ number_in self.now owner.now floor upto }
        ensures floor { result.floor ≡ floor_in self.now owner.now floor upto }
    {
        let (start, _) = self.start_from(owner, floor, upto, 0);
        start
    }

    /// Returns the same start, and the place at which to look for the next owner's pair. The place is the number of
    /// pairs whose owners are at or before this one.
    ///
    /// `place` is where this call looks first, and may be any number. If the owner's pair is there, the call takes one
    /// step, and otherwise a binary search. If all owners are asked for in turn and have pairs, each call takes one
    /// step. A walk over both lists would save the search, but it needs a proof that the owners are asked for in order.
    pub fn start_from(&self, owner: &Name, floor: u64, upto: u64, place: usize) -> (Start, usize)
        ensures after { result.0.after ≡ number_in self.now owner.now floor upto }
        ensures floor { result.0.floor ≡ floor_in self.now owner.now floor upto }
        ensures place { result.1 ≡ at_or_below owner.now self.now.pairs }
    {
        if let Some(pair) = self.pairs.get(place) {
            if pair.owner == *owner {
                return (pair.start(floor, upto), place + 1);
            }
        }
        match self
            .pairs
            .binary_search_by_key(owner, |pair| owner_of(pair))
        {
            Ok(found) => (self.pairs[found].start(floor, upto), found + 1),
            Err(next) => (Start::of_unknown(floor, upto), next),
        }
    }
}
