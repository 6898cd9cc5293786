//! Pairs that are collected for a digest within a budget.
ghost use Rattle.std.specs.Prelude.{◌≡◌, ◌≤◌, ◌<◌, ◌-◌, true, false, [], length, take, slice_get, if◌then◌else◌, IfOk, OnErr, IfErr};
ghost use Rattle.sb_types.specs.declared.fault.Fault.TheVariants.{NoMemory};
ghost use Rattle.std.specs.Option.{option_copied, option_map};
ghost use Rattle.sb_digest.specs.Builders.{digest_of_first, IsLongestFront, with_pair, has_room, comes_next, IsDigestBuilder};

use crate::digest::{Digest, Pair, length_of_head};
use sb_types::{BUDGET_LEAST, BUDGET_MOST, BYTE_LENGTH, Fault, HEADER_LENGTH, NUMBER_LENGTH, Name};
use std::alloc::Global;
use std::marker::Model;

/// How many bytes a digest saves if it ends before its last pair: that pair's three numbers and a length byte.
const CUT_SAVES: u64 = 3 * NUMBER_LENGTH + BYTE_LENGTH;

/// Pairs from a bound on. A digest that ends before the last of them is within the budget.
#[derive(Drop)]
pub(crate) struct DigestBuilder {
    budget: u64,
    from: Option<Name>,
    pairs: Vec<Pair>,
    /// How many bytes the payload of a digest of these pairs takes, if its range has no end.
    length: u64,
}

impl Model for DigestBuilder {
    ghost use Rattle.std.specs.Prelude.{◌≡◌, true, None};
    ghost use Rattle.sb_digest.specs.Digests.{digest_of};
    ghost use Rattle.sb_digest.specs.Lengths.{digest_length};
    ghost use Rattle.sb_digest.specs.Builders as fronts;

    ghost Value = { fronts.DigestBuilder };

    ghost view = { λ f. record { budget = f.budget; from = f.from; pairs = f.pairs.items } };

    ghost invariant = { λ f. fronts.IsDigestBuilder (record { budget = f.budget; from = f.from; pairs = f.pairs.items }) × (f.length ≡ digest_length (digest_of true f.from None f.pairs.items)) };
}

/// Removes the last pair, and returns its owner.
fn pop_owner(pairs: &mut Vec<Pair>) -> Option<Name>
    requires { 0 < length pairs.old.items }
    ensures owner { result ≡ option_map (λ pair. pair.owner) (slice_get pairs.old.items (length pairs.old.items - 1)) }
    ensures rest { pairs.new.items ≡ take (length pairs.old.items - 1) pairs.old.items }
{
    let last = pairs.pop()?;
    Some(last.owner)
}

impl DigestBuilder {
    /// Makes a builder without pairs, from a bound on, within a budget of 1,024 to 65,536 bytes. It takes no memory.
    pub(crate) fn new(alloc: Global, from: Option<&Name>, budget: u64) -> DigestBuilder
        requires least { BUDGET_LEAST ≤ budget }
        requires most { budget ≤ BUDGET_MOST }
        ensures nothing { result ≡ record { budget = budget; from = option_copied from.entry; pairs = [] } }
        ensures front { IsDigestBuilder result }
    {
        DigestBuilder {
            budget,
            from: from.copied(),
            pairs: Vec::new(alloc),
            length: length_of_head(from, None),
        }
    }

    /// Takes the next pair if there is room, and returns whether there was. The only fault is `NoMemory`, which changes
    /// nothing.
    pub(crate) fn push(&mut self, pair: Pair) -> Result<bool, Fault>
        requires { comes_next self.old pair ≡ true }
        ensures room { IfOk result (λ taken. taken ≡ has_room (with_pair self.old pair)) }
        ensures ok { IfOk result (λ taken. self.new ≡ (if taken then with_pair self.old pair else self.old)) }
        ensures err { OnErr result (self.new ≡ self.old) }
        ensures memory { IfErr result (λ fault. fault ≡ NoMemory) }
        ensures front { IsDigestBuilder self.new }

        // There is always room for two.
        ensures two { IfOk result (λ taken. taken ≡ false → 1 < length self.old.pairs) }
    {
        let length = self.length + pair.encoded_length();
        if HEADER_LENGTH + length > self.budget + CUT_SAVES {
            return Ok(false);
        }
        self.pairs.push(pair)?;
        self.length = length;
        Ok(true)
    }

    /// Returns the digest of all pairs except the last. It ends before that.
    pub(crate) fn cut(self, want: bool) -> Digest
        requires { 1 < length self.pairs }
        ensures { result ≡ digest_of_first want self.from self.pairs (length self.pairs - 1) }
    {
        let DigestBuilder {
            from,
            mut pairs,
            length,
            ..
        } = self;
        let until = pop_owner(&mut pairs);
        Digest::of_parts(want, from, until, pairs, length - CUT_SAVES)
    }

    /// Returns the digest if no more pairs come. It ends before the last pair if the budget has no room for all.
    pub(crate) fn finish(self, want: bool) -> Digest
        ensures longest { IsLongestFront self.budget want self.from self.pairs result }
        ensures goes { 0 < length self.pairs → 0 < length result.pairs }
    {
        if HEADER_LENGTH + self.length > self.budget {
            return self.cut(want);
        }
        let DigestBuilder {
            from,
            pairs,
            length,
            ..
        } = self;
        Digest::of_parts(want, from, None, pairs, length)
    }
}
