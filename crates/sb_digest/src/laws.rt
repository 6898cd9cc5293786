//! What follows from the definitions alone, for the crates above. The functions do nothing: each clause is a law.
ghost use Rattle.std.specs.Prelude.{◌≡◌, ℕ, ◌<◌, ◌≤◌, ◌^◌, Bool, true, List, length, Option, Some};
ghost use Rattle.sb_holdings.specs.Held.{Held, holder_of, shown_of};
ghost use Rattle.sb_digest.specs.Digests as digests;
ghost use Rattle.sb_digest.specs.Digests.{covers, held_in, number_by, number_in, floor_by, floor_in};
ghost use Rattle.sb_digest.specs.Limits.{is_digest};
ghost use Rattle.sb_digest.specs.Builders.{IsLongestFront};
ghost use Rattle.sb_digest.specs.Pairs.{pair_of, pairs_from};

/// A digest has fewer than 2^16 pairs, so two bytes have room for their number.
pub fn digests_have_few_pairs()
    ensures { (d : digests.Digest) → is_digest d ≡ true → length d.pairs < 2 ^ 16 }
{}

/// Within a budget, a list of pairs has only one longest prefix.
pub fn one_front_is_longest()
    ensures { (budget : ℕ) (want : Bool) (from : Option (List ℕ)) (pairs : List digests.Pair) (a b : digests.Digest) →
        IsLongestFront budget want from pairs a → IsLongestFront budget want from pairs b → a ≡ b }
{}

/// A digest of what is held reports the held version of each owner that it covers. It also reports the number above
/// which a sender of any floor and any held version offers entries. And it reports the floor under which that sender
/// offers them. All hold whether or not it has a pair of the owner.
pub fn digests_are_true()
    ensures held { (held : Held) (budget : ℕ) (want : Bool) (from : Option (List ℕ)) (d : digests.Digest) (owner : List ℕ) →
        IsLongestFront budget want from (pairs_from from held) d → covers d owner ≡ true →
        held_in d owner ≡ (shown_of held owner).held }
    ensures number { (held : Held) (budget : ℕ) (want : Bool) (from : Option (List ℕ)) (d : digests.Digest) (owner : List ℕ) (floor upto : ℕ) →
        IsLongestFront budget want from (pairs_from from held) d → covers d owner ≡ true →
        number_in d owner floor upto ≡ number_by floor upto (Some (pair_of (owner, holder_of held.owners owner))) }
    ensures floor { (held : Held) (budget : ℕ) (want : Bool) (from : Option (List ℕ)) (d : digests.Digest) (owner : List ℕ) (floor upto : ℕ) →
        IsLongestFront budget want from (pairs_from from held) d → covers d owner ≡ true →
        floor_in d owner floor upto ≡ floor_by floor upto (Some (pair_of (owner, holder_of held.owners owner))) }
{}

/// The floor under which a sender offers a table is at or above its own floor, and at or below its held version. So it
/// is that of a table that the sender could have. If it is above its own floor, the peer is held below that.
pub fn starts_are_within()
    ensures least { (d : digests.Digest) (owner : List ℕ) (floor upto : ℕ) → floor ≤ upto → floor ≤ floor_in d owner floor upto }
    ensures most { (d : digests.Digest) (owner : List ℕ) (floor upto : ℕ) → floor ≤ upto → floor_in d owner floor upto ≤ upto }
    ensures own { (d : digests.Digest) (owner : List ℕ) (floor upto : ℕ) → floor ≤ held_in d owner → floor_in d owner floor upto ≡ floor }
{}
