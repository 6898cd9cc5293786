//! What a node offers of its tables.

ghost use Rattle.std.specs.Prelude.{◌≡◌, ◌≤◌, ℕ, Bool, true, false, List, [], ◌++◌};
ghost use Rattle.sb_types.specs.declared.entry.Write.{Write};
ghost use Rattle.sb_types.specs.Records.{Table, Block, Holder};
ghost use Rattle.sb_types.specs.Runs.{Stands, IsTable, IsBlock};
ghost use Rattle.sb_types.specs.Writes.{Holds, Honest};
ghost use Rattle.sb_holdings.specs.Held.{Held, shown_of};
ghost use Rattle.sb_digest.specs.Digests.{Digest, covers, held_in};
ghost use Rattle.sb_budget.specs.Available.{number_for, offered_table, available_for};
ghost use Rattle.sb_budget.specs.Offers.{Item, of_owner, items_of, block_of, is_named, are_named_once, available_items};
ghost use Rattle.sb_budget.specs.Cut.{IsCut};

/// If a table holds what its owner wrote, each block of a prefix of what is offered of it is honest.
pub fn offers_are_honest()
    ensures offered { (writes : List Write) (t : Table) (number : ℕ) (owner : List ℕ) (front rest : List Item) (first : Item) →
        IsTable t → Holds writes t → of_owner owner (front ++ rest) ≡ items_of owner t number → Stands (of_owner owner front) first →
        Honest writes (block_of owner front rest) }
    ensures is { (t : Table) (number : ℕ) (owner : List ℕ) (front rest : List Item) (first : Item) →
        IsTable t → of_owner owner (front ++ rest) ≡ items_of owner t number → Stands (of_owner owner front) first →
        IsBlock (block_of owner front rest) }
{}

/// Of each covered owner just its items are available, in ascending version. Of other owners none is.
pub fn available_by_owner()
    ensures covered { (covers : List ℕ → Bool) (offered : List ℕ → Table → Table) (number : List ℕ → Table → ℕ) (owners : List (List ℕ × Holder)) (p : List ℕ × Holder) →
        are_named_once owners ≡ true → Stands owners p → covers p.0 ≡ true →
        of_owner p.0 (available_items covers offered number owners) ≡ items_of p.0 (offered p.0 p.1.shown) (number p.0 p.1.shown) }
    ensures others { (covers : List ℕ → Bool) (offered : List ℕ → Table → Table) (number : List ℕ → Table → ℕ) (owners : List (List ℕ × Holder)) (owner : List ℕ) →
        covers owner ≡ false → of_owner owner (available_items covers offered number owners) ≡ [] }
    ensures unknown { (covers : List ℕ → Bool) (offered : List ℕ → Table → Table) (number : List ℕ → Table → ℕ) (owners : List (List ℕ × Holder)) (owner : List ℕ) →
        is_named owner owners ≡ false → of_owner owner (available_items covers offered number owners) ≡ [] }
{}

/// Suppose a table holds an owner's writes, and the owner's items are what the table has above a number. Then the
/// owner's block of a cut is honest.
pub fn cuts_are_honest()
    ensures honest { (writes : List Write) (t : Table) (number budget : ℕ) (items : List Item) (delta : List Block) (b : Block) →
        IsTable t → Holds writes t → IsCut budget items delta → Stands delta b → of_owner b.owner items ≡ items_of b.owner t number →
        Honest writes b }
    ensures is { (t : Table) (number budget : ℕ) (items : List Item) (delta : List Block) (b : Block) →
        IsTable t → IsCut budget items delta → Stands delta b → of_owner b.owner items ≡ items_of b.owner t number →
        IsBlock b }
{}

/// In answer to a digest, all that the owner's offered table has above the owner's number is available if the digest
/// covers the owner. Otherwise nothing of the owner is.
pub fn available_by_number()
    ensures covered { (held : Held) (digest : Digest) (owner : List ℕ) →
        covers digest owner ≡ true →
        of_owner owner (available_for held digest) ≡ items_of owner (offered_table digest owner (shown_of held owner)) (number_for digest owner (shown_of held owner)) }
    ensures others { (held : Held) (digest : Digest) (owner : List ℕ) →
        covers digest owner ≡ false → of_owner owner (available_for held digest) ≡ [] }
{}

/// A table as it is offered to a peer is a table, and holds what its owner wrote, if the sender's own table does. To a
/// peer that holds at least up to the floor it is offered as it is.
pub fn offered_tables_hold()
    ensures is { (digest : Digest) (owner : List ℕ) (t : Table) → IsTable t → IsTable (offered_table digest owner t) }
    ensures holds { (writes : List Write) (digest : Digest) (owner : List ℕ) (t : Table) →
        IsTable t → Holds writes t → Holds writes (offered_table digest owner t) }
    ensures own { (digest : Digest) (owner : List ℕ) (t : Table) →
        IsTable t → t.floor ≤ held_in digest owner → offered_table digest owner t ≡ t }
{}
