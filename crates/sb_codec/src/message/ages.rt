//! How long ago each owner was heard.

ghost use Rattle.std.specs.Prelude.{◌≡◌, ◌≤◌, [], nat_le, true, Some, None, OnSome, if◌then◌else◌, Ok, Err};
ghost use Rattle.std.specs.List.{list_all};
ghost use Rattle.sb_codec.specs.Lengths.{age_length, ages_length};
ghost use Rattle.sb_codec.specs.Limits.{is_age, are_ages_above, are_owner_ages, are_ages};

use sb_types::{
    BYTE_LENGTH, COUNT_LENGTH, Fault, KIND_AGES, NAME_LENGTH_MOST, NUMBER_LENGTH, Name,
    PAYLOAD_MOST,
};
use std::marker::Model;

/// The most bytes that an owner and its age take.
const AGE_LENGTH_MOST: u64 = NAME_LENGTH_MOST + NUMBER_LENGTH;

/// An owner, and how many milliseconds ago the version that the node holds of it rose last.
#[derive(Clone, Copy, Debug)]
pub struct OwnerAge {
    pub owner: Name,
    pub age: u64,
}

impl OwnerAge {
    /// Returns how many bytes the owner and its age take in a message: 10 to 41.
    pub fn encoded_length(&self) -> u64
        ensures length { result ≡ age_length self.now }
        ensures most { result ≤ AGE_LENGTH_MOST }
        ensures age { is_age self.now ≡ true }
    {
        // Proof only: a number of eight bytes is in its range once it is read.
        let _age = self.age;
        BYTE_LENGTH + self.owner.bytes().len() as u64 + NUMBER_LENGTH
    }
}

/// Owners with their ages, in ascending order of the owners' names. The list may be empty. The payload has at most 65,530
/// bytes.
#[derive(Debug, Drop)]
pub struct Ages {
    ages: Vec<OwnerAge>,
    /// How many bytes the payload takes.
    length: u64,
}

impl Model for Ages {
    ghost use Rattle.std.specs.Prelude.{◌≡◌, true, List};
    ghost use Rattle.sb_codec.specs.declared.message.ages.OwnerAge as declared_age;

    ghost Value = { List declared_age.OwnerAge };

    ghost use Rattle.sb_codec.specs.Lengths.{ages_length};
    ghost use Rattle.sb_codec.specs.Limits.{are_ages};

    ghost view = { λ a. a.ages.items };

    ghost invariant = { λ a. (are_ages a.ages.items ≡ true) × (a.length ≡ ages_length a.ages.items) };
}

/// Returns whether each owner's name is after the one before it.
fn do_owners_ascend(ages: &[OwnerAge]) -> bool
    ensures { result ≡ are_ages_above [] ages.now }
{
    let mut last: &[u8] = &[];
    for age in ages {
        let owner = age.owner.bytes();
        if !last.cmp(owner).is_lt() {
            return false;
        }
        last = owner;
    }
    true
}

/// Returns how many bytes the payload of these ages takes, if that is within the limit.
fn length_within(ages: &[OwnerAge]) -> Option<u64>
    ensures length { result ≡ (if nat_le (ages_length ages.now) PAYLOAD_MOST then Some (ages_length ages.now) else None) }
    ensures each { OnSome result (list_all is_age ages.now ≡ true) }
{
    let mut length = BYTE_LENGTH + COUNT_LENGTH;
    for age in ages {
        length += age.encoded_length();
        if length > PAYLOAD_MOST {
            return None;
        }
    }
    Some(length)
}

impl Ages {
    /// Makes a list of these ages. It takes no memory. If a limit is broken, it drops them and returns
    /// `Malformed(KIND_AGES)`:
    ///
    /// - an owner's name is not after the one before it;
    /// - the payload would have more than 65,530 bytes.
    pub fn new(ages: Vec<OwnerAge>) -> Result<Ages, Fault>
        ensures { result ≡ (if are_owner_ages ages.items then Ok ages.items else Err (Fault.Malformed KIND_AGES)) }
    {
        if !do_owners_ascend(&ages) {
            return Err(Fault::Malformed(KIND_AGES));
        }
        let Some(length) = length_within(&ages) else {
            return Err(Fault::Malformed(KIND_AGES));
        };
        Ok(Ages { ages, length })
    }

    /// Returns the ages, in ascending order of their owners' names.
    pub fn list(&self) -> &[OwnerAge]
        ensures list { result.now ≡ self.now }
        ensures ages { are_ages self.now ≡ true }
    {
        &self.ages
    }

    /// Returns how many bytes the payload takes: 3 to 65,530.
    pub fn encoded_length(&self) -> u64
        ensures length { result ≡ ages_length self.now }
        ensures ages { are_ages self.now ≡ true }
    {
        self.length
    }
}
