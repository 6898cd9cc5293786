//! The messages about changes, and the ages of owners.

use crate::{got, name, one, push, refusal, same, same_at};
use sb_codec::{Ages, AskChange, OwnerAge};
use sb_types::{Fault, Prefix};
use std::alloc::Global;
use std::process::Abort;

/// Asks for the next change of a under web/, within 30,000 milliseconds.
pub(crate) fn ask_change(rt: &impl Abort) -> AskChange {
    AskChange {
        owner: Some(name(rt, b"a")),
        prefix: got(rt, Prefix::read(b"web/")),
        wait: 30_000,
    }
}

fn age_of(rt: &impl Abort, owner: &[u8], age: u64) -> OwnerAge {
    OwnerAge {
        owner: name(rt, owner),
        age,
    }
}

/// The ages of two owners.
fn ages_of(
    rt: &impl Abort,
    alloc: Global,
    first: OwnerAge,
    second: OwnerAge,
) -> Result<Ages, Fault> {
    let mut ages = one(rt, alloc, first);
    push(rt, &mut ages, second);
    Ages::new(ages)
}

/// The ages of `AGES`.
pub(crate) fn two_ages(rt: &impl Abort, alloc: Global) -> Ages {
    let (first, second) = (age_of(rt, b"a", 0), age_of(rt, b"b", 1_500));
    got(rt, ages_of(rt, alloc, first, second))
}

#[test]
fn what_ages_say(rt: HostRuntime) {
    let ages = two_ages(&rt, rt.alloc());
    let found = match ages.list() {
        [first, second] => (first.age, second.owner, second.age),
        _ => (1, name(&rt, b"none"), 0),
    };
    same(&rt, &found, &(0, name(&rt, b"b"), 1_500));
    same(&rt, &ages.encoded_length(), &23);
}

/// Asserts that ages of these owners are refused.
fn assert_no_ages(rt: &impl Abort, alloc: Global, first: &[u8], second: &[u8]) {
    let (first, second) = (age_of(rt, first, 1), age_of(rt, second, 1));
    let made = ages_of(rt, alloc, first, second);
    same_at(
        rt,
        &second.owner,
        &refusal(rt, made),
        &Some(Fault::Malformed(0x1a)),
    );
}

#[test]
fn owners_of_ages_ascend(rt: HostRuntime) {
    assert_no_ages(&rt, rt.alloc(), b"b", b"a");
    assert_no_ages(&rt, rt.alloc(), b"a", b"a");
}
