//! A version that a node reports of itself falls if it reported a greater one long before.

use crate::making::name;
use crate::{got, same};
use sb_digest::{Digest, Pair};
use sb_handlers::{Arrival, ReportedVersions, VersionFall};
use sb_types::Name;
use std::alloc::Global;
use std::process::Abort;
use std::sync::Wait;
use std::time::Clock;

/// A moment that is long after the start of each test, in milliseconds.
const LATER: u64 = 1_000_000;

/// A digest of all owners, or from a name on, in which the owner b is held up to this version.
fn digest_of_b(rt: &impl Abort, alloc: Global, from: Option<Name>, version: u64) -> Digest {
    let mut pairs = Vec::new(alloc);
    got(rt, pairs.push(Pair::new(name(rt, b"b"), version, None)));
    got(rt, Digest::new(false, from, None, pairs))
}

/// Has a peer of this name report that b is held up to a version. Its connection came after a moment.
fn tell<R: Wait + Clock + Abort>(
    rt: &R,
    alloc: Global,
    versions: &ReportedVersions,
    peer: &[u8],
    since: u64,
    version: u64,
) {
    let arrival = Arrival {
        name: Some(name(rt, peer)),
        since: Some(since),
    };
    versions.hear(rt, &arrival, &digest_of_b(rt, alloc, None, version));
}

#[test]
fn a_lower_version_is_a_fall_if_its_connection_came_long_after(rt: HostRuntime) {
    let alloc = rt.alloc();
    let versions = ReportedVersions::new(&rt, alloc);
    tell(&rt, alloc, &versions, b"b", 0, 9);
    tell(&rt, alloc, &versions, b"b", 10_000, 4);
    tell(&rt, alloc, &versions, b"b", LATER, 9);
    tell(&rt, alloc, &versions, b"b", LATER, 0);
    tell(&rt, alloc, &versions, b"c", LATER, 4);
    same(&rt, &versions.falls(&rt), &0);
    tell(&rt, alloc, &versions, b"b", LATER, 8);
    tell(&rt, alloc, &versions, b"b", LATER, 4);
    same(&rt, &versions.falls(&rt), &2);
    let fall = VersionFall {
        name: name(&rt, b"b"),
        version: 8,
        before: 9,
    };
    same(&rt, &versions.take_fall(&rt), &Some(fall));
    same(&rt, &versions.take_fall(&rt), &None);
}

// A digest that begins with b and has b alone is an audit's.
#[test]
fn an_audit_and_an_unknown_peer_tell_nothing(rt: HostRuntime) {
    let alloc = rt.alloc();
    let versions = ReportedVersions::new(&rt, alloc);
    tell(&rt, alloc, &versions, b"b", 0, 9);
    let arrival = Arrival {
        name: Some(name(&rt, b"b")),
        since: Some(LATER),
    };
    let alone = digest_of_b(&rt, alloc, Some(name(&rt, b"b")), 4);
    versions.hear(&rt, &arrival, &alone);
    versions.hear(&rt, &Arrival::unknown(), &digest_of_b(&rt, alloc, None, 4));
    same(&rt, &versions.falls(&rt), &0);
    versions.hear(
        &rt,
        &arrival,
        &digest_of_b(&rt, alloc, Some(name(&rt, b"a")), 4),
    );
    same(&rt, &versions.falls(&rt), &1);
}
