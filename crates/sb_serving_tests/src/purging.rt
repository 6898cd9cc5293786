//! Purges of the own table and of its log.
use crate::desk::{Desk, Play, play_at_new};
use crate::{got, same};
use sb_directory::DirectoryTag;
use std::alloc::Global;
use std::process::Abort;
use std::sync::Wait;

#[test]
fn a_purge_drops_the_older_half(rt: HostRuntime) {
    play_at_new::<PurgeAfterRemovals, _>(&rt, rt.alloc());
}

/// Three of four keys are removed, in the versions 5 to 7. A purge drops the first two removals, and a later one the third.
struct PurgeAfterRemovals;

impl Play for PurgeAfterRemovals {
    fn play<S: DirectoryTag, R: Wait + Abort>(rt: &R, _alloc: Global, desk: &mut Desk<S, &R>) {
        for text in ["v", "x", "y", "z"] {
            got(rt, desk.put(rt, text.as_bytes()));
        }
        for text in ["x", "y", "z"] {
            got(rt, desk.remove(rt, text.as_bytes()));
        }
        purges(rt, desk, 0, None, 4);
        purges(rt, desk, 4, None, 4);
        purges(rt, desk, 3, Some(6), 2);
        purges(rt, desk, 3, None, 2);
        purges(rt, desk, 1, Some(7), 1);
        same(rt, &got(rt, desk.put(rt, b"x")).version(), &8);
        purges(rt, desk, 1, None, 2);
    }
}

/// Tests up to which version a purge at so many removals goes, and how many keys there are then.
fn purges<S: DirectoryTag, R: Wait + Abort>(
    rt: &R,
    desk: &mut Desk<S, &R>,
    least: u64,
    floor: Option<u64>,
    keys: usize,
) {
    same(rt, &got(rt, desk.purge(rt, least)), &(floor, keys));
}
