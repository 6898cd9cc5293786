//! Writes for which the directory finds no memory. The log keeps them, and they enter before the next write. With ample
//! memory there are no such writes, and `tools/sweep` refuses the memory that they ask for.
use crate::desk::{Desk, Play, play_at_new};
use crate::same;
use sb_directory::DirectoryTag;
use sb_run::Stored;
use sb_testing::wire::{DONE, PUT, REFUSED};
use sb_types::Fault;
use std::alloc::Global;
use std::process::Abort;
use std::sync::Wait;

/// The last version of the log, and that of the directory.
#[derive(Clone, Copy)]
struct Versions {
    kept: u64,
    entered: u64,
}

impl Versions {
    /// The versions after a put that ended in this way, if readers are then shown the own writes up to `shown`. `None`
    /// if no put ends so. The only fault of a put here is missing memory.
    fn after(self, ended: Result<Stored, Fault>, shown: u64) -> Option<Versions> {
        let next = self.kept.saturating_add(1);
        match ended {
            Ok(Stored::Shared(receipt)) if receipt.version == next && shown == next => {
                Some(Versions {
                    kept: next,
                    entered: next,
                })
            }
            Ok(Stored::Owed(version, Fault::NoMemory)) if version == next && shown == self.kept => {
                Some(Versions {
                    kept: next,
                    entered: shown,
                })
            }
            Err(Fault::NoMemory) if shown == self.entered || shown == self.kept => {
                Some(Versions {
                    kept: self.kept,
                    entered: shown,
                })
            }
            _ => None,
        }
    }
}

#[test]
fn an_owed_write_enters_before_the_next(rt: HostRuntime) {
    play_at_new::<PutEach, _>(&rt, rt.alloc());
}

/// Puts under some keys, one after another, to a new directory.
struct PutEach;

impl Play for PutEach {
    fn play<S: DirectoryTag, R: Wait + Abort>(rt: &R, _alloc: Global, desk: &mut Desk<S, &R>) {
        let none = Versions {
            kept: 0,
            entered: 0,
        };
        let first = put_next(rt, desk, b"x", none);
        let second = put_next(rt, desk, b"y", first);
        let third = put_next(rt, desk, b"x", second);
        put_next(rt, desk, b"z", third);
    }
}

/// Puts under a key, if the log and the directory are at these versions. Returns the versions after it.
fn put_next<S: DirectoryTag, R: Wait + Abort>(
    rt: &R,
    desk: &mut Desk<S, &R>,
    text: &[u8],
    versions: Versions,
) -> Versions {
    let ended = desk.put(rt, text);
    let shown = desk.shown_upto(rt);
    match versions.after(ended, shown) {
        Some(versions) => versions,
        None => panic!(rt; "error: no put ends so"),
    }
}

#[test]
fn an_owed_write_is_answered_by_its_version(rt: HostRuntime) {
    play_at_new::<RequestEach, _>(&rt, rt.alloc());
}

/// Asks for some puts, one after another.
struct RequestEach;

impl Play for RequestEach {
    fn play<S: DirectoryTag, R: Wait + Abort>(rt: &R, alloc: Global, desk: &mut Desk<S, &R>) {
        let first = request_next(rt, alloc, desk, 0);
        let second = request_next(rt, alloc, desk, first);
        let third = request_next(rt, alloc, desk, second);
        request_next(rt, alloc, desk, third);
    }
}

/// Asks for a put, after this version was the last in an answer. Returns the version that is the last then.
fn request_next<S: DirectoryTag, R: Wait + Abort>(
    rt: &R,
    alloc: Global,
    desk: &mut Desk<S, &R>,
    told: u8,
) -> u8 {
    let mut answer = Vec::new(alloc);
    desk.serve(rt, alloc, PUT, &mut answer);
    told_by(rt, &answer, told)
}

/// The next version if a Done contains it, or the same version if memory was missing.
fn told_by(rt: &impl Abort, answer: &[u8], told: u8) -> u8 {
    let next = told.saturating_add(1);
    let mut done = DONE;
    done[14] = next;
    if answer == done.as_slice() {
        return next;
    }
    same(rt, &answer, &REFUSED);
    told
}
