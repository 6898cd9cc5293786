//! The examples in the docs of the directory.
ghost use Rattle.std.specs.Prelude.{◌≡◌};

use crate::making::{first_of, new_node};
use crate::{got, same};
use sb_directory::{Directory, DirectoryTag, ReaderSeat};
use sb_log::Committed;
use sb_node::NodeCore;
use sb_types::{Fault, Key, Name};
use sb_views::{NewHistory, NodeTag};
use std::alloc::Global;
use std::marker::Brand;
use std::sync::Wait;
use std::sync::ledger::Blank;

/// Takes a write from a seat, and gives how far the seat then sees the node's own writes, without the lock.
fn write_and_look<S: DirectoryTag, R: Wait + Drop, Q: Wait>(
    rt: &Q,
    directory: &Directory<S, R>,
    mut seat: ReaderSeat<S>,
    committed: &Committed,
) -> Result<(ReaderSeat<S>, u64), Fault> {
    directory.take_own(rt, &mut seat, committed)?;
    match seat.enter() {
        Ok(entered) => {
            let upto = entered.snapshot().upto(directory.name());
            Ok((entered.leave(), upto))
        }
        Err(seat) => Ok((seat, 0)),
    }
}

/// The same from the one seat of a new directory, which is closed then; and how many events it had.
fn look_and_close<S: DirectoryTag, R: Wait>(
    rt: &R,
    alloc: Global,
    history: NewHistory,
    blank: Blank,
    core: NodeCore,
    committed: &Committed,
) -> Result<(u64, u64), Fault>
    requires history { history.seen.book ≡ S.history }
    requires opening { S.opening ≡ core.node }
    requires settings { S.settings ≡ core.settings }
    requires name { blank.name ≡ S.name }
    requires parts { blank.parts ≡ S.parts }
    requires all { (1 ≡ S.seats) × (1 ≡ S.parts) }
{
    let (directory, mut seats) = Directory::<S, &R>::make(rt, alloc, history, blank, core, 1)?;
    let seat = seats.pop().ok_or(Fault::BadSetting)?;
    let (seat, upto) = write_and_look(rt, &directory, seat, committed)?;
    seats.push(seat)?;
    match directory.close(rt, seats) {
        Ok(closing) => Ok((upto, closing.events)),
        Err((fault, _, _)) => Err(fault),
    }
}

#[test]
fn example_of_sb_directory(rt: HostRuntime) {
    let alloc = rt.alloc();
    let core = new_node(&rt, alloc);
    let write = first_of(&rt, alloc, b"a", b"x");
    let ended = look_and_close::<Brand, _>(
        &rt,
        alloc,
        NewHistory::new(),
        Blank::new(1),
        core,
        &write,
    );
    same(&rt, &got(&rt, ended), &(1, 1));
}

/// The version of the row that an owner has under a key, if there is one, and the seat, which has left again.
fn version_in_view<S: NodeTag>(
    seat: ReaderSeat<S>,
    owner: &Name,
    key: &Key,
) -> (ReaderSeat<S>, Option<u64>) {
    match seat.enter() {
        Ok(entered) => {
            let version = match entered.snapshot().get(owner, key) {
                Some((_, version)) => Some(version),
                None => None,
            };
            (entered.leave(), version)
        }
        Err(seat) => (seat, None),
    }
}

/// The version that the one seat of a new directory reads under the key of a write that it took.
fn write_and_read<S: DirectoryTag, R: Wait>(
    rt: &R,
    alloc: Global,
    history: NewHistory,
    blank: Blank,
    core: NodeCore,
    committed: &Committed,
) -> Result<Option<u64>, Fault>
    requires history { history.seen.book ≡ S.history }
    requires opening { S.opening ≡ core.node }
    requires settings { S.settings ≡ core.settings }
    requires name { blank.name ≡ S.name }
    requires parts { blank.parts ≡ S.parts }
    requires all { (1 ≡ S.seats) × (1 ≡ S.parts) }
{
    let (directory, mut seats) = Directory::<S, &R>::make(rt, alloc, history, blank, core, 1)?;
    let mut seat = seats.pop().ok_or(Fault::BadSetting)?;
    directory.take_own(rt, &mut seat, committed)?;
    let (_seat, version) = version_in_view(seat, directory.name(), committed.entry().key());
    Ok(version)
}

#[test]
fn example_of_a_seat(rt: HostRuntime) {
    let alloc = rt.alloc();
    let core = new_node(&rt, alloc);
    let write = first_of(&rt, alloc, b"a", b"x");
    let read = write_and_read::<Brand, _>(
        &rt,
        alloc,
        NewHistory::new(),
        Blank::new(1),
        core,
        &write,
    );
    same(&rt, &got(&rt, read), &Some(1));
}
