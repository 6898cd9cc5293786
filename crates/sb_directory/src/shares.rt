//! The parts of a ledger: each seat has one.
ghost use Rattle.std.specs.Prelude.{◌≡◌, ◌≤◌, ◌+◌, length, map, OnOk, IfOk, IfErr};
ghost use Rattle.sb_directory.specs.Seats as spec;

use crate::seat::ReaderSeat;
use sb_types::Fault;
use sb_views::{History, NodeTag, Reader};
use std::alloc::Global;
use std::sync::ledger::Share;

/// Gives each of these readers a seat, with one part of what is left. `NoMemory`.
#[tactic(auto, using(crate::proofs::Sharing::seating_goes_on, crate::proofs::Sharing::seating_ends))]
pub(crate) fn seat_all<S: NodeTag>(
    alloc: Global,
    readers: Vec<Reader<S>>,
    rest: &mut Share<S>,
) -> Result<Vec<ReaderSeat<S>>, Fault>
    requires parts { length readers.items ≤ rest.old.parts }
    requires amount { rest.old.amount ≡ 0 }
    ensures seats { IfOk result (λ seats. seats.items ≡ map spec.new_seat readers.items) }
    ensures parts { OnOk result (rest.new.parts + length readers.items ≡ rest.old.parts) }
    ensures amount { OnOk result (rest.new.amount ≡ 0) }
    ensures memory { IfErr result (λ fault. fault ≡ Fault.NoMemory) }
{
    let mut seats = Vec::new(alloc);
    for reader in readers {
        let share = rest.split_off(1, 0);
        seats.push(ReaderSeat::new(reader, share))?;
    }
    Ok(seats)
}

/// Joins the parts of these seats. The history begins with what each of them has seen, and with its last call.
#[tactic(auto, using(crate::proofs::Sharing::joining_goes_on, crate::proofs::Sharing::joining_ends))]
pub(crate) fn join_all<S: NodeTag>(
    history: &mut History<S>,
    rest: Share<S>,
    seats: Vec<ReaderSeat<S>>,
) -> Share<S>
    requires parts { rest.parts ≡ 0 }
    requires amount { rest.amount ≡ 0 }
    ensures parts { result.parts ≡ length seats.items }
    ensures amount { result.amount ≡ spec.events_of_all seats.items }
    ensures seen { spec.AllBegin history.old seats.items }
    ensures history { history.new ≡ history.old }
{
    let mut all = rest;
    for mut seat in seats {
        seat.call_at(history);
        all.merge(seat.into_share());
    }
    all
}
