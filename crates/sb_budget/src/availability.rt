//! What a node has to offer in answer to a digest.
ghost use Rattle.std.specs.Prelude.{◌≡◌, ◌++◌, [], length, OnOk, IfOk, IfErr};
ghost use Rattle.sb_types.specs.Runs.{newer_entries};
ghost use Rattle.sb_budget.specs.Available.{available_for, ranked_from, ranked_these, ranked_of, AreRanked};
ghost use Rattle.sb_budget.specs.Cut.{items_of_all, CanCut};
ghost use Rattle.sb_budget.specs.Orders.{IsOffer};

use crate::offered::Offered;
use crate::offered_table::OfferedTable;
use sb_digest::Digest;
use sb_holdings::Holdings;
use sb_types::{Fault, Name};
use std::alloc::Global;

/// Adds what the table has above a version.
fn offer(
    offered: &mut Vec<Offered>,
    owner: Name,
    table: &OfferedTable<'_>,
    number: u64,
) -> Result<(), Fault>
    ensures offered { OnOk result (offered.new.items ≡ offered.old.items ++ ranked_of owner table.now number) }
    ensures memory { IfErr result (λ fault. fault ≡ Fault.NoMemory) }
{
    match table.count_after(number) {
        0 => offer_news(offered, owner, table, number),
        count => offer_entries(offered, owner, table, number, count),
    }
}

/// Adds each entry that the table has above a version. `count` is how many these are.
fn offer_entries(
    offered: &mut Vec<Offered>,
    owner: Name,
    table: &OfferedTable<'_>,
    number: u64,
    count: u64,
) -> Result<(), Fault>
    requires { count ≡ length (newer_entries number table.now.entries) }
    ensures offered { OnOk result (offered.new.items ≡ offered.old.items ++ ranked_from 0 owner table.now number count (newer_entries number table.now.entries)) }
    ensures memory { IfErr result (λ fault. fault ≡ Fault.NoMemory) }
{
    let (floor, upto) = (table.floor(), table.upto());
    let mut rank = 0;
    for entry in table.after(number) {
        let entry = entry.share()?;
        offered.push(Offered {
            owner,
            floor,
            after: number,
            upto,
            rank,
            count,
            entry: Some(entry),
        })?;
        rank += 1;
    }
    Ok(())
}

/// Adds only the news of how far the table is held, if that is above a version.
fn offer_news(
    offered: &mut Vec<Offered>,
    owner: Name,
    table: &OfferedTable<'_>,
    number: u64,
) -> Result<(), Fault>
    ensures offered { OnOk result (offered.new.items ≡ offered.old.items ++ ranked_these owner table.now number []) }
    ensures memory { IfErr result (λ fault. fault ≡ Fault.NoMemory) }
{
    if table.upto() <= number {
        return Ok(());
    }
    offered.push(Offered {
        owner,
        floor: table.floor(),
        after: number,
        upto: table.upto(),
        rank: 0,
        count: 1,
        entry: None,
    })?;
    Ok(())
}

/// Returns what a peer that sent this digest lacks. For each owner that the digest covers, these are the entries above
/// its number there, in ascending version. If there are none, but the owner is held above that number, it is one item
/// without an entry. The only fault is `NoMemory`.
///
/// If the peer holds less than the floor of a table, the table is offered as if it were purged up to a higher floor. That is the floor of the peer's stage if the stage can go on, else the held version. Tombstones up to that
/// floor are left out.
pub fn available(alloc: Global, holdings: &Holdings, digest: &Digest) -> Result<Vec<Offered>, Fault>
    ensures items { IfOk result (λ offered. items_of_all offered.items ≡ available_for holdings.now digest.now) }
    ensures ranks { IfOk result (λ offered. AreRanked offered.items) }
    ensures offer { IfOk result (λ offered. IsOffer offered.items) }
    ensures cut { IfOk result (λ offered. CanCut offered.items) }
    ensures memory { IfErr result (λ fault. fault ≡ Fault.NoMemory) }
{
    let mut offered = Vec::new(alloc);
    let mut place = 0;
    for (owner, table) in holdings.tables_from(None) {
        if digest.covers(owner) {
            let (table, number, next) = OfferedTable::for_peer(digest, owner, table, place);
            place = next;
            offer(&mut offered, *owner, &table, number)?;
        }
    }
    Ok(offered)
}
