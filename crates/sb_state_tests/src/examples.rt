//! The examples at the top of the crates of values, tables, holdings, digests and messages.
use crate::{got, key, name, same};
use sb_codec::{Bye, Message, decode_payload, encode_payload};
use sb_digest::build;
use sb_holdings::{BlockEnd, Holdings};
use sb_table::Table;
use sb_types::{
    BUDGET_LEAST, Block, Entry, Fault, Key, Name, REASON_ROUNDS_DONE, SharedEntry, Slot, Value,
};
use std::alloc::Global;

/// What an owner wrote under a key, with the version of the write.
fn entry_of_words(alloc: Global) -> Result<Entry, Fault> {
    let key = Key::read(b"web/weight")?;
    let value = Value::from_words(alloc, b"weight", b"5")?;
    Ok(Entry::new(key, 1, Slot::Set(value)))
}

/// Returns the weight of an entry, if it has one.
fn weight_in(entry: &Entry) -> Option<u64> {
    match entry.slot() {
        Slot::Set(value) => value.as_weight(),
        Slot::Removed => None,
    }
}

#[test]
fn example_of_sb_types(rt: HostRuntime) {
    let entry = got(&rt, entry_of_words(rt.alloc()));
    let found = (*entry.key(), entry.version(), weight_in(&entry));
    same(&rt, &found, &(key(&rt, b"web/weight"), 1, Some(5)));
}

/// Enters a write whose version is above all that the table has.
fn enter(table: &mut Table, entry: Entry) -> Result<(), Fault> {
    let version = entry.version();
    if version <= table.upto() {
        return Err(Fault::OutOfTurn(version));
    }
    table.push(entry)
}

/// A table whose owner set a key and then removed it.
fn set_and_removed(alloc: Global, key: Key) -> Result<Table, Fault> {
    let mut table = Table::new(alloc);
    enter(&mut table, Entry::new(key, 1, Slot::Set(Value::flag(true))))?;
    enter(&mut table, Entry::new(key, 2, Slot::Removed))?;
    Ok(table)
}

#[test]
fn example_of_sb_table(rt: HostRuntime) {
    let key = key(&rt, b"web/up");
    let table = got(&rt, set_and_removed(rt.alloc(), key));
    let is_removed = matches!(table.get(&key), Some((2, Slot::Removed)));
    same(&rt, &(table.len(), table.upto(), is_removed), &(1, 2, true));
}

/// How `b` ends a block of the first write of `a`, and then the same block once more.
fn apply_twice(alloc: Global) -> Result<[BlockEnd; 2], Fault> {
    let mut holdings = Holdings::new(alloc, Name::read(b"b")?, Table::new(alloc))?;
    let entry = Entry::new(Key::read(b"web/up")?, 1, Slot::Set(Value::flag(true)));
    let entry = SharedEntry::new(alloc, entry)?;
    let block = Block::new(Name::read(b"a")?, 0, 0, 1, vec![in alloc; entry]?)?;
    Ok([holdings.apply_block(&block), holdings.apply_block(&block)])
}

#[test]
fn example_of_sb_holdings(rt: HostRuntime) {
    let ends = got(&rt, apply_twice(rt.alloc()));
    same(&rt, &ends, &[BlockEnd::Taken(1), BlockEnd::Stale]);
}

/// The version up to which a node that made one write tells that it holds its own writes.
fn own_version_in_digest(alloc: Global, me: Name) -> Result<u64, Fault> {
    let mut table = Table::new(alloc);
    let key = Key::read(b"web/up")?;
    table.push(Entry::new(key, 1, Slot::Set(Value::flag(true))))?;
    let holdings = Holdings::new(alloc, me, table)?;
    let digest = build(alloc, &holdings, None, true, BUDGET_LEAST)?;
    Ok(digest.start(&me, 0, 1).after)
}

#[test]
fn example_of_sb_digest(rt: HostRuntime) {
    let version = got(&rt, own_version_in_digest(rt.alloc(), name(&rt, b"a")));
    same(&rt, &version, &1);
}

/// The payload of the message that ends a session whose rounds are done.
fn bye_payload(alloc: Global) -> Result<Vec<u8>, Fault> {
    encode_payload(alloc, &Message::Bye(Bye::new(REASON_ROUNDS_DONE)?))
}

/// The reason of such a message; none where the payload is of another.
fn reason_in(alloc: Global, payload: &[u8]) -> Result<Option<u8>, Fault> {
    match decode_payload(alloc, payload)? {
        Message::Bye(bye) => Ok(Some(bye.reason())),
        _ => Ok(None),
    }
}

#[test]
fn example_of_sb_codec(rt: HostRuntime) {
    let payload = got(&rt, bye_payload(rt.alloc()));
    same(&rt, &payload.as_slice(), &b"\x04\x01".as_slice());
    same(&rt, &got(&rt, reason_in(rt.alloc(), &payload)), &Some(1));
}
