//! The number of each fault, and the text that it prints.
use crate::{got, same};
use sb_types::Fault;
use std::alloc::Global;
use std::process::Abort;

const FAULTS: &[(Fault, u8, &str)] = &[
    (
        Fault::NoMemory,
        1,
        "there was no memory; free some, or ask for less",
    ),
    (
        Fault::BadName,
        2,
        "a name is 1 to 32 of the bytes a-z, 0-9 and -",
    ),
    (
        Fault::BadKey,
        3,
        "a key is 1 to 64 of the bytes a-z, 0-9, '.', '_', '/' and -; a prefix may be empty",
    ),
    (
        Fault::BadValue,
        4,
        "a value is addr with 1 to 128 printing bytes, weight below 2^63, flag true or false, or text of 1 to 512 UTF-8 bytes. In a text, a backslash and two digits, as \\0a, spell a control byte or a backslash",
    ),
    (Fault::BadSetting, 5, "a setting is outside its limits"),
    (
        Fault::TableFull,
        6,
        "the owner has 4,096 keys, removed ones counted; write under a key that it has",
    ),
    (
        Fault::OwnersFull,
        7,
        "1,024 owners are held, and there is no room for another",
    ),
    (
        Fault::VersionsSpent,
        8,
        "the owner has used every version that the settings allow",
    ),
    (
        Fault::NothingThere,
        9,
        "there is nothing to remove under this key",
    ),
    (
        Fault::BadMark,
        10,
        "a frame begins with another byte than a7; the peer speaks another protocol",
    ),
    (
        Fault::BadVersion,
        11,
        "the frame is of another version of the format; run the same release at both ends",
    ),
    (
        Fault::BadLength,
        12,
        "a frame's length is outside 1 to 65,530",
    ),
    (
        Fault::UnknownKind(85),
        13,
        "a message of kind 85 is not known, or has no place here",
    ),
    (
        Fault::Malformed(3),
        14,
        "a message of kind 3 breaks the format",
    ),
    (Fault::Closed, 15, "this is closed; open it again"),
    (Fault::ReadFailed, 16, "reading failed"),
    (Fault::WriteFailed(17), 17, "writing failed after 17 bytes"),
    (
        Fault::StoreFailed,
        18,
        "the log could not be read or written; open it again",
    ),
    (Fault::LogDamaged, 19, "the log is damaged"),
    (
        Fault::WrongOwner,
        20,
        "the log belongs to another owner or cluster",
    ),
    (
        Fault::OwnerConflict(2),
        21,
        "another node writes under this name: its version 2 was seen; give each node a name of its own",
    ),
    (Fault::NoHello, 22, "a session begins with Hello"),
    (Fault::WrongCluster, 23, "the peer is of another cluster"),
    (
        Fault::SameName,
        24,
        "two nodes have the same name; give each node a name of its own",
    ),
    (Fault::SecondHello, 25, "a session has one Hello"),
    (Fault::NoWatch, 26, "there is no such watch"),
    (Fault::WatchesFull, 27, "64 watches stand; drop one first"),
    (Fault::Truncated, 28, "the stream ends inside a frame"),
    (
        Fault::TurnsSpent,
        29,
        "the reads, calls or events that were allowed are spent",
    ),
    (
        Fault::FloorTooHigh,
        30,
        "the floor would be above the last version",
    ),
    (Fault::OutOfTurn(2), 31, "the next own write has version 2"),
];

/// Asserts the number of the fault, and the text that it prints.
fn assert_told(rt: &impl Abort, alloc: Global, fault: Fault, number: u8, text: &str) {
    let printed = got(rt, fault.to_string(alloc));
    same(rt, &(fault.number(), printed.as_str()), &(number, text));
}

#[test]
fn each_fault_has_its_number_and_its_text(rt: HostRuntime) {
    for (fault, number, text) in FAULTS.iter() {
        assert_told(&rt, rt.alloc(), *fault, *number, text);
    }
}

fn is_fault_of(rt: &impl Abort, fault: Fault, number: u8) {
    same(rt, &Fault::of_number(number), &Some(fault));
}

#[test]
fn a_number_gives_its_fault_and_carries_no_more(rt: HostRuntime) {
    is_fault_of(&rt, Fault::NoMemory, 1);
    is_fault_of(&rt, Fault::UnknownKind(0), 13);
    is_fault_of(&rt, Fault::WriteFailed(0), 17);
    is_fault_of(&rt, Fault::OwnerConflict(0), 21);
    is_fault_of(&rt, Fault::OutOfTurn(0), 31);
    for (_, number, _) in FAULTS.iter() {
        let told = Fault::of_number(*number).map_or(0, |fault| fault.number());
        same(&rt, &told, number);
    }
    same(&rt, &Fault::of_number(0), &None);
    same(&rt, &Fault::of_number(32), &None);
    same(&rt, &Fault::of_number(255), &None);
}
