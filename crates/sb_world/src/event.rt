//! What can happen in a world, and how the world answers.

ghost use Rattle.std.specs.Prelude.{◌≡◌};
ghost use Rattle.sb_world.specs.Events.{answers_to};

use sb_holdings::BlockEnd;
use sb_types::{Fault, Key, Name, Slot, Value};
use std::marker::Model;

/// What happens at a node of a world. If the first part is a name, it names the node. If it is a number, it is the
/// number of a connection, and the event happens at the node of that connection.
#[derive(Debug, Drop)]
pub enum Event {
    /// The log of the node is asked to take a write. The write then waits until it is entered.
    Commit(Name, Key, Slot),
    /// The oldest write that waits is entered.
    Take(Name),
    /// The node goes down, and its connections are gone. If the last part is true, it goes down after its log took the
    /// write, else before the log is asked. If the log finds no memory for the write, nothing happens.
    CrashInCommit(Name, Key, Slot, bool),
    /// The log drops its tombstones up to a floor. Then the node goes down, and its connections are gone. If the log
    /// does not take the floor, the node goes on.
    Purge(Name, u64),
    /// The node purges its own table up to a floor, and then its log drops its tombstones up to there. The node stays
    /// up. If the floor is above what the node holds, nothing happens. If the log fails, the node's table is purged all
    /// the same.
    Trim(Name, u64),
    /// The writes that wait and the connections are dropped, and the node opens again with the content of its log.
    Restart(Name),
    /// A connection of this number begins, and the node sends its Hello.
    Connect(Name, u64),
    /// A connection is closed, and its queue is dropped.
    Close(u64),
    /// The frame of the second number, counted from 1, is added at the end of a connection's queue.
    Line(u64, u64),
    /// The next bytes of a connection's queue come: so many, or all that are left.
    Piece(u64, u64),
    /// A connection's session sends its next digest, which asks for a digest in return.
    Ask(u64),
    /// The node sends what it holds of an owner above a version, as far as its budget has room.
    Offer(Name, Name, u64),
    /// The node reads the value of an owner's key.
    Read(Name, Name, Key),
    /// The node reports up to which version it holds an owner.
    Upto(Name, Name),
}

/// What came of a message that a connection took.
#[derive(Clone, Copy, Debug, PartialEq, Eq)]
pub enum Item {
    /// A block of a delta ended in this way.
    Ended(BlockEnd),
    /// The node sent the frame of this number in reply.
    Replied(u64),
}

/// What came of the messages that a piece brought, in their order.
#[derive(Debug, Drop)]
pub struct Items {
    items: Vec<Item>,
}

impl Model for Items {
    ghost use Rattle.std.specs.Prelude.{List};
    ghost use Rattle.sb_world.specs.declared.event.Item.{Item};

    ghost Value = { List Item };

    ghost view = { λ i. i.items.items };
}

impl Items {
    /// Makes it from these items.
    pub(crate) fn new(items: Vec<Item>) -> Items
        ensures { result ≡ items.items }
    {
        Items { items }
    }

    /// The items, in their order.
    pub fn items(&self) -> &[Item]
        ensures { result.now ≡ self.now }
    {
        &self.items
    }
}

/// What a world answers to an event.
#[derive(Debug, Drop)]
pub enum Answer {
    /// The node, connection or frame does not exist, the number is in use, or no write waits.
    Nothing,
    /// The version under which the log took the write.
    Committed(u64),
    /// The version of the write that was entered.
    Took(u64),
    /// The node is down.
    Crashed,
    /// The floor that was asked for. The node is down.
    Purged(u64),
    /// The floor that was asked for. The node stays up.
    Trimmed(u64),
    /// The version up to which the node holds its own writes.
    Restarted(u64),
    /// The number of the frame that the node sent.
    Sent(u64),
    /// The connection is closed.
    Shut,
    /// The frame is in the queue.
    Lined,
    /// What came of each message that was taken, in their order, and the fault that closed the connection, if one did.
    /// If memory was missing, some of the last items can be missing.
    Delivered(Items, Option<Fault>),
    /// The value and the version of its write, or `None` if the node shows no value.
    Shown(Option<(Value, u64)>),
    /// The version up to which the node holds the owner.
    Number(u64),
}

impl Event {
    /// Whether a node that is up, or one that is down, answers to this event.
    pub(crate) fn is_answered(&self, is_up: bool) -> bool
        ensures { result ≡ answers_to self.now is_up }
    {
        matches!(self, Event::Restart(_)) || is_up
    }
}
