//! Names, writes, logs and nodes for the tests.
use crate::{got, there};
use sb_codec::Message;
use sb_frames::{Frames, frame_of};
use sb_log::PlainLog;
use sb_node::NodeCore;
use sb_session::{ReceivedDelta, ReceivedMessage};
use sb_table::Table;
use sb_testing::SETTINGS;
use sb_types::{Delta, Key, Name, RawSettings, Settings, Slot, Value, Write};
use std::alloc::Global;
use std::process::Abort;

pub(crate) fn name(rt: &impl Abort, text: &[u8]) -> Name {
    got(rt, Name::read(text))
}

pub(crate) fn key(rt: &impl Abort, text: &[u8]) -> Key {
    got(rt, Key::read(text))
}

/// A slot with a weight.
pub(crate) fn weight(rt: &impl Abort, weight: u64) -> Slot {
    Slot::Set(got(rt, Value::weight(weight)))
}

/// An empty log.
pub(crate) fn new_log(rt: &impl Abort, alloc: Global, owner: &[u8]) -> PlainLog {
    PlainLog::new(alloc, name(rt, owner), name(rt, b"c1"), 100)
}

/// A new node of the name a, with so many seats, one worker and the least budget.
pub(crate) fn new_node(rt: &impl Abort, alloc: Global, seats: u64) -> NodeCore {
    let raw = RawSettings { seats, ..SETTINGS };
    let settings = got(rt, Settings::check(raw));
    got(
        rt,
        NodeCore::open(alloc, settings, name(rt, b"a"), Table::new(alloc)),
    )
}

/// A Put of the weight 5 under w.
pub(crate) fn put_of_w(rt: &impl Abort) -> Message {
    Message::Put(Write {
        key: key(rt, b"w"),
        slot: weight(rt, 5),
    })
}

/// A delta as the node takes it that a peer sent it to.
pub(crate) fn received(rt: &impl Abort, alloc: Global, delta: Delta) -> ReceivedDelta {
    let frame = got(rt, frame_of(alloc, &Message::Delta(delta)));
    let mut frames = Frames::new(alloc);
    got(rt, frames.feed(&frame));
    let message = there(rt, got(rt, ReceivedMessage::taken_from(&mut frames)));
    there(rt, message.into_delta())
}
