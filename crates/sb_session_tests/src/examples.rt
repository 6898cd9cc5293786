//! The examples at the top of the crates of frames and sessions.
use crate::session::Node;
use crate::{got, same};
use sb_codec::{Bye, Message};
use sb_frames::{Frames, frame_of};
use sb_session::{Handler, ReceivedMessage, Replies, Session};
use sb_testing::wire::HELLO_B;
use sb_types::{Fault, Name, REASON_ROUNDS_DONE};
use std::alloc::Global;

/// The frame of the message that ends a session whose rounds are done.
fn bye_frame(alloc: Global) -> Result<Vec<u8>, Fault> {
    frame_of(alloc, &Message::Bye(Bye::new(REASON_ROUNDS_DONE)?))
}

/// Whether a message has come with the first piece of a stream, and whether one has with the second.
fn have_come(alloc: Global, first: &[u8], second: &[u8]) -> Result<[bool; 2], Fault> {
    let mut frames = Frames::new(alloc);
    frames.feed(first)?;
    let is_early = frames.next()?.is_some();
    frames.feed(second)?;
    Ok([is_early, frames.next()?.is_some()])
}

#[test]
fn example_of_sb_frames(rt: HostRuntime) {
    let frame = got(&rt, bye_frame(rt.alloc()));
    let (first, second) = (b"\xa7\x03\x00\x00", b"\x00\x02\x04\x01");
    let whole = b"\xa7\x03\x00\x00\x00\x02\x04\x01";
    same(&rt, &frame.as_slice(), &whole.as_slice());
    let have_come = got(&rt, have_come(rt.alloc(), first, second));
    same(&rt, &have_come, &[false, true]);
}

/// Whether the node `a` is greeted by the Hello that came in these frames.
fn greet<H: Handler>(handler: &mut H, frames: &mut Frames) -> Result<bool, Fault> {
    let mut session = Session::new(Name::read(b"c1")?, Name::read(b"a")?);
    let Some(message) = ReceivedMessage::taken_from(frames)? else {
        return Ok(false);
    };
    let replies = session.take(message, handler)?;
    Ok(matches!(replies, Replies::Greeted))
}

#[test]
fn example_of_sb_session(rt: HostRuntime) {
    let mut node = Node::new(&rt, rt.alloc(), b"a", false);
    let mut frames = Frames::new(rt.alloc());
    got(&rt, frames.feed(HELLO_B));
    same(&rt, &got(&rt, greet(&mut node, &mut frames)), &true);
}
