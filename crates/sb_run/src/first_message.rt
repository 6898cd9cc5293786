//! The first bytes of a peer, which come before a worker takes it.
ghost use Rattle.std.specs.Prelude.{◌≡◌, IfOk, IfErr, IfSome};
ghost use Rattle.sb_run.specs.declared.first_message.TheConstants.{FIRST_MOST};
ghost use Rattle.sb_run.specs.Arriving.{has_begun, hello_name, IsHelloOf};

use sb_codec::Message;
use sb_frames::{Frames, faults_are_of_the_bytes};
use sb_types::{Fault, Name};
use std::alloc::Global;

/// How many bytes of a peer are read before a worker takes it. Each Hello has fewer.
pub(crate) const FIRST_MOST: usize = 128;

/// Whether a worker is to take a peer that sent this. It is if the first message is whole, or if this is longer than a Hello or
/// begins as no Hello does. `NoMemory`.
pub(crate) fn is_enough(alloc: Global, came: &[u8]) -> Result<bool, Fault>
    ensures enough { IfOk result (λ is_enough. is_enough ≡ has_begun FIRST_MOST came.now) }
    ensures memory { IfErr result (λ fault. fault ≡ Fault.NoMemory) }
{
    faults_are_of_the_bytes();
    if came.len() >= FIRST_MOST {
        return Ok(true);
    }
    let mut frames = Frames::new(alloc);
    frames.feed(came)?;
    match frames.next() {
        Ok(Some(_)) => Ok(true),
        Ok(None) => Ok(false),
        Err(Fault::NoMemory) => Err(Fault::NoMemory),
        Err(_) => Ok(true),
    }
}

/// The name of the node in a Hello. None if the message is another.
fn name_in(message: &Message) -> Option<Name>
    ensures { result ≡ hello_name message.now }
{
    match message {
        Message::Hello(hello) => Some(hello.node),
        _ => None,
    }
}

/// The name in the Hello that a peer begins with. None if it begins otherwise, or if memory is missing.
pub(crate) fn name_of(alloc: Global, came: &[u8]) -> Option<Name>
    ensures { IfSome result (IsHelloOf came.now) }
{
    faults_are_of_the_bytes();
    let mut frames = Frames::new(alloc);
    if frames.feed(came).is_err() {
        return None;
    }
    let Ok(Some(message)) = frames.next() else {
        return None;
    };
    name_in(&message)
}
