//! Reads a message from its payload.

ghost use Rattle.std.specs.Prelude.{◌≡◌, ◌↔◌, ℕ, true, IfOk, IfErr, Ok, Err};
ghost use Rattle.sb_types.specs.Faults.{Gives};
ghost use Rattle.sb_codec.specs.declared.message.Message.{Message};
ghost use Rattle.sb_codec.specs.Fields.{whole_value};
ghost use Rattle.sb_codec.specs.Messages.{Spells, IsSole, TakesMemory, is_kept_in_memory, is_kind, fault_of, message_field, reading};
ghost use Rattle.sb_codec.specs.Refusal.{ReadsWhole};

use crate::fields::Fields;
use crate::message::Message;
use crate::refusal::Refusal;
use bytes::Bytes;
use sb_types::{
    Fault, KIND_AGES, KIND_ASK, KIND_ASK_AGES, KIND_ASK_CHANGE, KIND_ASK_STATUS, KIND_BYE,
    KIND_DELTA, KIND_DIGEST, KIND_DONE, KIND_HELLO, KIND_NODE_STATUS, KIND_NOTICE, KIND_PUT,
    KIND_REFUSED, KIND_ROWS,
};
use std::alloc::Global;

fn test_kind(kind: u8) -> bool
    ensures { result ≡ is_kind kind }
{
    matches!(
        kind,
        KIND_HELLO
            | KIND_DIGEST
            | KIND_DELTA
            | KIND_BYE
            | KIND_ASK
            | KIND_ROWS
            | KIND_PUT
            | KIND_DONE
            | KIND_REFUSED
            | KIND_ASK_STATUS
            | KIND_NODE_STATUS
            | KIND_ASK_CHANGE
            | KIND_NOTICE
            | KIND_ASK_AGES
            | KIND_AGES
    )
}

fn is_kept(kind: u8) -> bool
    ensures { result ≡ is_kept_in_memory kind }
{
    matches!(
        kind,
        KIND_DIGEST | KIND_DELTA | KIND_ROWS | KIND_PUT | KIND_NODE_STATUS | KIND_AGES
    )
}

/// Returns whether the payload begins with a kind whose messages take memory. These are a digest, a delta, a page of
/// rows, a put, the status of a node and ages of owners.
pub fn takes_memory(payload: &[u8]) -> bool
    ensures { (result ≡ true) ↔ TakesMemory payload.now }
{
    match payload {
        [kind, ..] => is_kept(*kind),
        [] => false,
    }
}

fn fault(payload: &[u8]) -> Fault
    ensures { result ≡ fault_of payload.now }
{
    let [kind, ..] = payload else {
        return Fault::UnknownKind(0);
    };
    if test_kind(*kind) {
        return Fault::Malformed(*kind);
    }
    Fault::UnknownKind(*kind)
}

fn read_whole(alloc: Global, payload: &[u8]) -> Result<Message, Refusal>
    ensures read { ReadsWhole (whole_value message_field payload.now) result }
    ensures memory { IfErr result (λ refusal. refusal ≡ Refusal.Memory → TakesMemory payload.now) }
{
    let mut fields = Fields::new(payload);
    let message = fields.message(alloc)?;
    if !fields.is_empty() {
        return Err(Refusal::Malformed);
    }
    Ok(message)
}

#[tactic(auto, using(crate::proofs::Laws::is_unknown), unfolding(crate::specs::Messages::reading))]
fn read(alloc: Global, payload: &[u8]) -> Result<Message, Fault>
    ensures exact { Gives result (reading payload.now) }
    ensures unknown { (kind : ℕ) → fault_of payload.now ≡ Fault.UnknownKind kind → result ≡ Err (Fault.UnknownKind kind) }
    ensures memory { result ≡ Err Fault.NoMemory → TakesMemory payload.now }
{
    let reason = fault(payload);
    if let Fault::UnknownKind(_) = reason {
        return Err(reason);
    }
    match read_whole(alloc, payload) {
        Ok(message) => Ok(message),
        Err(Refusal::Memory) => Err(Fault::NoMemory),
        Err(Refusal::Malformed) => Err(reason),
    }
}

/// Reads the message that all bytes of the payload spell. Its faults, in this order:
///
/// - `UnknownKind(byte)`: the first byte is not a kind. It is 0 for an empty payload. This takes no memory.
/// - `Malformed(kind)`: the bytes spell no message of this kind.
/// - `NoMemory`: only a digest, a delta, a page of rows, a put, the status of a node or ages of owners take memory. This is
///   the only fault of a payload that spells a message. A malformed payload of these kinds may have it too.
pub fn decode_payload(alloc: Global, payload: &[u8]) -> Result<Message, Fault>
    // What is read is spelled so, and nothing else is.
    ensures found { IfOk result (λ message. Spells payload.now message) }
    ensures sole { IfOk result (λ message. IsSole payload.now message) }
    // What is spelled so is read, unless there is no memory.
    ensures only { (message : Message) → Spells payload.now message → Gives result (Ok message) }
    // Which fault it is.
    ensures exact { Gives result (reading payload.now) }
    // An unknown kind is refused without memory.
    ensures unknown { (kind : ℕ) → fault_of payload.now ≡ Fault.UnknownKind kind → result ≡ Err (Fault.UnknownKind kind) }
    // Memory is asked for only to keep lists, addresses and texts.
    ensures memory { result ≡ Err Fault.NoMemory → TakesMemory payload.now }
{
    read(alloc, payload)
}

/// Reads the message that a payload in shared bytes spells. It drops the bytes: no message keeps any of them. It has the
/// faults of `decode_payload`.
pub fn decode_shared(alloc: Global, payload: Bytes) -> Result<Message, Fault>
    // What is read is spelled so, and nothing else is.
    ensures found { IfOk result (λ message. Spells payload message) }
    ensures sole { IfOk result (λ message. IsSole payload message) }
    // What is spelled so is read, unless there is no memory.
    ensures only { (message : Message) → Spells payload message → Gives result (Ok message) }
    // Which fault it is.
    ensures exact { Gives result (reading payload) }
    // An unknown kind is refused without memory.
    ensures unknown { (kind : ℕ) → fault_of payload ≡ Fault.UnknownKind kind → result ≡ Err (Fault.UnknownKind kind) }
    // Memory is asked for only to keep lists, addresses and texts.
    ensures memory { result ≡ Err Fault.NoMemory → TakesMemory payload }
{
    decode_payload(alloc, payload.as_slice())
}
