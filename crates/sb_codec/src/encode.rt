//! Writes the payload of a message after what a buffer contains.

ghost use Rattle.std.specs.Prelude.{◌≡◌, ◌∷◌, ◌++◌, true, IfOk, IfErr, OnOk, OnErr};
ghost use Rattle.sb_types.specs.Text.{is_name};
ghost use Rattle.sb_codec.specs.Limits.{is_optional};
ghost use Rattle.sb_codec.specs.Spelling.{flag, list, optional_text, pair, figure, peer};
ghost use Rattle.sb_codec.specs.Messages.{Spells, IsSole, spelling, is_message};
ghost use Rattle.sb_codec.specs.Standing.{StandsFirst};

use crate::lengths::payload_length;
use crate::message::{
    Ages, Ask, AskChange, AskStatus, Bye, Done, Hello, Message, NodeStatus, Notice, Refused, Rows,
};
use crate::writing::{
    write_byte, write_bytes, write_flag, write_identity, write_list, write_optional_name,
    write_place, write_slot, write_text, write_u64,
};
use sb_digest::Digest;
use sb_types::{
    Delta, Fault, KIND_AGES, KIND_ASK, KIND_ASK_AGES, KIND_ASK_CHANGE, KIND_ASK_STATUS, KIND_BYE,
    KIND_DELTA, KIND_DIGEST, KIND_DONE, KIND_HELLO, KIND_NODE_STATUS, KIND_NOTICE, KIND_PUT,
    KIND_REFUSED, KIND_ROWS, Name, Write,
};
use std::alloc::{AllocError, Global};

#[tactic(auto, using(crate::proofs::Standings::stands_on), unfolding(crate::specs::Messages::spelling, crate::specs::Spelling::hello))]
fn write_hello(out: &mut Vec<u8>, hello: &Hello) -> Result<(), AllocError>
    ensures written { OnOk result (out.new.items ≡ out.old.items ++ spelling (Message.Hello hello.now)) }
    ensures stands { StandsFirst out.old.items out.new.items }
    ensures limits { OnOk result (is_message (Message.Hello hello.now) ≡ true) }
{
    write_byte(out, KIND_HELLO)?;
    write_text(out, hello.cluster.bytes())?;
    write_text(out, hello.node.bytes())
}

/// Writes the kind of a message, and the flag after it.
#[tactic(auto, using(crate::proofs::Standings::stands_on))]
fn write_flagged(out: &mut Vec<u8>, kind: u8, set: bool) -> Result<(), AllocError>
    ensures written { OnOk result (out.new.items ≡ out.old.items ++ kind ∷ flag set) }
    ensures stands { StandsFirst out.old.items out.new.items }
{
    write_byte(out, kind)?;
    write_flag(out, set)
}

/// Writes the names between which the digest's range is.
#[tactic(auto, using(crate::proofs::Standings::stands_on))]
fn write_range(out: &mut Vec<u8>, from: Option<Name>, until: Option<Name>) -> Result<(), AllocError>
    ensures written { OnOk result (out.new.items ≡ out.old.items ++ (optional_text from ++ optional_text until)) }
    ensures stands { StandsFirst out.old.items out.new.items }
    ensures names { OnOk result ((is_optional is_name from ≡ true) × (is_optional is_name until ≡ true)) }
{
    write_optional_name(out, from)?;
    write_optional_name(out, until)
}

/// Writes the pairs of a digest.
fn write_pairs(out: &mut Vec<u8>, digest: &Digest) -> Result<(), AllocError>
    ensures written { OnOk result (out.new.items ≡ out.old.items ++ list pair digest.now.pairs) }
    ensures stands { StandsFirst out.old.items out.new.items }
{
    write_list(out, digest.pairs())
}

#[tactic(auto, using(crate::proofs::Standings::stands_on), unfolding(crate::specs::Messages::spelling, crate::specs::Spelling::digest))]
fn write_digest(out: &mut Vec<u8>, digest: &Digest) -> Result<(), AllocError>
    ensures written { OnOk result (out.new.items ≡ out.old.items ++ spelling (Message.Digest digest.now)) }
    ensures stands { StandsFirst out.old.items out.new.items }
    ensures limits { OnOk result (is_message (Message.Digest digest.now) ≡ true) }
{
    write_flagged(out, KIND_DIGEST, digest.want())?;
    write_range(out, digest.from(), digest.until())?;
    write_pairs(out, digest)
}

#[tactic(auto, using(crate::proofs::Standings::stands_on), unfolding(crate::specs::Messages::spelling))]
fn write_delta(out: &mut Vec<u8>, delta: &Delta) -> Result<(), AllocError>
    ensures written { OnOk result (out.new.items ≡ out.old.items ++ spelling (Message.Delta delta.now)) }
    ensures stands { StandsFirst out.old.items out.new.items }
    ensures limits { OnOk result (is_message (Message.Delta delta.now) ≡ true) }
{
    write_byte(out, KIND_DELTA)?;
    write_list(out, delta.blocks())
}

#[tactic(auto, unfolding(crate::specs::Messages::spelling))]
fn write_bye(out: &mut Vec<u8>, bye: &Bye) -> Result<(), AllocError>
    ensures written { OnOk result (out.new.items ≡ out.old.items ++ spelling (Message.Bye bye.now)) }
    ensures stands { StandsFirst out.old.items out.new.items }
    ensures limits { OnOk result (is_message (Message.Bye bye.now) ≡ true) }
{
    write_bytes(out, &[KIND_BYE, bye.reason()])
}

/// Writes the kind of a message, and the name after it, if there is one.
#[tactic(auto, using(crate::proofs::Standings::stands_on))]
fn write_named(out: &mut Vec<u8>, kind: u8, name: Option<Name>) -> Result<(), AllocError>
    ensures written { OnOk result (out.new.items ≡ out.old.items ++ kind ∷ optional_text name) }
    ensures stands { StandsFirst out.old.items out.new.items }
    ensures name { OnOk result (is_optional is_name name ≡ true) }
{
    write_byte(out, kind)?;
    write_optional_name(out, name)
}

#[tactic(auto, using(crate::proofs::Standings::stands_on), unfolding(crate::specs::Messages::spelling, crate::specs::Spelling::ask))]
fn write_ask(out: &mut Vec<u8>, ask: &Ask) -> Result<(), AllocError>
    ensures written { OnOk result (out.new.items ≡ out.old.items ++ spelling (Message.Ask ask.now)) }
    ensures stands { StandsFirst out.old.items out.new.items }
    ensures limits { OnOk result (is_message (Message.Ask ask.now) ≡ true) }
{
    write_named(out, KIND_ASK, ask.owner)?;
    write_text(out, ask.prefix.bytes())?;
    write_place(out, ask.after)
}

#[tactic(auto, using(crate::proofs::Standings::stands_on), unfolding(crate::specs::Messages::spelling, crate::specs::Spelling::page))]
fn write_rows(out: &mut Vec<u8>, rows: &Rows) -> Result<(), AllocError>
    ensures written { OnOk result (out.new.items ≡ out.old.items ++ spelling (Message.Rows rows.now)) }
    ensures stands { StandsFirst out.old.items out.new.items }
    ensures limits { OnOk result (is_message (Message.Rows rows.now) ≡ true) }
{
    write_flagged(out, KIND_ROWS, rows.more())?;
    write_list(out, rows.rows())
}

#[tactic(auto, using(crate::proofs::Standings::stands_on), unfolding(crate::specs::Messages::spelling, crate::specs::Spelling::write))]
fn write_put(out: &mut Vec<u8>, write: &Write) -> Result<(), AllocError>
    ensures written { OnOk result (out.new.items ≡ out.old.items ++ spelling (Message.Put write.now)) }
    ensures stands { StandsFirst out.old.items out.new.items }
    ensures limits { OnOk result (is_message (Message.Put write.now) ≡ true) }
{
    write_byte(out, KIND_PUT)?;
    write_text(out, write.key.bytes())?;
    write_slot(out, &write.slot)
}

#[tactic(auto, using(crate::proofs::Standings::stands_on), unfolding(crate::specs::Messages::spelling))]
fn write_done(out: &mut Vec<u8>, done: &Done) -> Result<(), AllocError>
    ensures written { OnOk result (out.new.items ≡ out.old.items ++ spelling (Message.Done done.now)) }
    ensures stands { StandsFirst out.old.items out.new.items }
    ensures limits { OnOk result (is_message (Message.Done done.now) ≡ true) }
{
    write_byte(out, KIND_DONE)?;
    write_u64(out, done.version())
}

#[tactic(auto, unfolding(crate::specs::Messages::spelling))]
fn write_refused(out: &mut Vec<u8>, refused: &Refused) -> Result<(), AllocError>
    ensures written { OnOk result (out.new.items ≡ out.old.items ++ spelling (Message.Refused refused.now)) }
    ensures stands { StandsFirst out.old.items out.new.items }
    ensures limits { OnOk result (is_message (Message.Refused refused.now) ≡ true) }
{
    write_bytes(out, &[KIND_REFUSED, refused.number()])
}

#[tactic(auto, using(crate::proofs::Standings::stands_on), unfolding(crate::specs::Messages::spelling))]
fn write_ask_status(out: &mut Vec<u8>, asked: &AskStatus) -> Result<(), AllocError>
    ensures written { OnOk result (out.new.items ≡ out.old.items ++ spelling (Message.AskStatus asked.now)) }
    ensures stands { StandsFirst out.old.items out.new.items }
    ensures limits { OnOk result (is_message (Message.AskStatus asked.now) ≡ true) }
{
    write_byte(out, KIND_ASK_STATUS)?;
    write_u64(out, asked.after())
}

/// Writes the figures and the peers of a node.
#[tactic(auto, using(crate::proofs::Standings::stands_on))]
fn write_figures_and_peers(out: &mut Vec<u8>, status: &NodeStatus) -> Result<(), AllocError>
    ensures written { OnOk result (out.new.items ≡ out.old.items ++ (list figure status.now.figures ++ list peer status.now.peers)) }
    ensures stands { StandsFirst out.old.items out.new.items }
{
    write_list(out, status.figures())?;
    write_list(out, status.peers())
}

#[tactic(auto, using(crate::proofs::Standings::stands_on), unfolding(crate::specs::Messages::spelling, crate::specs::Spelling::status))]
fn write_node_status(out: &mut Vec<u8>, status: &NodeStatus) -> Result<(), AllocError>
    ensures written { OnOk result (out.new.items ≡ out.old.items ++ spelling (Message.NodeStatus status.now)) }
    ensures stands { StandsFirst out.old.items out.new.items }
    ensures limits { OnOk result (is_message (Message.NodeStatus status.now) ≡ true) }
{
    write_flagged(out, KIND_NODE_STATUS, status.more())?;
    write_identity(out, status.identity())?;
    write_figures_and_peers(out, status)
}

#[tactic(auto, using(crate::proofs::Standings::stands_on), unfolding(crate::specs::Messages::spelling, crate::specs::Spelling::ask_change))]
fn write_ask_change(out: &mut Vec<u8>, asked: &AskChange) -> Result<(), AllocError>
    ensures written { OnOk result (out.new.items ≡ out.old.items ++ spelling (Message.AskChange asked.now)) }
    ensures stands { StandsFirst out.old.items out.new.items }
    ensures limits { OnOk result (is_message (Message.AskChange asked.now) ≡ true) }
{
    write_named(out, KIND_ASK_CHANGE, asked.owner)?;
    write_text(out, asked.prefix.bytes())?;
    write_u64(out, asked.wait)
}

#[tactic(auto, unfolding(crate::specs::Messages::spelling))]
fn write_notice(out: &mut Vec<u8>, notice: Notice) -> Result<(), AllocError>
    ensures written { OnOk result (out.new.items ≡ out.old.items ++ spelling (Message.Notice notice)) }
    ensures stands { StandsFirst out.old.items out.new.items }
    ensures limits { OnOk result (is_message (Message.Notice notice) ≡ true) }
{
    write_bytes(out, &[KIND_NOTICE, notice.number()])
}

#[tactic(auto, unfolding(crate::specs::Messages::spelling))]
fn write_ask_ages(out: &mut Vec<u8>) -> Result<(), AllocError>
    ensures written { OnOk result (out.new.items ≡ out.old.items ++ spelling Message.AskAges) }
    ensures stands { StandsFirst out.old.items out.new.items }
    ensures limits { OnOk result (is_message Message.AskAges ≡ true) }
{
    write_byte(out, KIND_ASK_AGES)
}

#[tactic(auto, using(crate::proofs::Standings::stands_on), unfolding(crate::specs::Messages::spelling))]
fn write_ages(out: &mut Vec<u8>, ages: &Ages) -> Result<(), AllocError>
    ensures written { OnOk result (out.new.items ≡ out.old.items ++ spelling (Message.Ages ages.now)) }
    ensures stands { StandsFirst out.old.items out.new.items }
    ensures limits { OnOk result (is_message (Message.Ages ages.now) ≡ true) }
{
    write_byte(out, KIND_AGES)?;
    write_list(out, ages.list())
}

fn write_message(out: &mut Vec<u8>, message: &Message) -> Result<(), AllocError>
    ensures written { OnOk result (out.new.items ≡ out.old.items ++ spelling message.now) }
    ensures stands { StandsFirst out.old.items out.new.items }
    ensures limits { OnOk result (is_message message.now ≡ true) }
{
    match message {
        Message::Hello(hello) => write_hello(out, hello),
        Message::Digest(digest) => write_digest(out, digest),
        Message::Delta(delta) => write_delta(out, delta),
        Message::Bye(bye) => write_bye(out, bye),
        Message::Ask(ask) => write_ask(out, ask),
        Message::Rows(rows) => write_rows(out, rows),
        Message::Put(write) => write_put(out, write),
        Message::Done(done) => write_done(out, done),
        Message::Refused(refused) => write_refused(out, refused),
        Message::AskStatus(asked) => write_ask_status(out, asked),
        Message::NodeStatus(status) => write_node_status(out, status),
        Message::AskChange(asked) => write_ask_change(out, asked),
        Message::Notice(notice) => write_notice(out, *notice),
        Message::AskAges => write_ask_ages(out),
        Message::Ages(ages) => write_ages(out, ages),
    }
}

/// Writes the one payload that spells the message after what is in `out`. The only fault is `NoMemory`, which leaves
/// what is in `out` as it was. It appends so that a frame is one buffer: its payload is not copied after its header.
#[tactic(auto, using(crate::proofs::Standings::what_stood))]
pub fn append_payload(out: &mut Vec<u8>, message: &Message) -> Result<(), Fault>
    ensures written { OnOk result (out.new.items ≡ out.old.items ++ spelling message.now) }
    ensures left { OnErr result (out.new.items ≡ out.old.items) }
    ensures found { OnOk result (Spells (spelling message.now) message.now) }
    ensures sole { OnOk result (IsSole (spelling message.now) message.now) }
    ensures fault { IfErr result (λ fault. fault ≡ Fault.NoMemory) }
{
    let start = out.len();
    match write_message(out, message) {
        Ok(()) => Ok(()),
        Err(_) => {
            out.truncate(start);
            Err(Fault::NoMemory)
        }
    }
}

/// Returns the one payload that spells the message. The only fault is `NoMemory`.
pub fn encode_payload(alloc: Global, message: &Message) -> Result<Vec<u8>, Fault>
    ensures found { IfOk result (λ v. Spells v.items message.now) }
    ensures sole { IfOk result (λ v. IsSole v.items message.now) }
    ensures fault { IfErr result (λ fault. fault ≡ Fault.NoMemory) }
{
    let mut payload = Vec::with_capacity(alloc, payload_length(message) as usize)?;
    append_payload(&mut payload, message)?;
    Ok(payload)
}
