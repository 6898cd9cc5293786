//! Writes the parts of a message.

ghost use Rattle.std.specs.Prelude.{◌≡◌, ◌<◌, ◌^◌, ◌++◌, [], ◌∷◌, length, true, OnOk};
ghost use Rattle.std.specs.Int.{w16, w64};
ghost use Rattle.sb_types.specs.Text.{is_name};
ghost use Rattle.sb_types.specs.Value.{is_value};
ghost use Rattle.sb_types.specs.Kinds.{Fits, shown};
ghost use Rattle.sb_types.specs.Limits.{is_slot};
ghost use Rattle.sb_codec.specs.Limits.{is_optional, is_place};
ghost use Rattle.sb_codec.specs.Standing.{StandsFirst};
ghost use Rattle.sb_codec.specs.Spelling.{number, text, long_text, list, flag, content, value, slot, entry, block, optional_text, pair, place, row, identity, figure, peer, owner_age};

use crate::list_item::ListItem;
use crate::message::{Figure, NodeIdentity, OwnerAge, PeerStatus, Row};
use sb_digest::Pair;
use sb_types::{Block, ContentRef, Key, Name, SharedEntry, Slot, TAG_REMOVED, Value};
use std::alloc::AllocError;

/// Writes a byte after what is in `out`. Like all functions that write here, it keeps what was there before, even if it
/// is refused half way.
#[tactic(auto, using(crate::proofs::Standings::stands_behind, crate::proofs::Standings::stands_still))]
pub(crate) fn write_byte(out: &mut Vec<u8>, byte: u8) -> Result<(), AllocError>
    ensures written { OnOk result (out.new.items ≡ out.old.items ++ byte ∷ []) }
    ensures stands { StandsFirst out.old.items out.new.items }
{
    Ok(out.push(byte)?)
}

#[tactic(auto, using(crate::proofs::Standings::stands_behind, crate::proofs::Standings::stands_still))]
pub(crate) fn write_bytes(out: &mut Vec<u8>, bytes: &[u8]) -> Result<(), AllocError>
    ensures written { OnOk result (out.new.items ≡ out.old.items ++ bytes.now) }
    ensures stands { StandsFirst out.old.items out.new.items }
{
    out.extend_from_slice(bytes)
}

#[tactic(auto, unfolding(crate::specs::Spelling::number))]
fn write_u16(out: &mut Vec<u8>, count: u16) -> Result<(), AllocError>
    ensures written { OnOk result (out.new.items ≡ out.old.items ++ number w16 count) }
    ensures stands { StandsFirst out.old.items out.new.items }
{
    write_bytes(out, &count.to_be_bytes())
}

#[tactic(auto, unfolding(crate::specs::Spelling::number))]
pub(crate) fn write_u64(out: &mut Vec<u8>, n: u64) -> Result<(), AllocError>
    ensures written { OnOk result (out.new.items ≡ out.old.items ++ number w64 n) }
    ensures stands { StandsFirst out.old.items out.new.items }
{
    write_bytes(out, &n.to_be_bytes())
}

#[tactic(auto, using(crate::proofs::Standings::stands_on))]
pub(crate) fn write_text(out: &mut Vec<u8>, bytes: &[u8]) -> Result<(), AllocError>
    requires { length bytes.now < 256 }
    ensures written { OnOk result (out.new.items ≡ out.old.items ++ text bytes.now) }
    ensures stands { StandsFirst out.old.items out.new.items }
{
    write_byte(out, bytes.len() as u8)?;
    write_bytes(out, bytes)
}

#[tactic(auto, using(crate::proofs::Standings::stands_on))]
fn write_long_text(out: &mut Vec<u8>, bytes: &[u8]) -> Result<(), AllocError>
    requires { length bytes.now < 2 ^ 16 }
    ensures written { OnOk result (out.new.items ≡ out.old.items ++ long_text bytes.now) }
    ensures stands { StandsFirst out.old.items out.new.items }
{
    write_u16(out, bytes.len() as u16)?;
    write_bytes(out, bytes)
}

pub(crate) fn write_flag(out: &mut Vec<u8>, set: bool) -> Result<(), AllocError>
    ensures written { OnOk result (out.new.items ≡ out.old.items ++ flag set) }
    ensures stands { StandsFirst out.old.items out.new.items }
{
    write_byte(out, u8::from(set))
}

/// Writes what a value holds, by its form.
#[tactic(auto, unfolding(crate::specs::Spelling::content))]
fn write_content(out: &mut Vec<u8>, written: ContentRef<'_>) -> Result<(), AllocError>
    requires { Fits (shown written) }
    ensures written { OnOk result (out.new.items ≡ out.old.items ++ content (shown written.entry)) }
    ensures stands { StandsFirst out.old.items out.new.items }
{
    match written {
        ContentRef::Word(bytes) => write_text(out, bytes),
        ContentRef::Text(bytes) => write_long_text(out, bytes),
        ContentRef::Number(number) => write_u64(out, number),
        ContentRef::Truth(truth) => write_flag(out, truth),
    }
}

#[tactic(auto, using(crate::proofs::Standings::stands_on))]
fn write_value(out: &mut Vec<u8>, written: &Value) -> Result<(), AllocError>
    ensures written { OnOk result (out.new.items ≡ out.old.items ++ value written.now) }
    ensures stands { StandsFirst out.old.items out.new.items }
    ensures value { is_value written.now ≡ true }
{
    let content = written.content();
    write_byte(out, written.kind().tag())?;
    write_content(out, content)
}

#[tactic(auto, unfolding(crate::specs::Spelling::slot))]
pub(crate) fn write_slot(out: &mut Vec<u8>, value: &Slot) -> Result<(), AllocError>
    ensures written { OnOk result (out.new.items ≡ out.old.items ++ slot value.now) }
    ensures stands { StandsFirst out.old.items out.new.items }
    ensures slot { is_slot value.now ≡ true }
{
    match value {
        Slot::Removed => write_byte(out, TAG_REMOVED)?,
        Slot::Set(value) => write_value(out, value)?,
    }
    Ok(())
}

#[tactic(auto, using(crate::proofs::Standings::stands_on), unfolding(crate::specs::Spelling::entry))]
pub(crate) fn write_entry(out: &mut Vec<u8>, written: &SharedEntry) -> Result<(), AllocError>
    ensures written { OnOk result (out.new.items ≡ out.old.items ++ entry written.now) }
    ensures stands { StandsFirst out.old.items out.new.items }
{
    write_text(out, written.key().bytes())?;
    write_u64(out, written.version())?;
    write_slot(out, written.slot())
}

/// Writes what a block has after its floor.
#[tactic(auto, using(crate::proofs::Standings::stands_on))]
fn write_range(out: &mut Vec<u8>, written: &Block) -> Result<(), AllocError>
    ensures written { OnOk result (out.new.items ≡ out.old.items ++ (number w64 written.now.after ++ (number w64 written.now.upto ++ list entry written.now.entries))) }
    ensures stands { StandsFirst out.old.items out.new.items }
{
    write_u64(out, written.after())?;
    write_u64(out, written.upto())?;
    write_list(out, written.entries())
}

#[tactic(auto, using(crate::proofs::Standings::stands_on), unfolding(crate::specs::Spelling::block))]
pub(crate) fn write_block(out: &mut Vec<u8>, written: &Block) -> Result<(), AllocError>
    ensures written { OnOk result (out.new.items ≡ out.old.items ++ block written.now) }
    ensures stands { StandsFirst out.old.items out.new.items }
{
    write_text(out, written.owner().bytes())?;
    write_u64(out, written.floor())?;
    write_range(out, written)
}

#[tactic(auto, using(crate::proofs::Standings::stands_on, crate::proofs::Standings::stands_behind))]
pub(crate) fn write_list<T: ListItem>(out: &mut Vec<u8>, items: &[T]) -> Result<(), AllocError>
    requires { length items.now < 65536 }
    ensures written { OnOk result (out.new.items ≡ out.old.items ++ list T.spelling items.now) }
    ensures stands { StandsFirst out.old.items out.new.items }
{
    write_u16(out, items.len() as u16)?;
    for item in items {
        item.write(out)?;
    }
    Ok(())
}

pub(crate) fn write_optional_name(out: &mut Vec<u8>, name: Option<Name>) -> Result<(), AllocError>
    ensures written { OnOk result (out.new.items ≡ out.old.items ++ optional_text name) }
    ensures stands { StandsFirst out.old.items out.new.items }
    ensures name { is_optional is_name name ≡ true }
{
    match name {
        None => write_text(out, &[]),
        Some(name) => write_text(out, name.bytes()),
    }
}

#[tactic(auto, using(crate::proofs::Standings::stands_on))]
pub(crate) fn write_place(out: &mut Vec<u8>, after: Option<(Name, Key)>) -> Result<(), AllocError>
    ensures written { OnOk result (out.new.items ≡ out.old.items ++ place after) }
    ensures stands { StandsFirst out.old.items out.new.items }
    ensures place { is_optional is_place after ≡ true }
{
    let Some((owner, key)) = after else {
        return write_bytes(out, &[0, 0]);
    };
    write_text(out, owner.bytes())?;
    write_text(out, key.bytes())
}

/// Writes what a pair has after its held version.
#[tactic(auto, using(crate::proofs::Standings::stands_on))]
fn write_stage(out: &mut Vec<u8>, written: &Pair) -> Result<(), AllocError>
    ensures written { OnOk result (out.new.items ≡ out.old.items ++ (number w64 written.now.floor ++ number w64 written.now.progress)) }
    ensures stands { StandsFirst out.old.items out.new.items }
{
    write_u64(out, written.staged_floor)?;
    write_u64(out, written.progress)
}

#[tactic(auto, using(crate::proofs::Standings::stands_on), unfolding(crate::specs::Spelling::pair))]
pub(crate) fn write_pair(out: &mut Vec<u8>, written: &Pair) -> Result<(), AllocError>
    ensures written { OnOk result (out.new.items ≡ out.old.items ++ pair written.now) }
    ensures stands { StandsFirst out.old.items out.new.items }
{
    write_text(out, written.owner.bytes())?;
    write_u64(out, written.upto)?;
    write_stage(out, written)
}

/// Writes what a row has after its owner.
#[tactic(auto, using(crate::proofs::Standings::stands_on))]
fn write_under_key(out: &mut Vec<u8>, written: &Row) -> Result<(), AllocError>
    ensures written { OnOk result (out.new.items ≡ out.old.items ++ (text written.now.key ++ (number w64 written.now.version ++ value written.now.value))) }
    ensures stands { StandsFirst out.old.items out.new.items }
{
    write_text(out, written.key().bytes())?;
    write_u64(out, written.version())?;
    write_value(out, written.value())
}

#[tactic(auto, using(crate::proofs::Standings::stands_on), unfolding(crate::specs::Spelling::row))]
pub(crate) fn write_row(out: &mut Vec<u8>, written: &Row) -> Result<(), AllocError>
    ensures written { OnOk result (out.new.items ≡ out.old.items ++ row written.now) }
    ensures stands { StandsFirst out.old.items out.new.items }
{
    write_text(out, written.owner().bytes())?;
    write_under_key(out, written)
}

/// Writes the names of a node and of its cluster, and the release that the node runs.
#[tactic(auto, using(crate::proofs::Standings::stands_on), unfolding(crate::specs::Spelling::identity))]
pub(crate) fn write_identity(out: &mut Vec<u8>, written: &NodeIdentity) -> Result<(), AllocError>
    ensures written { OnOk result (out.new.items ≡ out.old.items ++ identity written.now) }
    ensures stands { StandsFirst out.old.items out.new.items }
{
    write_text(out, written.node.bytes())?;
    write_text(out, written.cluster.bytes())?;
    write_text(out, written.release.bytes())
}

#[tactic(auto, using(crate::proofs::Standings::stands_on), unfolding(crate::specs::Spelling::figure))]
pub(crate) fn write_figure(out: &mut Vec<u8>, written: &Figure) -> Result<(), AllocError>
    ensures written { OnOk result (out.new.items ≡ out.old.items ++ figure written.now) }
    ensures stands { StandsFirst out.old.items out.new.items }
{
    write_byte(out, written.number)?;
    write_u64(out, written.value)
}

#[tactic(auto, using(crate::proofs::Standings::stands_on), unfolding(crate::specs::Spelling::peer))]
pub(crate) fn write_peer(out: &mut Vec<u8>, written: &PeerStatus) -> Result<(), AllocError>
    ensures written { OnOk result (out.new.items ≡ out.old.items ++ peer written.now) }
    ensures stands { StandsFirst out.old.items out.new.items }
{
    write_text(out, written.path.bytes())?;
    write_byte(out, written.state)?;
    write_u64(out, written.round)
}

#[tactic(auto, using(crate::proofs::Standings::stands_on), unfolding(crate::specs::Spelling::owner_age))]
pub(crate) fn write_age(out: &mut Vec<u8>, written: &OwnerAge) -> Result<(), AllocError>
    ensures written { OnOk result (out.new.items ≡ out.old.items ++ owner_age written.now) }
    ensures stands { StandsFirst out.old.items out.new.items }
{
    write_text(out, written.owner.bytes())?;
    write_u64(out, written.age)
}
