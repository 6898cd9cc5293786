//! The calls that add words, numbers and values to a line.
ghost use Rattle.std.specs.Prelude.{◌≡◌, ◌∷◌, ◌++◌, [], decimal, OnOk, IfErr};
ghost use Rattle.sb_types.specs.Value.{line_of};

use itoa::Buffer;
use sb_types::{Fault, Value};
use std::io::Write;

/// Adds a word and the byte `end` after it. `NoMemory`, with a part of them added, or none.
pub fn add_word(out: &mut Vec<u8>, word: &[u8], end: u8) -> Result<(), Fault>
    ensures added { OnOk result (out.new.items ≡ out.old.items ++ (word.now ++ end ∷ [])) }
    ensures fault { IfErr result (λ fault. fault ≡ Fault.NoMemory) }
{
    out.extend_from_slice(word)?;
    out.push(end)?;
    Ok(())
}

/// Adds a number in decimal digits and the byte `end` after it. `NoMemory`, with a part of them added, or none.
pub fn add_number(out: &mut Vec<u8>, number: u64, end: u8) -> Result<(), Fault>
    ensures added { OnOk result (out.new.items ≡ out.old.items ++ (decimal number ++ end ∷ [])) }
    ensures fault { IfErr result (λ fault. fault ≡ Fault.NoMemory) }
{
    add_word(out, Buffer::new().format(number).as_bytes(), end)
}

/// Adds the two words of a value, its kind and its content, with a space between. `NoMemory`, with a part of them
/// added, or none.
pub fn add_value(out: &mut Vec<u8>, value: &Value) -> Result<(), Fault>
    ensures added { OnOk result (out.new.items ≡ out.old.items ++ line_of value.now) }
    ensures fault { IfErr result (λ fault. fault ≡ Fault.NoMemory) }
{
    match write!(out, "{value}") {
        Ok(()) => Ok(()),
        Err(_) => Err(Fault::NoMemory),
    }
}
