//! Parts of a request's target.
ghost use Rattle.std.specs.Prelude.{◌≡◌, ◌<◌, length, IfOk, IfSome, option_map};
ghost use Rattle.std.specs.List.{position};
ghost use Rattle.percent_encoding.specs.Percent.{percent_decode};
ghost use Rattle.sb_http.specs.Parts as spec;

use percent_encoding::percent_decode;
use std::alloc::{AllocError, Global};

/// The place of the first such byte.
fn place_of(text: &[u8], mark: u8) -> Option<usize>
    ensures place { result ≡ position (spec.is_byte mark) text.now }
    ensures within { IfSome result (λ place. place < length text.now) }
{
    text.iter().position(|byte| *byte == mark)
}

/// The bytes before the first such byte, and those after it. `None` if there is no such byte.
pub(crate) fn parted(text: &[u8], mark: u8) -> Option<(&[u8], &[u8])>
    ensures parts { option_map (λ parts. (parts.0.now, parts.1.now)) result ≡ spec.parted mark text.now }
    ensures fewer { IfSome result (λ parts. length parts.1.now < length text.now) }
{
    match place_of(text, mark) {
        Some(place) => Some((&text[..place], &text[place + 1..])),
        None => None,
    }
}

/// The bytes without their escapes, as `a/b` for `a%2Fb`.
pub(crate) fn plain(alloc: Global, text: &[u8]) -> Result<Vec<u8>, AllocError>
    ensures { IfOk result (λ plain. plain.items ≡ percent_decode text.now) }
{
    let mut plain = Vec::new(alloc);
    percent_decode(text).append_to(&mut plain)?;
    Ok(plain)
}
