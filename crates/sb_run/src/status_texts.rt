//! Texts of a status, which are short.
ghost use Rattle.std.specs.Prelude.{◌≡◌};
ghost use Rattle.sb_run.specs.StatusReplies as spec;

use sb_types::ShortText;

/// What a status has in place of a text that is not a short one.
#[tactic(auto, using(crate::proofs::StatusTexts::dash_fits))]
fn dash() -> ShortText
    ensures { result ≡ spec.dash }
{
    let Ok(dash) = ShortText::read(b"-") else {
        unreachable!();
    };
    dash
}

/// A text, as a status has it: a dash in place of one that is not a short text.
pub(crate) fn short_text(text: &str) -> ShortText
    ensures { result ≡ spec.short_text text.now }
{
    match ShortText::read(text.as_bytes()) {
        Ok(short) => short,
        Err(_) => dash(),
    }
}
