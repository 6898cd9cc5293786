//! The question how a node is.

ghost use Rattle.std.specs.Prelude.{◌≡◌, true};
ghost use Rattle.sb_codec.specs.Limits.{is_count};

use std::marker::Model;

/// Asks how a node is, and how its peers are after the first `after` of them. An answer has room for some peers only.
#[derive(Clone, Copy, Debug)]
pub struct AskStatus {
    after: u64,
}

impl Model for AskStatus {
    ghost use Rattle.std.specs.Prelude.{◌≡◌, ℕ, true};
    ghost use Rattle.sb_codec.specs.Limits.{is_count};

    ghost Value = { ℕ };

    ghost view = { λ asked. asked.after };

    ghost invariant = { λ asked. is_count asked.after ≡ true };

    ghost inverse = { λ after. record { after = after } };
}

impl AskStatus {
    /// Asks for the peers after the first `after`.
    pub fn new(after: u64) -> AskStatus
        ensures { result ≡ after }
    {
        AskStatus { after }
    }

    /// Returns after how many peers those begin that are asked for.
    pub fn after(&self) -> u64
        ensures after { result ≡ self.now }
        ensures count { is_count self.now ≡ true }
    {
        self.after
    }
}
