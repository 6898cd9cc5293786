//! The end of a session, and its reason.

ghost use Rattle.std.specs.Prelude.{◌≡◌, true, if◌then◌else◌, Ok, Err};
ghost use Rattle.sb_codec.specs.Limits.{is_reason};

use sb_types::{Fault, KIND_BYE, REASON_MOST};
use std::marker::Model;

/// The end of a session, with a reason from 1 to 5. Reason 1 means that the rounds are done.
#[derive(Clone, Copy, Debug)]
pub struct Bye {
    reason: u8,
}

impl Model for Bye {
    ghost use Rattle.std.specs.Prelude.{◌≡◌, ℕ, true};
    ghost use Rattle.sb_codec.specs.Limits.{is_reason};

    ghost Value = { ℕ };

    ghost view = { λ bye. bye.reason };

    ghost invariant = { λ bye. is_reason bye.reason ≡ true };

    ghost inverse = { λ reason. record { reason = reason } };
}

impl Bye {
    /// Makes the end for this reason. Returns `Malformed(KIND_BYE)` if the reason is not from 1 to 5.
    pub fn new(reason: u8) -> Result<Bye, Fault>
        ensures { result ≡ (if is_reason reason then Ok reason else Err (Fault.Malformed KIND_BYE)) }
    {
        if reason == 0 || reason > REASON_MOST {
            return Err(Fault::Malformed(KIND_BYE));
        }
        Ok(Bye { reason })
    }

    /// Returns why the session ends, 1 to 5.
    pub fn reason(&self) -> u8
        ensures reason { result ≡ self.now }
        ensures bye { is_reason self.now ≡ true }
    {
        self.reason
    }
}
