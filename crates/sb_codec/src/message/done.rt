//! The answer to a write that was made.

ghost use Rattle.std.specs.Prelude.{◌≡◌, true, if◌then◌else◌, Ok, Err};
ghost use Rattle.sb_codec.specs.Limits.{is_version};

use sb_types::{Fault, KIND_DONE};
use std::marker::Model;

/// The version of a write that was made, which is at least 1.
#[derive(Clone, Copy, Debug)]
pub struct Done {
    version: u64,
}

impl Model for Done {
    ghost use Rattle.std.specs.Prelude.{◌≡◌, ℕ, true};
    ghost use Rattle.sb_codec.specs.Limits.{is_version};

    ghost Value = { ℕ };

    ghost view = { λ done. done.version };

    ghost invariant = { λ done. is_version done.version ≡ true };

    ghost inverse = { λ version. record { version = version } };
}

impl Done {
    /// Makes the answer that a write of this version was made. Returns `Malformed(KIND_DONE)` if the version is 0.
    pub fn new(version: u64) -> Result<Done, Fault>
        ensures { result ≡ (if is_version version then Ok version else Err (Fault.Malformed KIND_DONE)) }
    {
        if version == 0 {
            return Err(Fault::Malformed(KIND_DONE));
        }
        Ok(Done { version })
    }

    /// Returns the version of the write.
    pub fn version(&self) -> u64
        ensures version { result ≡ self.now }
        ensures done { is_version self.now ≡ true }
    {
        self.version
    }
}
