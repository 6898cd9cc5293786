//! The answer that something was refused.

ghost use Rattle.std.specs.Prelude.{◌≡◌, true, if◌then◌else◌, Ok, Err};
ghost use Rattle.sb_types.specs.Faults.{number_of, carried_by};
ghost use Rattle.sb_codec.specs.Limits.{is_fault_number};

use sb_types::{FAULT_NUMBER_MOST, Fault, KIND_REFUSED};
use std::marker::Model;

/// The number of the fault for which something was refused, from 1 to 31.
#[derive(Clone, Copy, Debug)]
pub struct Refused {
    number: u8,
}

impl Model for Refused {
    ghost use Rattle.std.specs.Prelude.{◌≡◌, ℕ, true};
    ghost use Rattle.sb_codec.specs.Limits.{is_fault_number};

    ghost Value = { ℕ };

    ghost view = { λ refused. refused.number };

    ghost invariant = { λ refused. is_fault_number refused.number ≡ true };

    ghost inverse = { λ number. record { number = number } };
}

impl Refused {
    /// Makes a refusal for the fault of this number. Returns `Malformed(KIND_REFUSED)` if no fault has the number.
    pub fn new(number: u8) -> Result<Refused, Fault>
        ensures { result ≡ (if is_fault_number number then Ok number else Err (Fault.Malformed KIND_REFUSED)) }
    {
        if number == 0 || number > FAULT_NUMBER_MOST {
            return Err(Fault::Malformed(KIND_REFUSED));
        }
        Ok(Refused { number })
    }

    /// Returns the number of the fault, 1 to 31.
    pub fn number(&self) -> u8
        ensures number { result ≡ self.now }
        ensures refused { is_fault_number self.now ≡ true }
    {
        self.number
    }

    /// Returns the fault of this number. If such a fault carries something else, that is 0 here: a refusal does not
    /// contain it.
    pub fn fault(&self) -> Fault
        ensures fault { number_of result ≡ self.now }
        ensures bare { carried_by result ≡ 0 }
    {
        match Fault::of_number(self.number) {
            Some(fault) => fault,
            None => Fault::Malformed(0),
        }
    }
}
