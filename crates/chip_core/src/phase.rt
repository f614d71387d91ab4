//! Code phases.

ghost use Rattle.std.specs.Prelude.{◌≡◌, ◌<◌, ℕ, SomeIff};

use crate::air::CODE_CHIPS;
use std::marker::Model;

/// A place in the pilot's code of 32,768 chips, 0 to 32,767. Contracts see its number.
///
/// TIA/EIA-95-B, 7.1.3.1.9: the pilot code has a period of 2^15 chips.
#[derive(Clone, Copy, PartialEq, Eq, Debug)]
pub struct Phase {
    number: u16,
}

impl Model for Phase {
    ghost Value = { ℕ };

    ghost view = { λ p. p.number };

    ghost invariant = { λ p. p.number < 32768 };

    ghost inverse = { λ n. record { number = n } };
}

impl Phase {
    /// Returns the phase with the number `n`, or `None` exactly if it is above 32,767.
    pub fn new(n: u16) -> Option<Phase>
        ensures { SomeIff result (n < 32768) n }
    {
        if u64::from(n) < CODE_CHIPS {
            Some(Phase { number: n })
        } else {
            None
        }
    }

    /// The phase's number, in chips.
    pub fn get(&self) -> u16
        ensures value { result ≡ self.now }
        ensures below { result < 32768 }
    {
        self.number
    }
}
