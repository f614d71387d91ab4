//! The table of both codes.

ghost use Rattle.std.specs.Prelude.{◌≡◌, ◌<◌, ℕ, length, IfOk};
ghost use Rattle.short_code.specs.ShortCode.{pilot_chip, chip_signs, pilot_signs};

use crate::register::{I_PLACES, Q_PLACES, shifted};
use chip_core::air::CODE_CHIPS;
use chip_core::{OutOfMemory, parity_at};
use std::alloc::Global;
use std::marker::Model;

/// The 32,768 chips of the two pilot codes, in-phase and quadrature.
///
/// All values of this type hold the same chips. Contracts see the table of their signs.
#[derive(Drop)]
pub struct Codes {
    signs: Vec<(i8, i8)>,
}

impl Model for Codes {
    ghost use Rattle.std.specs.Prelude.{◌≡◌, List, ℤ};
    ghost use Rattle.short_code.specs.ShortCode.{pilot_signs};

    ghost Value = { List (ℤ × ℤ) };

    ghost view = { λ codes. codes.signs.items };

    ghost invariant = { λ codes. codes.signs.items ≡ pilot_signs };
}

/// Returns the signs of two chips on the air, in-phase and quadrature: +1 for a 0 and -1 for a 1.
pub fn signs_of(i: bool, q: bool) -> (i8, i8)
    ensures { result ≡ chip_signs (i, q) }
{
    (if i { -1 } else { 1 }, if q { -1 } else { 1 })
}

impl Codes {
    /// Computes the table with two shift registers.
    ///
    /// Returns [`OutOfMemory`] if its 65,536 bytes cannot be allocated; nothing else can fail.
    pub fn new(alloc: Global) -> Result<Codes, OutOfMemory>
        ensures { IfOk result (λ codes. codes ≡ pilot_signs) }
    {
        let mut signs = Vec::with_capacity(alloc, CODE_CHIPS as usize)?;
        signs.push(signs_of(true, true))?;
        let mut i_register = 1;
        let mut q_register = 1;
        for _n in 0..32766u16 {
            let i = parity_at(i_register, &I_PLACES);
            let q = parity_at(q_register, &Q_PLACES);
            signs.push(signs_of(i, q))?;
            i_register = shifted(i_register, i);
            q_register = shifted(q_register, q);
        }
        signs.push(signs_of(false, false))?;
        Ok(Codes { signs })
    }

    /// Returns chip `n` of the in-phase code and of the quadrature code.
    pub fn chip(&self, n: u16) -> (bool, bool)
        requires { n < 32768 }
        ensures { result ≡ pilot_chip n }
    {
        let (i, q) = self.signs(n);
        (i < 0, q < 0)
    }

    /// Returns the signs of chip `n` of both codes: +1 for a 0 and -1 for a 1.
    pub fn signs(&self, n: u16) -> (i8, i8)
        requires { n < 32768 }
        ensures { result ≡ chip_signs (pilot_chip n) }
    {
        self.signs[n as usize]
    }

    /// Returns the signs of all 32,768 chips, in order, for sums over many chips.
    pub fn table(&self) -> &[(i8, i8)]
        ensures value { result.now ≡ pilot_signs }
        ensures len { length result.now ≡ 32768 }
    {
        &self.signs
    }
}
