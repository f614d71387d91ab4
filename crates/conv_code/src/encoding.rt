//! Encodes bits into code symbols.

ghost use Rattle.std.specs.Prelude.{◌≡◌, ◌≤◌, ◌+◌, ◌*◌, ◌%◌, ◌^◌, ◌++◌, ◌∷◌, [], ℕ, length};
ghost use Rattle.chip_core.specs.Bits.{binary, digit};
ghost use Rattle.conv_code.specs.ConvCode.{g0, g1, symbol, code_symbols, state_after};

use chip_core::air::{FIRST_TAPS, SECOND_TAPS};
use chip_core::{Bits, parity_at};
use std::marker::Model;

/// The encoder's shift register: the last eight bits that it took, as a number whose bit 0 is the
/// newest bit.
///
/// Contracts see that number. TIA/EIA-95-B, 7.1.3.1.3.1: constraint length 9.
#[derive(Clone, Copy, PartialEq, Eq, Debug)]
pub struct Register {
    state: u8,
}

impl Model for Register {
    ghost Value = { ℕ };

    ghost view = { λ r. r.state };

    ghost inverse = { λ n. record { state = n } };
}

impl Register {
    /// Returns a register that has taken the eight bits of `start`, of which bit 0 is the newest.
    pub fn new(start: u8) -> Register
        ensures { result ≡ start }
    {
        Register { state: start }
    }

    /// Takes a bit and returns its two code symbols, that of the generator 753 (octal) first.
    pub fn push(&mut self, bit: bool) -> (bool, bool)
        ensures first { result.0 ≡ symbol g0 (binary 8 self.old ++ bit ∷ []) 0 }
        ensures second { result.1 ≡ symbol g1 (binary 8 self.old ++ bit ∷ []) 0 }
        ensures last { binary 8 self.new ≡ state_after (binary 8 self.old) (bit ∷ []) }
        ensures number { self.new ≡ (2 * self.old + digit bit) % 2 ^ 8 }
    {
        let window = 2 * u64::from(self.state) + u64::from(bit);
        self.state = (window & 0xff) as u8;
        (
            parity_at(window, &FIRST_TAPS),
            parity_at(window, &SECOND_TAPS),
        )
    }

    /// Returns the last eight bits; bit 0 is the newest.
    pub fn state(&self) -> u8
        ensures { result ≡ self.now }
    {
        self.state
    }
}

/// Encodes bits from a start state into two symbols each, and returns the final state.
///
/// The symbols replace the content of `out`. Bit 0 of a state is its newest bit.
///
/// TIA/EIA-95-B, 7.1.3.1.3.1: a bit's symbol of the generator 753 (octal) comes first, then that of
/// 561 (octal).
pub fn encode_into(start: u8, bits: &Bits, out: &mut Bits) -> u8
    requires { length bits.now ≤ 592 }
    ensures symbols { out.new ≡ code_symbols (binary 8 start) bits.now }
    ensures last { binary 8 result ≡ state_after (binary 8 start) bits.now }
{
    *out = Bits::empty();
    let mut register = Register::new(start);
    for i in 0..bits.len() {
        let (first, second) = register.push(bits.get(i));
        out.append(first);
        out.append(second);
    }
    register.state()
}
