//! The state of the generator.

ghost use Rattle.std.specs.Prelude.{◌≡◌, ◌<◌, ◌^◌, ℕ, SomeIff};
ghost use Rattle.long_code.specs.LongCode.{IsState, after, long_chip};

use crate::symbol_step::times_x64;
use std::marker::Model;

/// The long code's polynomial without x^42: bit k is the coefficient of x^k.
const FEEDBACK: u64 = 0x00a_8e6f_04ef;

/// A state of the long code's generator: a nonzero polynomial of degree below 42 over the field of
/// two elements. Contracts see the number whose bit k is the coefficient of x^k.
///
/// TIA/EIA-95-B, 7.1.3.1.10: each chip multiplies it by x modulo x^42 + x^35 + x^33 + x^31 + x^27 +
/// x^26 + x^25 + x^22 + x^21 + x^19 + x^18 + x^17 + x^16 + x^10 + x^7 + x^6 + x^5 + x^3 + x^2 + x +
/// 1.
#[derive(Clone, Copy, PartialEq, Eq, Debug)]
pub struct State {
    value: u64,
}

impl Model for State {
    ghost Value = { ℕ };

    ghost view = { λ s. s.value };

    ghost invariant = { λ s. IsState s.value };

    ghost inverse = { λ n. record { value = n } };
}

impl State {
    /// Returns the state with this number; `None` exactly if it is 0 or has a bit above bit 41.
    pub fn new(value: u64) -> Option<State>
        ensures { SomeIff result (IsState value) value }
    {
        if value == 0 || value >> 42 != 0 {
            return None;
        }
        Some(State { value })
    }

    /// Returns the state's number.
    pub fn value(&self) -> u64
        ensures value { result ≡ self.now }
        ensures state { IsState result }
    {
        self.value
    }

    /// Advances the state by one chip.
    pub fn step(&mut self)
        ensures later { self.new ≡ after self.old 1 }
        ensures state { IsState self.new }
    {
        self.value = times_x(self.value);
    }

    /// Advances the state by 64 chips, to the first chip of the next symbol of a paging or traffic
    /// channel.
    ///
    /// TIA/EIA-95-B, 7.1.3.1.6: each symbol of these channels lasts 64 chips.
    pub fn step_symbol(&mut self)
        ensures later { self.new ≡ after self.old 64 }
        ensures state { IsState self.new }
    {
        self.value = times_x64(self.value);
    }

    /// Advances the state by `chips` chips, by squaring: a few thousand steps for any count.
    pub fn jump(&mut self, chips: u64)
        ensures later { self.new ≡ after self.old chips }
        ensures state { IsState self.new }
    {
        let mut value = self.value;
        let mut power = 2;
        let mut left = chips;
        while left > 0 {
            if left & 1 == 1 {
                value = product(value, power);
            }
            power = product(power, power);
            left /= 2;
        }
        self.value = value;
    }

    /// Returns the chip of this state under a mask of 42 bits: the sum modulo 2 of the state's bits
    /// at which the mask has a 1.
    pub fn chip(&self, mask: u64) -> bool
        requires { mask < 2 ^ 42 }
        ensures { result ≡ long_chip self.now mask 0 }
    {
        (mask & self.value).count_ones() & 1 == 1
    }
}

/// Returns the product with x.
fn times_x(value: u64) -> u64
    requires { value < 2 ^ 42 }
    ensures value { result ≡ after value 1 }
    ensures below { result < 2 ^ 42 }
{
    let shifted = value << 1 & (1 << 42) - 1;
    if value >> 41 & 1 == 1 {
        shifted ^ FEEDBACK
    } else {
        shifted
    }
}

/// Returns the product with a power of x, whose remainder is `power`.
fn product(value: u64, power: u64) -> u64
    requires value { value < 2 ^ 42 }
    requires power { power < 2 ^ 42 }
    ensures product { (chips : ℕ) → power ≡ after 1 chips → result ≡ after value chips }
    ensures below { result < 2 ^ 42 }
{
    let mut sum = 0;
    for place in (0..42u32).rev() {
        sum = times_x(sum);
        if value >> place & 1 == 1 {
            sum ^= power;
        }
    }
    sum
}
