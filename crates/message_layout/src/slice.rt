//! Consecutive bits of a list, read without copying them.

ghost use Rattle.std.specs.Prelude.{◌≡◌, ◌<◌, ◌≤◌, ◌+◌, length, take, drop, slice_get, Some};

use chip_core::Bits;
use std::marker::Model;

/// Consecutive bits of a list, such as the body of a message in its capsule. Contracts see these
/// bits.
#[derive(Drop)]
pub struct BitSlice<'a> {
    bits: &'a Bits,
    start: u16,
    count: u16,
}

impl<'a> Model for BitSlice<'a> {
    ghost use Rattle.std.specs.Prelude.{List, Bool, ◌≤◌, ◌+◌, length, take, drop};

    ghost Value = { List Bool };

    ghost view = { λ s. take s.count (drop s.start s.bits.now) };

    ghost invariant = { λ s. (s.start + s.count ≤ length s.bits.now)
        × (length s.bits.now ≤ 1184) };
}

impl<'a> BitSlice<'a> {
    /// The `count` bits from place `start` on, counted from 0.
    pub fn of(bits: &'a Bits, start: u16, count: u16) -> BitSlice<'a>
        requires { start + count ≤ length bits.now }
        ensures { result ≡ take count (drop start bits.now) }
    {
        let _most = bits.len();
        BitSlice { bits, start, count }
    }

    /// All bits of a list.
    pub fn whole(bits: &'a Bits) -> BitSlice<'a>
        ensures { result ≡ bits.now }
    {
        BitSlice::of(bits, 0, bits.len())
    }

    /// Returns the number of bits.
    pub fn len(&self) -> u16
        ensures value { result ≡ length self.now }
        ensures most { result ≤ 1184 }
    {
        self.count
    }

    /// Bit `i`, counted from 0.
    pub fn get(&self, i: u16) -> bool
        requires { i < length self.now }
        ensures { slice_get self.now i ≡ Some result }
    {
        self.bits.get(self.start + i)
    }

    /// The `count` bits from place `from` on, counted from 0, as a list of their own.
    pub fn part(&self, from: u16, count: u16) -> Bits
        requires { from + count ≤ length self.now }
        ensures { result ≡ take count (drop from self.now) }
    {
        self.bits.part(self.start + from, count)
    }
}
