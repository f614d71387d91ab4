//! Fields of messages: numbers read from bits and written into them, the highest bit first.

ghost use Rattle.std.specs.Prelude.{◌≡◌, ◌<◌, ◌≤◌, ◌+◌, ◌^◌, ℕ, Bool, List, [], ◌∷◌, ◌++◌, length};
ghost use Rattle.std.specs.Prelude.{take, drop, IsOk, IfOk, OnOk, OnErr, ◌↔◌};
ghost use Rattle.chip_core.specs.Bits.{number, binary};

use crate::bit_list::{Bits, Full};
use std::marker::Model;
use thiserror::Error;

/// Fewer bits are left than a field has.
#[derive(Clone, Copy, PartialEq, Eq, Debug, Error)]
#[error("short")]
pub struct Short;

/// Reads fields from a list of bits in order. Contracts see the bits that are left.
///
/// TIA/EIA-95-B, 7.7: a field is sent with its most significant bit first.
#[derive(Drop)]
pub struct BitReader<'a> {
    bits: &'a Bits,
    place: u16,
}

impl<'a> Model for BitReader<'a> {
    ghost Value = { List Bool };

    ghost view = { λ r. drop r.place r.bits.now };

    ghost invariant = { λ r. (r.place ≤ length r.bits.now) × (length r.bits.now ≤ 1184) };
}

impl<'a> BitReader<'a> {
    /// A reader at the first of the bits.
    pub fn new(bits: &'a Bits) -> BitReader<'a>
        ensures { result ≡ bits.now }
    {
        let _count = bits.len();
        BitReader { bits, place: 0 }
    }

    /// Returns how many bits are left.
    pub fn left(&self) -> u16
        ensures { result ≡ length self.now }
    {
        self.bits.len() - self.place
    }

    /// The bits that are left.
    pub fn rest(&self) -> Bits
        ensures { result ≡ self.now }
    {
        self.bits.part(self.place, self.left())
    }

    /// Takes the next `width` bits, 1 to 64 of them, and returns the number that they spell.
    ///
    /// Returns `Short`, with the reader unchanged, exactly if fewer bits are left.
    pub fn take(&mut self, width: u8) -> Result<u64, Short>
        requires { (1 ≤ width) × (width ≤ 64) }
        ensures enough { IsOk result ↔ (width ≤ length self.old) }
        ensures value { IfOk result (λ n. n ≡ number (take width self.old)) }
        ensures rest { OnOk result (self.new ≡ drop width self.old) }
        ensures left { OnOk result (length self.new + width ≡ length self.old) }
        ensures spelled { IfOk result (λ n. self.old ≡ binary width n ++ self.new) }
        ensures fits { IfOk result (λ n. n < 2 ^ width) }
        ensures err { OnErr result (self.new ≡ self.old) }
    {
        if self.left() < u16::from(width) {
            return Err(Short);
        }
        let mut value = 0u64;
        for k in 0..width {
            let bit = self.bits.get(self.place + u16::from(k));
            value = 2 * value + u64::from(bit);
        }
        self.place += u16::from(width);
        Ok(value)
    }
}

/// Writes fields into a list of bits. Contracts see the bits written so far.
///
/// For code that spells a message field by field and checks the room each time;
/// [`Bits::append_fields`] writes a whole table of fields into a list that has room.
#[derive(Drop)]
pub struct BitWriter {
    bits: Bits,
}

impl Model for BitWriter {
    ghost Value = { List Bool };

    ghost view = { λ w. w.bits };
}

impl BitWriter {
    /// Makes a writer that has written nothing.
    pub fn new() -> BitWriter
        ensures { result ≡ [] }
    {
        BitWriter {
            bits: Bits::empty(),
        }
    }

    /// Writes a number in `width` bits, 1 to 64 of them.
    ///
    /// Returns `Full` exactly if the list would exceed 1,184 bits; nothing is written then.
    pub fn put(&mut self, width: u8, value: u64) -> Result<(), Full>
        requires width { (1 ≤ width) × (width ≤ 64) }
        requires fits { value < 2 ^ width }
        ensures room { IsOk result ↔ (length self.old + width ≤ 1184) }
        ensures ok { OnOk result (self.new ≡ self.old ++ binary width value) }
        ensures err { OnErr result (self.new ≡ self.old) }
    {
        if 1184 - self.bits.len() < u16::from(width) {
            return Err(Full);
        }
        self.bits.append_number(width, value);
        Ok(())
    }

    /// The bits that were written.
    pub fn done(self) -> Bits
        ensures { result ≡ self }
    {
        let BitWriter { bits } = self;
        bits
    }
}
