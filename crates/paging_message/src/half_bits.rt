//! A long list of bits that is stored without allocation.

ghost use Rattle.std.specs.Prelude.{◌≡◌, ◌<◌, ◌≤◌, [], ◌∷◌, ◌++◌, length, slice_get, Some, IsOk};
ghost use Rattle.std.specs.Prelude.{OnOk, OnErr, ◌↔◌, IsTrue};

use chip_core::Full;
use std::marker::Model;

/// A list of at most 11,264 bits, enough for the half-frames of a cycle of pages.
///
/// Contracts see the list.
#[derive(Drop)]
pub struct HalfBits {
    bits: [bool; 11264],
    count: u16,
}

impl Model for HalfBits {
    ghost use Rattle.std.specs.Prelude.{List, Bool, ◌≤◌, take};

    ghost Value = { List Bool };

    ghost view = { λ b. take b.count b.bits };

    ghost invariant = { λ b. b.count ≤ 11264 };
}

impl HalfBits {
    /// An empty list.
    pub fn empty() -> HalfBits
        ensures { result ≡ [] }
    {
        HalfBits {
            bits: [false; 11264],
            count: 0,
        }
    }

    /// Returns how many bits the list has.
    pub fn len(&self) -> u16
        ensures value { result ≡ length self.now }
        ensures most { result ≤ 11264 }
    {
        self.count
    }

    /// Bit `i`, counted from 0.
    pub fn get(&self, i: u16) -> bool
        requires { i < length self.now }
        ensures { slice_get self.now i ≡ Some result }
    {
        self.bits[i as usize]
    }

    /// Whether the list is empty.
    pub fn is_empty(&self) -> bool
        ensures { IsTrue result ↔ (self.now ≡ []) }
    {
        self.len() == 0
    }

    /// Adds a bit at the end of a list that has room.
    pub fn append(&mut self, bit: bool)
        requires { length self.old < 11264 }
        ensures { self.new ≡ self.old ++ bit ∷ [] }
    {
        self.bits[self.count as usize] = bit;
        self.count += 1;
    }

    /// Adds a bit at the end. Returns `Full` exactly if the list has 11,264 bits; it is unchanged
    /// then.
    pub fn push(&mut self, bit: bool) -> Result<(), Full>
        ensures room { IsOk result ↔ (length self.old < 11264) }
        ensures ok { OnOk result (self.new ≡ self.old ++ bit ∷ []) }
        ensures err { OnErr result (self.new ≡ self.old) }
    {
        if self.len() == 11264 {
            return Err(Full);
        }
        self.append(bit);
        Ok(())
    }
}
