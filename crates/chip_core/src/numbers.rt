//! A list of numbers that is not allocated.

ghost use Rattle.std.specs.Prelude.{◌≡◌, ◌<◌, ◌≤◌, List, [], ◌∷◌, ◌++◌, length, slice_get, Some};
ghost use Rattle.std.specs.Prelude.{IsOk, OnOk, OnErr, ◌↔◌, IsTrue};

use crate::bit_list::Full;
use std::marker::Model;

/// A list of at most 128 numbers: channels, pilots, or the other lists that a message of 148 octets
/// has room for.
///
/// The records of paging and traffic messages are parallel lists of this type. A copy is 516 bytes.
/// Contracts see the list.
#[derive(Clone, Copy, PartialEq, Eq, Debug)]
pub struct Numbers {
    places: [u32; 128],
    count: u8,
}

impl Model for Numbers {
    ghost use Rattle.std.specs.Prelude.{List, ℕ, length, take};

    ghost Value = { List ℕ };

    ghost use Rattle.chip_core.specs.Listed.{filled_list, IsListed};
    ghost use Rattle.chip_core.specs.Listing.{listed-held};

    ghost view = { λ n. take n.count n.places };

    ghost invariant = { λ n. IsListed n.places n.count };

    ghost inverse = { λ l. record { places = filled_list l; count = length l } };

    ghost inverse_ok = { λ n h. listed-held n h };
}

impl Numbers {
    /// An empty list.
    pub fn empty() -> Numbers
        ensures { result ≡ [] }
    {
        Numbers {
            places: [0; 128],
            count: 0,
        }
    }

    /// Returns how many numbers the list has.
    pub fn len(&self) -> u8
        ensures value { result ≡ length self.now }
        ensures most { result ≤ 128 }
    {
        self.count
    }

    /// Whether the list has no numbers.
    pub fn is_empty(&self) -> bool
        ensures { IsTrue result ↔ (self.now ≡ []) }
    {
        self.count == 0
    }

    /// Number `i`, counted from 0.
    pub fn get(&self, i: u8) -> u32
        requires { i < length self.now }
        ensures { slice_get self.now i ≡ Some result }
    {
        self.places[i as usize]
    }

    /// Adds a number at the end. Returns `Full`, with the list unchanged, exactly if it holds 128.
    pub fn push(&mut self, n: u32) -> Result<(), Full>
        ensures room { IsOk result ↔ (length self.old < 128) }
        ensures ok { OnOk result (self.new ≡ self.old ++ n ∷ []) }
        ensures err { OnErr result (self.new ≡ self.old) }
    {
        if self.len() == 128 {
            return Err(Full);
        }
        self.places[self.count as usize] = n;
        self.count += 1;
        Ok(())
    }
}
