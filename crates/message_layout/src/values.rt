//! The values of fields, in a buffer of fixed size.

ghost use Rattle.std.specs.Prelude.{◌≡◌, ◌↔◌, ◌<◌, ◌≤◌, ◌^◌, [], ◌∷◌, ◌++◌, length, get_or, map};
ghost use Rattle.std.specs.Prelude.{IsTrue};
ghost use Rattle.chip_core.specs.Fields.{in_widths, AreWidths, FieldsFit};

use crate::layout::{FieldRow, width_in};
use std::marker::Model;

/// The values of at most 48 fields, in the order of their table. Contracts see the list.
#[derive(Drop)]
pub struct FieldValues {
    places: [u64; 48],
    count: u8,
}

impl Model for FieldValues {
    ghost use Rattle.std.specs.Prelude.{List, ℕ, ◌≤◌, ◌≡◌, length, take};

    ghost Value = { List ℕ };

    ghost view = { λ v. take v.count v.places };

    ghost invariant = { λ v. (v.count ≤ 48) × (length v.places ≡ 48) };
}

impl FieldValues {
    /// The empty list of values.
    pub fn empty() -> FieldValues
        ensures { result ≡ [] }
    {
        FieldValues {
            places: [0; 48],
            count: 0,
        }
    }

    /// These values, at most 48.
    pub fn of(values: &[u64]) -> FieldValues
        requires { length values.now ≤ 48 }
        ensures { result ≡ values.now }
    {
        let mut all = FieldValues::empty();
        for i in 0..values.len() {
            all.append(values[i]);
        }
        all
    }

    /// Returns the number of values.
    pub fn len(&self) -> u8
        ensures value { result ≡ length self.now }
        ensures most { result ≤ 48 }
    {
        self.count
    }

    /// The values as a slice.
    pub fn as_slice(&self) -> &[u64]
        ensures { result.now ≡ self.now }
    {
        &self.places[..self.count as usize]
    }

    /// Value `i`, counted from 0; 0 if there are fewer values.
    pub fn get(&self, i: u8) -> u64
        ensures { result ≡ get_or self.now i 0 }
    {
        if i < self.count {
            self.places[i as usize]
        } else {
            0
        }
    }

    /// Whether each value has at most as many bits as its field in a table.
    pub fn fit(&self, rows: &[FieldRow]) -> bool
        requires widths { AreWidths (map (λ row. row.1) rows.now) }
        requires all { length self.now ≡ length rows.now }
        ensures { IsTrue result ↔ FieldsFit (in_widths (map (λ row. row.1) rows.now) self.now) }
    {
        let _most = self.len();
        for i in 0..rows.len() {
            if !has_width(self.get(i as u8), width_in(rows, i)) {
                return false;
            }
        }
        true
    }

    /// Adds a value at the end; there must be room.
    pub(crate) fn append(&mut self, value: u64)
        requires { length self.old < 48 }
        ensures { self.new ≡ self.old ++ value ∷ [] }
    {
        self.places[self.count as usize] = value;
        self.count += 1;
    }
}

/// Whether `value` fits into `width` bits.
fn has_width(value: u64, width: u8) -> bool
    requires { (1 ≤ width) × (width ≤ 64) }
    ensures { IsTrue result ↔ (value < 2 ^ width) }
{
    u128::from(value) < 1 << width
}
