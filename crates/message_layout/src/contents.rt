//! The contents of a body by its layout.

ghost use Rattle.std.specs.Prelude.{◌≡◌, ◌≤◌, length};
ghost use Rattle.message_layout.specs.Plain.{plain_contents};

use crate::values::FieldValues;
use chip_core::{Bits, Numbers};

/// The contents of a body, part by part, as in its layout.
#[derive(Drop)]
pub struct Contents {
    /// The values of the fixed fields.
    pub fixed: FieldValues,
    /// The values of the group's fields, if the group is present.
    pub group: Option<FieldValues>,
    /// The counted octets, bit by bit.
    pub octets: Bits,
    /// For each field of a record, its values in all records; empty past the last field.
    pub columns: [Numbers; 3],
    /// The remaining bits.
    pub rest: Bits,
}

impl Contents {
    /// Contents without a group and without octets; at most 48 values.
    pub fn plain(values: &[u64], columns: [Numbers; 3], rest: Bits) -> Contents
        requires { length values.now ≤ 48 }
        ensures { result ≡ plain_contents values.now columns rest }
    {
        Contents {
            fixed: FieldValues::of(values),
            group: None,
            octets: Bits::empty(),
            columns,
            rest,
        }
    }
}
