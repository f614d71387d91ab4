//! The signs of a Walsh row's chips.

ghost use Rattle.rake_finger.specs.Common.{sign};
ghost use Rattle.std.specs.Prelude.{◌≡◌, ◌<◌, length};
ghost use Rattle.rake_finger.specs.RowSigns.{AreRowSigns};

/// The signs of a row's 64 chips: +1 for a 0 and -1 for a 1.
pub(crate) type RowSigns = [i32; 64];

/// The sign of a chip.
fn sign_of(chip: bool) -> i32
    ensures { result ≡ sign chip }
{
    if chip { -1 } else { 1 }
}

/// The signs of a Walsh row's chips (TIA/EIA-95-B, 7.1.3.1.8).
pub(crate) fn row_signs(row: u8) -> RowSigns
    requires { row < 64 }
    ensures long { length result ≡ 64 }
    ensures value { AreRowSigns row result }
{
    let mut signs = [1; 64];
    for k in 0..64u8 {
        signs[usize::from(k)] = sign_of(walsh::chip(row, k));
    }
    signs
}
