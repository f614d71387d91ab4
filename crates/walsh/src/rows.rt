//! The chips of the rows.

ghost use Rattle.std.specs.Prelude.{◌≡◌, ◌<◌};
ghost use Rattle.walsh.specs.Walsh.{walsh};

/// Returns chip `k` of a row, both 0 to 63: the parity of the bits that are 1 in both numbers.
pub fn chip(row: u8, k: u8) -> bool
    requires row { row < 64 }
    requires chip { k < 64 }
    ensures { result ≡ walsh row k }
{
    (row & k).count_ones() & 1 == 1
}
