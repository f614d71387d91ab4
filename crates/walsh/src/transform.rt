//! The fast transform over the rows.

ghost use Rattle.std.specs.Prelude.{◌≡◌, ◌<◌, ◌+◌, ◌^◌, ℕ};
ghost use Rattle.std.specs.List.{All};
ghost use Rattle.walsh.specs.Walsh.{IsWithin, in_phase, quadrature, transform};
ghost use Rattle.walsh.specs.Butterfly.{EntriesAreWithin, IsStage, minus};
ghost use Rattle.chip_core.specs.Complex.{plus};

use chip_core::Pair;
use std::simd::prelude::*;

/// Replaces 64 complex values, one for each chip, by the sums over the rows: entry n becomes the
/// sum of all entries, each times the sign of its chip of row n.
///
/// The base station uses it to add its channels, because the sign of row n at chip k is that of row
/// k at chip n. Tools may use it to measure all channels of a cell. A finger only sums its own row.
///
/// Each part must be from -2^40 to 2^40. Six stages of butterflies take 384 additions for each
/// part.
pub fn transform64(values: &mut [Pair; 64])
    requires { All (IsWithin (2 ^ 40)) values.old }
    ensures in_phase { in_phase values.new ≡ transform (in_phase values.old) }
    ensures quadrature { quadrature values.new ≡ transform (quadrature values.old) }
{
    for bit in 0..6 {
        stage(values, bit);
    }
}

/// Runs one stage: any two entries whose places differ only in this bit become their sum and their
/// difference.
fn stage(values: &mut [Pair; 64], bit: u32)
    requires bit { bit < 6 }
    requires small { EntriesAreWithin (2 ^ (40 + bit)) values.old }
    ensures stage { IsStage bit values.old values.new }
    ensures small { EntriesAreWithin (2 ^ (41 + bit)) values.new }
{
    let apart = 1 << bit;
    for low in 0..64usize {
        if low & apart == 0 {
            let (first, second) = (values[low], values[low + apart]);
            values[low] = sum(first, second);
            values[low + apart] = difference(first, second);
        }
    }
}

/// Returns the sum of two numbers whose parts are small enough not to overflow.
fn sum(x: Pair, y: Pair) -> Pair
    requires { IsWithin (2 ^ 45) x × IsWithin (2 ^ 45) y }
    ensures { result ≡ plus x y }
{
    let parts = i64x2::from_array([x.i, x.q]) + i64x2::from_array([y.i, y.q]);
    let parts = parts.to_array();
    Pair {
        i: parts[0],
        q: parts[1],
    }
}

/// Returns the difference of two such numbers.
fn difference(x: Pair, y: Pair) -> Pair
    requires { IsWithin (2 ^ 45) x × IsWithin (2 ^ 45) y }
    ensures { result ≡ minus x y }
{
    let parts = i64x2::from_array([x.i, x.q]) - i64x2::from_array([y.i, y.q]);
    let parts = parts.to_array();
    Pair {
        i: parts[0],
        q: parts[1],
    }
}
