//! Multiplies samples by the conjugate of the pilot codes.

ghost use Rattle.std.specs.Prelude.{◌≡◌, ◌≤◌, unsigned_abs, ◌*ℤ◌};
ghost use Rattle.short_code.specs.Despread.{IsUnit, turned};

use chip_core::{Pair, Sample};

/// Returns one branch of a sample, multiplied by a sign.
fn signed(branch: i16, sign: i8) -> i32
    requires { unsigned_abs sign ≤ 1 }
    ensures value { result ≡ branch *ℤ sign }
    ensures bound { unsigned_abs result ≤ 32768 }
{
    i32::from(branch) * i32::from(sign)
}

/// Returns a sample times the conjugate of the QPSK point of two chips, given by their signs: +1
/// for a chip 0 and -1 for a chip 1.
///
/// TIA/EIA-95-B, 7.1.3.1.9: a cell multiplies its signal by this point, so the product removes the
/// codes.
pub fn despread(sample: Sample, signs: (i8, i8)) -> Pair
    requires { IsUnit signs }
    ensures value { result ≡ turned sample signs }
    ensures i_bound { unsigned_abs result.i ≤ 65536 }
    ensures q_bound { unsigned_abs result.q ≤ 65536 }
{
    let (c, d) = signs;
    Pair {
        i: i64::from(signed(sample.i, c) + signed(sample.q, d)),
        q: i64::from(signed(sample.q, c) - signed(sample.i, d)),
    }
}
