//! Sums over whole symbols on lanes, eight chips at a time.

ghost use Rattle.std.specs.Prelude.{◌≡◌, ◌<◌, ◌≤◌, ◌+◌, ◌*◌, ◌%◌, ◌*ℤ◌, length, All, unsigned_abs};
ghost use lib.Lanes.{Each1, zip2};
ghost use Rattle.pilot_search.specs.BySigns.{correlation_with};
ghost use Rattle.short_code.specs.Despread.{IsUnit};
ghost use Rattle.rake_finger.specs.RowSigns.{AreUnitSigns, covered_signs, sign_lanes};
ghost use Rattle.rake_finger.specs.SymbolSums.{SumsAreSmall};

use crate::rows::RowSigns;
use chip_core::{Pair, Sample};
use pilot_search::{products, sum_of_lanes, with_products};
use std::simd::prelude::*;

/// The number of chips on the lanes.
const GROUP: usize = 8;

/// The number of groups of chips in a Walsh row.
const ROW_GROUPS: usize = 8;

/// The sums of despread samples: plain, and each with the sign of its chip of a Walsh row.
#[derive(Clone, Copy)]
pub(crate) struct Sums {
    pub plain: Pair,
    pub covered: Pair,
}

/// The eight signs of a row from chip `first` on.
fn eight_signs(row: &RowSigns, first: usize) -> i32x8
    requires room { first + 8 ≤ 64 }
    requires units { AreUnitSigns row.now }
    ensures { result ≡ sign_lanes row.now first }
{
    i32x8::from_array([
        row[first],
        row[first + 1],
        row[first + 2],
        row[first + 3],
        row[first + 4],
        row[first + 5],
        row[first + 6],
        row[first + 7],
    ])
}

/// Lanes of products, each times a sign.
fn signed_lanes(products: i32x8, signs: i32x8) -> i32x8
    requires products { Each1 (λ x. unsigned_abs x ≤ 65536) products }
    requires signs { Each1 (λ x. unsigned_abs x ≤ 1) signs }
    ensures { result ≡ zip2 (λ a b. a *ℤ b) products signs }
{
    products * signs
}

/// The products of a group of chips, each times the sign of its chip of a row: the real parts and
/// the imaginary parts.
fn covered_products(real: i32x8, imaginary: i32x8, row: &RowSigns, group: usize) -> (i32x8, i32x8)
    requires group { group < 8 }
    requires units { AreUnitSigns row.now }
    requires real { Each1 (λ x. unsigned_abs x ≤ 65536) real }
    requires imaginary { Each1 (λ x. unsigned_abs x ≤ 65536) imaginary }
    ensures real { result.0 ≡ zip2 (λ a b. a *ℤ b) real (sign_lanes row.now (8 * group)) }
    ensures imaginary { result.1 ≡
        zip2 (λ a b. a *ℤ b) imaginary (sign_lanes row.now (8 * group)) }
{
    let signs = eight_signs(row, GROUP * group);
    (signed_lanes(real, signs), signed_lanes(imaginary, signs))
}

/// The sums of the products of samples with the conjugates of their points of the code: plain, and
/// with the signs of a Walsh row whose chip 0 falls on the first sample. The number of samples is a
/// multiple of eight.
pub(crate) fn symbol_sums_on_lanes(samples: &[Sample], signs: &[(i8, i8)], row: &RowSigns) -> Sums
    requires few { length samples.now ≤ 32768 }
    requires whole { length samples.now % 8 ≡ 0 }
    requires room { length samples.now ≤ length signs.now }
    requires units { All IsUnit signs.now }
    requires row_units { AreUnitSigns row.now }
    ensures plain { result.plain ≡ correlation_with samples.now signs.now }
    ensures covered { result.covered ≡
        correlation_with samples.now (covered_signs row.now 0 signs.now) }
    ensures small { SumsAreSmall (length samples.now) result }
{
    let mut real = i32x8::splat(0);
    let mut imaginary = i32x8::splat(0);
    let mut covered_real = i32x8::splat(0);
    let mut covered_imaginary = i32x8::splat(0);
    for k in 0..samples.len() / GROUP {
        let (more_real, more_imaginary) = products(samples, signs, GROUP * k);
        let (turned_real, turned_imaginary) = covered_products(
            more_real,
            more_imaginary,
            row,
            k % ROW_GROUPS,
        );
        (real, imaginary) = with_products(k, real, imaginary, more_real, more_imaginary);
        (covered_real, covered_imaginary) = with_products(
            k,
            covered_real,
            covered_imaginary,
            turned_real,
            turned_imaginary,
        );
    }
    let groups = samples.len() / GROUP;
    Sums {
        plain: sum_of_lanes(groups, real, imaginary),
        covered: sum_of_lanes(groups, covered_real, covered_imaginary),
    }
}
