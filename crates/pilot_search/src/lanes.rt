//! Sums of many samples on lanes, eight samples at a time.

ghost use Rattle.pilot_search.specs.Common.{plus, total, Sample as TheSample, IsUnit};
ghost use Rattle.std.specs.Prelude.{◌≡◌, ◌<◌, ◌≤◌, ◌+◌, ◌*◌, ◌/◌, ◌^◌, ◌+ℤ◌, ℕ, ℤ, List, length};
ghost use Rattle.std.specs.Prelude.{drop, All, unsigned_abs};
ghost use lib.Lanes.{Each1, Each2, zip2};
ghost use Rattle.pilot_search.specs.BySigns.{across, correlation_with};
ghost use Rattle.pilot_search.specs.Lanes.{LanesAreNear, AreProducts, AreShort, AreSums, AreUnits};
ghost use Rattle.pilot_search.specs.Lanes.{IsShort, eight, parts, sample_at, signs_at, with_signs};

use chip_core::{Pair, Sample};
use std::simd::prelude::*;

/// The number of samples that the lanes hold.
pub(crate) const GROUP: usize = 8;

/// Two parts of each of eight items side by side, the first item at `at`.
macro_rules! side_by_side {
    ($list:ident, $at:ident, $one:tt, $other:tt) => {
        [
            $list[$at].$one,
            $list[$at].$other,
            $list[$at + 1].$one,
            $list[$at + 1].$other,
            $list[$at + 2].$one,
            $list[$at + 2].$other,
            $list[$at + 3].$one,
            $list[$at + 3].$other,
            $list[$at + 4].$one,
            $list[$at + 4].$other,
            $list[$at + 5].$one,
            $list[$at + 5].$other,
            $list[$at + 6].$one,
            $list[$at + 6].$other,
            $list[$at + 7].$one,
            $list[$at + 7].$other,
        ]
    };
}

/// Both parts of eight numbers side by side, the first number at `at`.
pub(crate) fn parts_of(numbers: &[Sample], at: usize) -> i16x16
    requires { at + 8 ≤ length numbers.now }
    ensures value { result ≡ parts (eight (sample_at numbers.now) at) }
    ensures short { Each1 IsShort (eight (sample_at numbers.now) at) }
{
    i16x16::from_array(side_by_side!(numbers, at, i, q))
}

/// The signs of eight chips side by side, the first chip at `at`.
fn wide_signs(signs: &[(i8, i8)], at: usize) -> i16x16
    requires signs { at + 8 ≤ length signs.now }
    requires units { All IsUnit signs.now }
    ensures { result ≡ parts (eight (signs_at signs.now) at) }
{
    i8x16::from_array(side_by_side!(signs, at, 0, 1)).cast::<i16>()
}

/// The signs of eight chips, each turned by a quarter of a circle.
fn turned_signs(signs: i16x16) -> i16x16
    ensures { (g : ℕ → ℤ × ℤ) (at : ℕ) → AreUnits g → signs ≡ parts (eight g at) →
        result ≡ parts (eight (λ t. across (g t)) at) }
{
    signs.swizzle([1, 0, 3, 2, 5, 4, 7, 6, 9, 8, 11, 10, 13, 12, 15, 14])
        * i16x16::from_array([-1, 1, -1, 1, -1, 1, -1, 1, -1, 1, -1, 1, -1, 1, -1, 1])
}

/// Returns the sums of both parts of eight numbers, each times a sign.
pub(crate) fn pair_sums(numbers: i16x16, signs: i16x16) -> i32x8
    ensures { (x g : ℕ → ℤ × ℤ) (at : ℕ) → AreShort x → AreUnits g →
        numbers ≡ parts (eight x at) → signs ≡ parts (eight g at) →
        result ≡ eight (λ t. with_signs (x t) (g t)) at }
{
    let products = numbers.cast::<i32>() * signs.cast::<i32>();
    products.swizzle([0, 2, 4, 6, 8, 10, 12, 14]) + products.swizzle([1, 3, 5, 7, 9, 11, 13, 15])
}

/// The products of eight samples with the conjugates of their points of the code, the first at
/// `at`: a lane of real parts and a lane of imaginary parts for each.
pub fn products(samples: &[Sample], signs: &[(i8, i8)], at: usize) -> (i32x8, i32x8)
    requires samples { at + 8 ≤ length samples.now }
    requires signs { at + 8 ≤ length signs.now }
    requires units { All IsUnit signs.now }
    ensures { AreProducts samples.now signs.now at result.0 result.1 }
{
    let numbers = parts_of(samples, at);
    let straight = wide_signs(signs, at);
    (
        pair_sums(numbers, straight),
        pair_sums(numbers, turned_signs(straight)),
    )
}

/// The sums of corresponding lanes.
pub fn added(one: i32x8, other: i32x8) -> i32x8
    requires { Each2 (λ a b. unsigned_abs a + unsigned_abs b < 2 ^ 31) one other }
    ensures { result ≡ zip2 (λ a b. a +ℤ b) one other }
{
    one + other
}

/// Adds the products of another group of eight samples to the sums per lane.
pub fn with_products(
    groups: usize,
    real: i32x8,
    imaginary: i32x8,
    more_real: i32x8,
    more_imaginary: i32x8,
) -> (i32x8, i32x8)
    requires few { groups < 4096 }
    requires near { LanesAreNear groups real imaginary }
    requires more { LanesAreNear 1 more_real more_imaginary }
    ensures { (samples : List TheSample) (signs : List (ℤ × ℤ)) →
        8 * groups + 8 ≤ length samples → 8 * groups + 8 ≤ length signs →
        AreSums samples signs groups real imaginary →
        AreProducts samples signs (8 * groups) more_real more_imaginary →
        AreSums samples signs (groups + 1) result.0 result.1 }
{
    (added(real, more_real), added(imaginary, more_imaginary))
}

/// The sum of all lanes.
pub fn total_of(lanes: i32x8) -> i64
    requires long { length lanes ≡ 8 }
    requires fit { Each1 (λ x. unsigned_abs x < 2 ^ 31) lanes }
    ensures { result ≡ total lanes }
{
    let mut sum = 0;
    for lane in lanes.to_array() {
        sum += i64::from(lane);
    }
    sum
}

/// Returns the sum of the products of groups of eight samples, from their sums per lane.
pub fn sum_of_lanes(groups: usize, real: i32x8, imaginary: i32x8) -> Pair
    requires few { groups ≤ 4096 }
    requires near { LanesAreNear groups real imaginary }
    ensures value { result ≡ record { i = total real; q = total imaginary } }
    ensures i_bound { unsigned_abs result.i ≤ 65536 * (8 * groups) }
    ensures q_bound { unsigned_abs result.q ≤ 65536 * (8 * groups) }
{
    Pair {
        i: total_of(real),
        q: total_of(imaginary),
    }
}

/// The sum of the products of all whole groups of eight samples with the conjugates of their points
/// of the code.
pub(crate) fn sums_on_lanes(samples: &[Sample], signs: &[(i8, i8)]) -> Pair
    requires few { length samples.now ≤ 32768 }
    requires room { length samples.now ≤ length signs.now }
    requires units { All IsUnit signs.now }
    ensures whole { plus result
        (correlation_with (drop (8 * (length samples.now / 8)) samples.now)
        (drop (8 * (length samples.now / 8)) signs.now)) ≡ correlation_with samples.now signs.now }
    ensures i_bound { unsigned_abs result.i ≤ 65536 * (8 * (length samples.now / 8)) }
    ensures q_bound { unsigned_abs result.q ≤ 65536 * (8 * (length samples.now / 8)) }
{
    let mut real = i32x8::splat(0);
    let mut imaginary = i32x8::splat(0);
    for k in 0..samples.len() / GROUP {
        let (more_real, more_imaginary) = products(samples, signs, GROUP * k);
        (real, imaginary) = with_products(k, real, imaginary, more_real, more_imaginary);
    }
    sum_of_lanes(samples.len() / GROUP, real, imaginary)
}
