//! Sums over whole groups of eight samples, on lanes, from the points of the code and the turned
//! points.

ghost use Rattle.pilot_search.specs.Common.{IsUnit};
ghost use Rattle.std.specs.Prelude.{◌≡◌, ◌<◌, ◌≤◌, ◌+◌, ◌*◌, ◌%◌, length, map, All, unsigned_abs};
ghost use Rattle.pilot_search.specs.BySigns.{across, correlation_with};
ghost use Rattle.pilot_search.specs.Lanes.{AreProducts, both};

use crate::lanes::{GROUP, pair_sums, parts_of, sum_of_lanes, with_products};
use chip_core::{Pair, Sample};
use std::simd::prelude::*;

/// The products of eight samples, the first at `at`, with the conjugates of their points of the
/// code. `turned` contains the same points turned by a quarter of a circle.
fn products_by(
    samples: &[Sample],
    points: &[Sample],
    turned: &[Sample],
    at: usize,
) -> (i32x8, i32x8)
    requires samples { at + 8 ≤ length samples.now }
    requires points { at + 8 ≤ length points.now }
    requires units { All IsUnit (map both points.now) }
    requires across { map both turned.now ≡ map across (map both points.now) }
    requires turned { at + 8 ≤ length turned.now }
    ensures { AreProducts samples.now (map both points.now) at result.0 result.1 }
{
    let numbers = parts_of(samples, at);
    (
        pair_sums(numbers, parts_of(points, at)),
        pair_sums(numbers, parts_of(turned, at)),
    )
}

/// Returns the sum of the products of samples with the conjugates of their points of the code, for
/// whole groups of eight samples.
pub(crate) fn sum_of_groups(samples: &[Sample], points: &[Sample], turned: &[Sample]) -> Pair
    requires few { length samples.now ≤ 32768 }
    requires whole { length samples.now % 8 ≡ 0 }
    requires points { length samples.now ≤ length points.now }
    requires units { All IsUnit (map both points.now) }
    requires across { map both turned.now ≡ map across (map both points.now) }
    requires turned { length samples.now ≤ length turned.now }
    ensures value { result ≡ correlation_with samples.now (map both points.now) }
    ensures i_bound { unsigned_abs result.i ≤ 65536 * length samples.now }
    ensures q_bound { unsigned_abs result.q ≤ 65536 * length samples.now }
{
    let mut real = i32x8::splat(0);
    let mut imaginary = i32x8::splat(0);
    for k in 0..samples.len() / GROUP {
        let (more_real, more_imaginary) = products_by(samples, points, turned, GROUP * k);
        (real, imaginary) = with_products(k, real, imaginary, more_real, more_imaginary);
    }
    sum_of_lanes(samples.len() / GROUP, real, imaginary)
}
