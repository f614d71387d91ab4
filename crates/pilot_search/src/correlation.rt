//! The correlation of samples with the code at one phase.

ghost use Rattle.pilot_search.specs.Common.{norm, IsUnit};
ghost use Rattle.std.specs.Prelude.{◌≡◌, ◌<◌, ◌≤◌, ◌+◌, ◌*◌, ◌^◌, ℕ, length, unsigned_abs, All};
ghost use Rattle.pilot_search.specs.Search.{phase_correlation, energy};
ghost use Rattle.pilot_search.specs.BySigns.{IsSumBy};

use crate::blocks::sum_of_groups;
use crate::lanes::{GROUP, sums_on_lanes};
use crate::points::Points;
use chip_core::air::CODE_CHIPS;
use chip_core::{Pair, Phase, Sample};
use short_code::{Codes, despread};

/// The sum of the samples, each times the conjugate of its point of the code, added one by one.
fn correlate_plainly(samples: &[Sample], signs: &[(i8, i8)]) -> Pair
    requires few { length samples.now ≤ 32768 }
    requires room { length samples.now ≤ length signs.now }
    requires units { All IsUnit signs.now }
    ensures { IsSumBy samples.now signs.now result }
{
    let mut sum = Pair { i: 0, q: 0 };
    for (t, sample) in samples.iter().enumerate() {
        let product = despread(*sample, signs[t]);
        sum.i += product.i;
        sum.q += product.q;
    }
    sum
}

/// The same sum, added on lanes for whole groups of eight samples and one by one for the rest.
fn correlate(samples: &[Sample], signs: &[(i8, i8)]) -> Pair
    requires few { length samples.now ≤ 32768 }
    requires room { length samples.now ≤ length signs.now }
    requires units { All IsUnit signs.now }
    ensures { IsSumBy samples.now signs.now result }
{
    let done = GROUP * (samples.len() / GROUP);
    let (_, rest) = samples.split_at(done);
    let (_, signs_left) = signs.split_at(done);
    let groups = sums_on_lanes(samples, signs);
    let others = correlate_plainly(rest, signs_left);
    Pair {
        i: groups.i + others.i,
        q: groups.q + others.q,
    }
}

/// Returns the correlation with the code from the phase on, split at the point where the code
/// repeats.
pub(crate) fn correlation_at(samples: &[Sample], codes: &Codes, phase: Phase) -> Pair
    requires { length samples.now ≤ 32768 }
    ensures value { result ≡ phase_correlation samples.now phase }
    ensures i_bound { unsigned_abs result.i ≤ 65536 * length samples.now }
    ensures q_bound { unsigned_abs result.q ≤ 65536 * length samples.now }
{
    let (_, ahead) = codes.table().split_at(usize::from(phase.get()));
    let (before, after) = samples.split_at(samples.len().min(ahead.len()));
    let first = correlate(before, ahead);
    if after.is_empty() {
        return first;
    }
    let rest = correlate(after, codes.table());
    Pair {
        i: first.i + rest.i,
        q: first.q + rest.q,
    }
}

/// Returns the same correlation; it is computed from the points of the code if the samples are
/// whole groups of eight within one period of the code.
pub(crate) fn correlation_by(
    samples: &[Sample],
    codes: &Codes,
    points: &Points,
    phase: Phase,
) -> Pair
    requires { length samples.now ≤ 32768 }
    ensures value { result ≡ phase_correlation samples.now phase }
    ensures i_bound { unsigned_abs result.i ≤ 65536 * length samples.now }
    ensures q_bound { unsigned_abs result.q ≤ 65536 * length samples.now }
{
    let from = usize::from(phase.get());
    if samples.len() % GROUP != 0 || from + samples.len() > CODE_CHIPS as usize {
        return correlation_at(samples, codes, phase);
    }
    let (_, ahead) = points.straight().split_at(from);
    let (_, turned_ahead) = points.turned().split_at(from);
    sum_of_groups(samples, ahead, turned_ahead)
}

/// The square of a complex number's absolute value.
pub(crate) fn norm_of(sum: Pair) -> u64
    requires i { unsigned_abs sum.i ≤ 2 ^ 31 }
    requires q { unsigned_abs sum.q ≤ 2 ^ 31 }
    ensures value { result ≡ norm sum }
    ensures bound { result ≤ 2 ^ 63 }
{
    let i = sum.i.unsigned_abs();
    let q = sum.q.unsigned_abs();
    i * i + q * q
}

/// The energy of the samples at a phase: the square of the absolute value of their correlation with
/// the code. The code's chip of that phase falls on the first sample.
///
/// Sample t meets chip (phase + t) modulo 32,768. If i and q are I and Q of the sample, and c and d
/// the signs of the chip, the correlation has the real part Σ (i c + q d) and the imaginary part Σ
/// (q c - i d).
pub fn energy_at(samples: &[Sample], codes: &Codes, phase: Phase) -> u64
    requires { length samples.now ≤ 32768 }
    ensures value { result ≡ energy samples.now phase }
    ensures bound { result ≤ 2 ^ 63 }
{
    norm_of(correlation_at(samples, codes, phase))
}
