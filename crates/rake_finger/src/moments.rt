//! The samples before an evaluation of the pilot sets, and their power.

ghost use Rattle.rake_finger.specs.Common.{square, Sample};
ghost use Rattle.std.specs.Prelude.{◌≡◌, ◌≤◌, ◌*◌, ◌^◌, List, length, All};
ghost use Rattle.rake_finger.specs.Held.{HoldsLast};
ghost use Rattle.rake_finger.specs.InRing.{HoldsBefore};
ghost use Rattle.rake_finger.specs.Strengths.{samples_before as samples_before_of, sample_power};
ghost use Rattle.rake_finger.specs.Strengths.{IsNarrow};

use crate::ring::SampleRing;
use chip_core::Sample;

/// The number of samples that are measured at an evaluation of the pilot sets.
pub(crate) const MOMENT_SAMPLES: usize = 512;

/// The 512 samples before a place, counted from sample 0.
pub(crate) fn samples_before(ring: &SampleRing, end: u64) -> [Sample; MOMENT_SAMPLES]
    requires { HoldsBefore ring.now end }
    ensures long { length result ≡ 512 }
    ensures narrow { All IsNarrow result }
    ensures value { (samples : List Sample) → HoldsLast ring.now samples →
        result ≡ samples_before_of samples end }
{
    let mut cell = ring.cell_of(end - MOMENT_SAMPLES as u64);
    let mut samples = [Sample { i: 0, q: 0 }; MOMENT_SAMPLES];
    for k in 0..MOMENT_SAMPLES {
        samples[k] = ring.get(cell);
        cell = ring.cell_after(cell);
    }
    samples
}

/// The square of a branch.
fn square_of(branch: i16) -> u64
    ensures value { result ≡ square branch }
    ensures most { result ≤ 2 ^ 30 }
{
    let size = u64::from(branch.unsigned_abs());
    size * size
}

/// The power of samples: the sum of the squares of both branches.
fn power_of(samples: &[Sample]) -> u64
    requires { length samples.now ≤ 512 }
    ensures value { result ≡ sample_power samples.now }
    ensures most { result ≤ 2 ^ 31 * length samples.now }
{
    let mut power = 0;
    for sample in samples {
        power += square_of(sample.i) + square_of(sample.q);
    }
    power
}

/// The power of the 512 samples before `end`, counted from sample 0: the sum of i² + q².
///
/// The ring must still hold these samples. Compared with this power, a pilot's strength gives the
/// pilot's share of all received power.
pub fn power(ring: &SampleRing, end: u64) -> u64
    requires { HoldsBefore ring.now end }
    ensures value { (samples : List Sample) → HoldsLast ring.now samples →
        result ≡ sample_power (samples_before_of samples end) }
    ensures most { result ≤ 2 ^ 40 }
{
    power_of(&samples_before(ring, end))
}
