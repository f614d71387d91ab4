//! Bounds on what the remaining samples can add.

ghost use Rattle.std.specs.Prelude.{◌≡◌, ◌<◌, ◌≤◌, ◌+◌, ◌*◌, ◌^◌, length, slice_index};
ghost use Rattle.std.specs.Prelude.{unsigned_abs};
ghost use Rattle.pilot_search.specs.Bounds.{AreTails};

use chip_core::Sample;
use std::marker::Model;

/// The number of samples in a chunk. Bounds are checked only at the beginning of a chunk.
pub(crate) const CHUNK: usize = 64;

/// The sums of |I| + |Q| over the samples from each multiple of 64 on, for at most 32,768 samples.
///
/// At any phase, neither part of the correlation of these samples is above their sum of |I| + |Q|.
/// Contracts see the 512 sums; those after the last sample are 0.
#[derive(Drop)]
pub struct Tails {
    sums: [u64; 512],
}

impl Model for Tails {
    ghost use Rattle.std.specs.Prelude.{◌≡◌, ◌<◌, ◌≤◌, ◌+◌, ◌*◌, ◌^◌, ℕ, List, slice_index};

    ghost Value = { List ℕ };

    ghost view = { λ tails. tails.sums };

    ghost invariant = { λ tails. (j : ℕ) → j < 512 →
        slice_index tails.sums j + 65536 * (64 * j) ≤ 2 ^ 31 };
}

/// |I| + |Q| of a sample.
fn magnitude(sample: Sample) -> u64
    ensures value { result ≡ unsigned_abs sample.i + unsigned_abs sample.q }
    ensures bound { result ≤ 65536 }
{
    u64::from(sample.i.unsigned_abs()) + u64::from(sample.q.unsigned_abs())
}

impl Tails {
    /// Computes the sums of these samples, from the last sample to the first.
    pub fn of(samples: &[Sample]) -> Tails
        requires { length samples.now ≤ 32768 }
        ensures { AreTails samples.now result }
    {
        let mut sums = [0; 512];
        let mut sum = 0;
        let mut k = samples.len();
        while k > 0 {
            k -= 1;
            sum += magnitude(samples[k]);
            if k % CHUNK == 0 {
                sums[k / CHUNK] = sum;
            }
        }
        Tails { sums }
    }

    /// The sum over the samples from 64 `j` on.
    pub fn get(&self, j: u16) -> u64
        requires { j < 512 }
        ensures value { result ≡ slice_index self.now j }
        ensures bound { result + 65536 * (64 * j) ≤ 2 ^ 31 }
    {
        self.sums[usize::from(j)]
    }
}
