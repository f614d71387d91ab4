//! The best of a range of phases.

ghost use Rattle.std.specs.Prelude.{◌≡◌, ◌<◌, ◌≤◌, ◌+◌, ◌^◌, ℕ, length};
ghost use Rattle.pilot_search.specs.Search.{energy};
ghost use Rattle.pilot_search.specs.BestIn.{IsBestIn};

use crate::correlation::energy_at;
use chip_core::{Phase, Sample};
use short_code::Codes;

/// A code phase with the energy of the samples there.
#[derive(Clone, Copy, PartialEq, Eq, Debug)]
pub struct Best {
    /// The chip of the code that falls on the first sample.
    pub phase: Phase,
    /// The square of the absolute value of the correlation: at most 2^63.
    pub energy: u64,
}

/// Phase number `n`, with the energy there.
pub(crate) fn measured(samples: &[Sample], codes: &Codes, n: u16) -> Best
    requires few { length samples.now ≤ 32768 }
    requires phase { n < 32768 }
    ensures phase { result.phase ≡ n }
    ensures energy { result.energy ≡ energy samples.now n }
    ensures bound { result.energy ≤ 2 ^ 63 }
{
    let phase = Phase::new(n).unwrap();
    Best {
        phase,
        energy: energy_at(samples, codes, phase),
    }
}

/// The phase with the greatest energy from `from` to before `to`, the smallest on a tie, and its
/// energy.
///
/// Every phase of the range is tried. If there are no samples, or all are zeros, each energy is 0.
pub fn sweep(samples: &[Sample], codes: &Codes, from: u16, to: u16) -> Best
    requires few { length samples.now ≤ 32768 }
    requires order { from < to }
    requires top { to ≤ 32768 }
    ensures best { IsBestIn samples.now from to result.phase result.energy }
    ensures bound { result.energy ≤ 2 ^ 63 }
{
    let mut best = measured(samples, codes, from);
    for n in from + 1..to {
        let found = measured(samples, codes, n);
        if found.energy > best.energy {
            best = found;
        }
    }
    best
}
