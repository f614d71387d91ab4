//! The strength of a pilot.

ghost use Rattle.rake_finger.specs.Common.{Sample};
ghost use Rattle.std.specs.Prelude.{◌≡◌, ◌≤◌, ◌+◌, ◌/◌, ◌%◌, ◌^◌, List, length, unsigned_abs};
ghost use Rattle.rake_finger.specs.Held.{HoldsLast};
ghost use Rattle.rake_finger.specs.InRing.{HoldsBefore};
ghost use Rattle.rake_finger.specs.Strengths.{strength_before, IsStrongest};

use crate::moments::{MOMENT_SAMPLES, samples_before};
use crate::ring::SampleRing;
use chip_core::air::CODE_CHIPS;
use chip_core::{Phase, Sample};
use pilot_search::energy_at;
use short_code::Codes;

/// The code phase of the chip with this number.
fn phase_of(chip: u64) -> Phase
    ensures { result ≡ chip % 32768 }
{
    Phase::new((chip % CODE_CHIPS) as u16).unwrap()
}

/// Returns the largest energy of the samples over `count` consecutive phases from `lowest` on, and
/// its place, the first on a tie. The phases may wrap around the code's end.
fn strongest(samples: &[Sample], codes: &Codes, lowest: u64, count: u16) -> (u64, u16)
    requires samples { length samples.now ≤ 512 }
    requires lowest { lowest ≤ 2 ^ 63 + 2 ^ 16 }
    requires count { 1 ≤ count }
    ensures { IsStrongest samples.now lowest count result.1 result.0 }
{
    let mut most = energy_at(samples, codes, phase_of(lowest));
    let mut best = 0;
    for place in 1..count {
        let energy = energy_at(samples, codes, phase_of(lowest + u64::from(place)));
        if energy > most {
            most = energy;
            best = place;
        }
    }
    (most, best)
}

/// The strength of a pilot over the 512 samples before `end`, counted from sample 0: the largest
/// energy of a window of phases, and its delta in chips.
///
/// `phase` is the chip of the code that falls on sample 0 at a delta of 0. The deltas run from
/// `-window / 2` to `window / 2`. At each of them the samples are correlated with the code that
/// many chips further on; on a tie the smallest delta is taken. The ring must still hold the
/// samples. If all are 0, the energy is 0 and the delta `-window / 2`.
pub fn strength(ring: &SampleRing, codes: &Codes, phase: Phase, window: u16, end: u64) -> (u64, i16)
    requires ring { HoldsBefore ring.now end }
    requires even { window % 2 ≡ 0 }
    requires window { window ≤ 452 }
    ensures energy { (samples : List Sample) → HoldsLast ring.now samples →
        result.0 ≡ (strength_before samples phase window end).energy }
    ensures delta { (samples : List Sample) → HoldsLast ring.now samples →
        result.1 ≡ (strength_before samples phase window end).delta }
    ensures most { result.0 ≤ 2 ^ 51 }
    ensures within { unsigned_abs result.1 ≤ window / 2 }
{
    let _taken = ring.taken();
    let samples = samples_before(ring, end);
    let half = window / 2;
    let middle = u64::from(phase.get()) + (end - MOMENT_SAMPLES as u64);
    let lowest = middle + CODE_CHIPS - u64::from(half);
    let (energy, place) = strongest(&samples, codes, lowest, window + 1);
    (energy, place as i16 - half as i16)
}
