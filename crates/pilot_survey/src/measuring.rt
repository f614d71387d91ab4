//! Measures the energy of one pilot.

ghost use Rattle.std.specs.Prelude.{◌≡◌, ◌<◌, ◌≤◌, ◌+◌, ◌*◌, ◌%◌, length, map, pos, ◌-ℤ◌};
ghost use Rattle.std.specs.List.{range_with_len};
ghost use Rattle.pilot_survey.specs.Survey.{survey_phase, surveyed};

use crate::rank::Rank;
use chip_core::air::CODE_CHIPS;
use chip_core::{Phase, Sample};
use pilot_search::energy_at;
use short_code::Codes;

/// Returns the phase at a place around the pilot's own phase. Place 0 lies `width` chips below it.
fn phase_at(base: Phase, width: u8, pilot: u16, place: u8) -> Phase
    requires width { width ≤ 31 }
    requires pilot { pilot < 512 }
    requires place { place ≤ 62 }
    ensures { result ≡ survey_phase base width pilot place }
{
    let above = u32::from(base.get()) + 65536 + u32::from(place);
    let number = (above - 64 * u32::from(pilot) - u32::from(width)) % CODE_CHIPS as u32;
    Phase::new(number as u16).unwrap()
}

/// Returns how many chips a place is above the pilot's own phase.
fn delta_of(width: u8, place: u8) -> i8
    requires width { width ≤ 31 }
    requires place { place ≤ 62 }
    ensures { result ≡ pos place -ℤ pos width }
{
    place as i8 - width as i8
}

/// Returns the rank of a pilot: its greatest energy, and the least delta on a tie.
fn measured(samples: &[Sample], codes: &Codes, base: Phase, width: u8, pilot: u16) -> Rank
    requires few { length samples.now ≤ 32768 }
    requires width { width ≤ 31 }
    requires pilot { pilot < 512 }
    ensures { result ≡ surveyed samples.now base width pilot }
{
    let mut best = 0;
    let mut most = energy_at(samples, codes, phase_at(base, width, pilot, 0));
    for place in 1..2 * width + 1 {
        let energy = energy_at(samples, codes, phase_at(base, width, pilot, place));
        if energy > most {
            best = place;
            most = energy;
        }
    }
    Rank {
        pilot,
        delta: delta_of(width, best),
        energy: most,
    }
}

/// Measures a pilot for each entry of `ranks`, from the pilot `first` on.
pub(crate) fn measure_all(
    samples: &[Sample],
    codes: &Codes,
    base: Phase,
    width: u8,
    first: u16,
    ranks: &mut [Rank],
)
    requires few { length samples.now ≤ 32768 }
    requires width { width ≤ 31 }
    requires room { first + length ranks.old ≤ 512 }
    ensures { ranks.new ≡
        map (surveyed samples.now base width) (range_with_len first (length ranks.old)) }
{
    for place in 0..ranks.len() {
        ranks[place] = measured(samples, codes, base, width, first + place as u16);
    }
}
