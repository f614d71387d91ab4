//! The phases of greatest energy near the best phase.

ghost use Rattle.std.specs.Prelude.{◌≡◌, ◌≢◌, ◌<◌, ◌≤◌, ◌+◌, ◌-◌, ◌*◌, ◌↔◌, ◌++◌, IsTrue, length};
ghost use Rattle.std.specs.Prelude.{replicate, slice_get, Some, pos, ◌-ℤ◌};
ghost use Rattle.pilot_search.specs.BestIn.{IsBestIn};
ghost use Rattle.pilot_search.specs.Near.{near_phase_at, near_deltas};
ghost use Rattle.pilot_search.specs.Ranked.{RanksBefore, IsRound, IsNext};

use crate::paths::Near;
use crate::sweeping::{Best, measured};
use chip_core::Sample;
use chip_core::air::CODE_CHIPS;
use short_code::Codes;

/// The number of phases near the best one: from 32 below it to 32 above it.
const PLACES: u8 = 65;

/// The place of the best phase itself.
const MIDDLE: u8 = 32;

/// The number of the phase at a place.
fn phase_number(best: u16, place: u8) -> u16
    requires best { best < 32768 }
    requires place { place < 65 }
    ensures value { result ≡ near_phase_at best place }
    ensures below { result < 32768 }
{
    ((u32::from(best) + 32736 + u32::from(place)) % CODE_CHIPS as u32) as u16
}

/// The delta of a place.
fn delta_of(place: u8) -> i8
    requires { place < 65 }
    ensures { result ≡ pos place -ℤ pos 32 }
{
    place as i8 - 32
}

/// The phases of all places with their energies.
fn measured_round(samples: &[Sample], codes: &Codes, best: Best) -> [Best; 65]
    requires { length samples.now ≤ 32768 }
    ensures { IsRound samples.now best.phase 65 result }
{
    let middle = best.phase.get();
    let mut round = [best; 65];
    for place in 0..PLACES {
        round[usize::from(place)] = measured(samples, codes, phase_number(middle, place));
    }
    round
}

/// Whether one phase comes before another: by greater energy, then by lesser phase.
fn comes_before(one: &Best, other: &Best) -> bool
    ensures { IsTrue result ↔ (RanksBefore one.now other.now) }
{
    let (phase, other_phase) = (one.phase.get(), other.phase.get());
    one.energy > other.energy || one.energy == other.energy && phase < other_phase
}

/// The place that comes before all others except `first` and `second`; `start` is neither of these.
fn next_place(round: &[Best], first: u8, second: u8, start: u8) -> u8
    requires long { length round.now ≡ 65 }
    requires below { start < 65 }
    requires not_first { start ≢ first }
    requires not_second { start ≢ second }
    ensures { IsNext round.now first second 65 result }
{
    let mut next = start;
    for place in 0..PLACES {
        let left = place != first && place != second;
        if left && comes_before(&round[usize::from(place)], &round[usize::from(next)]) {
            next = place;
        }
    }
    next
}

/// The `count` phases of greatest energy near the best one, 1 to 3: the first of the 65 phases from
/// 32 below it to 32 above it, modulo 32,768, ordered by greater energy, then by lesser phase.
///
/// `best` is the result of the sweep over all phases, and always the first path. If all samples are
/// zeros, the best phase is 0 and the deltas are 0, 1 and 2.
pub fn near(samples: &[Sample], codes: &Codes, best: Best, count: u8) -> Near
    requires few { length samples.now ≤ 32768 }
    requires best { IsBestIn samples.now 0 32768 best.phase best.energy }
    requires least { 1 ≤ count }
    requires most { count ≤ 3 }
    ensures count { result.count ≡ count }
    ensures deltas { result.deltas ≡
        near_deltas samples.now best.phase count ++ replicate (3 - count) (pos 0) }
    ensures first { slice_get result.deltas 0 ≡ Some (pos 0) }
{
    if count == 1 {
        return Near {
            count,
            deltas: [0; 3],
        };
    }
    let round = measured_round(samples, codes, best);
    let second = next_place(&round, MIDDLE, MIDDLE, 0);
    if count == 2 {
        return Near {
            count,
            deltas: [0, delta_of(second), 0],
        };
    }
    let third = next_place(&round, MIDDLE, second, u8::from(second == 0));
    Near {
        count,
        deltas: [0, delta_of(second), delta_of(third)],
    }
}
