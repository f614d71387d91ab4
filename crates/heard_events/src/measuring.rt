//! Measures the strength of the pilots of the sets before each evaluation of the sets.

ghost use Rattle.heard_events.specs.Common.{Sample, HoldsLast, HoldsBefore, modulo_code};
ghost use Rattle.std.specs.Prelude.{◌≡◌, ◌<◌, ◌≤◌, List, unsigned_abs};
ghost use Rattle.std.specs.List.{All};
ghost use Rattle.heard_events.specs.Legs.{pilot_phase};
ghost use Rattle.heard_events.specs.Moments.{pilot_strength, strengths_at};
ghost use Rattle.heard_events.specs.SoundMarks.{IsSoundMark};
ghost use Rattle.pilot_sets.specs.declared.strengths.Strength.{Strength as TheStrength};

use crate::mark::Mark;
use chip_core::Phase;
use chip_core::air::OFFSET_CHIPS;
use pilot_sets::{Sets, Strength, Strengths};
use rake_finger::{SampleRing, strength};
use short_code::Codes;

/// Returns the chip of a pilot's code that falls on sample 0, on a path `delta` chips earlier than
/// the reference.
pub(crate) fn pilot_phase(mark: &Mark, pilot: u16, delta: i16) -> Phase
    requires { IsSoundMark mark.now }
    ensures { result ≡ pilot_phase mark.now pilot delta }
{
    let following = OFFSET_CHIPS * u64::from(pilot) + mark.sample;
    phase_of(i64::from(delta) - following as i64)
}

/// Returns the phase of a number of chips, which may be negative or exceed the code's period.
fn phase_of(chips: i64) -> Phase
    ensures { result ≡ modulo_code chips }
{
    Phase::new(chips.rem_euclid(32768) as u16).unwrap()
}

/// Returns the strength of a pilot in the 512 samples before `place`, within the sets' window for
/// it.
fn pilot_strength(
    sets: &Sets,
    mark: &Mark,
    ring: &SampleRing,
    codes: &Codes,
    place: u64,
    pilot: u16,
) -> Strength
    requires mark { IsSoundMark mark.now }
    requires ring { HoldsBefore ring.now place }
    ensures value { (heard : List Sample) → HoldsLast ring.now heard →
        result ≡ pilot_strength mark.now heard place sets.now pilot }
    ensures pilot { result.pilot ≡ pilot }
    ensures close { unsigned_abs result.delta ≤ 226 }
{
    let window = sets.window(pilot);
    let phase = pilot_phase(mark, pilot, 0);
    let (energy, delta) = strength(ring, codes, phase, window, place);
    Strength {
        pilot,
        energy,
        delta,
    }
}

/// Returns the strengths of all pilots of the sets in the 512 samples before `place`, in order.
pub(crate) fn measure(
    sets: &Sets,
    mark: &Mark,
    ring: &SampleRing,
    codes: &Codes,
    place: u64,
) -> Strengths
    requires mark { IsSoundMark mark.now }
    requires ring { HoldsBefore ring.now place }
    ensures value { (heard : List Sample) → HoldsLast ring.now heard →
        result ≡ strengths_at mark.now heard place sets.now }
    ensures pilots { All (λ (s : TheStrength). s.pilot < 512) result }
    ensures close { All (λ (s : TheStrength). unsigned_abs s.delta ≤ 226) result }
{
    let pilots = sets.pilots();
    let mut strengths = Strengths::empty();
    for i in 0..pilots.len() {
        let measured = pilot_strength(sets, mark, ring, codes, place, pilots.get(i));
        if strengths.push(measured).is_err() {
            unreachable!()
        }
    }
    strengths
}
