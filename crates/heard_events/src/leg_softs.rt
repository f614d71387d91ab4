//! The soft values of a traffic frame, over all fingers and by power control subchannels.

ghost use Rattle.heard_events.specs.Common.{Sample, summed_subchannels, HoldsLast, softs, Data};
ghost use Rattle.std.specs.Prelude.{◌≡◌, ◌<◌, ◌≤◌, ◌*◌, ◌^◌, List, true, take, map, sum_by};
ghost use Rattle.std.specs.Prelude.{unsigned_abs};
ghost use Rattle.std.specs.List.{All};
ghost use Rattle.std.specs.List.Sorted.{IsStrictlyIncreasing};
ghost use Rattle.heard_events.specs.Legs.{all_fingers, has_subchannel, on_subchannel};
ghost use Rattle.heard_events.specs.Legs.{subchannels as subchannels_of};
ghost use Rattle.heard_events.specs.LegSofts.{IsHeldFrom, sums_on};

use crate::fingers::leg_fingers;
use crate::legs::Legs;
use chip_core::Phase;
use chip_core::air::DATA_SYMBOLS;
use frame_decoder::{FrameSofts, PowerSofts};
use pilot_search::Near;
use rake_finger::{Form, SampleRing, combine_into};
use short_code::Codes;
use symbol_path::PowerPlaces;

/// Computes the soft values of the frame that begins at a reference sample, from the fingers of
/// these pilots, without descrambling.
fn leg_softs(
    ring: &SampleRing,
    codes: &Codes,
    legs: &Legs,
    phase: Phase,
    near: &Near,
    start: u64,
    out: &mut FrameSofts,
)
    requires legs { IsHeldFrom ring.now legs.now phase near.now start }
    ensures value { (heard : List Sample) → HoldsLast ring.now heard → out.new
        ≡ softs heard (all_fingers phase (take near.now.count near.now.deltas) legs.now) Data
        start }
    ensures small { sum_by unsigned_abs out.new ≤ 3 * 2 ^ 60 }
{
    let fingers = leg_fingers(legs, phase, near);
    combine_into(ring, codes, &fingers, Form::Data, start, out);
}

/// Computes the soft values of the frame from the fingers of one power control subchannel. If all
/// pilots are on it, copies `all`, the soft values over all fingers.
fn subchannel_softs(
    ring: &SampleRing,
    codes: &Codes,
    legs: &Legs,
    phase: Phase,
    near: &Near,
    start: u64,
    subchannel: u8,
    all: &FrameSofts,
    out: &mut FrameSofts,
)
    requires legs { IsHeldFrom ring.now legs.now phase near.now start }
    requires has { has_subchannel legs.now subchannel ≡ true }
    requires all { (heard : List Sample) → HoldsLast ring.now heard → all.now
        ≡ softs heard (all_fingers phase (take near.now.count near.now.deltas) legs.now) Data
        start }
    requires small { sum_by unsigned_abs all.now ≤ 3 * 2 ^ 60 }
    ensures value { (heard : List Sample) → HoldsLast ring.now heard → out.new
        ≡ softs heard (all_fingers phase (take near.now.count near.now.deltas)
        (on_subchannel subchannel legs.now)) Data start }
    ensures small { sum_by unsigned_abs out.new ≤ 3 * 2 ^ 60 }
{
    let on = legs.on_subchannel(subchannel);
    if on.all().len() == legs.all().len() {
        *out = *all;
        return;
    }
    leg_softs(ring, codes, &on, phase, near, start, out);
}

/// Returns the sums of the frame's power control bits on each subchannel, given the places of the
/// replaced symbols and the frame's soft values over all fingers.
pub fn power_softs(
    ring: &SampleRing,
    codes: &Codes,
    legs: &Legs,
    phase: Phase,
    near: &Near,
    start: u64,
    replaced: &PowerPlaces,
    all: &FrameSofts,
) -> PowerSofts
    requires legs { IsHeldFrom ring.now legs.now phase near.now start }
    requires all { (heard : List Sample) → HoldsLast ring.now heard → all.now
        ≡ softs heard (all_fingers phase (take near.now.count near.now.deltas) legs.now) Data
        start }
    requires small { sum_by unsigned_abs all.now ≤ 3 * 2 ^ 60 }
    requires below { All (λ place. place < 384) replaced.now }
    requires rising { IsStrictlyIncreasing replaced.now }
    ensures value { (heard : List Sample) → HoldsLast ring.now heard → summed_subchannels result
        ≡ map
        (sums_on heard phase (take near.now.count near.now.deltas) legs.now start replaced.now)
        (subchannels_of legs.now) }
    ensures most { result.count ≤ 6 }
{
    let mut sums = PowerSofts::empty();
    let mut room = [0; DATA_SYMBOLS];
    for subchannel in 0..6 {
        if legs.has_subchannel(subchannel) {
            subchannel_softs(
                ring, codes, legs, phase, near, start, subchannel, all, &mut room,
            );
            sums.push(&room, replaced);
        }
    }
    sums
}
