//! The soft value of one symbol on one finger.

ghost use Rattle.rake_finger.specs.Common.{Sample};
ghost use Rattle.std.specs.Prelude.{◌≡◌, ◌<◌, ◌≤◌, ◌+◌, ◌*◌, ◌^◌, List, pos, ◌≤ℤ◌, ◌*ℤ◌};
ghost use Rattle.std.specs.Prelude.{unsigned_abs};
ghost use Rattle.rake_finger.specs.Held.{HoldsLast};
ghost use Rattle.rake_finger.specs.InRing.{IsInRing};
ghost use Rattle.rake_finger.specs.Soft.{symbols, finger_place, turned_part, soft_bound};
ghost use Rattle.rake_finger.specs.Soft.{soft as soft_value};

use crate::finger::Finger;
use crate::form::Form;
use crate::ring::SampleRing;
use crate::sums::covered_sum;
use chip_core::Pair;
use chip_core::air::PILOT_ROW;
use short_code::Codes;

/// The place, counted from sample 0, at which the finger reads what lies at reference sample
/// `start`.
pub(crate) fn place_of(finger: &Finger, start: u64) -> u64
    requires begun { finger.now.delta ≤ℤ pos start }
    requires room { finger_place finger.now start ≤ 2 ^ 63 }
    ensures { result ≡ finger_place finger.now start }
{
    let chips = u64::from(finger.delta.unsigned_abs());
    if finger.delta < 0 {
        start + chips
    } else {
        start - chips
    }
}

/// The product of a part of the pilot's sum and a part of the symbol's.
fn product(pilot: i64, symbol: i64) -> i64
    requires pilot { unsigned_abs pilot ≤ 2 ^ 27 }
    requires symbol { unsigned_abs symbol ≤ 2 ^ 24 }
    ensures value { result ≡ pilot *ℤ symbol }
    ensures size { unsigned_abs result ≡ unsigned_abs pilot * unsigned_abs symbol }
    ensures most { unsigned_abs result ≤ 2 ^ 51 }
{
    pilot * symbol
}

/// The real part of the conjugate of the pilot's sum times the symbol's.
pub(crate) fn turned_by(pilot: Pair, symbol: Pair) -> i64
    requires pilot_i { unsigned_abs pilot.i ≤ 2 ^ 27 }
    requires pilot_q { unsigned_abs pilot.q ≤ 2 ^ 27 }
    requires symbol_i { unsigned_abs symbol.i ≤ 2 ^ 24 }
    requires symbol_q { unsigned_abs symbol.q ≤ 2 ^ 24 }
    ensures value { result ≡ turned_part pilot symbol }
    ensures bound { unsigned_abs result ≤ unsigned_abs pilot.i * unsigned_abs symbol.i +
        unsigned_abs pilot.q * unsigned_abs symbol.q }
{
    product(pilot.i, symbol.i) + product(pilot.q, symbol.q)
}

/// The soft value of a symbol of the frame that begins at reference sample `start`, on one finger.
///
/// It is positive if the symbol is more likely a 0. The samples are summed over the symbol's chips,
/// and for the pilot over the aligned window of the frame that contains the symbol. The value is
/// the real part of the conjugate of the pilot's sum times the symbol's. It is not descrambled. Its
/// absolute value is at most 2^51 on the sync channel, and 2^50 on other channels.
pub fn soft(
    ring: &SampleRing,
    codes: &Codes,
    finger: &Finger,
    form: Form,
    start: u64,
    symbol: u16,
) -> i64
    requires row { finger.now.row < 64 }
    requires ring { IsInRing ring.now form start finger.now }
    requires symbol { symbol < symbols form }
    ensures value { (samples : List Sample) → HoldsLast ring.now samples →
        result ≡ soft_value samples finger.now form start symbol }
    ensures bound { unsigned_abs result ≤ soft_bound form }
{
    let _taken = ring.taken();
    let (chips, wide) = (form.symbol_chips(), form.window_chips());
    let first = place_of(finger, start);
    let window = first + u64::from(wide * (chips * symbol / wide));
    let pilot = covered_sum(ring, codes, finger.phase, PILOT_ROW, window, wide);
    let place = first + u64::from(chips * symbol);
    let sum = covered_sum(ring, codes, finger.phase, finger.row, place, chips);
    turned_by(pilot, sum)
}
