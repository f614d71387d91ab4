//! The soft values of the last three frames.

ghost use Rattle.std.specs.Prelude.{◌≡◌, ◌≤◌, ◌++◌, ◌+◌, ◌-◌, ◌*◌, ◌*ℤ◌, ◌^◌, drop, length, sum_by};
ghost use Rattle.std.specs.Prelude.{unsigned_abs};
ghost use Rattle.chip_core.specs.Bits.{sign};
ghost use Rattle.rake_finger.specs.Scrambled.{Scrambles, unscrambled};
ghost use Rattle.reception.specs.Softs.{AreSmall, frame_most};

use chip_core::air::SPAN_SYMBOLS;

/// The soft values of a channel's last three frames, one for each symbol, the newest at the end.
pub type SpanSofts = [i64; SPAN_SYMBOLS];

/// Returns a soft value, negated if its scrambling bit is 1.
fn descrambled_value(bit: bool, soft: i64) -> i64
    requires { unsigned_abs soft ≤ 2 ^ 62 }
    ensures value { result ≡ sign bit *ℤ soft }
    ensures size { unsigned_abs result ≡ unsigned_abs soft }
{
    if bit { -soft } else { soft }
}

/// Negates each soft value whose scrambling bit is 1, if the channel is scrambled (TIA/EIA-95-B,
/// 7.1.3.1.6).
pub fn unscramble(bits: &[bool], softs: &mut [i64])
    requires bits { Scrambles bits.now (length softs.old) }
    requires small { sum_by unsigned_abs softs.old ≤ 2 ^ 62 }
    ensures value { softs.new ≡ unscrambled bits.now softs.old }
    ensures small { sum_by unsigned_abs softs.new ≡ sum_by unsigned_abs softs.old }
{
    for i in 0..bits.len() {
        softs[i] = descrambled_value(bits[i], softs[i]);
    }
}

/// Adds the values of another frame, which replace the oldest ones.
pub(crate) fn shift_in(softs: &mut SpanSofts, fresh: &[i64])
    requires few { length fresh.now ≤ 384 }
    requires small { AreSmall (length fresh.now) softs.old }
    requires fresh { sum_by unsigned_abs fresh.now ≤ frame_most }
    ensures value { softs.new ≡ drop (length fresh.now) softs.old ++ fresh.now }
    ensures whole { length softs.new ≡ 1152 }
    ensures small { AreSmall (length fresh.now) softs.new }
{
    softs.rotate_left(fresh.len());
    softs[SPAN_SYMBOLS - fresh.len()..].copy_from_slice(fresh);
}
