//! Strong pilots and expired timers.

ghost use Rattle.std.specs.Prelude.{◌≡◌, ◌<◌, ◌≤◌, ◌^◌, ◌*◌};
ghost use Rattle.pilot_sets.specs.Tables.{ratio as ratio_of};
ghost use Rattle.pilot_sets.specs.Timers.{is_strong as is_strong_by, is_expired as is_expired_by};
ghost use Rattle.pilot_sets.specs.Timers.{timer_after as defined_timer_after};

use crate::tables::{drop_timer_ms, ratio};
use crate::thresholds::Thresholds;

/// An energy in millionths.
pub(crate) fn millionths(energy: u64) -> u128
    ensures value { result ≡ 1000000 * energy }
    ensures bound { result < 2 ^ 84 }
{
    1_000_000 * u128::from(energy)
}

/// The part of an energy that is `k` half decibels below it, in millionths.
pub(crate) fn part_of(k: u8, energy: u64) -> u128
    ensures value { result ≡ ratio_of k * energy }
    ensures bound { result < 2 ^ 84 }
{
    u128::from(ratio(k)) * u128::from(energy)
}

/// The energy of a pilot whose power is `k` half decibels below that of the samples, in millionths.
/// If the 512 samples hold only a pilot, its energy is 1,024 times their power.
fn threshold(k: u8, power: u64) -> u128
    ensures value { result ≡ 1024 * ratio_of k * power }
    ensures bound { result < 2 ^ 94 }
{
    1024 * u128::from(ratio(k)) * u128::from(power)
}

/// Whether a pilot of this energy is strong for threshold `k`, given the power of the samples.
pub(crate) fn is_strong(k: u8, power: u64, energy: u64) -> bool
    ensures { result ≡ is_strong_by k power energy }
{
    energy > 0 && threshold(k, power) <= millionths(energy)
}

/// Whether a timer has run for the drop time. A moment lasts 80 ms.
pub(crate) fn is_expired(thresholds: &Thresholds, time: u64, timer: Option<u64>) -> bool
    requires { time < 2 ^ 40 }
    ensures { result ≡ is_expired_by thresholds.now time timer }
{
    match timer {
        None => false,
        Some(start) => {
            u64::from(drop_timer_ms(thresholds.t_tdrop)) <= 80 * time.saturating_sub(start)
        }
    }
}

/// Returns a timer after a moment: stopped if its pilot is strong, otherwise started or running.
pub(crate) fn timer_after(is_strong: bool, time: u64, timer: Option<u64>) -> Option<u64>
    ensures { result ≡ defined_timer_after is_strong time timer }
{
    if is_strong {
        None
    } else {
        Some(timer.unwrap_or(time))
    }
}
