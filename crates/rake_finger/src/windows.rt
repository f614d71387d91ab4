//! The sums of a window of the frame on one finger.

ghost use Rattle.rake_finger.specs.Common.{origin, Sample, IsWithin};
ghost use Rattle.std.specs.Prelude.{◌≡◌, ◌<◌, ◌≤◌, ◌+◌, ◌*◌, ℕ, List, get_or, unsigned_abs};
ghost use Rattle.rake_finger.specs.Held.{HoldsLast};
ghost use Rattle.rake_finger.specs.InRing.{IsInRing};
ghost use Rattle.rake_finger.specs.RowSigns.{AreRowSigns};
ghost use Rattle.rake_finger.specs.Soft.{symbol_chips, window_chips, windows, window_symbols};
ghost use Rattle.rake_finger.specs.Soft.{pilot_sum, symbol_sum};

use crate::finger::Finger;
use crate::form::Form;
use crate::ring::SampleRing;
use crate::rows::RowSigns;
use crate::sums::symbol_sums;
use crate::values::place_of;
use chip_core::Pair;
use short_code::Codes;

/// The most symbols that a window has.
const MOST_SYMBOLS: usize = 24;

/// The sum of a finger's pilot over a window, and the sums of its row over the window's symbols, as
/// many as it has.
#[derive(Clone, Copy)]
pub(crate) struct WindowSums {
    pub pilot: Pair,
    pub symbols: [Pair; MOST_SYMBOLS],
}

/// The sums of the finger's pilot and of its row over a window of the frame. The samples and the
/// code are read once for both.
pub(crate) fn window_sums(
    ring: &SampleRing,
    codes: &Codes,
    finger: &Finger,
    signs: &RowSigns,
    window: u16,
    form: Form,
    start: u64,
) -> WindowSums
    requires row { finger.now.row < 64 }
    requires signs { AreRowSigns finger.now.row signs.now }
    requires ring { IsInRing ring.now form start finger.now }
    requires window { window < windows form }
    ensures pilot { (samples : List Sample) → HoldsLast ring.now samples →
        result.pilot ≡ pilot_sum samples finger.now form start window }
    ensures symbols { (samples : List Sample) → HoldsLast ring.now samples →
        (k : ℕ) → k < window_symbols form → get_or result.symbols k origin ≡
        symbol_sum samples finger.now form start (window_symbols form * window + k) }
    ensures pilot_i { unsigned_abs result.pilot.i ≤ 65536 * window_chips form }
    ensures pilot_q { unsigned_abs result.pilot.q ≤ 65536 * window_chips form }
    ensures small { (k : ℕ) → k < window_symbols form →
        IsWithin (65536 * symbol_chips form) (get_or result.symbols k origin) }
{
    let _taken = ring.taken();
    let chips = form.symbol_chips();
    let first = place_of(finger, start) + u64::from(form.window_chips() * window);
    let mut pilot = Pair { i: 0, q: 0 };
    let mut symbols = [Pair { i: 0, q: 0 }; MOST_SYMBOLS];
    for k in 0..form.window_symbols() {
        let place = first + u64::from(chips * k);
        let sums = symbol_sums(ring, codes, finger, signs, place, chips);
        pilot.i += sums.plain.i;
        pilot.q += sums.plain.q;
        symbols[usize::from(k)] = sums.covered;
    }
    WindowSums { pilot, symbols }
}
