//! The soft values of a frame, summed over the fingers.

ghost use Rattle.rake_finger.specs.Common.{Sample};
ghost use Rattle.std.specs.Prelude.{◌≡◌, ◌<◌, ◌≤◌, ◌+◌, ◌*◌, ◌^◌, List, ℤ, All, length, sum_by};
ghost use Rattle.std.specs.Prelude.{unsigned_abs, slice_get};
ghost use Rattle.rake_finger.specs.Added.{AreWithin, IsAdded};
ghost use Rattle.rake_finger.specs.Held.{HoldsLast};
ghost use Rattle.rake_finger.specs.InRing.{IsInRing};
ghost use Rattle.rake_finger.specs.RowSigns.{AreRowSigns};
ghost use Rattle.rake_finger.specs.Soft.{symbols, window_chips, windows, window_symbols, softs};
ghost use Rattle.rake_finger.specs.Soft.{frame_chips, soft_bound};
ghost use Rattle.rake_finger.specs.declared.finger.Finger.{Finger as FingerValue};

use crate::finger::{Finger, Fingers};
use crate::form::Form;
use crate::ring::SampleRing;
use crate::rows::{RowSigns, row_signs};
use crate::values::turned_by;
use crate::windows::window_sums;
use short_code::Codes;

/// Adds the finger's soft values of one window's symbols.
fn add_window(
    ring: &SampleRing,
    codes: &Codes,
    finger: &Finger,
    signs: &RowSigns,
    form: Form,
    start: u64,
    window: u16,
    out: &mut [i64],
)
    requires row { finger.now.row < 64 }
    requires signs { AreRowSigns finger.now.row signs.now }
    requires ring { IsInRing ring.now form start finger.now }
    requires window { window < windows form }
    requires room { length out.old ≡ symbols form }
    requires small { AreWithin (2 ^ 54) out.old }
    ensures { (first : List ℤ) →
        IsAdded ring.now finger.now form start (window_symbols form * window) first out.old →
        IsAdded ring.now finger.now form start (window_symbols form * (window + 1)) first out.new }
{
    let sums = window_sums(ring, codes, finger, signs, window, form, start);
    let first = form.window_symbols() * window;
    for symbol in first..first + form.window_symbols() {
        let sum = sums.symbols[usize::from(symbol - first)];
        out[usize::from(symbol)] += turned_by(sums.pilot, sum);
    }
}

/// Adds the finger's soft values of the frame.
fn add_finger(
    ring: &SampleRing,
    codes: &Codes,
    finger: &Finger,
    form: Form,
    start: u64,
    out: &mut [i64],
)
    requires row { finger.now.row < 64 }
    requires ring { IsInRing ring.now form start finger.now }
    requires room { length out.old ≡ symbols form }
    requires small { AreWithin (7 * 2 ^ 51) out.old }
    ensures { IsAdded ring.now finger.now form start (symbols form) out.old out.new }
{
    let signs = row_signs(finger.row);
    for window in 0..form.windows() {
        add_window(ring, codes, finger, &signs, form, start, window, out);
    }
}

/// Computes the soft values of all symbols of the frame that begins at reference sample `start`,
/// each summed over the fingers.
///
/// `out` has an entry for each of the frame's symbols; its old values are overwritten. The new ones
/// are not descrambled. Each window's pilot is summed only once. The absolute values add up to at
/// most 2^62 for a frame with eight fingers, and for three frames with three fingers.
pub fn combine_into(
    ring: &SampleRing,
    codes: &Codes,
    fingers: &Fingers,
    form: Form,
    start: u64,
    out: &mut [i64],
)
    requires rows { All (λ (finger : FingerValue). finger.row < 64) fingers.now }
    requires ring { All (IsInRing ring.now form start) fingers.now }
    requires room { length out.old ≡ symbols form }
    ensures value { (samples : List Sample) → HoldsLast ring.now samples →
        out.new ≡ softs samples fingers.now form start }
    ensures bound { sum_by unsigned_abs out.new ≤ length fingers.now *
        (symbols form * soft_bound form) }
{
    out.fill(0);
    for i in 0..fingers.len() {
        let finger = fingers.get(i);
        add_finger(ring, codes, &finger, form, start, out);
    }
}
