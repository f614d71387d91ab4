//! The fingers that receive a channel of the reference base station, and the places of their
//! frames.

ghost use Rattle.std.specs.Prelude.{◌≡◌, ◌<◌, ◌≤◌, ◌^◌, true, pos, int_le, slice_get, Some, length};
ghost use Rattle.std.specs.Prelude.{take};
ghost use Rattle.rake_finger.specs.Near.{AreNear, all_begun, all_close, have_rows, is_close};
ghost use Rattle.rake_finger.specs.Paths.{fingers_of};
ghost use Rattle.rake_finger.specs.Soft.{frame_chips, symbols};
ghost use Rattle.rake_finger.specs.Streams.{finger_end, frame_end};

use chip_core::Phase;
use chip_core::air::{DATA_FRAME_CHIPS, DATA_SYMBOLS, SYNC_FRAME_CHIPS, SYNC_SYMBOLS};
use pilot_search::Near;
use rake_finger::{Finger, Fingers, Form, finger_at};

/// Returns the number of chips in a frame.
pub(crate) fn frame_chips(form: Form) -> u64
    ensures value { result ≡ frame_chips form }
    ensures least { 256 ≤ result }
    ensures most { result ≤ 32768 }
{
    match form {
        Form::Sync => SYNC_FRAME_CHIPS,
        Form::Data => DATA_FRAME_CHIPS,
    }
}

/// Returns the number of symbols in a frame.
pub(crate) fn frame_symbols(form: Form) -> usize
    ensures value { result ≡ symbols form }
    ensures most { result ≤ 384 }
{
    match form {
        Form::Sync => SYNC_SYMBOLS,
        Form::Data => DATA_SYMBOLS,
    }
}

/// Returns the fingers that receive a Walsh row at a phase and on the paths near it.
pub fn reference_fingers(row: u8, phase: Phase, near: &Near) -> Fingers
    requires row { row < 64 }
    requires least { 1 ≤ near.now.count }
    requires most { near.now.count ≤ 3 }
    requires first { slice_get near.now.deltas 0 ≡ Some (pos 0) }
    ensures value { result ≡ fingers_of row phase (take near.now.count near.now.deltas) }
    ensures near { AreNear result }
    ensures rows { have_rows result ≡ true }
    ensures most { length result ≤ 3 }
{
    let mut fingers = Fingers::one(finger_at(row, phase, near.deltas[0]));
    for i in 1..near.count {
        let finger = finger_at(row, phase, near.deltas[usize::from(i)]);
        if fingers.push(finger).is_err() {
            unreachable!()
        }
    }
    fingers
}

/// Returns whether a finger's frame of reference sample `start` does not begin before the file.
fn has_begun(finger: &Finger, start: u64) -> bool
    requires { start < 2 ^ 30 }
    ensures { result ≡ int_le finger.now.delta (pos start) }
{
    i64::from(finger.delta) <= start as i64
}

/// Returns whether no finger's frame of reference sample `start` begins before the file.
pub(crate) fn are_begun(fingers: &Fingers, start: u64) -> bool
    requires { start < 2 ^ 30 }
    ensures { result ≡ all_begun start fingers.now }
{
    for finger in fingers.all() {
        if !has_begun(finger, start) {
            return false;
        }
    }
    true
}

/// Returns the end of one finger's frame that begins at reference sample `start`.
fn end_of(finger: &Finger, form: Form, start: u64) -> u64
    requires close { is_close finger.now ≡ true }
    requires start { start < 2 ^ 30 }
    ensures { result ≡ finger_end form start finger.now }
{
    let reference = (start + frame_chips(form)) as i64;
    (reference - i64::from(finger.delta)) as u64
}

/// Returns the end of the last of the fingers' frames that begin at reference sample `start`.
pub fn frames_end(fingers: &Fingers, form: Form, start: u64) -> u64
    requires close { all_close fingers.now ≡ true }
    requires start { start < 2 ^ 30 }
    ensures { result ≡ frame_end fingers.now form start }
{
    let mut end = 0;
    for finger in fingers.all() {
        end = end_of(finger, form, start).max(end);
    }
    end
}
