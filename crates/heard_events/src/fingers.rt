//! The fingers that receive a traffic channel from active pilots.

ghost use Rattle.std.specs.Prelude.{◌≡◌, ◌<◌, ◌≤◌, ◌+◌, ◌++◌, ◌∷◌, [], true, length, take};
ghost use Rattle.rake_finger.specs.Near.{all_close, have_rows, is_close};
ghost use Rattle.heard_events.specs.Close.{fingers_in, legs_close, legs_rows, finger_places};
ghost use Rattle.heard_events.specs.Close.{places_in};
ghost use Rattle.heard_events.specs.Legs.{all_fingers, leg_fingers};

use crate::leg::Leg;
use crate::legs::Legs;
use chip_core::Phase;
use pilot_search::Near;
use rake_finger::{Finger, Fingers, finger_at};

/// Returns a list with another finger; `None` is the empty list.
fn with_finger(fingers: Option<Fingers>, finger: Finger) -> Option<Fingers>
    requires { length (fingers_in fingers) < 8 }
    ensures { fingers_in result ≡ fingers_in fingers ++ finger ∷ [] }
{
    match fingers {
        None => Some(Fingers::one(finger)),
        Some(mut more) => {
            if more.push(finger).is_err() {
                unreachable!()
            }
            Some(more)
        }
    }
}

/// Returns a list with the fingers of another active pilot, given the phase of the reference base
/// station and the paths near it.
fn with_leg(fingers: Option<Fingers>, leg: &Leg, phase: Phase, near: &Near) -> Option<Fingers>
    requires few { length (fingers_in fingers) + finger_places leg.now ≤ 8 }
    requires most { near.now.count ≤ 3 }
    ensures value { fingers_in result ≡ fingers_in fingers
        ++ leg_fingers phase (take near.now.count near.now.deltas) leg.now }
    ensures close { is_close leg.now.finger ≡ true → all_close (fingers_in fingers) ≡ true →
        all_close (fingers_in result) ≡ true }
{
    if !leg.reference {
        return with_finger(fingers, leg.finger);
    }
    let mut more = fingers;
    for i in 0..near.count {
        let finger = finger_at(leg.finger.row, phase, near.deltas[usize::from(i)]);
        more = with_finger(more, finger);
    }
    more
}

/// Returns the fingers that receive a traffic channel from active pilots, given the phase of the
/// reference base station and the paths near it; `None` if there are none.
fn fingers_or_none(legs: &Legs, phase: Phase, near: &Near) -> Option<Fingers>
    requires few { places_in legs.now ≤ 8 }
    requires most { near.now.count ≤ 3 }
    requires close { legs_close legs.now ≡ true }
    ensures value { fingers_in result
        ≡ all_fingers phase (take near.now.count near.now.deltas) legs.now }
    ensures close { all_close (fingers_in result) ≡ true }
{
    let mut fingers = None;
    for leg in legs.all() {
        fingers = with_leg(fingers, leg, phase, near);
    }
    fingers
}

/// Returns the fingers that receive a traffic channel from one or more active pilots.
pub fn leg_fingers(legs: &Legs, phase: Phase, near: &Near) -> Fingers
    requires some { 1 ≤ length legs.now }
    requires few { places_in legs.now ≤ 8 }
    requires least { 1 ≤ near.now.count }
    requires most { near.now.count ≤ 3 }
    requires close { legs_close legs.now ≡ true }
    requires rows { legs_rows legs.now ≡ true }
    ensures value { result ≡ all_fingers phase (take near.now.count near.now.deltas) legs.now }
    ensures close { all_close result ≡ true }
    ensures rows { have_rows result ≡ true }
    ensures least { 1 ≤ length result }
    ensures most { length result ≤ 8 }
{
    let _paths = near.deltas;
    match fingers_or_none(legs, phase, near) {
        Some(fingers) => fingers,
        None => unreachable!(),
    }
}
