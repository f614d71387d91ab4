//! Cuts capsules out of half-frames.

ghost use Rattle.std.specs.Prelude.{◌≡◌, ◌≤◌, Bool, List, [], ◌∷◌, ◌++◌, Some, cond, nat_le};
ghost use Rattle.std.specs.Prelude.{if◌then◌else◌};
ghost use Rattle.paging_message.specs.HalfFrames.{half_frame_body, half_frame_capsule_ending};
ghost use Rattle.paging_message.specs.HalfFrames.{IsPagingRate, HalfFramesStandFor};

use chip_core::Bits;
use quality_bits::{OpenCapsule, Rate};
use std::marker::Model;

/// Cuts capsules out of the half-frames of a paging channel, bit by bit.
///
/// TIA/EIA-95-B, 7.7.2.1: a half-frame has an SCI bit and 95 bits of body at 9600 bits per second,
/// or 47 at 4800. SCI 1 means that a capsule begins right after it; an incomplete capsule is then
/// dropped. After a capsule, another one begins at once if at least 8 body bits of its half-frame
/// are left. Contracts see a half-frame's number of body bits, the number of bits taken of the
/// current one, and the bits of the open capsule. They state which bits the framer has taken.
#[derive(Clone, Copy, PartialEq, Eq, Debug)]
pub struct HalfFramer {
    size: u16,
    place: u16,
    capsule: OpenCapsule,
}

impl Model for HalfFramer {
    ghost use Rattle.std.specs.Prelude.{◌≤◌};
    ghost use Rattle.paging_message.specs.HalfFrames.{Framing};

    ghost Value = { Framing };

    ghost view = { λ f. record { size = f.size; place = f.place; open_bits = f.capsule } };

    ghost invariant = { λ f. (f.place ≤ f.size) × (8 ≤ f.size) × (f.size ≤ 95) };

    ghost inverse = { λ v. record { size = v.size; place = v.place; capsule = v.open_bits } };
}

impl HalfFramer {
    /// Makes a framer that has taken no bits, for half-frames of 9600 or 4800 bits per second.
    pub fn new(rate: Rate) -> HalfFramer
        requires { IsPagingRate rate }
        ensures size { result.size ≡ half_frame_body rate }
        ensures stands { HalfFramesStandFor result [] }
    {
        HalfFramer {
            size: body_bits(rate),
            place: 0,
            capsule: OpenCapsule::closed(),
        }
    }

    /// Takes the next bit of the half-frames and returns the capsule that ends with it, if any.
    pub fn push(&mut self, bit: bool) -> Option<Bits>
        ensures size { self.new.size ≡ self.old.size }
        ensures stands { (bits : List Bool) → HalfFramesStandFor self.old bits →
            HalfFramesStandFor self.new (bits ++ bit ∷ []) }
        ensures capsule { (bits : List Bool) →
            HalfFramesStandFor self.old bits →
            result ≡ half_frame_capsule_ending self.old.size (bits ++ bit ∷ []) }
    {
        if self.place == 0 {
            self.place = 1;
            self.capsule = from_mark(bit, self.capsule);
            return None;
        }
        let left = self.size - self.place;
        self.place = if left == 0 { 0 } else { self.place + 1 };
        let whole = self.capsule.push(bit);
        self.capsule = later(whole.is_some(), left, self.capsule);
        whole
    }
}

/// Returns how many body bits a half-frame of this rate has.
pub(crate) fn body_bits(rate: Rate) -> u16
    requires { IsPagingRate rate }
    ensures value { result ≡ half_frame_body rate }
    ensures least { 47 ≤ result }
    ensures most { result ≤ 95 }
{
    match rate {
        Rate::R9600 => 95,
        _ => 47,
    }
}

/// Returns the capsule to which the bits after an SCI bit belong: a new one if it is 1, otherwise
/// the open one.
fn from_mark(sci: bool, capsule: OpenCapsule) -> OpenCapsule
    ensures { result ≡ cond sci (Some []) capsule }
{
    if sci { OpenCapsule::new() } else { capsule }
}

/// Returns the capsule that is open after a body bit: a new one if a capsule ended and `left` bits
/// of the half-frame suffice for another.
fn later(ended: bool, left: u16, capsule: OpenCapsule) -> OpenCapsule
    ensures { result ≡ (if ended then (if nat_le 8 left then Some [] else capsule) else capsule) }
{
    if ended && left >= 8 {
        OpenCapsule::new()
    } else {
        capsule
    }
}
