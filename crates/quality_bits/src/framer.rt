//! Cuts capsules out of whole frames.

ghost use Rattle.std.specs.Prelude.{◌≡◌, ◌≤◌, Bool, List, [], ◌∷◌, ◌++◌, length, map};
ghost use Rattle.quality_bits.specs.Pieces.{piece, capsule_ending, CapsuleStandsFor};

use crate::open_capsule::OpenCapsule;
use chip_core::Bits;
use std::marker::Model;

/// Cuts capsules out of frames that begin with the SOM bit: those of the sync channel, or the
/// signaling parts of a traffic channel's frames.
///
/// TIA/EIA-95-B, 7.7.1.2: a frame of the sync channel has 32 bits, the SOM bit and 31 bits of body.
/// 7.7.3.1: a signaling part begins with the SOM bit. A frame with SOM 1 starts a capsule and drops
/// an incomplete one; a frame with SOM 0 continues the open capsule, or is ignored if there is
/// none. Contracts see the bits of the open capsule and state which frames the framer has taken.
#[derive(Clone, Copy, PartialEq, Eq, Debug)]
pub struct CapsuleFramer {
    capsule: OpenCapsule,
}

impl Model for CapsuleFramer {
    ghost use Rattle.std.specs.Prelude.{Bool, List, Option};

    ghost Value = { Option (List Bool) };

    ghost view = { λ f. f.capsule };

    ghost inverse = { λ bits. record { capsule = bits } };
}

impl CapsuleFramer {
    /// Makes a framer that has taken no frames.
    pub fn new() -> CapsuleFramer
        ensures { CapsuleStandsFor result [] }
    {
        CapsuleFramer {
            capsule: OpenCapsule::closed(),
        }
    }

    /// Takes the next frame and returns the capsule whose last bit lies in it, if any.
    pub fn push(&mut self, frame: &Bits) -> Option<Bits>
        requires { 1 ≤ length frame.now }
        ensures stands { (frames : List (List Bool)) →
            CapsuleStandsFor self.old frames →
            CapsuleStandsFor self.new (frames ++ frame.now ∷ []) }
        ensures capsule { (frames : List (List Bool)) →
            CapsuleStandsFor self.old frames →
            result ≡ capsule_ending (map piece (frames ++ frame.now ∷ [])) }
    {
        self.capsule.push_piece(frame)
    }
}
