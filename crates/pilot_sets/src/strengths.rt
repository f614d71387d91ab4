//! The measured strengths of pilots.

ghost use Rattle.std.specs.Prelude.{◌≡◌};
ghost use Rattle.pilot_sets.specs.Moments.{energy_in};

use crate::each_pilot::EachPilot;
use crate::few::Filler;

/// The measured strength of a pilot.
#[derive(Clone, Copy, PartialEq, Eq, Debug)]
pub struct Strength {
    /// The pilot's offset, in steps of 64 chips (PILOT_PN).
    pub pilot: u16,
    /// The largest energy in the pilot's search window.
    pub energy: u64,
    /// The smallest delta with that energy, in chips.
    pub delta: i16,
}

impl Filler for Strength {
    ghost use Rattle.std.specs.Prelude.{pos};

    ghost filler = { record { pilot = 0; energy = 0; delta = pos 0 } };

    fn filler() -> Self {
        Strength {
            pilot: 0,
            energy: 0,
            delta: 0,
        }
    }
}

/// A list of at most 36 strengths, one for each pilot that the sets may hold.
pub type Strengths = EachPilot<Strength>;

/// The energy of a pilot: that of its first strength, or 0 if it has none.
pub(crate) fn energy_of(strengths: &[Strength], pilot: u16) -> u64
    ensures { result ≡ energy_in strengths.now pilot }
{
    for strength in strengths {
        if strength.pilot == pilot {
            return strength.energy;
        }
    }
    0
}
