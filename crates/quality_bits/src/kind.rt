//! The kinds of check.

ghost use Rattle.std.specs.Prelude.{◌≡◌, ◌<◌, ◌≤◌, ◌^◌};
ghost use Rattle.chip_core.specs.Bits.{number};
ghost use Rattle.quality_bits.specs.Quality.{below_of};
ghost use Rattle.quality_bits.specs.Kinds.{generator_of};

/// A kind of check, named by the number of its bits: Q for the quality indicator of a traffic
/// frame, M for the check of a message.
///
/// TIA/EIA-95-B: 7.1.3.5 for the frames, 7.7.1 (sync), 7.7.2 (paging) and 7.7.3 (traffic) for the
/// messages.
#[derive(Clone, Copy, PartialEq, Eq, Debug)]
pub enum Kind {
    /// x^6 + x^2 + x + 1: rate set 2, 1800 bit/s.
    Q6,
    /// x^8 + x^7 + x^4 + x^3 + x + 1: 4800 bit/s of rate set 1, 3600 bit/s of rate set 2.
    Q8,
    /// x^10 + x^9 + x^8 + x^7 + x^6 + x^4 + x^3 + 1: rate set 2, 7200 bit/s.
    Q10,
    /// x^12 + x^11 + x^10 + x^9 + x^8 + x^4 + x + 1: 9600 bit/s of rate set 1, 14400 bit/s of rate
    /// set 2.
    Q12,
    /// x^16 + x^12 + x^5 + 1: messages of the traffic channel.
    M16,
    /// x^30 + x^29 + x^21 + x^20 + x^15 + x^13 + x^12 + x^11 + x^8 + x^7 + x^6 + x^2 + x + 1:
    /// messages of the sync and of the paging channel.
    M30,
}

/// A generator: its degree, and its coefficients below that power as a number, the highest power
/// first.
#[derive(Clone, Copy)]
pub(crate) struct Divisor {
    pub(crate) degree: u32,
    pub(crate) below: u32,
    ghost least: { 6 ≤ degree },
    ghost most: { degree ≤ 30 },
    ghost fits: { below < 2 ^ degree },
}

impl Kind {
    /// The generator.
    pub(crate) fn divisor(self) -> Divisor
        ensures degree { result.degree ≡ (generator_of self).degree }
        ensures below { result.below ≡ number (below_of (generator_of self)) }
    {
        let (degree, below) = match self {
            Kind::Q6 => (6, 0x07),
            Kind::Q8 => (8, 0x9b),
            Kind::Q10 => (10, 0x3d9),
            Kind::Q12 => (12, 0xf13),
            Kind::M16 => (16, 0x1021),
            Kind::M30 => (30, 0x2030_b9c7),
        };
        Divisor { degree, below }
    }
}
