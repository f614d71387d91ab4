//! The register that divides by a generator.

ghost use Rattle.std.specs.Prelude.{◌≡◌, ◌<◌, ◌^◌, Bool, List, [], ◌∷◌, ◌++◌};
ghost use Rattle.chip_core.specs.Bits.{number};
ghost use Rattle.quality_bits.specs.Quality.{check_bits};
ghost use Rattle.quality_bits.specs.Kinds.{generator_of, Checks};
ghost use Rattle.quality_bits.specs.declared.kind.Kind.{Kind as TheKind};

use crate::kind::Kind;
use std::marker::Model;

/// A register that computes a check bit by bit, with one shift per bit.
///
/// Contracts see its kind and its content, and state which bits it has taken.
#[derive(Clone, Copy, PartialEq, Eq, Debug)]
pub struct Register {
    kind: Kind,
    value: u32,
}

impl Model for Register {
    ghost use Rattle.std.specs.Prelude.{◌<◌, ◌^◌};
    ghost use Rattle.quality_bits.specs.Kinds.{Division, generator_of};

    ghost Value = { Division };

    ghost view = { λ r. record { kind = r.kind; rest = r.value } };

    ghost invariant = { λ r. r.value < 2 ^ (generator_of r.kind).degree };

    ghost inverse = { λ d. record { kind = d.kind; value = d.rest } };
}

impl Register {
    /// Makes a register that has taken no bits. It starts with all ones.
    pub fn new(kind: Kind) -> Register
        ensures { Checks result kind [] }
    {
        let divisor = kind.divisor();
        Register {
            kind,
            value: (1 << divisor.degree) - 1,
        }
    }

    /// Takes one bit.
    pub fn push(&mut self, bit: bool)
        ensures { (kind : TheKind) (bits : List Bool) →
            Checks self.old kind bits → Checks self.new kind (bits ++ bit ∷ []) }
    {
        let divisor = self.kind.divisor();
        let lead = self.value >> (divisor.degree - 1) & 1 == 1;
        let shifted = (self.value << 1) & ((1 << divisor.degree) - 1);
        self.value = if lead != bit {
            shifted ^ divisor.below
        } else {
            shifted
        };
    }

    /// The check of the bits that it has taken, not inverted; the coefficient of the highest power
    /// is the highest bit.
    pub fn value(&self) -> u32
        ensures value { (kind : TheKind) (bits : List Bool) →
            Checks self.now kind bits → result ≡ number (check_bits (generator_of kind) bits) }
        ensures fits { result < 2 ^ (generator_of self.now.kind).degree }
    {
        self.value
    }
}
