//! The capsule that a stream of bits has begun.

ghost use Rattle.std.specs.Prelude.{◌≡◌, ◌≤◌, ◌↔◌, Bool, true, cond, List, [], ◌∷◌, ◌++◌, drop};
ghost use Rattle.std.specs.Prelude.{length, map, IsTrue, IsSome, Some, None, IfSome};
ghost use Rattle.quality_bits.specs.Capsules.{front_capsule, awaits_more, continued, completed};
ghost use Rattle.quality_bits.specs.Pieces.{piece, capsule_ending, CapsuleStandsFor};

use crate::capsule::stated_length;
use chip_core::Bits;
use std::marker::Model;

/// The bits of a capsule that isn't complete yet, or none if no capsule is open.
///
/// It closes by itself after the capsule's last bit, or if the first 8 bits state a length outside
/// 5 to 148 octets. Contracts see the bits since the capsule's start, if it is open.
#[derive(Clone, Copy, PartialEq, Eq, Debug)]
pub struct OpenCapsule {
    bits: Option<Bits>,
}

impl Model for OpenCapsule {
    ghost use Rattle.std.specs.Prelude.{◌≡◌, Bool, true, List, Option, IfSome};
    ghost use Rattle.quality_bits.specs.Capsules.{awaits_more};

    ghost Value = { Option (List Bool) };

    ghost view = { λ c. c.bits };

    ghost invariant = { λ c. IfSome c.bits (λ bits. awaits_more bits ≡ true) };

    ghost inverse = { λ bits. record { bits = bits } };
}

impl OpenCapsule {
    /// Returns a capsule that begins with the next bit.
    pub fn new() -> OpenCapsule
        ensures { result ≡ Some [] }
    {
        OpenCapsule {
            bits: Some(Bits::empty()),
        }
    }

    /// No capsule.
    pub fn closed() -> OpenCapsule
        ensures { result ≡ None }
    {
        OpenCapsule { bits: None }
    }

    /// Whether a capsule is open: more bits may complete it.
    pub fn is_open(&self) -> bool
        ensures is_open { IsTrue result ↔ IsSome self.now }
        ensures awaits { IfSome self.now (λ bits. awaits_more bits ≡ true) }
    {
        self.bits.is_some()
    }

    /// Takes the next bit and returns the capsule that it completes, if any.
    ///
    /// The open capsule closes if it is complete, or if its length is outside 5 to 148 octets. The
    /// bit is ignored if no capsule is open.
    pub fn push(&mut self, bit: bool) -> Option<Bits>
        ensures goes_on { self.new ≡ continued self.old (bit ∷ []) }
        ensures gives { result ≡ completed self.old (bit ∷ []) }
    {
        let mut bits = self.bits?;
        bits.append(bit);
        self.bits = if may_go_on(&bits) { Some(bits) } else { None };
        front(&bits)
    }

    /// Takes the bits of a piece from place `from` on and returns the capsule that they complete,
    /// if any.
    ///
    /// Bits after the capsule's last one are ignored.
    pub fn push_all(&mut self, piece: &Bits, from: u16) -> Option<Bits>
        ensures goes_on { self.new ≡ continued self.old (drop from piece.now) }
        ensures gives { result ≡ completed self.old (drop from piece.now) }
    {
        let mut whole = None;
        if self.is_open() {
            for i in from..piece.len() {
                whole = whole.or(self.push(piece.get(i)));
            }
        }
        whole
    }

    /// Takes a piece whose first bit is its mark and returns the capsule whose last bit lies in it,
    /// if any.
    ///
    /// If the mark is 1, a capsule begins after it, and an incomplete one is dropped. If it is 0,
    /// the piece continues the open capsule, or is ignored if there is none.
    pub fn push_piece(&mut self, bits: &Bits) -> Option<Bits>
        requires { 1 ≤ length bits.now }
        ensures stands { (pieces : List (List Bool)) →
            CapsuleStandsFor self.old pieces → CapsuleStandsFor self.new (pieces ++ bits.now ∷ []) }
        ensures capsule { (pieces : List (List Bool)) →
            CapsuleStandsFor self.old pieces →
            result ≡ capsule_ending (map piece (pieces ++ bits.now ∷ [])) }
    {
        let mut capsule = from_start(bits.get(0), *self);
        let whole = capsule.push_all(bits, 1);
        *self = capsule;
        whole
    }
}

/// Returns the capsule to which a piece's bits belong: a new one if the mark is 1, otherwise the
/// open one.
fn from_start(mark: bool, capsule: OpenCapsule) -> OpenCapsule
    ensures { result ≡ cond mark (Some []) capsule }
{
    if mark { OpenCapsule::new() } else { capsule }
}

/// Whether more bits may complete a capsule that begins with these.
fn may_go_on(bits: &Bits) -> bool
    ensures { result ≡ awaits_more bits.now }
{
    match stated_length(bits) {
        Some(stated) => bits.len() < stated,
        None => bits.len() < 8,
    }
}

/// Returns the capsule at the front of the bits, if it is complete.
fn front(bits: &Bits) -> Option<Bits>
    ensures { result ≡ front_capsule bits.now }
{
    let stated = stated_length(bits)?;
    if bits.len() < stated {
        return None;
    }
    Some(bits.part(0, stated))
}
