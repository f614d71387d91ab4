//! Lays capsules in half-frames.

ghost use Rattle.std.specs.Prelude.{◌≡◌, ◌<◌, ◌≤◌, ◌+◌, ◌%◌, ◌==◌, if◌then◌else◌, Bool, List, []};
ghost use Rattle.std.specs.Prelude.{length, IsTrue, ◌↔◌, cond};
ghost use Rattle.paging_message.specs.HalfFrames.{bits_left, half_frame_body, IsPagingRate};
ghost use Rattle.paging_message.specs.Laying.{bit_on, laid_on, left_in, nothing_laid, way_for};
ghost use Rattle.paging_message.specs.Laying.{HasLaid, IsPlace, Laid};

use crate::half_bits::HalfBits;
use crate::half_framer::body_bits;
use chip_core::Bits;
use quality_bits::Rate;
use std::marker::Model;

/// Lays capsules in the half-frames of a paging channel.
///
/// TIA/EIA-95-B, 7.7.2.1. Contracts see a half-frame's number of body bits and how many bits of the
/// current one are laid. They state which capsules the layout has laid.
#[derive(Clone, Copy, PartialEq, Eq, Debug)]
pub struct Layout {
    size: u16,
    place: u16,
}

impl Model for Layout {
    ghost use Rattle.paging_message.specs.Laying.{IsPlace, Place};

    ghost Value = { Place };

    ghost view = { λ l. record { size = l.size; place = l.place } };

    ghost invariant = { λ l. IsPlace (record { size = l.size; place = l.place }) };

    ghost inverse = { λ v. record { size = v.size; place = v.place } };
}

impl Layout {
    /// Makes an empty layout for half-frames of 9600 or 4800 bits per second.
    pub fn new(rate: Rate) -> Layout
        requires { IsPagingRate rate }
        ensures size { result.size ≡ half_frame_body rate }
        ensures laid { HasLaid result nothing_laid [] }
    {
        Layout {
            size: body_bits(rate),
            place: 0,
        }
    }

    /// Whether a capsule may follow the last one at once: at least 8 body bits of its last
    /// half-frame are left.
    pub fn fits(&self) -> bool
        ensures { (l : Laid) (bits : List Bool) →
            HasLaid self.now l bits →
            IsTrue result ↔ (8 ≤ bits_left self.now.size (length l.body)) }
    {
        self.left() >= 8
    }

    /// Lays a capsule after the bits of `out`, which then ends with the capsule's last bit.
    ///
    /// If `follow`, it begins right after the previous capsule; a receiver finds it there only if
    /// `fits` returned true. Otherwise zeros pad the current half-frame, and it begins in the next
    /// one after an SCI bit of 1.
    pub fn put(&mut self, follow: bool, capsule: &Bits, out: &mut HalfBits)
        requires some { 1 ≤ length capsule.now }
        requires room { length out.old + 3072 ≤ 11264 }
        ensures size { self.new.size ≡ self.old.size }
        ensures laid { (l : Laid) →
            HasLaid self.old l out.old →
            HasLaid self.new (laid_on self.old.size l follow capsule.now) out.new }
    {
        self.make_way(follow, out);
        self.append(!follow, capsule.get(0), out);
        for i in 1..capsule.len() {
            self.append(false, capsule.get(i), out);
        }
    }

    /// Pads the current half-frame with zeros, unless the next capsule follows at once.
    fn make_way(&mut self, follow: bool, out: &mut HalfBits)
        requires room { length out.old + 190 ≤ 11264 }
        ensures lawful { IsPlace self.old }
        ensures size { self.new.size ≡ self.old.size }
        ensures longer { length out.new ≤ length out.old + 190 }
        ensures laid { (l : Laid) →
            HasLaid self.old l out.old → HasLaid self.new (way_for self.old.size l follow) out.new }
    {
        for _zero in 0..self.padding(follow) {
            self.append(false, false, out);
        }
    }

    /// Lays one body bit, after an SCI bit if a half-frame begins with it.
    fn append(&mut self, sci: bool, bit: bool, out: &mut HalfBits)
        requires room { length out.old + 2 ≤ 11264 }
        ensures size { self.new.size ≡ self.old.size }
        ensures longer { length out.new ≤ length out.old + 2 }
        ensures laid { (l : Laid) →
            HasLaid self.old l out.old →
            (IsTrue sci → length l.body % self.old.size ≡ 0) →
            HasLaid self.new (bit_on self.old.size l sci bit) out.new }
    {
        if self.place == 0 {
            out.append(sci);
            out.append(bit);
            self.place = 2;
            return;
        }
        out.append(bit);
        self.place = next_place(self.place, self.size);
    }

    /// Returns how many zeros come before the next capsule.
    fn padding(&self, follow: bool) -> u16
        ensures value { result ≡ cond follow 0 (left_in self.now) }
        ensures lawful { IsPlace self.now }
    {
        let left = self.left();
        if follow { 0 } else { left }
    }

    /// Returns how many body bits of the current half-frame are left.
    fn left(&self) -> u16
        ensures value { result ≡ left_in self.now }
        ensures lawful { IsPlace self.now }
    {
        if self.place == 0 {
            0
        } else {
            self.size + 1 - self.place
        }
    }
}

/// Returns how many bits of the current half-frame are laid after another body bit, 0 if that bit
/// fills it.
fn next_place(place: u16, size: u16) -> u16
    requires { place < 65535 }
    ensures { result ≡ (if place == size then 0 else place + 1) }
{
    if place == size { 0 } else { place + 1 }
}
