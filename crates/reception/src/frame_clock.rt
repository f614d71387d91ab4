//! The places of a channel's frames in a file, and which of them have arrived.

use crate::fingers::{are_begun, frame_chips, frames_end};
use rake_finger::{Fingers, Form};

/// The places of a channel's frames in a file, and which of them have arrived.
#[derive(Clone, Copy)]
pub struct FrameClock {
    /// The form of the channel's frames.
    pub form: Form,
    /// Whether a frame is decoded together with the one after it, and so waits for it.
    pub waits: bool,
    /// The number of the first frame in the file.
    pub low: u64,
    /// The number of the frame that is decoded next.
    pub next: u64,
    /// The number of the frame whose samples arrive next.
    pub have: u64,
    /// The reference sample at which that frame begins.
    pub start: u64,
    /// The number of samples that have been taken when that frame has ended on every finger.
    pub end: u64,
}

/// The frames that are decoded together, for the bits of one of them.
#[derive(Clone, Copy)]
pub struct Span {
    /// The number of frames, 1 to 3.
    pub frames: u8,
    /// The index of the frame whose bits are wanted, from 0.
    pub own: u8,
}

impl FrameClock {
    ghost use Rattle.std.specs.Prelude.{◌≡◌, ◌<◌, ◌≤◌, ◌+◌, ◌-◌, ◌*◌, ◌^◌, ◌↔◌, IsTrue};
    ghost use Rattle.reception.specs.Clocks.{IsDueAt, clock_from, first_frame};
    ghost use Rattle.reception.specs.Clocks.{frame_come, clock_after_frame, span_from};
    ghost use Rattle.rake_finger.specs.Near.{AreBegun, AreClose};
    ghost use Rattle.reception.specs.Sound.{IsSoundClock};
    ghost use Rattle.rake_finger.specs.Soft.{frame_chips};

    /// Returns the clock of a channel whose frame 0 begins at reference sample `first`, before any
    /// frame has arrived.
    ///
    /// The first frame in the file is the first that begins in it on each finger.
    pub fn new(fingers: &Fingers, form: Form, waits: bool, first: u64) -> FrameClock
        requires close { AreClose fingers.now }
        requires first { first < 2 ^ 29 + 2 ^ 15 }
        ensures value { result
            ≡ clock_from fingers.now form waits first (first_frame fingers.now first) }
        ensures begun { AreBegun result.start fingers.now }
        ensures sound { IsSoundClock result }
    {
        if are_begun(fingers, first) {
            return FrameClock::from_frame(fingers, form, waits, first, 0);
        }
        FrameClock::from_frame(fingers, form, waits, first, 1)
    }

    /// Returns the clock from frame 0 or 1 on.
    fn from_frame(fingers: &Fingers, form: Form, waits: bool, first: u64, frame: u64) -> FrameClock
        requires close { AreClose fingers.now }
        requires first { first < 2 ^ 29 + 2 ^ 15 }
        requires frame { frame ≤ 1 }
        ensures value { result ≡ clock_from fingers.now form waits first frame }
        ensures sound { IsSoundClock result }
    {
        let start = first + frame_chips(form) * frame;
        FrameClock {
            form,
            waits,
            low: frame,
            next: frame,
            have: frame,
            start,
            end: frames_end(fingers, form, start),
        }
    }

    /// Returns whether the frame that is decoded next is complete, in a file of `count` samples: it
    /// has arrived, and if it waits for the next frame, that has arrived too or is not in the file.
    pub fn is_due(&self, count: u64) -> bool
        requires { IsSoundClock self.now }
        ensures { IsTrue result ↔ IsDueAt count self.now }
    {
        self.next < self.have && (!self.waits || self.next + 1 < self.have || count < self.end)
    }

    /// Records that another frame has arrived.
    pub fn advance(&mut self)
        requires sound { IsSoundClock self.old }
        requires near { self.old.have ≤ self.old.next + 1 }
        requires few { self.old.end ≤ 2 ^ 29 }
        ensures value { self.new ≡ frame_come self.old }
        ensures sound { IsSoundClock self.new }
    {
        let chips = frame_chips(self.form);
        self.start += chips;
        self.end += chips;
        self.have += 1;
    }

    /// Counts another decoded frame.
    pub fn hear(&mut self)
        requires sound { IsSoundClock self.old }
        requires come { self.old.next < self.old.have }
        ensures value { self.new ≡ clock_after_frame self.old }
        ensures sound { IsSoundClock self.new }
    {
        self.next += 1;
    }

    /// Returns the number of the first frame of the next frame's span.
    fn span_first(&self) -> u64
        requires { IsSoundClock self.now }
        ensures value { result ≡ span_from self.now }
        ensures early { result ≤ self.now.next }
        ensures late { self.now.next ≤ result + 1 }
    {
        if self.low < self.next {
            self.next - 1
        } else {
            self.next
        }
    }

    /// Returns the frames with which the next frame is decoded: the previous one, if it is in the
    /// file, and the following one, if it has arrived.
    pub fn span(&self) -> Span
        requires sound { IsSoundClock self.now }
        requires come { self.now.next < self.now.have }
        ensures frames { result.frames ≡ self.now.have - span_from self.now }
        ensures own { result.own ≡ self.now.next - span_from self.now }
        ensures most { result.frames ≤ 3 }
        ensures within { result.own < result.frames }
    {
        let first = self.span_first();
        Span {
            frames: (self.have - first) as u8,
            own: (self.next - first) as u8,
        }
    }

    /// Returns the reference sample at which a frame that has arrived begins.
    pub fn start_of(&self, frame: u64) -> u64
        requires sound { IsSoundClock self.now }
        requires come { frame ≤ self.now.have }
        ensures value { result
            ≡ self.now.start - frame_chips self.now.form * (self.now.have - frame) }
        ensures most { result ≤ 2 ^ 30 }
    {
        self.start - frame_chips(self.form) * (self.have - frame)
    }
}
