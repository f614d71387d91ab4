//! Receives the frames of a channel, each by itself.

use crate::fingers::frames_end;
use crate::frame_clock::FrameClock;
use crate::scrambling::Scrambling;
use crate::softs::unscramble;
use chip_core::air::DATA_SYMBOLS;
use frame_decoder::FrameSofts;
use rake_finger::{Fingers, Form, SampleRing, combine_into};
use short_code::Codes;

/// The receiver of a channel's frames, each received by itself: their places, the fingers for the
/// next one, and their scrambling (TIA/EIA-95-B, 7.1.3.1.6).
#[derive(Drop)]
pub struct FrameReceiver {
    /// The places of the frames in the file, and which of them have arrived.
    pub clock: FrameClock,
    /// The fingers for the frame that arrives next.
    pub fingers: Fingers,
    /// How the frames are scrambled.
    pub scrambling: Scrambling,
}

impl FrameReceiver {
    ghost use Rattle.std.specs.Prelude.{◌≡◌, ◌<◌, ◌≤◌, ◌+◌, ◌*◌, ◌^◌, List, true, false, length};
    ghost use Rattle.std.specs.Prelude.{sum_by, unsigned_abs};
    ghost use Rattle.chip_core.specs.declared.sample.Sample.{Sample};
    ghost use Rattle.long_code.specs.LongCode.{after};
    ghost use Rattle.rake_finger.specs.Held.{HoldsLast};
    ghost use Rattle.rake_finger.specs.Near.{AreClose, have_rows};
    ghost use Rattle.rake_finger.specs.Scrambled.{unscrambled};
    ghost use Rattle.rake_finger.specs.Soft.{softs};
    ghost use Rattle.rake_finger.specs.Streams.{frame_end};
    ghost use Rattle.rake_finger.specs.declared.form.Form.TheVariants.{Data};
    ghost use Rattle.reception.specs.Clocks.{clock_from, first_frame, frame_come};
    ghost use Rattle.reception.specs.Clocks.{clock_after_frame};
    ghost use Rattle.reception.specs.Sound.{IsSoundReceiver};
    ghost use Rattle.symbol_path.specs.Scrambling.{scrambling};

    /// Returns the receiver of a channel whose frame 0 begins at reference sample `first`, before
    /// any frame has arrived.
    pub fn new(fingers: Fingers, scrambling: Scrambling, first: u64) -> FrameReceiver
        requires close { AreClose fingers }
        requires rows { have_rows fingers ≡ true }
        requires mask { scrambling.mask < 2 ^ 42 }
        requires first { first < 2 ^ 29 + 2 ^ 15 }
        ensures clock { result.clock
            ≡ clock_from fingers Data false first (first_frame fingers first) }
        ensures fingers { result.fingers ≡ fingers }
        ensures scrambling { result.scrambling ≡ scrambling }
        ensures sound { IsSoundReceiver result }
    {
        let clock = FrameClock::new(&fingers, Form::Data, false, first);
        FrameReceiver {
            clock,
            fingers,
            scrambling,
        }
    }

    /// Computes the soft values of the frame whose last sample has just arrived, without
    /// descrambling.
    pub fn raw(&self, ring: &SampleRing, codes: &Codes) -> FrameSofts
        requires sound { IsSoundReceiver self.now }
        requires room { ring.now.room ≡ 65536 }
        requires ended { ring.now.taken ≡ self.now.clock.end }
        ensures value { (heard : List Sample) → HoldsLast ring.now heard →
            result ≡ softs heard self.now.fingers Data self.now.clock.start }
        ensures small { sum_by unsigned_abs result
            ≤ length self.now.fingers * (384 * 2 ^ 50) }
    {
        let mut softs = [0; DATA_SYMBOLS];
        let start = self.clock.start;
        combine_into(ring, codes, &self.fingers, Form::Data, start, &mut softs);
        softs
    }

    /// Descrambles the soft values of a frame.
    pub fn descramble(&self, frame: u64, softs: &mut FrameSofts)
        requires mask { self.now.scrambling.mask < 2 ^ 42 }
        requires frame { frame < 2 ^ 32 }
        requires small { sum_by unsigned_abs softs.old ≤ 2 ^ 62 }
        ensures value { softs.new ≡ unscrambled
            (scrambling (after self.now.scrambling.state (24576 * frame))
            self.now.scrambling.mask) softs.old }
        ensures small { sum_by unsigned_abs softs.new ≡ sum_by unsigned_abs softs.old }
    {
        unscramble(&self.scrambling.frame_bits(frame), softs);
    }

    /// Records that the frame has arrived, and proceeds to the next one.
    pub fn advance(&mut self)
        requires sound { IsSoundReceiver self.old }
        requires near { self.old.clock.have ≤ self.old.clock.next + 1 }
        requires few { self.old.clock.end ≤ 2 ^ 29 }
        ensures value { self.new ≡ record self.old { clock = frame_come self.old.clock } }
        ensures waits { self.old.clock.end < self.new.clock.end }
        ensures sound { IsSoundReceiver self.new }
    {
        self.clock.advance();
    }

    /// Counts another decoded frame.
    pub fn hear(&mut self)
        requires sound { IsSoundReceiver self.old }
        requires come { self.old.clock.next < self.old.clock.have }
        ensures value { self.new ≡ record self.old { clock = clock_after_frame self.old.clock } }
        ensures sound { IsSoundReceiver self.new }
    {
        self.clock.hear();
    }

    /// Uses other fingers for the frame that arrives next.
    pub fn tune(&mut self, fingers: Fingers)
        requires sound { IsSoundReceiver self.old }
        requires close { AreClose fingers }
        requires rows { have_rows fingers ≡ true }
        requires late { 226 ≤ self.old.clock.start }
        requires few { self.old.clock.start ≤ 2 ^ 29 + 2 ^ 17 }
        ensures value { self.new ≡ record self.old {
          clock = record self.old.clock {
            end = frame_end fingers Data self.old.clock.start;
          };
          fingers = fingers;
        } }
        ensures sound { IsSoundReceiver self.new }
    {
        self.clock.end = frames_end(&fingers, Form::Data, self.clock.start);
        self.fingers = fingers;
    }
}
