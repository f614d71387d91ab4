//! Receives a continued channel: a sync or a paging channel.

use crate::fingers::frame_symbols;
use crate::frame_clock::FrameClock;
use crate::softs::{SpanSofts, shift_in, unscramble};
use chip_core::Bits;
use chip_core::air::{DATA_SYMBOLS, SPAN_SYMBOLS};
use frame_decoder::{FrameKind, span_bits};
use rake_finger::{Fingers, Form, SampleRing, combine_into};
use short_code::Codes;
use viterbi::Decoder;

/// The receiver of a channel whose encoder continues from frame to frame: each frame is decoded
/// together with the previous and the next one, if these are in the file (TIA/EIA-95-B, 7.1.3.1.3).
#[derive(Drop)]
pub struct Continued {
    /// The places of the frames in the file, and which of them have arrived.
    pub clock: FrameClock,
    /// The paths on which the channel is received.
    pub fingers: Fingers,
    /// The soft values of the last three frames, the last at the end. A sync frame has 128 of them,
    /// and a frame of a paging channel 384.
    pub softs: SpanSofts,
}

impl Continued {
    ghost use Rattle.std.specs.Prelude.{◌≡◌, ◌<◌, ◌≤◌, ◌+◌, ◌-◌, ◌*◌, ◌^◌, ℕ, true, List, length};
    ghost use Rattle.chip_core.specs.declared.sample.Sample.{Sample};
    ghost use Rattle.frame_decoder.specs.Spans.{Channel, channel_for, own_bits};
    ghost use Rattle.reception.specs.Clocks.{IsDueAt, clock_from, first_frame, frame_come};
    ghost use Rattle.rake_finger.specs.Near.{AreNear, have_rows};
    ghost use Rattle.reception.specs.Receiving.{Receives};
    ghost use Rattle.rake_finger.specs.Scrambled.{Scrambles};
    ghost use Rattle.reception.specs.Sound.{IsSoundChannel};
    ghost use Rattle.rake_finger.specs.Streams.{StreamOf, span_first, span_frames, span_softs};
    ghost use Rattle.rake_finger.specs.Held.{HoldsLast};
    ghost use Rattle.rake_finger.specs.Soft.{symbols};
    ghost use Rattle.symbol_path.specs.SentOrder.{size};

    /// Returns the receiver of a channel whose frame 0 begins at reference sample `first`, before
    /// any frame has arrived.
    pub fn new(fingers: Fingers, form: Form, first: u64) -> Continued
        requires near { AreNear fingers }
        requires rows { have_rows fingers ≡ true }
        requires few { length fingers ≤ 3 }
        requires first { first < 2 ^ 29 }
        ensures clock { result.clock
            ≡ clock_from fingers form true first (first_frame fingers first) }
        ensures fingers { result.fingers ≡ fingers }
        ensures sound { IsSoundChannel result }
    {
        let clock = FrameClock::new(&fingers, form, true, first);
        Continued {
            clock,
            fingers,
            softs: [0; SPAN_SYMBOLS],
        }
    }

    /// Takes the soft values of the frame whose last sample has just arrived. `scrambling` has a
    /// bit for each of its symbols, or none if the channel isn't scrambled.
    pub fn take_frame(&mut self, ring: &SampleRing, codes: &Codes, scrambling: &[bool])
        requires sound { IsSoundChannel self.old }
        requires near { self.old.clock.have ≤ self.old.clock.next + 1 }
        requires few { self.old.clock.end ≤ 2 ^ 29 }
        requires room { ring.now.room ≡ 65536 }
        requires ended { ring.now.taken ≡ self.old.clock.end }
        requires bits { Scrambles scrambling.now (symbols self.old.clock.form) }
        ensures clock { self.new.clock ≡ frame_come self.old.clock }
        ensures sound { IsSoundChannel self.new }
        ensures stands { (count : ℕ) (s : StreamOf Channel) (heard : List Sample) →
            HoldsLast ring.now heard → scrambling.now ≡ s.scrambling self.old.clock.have →
            ¬ IsDueAt count self.old.clock →
            Receives count s self.old heard → Receives count s self.new heard }
    {
        let Continued {
            clock,
            fingers,
            softs,
        } = self;
        let mut room = [0i64; DATA_SYMBOLS];
        let fresh = &mut room[..frame_symbols(clock.form)];
        combine_into(ring, codes, fingers, clock.form, clock.start, fresh);
        unscramble(scrambling, fresh);
        shift_in(softs, fresh);
        clock.advance();
    }

    /// Returns the bits of the next frame, which must have arrived.
    pub fn own_bits(&self, decoder: &mut Decoder, kind: FrameKind) -> Bits
        requires sound { IsSoundChannel self.now }
        requires come { self.now.clock.next < self.now.clock.have }
        requires kind { size (channel_for kind).shape ≡ symbols self.now.clock.form }
        requires room { decoder.old ≡ 576 }
        ensures value { (count : ℕ) (s : StreamOf Channel) (heard : List Sample) →
            Receives count s self.now heard → channel_for kind ≡ s.channel →
            IsDueAt count self.now.clock →
            result ≡ own_bits s.channel (span_frames count s self.now.clock.next)
            (self.now.clock.next - span_first count s self.now.clock.next)
            (span_softs count heard s self.now.clock.next) }
        ensures count { length result ≡ (channel_for kind).bits }
        ensures kept { decoder.new ≡ decoder.old }
    {
        let span = self.clock.span();
        let kept = frame_symbols(self.clock.form) * usize::from(span.frames);
        span_bits(
            decoder,
            kind,
            span.frames,
            &self.softs[SPAN_SYMBOLS - kept..],
            span.own,
        )
    }
}
