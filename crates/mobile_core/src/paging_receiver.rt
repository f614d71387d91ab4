//! A paging channel as it is received.

use crate::receive::Receive;
use crate::scrambling::paging_scrambling;
use chip_core::{Bits, CheckForm, Phase};
use frame_decoder::FrameKind;
use heard_events::hearing::{event_of_page, page_in};
use heard_events::{Event, Mark, Spelled};
use paging_message::{HalfFramer, PagingMessage};
use pilot_search::Near;
use rake_finger::{Form, SampleRing};
use reception::{Continued, Scrambling, reference_fingers};
use short_code::Codes;
use symbol_path::Rate;
use viterbi::Decoder;

/// The receiver of one paging channel of the reference base station, from the mark on: its frames,
/// and the framer of their half-frames (TIA/EIA-95-B, 7.1.3.4 and 7.7.2).
#[derive(Drop)]
pub(crate) struct PagingReceiver {
    received: Continued,
    rate: Rate,
    scrambling: Scrambling,
    framer: HalfFramer,
    /// The bits of the frame that is being decoded, if any.
    frame: Bits,
    /// The number of these bits that the framer has taken, 0 if no frame is under way.
    place: u16,
}

impl PagingReceiver {
    ghost use Rattle.std.specs.Prelude.{◌≡◌, ◌<◌, ◌≤◌, ◌+◌, List, length};
    ghost use Rattle.std.specs.Prelude.{take, slice_get, Some, pos, is_some, IfSome, nat_lt, ℕ};
    ghost use Rattle.chip_core.specs.declared.sample.Sample.{Sample};
    ghost use Rattle.reception.specs.Clocks.{IsDueAt};
    ghost use Rattle.mobile_core.specs.PagingReceiving.{HearsBit, HearsPaging, IsSoundPaging};
    ghost use Rattle.mobile_core.specs.PagingReceiving.{bit_passed, bits_heard};
    ghost use Rattle.heard_events.specs.PagingStreams.{paging_stream};
    ghost use Rattle.heard_events.specs.SoundMarks.{IsSoundMark};
    ghost use Rattle.heard_events.specs.Streams.{frame_own_bits};
    ghost use Rattle.heard_events.specs.Tuning.{Tuning};
    ghost use Rattle.heard_events.specs.declared.mark.Mark.{Mark as TheMark};

    /// Makes a receiver of paging channel 1 to 7, before its first frame, given the phase of the
    /// base station and the paths near it; `None` exactly if the mark's PRAT is reserved.
    pub(crate) fn open(
        mark: &Mark,
        channel: u8,
        phase: Phase,
        near: &Near,
    ) -> Option<PagingReceiver>
        requires mark { IsSoundMark mark.now }
        requires first_channel { 1 ≤ channel }
        requires last_channel { channel ≤ 7 }
        requires least { 1 ≤ near.now.count }
        requires most { near.now.count ≤ 3 }
        requires first { slice_get near.now.deltas 0 ≡ Some (pos 0) }
        ensures some { is_some result ≡ nat_lt mark.now.prat 2 }
        ensures begins { IfSome result (λ r. mark.now.sample < r.received.clock.end) }
        ensures fresh { IfSome result (λ r. r.received.clock.have ≡ r.received.clock.next) }
        ensures sound { IfSome result IsSoundPaging }
        ensures hears { (t : Tuning) (heard : List Sample) → t.phase ≡ phase →
            t.deltas ≡ take near.now.count near.now.deltas → length heard ≤ t.count →
            length heard ≤ mark.now.sample →
            IfSome result (λ r. HearsPaging t channel mark.now r heard) }
    {
        let rate = mark.paging_rate()?;
        let fingers = reference_fingers(channel, phase, near);
        Some(PagingReceiver {
            received: Continued::new(fingers, Form::Data, mark.sample),
            rate,
            scrambling: paging_scrambling(channel, mark),
            framer: HalfFramer::new(rate),
            frame: Bits::empty(),
            place: 0,
        })
    }

    /// Takes the next bit of the due frame and returns the message that it completes.
    ///
    /// A frame stays due up to its last bit, since several messages may end in one.
    // Not inlined: its stack frame holds several messages.
    #[inline(never)]
    fn hear_bit(
        &mut self,
        decoder: &mut Decoder,
        check: CheckForm,
    ) -> Option<Spelled<PagingMessage>>
        requires sound { IsSoundPaging self.old }
        requires come { self.old.received.clock.next < self.old.received.clock.have }
        requires room { decoder.old ≡ 576 }
        ensures have { self.new.received.clock.have ≡ self.old.received.clock.have }
        ensures waits { self.new.received.clock.end ≡ self.old.received.clock.end }
        ensures further { bits_heard self.old < bits_heard self.new }
        ensures sound { IsSoundPaging self.new }
        ensures kept { decoder.new ≡ decoder.old }
        ensures hears { (t : Tuning) (channel : ℕ) (m : TheMark) (heard : List Sample) →
            check ≡ t.check30 → IsDueAt t.count self.old.received.clock →
            HearsPaging t channel m self.old heard →
            HearsBit t channel m heard self.old self.new result }
    {
        self.frame = self.due_bits(decoder);
        let capsule = self.framer.push(self.frame.get(self.place));
        self.pass_bit();
        page_in(check, capsule)
    }

    /// Returns the bits of the due frame, decoding it first unless that is done.
    fn due_bits(&self, decoder: &mut Decoder) -> Bits
        requires sound { IsSoundPaging self.now }
        requires come { self.now.received.clock.next < self.now.received.clock.have }
        requires room { decoder.old ≡ 576 }
        ensures value { (t : Tuning) (channel : ℕ) (m : TheMark) (heard : List Sample) →
            IsDueAt t.count self.now.received.clock → HearsPaging t channel m self.now heard →
            result ≡ frame_own_bits t.count heard (paging_stream t channel m)
            self.now.received.clock.next }
        ensures within { self.now.place < length result }
        ensures most { length result ≤ 192 }
        ensures kept { decoder.new ≡ decoder.old }
    {
        if self.place > 0 {
            return self.frame;
        }
        self.received
            .own_bits(decoder, FrameKind::Paging(self.rate))
    }

    /// Advances to the next bit of the due frame, or to the next frame after the last bit.
    fn pass_bit(&mut self)
        requires sound { IsSoundPaging self.old }
        requires come { self.old.received.clock.next < self.old.received.clock.have }
        requires within { self.old.place < length self.old.frame }
        ensures value { self.new ≡ bit_passed self.old }
        ensures sound { IsSoundPaging self.new }
    {
        if self.place + 1 < self.frame.len() {
            self.place += 1;
            return;
        }
        self.place = 0;
        self.received.clock.hear();
    }
}

impl Receive for PagingReceiver {
    ghost use Rattle.std.specs.Prelude.{◌<◌, ◌≤◌};
    ghost use Rattle.mobile_core.specs.AfterMark.{FollowsPages, IsUnpaged, paging_due};
    ghost use Rattle.mobile_core.specs.AfterMark.{paging_left};
    ghost use Rattle.reception.specs.Clocks.{IsDueAt};
    ghost use Rattle.mobile_core.specs.PagingReceiving.{IsSoundPaging, bits_heard};

    ghost sound = { IsSoundPaging };

    ghost due = { λ count r. IsDueAt count r.received.clock };

    ghost waits = { λ n r. n < r.received.clock.end };

    ghost ends = { λ n r. n ≤ r.received.clock.end };

    ghost heard = { bits_heard };

    ghost unheard = { paging_due };

    ghost form = { λ t. t.check30 };

    ghost silent = { λ _ mark. IsUnpaged mark };

    ghost stands = { λ t _ mark r samples _. FollowsPages t mark r samples };

    ghost left = { λ t _. paging_left t };

    fn end_before(&self, end: u64) -> u64 {
        self.received.clock.end.min(end)
    }

    fn is_due(&self, count: u64) -> bool {
        self.received.clock.is_due(count)
    }

    fn take_ended(&mut self, ring: &SampleRing, codes: &Codes) {
        if self.received.clock.end == ring.taken() {
            let bits = self.scrambling.frame_bits(self.received.clock.have);
            self.received.take_frame(ring, codes, &bits);
        }
    }

    fn hear_next(
        &mut self,
        decoder: &mut Decoder,
        ring: &SampleRing,
        _codes: &Codes,
        check: CheckForm,
        _count: u64,
    ) -> Option<Event> {
        let page = self.hear_bit(decoder, check);
        event_of_page(page, ring.taken())
    }
}
