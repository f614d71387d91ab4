//! A traffic channel as it is received.

use crate::scrambling::traffic_scrambling;
use chip_core::air::{DATA_SYMBOLS, FRAME_OFFSET_CHIPS};
use chip_core::{CheckForm, Phase, PowerBits, Traffic};
use frame_decoder::{Decoded, FrameSofts, PowerSofts, commands, traffic_frame};
use heard_events::hearing::{frame_event, hear_signal, message_event};
use heard_events::{Event, Legs, Mark, Spelled, leg_fingers, power_softs};
use pilot_search::Near;
use rake_finger::SampleRing;
use reception::FrameReceiver;
use short_code::Codes;
use symbol_path::power_places;
use traffic_message::{SignalFramer, TrafficMessage};
use viterbi::Decoder;

/// The receiver of a traffic channel's frames from the mark on, each from its own set of pilots.
///
/// TIA/EIA-95-B, 7.1.3.5: each frame is encoded by itself, so it is decoded at its own end. A
/// message is complete after the frame that ends it (7.7.3).
#[derive(Drop)]
pub(crate) struct TrafficReceiver {
    /// The frames: their positions, and the fingers of the next one to come. The next frame to be
    /// decoded is that one, or the one before it if it has come but is not decoded yet.
    pub(crate) frames: FrameReceiver,
    /// The pilots from which the next frame is received, once they are known.
    legs: Legs,
    /// The phase of the reference base station's codes.
    phase: Phase,
    /// The paths near it.
    near: Near,
    /// The raw soft values of the next frame to be decoded, if it has come.
    softs: FrameSofts,
    /// The soft values of that frame's power control bits, by subchannel.
    power: PowerSofts,
    framer: SignalFramer,
    /// The message that the last decoded frame completes, until it is returned.
    kept: Option<Spelled<TrafficMessage>>,
}

impl TrafficReceiver {
    ghost use Rattle.std.specs.Prelude.{◌≡◌, ◌<◌, ◌≤◌, ◌+◌, ◌*◌, ◌∷◌, [], ◌↔◌, IsTrue, List};
    ghost use Rattle.std.specs.Prelude.{length, take, slice_get, Some, None, pos, false, ℕ};
    ghost use Rattle.chip_core.specs.declared.assignment.Traffic.{Traffic as TheTraffic};
    ghost use Rattle.chip_core.specs.declared.sample.Sample.{Sample};
    ghost use Rattle.heard_events.specs.Given.{at_of};
    ghost use Rattle.heard_events.specs.Legs.{legs_of};
    ghost use Rattle.heard_events.specs.Marks.{sets_mark};
    ghost use Rattle.heard_events.specs.Moments.{legs_by};
    ghost use Rattle.heard_events.specs.SoundMarks.{IsSoundMark};
    ghost use Rattle.heard_events.specs.TrafficEvents.{power_bits_at, decoded_at};
    ghost use Rattle.heard_events.specs.Tuning.{Tuning};
    ghost use Rattle.heard_events.specs.declared.event.Event.{Event as TheEvent};
    ghost use Rattle.heard_events.specs.declared.mark.Mark.{Mark as TheMark};
    ghost use Rattle.heard_events.specs.declared.sets_keeper.SetsKeeper.{SetsKeeper};
    ghost use Rattle.mobile_core.specs.TrafficReceiving.{GivesFirst, HasSoundLegs, HasToTell};
    ghost use Rattle.mobile_core.specs.TrafficReceiving.{HearsTraffic, HearsUntuned, HearsWith};
    ghost use Rattle.mobile_core.specs.TrafficReceiving.{IsSoundHandoff, IsSoundTraffic, beside};
    ghost use Rattle.mobile_core.specs.TrafficReceiving.{first_keeper, frame_taken, told_due};
    ghost use Rattle.mobile_core.specs.TrafficReceiving.{told_heard, tuned_to};
    ghost use Rattle.pilot_sets.specs.Standing.{Standing, new_standing};
    ghost use Rattle.quality_bits.specs.TrafficCodewords.{information_of};
    ghost use Rattle.rake_finger.specs.Held.{HoldsLast};

    /// Makes a receiver before its first frame, given the phase of the base station and the paths
    /// near it. Its first frame is received from the pilots that are active at the mark.
    pub(crate) fn open(
        mark: &Mark,
        traffic: &Traffic,
        legs: Legs,
        phase: Phase,
        near: &Near,
    ) -> TrafficReceiver
        requires mark { IsSoundMark mark.now }
        requires legs { HasSoundLegs legs }
        requires active { legs
            ≡ legs_of mark.now (new_standing mark.now.pilot traffic.now.row) }
        requires offset { traffic.now.offset ≤ 15 }
        requires least { 1 ≤ near.now.count }
        requires most { near.now.count ≤ 3 }
        requires first { slice_get near.now.deltas 0 ≡ Some (pos 0) }
        ensures begins { mark.now.sample < result.frames.clock.end }
        ensures begun { mark.now.sample ≤ result.frames.clock.start }
        ensures idle { ¬ HasToTell result }
        ensures sound { IsSoundTraffic result }
        ensures hears { (t : Tuning) (heard : List Sample) → t.phase ≡ phase →
            t.deltas ≡ take near.now.count near.now.deltas → length heard ≤ t.count →
            length heard ≤ mark.now.sample →
            HearsTraffic t traffic.now mark.now
            (beside (first_keeper mark.now traffic.now.row) result) heard [] }
    {
        let fingers = leg_fingers(&legs, phase, near);
        let start = mark.sample + FRAME_OFFSET_CHIPS * u64::from(traffic.offset);
        let frames = FrameReceiver::new(fingers, traffic_scrambling(traffic, mark), start);
        TrafficReceiver {
            frames,
            legs,
            phase,
            near: *near,
            softs: [0; DATA_SYMBOLS],
            power: PowerSofts::empty(),
            framer: SignalFramer::new(),
            kept: None,
        }
    }

    /// Whether a message is kept, or a frame has come that is not decoded yet.
    pub(crate) fn has_told(&self) -> bool
        ensures { IsTrue result ↔ HasToTell self.now }
    {
        self.kept.is_some() || self.frames.clock.next < self.frames.clock.have
    }

    /// Takes the soft values of the frame whose last sample has just come, and those of its power
    /// control bits, and proceeds to the next frame.
    pub(crate) fn take_softs(&mut self, ring: &SampleRing, codes: &Codes)
        requires sound { IsSoundTraffic self.old }
        requires idle { self.old.frames.clock.have ≡ self.old.frames.clock.next }
        requires few { ring.now.taken ≤ 67108864 }
        requires room { ring.now.room ≡ 65536 }
        requires ended { ring.now.taken ≡ self.old.frames.clock.end }
        ensures same { self.new ≡ frame_taken self.new.softs self.new.power self.old }
        ensures hears { (t : Tuning) (traffic : TheTraffic) (m : TheMark) (sets : SetsKeeper)
            (heard : List Sample) (pages : List TheEvent) → HoldsLast ring.now heard →
            IsSoundHandoff (beside sets self.old) →
            HearsTraffic t traffic m (beside sets self.old) heard pages →
            HearsUntuned t traffic m (beside sets self.new) heard pages }
        ensures sound { IsSoundTraffic self.new }
    {
        let TrafficReceiver {
            frames,
            legs,
            phase,
            near,
            softs,
            power,
            ..
        } = self;
        let scrambling = frames.scrambling;
        let replaced = power_places(&scrambling.state_at(frames.clock.have), scrambling.mask);
        *softs = frames.raw(ring, codes);
        let start = frames.clock.start;
        *power = power_softs(ring, codes, legs, *phase, near, start, &replaced, softs);
        frames.advance();
    }

    /// Returns the kept message's event. If none is kept, decodes the due frame, keeps the message
    /// that it completes, and returns the frame's event. Each event is at `at` samples.
    pub(crate) fn hear_told(&mut self, decoder: &mut Decoder, check: CheckForm, at: u64) -> Event
        requires sound { IsSoundTraffic self.old }
        requires due { HasToTell self.old }
        requires room { decoder.old ≡ 576 }
        ensures waits { self.new.frames.clock.end ≡ self.old.frames.clock.end }
        ensures starts { self.new.frames.clock.start ≡ self.old.frames.clock.start }
        ensures further { told_heard self.old < told_heard self.new }
        ensures nearer { told_due self.new < told_due self.old }
        ensures sound { IsSoundTraffic self.new }
        ensures kept { decoder.new ≡ decoder.old }
        ensures ends { at_of result ≡ at }
        ensures unset { sets_mark result ≡ false }
        ensures hears { (t : Tuning) (traffic : TheTraffic) (m : TheMark) (sets : SetsKeeper)
            (heard : List Sample) → at ≡ length heard → check ≡ t.check16 →
            IsSoundHandoff (beside sets self.old) →
            HearsTraffic t traffic m (beside sets self.old) heard [] →
            GivesFirst t traffic m heard (beside sets self.old) (beside sets self.new)
            (result ∷ []) (result ∷ []) }
    {
        if let Some(message) = self.kept {
            self.kept = None;
            return message_event(&message, at);
        }
        let (frame, power_bits) = self.next_frame(decoder);
        self.kept = hear_signal(&mut self.framer, &frame, check);
        self.frames.hear();
        frame_event(&frame, power_bits, at)
    }

    /// Sets the pilots from which the next frame is received.
    pub(crate) fn tune(&mut self, legs: Legs)
        requires sound { IsSoundTraffic self.old }
        requires legs { HasSoundLegs legs }
        ensures same { self.new ≡ tuned_to legs self.new.frames.clock.end
            self.new.frames.fingers self.old }
        ensures waits { (n : ℕ) → n ≤ self.old.frames.clock.start + 226 →
            n < self.new.frames.clock.end }
        ensures sound { IsSoundTraffic self.new }
    {
        self.frames.tune(leg_fingers(&legs, self.phase, &self.near));
        self.legs = legs;
    }

    /// Decodes the due frame and its power control bits.
    // Not inlined: its stack frame holds soft values.
    #[inline(never)]
    fn next_frame(&self, decoder: &mut Decoder) -> (Decoded, PowerBits)
        requires sound { IsSoundTraffic self.now }
        requires room { decoder.old ≡ 576 }
        ensures says { (t : Tuning) (traffic : TheTraffic) (m : TheMark) (sets : SetsKeeper)
            (heard : List Sample) (pages : List TheEvent) (told : ℕ → Standing) →
            self.now.frames.clock.next < self.now.frames.clock.have →
            IsSoundHandoff (beside sets self.now) →
            HearsWith t traffic m (beside sets self.now) heard pages told → (result.0
            ≡ decoded_at t traffic m (legs_by traffic m told) heard self.now.frames.clock.next)
            × (result.1
            ≡ power_bits_at t traffic m (legs_by traffic m told) heard
            self.now.frames.clock.next) }
        ensures long { length result.0.bits ≡ information_of result.0.rate }
        ensures kept { decoder.new ≡ decoder.old }
    {
        let number = self.frames.clock.next;
        let scrambling = self.frames.scrambling;
        let replaced = power_places(&scrambling.state_at(number), scrambling.mask);
        let mut descrambled = self.softs;
        self.frames.descramble(number, &mut descrambled);
        let decoded = traffic_frame(decoder, &descrambled, &replaced);
        (decoded, commands(&self.power))
    }
}
