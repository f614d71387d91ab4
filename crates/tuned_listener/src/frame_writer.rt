//! Decodes the frames of one channel and writes their text.

ghost use Rattle.tuned_listener.specs.Common.{CheckForm as TheCheck, Sample as TheSample, Tuning};
ghost use Rattle.tuned_listener.specs.Common.{soft_frames, frame_most, IsSoundMark, slot_after};
ghost use Rattle.tuned_listener.specs.Common.{CodeChannel as TheChannel, SoftFrame as TheFrame};
ghost use Rattle.tuned_listener.specs.Common.{slot_more, listed_text, rate2_text, tuned_frame_text};
ghost use Rattle.event_tap.specs.TunedTexts.{frames_text};
ghost use Rattle.std.specs.Prelude.{◌≡◌, ◌≤◌, ◌+◌, ◌++◌, List, [], length, IfOk, OnOk, OnErr};
ghost use Rattle.std.specs.Prelude.{IfSome, sum_by, unsigned_abs};
ghost use Rattle.std.specs.Option.{option_to_list};
ghost use Rattle.std.specs.Io.KnownBytes.{Appends};
ghost use Rattle.cdma_io.specs.Outside.{AppendsPrefix, HasCause};
ghost use Rattle.tuned_listener.specs.Tuners.{IsTunedTo, samples_left};
ghost use Rattle.tuned_listener.specs.FrameWriting.{HoldsFrames, IsLawfulText, IsReady};
ghost use Rattle.tuned_listener.specs.FrameWriting.{tuned_text_of, WritesFrames, WritesFramesPart};

use crate::slot_writer::SlotWriter;
use crate::tuner::Tuner;
use cdma_io::{Failed, Sink};
use chip_core::air::{FRAME_BITS, SET_TWO_FRAME_BITS};
use chip_core::{CheckForm, OutOfMemory, Sample};
use event_tap::{TunedText, write_event, write_frame2};
use heard_events::{Event, Mark, SoftFrame};
use list_viterbi::ListDecoder;
use listed_frame::listed_frame;
use rate_set_two::traffic2_frame;
use std::alloc::Global;
use viterbi::Decoder;

/// Decodes the frames of one channel and writes their text.
#[derive(Drop)]
pub(crate) enum FrameWriter {
    /// Decodes frames of rate set 2.
    RateSetTwo { decoder: Decoder },
    /// Decodes frames of rate set 1 from the first `k` codewords of each rate, 1 to 16.
    Listed { decoder: ListDecoder, k: u8 },
    /// Decodes the slots of a paging channel that a handset monitors.
    Slots(SlotWriter),
}

/// Writes the line of a frame of rate set 2, if the channel has power control bits.
fn write_rate2<K: Sink>(
    decoder: &mut Decoder,
    frame: &SoftFrame,
    sink: &mut K,
) -> Result<(), Failed>
    requires decodes { 288 ≤ decoder.old }
    requires small { sum_by unsigned_abs frame.now.descrambled ≤ frame_most }
    ensures kept { decoder.new ≡ decoder.old }
    ensures ok { OnOk result (Appends (K.written sink.old) (K.written sink.new)
        (rate2_text frame.now.end frame.now.descrambled frame.now.power)) }
    ensures err { OnErr result (AppendsPrefix (K.written sink.old) (K.written sink.new)
        (rate2_text frame.now.end frame.now.descrambled frame.now.power)) }
    ensures cause { HasCause (K.faults sink.old) (K.faults sink.new) result }
{
    let Some(power) = frame.power else {
        return Ok(());
    };
    let decoded = traffic2_frame(decoder, &frame.descrambled, &power.replaced);
    write_frame2(frame.end, &decoded, &power.power_bits, sink)
}

/// Writes the line of a frame of rate set 1, decoded from the first `k` codewords of each rate, if
/// the channel has power control bits.
#[tactic(auto, unfolding(event_tap::specs::EventLines::event_line))]
fn write_listed<K: Sink>(
    decoder: &mut ListDecoder,
    k: u8,
    frame: &SoftFrame,
    sink: &mut K,
) -> Result<(), Failed>
    requires decodes { 192 ≤ decoder.old }
    requires some { 1 ≤ k }
    requires few { k ≤ 16 }
    requires small { sum_by unsigned_abs frame.now.descrambled ≤ frame_most }
    ensures kept { decoder.new ≡ decoder.old }
    ensures ok { OnOk result (Appends (K.written sink.old) (K.written sink.new)
        (listed_text k frame.now.end frame.now.descrambled frame.now.power)) }
    ensures err { OnErr result (AppendsPrefix (K.written sink.old) (K.written sink.new)
        (listed_text k frame.now.end frame.now.descrambled frame.now.power)) }
    ensures cause { HasCause (K.faults sink.old) (K.faults sink.new) result }
{
    let Some(power) = frame.power else {
        return Ok(());
    };
    let decoded = listed_frame(decoder, k, &frame.descrambled, &power.replaced);
    let event = Event::Frame {
        at: frame.end,
        rate: decoded.rate,
        good: decoded.good,
        bits: decoded.bits,
        commands: power.power_bits,
    };
    write_event(&event, sink)
}

impl FrameWriter {
    /// Opens the writer of a text, whose messages have checks of the form `check`. Only the
    /// allocation of a decoder can fail.
    pub(crate) fn open(
        alloc: Global,
        text: TunedText,
        check: CheckForm,
    ) -> Result<FrameWriter, OutOfMemory>
        requires { IsLawfulText text }
        ensures ready { IfOk result IsReady }
        ensures text { IfOk result (λ writer. tuned_text_of writer ≡ text) }
        ensures holds { IfOk result (λ writer. HoldsFrames writer check []) }
    {
        match text {
            TunedText::RateSetTwo => Ok(FrameWriter::RateSetTwo {
                decoder: Decoder::new(alloc, SET_TWO_FRAME_BITS)?,
            }),
            TunedText::Listed { k } => Ok(FrameWriter::Listed {
                decoder: ListDecoder::new(alloc, FRAME_BITS)?,
                k,
            }),
            TunedText::Slots { key, cycle } => {
                let slots = SlotWriter::open(alloc, key, cycle, check)?;
                Ok(FrameWriter::Slots(slots))
            }
        }
    }

    /// Writes the text of the next frame after `mark`.
    fn write<K: Sink>(&mut self, mark: &Mark, frame: &SoftFrame, sink: &mut K) -> Result<(), Failed>
        requires ready { IsReady self.old }
        requires mark { IsSoundMark mark.now }
        requires small { sum_by unsigned_abs frame.now.descrambled ≤ frame_most }
        ensures ready { IsReady self.new }
        ensures text { tuned_text_of self.new ≡ tuned_text_of self.old }
        ensures holds { (check : TheCheck) (slot : List TheFrame) →
            HoldsFrames self.old check slot →
            HoldsFrames self.new check (slot_more slot frame.now) }
        ensures ok { OnOk result ((check : TheCheck) (slot : List TheFrame) →
            HoldsFrames self.old check slot → Appends (K.written sink.old) (K.written sink.new)
            (tuned_frame_text (tuned_text_of self.old) check mark.now (slot_more slot frame.now)
            frame.now)) }
        ensures err { OnErr result ((check : TheCheck) (slot : List TheFrame) →
            HoldsFrames self.old check slot →
            AppendsPrefix (K.written sink.old) (K.written sink.new)
            (tuned_frame_text (tuned_text_of self.old) check mark.now (slot_more slot frame.now)
            frame.now)) }
        ensures cause { HasCause (K.faults sink.old) (K.faults sink.new) result }
    {
        match self {
            FrameWriter::RateSetTwo { decoder } => write_rate2(decoder, frame, sink),
            FrameWriter::Listed { decoder, k } => write_listed(decoder, *k, frame, sink),
            FrameWriter::Slots(slots) => slots.write(mark, frame, sink),
        }
    }

    /// Writes the text of the frame with which a step ends, if there is one.
    fn write_shown<K: Sink>(
        &mut self,
        mark: &Mark,
        shown: &Option<SoftFrame>,
        sink: &mut K,
    ) -> Result<(), Failed>
        requires ready { IsReady self.old }
        requires mark { IsSoundMark mark.now }
        requires small { IfSome shown.now
            (λ (frame : TheFrame). sum_by unsigned_abs frame.descrambled ≤ frame_most) }
        ensures ready { IsReady self.new }
        ensures text { tuned_text_of self.new ≡ tuned_text_of self.old }
        ensures holds { (check : TheCheck) (slot : List TheFrame) →
            HoldsFrames self.old check slot →
            HoldsFrames self.new check (slot_after slot (option_to_list shown.now)) }
        ensures ok { OnOk result ((check : TheCheck) (slot : List TheFrame) →
            HoldsFrames self.old check slot → Appends (K.written sink.old) (K.written sink.new)
            (frames_text (tuned_text_of self.old) check mark.now slot
            (option_to_list shown.now))) }
        ensures err { OnErr result ((check : TheCheck) (slot : List TheFrame) →
            HoldsFrames self.old check slot →
            AppendsPrefix (K.written sink.old) (K.written sink.new)
            (frames_text (tuned_text_of self.old) check mark.now slot
            (option_to_list shown.now))) }
        ensures cause { HasCause (K.faults sink.old) (K.faults sink.new) result }
    {
        match shown {
            Some(frame) => self.write(mark, frame, sink),
            None => Ok(()),
        }
    }
}

/// Passes samples to the receiver of a channel's frames after `mark`, and writes the text of each
/// frame that ends within them.
pub(crate) fn hear_frames<K: Sink>(
    tuner: &mut Tuner,
    mark: &Mark,
    writer: &mut FrameWriter,
    samples: &[Sample],
    sink: &mut K,
) -> Result<(), Failed>
    requires room { length samples.now ≤ samples_left tuner.old }
    requires mark { IsSoundMark mark.now }
    requires ready { IsReady writer.old }
    ensures room { OnOk result (samples_left tuner.new + length samples.now
        ≡ samples_left tuner.old) }
    ensures ready { IsReady writer.new }
    ensures text { tuned_text_of writer.new ≡ tuned_text_of writer.old }
    ensures ok { OnOk result ((t : Tuning) (channel : TheChannel) (heard : List TheSample) →
        IsTunedTo t channel mark.now tuner.old heard →
        HoldsFrames writer.old t.check30 (slot_after [] (soft_frames t channel mark.now heard)) →
        WritesFrames t channel mark.now (tuned_text_of writer.old) tuner.new writer.new heard
        (heard ++ samples.now) (K.written sink.old) (K.written sink.new)) }
    ensures err { OnErr result ((t : Tuning) (channel : TheChannel) (heard : List TheSample) →
        IsTunedTo t channel mark.now tuner.old heard →
        HoldsFrames writer.old t.check30 (slot_after [] (soft_frames t channel mark.now heard)) →
        WritesFramesPart t channel mark.now (tuned_text_of writer.old) heard (heard ++ samples.now)
        (K.written sink.old) (K.written sink.new)) }
    ensures cause { HasCause (K.faults sink.old) (K.faults sink.new) result }
{
    let mut taken = 0;
    while taken < samples.len() {
        let step = tuner.step(&samples[taken..]);
        taken += step.taken;
        writer.write_shown(mark, &step.frame, sink)?;
    }
    Ok(())
}
