//! A listener for the frames of one channel: a handset up to the step that sets the mark, and then
//! a receiver of only these frames.

ghost use Rattle.tuned_listener.specs.SoundListener.{IsSoundListener};

use crate::frame_writer::{FrameWriter, hear_frames};
use crate::marking::{Reached, step_to_mark};
use crate::tuner::Tuner;
use cdma_io::{Failed, Sink};
use chip_core::{OutOfMemory, Phase, Sample};
use core::mem::replace_with;
use event_tap::TunedText;
use heard_events::{CodeChannel, Mark};
use mobile_core::{HeardRing, Mobile};
use pilot_search::Near;
use std::alloc::Global;

/// The part that takes the next samples.
#[derive(Drop)]
enum Hearer {
    /// The handset that waits for the mark, and the parameters with which its successor is opened.
    Ahead {
        mobile: Mobile,
        /// The channel.
        channel: CodeChannel,
        /// The phase of the reference base station's codes.
        phase: Phase,
        /// The paths near it.
        near: Near,
    },
    /// The receiver of the channel's frames after the mark, and that mark.
    After {
        mark: Mark,
        tuner: Tuner,
    },
}

impl Hearer {
    ghost use Rattle.std.specs.Prelude.{◌≡◌, List, [], false};
    ghost use Rattle.chip_core.specs.declared.sample.Sample.{Sample as TheSample};
    ghost use Rattle.heard_events.specs.SoftFrames.{soft_frames};
    ghost use Rattle.heard_events.specs.SoundMarks.{IsSoundMark};
    ghost use Rattle.heard_events.specs.Tuning.{Tuning};
    ghost use Rattle.heard_events.specs.declared.channel.CodeChannel.{CodeChannel as TheChannel};
    ghost use Rattle.tuned_listener.specs.SoundListener.{CanOpen, IsSoundHearer};
    ghost use Rattle.tuned_listener.specs.TunedListening.{ListensFrom, WasTold, is_ahead, room_of};

    /// Replaces the handset by the receiver of the frames after `mark`. A receiver that is already
    /// there stays.
    fn opened(self, mark: Mark) -> (Hearer, ())
        requires mark { IsSoundMark mark }
        requires opens { CanOpen self mark }
        ensures sound { IsSoundHearer result.0 }
        ensures after { is_ahead result.0 ≡ false }
        ensures room { room_of result.0 ≡ room_of self }
        ensures listens { (t : Tuning) (channel : TheChannel) (heard : List TheSample) →
            WasTold t channel self mark heard → ListensFrom t channel result.0 heard
            × (soft_frames t channel mark heard ≡ []) }
    {
        match self {
            Hearer::Ahead {
                mobile,
                channel,
                phase,
                near,
            } => {
                let HeardRing { count, ring, codes } = mobile.into_ring();
                let tuner = Tuner::open(count, ring, codes, &mark, &channel, phase, &near);
                (Hearer::After { mark, tuner }, ())
            }
            Hearer::After { .. } => (self, ()),
        }
    }
}

/// The listener of one channel of the reference base station, which writes the text of its frames.
///
/// A handset takes the samples up to the step that sets the mark, and a receiver of the channel's
/// frames takes those after it.
#[derive(Drop)]
pub struct TunedListener {
    hearer: Hearer,
    /// The part that decodes the frames and writes their text.
    writer: FrameWriter,
    ghost sound: { IsSoundListener hearer writer },
}

impl TunedListener {
    ghost use Rattle.std.specs.Prelude.{◌≡◌, ◌≤◌, ◌+◌, ◌++◌, List, [], length, pos, slice_get};
    ghost use Rattle.std.specs.Prelude.{take, IfOk, OnOk, OnErr, Some, is_some, true};
    ghost use Rattle.cdma_io.specs.Outside.{HasCause};
    ghost use Rattle.chip_core.specs.declared.sample.Sample.{Sample as TheSample};
    ghost use Rattle.heard_events.specs.Marks.{mark};
    ghost use Rattle.mobile_core.specs.Standing.{StandsFor, has_room};
    ghost use Rattle.heard_events.specs.Tuning.{Tuning};
    ghost use Rattle.heard_events.specs.declared.channel.CodeChannel.{CodeChannel as TheChannel};
    ghost use Rattle.tuned_listener.specs.Marking.{IsUntold};
    ghost use Rattle.tuned_listener.specs.TunedListening.{ListensTuned, TellsTuned, TellsTunedPart};
    ghost use Rattle.tuned_listener.specs.TunedListening.{is_ahead, tuned_room};
    ghost use Rattle.event_tap.specs.TunedTexts.{IsLawfulTuned, tuned_text};
    ghost use Rattle.event_tap.specs.declared.tuned_text.TunedText.{TunedText as TheText};

    /// Opens the listener of a channel of the base station at `phase`, with the paths `near` it,
    /// from a handset that has taken no sample of a file. The messages of a paging channel have
    /// checks of the form that the handset was made with.
    ///
    /// Only the allocation of a decoder can fail.
    pub fn open(
        alloc: Global,
        mobile: Mobile,
        channel: CodeChannel,
        text: TunedText,
        phase: Phase,
        near: Near,
    ) -> Result<TunedListener, OutOfMemory>
        requires untold { IsUntold mobile }
        requires lawful { IsLawfulTuned channel text }
        requires least { 1 ≤ near.count }
        requires most { near.count ≤ 3 }
        requires first { slice_get near.deltas 0 ≡ Some (pos 0) }
        ensures room { IfOk result (λ l. tuned_room l ≡ has_room mobile) }
        ensures listens { IfOk result (λ l. (t : Tuning) → StandsFor t mobile [] [] →
            t.phase ≡ phase → t.deltas ≡ take near.count near.deltas →
            ListensTuned t channel text l []) }
    {
        let writer = FrameWriter::open(alloc, text, mobile.check30())?;
        let hearer = Hearer::Ahead {
            mobile,
            channel,
            phase,
            near,
        };
        Ok(TunedListener { hearer, writer })
    }

    /// Returns whether the mark is set.
    pub fn is_told(&self) -> bool
        ensures { (t : Tuning) (channel : TheChannel) (form : TheText) (heard : List TheSample) →
            ListensTuned t channel form self.now heard →
            result ≡ is_some (mark t heard (length heard)) }
    {
        matches!(self.hearer, Hearer::After { .. })
    }

    /// Takes samples, and writes the text of each frame that ends within them.
    ///
    /// `samples` are the next samples of the file, not more than it has left. Returns [`Failed`]
    /// only if the sink's count of faults rose. The sink then took a beginning of the text.
    // Not inlined: its stack frame holds a handset, which would enlarge that of its caller.
    #[inline(never)]
    pub fn hear<K: Sink>(&mut self, samples: &[Sample], sink: &mut K) -> Result<(), Failed>
        requires room { length samples.now ≤ tuned_room self.old }
        ensures room { OnOk result (tuned_room self.new + length samples.now
            ≡ tuned_room self.old) }
        ensures ok { OnOk result ((t : Tuning) (channel : TheChannel) (form : TheText)
            (heard : List TheSample) → ListensTuned t channel form self.old heard →
            TellsTuned t channel form self.new heard (heard ++ samples.now)
            (K.written sink.old) (K.written sink.new)) }
        ensures err { OnErr result ((t : Tuning) (channel : TheChannel) (form : TheText)
            (heard : List TheSample) → ListensTuned t channel form self.old heard →
            TellsTunedPart t channel form heard (heard ++ samples.now)
            (K.written sink.old) (K.written sink.new)) }
        ensures cause { HasCause (K.faults sink.old) (K.faults sink.new) result }
    {
        let taken = self.reach_mark(samples);
        self.write_frames(&samples[taken..], sink)
    }

    /// Passes samples to the handset up to the step that sets the mark, or all of them, and then
    /// replaces it by the receiver of the frames if the mark is set. Returns the number of samples
    /// taken: 0 if the mark was set before.
    fn reach_mark(&mut self, samples: &[Sample]) -> usize
        requires room { length samples.now ≤ tuned_room self.old }
        ensures most { result ≤ length samples.now }
        ensures room { tuned_room self.new + result ≡ tuned_room self.old }
        ensures all { is_ahead self.new.hearer ≡ true → result ≡ length samples.now }
        ensures listens { (t : Tuning) (channel : TheChannel) (form : TheText)
            (heard : List TheSample) → ListensTuned t channel form self.old heard →
            ListensTuned t channel form self.new (heard ++ take result samples.now) }
        ensures silent { (t : Tuning) (channel : TheChannel) (form : TheText)
            (heard : List TheSample) → ListensTuned t channel form self.old heard →
            tuned_text form t channel (heard ++ take result samples.now)
            ≡ tuned_text form t channel heard }
    {
        let Hearer::Ahead { mobile, .. } = &mut self.hearer else {
            return 0;
        };
        let Reached { taken, mark } = step_to_mark(mobile, samples);
        if let Some(mark) = mark {
            replace_with(&mut self.hearer, mark, Hearer::opened);
        }
        taken
    }

    /// Passes samples to the receiver of the frames, if there is one, and writes the text of each
    /// frame that ends within them.
    fn write_frames<K: Sink>(&mut self, samples: &[Sample], sink: &mut K) -> Result<(), Failed>
        requires room { length samples.now ≤ tuned_room self.old }
        requires all { is_ahead self.old.hearer ≡ true → length samples.now ≡ 0 }
        ensures room { OnOk result (tuned_room self.new + length samples.now
            ≡ tuned_room self.old) }
        ensures ok { OnOk result ((t : Tuning) (channel : TheChannel) (form : TheText)
            (heard : List TheSample) → ListensTuned t channel form self.old heard →
            TellsTuned t channel form self.new heard (heard ++ samples.now)
            (K.written sink.old) (K.written sink.new)) }
        ensures err { OnErr result ((t : Tuning) (channel : TheChannel) (form : TheText)
            (heard : List TheSample) → ListensTuned t channel form self.old heard →
            TellsTunedPart t channel form heard (heard ++ samples.now)
            (K.written sink.old) (K.written sink.new)) }
        ensures cause { HasCause (K.faults sink.old) (K.faults sink.new) result }
    {
        match &mut self.hearer {
            Hearer::Ahead { .. } => Ok(()),
            Hearer::After { mark, tuner } => {
                hear_frames(tuner, mark, &mut self.writer, samples, sink)
            }
        }
    }
}
