//! The frames of one channel, from the mark on, before they are decoded.

ghost use Rattle.tuned_listener.specs.FrameReceiving.{IsSoundTuner};

use crate::channel_receiver::ChannelReceiver;
use chip_core::{Phase, Sample};
use heard_events::{CodeChannel, Mark, SoftFrame};
use pilot_search::Near;
use rake_finger::SampleRing;
use short_code::Codes;

/// The number of samples that a step took, and the frame that ends with them.
#[derive(Clone, Copy)]
pub struct TunerStep {
    /// The number of samples taken.
    pub taken: usize,
    /// The frame that ends with the last sample taken; `None` if all samples were taken and no
    /// frame ends within them.
    pub frame: Option<SoftFrame>,
}

/// The receiver of the frames of one channel of the reference base station, from the mark on. It
/// takes the samples of a file in pieces of any size and returns each frame when its last sample
/// has been taken.
///
/// It doesn't decode the frames. Those of a paging channel and of a traffic channel have 384
/// symbols each, whatever the rate (TIA/EIA-95-B, 7.1.3.4 and 7.1.3.5).
#[derive(Drop)]
pub struct Tuner {
    /// The number of samples in the file.
    count: u64,
    /// The last samples.
    ring: SampleRing,
    codes: Codes,
    receiver: ChannelReceiver,
    ghost sound: { IsSoundTuner count ring receiver },
}

impl Tuner {
    ghost use Rattle.std.specs.Prelude.{◌≡◌, ◌≤◌, ◌-◌, List, [], length};
    ghost use Rattle.std.specs.Prelude.{Some, pos, slice_get, take};
    ghost use Rattle.chip_core.specs.declared.sample.Sample.{Sample};
    ghost use Rattle.heard_events.specs.Channels.{IsLawful};
    ghost use Rattle.heard_events.specs.SoftFrames.{soft_frames};
    ghost use Rattle.heard_events.specs.SoundMarks.{IsSoundMark};
    ghost use Rattle.tuned_listener.specs.Tuners.{IsTunedTo, IsTunerStep, samples_left};
    ghost use Rattle.heard_events.specs.Tuning.{Tuning};
    ghost use Rattle.rake_finger.specs.Held.{HoldsLast};

    /// Makes the receiver of a channel after a mark in a file of `count` samples, given the phase
    /// of the base station and the paths near it.
    ///
    /// The ring has room for 65,536 samples and has taken the first samples of the file, at most up
    /// to the mark; the receiver takes those after them. Allocates nothing.
    pub fn open(
        count: u64,
        ring: SampleRing,
        codes: Codes,
        mark: &Mark,
        channel: &CodeChannel,
        phase: Phase,
        near: &Near,
    ) -> Tuner
        requires count { count ≤ 67108864 }
        requires within { ring.taken ≤ count }
        requires room { ring.room ≡ 65536 }
        requires mark { IsSoundMark mark.now }
        requires early { ring.taken ≤ mark.now.sample }
        requires lawful { IsLawful channel.now }
        requires least { 1 ≤ near.now.count }
        requires most { near.now.count ≤ 3 }
        requires first { slice_get near.now.deltas 0 ≡ Some (pos 0) }
        ensures left { samples_left result ≡ count - ring.taken }
        ensures tuned { (t : Tuning) (heard : List Sample) → t.count ≡ count → t.phase ≡ phase →
            t.deltas ≡ take near.now.count near.now.deltas → HoldsLast ring heard →
            IsTunedTo t channel.now mark.now result heard }
        ensures none { (t : Tuning) (heard : List Sample) → t.count ≡ count → t.phase ≡ phase →
            t.deltas ≡ take near.now.count near.now.deltas → HoldsLast ring heard →
            soft_frames t channel.now mark.now heard ≡ [] }
    {
        let receiver = ChannelReceiver::open(mark, channel, phase, near);
        Tuner {
            count,
            ring,
            codes,
            receiver,
        }
    }

    /// Takes samples up to the end of the next frame, or all of them.
    ///
    /// `samples` are the next ones of the file. If the step returns a frame, it took exactly the
    /// samples up to the frame's end, and the caller passes the rest again.
    pub fn step(&mut self, samples: &[Sample]) -> TunerStep
        requires { length samples.now ≤ samples_left self.old }
        ensures { IsTunerStep self.old self.new samples.now result }
    {
        let left = self.receiver.end() - self.ring.taken();
        if (samples.len() as u64) < left {
            self.ring.push_all(samples);
            return TunerStep {
                taken: samples.len(),
                frame: None,
            };
        }
        let taken = left as usize;
        self.ring.push_all(&samples[..taken]);
        let Tuner {
            ring,
            codes,
            receiver,
            ..
        } = self;
        TunerStep {
            taken,
            frame: Some(receiver.take_frame(ring, codes)),
        }
    }
}
