//! The frames of a channel after the mark, as the reference base station's paths receive them.

ghost use Rattle.tuned_listener.specs.Common.{IsSoundMark, after};
ghost use Rattle.std.specs.Prelude.{◌≡◌, ◌<◌, ◌*◌, ◌^◌, ℕ};
ghost use Rattle.heard_events.specs.Channels.{IsLawful, mask_of, state_at};

use chip_core::Phase;
use frame_decoder::{FrameSofts, PowerSofts, commands};
use heard_events::{CodeChannel, Mark, PowerControl, SoftFrame};
use mobile_core::{paging_scrambling, traffic_scrambling};
use pilot_search::Near;
use rake_finger::SampleRing;
use reception::{FrameReceiver, Scrambling, reference_fingers};
use short_code::Codes;
use symbol_path::power_places;

/// Returns the scrambling of a channel whose frame 0 begins at the channel's offset after the mark.
fn scrambling_of(channel: &CodeChannel, mark: &Mark) -> Scrambling
    requires lawful { IsLawful channel.now }
    requires mark { IsSoundMark mark.now }
    ensures state { (k : ℕ) → after result.state (24576 * k) ≡ state_at channel.now mark.now k }
    ensures mask { result.mask ≡ mask_of channel.now mark.now }
    ensures below { result.mask < 2 ^ 42 }
{
    match channel {
        CodeChannel::Paging(number) => paging_scrambling(*number, mark),
        CodeChannel::Traffic(traffic) => traffic_scrambling(traffic, mark),
    }
}

/// The receiver of a channel's frames after the mark, on the paths of the reference base station.
#[derive(Drop)]
pub(crate) struct ChannelReceiver {
    frames: FrameReceiver,
    /// Whether the channel has power control bits.
    power: bool,
}

impl ChannelReceiver {
    ghost use Rattle.std.specs.Prelude.{◌≡◌, ◌<◌, ◌≤◌, ◌^◌, ℕ, List};
    ghost use Rattle.std.specs.Prelude.{Some, pos, slice_get, sum_by, take, unsigned_abs};
    ghost use Rattle.chip_core.specs.declared.sample.Sample.{Sample};
    ghost use Rattle.heard_events.specs.Channels.{IsLawful};
    ghost use Rattle.heard_events.specs.SoftFrames.{power_of, soft_frame};
    ghost use Rattle.heard_events.specs.Tuning.{Tuning};
    ghost use Rattle.heard_events.specs.declared.channel.CodeChannel.{CodeChannel as TheChannel};
    ghost use Rattle.heard_events.specs.declared.mark.Mark.{Mark as TheMark};
    ghost use Rattle.tuned_listener.specs.FrameReceiving.{HasGiven, IsSoundChannelReceiver};
    ghost use Rattle.tuned_listener.specs.FrameReceiving.{frame_passed};
    ghost use Rattle.heard_events.specs.SoundMarks.{IsSoundMark};
    ghost use Rattle.rake_finger.specs.Held.{HoldsLast};
    ghost use Rattle.reception.specs.Softs.{frame_most};

    /// Opens the receiver of a channel, before any frame ends, for the base station at `phase` and
    /// the paths `near` it.
    pub(crate) fn open(
        mark: &Mark,
        channel: &CodeChannel,
        phase: Phase,
        near: &Near,
    ) -> ChannelReceiver
        requires mark { IsSoundMark mark.now }
        requires lawful { IsLawful channel.now }
        requires least { 1 ≤ near.now.count }
        requires most { near.now.count ≤ 3 }
        requires first { slice_get near.now.deltas 0 ≡ Some (pos 0) }
        ensures begins { mark.now.sample < result.frames.clock.end }
        ensures first { result.frames.clock.next ≡ result.frames.clock.low }
        ensures sound { IsSoundChannelReceiver result }
        ensures given { (t : Tuning) (taken : ℕ) → t.phase ≡ phase →
            t.deltas ≡ take near.now.count near.now.deltas → taken ≤ t.count →
            taken ≤ mark.now.sample → HasGiven t channel.now mark.now result taken }
    {
        let fingers = reference_fingers(channel.row(), phase, near);
        let scrambling = scrambling_of(channel, mark);
        let first = mark.sample + channel.offset();
        let frames = FrameReceiver::new(fingers, scrambling, first);
        ChannelReceiver {
            frames,
            power: channel.has_power_control(),
        }
    }

    /// Returns how many samples have been taken when the next frame ends.
    pub(crate) fn end(&self) -> u64
        ensures { result ≡ self.now.frames.clock.end }
    {
        self.frames.clock.end
    }

    /// Returns the power control bits of a frame, from its soft values before descrambling.
    fn power_in(&self, frame: u64, raw: &FrameSofts) -> Option<PowerControl>
        requires mask { self.now.frames.scrambling.mask < 2 ^ 42 }
        requires frame { frame < 2 ^ 32 }
        requires small { sum_by unsigned_abs raw.now ≤ 2 ^ 62 }
        ensures { (t : Tuning) (channel : TheChannel) (m : TheMark) (taken : ℕ) →
            HasGiven t channel m self.now taken →
            result ≡ power_of channel m frame raw.now }
    {
        if !self.power {
            return None;
        }
        let scrambling = self.frames.scrambling;
        let replaced = power_places(&scrambling.state_at(frame), scrambling.mask);
        let mut sums = PowerSofts::empty();
        sums.push(raw, &replaced);
        Some(PowerControl {
            replaced,
            power_bits: commands(&sums),
        })
    }

    /// Returns the frame whose last sample has just been taken.
    fn coming(&self, ring: &SampleRing, codes: &Codes) -> SoftFrame
        requires sound { IsSoundChannelReceiver self.now }
        requires room { ring.now.room ≡ 65536 }
        requires ended { ring.now.taken ≡ self.now.frames.clock.end }
        ensures value { (t : Tuning) (channel : TheChannel) (m : TheMark) (heard : List Sample)
            (taken : ℕ) → HoldsLast ring.now heard → HasGiven t channel m self.now taken →
            result ≡ soft_frame t channel m heard self.now.frames.clock.have }
        ensures ends { result.end ≡ ring.now.taken }
        ensures small { sum_by unsigned_abs result.descrambled ≤ frame_most }
    {
        let number = self.frames.clock.have;
        let mut softs = self.frames.raw(ring, codes);
        let power = self.power_in(number, &softs);
        self.frames.descramble(number, &mut softs);
        SoftFrame {
            number,
            end: self.frames.clock.end,
            descrambled: softs,
            power,
        }
    }

    /// Returns the frame whose last sample has just been taken, and proceeds to the next frame.
    pub(crate) fn take_frame(&mut self, ring: &SampleRing, codes: &Codes) -> SoftFrame
        requires sound { IsSoundChannelReceiver self.old }
        requires room { ring.now.room ≡ 65536 }
        requires few { ring.now.taken ≤ 67108864 }
        requires ended { ring.now.taken ≡ self.old.frames.clock.end }
        ensures value { (t : Tuning) (channel : TheChannel) (m : TheMark) (heard : List Sample)
            (taken : ℕ) → HoldsLast ring.now heard → HasGiven t channel m self.old taken →
            result ≡ soft_frame t channel m heard self.old.frames.clock.have }
        ensures ends { result.end ≡ ring.now.taken }
        ensures small { sum_by unsigned_abs result.descrambled ≤ frame_most }
        ensures same { self.new ≡ frame_passed self.old }
        ensures waits { ring.now.taken < self.new.frames.clock.end }
        ensures sound { IsSoundChannelReceiver self.new }
    {
        let frame = self.coming(ring, codes);
        self.frames.advance();
        self.frames.hear();
        frame
    }
}
