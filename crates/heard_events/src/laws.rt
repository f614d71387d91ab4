//! Laws of the definitions: each function does nothing, and its contract is the law.

ghost use Rattle.heard_events.specs.Common.{Sample, decoded, frame_start, Mark, Traffic};
ghost use Rattle.std.specs.Prelude.{◌≡◌, ◌≤◌, ℕ, List, length, take, Some};
ghost use Rattle.heard_events.specs.Channels.{channel_stream};
ghost use Rattle.heard_events.specs.Events.{events_within};
ghost use Rattle.rake_finger.specs.FrameSamples.{AgreeIn};
ghost use Rattle.heard_events.specs.FramesAlone.{reference_alone, traffic_channel};
ghost use Rattle.heard_events.specs.Marks.{mark};
ghost use Rattle.heard_events.specs.Near.{IsTuned};
ghost use Rattle.heard_events.specs.SoftFrames.{frames_within, soft_frame};
ghost use Rattle.heard_events.specs.TrafficEvents.{power_bits_at, decoded_at};
ghost use Rattle.heard_events.specs.TrafficStreams.{replaced_in};
ghost use Rattle.heard_events.specs.Tuning.{Tuning};
ghost use Rattle.heard_events.specs.declared.channel.CodeChannel.{CodeChannel};

/// What a handset has received by a sample doesn't depend on later samples: the events that end
/// within the first n samples, and the mark that they set, are the same for all files with these
/// first n samples.
pub fn later_samples_change_nothing()
    ensures events { (t : Tuning) (one other : List Sample) (n : ℕ) → IsTuned t →
        n ≤ length one → n ≤ length other → take n one ≡ take n other →
        events_within t one n ≡ events_within t other n }
    ensures mark { (t : Tuning) (one other : List Sample) (n : ℕ) → IsTuned t →
        n ≤ length one → n ≤ length other → take n one ≡ take n other →
        mark t one n ≡ mark t other n }
{}

/// The frames of a channel that are received by a sample don't depend on later samples: those that
/// end within the first n samples are the same, soft value by soft value, for all files with these
/// first n samples.
pub fn later_samples_change_no_frame()
    ensures { (t : Tuning) (channel : CodeChannel) (m : Mark) (one other : List Sample) (n : ℕ) →
        n ≤ length one → n ≤ length other → take n one ≡ take n other →
        frames_within t channel m one n ≡ frames_within t channel m other n }
{}

/// A received frame depends only on its fingers' samples: for one tuning it is the same for all
/// files that agree in these, whatever comes before and after.
pub fn a_frame_hangs_on_its_samples()
    ensures { (t : Tuning) (channel : CodeChannel) (m : Mark) (one other : List Sample) (k : ℕ) →
        AgreeIn one other (channel_stream t channel m).form
        (frame_start (channel_stream t channel m) k) (channel_stream t channel m).fingers →
        soft_frame t channel m one k ≡ soft_frame t channel m other k }
{}

/// A received frame of a traffic channel is what a handset reports of it while only the reference's
/// pilot is active: it is decoded from the descrambled soft values, and its power control bits come
/// from the soft values without descrambling.
pub fn a_frame_is_heard_of_the_reference_alone()
    ensures decoded { (t : Tuning) (traffic : Traffic) (m : Mark) (samples : List Sample)
        (k : ℕ) → decoded_at t traffic m (reference_alone traffic m) samples k
        ≡ decoded (replaced_in traffic m k)
        (soft_frame t (traffic_channel traffic) m samples k).descrambled }
    ensures power_bits { (t : Tuning) (traffic : Traffic) (m : Mark) (samples : List Sample)
        (k : ℕ) → Some (record {
          replaced = replaced_in traffic m k;
          power_bits = power_bits_at t traffic m (reference_alone traffic m) samples k;
        }) ≡ (soft_frame t (traffic_channel traffic) m samples k).power }
{}
