//! Passes the events of a handset to taps, which write their text.

ghost use Rattle.cdma_io.specs.Outside.{AppendsPrefix, HasCause};
ghost use Rattle.event_tap.specs.Taps.{IsKept, KeptTap, run_taps};
ghost use Rattle.mobile_core.specs.Standing.{StandsFor, has_room};
ghost use Rattle.run_replies.specs.Common.{Sample as TheSample, Tuning, events};
ghost use Rattle.run_replies.specs.Handsets.{HandsetGave, TellsPilot};
ghost use Rattle.run_replies.specs.Hearing.{ByTaps, GainsPrefix, GainsText, told};
ghost use Rattle.std.specs.Prelude.{◌≡◌, ◌≤◌, ◌+◌, ◌++◌, List, [], length, All, OnErr, OnOk};

use cdma_io::{Failed, Sink};
use chip_core::Sample;
use event_tap::KeepsTaps;
use mobile_core::Mobile;

/// Passes the first event of a handset, its pilot, to the taps. [`Mobile::step`] returns all events
/// of a handset, including the pilot. The pilot ends at no sample, so a step without samples
/// returns it.
pub fn tell_pilot<T: KeepsTaps, K: Sink>(
    mobile: &mut Mobile,
    taps: &mut T,
    sink: &mut K,
) -> Result<(), Failed>
    requires { All IsKept (T.kept taps.old) }
    ensures room { has_room mobile.new ≡ has_room mobile.old }
    ensures kept { All IsKept (T.kept taps.new) }
    ensures ok { OnOk result ((t : Tuning) → StandsFor t mobile.old [] [] →
        TellsPilot t (T.kept taps.old) mobile.new (T.kept taps.new)
        (K.written sink.old) (K.written sink.new)) }
    ensures err { OnErr result ((t : Tuning) (samples : List TheSample) →
        StandsFor t mobile.old [] [] → AppendsPrefix (K.written sink.old) (K.written sink.new)
        (told (ByTaps t (T.kept taps.old)) samples)) }
    ensures cause { HasCause (K.faults sink.old) (K.faults sink.new) result }
{
    let step = mobile.step(&[]);
    let Some(event) = step.event else {
        return Ok(());
    };
    taps.tell(&event, sink)
}

/// Passes samples to a handset, and each of its events to the taps.
pub fn tell_events<T: KeepsTaps, K: Sink>(
    mobile: &mut Mobile,
    samples: &[Sample],
    taps: &mut T,
    sink: &mut K,
) -> Result<(), Failed>
    requires room { length samples.now ≤ has_room mobile.old }
    requires kept { All IsKept (T.kept taps.old) }
    ensures room { OnOk result (has_room mobile.new + length samples.now ≡ has_room mobile.old) }
    ensures kept { All IsKept (T.kept taps.new) }
    ensures ok { OnOk result ((t : Tuning) (first : List KeptTap) (heard : List TheSample) →
        StandsFor t mobile.old heard (events t heard) →
        T.kept taps.old ≡ run_taps first (events t heard) →
        GainsText (ByTaps t first) heard (heard ++ samples.now)
        (K.written sink.old) (K.written sink.new)
        × HandsetGave t first mobile.new (T.kept taps.new) (heard ++ samples.now)) }
    ensures err { OnErr result ((t : Tuning) (first : List KeptTap) (heard : List TheSample) →
        StandsFor t mobile.old heard (events t heard) →
        T.kept taps.old ≡ run_taps first (events t heard) →
        GainsPrefix (ByTaps t first) heard (heard ++ samples.now) (K.written sink.old)
        (K.written sink.new)) }
    ensures cause { HasCause (K.faults sink.old) (K.faults sink.new) result }
{
    let mut taken = 0;
    loop {
        let step = mobile.step(&samples[taken..]);
        taken += step.taken;
        let Some(event) = step.event else {
            return Ok(());
        };
        taps.tell(&event, sink)?;
    }
}
