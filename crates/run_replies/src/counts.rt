//! The number of events that a trial's handset returned.

ghost use Rattle.std.specs.Prelude.{◌≡◌, ◌≤◌, ◌+◌, ◌^◌, ◌++◌, List, [], length};
ghost use Rattle.mobile_core.specs.Standing.{StandsFor, has_room, steps_left};
ghost use Rattle.run_replies.specs.Common.{Event as TheEvent, Sample as TheSample, Tuning, events};
ghost use Rattle.run_replies.specs.Trials.{LeavesRoom, counts_of, counts_with, summary};

use chip_core::Sample;
use event_tap::Text;
use heard_events::Event;
use mobile_core::Mobile;

/// The number of events of each kind that a handset returned.
#[derive(Clone, Copy)]
pub struct Counts {
    /// Messages of the sync channel.
    pub syncs: u64,
    /// Messages of the paging channel.
    pub pagings: u64,
    /// Frames of the traffic channel.
    pub frames: u64,
    /// Good frames of the traffic channel.
    pub good: u64,
}

impl Counts {
    /// Returns counts of 0.
    #[tactic(auto, unfolding(crate::specs::Trials::counts_of))]
    pub fn none() -> Counts
        ensures value { result ≡ counts_of [] }
        ensures room { LeavesRoom result (2 ^ 63) }
    {
        Counts {
            syncs: 0,
            pagings: 0,
            frames: 0,
            good: 0,
        }
    }

    /// Counts another event.
    pub fn add(&mut self, event: &Event)
        requires { LeavesRoom self.old 1 }
        ensures { self.new ≡ counts_with self.old event.now }
    {
        match event {
            Event::Sync { .. } => self.syncs += 1,
            Event::Paging { .. } => self.pagings += 1,
            Event::Frame { good, .. } => {
                self.frames += 1;
                self.good += u64::from(*good);
            }
            _ => {}
        }
    }
    /// Returns the line of a trial that counted these events in a link of `samples` samples.
    #[tactic(auto, unfolding(crate::specs::Trials::summary))]
    pub fn summary(&self, number: u64, samples: u64, phase: u16) -> Text
        ensures { result ≡ summary number samples phase self.now }
    {
        let mut line = Text::empty();
        line.append_named("trial number=", number);
        line.append_named(" samples=", samples);
        line.append_named(" phase=", phase);
        line.append_named(" syncs=", self.syncs);
        line.append_named(" pagings=", self.pagings);
        line.append_named(" frames=", self.frames);
        line.append_named(" good=", self.good);
        line.append_str("\n");
        line
    }
}

/// Passes samples to a handset and counts its events.
pub fn count_events(mobile: &mut Mobile, samples: &[Sample], counts: &mut Counts)
    requires room { length samples.now ≤ has_room mobile.old }
    requires few { LeavesRoom counts.old (steps_left mobile.old) }
    ensures room { has_room mobile.new + length samples.now ≡ has_room mobile.old }
    ensures few { LeavesRoom counts.new (steps_left mobile.new) }
    ensures told { (t : Tuning) (heard : List TheSample) (given : List TheEvent) →
        StandsFor t mobile.old heard given → counts.old ≡ counts_of given →
        StandsFor t mobile.new (heard ++ samples.now) (events t (heard ++ samples.now)) ×
        (counts.new ≡ counts_of (events t (heard ++ samples.now))) }
{
    let mut taken = 0;
    loop {
        let step = mobile.step(&samples[taken..]);
        taken += step.taken;
        let Some(event) = step.event else {
            return;
        };
        counts.add(&event);
    }
}
