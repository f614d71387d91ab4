//! A handset up to the step that sets the mark.

ghost use Rattle.tuned_listener.specs.Common.{Sample as TheSample, IsSoundMark, has_room, Tuning};
ghost use Rattle.tuned_listener.specs.Common.{samples_taken, Mark as TheMark};
ghost use Rattle.std.specs.Prelude.{◌≡◌, ◌≤◌, ◌+◌, ◌++◌, List, length, take, None, is_some};
ghost use Rattle.std.specs.Option.{ForSome};
ghost use Rattle.tuned_listener.specs.Marking.{IsMarkedAt, IsUntold, ListensAhead};

use chip_core::Sample;
use mobile_core::{Mark, Mobile};

/// The progress of a handset.
#[derive(Clone, Copy)]
pub struct Reached {
    /// The number of samples that it took.
    pub taken: usize,
    /// The mark; `None` if none is set, in which case all samples were taken.
    pub mark: Option<Mark>,
}

/// Passes samples to a handset without a mark, up to the step that sets one, or all of them.
pub fn step_to_mark(mobile: &mut Mobile, samples: &[Sample]) -> Reached
    requires room { length samples.now ≤ has_room mobile.old }
    requires untold { IsUntold mobile.old }
    ensures most { result.taken ≤ length samples.now }
    ensures room { has_room mobile.new + result.taken ≡ has_room mobile.old }
    ensures all { result.mark ≡ None → result.taken ≡ length samples.now }
    ensures untold { result.mark ≡ None → IsUntold mobile.new }
    ensures sound { ForSome result.mark IsSoundMark }
    ensures early { ForSome result.mark (λ (m : TheMark). samples_taken mobile.new ≤ m.sample) }
    ensures none { result.mark ≡ None → (t : Tuning) (heard : List TheSample) →
        ListensAhead t mobile.old heard → ListensAhead t mobile.new (heard ++ samples.now) }
    ensures set { ForSome result.mark (λ (m : TheMark). (t : Tuning) (heard : List TheSample) →
        ListensAhead t mobile.old heard →
        IsMarkedAt t mobile.new m (heard ++ take result.taken samples.now)) }
{
    let mut taken = 0;
    loop {
        let step = mobile.step(&samples[taken..]);
        taken += step.taken;
        if step.event.is_none() {
            return Reached { taken, mark: None };
        }
        if let Some(mark) = mobile.mark() {
            return Reached {
                taken,
                mark: Some(mark),
            };
        }
    }
}
