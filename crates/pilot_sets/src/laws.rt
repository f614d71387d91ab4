//! Laws of the definitions: each function does nothing, and its contract is the law.

ghost use Rattle.pilot_sets.specs.Common.{DirectionFault as TheFault, Accepted as TheAccepted};
ghost use Rattle.pilot_sets.specs.Common.{PilotSets as TheSets};
ghost use Rattle.std.specs.Prelude.{◌≡◌, ◌≢◌, ◌<◌, ◌+◌, ◌⊎◌, ℕ, List, Some, None, true};
ghost use Rattle.std.specs.List.{All};
ghost use Rattle.pilot_sets.specs.Pilots.{has};
ghost use Rattle.pilot_sets.specs.PilotSets.{timed_pilots};
ghost use Rattle.pilot_sets.specs.Directions.{direction_fault, direction_time, accepted_of};
ghost use Rattle.pilot_sets.specs.Handoffs.{handed_off};
ghost use Rattle.pilot_sets.specs.Standing.{Standing, new_standing, directed, due_at, began_in};
ghost use Rattle.pilot_sets.specs.Histories.{Call, after_call, after_all, IsLawfulCall, AreApart};
ghost use Rattle.pilot_sets.specs.Histories.{LeavesWaiting, IsNextAt, RunsSince, Starts};
ghost use Rattle.traffic_message.specs.declared.fields.DirectionFields.{
  DirectionFields as TheDirection,
};

/// After any lawful calls on new sets, no pilot is in two sets or twice in one, at least one pilot
/// is active, and no list is longer than its limit.
pub fn sets_stay_apart()
    ensures { (pilot row : ℕ) (calls : List Call) →
        pilot < 512 →
        row < 64 →
        All IsLawfulCall calls →
        AreApart (after_all calls (new_standing pilot row)).sets }
{}

/// An accepted direction waits until its time through any calls, unless another is accepted; it
/// takes effect exactly at its time. A refused one changes nothing.
pub fn directions_wait_for_their_time()
    ensures accepted { (first : ℕ) (d : TheDirection) (s : Standing) →
        direction_fault d ≡ None →
        (directed first d s).sets.waiting ≡ Some (accepted_of first d) }
    ensures refused { (first : ℕ) (d : TheDirection) (fault : TheFault) (s : Standing) →
        direction_fault d ≡ Some fault →
        directed first d s ≡ s }
    ensures waits { (calls : List Call) (direction : TheAccepted) (s : Standing) →
        s.sets.waiting ≡ Some direction →
        All (LeavesWaiting direction) calls →
        (after_all calls s).sets.waiting ≡ Some direction }
    ensures not_before { (time : ℕ) (direction : TheAccepted) (s : Standing) →
        s.sets.waiting ≡ Some direction →
        time ≢ direction.time →
        due_at time s ≡ s }
    ensures at_its_time { (direction : TheAccepted) (s : Standing) →
        s.sets.waiting ≡ Some direction →
        due_at direction.time s
        ≡ record s {
          sets = handed_off direction.time direction s.sets;
          began = Some (began_in s);
        } }
{}

/// A direction without an action time takes effect one moment after `first`. One with an action
/// time takes effect at the earliest moment, from `first` on, whose time modulo 64 is the action
/// time.
pub fn directions_take_the_next_action_time()
    ensures at_once { (first : ℕ) (d : TheDirection) →
        d.use_time ≡ 0 →
        direction_time first d ≡ first + 1 }
    ensures next { (first : ℕ) (d : TheDirection) →
        d.use_time ≢ 0 →
        d.action < 64 →
        IsNextAt first d.action (direction_time first d) }
{}

/// A timer that runs after a call ran before it, or the call is a step and its time is the timer's
/// start. A pilot's timer runs only while the pilot is active or a candidate. So leaving both sets
/// ends it, and only a later step can start it again.
pub fn timers_run_in_their_sets()
    ensures keeps { (call : Call) (pilot start : ℕ) (s : Standing) →
        RunsSince pilot start (after_call call s).sets →
        RunsSince pilot start s.sets ⊎ Starts start call }
    ensures only { (pilot start : ℕ) (s : TheSets) →
        RunsSince pilot start s →
        has (timed_pilots s) pilot ≡ true }
{}
