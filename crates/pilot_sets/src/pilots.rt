//! Lists of pilots.

ghost use Rattle.std.specs.Prelude.{◌≡◌, ◌≤◌, ◌++◌, length};
ghost use Rattle.pilot_sets.specs.Pilots.{has as has_pilot, without as without_pilots};
ghost use Rattle.pilot_sets.specs.PilotSets.{pilots_of_actives, pilots_of_candidates};
ghost use Rattle.pilot_sets.specs.PilotSets.{timed_pilots as timed_pilots_of};

use crate::few::Few;
use crate::standing::{ActivePilot, CandidatePilot, PilotSets};

/// Whether a pilot is among others.
pub(crate) fn has(others: &[u16], pilot: u16) -> bool
    ensures { result ≡ has_pilot others.now pilot }
{
    others.iter().any(|other| pilot == *other)
}

/// The pilots that aren't among others.
pub(crate) fn without(others: &[u16], pilots: &[u16]) -> Few<u16, 20>
    requires { length pilots.now ≤ 20 }
    ensures { result ≡ without_pilots others.now pilots.now }
{
    let mut left = Few::empty();
    for p in pilots {
        if !has(others, *p) {
            left.push(*p);
        }
    }
    left
}

/// The pilots of the active set.
pub(crate) fn active_pilots(actives: &[ActivePilot]) -> Few<u16, 6>
    requires { length actives.now ≤ 6 }
    ensures value { result ≡ pilots_of_actives actives.now }
    ensures long { length result ≡ length actives.now }
{
    let mut pilots = Few::empty();
    for a in actives {
        pilots.push(a.pilot);
    }
    pilots
}

/// The pilots of the candidate set.
pub(crate) fn candidate_pilots(candidates: &[CandidatePilot]) -> Few<u16, 10>
    requires { length candidates.now ≤ 10 }
    ensures { result ≡ pilots_of_candidates candidates.now }
{
    let mut pilots = Few::empty();
    for c in candidates {
        pilots.push(c.pilot);
    }
    pilots
}

/// Whether a pilot is active or a candidate, so that it has a timer.
pub(crate) fn has_timer(sets: &PilotSets, pilot: u16) -> bool
    ensures { result ≡ has_pilot (timed_pilots_of sets.now) pilot }
{
    let actives = active_pilots(sets.active.all());
    let candidates = candidate_pilots(sets.candidates.all());
    has(actives.all(), pilot) || has(candidates.all(), pilot)
}
