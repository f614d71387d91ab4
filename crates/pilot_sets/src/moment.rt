//! A moment, the evaluation of the pilot sets: its steps after the direction for its time has taken
//! effect, and whether the lists have changed.

ghost use Rattle.std.specs.Prelude.{◌≡◌, ◌<◌, ◌≤◌, ◌^◌, length, nat_eq};
ghost use Rattle.std.specs.Cmp.Lexicographic.{pointwise};
ghost use Rattle.pilot_sets.specs.PilotSets.{pilots_of_candidates};
ghost use Rattle.pilot_sets.specs.Moments.{energy_in, measured, is_reported};
ghost use Rattle.pilot_sets.specs.Standing.{began_now as lists_of, is_same_active as is_same_by};
ghost use Rattle.pilot_sets.specs.Standing.{is_changed as is_changed_by};

use crate::moves::move_pilots;
use crate::pilots::candidate_pilots;
use crate::reports::is_report_due;
use crate::standing::{ActivePilot, Began, CandidatePilot, PilotSets};
use crate::strengths::Strength;

/// Returns the current lists.
pub(crate) fn began_now(sets: &PilotSets) -> Began
    ensures { result ≡ lists_of sets.now }
{
    Began {
        active: sets.active,
        candidates: sets.candidates,
        neighbors: sets.neighbors,
    }
}

/// Performs the third and fourth step of a moment that began with the neighbors `began`. Returns
/// whether a report is due.
pub(crate) fn measure(
    sets: &mut PilotSets,
    began: &[u16],
    strengths: &[Strength],
    power: u64,
    time: u64,
) -> bool
    requires { time < 2 ^ 40 }
    ensures sets { sets.new ≡ measured (energy_in strengths.now) power time began.now sets.old }
    ensures report { result
        ≡ is_reported (energy_in strengths.now) power time began.now sets.old }
{
    let up = move_pilots(sets, began, strengths, power, time);
    is_report_due(sets, up.all(), strengths, time)
}

/// Whether two active pilots have the same offset, row and subchannel.
fn is_same_active(one: &ActivePilot, other: &ActivePilot) -> bool
    ensures { result ≡ is_same_by one.now other.now }
{
    one.pilot == other.pilot && one.row == other.row && one.subchannel == other.subchannel
}

/// Whether two active sets are equal, apart from timers.
fn are_same_actives(one: &[ActivePilot], other: &[ActivePilot]) -> bool
    ensures { result ≡ pointwise is_same_by one.now other.now }
{
    if one.len() != other.len() {
        return false;
    }
    for (i, a) in one.iter().enumerate() {
        if !is_same_active(a, &other[i]) {
            return false;
        }
    }
    true
}

/// Whether two candidate sets are equal, apart from timers.
fn are_same_candidates(one: &[CandidatePilot], other: &[CandidatePilot]) -> bool
    requires one { length one.now ≤ 10 }
    requires other { length other.now ≤ 10 }
    ensures { result
        ≡ pointwise nat_eq (pilots_of_candidates one.now) (pilots_of_candidates other.now) }
{
    let pilots = candidate_pilots(one);
    let others = candidate_pilots(other);
    pilots.all() == others.all()
}

/// Whether the active or the candidate list differs from that in `old`, apart from timers.
pub(crate) fn is_changed(old: &Began, sets: &PilotSets) -> bool
    ensures { result ≡ is_changed_by old.now sets.now }
{
    !(are_same_actives(old.active.all(), sets.active.all())
        && are_same_candidates(old.candidates.all(), sets.candidates.all()))
}
