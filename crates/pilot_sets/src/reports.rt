//! The fourth step of a moment: whether a report is due.

ghost use Rattle.pilot_sets.specs.Common.{ActivePilot as TheActive};
ghost use Rattle.std.specs.Prelude.{◌≡◌, ◌<◌, ◌^◌};
ghost use Rattle.std.specs.List.{list_any};
ghost use Rattle.pilot_sets.specs.Timers.{is_expired as is_expired_by};
ghost use Rattle.pilot_sets.specs.Moments.{energy_in, is_above as is_above_by};
ghost use Rattle.pilot_sets.specs.Moments.{has_above as has_above_by, is_report_due as is_due_by};
ghost use Rattle.pilot_sets.specs.Moments.{has_expired as has_expired_by};

use crate::pilots::{active_pilots, candidate_pilots};
use crate::standing::{ActivePilot, PilotSets};
use crate::strengths::{Strength, energy_of};
use crate::thresholds::Thresholds;
use crate::timers::{is_expired, millionths, part_of};

/// Whether a candidate is above some active pilot by `k` half decibels.
fn is_above(actives: &[u16], strengths: &[Strength], k: u8, candidate: u16) -> bool
    ensures { result ≡ is_above_by (energy_in strengths.now) k actives.now candidate }
{
    let part = part_of(k, energy_of(strengths, candidate));
    for a in actives {
        if millionths(energy_of(strengths, *a)) < part {
            return true;
        }
    }
    false
}

/// Whether one of the candidates is above some active pilot by `k` half decibels.
fn are_above(actives: &[u16], strengths: &[Strength], k: u8, candidates: &[u16]) -> bool
    ensures { result
        ≡ list_any (is_above_by (energy_in strengths.now) k actives.now) candidates.now }
{
    for c in candidates {
        if is_above(actives, strengths, k, *c) {
            return true;
        }
    }
    false
}

/// Whether a candidate is far enough above an active pilot to be reported.
fn has_above(sets: &PilotSets, strengths: &[Strength]) -> bool
    ensures { result ≡ has_above_by (energy_in strengths.now) sets.now }
{
    let actives = active_pilots(sets.active.all());
    let candidates = candidate_pilots(sets.candidates.all());
    are_above(
        actives.all(),
        strengths,
        sets.thresholds.t_comp,
        candidates.all(),
    )
}

/// Whether the timer of an active pilot has expired.
fn has_expired(actives: &[ActivePilot], thresholds: &Thresholds, time: u64) -> bool
    requires { time < 2 ^ 40 }
    ensures { result
        ≡ list_any (λ (a : TheActive). is_expired_by thresholds.now time a.timer) actives.now }
{
    for a in actives {
        if is_expired(thresholds, time, a.timer) {
            return true;
        }
    }
    false
}

/// Whether a report is due after the pilots `up` have moved up.
pub(crate) fn is_report_due(sets: &PilotSets, up: &[u16], strengths: &[Strength], time: u64) -> bool
    requires { time < 2 ^ 40 }
    ensures { result ≡ is_due_by (energy_in strengths.now) time up.now sets.now }
{
    !up.is_empty()
        || has_expired(sets.active.all(), &sets.thresholds, time)
        || has_above(sets, strengths)
}
