//! The third step of a moment: timers start and stop, and pilots move between the candidates and
//! the neighbors.

ghost use Rattle.std.specs.Prelude.{◌≡◌, ◌<◌, ◌≤◌, ◌+◌, ◌^◌, ◌++◌, length, map, filter, take};
ghost use Rattle.pilot_sets.specs.Handoffs.{fresh as fresh_candidate};
ghost use Rattle.pilot_sets.specs.Moments.{energy_in, active_timed, candidate_timed, timed, stays};
ghost use Rattle.pilot_sets.specs.Moments.{pilots_going, expired_moved, rises, rising as rising_of};
ghost use Rattle.pilot_sets.specs.Moments.{risen, moving_up, measured};

use crate::few::Few;
use crate::handoff::fresh;
use crate::pilots::{has, without};
use crate::standing::{ActivePilot, CandidatePilot, PilotSets};
use crate::strengths::{Strength, energy_of};
use crate::thresholds::Thresholds;
use crate::timers::{is_expired, is_strong, timer_after};

/// The active set after its timers have been started or stopped.
fn time_actives(
    actives: &[ActivePilot],
    strengths: &[Strength],
    k: u8,
    power: u64,
    time: u64,
) -> Few<ActivePilot, 6>
    requires { length actives.now ≤ 6 }
    ensures { result ≡ map (active_timed (energy_in strengths.now) k power time) actives.now }
{
    let mut timed = Few::empty();
    for a in actives {
        let is_strong = is_strong(k, power, energy_of(strengths, a.pilot));
        timed.push(ActivePilot {
            pilot: a.pilot,
            row: a.row,
            subchannel: a.subchannel,
            timer: timer_after(is_strong, time, a.timer),
        });
    }
    timed
}

/// The candidate set after its timers have been started or stopped.
fn time_candidates(
    candidates: &[CandidatePilot],
    strengths: &[Strength],
    k: u8,
    power: u64,
    time: u64,
) -> Few<CandidatePilot, 10>
    requires { length candidates.now ≤ 10 }
    ensures { result ≡ map (candidate_timed (energy_in strengths.now) k power time) candidates.now }
{
    let mut timed = Few::empty();
    for c in candidates {
        let is_strong = is_strong(k, power, energy_of(strengths, c.pilot));
        timed.push(CandidatePilot {
            pilot: c.pilot,
            timer: timer_after(is_strong, time, c.timer),
        });
    }
    timed
}

/// Starts the timers of weak pilots and stops those of strong ones.
fn time_all(sets: &mut PilotSets, strengths: &[Strength], power: u64, time: u64)
    ensures { sets.new ≡ timed (energy_in strengths.now) power time sets.old }
{
    let k = sets.thresholds.t_drop;
    sets.active = time_actives(sets.active.all(), strengths, k, power, time);
    sets.candidates = time_candidates(sets.candidates.all(), strengths, k, power, time);
}

/// The candidates whose timer hasn't expired.
fn staying(
    candidates: &[CandidatePilot],
    thresholds: &Thresholds,
    time: u64,
) -> Few<CandidatePilot, 10>
    requires few { length candidates.now ≤ 10 }
    requires time { time < 2 ^ 40 }
    ensures { result ≡ filter (stays thresholds.now time) candidates.now }
{
    let mut staying = Few::empty();
    for c in candidates {
        if !is_expired(thresholds, time, c.timer) {
            staying.push(*c);
        }
    }
    staying
}

/// The pilots of the candidates whose timer has expired.
fn going(candidates: &[CandidatePilot], thresholds: &Thresholds, time: u64) -> Few<u16, 10>
    requires few { length candidates.now ≤ 10 }
    requires time { time < 2 ^ 40 }
    ensures { result ≡ pilots_going thresholds.now time candidates.now }
{
    let mut going = Few::empty();
    for c in candidates {
        if is_expired(thresholds, time, c.timer) {
            going.push(c.pilot);
        }
    }
    going
}

/// The neighbors followed by others, as long as there is room.
fn joined(neighbors: Few<u16, 20>, others: &[u16]) -> Few<u16, 20>
    ensures { result ≡ take 20 (neighbors ++ others.now) }
{
    let mut joined = neighbors;
    for p in others {
        joined.push_within(20, *p);
    }
    joined
}

/// Moves the candidates whose timer has expired to the neighbors, as long as there is room.
fn move_expired(sets: &mut PilotSets, time: u64)
    requires { time < 2 ^ 40 }
    ensures { sets.new ≡ expired_moved time sets.old }
{
    let going = going(sets.candidates.all(), &sets.thresholds, time);
    sets.neighbors = joined(sets.neighbors, going.all());
    sets.candidates = staying(sets.candidates.all(), &sets.thresholds, time);
}

/// The strong neighbors that were neighbors when the moment began, at most `room`.
fn strong_neighbors(
    neighbors: &[u16],
    began: &[u16],
    strengths: &[Strength],
    k: u8,
    power: u64,
    room: usize,
) -> Few<u16, 10>
    requires { room ≤ 10 }
    ensures value { result
        ≡ take room (filter (rises (energy_in strengths.now) k power began.now) neighbors.now) }
    ensures most { length result ≤ room }
{
    let mut strong = Few::empty();
    for p in neighbors {
        if has(began, *p) && is_strong(k, power, energy_of(strengths, *p)) {
            strong.push_within(room, *p);
        }
    }
    strong
}

/// The neighbors that move up.
fn rising(sets: &PilotSets, began: &[u16], strengths: &[Strength], power: u64) -> Few<u16, 10>
    ensures value { result ≡ rising_of (energy_in strengths.now) power began.now sets.now }
    ensures room { length sets.now.candidates + length result ≤ 10 }
{
    let room = 10 - sets.candidates.all().len();
    strong_neighbors(
        sets.neighbors.all(),
        began,
        strengths,
        sets.thresholds.t_add,
        power,
        room,
    )
}

/// The candidates followed by the neighbors that have moved up.
fn with_risen(candidates: Few<CandidatePilot, 10>, up: &[u16]) -> Few<CandidatePilot, 10>
    requires { length candidates + length up.now ≤ 10 }
    ensures { result ≡ candidates ++ map fresh_candidate up.now }
{
    let mut risen = candidates;
    for p in up {
        risen.push(fresh(*p));
    }
    risen
}

/// Moves neighbors up.
fn move_up(sets: &mut PilotSets, up: &[u16])
    requires { length sets.old.candidates + length up.now ≤ 10 }
    ensures { sets.new ≡ risen up.now sets.old }
{
    sets.candidates = with_risen(sets.candidates, up);
    sets.neighbors = without(up, sets.neighbors.all());
}

/// Performs the third step of a moment that began with the neighbors `began`. Timers start and
/// stop, candidates whose timer has expired become neighbors, and strong neighbors become
/// candidates. Returns the pilots that moved up.
pub(crate) fn move_pilots(
    sets: &mut PilotSets,
    began: &[u16],
    strengths: &[Strength],
    power: u64,
    time: u64,
) -> Few<u16, 10>
    requires { time < 2 ^ 40 }
    ensures sets { sets.new ≡ measured (energy_in strengths.now) power time began.now sets.old }
    ensures up { result ≡ moving_up (energy_in strengths.now) power time began.now sets.old }
{
    time_all(sets, strengths, power, time);
    move_expired(sets, time);
    let up = rising(sets, began, strengths, power);
    move_up(sets, up.all());
    up
}
