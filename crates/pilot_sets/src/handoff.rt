//! The first step of a moment: a handoff direction takes effect.

ghost use Rattle.std.specs.Prelude.{◌≡◌, ◌<◌, ◌≤◌, ◌^◌, ◌+◌, length};
ghost use Rattle.pilot_sets.specs.Handoffs.{with_search as with_search_by, pilots_named, left};
ghost use Rattle.pilot_sets.specs.Handoffs.{candidates_without as candidates_left, all_left};
ghost use Rattle.pilot_sets.specs.Handoffs.{actives_without as actives_left, handed_off};
ghost use Rattle.pilot_sets.specs.Handoffs.{timer_of as timer_among, active_of as active_by};
ghost use Rattle.pilot_sets.specs.Handoffs.{subchannel_after as defined_subchannel_after};
ghost use Rattle.pilot_sets.specs.Handoffs.{actives_after as actives_by, fresh as fresh_candidate};

use crate::few::Few;
use crate::pilots::{has, without};
use crate::standing::{Accepted, ActivePilot, CandidatePilot, NamedPilot, PilotSets};
use crate::thresholds::Thresholds;
use crate::timers::is_expired;
use traffic_message::Search;

/// The pilots that a direction names.
fn named_pilots(named: &[NamedPilot]) -> Few<u16, 6>
    requires { length named.now ≤ 6 }
    ensures { result ≡ pilots_named named.now }
{
    let mut pilots = Few::empty();
    for n in named {
        pilots.push(n.pilot);
    }
    pilots
}

/// Returns the thresholds updated by those that a direction carries.
fn with_search(thresholds: Thresholds, search: Option<Search>) -> Thresholds
    ensures { result ≡ with_search_by search thresholds }
{
    match search {
        None => thresholds,
        Some(s) => Thresholds {
            win_a: s.wina,
            win_n: thresholds.win_n,
            t_add: s.tadd,
            t_drop: s.tdrop,
            t_comp: s.tcomp,
            t_tdrop: s.ttdrop,
        },
    }
}

/// The candidates that a direction doesn't name.
fn candidates_without(named: &[u16], candidates: &[CandidatePilot]) -> Few<CandidatePilot, 10>
    requires { length candidates.now ≤ 10 }
    ensures { result ≡ candidates_left named.now candidates.now }
{
    let mut others = Few::empty();
    for c in candidates {
        if !has(named, c.pilot) {
            others.push(*c);
        }
    }
    others
}

/// The active pilots that a direction doesn't name.
fn actives_without(named: &[u16], actives: &[ActivePilot]) -> Few<ActivePilot, 6>
    requires { length actives.now ≤ 6 }
    ensures { result ≡ actives_left named.now actives.now }
{
    let mut others = Few::empty();
    for a in actives {
        if !has(named, a.pilot) {
            others.push(*a);
        }
    }
    others
}

/// The timer of a pilot among active ones.
fn timer_of(actives: &[ActivePilot], pilot: u16) -> Option<u64>
    ensures { result ≡ timer_among actives.now pilot }
{
    for a in actives {
        if a.pilot == pilot {
            return a.timer;
        }
    }
    None
}

/// The active pilot that a named pilot becomes.
fn active_of(old: &[ActivePilot], subchannel: u8, named: &NamedPilot) -> ActivePilot
    ensures { result ≡ active_by old.now subchannel named.now }
{
    ActivePilot {
        pilot: named.pilot,
        row: named.row,
        subchannel,
        timer: timer_of(old, named.pilot),
    }
}

/// The power control subchannel after another.
fn subchannel_after(before: u8, combined: bool) -> u8
    requires { before < 255 }
    ensures value { result ≡ defined_subchannel_after before combined }
    ensures most { result ≤ before + 1 }
{
    if combined { before } else { before + 1 }
}

/// The active set that a direction orders.
fn actives_after(old: &[ActivePilot], named: &[NamedPilot]) -> Few<ActivePilot, 6>
    requires { length named.now ≤ 6 }
    ensures { result ≡ actives_by old.now 0 named.now }
{
    let mut actives = Few::empty();
    let mut subchannel = 0;
    for i in 0..named.len() {
        actives.push(active_of(old, subchannel, &named[i]));
        if i + 1 < named.len() {
            subchannel = subchannel_after(subchannel, named[i + 1].combined);
        }
    }
    actives
}

/// A candidate whose timer doesn't run.
pub(crate) fn fresh(pilot: u16) -> CandidatePilot
    ensures { result ≡ fresh_candidate pilot }
{
    CandidatePilot { pilot, timer: None }
}

/// Moves a leaving active pilot to the candidates or the neighbors, or drops it.
fn leave(sets: &mut PilotSets, time: u64, active: &ActivePilot)
    requires { time < 2 ^ 40 }
    ensures { sets.new ≡ left time active.now sets.old }
{
    let has_room = sets.candidates.all().len() < 10;
    if has_room && !is_expired(&sets.thresholds, time, active.timer) {
        sets.candidates.push(fresh(active.pilot));
    } else if sets.neighbors.all().len() < 20 {
        sets.neighbors.push(active.pilot);
    }
}

/// Moves or drops all leaving active pilots, one after another.
fn leave_all(sets: &mut PilotSets, time: u64, leaving: &[ActivePilot])
    requires { time < 2 ^ 40 }
    ensures { sets.new ≡ all_left time leaving.now sets.old }
{
    for a in leaving {
        leave(sets, time, a);
    }
}

/// Applies a direction.
pub(crate) fn hand_off(sets: &mut PilotSets, time: u64, direction: &Accepted)
    requires { time < 2 ^ 40 }
    ensures { sets.new ≡ handed_off time direction.now sets.old }
{
    let named = named_pilots(direction.named.all());
    let leaving = actives_without(named.all(), sets.active.all());
    let actives = actives_after(sets.active.all(), direction.named.all());
    sets.thresholds = with_search(sets.thresholds, direction.search);
    sets.candidates = candidates_without(named.all(), sets.candidates.all());
    sets.neighbors = without(named.all(), sets.neighbors.all());
    sets.waiting = None;
    leave_all(sets, time, leaving.all());
    sets.active = actives;
}
