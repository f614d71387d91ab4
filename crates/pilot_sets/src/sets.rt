//! The pilot sets.

ghost use Rattle.std.specs.Prelude.{◌≡◌, ◌<◌, ◌≤◌, ◌^◌, length, Some, None, slice_get, unwrap_or};
ghost use Rattle.std.specs.Prelude.{OnErr};
ghost use Rattle.std.specs.List.{All};
ghost use Rattle.std.specs.Result.{MatchResult};
ghost use Rattle.pilot_sets.specs.Tables.{search_window_chips as window_of};
ghost use Rattle.pilot_sets.specs.PilotSets.{pilots as pilots_of};
ghost use Rattle.pilot_sets.specs.PilotSets.{candidate_pilots as candidates_of};
ghost use Rattle.pilot_sets.specs.Directions.{direction_fault as fault_of_direction};
ghost use Rattle.pilot_sets.specs.Directions.{direction_time as time_of_direction};
ghost use Rattle.pilot_sets.specs.Handoffs.{is_for};
ghost use Rattle.pilot_sets.specs.Orderly.{IsOrderly, IsStanding};
ghost use Rattle.pilot_sets.specs.Standing.{new_standing, shown, window_number, with_thresholds};
ghost use Rattle.pilot_sets.specs.Standing.{with_neighbors, directed, due_at, stepped, change_at};
ghost use Rattle.pilot_sets.specs.Standing.{deltas_with, began_now as lists_of};
ghost use Rattle.pilot_sets.specs.declared.lists.Active.{Active as TheActive};
ghost use Rattle.pilot_sets.specs.declared.strengths.Strength.{Strength as TheStrength};

use crate::change::SetChange;
use crate::directing::{accept, direction_fault, direction_time};
use crate::fault::DirectionFault;
use crate::few::Few;
use crate::handoff::hand_off;
use crate::hearing::hear_neighbors;
use crate::lists::{ActiveList, PilotList, active_list};
use crate::moment::{began_now, is_changed, measure};
use crate::pilots::{active_pilots, candidate_pilots, has_timer};
use crate::standing::{ActivePilot, Began, PilotSets};
use crate::strengths::{Strength, Strengths};
use crate::tables::window_chips;
use crate::thresholds::Thresholds;
use chip_core::Numbers;
use std::marker::Model;
use traffic_message::HandoffDirection;

/// The pilot sets of a handset: the base stations that it receives or may receive.
///
/// The sets follow TIA/EIA-95-B, 6.6.6.2, as far as `docs/LINK.md` specifies. No pilot is in two
/// sets; the active set has 1 to 6 pilots, the candidate set at most 10, the neighbor set at most
/// 20. Pilots are offsets below 512. Times count moments of 80 ms, and are below 2^40.
///
/// Contracts see the sets with their timers, the thresholds, the waiting direction, and each
/// pilot's last delta. If a direction has taken effect since the last step, they also see the lists
/// when the moment began.
#[derive(Drop, Debug)]
pub struct Sets {
    sets: PilotSets,
    began: Option<Began>,
    deltas: [i16; 512],
}

impl Model for Sets {
    ghost use Rattle.pilot_sets.specs.Standing.{Standing};
    ghost use Rattle.pilot_sets.specs.Orderly.{IsStanding};

    ghost Value = { Standing };

    ghost view = { λ s. record { sets = s.sets; began = s.began; deltas = s.deltas } };

    ghost invariant = { λ s. IsStanding s.sets s.deltas };
}

/// The lists when the moment began.
fn began_in(began: Option<Began>, sets: &PilotSets) -> Began
    ensures { result ≡ unwrap_or began (lists_of sets.now) }
{
    match began {
        None => began_now(sets),
        Some(began) => began,
    }
}

/// Stores the measured deltas.
fn keep_deltas(deltas: &mut [i16; 512], strengths: &[Strength])
    requires { All (λ (s : TheStrength). s.pilot < 512) strengths.now }
    ensures { deltas.new ≡ deltas_with strengths.now deltas.old }
{
    for s in strengths {
        deltas[usize::from(s.pilot)] = s.delta;
    }
}

impl Sets {
    /// Makes the sets of a handset that receives one pilot's traffic channel on a row.
    pub fn new(pilot: u16, row: u8) -> Sets
        requires pilot { pilot < 512 }
        requires row { row < 64 }
        ensures { result ≡ new_standing pilot row }
    {
        let mut active = Few::empty();
        active.push(ActivePilot {
            pilot,
            row,
            subchannel: 0,
            timer: None,
        });
        Sets {
            sets: PilotSets {
                active,
                candidates: Few::empty(),
                neighbors: Few::empty(),
                thresholds: Thresholds {
                    win_a: 5,
                    win_n: 7,
                    t_add: 28,
                    t_drop: 32,
                    t_comp: 5,
                    t_tdrop: 3,
                },
                waiting: None,
            },
            began: None,
            deltas: [0; 512],
        }
    }

    /// The active set.
    pub fn active(&self) -> ActiveList
        ensures value { result ≡ shown self.now }
        ensures some { 1 ≤ length result }
        ensures rows { All (λ (a : TheActive). a.row < 64) result }
        ensures subchannels { All (λ (a : TheActive). a.subchannel < 6) result }
        ensures apart { IsStanding self.now.sets self.now.deltas }
    {
        active_list(self.sets.active.all())
    }

    /// The pilots of the candidate set.
    pub fn candidate(&self) -> PilotList
        ensures { result ≡ candidates_of self.now.sets }
    {
        let mut list = PilotList::empty();
        list.add(candidate_pilots(self.sets.candidates.all()).all());
        list
    }

    /// The pilots that are measured, in order: the active ones, the candidates, the neighbors.
    pub fn pilots(&self) -> PilotList
        ensures value { result ≡ pilots_of self.now.sets }
        ensures offsets { All (λ p. p < 512) result }
    {
        let mut list = PilotList::empty();
        list.add(active_pilots(self.sets.active.all()).all());
        list.add(candidate_pilots(self.sets.candidates.all()).all());
        list.add(self.sets.neighbors.all());
        list
    }

    /// The width of a pilot's search window, in chips.
    pub fn window(&self, pilot: u16) -> u16
        ensures { result ≡ window_of (window_number self.now.sets pilot) }
    {
        if has_timer(&self.sets, pilot) {
            window_chips(self.sets.thresholds.win_a)
        } else {
            window_chips(self.sets.thresholds.win_n)
        }
    }

    /// The delta of a pilot at the last step that measured it, in chips; 0 if none did.
    pub fn delta(&self, pilot: u16) -> i16
        requires { pilot < 512 }
        ensures { slice_get self.now.deltas pilot ≡ Some result }
    {
        self.deltas[usize::from(pilot)]
    }

    /// Replaces the thresholds with those of a message.
    pub fn parameters(&mut self, p: &Thresholds)
        ensures { self.new ≡ with_thresholds p.now self.old }
    {
        self.sets.thresholds = *p;
    }

    /// Replaces the neighbors with the first 20 distinct pilots of a message that are neither
    /// active nor candidates.
    pub fn neighbors(&mut self, pilots: &Numbers)
        requires { All (λ p. p < 512) pilots.now }
        ensures { self.new ≡ with_neighbors pilots.now self.old }
    {
        hear_neighbors(&mut self.sets, pilots);
    }

    /// Accepts a handoff direction. `first` is the time of the first moment at or after the end of
    /// its message. Returns the time at which the direction takes effect, unless another replaces
    /// it.
    ///
    /// If it has faults, returns the first of `TooMany`, `Unknown` and `Twice` and changes nothing.
    pub fn direct(&mut self, d: &HandoffDirection, first: u64) -> Result<u64, DirectionFault>
        requires { first < 2 ^ 40 }
        ensures answer { MatchResult result
            (λ time. (fault_of_direction d.now ≡ None) × (time ≡ time_of_direction first d.now))
            (λ fault. fault_of_direction d.now ≡ Some fault) }
        ensures sets { self.new ≡ directed first d.now self.old }
        ensures err { OnErr result (self.new ≡ self.old) }
    {
        let fields = d.fields();
        if let Some(fault) = direction_fault(&fields) {
            return Err(fault);
        }
        self.sets.waiting = Some(accept(first, &fields));
        Ok(direction_time(first, &fields))
    }

    /// Applies the direction that waits for this time. Returns whether there was one; if not,
    /// nothing changes.
    pub fn due(&mut self, time: u64) -> bool
        requires { time < 2 ^ 40 }
        ensures taken { result ≡ is_for time self.old.sets.waiting }
        ensures sets { self.new ≡ due_at time self.old }
    {
        let Some(direction) = self.sets.waiting else {
            return false;
        };
        if direction.time != time {
            return false;
        }
        self.began = Some(began_in(self.began, &self.sets));
        hand_off(&mut self.sets, time, &direction);
        true
    }

    /// Performs a moment after the direction for its time has taken effect: timers start, stop and
    /// run out, candidates become neighbors, neighbors become candidates, and a report may be due.
    /// A pilot's energy is that of its first strength, or 0 if it has none.
    pub fn step(&mut self, strengths: &Strengths, power: u64, time: u64) -> SetChange
        requires time { time < 2 ^ 40 }
        requires pilots { All (λ (s : TheStrength). s.pilot < 512) strengths.now }
        ensures change { result ≡ change_at strengths.now power time self.old }
        ensures sets { self.new ≡ stepped strengths.now power time self.old }
    {
        let began = began_in(self.began, &self.sets);
        self.began = None;
        keep_deltas(&mut self.deltas, strengths.all());
        let report = measure(
            &mut self.sets,
            began.neighbors.all(),
            strengths.all(),
            power,
            time,
        );
        let changed = is_changed(&began, &self.sets);
        SetChange { changed, report }
    }
}
