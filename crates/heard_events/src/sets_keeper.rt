//! The pilot sets that a handset keeps.

use crate::event::Event;
use crate::leg::Leg;
use crate::legs::Legs;
use crate::mark::Mark;
use crate::measuring::{measure, pilot_phase};
use crate::sets_notes::note_event;
use chip_core::air::SUPERFRAME_CHIPS;
use pilot_sets::{Active, SetChange, Sets};
use rake_finger::{Finger, SampleRing, power};
use short_code::Codes;

/// The pilot sets of a handset that follows a traffic channel, from the mark on: the current sets,
/// and how many moments have passed, one every 80 ms (after TIA/EIA-95-B, 6.6.6.2).
#[derive(Drop)]
pub struct SetsKeeper {
    /// The current sets.
    pub sets: Sets,
    /// The mark from which they are kept.
    pub mark: Mark,
    /// How many moments have passed.
    pub passed: u64,
    /// Whether the next moment has come.
    pub due: bool,
}

impl SetsKeeper {
    ghost use Rattle.std.specs.Prelude.{◌≡◌, ◌<◌, ◌≤◌, ◌+◌, ◌-◌, ◌/◌, ◌↔◌, true, false, List};
    ghost use Rattle.std.specs.Prelude.{IsTrue, IfSome, length};
    ghost use Rattle.std.specs.List.{list_any};
    ghost use Rattle.chip_core.specs.declared.sample.Sample.{Sample};
    ghost use Rattle.heard_events.specs.Close.{legs_close, legs_rows, places_in};
    ghost use Rattle.heard_events.specs.Given.{at_of, event_list};
    ghost use Rattle.heard_events.specs.Legs.{leg_of, legs_of};
    ghost use Rattle.heard_events.specs.Marks.{sets_mark};
    ghost use Rattle.heard_events.specs.Moments.{moment_events, moment_place, passed, sets_events};
    ghost use Rattle.heard_events.specs.Noted.{noted_with};
    ghost use Rattle.heard_events.specs.SetsKeeping.{IsSoundKeeper, coming_place};
    ghost use Rattle.heard_events.specs.SoundMarks.{IsSoundMark};
    ghost use Rattle.pilot_sets.specs.Standing.{new_standing};
    ghost use Rattle.rake_finger.specs.Held.{HoldsLast};

    /// Makes the sets at the mark for a handset whose traffic channel the reference sends on `row`.
    pub fn new(mark: &Mark, row: u8) -> SetsKeeper
        requires mark { IsSoundMark mark.now }
        requires row { row < 64 }
        ensures value { result ≡ record {
          sets = new_standing mark.now.pilot row;
          mark = mark.now;
          passed = 0;
          due = false;
        } }
        ensures sound { IsSoundKeeper result }
    {
        SetsKeeper {
            sets: Sets::new(mark.pilot, row),
            mark: *mark,
            passed: 0,
            due: false,
        }
    }

    /// Returns the sample of the next moment to come.
    pub fn end(&self) -> u64
        requires { IsSoundKeeper self.now }
        ensures { result ≡ coming_place self.now }
    {
        let number = self.passed + if self.due { 2 } else { 1 };
        self.mark.sample + SUPERFRAME_CHIPS * number
    }

    /// Whether a moment has come that has not passed yet.
    pub fn is_due(&self) -> bool
        ensures { result ≡ self.now.due }
    {
        self.due
    }

    /// Returns how many moments have passed.
    pub fn passed(&self) -> u64
        ensures { result ≡ self.now.passed }
    {
        self.passed
    }

    /// Returns the number of the last moment at or before `start`, a reference sample that is not
    /// before the mark.
    pub fn moment_at(&self, start: u64) -> u64
        requires { self.now.mark.sample ≤ start }
        ensures { result ≡ (start - self.now.mark.sample) / 98304 }
    {
        (start - self.mark.sample) / SUPERFRAME_CHIPS
    }

    /// Notes that a moment has come, if one lies at `taken` samples.
    pub fn come(&mut self, taken: u64)
        requires sound { IsSoundKeeper self.old }
        requires idle { self.old.due ≡ false }
        requires few { taken ≤ 67108864 }
        requires ended { taken ≤ coming_place self.old }
        ensures same { self.new ≡ record self.old { due = self.new.due } }
        ensures due { IsTrue self.new.due ↔ (taken ≡ coming_place self.old) }
        ensures waits { taken < coming_place self.new }
        ensures sound { IsSoundKeeper self.new }
    {
        if self.end() == taken {
            self.due = true;
        }
    }

    /// Updates the sets by an event.
    pub fn note(&mut self, event: &Event)
        requires { IsSoundKeeper self.old }
        ensures value { self.new ≡ record self.old {
          sets = noted_with self.old.mark.pilot (self.old.mark.time + (self.old.passed + 1))
              event.now self.old.sets;
        } }
        ensures sound { IsSoundKeeper self.new }
    {
        let first = self.mark.time + (self.passed + 1);
        note_event(&mut self.sets, self.mark.pilot, first, event);
    }

    /// Returns an active pilot with its parameters for a traffic channel.
    fn leg(&self, active: &Active) -> Leg
        requires sound { IsSoundKeeper self.now }
        requires pilot { active.now.pilot < 512 }
        ensures { result ≡ leg_of self.now.mark self.now.sets.deltas active.now }
    {
        let delta = self.sets.delta(active.pilot);
        Leg {
            reference: active.pilot == self.mark.pilot,
            finger: Finger {
                phase: pilot_phase(&self.mark, active.pilot, delta),
                delta,
                row: active.row,
            },
            subchannel: active.subchannel,
        }
    }

    /// Returns the active pilots with their parameters for a traffic channel.
    pub fn legs(&self) -> Legs
        requires { IsSoundKeeper self.now }
        ensures value { result ≡ legs_of self.now.mark self.now.sets }
        ensures some { 1 ≤ length result }
        ensures few { places_in result ≤ 8 }
        ensures close { legs_close result ≡ true }
        ensures rows { legs_rows result ≡ true }
    {
        let active = self.sets.active();
        let mut legs = Legs::empty();
        for i in 0..active.len() {
            legs.push(self.leg(&active.get(i)));
        }
        legs
    }

    /// Performs the moment that has come: the direction for its time takes effect, and the pilots
    /// are measured and moved. Returns its event if a list changed or a report is due.
    pub fn pass(&mut self, ring: &SampleRing, codes: &Codes) -> Option<Event>
        requires sound { IsSoundKeeper self.old }
        requires due { self.old.due ≡ true }
        requires room { ring.now.room ≡ 65536 }
        requires here { ring.now.taken ≡ moment_place self.old.mark (self.old.passed + 1) }
        ensures same { self.new ≡ record {
          sets = self.new.sets;
          mark = self.old.mark;
          passed = self.old.passed + 1;
          due = false;
        } }
        ensures passes { (heard : List Sample) → HoldsLast ring.now heard →
            (self.new.sets ≡ passed self.old.mark heard (self.old.passed + 1) self.old.sets)
            × (event_list result
            ≡ sets_events self.old.mark heard (self.old.passed + 1) self.old.sets) }
        ensures ends { IfSome result (λ event. at_of event ≡ ring.now.taken) }
        ensures unset { list_any sets_mark (event_list result) ≡ false }
        ensures sound { IsSoundKeeper self.new }
    {
        let place = ring.taken();
        self.passed += 1;
        self.due = false;
        let time = self.mark.time + self.passed;
        self.sets.due(time);
        let strengths = measure(&self.sets, &self.mark, ring, codes, place);
        let change = self.sets.step(&strengths, power(ring, place), time);
        self.sets_event(place, time, change)
    }

    /// Returns the event of a moment, if a list changed or a report is due.
    fn sets_event(&self, at: u64, time: u64, change: SetChange) -> Option<Event>
        requires at { at ≡ moment_place self.now.mark self.now.passed }
        requires time { time ≡ self.now.mark.time + self.now.passed }
        ensures value { event_list result
            ≡ moment_events self.now.mark self.now.passed change self.now.sets }
        ensures ends { IfSome result (λ event. at_of event ≡ at) }
        ensures unset { list_any sets_mark (event_list result) ≡ false }
    {
        if !change.changed && !change.report {
            return None;
        }
        Some(Event::Sets {
            at,
            time,
            active: self.sets.active(),
            candidate: self.sets.candidate(),
            report: change.report,
        })
    }
}
