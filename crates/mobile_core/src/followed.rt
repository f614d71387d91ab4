//! The channels that a handset follows from the mark on.

use crate::paging_receiver::PagingReceiver;
use crate::receive::Receive;
use crate::soft_handoff::SoftHandoff;
use chip_core::{CheckForm, Phase, Traffic};
use heard_events::{Event, Mark, Settings};
use pilot_search::Near;
use rake_finger::SampleRing;
use short_code::Codes;
use viterbi::Decoder;

/// The channels that a handset follows from the mark on: a paging channel, and a traffic channel if
/// one is assigned (TIA/EIA-95-B, 6.6.2.1.1 and 6.6.4.2).
#[derive(Drop)]
pub(crate) struct Followed {
    /// The number of the paging channel, 1 to 7.
    channel: u8,
    /// The assigned traffic channel, if any.
    assigned: Option<Traffic>,
    /// The phase of the base station's codes.
    phase: Phase,
    /// The paths near it.
    near: Near,
    /// The form of the checks of the traffic channel's messages.
    check: CheckForm,
    /// The paging channel's receiver, if a mark is set and its PRAT is not reserved.
    paging: Option<PagingReceiver>,
    /// The traffic channel with its pilot sets, if one is assigned and a mark is set.
    traffic: Option<SoftHandoff>,
}

impl Followed {
    ghost use Rattle.std.specs.Prelude.{◌≡◌, ◌<◌, ◌≤◌, ◌↔◌, ◌++◌, ℕ, IsTrue, IfSome, List, length};
    ghost use Rattle.std.specs.Prelude.{[], take, slice_get, Some, None, pos, Option};
    ghost use Rattle.std.specs.Option.{ForSome, option_map_or};
    ghost use Rattle.chip_core.specs.declared.assignment.Traffic.{Traffic as TheTraffic};
    ghost use Rattle.chip_core.specs.declared.sample.Sample.{Sample};
    ghost use Rattle.mobile_core.specs.AfterMark.{IsSoundAssignment, SetsMark};
    ghost use Rattle.mobile_core.specs.FollowedChannels.{HearsFollowed, HearsFrames};
    ghost use Rattle.mobile_core.specs.FollowedChannels.{IsSoundFollowed, WaitFrom, followed_due};
    ghost use Rattle.mobile_core.specs.FollowedChannels.{followed_events_left, followed_heard};
    ghost use Rattle.mobile_core.specs.FollowedChannels.{traffic_events_left};
    ghost use Rattle.heard_events.specs.Given.{at_of, event_list};
    ghost use Rattle.heard_events.specs.SoundMarks.{IsSoundMark};
    ghost use Rattle.mobile_core.specs.TrafficReceiving.{IsSoundHandoff, WaitsAt, traffic_due};
    ghost use Rattle.mobile_core.specs.TrafficReceiving.{traffic_heard};
    ghost use Rattle.heard_events.specs.Tuning.{Tuning};
    ghost use Rattle.heard_events.specs.declared.event.Event.{Event as TheEvent};
    ghost use Rattle.heard_events.specs.declared.mark.Mark.{Mark as TheMark};

    /// Makes the channels of `settings` before a mark is set, given the phase of the base station
    /// and the paths near it.
    pub(crate) fn new(settings: &Settings, phase: Phase, near: Near) -> Followed
        requires first_channel { 1 ≤ settings.now.paging }
        requires last_channel { settings.now.paging ≤ 7 }
        requires assigned { ForSome settings.now.traffic IsSoundAssignment }
        requires least { 1 ≤ near.count }
        requires most { near.count ≤ 3 }
        requires first { slice_get near.deltas 0 ≡ Some (pos 0) }
        ensures closed { (result.paging ≡ None) × (result.traffic ≡ None) }
        ensures sound { IsSoundFollowed result }
        ensures hears { (t : Tuning) (heard : List Sample) → t.paging ≡ settings.now.paging →
            t.traffic ≡ settings.now.traffic → t.phase ≡ phase →
            t.deltas ≡ take near.count near.deltas → t.check16 ≡ settings.now.check16 →
            HearsFollowed t result None heard × (followed_events_left t None heard result ≡ []) }
    {
        Followed {
            channel: settings.paging,
            assigned: settings.traffic,
            phase,
            near,
            check: settings.check16,
            paging: None,
            traffic: None,
        }
    }

    /// Opens the receivers after `taken` samples, if a mark is set and none is open.
    ///
    /// They stay closed if samples after the mark have been taken already; a message's mark lies
    /// after the samples that complete it.
    pub(crate) fn follow(&mut self, mark: &Option<Mark>, taken: u64)
        requires sound { IsSoundFollowed self.old }
        requires mark { ForSome mark.now IsSoundMark }
        requires waits { WaitFrom taken self.old }
        ensures sound { IsSoundFollowed self.new }
        ensures waits { WaitFrom taken self.new }
        ensures further { followed_heard self.old ≤ followed_heard self.new }
        ensures due { followed_due self.new ≤ followed_due self.old }
        ensures hears { (t : Tuning) (before : Option TheMark) (heard : List Sample) →
            taken ≡ length heard → taken ≤ t.count → SetsMark taken before mark.now →
            HearsFollowed t self.old before heard → HearsFollowed t self.new mark.now heard
            × (followed_events_left t mark.now heard self.new
            ≡ followed_events_left t before heard self.old) }
    {
        let Some(mark) = mark else { return };
        if !self.opens(mark, taken) {
            return;
        }
        self.paging = PagingReceiver::open(mark, self.channel, self.phase, &self.near);
        let Some(traffic) = self.assigned else { return };
        let handoff = SoftHandoff::open(mark, &traffic, self.phase, &self.near);
        self.traffic = Some(handoff);
    }

    /// Whether no receiver is open and the mark lies after `taken` samples.
    fn opens(&self, mark: &Mark, taken: u64) -> bool
        ensures { IsTrue result ↔ (taken < mark.now.sample)
            × ((self.now.paging ≡ None) × (self.now.traffic ≡ None)) }
    {
        taken < mark.sample && self.paging.is_none() && self.traffic.is_none()
    }

    /// Updates the pilot sets of a traffic channel with an event of the paging channel.
    fn note(traffic: &mut Option<SoftHandoff>, event: &Option<Event>)
        requires { ForSome traffic.old IsSoundHandoff }
        ensures sound { ForSome traffic.new IsSoundHandoff }
        ensures waits { (n : ℕ) → ForSome traffic.old (WaitsAt n) →
            ForSome traffic.new (WaitsAt n) }
        ensures heard { option_map_or traffic_heard traffic.new 0
            ≡ option_map_or traffic_heard traffic.old 0 }
        ensures due { option_map_or traffic_due traffic.new 0
            ≡ option_map_or traffic_due traffic.old 0 }
        ensures hears { (t : Tuning) (assigned : Option TheTraffic) (mark : Option TheMark)
            (heard : List Sample) (pages : List TheEvent) →
            IfSome event.now (λ told. at_of told ≡ length heard) →
            HearsFrames t assigned mark traffic.old heard (event_list event.now ++ pages) →
            HearsFrames t assigned mark traffic.new heard pages
            × (traffic_events_left t assigned mark heard traffic.new
            ≡ traffic_events_left t assigned mark heard traffic.old) }
    {
        let Some(event) = event else { return };
        if let Some(handoff) = traffic {
            handoff.sets.note(event);
        }
    }
}

impl Receive for Followed {
    ghost use Rattle.mobile_core.specs.FollowedChannels.{EndFrom, HearsFollowed, IsFollowedDue};
    ghost use Rattle.mobile_core.specs.FollowedChannels.{IsSoundFollowed, WaitFrom, followed_due};
    ghost use Rattle.mobile_core.specs.FollowedChannels.{followed_events_left, followed_heard};

    ghost sound = { IsSoundFollowed };

    ghost due = { IsFollowedDue };

    ghost waits = { WaitFrom };

    ghost ends = { EndFrom };

    ghost heard = { followed_heard };

    ghost unheard = { followed_due };

    ghost form = { λ t. t.check30 };

    ghost stands = { λ t _ mark followed samples _. HearsFollowed t followed mark samples };

    ghost left = { λ t _. followed_events_left t };

    fn end_before(&self, end: u64) -> u64 {
        self.paging.end_before(self.traffic.end_before(end))
    }

    fn is_due(&self, count: u64) -> bool {
        self.paging.is_due(count) || self.traffic.is_due(count)
    }

    fn take_ended(&mut self, ring: &SampleRing, codes: &Codes) {
        self.paging.take_ended(ring, codes);
        self.traffic.take_ended(ring, codes);
    }

    /// Takes one bit of the paging channel if a frame of it is due; otherwise a frame of the
    /// traffic channel, its message, or a moment. `check` is for the paging channel.
    fn hear_next(
        &mut self,
        decoder: &mut Decoder,
        ring: &SampleRing,
        codes: &Codes,
        check: CheckForm,
        count: u64,
    ) -> Option<Event> {
        if !self.paging.is_due(count) {
            return self
                .traffic
                .hear_next(decoder, ring, codes, self.check, count);
        }
        let event = self.paging.hear_next(decoder, ring, codes, check, count);
        Followed::note(&mut self.traffic, &event);
        event
    }
}
