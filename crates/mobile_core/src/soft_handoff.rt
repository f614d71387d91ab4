//! A followed traffic channel and its pilot sets.

use crate::receive::Receive;
use crate::traffic_receiver::TrafficReceiver;
use chip_core::{CheckForm, Phase, Traffic};
use heard_events::{Event, Mark, SetsKeeper};
use pilot_search::Near;
use rake_finger::SampleRing;
use short_code::Codes;
use viterbi::Decoder;

/// A traffic channel that is followed in soft handoff from the mark on: the receiver of its frames,
/// and the pilot sets, which determine the pilots that the frames are received from.
///
/// TIA/EIA-95-B, 6.6.6.2: a frame is received from the pilots that are active after the last moment
/// at or before its first sample. Received messages change the sets, and pilots move between them
/// at each moment.
#[derive(Drop)]
pub(crate) struct SoftHandoff {
    /// The receiver of the channel's frames.
    receiver: TrafficReceiver,
    /// The pilot sets.
    pub(crate) sets: SetsKeeper,
}

impl SoftHandoff {
    ghost use Rattle.std.specs.Prelude.{◌≡◌, ◌<◌, ◌≤◌, ◌+◌, ◌-◌, ◌/◌, [], List, ℕ, length, take};
    ghost use Rattle.std.specs.Prelude.{slice_get, Some, None, pos, true, false, IfSome};
    ghost use Rattle.std.specs.List.{list_any};
    ghost use Rattle.chip_core.specs.declared.assignment.Traffic.{Traffic as TheTraffic};
    ghost use Rattle.chip_core.specs.declared.sample.Sample.{Sample};
    ghost use Rattle.heard_events.specs.Close.{legs_close};
    ghost use Rattle.heard_events.specs.Given.{at_of, event_list};
    ghost use Rattle.heard_events.specs.Legs.{legs_of};
    ghost use Rattle.heard_events.specs.Marks.{sets_mark};
    ghost use Rattle.heard_events.specs.SoundMarks.{IsSoundMark};
    ghost use Rattle.heard_events.specs.Tuning.{Tuning};
    ghost use Rattle.heard_events.specs.declared.event.Event.{Event as TheEvent};
    ghost use Rattle.heard_events.specs.declared.mark.Mark.{Mark as TheMark};
    ghost use Rattle.mobile_core.specs.TrafficReceiving.{GivesFirst, HearsTraffic, HearsUntuned};
    ghost use Rattle.mobile_core.specs.TrafficReceiving.{IsSoundHandoff, IsTrafficDue, WaitsAt};
    ghost use Rattle.mobile_core.specs.TrafficReceiving.{beside, next_end, told_heard, traffic_due};
    ghost use Rattle.mobile_core.specs.TrafficReceiving.{traffic_heard, tuned_to};
    ghost use Rattle.rake_finger.specs.Held.{HoldsLast};

    /// Opens a channel before its first frame, given the phase of the base station and the paths
    /// near it.
    pub(crate) fn open(mark: &Mark, traffic: &Traffic, phase: Phase, near: &Near) -> SoftHandoff
        requires mark { IsSoundMark mark.now }
        requires row { traffic.now.row < 64 }
        requires offset { traffic.now.offset ≤ 15 }
        requires least { 1 ≤ near.now.count }
        requires most { near.now.count ≤ 3 }
        requires first { slice_get near.now.deltas 0 ≡ Some (pos 0) }
        ensures begins { mark.now.sample < next_end result }
        ensures idle { ¬ IsTrafficDue result }
        ensures sound { IsSoundHandoff result }
        ensures hears { (t : Tuning) (heard : List Sample) → t.phase ≡ phase →
            t.deltas ≡ take near.now.count near.now.deltas → length heard ≤ t.count →
            length heard ≤ mark.now.sample →
            HearsTraffic t traffic.now mark.now result heard [] }
    {
        let sets = SetsKeeper::new(mark, traffic.row);
        let receiver = TrafficReceiver::open(mark, traffic, sets.legs(), phase, near);
        SoftHandoff { receiver, sets }
    }

    /// Takes the soft values of the frame whose last sample has come, if any, and proceeds to the
    /// next frame.
    fn take_frame(&mut self, ring: &SampleRing, codes: &Codes)
        requires sound { IsSoundHandoff self.old }
        requires idle { self.old.receiver.frames.clock.have ≡ self.old.receiver.frames.clock.next }
        requires few { ring.now.taken ≤ 67108864 }
        requires room { ring.now.room ≡ 65536 }
        requires ended { ring.now.taken ≤ self.old.receiver.frames.clock.end }
        ensures same { told_heard self.new.receiver ≡ told_heard self.old.receiver }
        ensures sets { self.new.sets ≡ self.old.sets }
        ensures waits { ring.now.taken < self.new.receiver.frames.clock.end }
        ensures sound { IsSoundHandoff self.new }
        ensures hears { (t : Tuning) (traffic : TheTraffic) (m : TheMark)
            (heard : List Sample) (pages : List TheEvent) → HoldsLast ring.now heard →
            HearsTraffic t traffic m self.old heard pages →
            HearsTraffic t traffic m self.new heard pages }
    {
        if self.receiver.frames.clock.end != ring.taken() {
            return;
        }
        self.receiver.take_softs(ring, codes);
        self.tune();
    }

    /// Tunes the receiver to the active pilots for the next frame, if the last moment that has
    /// passed determines them.
    fn tune(&mut self)
        requires sound { IsSoundHandoff self.old }
        ensures same { self.new ≡ beside self.old.sets
            (tuned_to self.new.receiver.legs self.new.receiver.frames.clock.end
            self.new.receiver.frames.fingers self.old.receiver) }
        ensures waits { (n : ℕ) → n < self.old.receiver.frames.clock.end →
            ((self.old.receiver.frames.clock.start - self.old.sets.mark.sample) / 98304
            ≡ self.old.sets.passed →
            n ≤ self.old.receiver.frames.clock.start + 226) →
            n < self.new.receiver.frames.clock.end }
        ensures some { 1 ≤ length (legs_of self.old.sets.mark self.old.sets.sets) }
        ensures close { legs_close (legs_of self.old.sets.mark self.old.sets.sets) ≡ true }
        ensures hears { (t : Tuning) (traffic : TheTraffic) (m : TheMark)
            (heard : List Sample) (pages : List TheEvent) →
            HearsUntuned t traffic m self.old heard pages →
            HearsTraffic t traffic m self.new heard pages }
        ensures sound { IsSoundHandoff self.new }
    {
        let legs = self.sets.legs();
        if self.sets.moment_at(self.receiver.frames.clock.start) != self.sets.passed() {
            return;
        }
        self.receiver.tune(legs);
    }

    /// Performs the moment that has come and returns its event, if any.
    // Not inlined: its stack frame holds pilot sets.
    #[inline(never)]
    fn pass_moment(&mut self, ring: &SampleRing, codes: &Codes) -> Option<Event>
        requires sound { IsSoundHandoff self.old }
        requires idle { self.old.receiver.frames.clock.have ≡ self.old.receiver.frames.clock.next }
        requires empty { self.old.receiver.kept ≡ None }
        requires due { self.old.sets.due ≡ true }
        requires room { ring.now.room ≡ 65536 }
        requires waits { WaitsAt ring.now.taken self.old }
        ensures further { traffic_heard self.old < traffic_heard self.new }
        ensures nearer { traffic_due self.new < traffic_due self.old }
        ensures waits { WaitsAt ring.now.taken self.new }
        ensures sound { IsSoundHandoff self.new }
        ensures ends { IfSome result (λ event. at_of event ≡ ring.now.taken) }
        ensures unset { list_any sets_mark (event_list result) ≡ false }
        ensures hears { (t : Tuning) (traffic : TheTraffic) (m : TheMark)
            (heard : List Sample) → HoldsLast ring.now heard →
            HearsTraffic t traffic m self.old heard [] →
            GivesFirst t traffic m heard self.old self.new (event_list result) [] }
    {
        let event = self.sets.pass(ring, codes);
        self.tune();
        event
    }
}

impl Receive for SoftHandoff {
    ghost use Rattle.std.specs.Prelude.{◌≤◌};
    ghost use Rattle.mobile_core.specs.AfterMark.{FollowsTraffic, IsUnheard, traffic_left};
    ghost use Rattle.mobile_core.specs.TrafficReceiving.{IsSoundHandoff, IsTrafficDue, WaitsAt};
    ghost use Rattle.mobile_core.specs.TrafficReceiving.{next_end, traffic_due, traffic_heard};

    ghost sound = { IsSoundHandoff };

    ghost due = { λ _ r. IsTrafficDue r };

    ghost waits = { WaitsAt };

    ghost ends = { λ n r. n ≤ next_end r };

    ghost heard = { traffic_heard };

    ghost unheard = { traffic_due };

    ghost form = { λ t. t.check16 };

    ghost silent = { IsUnheard };

    ghost stands = { FollowsTraffic };

    ghost left = { traffic_left };

    fn end_before(&self, end: u64) -> u64 {
        self.receiver.frames.clock.end.min(self.sets.end()).min(end)
    }

    fn is_due(&self, _count: u64) -> bool {
        self.receiver.has_told() || self.sets.is_due()
    }

    fn take_ended(&mut self, ring: &SampleRing, codes: &Codes) {
        self.take_frame(ring, codes);
        self.sets.come(ring.taken());
    }

    /// Returns the kept message if there is one; otherwise decodes the frame if one has come;
    /// otherwise performs the moment.
    fn hear_next(
        &mut self,
        decoder: &mut Decoder,
        ring: &SampleRing,
        codes: &Codes,
        check: CheckForm,
        _count: u64,
    ) -> Option<Event> {
        if !self.receiver.has_told() {
            return self.pass_moment(ring, codes);
        }
        let event = self.receiver.hear_told(decoder, check, ring.taken());
        self.sets.note(&event);
        Some(event)
    }
}
