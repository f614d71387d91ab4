//! The handset.

ghost use Rattle.mobile_core.specs.SoundHandset.{IsSound};

use crate::followed::Followed;
use crate::receive::Receive;
use crate::sync_receiver::SyncReceiver;
use chip_core::air::SPAN_BITS;
use chip_core::{CheckForm, OutOfMemory, Sample};
use heard_events::hearing::pilot_event;
use heard_events::{Event, Mark, Settings};
use pilot_search::{Best, Near};
use rake_finger::SampleRing;
use short_code::Codes;
use std::alloc::Global;
use viterbi::Decoder;

/// The number of samples that the ring holds: two frames, so that it still has each finger's
/// samples of a frame when the last of them has come.
const RING_ROOM: u32 = 65536;

/// The number of samples that a step took, and its event.
#[derive(Clone, Copy, PartialEq, Eq, Debug)]
pub struct Step {
    /// The number of samples that were taken.
    pub taken: usize,
    /// The event that ends with the last sample taken; `None` if all samples were taken and no
    /// event is left.
    pub event: Option<Event>,
}

/// The state that a handset hands over to a receiver of the following samples.
#[derive(Drop)]
pub struct HeardRing {
    /// The number of samples in the file.
    pub count: u64,
    /// The last samples that were taken.
    pub ring: SampleRing,
    /// The codes.
    pub codes: Codes,
}

/// A handset: it takes the samples of a file in pieces of any size and returns events. The first is
/// the pilot that the search found, before it takes a sample; each other event is returned when its
/// last sample has been taken.
///
/// It decodes each frame of the sync channel together with the frames before and after it, if they
/// lie in the file, and so knows a frame one frame later (TIA/EIA-95-B, 7.7.1). If a message sets a
/// mark, it follows one paging channel from there on, in the same way (7.7.2), and a traffic
/// channel if one is assigned. Frames of the traffic channel are known when they end (7.1.3.5), and
/// with them the messages that they complete (7.7.3).
#[derive(Drop)]
pub struct Mobile {
    /// The number of samples in the file.
    count: u64,
    /// The form of the 30-bit checks of messages.
    check: CheckForm,
    /// The pilot that the search found, until its event has been returned.
    pilot: Option<Best>,
    /// The last samples, which all receivers read.
    ring: SampleRing,
    codes: Codes,
    decoder: Decoder,
    sync: SyncReceiver,
    followed: Followed,
    ghost sound: { IsSound count ring decoder sync followed },
}

impl Mobile {
    ghost use Rattle.std.specs.Prelude.{◌≡◌, ◌<◌, ◌≤◌, ◌↔◌, ◌-◌, List, [], ◌∷◌, ◌++◌, length, ℕ};
    ghost use Rattle.std.specs.Prelude.{IsTrue, IfOk, None, false, Some, is_some, pos, slice_get};
    ghost use Rattle.std.specs.Option.{ForSome};
    ghost use Rattle.std.specs.List.{list_any};
    ghost use Rattle.chip_core.specs.declared.sample.Sample.{Sample};
    ghost use Rattle.heard_events.specs.Events.{events};
    ghost use Rattle.heard_events.specs.Given.{at_of};
    ghost use Rattle.heard_events.specs.Marks.{mark, sets_mark};
    ghost use Rattle.heard_events.specs.SoundMarks.{IsSoundMark};
    ghost use Rattle.mobile_core.specs.FollowedChannels.{EndFrom, IsFollowedDue};
    ghost use Rattle.mobile_core.specs.AfterMark.{IsSoundAssignment};
    ghost use Rattle.reception.specs.Clocks.{IsDueAt};
    ghost use Rattle.mobile_core.specs.Standing.{IsDueFor, IsStep, StandsFor, Steps, Tells};
    ghost use Rattle.mobile_core.specs.Standing.{due_parts, has_room, ring_room, samples_taken};
    ghost use Rattle.heard_events.specs.Tuning.{Tuning, tuning_by};
    ghost use Rattle.rake_finger.specs.Held.{HoldsLast};
    ghost use Rattle.heard_events.specs.declared.event.Event.{Event as TheEvent};

    /// Makes a handset that has taken no sample of a file and returned no event.
    ///
    /// `best` and `near` are the results of the search in the file's first samples. The first path
    /// of `near` is the best one, at delta 0, as `pilot_search::near` returns it.
    ///
    /// Allocates everything it needs, less than a megabyte; only this can fail. The handset keeps
    /// the last 65,536 samples.
    // Not inlined: its stack frame holds a second copy of the receivers.
    #[inline(never)]
    pub fn new(
        alloc: Global,
        settings: Settings,
        codes: Codes,
        best: Best,
        near: Near,
    ) -> Result<Mobile, OutOfMemory>
        requires least { 1 ≤ settings.fingers }
        requires most { settings.fingers ≤ 3 }
        requires first_channel { 1 ≤ settings.paging }
        requires last_channel { settings.paging ≤ 7 }
        requires assigned { ForSome settings.traffic IsSoundAssignment }
        requires count { settings.count ≤ 67108864 }
        requires near { near.count ≡ settings.fingers }
        requires first { slice_get near.deltas 0 ≡ Some (pos 0) }
        ensures stands { IfOk result (λ mobile.
            StandsFor (tuning_by settings best near) mobile [] []) }
        ensures room { IfOk result (λ mobile. has_room mobile ≡ settings.count) }
        ensures ring { IfOk result (λ mobile. ring_room mobile ≡ 65536) }
    {
        Ok(Mobile {
            count: settings.count,
            check: settings.check30,
            pilot: Some(best),
            ring: SampleRing::new(alloc, RING_ROOM)?,
            codes,
            decoder: Decoder::new(alloc, SPAN_BITS)?,
            sync: SyncReceiver::new(best.phase, &near),
            followed: Followed::new(&settings, best.phase, near),
        })
    }

    /// Returns the form of the 30-bit checks of messages, from the settings that the handset was
    /// made with.
    pub fn check30(&self) -> CheckForm
        ensures { (t : Tuning) (heard : List Sample) (given : List TheEvent) →
            StandsFor t self.now heard given → result ≡ t.check30 }
    {
        self.check
    }

    /// Whether a sync message with a nonzero long-code state has set the time.
    pub fn synced(&self) -> bool
        ensures given { (t : Tuning) (heard : List Sample) (given : List TheEvent) →
            StandsFor t self.now heard given → result ≡ list_any sets_mark given }
        ensures mark { (t : Tuning) (heard : List Sample) →
            StandsFor t self.now heard (events t heard) →
            result ≡ is_some (mark t heard (length heard)) }
    {
        self.sync.mark().is_some()
    }

    /// Returns the mark that the first sync message with a nonzero long-code state set; `None`
    /// exactly if no mark is set.
    ///
    /// After the step that returns this message's event, the mark lies ahead: no sample after it
    /// has been taken.
    pub fn mark(&self) -> Option<Mark>
        ensures given { (t : Tuning) (heard : List Sample) (given : List TheEvent) →
            StandsFor t self.now heard given → is_some result ≡ list_any sets_mark given }
        ensures set { (t : Tuning) (heard : List Sample) (given : List TheEvent) →
            StandsFor t self.now heard given →
            ForSome result (λ m. mark t heard (length heard) ≡ Some m) }
        ensures mark { (t : Tuning) (heard : List Sample) →
            StandsFor t self.now heard (events t heard) →
            result ≡ mark t heard (length heard) }
        ensures ahead { (t : Tuning) (heard : List Sample) (given : List TheEvent)
            (event : TheEvent) → StandsFor t self.now heard (given ++ event ∷ []) →
            at_of event ≡ length heard → list_any sets_mark given ≡ false →
            ForSome result (λ m. length heard ≤ m.sample) }
        ensures sound { ForSome result IsSoundMark }
    {
        self.sync.mark()
    }

    /// Hands over the last 65,536 samples and the codes, to a receiver that takes the samples after
    /// them. Allocates nothing.
    pub fn into_ring(self) -> HeardRing
        ensures count { result.count ≤ 67108864 }
        ensures within { result.ring.taken ≤ result.count }
        ensures room { result.ring.room ≡ 65536 }
        ensures taken { result.ring.taken ≡ samples_taken self }
        ensures left { result.count - result.ring.taken ≡ has_room self }
        ensures holds { (t : Tuning) (heard : List Sample) (given : List TheEvent) →
            StandsFor t self heard given →
            (result.count ≡ t.count) × HoldsLast result.ring heard }
    {
        let Mobile {
            count,
            ring,
            codes,
            ..
        } = self;
        HeardRing { count, ring, codes }
    }

    /// Whether the pilot's event is not returned, or something that has come is not decoded yet.
    fn is_due(&self) -> bool
        ensures { IsTrue result ↔ IsDueFor self.now }
    {
        self.pilot.is_some() || self.sync.is_due(self.count) || self.followed.is_due(self.count)
    }

    /// Returns the pilot's event.
    fn tell_pilot(&mut self) -> Option<Event>
        requires { IsTrue (is_some self.old.pilot) }
        ensures steps { Tells self.old self.new result }
        ensures nearer { due_parts self.new < due_parts self.old }
    {
        let best = self.pilot.take()?;
        Some(pilot_event(&best))
    }

    /// Decodes the due frame of the sync channel and returns the event that it completes. If that
    /// sets a mark, the other channels are followed from there on.
    // Not inlined: its stack frame holds several events.
    #[inline(never)]
    fn hear_sync(&mut self) -> Option<Event>
        requires told { self.old.pilot ≡ None }
        requires due { IsDueAt self.old.count self.old.sync.received.clock }
        ensures steps { Tells self.old self.new result }
        ensures nearer { due_parts self.new < due_parts self.old }
    {
        let at = self.ring.taken();
        let Mobile {
            check,
            decoder,
            sync,
            followed,
            ..
        } = self;
        let event = sync.hear_next(decoder, *check, at);
        followed.follow(&sync.mark(), at);
        event
    }

    /// Decodes what is due in the channels after the mark and returns the event that it completes.
    // Not inlined: its stack frame holds several events.
    #[inline(never)]
    fn hear_followed(&mut self) -> Option<Event>
        requires told { self.old.pilot ≡ None }
        requires silent { ¬ IsDueAt self.old.count self.old.sync.received.clock }
        requires due { IsFollowedDue self.old.count self.old.followed }
        ensures steps { Tells self.old self.new result }
        ensures nearer { due_parts self.new < due_parts self.old }
    {
        let Mobile {
            count,
            check,
            ring,
            codes,
            decoder,
            followed,
            ..
        } = self;
        followed.hear_next(decoder, ring, codes, *check, *count)
    }

    /// Returns the pilot's event, or decodes what is due next, the sync channel first, and returns
    /// the event that it completes.
    fn hear_next(&mut self) -> Option<Event>
        requires { IsDueFor self.old }
        ensures steps { Tells self.old self.new result }
        ensures nearer { due_parts self.new < due_parts self.old }
    {
        if self.pilot.is_some() {
            return self.tell_pilot();
        }
        if self.sync.is_due(self.count) {
            return self.hear_sync();
        }
        self.hear_followed()
    }

    /// Decodes what is due, up to the first event.
    fn hear_due(&mut self) -> Option<Event>
        ensures steps { (samples : List Sample) →
            Steps self.old self.new samples (record { taken = 0; event = result }) }
        ensures none { result ≡ None → ¬ IsDueFor self.new }
    {
        while self.is_due() {
            if let Some(event) = self.hear_next() {
                return Some(event);
            }
        }
        None
    }

    /// Returns the number of samples taken at the next moment or end of a frame of any receiver.
    fn least_end(&self) -> u64
        ensures sync { result ≤ self.now.sync.received.clock.end }
        ensures ends { (n : ℕ) → n ≤ result → EndFrom n self.now.followed }
        ensures waits { self.now.ring.taken < result }
    {
        self.followed.end_before(self.sync.end())
    }

    /// Takes samples up to the end of the next frame or moment, or all; returns their number.
    fn advance(&mut self, samples: &[Sample]) -> usize
        requires some { 0 < length samples.now }
        requires room { length samples.now ≤ has_room self.old }
        requires not_due { ¬ IsDueFor self.old }
        ensures steps { Steps self.old self.new samples.now
            (record { taken = result; event = None }) }
        ensures some { 0 < result }
    {
        let left = self.least_end() - self.ring.taken();
        let count = (samples.len() as u64).min(left) as usize;
        self.ring.push_all(&samples[..count]);
        let Mobile {
            ring,
            codes,
            sync,
            followed,
            ..
        } = self;
        sync.take_ended(ring, codes);
        followed.take_ended(ring, codes);
        count
    }

    /// Takes samples up to the end of the next event.
    ///
    /// The first event is the pilot, for which no sample is needed or taken.
    ///
    /// `samples` are the next ones of the file. If the step returns an event, it took exactly the
    /// samples up to the event's end, and the caller passes the others again. An event may end
    /// where the previous one ended; then no sample is taken. If it returns none, all samples were
    /// taken, and every event that ends within them has been returned.
    pub fn step(&mut self, samples: &[Sample]) -> Step
        requires { length samples.now ≤ has_room self.old }
        ensures { IsStep self.old self.new samples.now result }
    {
        let mut taken = 0usize;
        loop {
            if let Some(event) = self.hear_due() {
                return Step {
                    taken,
                    event: Some(event),
                };
            }
            if taken == samples.len() {
                return Step { taken, event: None };
            }
            taken += self.advance(&samples[taken..]);
        }
    }
}
