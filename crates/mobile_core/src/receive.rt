//! The trait of receivers of the channels after the mark.

use chip_core::CheckForm;
use heard_events::Event;
use rake_finger::SampleRing;
use short_code::Codes;
use viterbi::Decoder;

/// A receiver of one or more channels after the mark: it takes samples up to the end of the next
/// frame or moment, and then decodes what has come, event by event.
pub(crate) trait Receive {
    ghost use Rattle.std.specs.Prelude.{◌≡◌, ◌<◌, ◌≤◌, ◌↔◌, ◌++◌, ℕ, IsTrue, IfSome, List, []};
    ghost use Rattle.std.specs.Prelude.{Option, None, false};
    ghost use Rattle.std.specs.List.{list_any};
    ghost use Rattle.chip_core.specs.declared.assignment.Traffic.{Traffic};
    ghost use Rattle.chip_core.specs.declared.check_form.CheckForm.{CheckForm as TheForm};
    ghost use Rattle.chip_core.specs.declared.sample.Sample.{Sample};
    ghost use Rattle.heard_events.specs.Given.{at_of, event_list};
    ghost use Rattle.heard_events.specs.Marks.{sets_mark};
    ghost use Rattle.heard_events.specs.Tuning.{Tuning};
    ghost use Rattle.heard_events.specs.declared.event.Event.{Event as TheEvent};
    ghost use Rattle.heard_events.specs.declared.mark.Mark.{Mark};
    ghost use Rattle.rake_finger.specs.Held.{HoldsLast};

    /// The invariant.
    ghost sound: { Self → Type 0 };

    /// Something has come that is not decoded yet, in a file of this many samples.
    ghost due: { ℕ → Self → Type 0 };

    /// What comes next ends after more than this many samples.
    ghost waits: { ℕ → Self → Type 0 };

    /// What comes next ends at this many samples or later.
    ghost ends: { ℕ → Self → Type 0 };

    /// How much has been decoded.
    ghost heard: { Self → ℕ };

    /// How much has come that is not decoded yet.
    ghost unheard: { Self → ℕ };

    /// The form of the checks of its messages.
    ghost form: { Tuning → TheForm };

    /// The mark, if any, opens no receiver. By default each mark opens one; a traffic channel's
    /// receiver opens only if a channel is assigned.
    ghost silent: { Option Traffic → Option Mark → Type 0 } = { λ _ mark. mark ≡ None };

    /// It has taken these samples, in which the sync channel's messages set this mark, or none. If
    /// it has pilot sets, they have not noted these events of the paging channel yet. If it
    /// receives a traffic channel, that is the assigned one.
    ghost stands: { Tuning → Option Traffic → Option Mark → Self → List Sample →
        List TheEvent → Type 0 };

    /// The events at the end of these samples that are not returned yet.
    ghost left: { Tuning → Option Traffic → Option Mark → List Sample → Self → List TheEvent };

    /// Returns the smaller of `end` and the number of samples at which what comes next ends.
    fn end_before(&self, end: u64) -> u64
        requires { sound self.now }
        ensures most { result ≤ end }
        ensures ends { (n : ℕ) → n ≤ result → ends n self.now }
        ensures one { (n : ℕ) → n < end → waits n self.now → n < result };

    /// Whether something has come that is not decoded yet, in a file of `count` samples.
    fn is_due(&self, count: u64) -> bool
        requires { sound self.now }
        ensures { IsTrue result ↔ due count self.now };

    /// Takes the soft values of a frame whose last sample has come, if any, and notes a moment that
    /// lies at this sample.
    fn take_ended(&mut self, ring: &SampleRing, codes: &Codes)
        requires sound { sound self.old }
        requires idle { (count : ℕ) × ¬ due count self.old }
        requires few { ring.now.taken ≤ 67108864 }
        requires room { ring.now.room ≡ 65536 }
        requires ended { ends ring.now.taken self.old }
        ensures sound { sound self.new }
        ensures waits { waits ring.now.taken self.new }
        ensures same { heard self.new ≡ heard self.old }
        ensures hears { (t : Tuning) (assigned : Option Traffic) (mark : Option Mark)
            (samples : List Sample) (pages : List TheEvent) → HoldsLast ring.now samples →
            ¬ due t.count self.old → stands t assigned mark self.old samples pages →
            stands t assigned mark self.new samples pages
            × (left t assigned mark samples self.new ≡ left t assigned mark samples self.old) };

    /// Decodes what is due next in a file of `count` samples, and returns the event that this
    /// completes.
    fn hear_next(
        &mut self,
        decoder: &mut Decoder,
        ring: &SampleRing,
        codes: &Codes,
        check: CheckForm,
        count: u64,
    ) -> Option<Event>
        requires sound { sound self.old }
        requires due { due count self.old }
        requires waits { waits ring.now.taken self.old }
        requires room { decoder.old ≡ 576 }
        requires ring_room { ring.now.room ≡ 65536 }
        ensures sound { sound self.new }
        ensures kept { decoder.new ≡ decoder.old }
        ensures waits { waits ring.now.taken self.new }
        ensures further { heard self.old < heard self.new }
        ensures nearer { unheard self.new < unheard self.old }
        ensures ends { IfSome result (λ event. at_of event ≡ ring.now.taken) }
        ensures unset { list_any sets_mark (event_list result) ≡ false }
        ensures hears { (t : Tuning) (assigned : Option Traffic) (mark : Option Mark)
            (samples : List Sample) → HoldsLast ring.now samples → check ≡ form t →
            count ≡ t.count → stands t assigned mark self.old samples [] →
            stands t assigned mark self.new samples []
            × (event_list result ++ left t assigned mark samples self.new
            ≡ left t assigned mark samples self.old) };
}

// A receiver that a mark opens: `None` before the mark, or if the channel is not received.
impl<R: Receive> Receive for Option<R> {
    ghost use Rattle.std.specs.Prelude.{[]};
    ghost use Rattle.std.specs.Option.{ForSome, IsSomeAnd, MatchOption, option_map_or};

    ghost sound = { λ receiver. ForSome receiver R.sound };

    ghost due = { λ count receiver. IsSomeAnd receiver (R.due count) };

    ghost waits = { λ n receiver. ForSome receiver (R.waits n) };

    ghost ends = { λ n receiver. ForSome receiver (R.ends n) };

    ghost heard = { λ receiver. option_map_or R.heard receiver 0 };

    ghost unheard = { λ receiver. option_map_or R.unheard receiver 0 };

    ghost form = { R.form };

    ghost stands = { λ t assigned mark receiver samples pages.
        MatchOption receiver (R.silent assigned mark)
        (λ r. R.stands t assigned mark r samples pages) };

    ghost left = { λ t assigned mark samples receiver.
        option_map_or (R.left t assigned mark samples) receiver [] };

    fn end_before(&self, end: u64) -> u64 {
        match self {
            Some(receiver) => receiver.end_before(end),
            None => end,
        }
    }

    fn is_due(&self, count: u64) -> bool {
        match self {
            Some(receiver) => receiver.is_due(count),
            None => false,
        }
    }

    fn take_ended(&mut self, ring: &SampleRing, codes: &Codes) {
        if let Some(receiver) = self {
            receiver.take_ended(ring, codes);
        }
    }

    fn hear_next(
        &mut self,
        decoder: &mut Decoder,
        ring: &SampleRing,
        codes: &Codes,
        check: CheckForm,
        count: u64,
    ) -> Option<Event> {
        let Some(receiver) = self else {
            return None;
        };
        receiver.hear_next(decoder, ring, codes, check, count)
    }
}
