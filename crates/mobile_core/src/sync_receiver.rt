//! The sync channel as it is received.

ghost use Rattle.mobile_core.specs.Common.{at_of, event_list, IsSoundMark};
ghost use Rattle.std.specs.Prelude.{◌≡◌, ◌<◌, ◌≤◌, ◌^◌, IfSome};
ghost use Rattle.std.specs.Option.{ForSome, option_or};
ghost use Rattle.heard_events.specs.Marks.{first_of, frames_with, marks_of};
ghost use Rattle.heard_events.specs.SyncEvents.{events_of};

use chip_core::air::{CODE_CHIPS, OFFSET_CHIPS, SUPERFRAME_BITS, SUPERFRAME_CHIPS, SYNC_ROW};
use chip_core::{CheckForm, Phase};
use frame_decoder::FrameKind;
use heard_events::hearing::{event_of, message_in};
use heard_events::{Event, Mark, Spelled};
use long_code::State;
use pilot_search::Near;
use rake_finger::{Form, SampleRing};
use reception::{Continued, reference_fingers};
use short_code::Codes;
use sync_message::{CapsuleFramer, SyncMessage};
use viterbi::Decoder;

/// The receiver of the sync channel: its frames, the message under way, and the mark that messages
/// set (TIA/EIA-95-B, 7.7.1).
#[derive(Drop)]
pub(crate) struct SyncReceiver {
    received: Continued,
    framer: CapsuleFramer,
    /// The number of frames of the message under way, 0 if there is none.
    message_frames: u64,
    mark: Option<Mark>,
}

impl SyncReceiver {
    ghost use Rattle.std.specs.Prelude.{◌≡◌, ◌<◌, ◌≤◌, ◌+◌, ◌^◌, ◌↔◌, IsTrue, List, [], length};
    ghost use Rattle.std.specs.Prelude.{take, slice_get, None, Some, pos, is_some, IfSome};
    ghost use Rattle.chip_core.specs.declared.sample.Sample.{Sample};
    ghost use Rattle.reception.specs.Clocks.{IsDueAt, clock_after_frame};
    ghost use Rattle.heard_events.specs.Given.{at_of};
    ghost use Rattle.mobile_core.specs.SyncReceiving.{HearsNext, HearsSync, IsSoundSync};
    ghost use Rattle.mobile_core.specs.SyncReceiving.{message_start};
    ghost use Rattle.heard_events.specs.Tuning.{Tuning};
    ghost use Rattle.rake_finger.specs.Held.{HoldsLast};

    /// Makes a receiver that has taken no sample, given the phase of the base station and the paths
    /// near it.
    pub(crate) fn new(phase: Phase, near: &Near) -> SyncReceiver
        requires least { 1 ≤ near.now.count }
        requires most { near.now.count ≤ 3 }
        requires first { slice_get near.now.deltas 0 ≡ Some (pos 0) }
        ensures hears { (t : Tuning) → t.phase ≡ phase →
            t.deltas ≡ take near.now.count near.now.deltas → HearsSync t result [] }
        ensures fresh { result.received.clock.next ≡ result.received.clock.low }
        ensures unmarked { result.mark ≡ None }
        ensures begins { 0 < result.received.clock.end }
        ensures sound { IsSoundSync result }
    {
        let fingers = reference_fingers(SYNC_ROW, phase, near);
        let first = (CODE_CHIPS - u64::from(phase.get())) % CODE_CHIPS;
        SyncReceiver {
            received: Continued::new(fingers, Form::Sync, first),
            framer: CapsuleFramer::new(),
            message_frames: 0,
            mark: None,
        }
    }

    /// Returns the number of samples taken when the next frame ends.
    pub(crate) fn end(&self) -> u64
        ensures { result ≡ self.now.received.clock.end }
    {
        self.received.clock.end
    }

    /// Returns the mark that a message set, if any.
    pub(crate) fn mark(&self) -> Option<Mark>
        ensures { result ≡ self.now.mark }
    {
        self.mark
    }

    /// Whether a complete frame is not decoded yet, in a file of `count` samples.
    pub(crate) fn is_due(&self, count: u64) -> bool
        requires { IsSoundSync self.now }
        ensures { IsTrue result ↔ IsDueAt count self.now.received.clock }
    {
        self.received.clock.is_due(count)
    }

    /// Takes the soft values of the frame whose last sample has come, if one has.
    pub(crate) fn take_ended(&mut self, ring: &SampleRing, codes: &Codes)
        requires sound { IsSoundSync self.old }
        requires near { self.old.received.clock.have ≤ self.old.received.clock.next + 1 }
        requires few { ring.now.taken ≤ 67108864 }
        requires room { ring.now.room ≡ 65536 }
        requires ended { ring.now.taken ≤ self.old.received.clock.end }
        ensures next { self.new.received.clock.next ≡ self.old.received.clock.next }
        ensures mark { self.new.mark ≡ self.old.mark }
        ensures waits { ring.now.taken < self.new.received.clock.end }
        ensures sound { IsSoundSync self.new }
        ensures stands { (t : Tuning) (heard : List Sample) → HoldsLast ring.now heard →
            ¬ IsDueAt t.count self.old.received.clock →
            HearsSync t self.old heard → HearsSync t self.new heard }
    {
        if self.end() == ring.taken() {
            self.received.take_frame(ring, codes, &[]);
        }
    }

    /// Decodes the due frame and returns the event that it completes after `at` samples.
    pub(crate) fn hear_next(
        &mut self,
        decoder: &mut Decoder,
        check: CheckForm,
        at: u64,
    ) -> Option<Event>
        requires sound { IsSoundSync self.old }
        requires come { self.old.received.clock.next < self.old.received.clock.have }
        requires room { decoder.old ≡ 576 }
        ensures clock { self.new.received.clock ≡ clock_after_frame self.old.received.clock }
        ensures ends { IfSome result (λ event. at_of event ≡ at) }
        ensures sound { IsSoundSync self.new }
        ensures kept { decoder.new ≡ decoder.old }
        ensures hears { (t : Tuning) (heard : List Sample) → at ≡ length heard →
            check ≡ t.check30 → IsDueAt t.count self.old.received.clock →
            HearsSync t self.old heard → HearsNext t heard self.old self.new result }
    {
        let frame = self.received.own_bits(decoder, FrameKind::Sync);
        let capsule = self.framer.push(&frame);
        self.message_frames = with_frame(frame.get(0), self.message_frames);
        self.received.clock.hear();
        let told = message_in(check, capsule);
        self.mark = mark_with(self.mark, self.message_start(), &told);
        event_in(&told, at)
    }

    /// The reference sample at which the message under way begins.
    fn message_start(&self) -> u64
        requires sound { IsSoundSync self.now }
        ensures value { result ≡ message_start self.now }
        ensures most { result ≤ 2 ^ 28 }
    {
        let first = self.received.clock.next - self.message_frames;
        self.received.clock.start_of(first)
    }
}

/// Returns how many frames the message under way has after another frame, its first if `begins`.
fn with_frame(begins: bool, message_frames: u64) -> u64
    requires { message_frames < 2 ^ 63 }
    ensures { result ≡ frames_with begins message_frames }
{
    if begins {
        1
    } else if message_frames > 0 {
        message_frames + 1
    } else {
        0
    }
}

/// Returns the event of a sync message, if there is one, that is complete after `at` samples.
fn event_in(told: &Option<Spelled<SyncMessage>>, at: u64) -> Option<Event>
    ensures value { event_list result ≡ events_of at told.now }
    ensures ends { IfSome result (λ event. at_of event ≡ at) }
{
    let Some(told) = told else { return None };
    Some(event_of(told, at))
}

/// Returns the mark of a message, if there is one, whose first frame begins at reference sample
/// `first`.
fn mark_of(first: u64, told: &Option<Spelled<SyncMessage>>) -> Option<Mark>
    requires { first ≤ 2 ^ 28 }
    ensures value { result ≡ first_of (marks_of first told.now) }
    ensures sound { ForSome result IsSoundMark }
{
    let Some(told) = told else { return None };
    let fields = told.message.fields();
    if fields.lc == 0 {
        return None;
    }
    let state = State::new(fields.lc).unwrap();
    let body_bits = u64::from(SUPERFRAME_BITS);
    let superframes = (u64::from(told.capsule.len()) + body_bits - 1) / body_bits;
    let following = SUPERFRAME_CHIPS * (superframes + 4);
    Some(Mark {
        sample: first + following - OFFSET_CHIPS * u64::from(fields.pn),
        time: fields.time,
        state,
        pilot: fields.pn,
        prat: fields.prat,
    })
}

/// Returns `mark` if it is set, otherwise the mark of the message.
fn mark_with(mark: Option<Mark>, first: u64, told: &Option<Spelled<SyncMessage>>) -> Option<Mark>
    requires first { first ≤ 2 ^ 28 }
    requires sound { ForSome mark IsSoundMark }
    ensures value { result ≡ option_or mark (first_of (marks_of first told.now)) }
    ensures sound { ForSome result IsSoundMark }
{
    if mark.is_some() {
        return mark;
    }
    mark_of(first, told)
}
