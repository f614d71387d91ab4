//! The taps of each form.

ghost use Rattle.std.specs.Prelude.{◌≡◌, ◌≤◌, ◌%◌, Some, None, if◌then◌else◌};
ghost use Rattle.event_tap.specs.EventLines.{event_line};
ghost use Rattle.event_tap.specs.Taps.{form_line, kept_or_done, left_after, line_text, plain_form};
ghost use Rattle.event_tap.specs.Taps.{raw_of};

use crate::line::line_into;
use crate::parts::append_raw;
use crate::tap::{Heard, Tap};
use heard_events::Event;
use line_text::Text;

/// The tap of form 0, which reports the pilot and the pilot sets.
pub type PilotTap = FormTap<0>;

/// The tap of form 1, which reports messages.
pub type MessageTap = FormTap<1>;

/// The tap of form 2, which reports frames of the traffic channel.
pub type FrameTap = FormTap<2>;

/// The tap of form 3, which reports messages as received, bit by bit.
pub type RawTap = FormTap<3>;

/// A tap that reports the events of a form, the remainder of `FORM` by 4.
#[derive(Drop)]
pub struct FormTap<const FORM: u8> {
    /// How many events it may still report.
    left: u32,
}

impl<const FORM: u8> FormTap<FORM> {
    /// Makes a tap that reports no event until its limit is set.
    pub fn new() -> FormTap<FORM>
        ensures { result.left ≡ 0 }
    {
        FormTap { left: 0 }
    }
}

impl<const FORM: u8> Tap for FormTap<FORM> {
    ghost shape = { λ _. FORM % 4 };

    ghost left = { λ t. t.left };

    fn form(&self) -> u8 {
        FORM % 4
    }

    fn limit(&mut self, events: u32) {
        self.left = events;
    }

    fn hear(&mut self, event: &Event, out: &mut Text) -> Heard {
        self.left = hear_in(FORM % 4, self.left, event, out);
        heard_of(self.left)
    }
}

/// Sets the text to the form's line for the event, or to empty if it has none. Returns how many of
/// `left` events remain after it.
#[tactic(auto, unfolding(crate::specs::Taps::form_line))]
fn hear_in(form: u8, left: u32, event: &Event, out: &mut Text) -> u32
    requires form { form ≤ 3 }
    requires some { 1 ≤ left }
    ensures text { out.new ≡ line_text (form_line form event.now) }
    ensures left { result ≡ left_after (form_line form event.now) left }
{
    if form == 3 {
        return hear_raw(left, event, out);
    }
    hear_where(form == plain_form_of(event), left, event, out)
}

/// Returns the form that reports events of this kind by their lines.
fn plain_form_of(event: &Event) -> u8
    ensures { result ≡ plain_form event.now }
{
    match event {
        Event::Pilot { .. } | Event::Sets { .. } => 0,
        Event::Sync { .. } | Event::Paging { .. } | Event::Traffic { .. } => 1,
        Event::Frame { .. } => 2,
    }
}

/// Sets the text to the line of the event if the form reports it, otherwise to empty. Returns how
/// many of `left` events remain after it.
fn hear_where(heard: bool, left: u32, event: &Event, out: &mut Text) -> u32
    requires { 1 ≤ left }
    ensures text { out.new ≡ line_text (if heard then Some (event_line event.now) else None) }
    ensures left { result ≡ left_after (if heard then Some (event_line event.now) else None) left }
{
    if heard {
        line_into(event, out);
        left - 1
    } else {
        out.clear();
        left
    }
}

/// Sets the text to the raw line of a message, bit by bit, or to empty if the event is not a
/// message. Returns how many of `left` events remain after it.
fn hear_raw(left: u32, event: &Event, out: &mut Text) -> u32
    requires { 1 ≤ left }
    ensures text { out.new ≡ line_text (raw_of event.now) }
    ensures left { result ≡ left_after (raw_of event.now) left }
{
    out.clear();
    match event {
        Event::Sync { at, capsule, .. } => append_raw(out, " sync ", *at, capsule),
        Event::Paging { at, capsule, .. } => append_raw(out, " paging ", *at, capsule),
        Event::Traffic { at, capsule, .. } => append_raw(out, " traffic ", *at, capsule),
        _ => return left,
    }
    left - 1
}

/// Returns whether a tap with `left` events left is kept or done.
fn heard_of(left: u32) -> Heard
    ensures { result ≡ kept_or_done left }
{
    if left == 0 { Heard::Done } else { Heard::Keep }
}
