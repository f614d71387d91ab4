//! Taps, which turn events into lines of text.

ghost use Rattle.std.specs.Prelude.{ℕ, ◌≡◌, ◌≤◌};
ghost use Rattle.event_tap.specs.Taps.{form_line, kept_or_done, left_after, line_text};

use heard_events::Event;
use line_text::Text;

/// Whether a tap has events left.
#[derive(Clone, Copy, PartialEq, Eq, Debug)]
pub enum Heard {
    /// It has events left.
    Keep,
    /// It has none left.
    Done,
}

/// A tap, which turns the events that it receives into lines of text.
///
/// A tap has a fixed form: 0 reports the pilot, 1 messages, 2 frames, and 3 raw messages, bit by
/// bit. It reports as many events of its kinds as its limit allows.
pub trait Tap: Drop {
    /// The form.
    ghost shape: { Self → ℕ };

    /// How many events it may still report.
    ghost left: { Self → ℕ };

    /// Returns the form, 0 to 3.
    fn form(&self) -> u8
        ensures value { result ≡ shape self.now }
        ensures most { result ≤ 3 };

    /// Sets how many events of its kinds the tap reports from now on.
    fn limit(&mut self, events: u32)
        ensures form { shape self.new ≡ shape self.old }
        ensures left { left self.new ≡ events };

    /// Sets the text to the line of the event, ending with LF, or to empty if the form reports no
    /// event of this kind. Only a reported event reduces the number left. Returns `Done` exactly if
    /// none is left after that.
    fn hear(&mut self, event: &Event, out: &mut Text) -> Heard
        requires { 1 ≤ left self.old }
        ensures text { out.new ≡ line_text (form_line (shape self.old) event.now) }
        ensures form { shape self.new ≡ shape self.old }
        ensures left { left self.new ≡
            left_after (form_line (shape self.old) event.now) (left self.old) }
        ensures heard { result ≡ kept_or_done (left self.new) };
}
