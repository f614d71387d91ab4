//! The taps that receive a run's events.

ghost use Rattle.std.specs.Prelude.{◌≡◌, ◌≤◌, List, map, All, nat_lt, slice_index, OnOk, OnErr};
ghost use Rattle.std.specs.Io.KnownBytes.{Appends};
ghost use Rattle.cdma_io.specs.Outside.{AppendsPrefix, HasCause};
ghost use Rattle.event_tap.specs.Taps.{IsKept, KeptTap, heard_text, kept_by, kept_of, taps_after};

use crate::tap::{Heard, Tap};
use cdma_io::{Failed, Sink, write_all};
use chip_core::EventLimits;
use heard_events::Event;
use line_text::Text;

impl Tap for Box<dyn Tap> {
    ghost shape = { λ b. (Tap-box b).shape b.value };

    ghost left = { λ b. (Tap-box b).left b.value };

    fn form(&self) -> u8 {
        (**self).form()
    }

    fn limit(&mut self, events: u32) {
        (**self).limit(events);
    }

    fn hear(&mut self, event: &Event, out: &mut Text) -> Heard {
        (**self).hear(event, out)
    }
}

/// The boxed taps that receive a run's events.
#[derive(Drop)]
pub struct Taps {
    /// The taps with events left, in order.
    taps: Vec<Box<dyn Tap>>,
}

/// A keeper of taps. Code that uses only this trait sees no boxes.
pub trait KeepsTaps: Drop {
    /// The kept taps, in order: the form of each, and how many events it has left.
    ghost kept: { Self → List KeptTap };

    /// Passes the event to each tap, in order, as [`Taps::hear`] does.
    fn tell<K: Sink>(&mut self, event: &Event, sink: &mut K) -> Result<(), Failed>
        requires { All IsKept (kept self.old) }
        ensures ok { OnOk result (Appends (K.written sink.old) (K.written sink.new)
            (heard_text (kept self.old) event.now)) }
        ensures following { OnOk result (kept self.new ≡ taps_after (kept self.old) event.now) }
        ensures kept { All IsKept (kept self.new) }
        ensures err { OnErr result (AppendsPrefix (K.written sink.old) (K.written sink.new)
            (heard_text (kept self.old) event.now)) }
        ensures cause { HasCause (K.faults sink.old) (K.faults sink.new) result };
}

impl KeepsTaps for Taps {
    ghost kept = { λ t. kept_of (λ b. (Tap-box b).shape b.value) (λ b. (Tap-box b).left b.value)
        t.taps.items };

    fn tell<K: Sink>(&mut self, event: &Event, sink: &mut K) -> Result<(), Failed> {
        hear_all(&mut self.taps, event, sink)
    }
}

impl Taps {
    /// Sets each tap's limit to that of its form, and keeps those whose limit isn't 0, in order.
    pub fn new(taps: Vec<Box<dyn Tap>>, limits: EventLimits) -> Taps
        ensures value { ⟦<Taps as KeepsTaps>⟧.kept result ≡
            kept_by limits (map (λ b. shape b) taps.items) }
        ensures kept { All IsKept (⟦<Taps as KeepsTaps>⟧.kept result) }
    {
        let mut taps = taps;
        limit_all(&mut taps, &limits);
        Taps { taps }
    }

    /// Passes the event to each tap, in order, writes the tap's text to the sink, and drops the tap
    /// if it has no event left.
    ///
    /// Returns [`Failed`] only if the sink's count of faults rose. The sink then took the first
    /// bytes of the event's text.
    pub fn hear<K: Sink>(&mut self, event: &Event, sink: &mut K) -> Result<(), Failed>
        requires { All IsKept (⟦<Taps as KeepsTaps>⟧.kept self.old) }
        ensures ok { OnOk result
            (Appends (K.written sink.old) (K.written sink.new)
            (heard_text (⟦<Taps as KeepsTaps>⟧.kept self.old) event.now)) }
        ensures following { OnOk result (⟦<Taps as KeepsTaps>⟧.kept self.new ≡
            taps_after (⟦<Taps as KeepsTaps>⟧.kept self.old) event.now) }
        ensures kept { All IsKept (⟦<Taps as KeepsTaps>⟧.kept self.new) }
        ensures err { OnErr result
            (AppendsPrefix (K.written sink.old) (K.written sink.new)
            (heard_text (⟦<Taps as KeepsTaps>⟧.kept self.old) event.now)) }
        ensures cause { HasCause (K.faults sink.old) (K.faults sink.new) result }
    {
        hear_all(&mut self.taps, event, sink)
    }
}

/// Sets each tap's limit to that of its form, and drops the taps whose limit is 0.
fn limit_all<T: Tap>(taps: &mut Vec<T>, limits: &EventLimits)
    ensures value { kept_of T.shape T.left taps.new.items ≡
        kept_by limits.now (map T.shape taps.old.items) }
    ensures kept { All IsKept (kept_of T.shape T.left taps.new.items) }
{
    let mut place = 0;
    while place < taps.len() {
        if has_limit(&mut taps[place], limits) {
            place += 1;
        } else {
            drop(taps.remove(place));
        }
    }
}

/// Sets a tap's limit to that of its form, and returns whether it is above 0.
fn has_limit<T: Tap>(tap: &mut T, limits: &EventLimits) -> bool
    ensures form { T.shape tap.new ≡ T.shape tap.old }
    ensures range { T.shape tap.old ≤ 3 }
    ensures left { T.left tap.new ≡ slice_index limits.now (T.shape tap.old) }
    ensures value { result ≡ nat_lt 0 (T.left tap.new) }
{
    let limit = limits[tap.form() as usize];
    tap.limit(limit);
    limit > 0
}

/// Passes the event to each tap, writes the tap's text, and drops the tap if no event is left.
fn hear_all<T: Tap, K: Sink>(taps: &mut Vec<T>, event: &Event, sink: &mut K) -> Result<(), Failed>
    requires { All IsKept (kept_of T.shape T.left taps.old.items) }
    ensures ok { OnOk result
        (Appends (K.written sink.old) (K.written sink.new)
        (heard_text (kept_of T.shape T.left taps.old.items) event.now)) }
    ensures following { OnOk result (kept_of T.shape T.left taps.new.items ≡
        taps_after (kept_of T.shape T.left taps.old.items) event.now) }
    ensures kept { All IsKept (kept_of T.shape T.left taps.new.items) }
    ensures err { OnErr result
        (AppendsPrefix (K.written sink.old) (K.written sink.new)
        (heard_text (kept_of T.shape T.left taps.old.items) event.now)) }
    ensures cause { HasCause (K.faults sink.old) (K.faults sink.new) result }
{
    let mut text = Text::empty();
    let mut place = 0;
    while place < taps.len() {
        let heard = taps[place].hear(event, &mut text);
        let gave = write_all(sink, text.bytes());
        match heard {
            Heard::Keep => place += 1,
            Heard::Done => drop(taps.remove(place)),
        }
        gave?;
    }
    Ok(())
}
