//! The consumer of a file's samples.

ghost use Rattle.cdma_io.specs.Outside.{AppendsPrefix, HasCause};
ghost use Rattle.event_tap.specs.Taps.{IsKept, KeptTap};
ghost use Rattle.run_replies.specs.Common.{Sample as TheSample};
ghost use Rattle.run_replies.specs.Hearing.{GainsPrefix, Listening, is_told, told};
ghost use Rattle.run_replies.specs.Listeners.{BeginsAfter, ListenerTells};
ghost use Rattle.std.specs.Prelude.{◌≡◌, ◌≤◌, ◌-◌, ◌++◌, ℕ, List, length, All, OnErr, OnOk};

use cdma_io::{Failed, Sink};
use chip_core::Sample;
use event_tap::KeepsTaps;

/// A listener that takes the samples of a file in pieces and writes their text to a sink.
pub trait FileListener {
    // The listener's text can be written.
    ghost can_begin: { Self → Type 0 };

    // This listener implements this `Listening` and has taken no sample, and these taps are to
    // receive its events.
    ghost fresh: { Listening → Self → List KeptTap → Type 0 };

    // This listener implements this `Listening` and has taken these samples, all of their text was
    // written, and these taps are kept after them.
    ghost hearing: { Listening → Self → List KeptTap → List TheSample → Type 0 };

    // It has room for n more samples.
    ghost has_room: { Self → ℕ → Type 0 };

    /// Writes the text that comes before any sample is taken: the pilot's line, or the lines of the
    /// ranks. The taps of a handset receive its pilot event.
    ///
    /// Returns [`Failed`] only if the sink's count of faults rose; the sink then holds a prefix of
    /// the text.
    fn begin<T: KeepsTaps, K: Sink>(&mut self, taps: &mut T, sink: &mut K) -> Result<(), Failed>
        requires tellable { can_begin self.old }
        requires kept { All IsKept (T.kept taps.old) }
        ensures room { (left : ℕ) → has_room self.old left → has_room self.new left }
        ensures kept { All IsKept (T.kept taps.new) }
        ensures ok { OnOk result ((l : Listening) → fresh l self.old (T.kept taps.old) →
            BeginsAfter hearing l self.new (T.kept taps.new)
            (K.written sink.old) (K.written sink.new)) }
        ensures err { OnErr result ((l : Listening) (samples : List TheSample) →
            fresh l self.old (T.kept taps.old) →
            AppendsPrefix (K.written sink.old) (K.written sink.new) (told l samples)) }
        ensures cause { HasCause (K.faults sink.old) (K.faults sink.new) result };

    /// Takes samples and writes the text for what is received in them.
    ///
    /// `samples` are the next ones of the file. Returns [`Failed`] only if the sink's count of
    /// faults rose; the sink then holds a prefix of the text.
    fn hear<T: KeepsTaps, K: Sink>(
        &mut self,
        samples: &[Sample],
        taps: &mut T,
        sink: &mut K,
    ) -> Result<(), Failed>
        requires room { has_room self.old (length samples.now) }
        requires kept { All IsKept (T.kept taps.old) }
        ensures room { OnOk result ((left : ℕ) → has_room self.old left →
            has_room self.new (left - length samples.now)) }
        ensures kept { All IsKept (T.kept taps.new) }
        ensures ok { OnOk result ((l : Listening) (heard : List TheSample) →
            hearing l self.old (T.kept taps.old) heard →
            ListenerTells hearing l self.new (T.kept taps.new) heard (heard ++ samples.now)
            (K.written sink.old) (K.written sink.new)) }
        ensures err { OnErr result ((l : Listening) (heard : List TheSample) →
            hearing l self.old (T.kept taps.old) heard →
            GainsPrefix l heard (heard ++ samples.now) (K.written sink.old) (K.written sink.new)) }
        ensures cause { HasCause (K.faults sink.old) (K.faults sink.new) result };

    /// Whether a sync message has set the time; true if none is needed.
    fn is_told(&self) -> bool
        ensures { (l : Listening) (kept : List KeptTap) (heard : List TheSample) →
            hearing l self.now kept heard → result ≡ is_told l heard };

    // A listener with room for `left` samples has room for fewer.
    ghost fewer: { (listener : Self) (left n : ℕ) → has_room listener left → n ≤ left →
        has_room listener n };
}
