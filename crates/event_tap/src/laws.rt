//! Laws of the definitions: each function does nothing, and its contract is the law.

ghost use Rattle.event_tap.specs.Common.{Event as TheEvent};
ghost use Rattle.std.specs.Prelude.{◌≡◌, ◌≤◌, ◌<◌, ◌++◌, ◌∷◌, [], ℕ, List, length, take};
ghost use Rattle.event_tap.specs.EventLines.{events_text};
ghost use Rattle.event_tap.specs.Taps.{KeptTap, form_lines, joined_lines, kept_by, kept_with};
ghost use Rattle.event_tap.specs.Taps.{run_taps, run_text};

/// A tap reports exactly the first events of its form's kinds, up to its limit.
pub fn taps_hear_the_first_events()
    ensures { (form limit : ℕ) (events : List TheEvent) →
        run_text (kept_with form limit) events
        ≡ joined_lines (take limit (form_lines form events)) }
{}

/// The text of events is that of the first part of them, followed by that of the others from the
/// taps that are kept after the first part.
pub fn text_goes_on()
    ensures text { (taps : List KeptTap) (events more : List TheEvent) →
        run_text taps (events ++ more) ≡
        run_text taps events ++ run_text (run_taps taps events) more }
    ensures taps { (taps : List KeptTap) (events more : List TheEvent) →
        run_taps taps (events ++ more) ≡ run_taps (run_taps taps events) more }
{}

/// Without taps nothing is written.
pub fn no_tap_writes_nothing()
    ensures { (events : List TheEvent) → run_text [] events ≡ [] }
{}

/// One tap of each form, in order and with limit 0 for raw messages, writes the line of each event
/// exactly once, if there are fewer events than each of the other limits.
pub fn plain_taps_write_each_line_once()
    ensures { (pilots messages frames : ℕ) (events : List TheEvent) →
        length events < pilots → length events < messages → length events < frames →
        run_text (kept_by (pilots ∷ messages ∷ frames ∷ 0 ∷ []) (0 ∷ 1 ∷ 2 ∷ 3 ∷ [])) events ≡
        events_text events }
{}
