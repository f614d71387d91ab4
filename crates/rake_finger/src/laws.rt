//! Laws of the definitions: each function does nothing, and its contract is the law.

ghost use Rattle.rake_finger.specs.Common.{Sample, Form};
ghost use Rattle.std.specs.Prelude.{◌≡◌, ◌≤◌, ◌+◌, ◌*◌, ◌%◌, ◌^◌, ℕ, List, length, ◌++◌};
ghost use Rattle.rake_finger.specs.Held.{Held, HoldsLast};
ghost use Rattle.rake_finger.specs.InRing.{HoldsBefore};
ghost use Rattle.rake_finger.specs.Soft.{symbols, soft_bound};
ghost use Rattle.rake_finger.specs.Strengths.{samples_before, strength};

/// The absolute values of a frame's entries add up to at most 2^62 with eight fingers, and so do
/// those of three frames with three fingers.
pub fn frames_stay_small()
    ensures eight_fingers { (form : Form) → 8 * (symbols form * soft_bound form) ≤ 2 ^ 62 }
    ensures three_frames { (form : Form) → 3 * (3 * (symbols form * soft_bound form)) ≤ 2 ^ 62 }
{}

/// A pilot's strength depends only on its phase modulo the code's period.
pub fn strengths_repeat()
    ensures { (samples : List Sample) (a b window : ℕ) → window ≤ 65536 →
        a % 32768 ≡ b % 32768 →
        strength samples a window ≡ strength samples b window }
{}

/// Later samples change neither the 512 samples before a place nor a strength or power measured
/// there.
pub fn later_samples_change_nothing()
    ensures { (heard more : List Sample) (end : ℕ) → 512 ≤ end → end ≤ length heard →
        samples_before (heard ++ more) end ≡ samples_before heard end }
{}

/// A ring with room for 65,536 samples still holds the 512 before a place if at most 65,024 have
/// come after it.
pub fn samples_stay_in_the_ring()
    ensures { (ring : Held) (heard : List Sample) (end : ℕ) → HoldsLast ring heard →
        65536 ≤ ring.room → 512 ≤ end → end ≤ length heard → length heard ≤ end + 65024 →
        HoldsBefore ring end }
{}
