//! Laws of the long code. Each function does nothing, and its contract is a law, which the check
//! proves.

ghost use Rattle.std.specs.Prelude.{◌≡◌, ◌≤◌, ◌+◌, ◌-◌, ℕ};
ghost use Rattle.long_code.specs.LongCode.{IsState, after, before, long_chip, period};

/// The state m chips later, and then n chips later, is the state m + n chips later.
pub fn later_twice()
    ensures { (state m n : ℕ) → after (after state m) n ≡ after state (m + n) }
{}

/// A nonzero state stays nonzero.
pub fn states_stay()
    ensures { (state chips : ℕ) → IsState state → IsState (after state chips) }
{}

/// Every state returns after 2^42 - 1 chips.
pub fn states_return()
    ensures { (state : ℕ) → IsState state → after state period ≡ state }
{}

/// Two different states stay different n chips later.
pub fn states_differ()
    ensures { (s t chips : ℕ) → IsState s → IsState t → after s chips ≡ after t chips → s ≡ t }
{}

/// The state n chips earlier, computed by division by x, becomes the state again n chips later.
pub fn division_goes_back()
    ensures state { (state chips : ℕ) → IsState state → IsState (before state chips) }
    ensures back { (state chips : ℕ) → IsState state → after (before state chips) chips ≡ state }
{}

/// The state n chips earlier is the state (period - n) chips later.
pub fn before()
    ensures back { (state chips : ℕ) → IsState state → chips ≤ period →
        after (after state (period - chips)) chips ≡ state }
    ensures same { (state chips : ℕ) → IsState state → chips ≤ period →
        before state chips ≡ after state (period - chips) }
{}

/// The chip n chips after a state is the chip of the state n chips later.
pub fn chips_follow()
    ensures { (state mask m n : ℕ) →
        long_chip (after state m) mask n ≡ long_chip state mask (m + n) }
{}
