//! Laws of the definitions: each function does nothing, and its contract is the law.

ghost use Rattle.std.specs.Prelude.{◌≡◌, ◌<◌, ◌+◌, ℕ, ℤ, ◌<ℤ◌, ◌≤ℤ◌};
ghost use Rattle.chip_core.specs.Sums.{IsFirstGreatest, first_greatest};

/// `first_greatest` is the only number below `n` that has the largest value and is the smallest
/// such number.
pub fn first_greatest_is_the_only_one()
    ensures is { (f : ℕ → ℤ) (n : ℕ) → 0 < n → IsFirstGreatest f n (first_greatest f n) }
    ensures only { (f : ℕ → ℤ) (n best : ℕ) → IsFirstGreatest f n best → best ≡ first_greatest f n }
{}

/// The best of two neighbouring ranges is the better of their bests, and the lower one on a tie.
/// The ranges are the numbers below `m` and the `n` numbers from `m` on.
pub fn best_of_neighbours()
    ensures lower { (f : ℕ → ℤ) (m n low high : ℕ) →
        IsFirstGreatest f m low →
        IsFirstGreatest (λ k. f (m + k)) n high →
        f (m + high) ≤ℤ f low →
        IsFirstGreatest f (m + n) low }
    ensures higher { (f : ℕ → ℤ) (m n low high : ℕ) →
        IsFirstGreatest f m low →
        IsFirstGreatest (λ k. f (m + k)) n high →
        f low <ℤ f (m + high) →
        IsFirstGreatest f (m + n) (m + high) }
{}
