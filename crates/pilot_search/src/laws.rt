//! Laws of the definitions: each function does nothing, and its contract is the law.

ghost use Rattle.pilot_search.specs.Common.{Sample};
ghost use Rattle.std.specs.Prelude.{◌≡◌, ◌<◌, ◌≤◌, ℕ, List};
ghost use Rattle.pilot_search.specs.Search.{best_phase, energy};
ghost use Rattle.pilot_search.specs.BestIn.{IsBestIn};
ghost use Rattle.pilot_search.specs.SearchRun.{FindsBest, BestComesFirst};

/// The best of all phases is `best_phase`, with the energy there, and no other.
pub fn best_of_all_is_best_phase()
    ensures phase { (samples : List Sample) (phase most : ℕ) →
        IsBestIn samples 0 32768 phase most →
        phase ≡ best_phase samples }
    ensures energy { (samples : List Sample) (phase most : ℕ) →
        IsBestIn samples 0 32768 phase most →
        most ≡ energy samples (best_phase samples) }
    ensures is { (samples : List Sample) →
        IsBestIn samples 0 32768 (best_phase samples) (energy samples (best_phase samples)) }
{}

/// The best phase of two adjacent ranges is the better of their best phases, and the lower one on a
/// tie. So a range may be searched in parts, in any order.
pub fn best_of_neighbours()
    ensures lower { (samples : List Sample) (from middle to low low_energy high high_energy : ℕ) →
        IsBestIn samples from middle low low_energy →
        IsBestIn samples middle to high high_energy →
        high_energy ≤ low_energy →
        IsBestIn samples from to low low_energy }
    ensures higher { (samples : List Sample) (from middle to low low_energy high high_energy : ℕ) →
        IsBestIn samples from middle low low_energy →
        IsBestIn samples middle to high high_energy →
        low_energy < high_energy →
        IsBestIn samples from to high high_energy }
{}

/// For any steps of the workers in any order, the result is the best phase.
///
/// A worker evaluates a phase of its range, publishes the energy of a phase that it evaluated,
/// reads the shared value, or skips a phase if some bound on its energy is below the value that it
/// read. In each run whose ranges partition all phases, and in which each phase is evaluated or
/// skipped, the best phase is evaluated. It comes before all others that are evaluated, by greater
/// energy, then by lesser phase. So it is the first of them, with the greatest energy.
pub fn every_run_finds_the_best()
    ensures evaluated { (samples : List Sample) → FindsBest samples }
    ensures first { (samples : List Sample) → BestComesFirst samples }
{}
