//! Laws of the definitions: each function does nothing, and its contract is the law.

ghost use Rattle.std.specs.Prelude.{◌≡◌, ◌<◌, ◌≤◌, ◌+◌, ◌*◌, ◌%◌, ℕ, List};
ghost use Rattle.chip_core.specs.declared.sample.Sample.{Sample};
ghost use Rattle.pilot_survey.specs.declared.rank.Rank.{Rank};
ghost use Rattle.pilot_survey.specs.Survey.{ranking, survey_phase};
ghost use Rattle.pilot_survey.specs.Ranking.{IsRanking};

/// The ranking contains the rank of each pilot once, by falling energy and, on a tie, by rising
/// pilot. No other list does.
pub fn ranking_is_the_only_one()
    ensures is { (samples : List Sample) (base width : ℕ) →
        IsRanking samples base width (ranking samples base width) }
    ensures only { (samples : List Sample) (base width : ℕ) (ranks : List Rank) →
        IsRanking samples base width ranks →
        ranks ≡ ranking samples base width }
{}

/// A pilot's own phase is 64 chips below the base for each step of its offset, modulo 32,768; its
/// phases begin `width` chips below its own. No phase belongs to two pilots.
pub fn phases_lie_round_the_pilots_own()
    ensures round { (base width pilot place : ℕ) →
        pilot < 512 →
        width ≤ 31 →
        (survey_phase base width pilot place + 64 * pilot + width) % 32768 ≡
        (base + place) % 32768 }
    ensures apart { (base width one other place place' : ℕ) →
        one < 512 →
        other < 512 →
        width ≤ 31 →
        place ≤ 2 * width →
        place' ≤ 2 * width →
        survey_phase base width one place ≡ survey_phase base width other place' →
        one ≡ other }
{}
