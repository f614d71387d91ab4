//! Sums of despread samples.

ghost use Rattle.rake_finger.specs.Common.{sign, times, conjugate, point, sum_of, of_sample};
ghost use Rattle.rake_finger.specs.Common.{Sample};
ghost use Rattle.std.specs.Prelude.{◌≡◌, ◌<◌, ◌≤◌, ◌+◌, ◌*◌, ◌%◌, ◌^◌, ℕ, List, pos, ◌*ℤ◌};
ghost use Rattle.std.specs.Prelude.{unsigned_abs};
ghost use Rattle.rake_finger.specs.Held.{HoldsLast};
ghost use Rattle.rake_finger.specs.InRing.{IsHeldInRing};
ghost use Rattle.rake_finger.specs.RowSigns.{AreRowSigns, AreUnitSigns};
ghost use Rattle.rake_finger.specs.Soft.{covered_from, despread_at};
ghost use Rattle.rake_finger.specs.SymbolSums.{SumsAreSmall, AreSymbolSums};

use crate::finger::Finger;
use crate::lanes::{Sums, symbol_sums_on_lanes};
use crate::ring::SampleRing;
use crate::rows::RowSigns;
use chip_core::air::{CODE_CHIPS, PILOT_ROW, WALSH_CHIPS};
use chip_core::{Pair, Phase, Sample};
use short_code::{Codes, despread, signs_of};

/// Returns a sample times the conjugate of the codes' point with these chips, negated if the chip
/// of the Walsh row is 1.
fn covered(sample: Sample, chips: (bool, bool), row_chip: bool) -> Pair
    ensures value { result ≡
        times (record {
          i = sign row_chip;
          q = pos 0;
        }) (times (of_sample sample) (conjugate (point chips))) }
    ensures i_bound { unsigned_abs result.i ≤ 65536 }
    ensures q_bound { unsigned_abs result.q ≤ 65536 }
{
    let (i, q) = chips;
    despread(sample, signs_of(i != row_chip, q != row_chip))
}

/// Returns the sum of `chips` despread samples from `place` on, each with the sign of its chip of a
/// Walsh row.
///
/// The code's chip at `phase` falls on sample 0, and the row's chip 0 on the sample at `place`.
pub(crate) fn covered_sum(
    ring: &SampleRing,
    codes: &Codes,
    phase: Phase,
    row: u8,
    place: u64,
    chips: u16,
) -> Pair
    requires row { row < 64 }
    requires held { IsHeldInRing ring.now place chips }
    ensures value { (samples : List Sample) → HoldsLast ring.now samples →
        result ≡ sum_of (covered_from row 0 (despread_at samples phase place chips)) }
    ensures i_bound { unsigned_abs result.i ≤ 65536 * chips }
    ensures q_bound { unsigned_abs result.q ≤ 65536 * chips }
{
    let _taken = ring.taken();
    let first = u64::from(phase.get()) + place;
    let mut cell = ring.cell_of(place);
    let mut sum = Pair { i: 0, q: 0 };
    for k in 0..chips {
        let sample = ring.get(cell);
        let code = codes.chip(((first + u64::from(k)) % CODE_CHIPS) as u16);
        let row_chip = walsh::chip(row, (k % WALSH_CHIPS as u16) as u8);
        let product = covered(sample, code, row_chip);
        sum.i += product.i;
        sum.q += product.q;
        cell = ring.cell_after(cell);
    }
    sum
}

/// The sums of a symbol's despread samples, computed one sample at a time.
fn broken_sums(ring: &SampleRing, codes: &Codes, finger: &Finger, place: u64, chips: u16) -> Sums
    requires row { finger.now.row < 64 }
    requires held { IsHeldInRing ring.now place chips }
    ensures sums { (samples : List Sample) → HoldsLast ring.now samples →
        AreSymbolSums samples finger.now.row finger.now.phase place chips result }
    ensures small { SumsAreSmall chips result }
{
    Sums {
        plain: covered_sum(ring, codes, finger.phase, PILOT_ROW, place, chips),
        covered: covered_sum(ring, codes, finger.phase, finger.row, place, chips),
    }
}

/// The sums of a symbol's despread samples, computed on lanes. The samples are contiguous in the
/// ring from `cell` on, and so are their chips of the code from chip `first` on.
fn unbroken_sums(
    ring: &SampleRing,
    codes: &Codes,
    signs: &RowSigns,
    cell: usize,
    first: u16,
    chips: u16,
) -> Sums
    requires cells { cell + chips ≤ ring.now.room }
    requires code { first + chips ≤ 32768 }
    requires whole { chips % 8 ≡ 0 }
    requires units { AreUnitSigns signs.now }
    ensures sums { (samples : List Sample) (row phase place : ℕ) →
        HoldsLast ring.now samples → AreRowSigns row signs.now →
        IsHeldInRing ring.now place chips → cell ≡ place % ring.now.room →
        first ≡ (phase + place) % 32768 →
        AreSymbolSums samples row phase place chips result }
    ensures small { SumsAreSmall chips result }
{
    let (_, ahead) = codes.table().split_at(usize::from(first));
    symbol_sums_on_lanes(ring.run(cell, usize::from(chips)), ahead, signs)
}

/// The sums of a symbol's samples from `place` on, despread by the finger's code: plain, and each
/// with the sign of its chip of the finger's row, which has these signs.
///
/// They are computed on lanes, or one sample at a time if the symbol extends past the ring's last
/// cell or the code's last chip.
pub(crate) fn symbol_sums(
    ring: &SampleRing,
    codes: &Codes,
    finger: &Finger,
    signs: &RowSigns,
    place: u64,
    chips: u16,
) -> Sums
    requires row { finger.now.row < 64 }
    requires signs { AreRowSigns finger.now.row signs.now }
    requires whole { chips % 8 ≡ 0 }
    requires held { IsHeldInRing ring.now place chips }
    ensures sums { (samples : List Sample) → HoldsLast ring.now samples →
        AreSymbolSums samples finger.now.row finger.now.phase place chips result }
    ensures small { SumsAreSmall chips result }
{
    let _taken = ring.taken();
    let first = (u64::from(finger.phase.get()) + place) % CODE_CHIPS;
    let cell = ring.cell_of(place);
    if first + u64::from(chips) > CODE_CHIPS || usize::from(chips) > ring.cells_from(cell) {
        return broken_sums(ring, codes, finger, place, chips);
    }
    unbroken_sums(ring, codes, signs, cell, first as u16, chips)
}
