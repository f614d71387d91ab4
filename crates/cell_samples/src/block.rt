//! The chips of a cell over one period of the Walsh rows, and their samples.

ghost use Rattle.std.specs.Prelude.{◌≡◌, ◌<◌, ◌≤◌, ◌+◌, ◌%◌, ◌^◌, ℕ, length, map, get_or, set, All};
ghost use Rattle.std.specs.Prelude.{◌*ℤ◌, unsigned_abs, pos, true};
ghost use Rattle.chip_core.specs.Complex.{of_sample, origin, plus};
ghost use Rattle.walsh.specs.Walsh.{IsWithin};
ghost use Rattle.cell_samples.specs.Blocks.{AreChips, AreLevels, AreQuiet, AreBlockSums, AreTurned};
ghost use Rattle.cell_samples.specs.Blocks.{IsLevel, IsQuiet, IsTurned, chip_at, no_sample};
ghost use Rattle.cell_samples.specs.Channels.{carrier_of};
ghost use Rattle.cell_plan.specs.Signal.{scaled};
ghost use Rattle.cell_plan.specs.Transmitter.{IsPoint};

use crate::channel::CellChannel;
use chip_core::air::WALSH_CHIPS;
use chip_core::{Pair, Sample};
use std::marker::Model;
use walsh::transform64;

/// The number of chips of a block: a period of the Walsh rows (TIA/EIA-95-B, 7.1.3.1.8).
pub const BLOCK: usize = WALSH_CHIPS as usize;

/// The number of channels for which a block keeps levels.
const MOST_CHANNELS: usize = 128;

/// The level of each channel of a cell over a block, and 0 after the last channel.
type Levels = [i64; MOST_CHANNELS];

/// The sum of the channels' amplitudes at each chip of a block, times the link.
type BlockSums = [Pair; BLOCK];

/// The same sums as samples, each chip at the code point 1.
type BlockChips = [Sample; BLOCK];

/// The channels of a cell, with their levels and chips over the block that was requested last.
///
/// Contracts see the channels and the factor of the link.
#[derive(Drop)]
pub struct Block {
    channels: Vec<CellChannel>,
    factor: Pair,
    levels: Levels,
    chips: BlockChips,
}

impl Model for Block {
    ghost use Rattle.cell_samples.specs.Blocks.{BlockState};

    ghost Value = { BlockState };

    ghost use Rattle.cell_samples.specs.Blocks.{IsKeptBlock};

    ghost view = { λ b. record { channels = b.channels.items; factor = b.factor } };

    ghost invariant = { λ b. IsKeptBlock b.channels.items b.factor b.levels b.chips };
}

/// Keeps the level of a channel and returns whether it is unchanged.
fn keep_level(levels: &mut Levels, channel: usize, level: i64) -> bool
    requires { channel < 128 }
    ensures kept { result ≡ true → levels.new ≡ levels.old }
    ensures set { levels.new ≡ set levels.old channel level }
{
    let is_same = levels[channel] == level;
    levels[channel] = level;
    is_same
}

/// Sets `levels` to those of the channels over the 64 chips from local chip `first` on, and returns
/// whether they are unchanged.
fn keep_levels(channels: &mut [CellChannel], first: u64, levels: &mut Levels) -> bool
    requires whole { first % 64 ≡ 0 }
    requires soon { first < 2 ^ 34 }
    requires few { length channels.old ≤ 128 }
    requires small { All IsLevel levels.old }
    ensures value { AreLevels first (map carrier_of channels.old) levels.new }
    ensures small { All IsLevel levels.new }
    ensures kept { result ≡ true → levels.new ≡ levels.old }
    ensures same { channels.new ≡ channels.old }
{
    let mut is_same = true;
    for (n, channel) in channels.iter_mut().enumerate() {
        let level = channel.level(first);
        is_same &= keep_level(levels, n, level);
    }
    is_same
}

/// Returns `sum` plus a channel's level times the link's factor.
fn with_level(sum: Pair, level: i64, factor: Pair) -> Pair
    requires sum { IsWithin (2 ^ 39) sum }
    requires level { unsigned_abs level ≤ 65535 }
    requires factor { IsWithin 32768 factor }
    ensures { result ≡ plus sum (scaled level factor) }
{
    Pair {
        i: sum.i + level * factor.i,
        q: sum.q + level * factor.q,
    }
}

/// Returns the sums of the channels' amplitudes over a block in which they have these levels, each
/// times the link's factor.
///
/// Over a block each channel has one level, so the rows' transform of the levels gives the sums:
/// the sign of row n at chip k is that of row k at chip n.
fn sums_of(channels: &[CellChannel], factor: Pair, levels: &Levels) -> BlockSums
    requires few { length channels.now ≤ 128 }
    requires factor { IsWithin 32768 factor }
    requires small { All IsLevel levels.now }
    ensures { AreBlockSums (map carrier_of channels.now) factor levels.now result }
{
    let mut sums = [Pair { i: 0, q: 0 }; BLOCK];
    for (n, channel) in channels.iter().enumerate() {
        let row = usize::from(channel.row());
        sums[row] = with_level(sums[row], levels[n], factor);
    }
    transform64(&mut sums);
    sums
}

/// Returns the sample of a sum that fits in one.
fn narrowed(sum: Pair) -> Sample
    requires { IsQuiet sum }
    ensures { of_sample result ≡ sum }
{
    Sample {
        i: sum.i as i16,
        q: sum.q as i16,
    }
}

/// Sets `chips` to the sums of a block as samples.
fn narrow(sums: &BlockSums, chips: &mut BlockChips)
    requires { (k : ℕ) → k < 64 → IsQuiet (get_or sums.now k origin) }
    ensures { (k : ℕ) → k < 64 →
        of_sample (get_or chips.new k no_sample) ≡ get_or sums.now k origin }
{
    for (k, chip) in chips.iter_mut().enumerate() {
        *chip = narrowed(sums[k]);
    }
}

/// Sets `levels` and `chips` to those of the block that begins with local chip `first`. If no
/// channel's level changed, the chips are reused.
fn renew(
    channels: &mut [CellChannel],
    factor: Pair,
    first: u64,
    levels: &mut Levels,
    chips: &mut BlockChips,
)
    requires whole { first % 64 ≡ 0 }
    requires soon { first < 2 ^ 34 }
    requires few { length channels.old ≤ 128 }
    requires factor { IsWithin 32768 factor }
    requires quiet { AreQuiet (map carrier_of channels.old) factor }
    requires small { All IsLevel levels.old }
    requires sums { AreChips (map carrier_of channels.old) factor levels.old chips.old }
    ensures value { AreLevels first (map carrier_of channels.old) levels.new }
    ensures small { All IsLevel levels.new }
    ensures sums { AreChips (map carrier_of channels.old) factor levels.new chips.new }
    ensures same { channels.new ≡ channels.old }
{
    if !keep_levels(channels, first, levels) {
        narrow(&sums_of(channels, factor, levels), chips);
    }
}

/// Returns a part of a chip times the sign of a code's chip.
fn with_sign(part: i16, sign: i8) -> i16
    requires part { unsigned_abs part ≤ 32767 }
    requires sign { unsigned_abs sign ≤ 1 }
    ensures value { result ≡ part *ℤ sign }
    ensures bound { unsigned_abs result ≤ unsigned_abs part }
{
    part * i16::from(sign)
}

/// Returns a chip of a block times a point of the codes, given by its signs.
// All arithmetic is in 16 bits, so that several lanes can be turned at once.
fn turned(chip: Sample, signs: (i8, i8)) -> Sample
    requires small { unsigned_abs chip.i + unsigned_abs chip.q ≤ 32767 }
    requires point { IsPoint signs }
    ensures { IsTurned (of_sample chip) signs result }
{
    Sample {
        i: with_sign(chip.i, signs.0) - with_sign(chip.q, signs.1),
        q: with_sign(chip.i, signs.1) + with_sign(chip.q, signs.0),
    }
}

/// Fills `samples` with the first of these chips, each times its point of the codes.
fn turn(chips: &[Sample], signs: &[(i8, i8)], samples: &mut [Sample])
    requires chips { length samples.old ≤ length chips.now }
    requires signs { length samples.old ≤ length signs.now }
    requires points { All IsPoint signs.now }
    requires quiet { (k : ℕ) → k < length samples.old →
        IsQuiet (of_sample (get_or chips.now k no_sample)) }
    ensures { AreTurned (λ k. of_sample (get_or chips.now k no_sample)) signs.now
        (length samples.old) samples.new }
{
    for (k, sample) in samples.iter_mut().enumerate() {
        *sample = turned(chips[k], signs[k]);
    }
}

impl Block {
    /// Makes the block of a cell's channels and its link's factor, before any chips are requested.
    pub fn new(channels: Vec<CellChannel>, factor: Pair) -> Block
        requires few { length channels.items ≤ 128 }
        requires factor { IsWithin 32768 factor }
        requires quiet { AreQuiet (map carrier_of channels.items) factor }
        ensures { result ≡ record { channels = channels.items; factor = factor } }
    {
        Block {
            channels,
            factor,
            levels: [0; MOST_CHANNELS],
            chips: [Sample { i: 0, q: 0 }; BLOCK],
        }
    }

    /// Fills `samples` with the cell's signal from local chip `chip` on, within one block: each
    /// chip times its point of the codes, whose signs are in `signs`.
    pub fn spread(&mut self, chip: u64, signs: &[(i8, i8)], samples: &mut [Sample])
        requires soon { chip < 2 ^ 34 }
        requires within { chip % 64 + length samples.old ≤ 64 }
        requires signs { length samples.old ≤ length signs.now }
        requires points { All IsPoint signs.now }
        ensures value { AreTurned (λ k. chip_at self.old (chip + k)) signs.now
            (length samples.old) samples.new }
        ensures same { self.new ≡ self.old }
    {
        let place = chip % BLOCK as u64;
        renew(
            &mut self.channels,
            self.factor,
            chip - place,
            &mut self.levels,
            &mut self.chips,
        );
        turn(&self.chips[place as usize..], signs, samples);
    }
}
