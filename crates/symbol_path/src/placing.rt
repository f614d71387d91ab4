//! Repetition and the sent order: the symbols that a frame sends for its code symbols, and the sums
//! of soft values for them.
//!
//! TIA/EIA-95-B, 7.1.3.1.4: each code symbol is repeated, so that a frame always has the same
//! number of symbols.

ghost use Rattle.std.specs.Prelude.{◌≡◌, ◌*◌, ◌/◌, ◌<◌, ◌≤◌, ◌^◌, ℕ, length, get_or, pos, sum_by};
ghost use Rattle.std.specs.Prelude.{unsigned_abs};
ghost use Rattle.symbol_path.specs.SentOrder.{shape_of, size, sent, gathered, sent_by, gathered_by};
ghost use Rattle.symbol_path.specs.FormatSymbols.{sent_count, repeated_count, repeated_as};

use crate::kinds::Kind;
use crate::order::address;
use crate::order_two::repeated_symbol;
use chip_core::Bits;
use chip_core::air::{DATA_SYMBOLS, SYNC_SYMBOLS};

/// The repeated symbols that a frame sends, and their order.
#[derive(Clone, Copy)]
pub(crate) enum SentSymbols {
    /// Every symbol, in the order of a frame's form.
    Every(Kind),
    /// All but the third and the fifth of each six symbols, in the order of a data frame.
    Kept,
}

impl SentSymbols {
    /// Returns how many symbols a frame sends.
    fn count(self) -> u16
        ensures { result ≡ sent_count self }
    {
        match self {
            SentSymbols::Every(Kind::Sync) => SYNC_SYMBOLS as u16,
            SentSymbols::Every(Kind::Data) | SentSymbols::Kept => DATA_SYMBOLS as u16,
        }
    }

    /// Returns which of the repeated symbols a frame sends as its symbol `i`.
    fn repeated(self, i: u16) -> u16
        requires { i < sent_count self }
        ensures value { result ≡ repeated_as self i }
        ensures below { result < repeated_count self }
    {
        match self {
            SentSymbols::Every(kind) => address(kind, i),
            SentSymbols::Kept => repeated_symbol(i),
        }
    }
}

/// Writes the symbols that a frame sends, in the sent order: each code symbol is repeated `repeats`
/// times.
pub(crate) fn place_sent(symbols: SentSymbols, repeats: u8, code: &Bits, out: &mut Bits)
    requires { length code.now * repeats ≡ repeated_count symbols }
    ensures value { out.new ≡
        sent_by (λ i. repeated_as symbols i / repeats) (sent_count symbols) code.now }
    ensures count { length out.new ≡ sent_count symbols }
{
    *out = Bits::empty();
    for i in 0..symbols.count() {
        out.append(code.get(symbols.repeated(i) / u16::from(repeats)));
    }
}

/// Writes the 128 or 384 symbols that a frame sends, in the sent order: each code symbol is
/// repeated `repeats` times.
///
/// A code symbol is sent twice on the sync channel, and 1, 2, 4 or 8 times on the other channels.
pub fn place_into(kind: Kind, repeats: u8, code: &Bits, out: &mut Bits)
    requires { length code.now * repeats ≡ size (shape_of kind) }
    ensures value { out.new ≡ sent (shape_of kind) repeats code.now }
    ensures count { length out.new ≡ size (shape_of kind) }
{
    place_sent(SentSymbols::Every(kind), repeats, code, out);
}

/// Sets each value to 0.
fn clear(values: &mut [i64])
    ensures sums { (i : ℕ) → get_or values.new i (pos 0) ≡ pos 0 }
    ensures size { sum_by unsigned_abs values.new ≡ 0 }
{
    for value in values.iter_mut() {
        *value = 0;
    }
}

/// Adds the soft values of the sent symbols to `out`, which has a zero for each code symbol of a
/// frame.
///
/// No sum wraps if the absolute values of the soft values add up to at most 2^62. The absolute
/// values of the sums add up to no more than those of the soft values.
pub(crate) fn gather_sent(symbols: SentSymbols, repeats: u8, softs: &[i64], out: &mut [i64])
    requires sent { length softs.now ≡ sent_count symbols }
    requires code { length out.old * repeats ≡ repeated_count symbols }
    requires zeros { (c : ℕ) → get_or out.old c (pos 0) ≡ pos 0 }
    requires bounded { sum_by unsigned_abs softs.now ≤ 2 ^ 62 }
    ensures value { out.new ≡ gathered_by (λ i. repeated_as symbols i / repeats)
        (sent_count symbols) (length out.old) softs.now }
    ensures bounded { sum_by unsigned_abs out.new ≤ sum_by unsigned_abs softs.now }
{
    for i in 0..symbols.count() {
        let symbol = (symbols.repeated(i) / u16::from(repeats)) as usize;
        out[symbol] += softs[i as usize];
    }
}

/// Computes, for each code symbol of a frame, the sum of the soft values of the symbols that were
/// sent for it.
///
/// No sum wraps if the absolute values of the soft values add up to at most 2^62. The absolute
/// values of the sums add up to no more than those of the soft values.
pub fn gather_into(kind: Kind, repeats: u8, softs: &[i64], out: &mut [i64])
    requires sent { length softs.now ≡ size (shape_of kind) }
    requires code { length out.old * repeats ≡ size (shape_of kind) }
    requires bounded { sum_by unsigned_abs softs.now ≤ 2 ^ 62 }
    ensures value { out.new ≡ gathered (shape_of kind) repeats softs.now }
    ensures bounded { sum_by unsigned_abs out.new ≤ sum_by unsigned_abs softs.now }
{
    clear(out);
    gather_sent(SentSymbols::Every(kind), repeats, softs, out);
}
