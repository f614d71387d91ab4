//! Encodes the information bits of a frame into its symbols, and gathers soft values for its code
//! symbols, by the format of its rate.

ghost use Rattle.std.specs.Prelude.{◌≡◌, ◌*◌, ◌≤◌, ◌^◌, ℕ, get_or, length, pos, sum_by};
ghost use Rattle.std.specs.Prelude.{unsigned_abs};
ghost use Rattle.quality_bits.specs.Formats.{IsFormat, bits_in};
ghost use Rattle.symbol_path.specs.RatesTwo.{information_of2};
ghost use Rattle.symbol_path.specs.FormatSymbols.{which_sent, format_symbols, gathered_in};
ghost use Rattle.symbol_path.specs.FramesTwo.{sent_frame2};

use crate::kinds::Kind;
use crate::placing::{SentSymbols, gather_sent, place_sent};
use crate::rate_two::{Rate2, format_of2};
use chip_core::Bits;
use chip_core::air::DATA_SYMBOLS;
use conv_code::encode_into;
use quality_bits::FrameFormat;

/// Returns which of its repeated symbols a frame of a format sends.
fn sent_symbols<R: Copy>(format: &FrameFormat<R>) -> SentSymbols
    ensures { result ≡ which_sent format.now.drops }
{
    if format.drops {
        SentSymbols::Kept
    } else {
        SentSymbols::Every(Kind::Data)
    }
}

/// Encodes a frame of a format: `out` becomes its 384 symbols in the sent order before scrambling,
/// replacing its content.
///
/// The information bits are followed by the quality indicator, if the format has one, and by eight
/// tail bits (TIA/EIA-95-B, 7.1.3.5). The encoder starts each frame in state zero (7.1.3.1.3).
pub fn encode_frame_into<R: Copy>(format: &FrameFormat<R>, information: &Bits, out: &mut Bits)
    requires format { IsFormat format.now }
    requires count { length information.now ≡ format.now.information }
    ensures value { out.new ≡ format_symbols format.now information.now }
    ensures count { length out.new ≡ 384 }
{
    let mut code = Bits::empty();
    encode_into(0, &format.codeword(information), &mut code);
    place_sent(sent_symbols(format), format.repeats, &code, out);
}

/// Encodes a frame: `out` becomes its 384 symbols in the sent order before scrambling, replacing
/// its content.
///
/// `info` has the rate's information bits, the reserved bit first. The quality indicator and eight
/// tail bits follow them. The encoder starts each frame in state zero (TIA/EIA-95-B, 7.1.3.1.3).
pub fn encode2_into(rate: Rate2, info: &Bits, out: &mut Bits)
    requires { length info.now ≡ information_of2 rate }
    ensures value { out.new ≡ sent_frame2 rate info.now }
    ensures count { length out.new ≡ 384 }
{
    encode_frame_into(&format_of2(rate), info, out);
}

/// Adds the soft values of the sent symbols to `out`, which has a zero for each code symbol of a
/// frame of the format. A code symbol for which no symbol is sent keeps 0.
///
/// No sum wraps if the absolute values of the soft values add up to at most 2^62. The absolute
/// values of the sums add up to no more than those of the soft values.
pub fn gather_frame_into<R: Copy>(
    format: &FrameFormat<R>,
    softs: &[i64; DATA_SYMBOLS],
    out: &mut [i64],
)
    requires format { IsFormat format.now }
    requires code { length out.old ≡ 2 * bits_in format.now }
    requires zeros { (c : ℕ) → get_or out.old c (pos 0) ≡ pos 0 }
    requires bounded { sum_by unsigned_abs softs.now ≤ 2 ^ 62 }
    ensures value { out.new ≡ gathered_in format.now softs.now }
    ensures bounded { sum_by unsigned_abs out.new ≤ sum_by unsigned_abs softs.now }
{
    gather_sent(sent_symbols(format), format.repeats, softs, out);
}
