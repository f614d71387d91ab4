//! Decodes the soft values of a frame by the format of a rate of any rate set.

ghost use Rattle.std.specs.Prelude.{◌≡◌, ◌≤◌, ◌^◌, length, sum_by, unsigned_abs};
ghost use Rattle.frame_decoder.specs.Formats.{IsFormat, bits_in, codeword_in, score_in, is_right};
ghost use Rattle.frame_decoder.specs.Formats.{frame_in};

use crate::frame_softs::FrameSofts;
use chip_core::air::TAIL_BITS;
use chip_core::{Bits, CheckForm};
use quality_bits::check;
use std::alloc::AllocError;
use symbol_path::{FrameFormat, REPEATED_SYMBOLS, gather_frame_into};
use viterbi::{Codeword, Decoder, Ends};

/// A codeword of a format, with its score.
#[derive(Clone, Copy)]
pub struct ScoredCodeword {
    /// All bits of the frame.
    pub bits: Bits,
    /// The score of its symbols against the soft values.
    pub score: i64,
}

/// A decoded frame.
#[derive(Copy)]
pub struct DecodedFrame<R> {
    /// The rate at which it was sent; the highest if the frame is bad.
    pub rate: R,
    /// Whether there is a candidate whose score is above 0.
    pub good: bool,
    /// The information bits.
    pub bits: Bits,
    /// The score of the best candidate against the soft values; without a candidate, that of the
    /// best codeword at the highest rate.
    pub score: i64,
}

impl<R: Copy> Clone for DecodedFrame<R> {
    ghost use Rattle.std.specs.Prelude.{◌≡◌, ⊤};

    ghost is_clone = { λ old new. new ≡ old };

    ghost is_infallible = { λ _. ⊤ };

    fn clone(&self) -> Result<Self, AllocError> {
        Ok(*self)
    }
}

/// Returns the best codeword for a frame's soft values in the sent order, among those that start
/// from eight zeros and end with eight zeros.
pub(crate) fn best_codeword<R: Copy>(
    format: &FrameFormat<R>,
    decoder: &mut Decoder,
    softs: &FrameSofts,
) -> ScoredCodeword
    requires format { IsFormat format.now }
    requires room { bits_in format.now ≤ decoder.old }
    requires bound { sum_by unsigned_abs softs.now ≤ 2 ^ 62 }
    ensures bits { result.bits ≡ (codeword_in softs.now format.now).bits }
    ensures score { result.score ≡ score_in softs.now format.now
        (codeword_in softs.now format.now) }
    ensures count { length result.bits ≡ bits_in format.now }
    ensures kept { decoder.new ≡ decoder.old }
{
    let mut sums = [0; REPEATED_SYMBOLS];
    let code = &mut sums[..format.code_symbols()];
    gather_frame_into(format, softs, code);
    let mut codeword = Codeword {
        start: 0,
        bits: Bits::empty(),
    };
    let score = decoder.best_into(code, Ends::Zero, &mut codeword);
    ScoredCodeword {
        bits: codeword.bits,
        score,
    }
}

/// Returns whether the quality indicator is that of the information bits; always true if frames of
/// the rate have none.
pub fn is_right<R: Copy>(format: &FrameFormat<R>, bits: &Bits) -> bool
    requires format { IsFormat format.now }
    requires count { length bits.now ≡ bits_in format.now }
    ensures { result ≡ is_right format.now bits.now }
{
    match format.quality {
        None => true,
        Some(kind) => {
            let checked = bits.part(0, bits.len() - TAIL_BITS as u16);
            check(kind, CheckForm::Plain, &checked)
        }
    }
}

/// Returns a codeword as a frame.
pub fn frame_in<R: Copy>(format: &FrameFormat<R>, bits: &Bits, score: i64) -> DecodedFrame<R>
    requires { length bits.now ≡ bits_in format.now }
    ensures { result ≡ frame_in format.now bits.now score }
{
    DecodedFrame {
        rate: format.rate,
        good: score > 0,
        bits: bits.part(0, format.information),
        score,
    }
}
