//! The result of decoding a frame.

ghost use Rattle.std.specs.Prelude.{◌≡◌, ◌≤◌, ◌^◌, sum_by, unsigned_abs};
ghost use Rattle.rate_set_two.specs.TrafficFrames.{decoded2};

use chip_core::Bits;
use frame_decoder::{FrameSofts, frame_of};
use symbol_path::{PowerPlaces, Rate2, format_of2};
use viterbi::Decoder;

/// The result of decoding a frame.
#[derive(Clone, Copy)]
pub struct Decoded2 {
    /// The rate at which it was sent, or 14,400 bits a second if it isn't good.
    pub rate: Rate2,
    /// Whether there is a candidate whose score is above 0.
    pub good: bool,
    /// The information bits.
    pub bits: Bits,
    /// The score of the best candidate's symbols against the soft values; without a candidate, that
    /// of the best codeword at 14,400 bits a second.
    pub score: i64,
}

/// Decodes a frame of rate set 2.
///
/// `softs` has the soft values of a frame's 384 symbols in the sent order, with the scrambling
/// removed. `places` has the places of the power control bits, whose soft values count as 0, like
/// those of dropped symbols. The best codeword of each rate, among those that start and end with
/// eight zeros, is a candidate if its quality indicator is right. The candidate with the largest
/// score is taken, the higher rate on a tie, and is good exactly if that score is above 0. If it
/// isn't, or if there is no candidate, the rate is 14,400, with the information bits of the best
/// codeword at that rate.
pub fn traffic2_frame(decoder: &mut Decoder, softs: &FrameSofts, places: &PowerPlaces) -> Decoded2
    requires room { 288 ≤ decoder.old }
    requires bound { sum_by unsigned_abs softs.now ≤ 2 ^ 62 }
    ensures value { result ≡ decoded2 places.now softs.now }
    ensures kept { decoder.new ≡ decoder.old }
{
    let lower = [
        format_of2(Rate2::R1800),
        format_of2(Rate2::R3600),
        format_of2(Rate2::R7200),
    ];
    let frame = frame_of(decoder, &format_of2(Rate2::R14400), &lower, softs, places);
    Decoded2 {
        rate: frame.rate,
        good: frame.good,
        bits: frame.bits,
        score: frame.score,
    }
}
