//! The frames of traffic channels of rate set 1.

ghost use Rattle.std.specs.Prelude.{◌≡◌, ◌≤◌, ◌^◌, sum_by, unsigned_abs};
ghost use Rattle.frame_decoder.specs.TrafficFrames.{decoded};

use crate::choice::frame_of;
use crate::formats::DecodedFrame;
use crate::frame_softs::FrameSofts;
use chip_core::Bits;
use symbol_path::{PowerPlaces, Rate, format_of};
use viterbi::Decoder;

/// A decoded traffic frame.
#[derive(Clone, Copy, PartialEq, Eq, Debug)]
pub struct Decoded {
    /// The rate at which it was sent; 9,600 bits per second if the frame is bad.
    pub rate: Rate,
    /// Whether its score is above 0: its symbols agree with the soft values.
    pub good: bool,
    /// The information bits.
    pub bits: Bits,
    /// The score of the best candidate's symbols against the soft values.
    pub score: i64,
}

impl Decoded {
    ghost use Rattle.frame_decoder.specs.TrafficFrames.{as_decoded};

    /// Makes a decoded frame of rate set 1 from one that was decoded by its format.
    pub fn of_frame(frame: &DecodedFrame<Rate>) -> Decoded
        ensures { result ≡ as_decoded frame.now }
    {
        Decoded {
            rate: frame.rate,
            good: frame.good,
            bits: frame.bits,
            score: frame.score,
        }
    }
}

/// Decodes a traffic frame of rate set 1.
///
/// `softs` has the descrambled soft values of a frame's 384 symbols in the sent order, and `places`
/// the places of the power control bits, whose soft values count as 0. For each rate, the best
/// codeword is found among those that start and end with eight zeros. At 9,600 and 4,800 bits per
/// second it is a candidate only if its quality indicator is right; at the other rates it always
/// is. The candidate with the largest score is taken, the higher rate on a tie, and is good exactly
/// if that score is above 0. If it isn't, the rate is 9,600, with the information bits of the best
/// codeword at that rate.
///
/// TIA/EIA-95-B, 7.1.3.5: the bits of a frame at each rate; 7.1.3.1: they are encoded, each code
/// symbol is sent 1, 2, 4 or 8 times, and the symbols are interleaved.
pub fn traffic_frame(decoder: &mut Decoder, softs: &FrameSofts, places: &PowerPlaces) -> Decoded
    requires room { 192 ≤ decoder.old }
    requires bound { sum_by unsigned_abs softs.now ≤ 2 ^ 62 }
    ensures value { result ≡ decoded places.now softs.now }
    ensures kept { decoder.new ≡ decoder.old }
{
    let highest = format_of(Rate::R9600);
    let lower = [
        format_of(Rate::R1200),
        format_of(Rate::R2400),
        format_of(Rate::R4800),
    ];
    Decoded::of_frame(&frame_of(decoder, &highest, &lower, softs, places))
}
