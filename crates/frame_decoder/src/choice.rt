//! The choice among the candidates of the rates of a rate set.

ghost use Rattle.std.specs.Prelude.{◌≡◌, ◌≤◌, ◌^◌, if◌then◌else◌, All, None, Some, length, map};
ghost use Rattle.std.specs.Prelude.{sum_by, unsigned_abs};
ghost use Rattle.frame_decoder.specs.Formats.{IsFormat, better, bits_in, candidate_in, preferred};
ghost use Rattle.frame_decoder.specs.Formats.{rising_choice, frame_in, frame_of, good_or, is_right};

use crate::formats::{DecodedFrame, ScoredCodeword, best_codeword, frame_in, is_right};
use crate::frame_softs::FrameSofts;
use crate::replaced::without_power_bits;
use symbol_path::{FrameFormat, PowerPlaces};
use viterbi::Decoder;

/// Returns the frame with the higher score, the first if both are equal.
fn greater<R: Copy>(first: DecodedFrame<R>, second: DecodedFrame<R>) -> DecodedFrame<R>
    ensures { result ≡ better first second }
{
    if first.score < second.score {
        second
    } else {
        first
    }
}

/// Returns the better of a higher rate's candidate and the best of the lower rates, if any; the
/// former unless the latter has a higher score.
pub fn preferred<R: Copy>(
    higher: Option<DecodedFrame<R>>,
    lower: Option<DecodedFrame<R>>,
) -> Option<DecodedFrame<R>>
    ensures { result ≡ preferred higher lower }
{
    match higher {
        None => lower,
        Some(frame) => match lower {
            None => Some(frame),
            Some(other) => Some(greater(frame, other)),
        },
    }
}

/// Returns the best candidate if it is good, otherwise the information bits of a codeword of the
/// highest rate, with the score of the best candidate if there is one.
pub fn good_or<R: Copy>(
    highest: &FrameFormat<R>,
    codeword: &ScoredCodeword,
    best: Option<DecodedFrame<R>>,
) -> DecodedFrame<R>
    requires { length codeword.now.bits ≡ bits_in highest.now }
    ensures { result ≡ good_or highest.now codeword.now.bits codeword.now.score best }
{
    let score = match best {
        None => codeword.score,
        Some(frame) => {
            if frame.good {
                return frame;
            }
            frame.score
        }
    };
    DecodedFrame {
        good: false,
        score,
        ..frame_in(highest, &codeword.bits, score)
    }
}

/// Returns the best codeword's frame if its quality indicator is right.
fn candidate<R: Copy>(format: &FrameFormat<R>, codeword: &ScoredCodeword) -> Option<DecodedFrame<R>>
    requires format { IsFormat format.now }
    requires count { length codeword.now.bits ≡ bits_in format.now }
    ensures { result ≡
        (if is_right format.now codeword.now.bits then
        Some (frame_in format.now codeword.now.bits codeword.now.score) else None) }
{
    if is_right(format, &codeword.bits) {
        Some(frame_in(format, &codeword.bits, codeword.score))
    } else {
        None
    }
}

/// Returns the best candidate of these rates, if any; `formats` begins with the lowest rate.
fn best_candidate<R: Copy>(
    decoder: &mut Decoder,
    formats: &[FrameFormat<R>],
    softs: &FrameSofts,
) -> Option<DecodedFrame<R>>
    requires formats { All (λ format. IsFormat format) formats.now }
    requires room { All (λ format. bits_in format ≤ decoder.old) formats.now }
    requires bound { sum_by unsigned_abs softs.now ≤ 2 ^ 62 }
    ensures value { result ≡ rising_choice None (map (candidate_in softs.now) formats.now) }
    ensures kept { decoder.new ≡ decoder.old }
{
    let mut best = None;
    for format in formats {
        let codeword = best_codeword(format, decoder, softs);
        best = preferred(candidate(format, &codeword), best);
    }
    best
}

/// Decodes a frame, given the format of the highest rate and those of the lower rates, the lowest
/// first.
///
/// `softs` has the descrambled soft values of a frame's 384 symbols in the sent order, and `places`
/// the places of the power control bits, whose soft values count as 0, as those of dropped symbols
/// do. The best codeword of each rate, among those that start and end with eight zeros, is a
/// candidate if its quality indicator is right or the rate has none. The candidate with the largest
/// score is taken, the higher rate on a tie, and is good exactly if that score is above 0. If it
/// isn't, or if there is no candidate, the rate is the highest, with the information bits of the
/// best codeword at that rate.
pub fn frame_of<R: Copy>(
    decoder: &mut Decoder,
    highest: &FrameFormat<R>,
    lower: &[FrameFormat<R>],
    softs: &FrameSofts,
    places: &PowerPlaces,
) -> DecodedFrame<R>
    requires format { IsFormat highest.now }
    requires formats { All (λ format. IsFormat format) lower.now }
    requires most { bits_in highest.now ≤ decoder.old }
    requires room { All (λ format. bits_in format ≤ decoder.old) lower.now }
    requires bound { sum_by unsigned_abs softs.now ≤ 2 ^ 62 }
    ensures value { result ≡ frame_of highest.now lower.now places.now softs.now }
    ensures kept { decoder.new ≡ decoder.old }
{
    let kept = without_power_bits(softs, places);
    let best = best_candidate(decoder, lower, &kept);
    let codeword = best_codeword(highest, decoder, &kept);
    let best = preferred(candidate(highest, &codeword), best);
    good_or(highest, &codeword, best)
}
