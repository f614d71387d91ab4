//! Decodes a frame with lists of codewords.

ghost use Rattle.std.specs.Prelude.{◌≡◌, ◌≤◌, ◌^◌, All, length, map, sum_by, unsigned_abs};
ghost use Rattle.std.specs.List.{find};
ghost use Rattle.std.specs.Option.{option_map};
ghost use Rattle.frame_decoder.specs.Formats.{IsFormat, format_of, bits_in, score_in, is_right};
ghost use Rattle.frame_decoder.specs.Formats.{frame_in, candidate_of};
ghost use Rattle.list_viterbi.specs.First.{codeword_of};
ghost use Rattle.listed_frame.specs.ListedFrames.{codewords_in, listed};

use frame_decoder::{
    Decoded, DecodedFrame, FrameSofts, ScoredCodeword, frame_in, good_or, is_right, preferred,
    without_power_bits,
};
use list_viterbi::{Codewords, ListDecoder};
use symbol_path::{FrameFormat, PowerPlaces, REPEATED_SYMBOLS, Rate, format_of, gather_frame_into};
use viterbi::Ends;

/// The first `k` codewords of a rate, for a frame's soft values in the sent order.
fn codewords_in(
    decoder: &mut ListDecoder,
    k: u8,
    format: &FrameFormat<Rate>,
    softs: &FrameSofts,
) -> Codewords
    requires some { 1 ≤ k }
    requires few { k ≤ 16 }
    requires format { IsFormat format.now }
    requires room { bits_in format.now ≤ decoder.old }
    requires bound { sum_by unsigned_abs softs.now ≤ 2 ^ 62 }
    ensures codewords { map codeword_of result ≡ codewords_in k softs.now format.now }
    ensures scores { All (λ e. e.score ≡ score_in softs.now format.now (codeword_of e)) result }
    ensures sizes { All (λ e. length e.word.bits ≡ bits_in format.now) result }
    ensures some { 1 ≤ length result }
    ensures kept { decoder.new ≡ decoder.old }
{
    let mut sums = [0; REPEATED_SYMBOLS];
    let code = &mut sums[..format.code_symbols()];
    gather_frame_into(format, softs, code);
    let mut codewords = Codewords::empty();
    decoder.list_into(code, Ends::Zero, k, &mut codewords);
    codewords
}

/// The first of these codewords whose quality indicator is right, as a frame.
fn candidate(format: &FrameFormat<Rate>, codewords: &Codewords) -> Option<DecodedFrame<Rate>>
    requires format { IsFormat format.now }
    requires sizes { All (λ e. length e.word.bits ≡ bits_in format.now) codewords.now }
    ensures { result ≡ option_map (λ e. frame_in format.now e.word.bits e.score)
        (find (λ e. is_right format.now e.word.bits) codewords.now) }
{
    for i in 0..codewords.len() {
        let entry = codewords.get(i);
        if is_right(format, &entry.word.bits) {
            return Some(frame_in(format, &entry.word.bits, entry.score));
        }
    }
    None
}

/// A rate's candidate among its first `k` codewords.
fn candidate_of(
    decoder: &mut ListDecoder,
    k: u8,
    rate: Rate,
    softs: &FrameSofts,
) -> Option<DecodedFrame<Rate>>
    requires some { 1 ≤ k }
    requires few { k ≤ 16 }
    requires room { 192 ≤ decoder.old }
    requires bound { sum_by unsigned_abs softs.now ≤ 2 ^ 62 }
    ensures value { result ≡
        candidate_of softs.now (format_of rate) (codewords_in k softs.now (format_of rate)) }
    ensures kept { decoder.new ≡ decoder.old }
{
    let format = format_of(rate);
    let codewords = codewords_in(decoder, k, &format, softs);
    candidate(&format, &codewords)
}

/// Decodes a traffic frame of rate set 1 with the first `k` codewords, 1 to 16, of each rate that
/// has a quality indicator.
///
/// `softs` contains the soft values of a frame's 384 symbols in the sent order, with the scrambling
/// removed. `places` contains the places of the power control bits, whose soft values count as 0.
/// At 9,600 and 4,800 bits a second, the first `k` codewords are found among those that start from
/// eight zeros and end with eight zeros. The first of them with a right quality indicator, if any,
/// is the rate's candidate. The best codewords at 2,400 and 1,200 bits a second are always
/// candidates. The candidate with the largest score is taken, the higher rate on a tie, and is good
/// exactly if that score is above 0. If it isn't, the rate is 9,600, with the information bits of
/// the best codeword at that rate. No memory is allocated.
///
/// TIA/EIA-95-B, 7.1.3.5: the bits of a frame at each rate; 7.1.3.1: they are encoded, each code
/// symbol is sent 1, 2, 4 or 8 times, and the symbols are interleaved.
pub fn listed_frame(
    decoder: &mut ListDecoder,
    k: u8,
    softs: &FrameSofts,
    places: &PowerPlaces,
) -> Decoded
    requires some { 1 ≤ k }
    requires few { k ≤ 16 }
    requires room { 192 ≤ decoder.old }
    requires bound { sum_by unsigned_abs softs.now ≤ 2 ^ 62 }
    ensures value { result ≡ listed k places.now softs.now }
    ensures kept { decoder.new ≡ decoder.old }
{
    let kept = without_power_bits(softs, places);
    let best = candidate_of(decoder, 1, Rate::R1200, &kept);
    let best = preferred(candidate_of(decoder, 1, Rate::R2400, &kept), best);
    let best = preferred(candidate_of(decoder, k, Rate::R4800, &kept), best);
    let format = format_of(Rate::R9600);
    let codewords = codewords_in(decoder, k, &format, &kept);
    let best = preferred(candidate(&format, &codewords), best);
    let first = codewords.get(0);
    let codeword = ScoredCodeword {
        bits: first.word.bits,
        score: first.score,
    };
    Decoded::of_frame(&good_or(&format, &codeword, best))
}
