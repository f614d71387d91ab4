//! The best codeword of a span of frames.

ghost use Rattle.frame_decoder.specs.Common.{shape_of, size, repeats_of, Free};
ghost use Rattle.std.specs.Prelude.{◌≡◌, ◌<◌, ◌≤◌, ◌*◌, ◌/◌, ◌%◌, ◌^◌, length, sum_by};
ghost use Rattle.std.specs.Prelude.{unsigned_abs};
ghost use Rattle.viterbi.specs.Best.{AreDecodable, IsBestCodeword, spelled_codeword};
ghost use Rattle.frame_decoder.specs.Spans.{sync_channel, paging_channel, channel_of, channel_for};
ghost use Rattle.frame_decoder.specs.Spans.{gathered_span, own_bits};

use crate::span_format::{FrameKind, SpanFormat};
use chip_core::Bits;
use chip_core::air::{DATA_SYMBOLS, SPAN_SYMBOLS, SYNC_SYMBOLS};
use symbol_path::{Rate, gather_into};
use viterbi::{Codeword, Decoder, Ends};

/// Sets `out` to the sum of the soft values sent for each code symbol, one frame after another.
fn gather_span(span_format: SpanFormat, frames: u8, softs: &[i64], out: &mut [i64])
    requires sent { 2 * span_format.bits * span_format.repeats ≡ size (shape_of span_format.kind) }
    requires most { span_format.bits ≤ 192 }
    requires softs { length softs.now ≡ size (shape_of span_format.kind) * frames }
    requires out { length out.old ≡ 2 * span_format.bits * frames }
    requires bounded { sum_by unsigned_abs softs.now ≤ 2 ^ 62 }
    ensures value { out.new ≡ gathered_span (channel_of span_format) frames softs.now }
    ensures bounded { sum_by unsigned_abs out.new ≤ sum_by unsigned_abs softs.now }
{
    let symbols = span_format.symbols();
    let code = span_format.code_symbols();
    for frame in 0..usize::from(frames) {
        let first = symbols * frame;
        let to = code * frame;
        gather_into(
            span_format.kind,
            span_format.repeats,
            &softs[first..first + symbols],
            &mut out[to..to + code],
        );
    }
}

/// Returns the best of all codewords, with any start and any end, for soft values in the order of
/// the code symbols.
fn best_codeword(decoder: &mut Decoder, softs: &[i64]) -> Codeword
    requires { AreDecodable decoder.old softs.now }
    ensures best { IsBestCodeword softs.now Free (spelled_codeword result) }
    ensures kept { decoder.new ≡ decoder.old }
{
    let mut codeword = Codeword {
        start: 0,
        bits: Bits::empty(),
    };
    decoder.best_into(softs, Ends::Free, &mut codeword);
    codeword
}

/// Returns the bits of frame `own` of the best codeword of a span of `frames` frames.
fn bits_of(
    decoder: &mut Decoder,
    span_format: SpanFormat,
    frames: u8,
    softs: &[i64],
    own: u8,
) -> Bits
    requires sent { 2 * span_format.bits * span_format.repeats ≡ size (shape_of span_format.kind) }
    requires least { 8 ≤ span_format.bits }
    requires most { span_format.bits ≤ 192 }
    requires frames { frames ≤ 3 }
    requires own { own < frames }
    requires softs { length softs.now ≡ size (shape_of span_format.kind) * frames }
    requires room { span_format.bits * frames ≤ decoder.old }
    requires bound { sum_by unsigned_abs softs.now ≤ 2 ^ 62 }
    ensures value { result ≡ own_bits (channel_of span_format) frames own softs.now }
    ensures count { length result ≡ span_format.bits }
    ensures kept { decoder.new ≡ decoder.old }
{
    let count = span_format.code_symbols() * usize::from(frames);
    let mut gathered = [0; SPAN_SYMBOLS];
    let span = &mut gathered[..count];
    gather_span(span_format, frames, softs, span);
    let codeword = best_codeword(decoder, span);
    codeword
        .bits
        .part(span_format.bits * u16::from(own), span_format.bits)
}

/// Returns the bits of frame `own`, counted from 0, of a span of one to three frames of a kind.
///
/// `softs` has the soft values of `frames` frames in the sent order, one frame after another, with
/// the scrambling removed if there is any; a soft value is positive if its symbol is more likely a
/// 0. The bits are those of the span's best codeword: of all codewords of its length, with any
/// start and any end, the one whose sent symbols agree best with the soft values of all frames
/// together. If several agree best, it is the first of them in the decoder's order.
///
/// TIA/EIA-95-B, 7.1.3.1: the bits are encoded from frame to frame, each code symbol is sent one or
/// more times, and the symbols of each frame are interleaved by themselves.
pub fn span_bits(decoder: &mut Decoder, kind: FrameKind, frames: u8, softs: &[i64], own: u8) -> Bits
    requires frames { frames ≤ 3 }
    requires own { own < frames }
    requires softs { length softs.now ≡ size (channel_for kind).shape * frames }
    requires room { (channel_for kind).bits * frames ≤ decoder.old }
    requires bound { sum_by unsigned_abs softs.now ≤ 2 ^ 62 }
    ensures value { result ≡ own_bits (channel_for kind) frames own softs.now }
    ensures count { length result ≡ (channel_for kind).bits }
    ensures kept { decoder.new ≡ decoder.old }
{
    bits_of(decoder, kind.span_format(), frames, softs, own)
}

/// Returns the 32 bits of frame `own`, counted from 0, of a span of one to three sync frames, as
/// [`span_bits`] does. `softs` has 128 soft values per frame.
///
/// TIA/EIA-95-B, 7.7.1.2: a sync frame has 32 bits; 7.1.3.1: they are encoded, each code symbol is
/// sent twice, and the symbols of each frame are interleaved by themselves.
pub fn sync_span(decoder: &mut Decoder, softs: &[i64], own: u8) -> Bits
    requires whole { length softs.now % 128 ≡ 0 }
    requires most { length softs.now ≤ 384 }
    requires own { 128 * own < length softs.now }
    requires room { 32 * (length softs.now / 128) ≤ decoder.old }
    requires bound { sum_by unsigned_abs softs.now ≤ 2 ^ 62 }
    ensures value { result ≡ own_bits sync_channel (length softs.now / 128) own softs.now }
    ensures count { length result ≡ 32 }
    ensures kept { decoder.new ≡ decoder.old }
{
    let frames = (softs.len() / SYNC_SYMBOLS) as u8;
    span_bits(decoder, FrameKind::Sync, frames, softs, own)
}

/// Returns the bits of frame `own`, counted from 0, of a span of one to three frames of a paging
/// channel, as [`span_bits`] does: 192 bits at 9,600 bits per second, and 96 at 4,800. `softs` has
/// 384 soft values per frame.
///
/// TIA/EIA-95-B, 7.1.3.1: the bits are encoded, each code symbol is sent once at 9,600 and twice at
/// 4,800, and the symbols of each frame are interleaved by themselves.
pub fn paging_span(decoder: &mut Decoder, rate: Rate, softs: &[i64], own: u8) -> Bits
    requires whole { length softs.now % 384 ≡ 0 }
    requires most { length softs.now ≤ 1152 }
    requires own { 384 * own < length softs.now }
    requires room { (paging_channel rate).bits * (length softs.now / 384) ≤ decoder.old }
    requires bound { sum_by unsigned_abs softs.now ≤ 2 ^ 62 }
    ensures value { result ≡ own_bits (paging_channel rate) (length softs.now / 384) own softs.now }
    ensures count { length result ≡ (paging_channel rate).bits }
    ensures kept { decoder.new ≡ decoder.old }
{
    let frames = (softs.len() / DATA_SYMBOLS) as u8;
    span_bits(decoder, FrameKind::Paging(rate), frames, softs, own)
}
