//! The bits of a slot.

ghost use Rattle.std.specs.Prelude.{◌≡◌, ◌<◌, ◌≤◌, ◌+◌, ◌*◌, ◌^◌, ◌++◌, ℕ, length, sum_by};
ghost use Rattle.std.specs.Prelude.{unsigned_abs};
ghost use Rattle.paging_message.specs.HalfFrames.{half_frame_body};
ghost use Rattle.frame_decoder.specs.Spans.{paging_channel};
ghost use Rattle.slot_mode.specs.Frames.{slot_span_first, span_end, slot_span_softs, slot_bits};
ghost use Rattle.slot_mode.specs.Frames.{slot_frame_bits};

use crate::wake::Wake;
use chip_core::Bits;
use chip_core::air::{DATA_SYMBOLS, SLOT_FRAMES};
use frame_decoder::paging_span;
use paging_message::HalfBits;
use symbol_path::Rate;
use viterbi::Decoder;

/// Returns the first frame of the span of a slot's frame: the frame before it, if the slot has one.
fn span_first(frame: u8) -> u8
    ensures { result ≡ slot_span_first frame }
{
    if frame == 0 { 0 } else { frame - 1 }
}

/// Returns the frame at which the span ends: the one after the next, or the slot's end.
fn span_end(frame: u8) -> u8
    requires { frame < 4 }
    ensures { result ≡ span_end frame }
{
    if frame == SLOT_FRAMES - 1 {
        SLOT_FRAMES
    } else {
        frame + 2
    }
}

/// Returns the bits of a slot's frame.
fn frame_bits(decoder: &mut Decoder, rate: Rate, softs: &[i64; 1536], frame: u8) -> Bits
    requires frame { frame < 4 }
    requires room { (paging_channel rate).bits * 3 ≤ decoder.old }
    requires bound { sum_by unsigned_abs (slot_span_softs softs.now frame) ≤ 2 ^ 62 }
    ensures value { result ≡ slot_frame_bits rate softs.now frame }
    ensures count { length result ≡ (paging_channel rate).bits }
    ensures kept { decoder.new ≡ decoder.old }
{
    let first = span_first(frame);
    let from = DATA_SYMBOLS * usize::from(first);
    let to = DATA_SYMBOLS * usize::from(span_end(frame));
    paging_span(decoder, rate, &softs[from..to], frame - first)
}

/// Appends a frame's bits to those of the frames before it.
fn append_all(out: &mut HalfBits, bits: &Bits)
    requires { length out.old + length bits.now ≤ 11264 }
    ensures { out.new ≡ out.old ++ bits.now }
{
    for i in 0..bits.len() {
        out.append(bits.get(i));
    }
}

/// Returns the bits of the slot in which a handset is awake, frame after frame: eight half-frames,
/// each of 96 bits at 9,600 bits per second, or of 48 at 4,800.
///
/// `softs` contains the soft values of the slot's four frames in the sent order, 384 per frame,
/// with the scrambling removed; a soft value is positive if its symbol is more likely a 0. Each
/// frame is decoded in a span (`paging_span`) of itself and its neighbors among these four. So the
/// span of the first frame has no frame before it, that of the last has none after it, and no frame
/// of another slot is used. The decoder must have room for the bits of three frames.
///
/// TIA/EIA-95-B, 6.6.2.1.1.3: a handset in slotted mode receives its slots; 7.1.3.4: a slot of 80
/// ms has four frames.
pub fn slot_bits(_wake: &Wake, decoder: &mut Decoder, rate: Rate, softs: &[i64; 1536]) -> HalfBits
    requires room { (paging_channel rate).bits * 3 ≤ decoder.old }
    requires bound { (frame : ℕ) → frame < 4 →
        sum_by unsigned_abs (slot_span_softs softs.now frame) ≤ 2 ^ 62 }
    ensures value { result ≡ slot_bits rate softs.now }
    ensures halves { length result ≡ 8 * (half_frame_body rate + 1) }
    ensures kept { decoder.new ≡ decoder.old }
{
    let mut bits = HalfBits::empty();
    for frame in 0..SLOT_FRAMES {
        append_all(&mut bits, &frame_bits(decoder, rate, softs, frame));
    }
    bits
}
