//! Channels whose encoder continues from frame to frame.

ghost use Rattle.std.specs.Prelude.{◌≡◌, ◌+◌, ◌*◌, ◌<◌, ◌≤◌, ◌^◌, length};
ghost use Rattle.chip_core.specs.Bits.{binary};
ghost use Rattle.cell_plan.specs.Sendings.{bits_before, continued_symbols};
ghost use Rattle.cell_samples.specs.Continued.{continued_frames, frame_bits_of, frame_size};
ghost use Rattle.cell_samples.specs.Continued.{continued_form, symbol_count};

use crate::frame_source::FrameSource;
use cell_plan::ChannelForm;
use chip_core::Bits;
use conv_code::encode_into;
use std::marker::Model;
use symbol_path::place_into;

/// An encoder that continues from frame to frame and starts in state zero (TIA/EIA-95-B,
/// 7.1.3.1.3). Contracts see the source of the frames' bits.
#[derive(Drop)]
pub struct ContinuedEncoder {
    source: FrameSource,
    // The frame after the one that was encoded last, and the encoder's state before it.
    next: u64,
    state: u8,
}

impl Model for ContinuedEncoder {
    ghost use Rattle.cell_samples.specs.declared.frame_source.FrameSource.{FrameSource};

    ghost Value = { FrameSource };

    ghost use Rattle.cell_samples.specs.Continued.{IsBefore};

    ghost view = { λ e. e.source };

    ghost invariant = { λ e. IsBefore e.source e.next e.state };
}

/// Returns the encoder's state before a frame: the last eight bits of the frame before it, and
/// zeros before the first.
fn state_before(source: &mut FrameSource, frame: u64) -> u8
    requires { frame ≤ 2 ^ 20 }
    ensures value { binary 8 result ≡ bits_before (frame_bits_of source.old) frame }
    ensures same { source.new ≡ source.old }
{
    if frame == 0 {
        return 0;
    }
    let mut code = Bits::empty();
    encode_into(0, &source.frame_bits(frame - 1), &mut code)
}

impl ContinuedEncoder {
    /// Makes an encoder before its first frame.
    pub fn new(source: FrameSource) -> ContinuedEncoder
        ensures { result ≡ source }
    {
        ContinuedEncoder {
            source,
            next: 0,
            state: 0,
        }
    }

    /// Returns how long the channel's frames and symbols are.
    pub fn form(&self) -> ChannelForm
        ensures { result ≡ continued_form self.now }
    {
        self.source.form()
    }

    /// Returns the encoder's state before a frame; it is kept from the previous frame if that was
    /// encoded last.
    fn state_at(&mut self, frame: u64) -> u8
        requires { frame < 2 ^ 20 }
        ensures value { binary 8 result ≡ bits_before (frame_bits_of self.old) frame }
        ensures same { self.new ≡ self.old }
    {
        if frame == self.next {
            return self.state;
        }
        state_before(&mut self.source, frame)
    }

    /// Returns the code symbols of a frame, two per bit.
    fn code(&mut self, frame: u64) -> Bits
        requires { frame < 2 ^ 20 }
        ensures value { result ≡ continued_symbols (frame_bits_of self.old) frame }
        ensures count { length result ≡ 2 * frame_size self.old }
        ensures same { self.new ≡ self.old }
    {
        let start = self.state_at(frame);
        let bits = self.source.frame_bits(frame);
        let mut code = Bits::empty();
        self.state = encode_into(start, &bits, &mut code);
        self.next = frame + 1;
        code
    }

    /// Returns the transmitted symbols of a frame: code symbols, repeated, interleaved, and
    /// scrambled if the channel is.
    pub fn symbols(&mut self, frame: u64) -> Bits
        requires { frame < 2 ^ 20 }
        ensures value { result ≡ continued_frames self.old frame }
        ensures count { length result ≡ symbol_count (continued_form self.old) }
        ensures same { self.new ≡ self.old }
    {
        let code = self.code(frame);
        let mut symbols = Bits::empty();
        place_into(
            self.source.kind(),
            self.source.repeats(),
            &code,
            &mut symbols,
        );
        self.source.scrambled(frame, symbols)
    }
}
