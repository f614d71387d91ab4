//! The source of the bits of a continued channel's frames.

ghost use Rattle.std.specs.Prelude.{◌≡◌, ◌*◌, ◌<◌, ◌^◌, length};
ghost use Rattle.symbol_path.specs.SentOrder.{shape_of, size};
ghost use Rattle.cell_samples.specs.Continued.{frame_bits_of, frame_size, continued_form};
ghost use Rattle.cell_samples.specs.Continued.{symbol_kind_of, repeats_in, scrambled_by};

use crate::page_cycle::PageCycle;
use crate::sendings::Sendings;
use cell_plan::{ChannelForm, PAGING_FORM, SYNC_FORM};
use chip_core::Bits;
use symbol_path::Kind;

/// The source of the frames' bits of a channel whose encoder continues from frame to frame.
#[derive(Drop)]
pub enum FrameSource {
    /// The transmissions of a sync channel's message (TIA/EIA-95-B, 7.7.1.2).
    Sync(Sendings),
    /// The half-frames of a paging channel's pages (7.7.2.1).
    Paging(PageCycle),
}

impl FrameSource {
    /// Returns the bits of a frame.
    pub fn frame_bits(&mut self, frame: u64) -> Bits
        requires { frame < 2 ^ 20 }
        ensures value { result ≡ frame_bits_of self.old frame }
        ensures count { length result ≡ frame_size self.old }
        ensures same { self.new ≡ self.old }
    {
        match self {
            FrameSource::Sync(sendings) => sendings.frame_bits(frame),
            FrameSource::Paging(cycle) => cycle.frame_bits(frame),
        }
    }

    /// Returns how long the channel's frames and symbols are.
    pub fn form(&self) -> ChannelForm
        ensures { result ≡ continued_form self.now }
    {
        match self {
            FrameSource::Sync(_) => SYNC_FORM,
            FrameSource::Paging(_) => PAGING_FORM,
        }
    }

    /// Returns the interleaver of the channel's frames (7.1.3.1.5).
    pub fn kind(&self) -> Kind
        ensures { result ≡ symbol_kind_of self.now }
    {
        match self {
            FrameSource::Sync(_) => Kind::Sync,
            FrameSource::Paging(_) => Kind::Data,
        }
    }

    /// Returns how often each code symbol is sent (7.1.3.1.4).
    pub fn repeats(&self) -> u8
        ensures { result ≡ repeats_in self.now }
    {
        match self {
            FrameSource::Sync(_) => 2,
            FrameSource::Paging(cycle) => cycle.rate().repeats(),
        }
    }

    /// Returns the symbols of a frame, scrambled if the channel is (7.1.3.1.6).
    pub fn scrambled(&self, frame: u64, symbols: Bits) -> Bits
        requires frame { frame < 2 ^ 20 }
        requires symbols { length symbols ≡ size (shape_of (symbol_kind_of self.now)) }
        ensures value { result ≡ scrambled_by self.now frame symbols }
        ensures count { length result ≡ size (shape_of (symbol_kind_of self.now)) }
    {
        match self {
            FrameSource::Sync(_) => symbols,
            FrameSource::Paging(cycle) => cycle.scrambled(frame, &symbols),
        }
    }
}
