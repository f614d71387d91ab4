//! The formats in which frames of channels are sent.

use chip_core::air::{DATA_SYMBOLS, SYNC_SYMBOLS};
use symbol_path::{Kind, Rate};

/// The frames of a channel, by how they are sent (TIA/EIA-95-B, 7.1.3.1).
#[derive(Clone, Copy)]
pub enum FrameKind {
    /// Frames of the sync channel: 32 bits, each code symbol sent twice, 128 symbols.
    Sync,
    /// Frames of a paging channel at a rate, of 384 symbols: 192 bits at 9,600 bits per second,
    /// each code symbol sent once; 96 bits at 4,800, each code symbol sent twice.
    Paging(Rate),
}

impl FrameKind {
    ghost use Rattle.std.specs.Prelude.{◌≡◌, ◌*◌, ◌≤◌};
    ghost use Rattle.symbol_path.specs.SentOrder.{shape_of, size};
    ghost use Rattle.frame_decoder.specs.Spans.{channel_of, channel_for};

    /// Returns how a frame's bits are sent.
    pub(crate) fn span_format(self) -> SpanFormat
        ensures value { channel_of result ≡ channel_for self }
        ensures sent { 2 * result.bits * result.repeats ≡ size (shape_of result.kind) }
        ensures least { 8 ≤ result.bits }
        ensures most { result.bits ≤ 192 }
    {
        match self {
            FrameKind::Sync => SpanFormat {
                kind: Kind::Sync,
                bits: 32,
                repeats: 2,
            },
            FrameKind::Paging(rate) => SpanFormat {
                kind: Kind::Data,
                bits: rate.frame_bits(),
                repeats: rate.repeats(),
            },
        }
    }
}

/// How a frame's bits are sent, with two code symbols per bit.
#[derive(Clone, Copy)]
pub(crate) struct SpanFormat {
    /// The number of symbols that a frame sends, and their order.
    pub kind: Kind,
    /// The number of bits of a frame.
    pub bits: u16,
    /// How often each code symbol is sent.
    pub repeats: u8,
}

impl SpanFormat {
    ghost use Rattle.std.specs.Prelude.{◌≡◌, ◌*◌, ◌≤◌};
    ghost use Rattle.symbol_path.specs.SentOrder.{shape_of, size};

    /// Returns how many symbols a frame sends.
    pub(crate) fn symbols(self) -> usize
        ensures value { result ≡ size (shape_of self.kind) }
        ensures most { result ≤ 384 }
    {
        match self.kind {
            Kind::Sync => SYNC_SYMBOLS,
            Kind::Data => DATA_SYMBOLS,
        }
    }

    /// Returns how many code symbols a frame has.
    pub(crate) fn code_symbols(self) -> usize
        ensures { result ≡ 2 * self.bits }
    {
        2 * usize::from(self.bits)
    }
}
