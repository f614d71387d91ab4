//! A transmitted channel, symbol by symbol.

ghost use Rattle.std.specs.Prelude.{◌≡◌, ◌<◌, ◌≤◌, ◌+◌, ◌*◌, ◌%◌, ◌^◌, ℕ, get_or, false, pos, ◌*ℤ◌};
ghost use Rattle.std.specs.Prelude.{unsigned_abs};
ghost use Rattle.chip_core.specs.Bits.{sign};
ghost use Rattle.cell_plan.specs.Signal.{level};
ghost use Rattle.cell_samples.specs.Continued.{symbol_count};
ghost use Rattle.cell_samples.specs.Channels.{carrier_of, form_of, source_symbols};

use crate::symbol_source::SymbolSource;
use chip_core::Bits;
use std::marker::Model;

/// A transmitted channel, with the symbols of one frame in memory. Contracts see its gain, its
/// Walsh row, the local chip of its first frame, and the source of its symbols.
///
/// TIA/EIA-95-B, 7.1.3.1: each channel is a stream of symbols that its Walsh row spreads.
#[derive(Drop)]
pub struct CellChannel {
    gain: u16,
    row: u8,
    first: u64,
    source: SymbolSource,
    // The frame whose symbols are kept.
    kept: u64,
    symbols: Bits,
}

impl Model for CellChannel {
    ghost use Rattle.cell_samples.specs.Channels.{ChannelState};

    ghost Value = { ChannelState };

    ghost use Rattle.cell_samples.specs.Channels.{IsOpen};

    ghost view = { λ c. record { gain = c.gain; row = c.row; first = c.first; source = c.source } };

    ghost invariant = { λ c.
        IsOpen (record { gain = c.gain; row = c.row; first = c.first; source = c.source })
        c.kept c.symbols };
}

/// Returns a gain with the sign of a symbol.
fn signed(gain: u16, symbol: bool) -> i64
    ensures value { result ≡ pos gain *ℤ sign symbol }
    ensures bound { unsigned_abs result ≤ 65535 }
{
    if symbol {
        -i64::from(gain)
    } else {
        i64::from(gain)
    }
}

impl CellChannel {
    /// Makes a channel whose first frame begins at local chip `first`.
    pub fn open(gain: u16, row: u8, first: u64, mut source: SymbolSource) -> CellChannel
        requires row { row < 64 }
        requires whole { first % 64 ≡ 0 }
        ensures { result ≡ record { gain = gain; row = row; first = first; source = source } }
    {
        let symbols = source.symbols(0);
        CellChannel {
            gain,
            row,
            first,
            source,
            kept: 0,
            symbols,
        }
    }

    /// Returns the channel's Walsh row.
    pub fn row(&self) -> u8
        ensures value { result ≡ self.now.row }
        ensures below { result < 64 }
    {
        self.row
    }

    /// Returns a symbol of a frame that begins within the first 2^34 chips.
    fn symbol(&mut self, frame: u64, place: u16) -> bool
        requires frame { frame * (form_of self.old.source).frame_chips < 2 ^ 34 }
        requires place { place < symbol_count (form_of self.old.source) }
        ensures value { result ≡ get_or (source_symbols self.old.source frame) place false }
        ensures same { self.new ≡ self.old }
    {
        if frame != self.kept {
            self.symbols = self.source.symbols(frame);
            self.kept = frame;
        }
        self.symbols.get(place)
    }

    /// Returns the level over the 64 chips from local chip `chip` on: the gain with the sign of the
    /// symbol, and 0 before the first frame.
    pub fn level(&mut self, chip: u64) -> i64
        requires whole { chip % 64 ≡ 0 }
        requires chip { chip < 2 ^ 34 }
        ensures value { (k : ℕ) → k < 64 → level (chip + k) (carrier_of self.old) ≡ result }
        ensures bound { unsigned_abs result ≤ 65535 }
        ensures same { self.new ≡ self.old }
    {
        if chip < self.first {
            return 0;
        }
        let following = chip - self.first;
        let form = self.source.form();
        let frame = following / form.frame_chips;
        let place = following % form.frame_chips / form.symbol_chips;
        signed(self.gain, self.symbol(frame, place as u16))
    }
}
