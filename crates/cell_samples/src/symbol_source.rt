//! The source of the symbols of a channel's frames.

ghost use Rattle.std.specs.Prelude.{◌≡◌, ◌<◌, ◌*◌, ◌^◌, false, [], ◌∷◌, length};
ghost use Rattle.cell_samples.specs.Continued.{symbol_count};
ghost use Rattle.cell_samples.specs.Channels.{form_of, source_symbols};

use crate::continued::ContinuedEncoder;
use crate::traffic_cycle::TrafficCycle;
use cell_plan::{ChannelForm, PAGING_FORM, PILOT_FORM};
use chip_core::Bits;

/// The source of the symbols of a channel's frames.
#[derive(Drop)]
pub enum SymbolSource {
    /// The pilot: each symbol is 0 (TIA/EIA-95-B, 7.1.3.2).
    Pilot,
    /// An encoder that continues from frame to frame (7.1.3.1.3).
    Continued(ContinuedEncoder),
    /// The frames of a traffic channel, each encoded by itself (7.1.3.5).
    Traffic(TrafficCycle),
}

/// Returns the only symbol of a frame of the pilot.
fn pilot_symbols() -> Bits
    ensures { result ≡ false ∷ [] }
{
    let mut symbols = Bits::empty();
    symbols.append(false);
    symbols
}

impl SymbolSource {
    /// Returns how long the frames and symbols are.
    pub fn form(&self) -> ChannelForm
        ensures { result ≡ form_of self.now }
    {
        match self {
            SymbolSource::Pilot => PILOT_FORM,
            SymbolSource::Continued(encoder) => encoder.form(),
            SymbolSource::Traffic(_) => PAGING_FORM,
        }
    }

    /// Returns the symbols of a frame that begins within the first 2^34 chips.
    pub fn symbols(&mut self, frame: u64) -> Bits
        requires { frame * (form_of self.old).frame_chips < 2 ^ 34 }
        ensures value { result ≡ source_symbols self.old frame }
        ensures count { length result ≡ symbol_count (form_of self.old) }
        ensures same { self.new ≡ self.old }
    {
        match self {
            SymbolSource::Pilot => pilot_symbols(),
            SymbolSource::Continued(encoder) => encoder.symbols(frame),
            SymbolSource::Traffic(cycle) => cycle.symbols(frame),
        }
    }
}
