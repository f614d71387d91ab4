//! How frames are cut into symbols and windows.

ghost use Rattle.std.specs.Prelude.{◌≡◌, ◌*◌};
ghost use Rattle.rake_finger.specs.Soft.{symbol_chips, window_chips, windows, window_symbols};

use chip_core::air::{DATA_SYMBOL_CHIPS, SYNC_SYMBOL_CHIPS};

/// How a channel's frame is cut into symbols, and into the windows whose pilot turns them.
#[derive(Clone, Copy, PartialEq, Eq, Debug)]
pub enum Form {
    /// The sync channel: 128 symbols of 256 chips, and windows of 1,024 chips (TIA/EIA-95-B,
    /// 7.1.3.3).
    Sync,
    /// The paging and traffic channels: 384 symbols of 64 chips, and windows of 1,536 chips, one
    /// power control group each.
    Data,
}

impl Form {
    /// Returns the number of chips in a symbol.
    pub(crate) fn symbol_chips(self) -> u16
        ensures { result ≡ symbol_chips self }
    {
        match self {
            Form::Sync => SYNC_SYMBOL_CHIPS as u16,
            Form::Data => DATA_SYMBOL_CHIPS as u16,
        }
    }

    /// Returns the number of chips in a window.
    pub(crate) fn window_chips(self) -> u16
        ensures { result ≡ window_chips self }
    {
        match self {
            Form::Sync => 1024,
            Form::Data => 1536,
        }
    }

    /// Returns the number of windows in a frame.
    pub(crate) fn windows(self) -> u16
        ensures { result ≡ windows self }
    {
        match self {
            Form::Sync => 32,
            Form::Data => 16,
        }
    }

    /// Returns the number of symbols in a window.
    pub(crate) fn window_symbols(self) -> u16
        ensures { result ≡ window_symbols self }
    {
        match self {
            Form::Sync => 4,
            Form::Data => 24,
        }
    }
}
