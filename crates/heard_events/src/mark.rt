//! The time reference: the sample at which a sync message's time holds.

use long_code::State;
use symbol_path::Rate;

/// The time reference of a handset: the sample at which a sync message's time holds, and the
/// message's parameters of the channels that begin there (TIA/EIA-95-B, 7.7.1.3).
#[derive(Clone, Copy, PartialEq, Eq, Debug)]
pub struct Mark {
    /// The reference sample at which the time holds.
    pub sample: u64,
    /// The system time there, in units of 80 ms.
    pub time: u64,
    /// The state of the long code there.
    pub state: State,
    /// The offset of the pilot code, in units of 64 chips.
    pub pilot: u16,
    /// The data rate of the paging channels (PRAT).
    pub prat: u8,
}

impl Mark {
    ghost use Rattle.std.specs.Prelude.{◌≡◌, Some, None, nat_lt, if◌then◌else◌};
    ghost use Rattle.heard_events.specs.PagingStreams.{paging_rate};

    /// Returns the rate of the paging channels: 9,600 bits a second for PRAT 0 and 4,800 for 1;
    /// `None` for a reserved value (TIA/EIA-95-B, 7.7.1.3).
    pub fn paging_rate(&self) -> Option<Rate>
        ensures { result ≡ (if nat_lt self.now.prat 2 then Some (paging_rate self.now.prat)
            else None) }
    {
        match self.prat {
            0 => Some(Rate::R9600),
            1 => Some(Rate::R4800),
            _ => None,
        }
    }
}
