//! The traffic channel of a handset.

/// The traffic channel that a base station assigned to a handset (TIA/EIA-95-B, 7.1.3.5).
#[derive(Clone, Copy, PartialEq, Eq, Debug)]
pub struct Traffic {
    /// The handset's electronic serial number, by which the channel is scrambled.
    pub esn: u32,
    /// The channel's Walsh row, 1 to 63.
    pub row: u8,
    /// The delay of its frames from the system's, in units of 1.25 ms: 0 to 15.
    pub offset: u8,
}
