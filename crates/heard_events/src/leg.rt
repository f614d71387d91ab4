//! An active pilot with its parameters for a traffic channel.

use rake_finger::Finger;

/// An active pilot with the parameters for receiving its base station's traffic channel.
#[derive(Clone, Copy)]
pub struct Leg {
    /// Whether it is the reference's pilot, which is received on all of the handset's paths.
    pub reference: bool,
    /// The path of a pilot other than the reference's, and the channel's row.
    pub finger: Finger,
    /// The power control subchannel, from 0 to 5.
    pub subchannel: u8,
}
