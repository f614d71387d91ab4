//! The rank of a pilot.

/// The strength of a pilot and its place.
#[derive(Clone, Copy)]
pub struct Rank {
    /// The pilot's offset, 0 to 511, in steps of 64 chips.
    pub pilot: u16,
    /// How many chips the phase of greatest energy is above the pilot's own, -31 to 31.
    pub delta: i8,
    /// The energy at that phase: at most 2^63.
    pub energy: u64,
}
