//! Phases near the best one.

/// The phases of greatest energy near the best one: the paths on which a base station's signal
/// arrives.
#[derive(Clone, Copy, PartialEq, Eq, Debug)]
pub struct Near {
    /// The number of phases, 1 to 3.
    pub count: u8,
    /// The number of chips by which each of them is above the best phase, -32 to 32, the best one
    /// first. Unused entries are 0.
    pub deltas: [i8; 3],
}
