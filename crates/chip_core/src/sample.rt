//! Baseband samples and complex sums of them.

/// One sample of the received signal, one per chip: the in-phase and the quadrature branch.
///
/// TIA/EIA-95-B, 7.1.3.1.9: both branches carry the same data, spread by two codes.
#[derive(Clone, Copy, PartialEq, Eq, Debug)]
pub struct Sample {
    /// The in-phase branch.
    pub i: i16,
    /// The quadrature branch.
    pub q: i16,
}

/// A complex number with integer parts, such as a sum of samples.
#[derive(Clone, Copy, PartialEq, Eq, Debug)]
pub struct Pair {
    /// The real part: the in-phase branch.
    pub i: i64,
    /// The imaginary part: the quadrature branch.
    pub q: i64,
}
