//! The thresholds of the pilot sets.

/// The thresholds of the pilot sets and the widths of their search windows, each as the number that
/// a message contains (TIA/EIA-95-B, 6.6.6.2).
#[derive(Clone, Copy, PartialEq, Eq, Debug)]
pub struct Thresholds {
    /// The search window of active pilots and candidates, in 4 bits (SRCH_WIN_A).
    pub win_a: u8,
    /// The search window of neighbors, in 4 bits (SRCH_WIN_N).
    pub win_n: u8,
    /// The strength from which a neighbor becomes a candidate, in half decibels below the samples'
    /// power, in 6 bits (T_ADD).
    pub t_add: u8,
    /// The strength below which a pilot's timer starts, in half decibels below the samples' power,
    /// in 6 bits (T_DROP).
    pub t_drop: u8,
    /// The number of half decibels by which a candidate must exceed an active pilot to be reported,
    /// in 4 bits (T_COMP).
    pub t_comp: u8,
    /// The time that a timer runs, in 4 bits (T_TDROP).
    pub t_tdrop: u8,
}
