//! The text written for the frames of one channel after the mark.

/// The kind of text written for the frames of one channel after the mark.
#[derive(Clone, Copy)]
pub enum TunedText {
    /// A line for each frame, decoded as one of rate set 2 (TIA/EIA-95-B, 7.1.3.5).
    RateSetTwo,
    /// A line for each frame, decoded as one of rate set 1 (7.1.3.5) from the first `k` codewords
    /// of each rate.
    Listed {
        /// The number of codewords tried at each rate, 1 to 16.
        k: u8,
    },
    /// A line for each slot of a paging channel that a sleeping handset monitors (6.6.2.1.1.3),
    /// followed by the lines of the slot's messages.
    Slots {
        /// The key of the handset.
        key: u32,
        /// The index of the handset's cycle, 0 to 7.
        cycle: u8,
    },
}
