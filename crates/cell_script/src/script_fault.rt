//! The faults of a script.

use thiserror::Error;

/// The reason why a script is rejected.
///
/// The first of `TooBig`, `Line`, `Walsh`, `Gain`, `TooLoud` and `TooLong` is reported, in this
/// order; each is checked over the whole script.
#[derive(Clone, Copy, PartialEq, Eq, Debug, Error)]
pub enum ScriptFault {
    /// A line is misplaced or missing.
    #[error("line {n}")]
    Line {
        /// The smallest number, from 1, such that no script without this fault begins with lines 1
        /// to `n`; if a required line is missing at the end, the number of the line after the last.
        n: u32,
    },
    /// A traffic channel has the row of the pilot or of the sync channel, or a row is used twice.
    #[error("walsh {row}")]
    Walsh {
        /// The row of the first such channel in the script.
        row: u8,
    },
    /// A gain is 0.
    #[error("gain {row}")]
    Gain {
        /// The Walsh row of the channel with this gain, the first in the script: 0 for the pilot,
        /// 32 for the sync channel.
        row: u8,
    },
    /// The signal could exceed the samples' range: 32,767 with 16 bits, 127 with 8 bits.
    #[error("too loud {sum}")]
    TooLoud {
        /// The sum of the absolute values of the link's parts, times the sum of all gains.
        sum: u64,
    },
    /// The script asks for more samples than a file can have: 33,554,432 with 16 bits, 67,108,864
    /// with 8 bits.
    #[error("too long {n}")]
    TooLong {
        /// How many samples the script asks for.
        n: u64,
    },
    /// Out of memory.
    #[error("out of memory")]
    OutOfMemory,
    /// The script has more than 1,048,576 bytes.
    #[error("too big")]
    TooBig,
}
