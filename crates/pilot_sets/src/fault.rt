//! The reason why a handoff direction is refused.

use thiserror::Error;

/// The reason why a handoff direction is refused.
#[derive(Clone, Copy, PartialEq, Eq, Debug, Error)]
pub enum DirectionFault {
    /// More than 6 records.
    #[error("{count} records")]
    TooMany { count: u8 },
    /// A row that no traffic channel can have: 0, 32, or above 63. `row` is the first of them.
    #[error("row {row}")]
    Unknown { row: u8 },
    /// A pilot that is named twice. `pilot` is the first that occurs a second time.
    #[error("pilot {pilot} twice")]
    Twice { pilot: u16 },
}
