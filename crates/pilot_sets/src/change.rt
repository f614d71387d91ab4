//! The result of an evaluation of the pilot sets.

/// The result of an evaluation of the pilot sets at one moment.
#[derive(Clone, Copy, PartialEq, Eq, Debug)]
pub struct SetChange {
    /// Whether the active or the candidate list differs from that at the beginning of the moment.
    pub changed: bool,
    /// Whether a pilot strength report is due.
    pub report: bool,
}
