//! Knowledge of a seat of the shared word.

/// A worker's knowledge of the shared word. It exists only in contracts; no value of this type is
/// made.
pub struct View {
    /// Whether the ceiling has not been set yet.
    pub fresh: bool,
    /// Whether the seat has no knowledge, because it is fresh or was joined to another one.
    pub spent: bool,
    /// A value that the word had reached when the seat last saw it.
    pub floor: u64,
    /// A value that the word never exceeds.
    pub ceiling: u64,
}
