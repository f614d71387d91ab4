//! The forms of a frame.

/// The form of a frame, by the interleaver that it goes through.
///
/// TIA/EIA-95-B, 7.1.3.1.5.
#[derive(Clone, Copy, PartialEq, Eq, Debug)]
pub enum Kind {
    /// A frame of the sync channel: 128 symbols.
    Sync,
    /// A frame of a paging or traffic channel: 384 symbols.
    Data,
}
