//! How check bits are sent.

/// Whether the check bits of messages are sent as they are computed, or each of them inverted.
///
/// Two flags in a sample file give the form of its 30-bit and 16-bit checks.
#[derive(Clone, Copy, PartialEq, Eq, Debug)]
pub enum CheckForm {
    /// The remainder as computed.
    Plain,
    /// Every bit of the remainder inverted.
    Complemented,
}
