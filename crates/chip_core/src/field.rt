//! Fields of messages.

/// A field of a message: a number, and the number of bits that it is sent in, the highest first.
///
/// TIA/EIA-95-B, 7.7: a message is a list of fields of fixed widths.
#[derive(Clone, Copy, PartialEq, Eq, Debug)]
pub struct Field {
    /// The number of bits.
    pub width: u8,
    /// The number that they spell.
    pub value: u64,
}
