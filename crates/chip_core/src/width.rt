//! The width of the parts of samples.

/// The width of each part of a file's samples.
#[derive(Clone, Copy, PartialEq, Eq, Debug)]
pub enum Width {
    /// 16 bits, in a file of version 1.
    Sixteen,
    /// 8 bits, in a file of version 2.
    Eight,
}
