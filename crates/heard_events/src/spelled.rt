//! A decoded message with its capsule.

use chip_core::Bits;

/// A capsule, and the message that it spells.
#[derive(Clone, Copy)]
pub struct Spelled<M> {
    /// The whole capsule: length, body and check.
    pub capsule: Bits,
    /// The message that it spells.
    pub message: M,
}
