//! The reasons why a list of bits is not a message.

use crate::capsule::CapsuleFault;
use thiserror::Error;

/// The reason why a list of bits is not a message of a channel.
#[derive(Clone, Copy, PartialEq, Eq, Debug, Error)]
pub enum MessageFault {
    /// Its number of bits differs from its MSG_LENGTH, or MSG_LENGTH is outside 5 to 148 octets.
    #[error("bad length")]
    BadLength,
    /// It doesn't end with its check.
    #[error("bad check")]
    BadCheck,
    /// Its body isn't that of a message: the channel has no message of its type, or the fields of
    /// its type don't fit.
    #[error("bad body")]
    BadBody,
}

impl From<CapsuleFault> for MessageFault {
    ghost use Rattle.std.specs.Prelude.{◌≡◌};
    ghost use Rattle.quality_bits.specs.Faults.{fault_of};

    ghost from_gives = { λ capsule fault. fault ≡ fault_of capsule };

    fn from(capsule: CapsuleFault) -> Self {
        match capsule {
            CapsuleFault::BadLength => MessageFault::BadLength,
            CapsuleFault::BadCheck => MessageFault::BadCheck,
        }
    }
}
