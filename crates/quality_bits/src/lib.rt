//! Frame quality indicators and message checks (TIA/EIA-95-B, 7.1.3.5 and 7.7): remainders of the
//! bits, as a polynomial over the field of two elements, by a fixed generator. The crate also has
//! message capsules, which end with a check, the faults of messages, and the framer that cuts
//! capsules out of whole frames. It defines the formats of frames, a row for each rate, and those
//! of rate set 1.
#![tactic(auto)]

mod capsule;
mod checking;
mod format;
mod framer;
mod kind;
pub mod laws;
mod message_fault;
mod open_capsule;
mod rate;
mod register;

pub use capsule::{CapsuleFault, body_count, body_of, capsule_of, fills_capsule, stated_length};
pub use checking::{append_check, check};
pub use format::{FrameFormat, REPEATED_SYMBOLS};
pub use framer::CapsuleFramer;
pub use kind::Kind;
pub use message_fault::MessageFault;
pub use open_capsule::OpenCapsule;
pub use rate::{Rate, format_of};
pub use register::Register;
