//! Receives the frames of a channel: the clock that gives their places in a file, the fingers that
//! receive them, their soft values, and their descrambling.
#![tactic(auto)]

mod continued;
mod fingers;
mod frame_clock;
mod frame_receiver;
mod scrambling;
mod softs;

pub use continued::Continued;
pub use fingers::{frames_end, reference_fingers};
pub use frame_clock::{FrameClock, Span};
pub use frame_receiver::FrameReceiver;
pub use scrambling::Scrambling;
pub use softs::{SpanSofts, unscramble};
