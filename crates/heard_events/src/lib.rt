//! Defines what a handset receives from a file of samples, and when: the events, the mark that a
//! sync message sets, and each received frame. These are definitions over all samples, with their
//! types and the laws of causality. The handset itself is `mobile_core`.
//!
//! This crate also computes what needs no receiver: the events of capsules and frames, the pilot
//! sets at each moment, and the soft values of a frame from several active pilots.
#![tactic(auto)]

mod channel;
mod event;
mod fingers;
pub mod hearing;
pub mod laws;
mod leg;
mod leg_softs;
mod legs;
mod mark;
mod measuring;
mod sets_keeper;
mod sets_notes;
mod settings;
mod soft_frame;
mod spelled;

pub use channel::CodeChannel;
pub use chip_core::Traffic;
pub use event::Event;
pub use fingers::leg_fingers;
pub use leg::Leg;
pub use leg_softs::power_softs;
pub use legs::Legs;
pub use mark::Mark;
pub use sets_keeper::SetsKeeper;
pub use settings::Settings;
pub use soft_frame::{PowerControl, SoftFrame};
pub use spelled::Spelled;
