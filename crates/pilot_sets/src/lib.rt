//! The pilot sets of a handset, and soft handoff.
//!
//! A handset tells base stations apart by the offsets of their pilots. It keeps a few of them in
//! three sets (TIA/EIA-95-B, 6.6.6.2): the active set, whose traffic channels it receives;
//! candidates, which are strong enough to be received; and neighbors, which may become so. At each
//! moment, every 80 ms, pilots move between the sets according to their strengths, and a handoff
//! direction may order another active set. This crate sees only strengths and messages, not the
//! signal.
#![tactic(auto)]

mod change;
mod directing;
mod each_pilot;
mod fault;
mod few;
mod handoff;
mod hearing;
pub mod laws;
mod lists;
mod moment;
mod moves;
mod pilots;
mod reports;
mod sets;
mod standing;
mod strengths;
mod tables;
mod thresholds;
mod timers;

pub use change::SetChange;
pub use each_pilot::EachPilot;
pub use fault::DirectionFault;
pub use few::Filler;
pub use lists::{Active, ActiveList, PilotList};
pub use sets::Sets;
pub use strengths::{Strength, Strengths};
pub use thresholds::Thresholds;
