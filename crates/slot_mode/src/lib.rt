//! Slotted mode: the times at which a handset wakes, and the bits that it then decodes.
//!
//! A handset in slotted mode receives its paging channel in one slot of each cycle and sleeps
//! through the others (TIA/EIA-95-B, 6.6.2.1.1.3). A slot is 80 ms, one unit of the system time:
//! four frames of a paging channel. A hash of its key selects a handset's slot (6.6.7.1); the hash
//! and its constants, as written here, are this project's own.
//!
//! The bits of a slot depend only on its four frames, so what a handset receives doesn't depend on
//! what it slept through.
#![tactic(auto)]

mod frames;
mod hash;
pub mod laws;
mod wake;

pub use frames::slot_bits;
pub use hash::slot_of;
pub use wake::{Wake, monitored};
