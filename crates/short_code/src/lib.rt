//! The two pilot codes, as a table of 32,768 chips.
//!
//! Each sector of a cell spreads its signal by one sequence on the in-phase branch and by another
//! on the quadrature branch (TIA/EIA-95-B, 7.1.3.1.9). Both have a period of 2^15 chips: a maximal
//! sequence of a shift register of 15 stages, with one 0 inserted after its run of 14 zeros.
#![tactic(auto)]

mod product;
mod register;
mod table;

pub use product::despread;
pub use table::{Codes, signs_of};
