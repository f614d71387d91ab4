//! Writes lines of text piece by piece without allocating, and reads the values that such pieces
//! state.
//!
//! A [`Text`] holds one line of at most 1,024 ASCII bytes: numbers in decimal, bits with their
//! count, and states of the long code and serial numbers in hex digits. The functions whose names
//! end in `_in`, and [`number_up_to`], read such a value from its text.
#![tactic(auto)]

mod text;
mod values;

pub use text::Text;
pub use values::{
    begins_with, bits_in, length_before, number_up_to, power_bits_in, serial_number_in, signed_in,
    state_in,
};
