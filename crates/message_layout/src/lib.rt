//! Layouts of message bodies (TIA/EIA-95-B, 7.7): one table lists the fields of a body, and one
//! reader and one writer use it.
//!
//! Contents that are read have a fixed size ([`Contents`]), so nothing allocates. Reading a list of
//! bits returns contents exactly if the list is the spelling of these contents.
#![tactic(auto)]

mod contents;
pub mod laws;
mod layout;
mod reading;
mod rows;
mod slice;
mod values;
mod writing;

pub use contents::Contents;
pub use layout::{
    ALL_BITS, FieldRow, Group, MessageLayout, NO_GROUP, NO_OCTETS, NO_RECORDS, Octets, Presence,
    Records, name_in, width_in,
};
pub use reading::{read, read_fields, read_from, read_kind};
pub use slice::BitSlice;
pub use values::FieldValues;
pub use writing::append;
