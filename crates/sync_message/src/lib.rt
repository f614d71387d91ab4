//! Spells and reads the Sync Channel Message (TIA/EIA-95-B, 7.7.1.3), and defines the framer that
//! cuts its capsules out of the frames of the sync channel (7.7.1.2).
#![tactic(auto)]

mod fields;
pub mod laws;
mod layout;
mod message;
mod table;

pub use fields::SyncFields;
pub use message::SyncMessage;
pub use message_layout::FieldRow;
/// The framer of the frames of the sync channel (TIA/EIA-95-B, 7.7.1.2), each of 32 bits: the SOM
/// bit and 31 bits of body.
pub use quality_bits::{CapsuleFramer, MessageFault};
pub use table::{FREQ_FIELD, SYNC_FIELDS, sync_name, sync_width};
