//! Limits on the events that are reported.

/// The greatest number of events reported of each form: pilots with their sets, messages, frames,
/// and raw messages, in this order.
pub type EventLimits = [u32; 4];
