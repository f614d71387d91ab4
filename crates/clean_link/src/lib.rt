//! What a handset receives over a clean link: laws over the definitions of what a base station
//! sends and of what a handset receives.
//!
//! A clean link is a sample file that holds what one cell sends over one path, without noise, and
//! in which no handoff is directed. On it, a stream that receives a channel decodes its frames, and
//! only the codeword that was sent in a span of them has the largest score. Each whole transmission
//! of the sync channel comes back with its message, in order. So do the whole pages of a paging
//! channel, those frames of a traffic channel that share their symbols with no other codeword, and
//! the messages that such frames carry: the reference's pilot stays the only active one. The events
//! of the pilot sets are those of the handset's definition.
//!
//! The steps up to a span's codeword are `clean_signal`'s, stated over any channel of a plan and
//! any stream with one finger on the path, and the sync channel is their first case (`CleanLaws`).
//! What follows from bits of pages only is in `clean_frames`. The frames of a traffic channel are
//! encoded one by one, so they use those steps only up to the soft values (`TrafficLaws`). Frames
//! that are received only from the reference base station come back whatever messages are received,
//! for either rate set (`ReceivedLaws`). What a handset receives on all channels is stated channel
//! by channel and frame by frame (`HeardEach`) and, if each is distinct, as one list
//! (`SentEvents`).
//!
//! If each sample differs a little from what the cell sends, each channel that bears noise of that
//! size still comes back, whatever the differences are. One file is computed with the largest noise
//! that its sync channel bears (`NoisyFile`).
#![tactic(auto)]

pub mod laws;
