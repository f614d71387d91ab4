//! The signal over a clean link and its soft values: laws over the definitions of what a base
//! station sends and of what fingers find.
//!
//! A clean link is a sample file that holds what one cell sends over one path, without noise. For
//! each channel, a finger on the path finds a number times the signs of its symbols. So a stream
//! that receives the channel shows its symbols before scrambling, and only the codeword that was
//! sent in a span of its frames has the largest score (`ChannelLaws`). This holds for any channel
//! of a plan and any stream with one finger on the path (`Signals`), without a handset.
//!
//! If each sample differs a little from what the cell sends, each channel that bears noise of that
//! size still shows the signs of its symbols, whatever the differences are (`BoundedNoise`,
//! `NearFiles`): another cell, another path and rounding are such noise.
#![tactic(auto)]

pub mod laws;
