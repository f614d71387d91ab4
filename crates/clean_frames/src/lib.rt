//! The bits in the frames of a clean link: laws over the definitions of what a base station sends.
//!
//! A file holds some of a cell's frames whole, and so some of what they contain: transmissions of a
//! sync channel (`WholeSendings`), pages of a paging channel (`WholePages`), and frames of a
//! traffic channel with the signaling in them (`SentFrames`). The half-frames of a paging channel,
//! read from any frame on, complete exactly the capsules of the pages that lie in them whole. These
//! laws use no handset, and soft values only for what a traffic frame shows.
#![tactic(auto)]

pub mod laws;
