//! What a sleeping handset receives in a file of any origin: laws over the definitions of what a
//! base station sends and of the slots that a handset monitors.
//!
//! A clean link is a sample file that holds what one cell sends over one path, without noise. The
//! bits of a slot come only from its four frames: the span of the slot's first frame has none
//! before it, and the span of its last none after it. On a clean link they are still the bits that
//! were sent, because the sent codeword has the largest score in any span of frames. So the
//! messages of a slot are the pages whose run begins in it and which end in it, in order, and the
//! lines of a file's slots are, slot by slot, what the cell sends. The same holds with noise of any
//! size that the sync channel and the paging channel bear.
#![tactic(auto)]

pub mod laws;
