//! Laws of the definitions: each function does nothing, and its contract is the law.

ghost use Rattle.clean_frames.specs.WholePages.{PageSendingsComeBack, WholePagesComeBack};

/// Read from any of its frames on, a paging channel's half-frames complete exactly the capsules of
/// the pages whose run begins there or later: once for each round of the cycle, in order, each in
/// the frame of its last bit. So the whole frames from a mark to a file's end complete exactly the
/// capsules of the pages that the file holds whole from the mark on.
pub fn half_frames_end_whole_pages()
    ensures frames { PageSendingsComeBack }
    ensures file { WholePagesComeBack }
{}
