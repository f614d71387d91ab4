//! Laws of the definitions: each function does nothing, and its contract is the law.

ghost use Rattle.slot_link.specs.Laws.{SlotBitsComeBackBySigns, SlotPagesComeBack, SlotsComeBack};
ghost use Rattle.slot_link.specs.Laws.{SlotTextsComeBack, SpansComeBackBySigns};

/// Each frame whose soft values have the signs of what a channel sends comes back from any span
/// that it lies in, whatever the encoder held before the span. So the bits of a slot are those that
/// the channel sends in it.
pub fn slot_bits_come_back()
    ensures signs { SpansComeBackBySigns }
    ensures slot_signs { SlotBitsComeBackBySigns }
{}

/// On a cycle of pages, the bits of a slot spell exactly the pages whose run begins in the slot and
/// which end in it, once for each round of the cycle, in order.
pub fn slot_pages_come_back()
    ensures { SlotPagesComeBack }
{}

/// In a file of any origin, these pages come back from each slot that begins at the cell's mark or
/// after it and ends in the file, if the soft values of its four frames have the sent signs. If
/// each frame from the mark on has them, what is written for a handset that sleeps through all
/// slots but those of its cycle is as follows: the line of each monitored slot, with the number of
/// samples at which it ends and its time, and the lines of its pages. Nothing is written if no mark
/// is set or the cell's PRAT is 2 or 3.
pub fn slots_come_back()
    ensures slots { SlotsComeBack }
    ensures text { SlotTextsComeBack }
{}
