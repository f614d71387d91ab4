//! Laws of the definitions: each function does nothing, and its contract is the law.

ghost use Rattle.slot_mode.specs.Laws.{ComesAgain, ComesInTime, ComesOnce, HasOneRemainder};
ghost use Rattle.slot_mode.specs.Laws.{IsAmongShorter, IsOfNeighbours, IsHeardAsEver};

/// A handset monitors one slot in each cycle: exactly one among as many consecutive times as the
/// cycle has slots, and every time that is a whole number of cycles later. So exactly the times
/// with one remainder modulo the cycle's length are monitored.
pub fn one_slot_in_each_cycle()
    ensures again { ComesAgain }
    ensures in_time { ComesInTime }
    ensures once { ComesOnce }
    ensures remainder { HasOneRemainder }
{}

/// Every slot that is monitored in a longer cycle is also monitored in a shorter one.
pub fn longer_cycles_skip_slots()
    ensures { IsAmongShorter }
{}

/// The frames of a span are the frame itself and its neighbours among the slot's four. The two
/// middle frames have both neighbours in the slot, so their bits are those that a handset in
/// non-slotted mode decodes.
pub fn spans_lie_in_the_slot()
    ensures neighbours { IsOfNeighbours }
    ensures middle { IsHeardAsEver }
{}
