//! Laws of the definitions: each function does nothing, and its contract is the law.

ghost use Rattle.tuned_listener.specs.SlotLaws.{IsWrittenByTimes, NeedsMark, SleepsThroughTheRest};

/// The text for a sleeping handset has a line for each slot that it monitors, in time order, each
/// followed by the lines of the messages in the slot's bits. A slot has a line if all of its four
/// frames are in the file on each path and have ended, and if the mark's data rate is not reserved.
/// Without a mark nothing is written.
pub fn slots_are_written_by_their_times()
    ensures times { IsWrittenByTimes }
    ensures mark { NeedsMark }
{}

/// The text for a sleeping handset doesn't depend on what it sleeps through: it is the same for two
/// files of the same tuning and length that agree before the mark and, path by path, in the samples
/// of its slots.
pub fn sleep_hides_the_rest()
    ensures { SleepsThroughTheRest }
{}
