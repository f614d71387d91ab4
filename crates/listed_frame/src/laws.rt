//! Laws of the definition: each function does nothing, and its contract is the law.

ghost use Rattle.listed_frame.specs.Laws.{IsDecodedByOneCodeword, IsListedBySigns};
ghost use Rattle.listed_frame.specs.Laws.{IsSentFrameListed};

/// With one codeword per rate, the frame is the one decoded from the best codewords.
pub fn listing_one_codeword_changes_nothing()
    ensures { IsDecodedByOneCodeword }
{}

/// A traffic frame is decoded with its rate and information bits, and is good, for any number of
/// listed codewords, if two conditions hold. The soft values of the symbols that no power control
/// bit replaces are one positive number times the symbols' signs. No other codeword of any rate has
/// these symbols there.
pub fn sent_frame_is_listed()
    ensures { IsSentFrameListed }
{}

/// The same holds if these soft values have the symbols' signs and none is 0, whatever their sizes.
/// The score is the sum of the sizes.
pub fn sent_frame_is_listed_by_signs()
    ensures { IsListedBySigns }
{}
