//! Laws of the definitions: each function does nothing, and its contract is the law.

ghost use Rattle.symbol_path.specs.SentOrderTwo.{IsKeptOnce, IsDropped};
ghost use Rattle.rate_set_two.specs.Laws.{IsDecodedBySigns2, IsNothingGood2, IsSentFrameDecoded2};
ghost use Rattle.rate_set_two.specs.Laws.{KeepsAgreement};

/// Gathered soft values agree with code symbols exactly as well as the soft values agree with what
/// is sent for them.
pub fn gathering_keeps_agreement()
    ensures { KeepsAgreement }
{}

/// A frame comes back as a good one, with its rate and its information bits, if the soft values of
/// the symbols that no power control bit replaces are one positive number times the symbols' signs,
/// and no other codeword of any rate has these symbols there.
pub fn sent_frame_is_decoded()
    ensures { IsSentFrameDecoded2 }
{}

/// A frame sends each of its repeated symbols exactly once, except the third and the fifth of each
/// six, which it doesn't send.
pub fn third_and_fifth_are_dropped()
    ensures kept { IsKeptOnce }
    ensures dropped { IsDropped }
{}

/// A frame also comes back if no other codeword of any rate has its unreplaced symbols, and their
/// soft values have their signs and aren't 0, whatever their sizes. Its score is its codeword's.
pub fn sent_frame_is_decoded_by_signs()
    ensures { IsDecodedBySigns2 }
{}

/// If all soft values are 0, no frame is good, the rate is 14,400 bits a second and all bits are 0.
pub fn nothing_heard_is_not_good()
    ensures { IsNothingGood2 }
{}
