//! Laws of the code. Each function does nothing, and its contract is the law.

ghost use Rattle.conv_code.specs.Laws.{IsDistinctCode, IsContinuedCode};

/// Eight or more pairs of symbols determine the start state and every bit.
pub fn symbols_fix_the_bits()
    ensures { IsDistinctCode }
{}

/// The symbols of two lists of bits, one after the other, are those of the first from the start
/// state, followed by those of the second from the state after the first.
pub fn symbols_continue()
    ensures { IsContinuedCode }
{}
