//! The scores of the first codewords into a state.

ghost use Rattle.std.specs.Prelude.{pos};

use crate::ranked::{Ranked, Scored};

impl Scored for i64 {
    ghost nothing = { pos 0 };

    ghost score = { λ s. s };

    fn nothing() -> i64 {
        0
    }

    fn score(&self) -> i64 {
        *self
    }
}

/// The scores of at most 16 codewords, in the order of the codewords.
pub type Scores = Ranked<i64>;
