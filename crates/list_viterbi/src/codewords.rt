//! Codewords with their scores, in order.

ghost use Rattle.std.specs.Prelude.{[], pos};
ghost use Rattle.list_viterbi.specs.Merging.{entry_score};

use crate::ranked::{Ranked, Scored};
use chip_core::Bits;
use viterbi::Codeword;

/// A codeword and its score.
#[derive(Clone, Copy)]
pub struct Entry {
    /// The codeword.
    pub word: Codeword,
    /// Its score: the sum of the soft values times the signs of its code symbols.
    pub score: i64,
}

impl Scored for Entry {
    ghost nothing = { record { word = record { start = 0; bits = [] }; score = pos 0 } };

    ghost score = { entry_score };

    fn nothing() -> Entry {
        let word = Codeword {
            start: 0,
            bits: Bits::empty(),
        };
        Entry { word, score: 0 }
    }

    fn score(&self) -> i64 {
        self.score
    }
}

/// A list of at most 16 codewords with their scores.
pub type Codewords = Ranked<Entry>;

/// A shorter name for [`Codewords`].
pub type Words = Codewords;
