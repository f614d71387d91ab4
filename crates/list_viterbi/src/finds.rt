//! The first codewords of all end states, by their scores and their places in the lists of states.

ghost use Rattle.std.specs.Prelude.{◌≡◌, ◌≤◌, length, pos};
ghost use Rattle.viterbi.specs.Survivors.{end_count};
ghost use Rattle.list_viterbi.specs.Columns.{find_score, finds_from, first_finds};

use crate::ranked::{Ranked, Scored, merged};
use crate::scores::Scores;
use viterbi::{Ends, end_states};

/// A codeword that leads into a state: its score, the state, and its place in the state's list.
#[derive(Clone, Copy)]
pub struct Find {
    /// The score.
    pub score: i64,
    /// The state.
    pub state: u8,
    /// The place in the state's list, counted from 0.
    pub rank: u8,
}

impl Scored for Find {
    ghost nothing = { record { score = pos 0; state = 0; rank = 0 } };

    ghost score = { find_score };

    fn nothing() -> Find {
        Find {
            score: 0,
            state: 0,
            rank: 0,
        }
    }

    fn score(&self) -> i64 {
        self.score
    }
}

/// A list of at most 16 codewords that lead into states.
pub type Finds = Ranked<Find>;

/// Returns the codewords of a state's list.
fn finds_of(scores: &Scores, state: u8) -> Finds
    ensures { result ≡ finds_from state 0 scores.now }
{
    let mut finds = Finds::empty();
    for rank in 0..scores.len() {
        finds.push(Find {
            score: *scores.get(rank),
            state,
            rank,
        });
    }
    finds
}

/// Returns the first `k` codewords of the states in which a codeword may end.
pub fn first_ends(column: &[Scores], ends: Ends, k: u8) -> Finds
    requires whole { length column.now ≡ 256 }
    requires few { k ≤ 16 }
    ensures { result ≡ first_finds column.now k (end_count ends) }
{
    let mut finds = Finds::empty();
    for state in 0..end_states(ends) {
        finds = merged(&finds, &finds_of(&column[state], state as u8), k);
    }
    finds
}
