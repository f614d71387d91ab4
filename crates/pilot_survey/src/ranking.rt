//! The ranking of all pilots.

ghost use Rattle.std.specs.Prelude.{◌≡◌, ◌<◌, length, slice_get, Some};
ghost use Rattle.std.specs.List.Sorted.{IsPermutation};
ghost use Rattle.pilot_survey.specs.Ranking.{AreInOrder};

use crate::rank::Rank;
use std::cmp::Reverse;
use std::marker::Model;

/// The number of pilots.
pub(crate) const PILOTS: usize = 512;

/// The ranks of all 512 pilots, the strongest first. Contracts see the list of the ranks.
#[derive(Drop)]
pub struct Survey {
    ranks: Vec<Rank>,
}

impl Model for Survey {
    ghost use Rattle.std.specs.Prelude.{◌≡◌, List, length};
    ghost use Rattle.pilot_survey.specs.declared.rank.Rank.{Rank};

    ghost Value = { List Rank };

    ghost view = { λ survey. survey.ranks.items };

    ghost invariant = { λ survey. length survey.ranks.items ≡ 512 };
}

impl Survey {
    /// Sorts the ranks by falling energy, then by rising pilot.
    pub(crate) fn of(ranks: Vec<Rank>) -> Survey
        requires { length ranks.items ≡ 512 }
        ensures permutation { IsPermutation ranks.items result }
        ensures order { AreInOrder result }
    {
        let mut ranks = ranks;
        ranks.sort_unstable_by_key(|rank| (Reverse(rank.energy), rank.pilot));
        Survey { ranks }
    }

    /// Returns the rank at place `i`; place 0 has the strongest pilot.
    pub fn get(&self, i: u16) -> Rank
        requires { i < 512 }
        ensures { slice_get self.now i ≡ Some result }
    {
        self.ranks[usize::from(i)]
    }
}
