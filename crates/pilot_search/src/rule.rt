//! The rule of the shared word, and what a seat learns from each step on it.

ghost use Rattle.std.specs.Prelude.{ℕ};
ghost use Rattle.pilot_search.specs.SharedRule.{IsSharedState, Begun, Loaded, Raised, fresh_view};
ghost use Rattle.pilot_search.specs.SharedRule.{spent, joined_views};

use crate::view::View;
use atomic_table::{Join, Play, Split, TableRule};
use std::marker::{Brand, PhantomData};

/// The rule that the word is between the floor and the ceiling, both included, of each seat that
/// isn't spent, and that all these ceilings are equal.
pub struct BestRule;

impl TableRule<(), View, ()> for BestRule {
    ghost holds = { λ _. IsSharedState };

    ghost first = { λ _. fresh_view };
}

/// A number, chosen by a call, that exists only in contracts.
pub trait Ceiling {
    ghost ceiling: { ℕ };
}

impl Ceiling for Brand {
    ghost ceiling = { 0 };
}

/// The step that gives the first seat its ceiling.
pub struct Begin<C> {
    ceiling: PhantomData<C>,
}

impl<C: Ceiling> Play<(), View> for Begin<C> {
    ghost then = { Begun C.ceiling };
}

/// The step that reads the word.
pub struct Load;

impl Play<(), View> for Load {
    ghost then = { Loaded };
}

/// The step that raises the word.
pub struct Raise;

impl Play<(), View> for Raise {
    ghost then = { Raised };
}

/// The split of a seat into two that both have its knowledge.
pub struct Same;

impl Split<View> for Same {
    ghost left = { λ v. v };

    ghost right = { λ v. v };
}

/// The join of two seats: the one that remains has the greater floor.
pub struct Greater;

impl Join<View> for Greater {
    ghost both = { joined_views };

    ghost spent = { spent };
}
