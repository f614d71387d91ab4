//! The scores of the first codewords into all states, after a number of bits.

ghost use Rattle.std.specs.Prelude.{◌≡◌, ◌<◌, ◌≤◌, ◌+◌, ◌^◌, ℕ, [], length, get_or, vec_len, All};
ghost use Rattle.std.specs.Prelude.{unsigned_abs, IfOk};
ghost use Rattle.viterbi.specs.Survivors.{end_count};
ghost use Rattle.list_viterbi.specs.Picks.{HasPicks, picks_into};
ghost use Rattle.list_viterbi.specs.Columns.{starts_at, start_scores, first_finds};

use crate::finds::{Finds, first_ends};
use crate::picking::{Choices, step};
use crate::scores::Scores;
use chip_core::OutOfMemory;
use std::alloc::Global;
use std::marker::Model;
use viterbi::Ends;

/// The scores of the first codewords into each state, at most `k` for each.
///
/// Contracts see the largest number of codewords, and the scores of each state.
#[derive(Drop)]
pub struct Column {
    k: u8,
    states: Vec<Scores>,
    /// The scores after another bit.
    next_states: Vec<Scores>,
}

impl Model for Column {
    ghost use Rattle.std.specs.Prelude.{◌≡◌, ◌≤◌, vec_len};
    ghost use Rattle.list_viterbi.specs.Columns.{ColumnValue};

    ghost Value = { ColumnValue };

    ghost view = { λ r. record { k = r.k; scores = r.states.items } };

    ghost invariant = { λ r. (vec_len r.states ≡ 256) × (vec_len r.next_states ≡ 256)
        × (r.k ≤ 16) };
}

/// Returns a column of states without codewords.
fn empty_column(alloc: Global) -> Result<Vec<Scores>, OutOfMemory>
    ensures { IfOk result (λ column. vec_len column ≡ 256) }
{
    let mut column = Vec::with_capacity(alloc, 256)?;
    for _state in 0..256usize {
        column.push(Scores::empty())?;
    }
    Ok(column)
}

/// Whether a codeword may start from a state.
fn is_start(state: u8, ends: Ends) -> bool
    ensures { result ≡ starts_at ends state }
{
    match ends {
        Ends::Zero => state == 0,
        Ends::Free => true,
    }
}

/// Returns the score of the codeword of no bits into a state, if a codeword may start from it.
fn start_at(state: u8, ends: Ends) -> Scores
    ensures { result ≡ start_scores ends state }
{
    let mut scores = Scores::empty();
    if is_start(state, ends) {
        scores.push(0);
    }
    scores
}

/// Sets the scores before the first bit.
fn start_column(column: &mut [Scores], ends: Ends)
    requires { length column.old ≡ 256 }
    ensures { (t : ℕ) → t < 256 → get_or column.new t [] ≡ start_scores ends t }
{
    for (state, scores) in column.iter_mut().enumerate() {
        *scores = start_at(state as u8, ends);
    }
}

impl Column {
    /// Returns a column of states without codewords, with all the memory that it needs.
    pub fn new(alloc: Global) -> Result<Column, OutOfMemory> {
        let states = empty_column(alloc)?;
        let next_states = empty_column(alloc)?;
        Ok(Column {
            k: 0,
            states,
            next_states,
        })
    }

    /// Sets the scores before the first bit.
    pub fn start(&mut self, ends: Ends, k: u8)
        requires { k ≤ 16 }
        ensures k { self.new.k ≡ k }
        ensures scores { (t : ℕ) → t < 256 →
            get_or self.new.scores t [] ≡ start_scores ends t }
    {
        self.k = k;
        start_column(&mut self.states, ends);
    }

    /// Advances the scores of the first codewords into all states by one bit, with the soft values
    /// of its two symbols, and writes their choices to `choices`.
    pub fn step(&mut self, first: i64, second: i64, choices: &mut Choices)
        requires fits { unsigned_abs first + unsigned_abs second ≤ 2 ^ 62 }
        requires room { (t : ℕ) → t < 256 →
            All (λ s. unsigned_abs s + (unsigned_abs first + unsigned_abs second) ≤ 2 ^ 62)
            (get_or self.old.scores t []) }
        ensures k { self.new.k ≡ self.old.k }
        ensures each { (t : ℕ) → t < 256 →
            HasPicks (get_or self.new.scores t []) (get_or choices.new t 0)
            (picks_into self.old.scores first second self.old.k t) }
    {
        step(
            &self.states,
            first,
            second,
            self.k,
            &mut self.next_states,
            choices,
        );
        std::mem::swap(&mut self.states, &mut self.next_states);
    }

    /// Returns the first codewords of the states in which a codeword may end.
    pub fn first_ends(&self, ends: Ends) -> Finds
        ensures { result ≡ first_finds self.now.scores self.now.k (end_count ends) }
    {
        first_ends(&self.states, ends, self.k)
    }
}
