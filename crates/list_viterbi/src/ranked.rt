//! Lists of values by falling score, and the first values of two lists.

ghost use Rattle.std.specs.Prelude.{◌≡◌, ◌<◌, ◌≤◌, ℤ, [], ◌∷◌, ◌++◌, length, drop, slice_get, Some};
ghost use Rattle.list_viterbi.specs.Merging.{second_is_next, merge};

use std::marker::Model;

/// A value with a score.
pub trait Scored: Copy {
    ghost nothing: { Self };

    ghost score: { Self → ℤ };

    /// Returns the filler of unused places of a list.
    fn nothing() -> Self
        ensures { result ≡ nothing };

    /// Returns the score.
    fn score(&self) -> i64
        ensures { result ≡ score self.now };
}

/// A list of at most 16 values with scores.
///
/// Contracts see the list.
#[derive(Drop)]
pub struct Ranked<T: Scored> {
    entries: [T; 16],
    count: u8,
}

impl<T: Scored> Model for Ranked<T> {
    ghost use Rattle.std.specs.Prelude.{List, take, length, ◌≡◌, ◌≤◌};
    ghost use Rattle.std.specs.Coded.{coded_list};

    ghost Value = { List T };

    ghost coded = { coded_list T.code };

    ghost view = { λ r. take r.count r.entries };

    ghost invariant = { λ r. (r.count ≤ 16) × (length r.entries ≡ 16) };
}

impl<T: Scored> Ranked<T> {
    /// An empty list.
    pub fn empty() -> Ranked<T>
        ensures { result ≡ [] }
    {
        Ranked {
            entries: [T::nothing(); 16],
            count: 0,
        }
    }

    /// Makes the list empty.
    pub fn clear(&mut self)
        ensures { self.new ≡ [] }
    {
        self.count = 0;
    }

    /// Returns how many values the list has.
    pub fn len(&self) -> u8
        ensures value { result ≡ length self.now }
        ensures most { result ≤ 16 }
    {
        self.count
    }

    /// Returns the values of the list.
    fn all(&self) -> &[T]
        ensures value { result.now ≡ self.now }
        ensures most { length result.now ≤ 16 }
    {
        &self.entries[..self.count as usize]
    }

    /// Returns value `i`, counted from 0.
    pub fn get(&self, i: u8) -> &T
        requires { i < length self.now }
        ensures value { slice_get self.now i ≡ Some result.now }
        ensures below { i < 16 }
    {
        &self.all()[i as usize]
    }

    /// Adds a value at the end.
    pub fn push(&mut self, entry: T)
        requires { length self.old < 16 }
        ensures { self.new ≡ self.old ++ entry ∷ [] }
    {
        self.entries[self.count as usize] = entry;
        self.count += 1;
    }
}

/// Whether the next value comes from the second list, from place `j` on, rather than from the
/// first, from place `i` on.
fn takes_second<T: Scored>(first: &Ranked<T>, i: u8, second: &Ranked<T>, j: u8) -> bool
    requires first_place { i ≤ length first.now }
    requires second_place { j ≤ length second.now }
    ensures { result ≡ second_is_next T.score (drop i first.now) (drop j second.now) }
{
    if j == second.len() {
        return false;
    }
    if i == first.len() {
        return true;
    }
    first.get(i).score() < second.get(j).score()
}

/// Returns the first `k` values of two lists, by falling score; on a tie those of the first list
/// come first.
pub fn merged<T: Scored>(first: &Ranked<T>, second: &Ranked<T>, k: u8) -> Ranked<T>
    requires { k ≤ 16 }
    ensures { result ≡ merge T.score k first.now second.now }
{
    let mut taken = Ranked::empty();
    let mut i = 0;
    let mut j = 0;
    for _n in 0..k {
        if takes_second(first, i, second, j) {
            taken.push(*second.get(j));
            j += 1;
        } else if i < first.len() {
            taken.push(*first.get(i));
            i += 1;
        }
    }
    taken
}
