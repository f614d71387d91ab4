//! Short lists that are not allocated.

ghost use Rattle.std.specs.Prelude.{◌≡◌, ◌<◌, ◌≤◌, List, [], ◌∷◌, ◌++◌, length, take};

use std::alloc::AllocError;
use std::marker::Model;

/// A type of item of a short list.
pub trait Filler: Copy {
    ghost filler: { Self };

    /// The filler of unused places of a list.
    fn filler() -> Self
        ensures { result ≡ filler };
}

/// A list of at most `N` items. Contracts see the list.
///
/// Unused places contain the filler, so that lists can be copied and compared.
#[derive(Copy, PartialEq, Eq, Debug)]
pub(crate) struct Few<T: Filler, const N: usize> {
    places: [T; N],
    count: usize,
}

impl<T: Filler, const N: usize> Model for Few<T, N> {
    ghost use Rattle.std.specs.Prelude.{List, length, take};
    ghost use Rattle.std.specs.Coded.{coded_list};
    ghost use Rattle.pilot_sets.specs.Filled.{filled, IsFilled};
    ghost use Rattle.pilot_sets.specs.Filling.{filled-held};

    ghost Value = { List T };

    ghost coded = { coded_list T.code };

    ghost view = { λ f. take f.count f.places };

    ghost invariant = { λ f. IsFilled T.filler N f.places f.count };

    ghost inverse = { λ l. record { places = filled T.filler N l; count = length l } };

    ghost inverse_ok = { λ f h. filled-held T.filler f h };
}

impl<T: Filler, const N: usize> Clone for Few<T, N> {
    ghost use Rattle.std.specs.Prelude.{◌≡◌, ⊤};

    ghost is_clone = { λ old new. new ≡ old };

    ghost is_infallible = { λ _. ⊤ };

    fn clone(&self) -> Result<Self, AllocError> {
        Ok(*self)
    }
}

impl<T: Filler, const N: usize> Few<T, N> {
    /// An empty list.
    pub(crate) fn empty() -> Few<T, N>
        ensures { result ≡ [] }
    {
        Few {
            places: [T::filler(); N],
            count: 0,
        }
    }

    /// Returns the items of the list.
    pub(crate) fn all(&self) -> &[T]
        ensures value { result.now ≡ self.now }
        ensures most { length result.now ≤ N }
    {
        &self.places[..self.count]
    }

    /// Adds an item at the end.
    pub(crate) fn push(&mut self, thing: T)
        requires { length self.old < N }
        ensures { self.new ≡ self.old ++ thing ∷ [] }
    {
        self.places[self.count] = thing;
        self.count += 1;
    }

    /// Adds an item at the end if the list has fewer than `room` items.
    pub(crate) fn push_within(&mut self, room: usize, thing: T)
        requires room { room ≤ N }
        requires within { length self.old ≤ room }
        ensures value { self.new ≡ take room (self.old ++ thing ∷ []) }
        ensures within { length self.new ≤ room }
    {
        if self.count < room {
            self.push(thing);
        }
    }
}
