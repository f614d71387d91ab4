//! Lists with one item for each pilot that the sets may hold.

ghost use Rattle.std.specs.Prelude.{◌≡◌, ◌<◌, ◌≤◌, ◌+◌, [], ◌∷◌, ◌++◌, length, slice_get, Some};
ghost use Rattle.std.specs.Prelude.{IsOk, OnOk, OnErr, ◌↔◌, IsTrue};

use crate::few::{Few, Filler};
use chip_core::Full;
use std::alloc::AllocError;
use std::marker::Model;

/// A list of at most 36 items, one for each pilot that the sets may hold. Contracts see the list.
#[derive(Copy, PartialEq, Eq, Debug)]
pub struct EachPilot<T: Filler> {
    list: Few<T, 36>,
}

impl<T: Filler> Model for EachPilot<T> {
    ghost use Rattle.std.specs.Prelude.{List};
    ghost use Rattle.std.specs.Coded.{coded_list};

    ghost Value = { List T };

    ghost coded = { coded_list T.code };

    ghost view = { λ l. l.list };

    ghost inverse = { λ l. record { list = l } };
}

impl<T: Filler> Clone for EachPilot<T> {
    ghost use Rattle.std.specs.Prelude.{◌≡◌, ⊤};

    ghost is_clone = { λ old new. new ≡ old };

    ghost is_infallible = { λ _. ⊤ };

    fn clone(&self) -> Result<Self, AllocError> {
        Ok(*self)
    }
}

impl<T: Filler> EachPilot<T> {
    /// An empty list.
    pub fn empty() -> EachPilot<T>
        ensures { result ≡ [] }
    {
        EachPilot { list: Few::empty() }
    }

    /// Returns the number of items in the list.
    pub fn len(&self) -> u8
        ensures value { result ≡ length self.now }
        ensures most { result ≤ 36 }
    {
        self.list.all().len() as u8
    }

    /// Whether the list is empty.
    pub fn is_empty(&self) -> bool
        ensures { IsTrue result ↔ (self.now ≡ []) }
    {
        self.list.all().is_empty()
    }

    /// Returns item `i`, counted from 0.
    pub fn get(&self, i: u8) -> T
        requires { i < length self.now }
        ensures { slice_get self.now i ≡ Some result }
    {
        self.list.all()[usize::from(i)]
    }

    /// Adds an item at the end. Returns `Full`, and changes nothing, exactly if the list has 36
    /// items.
    pub fn push(&mut self, thing: T) -> Result<(), Full>
        ensures room { IsOk result ↔ (length self.old < 36) }
        ensures ok { OnOk result (self.new ≡ self.old ++ thing ∷ []) }
        ensures err { OnErr result (self.new ≡ self.old) }
    {
        if self.list.all().len() == 36 {
            return Err(Full);
        }
        self.list.push(thing);
        Ok(())
    }

    /// Adds items at the end.
    pub(crate) fn add(&mut self, things: &[T])
        requires { length self.old + length things.now ≤ 36 }
        ensures { self.new ≡ self.old ++ things.now }
    {
        for t in things {
            self.list.push(*t);
        }
    }

    /// Returns the items of the list.
    pub(crate) fn all(&self) -> &[T]
        ensures { result.now ≡ self.now }
    {
        self.list.all()
    }
}
