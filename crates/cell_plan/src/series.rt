//! A list of a plan's parts of one kind.

ghost use Rattle.std.specs.Prelude.{◌≡◌, ◌++◌, ◌∷◌, [], IfOk, OnOk, OnErr, MatchOption};

use chip_core::OutOfMemory;
use std::alloc::Global;
use std::marker::Model;

/// An ordered list of any number of a plan's parts. Contracts see it as a list of its items.
#[derive(Drop)]
pub struct Series<T: Drop> {
    items: Vec<T>,
}

impl<T: Drop> Model for Series<T> {
    ghost use Rattle.std.specs.Prelude.{List};

    ghost Value = { List T };

    ghost view = { λ s. s.items.items };
}

impl<T: Drop> Series<T> {
    /// Makes an empty series. Allocates nothing.
    pub fn new(alloc: Global) -> Series<T>
        ensures { result ≡ [] }
    {
        Series {
            items: Vec::new(alloc),
        }
    }

    /// Appends `item`. If memory runs out, the series is unchanged.
    pub fn push(&mut self, item: T) -> Result<(), OutOfMemory>
        ensures ok { OnOk result (self.new ≡ self.old ++ item ∷ []) }
        ensures err { OnErr result (self.new ≡ self.old) }
    {
        self.items.push(item)?;
        Ok(())
    }

    /// Removes the last item and returns it; `None` exactly if the series is empty.
    pub fn pop(&mut self) -> Option<T>
        ensures { MatchOption result ((self.old ≡ []) × (self.new ≡ []))
            (λ last. self.old ≡ self.new ++ last ∷ []) }
    {
        self.items.pop()
    }

    /// Returns all items.
    pub fn as_slice(&self) -> &[T]
        ensures { result.now ≡ self.now }
    {
        self.items.as_slice()
    }
}

impl<T: Copy> Series<T> {
    /// Makes a series of copies of `items`. Fails only if memory runs out.
    pub fn copied(alloc: Global, items: &[T]) -> Result<Series<T>, OutOfMemory>
        ensures { IfOk result (λ all. all ≡ items.now) }
    {
        let mut all = Vec::new(alloc);
        all.extend_from_slice(items)?;
        Ok(Series { items: all })
    }
}
