//! The last samples.

ghost use Rattle.rake_finger.specs.Common.{Sample};
ghost use Rattle.std.specs.Prelude.{◌≡◌, ◌<◌, ◌≤◌, ◌+◌, ◌-◌, ◌%◌, ◌^◌, List, [], ◌∷◌, ◌++◌, length};
ghost use Rattle.std.specs.Prelude.{take, drop, slice_get, Some, IfOk};
ghost use Rattle.rake_finger.specs.Held.{HoldsLast};

use chip_core::{OutOfMemory, Sample};
use std::alloc::Global;
use std::marker::Model;

/// A buffer of the last samples that it has taken, as many as it has room for.
///
/// Contracts see its room, the number of samples taken, and its cells; `HoldsLast` specifies the
/// samples in these.
#[derive(Drop)]
pub struct SampleRing {
    cells: Vec<Sample>,
    taken: u64,
}

impl Model for SampleRing {
    ghost use Rattle.std.specs.Prelude.{◌≤◌, ◌^◌, vec_len};
    ghost use Rattle.rake_finger.specs.Held.{Held};

    ghost Value = { Held };

    ghost view = { λ ring. record {
      room = vec_len ring.cells;
      taken = ring.taken;
      cells = ring.cells.items;
    } };

    ghost invariant = { λ ring. (1 ≤ vec_len ring.cells) × (ring.taken ≤ 2 ^ 63) };
}

impl SampleRing {
    /// Makes a ring that has taken no sample, with room for the last `room` samples.
    ///
    /// It allocates four bytes for each of them, and fails only if that allocation does.
    pub fn new(alloc: Global, room: u32) -> Result<SampleRing, OutOfMemory>
        requires { 1 ≤ room }
        ensures room { IfOk result (λ ring. ring.room ≡ room) }
        ensures holds { IfOk result (λ ring. HoldsLast ring []) }
    {
        let cells = vec![in alloc; Sample { i: 0, q: 0 }; room as usize]?;
        Ok(SampleRing { cells, taken: 0 })
    }

    /// Returns how many samples it has taken.
    pub fn taken(&self) -> u64
        ensures value { result ≡ self.now.taken }
        ensures most { result ≤ 2 ^ 63 }
    {
        self.taken
    }

    /// Takes another sample into `cell`, which is the next one.
    fn put(&mut self, cell: usize, s: Sample)
        requires next { cell ≡ self.old.taken % self.old.room }
        requires few { self.old.taken < 2 ^ 63 }
        ensures room { self.new.room ≡ self.old.room }
        ensures taken { self.new.taken ≡ self.old.taken + 1 }
        ensures holds { (samples : List Sample) → HoldsLast self.old samples →
            HoldsLast self.new (samples ++ s ∷ []) }
    {
        self.cells[cell] = s;
        self.taken += 1;
    }

    /// Takes another sample, which replaces the oldest if the ring is full.
    pub fn push(&mut self, s: Sample)
        requires { self.old.taken < 2 ^ 63 }
        ensures room { self.new.room ≡ self.old.room }
        ensures taken { self.new.taken ≡ self.old.taken + 1 }
        ensures holds { (samples : List Sample) → HoldsLast self.old samples →
            HoldsLast self.new (samples ++ s ∷ []) }
    {
        let cell = self.cell_of(self.taken);
        self.put(cell, s);
    }

    /// Takes more samples, in order.
    pub fn push_all(&mut self, more: &[Sample])
        requires { self.old.taken + length more.now ≤ 2 ^ 63 }
        ensures room { self.new.room ≡ self.old.room }
        ensures taken { self.new.taken ≡ self.old.taken + length more.now }
        ensures holds { (samples : List Sample) → HoldsLast self.old samples →
            HoldsLast self.new (samples ++ more.now) }
    {
        let mut cell = self.cell_of(self.taken);
        for sample in more {
            self.put(cell, *sample);
            cell = self.cell_after(cell);
        }
    }

    /// The cell of a place, counted from the first sample that the ring has taken.
    pub(crate) fn cell_of(&self, place: u64) -> usize
        ensures value { result ≡ place % self.now.room }
        ensures below { result < self.now.room }
    {
        (place % self.cells.len() as u64) as usize
    }

    /// The cell after a cell.
    pub(crate) fn cell_after(&self, cell: usize) -> usize
        requires { cell < self.now.room }
        ensures value { result ≡ (cell + 1) % self.now.room }
        ensures below { result < self.now.room }
    {
        let last = self.cells.len() - 1;
        if cell < last { cell + 1 } else { 0 }
    }

    /// Returns how many cells there are from a cell on.
    pub(crate) fn cells_from(&self, cell: usize) -> usize
        requires { cell < self.now.room }
        ensures { result ≡ self.now.room - cell }
    {
        self.cells.len() - cell
    }

    /// The samples in `count` cells from `cell` on.
    pub(crate) fn run(&self, cell: usize, count: usize) -> &[Sample]
        requires { cell + count ≤ self.now.room }
        ensures value { result.now ≡ take count (drop cell self.now.cells) }
        ensures long { length result.now ≡ count }
    {
        let (_, ahead) = self.cells.split_at(cell);
        let (run, _) = ahead.split_at(count);
        run
    }

    /// The sample in a cell.
    pub(crate) fn get(&self, cell: usize) -> Sample
        requires { cell < self.now.room }
        ensures { slice_get self.now.cells cell ≡ Some result }
    {
        self.cells[cell]
    }
}
