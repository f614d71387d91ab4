//! The steps on the shared word.

ghost use Rattle.std.specs.Prelude.{◌≡◌, ◌≤◌, max, IfOk, true};
ghost use Rattle.pilot_search.specs.Knowledge.{IsHeld};
ghost use Rattle.pilot_search.specs.Bounds.{greatest};

use crate::points::Points;
use crate::rule::{Begin, Ceiling, Greater, Load, Raise, Same};
use crate::shared::{BestSeat, Shared};
use atomic_table::Table;
use chip_core::{OutOfMemory, Sample};
use short_code::Codes;
use std::alloc::Global;
use std::marker::Brand;

impl Shared {
    /// Makes a word of 0 and its first seat.
    ///
    /// The ceiling is the largest energy of these samples at any phase. It exists only in
    /// contracts; nothing computes it. Returns [`OutOfMemory`] if there is no memory for the word
    /// or for 262,144 bytes of the codes' points.
    pub fn new(
        alloc: Global,
        samples: &[Sample],
        codes: &Codes,
    ) -> Result<(Shared, BestSeat), OutOfMemory>
        ensures held { IfOk result (λ made. IsHeld made.1 made.0) }
        ensures floor { IfOk result (λ made. made.1.floor ≡ 0) }
        ensures ceiling { IfOk result (λ made. made.1.ceiling ≡ greatest samples.now) }
    {
        let (shared, mut seat) = Shared::open(alloc, codes)?;
        shared.begin::<Brand>(&mut seat, samples);
        Ok((shared, seat))
    }

    /// Makes a word of 0 with a seat that has no ceiling yet.
    fn open(alloc: Global, codes: &Codes) -> Result<(Shared, BestSeat), OutOfMemory>
        ensures { IfOk result (λ made. (made.1.word ≡ made.0) × (made.1.fresh ≡ true)) }
    {
        let points = Points::of(alloc, codes)?;
        let (table, seat) = Table::of_words(alloc, &[0], &())?;
        Ok((Shared { table, points }, BestSeat { seat }))
    }

    /// Gives the first seat its ceiling, by one load.
    fn begin<C: Ceiling>(&self, seat: &mut BestSeat, _samples: &[Sample])
        requires word { seat.old.word ≡ self.now }
        requires fresh { seat.old.fresh ≡ true }
        ensures held { IsHeld seat.new self.now }
        ensures floor { seat.new.floor ≡ 0 }
        ensures ceiling { seat.new.ceiling ≡ C.ceiling }
    {
        self.table.shared.load::<Begin<C>>(&mut seat.seat, 0);
    }

    /// Reads the word.
    pub(crate) fn load(&self, seat: &mut BestSeat) -> u64
        requires { IsHeld seat.old self.now }
        ensures least { seat.old.floor ≤ result }
        ensures most { result ≤ seat.old.ceiling }
        ensures held { IsHeld seat.new self.now }
        ensures floor { seat.new.floor ≡ result }
        ensures ceiling { seat.new.ceiling ≡ seat.old.ceiling }
    {
        self.table.shared.load::<Load>(&mut seat.seat, 0)
    }

    /// Raises the word to an energy if it is lower, and returns its old value.
    pub(crate) fn fetch_max(&self, seat: &mut BestSeat, energy: u64) -> u64
        requires seat { IsHeld seat.old self.now }
        requires energy { energy ≤ seat.old.ceiling }
        ensures least { seat.old.floor ≤ result }
        ensures most { result ≤ seat.old.ceiling }
        ensures held { IsHeld seat.new self.now }
        ensures floor { seat.new.floor ≡ max result energy }
        ensures ceiling { seat.new.ceiling ≡ seat.old.ceiling }
    {
        self.table
            .shared
            .fetch_max::<Raise>(&mut seat.seat, 0, energy)
    }

    /// Makes another seat with the same knowledge.
    pub(crate) fn split_seat(&self, seat: &mut BestSeat) -> BestSeat
        requires { IsHeld seat.old self.now }
        ensures kept { seat.new ≡ seat.old }
        ensures new { result ≡ seat.old }
    {
        BestSeat {
            seat: self.table.shared.split_seat::<Same>(&mut seat.seat),
        }
    }

    /// Joins two seats into one.
    pub(crate) fn join_seat(&self, seat: &mut BestSeat, other: BestSeat)
        requires seat { IsHeld seat.old self.now }
        requires other { IsHeld other self.now }
        ensures held { IsHeld seat.new self.now }
        ensures floor { seat.new.floor ≡ max seat.old.floor other.floor }
        ensures ceiling { seat.new.ceiling ≡ seat.old.ceiling }
    {
        let BestSeat { seat: spent } = other;
        self.table
            .shared
            .join_seat::<Greater>(&mut seat.seat, spent);
    }
}
